//! The reading of C's expressions, type names, specifiers, declarators and initialisers from tokens, in scopes of typedef names and up to a height.
//!
//! Its public contract gives a grammatical tree that spells the tokens in front of a cursor, or the number of a token with which no such tree begins
//! and where none ends; and the law that no tokens are spelled by two grammatical trees of one form. Its definitions are executable readings on lists of
//! tokens, proved to give exactly the grammatical trees, and its functions read one token at a time as those do.
//!
//! The rules come from C11 6.5 and 6.7; the height that bounds a tree is the project's own.
#![tactic(auto)]

mod argument_list;
mod below;
mod bounds;
mod builders;
mod calls;
mod declarators;
mod derivations;
mod enumerators;
mod expressions;
mod goes_on;
mod initialisers;
mod literals;
mod members;
mod nexts;
mod operands;
mod operators;
mod parameters;
mod pieces;
mod specifier_lists;
mod starts;
mod takes;
mod texts;
mod told;
mod type_names;
mod uniqueness;
mod words;

pub use calls::{declarator, expr, initialiser, named_declarator, specifiers, type_name};
pub use told::{has_typedef, name_of};
pub use uniqueness::one_tree;
pub use words::{
    DeclaratorForm, Derivation, Designation, Joint, Operator, Piece, SpecifierForm, Start,
};
