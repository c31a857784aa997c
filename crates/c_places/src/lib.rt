//! Where the nodes of C's syntax trees stand among the tokens of their file.
//!
//! Its public contract gives of each node the number of its first token, and a law: in the unit that the tokens of a file spell, each number
//! is one of a token that is there. Its definitions say which unit the tokens of a file spell.
//!
//! The trees are those of C11 Annex A; the numbers are the project's own.
#![tactic(auto)]

mod expressions;
mod laws;
mod statements;

pub use expressions::{
    bound_at, declarator_at, designator_at, enumerator_at, expr_at, init_at, item_at, member_at,
    member_declarator_at, parameter_at, specifier_at, specifiers_at, type_name_at,
};
pub use laws::tokens_are_there;
pub use statements::{block_item_at, declaration_at, external_at, statement_at};
