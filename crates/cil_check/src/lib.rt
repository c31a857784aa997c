//! The test of well-formedness of CIL programs.
//!
//! Its public contract says that the test is true exactly for a well-formed program: one whose types, names, globals
//! and functions' bodies keep their rules. Want of memory is the one other answer.
//!
//! The rules are own, over C11 6.2.1 to 6.2.5, 6.3.2.1, 6.4, 6.5 and 6.7 to 6.9.
#![tactic(auto)]

mod aggregates;
mod bodies;
mod elements;
mod expressions;
mod globals;
mod images;
mod instructions;
mod labels;
mod name_sets;
mod names;
mod nodes;
mod operators;
mod paths;
mod scope;
mod seen;
mod statements;
mod switches;
mod types;
mod words;

pub use expressions::{global_type, local_type};
pub use globals::check;
pub use images::unions_agree;
pub use operators::{
    address, binary, cast, constant, element, element_of, is_scalar, is_void, member, names_enum,
    pointed, read, start, unary,
};
pub use paths::{Subobject, path_part};
pub use scope::Scope;
pub use seen::{Seen, see, type_at};
pub use types::types_are_well_formed;
