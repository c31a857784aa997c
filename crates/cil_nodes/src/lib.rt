//! The nodes of CIL's trees, each made of its parts.
//!
//! Its public contract says which tree each node stands for, by those of its parts. A part that stands in a box is
//! taken in its box, so that making a node cannot fail; one function for each kind of tree boxes, and one each puts a
//! tree behind others. Want of memory is their one other answer.
//!
//! The trees are those of C11 6.5 and 6.8.
#![tactic(auto)]

mod expressions;
mod places;
mod statements;

pub use expressions::{address, binary, boxed, cast, constant, push_argument, start, unary, value};
pub use places::{add_element, add_field, at, whole};
pub use statements::{
    block, boxed_statement, case, direct, goto, if_else, label, looped, push_statement,
    return_value, set, switch, through, zero,
};
