//! Typed functions become bodies of CIL: statements keep their order and their nesting, loops are loops without end that a `break` leaves,
//! and `continue` is a jump.
//!
//! Its public contract answers for every function: it ends, and want of memory is its one other answer.
//!
//! The statements are those of C11 6.8; docs/LOWERING.md has each construct with its code.
#![tactic(auto)]

mod body;
mod labels;
mod statements;

pub use body::function;
