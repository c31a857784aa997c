//! Typed expressions and initialisers become instructions: expressions without effects, and before them the statements
//! that do what they do.
//!
//! Its public contract answers for every tree: it ends, and want of memory is its one other answer.
//!
//! The order of evaluation and the temporaries are own where C11 6.5 leaves them open; docs/LOWERING.md has each construct
//! with its code.
#![tactic(auto)]

mod walk;

pub use walk::{Lowered, effect, initialise, lower, value};
