//! The text of a CIL program: each line is its tokens with one blank between two, behind two blanks for each brace that
//! is open.
//!
//! Its public contract gives, for a well-formed program, exactly the bytes of its text as `Text.antt` of `cil_tree`
//! defines it, and refuses exactly those that would be longer than a CIL text may be, before a byte of them is printed.
//! Want of memory is the one other answer.
//!
//! One pass over the tree does both: it appends tokens to a sink that counts bytes, or to one that keeps them. Where
//! bytes are counted, a table has the lengths of each type's declarations, so a text too long is refused in the time
//! that its tree takes.
//!
//! The text is own; its tokens are those of C11 6.4, its declarators those of 6.7.6.
#![tactic(auto)]

mod aggregates;
mod definitions;
mod expressions;
mod function;
mod globals;
mod images;
mod instructions;
mod lengths;
mod lookups;
mod numbers;
mod page;
mod parts;
mod printing;
mod program;
mod scopes;
mod sides;
mod sink;
mod statements;
mod types;

pub use printing::{PrintStop, print};
