//! The words of a CIL text, in lines.
//!
//! Its public contract says that the lines of any bytes, and which word each of their tokens is, are those of the
//! reading; all but want of memory.
//!
//! Words are the tokens of C11 6.4 that a CIL text has; the lines are the product's own.
#![tactic(auto)]

mod lines;
mod words;

pub use lines::lines_of;
pub use words::{Word, word_of};
