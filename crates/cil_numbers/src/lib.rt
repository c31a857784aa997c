//! Values with their signs in a line of a CIL text: of an enumerator, a case label, or an image.
//!
//! Its public contract says that a value is read, with its kind and what stands behind it, exactly where the reading
//! reads one: from a number, a `-` and a number, or the difference that a kind's least value is written as; so none is
//! read from a number in parentheses.
//!
//! The constants are those of C11 6.4.4.1; how a value below zero is written is own.
#![tactic(auto)]

mod numbers;

pub use numbers::{Numbered, read_number};
