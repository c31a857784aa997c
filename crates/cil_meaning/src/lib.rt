//! The definitions of CIL that the product's promises are about: programs, their text and their meaning. So far they
//! cover programs of one form: a main that returns a constant expression of sums and differences.
//!
//! Its public law says that no two programs have one text, so a text names one program.
//!
//! The text is the product's own; the meaning is that of C11 6.5.6 and 5.1.2.2.
#![tactic(auto)]

mod laws;
mod tree;

pub use laws::one_text;
pub use tree::Exp;
