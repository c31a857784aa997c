//! The definitions of C that the product's promises are about: grammar and meaning of a translation unit, over the
//! tokens of the lexer's definition; so far they cover units of one form, a main that returns a constant expression of sums and differences.
//!
//! Its public contract is laws about the definitions: a text is the unit of one expression at most, and the
//! executable reading finds that expression exactly; the crates above cite the definitions in their own contracts.
//!
//! The rules come from C11 6.4 (tokens), 6.5.1 and 6.5.6 (expressions), 6.9.1 (function definitions) and 5.1.2.2 (start and end).
#![tactic(auto)]

mod laws;
mod tree;

pub use laws::{one_expression, reading_is_exact};
pub use tree::Expr;
