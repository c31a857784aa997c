//! The spelling of C's syntax trees: the tokens of a unit with their texts.
//!
//! Its public contract says that the tokens are those of the definition, each with its text; want of memory is the one
//! other answer.
//!
//! The rules come from C11 6.4 and Annex A.
#![tactic(auto)]

mod spelled;
mod speller;
mod unit_speller;
mod wording;

pub use spelled::SpelledToken;
pub use unit_speller::spell;
