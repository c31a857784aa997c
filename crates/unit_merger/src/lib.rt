//! The text of the CIL program that translation units become.
//!
//! Its public contract says that what it answers is the text of one well-formed CIL program, or that program itself, to which CIL
//! programs of the units are merged, in their order, whose external names stand at identifiers of the units; else the units are refused,
//! at places of their tokens, and for their links and the length of the text as such programs ask; and that the pool keeps its names.
//! What else these programs have of the units is not said yet.
//!
//! The limits are own.
#![tactic(auto)]

mod merger;
mod naming;
mod printing;

pub use merger::{unit_text, units_program, units_text};
