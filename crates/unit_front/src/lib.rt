//! A translation unit from its bytes to a CIL program.
//!
//! Its tokens are read (C11 6.4), its external declarations (6.9), the types and conversions of its expressions (6.3, 6.5), and its
//! functions and objects become those of a CIL program. Its public contract says of a refusal that it is one of a single unit, of its number,
//! and behind the grammar one of `check_unit`; that the external names of a program are declared at identifiers of the unit; and that the pool keeps its names.
#![tactic(auto)]

mod identifiers;
mod units;

pub use units::{front, parsed_front};
