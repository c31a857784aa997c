//! What the productions of C ask of their parts.
//!
//! Its public contract tells whether each node of a unit has the parts that its production asks for.
//!
//! The rules come from C11 6.5 to 6.9.
#![tactic(auto)]

mod levelling;
mod rules;
mod unit_levelling;

pub use unit_levelling::well_levelled;
