//! The translation units of a sample: C units that are made from a seed.
//!
//! Its public contract gives the bytes of each unit, and the name of its file, as the definition does.
//!
//! The units are own; they are of the profile of C11 that `cil merge` takes.
#![tactic(auto)]

mod pieces;
mod units;
mod words;

pub use units::{unit_files, unit_sources};
