//! Names that are distinct, given one after another.
//!
//! A name that is asked for is given where it is new, and else with the least suffix that makes it new, which a made name always has; none
//! is given twice.
//!
//! The name spaces are those of C11 6.2.3; the suffixes are own.
#![tactic(auto)]

mod fresh;

pub use fresh::{Fresh, Wish};
