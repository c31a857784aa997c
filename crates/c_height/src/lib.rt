//! How high C's syntax trees are.
//!
//! Its public contract says that the height of an external declaration is that of the definition, up to the greatest
//! number.
//!
//! The height is the project's own.
#![tactic(auto)]

mod measure;
mod unit_measure;

pub use unit_measure::{height, height_of_external};
