//! The kinds in which C's operators compute and those that they give, of operands that are numbers.
//!
//! Its public contract says both exactly, for each operator and each two kinds.
//!
//! The rules come from C11 6.3.1.1, 6.3.1.8 and 6.5.
#![tactic(auto)]

mod groups;
mod kinds;

pub use groups::{Group, group_of};
pub use kinds::{computing_kind, given_kind, stepping_kind, truth_kind};
