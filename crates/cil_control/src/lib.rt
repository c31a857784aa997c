//! The control of CIL bodies, as lists of steps with resolved targets: definitions and laws.
//!
//! A body is a tree, and a machine that goes from place to place in a list is to have its meaning. Its public contract
//! says that what remains of a run at each place of the list is what the step there does, that at the first place it is
//! the run of the body, and that each step leads further on in the list, but by a spent unit; so the machine needs to know
//! its steps alone, and ends.
//!
//! The rules come from C11 6.8.
#![tactic(auto)]

mod laws;
mod places;

pub use laws::{
    bodies_are_taken, bodies_lead_on, labels_are_placed, starts_are_first, targets_are_entered,
};
pub use places::{Table, add_cases, add_labels, behind, next};
