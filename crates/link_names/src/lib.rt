//! The external names of several translation units, each with its declarations.
//!
//! Its public contract says both ways when a name is refused that two units define, with which two places, and which names come else,
//! in the order in which they appear, each with what every unit declares of it.
//!
//! The rules come from C11 6.2.2 (linkage), 6.9 (definitions) and J.5.11 (several of them, where they are asked for).
#![tactic(auto)]

mod declared;
mod duplicates;
mod grouping;
mod linking;
mod names;
mod numbers;
mod parties;
mod units;

pub use linking::links;
pub use names::{LinkedName, LinkedSite, Links};
pub use numbers::{entity_number, unit_at, unit_number};
pub use units::{Fronted, Site};
