//! The static state in which the run of linked programs starts: the memory with their objects, their functions and the
//! arguments.
//!
//! Its public contract says that the store is the memory in which the definition starts the run, in the data model of the
//! programs; want of memory is the one other answer.
//!
//! The rules come from C11 5.1.2p1, 5.1.2.2.1p2 and 6.7.9p10.
#![tactic(auto)]

mod images;
mod loaded;
mod objects;
mod starting;
mod words;

pub use loaded::{Loaded, LoadedUnits};
pub use starting::start;
