//! The table that a machine runs linked programs on: what each entity of the run is to calls, with their functions loaded.
//!
//! Its public contract says that the table of units is what they mean when they are linked, and that its functions
//! run from step to step; want of memory is the one other answer.
//!
//! The rules come from C11 5.1.2.2.3p1, 6.2.2p2, 6.2.4p5 and 6.9.1.
#![tactic(auto)]

mod functions;
mod table;

pub use table::load_table;
