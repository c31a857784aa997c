//! The command `sample`: its units are made and merged, their program is run, and a summary is written.
//!
//! Its public contract says that what is written is the summary of a CIL program to which CIL programs of the units are merged, and that
//! nothing is written unless that program exits within its bound of steps.
//!
//! The command is own.
#![tactic(auto)]

mod command;

pub use command::sample;
