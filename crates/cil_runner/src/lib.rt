//! The machine that runs CIL programs, over the whole language: programs are linked and loaded once, and run once.
//!
//! Its public contract says that a run over a source and a sink answers what the meaning of the linked programs gives with
//! the argument words, at the bound, whatever input the source gives, and that an ended run has used the least bound at
//! which it ends.
//!
//! The rules come from C11 5.1.2.2; the units that a run may spend are own.
#![tactic(auto)]

mod arguments;
mod loading;
mod machine;
mod runs;

pub use cil_turns::RunEnd;
pub use machine::Machine;
pub use runs::run_cil;
