//! Linking of CIL programs: which entities their run has, what each is, and which function the run begins with.
//!
//! Its public contract says that the globals of each program have the numbers of the definition, that entities mean what the
//! linked programs mean by them, and that the run begins with that function; want of memory is the one other answer.
//!
//! The rules come from C11 5.1.1.2p1 phase 8, 5.1.2.2.1p1 and 6.2.2p2.
#![tactic(auto)]

mod entities;
mod mains;
mod units;

pub use entities::{Definer, Entities, entities_of};
pub use mains::{Main, is_main, main_of};
pub use units::Units;
