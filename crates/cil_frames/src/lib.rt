//! Activations of CIL functions, and the course of a machine through their loaded bodies.
//!
//! Its public contract says that a course through a body's steps leaves of the run just what remains where it stops; that
//! entering and leaving an activation make and end its objects; that a call does with its parts what it does; and, as
//! laws, what the frames of activations that wait for calls make of a run.
//!
//! The rules come from C11 6.2.4, 6.5.2.2, 6.8 and 6.9.1; the unit that a turn spends is own.
#![tactic(auto)]

mod activations;
mod calling;
mod courses;
mod frames;
mod kinds;
mod laws;

pub use activations::{Argument, Automatic, enter, leave};
pub use calling::{Destination, Evaluated, evaluate, keep};
pub use courses::{Stop, run_course};
pub use frames::{Entity, Frame, Function};
pub use laws::{frames_are_meant, loaded_functions_are_meant, runs_only_grow};
