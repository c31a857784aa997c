//! The lists of steps that CIL bodies become: loading and taking steps.
//!
//! A body's statements are taken apart once: expressions and places are resolved by `cil_machine`, and jumps get the
//! places of `cil_control`. Its public contract says that what a step does is what the statement's own step means.
//!
//! The rules come from C11 6.5.16, 6.8.
#![tactic(auto)]

mod building;
mod calls;
mod cases;
mod laws;
mod loading;
mod operands;
mod steps;
mod taking;

pub use calls::{Call, Kind, Receiver, kind_at};
pub use cases::Cases;
pub use laws::{fitting_bodies_run, loaded_bodies_run};
pub use loading::load;
pub use operands::{Operand, resolve_operand};
pub use steps::Step;
pub use taking::{Datum, Onward, take};
