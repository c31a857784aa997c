//! The loop of a machine that runs CIL programs: a call of a function of a table is run to its end, with a source and a
//! sink, within so many units.
//!
//! Its public contract says that the answer tells what the call does in the meaning of the linked program, which has all
//! input at hand and keeps all output, and how many units are left then. After a read or a write that failed, and after
//! want of memory, it says what that run has in common with the one that was cut off.
//!
//! The rules come from C11 5.1.2.2.3, 6.5.2.2, 6.8.6.4 and 6.9.1; the unit that a call spends is own.
#![tactic(auto)]

mod calls;
mod ends;
mod entering;
mod hosts;
mod kinds;
mod returning;
mod running;
mod runs;
mod turns;

pub use ends::RunEnd;
pub use running::run_call;
pub use runs::{FirstCall, Run};
