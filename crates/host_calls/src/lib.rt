//! The functions that a host gives to a C program that has no definition of them: a byte of input or output,
//! the end of the program, and memory of its own.
//!
//! Its public contract gives each call as the row of its function: a result and the state after it, or
//! Undefined, and the laws that it knows no more where its arguments know less, and no object's name.
//!
//! The rows come from C11 7.21.7.6, 7.21.7.8, 7.22.3.3, 7.22.3.4, 7.22.4.1 and 7.22.4.4; which there are, the
//! bound on memory, and what is undefined besides are own.
#![tactic(auto)]

mod calls;
mod laws;
mod names;

pub use calls::{HostResult, Io, host};
pub use laws::host_keeps_order;
pub use names::HostName;
