//! How a command of the program ended, with its exit status and the line that tells it on standard error.
//!
//! Its public contract gives the exit status and the line of each end as their definitions do, and says of a write what was taken.
//!
//! The lines are the product's own; exit statuses are those of BSD's sysexits.h and of timeout(1).
#![tactic(auto)]

mod lines;
mod sending;
mod status;

pub use lines::report;
pub use sending::send;
pub use status::Status;
