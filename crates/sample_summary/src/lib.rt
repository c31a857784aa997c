//! What `cil sample` tells of a program: how many types it has, and how its run ends.
//!
//! Its public contract says that the lines tell the figures of the program's meaning, the least bound of steps among them, and that there
//! are none where the meaning does not exit within the bound.
//!
//! The lines and the bound are own; the run begins as C11 5.1.2.2.1 says.
#![tactic(auto)]

mod lines;
mod running;
mod stop;

pub use lines::summary;
pub use stop::SampleStop;
