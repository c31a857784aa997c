//! The functions of the host over a source and a sink, for a machine that runs programs.
//!
//! Its public contract says that a call answers as it does in the meaning of programs, which has all input at hand
//! and keeps all output: the source is read only where a byte is wanted and none is at hand, at most 4,096 bytes at
//! once and never behind its end, and output waits, less than 4,096 bytes of it and never while the source is read.
//!
//! The rows are those of `host_calls` (C11 7.21.7, 7.22.3, 7.22.4); when the source is read and the sink written is
//! own (7.21.3p3).
#![tactic(auto)]

mod ahead;
mod ends;
mod streams;
mod waiting;

pub use ends::HostEnd;
pub use streams::Streams;
