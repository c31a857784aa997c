//! What the product reads and writes: files, a source and a sink of bytes, as traits, with objects in
//! memory for tests and adapters for the real ones.
//!
//! Its public contract says which bytes each call moves, that a failed call moves none, and that a count
//! of faults rises exactly in the calls that fail.
//!
//! The rules are own; C11 7.21.3 leaves to the implementation what a file is.
#![tactic(auto)]

mod host_files;
mod mem_files;
mod mem_sink;
mod mem_source;
mod std_sink;
mod std_source;
mod traits;
mod transfer;

pub use host_files::HostFiles;
pub use mem_files::MemFiles;
pub use mem_sink::MemSink;
pub use mem_source::MemSource;
pub use std_sink::StdSink;
pub use std_source::StdSource;
pub use traits::{Failed, Files, Sink, Source};
pub use transfer::{ReadStop, read_all, write_all};
