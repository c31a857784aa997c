//! The translation units of a merge, as they are read from files.
//!
//! Its public contract says which bytes are kept, and which limit the first unit that is not kept passes; every file is read, also
//! those behind it, and a file that is not there is told wherever it stands.
//!
//! The limits are own.
#![tactic(auto)]

mod file;
mod sources;

pub use file::read_file;
pub use sources::{Sources, read_units};
