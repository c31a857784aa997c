//! The commands of the program `cil`: it merges C translation units into a CIL program, runs CIL programs, and makes samples.
//!
//! The contract of the function `cil` says what each command answers, what it writes and when each refusal comes.
//!
//! The commands and their messages are the product's own.
#![tactic(auto)]

mod execute;
mod file;
mod lower;
mod merge;
mod printer;
mod reader;
mod top;

pub use cil_lines::Status;
pub use cil_words::{Command, read_words};
pub use top::cil;
