//! The words of the program's command line, and what they ask for.
//!
//! Its public contract gives the command that the words are, or none, as its definition does.
//!
//! The commands are the product's own; which words an operating system can hand on is POSIX's.
#![tactic(auto)]

mod command;

pub use command::{Command, read_words};
