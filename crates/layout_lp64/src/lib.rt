//! The sizes, alignments and offsets of an arena's types, computed once for each type.
//!
//! Its public contract gives exactly the layouts that the arena defines, names the least type that is
//! larger than an object may be, and brings layouts up to date at a cost that follows what is new.
//!
//! The rules come from C11 6.5.3.4 and 6.7.2.1; the numbers are own (LP64).
#![tactic(auto)]

mod aggregate_table;
mod arithmetic;
mod layouts;
mod placing;
mod span_table;
mod spans;

pub use layouts::{LayoutStop, Layouts};
