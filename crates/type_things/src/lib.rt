//! The types and the structs, unions and enums of several translation units as one list of things, each with its parts.
//!
//! A thing has a head, which says what it is, and parts: of an aggregate the types of its members with what stands beside them, of a type
//! the types that it is made of. Aggregates come first, unit by unit, and then the types.
//!
//! What is compared comes from C11 6.2.5 and 6.2.7; that names match without the suffixes of an earlier merge, and that qualifiers are
//! not compared, are own.
#![tactic(auto)]

mod graphs;
mod numbers;
mod stems;
mod web;

pub use graphs::HasGraph;
pub use numbers::{at, counted, impossible, narrow, put, sum};
pub use stems::{StemId, stem};
pub use web::{First, Head, Label, Part, Span, Stored, Web, weave};
