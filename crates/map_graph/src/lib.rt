//! The types of one arena in another: a table that gives each type of the first its number in the second.
//!
//! Its public contract gives each mapped type the mapped shape, in which aggregates have the numbers that are given for them and
//! qualifiers are kept or dropped.
//!
//! The rules are own.
#![tactic(auto)]

mod laws;
mod mapping;

pub use laws::mapped_types_keep_layouts;
pub use mapping::map_graph;
