//! The arena of types of one translation unit: a list of types, which name each other by number, and
//! a list of structs, unions and enums.
//!
//! Its public contract shows the arena as these two lists, keeps that a type names only earlier types
//! and that nesting by value ends, and promises that what an arena gains changes no earlier type.
//!
//! The rules come from C11 6.2.5 (types), 6.5.3.4 and 6.7.2.1 (sizes, alignments and offsets).
#![tactic(auto)]

mod aggregates;
mod chains;
mod graph;
mod layout;
mod node_table;
mod nodes;

pub use aggregates::{AggKind, Aggregate, Member, Members};
pub use graph::TypeGraph;
pub use layout::Layout;
pub use nodes::{Node, PLAIN, QualType, Quals, TypeList, unqualified};
