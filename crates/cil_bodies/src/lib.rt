//! Bodies of CIL's functions as wholes: a new one, a use of an object or function at another type, and a body whose numbers of types, objects
//! and functions are put for others.
//!
//! Its public contract says what tree a new body, and a use at another type, stands for, and what tree is left where numbers are put for
//! others: that of the tree before, with what a mapping has for each type, object and function. Two laws: a tree whose types stand in a graph is
//! seen the same in a graph that grew from it; a table that maps the types of one graph into another says what mapping shapes says.
//!
//! The trees are those of C11 6.5, 6.8 and 6.9.1.
#![tactic(auto)]

mod bodies;
mod definitions;
mod expressions;
mod laws;
mod mapping;
mod retyping;
mod statements;

pub use bodies::new_body;
pub use definitions::{map_body, map_definition};
pub use expressions::{map_exp, map_place};
pub use laws::{grown_types_keep_trees, mapped_graphs_give_tables};
pub use mapping::{Mapping, Use};
pub use retyping::{retyped, retyped_pointer};
pub use statements::map_stmts;
