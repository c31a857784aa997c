//! The law that the meaning of C's expressions and that of typed expressions agree.
//!
//! What the walk of `c_typing` makes of an expression means to `typed_semantics` what the expression means to `c_semantics`, in each state and
//! whatever calls do: each conversion that is a node there is one by static types here. The types of a typed unit that come from a graph are laid
//! out as the graph's, so that its operators give what those of CIL do.
//!
//! The rules are those of C11 6.3 (conversions), 6.5 (expressions) and 6.7.9 (initialisers).
#![tactic(auto)]

mod laws;

pub use laws::{
    typed_expressions_mean_their_syntax, typed_parts_of_statements_mean_their_syntax,
    types_of_units_are_those_of_their_graph,
};
