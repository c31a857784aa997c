//! The definitions of what C translation units do when they are linked and run, over the plain syntax trees.
//!
//! They say, for trees of units, words, an input and a bound, the outcome of the run. Types and declarations are those that `c_typing` finds;
//! states, control, calls, the host and linking those of `execution`. The public laws say that parts of functions and calls are fixed points, so
//! that no bound on depth is seen in them, that a smaller bound only cuts a run, and that the units that an ended run has spent are its least bound.
//!
//! The rules come from C11 5.1.2 (execution), 6.2.4 (lifetimes), 6.3 (conversions), 6.5 (expressions), 6.7.9 (initialisers), 6.8 (statements) and
//! 6.9 (external definitions); where the project's profile decides, a definition says that it is own.
#![tactic(auto)]

mod laws;

pub use laws::{
    bounds_only_cut, calls_are_their_step, ended_runs_spend_their_least_bound, parts_are_their_step,
};
