//! The meaning of CIL programs, over the whole language: expressions, statements, functions, globals, and lists of
//! programs that are linked.
//!
//! Its public laws say that statements and calls are fixed points, so that no bound on depth is seen in them, that
//! jumps within a statement are followed there, that a smaller bound only cuts a run, that the units that an ended run has
//! spent are its least bound, and that a program alone defines no name twice.
//!
//! The rules come from C11 6.5 and 6.8, for the operators and constructs that CIL has.
#![tactic(auto)]

mod laws;

pub use laws::{
    a_program_defines_each_name_once, bounds_only_cut, calls_are_their_step,
    ended_runs_spend_their_least_bound, jumps_within_are_followed, statements_are_their_step,
};
