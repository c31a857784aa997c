//! What it means to execute a program of any of the languages here: states, results, control with entry at labels
//! and cases, calls, the host, linking, and how a run starts and ends. Each meaning is built from these pieces.
//!
//! Its public laws say that calls are a fixed point, that a smaller bound only cuts a run, and that the units that an
//! ended run has spent are its least bound. They hold of every language whose bodies are tame. Another says that the mode
//! of linking does not count where no name has two definitions.
//!
//! The rules come from C11 5.1.2, 6.2.2, 6.2.4, 6.5.2.2, 6.8 and 6.9; the budget, and what is compared at a call,
//! are own.
#![tactic(auto)]

mod laws;

pub use laws::{
    bounds_only_cut, calls_are_their_step, ended_runs_spend_their_least_bound,
    one_definition_links_alike,
};
