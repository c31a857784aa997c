//! The tests of `cil_check`: for each sentence of well-formedness programs that break it alone, and such that just keep it.
//!
//! They use public calls alone, and stand in a crate of their own so that `cil_check` is proved once, and not once more with its tests.
#![tactic(auto)]

#[cfg(test)]
mod bodies;
#[cfg(test)]
mod equal;
#[cfg(test)]
mod graphs;
#[cfg(test)]
mod jumps;
#[cfg(test)]
mod objects;
#[cfg(test)]
mod program;
#[cfg(test)]
mod spellings;
