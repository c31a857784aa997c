//! The tests of `cil_machine`, `cil_control`, `cil_code` and `cil_frames`.
//!
//! They use public calls alone, and stand in a crate of their own so that those crates are proved once, and not once more with their tests.
#![tactic(auto)]

#[cfg(test)]
mod control;
#[cfg(test)]
mod equal;
#[cfg(test)]
mod expressions;
#[cfg(test)]
mod frames;
#[cfg(test)]
mod loading;
#[cfg(test)]
mod steps;
#[cfg(test)]
mod trees;
