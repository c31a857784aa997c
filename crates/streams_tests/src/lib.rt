//! The tests of `cil_streams`.
//!
//! They use public calls alone, and stand in a crate of their own so that `cil_streams` is proved once, and not once more with its tests.
#![tactic(auto)]

#[cfg(test)]
mod calls;
#[cfg(test)]
mod console;
#[cfg(test)]
mod equal;
#[cfg(test)]
mod input;
#[cfg(test)]
mod output;
