//! The tests of `run_cil` of `cil_runner` over linked programs.
//!
//! They use public calls alone, and stand in a crate of their own so that `cil_runner` is proved once, and not once more with its tests.
#![tactic(auto)]

#[cfg(test)]
mod equal;
#[cfg(test)]
mod linked;
#[cfg(test)]
mod units;
