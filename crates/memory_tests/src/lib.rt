//! The tests of `byte_mem` and `host_calls`.
//!
//! They use public calls alone, and stand in a crate of their own so that those crates are proved once, and not once more with their tests.
#![tactic(auto)]

#[cfg(test)]
mod equal;
#[cfg(test)]
mod host;
#[cfg(test)]
mod store;
