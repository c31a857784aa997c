//! The tests of `cil_base`, `outside`, `typedef_scopes`, `name_scopes`, `literal_values`, `cil_sources` and `sample_units`.
//!
//! They use public calls alone, and stand in a crate of their own so that those crates are proved once, and not once more with their tests.
#![tactic(auto)]

#[cfg(test)]
mod base;
#[cfg(test)]
mod devices;
#[cfg(test)]
mod equal;
#[cfg(test)]
mod literals;
#[cfg(test)]
mod samples;
#[cfg(test)]
mod scopes;
#[cfg(test)]
mod sources;
#[cfg(test)]
mod typedefs;
