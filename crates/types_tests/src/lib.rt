//! The tests of `type_graph`, `type_compat`, `unit_types`, `map_graph`, `typed_tree` and `const_eval`.
//!
//! They use public calls alone, and stand in a crate of their own so that those crates are proved once, and not once more with their tests.
#![tactic(auto)]

#[cfg(test)]
mod classes;
#[cfg(test)]
mod compatibility;
#[cfg(test)]
mod constants;
#[cfg(test)]
mod equal;
#[cfg(test)]
mod graphs;
#[cfg(test)]
mod mapped;
#[cfg(test)]
mod trees;
