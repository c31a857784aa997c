//! The tests of `cast_rules`: for each operator rows of operands that meet its constraints or violate one, with the types of its results.
//!
//! The constraints are those of C11 6.5, and the types those that gcc gives by `_Generic`; that an enumerated type computes in int is own.
//! They use public calls alone, and stand in a crate of their own so that `cast_rules` is proved once, and not once more with its tests.
#![tactic(auto)]

#[cfg(test)]
mod equal;
#[cfg(test)]
mod forms;
#[cfg(test)]
mod kit;
#[cfg(test)]
mod nodes;
#[cfg(test)]
mod pairs;
#[cfg(test)]
mod singles;
