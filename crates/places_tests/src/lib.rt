//! The tests of `c_places`, and of what the speller and the parser make of one unit together.
//!
//! They use public calls alone. The numbers of tokens in their tables were counted from the tokens of each node and of its parts, in the order
//! of the text; that of a node without tokens is that of the token behind its place.
#![tactic(auto)]

#[cfg(test)]
mod numbers;
#[cfg(test)]
mod spelling;
#[cfg(test)]
mod units;
#[cfg(test)]
mod walk;
