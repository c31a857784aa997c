//! The tests of the crates that read C: `c_lexer`, `c_height`, `c_levels`, `c_speller`, `c_exprs` and `c_parser`, as far as the program cannot show what
//! they answer: the kinds, texts and numbers of tokens, levels that are asked for, and trees that no unit has. What units become is in `tests/tokens.rows`,
//! `tests/refused.rows` and `tests/accepted.rows`.
//!
//! They use public calls alone, and stand in a crate of their own so that those crates are proved once, and not once more with their tests.
#![tactic(auto)]

#[cfg(test)]
mod kinds;
#[cfg(test)]
mod levels;
#[cfg(test)]
mod lexer;
#[cfg(test)]
mod own_lists;
#[cfg(test)]
mod places;
#[cfg(test)]
mod spelled;
#[cfg(test)]
mod trees;
