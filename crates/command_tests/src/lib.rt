//! Tests of the commands of the program `cil` over files and streams in memory, of which each call fails once: what is answered,
//! written and told then. And of the line of each status.
//!
//! What a command answers where no call fails is tried with the program itself (`tests/`, `scripts/check-commands`).
//!
//! The expected texts, statuses and lines come from C11 and from what the product promises, not from its output.
#![tactic(auto)]

#[cfg(test)]
mod calls;
#[cfg(test)]
mod lines;
#[cfg(test)]
mod row;
#[cfg(test)]
mod table;
