//! Tests of merging: units as CIL texts, with the text of the program that they are to become, or the refusal.
//!
//! Classes, names and the order of globals were told by hand, from C11 6.2.2, 6.2.7 and 6.9.
#![tactic(auto)]

#[cfg(test)]
mod linkage;
#[cfg(test)]
mod lowered;
#[cfg(test)]
mod row;
#[cfg(test)]
mod types;
