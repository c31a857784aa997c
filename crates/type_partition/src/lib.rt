//! Which things are isomorphic, and the classes of what is joined and isomorphic.
//!
//! All aggregates are in one class until it is split, again and again, by what the parts of its members are; then things of one number
//! are joined to those that are joined already. Two things have one class exactly where the least equivalence of both holds them.
//!
//! The rules come from C11 6.2.7p1; that isomorphic types are one without a link is own.
#![tactic(auto)]

mod gathering;
mod refining;

pub use gathering::gather;
pub use refining::{copied, isomorphic};
