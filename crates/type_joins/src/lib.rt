//! Which things are one once some pairs of them are, and all that follows from it: the parts of what is one are one, at equal places.
//!
//! What is joined is a least equivalence, and two things that would have to be one and differ in themselves are a clash.
//!
//! The rules come from C11 6.2.7 (types of two units).
#![tactic(auto)]

mod forest;
mod joining;

pub use forest::Forest;
pub use joining::{Joining, Pair};
