//! The labels of a switch while its body is walked.
//!
//! Its public contract says which value a case label has once it is converted, and that it is refused exactly where a label before it has
//! that value, or where a second default label comes.
//!
//! The rules come from C11 6.8.4.2.
#![tactic(auto)]

mod switches;

pub use switches::Switch;
