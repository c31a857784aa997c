//! An order of numbers that wait for each other: each stands once all that it waits for stands before it, and the least of those that
//! may stand comes first.
//!
//! The rule is own: in this order a program prints its structs and unions, each behind what it has within itself (C11 6.7.2.1p3 wants
//! those complete).
#![tactic(auto)]

mod coming;

pub use coming::least_first;
