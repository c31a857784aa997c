//! Compatible and composite types within one translation unit.
//!
//! Its public contract tells exactly which types are compatible, and gives the composite type of two.
//!
//! The rules come from C11 6.2.7, 6.7.2.2, 6.7.3, 6.7.6 and, for functions without a prototype, 6.3.1.1
//! and 6.5.2.2.
#![tactic(auto)]

mod compatibility;
mod composites;
mod pairs;

pub use compatibility::compatible;
pub use composites::composite;
