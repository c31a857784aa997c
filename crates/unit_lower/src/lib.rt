//! Typed translation units become CIL programs: types lose their qualifiers, objects and functions stand in order, initialisers are images,
//! and bodies are lowered.
//!
//! Its public contract answers for every unit: it ends, and want of memory is its one other answer. Of a program it says that each
//! external name stands once in it, and that their sites are listed in the order of their first declarations.
//!
//! The order of the globals is own; docs/LOWERING.md has it.
#![tactic(auto)]

mod globals;
mod order;
mod sites;
mod types;
mod unit;

pub use unit::lower_unit;
