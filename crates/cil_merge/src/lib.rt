//! One program from several translation units.
//!
//! Their external names are linked, their structs, unions and enums are sorted into classes, all other names are made distinct, and their
//! types, objects and functions become those of one program; or the first two definitions, or the first two declarations, that do not go
//! together are refused.
//!
//! Its public contract says both ways when two definitions of one name are refused, and when two declarations of one, and at which places;
//! and of the program, which objects and functions it has in which order, and which types, structs, unions and enums.
//!
//! The rules come from C11 5.1.1.1, 6.2.2, 6.2.7 and 6.9; the order of what is printed, and how an object is used at another type than it
//! is printed with, are own.
#![tactic(auto)]

mod arena;
mod definitions;
mod globals;
mod merging;
mod numbers;
mod refusals;

pub use merging::merge;
