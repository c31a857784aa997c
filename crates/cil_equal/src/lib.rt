//! Equal CIL programs run alike: what a program does depends on nothing but what the equality of programs speaks of.
//!
//! Its public law says that programs which are equal up to the numbers that types and names have in them have one data
//! model, and in each mode do the same with the same words, input and bound, and spend the same units.
//!
//! The rules are own; what programs mean follows C11 6.5 to 6.9.
#![tactic(auto)]

mod laws;

pub use laws::equal_programs_run_alike;
