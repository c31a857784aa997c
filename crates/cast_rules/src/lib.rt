//! The constraints and conversions of C's operators: each call types one operator over operands that are typed.
//!
//! A call answers the operator's node, with the conversions of its operands as nodes of their own, or the first constraint that the
//! operator violates, by the constraints' numbers; a type that would be too big, or want of memory. Its public contract promises that
//! every call ends and is safe over any operands and types, and that it is refused exactly where C11 has a constraint that is violated, by
//! the first one; that what an operator over numbers and pointers gives has the type that C11 says. Which conversions there are is tested,
//! row by row, in `rules_tests`.
//!
//! The rules come from C11 6.3 (conversions) and 6.5 (expressions). That an enumerated type computes in int is own.
#![tactic(auto)]

mod arithmetic;
mod assignments;
mod calls;
mod conditionals;
mod conversions;
mod operands;
mod pairings;
mod places;
mod sizes;
mod stops;

pub use arithmetic::{binary, logical, plus, unary};
pub use assignments::{assign, assignable, convert, step};
pub use calls::{call, first_unassignable};
pub use conditionals::{comma, conditional, scalar_test, switch_value};
pub use conversions::{cast, value};
pub use operands::Operand;
pub use places::{address, indirect, member, subscript};
pub use sizes::{align_of, size_of};
