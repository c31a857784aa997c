//! The walk of C's expressions and of all that can stand in them: type names, specifiers, declarators, parameters and initialisers become
//! typed trees and declarations.
//!
//! Its public contract answers a typed tree or a type, or the first fault in the order of the text with the number of its token: operands
//! come before their operator.
//!
//! The rules come from C11 6.5, 6.7.2, 6.7.6, 6.7.9 and 6.7.10.
#![tactic(auto)]

mod walk;

pub use walk::{derivations, expr, initialiser, specifiers, static_assert, type_name};
