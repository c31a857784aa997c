//! Constant expressions: which typed expressions have a value during translation, and which.
//!
//! Its public contract takes no memory, and gives of each expression exactly the constant of its plain tree, an integer, an address or a
//! function, or none where it is no constant; and it tells which have the form of an integer constant expression.
//!
//! The rules come from C11 6.6; that no address is converted to an integer or compared, and that each step of an address stays within its
//! object, are own.
#![tactic(auto)]

mod constants;
mod form;
mod known;

pub use constants::eval;
pub use form::is_constant_form;
