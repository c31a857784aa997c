//! The types of one translation unit with their layouts: what each type is, and every way to make a type.
//!
//! Its public contract answers for every number, tells exactly what a type is and how it is laid out, gives of each type that is made
//! its shape, keeps all qualified types in normal form, and names the least type that is too big exactly where one would be.
//!
//! The rules come from C11 6.2.5, 6.2.7, 6.5.3.4, 6.7.2 and 6.7.3; that functions have no qualifiers, and the greatest size, are own.
#![tactic(auto)]

mod class;
mod constants;
mod members;
mod parts;
mod quals;
mod types;

pub use class::Class;
pub use members::{can_complete, members_fit};
pub use quals::joined;
pub use types::Types;
