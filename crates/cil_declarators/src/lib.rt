//! The reader of types and declarators in a line of a CIL text, and the numbering of names.
//!
//! Its public contract says that a declaration without storage class, or a type's name, is read with its type and
//! its name exactly where the reading reads it (or memory is wanting); that the graph gains no type but the parts of
//! that type, and its aggregates stay; and that names that differ are numbered in their order.
//!
//! The rules come from C11 6.7.2, 6.7.6 and 6.7.7.
#![tactic(auto)]

mod bases;
mod declarators;
mod numbering;
mod stop;

pub use declarators::{Named, read_decl};
pub use numbering::Numbering;
pub use stop::Stop;
