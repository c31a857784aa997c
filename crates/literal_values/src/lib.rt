//! The values of constants and string literals as they are written.
//!
//! Its public contract answers for each text: a constant's kind and value, a character's value, the bytes of a string, or that no type
//! holds it.
//!
//! The rules come from C11 6.4.4 and 6.4.5.
#![tactic(auto)]

mod characters;
mod integers;

pub use characters::{character_value, string_bytes};
pub use integers::integer_value;
