//! How the lines of a CIL text are laid out, and the place that is named for bytes that are no text.
//!
//! Its public contract says that this place is the one of the definition, for all bytes: the first byte of the first
//! line that is not laid out as a text has its lines, or the end; and what stands behind the blanks in front of a line.
//!
//! The layout is the product's own; words and punctuators are those of C11 6.4.
#![tactic(auto)]

mod layout;
mod signs;

pub use layout::{bad_place, behind_blanks};
