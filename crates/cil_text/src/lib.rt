//! The text of CIL read back: an executable reading of bytes, which gives each well-formed program's aggregates
//! and globals from its text.
//!
//! Its public laws say that no bytes are the text of two programs of one data model, that equal programs have one text,
//! that what equals a well-formed program is well-formed, that the reading gives each program back from its text, and
//! that what is read from a program's text is a program with that text, where it has no types but those that occur in it.
//!
//! The text is the product's own; its parts follow C11 6.4 to 6.9.
#![tactic(auto)]

mod laws;

pub use laws::{
    equal_programs_are_well_formed, equal_programs_have_one_text, needed_types_occur, one_text,
    text_is_read, what_is_read_has_the_text,
};
