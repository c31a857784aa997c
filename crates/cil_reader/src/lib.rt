//! The reader of CIL texts: from bytes to the program whose text they are.
//!
//! Its public contract says that what is read is a well-formed program of the data model that is asked for and the
//! bytes are its text; that bytes are refused only where they are the text of no well-formed program of that model, so
//! no text is refused while memory suffices; that the place that is named for them is the one of the definition: the
//! first byte of the first line that is not laid out as a text has its lines, or the end; and that the names which the
//! pool had keep their numbers, whatever is answered.
//!
//! The text is the product's own; its parts follow C11 6.4 to 6.9.
#![tactic(auto)]

mod aggregates;
mod arguments;
mod bodies;
mod fitting;
mod globals;
mod heads;
mod images;
mod instructions;
mod members;
mod names;
mod nesting;
mod operands;
mod parts;
mod program;
mod reader;
mod typed;

pub use program::{ReadStop, read};
