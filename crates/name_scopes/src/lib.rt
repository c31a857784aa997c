//! The scopes of a translation unit with what each name stands for in them: one table for each name space of C.
//!
//! Its public contract sees the scopes as a list of lists of declarations, the outermost first, and gives each call as a change of that list; what a
//! name stands for is what its innermost, last declaration says.
//!
//! The rules come from C11 6.2.1 (scopes of identifiers) and 6.2.3 (name spaces).
#![tactic(auto)]

mod log;
mod scopes;

pub use log::Entry;
pub use scopes::Scopes;
