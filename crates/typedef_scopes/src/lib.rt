//! The scopes of a translation unit while it is read: which identifiers are typedef names where the parser stands.
//!
//! Its public contract sees the scopes as a list of lists of declarations, the outermost first, and gives each call as a change of that list;
//! whether a name is a typedef name is what its innermost, last declaration says.
//!
//! The rules come from C11 6.2.1 (scopes) and 6.2.3 and 6.7.8p3 (typedef names share the name space of ordinary identifiers).
#![tactic(auto)]

mod log;
mod scopes;

pub use scopes::Scopes;
