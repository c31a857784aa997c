//! The reading of C's translation units from tokens: declarations, statements, function definitions, in scopes of typedef names and up to a height.
//!
//! Its public contract gives the grammatical unit that spells the tokens, or refuses them exactly where none does, with the token at which, behind whole
//! external declarations, none begins; and the laws that no tokens are spelled by two grammatical units and that each list of tokens is a unit's or is
//! refused. Its definitions are executable readings on lists of tokens, proved to give exactly the grammatical trees, and its functions read one token at
//! a time as those do.
//!
//! The rules come from C11 6.7 to 6.9; the height that bounds an external declaration is the project's own.
#![tactic(auto)]

mod below;
mod blocks;
mod classes;
mod declarations;
mod externals;
mod nexts;
mod own_list;
mod statement_parts;
mod statements;
mod stops;
mod uniqueness;
mod units;
mod words;

pub use own_list::declare_own_list;
pub use uniqueness::{one_answer, one_unit};
pub use units::parse;
pub use words::StatementWord;
