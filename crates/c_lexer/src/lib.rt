//! The lexer: the bytes of a translation unit become its tokens, each with its place in the source.
//!
//! Its public contract gives the answer for the bytes of a unit exactly: cut from the left into the longest pieces, its tokens with their
//! numbers, texts and presumed places, or the first refusal with its fault and place; a text has one such answer.
//!
//! The rules come from C11 6.4 (tokens by longest match), 6.10.4 (presumed lines) and, for what is left out, from the project's own profile.
#![tactic(auto)]

mod attributes;
mod automaton;
mod bytes;
mod constants;
mod entries;
mod escapes;
mod laws;
mod lexer;
mod lines;
mod meaning;
mod pieces;
mod reader;
mod runs;
mod state;
mod token_list;
mod tokens;
mod words;

pub use automaton::piece;
pub use entries::{Entry, Spot};
pub use laws::{one_answer, tokens_stand_apart};
pub use lexer::lex;
pub use pieces::{Kind, Raw, Sign};
pub use token_list::TokenList;
pub use tokens::Tokens;
