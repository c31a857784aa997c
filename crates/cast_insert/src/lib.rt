//! The walk of a translation unit: declarations, functions and statements become typed trees, with every name resolved and every
//! conversion a node.
//!
//! Its public contract answers the typed unit, or a fault of the unit at one of its tokens or at its end. It is the first one: by declaration,
//! in the order of the text, with the labels of a function behind all else of it, and what only the unit's end shows behind all else; that it
//! is, is tested by the units of `tests/refused.rows`.
//!
//! The rules come from C11 6.7, 6.8 and 6.9.
#![tactic(auto)]

mod body;
mod check;
mod declarations;
mod functions;
mod labels;
mod statements;
mod unit;

pub use check::check_unit;
