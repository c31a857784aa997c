//! The definitions of what typed C translation units do when they are linked and run, over the plain typed trees.
//!
//! It has no code and no public calls: its definitions say, for typed units, words, an input and a bound, the outcome of the run, as `c_semantics`
//! does for their syntax trees, with whose operations they are made.
//!
//! The rules come from C11 5.1.2 (execution), 6.2.4 (lifetimes), 6.3 (conversions), 6.5 (expressions), 6.7.9 (initialisers), 6.8 (statements) and
//! 6.9 (external definitions); where the project's profile decides, a definition says that it is own.
#![tactic(auto)]
