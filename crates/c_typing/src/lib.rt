//! The definitions of C's declarations, scopes, initialisers and statements, over the plain syntax trees and the plain typed trees.
//!
//! It has no code and no public calls: its definitions say, for a translation unit's tree, which typed tree it is or which constraint it violates
//! first and at which token.
//!
//! The rules come from C11 6.2 (concepts), 6.7 (declarations), 6.8 (statements) and 6.9 (external definitions), those of operators are `c_rules`'; where
//! the project's profile decides, a definition says that it is own.
#![tactic(auto)]
