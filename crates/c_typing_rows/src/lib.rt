//! Rows of the definitions of `c_typing`: translation units given as text, and what is said of each.
//!
//! It has no code and no public calls: its rows hold by computation. Each gives the first fault of a unit with its token, or that there is none.
//!
//! The units are examples of the constraints and limits of C11 6.4 to 6.9, and of the project's own rules.
#![tactic(auto)]
