//! What the declarations of external names in several translation units make one.
//!
//! Each two declarations of one name are a link, which joins their types, or, where an array lacks a bound or a function a prototype, what
//! the array holds or the function returns. The first link that cannot hold is the answer where there is one.
//!
//! The rules come from C11 6.2.7p2, 6.7.6.2p6 and 6.7.6.3p15.
#![tactic(auto)]

mod linking;
mod parties;

pub use linking::{Failure, Side, join_groups};
pub use parties::{Group, Party};
