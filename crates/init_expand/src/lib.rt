//! The initialisers of objects with static storage duration become images: the scalars that are not zero, each with the path to it.
//!
//! Its public contract answers for every initialiser: it ends, and want of memory is its one other answer. Of an image it says that its
//! scalars stand within the object at rising offsets, that none is zero, and that of each union they initialise one member.
//!
//! The rules are those of C11 6.7.9.
#![tactic(auto)]

mod growing;
mod images;
mod spots;
mod sweep;

pub use images::image;
