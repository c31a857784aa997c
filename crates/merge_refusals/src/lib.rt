//! Refusals of translation units that are merged, as they are answered.
//!
//! What a merge is refused for is looked at once more before it is answered. The public contract says that such a refusal has a fault that a
//! merge may have, at places in the units, with a second place where its fault has two; that it is the one that was found; and that a
//! text is too long only where that of some well-formed program is.
//!
//! The faults are those of C11 6.2.7p2, 6.9p5 and of a unit's own; the limits are own.
#![tactic(auto)]

mod refusals;

pub use refusals::{impossible, of_first, of_link, of_units, too_long};
