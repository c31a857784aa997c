//! The expressions and places of the machine that runs CIL programs, over the whole language, and the stores that its
//! instructions make.
//!
//! A function's expressions and lvalues are resolved once, by `resolve` and `resolve_place`: types become scalars,
//! kinds and sizes, members offsets, and globals the run's numbers of their entities. Then `term_value` and
//! `spot_place` compute them in a store as often as they are reached. Its public contract says that what is computed is
//! what the expression means, in each memory and activation, and none exactly where that is undefined.
//!
//! The rules come from C11 6.3 and 6.5.
#![tactic(auto)]

mod evaluation;
mod instructions;
mod laws;
mod resolution;
mod terms;

pub use evaluation::{place_pointer, spot_place, term_number, term_truth, term_value};
pub use instructions::{bytes_at, copy_place, set_place, zero_place};
pub use laws::{copies_are_meant, sets_are_meant, zeros_are_meant};
pub use resolution::{
    Setting, Typed, TypedSpot, pointed_type, resolve, resolve_place, scalar_of, size_of,
};
pub use terms::{Spot, Term};
