//! Laws of memory, values, the host's calls and linking for runs on two sides that are alike but for what one of them lacks: what a proof
//! that a translation keeps meaning asks of the definitions below it.
//!
//! It has no code. Its public laws say what stays where one side of two memories changes alone, what a change of one object and a call of the host
//! leave as it was, that values which are computed, loaded or given by the host are of their kinds, that complete types have kinds and sizes, and
//! that units which link alike start alike.
//!
//! The rules are those of C11 6.2.4 (objects live), 6.2.6.1 (representations), 6.3.1.3 (conversions) and 6.5 (operators); the order of memories is
//! own.
#![tactic(auto)]

mod laws;

pub use laws::{
    changes_move, data_fit, host_calls_stay, host_results_fit, one_side_changes_alone,
    types_are_stored, units_start_alike, values_fit,
};
