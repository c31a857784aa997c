//! What stands next in a line of a CIL text, and what the line is, by its words alone.
//!
//! Its public contract says of each call that it answers what the reading does: whether a form stands in front, and
//! what stands behind it; and what a line declares, defines, opens or closes.
//!
//! The forms are those of C11 6.5 to 6.9, as a CIL text writes them.
#![tactic(auto)]

mod ahead;
mod line_kinds;

pub use ahead::{
    Form, assigned, behind_argument, behind_item, bracketed, closing, ends_case, ends_opening,
    form_of, is_base, is_brace, is_comma, is_end, is_end_of_line, is_offset, is_star, is_suffix,
    read_name, skip_one, void_alone, without_static,
};
pub use line_kinds::{
    behind_address, declares, ends_open, is_block, is_called, is_close, is_jump, is_label, is_zero,
    label_text, lone_tag, next_name, opened_tag, storage,
};
