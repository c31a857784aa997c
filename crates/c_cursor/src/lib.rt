//! A cursor over the tokens of a list, and the takes and tests of one token behind it.
//!
//! Its public contract sees a cursor as all tokens and a place among them; a take gives what the next token is and moves behind it, or tells the number of
//! the token that it could not take. Its definitions say which tokens the grammar tells apart, and how readings of tokens are put together.
//!
//! The rules come from C11 6.4: the kinds of tokens.
#![tactic(auto)]

mod cursor;
mod literals;
mod nexts;
mod signs;
mod stops;
mod takes;
mod texts;

pub use cursor::Cursor;
pub use literals::{more_literals, some_literals};
pub use nexts::{at_assert, at_literal, at_name, at_other, at_sign, at_static};
pub use signs::{
    has_text, is_assert_word, is_literal, is_name, is_sign, is_static_word, name_kind,
};
pub use stops::ParseStop;
pub use takes::{next_name, take_assert, take_name, take_sign, take_static, taken};
pub use texts::{take_literal, text_copied};
