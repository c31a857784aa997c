//! What is found, beside what is wanted.

use std::fmt::Debug;
use std::process::Abort;

/// What is found in a row is what is wanted. A row is named by its text, or by its number in its table, from 0.
pub(crate) fn equal<T: Debug + PartialEq>(
    rt: &impl Abort,
    row: &impl Debug,
    found: &T,
    wanted: &T,
) {
    assert_eq!(rt; found, wanted, "{row:?}");
}
