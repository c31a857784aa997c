//! What is found, beside what is wanted.

use std::fmt::Debug;
use std::process::Abort;

/// In each row what is found is what is wanted. The rows of an array are made in its order, so a row may change what the next one finds.
pub(crate) fn are_equal<T: Debug + PartialEq>(rt: &impl Abort, rows: &[(T, T)]) {
    for (number, (found, wanted)) in rows.iter().enumerate() {
        assert_eq!(rt; found, wanted, "row {number}");
    }
}
