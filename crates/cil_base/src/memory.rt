use std::alloc::{AllocError, AllocFailed};
use thiserror::Error;

/// Want of memory: an allocation failed, or a number that would not fit was asked for.
#[derive(Clone, Copy, Debug, PartialEq, Eq, Error)]
#[error("want of memory")]
pub struct Memory;

impl From<AllocError> for Memory {
    fn from(_failed: AllocError) -> Self {
        Memory
    }
}

impl<T: Drop> From<AllocFailed<T>> for Memory {
    fn from(_failed: AllocFailed<T>) -> Self {
        Memory
    }
}
