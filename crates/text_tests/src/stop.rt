use cil_base::Memory;
use cil_printer::PrintStop;
use std::alloc::{AllocError, AllocFailed};
use thiserror::Error;

/// Why there is no text.
#[derive(Clone, Copy, Debug, PartialEq, Eq, Error)]
pub(crate) enum Stop {
    /// What was built is no well-formed program.
    #[error("no well-formed program")]
    Wrong,
    /// Its text is too long.
    #[error("the text is too long")]
    TooLong,
    /// Want of memory.
    #[error("want of memory")]
    Memory,
}

impl From<Memory> for Stop {
    fn from(_want: Memory) -> Self {
        Stop::Memory
    }
}

impl From<AllocError> for Stop {
    fn from(_failed: AllocError) -> Self {
        Stop::Memory
    }
}

impl<T: Drop> From<AllocFailed<T>> for Stop {
    fn from(_failed: AllocFailed<T>) -> Self {
        Stop::Memory
    }
}

impl From<PrintStop> for Stop {
    fn from(stop: PrintStop) -> Self {
        match stop {
            PrintStop::TooLong => Stop::TooLong,
            PrintStop::Memory => Stop::Memory,
        }
    }
}
