ghost use Rattle.std.specs.Prelude.{◌≡◌};

use cil_base::Memory;
use std::alloc::{AllocError, AllocFailed};
use thiserror::Error;

/// Why nothing was read.
#[derive(Clone, Copy, Debug, Error)]
pub enum ParseStop {
    /// The grammar has no such token where the token of that number stands.
    #[error("the grammar has no such token: {0}")]
    At(u32),
    #[error("want of memory")]
    Memory,
}

impl From<Memory> for ParseStop {
    ghost use Rattle.c_cursor.specs.declared.stops.ParseStop.TheVariants.{Memory as WantOfMemory};

    ghost from_gives = { λ _ stop. stop ≡ WantOfMemory };

    fn from(_want: Memory) -> Self {
        ParseStop::Memory
    }
}

impl From<AllocError> for ParseStop {
    ghost use Rattle.c_cursor.specs.declared.stops.ParseStop.TheVariants.{Memory as WantOfMemory};

    ghost from_gives = { λ _ stop. stop ≡ WantOfMemory };

    fn from(_failed: AllocError) -> Self {
        ParseStop::Memory
    }
}

impl<T: Drop> From<AllocFailed<T>> for ParseStop {
    ghost use Rattle.c_cursor.specs.declared.stops.ParseStop.TheVariants.{Memory as WantOfMemory};

    ghost from_gives = { λ _ stop. stop ≡ WantOfMemory };

    fn from(_failed: AllocFailed<T>) -> Self {
        ParseStop::Memory
    }
}
