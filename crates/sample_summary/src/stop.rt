ghost use Rattle.std.specs.Prelude.{◌≡◌};

use cil_base::Memory;
use std::alloc::AllocError;
use thiserror::Error;

/// Why there is no summary of a program.
#[derive(Clone, Copy, Debug, Error)]
pub enum SampleStop {
    /// The run reached its bound first.
    #[error("still running")]
    StillRunning,
    /// The behaviour of the program is undefined (C11 3.4.3).
    #[error("undefined behaviour")]
    Undefined,
    /// Want of memory.
    #[error("want of memory")]
    Memory,
}

impl From<Memory> for SampleStop {
    ghost use Rattle.sample_summary.specs.declared.stop.SampleStop.TheVariants.{Memory as stop_memory};

    ghost from_gives = { λ _ stop. stop ≡ stop_memory };

    fn from(_: Memory) -> SampleStop {
        SampleStop::Memory
    }
}

impl From<AllocError> for SampleStop {
    ghost use Rattle.sample_summary.specs.declared.stop.SampleStop.TheVariants.{Memory as stop_memory};

    ghost from_gives = { λ _ stop. stop ≡ stop_memory };

    fn from(_: AllocError) -> SampleStop {
        SampleStop::Memory
    }
}
