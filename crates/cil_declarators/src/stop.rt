use cil_base::Memory;
use std::alloc::{AllocError, AllocFailed};

/// Why a part of a text is not read.
#[derive(Clone, Copy)]
pub enum Stop {
    /// It is no such part of a CIL text.
    NotCil,
    /// Want of memory.
    WantOfMemory,
}

impl From<Memory> for Stop {
    ghost use Rattle.std.specs.Prelude.{◌≡◌};
    ghost use Rattle.cil_declarators.specs.declared.stop.Stop.TheVariants.{WantOfMemory};

    ghost from_gives = { λ _ stop. stop ≡ WantOfMemory };

    fn from(_: Memory) -> Self {
        Stop::WantOfMemory
    }
}

impl From<AllocError> for Stop {
    ghost use Rattle.std.specs.Prelude.{◌≡◌};
    ghost use Rattle.cil_declarators.specs.declared.stop.Stop.TheVariants.{WantOfMemory};

    ghost from_gives = { λ _ stop. stop ≡ WantOfMemory };

    fn from(_failed: AllocError) -> Self {
        Stop::WantOfMemory
    }
}

impl<T: Drop> From<AllocFailed<T>> for Stop {
    ghost use Rattle.std.specs.Prelude.{◌≡◌};
    ghost use Rattle.cil_declarators.specs.declared.stop.Stop.TheVariants.{WantOfMemory};

    ghost from_gives = { λ _ stop. stop ≡ WantOfMemory };

    fn from(_failed: AllocFailed<T>) -> Self {
        Stop::WantOfMemory
    }
}
