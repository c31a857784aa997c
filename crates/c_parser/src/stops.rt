ghost use Rattle.std.specs.Prelude.{◌≡◌};

use cil_base::Memory;

/// Why no unit was read.
#[derive(Clone, Copy)]
pub(crate) enum UnitStop {
    /// Behind whole external declarations none begins at the token of the first number, and none begins there with the tokens up to and
    /// including that of the second, or up to the unit's end where that is the number of tokens.
    Syntax(u32, u32),
    Memory,
}

impl From<Memory> for UnitStop {
    ghost use Rattle.c_parser.specs.declared.stops.UnitStop.TheVariants.{Memory as WantOfMemory};

    ghost from_gives = { λ _ stop. stop ≡ WantOfMemory };

    fn from(_want: Memory) -> Self {
        UnitStop::Memory
    }
}
