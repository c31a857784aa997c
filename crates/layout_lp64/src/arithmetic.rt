ghost use Rattle.std.specs.Prelude.{◌≡◌, ◌<◌};
ghost use Rattle.type_graph.specs.Layouts.{round_up};
ghost use Rattle.layout_lp64.specs.Capped.{cap};

use cil_base::OBJECT_BYTES;

/// The number of bytes that no object reaches: one more than the largest size.
pub(crate) const LIMIT: u32 = OBJECT_BYTES + 1;

/// A number of bytes, where whatever is at least the limit counts as the limit.
pub(crate) fn capped(n: u64) -> u32
    ensures { result ≡ cap n }
{
    if n < LIMIT as u64 { n as u32 } else { LIMIT }
}

/// The least multiple of an alignment that is not below a number of bytes (C11 6.7.2.1p15).
pub(crate) fn rounded_up(n: u32, align: u32) -> u32
    requires { 0 < align }
    ensures { result ≡ cap (round_up n align) }
{
    let align = align as u64;
    capped((n as u64 + (align - 1)) / align * align)
}
