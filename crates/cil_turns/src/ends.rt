ghost use Rattle.std.specs.Prelude.{◌≡◌};
ghost use Rattle.host_calls.specs.Host.{byte_of};
ghost use Rattle.cil_code.specs.Taking.{datum_of};
ghost use Rattle.cil_turns.specs.Turning.{Status};

use byte_mem::Value;
use cil_code::Datum;

/// How a run ended.
#[derive(Clone, Copy, PartialEq, Eq)]
pub enum RunEnd {
    /// The program exited, with this status.
    Exited(u8),
    /// The bound was reached first.
    StillRunning,
    /// The program's behaviour is undefined (C11 3.4.3).
    Undefined,
    /// A call on the source failed.
    ReadFault,
    /// A call on the sink failed.
    WriteFault,
    /// Want of memory.
    Memory,
}

/// A number as a status: modulo 256 (own).
fn byte_of(n: i128) -> u8
    ensures { result ≡ byte_of n }
{
    n.rem_euclid(0x100) as u8
}

/// How a run ends whose first call gave that value: with it as the status (C11 5.1.2.2.3p1), and undefined where it is no
/// number (own).
pub(crate) fn status(d: &Datum) -> RunEnd
    ensures { Status (datum_of d.now) result }
{
    match d {
        Datum::Single(Value::Int(n)) => RunEnd::Exited(byte_of(*n)),
        Datum::Single(Value::Ptr(_) | Value::Unknown | Value::Part(..)) | Datum::Bytes(_) => {
            RunEnd::Undefined
        }
    }
}
