ghost use Rattle.std.specs.Prelude.{◌≡◌, ◌<◌, [], length, OnOk};
ghost use Rattle.outside.specs.Counts.{Counts, KeepsLimit};
ghost use Rattle.outside.specs.Moves.{Wrote, Began};
ghost use Rattle.cil_streams.specs.Fetching.{Spills};

use cil_base::Bytes;
use host_calls::Io;
use outside::{Failed, Sink, write_all};
use std::alloc::Global;
use std::mem;

/// The number of bytes of output that do not wait any longer.
const PIECE: usize = 4096;

/// Writes all output that waits. Then none waits, and after `Failed` the sink took a front of it. Own.
pub fn write_waiting<O: Sink>(alloc: Global, io: &mut Io, out: &mut O) -> Result<(), Failed>
    ensures began { Began (O.taken out.old) (O.taken out.new) io.old.out }
    ensures ok { OnOk result (Wrote (O.taken out.old) (O.taken out.new) io.old.out) }
    ensures io { io.new ≡ record io.old { out = [] } }
    ensures count { Counts (O.faults out.old) (O.faults out.new) result }
    ensures limit { KeepsLimit (O.faults out.old) (O.faults out.new) }
    ensures idle { io.old.out ≡ [] → out.new ≡ out.old }
{
    let mut bytes = mem::replace(&mut io.out, Bytes::new(Vec::new(alloc))).into_vec();
    let written = write_all(out, &bytes);
    bytes.clear();
    io.out = Bytes::new(bytes);
    written
}

/// Writes the output that waits where it is 4,096 bytes or more. Own.
pub fn write_many<O: Sink>(alloc: Global, io: &mut Io, out: &mut O) -> Result<(), Failed>
    ensures spills { Spills result io.old.out io.new.out (O.taken out.old) (O.taken out.new) }
    ensures io { io.new ≡ record io.old { out = io.new.out } }
    ensures few { length io.new.out < 4096 }
    ensures idle { length io.old.out < 4096 → out.new ≡ out.old }
    ensures count { Counts (O.faults out.old) (O.faults out.new) result }
    ensures limit { KeepsLimit (O.faults out.old) (O.faults out.new) }
{
    if io.out.as_slice().len() < PIECE {
        return Ok(());
    }
    write_waiting(alloc, io, out)
}
