ghost use Rattle.std.specs.Prelude.{◌≡◌, ◌+◌, ◌<◌, ◌≤◌, Ok, length, take, vec_len, IfOk, IsErrOf, OnOk, OnErr};
ghost use Rattle.outside.specs.Counts.{Counts, KeepsLimit, Rose};
ghost use Rattle.outside.specs.Moves.{Wrote, Began, BeganToRead, ReadsUpTo};
ghost use Rattle.outside.specs.Buffers.{FillsFrom};
ghost use Rattle.outside.specs.Named.{left_of, names_of};

use crate::traits::{Failed, Files, Sink};
use std::alloc::{AllocError, Global};
use thiserror::Error;

/// Writes all of the bytes; each write is given all that is left. `Failed` where a write fails, and then
/// the sink took a front of the bytes. Own.
pub fn write_all<O: Sink>(out: &mut O, bytes: &[u8]) -> Result<(), Failed>
    ensures began { Began (O.taken out.old) (O.taken out.new) bytes.now }
    ensures ok { OnOk result (Wrote (O.taken out.old) (O.taken out.new) bytes.now) }
    ensures count { Counts (O.faults out.old) (O.faults out.new) result }
    ensures limit { KeepsLimit (O.faults out.old) (O.faults out.new) }
    ensures idle { length bytes.now ≡ 0 → out.new ≡ out.old }
{
    let mut at = 0;
    while at < bytes.len() {
        at += out.write(&bytes[at..])?;
    }
    Ok(())
}

/// Why a file was not read to its end.
#[derive(Clone, Copy, Debug, PartialEq, Eq, Error)]
pub enum ReadStop {
    /// A read failed.
    #[error("a call on the outside failed")]
    Failed,
    /// Want of memory.
    #[error("want of memory")]
    Memory,
}

impl From<Failed> for ReadStop {
    ghost use Rattle.outside.specs.declared.transfer.ReadStop.TheVariants.{Failed as stop_failed};

    ghost from_gives = { λ _ stop. stop ≡ stop_failed };

    fn from(_: Failed) -> ReadStop {
        ReadStop::Failed
    }
}

impl From<AllocError> for ReadStop {
    ghost use Rattle.outside.specs.declared.transfer.ReadStop.TheVariants.{Memory as stop_memory};

    ghost from_gives = { λ _ stop. stop ≡ stop_memory };

    fn from(_: AllocError) -> ReadStop {
        ReadStop::Memory
    }
}

// The number of bytes that a buffer has first: most files are smaller.
const FIRST: usize = 4096;

// The number of bytes up to which a buffer doubles, and by which it grows at least from there on.
const STEP: usize = 65536;

// Sees to it that the buffer is longer than what is filled of it, at most as long as the limit. It doubles
// up to a step, and then grows by an eighth, and at least by a step: so its growth takes linear time, and, as
// the old and the new buffer stand side by side, little more than two bytes of memory a byte.
fn make_room(buffer: &mut Vec<u8>, filled: usize, limit: usize) -> Result<(), AllocError>
    requires within { filled ≤ vec_len buffer.old }
    requires short { filled < limit }
    requires limited { vec_len buffer.old ≤ limit }
    ensures kept { take filled buffer.new.items ≡ take filled buffer.old.items }
    ensures limited { vec_len buffer.new ≤ limit }
    ensures room { OnOk result (filled < vec_len buffer.new) }
{
    let len = buffer.len();
    if filled < len {
        return Ok(());
    }
    let step = len.max(FIRST).min(STEP);
    let more = (len / 8).max(step).min(limit - len);
    buffer.reserve_exact(more)?;
    buffer.resize(len + more, 0)
}

// Reads into the buffer behind what is filled of it.
fn read_behind<F: Files>(
    files: &mut F,
    buffer: &mut Vec<u8>,
    filled: usize,
) -> Result<usize, Failed>
    requires { filled < vec_len buffer.old }
    ensures filled { IfOk result (λ n. FillsFrom filled
        (left_of (F.told files.old)) (left_of (F.told files.new)) buffer.old.items buffer.new.items n) }
    ensures len { vec_len buffer.new ≡ vec_len buffer.old }
    ensures names { names_of (F.told files.new) ≡ names_of (F.told files.old) }
    ensures failed { OnErr result (F.told files.new ≡ F.told files.old) }
    ensures count { Counts (F.faults files.old) (F.faults files.new) result }
    ensures limit { KeepsLimit (F.faults files.old) (F.faults files.new) }
    ensures strays { F.strays files.new ≡ F.strays files.old }
{
    files.read(&mut buffer[filled..])
}

/// Reads all that is left, or the first `limit` bytes of it where there are as many. `ReadStop::Failed`
/// where a read fails, `ReadStop::Memory` where memory is wanting; then a front of what was left is lost.
/// It takes at most a little more than two bytes of memory a byte that is read, besides 64 KiB. Own.
pub fn read_all<F: Files>(alloc: Global, files: &mut F, limit: usize) -> Result<Vec<u8>, ReadStop>
    ensures ok { IfOk result
        (λ v. ReadsUpTo limit (left_of (F.told files.old)) (left_of (F.told files.new)) v.items) }
    ensures began { BeganToRead (left_of (F.told files.old)) (left_of (F.told files.new)) }
    ensures names { names_of (F.told files.new) ≡ names_of (F.told files.old) }
    ensures stays { OnOk result (F.faults files.new ≡ F.faults files.old) }
    ensures failed { IsErrOf result ReadStop.Failed → Rose (F.faults files.old) (F.faults files.new) }
    ensures memory { IsErrOf result ReadStop.Memory → F.faults files.new ≡ F.faults files.old }
    ensures later { F.faults files.old ≤ F.faults files.new }
    ensures limited { KeepsLimit (F.faults files.old) (F.faults files.new) }
    ensures idle { limit ≡ 0 → files.new ≡ files.old }
    ensures strays { F.strays files.new ≡ F.strays files.old }
{
    let mut buffer = Vec::new(alloc);
    let mut filled = 0;
    while filled < limit {
        make_room(&mut buffer, filled, limit)?;
        let n = read_behind(files, &mut buffer, filled)?;
        if n == 0 {
            buffer.truncate(filled);
            return Ok(buffer);
        }
        filled += n;
    }
    Ok(buffer)
}
