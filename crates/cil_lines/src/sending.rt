ghost use Rattle.std.specs.Prelude.{◌≡◌, ◌≢◌, ◌≤◌};
ghost use Rattle.outside.specs.Counts.{Rose};
ghost use Rattle.outside.specs.Moves.{Began, Wrote};

use crate::status::Status;
use outside::{Sink, write_all};

/// Writes the whole text: `Done` where no call on out failed, and `WriteFault` where one did; then out took a beginning of the text. Own.
pub fn send<O: Sink>(out: &mut O, text: &[u8]) -> Status
    ensures done { result ≡ Status.Done → Wrote (O.taken out.old) (O.taken out.new) text.now }
    ensures began { Began (O.taken out.old) (O.taken out.new) text.now }
    ensures two { result ≢ Status.Done → result ≡ Status.WriteFault }
    ensures write { result ≡ Status.WriteFault → Rose (O.faults out.old) (O.faults out.new) }
    ensures calm_out { result ≢ Status.WriteFault → O.faults out.new ≡ O.faults out.old }
    ensures later_out { O.faults out.old ≤ O.faults out.new }
{
    match write_all(out, text) {
        Ok(()) => Status::Done,
        Err(_) => Status::WriteFault,
    }
}
