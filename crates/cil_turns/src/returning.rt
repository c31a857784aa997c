ghost use Rattle.std.specs.Prelude.{◌≡◌, ◌≤◌, List, Option, length, IfOk};
ghost use Rattle.cil_code.specs.Taking.{datum_of};
ghost use Rattle.cil_frames.specs.declared.frames.Entity.{Entity as TableEntity};
ghost use Rattle.cil_turns.specs.Standing.{Falls, Stands, Waits, from_end, from_kept, from_result, standing_at, waiting_burden};
ghost use Rattle.cil_turns.specs.Moving.{IsPlain, TurnedQuietly};
ghost use Rattle.cil_turns.specs.Turning.{GoesTo, Left};

use crate::ends::{RunEnd, status};
use crate::runs::{Run, Stand, Turn};
use cil_base::Memory;
use cil_code::Datum;
use cil_frames::{Destination, Frame, Function, keep, leave};

/// A result is kept, and the run goes on there (C11 6.5.2.2p10, 6.5.16.1).
pub(crate) fn keep_on(run: &mut Run, to: Option<Destination>, d: &Datum, x: Stand) -> Turn
    ensures turned { (table : List (Option TableEntity)) → Stands table run.old x → TurnedQuietly table (from_kept table run.old to (datum_of d.now) x) run.old run.new result }
    ensures goes { GoesTo x run.old run.new result }
    ensures plain { IsPlain result }
    ensures left { run.new.left ≤ run.old.left }
{
    match keep(&mut run.mem, to, d) {
        None => Turn::Stopped(RunEnd::Undefined),
        Some(()) => Turn::On(x),
    }
}

/// How many parameters a function has. More than a number can tell are told as want of memory.
fn parameter_count(f: &Function) -> Result<u32, Memory>
    ensures { IfOk result (λ n. n ≡ length f.now.parameters.items) }
{
    match u32::try_from(f.parameters.len()) {
        Ok(n) => Ok(n),
        Err(_) => Err(Memory),
    }
}

/// The objects of an activation end (C11 6.2.4p5, p6).
fn leave_activation(run: &mut Run, act: u64, f: &Function) -> Result<(), Memory>
    ensures ended { IfOk result (λ u. Left run.old run.new act f.now) }
    ensures streams { run.new.streams ≡ run.old.streams }
    ensures left { run.new.left ≡ run.old.left }
{
    let arguments = parameter_count(f)?;
    leave(&mut run.mem, act, arguments, &f.objects);
    Ok(())
}

/// Where an activation that waits goes on.
fn stand_of(frame: Frame) -> Stand
    ensures { result ≡ standing_at frame }
{
    Stand {
        function: frame.function,
        act: frame.act,
        place: frame.place,
    }
}

/// An activation has ended with a value: the innermost one that waits keeps it and goes on (C11 6.8.6.4p3), and where none
/// waits the run has ended.
#[tactic(auto, using(crate::proofs::Returns::popped, crate::proofs::Returns::over, crate::proofs::Returns::popping_falls, crate::proofs::Returns::status_plain))]
fn resume(run: &mut Run, d: &Datum) -> Turn
    ensures turned { (table : List (Option TableEntity)) → Waits table run.old → TurnedQuietly table (from_result table run.old (datum_of d.now)) run.old run.new result }
    ensures falls { (table : List (Option TableEntity)) → Falls table (waiting_burden table run.old) run.new result }
    ensures plain { IsPlain result }
    ensures left { run.new.left ≤ run.old.left }
{
    match run.frames.pop() {
        None => Turn::Stopped(status(d)),
        Some(frame) => keep_on(run, frame.to, d, stand_of(frame)),
    }
}

/// The body of an activation of a function has ended with a value: its objects end (C11 6.2.4p5), and then the innermost
/// activation that waits keeps the result.
#[tactic(auto, using(crate::proofs::Returns::ends_turned, crate::proofs::Returns::wants_end))]
pub(crate) fn end_activation(run: &mut Run, act: u64, f: &Function, d: &Datum) -> Turn
    ensures turned { (table : List (Option TableEntity)) → Waits table run.old → TurnedQuietly table (from_end table run.old act f.now (datum_of d.now)) run.old run.new result }
    ensures falls { (table : List (Option TableEntity)) → Falls table (waiting_burden table run.old) run.new result }
    ensures plain { IsPlain result }
    ensures left { run.new.left ≤ run.old.left }
{
    match leave_activation(run, act, f) {
        Err(Memory) => Turn::Stopped(RunEnd::Memory),
        Ok(()) => resume(run, d),
    }
}
