ghost use Rattle.std.specs.Prelude.{◌≡◌, ◌<◌, ◌+◌, ◌^◌, ◌≤◌, [], ◌∷◌, ◌++◌, Some, List, Option, slice_get, IfOk, OnErr};
ghost use Rattle.execution.specs.Calls.{entity_at};
ghost use Rattle.cil_frames.specs.declared.frames.Entity.{Entity as TableEntity};
ghost use Rattle.cil_frames.specs.declared.frames.Entity.TheVariants.{Program as OfProgram};
ghost use Rattle.cil_turns.specs.Standing.{Falls, burden, from_first, from_stand};
ghost use Rattle.cil_turns.specs.Moving.{IsPlain, TurnedQuietly};
ghost use Rattle.cil_turns.specs.Turning.{Begun, FirstStands, StandsAtCall, frame_of};

use crate::ends::RunEnd;
use crate::kinds::kinds_agree;
use crate::runs::{FirstCall, Run, Stand, Turn};
use cil_base::Memory;
use cil_frames::{Argument, Evaluated, Frame, Function, enter};

/// An activation of a loaded function begins: it spends a unit (own), has the next number, and stands at its first place.
#[tactic(auto, using(crate::proofs::Begins::begun))]
fn begin(
    run: &mut Run,
    callee: usize,
    f: &Function,
    arguments: &[Argument],
) -> Result<Stand, Memory>
    requires units { 0 < run.old.left }
    requires numbers { run.old.next + run.old.left < 2 ^ 64 }
    ensures begun { IfOk result (Begun run.old run.new run.old.frames.items callee f.now arguments.now) }
    ensures streams { run.new.streams ≡ run.old.streams }
    ensures kept { OnErr result (run.new.left ≡ run.old.left) }
    ensures left { run.new.left ≤ run.old.left }
{
    let act = run.next;
    enter(&mut run.mem, act, arguments, &f.objects)?;
    run.left -= 1;
    run.next += 1;
    Ok(Stand {
        function: callee,
        act,
        place: 0,
    })
}

/// The caller waits behind its call, and an activation of the callee begins.
#[tactic(auto, using(crate::proofs::Begins::pushed))]
fn push(
    run: &mut Run,
    behind: Stand,
    callee: usize,
    f: &Function,
    e: &Evaluated,
) -> Result<Stand, Memory>
    requires units { 0 < run.old.left }
    requires numbers { run.old.next + run.old.left < 2 ^ 64 }
    ensures begun { IfOk result (Begun run.old run.new (run.old.frames.items ++ frame_of behind e.now.to ∷ []) callee f.now e.now.arguments.items) }
    ensures streams { run.new.streams ≡ run.old.streams }
    ensures kept { OnErr result (run.new.left ≡ run.old.left) }
    ensures left { run.new.left ≤ run.old.left }
{
    run.frames.push(Frame {
        function: behind.function,
        act: behind.act,
        place: behind.place,
        to: e.to,
    })?;
    begin(run, callee, f, &e.arguments)
}

/// A call of a loaded function: undefined where the kinds differ, else a unit is spent, and the callee's activation begins
/// (C11 6.5.2.2p6, 6.9.1; own).
#[tactic(auto, using(crate::proofs::Begins::enters, crate::proofs::Begins::entering_falls, crate::proofs::Begins::misfits, crate::proofs::Begins::lacks, crate::proofs::Begins::wants_at))]
pub(crate) fn call_function(
    run: &mut Run,
    behind: Stand,
    callee: usize,
    f: &Function,
    e: &Evaluated,
) -> Turn
    requires { run.old.next + run.old.left < 2 ^ 64 }
    ensures turned { (table : List (Option TableEntity)) (x : Stand) → StandsAtCall table run.old x behind e.now → entity_at e.now.callee ≡ Some callee → slice_get table callee ≡ Some (Some (OfProgram f.now))
        → TurnedQuietly table (from_stand table run.old x) run.old run.new result }
    ensures falls { (table : List (Option TableEntity)) (x : Stand) → StandsAtCall table run.old x behind e.now → slice_get table callee ≡ Some (Some (OfProgram f.now))
        → Falls table (burden table run.old x) run.new result }
    ensures plain { IsPlain result }
    ensures left { run.new.left ≤ run.old.left }
{
    if !kinds_agree(f, e.result, &e.arguments) {
        return Turn::Stopped(RunEnd::Undefined);
    }
    if run.left == 0 {
        return Turn::Stopped(RunEnd::StillRunning);
    }
    match push(run, behind, callee, f, e) {
        Ok(x) => Turn::On(x),
        Err(Memory) => Turn::Stopped(RunEnd::Memory),
    }
}

/// The first call, of a loaded function.
#[tactic(auto, using(crate::proofs::Begins::first_enters, crate::proofs::Begins::first_misfits, crate::proofs::Begins::first_lacks, crate::proofs::Begins::first_wants))]
pub(crate) fn call_first(run: &mut Run, f: &Function, call: &FirstCall) -> Turn
    requires { run.old.next + run.old.left < 2 ^ 64 }
    ensures turned { (table : List (Option TableEntity)) → FirstStands table run.old f.now call.now → TurnedQuietly table (from_first call.now) run.old run.new result }
    ensures plain { IsPlain result }
    ensures left { run.new.left ≤ run.old.left }
{
    if !kinds_agree(f, call.result, &call.arguments) {
        return Turn::Stopped(RunEnd::Undefined);
    }
    if run.left == 0 {
        return Turn::Stopped(RunEnd::StillRunning);
    }
    match begin(run, call.callee as usize, f, &call.arguments) {
        Ok(x) => Turn::On(x),
        Err(Memory) => Turn::Stopped(RunEnd::Memory),
    }
}
