ghost use Rattle.std.specs.Prelude.{◌≡◌, ◌<◌, ◌≤◌, Some, slice_get, length, IfOk, OnErr};
ghost use Rattle.outside.specs.Counts.{KeepsLimit};
ghost use Rattle.cil_frames.specs.declared.frames.Entity.TheVariants.{Program as OfProgram};
ghost use Rattle.cil_code.specs.Leading.{LeadOn};
ghost use Rattle.cil_turns.specs.Standing.{Falls, Stands, burden, from_stand, from_stop, stop_burden};
ghost use Rattle.cil_turns.specs.Moving.{Turned, TurnReads, TurnWrites};
ghost use Rattle.cil_turns.specs.Turning.{Coursed, StopsAt};

use crate::calls::call_at;
use crate::ends::RunEnd;
use crate::returning::end_activation;
use crate::runs::{Run, Stand, Turn};
use cil_base::Memory;
use cil_code::Step;
use cil_frames::{Entity, Function, Stop, run_course};
use outside::{Sink, Source};

/// A course through a function's steps. The units stay as they are where memory is wanting.
#[tactic(auto, using(crate::proofs::Courses::coursed, crate::proofs::Courses::ran_spends))]
fn course(run: &mut Run, x: Stand, code: &[Step]) -> Result<Stop, Memory>
    requires leads { LeadOn code.now }
    requires there { x.place < length code.now }
    ensures coursed { IfOk result (Coursed run.old run.new x code.now) }
    ensures kept { OnErr result (run.new.left ≡ run.old.left) }
    ensures streams { run.new.streams ≡ run.old.streams }
    ensures left { run.new.left ≤ run.old.left }
{
    let mut left = run.left;
    let stop = run_course(&mut run.mem, x.act, code, x.place, &mut left)?;
    run.left = left;
    Ok(stop)
}

/// What comes behind a course.
#[tactic(auto, using(crate::proofs::Courses::call_turned, crate::proofs::Courses::stands_there, crate::proofs::Courses::runs_still, crate::proofs::Courses::goes_wrong))]
fn behind_course<I: Source, O: Sink>(
    table: &[Option<Entity>],
    run: &mut Run,
    x: Stand,
    f: &Function,
    stop: Stop,
    input: &mut I,
    out: &mut O,
) -> Turn
    requires { StopsAt table.now run.old x f.now stop }
    ensures turned { Turned table.now (from_stop table.now run.old x f.now stop) run.old run.new result (I.left input.old) (I.left input.new) (O.taken out.old) (O.taken out.new) }
    ensures falls { Falls table.now (stop_burden table.now run.old x stop) run.new result }
    ensures left { run.new.left ≤ run.old.left }
    ensures reads { TurnReads result (I.faults input.old) (I.faults input.new) }
    ensures writes { TurnWrites result (O.faults out.old) (O.faults out.new) }
    ensures read_limit { KeepsLimit (I.faults input.old) (I.faults input.new) }
    ensures write_limit { KeepsLimit (O.faults out.old) (O.faults out.new) }
{
    match stop {
        Stop::Call(q) => call_at(table, run, Stand { place: q, ..x }, f, input, out),
        Stop::Running => Turn::Stopped(RunEnd::StillRunning),
        Stop::Ended(None) => end_activation(run, x.act, f, &f.end),
        Stop::Ended(Some(d)) => end_activation(run, x.act, f, &d),
        Stop::Undefined => Turn::Stopped(RunEnd::Undefined),
    }
}

/// A turn in a function.
#[tactic(auto, using(crate::proofs::Courses::course_turned, crate::proofs::Courses::course_stops, crate::proofs::Courses::course_falls, crate::proofs::Begins::wants_at))]
fn turn_in<I: Source, O: Sink>(
    table: &[Option<Entity>],
    run: &mut Run,
    x: Stand,
    f: &Function,
    input: &mut I,
    out: &mut O,
) -> Turn
    requires stands { Stands table.now run.old x }
    requires running { slice_get table.now x.function ≡ Some (Some (OfProgram f.now)) }
    ensures turned { Turned table.now (from_stand table.now run.old x) run.old run.new result (I.left input.old) (I.left input.new) (O.taken out.old) (O.taken out.new) }
    ensures falls { Falls table.now (burden table.now run.old x) run.new result }
    ensures left { run.new.left ≤ run.old.left }
    ensures reads { TurnReads result (I.faults input.old) (I.faults input.new) }
    ensures writes { TurnWrites result (O.faults out.old) (O.faults out.new) }
    ensures read_limit { KeepsLimit (I.faults input.old) (I.faults input.new) }
    ensures write_limit { KeepsLimit (O.faults out.old) (O.faults out.new) }
{
    match course(run, x, &f.code) {
        Err(Memory) => Turn::Stopped(RunEnd::Memory),
        Ok(stop) => behind_course(table, run, x, f, stop, input, out),
    }
}

/// A turn of a machine: the course through the steps from where it stands, and what comes behind it, which is a call, the
/// end of an activation (C11 6.8.6.4), or the end of the run.
pub(crate) fn turn<I: Source, O: Sink>(
    table: &[Option<Entity>],
    run: &mut Run,
    x: Stand,
    input: &mut I,
    out: &mut O,
) -> Turn
    requires { Stands table.now run.old x }
    ensures turned { Turned table.now (from_stand table.now run.old x) run.old run.new result (I.left input.old) (I.left input.new) (O.taken out.old) (O.taken out.new) }
    ensures falls { Falls table.now (burden table.now run.old x) run.new result }
    ensures left { run.new.left ≤ run.old.left }
    ensures reads { TurnReads result (I.faults input.old) (I.faults input.new) }
    ensures writes { TurnWrites result (O.faults out.old) (O.faults out.new) }
    ensures read_limit { KeepsLimit (I.faults input.old) (I.faults input.new) }
    ensures write_limit { KeepsLimit (O.faults out.old) (O.faults out.new) }
{
    match &table[x.function] {
        Some(Entity::Program(f)) => turn_in(table, run, x, f, input, out),
        None | Some(Entity::Data) | Some(Entity::Host(_)) => unreachable!(),
    }
}
