ghost use Rattle.std.specs.Prelude.{◌≡◌, ◌≤◌, ℕ};
ghost use Rattle.byte_mem.specs.Store.{memory};
ghost use Rattle.host_calls.specs.Counted.{IsCounted};
ghost use Rattle.outside.specs.Counts.{KeepsLimit};
ghost use Rattle.execution.specs.Calls.{Enter, Linked};
ghost use Rattle.cil_streams.specs.Held.{host_part};
ghost use Rattle.cil_frames.specs.Frames.{Courses, IsMachine, AllLead};
ghost use Rattle.cil_frames.specs.Growing.{IsPlace};
ghost use Rattle.cil_turns.specs.Ends.{CountsReads, CountsWrites, RunsTo, call_of_first};
ghost use Rattle.cil_turns.specs.Standing.{IsFresh, Stands, from_first, from_stand};
ghost use Rattle.cil_turns.specs.Moving.{Finishes, IsPlainEnd};
ghost use Rattle.cil_turns.specs.Turning.{FirstStands, Flushed, Writes};

use crate::ends::RunEnd;
use crate::entering::call_first;
use crate::runs::{FirstCall, Run, Stand, Turn};
use crate::turns::turn;
use cil_frames::{Entity, Function};
use outside::{Failed, Sink, Source};

/// Runs on from where a machine stands, to the end of the run.
fn run_on<I: Source, O: Sink>(
    table: &[Option<Entity>],
    run: &mut Run,
    start: Stand,
    input: &mut I,
    out: &mut O,
) -> RunEnd
    requires { Stands table.now run.old start }
    ensures finishes { Finishes table.now (from_stand table.now run.old start) result run.old run.new (I.left input.old) (I.left input.new) (O.taken out.old) (O.taken out.new) }
    ensures left { run.new.left ≤ run.old.left }
    ensures reads { CountsReads result (I.faults input.old) (I.faults input.new) }
    ensures writes { CountsWrites result (O.faults out.old) (O.faults out.new) }
    ensures read_limit { KeepsLimit (I.faults input.old) (I.faults input.new) }
    ensures write_limit { KeepsLimit (O.faults out.old) (O.faults out.new) }
{
    let mut x = start;
    loop {
        match turn(table, run, x, input, out) {
            Turn::On(y) => x = y,
            Turn::Stopped(end) => return end,
        }
    }
}

/// Runs the first call, of a loaded function.
fn run_function<I: Source, O: Sink>(
    table: &[Option<Entity>],
    run: &mut Run,
    f: &Function,
    call: &FirstCall,
    input: &mut I,
    out: &mut O,
) -> RunEnd
    requires { FirstStands table.now run.old f.now call.now }
    ensures finishes { Finishes table.now (from_first call.now) result run.old run.new (I.left input.old) (I.left input.new) (O.taken out.old) (O.taken out.new) }
    ensures left { run.new.left ≤ run.old.left }
    ensures reads { CountsReads result (I.faults input.old) (I.faults input.new) }
    ensures writes { CountsWrites result (O.faults out.old) (O.faults out.new) }
    ensures read_limit { KeepsLimit (I.faults input.old) (I.faults input.new) }
    ensures write_limit { KeepsLimit (O.faults out.old) (O.faults out.new) }
{
    match call_first(run, f, call) {
        Turn::On(x) => run_on(table, run, x, input, out),
        Turn::Stopped(end) => end,
    }
}

/// Writes all output that waits.
fn write_rest<O: Sink>(run: &mut Run, end: RunEnd, out: &mut O) -> RunEnd
    requires { IsPlainEnd end }
    ensures writes { Writes end result run.old.streams.waiting (O.taken out.old) (O.taken out.new) }
    ensures ended { run.new.streams.ended ≡ run.old.streams.ended }
    ensures left { run.new.left ≡ run.old.left }
    ensures count { CountsWrites result (O.faults out.old) (O.faults out.new) }
    ensures write_limit { KeepsLimit (O.faults out.old) (O.faults out.new) }
{
    match run.streams.flush(out) {
        Ok(()) => end,
        Err(Failed) => RunEnd::WriteFault,
    }
}

/// Writes all output that waits, but after a read or a write that failed, when none does.
fn finish<O: Sink>(run: &mut Run, end: RunEnd, out: &mut O) -> RunEnd
    ensures flushed { Flushed end result run.old.streams.waiting (O.taken out.old) (O.taken out.new) }
    ensures ended { run.new.streams.ended ≡ run.old.streams.ended }
    ensures left { run.new.left ≡ run.old.left }
    ensures reads { (before now : ℕ) → CountsReads end before now → CountsReads result before now }
    ensures writes { (before : ℕ) → CountsWrites end before (O.faults out.old) → CountsWrites result before (O.faults out.new) }
    ensures write_limit { KeepsLimit (O.faults out.old) (O.faults out.new) }
{
    match end {
        RunEnd::ReadFault | RunEnd::WriteFault => end,
        RunEnd::Exited(_) | RunEnd::StillRunning | RunEnd::Undefined | RunEnd::Memory => {
            write_rest(run, end, out)
        }
    }
}

/// Runs a call of a function of a table to its end, within the units that are left. The source is read only where a
/// byte is wanted and none is at hand, and all output has gone to the sink at the end.
///
/// `ReadFault` where a read fails, and `WriteFault` where a write fails; then the sink took a front of the output. After
/// `Memory`, which comes only for want of memory, the sink has the output so far.
pub fn run_call<I: Source, O: Sink>(
    table: &[Option<Entity>],
    run: &mut Run,
    call: &FirstCall,
    input: &mut I,
    out: &mut O,
) -> RunEnd
    requires leads { AllLead table.now }
    requires callee { IsPlace table.now call.now.callee 0 }
    requires fresh { IsFresh run.old }
    requires counted { IsCounted (host_part (memory run.old.mem) run.old.streams) }
    ensures runs { (link : Linked) (enter : Enter) (at : Courses) → IsMachine run.old.mem.abi link enter at table.now
        → RunsTo result (enter (call_of_first run.old.mem.abi call.now)) (memory run.old.mem) run.old.streams run.old.left run.new.left 0
        (I.left input.old) (I.left input.new) (O.taken out.old) (O.taken out.new) }
    ensures left { run.new.left ≤ run.old.left }
    ensures reads { CountsReads result (I.faults input.old) (I.faults input.new) }
    ensures writes { CountsWrites result (O.faults out.old) (O.faults out.new) }
    ensures read_limit { KeepsLimit (I.faults input.old) (I.faults input.new) }
    ensures write_limit { KeepsLimit (O.faults out.old) (O.faults out.new) }
{
    match &table[call.callee as usize] {
        Some(Entity::Program(f)) => {
            let end = run_function(table, run, f, call, input, out);
            finish(run, end, out)
        }
        None | Some(Entity::Data) | Some(Entity::Host(_)) => unreachable!(),
    }
}
