ghost use Rattle.std.specs.Prelude.{◌≡◌, ◌≤◌, ℕ, List, Option, Some, IfOk, option_map};
ghost use Rattle.byte_mem.specs.Store.{memory};
ghost use Rattle.host_calls.specs.Counted.{IsCounted};
ghost use Rattle.outside.specs.Counts.{KeepsLimit};
ghost use Rattle.execution.specs.Calls.{scalar_argument, scalar_arguments, scalar_result};
ghost use Rattle.cil_streams.specs.Held.{host_part};
ghost use Rattle.cil_streams.specs.HostAnswers.{CountsReads as HostReads, CountsWrites as HostWrites};
ghost use Rattle.cil_code.specs.Calling.{kind_from};
ghost use Rattle.cil_frames.specs.Entering.{argument_of, arguments_of};
ghost use Rattle.cil_frames.specs.Frames.{entry_at};
ghost use Rattle.cil_frames.specs.declared.frames.Entity.{Entity as TableEntity};
ghost use Rattle.cil_frames.specs.declared.frames.Entity.TheVariants.{Host as OfHost};
ghost use Rattle.cil_turns.specs.Standing.{Falls, burden, from_stand};
ghost use Rattle.cil_turns.specs.Moving.{Turned, TurnReads, TurnWrites};
ghost use Rattle.cil_turns.specs.Turning.{Asked, GoesTo, HostTurned, StandsAtCall};

use crate::ends::RunEnd;
use crate::returning::keep_on;
use crate::runs::{Run, Stand, Turn};
use byte_mem::{Scalar, Value};
use cil_code::{Datum, Kind};
use cil_frames::{Argument, Destination, Evaluated};
use cil_streams::HostEnd;
use host_calls::HostName;
use outside::{Sink, Source};
use std::alloc::{AllocError, Global};

/// The kind of a result that the host can give, None for void. None at all for that of a struct or union.
fn scalar_kind(wanted: Option<Kind>) -> Option<Option<Scalar>>
    ensures { result ≡ scalar_result (kind_from wanted) }
{
    match wanted {
        Some(Kind::Void) => Some(None),
        Some(Kind::Single(s)) => Some(Some(s)),
        Some(Kind::Bytes(_)) | None => None,
    }
}

/// An argument that is a scalar.
fn scalar(a: &Argument) -> Option<(Scalar, Value)>
    ensures { result ≡ scalar_argument (argument_of a.now).kind (argument_of a.now).datum }
{
    match (a.kind, &a.datum) {
        (Some(Kind::Single(s)), Datum::Single(v)) => Some((s, *v)),
        (None | Some(Kind::Void | Kind::Single(_) | Kind::Bytes(_)), _) => None,
    }
}

/// The arguments, where each is a scalar.
#[tactic(auto, using(crate::proofs::Scalars::scalars_next, crate::proofs::Scalars::scalars_nothing, crate::proofs::Scalars::scalars_all))]
fn scalars(
    alloc: Global,
    arguments: &[Argument],
) -> Result<Option<Vec<(Scalar, Value)>>, AllocError>
    ensures { IfOk result (λ o. option_map (λ v. v.items) o ≡ scalar_arguments (arguments_of arguments.now)) }
{
    let mut done = Vec::new(alloc);
    for i in 0..arguments.len() {
        match scalar(&arguments[i]) {
            None => return Ok(None),
            Some(a) => done.push(a)?,
        }
    }
    Ok(Some(done))
}

/// A call of a function of the host, with evaluated parts: undefined where one of them is no scalar (own).
#[tactic(auto, using(crate::proofs::HostTurns::asked, crate::proofs::HostTurns::no_result, crate::proofs::HostTurns::no_arguments, crate::proofs::HostTurns::no_memory))]
fn ask<I: Source, O: Sink>(
    run: &mut Run,
    name: HostName,
    e: &Evaluated,
    input: &mut I,
    out: &mut O,
) -> HostEnd
    requires { IsCounted (host_part (memory run.old.mem) run.old.streams) }
    ensures asked { Asked result run.old.mem.abi name e.now (memory run.old.mem) (memory run.new.mem) run.old.streams run.new.streams
        (I.left input.old) (I.left input.new) (O.taken out.old) (O.taken out.new) }
    ensures counted { IsCounted (host_part (memory run.new.mem) run.new.streams) }
    ensures model { run.new.mem.abi ≡ run.old.mem.abi }
    ensures others { run.new ≡ record run.old { mem = run.new.mem; streams = run.new.streams } }
    ensures reads { HostReads result (I.faults input.old) (I.faults input.new) }
    ensures writes { HostWrites result (O.faults out.old) (O.faults out.new) }
    ensures read_limit { KeepsLimit (I.faults input.old) (I.faults input.new) }
    ensures write_limit { KeepsLimit (O.faults out.old) (O.faults out.new) }
{
    let Some(wanted) = scalar_kind(e.result) else {
        return HostEnd::Undefined;
    };
    match scalars(run.alloc, &e.arguments) {
        Err(AllocError) => HostEnd::Memory,
        Ok(None) => HostEnd::Undefined,
        Ok(Some(args)) => run
            .streams
            .call(name, wanted, &args, &mut run.mem, input, out),
    }
}

/// What comes behind a call of the host: its result is kept, and the run goes on behind the call, or has ended.
fn answered(run: &mut Run, to: Option<Destination>, end: HostEnd, behind: Stand) -> Turn
    ensures turned { (table : List (Option TableEntity)) → HostTurned end table run.old run.new to behind result }
    ensures goes { GoesTo behind run.old run.new result }
    ensures reads { (before now : ℕ) → HostReads end before now → TurnReads result before now }
    ensures writes { (before now : ℕ) → HostWrites end before now → TurnWrites result before now }
    ensures left { run.new.left ≤ run.old.left }
{
    match end {
        HostEnd::Value(v) => keep_on(run, to, &Datum::Single(v), behind),
        HostEnd::Exit(status) => Turn::Stopped(RunEnd::Exited(status)),
        HostEnd::Undefined => Turn::Stopped(RunEnd::Undefined),
        HostEnd::ReadFault => Turn::Stopped(RunEnd::ReadFault),
        HostEnd::WriteFault => Turn::Stopped(RunEnd::WriteFault),
        HostEnd::Memory => Turn::Stopped(RunEnd::Memory),
    }
}

/// A call of a function of the host (C11 7.21.7, 7.22.3, 7.22.4).
#[tactic(auto, using(crate::proofs::HostTurns::host_turns, crate::proofs::HostTurns::host_falls))]
pub(crate) fn call_host<I: Source, O: Sink>(
    run: &mut Run,
    behind: Stand,
    name: HostName,
    e: &Evaluated,
    input: &mut I,
    out: &mut O,
) -> Turn
    requires { IsCounted (host_part (memory run.old.mem) run.old.streams) }
    ensures turned { (table : List (Option TableEntity)) (x : Stand) → StandsAtCall table run.old x behind e.now → entry_at table e.now.callee ≡ Some (OfHost name)
        → Turned table (from_stand table run.old x) run.old run.new result (I.left input.old) (I.left input.new) (O.taken out.old) (O.taken out.new) }
    ensures falls { (table : List (Option TableEntity)) (x : Stand) → StandsAtCall table run.old x behind e.now → Falls table (burden table run.old x) run.new result }
    ensures left { run.new.left ≤ run.old.left }
    ensures reads { TurnReads result (I.faults input.old) (I.faults input.new) }
    ensures writes { TurnWrites result (O.faults out.old) (O.faults out.new) }
    ensures read_limit { KeepsLimit (I.faults input.old) (I.faults input.new) }
    ensures write_limit { KeepsLimit (O.faults out.old) (O.faults out.new) }
{
    let end = ask(run, name, e, input, out);
    answered(run, e.to, end, behind)
}
