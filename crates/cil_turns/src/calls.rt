ghost use Rattle.std.specs.Prelude.{◌≡◌, ◌+◌, ◌<◌, ◌≤◌, ◌^◌, Some, List, Option, suc, slice_get, length};
ghost use Rattle.byte_mem.specs.Store.{memory};
ghost use Rattle.host_calls.specs.Counted.{IsCounted};
ghost use Rattle.outside.specs.Counts.{KeepsLimit};
ghost use Rattle.execution.specs.Calls.{entity_at};
ghost use Rattle.cil_streams.specs.Held.{host_part};
ghost use Rattle.cil_frames.specs.declared.frames.Entity.{Entity as TableEntity};
ghost use Rattle.cil_frames.specs.declared.frames.Entity.TheVariants.{Program as OfProgram};
ghost use Rattle.cil_frames.specs.Course.{IsCallAt};
ghost use Rattle.cil_turns.specs.Standing.{Falls, Stands, burden, from_stand};
ghost use Rattle.cil_turns.specs.Moving.{Turned, TurnReads, TurnWrites};
ghost use Rattle.cil_turns.specs.Turning.{StandsAtCall, StandsBefore};

use crate::ends::RunEnd;
use crate::entering::call_function;
use crate::hosts::call_host;
use crate::runs::{Run, Stand, Turn};
use byte_mem::{ObjName, Value};
use cil_base::Memory;
use cil_code::{Call, Step};
use cil_frames::{Entity, Evaluated, Function, evaluate};
use outside::{Sink, Source};

/// The entity that a value points to.
fn entity_of(v: Value) -> Option<usize>
    ensures { result ≡ entity_at v }
{
    let p = v.pointer()?;
    if p.offset != 0 {
        return None;
    }
    match p.name {
        ObjName::Entity(e) => Some(e.0 as usize),
        ObjName::Local(..) | ObjName::Literal(_) | ObjName::Heap(_) | ObjName::Argument(_) => None,
    }
}

/// A call of an entity: of an object it is undefined (C11 6.5.2.2p1).
fn call_entity<I: Source, O: Sink>(
    run: &mut Run,
    behind: Stand,
    callee: usize,
    entity: &Entity,
    e: &Evaluated,
    input: &mut I,
    out: &mut O,
) -> Turn
    requires counted { IsCounted (host_part (memory run.old.mem) run.old.streams) }
    requires numbers { run.old.next + run.old.left < 2 ^ 64 }
    requires called { entity_at e.now.callee ≡ Some callee }
    ensures turned { (table : List (Option TableEntity)) (x : Stand) → StandsAtCall table run.old x behind e.now → slice_get table callee ≡ Some (Some entity.now)
        → Turned table (from_stand table run.old x) run.old run.new result (I.left input.old) (I.left input.new) (O.taken out.old) (O.taken out.new) }
    ensures falls { (table : List (Option TableEntity)) (x : Stand) → StandsAtCall table run.old x behind e.now → slice_get table callee ≡ Some (Some entity.now)
        → Falls table (burden table run.old x) run.new result }
    ensures left { run.new.left ≤ run.old.left }
    ensures reads { TurnReads result (I.faults input.old) (I.faults input.new) }
    ensures writes { TurnWrites result (O.faults out.old) (O.faults out.new) }
    ensures read_limit { KeepsLimit (I.faults input.old) (I.faults input.new) }
    ensures write_limit { KeepsLimit (O.faults out.old) (O.faults out.new) }
{
    match entity {
        Entity::Data => Turn::Stopped(RunEnd::Undefined),
        Entity::Program(f) => call_function(run, behind, callee, f, e),
        Entity::Host(name) => call_host(run, behind, *name, e, input, out),
    }
}

/// A call of what a table has of an entity; of what it has not, the call is undefined.
fn call_numbered<I: Source, O: Sink>(
    table: &[Option<Entity>],
    run: &mut Run,
    behind: Stand,
    callee: usize,
    e: &Evaluated,
    input: &mut I,
    out: &mut O,
) -> Turn
    requires counted { IsCounted (host_part (memory run.old.mem) run.old.streams) }
    requires numbers { run.old.next + run.old.left < 2 ^ 64 }
    requires called { entity_at e.now.callee ≡ Some callee }
    ensures turned { (x : Stand) → StandsAtCall table.now run.old x behind e.now
        → Turned table.now (from_stand table.now run.old x) run.old run.new result (I.left input.old) (I.left input.new) (O.taken out.old) (O.taken out.new) }
    ensures falls { (x : Stand) → StandsAtCall table.now run.old x behind e.now → Falls table.now (burden table.now run.old x) run.new result }
    ensures left { run.new.left ≤ run.old.left }
    ensures reads { TurnReads result (I.faults input.old) (I.faults input.new) }
    ensures writes { TurnWrites result (O.faults out.old) (O.faults out.new) }
    ensures read_limit { KeepsLimit (I.faults input.old) (I.faults input.new) }
    ensures write_limit { KeepsLimit (O.faults out.old) (O.faults out.new) }
{
    if callee >= table.len() {
        return Turn::Stopped(RunEnd::Undefined);
    }
    match &table[callee] {
        None => Turn::Stopped(RunEnd::Undefined),
        Some(entity) => call_entity(run, behind, callee, entity, e, input, out),
    }
}

/// A call whose parts are evaluated; of what is no function it is undefined (C11 6.5.2.2p1).
fn call<I: Source, O: Sink>(
    table: &[Option<Entity>],
    run: &mut Run,
    behind: Stand,
    e: &Evaluated,
    input: &mut I,
    out: &mut O,
) -> Turn
    requires counted { IsCounted (host_part (memory run.old.mem) run.old.streams) }
    requires numbers { run.old.next + run.old.left < 2 ^ 64 }
    ensures turned { (x : Stand) → StandsAtCall table.now run.old x behind e.now
        → Turned table.now (from_stand table.now run.old x) run.old run.new result (I.left input.old) (I.left input.new) (O.taken out.old) (O.taken out.new) }
    ensures falls { (x : Stand) → StandsAtCall table.now run.old x behind e.now → Falls table.now (burden table.now run.old x) run.new result }
    ensures left { run.new.left ≤ run.old.left }
    ensures reads { TurnReads result (I.faults input.old) (I.faults input.new) }
    ensures writes { TurnWrites result (O.faults out.old) (O.faults out.new) }
    ensures read_limit { KeepsLimit (I.faults input.old) (I.faults input.new) }
    ensures write_limit { KeepsLimit (O.faults out.old) (O.faults out.new) }
{
    match entity_of(e.callee) {
        None => Turn::Stopped(RunEnd::Undefined),
        Some(callee) => call_numbered(table, run, behind, callee, e, input, out),
    }
}

/// The call that stands at a place of a function: its parts are evaluated first.
fn call_with<I: Source, O: Sink>(
    table: &[Option<Entity>],
    run: &mut Run,
    x: Stand,
    behind: Stand,
    k: &Call,
    input: &mut I,
    out: &mut O,
) -> Turn
    requires { StandsBefore table.now run.old x behind k.now }
    ensures turned { Turned table.now (from_stand table.now run.old x) run.old run.new result (I.left input.old) (I.left input.new) (O.taken out.old) (O.taken out.new) }
    ensures falls { Falls table.now (burden table.now run.old x) run.new result }
    ensures left { run.new.left ≤ run.old.left }
    ensures reads { TurnReads result (I.faults input.old) (I.faults input.new) }
    ensures writes { TurnWrites result (O.faults out.old) (O.faults out.new) }
    ensures read_limit { KeepsLimit (I.faults input.old) (I.faults input.new) }
    ensures write_limit { KeepsLimit (O.faults out.old) (O.faults out.new) }
{
    match evaluate(run.alloc, &run.mem, x.act, k) {
        Err(Memory) => Turn::Stopped(RunEnd::Memory),
        Ok(None) => Turn::Stopped(RunEnd::Undefined),
        Ok(Some(e)) => call(table, run, behind, &e, input, out),
    }
}

/// The place behind a call.
fn behind(f: &Function, x: Stand) -> Stand
    requires { x.place < length f.now.code.items }
    ensures { result ≡ record x { place = suc x.place } }
{
    Stand {
        place: x.place + 1,
        ..x
    }
}

/// The call that stands at a place of a function.
pub(crate) fn call_at<I: Source, O: Sink>(
    table: &[Option<Entity>],
    run: &mut Run,
    x: Stand,
    f: &Function,
    input: &mut I,
    out: &mut O,
) -> Turn
    requires stands { Stands table.now run.old x }
    requires running { slice_get table.now x.function ≡ Some (Some (OfProgram f.now)) }
    requires there { IsCallAt f.now.code.items x.place }
    ensures turned { Turned table.now (from_stand table.now run.old x) run.old run.new result (I.left input.old) (I.left input.new) (O.taken out.old) (O.taken out.new) }
    ensures falls { Falls table.now (burden table.now run.old x) run.new result }
    ensures left { run.new.left ≤ run.old.left }
    ensures reads { TurnReads result (I.faults input.old) (I.faults input.new) }
    ensures writes { TurnWrites result (O.faults out.old) (O.faults out.new) }
    ensures read_limit { KeepsLimit (I.faults input.old) (I.faults input.new) }
    ensures write_limit { KeepsLimit (O.faults out.old) (O.faults out.new) }
{
    let Step::Call(k) = &f.code[x.place] else {
        unreachable!()
    };
    call_with(table, run, x, behind(f, x), k, input, out)
}
