ghost use Rattle.std.specs.Prelude.{◌<◌, IfOk, length};
ghost use Rattle.cil_code.specs.Leading.{LeadOn};

use crate::equal::are_equal;
use crate::trees::add_step;
use byte_mem::{Byte, Cells, ObjName, Pointer, Scalar, Store, Value};
use cil_base::{EntityId, IntKind, LocalId, Memory};
use cil_code::{Call, Datum, Kind, Operand, Receiver, Step};
use cil_frames::{Argument, Automatic, Evaluated, Stop, enter, evaluate, keep, leave, run_course};
use cil_machine::{Spot, Term};
use std::alloc::{AllocError, Global};
use std::process::Abort;
use std::test::Fail;

const INT: Scalar = Scalar::Int(IntKind::Int);

// A local of the activation 5.
fn local(n: u32) -> Pointer {
    Pointer {
        name: ObjName::Local(5, LocalId(n)),
        offset: 0,
    }
}

// `l0 = 7; goto end; (nowhere) end: return l0;`
fn straight(alloc: Global) -> Result<Vec<Step>, AllocError>
    ensures leads { IfOk result (λ code. LeadOn code.items) }
    ensures there { IfOk result (λ code. 0 < length code.items) }
{
    let mut code = Vec::new(alloc);
    let seven = Operand::Single(INT, Term::Number(7));
    add_step(&mut code, Step::Set(Spot::Local(LocalId(0)), seven))?;
    add_step(&mut code, Step::Forward(3))?;
    add_step(&mut code, Step::Stuck)?;
    let value = Term::Load(Spot::Local(LocalId(0)));
    add_step(&mut code, Step::Leave(Some(Operand::Single(INT, value))))?;
    Ok(code)
}

// What a course tells: why it stops, and the number that its body ends with or the place of its call.
fn told(stop: &Stop) -> (&'static str, Option<i128>) {
    match stop {
        Stop::Ended(Some(Datum::Single(v))) => ("ended", v.number()),
        Stop::Ended(_) => ("ended", None),
        Stop::Call(p) => ("call", Some(*p as i128)),
        Stop::Running => ("running", None),
        Stop::Undefined => ("undefined", None),
    }
}

// What a course through the steps tells in a store, where the local 0 is an int without a value, and the units that it leaves of 3.
fn course_in(mem: &mut Store, code: &[Step]) -> Result<(&'static str, Option<i128>, u64), Memory>
    requires leads { LeadOn code.now }
    requires there { 0 < length code.now }
{
    let object = Automatic {
        number: LocalId(0),
        size: 4,
    };
    enter(mem, 5, &[], &[object])?;
    let mut left = 3;
    let stop = run_course(mem, 5, code, 0, &mut left)?;
    let (why, number) = told(&stop);
    Ok((why, number, left))
}

fn course(alloc: Global, code: &[Step]) -> Result<(&'static str, Option<i128>, u64), Memory>
    requires leads { LeadOn code.now }
    requires there { 0 < length code.now }
{
    course_in(&mut Store::new(alloc), code)
}

#[test]
fn a_course_goes_to_the_end(rt: HostRuntime) -> Result<(), Fail> {
    let code = straight(rt.alloc())?;
    let found = course(rt.alloc(), &code);
    are_equal(&rt, &[(found, Ok(("ended", Some(7), 3)))]);
    Ok(())
}

// `while (1) { }`
fn looped(alloc: Global) -> Result<Vec<Step>, AllocError>
    ensures leads { IfOk result (λ code. LeadOn code.items) }
    ensures there { IfOk result (λ code. 0 < length code.items) }
{
    let mut code = Vec::new(alloc);
    add_step(&mut code, Step::Back(0))?;
    Ok(code)
}

#[test]
fn a_loop_spends_its_units(rt: HostRuntime) -> Result<(), Fail> {
    let code = looped(rt.alloc())?;
    let found = course(rt.alloc(), &code);
    are_equal(&rt, &[(found, Ok(("running", None, 0)))]);
    Ok(())
}

// `if ( l0 ) { } return;`
fn tested(alloc: Global) -> Result<Vec<Step>, AllocError>
    ensures leads { IfOk result (λ code. LeadOn code.items) }
    ensures there { IfOk result (λ code. 0 < length code.items) }
{
    let mut code = Vec::new(alloc);
    let value = Term::Load(Spot::Local(LocalId(0)));
    add_step(&mut code, Step::Test(INT, value, 1))?;
    add_step(&mut code, Step::Leave(None))?;
    Ok(code)
}

#[test]
fn what_is_unknown_has_no_test(rt: HostRuntime) -> Result<(), Fail> {
    let code = tested(rt.alloc())?;
    let found = course(rt.alloc(), &code);
    are_equal(&rt, &[(found, Ok(("undefined", None, 3)))]);
    Ok(())
}

// Adds a constant.
fn add_number(arguments: &mut Vec<Operand>, n: u64) -> Result<(), AllocError> {
    arguments.push(Operand::Single(INT, Term::Number(n)))?;
    Ok(())
}

// 1 and 2.
fn numbers(alloc: Global) -> Result<Vec<Operand>, AllocError> {
    let mut arguments = Vec::new(alloc);
    add_number(&mut arguments, 1)?;
    add_number(&mut arguments, 2)?;
    Ok(arguments)
}

// A call of the entity 3 with arguments, whose result goes to the local 0.
fn call_with(arguments: Vec<Operand>) -> Call {
    Call {
        to: Some(Receiver {
            place: Spot::Local(LocalId(0)),
            kind: Some(Kind::Single(INT)),
        }),
        callee: Term::Address(Spot::Entity(EntityId(3))),
        result: Some(Kind::Single(INT)),
        arguments,
    }
}

// That call with 1 and 2, behind a jump to it.
fn calling(alloc: Global) -> Result<Vec<Step>, AllocError>
    ensures leads { IfOk result (λ code. LeadOn code.items) }
    ensures there { IfOk result (λ code. 0 < length code.items) }
{
    let arguments = numbers(alloc)?;
    let mut code = Vec::new(alloc);
    add_step(&mut code, Step::Forward(1))?;
    add_step(&mut code, Step::Call(call_with(arguments)))?;
    add_step(&mut code, Step::Leave(None))?;
    Ok(code)
}

#[test]
fn a_course_stops_at_a_call(rt: HostRuntime) -> Result<(), Fail> {
    let code = calling(rt.alloc())?;
    let found = course(rt.alloc(), &code);
    are_equal(&rt, &[(found, Ok(("call", Some(1), 3)))]);
    Ok(())
}

// The number that an argument is.
fn number(a: Option<&Argument>) -> Option<i128> {
    match a {
        Some(
            Argument {
                datum: Datum::Single(v),
                ..
            },
        ) => v.number(),
        _ => None,
    }
}

// The numbers of a call's arguments, and what is kept where its result is 9.
fn kept(mem: &mut Store, parts: &Evaluated) -> ([Option<i128>; 2], Option<()>) {
    let first = number(parts.arguments.get(0));
    let second = number(parts.arguments.get(1));
    let kept = keep(mem, parts.to, &Datum::Single(Value::Int(9)));
    ([first, second], kept)
}

// These of the step that is a call.
fn passed(
    alloc: Global,
    mem: &mut Store,
    step: Option<&Step>,
) -> Result<Option<([Option<i128>; 2], Option<()>)>, Memory> {
    let Some(Step::Call(k)) = step else {
        return Ok(None);
    };
    match evaluate(alloc, mem, 5, k)? {
        Some(parts) => Ok(Some(kept(mem, &parts))),
        None => Ok(None),
    }
}

// The local 0 begins in the activation 5.
fn begin(mem: &mut Store) -> Result<(), Memory> {
    mem.make(ObjName::Local(5, LocalId(0)), 4, Byte::Unknown, false)
}

fn parts_are(rt: &impl Abort, alloc: Global, mem: &mut Store, step: Option<&Step>) {
    let begun = begin(mem);
    let found = passed(alloc, mem, step);
    are_equal(rt, &[(begun, Ok(()))]);
    are_equal(rt, &[(found, Ok(Some(([Some(1), Some(2)], Some(())))))]);
    are_equal(rt, &[(mem.load(local(0), INT), Some(Value::Int(9)))]);
}

#[test]
fn the_parts_of_a_call_are_in_order(rt: HostRuntime) -> Result<(), Fail> {
    let alloc = rt.alloc();
    let code = calling(alloc)?;
    parts_are(&rt, alloc, &mut Store::new(alloc), code.get(1));
    Ok(())
}

// A struct of two bytes, of which the second is unknown.
fn bytes(alloc: Global) -> Result<Cells, AllocError> {
    let mut bytes = Vec::new(alloc);
    bytes.push(Byte::Known(8))?;
    bytes.push(Byte::Unknown)?;
    Ok(Cells::new(bytes))
}

// Adds an argument.
fn add_argument(arguments: &mut Vec<Argument>, kind: Kind, datum: Datum) -> Result<(), AllocError> {
    arguments.push(Argument {
        kind: Some(kind),
        datum,
    })?;
    Ok(())
}

// An int that is -2, and the struct.
fn int_and_struct(alloc: Global) -> Result<Vec<Argument>, AllocError> {
    let bytes = bytes(alloc)?;
    let mut arguments = Vec::new(alloc);
    add_argument(
        &mut arguments,
        Kind::Single(INT),
        Datum::Single(Value::Int(-2)),
    )?;
    add_argument(&mut arguments, Kind::Bytes(2), Datum::Bytes(bytes))?;
    Ok(arguments)
}

fn objects_begin(rt: &impl Abort, mem: &Store) {
    let char = Scalar::Int(IntKind::Char);
    are_equal(
        rt,
        &[
            (mem.load(local(0), INT), Some(Value::Int(-2))),
            (mem.load(local(1), char), Some(Value::Int(8))),
            (mem.load(local(2), INT), Some(Value::Unknown)),
        ],
    );
}

fn objects_are_gone(rt: &impl Abort, mem: &Store) {
    are_equal(
        rt,
        &[
            (mem.live_size(local(0).name), None),
            (mem.live_size(local(1).name), None),
            (mem.live_size(local(2).name), None),
        ],
    );
}

fn objects_live(rt: &impl Abort, mem: &mut Store, arguments: &[Argument]) {
    let object = Automatic {
        number: LocalId(2),
        size: 4,
    };
    let entered = enter(mem, 5, arguments, &[object]);
    are_equal(rt, &[(entered, Ok(()))]);
    objects_begin(rt, mem);
    leave(mem, 5, 2, &[object]);
    objects_are_gone(rt, mem);
}

#[test]
fn an_activation_has_its_objects_and_leaves_none(rt: HostRuntime) -> Result<(), Fail> {
    let arguments = int_and_struct(rt.alloc())?;
    objects_live(&rt, &mut Store::new(rt.alloc()), &arguments);
    Ok(())
}
