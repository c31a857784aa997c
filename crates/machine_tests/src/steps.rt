use crate::equal::are_equal;
use crate::trees::add_step;
use byte_mem::{Byte, ObjName, Scalar, Store, Value};
use cil_base::{IntKind, LocalId, Memory};
use cil_code::{Call, Cases, Datum, Onward, Operand, Step, take};
use cil_machine::{Spot, Term, term_value};
use std::alloc::{AllocError, Global};
use std::process::Abort;
use std::test::Fail;

const INT: Scalar = Scalar::Int(IntKind::Int);

/// What a step does.
#[derive(Clone, Copy, Debug, PartialEq)]
enum Done {
    /// It leads to a place.
    At(usize),
    /// It leads to a place, once a unit is spent.
    Back(usize),
    /// It ends the body, with a value.
    Returns(Value),
    /// It ends the body, without one.
    Leaves,
    /// It ends the body, with the bytes of a struct or union.
    Gives,
    /// Undefined behaviour.
    Undefined,
    /// It is a call, which is no step of its own.
    Call,
}

fn ended(datum: Option<Datum>) -> Done {
    match datum {
        Some(Datum::Single(v)) => Done::Returns(v),
        Some(Datum::Bytes(_)) => Done::Gives,
        None => Done::Leaves,
    }
}

/// What a step at the place 5 does in an activation.
fn taken(mem: &mut Store, act: u64, step: &Step) -> Result<Done, Memory> {
    let onward = take(mem, act, 5, step)?;
    Ok(match onward {
        Some(Onward::At(q)) => Done::At(q),
        Some(Onward::Back(q)) => Done::Back(q),
        Some(Onward::Ended(datum)) => ended(datum),
        Some(Onward::Undefined) => Done::Undefined,
        None => Done::Call,
    })
}

/// What a step of a list does so.
fn taken_of(mem: &mut Store, act: u64, code: &[Step], n: usize) -> Result<Done, Memory> {
    match code.get(n) {
        Some(step) => taken(mem, act, step),
        None => Err(Memory),
    }
}

/// What each step of a list does in activation 3.
fn are_taken(rt: &impl Abort, mem: &mut Store, code: &[Step], wanted: &[Done]) {
    are_equal(rt, &[(code.len(), wanted.len())]);
    for (n, done) in wanted.iter().enumerate() {
        are_equal(rt, &[((n, taken_of(mem, 3, code, n)), (n, Ok(*done)))]);
    }
}

/// The local 0, an int.
fn local() -> Spot {
    Spot::Local(LocalId(0))
}

/// The int that is there in activation 3.
fn loaded(mem: &Store) -> Option<Value> {
    term_value(mem, 3, INT, &Term::Load(local()))
}

/// The local begins in activation 3, without a value.
fn begin(mem: &mut Store) -> Result<(), Memory> {
    mem.make(ObjName::Local(3, LocalId(0)), 4, Byte::Unknown, false)
}

fn store(alloc: Global) -> Result<Store, Memory> {
    let mut mem = Store::new(alloc);
    begin(&mut mem)?;
    Ok(mem)
}

/// 7 is stored there, and zero.
fn assignments(alloc: Global) -> Result<Vec<Step>, AllocError> {
    let mut code = Vec::new(alloc);
    let seven = Operand::Single(INT, Term::Number(7));
    add_step(&mut code, Step::Set(local(), seven))?;
    add_step(&mut code, Step::Zero(4, local()))?;
    Ok(code)
}

fn are_assigned(rt: &impl Abort, mem: &mut Store, code: &[Step]) {
    let first = taken_of(mem, 3, code, 0);
    let seven = loaded(mem);
    let elsewhere = taken_of(mem, 4, code, 0);
    let second = taken_of(mem, 3, code, 1);
    are_equal(
        rt,
        &[
            (first, Ok(Done::At(6))),
            (elsewhere, Ok(Done::Undefined)),
            (second, Ok(Done::At(6))),
        ],
    );
    are_equal(
        rt,
        &[
            (seven, Some(Value::Int(7))),
            (loaded(mem), Some(Value::Int(0))),
        ],
    );
}

#[test]
fn an_assignment_leads_to_the_next_step(rt: HostRuntime) -> Result<(), Fail> {
    let code = assignments(rt.alloc())?;
    let mut mem = store(rt.alloc())?;
    are_assigned(&rt, &mut mem, &code);
    Ok(())
}

fn test(term: Term) -> Step {
    Step::Test(INT, term, 9)
}

/// Tests of two constants.
fn add_tests(code: &mut Vec<Step>) -> Result<(), AllocError> {
    add_step(code, test(Term::Number(2)))?;
    add_step(code, test(Term::Number(0)))
}

/// Jumps onward and back, and what is undefined.
fn add_jumps(code: &mut Vec<Step>) -> Result<(), AllocError> {
    add_step(code, Step::Forward(8))?;
    add_step(code, Step::Back(1))?;
    add_step(code, Step::Stuck)
}

/// Tests of two constants and of what is unknown, and jumps.
fn tests_and_jumps(alloc: Global) -> Result<Vec<Step>, AllocError> {
    let mut code = Vec::new(alloc);
    add_tests(&mut code)?;
    add_step(&mut code, test(Term::Load(local())))?;
    add_jumps(&mut code)?;
    Ok(code)
}

#[test]
fn tests_and_jumps_lead_to_their_places(rt: HostRuntime) -> Result<(), Fail> {
    let code = tests_and_jumps(rt.alloc())?;
    let mut mem = store(rt.alloc())?;
    are_taken(
        &rt,
        &mut mem,
        &code,
        &[
            Done::At(6),
            Done::At(9),
            Done::Undefined,
            Done::At(8),
            Done::Back(1),
            Done::Undefined,
        ],
    );
    Ok(())
}

/// `case 4` at 7.
fn cases(alloc: Global) -> Result<Cases, Memory> {
    let mut table = Vec::new(alloc);
    table.push((4, 7))?;
    Cases::new(table)
}

/// A switch with `case 4` at 7 and the default at 8.
fn switch(alloc: Global, v: u64) -> Result<Vec<Step>, Memory> {
    let cases = cases(alloc)?;
    let mut code = Vec::new(alloc);
    add_step(
        &mut code,
        Step::Choose(IntKind::Int, Term::Number(v), cases, 8),
    )?;
    Ok(code)
}

/// What it does.
fn chosen(alloc: Global, v: u64) -> Result<Done, Memory> {
    let code = switch(alloc, v)?;
    taken_of(&mut Store::new(alloc), 3, &code, 0)
}

#[test]
fn a_switch_leads_to_the_case_with_the_value(rt: HostRuntime) {
    are_equal(
        &rt,
        &[
            (chosen(rt.alloc(), 4), Ok(Done::At(7))),
            (chosen(rt.alloc(), 3), Ok(Done::At(8))),
        ],
    );
}

/// A call of what is no function.
fn call(alloc: Global) -> Call {
    Call {
        to: None,
        callee: Term::Number(0),
        result: None,
        arguments: Vec::new(alloc),
    }
}

/// A return of a value, one of none, and a call.
fn returns_and_call(alloc: Global) -> Result<Vec<Step>, AllocError> {
    let mut code = Vec::new(alloc);
    let five = Operand::Single(INT, Term::Number(5));
    add_step(&mut code, Step::Leave(Some(five)))?;
    add_step(&mut code, Step::Leave(None))?;
    add_step(&mut code, Step::Call(call(alloc)))?;
    Ok(code)
}

#[test]
fn a_return_gives_its_value_and_a_call_is_none_of_its_own(rt: HostRuntime) -> Result<(), Fail> {
    let code = returns_and_call(rt.alloc())?;
    let mut mem = store(rt.alloc())?;
    are_taken(
        &rt,
        &mut mem,
        &code,
        &[Done::Returns(Value::Int(5)), Done::Leaves, Done::Call],
    );
    Ok(())
}
