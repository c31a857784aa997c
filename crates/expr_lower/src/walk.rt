ghost use Rattle.std.specs.Prelude.{OnOk};
ghost use Rattle.lower_parts.specs.Code.{Extends};

use cil_base::{BinOp, Bytes, IntKind, LocalId, Memory, TypeId};
use cil_nodes::{at, binary, boxed, cast, constant, unary, whole};
use cil_tree::{Callee, Exp, Lval, Stmt};
use lower_parts::{
    Computing, FunctionOut, Kept, address_of, argument, before_effects, binary_operand, by_name,
    by_pointer, call_for_effect, call_for_value, called_by_name, choose, clear, compute, computes,
    constant_of, constant_operand, converted_from, converted_operand, decayed, decide, element,
    element_at, element_of, held, impossible, is_part, is_void, keep, left_place, left_value,
    member, member_of_value, named, old_value, part, part_type, read, saved, short_circuit,
    short_circuit_effects, step, step_op, stepped, store, store_part, value_at, value_of, variable,
};
use typed_tree::{InitStep, Path, StepForm, TypedExp, TypedInit, TypedNode};

/// An expression that was lowered: what it does, and then its value, none where it has type void.
#[derive(Drop)]
pub struct Lowered {
    pub instrs: Vec<Stmt>,
    pub value: Option<Exp>,
}

/// Lowers an expression.
pub fn lower(e: &TypedExp, f: &mut FunctionOut) -> Result<Lowered, Memory> {
    let mut instrs = Vec::new(f.alloc);
    let t = f.type_of(e)?;
    if is_void(&f.unit.graph, t) {
        effect(f, e, &mut instrs)?;
        return Ok(Lowered {
            instrs,
            value: None,
        });
    }
    let x = value(f, e, &mut instrs)?;
    Ok(Lowered {
        instrs,
        value: Some(x),
    })
}

/// The value of an expression, behind what is put at the end of the code. It stays the same until the next effect.
#[cycle(lower)]
#[tactic(auto, using(lower_parts::proofs::CodeLaws::extends_twice, lower_parts::proofs::CodeLaws::extends_none))]
pub fn value(f: &mut FunctionOut, e: &TypedExp, out: &mut Vec<Stmt>) -> Result<Exp, Memory>
    ensures grows { OnOk result (Extends out.old.items out.new.items) }
{
    match e.node() {
        TypedNode::Integer(n) => integer(f, e, *n),
        TypedNode::Load(p) => {
            let place = place(f, p, out)?;
            Ok(read(place))
        }
        TypedNode::Decay(p) => decay(f, p, out),
        TypedNode::Address(p) => address(f, p, out),
        TypedNode::Member(of, _, i) => member_value(f, of, *i, out),
        TypedNode::Convert(a) => {
            let t = f.type_of(e)?;
            conversion(f, a, t, out)
        }
        TypedNode::Unary(op, a) => {
            let x = operand(f, a, out)?;
            Ok(unary(*op, x))
        }
        TypedNode::Binary(op, a, b) => {
            let x = left(f, a, b, out)?;
            let y = operand(f, b, out)?;
            Ok(binary(*op, x, y))
        }
        TypedNode::Logical(..)
        | TypedNode::Conditional(..)
        | TypedNode::Comma(..)
        | TypedNode::Assign(..)
        | TypedNode::Compute(..)
        | TypedNode::Step(..)
        | TypedNode::Call(..) => value_of_act(f, e, out),
        TypedNode::Local(_)
        | TypedNode::Literal(..)
        | TypedNode::Entity(_)
        | TypedNode::Indirect(_)
        | TypedNode::Subscript(..) => Err(impossible()),
    }
}

// A function makes room for all its arms each time it is entered. So that `value`, `place` and `operand`, which recur, need little, the arms that
// hold a tree of their own stand in functions that are not put in line.

/// The value of an integer constant.
#[inline(never)]
fn integer(f: &FunctionOut, e: &TypedExp, n: i128) -> Result<Exp, Memory> {
    let t = f.type_of(e)?;
    constant_of(f, t, n)
}

/// The pointer to which an array or a function decays.
#[inline(never)]
#[cycle(lower)]
#[tactic(auto, using(lower_parts::proofs::CodeLaws::extends_twice, lower_parts::proofs::CodeLaws::extends_none))]
fn decay(f: &mut FunctionOut, p: &TypedExp, out: &mut Vec<Stmt>) -> Result<Exp, Memory>
    ensures grows { OnOk result (Extends out.old.items out.new.items) }
{
    let place = place(f, p, out)?;
    decayed(f, p, place)
}

/// The address of a place or a function.
#[inline(never)]
#[cycle(lower)]
#[tactic(auto, using(lower_parts::proofs::CodeLaws::extends_twice, lower_parts::proofs::CodeLaws::extends_none))]
fn address(f: &mut FunctionOut, p: &TypedExp, out: &mut Vec<Stmt>) -> Result<Exp, Memory>
    ensures grows { OnOk result (Extends out.old.items out.new.items) }
{
    let place = place(f, p, out)?;
    Ok(address_of(f.alloc, place))
}

/// The value of a member of a value, which is read where it stands or in a copy.
#[inline(never)]
#[cycle(lower)]
#[tactic(auto, using(lower_parts::proofs::CodeLaws::extends_twice, lower_parts::proofs::CodeLaws::extends_none))]
fn member_value(
    f: &mut FunctionOut,
    of: &TypedExp,
    i: u32,
    out: &mut Vec<Stmt>,
) -> Result<Exp, Memory>
    ensures grows { OnOk result (Extends out.old.items out.new.items) }
{
    let x = value(f, of, out)?;
    let x = held(f, of, x, out)?;
    member_of_value(x, i)
}

/// The value of an expression that is converted to a type.
#[inline(never)]
#[cycle(lower)]
#[tactic(auto, using(lower_parts::proofs::CodeLaws::extends_twice, lower_parts::proofs::CodeLaws::extends_none))]
fn conversion(
    f: &mut FunctionOut,
    e: &TypedExp,
    to: TypeId,
    out: &mut Vec<Stmt>,
) -> Result<Exp, Memory>
    ensures grows { OnOk result (Extends out.old.items out.new.items) }
{
    let from = f.type_of(e)?;
    let x = operand(f, e, out)?;
    Ok(converted_from(x, from, to))
}

/// The value of an integer constant, in its box.
#[inline(never)]
fn integer_operand(f: &FunctionOut, e: &TypedExp, n: i128) -> Result<Box<Exp>, Memory> {
    let t = f.type_of(e)?;
    constant_operand(f, t, n)
}

/// The value of an operand, in its box. What stands most often in one is made there at once.
#[cycle(lower)]
#[tactic(auto, using(lower_parts::proofs::CodeLaws::extends_twice, lower_parts::proofs::CodeLaws::extends_none))]
fn operand(f: &mut FunctionOut, e: &TypedExp, out: &mut Vec<Stmt>) -> Result<Box<Exp>, Memory>
    ensures grows { OnOk result (Extends out.old.items out.new.items) }
{
    match e.node() {
        TypedNode::Integer(n) => integer_operand(f, e, *n),
        TypedNode::Load(p) => operand_at(f, p, out),
        TypedNode::Unary(op, a) => {
            let x = operand(f, a, out)?;
            boxed(f.alloc, unary(*op, x))
        }
        TypedNode::Binary(op, a, b) => {
            let x = left(f, a, b, out)?;
            let y = operand(f, b, out)?;
            binary_operand(f.alloc, *op, x, y)
        }
        TypedNode::Convert(a) => {
            let t = f.type_of(e)?;
            operand_in(f, a, t, out)
        }
        _ => any_operand(f, e, out),
    }
}

/// The value of an operand that is converted to a type, in its box.
#[inline(never)]
#[cycle(lower)]
#[tactic(auto, using(lower_parts::proofs::CodeLaws::extends_twice, lower_parts::proofs::CodeLaws::extends_none))]
fn operand_in(
    f: &mut FunctionOut,
    e: &TypedExp,
    to: TypeId,
    out: &mut Vec<Stmt>,
) -> Result<Box<Exp>, Memory>
    ensures grows { OnOk result (Extends out.old.items out.new.items) }
{
    let from = f.type_of(e)?;
    let x = operand(f, e, out)?;
    converted_operand(f.alloc, x, from, to)
}

/// The value of any operand, in its box.
#[inline(never)]
#[cycle(lower)]
#[tactic(auto, using(lower_parts::proofs::CodeLaws::extends_twice, lower_parts::proofs::CodeLaws::extends_none))]
fn any_operand(f: &mut FunctionOut, e: &TypedExp, out: &mut Vec<Stmt>) -> Result<Box<Exp>, Memory>
    ensures grows { OnOk result (Extends out.old.items out.new.items) }
{
    let x = value(f, e, out)?;
    boxed(f.alloc, x)
}

/// The value of a place, in its box.
#[cycle(lower)]
#[tactic(auto, using(lower_parts::proofs::CodeLaws::extends_twice, lower_parts::proofs::CodeLaws::extends_none))]
fn operand_at(f: &mut FunctionOut, p: &TypedExp, out: &mut Vec<Stmt>) -> Result<Box<Exp>, Memory>
    ensures grows { OnOk result (Extends out.old.items out.new.items) }
{
    match p.node() {
        TypedNode::Local(n) => {
            let t = f.type_of(p)?;
            f.local_operand(*n, t)
        }
        TypedNode::Entity(n) => {
            let t = f.type_of(p)?;
            f.global_operand(*n, t)
        }
        _ => {
            let place = place(f, p, out)?;
            boxed(f.alloc, read(place))
        }
    }
}

/// The value of a left operand, saved where the other operand has an effect.
#[inline(always)]
#[cycle(lower)]
#[tactic(auto, using(lower_parts::proofs::CodeLaws::extends_twice, lower_parts::proofs::CodeLaws::extends_none))]
fn left(
    f: &mut FunctionOut,
    e: &TypedExp,
    later: &TypedExp,
    out: &mut Vec<Stmt>,
) -> Result<Box<Exp>, Memory>
    ensures grows { OnOk result (Extends out.old.items out.new.items) }
{
    let x = operand(f, e, out)?;
    left_value(f, e, x, later, out)
}

/// The value of an expression that is an effect itself, or has no value.
#[cycle(lower)]
#[tactic(auto, using(lower_parts::proofs::CodeLaws::extends_twice, lower_parts::proofs::CodeLaws::extends_none))]
fn value_of_act(f: &mut FunctionOut, e: &TypedExp, out: &mut Vec<Stmt>) -> Result<Exp, Memory>
    ensures grows { OnOk result (Extends out.old.items out.new.items) }
{
    let t = f.type_of(e)?;
    match e.node() {
        TypedNode::Logical(op, a, b) => {
            let x = value(f, a, out)?;
            let n = f.add_unnamed(t)?;
            let second = truth(f, b, n)?;
            short_circuit(f.alloc, n, *op, x, second, out)?;
            Ok(value_of(f.alloc, n))
        }
        TypedNode::Conditional(test, branches) => {
            let x = value(f, test, out)?;
            let n = f.add_unnamed(t)?;
            let holds = branch(f, &branches.holds, n)?;
            let fails = branch(f, &branches.fails, n)?;
            choose(x, holds, fails, out)?;
            Ok(value_of(f.alloc, n))
        }
        TypedNode::Comma(a, b) => {
            effect(f, a, out)?;
            value(f, b, out)
        }
        TypedNode::Assign(p, v) => {
            let kept = kept_place(f, p, out)?;
            assigned(f, v, kept, out)?;
            value_at(f.alloc, kept)
        }
        TypedNode::Compute(op, at, p, v) => {
            let kept = kept_place(f, p, out)?;
            let c = computes(f, *op, *at, p)?;
            computed(f, v, c, kept, out)?;
            value_at(f.alloc, kept)
        }
        TypedNode::Step(form, at, p) => {
            let kept = kept_place(f, p, out)?;
            let c = computes(f, step_op(*form), *at, p)?;
            stepped(f, *form, c, kept, out)
        }
        TypedNode::Call(callee, arguments) => {
            let callee = called(f, callee, arguments, out)?;
            let arguments = values(f, arguments, out)?;
            let n = call_for_value(f, t, callee, arguments, out)?;
            Ok(value_of(f.alloc, n))
        }
        TypedNode::Integer(_)
        | TypedNode::Load(_)
        | TypedNode::Decay(_)
        | TypedNode::Address(_)
        | TypedNode::Convert(_)
        | TypedNode::Unary(..)
        | TypedNode::Binary(..)
        | TypedNode::Member(..)
        | TypedNode::Local(_)
        | TypedNode::Literal(..)
        | TypedNode::Entity(_)
        | TypedNode::Indirect(_)
        | TypedNode::Subscript(..) => Err(impossible()),
    }
}

/// The place of an effect, kept.
#[cycle(lower)]
#[tactic(auto, using(lower_parts::proofs::CodeLaws::extends_twice, lower_parts::proofs::CodeLaws::extends_none))]
fn kept_place(f: &mut FunctionOut, p: &TypedExp, out: &mut Vec<Stmt>) -> Result<Kept, Memory>
    ensures grows { OnOk result (Extends out.old.items out.new.items) }
{
    let it = place(f, p, out)?;
    let t = f.type_of(p)?;
    keep(f, it, t, out)
}

/// Computes the new value of a kept place from its old one and the right operand (C11 6.5.16.2p3).
#[cycle(lower)]
#[tactic(auto, using(lower_parts::proofs::CodeLaws::extends_twice, lower_parts::proofs::CodeLaws::extends_none))]
fn computed(
    f: &mut FunctionOut,
    v: &TypedExp,
    c: Computing,
    kept: Kept,
    out: &mut Vec<Stmt>,
) -> Result<(), Memory>
    ensures grows { OnOk result (Extends out.old.items out.new.items) }
{
    let x = old_value(f, c, kept, v, out)?;
    let y = operand(f, v, out)?;
    compute(f.alloc, c, kept, x, y, out)
}

/// Stores a value in a kept place.
#[cycle(lower)]
#[tactic(auto, using(lower_parts::proofs::CodeLaws::extends_twice, lower_parts::proofs::CodeLaws::extends_none))]
fn assigned(
    f: &mut FunctionOut,
    v: &TypedExp,
    kept: Kept,
    out: &mut Vec<Stmt>,
) -> Result<(), Memory>
    ensures grows { OnOk result (Extends out.old.items out.new.items) }
{
    let x = value(f, v, out)?;
    let place = named(f.alloc, kept)?;
    store(place, x, out)
}

/// What the second operand of `&&` or `||` does, and stores its truth in a local.
#[cycle(lower)]
fn truth(f: &mut FunctionOut, e: &TypedExp, n: LocalId) -> Result<Vec<Stmt>, Memory> {
    let mut out = Vec::with_capacity(f.alloc, 1)?;
    let x = value(f, e, &mut out)?;
    decide(f.alloc, n, x, &mut out)?;
    Ok(out)
}

/// What an operand of a conditional does, and stores its value in a local.
#[cycle(lower)]
fn branch(f: &mut FunctionOut, e: &TypedExp, n: LocalId) -> Result<Vec<Stmt>, Memory> {
    let mut out = Vec::with_capacity(f.alloc, 1)?;
    let x = value(f, e, &mut out)?;
    store(variable(f.alloc, n), x, &mut out)?;
    Ok(out)
}

/// What an expression does that is evaluated in one case alone, for its effects.
#[cycle(lower)]
fn effects(f: &mut FunctionOut, e: &TypedExp) -> Result<Vec<Stmt>, Memory> {
    let mut out = Vec::with_capacity(f.alloc, 1)?;
    effect(f, e, &mut out)?;
    Ok(out)
}

/// What is called, by its name or through a pointer.
#[cycle(lower)]
#[tactic(auto, using(lower_parts::proofs::CodeLaws::extends_twice, lower_parts::proofs::CodeLaws::extends_none))]
fn called(
    f: &mut FunctionOut,
    callee: &TypedExp,
    arguments: &[TypedExp],
    out: &mut Vec<Stmt>,
) -> Result<Callee, Memory>
    ensures grows { OnOk result (Extends out.old.items out.new.items) }
{
    match called_by_name(f, callee)? {
        Some(n) => Ok(by_name(n)),
        None => {
            let pointer = value(f, callee, out)?;
            by_pointer(f, callee, pointer, arguments, out)
        }
    }
}

/// The values of arguments, from the left, each saved where one behind it has an effect.
#[cycle(lower)]
#[tactic(auto, using(lower_parts::proofs::CodeLaws::extends_twice, lower_parts::proofs::CodeLaws::extends_none))]
fn values(
    f: &mut FunctionOut,
    arguments: &[TypedExp],
    out: &mut Vec<Stmt>,
) -> Result<Vec<Exp>, Memory>
    ensures grows { OnOk result (Extends out.old.items out.new.items) }
{
    let count = before_effects(arguments);
    let mut done = Vec::with_capacity(f.alloc, arguments.len())?;
    for i in 0..arguments.len() {
        done.reserve(1)?;
        let x = value(f, &arguments[i], out)?;
        let x = argument(f, &arguments[i], x, i < count, out)?;
        done.push_reserved(x);
    }
    Ok(done)
}

/// The place of a compound literal, which is initialised.
#[inline(never)]
#[cycle(lower)]
#[tactic(auto, using(lower_parts::proofs::CodeLaws::extends_twice, lower_parts::proofs::CodeLaws::extends_none))]
fn literal_place(
    f: &mut FunctionOut,
    n: u32,
    init: &TypedInit,
    out: &mut Vec<Stmt>,
) -> Result<Lval, Memory>
    ensures grows { OnOk result (Extends out.old.items out.new.items) }
{
    let n = f.literal(n)?;
    initialise(f, init, n, out)?;
    Ok(variable(f.alloc, n))
}

/// What a pointer points to.
#[inline(never)]
#[cycle(lower)]
#[tactic(auto, using(lower_parts::proofs::CodeLaws::extends_twice, lower_parts::proofs::CodeLaws::extends_none))]
fn pointed(f: &mut FunctionOut, e: &TypedExp, out: &mut Vec<Stmt>) -> Result<Lval, Memory>
    ensures grows { OnOk result (Extends out.old.items out.new.items) }
{
    let pointer = operand(f, e, out)?;
    Ok(whole(f.alloc, at(pointer)))
}

/// The place of a member. That of a value stands in an object of its own, which the value is put into.
#[inline(never)]
#[cycle(lower)]
#[tactic(auto, using(lower_parts::proofs::CodeLaws::extends_twice, lower_parts::proofs::CodeLaws::extends_none))]
fn member_place(
    f: &mut FunctionOut,
    of: &TypedExp,
    i: u32,
    out: &mut Vec<Stmt>,
) -> Result<Lval, Memory>
    ensures grows { OnOk result (Extends out.old.items out.new.items) }
{
    if is_part(of) {
        let p = place(f, of, out)?;
        return member(p, i);
    }
    let x = value(f, of, out)?;
    let t = f.type_of(of)?;
    let n = saved(f, x, t, out)?;
    member(variable(f.alloc, n), i)
}

/// The place of an lvalue or a function, behind what is put at the end of the code.
#[cycle(lower)]
#[tactic(auto, using(lower_parts::proofs::CodeLaws::extends_twice, lower_parts::proofs::CodeLaws::extends_none))]
fn place(f: &mut FunctionOut, e: &TypedExp, out: &mut Vec<Stmt>) -> Result<Lval, Memory>
    ensures grows { OnOk result (Extends out.old.items out.new.items) }
{
    match e.node() {
        TypedNode::Local(n) => {
            let t = f.type_of(e)?;
            f.local_place(*n, t)
        }
        TypedNode::Entity(n) => {
            let t = f.type_of(e)?;
            f.global_place(*n, t)
        }
        TypedNode::Literal(n, init) => literal_place(f, *n, init, out),
        TypedNode::Indirect(a) => pointed(f, a, out),
        TypedNode::Subscript(a, b) => match a.node() {
            TypedNode::Decay(array) => {
                let p = place(f, array, out)?;
                let p = left_place(f, array, p, b, out)?;
                let index = operand(f, b, out)?;
                element(p, index)
            }
            _ => {
                let x = left(f, a, b, out)?;
                let y = operand(f, b, out)?;
                element_at(f.alloc, x, y)
            }
        },
        TypedNode::Member(of, _, i) => member_place(f, of, *i, out),
        TypedNode::Integer(_)
        | TypedNode::Load(_)
        | TypedNode::Decay(_)
        | TypedNode::Address(_)
        | TypedNode::Convert(_)
        | TypedNode::Unary(..)
        | TypedNode::Binary(..)
        | TypedNode::Logical(..)
        | TypedNode::Conditional(..)
        | TypedNode::Comma(..)
        | TypedNode::Assign(..)
        | TypedNode::Compute(..)
        | TypedNode::Step(..)
        | TypedNode::Call(..) => Err(impossible()),
    }
}

/// Evaluates an expression for its effects (C11 6.8.3p2).
#[cycle(lower)]
#[tactic(auto, using(lower_parts::proofs::CodeLaws::extends_twice, lower_parts::proofs::CodeLaws::extends_none))]
pub fn effect(f: &mut FunctionOut, e: &TypedExp, out: &mut Vec<Stmt>) -> Result<(), Memory>
    ensures grows { OnOk result (Extends out.old.items out.new.items) }
{
    if !e.has_effect() {
        return Ok(());
    }
    match e.node() {
        TypedNode::Integer(_) | TypedNode::Local(_) | TypedNode::Entity(_) => Ok(()),
        TypedNode::Literal(n, init) => {
            let n = f.literal(*n)?;
            initialise(f, init, n, out)
        }
        TypedNode::Load(a)
        | TypedNode::Decay(a)
        | TypedNode::Address(a)
        | TypedNode::Indirect(a)
        | TypedNode::Member(a, _, _)
        | TypedNode::Convert(a)
        | TypedNode::Unary(_, a) => effect(f, a, out),
        TypedNode::Subscript(a, b) | TypedNode::Binary(_, a, b) | TypedNode::Comma(a, b) => {
            effect(f, a, out)?;
            effect(f, b, out)
        }
        TypedNode::Logical(..)
        | TypedNode::Conditional(..)
        | TypedNode::Assign(..)
        | TypedNode::Compute(..)
        | TypedNode::Step(..)
        | TypedNode::Call(..) => act(f, e, out),
    }
}

/// Does what an expression does that is an effect itself; its value is dropped.
#[cycle(lower)]
#[tactic(auto, using(lower_parts::proofs::CodeLaws::extends_twice, lower_parts::proofs::CodeLaws::extends_none))]
fn act(f: &mut FunctionOut, e: &TypedExp, out: &mut Vec<Stmt>) -> Result<(), Memory>
    ensures grows { OnOk result (Extends out.old.items out.new.items) }
{
    match e.node() {
        TypedNode::Logical(op, a, b) => {
            let x = value(f, a, out)?;
            let second = effects(f, b)?;
            short_circuit_effects(f.alloc, *op, x, second, out)
        }
        TypedNode::Conditional(test, branches) => {
            let x = value(f, test, out)?;
            let holds = effects(f, &branches.holds)?;
            let fails = effects(f, &branches.fails)?;
            choose(x, holds, fails, out)
        }
        TypedNode::Assign(p, v) => {
            let place = place(f, p, out)?;
            let place = left_place(f, p, place, v, out)?;
            let x = value(f, v, out)?;
            store(place, x, out)
        }
        TypedNode::Compute(op, at, p, v) => {
            let kept = kept_place(f, p, out)?;
            let c = computes(f, *op, *at, p)?;
            computed(f, v, c, kept, out)
        }
        TypedNode::Step(form, at, p) => {
            let kept = kept_place(f, p, out)?;
            let c = computes(f, step_op(*form), *at, p)?;
            step(f, c, kept, out)
        }
        TypedNode::Call(callee, arguments) => {
            let callee = called(f, callee, arguments, out)?;
            let arguments = values(f, arguments, out)?;
            call_for_effect(callee, arguments, out)
        }
        TypedNode::Integer(_)
        | TypedNode::Load(_)
        | TypedNode::Decay(_)
        | TypedNode::Address(_)
        | TypedNode::Convert(_)
        | TypedNode::Unary(..)
        | TypedNode::Binary(..)
        | TypedNode::Member(..)
        | TypedNode::Comma(..)
        | TypedNode::Local(_)
        | TypedNode::Literal(..)
        | TypedNode::Entity(_)
        | TypedNode::Indirect(_)
        | TypedNode::Subscript(..) => Err(impossible()),
    }
}

/// Stores the bytes of a string in the first elements of an array.
#[tactic(auto, using(lower_parts::proofs::CodeLaws::extends_twice, lower_parts::proofs::CodeLaws::extends_none))]
fn store_bytes(
    f: &FunctionOut,
    n: LocalId,
    path: &Path,
    bytes: &Bytes,
    out: &mut Vec<Stmt>,
) -> Result<(), Memory>
    ensures grows { OnOk result (Extends out.old.items out.new.items) }
{
    let array = part_type(f, n, path)?;
    let Some(t) = element_of(&f.unit.graph, array) else {
        return Err(impossible());
    };
    let bytes = bytes.as_slice();
    for i in 0..bytes.len() {
        let index = boxed(f.alloc, constant(IntKind::Int, i as u64))?;
        let place = part(f.alloc, n, path.as_slice())?;
        let place = element(place, index)?;
        let x = boxed(f.alloc, constant(IntKind::Int, bytes[i] as u64))?;
        store(place, cast(t, x), out)?;
    }
    Ok(())
}

/// Initialises a local (C11 6.7.9), in the order of the text.
#[cycle(lower)]
#[tactic(auto, using(lower_parts::proofs::CodeLaws::extends_twice, lower_parts::proofs::CodeLaws::extends_none))]
pub fn initialise(
    f: &mut FunctionOut,
    init: &TypedInit,
    n: LocalId,
    out: &mut Vec<Stmt>,
) -> Result<(), Memory>
    ensures grows { OnOk result (Extends out.old.items out.new.items) }
{
    out.reserve(init.steps.len())?;
    for step in &init.steps {
        match step {
            InitStep::Zero(path) => clear(f.alloc, n, path.as_slice(), out)?,
            InitStep::Scalar(path, e) | InitStep::Aggregate(path, e) => {
                let x = value(f, e, out)?;
                store_part(f.alloc, n, path.as_slice(), x, out)?;
            }
            InitStep::Bytes(path, bytes) => store_bytes(f, n, path, bytes, out)?,
            InitStep::Constant(..) => return Err(impossible()),
        }
    }
    Ok(())
}
