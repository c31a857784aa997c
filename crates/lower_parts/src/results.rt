ghost use Rattle.std.specs.Prelude.{IfOk, OnOk};
ghost use Rattle.cil_nodes.specs.Built.{IsBin};
ghost use Rattle.lower_parts.specs.Code.{Extends, IsConverted, Computes, Chooses, IsTruth, Decides, IsShort, IsShortEffect};

use crate::constants::{integer, integer_operand};
use crate::output::FunctionOut;
use crate::places::{Kept, named, read, saved, store, value_of, variable};
use crate::shapes::{impossible, kind_of};
use cil_base::{BinOp, IntKind, LocalId, Memory, TypeId};
use cil_nodes::{binary, boxed, cast, constant};
use cil_tree::{Exp, Stmt};
use std::alloc::Global;
use typed_tree::{Logic, StepForm, TypedExp};

/// A constant of an integer type (C11 6.4.4.1).
pub fn constant_of(f: &FunctionOut, t: TypeId, n: i128) -> Result<Exp, Memory> {
    match kind_of(&f.unit.graph, t) {
        Some(kind) => integer(f.alloc, kind, t, n),
        None => Err(impossible()),
    }
}

/// A binary operator between operands, in its box.
pub fn binary_operand(
    alloc: Global,
    op: BinOp,
    left: Box<Exp>,
    right: Box<Exp>,
) -> Result<Box<Exp>, Memory>
    ensures { IfOk result (λ b. IsBin op left.value right.value b.value) }
{
    Ok(Box::new(alloc, binary(op, left, right))?)
}

/// A constant of an integer type, in its box.
pub fn constant_operand(f: &FunctionOut, t: TypeId, n: i128) -> Result<Box<Exp>, Memory> {
    match kind_of(&f.unit.graph, t) {
        Some(kind) => integer_operand(f.alloc, kind, t, n),
        None => Err(impossible()),
    }
}

/// A value in another type, cast where the types differ.
#[tactic(auto, using(crate::proofs::CodeLaws::converts_not, crate::proofs::CodeLaws::converts))]
pub fn converted(alloc: Global, x: Exp, from: TypeId, to: TypeId) -> Result<Exp, Memory>
    ensures { IfOk result (IsConverted from to x) }
{
    if from == to {
        Ok(x)
    } else {
        Ok(cast(to, boxed(alloc, x)?))
    }
}

/// The value of an operand in another type, cast where the types differ.
#[tactic(auto, using(crate::proofs::CodeLaws::converts_not, crate::proofs::CodeLaws::converts))]
pub fn converted_from(x: Box<Exp>, from: TypeId, to: TypeId) -> Exp
    ensures { IsConverted from to x.value result }
{
    if from == to {
        Box::into_inner(x)
    } else {
        cast(to, x)
    }
}

/// An operand in another type, in its box, cast where the types differ.
#[tactic(auto, using(crate::proofs::CodeLaws::converts_not, crate::proofs::CodeLaws::converts))]
pub fn converted_operand(
    alloc: Global,
    x: Box<Exp>,
    from: TypeId,
    to: TypeId,
) -> Result<Box<Exp>, Memory>
    ensures { IfOk result (λ y. IsConverted from to x.value y.value) }
{
    if from == to {
        Ok(x)
    } else {
        boxed(alloc, cast(to, x))
    }
}

/// The value that a kept place has (C11 6.3.2.1p2).
pub fn value_at(alloc: Global, kept: Kept) -> Result<Exp, Memory> {
    Ok(read(named(alloc, kept)?))
}

/// The value that the place of a compound assignment has before it, saved where the right operand has an effect.
#[tactic(auto, using(crate::proofs::CodeLaws::extends_none))]
pub fn old_value(
    f: &mut FunctionOut,
    c: Computing,
    kept: Kept,
    later: &TypedExp,
    out: &mut Vec<Stmt>,
) -> Result<Box<Exp>, Memory>
    ensures grows { OnOk result (Extends out.old.items out.new.items) }
{
    let old = value_at(f.alloc, kept)?;
    if !later.has_effect() {
        return left_of(f.alloc, c, old);
    }
    let n = saved(f, old, c.ty, out)?;
    left_of(f.alloc, c, value_of(f.alloc, n))
}

/// What a compound assignment computes from the old value of its place and the right operand, and stores (C11 6.5.16.2p3).
#[derive(Clone, Copy)]
pub struct Computing {
    pub op: BinOp,
    /// The type in which it computes.
    pub at: TypeId,
    /// The type of the place.
    pub ty: TypeId,
}

/// What computes in a type, and stores in a place.
pub fn computes(
    f: &FunctionOut,
    op: BinOp,
    at: TypeId,
    place: &TypedExp,
) -> Result<Computing, Memory> {
    let at = f.unit.mapped(at)?;
    let ty = f.type_of(place)?;
    Ok(Computing { op, at, ty })
}

/// The left operand of what is computed, from the old value of the place.
fn left_of(alloc: Global, c: Computing, old: Exp) -> Result<Box<Exp>, Memory> {
    let left = converted(alloc, old, c.ty, c.at)?;
    boxed(alloc, left)
}

/// Stores in a kept place what is computed from its old value, in the type in which it computes, and another.
#[tactic(auto, using(crate::proofs::CodeLaws::computes_from))]
pub fn compute(
    alloc: Global,
    c: Computing,
    kept: Kept,
    left: Box<Exp>,
    right: Box<Exp>,
    out: &mut Vec<Stmt>,
) -> Result<(), Memory>
    ensures computes { OnOk result (Computes c kept left.value right.value out.old.items out.new.items) }
    ensures grows { OnOk result (Extends out.old.items out.new.items) }
{
    let place = named(alloc, kept)?;
    let new = converted(alloc, binary(c.op, left, right), c.at, c.ty)?;
    store(place, new, out)
}

/// What an increment or decrement adds or subtracts (C11 6.5.2.4p2): 1 in the type in which it computes, and an int beside a pointer.
fn one(f: &FunctionOut, at: TypeId) -> Result<Box<Exp>, Memory> {
    let kind = match kind_of(&f.unit.graph, at) {
        Some(kind) => kind,
        None => IntKind::Int,
    };
    boxed(f.alloc, constant(kind, 1))
}

/// The operator of an increment or decrement.
pub fn step_op(form: StepForm) -> BinOp {
    match form {
        StepForm::PreIncrement | StepForm::PostIncrement => BinOp::Add,
        StepForm::PreDecrement | StepForm::PostDecrement => BinOp::Sub,
    }
}

/// Steps a kept place.
pub fn step(f: &FunctionOut, c: Computing, kept: Kept, out: &mut Vec<Stmt>) -> Result<(), Memory>
    ensures grows { OnOk result (Extends out.old.items out.new.items) }
{
    let old = value_at(f.alloc, kept)?;
    let left = left_of(f.alloc, c, old)?;
    let one = one(f, c.at)?;
    compute(f.alloc, c, kept, left, one, out)
}

/// Steps a kept place, and gives the value that it had.
#[tactic(auto, using(crate::proofs::CodeLaws::extends_twice))]
fn step_behind(
    f: &mut FunctionOut,
    c: Computing,
    kept: Kept,
    out: &mut Vec<Stmt>,
) -> Result<Exp, Memory>
    ensures grows { OnOk result (Extends out.old.items out.new.items) }
{
    let old = value_at(f.alloc, kept)?;
    let n = saved(f, old, c.ty, out)?;
    let left = left_of(f.alloc, c, value_of(f.alloc, n))?;
    let one = one(f, c.at)?;
    compute(f.alloc, c, kept, left, one, out)?;
    Ok(value_of(f.alloc, n))
}

/// The value of an increment or decrement (C11 6.5.2.4p2, 6.5.3.1p2).
pub fn stepped(
    f: &mut FunctionOut,
    form: StepForm,
    c: Computing,
    kept: Kept,
    out: &mut Vec<Stmt>,
) -> Result<Exp, Memory>
    ensures grows { OnOk result (Extends out.old.items out.new.items) }
{
    match form {
        StepForm::PreIncrement | StepForm::PreDecrement => {
            step(f, c, kept, out)?;
            value_at(f.alloc, kept)
        }
        StepForm::PostIncrement | StepForm::PostDecrement => step_behind(f, c, kept, out),
    }
}

/// An `if`.
#[tactic(auto, using(cil_nodes::proofs::Made::if_is, crate::proofs::CodeLaws::chooses_if, crate::proofs::CodeLaws::extends_one))]
pub fn choose(
    test: Exp,
    holds: Vec<Stmt>,
    fails: Vec<Stmt>,
    out: &mut Vec<Stmt>,
) -> Result<(), Memory>
    ensures chooses { OnOk result (Chooses test holds.items fails.items out.old.items out.new.items) }
    ensures grows { OnOk result (Extends out.old.items out.new.items) }
{
    out.reserve(1)?;
    out.push_reserved(Stmt::If(test, holds, fails));
    Ok(())
}

/// Stores an int in a local.
#[tactic(auto, using(crate::proofs::CodeLaws::truth_in, crate::proofs::CodeLaws::saves_in))]
fn store_truth(alloc: Global, n: LocalId, truth: u64) -> Result<Vec<Stmt>, Memory>
    ensures { IfOk result (λ code. IsTruth n truth code.items) }
{
    let mut out = Vec::with_capacity(alloc, 1)?;
    store(variable(alloc, n), constant(IntKind::Int, truth), &mut out)?;
    Ok(out)
}

/// Stores in a local whether a test holds.
#[tactic(auto, using(crate::proofs::CodeLaws::decides_by))]
pub fn decide(alloc: Global, n: LocalId, test: Exp, out: &mut Vec<Stmt>) -> Result<(), Memory>
    ensures decides { OnOk result (Decides n test out.old.items out.new.items) }
    ensures grows { OnOk result (Extends out.old.items out.new.items) }
{
    let holds = store_truth(alloc, n, 1)?;
    let fails = store_truth(alloc, n, 0)?;
    choose(test, holds, fails, out)
}

/// Chooses by the first operand of `&&` or `||` between its second, given by what it does and stores in a local, and the truth that the
/// first one decides (C11 6.5.13p4, 6.5.14p4).
pub fn short_circuit(
    alloc: Global,
    n: LocalId,
    op: Logic,
    first: Exp,
    second: Vec<Stmt>,
    out: &mut Vec<Stmt>,
) -> Result<(), Memory>
    ensures short { OnOk result (IsShort op n first second.items out.old.items out.new.items) }
    ensures grows { OnOk result (Extends out.old.items out.new.items) }
{
    match op {
        Logic::And => {
            let fails = store_truth(alloc, n, 0)?;
            choose(first, second, fails, out)
        }
        Logic::Or => {
            let holds = store_truth(alloc, n, 1)?;
            choose(first, holds, second, out)
        }
    }
}

/// Does by the first operand of `&&` or `||` what its second does, where that is asked.
pub fn short_circuit_effects(
    alloc: Global,
    op: Logic,
    first: Exp,
    second: Vec<Stmt>,
    out: &mut Vec<Stmt>,
) -> Result<(), Memory>
    ensures short { OnOk result (IsShortEffect op first second.items out.old.items out.new.items) }
    ensures grows { OnOk result (Extends out.old.items out.new.items) }
{
    let none = Vec::new(alloc);
    match op {
        Logic::And => choose(first, second, none, out),
        Logic::Or => choose(first, none, second, out),
    }
}
