ghost use Rattle.std.specs.Prelude.{◌≡◌, ◌&&◌, not, List, IsTrue, IfOk, OnOk};
ghost use Rattle.cil_base.specs.declared.kinds.IntKind.{IntKind};
ghost use Rattle.type_graph.specs.declared.nodes.Node.{Node};
ghost use Rattle.type_graph.specs.Shapes.{IntType, PtrType, shape};
ghost use Rattle.cast_rules.specs.Exact.{Refuses};
ghost use Rattle.cast_rules.specs.Given.{Extends, IsOf, promoted_shape, value_shape};
ghost use Rattle.cast_rules.specs.Rows.{cast_row, value_row};
ghost use Rattle.cast_rules.specs.Types.{is_void, is_scalar, gives_scalar};

use crate::operands::{
    Operand, Sort, gives_scalar, is_scalar, is_unreadable, is_void, kind_in, sort_of,
};
use crate::stops::{allowed, impossible, made};
use cil_base::{Code, RuleStop, TypeId};
use layout_lp64::LayoutStop;
use std::alloc::Global;
use type_graph::{QualType, unqualified};
use typed_tree::TypedExp;
use unit_types::{Class, Types};

/// Two values, in the order of the text.
#[derive(Drop)]
pub(crate) struct Pair {
    pub(crate) left: TypedExp,
    pub(crate) right: TypedExp,
}

/// Whether one type is the other, but perhaps for the qualifiers of what they point to: such a conversion changes no value.
fn is_alike(t: &Types, from: TypeId, to: TypeId) -> bool
    ensures { (kind : IntKind) → shape t.now.nodes to.0 ≡ IntType kind → IsTrue result → from.0 ≡ to.0 }
{
    if from == to {
        return true;
    }
    match (t.class(from), t.class(to)) {
        (Class::Ptr(p), Class::Ptr(q)) => p.of == q.of,
        _ => false,
    }
}

/// A value converted to a type as C does it unasked (C11 6.3): there is a node where the type changes, the qualifiers of what a pointer
/// points to aside.
#[tactic(auto, using(crate::proofs::BuiltTypes::shape_built))]
pub(crate) fn converted(
    alloc: Global,
    to: TypeId,
    e: TypedExp,
    t: &Types,
) -> Result<TypedExp, LayoutStop>
    ensures { (kind : IntKind) → shape t.now.nodes to.0 ≡ IntType kind → IfOk result (λ v. shape t.now.nodes v.ty.of.0 ≡ IntType kind) }
{
    if is_alike(t, e.ty().of, to) {
        return Ok(e);
    }
    Ok(typed_tree::convert(alloc, to, e)?)
}

/// Two values converted to a type.
pub(crate) fn both_converted(
    alloc: Global,
    to: TypeId,
    pair: Pair,
    t: &Types,
) -> Result<Pair, LayoutStop> {
    let Pair { left, right } = pair;
    let left = converted(alloc, to, left, t)?;
    let right = converted(alloc, to, right, t)?;
    Ok(Pair { left, right })
}

/// An integer promoted (C11 6.3.1.1p2); an enumerated type computes in int (own).
#[tactic(auto, using(crate::proofs::Extending::extends_made))]
pub(crate) fn promoted(alloc: Global, e: TypedExp, t: &mut Types) -> Result<TypedExp, LayoutStop>
    ensures is { IfOk result (IsOf t.new (promoted_shape t.old (shape t.old.nodes e.ty.of.0))) }
    ensures extends { OnOk result (Extends t.old t.new) }
{
    let Some(kind) = kind_in(t, e.ty().of) else {
        return Err(impossible());
    };
    let to = t.int(kind.promoted())?;
    converted(alloc, to, e, t)
}

/// The value of an operand, promoted.
#[tactic(auto, using(crate::proofs::Extending::promotion_stays))]
pub(crate) fn promoted_value(
    alloc: Global,
    e: TypedExp,
    t: &mut Types,
) -> Result<TypedExp, LayoutStop>
    ensures { IfOk result (IsOf t.new (promoted_shape t.old (value_shape (shape t.old.nodes e.ty.of.0)))) }
{
    let e = value_of(alloc, e, t)?;
    promoted(alloc, e, t)
}

/// The value of an operand, converted to a type.
pub(crate) fn converted_value(
    alloc: Global,
    to: TypeId,
    e: TypedExp,
    t: &mut Types,
) -> Result<TypedExp, LayoutStop> {
    let e = value_of(alloc, e, t)?;
    converted(alloc, to, e, t)
}

/// A value after the default argument promotions (C11 6.5.2.2p6).
pub(crate) fn promoted_argument(
    alloc: Global,
    e: TypedExp,
    t: &mut Types,
) -> Result<TypedExp, LayoutStop> {
    match sort_of(t, e.ty().of) {
        Sort::Number(_) => promoted(alloc, e, t),
        Sort::Void | Sort::Pointer(_) | Sort::Record(_) => Ok(e),
    }
}

/// An array or a function as a pointer (C11 6.3.2.1p3, p4).
#[tactic(auto, using(crate::proofs::BuiltTypes::shape_built, crate::proofs::Extending::extends_made))]
fn decayed(alloc: Global, to: QualType, e: TypedExp, t: &mut Types) -> Result<TypedExp, LayoutStop>
    ensures is { IfOk result (IsOf t.new (PtrType to.quals (shape t.old.nodes to.of.0))) }
    ensures extends { OnOk result (Extends t.old t.new) }
{
    let pointer = t.pointer(to)?;
    Ok(typed_tree::decay(alloc, pointer, e)?)
}

/// The value of a place, or a value itself.
#[tactic(auto, using(crate::proofs::BuiltTypes::shape_built))]
fn loaded(alloc: Global, e: TypedExp) -> Result<TypedExp, LayoutStop>
    ensures { (nodes : List Node) → IfOk result (λ v. shape nodes v.ty.of.0 ≡ shape nodes e.ty.of.0) }
{
    if e.is_place() {
        Ok(typed_tree::load(alloc, e)?)
    } else {
        Ok(e)
    }
}

/// The value of an operand (C11 6.3.2.1p2 to p4). A void expression stays as it is.
#[tactic(auto, using(crate::proofs::Extending::extends_none))]
pub(crate) fn value_of(alloc: Global, e: TypedExp, t: &mut Types) -> Result<TypedExp, LayoutStop>
    ensures is { IfOk result (IsOf t.new (value_shape (shape t.old.nodes e.ty.of.0))) }
    ensures extends { OnOk result (Extends t.old t.new) }
{
    let of = e.ty().of;
    match t.class(of) {
        Class::Void => Ok(e),
        Class::Int(_) | Class::Ptr(_) | Class::Agg(..) => loaded(alloc, e),
        Class::Array(element, _) => decayed(alloc, element, e, t),
        Class::Func { .. } => decayed(alloc, unqualified(of), e, t),
    }
}

/// The values of two operands.
#[tactic(auto, using(crate::proofs::Extending::extends_twice))]
pub(crate) fn both_values(
    alloc: Global,
    a: TypedExp,
    b: TypedExp,
    t: &mut Types,
) -> Result<Pair, LayoutStop>
    ensures { OnOk result (Extends t.old t.new) }
{
    let left = value_of(alloc, a, t)?;
    let right = value_of(alloc, b, t)?;
    Ok(Pair { left, right })
}

/// The constraint that the reading of an operand violates, if there is one.
fn fault_value(e: &Operand, t: &Types) -> Option<Code>
    ensures { result ≡ value_row t.now (shape t.now.nodes e.now.exp.ty.of.0) }
{
    if is_unreadable(e, t) {
        Some(Code::Incomplete)
    } else {
        None
    }
}

/// The value of an operand: what an lvalue holds, or the pointer to which an array or a function decays (C11 6.3.2.1p2 to p4).
/// `Incomplete` comes where it has an incomplete struct, union or enum type.
pub fn value(alloc: Global, e: Operand, t: &mut Types) -> Result<TypedExp, RuleStop>
    ensures is { IfOk result (IsOf t.new (value_shape (shape t.old.nodes e.exp.ty.of.0))) }
    ensures refused { Refuses (value_row t.old (shape t.old.nodes e.exp.ty.of.0)) result }
{
    allowed(fault_value(&e, t))?;
    made(value_of(alloc, e.exp, t))
}

/// Whether a cast is outside C11 6.5.4p2.
fn is_no_cast(to: TypeId, e: &Operand, t: &Types) -> bool
    ensures { result ≡ (not (is_void (shape t.now.nodes to.0)) && not (is_scalar t.now (shape t.now.nodes to.0) && gives_scalar t.now (shape t.now.nodes e.now.exp.ty.of.0))) }
{
    !is_void(t, to) && !(is_scalar(t, to) && gives_scalar(t, e.exp.ty().of))
}

/// The first constraint that a cast violates, if there is one.
fn fault_cast(to: TypeId, e: &Operand, t: &Types) -> Option<Code>
    ensures { result ≡ cast_row t.now (shape t.now.nodes to.0) (shape t.now.nodes e.now.exp.ty.of.0) }
{
    if is_unreadable(e, t) {
        Some(Code::Incomplete)
    } else if is_no_cast(to, e, t) {
        Some(Code::Cast)
    } else {
        None
    }
}

/// `( to ) e` (C11 6.5.4). A cast to void is a node whatever its operand is, since no cast is an lvalue; any other is a node where it
/// changes the type.
pub fn cast(alloc: Global, to: TypeId, e: Operand, t: &mut Types) -> Result<TypedExp, RuleStop>
    ensures is { IfOk result (IsOf t.new (shape t.new.nodes to.0)) }
    ensures refused { Refuses (cast_row t.old (shape t.old.nodes to.0) (shape t.old.nodes e.exp.ty.of.0)) result }
{
    allowed(fault_cast(to, &e, t))?;
    made(cast_node(alloc, to, e.exp, t))
}

/// The node of a cast.
#[tactic(auto, using(crate::proofs::BuiltTypes::shape_built))]
fn cast_node(alloc: Global, to: TypeId, e: TypedExp, t: &mut Types) -> Result<TypedExp, LayoutStop>
    ensures { IfOk result (IsOf t.new (shape t.new.nodes to.0)) }
{
    let e = value_of(alloc, e, t)?;
    if e.ty().of == to && !is_void(t, to) {
        return Ok(e);
    }
    Ok(typed_tree::convert(alloc, to, e)?)
}
