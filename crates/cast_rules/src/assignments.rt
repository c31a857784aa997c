ghost use Rattle.std.specs.Prelude.{◌≡◌, ◌<◌, ◌↔◌, ◌&&◌, ◌||◌, Bool, Some, IsTrue, IfOk, length};
ghost use Rattle.cil_base.specs.declared.kinds.IntKind.TheVariants.{Bool as Boolean};
ghost use Rattle.cil_base.specs.Kinds.{same_kind};
ghost use Rattle.type_graph.specs.Shapes.{AggType, shape};
ghost use Rattle.unit_types.specs.Classes.{kind_of};
ghost use Rattle.unit_types.specs.Constants.{IsModifiable};
ghost use Rattle.cast_rules.specs.Assigning.{are_compound_operands, assign_row, assignable, assigns_number, assigns_record, compound_row, convert_row, has_all, is_address, is_lvalue, is_moved, is_number, is_stepped, may_point, points_to, simple_row, step_row, steps_over};
ghost use Rattle.cast_rules.specs.Exact.{Refuses};
ghost use Rattle.operator_kinds.specs.Groups.{group_of};
ghost use Rattle.cast_rules.specs.Given.{IsOf};
ghost use Rattle.cast_rules.specs.Meetings.{compatible};
ghost use Rattle.cast_rules.specs.Seen.{seen, seen_pair};
ghost use Rattle.cast_rules.specs.Types.{is_record};
ghost use Rattle.cast_rules.specs.Values.{value_of};

use crate::arithmetic::steps_over_incomplete;
use crate::conversions::{converted, converted_value, promoted, value_of};
use crate::operands::{
    Operand, Sort, is_enum, is_incomplete, is_object, is_unreadable, kind_in, operand_sort,
};
use crate::pairings::{Pairing, meet_in_void, paired};
use crate::stops::{allowed, impossible, made};
use cil_base::{AggId, BinOp, Code, IntKind, RuleStop, TypeId};
use layout_lp64::LayoutStop;
use operator_kinds::{Group, computing_kind, group_of, stepping_kind};
use std::alloc::Global;
use type_graph::{AggKind, QualType, Quals};
use typed_tree::{StepForm, TypedExp};
use unit_types::{Class, Types};

/// Whether the first qualifiers hold all of the second.
fn has_all(p: Quals, q: Quals) -> bool
    ensures { result ≡ has_all p q }
{
    (p.constant || !q.constant) && (p.restricted || !q.restricted)
}

/// Whether a pointer may be assigned to a pointer (C11 6.5.16.1p1): to compatible types, or one to `void`, and the left one with all
/// qualifiers of the right one.
fn is_pointer_for(p: QualType, q: QualType, t: &Types) -> bool
    ensures { p.of.0 < length t.now.nodes → q.of.0 < length t.now.nodes → result ≡ may_point t.now p.quals (shape t.now.nodes p.of.0) q.quals (shape t.now.nodes q.of.0) }
{
    has_all(p.quals, q.quals) && (t.compatible(p.of, q.of) || meet_in_void(t, p.of, q.of))
}

/// Whether the value of an operand may be assigned to a place of a pointer type.
fn is_for_pointer(p: QualType, e: &Operand, t: &Types) -> bool
    ensures { p.of.0 < length t.now.nodes → result ≡ (points_to t.now p.quals (shape t.now.nodes p.of.0) (value_of t.now e.now) || e.now.null) }
{
    match operand_sort(e, t) {
        Sort::Pointer(q) => is_pointer_for(p, q, t) || e.null,
        Sort::Number(_) | Sort::Void | Sort::Record(_) => e.null,
    }
}

/// Whether the value of an operand may be assigned to a place of an integer type: a number, or to `_Bool` a pointer too.
fn is_for_integer(kind: IntKind, e: &Operand, t: &Types) -> bool
    ensures { result ≡ (is_number (value_of t.now e.now) || (same_kind kind Boolean && is_address (value_of t.now e.now))) }
{
    match operand_sort(e, t) {
        Sort::Number(_) => true,
        Sort::Pointer(_) => kind == IntKind::Bool,
        Sort::Void | Sort::Record(_) => false,
    }
}

/// Whether the value of an operand is a number.
fn is_number(e: &Operand, t: &Types) -> bool
    ensures { result ≡ is_number (value_of t.now e.now) }
{
    match operand_sort(e, t) {
        Sort::Number(_) => true,
        Sort::Pointer(_) | Sort::Void | Sort::Record(_) => false,
    }
}

/// Whether a type is that struct or union.
fn is_aggregate(t: &Types, of: TypeId, a: AggId) -> bool
    ensures { result ≡ (is_record t.now (shape t.now.nodes of.0) && compatible t.now (AggType a.0) (shape t.now.nodes of.0)) }
{
    match t.class(of) {
        Class::Agg(kind, b) => !is_enum(kind) && a.0 == b.0,
        Class::Void | Class::Int(_) | Class::Ptr(_) | Class::Array(..) | Class::Func { .. } => {
            false
        }
    }
}

/// Whether the value of an operand may be assigned to an object of a type, the object's qualifiers aside (C11 6.5.16.1p1): so it may be
/// an argument for such a parameter, be returned as such a result, and initialise such an object.
pub fn assignable(to: TypeId, e: &Operand, t: &Types) -> bool
    ensures { result ≡ assignable t.now (shape t.now.nodes to.0) e.now }
{
    match t.class(to) {
        Class::Int(kind) => is_for_integer(kind, e, t),
        Class::Ptr(p) => is_for_pointer(p, e, t),
        Class::Agg(kind, a) => is_for_aggregate(kind, a, e, t),
        Class::Void | Class::Array(..) | Class::Func { .. } => false,
    }
}

/// Whether the value of an operand may be assigned to a struct, a union or an enum.
fn is_for_aggregate(kind: AggKind, a: AggId, e: &Operand, t: &Types) -> bool
    ensures { kind_of t.now a.0 ≡ Some kind → result ≡ (assigns_number t.now (AggType a.0) e.now || assigns_record t.now (AggType a.0) e.now) }
{
    if is_enum(kind) {
        is_number(e, t)
    } else {
        is_aggregate(t, e.exp.ty().of, a)
    }
}

/// The first constraint that a conversion as by assignment violates, if there is one.
fn fault_convert(to: TypeId, e: &Operand, t: &Types) -> Option<Code>
    ensures { result ≡ convert_row t.now (shape t.now.nodes to.0) e.now }
{
    if is_unreadable(e, t) {
        Some(Code::Incomplete)
    } else if !assignable(to, e, t) {
        Some(Code::Assignment)
    } else {
        None
    }
}

/// A value converted as by assignment to a type (C11 6.5.16.1p2): as a returned value (6.8.6.4p3) and an initialiser (6.7.9p11) are. It
/// has that type, the qualifiers of what a pointer points to aside.
pub fn convert(alloc: Global, to: TypeId, e: Operand, t: &mut Types) -> Result<TypedExp, RuleStop>
    ensures { Refuses (convert_row t.old (shape t.old.nodes to.0) e) result }
{
    allowed(fault_convert(to, &e, t))?;
    made(converted_value(alloc, to, e.exp, t))
}

/// Whether an operand is an lvalue (C11 6.3.2.1p1): functions and void expressions are none.
fn is_lvalue(e: &Operand, t: &Types) -> bool
    ensures { result ≡ is_lvalue t.now e.now }
{
    match t.class(e.exp.ty().of) {
        Class::Void | Class::Func { .. } => false,
        Class::Int(_) | Class::Ptr(_) | Class::Array(..) | Class::Agg(..) => e.exp.is_place(),
    }
}

/// Whether an operator adds an integer to a pointer to an object, or subtracts it from there (C11 6.5.16.2p1).
fn is_moved(op: BinOp, p: QualType, t: &Types) -> bool
    ensures { result ≡ is_moved (group_of op) (shape t.now.nodes p.of.0) }
{
    match group_of(op) {
        Group::Add | Group::Sub => is_object(t, p.of),
        Group::Numbers | Group::Shift | Group::Order | Group::Equality => false,
    }
}

/// Whether the operands of a compound assignment meet its constraint (C11 6.5.16.2p1, p2).
fn are_compound_operands(op: BinOp, pairing: Pairing, t: &Types) -> bool
    ensures { result ≡ are_compound_operands (group_of op) (seen_pair t.now.nodes pairing) }
{
    match pairing {
        Pairing::Numbers(..) => true,
        Pairing::PointerNumber(p) => is_moved(op, p, t),
        Pairing::NumberPointer(_) | Pairing::Pointers(..) | Pairing::Others => false,
    }
}

/// The first constraint that a simple assignment violates, if there is one (C11 6.5.16p2, 6.5.16.1p1), where its left operand is modifiable
/// or not.
fn fault_simple(modifiable: bool, place: &Operand, value: &Operand, t: &Types) -> Option<Code>
    ensures { result ≡ simple_row modifiable t.now place.now value.now }
{
    if is_unreadable(value, t) {
        Some(Code::Incomplete)
    } else if !is_lvalue(place, t) {
        Some(Code::NotLvalue)
    } else if !modifiable {
        Some(Code::NotModifiable)
    } else if !assignable(place.exp.ty().of, value, t) {
        Some(Code::Assignment)
    } else {
        None
    }
}

/// The first constraint that a compound assignment violates, if there is one (C11 6.5.16p2, 6.5.16.2p1, p2), where its left operand is
/// modifiable or not.
fn fault_compound(
    modifiable: bool,
    op: BinOp,
    place: &Operand,
    value: &Operand,
    t: &Types,
) -> Option<Code>
    ensures { result ≡ compound_row modifiable op t.now place.now value.now }
{
    let pairing = paired(place, value, t);
    if is_unreadable(value, t) || steps_over_incomplete(op, pairing, t) {
        Some(Code::Incomplete)
    } else if !is_lvalue(place, t) {
        Some(Code::NotLvalue)
    } else if !modifiable {
        Some(Code::NotModifiable)
    } else if !are_compound_operands(op, pairing, t) {
        Some(Code::Operand)
    } else {
        None
    }
}

/// The first constraint that an assignment violates, if there is one, where its left operand is modifiable or not.
fn fault_assign(
    modifiable: bool,
    op: Option<BinOp>,
    place: &Operand,
    value: &Operand,
    t: &Types,
) -> Option<Code>
    ensures { result ≡ assign_row modifiable op t.now place.now value.now }
{
    match op {
        None => fault_simple(modifiable, place, value, t),
        Some(op) => fault_compound(modifiable, op, place, value, t),
    }
}

/// `place = value`, or `place op= value` (C11 6.5.16).
#[tactic(auto, using(crate::proofs::Modifiable::same_truth))]
pub fn assign(
    alloc: Global,
    op: Option<BinOp>,
    place: Operand,
    value: Operand,
    t: &mut Types,
) -> Result<TypedExp, RuleStop>
    ensures is { IfOk result (IsOf t.new (shape t.new.nodes place.exp.ty.of.0)) }
    ensures refused { (modifiable : Bool) → (IsTrue modifiable ↔ IsModifiable t.old place.exp.ty.quals place.exp.ty.of.0) → Refuses (assign_row modifiable op t.old place value) result }
{
    let modifiable = t.is_modifiable(place.exp.ty());
    allowed(fault_assign(modifiable, op, &place, &value, t))?;
    let pairing = paired(&place, &value, t);
    match op {
        None => made(simple(alloc, place.exp, value.exp, t)),
        Some(op) => made(compound(alloc, op, pairing, place.exp, value.exp, t)),
    }
}

/// The node of `place = value` (C11 6.5.16.1).
#[tactic(auto, using(crate::proofs::BuiltTypes::shape_built))]
fn simple(
    alloc: Global,
    place: TypedExp,
    value: TypedExp,
    t: &mut Types,
) -> Result<TypedExp, LayoutStop>
    ensures { IfOk result (IsOf t.new (shape t.new.nodes place.ty.of.0)) }
{
    let of = place.ty().of;
    let value = converted_value(alloc, of, value, t)?;
    Ok(typed_tree::assign(alloc, place, value)?)
}

/// The node of `place op= value` (C11 6.5.16.2): computed as the operator computes, and converted to the place's type.
#[tactic(auto, using(crate::proofs::BuiltTypes::shape_built))]
fn compound(
    alloc: Global,
    op: BinOp,
    pairing: Pairing,
    place: TypedExp,
    value: TypedExp,
    t: &mut Types,
) -> Result<TypedExp, LayoutStop>
    ensures { IfOk result (IsOf t.new (shape t.new.nodes place.ty.of.0)) }
{
    let at = computing_type(op, pairing, place.ty().of, t)?;
    let value = value_of(alloc, value, t)?;
    let value = prepared(alloc, op, pairing, at, value, t)?;
    Ok(typed_tree::compute(alloc, op, at, place, value)?)
}

/// Whether an operator shifts.
fn is_shift(op: BinOp) -> bool {
    match group_of(op) {
        Group::Shift => true,
        Group::Numbers | Group::Add | Group::Sub | Group::Order | Group::Equality => false,
    }
}

/// Whether the right operand is promoted by itself: that of a shift, and an integer that is added to a pointer (C11 6.5.6p8, 6.5.7p3).
fn is_promoted_alone(op: BinOp, pairing: Pairing) -> bool {
    match pairing {
        Pairing::PointerNumber(_) => true,
        Pairing::Numbers(..)
        | Pairing::NumberPointer(_)
        | Pairing::Pointers(..)
        | Pairing::Others => is_shift(op),
    }
}

/// The right operand of a compound assignment that computes in a type.
fn prepared(
    alloc: Global,
    op: BinOp,
    pairing: Pairing,
    at: TypeId,
    value: TypedExp,
    t: &mut Types,
) -> Result<TypedExp, LayoutStop> {
    if is_promoted_alone(op, pairing) {
        promoted(alloc, value, t)
    } else {
        converted(alloc, at, value, t)
    }
}

/// The type in which a compound assignment computes: for a pointer its own type.
fn computing_type(
    op: BinOp,
    pairing: Pairing,
    place: TypeId,
    t: &mut Types,
) -> Result<TypeId, LayoutStop> {
    match pairing {
        Pairing::PointerNumber(_) => Ok(place),
        Pairing::Numbers(x, y) => t.int(computing_kind(op, x, y)),
        Pairing::NumberPointer(_) | Pairing::Pointers(..) | Pairing::Others => Err(impossible()),
    }
}

/// Whether a step is over an incomplete type.
fn steps_over(s: Sort, t: &Types) -> bool
    ensures { result ≡ steps_over t.now (seen t.now.nodes s) }
{
    match s {
        Sort::Pointer(p) => is_incomplete(t, p.of),
        Sort::Void | Sort::Number(_) | Sort::Record(_) => false,
    }
}

/// Whether an operand is of arithmetic type or a pointer to an object (C11 6.5.2.4p1, 6.5.3.1p1).
fn is_stepped(s: Sort, t: &Types) -> bool
    ensures { result ≡ is_stepped (seen t.now.nodes s) }
{
    match s {
        Sort::Number(_) => true,
        Sort::Pointer(p) => is_object(t, p.of),
        Sort::Void | Sort::Record(_) => false,
    }
}

/// The first constraint that an increment or decrement violates, if there is one (C11 6.5.2.4p1, 6.5.3.1p1), where its operand is modifiable
/// or not.
fn fault_step(modifiable: bool, place: &Operand, t: &Types) -> Option<Code>
    ensures { result ≡ step_row modifiable t.now place.now }
{
    let s = operand_sort(place, t);
    if steps_over(s, t) {
        Some(Code::Incomplete)
    } else if !is_lvalue(place, t) {
        Some(Code::NotLvalue)
    } else if !modifiable {
        Some(Code::NotModifiable)
    } else if !is_stepped(s, t) {
        Some(Code::Operand)
    } else {
        None
    }
}

/// `++` and `--`, before and behind their operand (C11 6.5.2.4, 6.5.3.1).
#[tactic(auto, using(crate::proofs::Modifiable::same_truth))]
pub fn step(
    alloc: Global,
    form: StepForm,
    place: Operand,
    t: &mut Types,
) -> Result<TypedExp, RuleStop>
    ensures is { IfOk result (IsOf t.new (shape t.new.nodes place.exp.ty.of.0)) }
    ensures refused { (modifiable : Bool) → (IsTrue modifiable ↔ IsModifiable t.old place.exp.ty.quals place.exp.ty.of.0) → Refuses (step_row modifiable t.old place) result }
{
    let modifiable = t.is_modifiable(place.exp.ty());
    allowed(fault_step(modifiable, &place, t))?;
    made(step_node(alloc, form, place.exp, t))
}

/// The node of a step.
#[tactic(auto, using(crate::proofs::BuiltTypes::shape_built))]
fn step_node(
    alloc: Global,
    form: StepForm,
    place: TypedExp,
    t: &mut Types,
) -> Result<TypedExp, LayoutStop>
    ensures { IfOk result (IsOf t.new (shape t.new.nodes place.ty.of.0)) }
{
    let at = stepping_type(place.ty().of, t)?;
    Ok(typed_tree::step(alloc, form, at, place)?)
}

/// The type in which a step computes: for a pointer its own type, else the common type with the int 1 (C11 6.5.2.4p2, 6.5.3.1p2).
fn stepping_type(place: TypeId, t: &mut Types) -> Result<TypeId, LayoutStop> {
    match kind_in(t, place) {
        Some(kind) => t.int(stepping_kind(kind)),
        None => Ok(place),
    }
}
