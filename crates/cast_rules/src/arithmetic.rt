ghost use Rattle.std.specs.Prelude.{◌≡◌, ◌<◌, List, length, is_some, IfOk, IfSome, OnOk};
ghost use Rattle.cil_base.specs.declared.kinds.IntKind.TheVariants.{Int};
ghost use Rattle.type_graph.specs.Shapes.{IntType, shape};
ghost use Rattle.cil_base.specs.declared.operators.UnOp.TheVariants.{Neg};
ghost use Rattle.cast_rules.specs.Exact.{Refuses};
ghost use Rattle.operator_kinds.specs.Groups.{group_of};
ghost use Rattle.operator_kinds.specs.Kinds.{given_kind};
ghost use Rattle.type_graph.specs.declared.nodes.Node.{Node};
ghost use Rattle.cil_base.specs.Integer.{long_of};
ghost use Rattle.cast_rules.specs.Given.{Extends, IsOf, binary_shape, lessened_shape, moved_shape, paired_shape, pointers_shape, promoted_shape, unary_shape, value_shape};
ghost use Rattle.cast_rules.specs.Meetings.{meeting_of};
ghost use Rattle.cast_rules.specs.Pairs.{adds_over_incomplete, are_added, are_compatible_objects, are_numbers, are_operands, are_ordered, are_subtracted, binary_row, is_one_unreadable, steps_over_incomplete, subtracts_over_incomplete};
ghost use Rattle.cast_rules.specs.Rows.{is_operand, logical_row, unary_row};
ghost use Rattle.cast_rules.specs.Seen.{seen_pair, AreThere};
ghost use Rattle.cast_rules.specs.Values.{pair_of};

use crate::conversions::{
    Pair, both_converted, both_values, converted, promoted, promoted_value, value_of,
};
use crate::operands::{
    Operand, gives_scalar, is_arithmetic, is_incomplete, is_object, is_unreadable,
};
use crate::pairings::{Meeting, Pairing, meeting_of, meeting_type, paired};
use crate::stops::{allowed, impossible, made};
use cil_base::{BinOp, Code, IntKind, RuleStop, TypeId, UnOp};
use layout_lp64::LayoutStop;
use operator_kinds::{Group, computing_kind, given_kind, group_of, truth_kind};
use std::alloc::Global;
use type_graph::QualType;
use typed_tree::{Logic, TypedExp};
use unit_types::Types;

/// Whether an operand is of arithmetic type, or scalar for `!` (C11 6.5.3.3p1).
fn is_operand(op: UnOp, e: &Operand, t: &Types) -> bool
    ensures { result ≡ is_operand op t.now (shape t.now.nodes e.now.exp.ty.of.0) }
{
    let of = e.exp.ty().of;
    match op {
        UnOp::Neg | UnOp::Compl => is_arithmetic(t, of),
        UnOp::Not => gives_scalar(t, of),
    }
}

/// The first constraint that a unary operator violates, if there is one.
fn fault_unary(op: UnOp, e: &Operand, t: &Types) -> Option<Code>
    ensures { result ≡ unary_row op t.now (shape t.now.nodes e.now.exp.ty.of.0) }
{
    if is_unreadable(e, t) {
        Some(Code::Incomplete)
    } else if !is_operand(op, e, t) {
        Some(Code::Operand)
    } else {
        None
    }
}

/// `+ e` (C11 6.5.3.3p2): the promoted value, without a node of its own.
pub fn plus(alloc: Global, e: Operand, t: &mut Types) -> Result<TypedExp, RuleStop>
    ensures is { IfOk result (IsOf t.new (promoted_shape t.old (value_shape (shape t.old.nodes e.exp.ty.of.0)))) }
    ensures refused { Refuses (unary_row Neg t.old (shape t.old.nodes e.exp.ty.of.0)) result }
{
    allowed(fault_unary(UnOp::Neg, &e, t))?;
    made(promoted_value(alloc, e.exp, t))
}

/// `- e`, `~ e` and `! e` (C11 6.5.3.3).
pub fn unary(alloc: Global, op: UnOp, e: Operand, t: &mut Types) -> Result<TypedExp, RuleStop>
    ensures is { IfOk result (IsOf t.new (unary_shape op t.old (value_shape (shape t.old.nodes e.exp.ty.of.0)))) }
    ensures refused { Refuses (unary_row op t.old (shape t.old.nodes e.exp.ty.of.0)) result }
{
    allowed(fault_unary(op, &e, t))?;
    made(unary_node(alloc, op, e.exp, t))
}

/// The node of `- e`, `~ e` and `! e`.
#[tactic(auto, using(crate::proofs::Extending::promotion_stays))]
fn unary_node(alloc: Global, op: UnOp, e: TypedExp, t: &mut Types) -> Result<TypedExp, LayoutStop>
    ensures { IfOk result (IsOf t.new (unary_shape op t.old (value_shape (shape t.old.nodes e.ty.of.0)))) }
{
    let e = value_of(alloc, e, t)?;
    match op {
        UnOp::Neg | UnOp::Compl => computed(alloc, op, e, t),
        UnOp::Not => negated(alloc, e, t),
    }
}

/// `- e` and `~ e` of a value: in the promoted type.
#[tactic(auto, using(crate::proofs::BuiltTypes::shape_built))]
fn computed(alloc: Global, op: UnOp, e: TypedExp, t: &mut Types) -> Result<TypedExp, LayoutStop>
    ensures { IfOk result (IsOf t.new (promoted_shape t.old (shape t.old.nodes e.ty.of.0))) }
{
    let e = promoted(alloc, e, t)?;
    let of = e.ty().of;
    Ok(typed_tree::unary(alloc, of, op, e)?)
}

/// `! e` of a value: an int (C11 6.5.3.3p5).
#[tactic(auto, using(crate::proofs::BuiltTypes::shape_built))]
fn negated(alloc: Global, e: TypedExp, t: &mut Types) -> Result<TypedExp, LayoutStop>
    ensures { IfOk result (λ v. shape t.new.nodes v.ty.of.0 ≡ IntType Int) }
{
    let int = t.int(truth_kind())?;
    Ok(typed_tree::unary(alloc, int, UnOp::Not, e)?)
}

/// Whether pointer arithmetic steps over an incomplete type (C11 6.5.6p2, p3).
pub(crate) fn steps_over_incomplete(op: BinOp, pairing: Pairing, t: &Types) -> bool
    ensures { result ≡ steps_over_incomplete (group_of op) t.now (seen_pair t.now.nodes pairing) }
{
    match group_of(op) {
        Group::Add => adds_over_incomplete(pairing, t),
        Group::Sub => subtracts_over_incomplete(pairing, t),
        Group::Numbers | Group::Shift | Group::Order | Group::Equality => false,
    }
}

/// Whether a sum of a pointer and an integer steps over an incomplete type (C11 6.5.6p2).
pub(crate) fn adds_over_incomplete(pairing: Pairing, t: &Types) -> bool
    ensures { result ≡ adds_over_incomplete t.now (seen_pair t.now.nodes pairing) }
{
    match pairing {
        Pairing::PointerNumber(p) => is_incomplete(t, p.of),
        Pairing::NumberPointer(q) => is_incomplete(t, q.of),
        Pairing::Numbers(..) | Pairing::Pointers(..) | Pairing::Others => false,
    }
}

/// Whether a difference with a pointer on its left steps over an incomplete type (C11 6.5.6p3).
fn subtracts_over_incomplete(pairing: Pairing, t: &Types) -> bool
    ensures { result ≡ subtracts_over_incomplete t.now (seen_pair t.now.nodes pairing) }
{
    match pairing {
        Pairing::PointerNumber(p) => is_incomplete(t, p.of),
        Pairing::Pointers(p, q) => is_incomplete(t, p.of) || is_incomplete(t, q.of),
        Pairing::Numbers(..) | Pairing::NumberPointer(_) | Pairing::Others => false,
    }
}

/// Whether two pointers point to compatible object types, qualifiers aside (C11 6.5.6p3, 6.5.8p2).
fn are_compatible_objects(p: QualType, q: QualType, t: &Types) -> bool
    ensures { p.of.0 < length t.now.nodes → q.of.0 < length t.now.nodes → result ≡ are_compatible_objects t.now (shape t.now.nodes p.of.0) (shape t.now.nodes q.of.0) }
{
    is_object(t, p.of) && is_object(t, q.of) && t.compatible(p.of, q.of)
}

/// Whether two operands are numbers.
fn are_numbers(pairing: Pairing) -> bool
    ensures { (nodes : List Node) → result ≡ are_numbers (seen_pair nodes pairing) }
{
    match pairing {
        Pairing::Numbers(..) => true,
        Pairing::PointerNumber(_)
        | Pairing::NumberPointer(_)
        | Pairing::Pointers(..)
        | Pairing::Others => false,
    }
}

/// Whether two operands may be added: numbers, or a pointer to an object and an integer (C11 6.5.6p2).
fn are_added(pairing: Pairing, t: &Types) -> bool
    ensures { result ≡ are_added (seen_pair t.now.nodes pairing) }
{
    match pairing {
        Pairing::Numbers(..) => true,
        Pairing::PointerNumber(p) => is_object(t, p.of),
        Pairing::NumberPointer(q) => is_object(t, q.of),
        Pairing::Pointers(..) | Pairing::Others => false,
    }
}

/// Whether the right one of two operands may be subtracted from the left one (C11 6.5.6p3).
fn are_subtracted(pairing: Pairing, t: &Types) -> bool
    ensures { AreThere t.now.nodes pairing → result ≡ are_subtracted t.now (seen_pair t.now.nodes pairing) }
{
    match pairing {
        Pairing::Numbers(..) => true,
        Pairing::PointerNumber(p) => is_object(t, p.of),
        Pairing::Pointers(p, q) => are_compatible_objects(p, q, t),
        Pairing::NumberPointer(_) | Pairing::Others => false,
    }
}

/// Whether two operands may be compared by `<` and its kin (C11 6.5.8p2).
fn are_ordered(pairing: Pairing, t: &Types) -> bool
    ensures { AreThere t.now.nodes pairing → result ≡ are_ordered t.now (seen_pair t.now.nodes pairing) }
{
    match pairing {
        Pairing::Numbers(..) => true,
        Pairing::Pointers(p, q) => are_compatible_objects(p, q, t),
        Pairing::PointerNumber(_) | Pairing::NumberPointer(_) | Pairing::Others => false,
    }
}

/// Whether the operands of a binary operator meet its constraint (C11 6.5.5 to 6.5.12). Any operator takes two numbers.
fn are_operands(op: BinOp, a: &Operand, b: &Operand, t: &Types) -> bool
    ensures { result ≡ are_operands (group_of op) t.now a.now.null b.now.null (pair_of t.now a.now b.now) }
{
    let pairing = paired(a, b, t);
    match group_of(op) {
        Group::Numbers | Group::Shift => are_numbers(pairing),
        Group::Add => are_added(pairing, t),
        Group::Sub => are_subtracted(pairing, t),
        Group::Order => are_ordered(pairing, t),
        Group::Equality => are_numbers(pairing) || meet(a, b, t),
    }
}

/// Whether two operands meet of which one at least is a pointer (C11 6.5.9p2).
fn meet(a: &Operand, b: &Operand, t: &Types) -> bool
    ensures { result ≡ is_some (meeting_of t.now a.now b.now) }
{
    match meeting_of(a, b, t) {
        Some(_) => true,
        None => false,
    }
}

/// Whether one of two operands has no value, since its type is incomplete.
pub(crate) fn is_one_unreadable(a: &Operand, b: &Operand, t: &Types) -> bool
    ensures { result ≡ is_one_unreadable t.now a.now b.now }
{
    is_unreadable(a, t) || is_unreadable(b, t)
}

/// The first constraint that a binary operator violates, if there is one.
fn fault_binary(op: BinOp, a: &Operand, b: &Operand, t: &Types) -> Option<Code>
    ensures { result ≡ binary_row op t.now a.now b.now }
{
    if is_one_unreadable(a, b, t) || steps_over_incomplete(op, paired(a, b, t), t) {
        Some(Code::Incomplete)
    } else if !are_operands(op, a, b, t) {
        Some(Code::Operand)
    } else {
        None
    }
}

/// The binary operators (C11 6.5.5 to 6.5.12).
pub fn binary(
    alloc: Global,
    op: BinOp,
    a: Operand,
    b: Operand,
    t: &mut Types,
) -> Result<TypedExp, RuleStop>
    ensures is { IfOk result (λ v. IfSome (binary_shape op t.old a b) (λ s. IsOf t.new s v)) }
    ensures refused { Refuses (binary_row op t.old a b) result }
{
    allowed(fault_binary(op, &a, &b, t))?;
    let pairing = paired(&a, &b, t);
    let meeting = meeting_of(&a, &b, t);
    made(binary_node(alloc, op, pairing, meeting, a.exp, b.exp, t))
}

/// The node of a binary operator.
#[tactic(auto, using(crate::proofs::Extending::pair_there, crate::proofs::Extending::pair_stays))]
fn binary_node(
    alloc: Global,
    op: BinOp,
    pairing: Pairing,
    meeting: Option<Meeting>,
    a: TypedExp,
    b: TypedExp,
    t: &mut Types,
) -> Result<TypedExp, LayoutStop>
    ensures { AreThere t.old.nodes pairing → IfOk result (λ v. IfSome (paired_shape (group_of op) t.old.abi (seen_pair t.old.nodes pairing)) (λ s. IsOf t.new s v)) }
{
    let pair = both_values(alloc, a, b, t)?;
    match pairing {
        Pairing::Numbers(x, y) => numbers_joined(alloc, op, x, y, pair, t),
        Pairing::PointerNumber(_)
        | Pairing::NumberPointer(_)
        | Pairing::Pointers(..)
        | Pairing::Others => pointers_joined(alloc, op, pairing, meeting, pair, t),
    }
}

/// An operator on two numbers of these kinds.
#[tactic(auto, using(crate::proofs::BuiltTypes::shape_built))]
fn numbers_joined(
    alloc: Global,
    op: BinOp,
    x: IntKind,
    y: IntKind,
    pair: Pair,
    t: &mut Types,
) -> Result<TypedExp, LayoutStop>
    ensures { IfOk result (IsOf t.new (IntType (given_kind (group_of op) x y))) }
{
    let at = t.int(computing_kind(op, x, y))?;
    let Pair { left, right } = numbers_converted(alloc, op, at, pair, t)?;
    let of = t.int(given_kind(op, x, y))?;
    Ok(typed_tree::binary(alloc, of, op, left, right)?)
}

/// Two numbers converted to the type in which an operator computes (C11 6.3.1.8p1); the count of a shift is promoted by itself (6.5.7p3).
fn numbers_converted(
    alloc: Global,
    op: BinOp,
    at: TypeId,
    pair: Pair,
    t: &mut Types,
) -> Result<Pair, LayoutStop> {
    match group_of(op) {
        Group::Shift => shift_converted(alloc, at, pair, t),
        Group::Numbers | Group::Add | Group::Sub | Group::Order | Group::Equality => {
            both_converted(alloc, at, pair, t)
        }
    }
}

/// The operands of a shift: the left one in a type, the count promoted.
fn shift_converted(
    alloc: Global,
    at: TypeId,
    pair: Pair,
    t: &mut Types,
) -> Result<Pair, LayoutStop> {
    let Pair { left, right } = pair;
    let left = converted(alloc, at, left, t)?;
    let right = promoted(alloc, right, t)?;
    Ok(Pair { left, right })
}

/// An operator on two operands of which one at least is a pointer.
fn pointers_joined(
    alloc: Global,
    op: BinOp,
    pairing: Pairing,
    meeting: Option<Meeting>,
    pair: Pair,
    t: &mut Types,
) -> Result<TypedExp, LayoutStop>
    ensures { AreThere t.old.nodes pairing → IfOk result (λ v. IfSome (pointers_shape (group_of op) t.old.abi (seen_pair t.old.nodes pairing)) (λ s. IsOf t.new s v)) }
{
    match group_of(op) {
        Group::Add => moved(alloc, op, pairing, pair, t),
        Group::Sub => lessened(alloc, pairing, meeting, pair, t),
        Group::Order | Group::Equality => pointers_compared(alloc, op, meeting, pair, t),
        Group::Numbers | Group::Shift => Err(impossible()),
    }
}

/// A pointer from which an integer or a pointer is subtracted (C11 6.5.6p8, p9).
fn lessened(
    alloc: Global,
    pairing: Pairing,
    meeting: Option<Meeting>,
    pair: Pair,
    t: &mut Types,
) -> Result<TypedExp, LayoutStop>
    ensures { AreThere t.old.nodes pairing → IfOk result (λ v. IfSome (lessened_shape t.old.abi (seen_pair t.old.nodes pairing)) (λ s. IsOf t.new s v)) }
{
    match pairing {
        Pairing::Pointers(..) => subtracted(alloc, meeting, pair, t),
        Pairing::PointerNumber(_)
        | Pairing::Numbers(..)
        | Pairing::NumberPointer(_)
        | Pairing::Others => moved(alloc, BinOp::Sub, pairing, pair, t),
    }
}

/// A comparison of pointers in the type at which they meet: an int (C11 6.5.8p5, p6, 6.5.9p3, p5).
#[tactic(auto, using(crate::proofs::BuiltTypes::shape_built))]
fn pointers_compared(
    alloc: Global,
    op: BinOp,
    meeting: Option<Meeting>,
    pair: Pair,
    t: &mut Types,
) -> Result<TypedExp, LayoutStop>
    ensures { IfOk result (IsOf t.new (IntType Int)) }
{
    let at = met(meeting, t)?;
    let int = t.int(IntKind::Int)?;
    let Pair { left, right } = both_converted(alloc, at, pair, t)?;
    Ok(typed_tree::binary(alloc, int, op, left, right)?)
}

/// The type at which pointers meet.
fn met(meeting: Option<Meeting>, t: &mut Types) -> Result<TypeId, LayoutStop> {
    match meeting {
        Some(m) => meeting_type(m, t),
        None => Err(impossible()),
    }
}

/// The difference of two pointers: a `ptrdiff_t` (C11 6.5.6p9).
#[tactic(auto, using(crate::proofs::BuiltTypes::shape_built))]
fn subtracted(
    alloc: Global,
    meeting: Option<Meeting>,
    pair: Pair,
    t: &mut Types,
) -> Result<TypedExp, LayoutStop>
    ensures { IfOk result (IsOf t.new (IntType (long_of t.old.abi))) }
{
    let long = t.graph().abi().long();
    let at = met(meeting, t)?;
    let of = t.int(long)?;
    let Pair { left, right } = both_converted(alloc, at, pair, t)?;
    Ok(typed_tree::binary(alloc, of, BinOp::Sub, left, right)?)
}

/// The type of the pointer of a sum or a difference with an integer.
fn moved_type(pairing: Pairing, t: &mut Types) -> Result<TypeId, LayoutStop>
    ensures { IfOk result (λ of. IfSome (moved_shape (seen_pair t.old.nodes pairing)) (λ s. shape t.new.nodes of.0 ≡ s)) }
{
    match pairing {
        Pairing::PointerNumber(p) => t.pointer(p),
        Pairing::NumberPointer(q) => t.pointer(q),
        Pairing::Numbers(..) | Pairing::Pointers(..) | Pairing::Others => Err(impossible()),
    }
}

/// A pointer and an integer, which is promoted: the pointer gives the type (C11 6.5.6p8).
#[tactic(auto, using(crate::proofs::BuiltTypes::shape_built, crate::proofs::Extending::pair_there, crate::proofs::Extending::pair_stays))]
fn moved(
    alloc: Global,
    op: BinOp,
    pairing: Pairing,
    pair: Pair,
    t: &mut Types,
) -> Result<TypedExp, LayoutStop>
    ensures { AreThere t.old.nodes pairing → IfOk result (λ v. IfSome (moved_shape (seen_pair t.old.nodes pairing)) (λ s. IsOf t.new s v)) }
{
    let Pair { left, right } = indexed(alloc, pairing, pair, t)?;
    let of = moved_type(pairing, t)?;
    Ok(typed_tree::binary(alloc, of, op, left, right)?)
}

/// A pointer and an integer, in either order: the integer is promoted.
pub(crate) fn indexed(
    alloc: Global,
    pairing: Pairing,
    pair: Pair,
    t: &mut Types,
) -> Result<Pair, LayoutStop>
    ensures { OnOk result (Extends t.old t.new) }
{
    let Pair { left, right } = pair;
    match pairing {
        Pairing::PointerNumber(_) => {
            let right = promoted(alloc, right, t)?;
            Ok(Pair { left, right })
        }
        Pairing::NumberPointer(_) => {
            let left = promoted(alloc, left, t)?;
            Ok(Pair { left, right })
        }
        Pairing::Numbers(..) | Pairing::Pointers(..) | Pairing::Others => Err(impossible()),
    }
}

/// The first constraint that `&&` or `||` violates, if there is one (C11 6.5.13p2, 6.5.14p2).
fn fault_logical(a: &Operand, b: &Operand, t: &Types) -> Option<Code>
    ensures { result ≡ logical_row t.now (shape t.now.nodes a.now.exp.ty.of.0) (shape t.now.nodes b.now.exp.ty.of.0) }
{
    if is_unreadable(a, t) || is_unreadable(b, t) {
        Some(Code::Incomplete)
    } else if !gives_scalar(t, a.exp.ty().of) || !gives_scalar(t, b.exp.ty().of) {
        Some(Code::Operand)
    } else {
        None
    }
}

/// `a && b` and `a || b` (C11 6.5.13, 6.5.14).
pub fn logical(
    alloc: Global,
    op: Logic,
    a: Operand,
    b: Operand,
    t: &mut Types,
) -> Result<TypedExp, RuleStop>
    ensures is { IfOk result (IsOf t.new (IntType Int)) }
    ensures refused { Refuses (logical_row t.old (shape t.old.nodes a.exp.ty.of.0) (shape t.old.nodes b.exp.ty.of.0)) result }
{
    allowed(fault_logical(&a, &b, t))?;
    made(logical_node(alloc, op, a.exp, b.exp, t))
}

/// The node of `a && b` and `a || b`.
fn logical_node(
    alloc: Global,
    op: Logic,
    a: TypedExp,
    b: TypedExp,
    t: &mut Types,
) -> Result<TypedExp, LayoutStop>
    ensures { IfOk result (IsOf t.new (IntType Int)) }
{
    let pair = both_values(alloc, a, b, t)?;
    joined(alloc, op, pair, t)
}

/// Two values with `&&` or `||` between them: an int (C11 6.5.13p3, 6.5.14p3).
#[tactic(auto, using(crate::proofs::BuiltTypes::shape_built))]
fn joined(alloc: Global, op: Logic, pair: Pair, t: &mut Types) -> Result<TypedExp, LayoutStop>
    ensures { IfOk result (λ v. shape t.new.nodes v.ty.of.0 ≡ IntType Int) }
{
    let Pair { left, right } = pair;
    let of = t.int(truth_kind())?;
    Ok(typed_tree::logical(alloc, of, op, left, right)?)
}
