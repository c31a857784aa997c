ghost use Rattle.std.specs.Prelude.{◌≡◌, None, List, IfOk, IfSome};
ghost use Rattle.type_graph.specs.declared.nodes.Node.{Node};
ghost use Rattle.std.specs.Option.{option_map};
ghost use Rattle.type_graph.specs.declared.nodes.QualType.{QualType};
ghost use Rattle.type_graph.specs.Shapes.{PtrType, shape};
ghost use Rattle.typed_tree.specs.Places.{is_place};
ghost use Rattle.typed_tree.specs.View.{typed_of};
ghost use Rattle.cast_rules.specs.Exact.{Refuses};
ghost use Rattle.cast_rules.specs.Rows.{address_row, indirect_row};
ghost use Rattle.cast_rules.specs.Given.{IsOf, element_shape, pointee_shape};
ghost use Rattle.cast_rules.specs.Pairs.{is_subscript, subscript_row};
ghost use Rattle.cast_rules.specs.Seen.{seen_pair, AreThere};
ghost use Rattle.cast_rules.specs.Values.{pair_of};

use crate::arithmetic::{adds_over_incomplete, indexed, is_one_unreadable};
use crate::conversions::{Pair, both_values, value_of};
use crate::operands::{Operand, gives_pointer, is_object, is_unreadable};
use crate::pairings::{Pairing, paired};
use crate::stops::{allowed, impossible, made};
use cil_base::{AggId, Code, RuleStop};
use layout_lp64::LayoutStop;
use std::alloc::Global;
use type_graph::{Member, QualType, unqualified};
use typed_tree::TypedExp;
use unit_types::{Class, Types, joined};

/// The first constraint that the address of an operand violates, if there is one (C11 6.5.3.2p1).
fn fault_address(e: &Operand) -> Option<Code>
    ensures { (nodes : List Node) → result ≡ address_row (is_place (typed_of nodes e.now.exp)) e.now.register }
{
    if !e.exp.is_place() {
        Some(Code::NotLvalue)
    } else if e.register {
        Some(Code::Register)
    } else {
        None
    }
}

/// `& e` (C11 6.5.3.2), of an lvalue, a function, or what `*` gives.
pub fn address(alloc: Global, e: Operand, t: &mut Types) -> Result<TypedExp, RuleStop>
    ensures is { IfOk result (IsOf t.new (PtrType e.exp.ty.quals (shape t.old.nodes e.exp.ty.of.0))) }
    ensures refused { Refuses (address_row (is_place (typed_of t.old.nodes e.exp)) e.register) result }
{
    allowed(fault_address(&e))?;
    made(address_node(alloc, e.exp, t))
}

/// The node of an address.
#[tactic(auto, using(crate::proofs::BuiltTypes::shape_built))]
fn address_node(alloc: Global, e: TypedExp, t: &mut Types) -> Result<TypedExp, LayoutStop>
    ensures { IfOk result (IsOf t.new (PtrType e.ty.quals (shape t.old.nodes e.ty.of.0))) }
{
    let pointer = t.pointer(e.ty())?;
    Ok(typed_tree::address(alloc, pointer, e)?)
}

/// The first constraint that an indirection violates, if there is one (C11 6.5.3.2p2).
fn fault_indirect(e: &Operand, t: &Types) -> Option<Code>
    ensures { result ≡ indirect_row t.now (shape t.now.nodes e.now.exp.ty.of.0) }
{
    if is_unreadable(e, t) {
        Some(Code::Incomplete)
    } else if !gives_pointer(t, e.exp.ty().of) {
        Some(Code::Operand)
    } else {
        None
    }
}

/// `* e` (C11 6.5.3.2): an lvalue, a function, or a void expression.
pub fn indirect(alloc: Global, e: Operand, t: &mut Types) -> Result<TypedExp, RuleStop>
    ensures is { IfOk result (λ v. IfSome (pointee_shape (shape t.old.nodes e.exp.ty.of.0)) (λ s. IsOf t.new s v)) }
    ensures refused { Refuses (indirect_row t.old (shape t.old.nodes e.exp.ty.of.0)) result }
{
    allowed(fault_indirect(&e, t))?;
    made(indirect_node(alloc, e.exp, t))
}

/// The node of an indirection.
#[tactic(auto, using(crate::proofs::BuiltTypes::shape_built, crate::proofs::Pointees::pointee_told))]
fn indirect_node(alloc: Global, e: TypedExp, t: &mut Types) -> Result<TypedExp, LayoutStop>
    ensures { IfOk result (λ v. IfSome (pointee_shape (shape t.old.nodes e.ty.of.0)) (λ s. IsOf t.new s v)) }
{
    let e = value_of(alloc, e, t)?;
    match t.class(e.ty().of) {
        Class::Ptr(to) => Ok(typed_tree::indirect(alloc, to, e)?),
        Class::Void | Class::Int(_) | Class::Array(..) | Class::Func { .. } | Class::Agg(..) => Err(
            impossible(),
        ),
    }
}

/// The pointer's type and the integer of a subscript, in either order.
fn element(pairing: Pairing) -> Option<QualType>
    ensures { (nodes : List Node) → option_map (λ (q : QualType). shape nodes q.of.0) result ≡ element_shape (seen_pair nodes pairing) }
{
    match pairing {
        Pairing::PointerNumber(p) => Some(p),
        Pairing::NumberPointer(q) => Some(q),
        Pairing::Numbers(..) | Pairing::Pointers(..) | Pairing::Others => None,
    }
}

/// Whether one of two operands is a pointer to an object and the other an integer (C11 6.5.2.1p1).
fn is_subscript(pairing: Pairing, t: &Types) -> bool
    ensures { result ≡ is_subscript (seen_pair t.now.nodes pairing) }
{
    match pairing {
        Pairing::PointerNumber(p) => is_object(t, p.of),
        Pairing::NumberPointer(q) => is_object(t, q.of),
        Pairing::Numbers(..) | Pairing::Pointers(..) | Pairing::Others => false,
    }
}

/// The first constraint that a subscript violates, if there is one.
fn fault_subscript(a: &Operand, b: &Operand, t: &Types) -> Option<Code>
    ensures { result ≡ subscript_row t.now a.now b.now }
{
    let pairing = paired(a, b, t);
    if is_one_unreadable(a, b, t) || adds_over_incomplete(pairing, t) {
        Some(Code::Incomplete)
    } else if !is_subscript(pairing, t) {
        Some(Code::Operand)
    } else {
        None
    }
}

/// `left [ right ]` (C11 6.5.2.1): a pointer and an integer in either order, which is promoted.
pub fn subscript(
    alloc: Global,
    left: Operand,
    right: Operand,
    t: &mut Types,
) -> Result<TypedExp, RuleStop>
    ensures is { IfOk result (λ v. IfSome (element_shape (pair_of t.old left right)) (λ s. IsOf t.new s v)) }
    ensures refused { Refuses (subscript_row t.old left right) result }
{
    allowed(fault_subscript(&left, &right, t))?;
    let pairing = paired(&left, &right, t);
    made(subscript_node(alloc, pairing, left.exp, right.exp, t))
}

/// The node of a subscript.
fn subscript_node(
    alloc: Global,
    pairing: Pairing,
    left: TypedExp,
    right: TypedExp,
    t: &mut Types,
) -> Result<TypedExp, LayoutStop>
    ensures { AreThere t.old.nodes pairing → IfOk result (λ v. IfSome (element_shape (seen_pair t.old.nodes pairing)) (λ s. IsOf t.new s v)) }
{
    let Some(ty) = element(pairing) else {
        return Err(impossible());
    };
    let pair = both_values(alloc, left, right, t)?;
    let Pair { left, right } = indexed(alloc, pairing, pair, t)?;
    Ok(typed_tree::subscript(alloc, ty, left, right)?)
}

/// The type of a member: that of an lvalue has the qualifiers of its struct or union too (C11 6.5.2.3p3), that of a value none.
fn member_type(e: &TypedExp, m: Member, t: &mut Types) -> Result<QualType, LayoutStop> {
    if e.is_place() {
        t.qualified(joined(e.ty().quals, m.ty.quals), m.ty.of)
    } else {
        Ok(unqualified(m.ty.of))
    }
}

/// `e . member` (C11 6.5.2.3), where e has the aggregate and the aggregate has a member of that number: the member of an lvalue is
/// one, that of a value is a value.
pub fn member(
    alloc: Global,
    e: Operand,
    a: AggId,
    index: u32,
    t: &mut Types,
) -> Result<TypedExp, RuleStop>
    ensures { Refuses None result }
{
    made(member_node(alloc, e.exp, a, index, t))
}

/// The node of a member.
fn member_node(
    alloc: Global,
    e: TypedExp,
    a: AggId,
    index: u32,
    t: &mut Types,
) -> Result<TypedExp, LayoutStop> {
    let Some(m) = t.member(a, index as usize) else {
        return Err(impossible());
    };
    let ty = member_type(&e, m, t)?;
    Ok(typed_tree::member(alloc, ty, e, a, index)?)
}
