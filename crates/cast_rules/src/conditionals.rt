ghost use Rattle.std.specs.Prelude.{◌≡◌, List, is_some};
ghost use Rattle.std.specs.Option.{option_map};
ghost use Rattle.type_graph.specs.declared.nodes.Node.{Node};
ghost use Rattle.type_graph.specs.Shapes.{shape};
ghost use Rattle.cast_rules.specs.Exact.{Refuses};
ghost use Rattle.cast_rules.specs.Joined.{joined_in};
ghost use Rattle.cast_rules.specs.Pairs.{branch_shape, conditional_row, is_one_type, others_shape};
ghost use Rattle.cast_rules.specs.Rows.{comma_row, switch_row, test_row};
ghost use Rattle.cast_rules.specs.Seen.{seen};

use crate::arithmetic::is_one_unreadable;
use crate::conversions::{Pair, both_converted, both_values, promoted_value, value_of};
use crate::operands::{Operand, Sort, gives_scalar, is_arithmetic, is_unreadable, operand_sort};
use crate::pairings::{Meeting, Pairing, meeting_of, meeting_type, paired};
use crate::stops::{allowed, impossible, made};
use cil_base::{Code, IntKind, Memory, RuleStop, TypeId};
use layout_lp64::LayoutStop;
use std::alloc::Global;
use typed_tree::{Branches, TypedExp};
use unit_types::Types;

/// The type that the second and third operands of a conditional give (C11 6.5.15p3, p5, p6).
#[derive(Clone, Copy)]
enum Joining {
    /// The common type of two numbers.
    Numbers(IntKind),
    /// One struct or union type, or `void`.
    Same(TypeId),
    /// Where two pointers meet.
    Pointers(Meeting),
}

/// Whether two values are void, or of one struct or union type (C11 6.5.15p3).
fn is_one_type(a: Sort, b: Sort) -> bool
    ensures { (nodes : List Node) → result ≡ is_one_type (seen nodes a) (seen nodes b) }
{
    match (a, b) {
        (Sort::Void, Sort::Void) => true,
        (Sort::Record(x), Sort::Record(y)) => x.0 == y.0,
        _ => false,
    }
}

/// What two operands give that are not both numbers.
fn others_join(a: &Operand, b: &Operand, t: &Types) -> Option<Joining>
    ensures { option_map (joined_in t.now.nodes) result ≡ others_shape t.now a.now b.now }
{
    if is_one_type(operand_sort(a, t), operand_sort(b, t)) {
        return Some(Joining::Same(a.exp.ty().of));
    }
    match meeting_of(a, b, t) {
        Some(m) => Some(Joining::Pointers(m)),
        None => None,
    }
}

/// What the second and third operands of a conditional give, if they meet its constraint (C11 6.5.15p3).
fn joining_of(a: &Operand, b: &Operand, t: &Types) -> Option<Joining>
    ensures { option_map (joined_in t.now.nodes) result ≡ branch_shape t.now a.now b.now }
{
    match paired(a, b, t) {
        Pairing::Numbers(x, y) => Some(Joining::Numbers(x.common(y))),
        Pairing::PointerNumber(_)
        | Pairing::NumberPointer(_)
        | Pairing::Pointers(..)
        | Pairing::Others => others_join(a, b, t),
    }
}

/// Whether the second and third operands of a conditional meet its constraint (C11 6.5.15p3).
fn are_joined(a: &Operand, b: &Operand, t: &Types) -> bool
    ensures { result ≡ is_some (branch_shape t.now a.now b.now) }
{
    match joining_of(a, b, t) {
        Some(_) => true,
        None => false,
    }
}

/// The first constraint that a conditional violates, if there is one (C11 6.5.15p2, p3).
fn fault_conditional(c: &Operand, a: &Operand, b: &Operand, t: &Types) -> Option<Code>
    ensures { result ≡ conditional_row t.now c.now a.now b.now }
{
    if is_unreadable(c, t) || is_one_unreadable(a, b, t) {
        Some(Code::Incomplete)
    } else if !gives_scalar(t, c.exp.ty().of) || !are_joined(a, b, t) {
        Some(Code::Operand)
    } else {
        None
    }
}

/// The type of a conditional.
fn joined_type(j: Option<Joining>, t: &mut Types) -> Result<TypeId, LayoutStop> {
    match j {
        Some(Joining::Numbers(kind)) => t.int(kind),
        Some(Joining::Same(of)) => Ok(of),
        Some(Joining::Pointers(m)) => meeting_type(m, t),
        None => Err(impossible()),
    }
}

/// The second and third operands of a conditional, converted to its type.
fn branches(
    alloc: Global,
    of: TypeId,
    a: TypedExp,
    b: TypedExp,
    t: &mut Types,
) -> Result<Box<Branches>, LayoutStop> {
    let pair = both_values(alloc, a, b, t)?;
    let Pair { left, right } = both_converted(alloc, of, pair, t)?;
    let branches = Branches {
        holds: left,
        fails: right,
    };
    Ok(boxed(alloc, branches)?)
}

/// Branches in a box.
fn boxed(alloc: Global, branches: Branches) -> Result<Box<Branches>, Memory> {
    Ok(Box::new(alloc, branches)?)
}

/// `c ? a : b` (C11 6.5.15).
pub fn conditional(
    alloc: Global,
    c: Operand,
    a: Operand,
    b: Operand,
    t: &mut Types,
) -> Result<TypedExp, RuleStop>
    ensures { Refuses (conditional_row t.old c a b) result }
{
    allowed(fault_conditional(&c, &a, &b, t))?;
    let joining = joining_of(&a, &b, t);
    let of = made(joined_type(joining, t))?;
    let branches = made(branches(alloc, of, a.exp, b.exp, t))?;
    made(conditional_node(alloc, of, c.exp, branches, t))
}

/// The node of a conditional of a type.
fn conditional_node(
    alloc: Global,
    of: TypeId,
    test: TypedExp,
    branches: Box<Branches>,
    t: &mut Types,
) -> Result<TypedExp, LayoutStop> {
    let test = value_of(alloc, test, t)?;
    Ok(typed_tree::conditional(alloc, of, test, branches)?)
}

/// The first constraint that a comma violates, if there is one.
fn fault_comma(a: &Operand, b: &Operand, t: &Types) -> Option<Code>
    ensures { result ≡ comma_row t.now (shape t.now.nodes a.now.exp.ty.of.0) (shape t.now.nodes b.now.exp.ty.of.0) }
{
    if is_unreadable(a, t) || is_unreadable(b, t) {
        Some(Code::Incomplete)
    } else {
        None
    }
}

/// `a , b` (C11 6.5.17).
pub fn comma(alloc: Global, a: Operand, b: Operand, t: &mut Types) -> Result<TypedExp, RuleStop>
    ensures { Refuses (comma_row t.old (shape t.old.nodes a.exp.ty.of.0) (shape t.old.nodes b.exp.ty.of.0)) result }
{
    allowed(fault_comma(&a, &b, t))?;
    made(comma_node(alloc, a.exp, b.exp, t))
}

/// The node of a comma.
fn comma_node(
    alloc: Global,
    a: TypedExp,
    b: TypedExp,
    t: &mut Types,
) -> Result<TypedExp, LayoutStop> {
    let Pair { left, right } = both_values(alloc, a, b, t)?;
    Ok(typed_tree::comma(alloc, left, right)?)
}

/// The first constraint that the controlling expression of an `if` or a loop violates, if there is one.
fn fault_test(e: &Operand, t: &Types) -> Option<Code>
    ensures { result ≡ test_row t.now (shape t.now.nodes e.now.exp.ty.of.0) }
{
    if is_unreadable(e, t) {
        Some(Code::Incomplete)
    } else if !gives_scalar(t, e.exp.ty().of) {
        Some(Code::Condition)
    } else {
        None
    }
}

/// The value of the controlling expression of an `if` or a loop (C11 6.8.4.1p1, 6.8.5p2).
pub fn scalar_test(alloc: Global, e: Operand, t: &mut Types) -> Result<TypedExp, RuleStop>
    ensures { Refuses (test_row t.old (shape t.old.nodes e.exp.ty.of.0)) result }
{
    allowed(fault_test(&e, t))?;
    made(value_of(alloc, e.exp, t))
}

/// The first constraint that the controlling expression of a `switch` violates, if there is one.
fn fault_switch(e: &Operand, t: &Types) -> Option<Code>
    ensures { result ≡ switch_row t.now (shape t.now.nodes e.now.exp.ty.of.0) }
{
    if is_unreadable(e, t) {
        Some(Code::Incomplete)
    } else if !is_arithmetic(t, e.exp.ty().of) {
        Some(Code::Condition)
    } else {
        None
    }
}

/// The promoted value of the controlling expression of a `switch` (C11 6.8.4.2p1, p5).
pub fn switch_value(alloc: Global, e: Operand, t: &mut Types) -> Result<TypedExp, RuleStop>
    ensures { Refuses (switch_row t.old (shape t.old.nodes e.exp.ty.of.0)) result }
{
    allowed(fault_switch(&e, t))?;
    made(promoted_value(alloc, e.exp, t))
}
