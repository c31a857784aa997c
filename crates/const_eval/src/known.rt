ghost use Rattle.std.specs.Prelude.{◌≡◌, ◌<◌, ◌^◌, ◌*ℤ◌, false, if◌then◌else◌, ℤ, pos, neg_ℤ, unsigned_abs, Option, Some, None, IfSome};
ghost use Rattle.std.specs.Option.{option_map};
ghost use Rattle.cil_base.specs.Integer.{IsOf, wrapped};
ghost use Rattle.cil_base.specs.Arithmetic.{is_shift};
ghost use Rattle.type_graph.specs.Shapes.{shape};
ghost use Rattle.const_eval.specs.declared.known.Known.TheVariants.{Integer};
ghost use Rattle.const_eval.specs.Values.{constant_of, kind_in, integer_in, entity_in, told_as_int, truth_of, decided_by, to_integer, to_pointer, converted_in, unary_in, binary_in, computed_of, binary_kind, pointee_in, sum_of, difference_of, member_at, moved_by, IsKnown};

use cil_base::{BinOp, Constant, EntityId, IntKind, OBJECT_BYTES, TypeId, UnOp, arith, wrap};
use type_graph::AggKind;
use typed_tree::Logic;
use unit_types::{Class, Types};

/// A part of an object with static storage duration (C11 6.6p9), or its end: the object, the offset in bytes, and the object's size.
#[derive(Clone, Copy)]
pub(crate) struct Spot {
    entity: EntityId,
    offset: u32,
    size: u32,
}

/// A value that is known during translation (C11 6.6p2, p7).
#[derive(Clone, Copy)]
pub(crate) enum Known {
    /// A value of an integer type.
    Integer(IntKind, i128),
    /// An integer that was converted to a pointer type (6.3.2.3p5): null where it is zero.
    Number(i128),
    /// The address of an object with static storage duration, or of a part of it.
    Address(Spot),
    /// The address of a function.
    Function(EntityId),
}

/// The constant of a value. A number of pointer type is one of the unsigned kind of a pointer's size.
pub(crate) fn constant(t: &Types, known: Known) -> Constant
    ensures { result ≡ constant_of t.now.abi known }
{
    match known {
        Known::Integer(kind, n) => Constant::Int(kind, n),
        Known::Number(n) => Constant::Int(t.graph().abi().ulong(), n),
        Known::Address(spot) => Constant::Address(spot.entity, i64::from(spot.offset)),
        Known::Function(n) => Constant::Function(n),
    }
}

/// The kind of an integer type. Every enum has that of int (own).
pub(crate) fn kind_of(t: &Types, of: TypeId) -> Option<IntKind>
    ensures { result ≡ kind_in t.now (shape t.now.nodes of.0) }
{
    match t.class(of) {
        Class::Int(kind) => Some(kind),
        Class::Agg(AggKind::Enum, _) => Some(IntKind::Int),
        Class::Agg(AggKind::Struct | AggKind::Union, _) => None,
        Class::Void | Class::Ptr(_) | Class::Array(..) | Class::Func { .. } => None,
    }
}

/// A constant of an integer type.
pub(crate) fn integer(t: &Types, of: TypeId, n: i128) -> Option<Known>
    ensures told { result ≡ integer_in t.now (shape t.now.nodes of.0) n }
    ensures known { IfSome result IsKnown }
{
    let kind = kind_of(t, of)?;
    if kind.fits(n) {
        Some(Known::Integer(kind, n))
    } else {
        None
    }
}

/// 1 or 0, as int (C11 6.5.3.3p5, 6.5.8p6, 6.5.13p3).
pub(crate) fn told(holds: bool) -> Known
    ensures told { result ≡ told_as_int holds }
    ensures known { IsKnown result }
{
    Known::Integer(IntKind::Int, if holds { 1 } else { 0 })
}

/// Whether an integer differs from zero. Of a pointer it is not known.
pub(crate) fn truth(known: Known) -> Option<bool>
    ensures { result ≡ truth_of known }
{
    match known {
        Known::Integer(_, n) => Some(n != 0),
        Known::Number(_) | Known::Address(_) | Known::Function(_) => None,
    }
}

/// What a first operand decides alone (C11 6.5.13p4, 6.5.14p4).
pub(crate) fn decided(op: Logic, holds: bool) -> Option<bool>
    ensures { result ≡ decided_by op holds }
{
    match op {
        Logic::And => if holds { None } else { Some(false) },
        Logic::Or => if holds { Some(true) } else { None },
    }
}

/// The object or function that an entity is, at the type that is visible.
pub(crate) fn entity(t: &Types, of: TypeId, n: EntityId) -> Known
    ensures told { result ≡ entity_in t.now (shape t.now.nodes of.0) n }
    ensures known { IsKnown result }
{
    match t.class(of) {
        Class::Func { .. } => Known::Function(n),
        Class::Void | Class::Int(_) | Class::Ptr(_) | Class::Array(..) | Class::Agg(..) => {
            Known::Address(Spot {
                entity: n,
                offset: 0,
                size: t.size(of).unwrap_or(OBJECT_BYTES),
            })
        }
    }
}

/// A value converted to a type (C11 6.3.1.2, 6.3.1.3, 6.3.2.3). No pointer is converted to an integer.
pub(crate) fn converted(t: &Types, to: TypeId, known: Known) -> Option<Known>
    ensures told { result ≡ converted_in t.now (shape t.now.nodes to.0) known }
    ensures known { IfSome result IsKnown }
{
    match kind_of(t, to) {
        Some(kind) => to_integer(kind, known),
        None => match t.class(to) {
            Class::Ptr(_) => Some(to_pointer(t, known)),
            Class::Void | Class::Int(_) | Class::Array(..) | Class::Func { .. } | Class::Agg(..) =>
                { None }
        },
    }
}

fn to_integer(kind: IntKind, known: Known) -> Option<Known>
    ensures told { result ≡ to_integer kind known }
    ensures known { IfSome result IsKnown }
{
    match known {
        Known::Integer(_, n) => Some(Known::Integer(kind, wrap(kind, n))),
        Known::Number(_) | Known::Address(_) | Known::Function(_) => None,
    }
}

fn to_pointer(t: &Types, known: Known) -> Known
    ensures told { result ≡ to_pointer t.now.abi known }
    ensures known { IsKnown result }
{
    match known {
        Known::Integer(_, n) => Known::Number(wrap(t.graph().abi().ulong(), n)),
        Known::Number(_) | Known::Address(_) | Known::Function(_) => known,
    }
}

/// A unary operator on an integer (C11 6.5.3.3).
pub(crate) fn unary(op: UnOp, known: Known) -> Option<Known>
    requires { IsKnown known }
    ensures told { result ≡ unary_in op known }
    ensures known { IfSome result IsKnown }
{
    match known {
        Known::Integer(kind, n) => of_integer(op, kind, n),
        Known::Number(_) | Known::Address(_) | Known::Function(_) => None,
    }
}

fn of_integer(op: UnOp, kind: IntKind, n: i128) -> Option<Known>
    requires { IsOf kind n }
    ensures told { result ≡ unary_in op (Integer kind n) }
    ensures known { IfSome result IsKnown }
{
    match op {
        UnOp::Neg => of_kind(kind, arith(BinOp::Sub, kind, 0, n)),
        UnOp::Compl => Some(Known::Integer(kind, wrap(kind, -1 - n))),
        UnOp::Not => Some(told(n == 0)),
    }
}

fn of_kind(kind: IntKind, n: Option<i128>) -> Option<Known>
    requires { IfSome n (IsOf kind) }
    ensures told { result ≡ option_map (Integer kind) n }
    ensures known { IfSome result IsKnown }
{
    match n {
        Some(n) => Some(Known::Integer(kind, n)),
        None => None,
    }
}

/// A binary operator (C11 6.5.5 to 6.5.12) whose result has a type: on integers, or an address and an integer.
pub(crate) fn binary(t: &Types, of: TypeId, op: BinOp, left: Known, right: Known) -> Option<Known>
    requires left { IsKnown left }
    requires right { IsKnown right }
    ensures told { result ≡ binary_in t.now (shape t.now.nodes of.0) op left right }
    ensures known { IfSome result IsKnown }
{
    match (left, right) {
        (Known::Integer(kind, a), Known::Integer(_, b)) => computed(op, kind, a, b),
        _ => match op {
            BinOp::Add => sum(left, right, pointee(t, of)?),
            BinOp::Sub => difference(left, right, pointee(t, of)?),
            _ => None,
        },
    }
}

/// A binary operator on integers of one kind, but for the right operand of a shift.
fn computed(op: BinOp, kind: IntKind, a: i128, b: i128) -> Option<Known>
    requires { IsOf kind a }
    ensures told { result ≡ computed_of op kind a b }
    ensures known { IfSome result IsKnown }
{
    of_kind(
        result_kind(op, kind),
        arith(op, kind, a, right_operand(op, kind, b)),
    )
}

/// The kind of what an operator gives of integers of a kind.
fn result_kind(op: BinOp, kind: IntKind) -> IntKind
    ensures { result ≡ binary_kind op kind }
{
    match op {
        BinOp::Lt | BinOp::Gt | BinOp::Le | BinOp::Ge | BinOp::Eq | BinOp::Ne => IntKind::Int,
        BinOp::Mul
        | BinOp::Div
        | BinOp::Rem
        | BinOp::Add
        | BinOp::Sub
        | BinOp::Shl
        | BinOp::Shr
        | BinOp::And
        | BinOp::Xor
        | BinOp::Or => kind,
    }
}

/// The right operand in the kind of the left one; that of a shift keeps its own (C11 6.5.7p3).
fn right_operand(op: BinOp, kind: IntKind, b: i128) -> i128
    ensures told { result ≡ (if is_shift op then b else wrapped kind b) }
    ensures value { is_shift op ≡ false → IsOf kind result }
{
    if op == BinOp::Shl || op == BinOp::Shr {
        b
    } else {
        wrap(kind, b)
    }
}

/// The size of what a pointer points to.
fn pointee(t: &Types, of: TypeId) -> Option<u32>
    ensures { result ≡ pointee_in t.now (shape t.now.nodes of.0) }
{
    match t.class(of) {
        Class::Ptr(to) => t.size(to.of),
        Class::Void | Class::Int(_) | Class::Array(..) | Class::Func { .. } | Class::Agg(..) =>
            None,
    }
}

/// The sum of an address and an integer, in either order, in steps of a size (C11 6.5.6p8).
pub(crate) fn sum(left: Known, right: Known, size: u32) -> Option<Known>
    requires left { IsKnown left }
    requires right { IsKnown right }
    ensures told { result ≡ sum_of left right size }
    ensures known { IfSome result IsKnown }
{
    match (left, right) {
        (Known::Address(spot), Known::Integer(kind, n)) => moved(spot, bytes(kind, n, size)),
        (Known::Integer(kind, n), Known::Address(spot)) => moved(spot, bytes(kind, n, size)),
        _ => None,
    }
}

/// The difference of an address and an integer, in steps of a size (C11 6.5.6p8).
fn difference(left: Known, right: Known, size: u32) -> Option<Known>
    requires right { IsKnown right }
    ensures told { result ≡ difference_of left right size }
    ensures known { IfSome result IsKnown }
{
    match (left, right) {
        (Known::Address(spot), Known::Integer(kind, n)) => {
            moved(spot, negated(bytes(kind, n, size)))
        }
        _ => None,
    }
}

/// The bytes of so many steps of a size.
fn bytes(kind: IntKind, n: i128, size: u32) -> i128
    requires { IsOf kind n }
    ensures told { result ≡ n *ℤ pos size }
    ensures bound { unsigned_abs result < 2 ^ 97 }
{
    product(n, size)
}

fn product(n: i128, size: u32) -> i128
    requires { unsigned_abs n < 2 ^ 64 }
    ensures told { result ≡ n *ℤ pos size }
    ensures bound { unsigned_abs result < 2 ^ 97 }
{
    n * i128::from(size)
}

fn negated(by: i128) -> i128
    requires { unsigned_abs by < 2 ^ 97 }
    ensures told { result ≡ neg_ℤ by }
    ensures bound { unsigned_abs result < 2 ^ 97 }
{
    -by
}

/// A member of a struct or union at an address (C11 6.5.2.3p3).
pub(crate) fn member(t: &Types, of: TypeId, i: u32, known: Known) -> Option<Known>
    ensures told { result ≡ member_at t.now (shape t.now.nodes of.0) i known }
    ensures known { IfSome result IsKnown }
{
    match known {
        Known::Address(spot) => moved(spot, i128::from(t.offset(of, i)?)),
        Known::Integer(..) | Known::Number(_) | Known::Function(_) => None,
    }
}

/// An address that is some bytes away: in the same object, or at its end (C11 6.5.6p8).
fn moved(spot: Spot, by: i128) -> Option<Known>
    requires { unsigned_abs by < 2 ^ 97 }
    ensures told { result ≡ moved_by spot by }
    ensures known { IfSome result IsKnown }
{
    let offset = i128::from(spot.offset) + by;
    if 0 <= offset && offset <= i128::from(spot.size) {
        Some(Known::Address(Spot {
            offset: offset as u32,
            ..spot
        }))
    } else {
        None
    }
}
