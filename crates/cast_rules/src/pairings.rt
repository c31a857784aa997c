ghost use Rattle.std.specs.Prelude.{◌≡◌, ◌<◌, List, length};
ghost use Rattle.std.specs.Option.{option_map};
ghost use Rattle.type_graph.specs.declared.nodes.Node.{Node};
ghost use Rattle.type_graph.specs.Shapes.{shape};
ghost use Rattle.cast_rules.specs.Meetings.{meet_in_void, meeting_of, pointers_meet};
ghost use Rattle.cast_rules.specs.Seen.{seen, seen_pair, IsThere, AreThere, met};
ghost use Rattle.cast_rules.specs.Values.{number_with, pair_of, paired, pointer_with};

use crate::operands::{Operand, Sort, is_object, is_void, operand_sort};
use cil_base::{IntKind, TypeId};
use layout_lp64::LayoutStop;
use type_graph::{QualType, Quals};
use unit_types::{Class, Types, joined};

/// What two operands are together.
#[derive(Clone, Copy)]
pub(crate) enum Pairing {
    /// Both have arithmetic type.
    Numbers(IntKind, IntKind),
    /// A pointer, and an integer to its right.
    PointerNumber(QualType),
    /// An integer, and a pointer to its right.
    NumberPointer(QualType),
    Pointers(QualType, QualType),
    /// One of them has no scalar type.
    Others,
}

/// The type to which two pointers, or a pointer and a null pointer constant, are brought (C11 6.5.9p2, p5, 6.5.15p6).
#[derive(Clone, Copy)]
pub(crate) enum Meeting {
    /// A pointer to the composite of these types, with the qualifiers of both.
    Composite(QualType, QualType),
    /// A pointer to this type: the other operand is a null pointer constant.
    Pointer(QualType),
    /// A pointer to `void`, with these qualifiers.
    Void(Quals),
}

/// What a pointer and another value are together.
fn paired_with_pointer(p: QualType, b: Sort) -> Pairing
    ensures is { (nodes : List Node) → seen_pair nodes result ≡ pointer_with p.quals (shape nodes p.of.0) (seen nodes b) }
    ensures there { (nodes : List Node) → p.of.0 < length nodes → IsThere nodes b → AreThere nodes result }
{
    match b {
        Sort::Pointer(q) => Pairing::Pointers(p, q),
        Sort::Number(_) => Pairing::PointerNumber(p),
        Sort::Void | Sort::Record(_) => Pairing::Others,
    }
}

/// What a number and another value are together.
fn paired_with_number(kind: IntKind, b: Sort) -> Pairing
    ensures is { (nodes : List Node) → seen_pair nodes result ≡ number_with kind (seen nodes b) }
    ensures there { (nodes : List Node) → IsThere nodes b → AreThere nodes result }
{
    match b {
        Sort::Pointer(q) => Pairing::NumberPointer(q),
        Sort::Number(right) => Pairing::Numbers(kind, right),
        Sort::Void | Sort::Record(_) => Pairing::Others,
    }
}

/// What two sorts are together.
fn sorts_paired(a: Sort, b: Sort) -> Pairing
    ensures is { (nodes : List Node) → seen_pair nodes result ≡ paired (seen nodes a) (seen nodes b) }
    ensures there { (nodes : List Node) → IsThere nodes a → IsThere nodes b → AreThere nodes result }
{
    match a {
        Sort::Pointer(p) => paired_with_pointer(p, b),
        Sort::Number(kind) => paired_with_number(kind, b),
        Sort::Void | Sort::Record(_) => Pairing::Others,
    }
}

/// What two operands are together.
pub(crate) fn paired(a: &Operand, b: &Operand, t: &Types) -> Pairing
    ensures is { seen_pair t.now.nodes result ≡ pair_of t.now a.now b.now }
    ensures there { AreThere t.now.nodes result }
{
    sorts_paired(operand_sort(a, t), operand_sort(b, t))
}

/// Whether one of two types is `void` and the other an object type.
pub(crate) fn meet_in_void(t: &Types, a: TypeId, b: TypeId) -> bool
    ensures { result ≡ meet_in_void (shape t.now.nodes a.0) (shape t.now.nodes b.0) }
{
    (is_void(t, a) && is_object(t, b)) || (is_void(t, b) && is_object(t, a))
}

/// Where two pointers meet, if they do.
fn pointers_meet(p: QualType, q: QualType, a: &Operand, b: &Operand, t: &Types) -> Option<Meeting>
    ensures { p.of.0 < length t.now.nodes → q.of.0 < length t.now.nodes → option_map (met t.now.nodes) result ≡ pointers_meet t.now a.now.null b.now.null p.quals (shape t.now.nodes p.of.0) q.quals (shape t.now.nodes q.of.0) }
{
    if t.compatible(p.of, q.of) {
        Some(Meeting::Composite(p, q))
    } else if b.null {
        Some(Meeting::Pointer(p))
    } else if a.null {
        Some(Meeting::Pointer(q))
    } else if meet_in_void(t, p.of, q.of) {
        Some(Meeting::Void(joined(p.quals, q.quals)))
    } else {
        None
    }
}

/// Where two operands meet of which one at least is a pointer, if they do (C11 6.5.9p2, 6.5.15p3).
pub(crate) fn meeting_of(a: &Operand, b: &Operand, t: &Types) -> Option<Meeting>
    ensures { option_map (met t.now.nodes) result ≡ meeting_of t.now a.now b.now }
{
    match paired(a, b, t) {
        Pairing::Pointers(p, q) => pointers_meet(p, q, a, b, t),
        Pairing::PointerNumber(p) => {
            if b.null {
                Some(Meeting::Pointer(p))
            } else {
                None
            }
        }
        Pairing::NumberPointer(q) => {
            if a.null {
                Some(Meeting::Pointer(q))
            } else {
                None
            }
        }
        Pairing::Numbers(..) | Pairing::Others => None,
    }
}

/// The pointer type of a meeting.
pub(crate) fn meeting_type(m: Meeting, t: &mut Types) -> Result<TypeId, LayoutStop> {
    let to = match m {
        Meeting::Composite(p, q) => composite_pointee(p, q, t)?,
        Meeting::Pointer(to) => to,
        Meeting::Void(quals) => void_pointee(quals, t)?,
    };
    t.pointer(to)
}

/// The composite of two types, with the qualifiers of both (C11 6.2.7p3, 6.5.15p6).
fn composite_pointee(p: QualType, q: QualType, t: &mut Types) -> Result<QualType, LayoutStop> {
    let of = t.composite(p.of, q.of)?;
    t.qualified(joined(p.quals, q.quals), of)
}

/// `void` with qualifiers.
fn void_pointee(quals: Quals, t: &mut Types) -> Result<QualType, LayoutStop> {
    let of = t.void()?;
    Ok(QualType { quals, of })
}
