ghost use Rattle.std.specs.Prelude.{◌≡◌, Some};
ghost use Rattle.type_graph.specs.Shapes.{shape};
ghost use Rattle.cast_rules.specs.Seen.{seen, IsThere};
ghost use Rattle.cast_rules.specs.Types.{kind_in, is_arithmetic, is_enum_kind, is_incomplete, is_object, is_scalar, is_unreadable, is_void, gives_pointer, gives_scalar};
ghost use Rattle.cast_rules.specs.Values.{value_in};

use cil_base::{AggId, IntKind, TypeId};
use type_graph::{AggKind, QualType, unqualified};
use typed_tree::TypedExp;
use unit_types::{Class, Types};

/// An operand as it is written, before the conversions of C11 6.3.2.1: it may be an lvalue, an array or a function.
#[derive(Drop)]
pub struct Operand {
    pub exp: TypedExp,
    /// Whether it is a null pointer constant (C11 6.3.2.3p3).
    pub null: bool,
    /// Whether it is an object declared `register`, or a part of one (C11 6.5.3.2p1).
    pub register: bool,
}

impl Operand {
    /// An operand that is neither a null pointer constant nor a part of an object declared `register`.
    pub fn plain(exp: TypedExp) -> Self {
        Operand {
            exp,
            null: false,
            register: false,
        }
    }
}

/// What the value of an operand is, once an lvalue is read and an array or a function has become a pointer (C11 6.3.2.1p2 to p4).
#[derive(Clone, Copy)]
pub(crate) enum Sort {
    Void,
    /// A number; an enumerated type computes in int (own).
    Number(IntKind),
    /// A pointer, and the type that it points to.
    Pointer(QualType),
    /// A struct or union.
    Record(AggId),
}

/// What the value of an operand of a type is.
#[tactic(auto, using(crate::proofs::TypesThere::function_there))]
pub(crate) fn sort_of(t: &Types, of: TypeId) -> Sort
    ensures is { seen t.now.nodes result ≡ value_in t.now (shape t.now.nodes of.0) }
    ensures there { IsThere t.now.nodes result }
{
    match t.class(of) {
        Class::Void => Sort::Void,
        Class::Int(kind) => Sort::Number(kind),
        Class::Ptr(to) => Sort::Pointer(to),
        Class::Array(element, _) => Sort::Pointer(element),
        Class::Func { .. } => Sort::Pointer(unqualified(of)),
        Class::Agg(AggKind::Enum, _) => Sort::Number(IntKind::Int),
        Class::Agg(AggKind::Struct, a) => Sort::Record(a),
        Class::Agg(AggKind::Union, a) => Sort::Record(a),
    }
}

/// What the value of an operand is.
pub(crate) fn operand_sort(e: &Operand, t: &Types) -> Sort
    ensures is { seen t.now.nodes result ≡ value_in t.now (shape t.now.nodes e.now.exp.ty.of.0) }
    ensures there { IsThere t.now.nodes result }
{
    sort_of(t, e.exp.ty().of)
}

/// Whether a type is an object type (C11 6.2.5p1), complete or not.
pub(crate) fn is_object(t: &Types, of: TypeId) -> bool
    ensures { result ≡ is_object (shape t.now.nodes of.0) }
{
    match t.class(of) {
        Class::Func { .. } => false,
        Class::Void | Class::Int(_) | Class::Ptr(_) | Class::Array(..) | Class::Agg(..) => true,
    }
}

/// Whether a type is an object type that is incomplete (C11 6.2.5p1), as `void` is (p19).
pub(crate) fn is_incomplete(t: &Types, of: TypeId) -> bool
    ensures { result ≡ is_incomplete t.now (shape t.now.nodes of.0) }
{
    is_object(t, of) && !t.is_complete(of)
}

/// The kind of which a value of a type is, where it is a number (C11 6.2.5p18); an enumerated type computes in int (own).
pub(crate) fn kind_in(t: &Types, of: TypeId) -> Option<IntKind>
    ensures { result ≡ kind_in t.now (shape t.now.nodes of.0) }
{
    match t.class(of) {
        Class::Int(kind) => Some(kind),
        Class::Agg(AggKind::Enum, _) => Some(IntKind::Int),
        Class::Agg(AggKind::Struct, _)
        | Class::Agg(AggKind::Union, _)
        | Class::Void
        | Class::Ptr(_)
        | Class::Array(..)
        | Class::Func { .. } => None,
    }
}

/// Whether a kind of aggregates is that of enums.
pub(crate) fn is_enum(kind: AggKind) -> bool
    ensures { result ≡ is_enum_kind (Some kind) }
{
    match kind {
        AggKind::Struct | AggKind::Union => false,
        AggKind::Enum => true,
    }
}

/// Whether a type is `void`.
pub(crate) fn is_void(t: &Types, of: TypeId) -> bool
    ensures { result ≡ is_void (shape t.now.nodes of.0) }
{
    match t.class(of) {
        Class::Void => true,
        Class::Int(_) | Class::Ptr(_) | Class::Array(..) | Class::Func { .. } | Class::Agg(..) =>
            false,
    }
}

/// Whether a type is an arithmetic type (C11 6.2.5p18). Each is an integer type.
pub(crate) fn is_arithmetic(t: &Types, of: TypeId) -> bool
    ensures { result ≡ is_arithmetic t.now (shape t.now.nodes of.0) }
{
    match t.class(of) {
        Class::Int(_) => true,
        Class::Agg(kind, _) => is_enum(kind),
        Class::Void | Class::Ptr(_) | Class::Array(..) | Class::Func { .. } => false,
    }
}

/// Whether a type is a scalar type (C11 6.2.5p21).
pub(crate) fn is_scalar(t: &Types, of: TypeId) -> bool
    ensures { result ≡ is_scalar t.now (shape t.now.nodes of.0) }
{
    match t.class(of) {
        Class::Int(_) | Class::Ptr(_) => true,
        Class::Agg(kind, _) => is_enum(kind),
        Class::Void | Class::Array(..) | Class::Func { .. } => false,
    }
}

/// Whether the value of an operand of a type is a pointer.
pub(crate) fn gives_pointer(t: &Types, of: TypeId) -> bool
    ensures { result ≡ gives_pointer (shape t.now.nodes of.0) }
{
    match t.class(of) {
        Class::Ptr(_) | Class::Array(..) | Class::Func { .. } => true,
        Class::Void | Class::Int(_) | Class::Agg(..) => false,
    }
}

/// Whether the value of an operand of a type has a scalar type.
pub(crate) fn gives_scalar(t: &Types, of: TypeId) -> bool
    ensures { result ≡ gives_scalar t.now (shape t.now.nodes of.0) }
{
    is_arithmetic(t, of) || gives_pointer(t, of)
}

/// Whether an operand is a struct, union or enum whose type is incomplete, so that it has no value (C11 6.3.2.1p2).
pub(crate) fn is_unreadable(e: &Operand, t: &Types) -> bool
    ensures { result ≡ is_unreadable t.now (shape t.now.nodes e.now.exp.ty.of.0) }
{
    let of = e.exp.ty().of;
    match t.class(of) {
        Class::Agg(..) => !t.is_complete(of),
        Class::Void | Class::Int(_) | Class::Ptr(_) | Class::Array(..) | Class::Func { .. } => {
            false
        }
    }
}
