use crate::tokens::stripped;
use crate::walker::Walker;
use c_tree::Expr;
use cast_rules::Operand;
use cil_base::{Constant, LocalId, TypeId};
use const_eval::eval;
use decl_types::Declaring;
use type_graph::{AggKind, QualType};
use typed_tree::{TypedExp, TypedNode};
use unit_types::{Class, Types};

/// Whether a type is an integer type (C11 6.2.5p17).
pub fn is_integer(t: &Types, of: TypeId) -> bool {
    match t.class(of) {
        Class::Int(_) | Class::Agg(AggKind::Enum, _) => true,
        Class::Void
        | Class::Ptr(_)
        | Class::Array(..)
        | Class::Func { .. }
        | Class::Agg(AggKind::Struct, _)
        | Class::Agg(AggKind::Union, _) => false,
    }
}

/// Whether the value of an expression of a type is a pointer (C11 6.3.2.1p3, p4).
fn is_pointer(t: &Types, of: TypeId) -> bool {
    match t.class(of) {
        Class::Ptr(_) | Class::Array(..) | Class::Func { .. } => true,
        Class::Void | Class::Int(_) | Class::Agg(..) => false,
    }
}

/// Whether a type is that of a pointer to `void` without qualifiers.
pub fn is_void_pointer(t: &Types, of: TypeId) -> bool {
    match t.class(of) {
        Class::Ptr(to) => is_plain_void(t, to),
        Class::Void | Class::Int(_) | Class::Array(..) | Class::Func { .. } | Class::Agg(..) => {
            false
        }
    }
}

/// Whether a type is `void` without qualifiers.
pub fn is_plain_void(t: &Types, ty: QualType) -> bool {
    match t.class(ty.of) {
        Class::Void => !ty.quals.constant && !ty.quals.restricted,
        Class::Int(_) | Class::Ptr(_) | Class::Array(..) | Class::Func { .. } | Class::Agg(..) => {
            false
        }
    }
}

/// The value of an integer constant expression (C11 6.6p6).
pub fn integer_constant(t: &Types, e: &TypedExp) -> Option<i128> {
    if !is_integer(t, e.ty().of) {
        return None;
    }
    match eval(e, t) {
        Some(Constant::Int(_, v)) => Some(v),
        Some(Constant::Address(..)) | Some(Constant::Function(_)) | None => None,
    }
}

/// Whether an expression is an integer constant expression with the value 0.
fn is_zero(t: &Types, e: &TypedExp) -> bool {
    integer_constant(t, e) == Some(0)
}

/// Whether an expression is a null pointer constant (C11 6.3.2.3p3): 0, or 0 cast to `void *`.
pub fn is_null(w: &Walker<'_>, source: &Expr, e: &TypedExp) -> bool {
    if is_integer(&w.types, e.ty().of) {
        return is_zero(&w.types, e);
    }
    match (stripped(source), e.node()) {
        (Expr::Cast(at, ..), TypedNode::Convert(of)) => {
            w.void_casts.contains(at) && is_zero(&w.types, of)
        }
        _ => false,
    }
}

/// Whether an expression is a null pointer constant that stands beside an expression of another type. It is only asked beside
/// pointers.
pub fn is_null_beside(w: &Walker<'_>, source: &Expr, e: &TypedExp, other: TypeId) -> bool {
    is_pointer(&w.types, other) && is_null(w, source, e)
}

/// Whether a local is declared `register` (C11 6.7.1p6).
fn is_register_local(w: &Walker<'_>, l: LocalId) -> bool {
    let Some(local) = w.declarer.locals().get(l.0 as usize) else {
        return false;
    };
    match w.declarer.find(local.name) {
        Some(d) => match d.what {
            Declaring::Local(found) => found == l && d.register,
            Declaring::Typedef | Declaring::Enumerator(_) | Declaring::Entity(_) => false,
        },
        None => false,
    }
}

/// Whether an expression is the array that decays to it, and that array is an object declared `register`, or a part of one.
#[cycle(registers)]
fn is_register_array(w: &Walker<'_>, e: &TypedExp) -> bool {
    match e.node() {
        TypedNode::Decay(array) => is_register(w, array),
        _ => false,
    }
}

/// Whether an expression is an object declared `register`, or a part of one (C11 6.5.3.2p1).
#[cycle(registers)]
pub fn is_register(w: &Walker<'_>, e: &TypedExp) -> bool {
    match e.node() {
        TypedNode::Local(l) => is_register_local(w, *l),
        TypedNode::Member(of, _, _) => is_register(w, of),
        TypedNode::Subscript(a, i) => is_register_array(w, a) || is_register_array(w, i),
        _ => false,
    }
}

/// An operand that stands beside an expression of another type.
pub fn beside(w: &Walker<'_>, source: &Expr, exp: TypedExp, other: TypeId) -> Operand {
    let null = is_null_beside(w, source, &exp, other);
    Operand {
        exp,
        null,
        register: false,
    }
}
