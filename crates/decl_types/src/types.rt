ghost use Rattle.std.specs.Prelude.{◌≡◌, IfErr};
ghost use Rattle.cil_base.specs.declared.faults.RuleStop.TheVariants as stop;
ghost use Rattle.decl_types.specs.Refusals.{IsRefusal, of_adjustment, of_array, of_function, of_qualifiers, of_types};

use crate::stops::{bad, laid, past};
use cil_base::{Code, IntKind, RuleStop, TypeId, What};
use std::alloc::Global;
use type_graph::{PLAIN, QualType, Quals, unqualified};
use unit_types::{Class, Types, joined};

/// Whether a type is a function type.
pub(crate) fn is_function(t: &Types, ty: TypeId) -> bool {
    match t.class(ty) {
        Class::Func { .. } => true,
        Class::Void | Class::Int(_) | Class::Ptr(_) | Class::Array(..) | Class::Agg(..) => false,
    }
}

/// Whether a type is void.
pub(crate) fn is_void(t: &Types, ty: TypeId) -> bool {
    match t.class(ty) {
        Class::Void => true,
        Class::Int(_) | Class::Ptr(_) | Class::Array(..) | Class::Func { .. } | Class::Agg(..) =>
            false,
    }
}

/// Whether a type is an array of unknown bound (C11 6.2.5p22).
pub(crate) fn is_unbounded(t: &Types, ty: TypeId) -> bool {
    match t.class(ty) {
        Class::Array(_, None) => true,
        Class::Array(_, Some(_))
        | Class::Void
        | Class::Int(_)
        | Class::Ptr(_)
        | Class::Func { .. }
        | Class::Agg(..) => false,
    }
}

/// What the elements of an array are, of whatever depth; another type itself.
fn innermost(ty: QualType, t: &Types) -> QualType {
    let mut inner = ty;
    for _i in 0..t.graph().len() {
        match t.class(inner.of) {
            Class::Array(element, _) => inner = element,
            Class::Void | Class::Int(_) | Class::Ptr(_) | Class::Func { .. } | Class::Agg(..) => {
                return inner;
            }
        }
    }
    inner
}

/// Whether an object of a type is const, or its elements are (C11 6.7.3p9).
pub fn is_constant(ty: QualType, t: &Types) -> bool {
    innermost(ty, t).quals.constant
}

/// Whether a type may be restrict-qualified: a pointer to an object type (C11 6.7.3p2). An array of such ones may not (own).
fn is_restrictable(ty: TypeId, t: &Types) -> bool {
    match t.class(ty) {
        Class::Ptr(to) => !is_function(t, to.of),
        Class::Void | Class::Int(_) | Class::Array(..) | Class::Func { .. } | Class::Agg(..) => {
            false
        }
    }
}

/// A type with qualifiers more (C11 6.7.3).
pub(crate) fn qualified(q: Quals, ty: QualType, t: &mut Types) -> Result<QualType, RuleStop>
    ensures { IfErr result (IsRefusal of_qualifiers) }
{
    if q.restricted && !is_restrictable(ty.of, t) {
        return Err(bad(Code::Restrict));
    }
    laid(t.qualified(joined(ty.quals, q), ty.of))
}

/// The type int.
pub(crate) fn int(t: &mut Types) -> Result<QualType, RuleStop>
    ensures { IfErr result (IsRefusal of_types) }
{
    let of = laid(t.int(IntKind::Int))?;
    Ok(unqualified(of))
}

/// The composite of two types, the first of which was declared earlier (C11 6.2.7p3).
pub(crate) fn composite(t: &mut Types, a: TypeId, b: TypeId) -> Result<TypeId, RuleStop>
    ensures { IfErr result (IsRefusal of_types) }
{
    laid(t.composite(a, b))
}

/// Whether two declared types are compatible (C11 6.2.7p1, 6.7.3p10).
pub(crate) fn are_compatible(t: &Types, a: QualType, b: QualType) -> bool {
    a.quals == b.quals && t.compatible(a.of, b.of)
}

/// A pointer with qualifiers of its own (C11 6.7.6.1). `Restrict` where it points to a function and is restrict-qualified.
pub fn pointer(to: QualType, q: Quals, t: &mut Types) -> Result<QualType, RuleStop>
    ensures { IfErr result (IsRefusal of_qualifiers) }
{
    if q.restricted && is_function(t, to.of) {
        return Err(bad(Code::Restrict));
    }
    pointed(to, q, t)
}

/// A pointer with qualifiers of its own, to what may be pointed to so.
fn pointed(to: QualType, q: Quals, t: &mut Types) -> Result<QualType, RuleStop>
    ensures { IfErr result (IsRefusal of_types) }
{
    let of = laid(t.pointer(to))?;
    Ok(QualType { quals: q, of })
}

/// The bound of an array (C11 6.7.6.2p1). One that no number of 64 bits has passes the limit on objects too.
fn checked_bound(bound: Option<i128>) -> Result<Option<u64>, RuleStop>
    ensures { IfErr result (IsRefusal of_array) }
{
    match bound {
        None => Ok(None),
        Some(n) => {
            if n < 1 {
                return Err(bad(Code::ArraySize));
            }
            if n > u64::MAX as i128 {
                return Err(past(What::ObjectSize));
            }
            Ok(Some(n as u64))
        }
    }
}

/// An array, with its bound where it has one (C11 6.7.6.2). `Incomplete` and `FunctionType` where its elements have such a type, `ArraySize` for a
/// bound below 1, whose place is the bound's, and the limit on objects.
pub fn array(of: QualType, bound: Option<i128>, t: &mut Types) -> Result<QualType, RuleStop>
    ensures { IfErr result (IsRefusal of_array) }
{
    if is_function(t, of.of) {
        return Err(bad(Code::FunctionType));
    }
    if !t.is_complete(of.of) {
        return Err(bad(Code::Incomplete));
    }
    let bound = checked_bound(bound)?;
    let array = laid(t.array(of, bound))?;
    Ok(unqualified(array))
}

/// Whether a function may not return a type (C11 6.7.6.3p1).
fn is_unreturnable(t: &Types, ty: TypeId) -> bool {
    match t.class(ty) {
        Class::Func { .. } | Class::Array(..) => true,
        Class::Void | Class::Int(_) | Class::Ptr(_) | Class::Agg(..) => false,
    }
}

/// Whether a function type has a prototype (C11 6.2.1p2), and whether that ends in `...`.
#[derive(Clone, Copy, PartialEq, Eq)]
pub enum Prototype {
    Absent,
    Fixed,
    Variadic,
}

/// The types of parameters, without their qualifiers.
fn parameter_types(alloc: Global, params: &[QualType]) -> Result<Vec<TypeId>, RuleStop>
    ensures { IfErr result (λ e. e ≡ stop.Memory) }
{
    let mut types = Vec::new(alloc);
    for p in params {
        types.push(p.of)?;
    }
    Ok(types)
}

/// A function with the adjusted types of its parameters (C11 6.7.6.3). `FunctionType` where it returns a function or an array. The qualifiers of its
/// result and of its parameters are no part of it (own).
pub fn function(
    alloc: Global,
    ret: QualType,
    params: &[QualType],
    prototype: Prototype,
    t: &mut Types,
) -> Result<QualType, RuleStop>
    ensures { IfErr result (IsRefusal of_function) }
{
    if is_unreturnable(t, ret.of) {
        return Err(bad(Code::FunctionType));
    }
    let types = parameter_types(alloc, params)?;
    let proto = prototype != Prototype::Absent;
    let variadic = prototype == Prototype::Variadic;
    let of = laid(t.function(ret.of, types, proto, variadic))?;
    Ok(unqualified(of))
}

/// The type of a parameter that is declared with a type: a pointer for an array, with the qualifiers between its brackets, and for a function
/// (C11 6.7.6.3p7, p8). `Incomplete` for void.
pub fn parameter(ty: QualType, q: Quals, t: &mut Types) -> Result<QualType, RuleStop>
    ensures { IfErr result (IsRefusal of_adjustment) }
{
    match t.class(ty.of) {
        Class::Void => Err(bad(Code::Incomplete)),
        Class::Array(element, _) => pointed(element, q, t),
        Class::Func { .. } => pointed(unqualified(ty.of), PLAIN, t),
        Class::Int(_) | Class::Ptr(_) | Class::Agg(..) => Ok(ty),
    }
}
