ghost use Rattle.std.specs.Prelude.{◌≡◌, ◌<◌, length, IsTrue};
ghost use Rattle.type_graph.specs.Shapes.{shape, shapes_of, VoidType, IntType, PtrType, ArrayType, FuncType, AggType};
ghost use Rattle.type_graph.specs.Arena.{EachType};
ghost use Rattle.type_compat.specs.Pairs.{AllCompatible};
ghost use Rattle.type_compat.specs.Compatible.{same_quals, same_bounds, is_enum, survives, plain_prototype, compatible_shape, compatible_shapes};

use crate::pairs::Known;
use cil_base::{AggId, IntKind, TypeId};
use type_graph::{AggKind, Node, QualType, Quals, TypeGraph};

/// Whether two types are qualified alike (C11 6.7.3p10).
fn alike(p: Quals, q: Quals) -> bool
    ensures { result ≡ same_quals p q }
{
    p.constant == q.constant && p.restricted == q.restricted
}

/// Whether the bounds of two arrays are equal where both are known (C11 6.7.6.2p6).
fn bounds_agree(m: Option<u64>, n: Option<u64>) -> bool
    ensures { result ≡ same_bounds m n }
{
    match m {
        None => true,
        Some(m) => match n {
            None => true,
            Some(n) => m == n,
        },
    }
}

/// Whether an aggregate is an enum.
fn enumerated(g: &TypeGraph, a: AggId) -> bool
    requires { a.0 < length g.now.aggs }
    ensures { result ≡ is_enum g.now.aggs a.0 }
{
    match g.agg(a).kind {
        AggKind::Enum => true,
        AggKind::Struct | AggKind::Union => false,
    }
}

/// Whether a parameter's type is compatible with what the default argument promotions make of it
/// (C11 6.3.1.1p2, 6.5.2.2p6).
fn promotes_to_itself(g: &TypeGraph, t: TypeId) -> bool
    requires { t.0 < length g.now.nodes }
    ensures { result ≡ survives (shape g.now.nodes t.0) }
{
    match g.node(t) {
        Node::Int(kind) => kind.rank() >= IntKind::Int.rank(),
        _ => true,
    }
}

/// Whether a prototype may meet a function without one (C11 6.7.6.3p15).
fn plain(g: &TypeGraph, params: &[TypeId], variadic: bool) -> bool
    requires { EachType (length g.now.nodes) params.now }
    ensures { result ≡ plain_prototype (shapes_of (shape g.now.nodes) params.now) variadic }
{
    if variadic {
        return false;
    }
    for p in params {
        if !promotes_to_itself(g, *p) {
            return false;
        }
    }
    true
}

/// A function's parameters, and whether they are a prototype's.
#[derive(Clone, Copy)]
struct Prototype<'a> {
    params: &'a [TypeId],
    proto: bool,
    variadic: bool,
}

/// Whether two types of one graph are compatible (C11 6.2.7p1). An enum is compatible with int
/// (6.7.2.2p4, own). A number beyond the types is compatible with none.
///
/// No pair of types is compared twice while there is memory to note it.
pub fn compatible(g: &TypeGraph, a: TypeId, b: TypeId) -> bool
    ensures there { IsTrue result → (a.0 < length g.now.nodes) × (b.0 < length g.now.nodes) }
    ensures is { a.0 < length g.now.nodes → b.0 < length g.now.nodes → result ≡ compatible_shape g.now.aggs (shape g.now.nodes a.0) (shape g.now.nodes b.0) }
{
    let count = g.len();
    if a.0 >= count || b.0 >= count {
        return false;
    }
    let mut known = Known::new(g.alloc());
    fits(g, &mut known, a, b)
}

/// Whether two types are compatible, among pairs that are known to be.
#[cycle(fits)]
fn fits(g: &TypeGraph, known: &mut Known, a: TypeId, b: TypeId) -> bool
    requires left { a.0 < length g.now.nodes }
    requires right { b.0 < length g.now.nodes }
    requires pairs { AllCompatible g.now known.old }
    ensures tells { result ≡ compatible_shape g.now.aggs (shape g.now.nodes a.0) (shape g.now.nodes b.0) }
    ensures pairs { AllCompatible g.now known.new }
{
    if a == b {
        return true;
    }
    if known.has(a, b) {
        return true;
    }
    if parts_fit(g, known, a, b) {
        known.note(a, b);
        return true;
    }
    false
}

/// Whether two types are compatible, by their parts.
#[cycle(fits)]
fn parts_fit(g: &TypeGraph, known: &mut Known, a: TypeId, b: TypeId) -> bool
    requires left { a.0 < length g.now.nodes }
    requires right { b.0 < length g.now.nodes }
    requires pairs { AllCompatible g.now known.old }
    ensures tells { result ≡ compatible_shape g.now.aggs (shape g.now.nodes a.0) (shape g.now.nodes b.0) }
    ensures pairs { AllCompatible g.now known.new }
{
    match g.node(a) {
        Node::Void => is_void(g, b),
        Node::Int(kind) => int_fits(g, *kind, b),
        Node::Ptr(pointee) => pointer_fits(g, known, *pointee, b),
        Node::Array(element, bound) => array_fits(g, known, *element, *bound, b),
        Node::Func {
            ret,
            params,
            proto,
            variadic,
        } => {
            let prototype = Prototype {
                params: params.as_slice(),
                proto: *proto,
                variadic: *variadic,
            };
            function_fits(g, known, *ret, prototype, b)
        }
        Node::Agg(a) => aggregate_fits(g, *a, b),
    }
}

/// Whether a type is void.
fn is_void(g: &TypeGraph, b: TypeId) -> bool
    requires { b.0 < length g.now.nodes }
    ensures { result ≡ compatible_shape g.now.aggs VoidType (shape g.now.nodes b.0) }
{
    match g.node(b) {
        Node::Void => true,
        _ => false,
    }
}

/// Whether a type is compatible with an integer type.
fn int_fits(g: &TypeGraph, kind: IntKind, b: TypeId) -> bool
    requires { b.0 < length g.now.nodes }
    ensures { result ≡ compatible_shape g.now.aggs (IntType kind) (shape g.now.nodes b.0) }
{
    match g.node(b) {
        Node::Int(other) => kind == *other,
        Node::Agg(b) => kind == IntKind::Int && enumerated(g, *b),
        _ => false,
    }
}

/// Whether a type is compatible with an aggregate: within one unit it is the same one.
fn aggregate_fits(g: &TypeGraph, a: AggId, b: TypeId) -> bool
    requires left { a.0 < length g.now.aggs }
    requires right { b.0 < length g.now.nodes }
    ensures { result ≡ compatible_shape g.now.aggs (AggType a.0) (shape g.now.nodes b.0) }
{
    match g.node(b) {
        Node::Agg(b) => a == *b,
        Node::Int(kind) => enumerated(g, a) && *kind == IntKind::Int,
        _ => false,
    }
}

/// Whether a type is compatible with a pointer (C11 6.7.6.1p2).
#[cycle(fits)]
fn pointer_fits(g: &TypeGraph, known: &mut Known, pointee: QualType, b: TypeId) -> bool
    requires left { pointee.of.0 < length g.now.nodes }
    requires right { b.0 < length g.now.nodes }
    requires pairs { AllCompatible g.now known.old }
    ensures tells { result ≡ compatible_shape g.now.aggs (PtrType pointee.quals (shape g.now.nodes pointee.of.0)) (shape g.now.nodes b.0) }
    ensures pairs { AllCompatible g.now known.new }
{
    match g.node(b) {
        Node::Ptr(other) => {
            alike(pointee.quals, other.quals) && fits(g, known, pointee.of, other.of)
        }
        _ => false,
    }
}

/// Whether a type is compatible with an array (C11 6.7.6.2p6).
#[cycle(fits)]
fn array_fits(
    g: &TypeGraph,
    known: &mut Known,
    element: QualType,
    bound: Option<u64>,
    b: TypeId,
) -> bool
    requires left { element.of.0 < length g.now.nodes }
    requires right { b.0 < length g.now.nodes }
    requires pairs { AllCompatible g.now known.old }
    ensures pairs { AllCompatible g.now known.new }
    ensures tells { result ≡ compatible_shape g.now.aggs (ArrayType element.quals (shape g.now.nodes element.of.0) bound) (shape g.now.nodes b.0) }
{
    match g.node(b) {
        Node::Array(other, other_bound) => {
            alike(element.quals, other.quals)
                && bounds_agree(bound, *other_bound)
                && fits(g, known, element.of, other.of)
        }
        _ => false,
    }
}

/// Whether a type is compatible with a function (C11 6.7.6.3p15).
#[cycle(fits)]
fn function_fits(
    g: &TypeGraph,
    known: &mut Known,
    ret: TypeId,
    prototype: Prototype,
    b: TypeId,
) -> bool
    requires left { (ret.0 < length g.now.nodes) × EachType (length g.now.nodes) prototype.params.now }
    requires right { b.0 < length g.now.nodes }
    requires pairs { AllCompatible g.now known.old }
    ensures tells { result ≡ compatible_shape g.now.aggs (FuncType (shape g.now.nodes ret.0) (shapes_of (shape g.now.nodes) prototype.entry.params.now) prototype.entry.proto prototype.entry.variadic) (shape g.now.nodes b.0) }
    ensures pairs { AllCompatible g.now known.new }
{
    match g.node(b) {
        Node::Func {
            ret: other,
            params: others,
            proto: other_proto,
            variadic: other_variadic,
        } => {
            if !fits(g, known, ret, *other) {
                return false;
            }
            if !prototype.proto && !*other_proto {
                return true;
            }
            if !prototype.proto {
                return plain(g, others.as_slice(), *other_variadic);
            }
            if !*other_proto {
                return plain(g, prototype.params, prototype.variadic);
            }
            prototype.variadic == *other_variadic
                && parameters_fit(g, known, prototype.params, others.as_slice())
        }
        _ => false,
    }
}

/// Whether lists of parameters are compatible: as many, each with its counterpart (C11 6.7.6.3p15).
#[cycle(fits)]
fn parameters_fit(g: &TypeGraph, known: &mut Known, params: &[TypeId], others: &[TypeId]) -> bool
    requires left { EachType (length g.now.nodes) params.now }
    requires right { EachType (length g.now.nodes) others.now }
    requires pairs { AllCompatible g.now known.old }
    ensures tells { result ≡ compatible_shapes g.now.aggs (shapes_of (shape g.now.nodes) params.now) (shapes_of (shape g.now.nodes) others.now) }
    ensures pairs { AllCompatible g.now known.new }
{
    if params.len() != others.len() {
        return false;
    }
    for i in 0..params.len() {
        if !fits(g, known, params[i], others[i]) {
            return false;
        }
    }
    true
}
