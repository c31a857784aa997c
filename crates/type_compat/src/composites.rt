ghost use Rattle.std.specs.Prelude.{◌≡◌, ◌<◌, true, length, IfOk, OnOk, Ok, IfSome, Some, None};
ghost use Rattle.type_graph.specs.Shapes.{shape, shapes_of, PtrType, ArrayType, FuncType};
ghost use Rattle.type_graph.specs.Arena.{EachType};
ghost use Rattle.type_graph.specs.Growth.{Grows, KeepsAggregates, GainsOnly};
ghost use Rattle.type_compat.specs.Pairs.{AllComposed};
ghost use Rattle.type_compat.specs.Parts.{GainsParts, GainsAmong};
ghost use Rattle.type_compat.specs.Composed.{known_bound, composite_shape, composite_shapes, IsPointee, IsElement};
ghost use Rattle.type_compat.specs.Functions.{is_function, IsFunction, PartsBelow, composite_with};

use crate::pairs::Composites;
use cil_base::{Memory, TypeId};
use std::alloc::Global;
use type_graph::{Node, QualType, TypeGraph, TypeList};

/// The composite of two compatible types (C11 6.2.7p3). It is the first, the earlier declaration's, but
/// an array of unknown bound takes the bound of the other, and a function without a prototype takes the
/// prototype of the other. No pair of types is composed twice.
///
/// It gains the composite and parts of it alone; after Memory it has perhaps gained others.
pub fn composite(alloc: Global, g: &mut TypeGraph, a: TypeId, b: TypeId) -> Result<TypeId, Memory>
    requires left { a.0 < length g.old.nodes }
    requires right { b.0 < length g.old.nodes }
    ensures is { IfOk result (λ t. shape g.new.nodes t.0 ≡ composite_shape (shape g.old.nodes a.0) (shape g.old.nodes b.0)) }
    ensures gains { IfOk result (λ t. GainsParts g.old g.new (shape g.new.nodes t.0)) }
    ensures there { IfOk result (λ t. t.0 < length g.new.nodes) }
    ensures same { a ≡ b → result ≡ Ok a }
    ensures grows { Grows g.old g.new }
    ensures aggregates { KeepsAggregates g.old g.new }
{
    let mut answers = Composites::new(alloc);
    composed(g, &mut answers, a, b)
}

/// The composite of two types, among composites that are known.
#[cycle(composed)]
#[tactic(auto, using(crate::proofs::PartLaws::no_gain))]
fn composed(
    g: &mut TypeGraph,
    answers: &mut Composites,
    a: TypeId,
    b: TypeId,
) -> Result<TypeId, Memory>
    requires left { a.0 < length g.old.nodes }
    requires right { b.0 < length g.old.nodes }
    requires pairs { AllComposed g.old answers.old }
    ensures is { IfOk result (λ t. shape g.new.nodes t.0 ≡ composite_shape (shape g.old.nodes a.0) (shape g.old.nodes b.0)) }
    ensures gains { IfOk result (λ t. GainsParts g.old g.new (shape g.new.nodes t.0)) }
    ensures there { IfOk result (λ t. t.0 < length g.new.nodes) }
    ensures same { a ≡ b → result ≡ Ok a }
    ensures grows { Grows g.old g.new }
    ensures aggregates { KeepsAggregates g.old g.new }
    ensures pairs { OnOk result (AllComposed g.new answers.new) }
{
    if a == b {
        return Ok(a);
    }
    if let Some(t) = answers.get(a, b) {
        return Ok(t);
    }
    let t = parts_composed(g, answers, a, b)?;
    answers.note(a, b, t)?;
    Ok(t)
}

/// The composite of two types, by their parts.
#[cycle(composed)]
#[tactic(auto, using(crate::proofs::PartLaws::no_gain))]
fn parts_composed(
    g: &mut TypeGraph,
    answers: &mut Composites,
    a: TypeId,
    b: TypeId,
) -> Result<TypeId, Memory>
    requires left { a.0 < length g.old.nodes }
    requires right { b.0 < length g.old.nodes }
    requires pairs { AllComposed g.old answers.old }
    ensures is { IfOk result (λ t. shape g.new.nodes t.0 ≡ composite_shape (shape g.old.nodes a.0) (shape g.old.nodes b.0)) }
    ensures gains { IfOk result (λ t. GainsParts g.old g.new (shape g.new.nodes t.0)) }
    ensures there { IfOk result (λ t. t.0 < length g.new.nodes) }
    ensures grows { Grows g.old g.new }
    ensures aggregates { KeepsAggregates g.old g.new }
    ensures pairs { OnOk result (AllComposed g.new answers.new) }
{
    match g.node(a) {
        Node::Ptr(pointee) => {
            let pointee = *pointee;
            composite_pointer(g, answers, a, pointee, b)
        }
        Node::Array(element, bound) => {
            let element = *element;
            let bound = *bound;
            composite_array(g, answers, a, element, bound, b)
        }
        Node::Func { .. } => composite_function(g, answers, a, b),
        Node::Void | Node::Int(_) | Node::Agg(_) => Ok(a),
    }
}

/// The type that a pointer points to, if the type is one.
fn pointee_of(g: &TypeGraph, b: TypeId) -> Option<QualType>
    requires { b.0 < length g.now.nodes }
    ensures there { IfSome result (λ q. q.of.0 < b.0) }
    ensures is { IsPointee (shape g.now.nodes) result (shape g.now.nodes b.0) }
{
    match g.node(b) {
        Node::Ptr(q) => Some(*q),
        _ => None,
    }
}

/// The element and the bound of an array, if the type is one.
fn element_of(g: &TypeGraph, b: TypeId) -> Option<(QualType, Option<u64>)>
    requires { b.0 < length g.now.nodes }
    ensures there { IfSome result (λ e. e.0.of.0 < b.0) }
    ensures is { IsElement (shape g.now.nodes) result (shape g.now.nodes b.0) }
{
    match g.node(b) {
        Node::Array(q, bound) => Some((*q, *bound)),
        _ => None,
    }
}

/// The composite of a pointer and another type.
#[cycle(composed)]
#[tactic(auto, using(crate::proofs::PartLaws::no_gain))]
fn composite_pointer(
    g: &mut TypeGraph,
    answers: &mut Composites,
    a: TypeId,
    pointee: QualType,
    b: TypeId,
) -> Result<TypeId, Memory>
    requires left { pointee.of.0 < a.0 }
    requires there { a.0 < length g.old.nodes }
    requires right { b.0 < length g.old.nodes }
    requires node { shape g.old.nodes a.0 ≡ PtrType pointee.quals (shape g.old.nodes pointee.of.0) }
    requires pairs { AllComposed g.old answers.old }
    ensures is { IfOk result (λ t. shape g.new.nodes t.0 ≡ composite_shape (shape g.old.nodes a.0) (shape g.old.nodes b.0)) }
    ensures gains { IfOk result (λ t. GainsParts g.old g.new (shape g.new.nodes t.0)) }
    ensures there { IfOk result (λ t. t.0 < length g.new.nodes) }
    ensures grows { Grows g.old g.new }
    ensures aggregates { KeepsAggregates g.old g.new }
    ensures pairs { OnOk result (AllComposed g.new answers.new) }
{
    match pointee_of(g, b) {
        None => Ok(a),
        Some(other) => {
            let of = composed(g, answers, pointee.of, other.of)?;
            g.add_node(Node::Ptr(QualType {
                quals: pointee.quals,
                of,
            }))
        }
    }
}

/// The composite of an array and another type.
#[cycle(composed)]
#[tactic(auto, using(crate::proofs::PartLaws::no_gain))]
fn composite_array(
    g: &mut TypeGraph,
    answers: &mut Composites,
    a: TypeId,
    element: QualType,
    bound: Option<u64>,
    b: TypeId,
) -> Result<TypeId, Memory>
    requires left { element.of.0 < a.0 }
    requires there { a.0 < length g.old.nodes }
    requires right { b.0 < length g.old.nodes }
    requires node { shape g.old.nodes a.0 ≡ ArrayType element.quals (shape g.old.nodes element.of.0) bound }
    requires pairs { AllComposed g.old answers.old }
    ensures is { IfOk result (λ t. shape g.new.nodes t.0 ≡ composite_shape (shape g.old.nodes a.0) (shape g.old.nodes b.0)) }
    ensures gains { IfOk result (λ t. GainsParts g.old g.new (shape g.new.nodes t.0)) }
    ensures there { IfOk result (λ t. t.0 < length g.new.nodes) }
    ensures grows { Grows g.old g.new }
    ensures aggregates { KeepsAggregates g.old g.new }
    ensures pairs { OnOk result (AllComposed g.new answers.new) }
{
    match element_of(g, b) {
        None => Ok(a),
        Some((other, other_bound)) => {
            let of = composed(g, answers, element.of, other.of)?;
            let quals = element.quals;
            g.add_node(Node::Array(QualType { quals, of }, known(bound, other_bound)))
        }
    }
}

/// The bound of an array that takes another's where its own is unknown.
fn known(m: Option<u64>, n: Option<u64>) -> Option<u64>
    ensures { result ≡ known_bound m n }
{
    match m {
        None => n,
        Some(m) => Some(m),
    }
}

/// A function's type, whose parts are owned.
#[derive(Drop)]
struct Function {
    ret: TypeId,
    params: Vec<TypeId>,
    proto: bool,
    variadic: bool,
}

/// A function's type, if the type is one.
fn function_of(alloc: Global, g: &TypeGraph, b: TypeId) -> Result<Option<Function>, Memory>
    requires { b.0 < length g.now.nodes }
    ensures there { IfOk result (PartsBelow b.0) }
    ensures is { IfOk result (λ f. IsFunction (shape g.now.nodes) f (shape g.now.nodes b.0)) }
{
    match g.node(b) {
        Node::Func {
            ret,
            params,
            proto,
            variadic,
        } => {
            let params = params.as_slice().to_vec(alloc)?;
            Ok(Some(Function {
                ret: *ret,
                params,
                proto: *proto,
                variadic: *variadic,
            }))
        }
        _ => Ok(None),
    }
}

/// The number of a function's type.
#[tactic(auto, using(type_graph::proofs::GrowthLaws::gains_one))]
fn add_function(
    g: &mut TypeGraph,
    ret: TypeId,
    params: Vec<TypeId>,
    proto: bool,
    variadic: bool,
) -> Result<TypeId, Memory>
    requires { (ret.0 < length g.old.nodes) × EachType (length g.old.nodes) params.items }
    ensures is { IfOk result (λ t. shape g.new.nodes t.0 ≡ FuncType (shape g.old.nodes ret.0) (shapes_of (shape g.old.nodes) params.items) proto variadic) }
    ensures only { IfOk result (λ t. GainsOnly g.old g.new t.0) }
    ensures there { IfOk result (λ t. t.0 < length g.new.nodes) }
    ensures grows { Grows g.old g.new }
    ensures aggregates { KeepsAggregates g.old g.new }
{
    g.add_node(Node::Func {
        ret,
        params: TypeList::new(params),
        proto,
        variadic,
    })
}

/// The composite of a function and another type (C11 6.2.7p3).
#[cycle(composed)]
#[tactic(auto, using(crate::proofs::PartLaws::no_gain, crate::proofs::PartLaws::function_gains, crate::proofs::PartLaws::parameters_gain))]
fn composite_function(
    g: &mut TypeGraph,
    answers: &mut Composites,
    a: TypeId,
    b: TypeId,
) -> Result<TypeId, Memory>
    requires node { is_function (shape g.old.nodes a.0) ≡ true }
    requires left { a.0 < length g.old.nodes }
    requires right { b.0 < length g.old.nodes }
    requires pairs { AllComposed g.old answers.old }
    ensures is { IfOk result (λ t. shape g.new.nodes t.0 ≡ composite_shape (shape g.old.nodes a.0) (shape g.old.nodes b.0)) }
    ensures gains { IfOk result (λ t. GainsParts g.old g.new (shape g.new.nodes t.0)) }
    ensures there { IfOk result (λ t. t.0 < length g.new.nodes) }
    ensures grows { Grows g.old g.new }
    ensures aggregates { KeepsAggregates g.old g.new }
    ensures pairs { OnOk result (AllComposed g.new answers.new) }
{
    let Some(first) = function_of(g.alloc(), g, a)? else {
        return Ok(a);
    };
    let Some(second) = function_of(g.alloc(), g, b)? else {
        return Ok(a);
    };
    let ret = composed(g, answers, first.ret, second.ret)?;
    if !second.proto {
        return add_function(g, ret, first.params, first.proto, first.variadic);
    }
    if !first.proto {
        return add_function(g, ret, second.params, true, second.variadic);
    }
    let params = composites(g, answers, &first.params, &second.params)?;
    add_function(g, ret, params, true, first.variadic)
}

/// The composites of parameters, each with its counterpart where there is one.
#[cycle(composed)]
#[tactic(auto, using(crate::proofs::PartLaws::none_gained))]
fn composites(
    g: &mut TypeGraph,
    answers: &mut Composites,
    params: &[TypeId],
    others: &[TypeId],
) -> Result<Vec<TypeId>, Memory>
    requires left { EachType (length g.old.nodes) params.now }
    requires right { EachType (length g.old.nodes) others.now }
    requires pairs { AllComposed g.old answers.old }
    ensures is { IfOk result (λ v. shapes_of (shape g.new.nodes) v.items ≡ composite_shapes (shapes_of (shape g.old.nodes) params.now) (shapes_of (shape g.old.nodes) others.now)) }
    ensures gains { IfOk result (λ v. GainsAmong g.old g.new (shapes_of (shape g.new.nodes) v.items)) }
    ensures there { IfOk result (λ v. EachType (length g.new.nodes) v.items) }
    ensures grows { Grows g.old g.new }
    ensures aggregates { KeepsAggregates g.old g.new }
    ensures pairs { OnOk result (AllComposed g.new answers.new) }
{
    let mut done = Vec::new(g.alloc());
    for i in 0..params.len() {
        let t = composite_at(g, answers, params[i], others, i)?;
        done.push(t)?;
    }
    Ok(done)
}

/// The composite of a parameter with the one at its place, if there is one.
#[cycle(composed)]
#[tactic(auto, using(crate::proofs::PartLaws::no_gain))]
fn composite_at(
    g: &mut TypeGraph,
    answers: &mut Composites,
    param: TypeId,
    others: &[TypeId],
    i: usize,
) -> Result<TypeId, Memory>
    requires left { param.0 < length g.old.nodes }
    requires right { EachType (length g.old.nodes) others.now }
    requires pairs { AllComposed g.old answers.old }
    ensures is { IfOk result (λ t. shape g.new.nodes t.0 ≡ composite_with (shape g.old.nodes) (shape g.old.nodes param.0) others.now i) }
    ensures gains { IfOk result (λ t. GainsParts g.old g.new (shape g.new.nodes t.0)) }
    ensures there { IfOk result (λ t. t.0 < length g.new.nodes) }
    ensures grows { Grows g.old g.new }
    ensures aggregates { KeepsAggregates g.old g.new }
    ensures pairs { OnOk result (AllComposed g.new answers.new) }
{
    if i < others.len() {
        composed(g, answers, param, others[i])
    } else {
        Ok(param)
    }
}
