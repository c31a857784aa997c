ghost use Rattle.std.specs.Prelude.{◌≡◌, ◌<◌, ◌&&◌, ◌||◌, not, length, true, false, ℕ, IsTrue};
ghost use Rattle.type_graph.specs.Shapes.{shape, shapes_of, shape_of};
ghost use Rattle.type_graph.specs.Arena.{EachType, NamesBelow};
ghost use Rattle.cil_tree.specs.WellFormedTypes.{is_unqualified, node_is_unqualified, bound_fits, array_fits, is_result, is_parameter, are_parameters, function_fits, prototype_fits, has_parameter};
ghost use Rattle.cil_check.specs.Rules.{AreTops, node_rules, node_fits_at};

use crate::elements::{Tops, entry};
use cil_base::TypeId;
use type_graph::{Node, Quals, TypeGraph};

/// Whether there is no qualifier.
pub(crate) fn is_unqualified(q: Quals) -> bool
    ensures { result ≡ is_unqualified q }
{
    !q.constant && !q.restricted
}

/// Whether a type names another without qualifiers.
fn node_is_unqualified(n: &Node) -> bool
    ensures { result ≡ node_is_unqualified n.now }
{
    match n {
        Node::Ptr(q) | Node::Array(q, _) => is_unqualified(q.quals),
        Node::Void | Node::Int(_) | Node::Func { .. } | Node::Agg(_) => true,
    }
}

/// Whether an array's bound is at least 1 (C11 6.7.6.2p1).
fn bound_fits(bound: &Option<u64>) -> bool
    ensures { result ≡ bound_fits bound.now }
{
    match bound {
        None => true,
        Some(n) => *n > 0,
    }
}

/// Whether a function may give the type: no function and no array (C11 6.7.6.3p1).
fn is_result(g: &TypeGraph, t: TypeId) -> bool
    requires { t.0 < length g.now.nodes }
    ensures { result ≡ is_result (shape g.now.nodes t.0) }
{
    match g.node(t) {
        Node::Func { .. } | Node::Array(..) => false,
        Node::Void | Node::Int(_) | Node::Ptr(_) | Node::Agg(_) => true,
    }
}

/// Whether a function may take the type: neither void nor function nor array (C11 6.7.6.3p4, p7, p8).
fn is_parameter(g: &TypeGraph, t: TypeId) -> bool
    requires { t.0 < length g.now.nodes }
    ensures { result ≡ is_parameter (shape g.now.nodes t.0) }
{
    match g.node(t) {
        Node::Void | Node::Func { .. } | Node::Array(..) => false,
        Node::Int(_) | Node::Ptr(_) | Node::Agg(_) => true,
    }
}

/// Whether a function may take each of the types.
fn are_parameters(g: &TypeGraph, params: &[TypeId]) -> bool
    requires { EachType (length g.now.nodes) params.now }
    ensures { result ≡ are_parameters (shapes_of (shape g.now.nodes) params.now) }
{
    for i in 0..params.len() {
        if !is_parameter(g, params[i]) {
            return false;
        }
    }
    true
}

/// Whether a function type without a prototype has no parameters and no `...`, and one with `...` a parameter
/// (C11 6.7.6.3p9, p14).
fn prototype_fits(has_parameter: bool, proto: bool, variadic: bool) -> bool
    ensures { result ≡ ((proto || (not has_parameter && not variadic)) && (not variadic || has_parameter)) }
{
    (proto || (!has_parameter && !variadic)) && (!variadic || has_parameter)
}

/// Whether an array's element is a complete object type, and its bound at least 1 (C11 6.7.6.2p1).
fn array_fits(g: &TypeGraph, tops: &[Tops], n: &Node) -> bool
    requires table { AreTops tops.now g.now }
    requires whole { length tops.now ≡ length g.now.nodes }
    requires there { NamesBelow (length g.now.nodes) (length g.now.aggs) n.now }
    ensures { result ≡ array_fits g.now n.now }
{
    match n {
        Node::Array(q, bound) => entry(g, tops, q.of).complete && bound_fits(bound),
        Node::Void | Node::Int(_) | Node::Ptr(_) | Node::Func { .. } | Node::Agg(_) => true,
    }
}

/// Whether a function's result and parameters are types that it may give and take.
fn function_fits(g: &TypeGraph, n: &Node) -> bool
    requires { NamesBelow (length g.now.nodes) (length g.now.aggs) n.now }
    ensures { result ≡ function_fits (shape_of (shape g.now.nodes) n.now) }
{
    match n {
        Node::Func { ret, params, .. } => is_result(g, *ret)
            && are_parameters(g, params.as_slice()),
        Node::Void | Node::Int(_) | Node::Ptr(_) | Node::Array(..) | Node::Agg(_) => true,
    }
}

/// Whether a function type has parameters as its prototype allows.
#[tactic(auto, using(crate::proofs::TypeSteps::some_parameter))]
fn has_prototype(g: &TypeGraph, n: &Node) -> bool
    ensures { result ≡ prototype_fits (shape_of (shape g.now.nodes) n.now) }
{
    match n {
        Node::Func {
            params,
            proto,
            variadic,
            ..
        } => { prototype_fits(!params.as_slice().is_empty(), *proto, *variadic) }
        Node::Void | Node::Int(_) | Node::Ptr(_) | Node::Array(..) | Node::Agg(_) => true,
    }
}

/// Whether a type that names types of the graph keeps the rules of types.
fn keeps_rules(g: &TypeGraph, tops: &[Tops], n: &Node) -> bool
    requires table { AreTops tops.now g.now }
    requires whole { length tops.now ≡ length g.now.nodes }
    requires there { NamesBelow (length g.now.nodes) (length g.now.aggs) n.now }
    ensures { result ≡ node_rules g.now n.now (shape_of (shape g.now.nodes) n.now) }
{
    node_is_unqualified(n) && array_fits(g, tops, n) && function_fits(g, n) && has_prototype(g, n)
}

/// Whether a type of the graph keeps the rules of types.
#[tactic(auto, using(crate::proofs::TypeSteps::names_there, crate::proofs::TypeSteps::node_fits_is))]
fn node_fits(g: &TypeGraph, tops: &[Tops], t: TypeId) -> bool
    requires table { AreTops tops.now g.now }
    requires whole { length tops.now ≡ length g.now.nodes }
    requires there { t.0 < length g.now.nodes }
    ensures { result ≡ node_fits_at g.now t.0 }
{
    keeps_rules(g, tops, g.node(t))
}

/// Whether all types keep the rules of types.
pub(crate) fn nodes_fit(g: &TypeGraph, tops: &[Tops]) -> bool
    requires table { AreTops tops.now g.now }
    requires whole { length tops.now ≡ length g.now.nodes }
    ensures fit { IsTrue result → (t : ℕ) → t < length g.now.nodes → node_fits_at g.now t ≡ true }
    ensures unfit { result ≡ false → (t : ℕ) × (t < length g.now.nodes) × (node_fits_at g.now t ≡ false) }
{
    for t in 0..g.len() {
        if !node_fits(g, tops, TypeId(t)) {
            return false;
        }
    }
    true
}
