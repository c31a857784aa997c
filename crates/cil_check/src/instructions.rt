ghost use Rattle.std.specs.Prelude.{◌≡◌, ◌<◌, ◌&&◌, length, map, IfSome};
ghost use Rattle.std.specs.Option.{option_map};
ghost use Rattle.type_graph.specs.Shapes.{shape, shape_of, shapes_of, NoTypes};
ghost use Rattle.type_graph.specs.Arena.{Graph, EachType, NamesBelow};
ghost use Rattle.cil_tree.specs.Typing.{is_scalar, is_type};
ghost use Rattle.cil_tree.specs.View.{exp_of, lval_of, callee_of, instr_of};
ghost use Rattle.cil_tree.specs.Bodies.{has_type, set_fits, zero_fits, is_promoted, argument_is_promoted, arguments_fit, result_fits, callee_type, called_fits, call_fits, instr_fits, test_fits, kind_of, switch_kind, return_fits};
ghost use Rattle.cil_tree.specs.Typing.{place_type};
ghost use Rattle.cil_check.specs.Seen.{seen_shape, seen_scope, IsThere, at};

use crate::expressions::{global_type, place_type, type_of};
use crate::operators::{is_scalar, is_void, is_wide, names_enum, pointed};
use crate::scope::Scope;
use crate::seen::{Seen, is_same, same_number, see};
use cil_base::{IntKind, TypeId};
use cil_tree::{Callee, Exp, Instr, Lval};
use type_graph::{Node, TypeGraph};

/// Whether an expression has exactly a type of the graph.
fn has_type(s: &Scope, e: &Exp, t: TypeId) -> bool
    requires { t.0 < length s.now.unit.now.graph.nodes }
    ensures { result ≡ has_type (seen_scope s.now) (exp_of s.now.unit.now.graph.nodes e.now) (shape s.now.unit.now.graph.nodes t.0) }
{
    match type_of(s, e) {
        None => false,
        Some(found) => is_same(&s.unit.graph, found, see(&s.unit.graph, t)),
    }
}

/// Whether a value may be assigned to a place (C11 6.5.16.1): it is complete, and the value has exactly its type.
fn set_fits(s: &Scope, place: &Lval, value: &Exp) -> bool
    ensures { result ≡ set_fits (seen_scope s.now) (lval_of s.now.unit.now.graph.nodes place.now) (exp_of s.now.unit.now.graph.nodes value.now) }
{
    match place_type(s, place) {
        None => false,
        Some(t) => s.unit.graph.is_complete(t) && has_type(s, value, t),
    }
}

/// Whether a place may be zeroed: it is complete.
fn zero_fits(s: &Scope, place: &Lval) -> bool
    ensures { result ≡ zero_fits (seen_scope s.now) (lval_of s.now.unit.now.graph.nodes place.now) }
{
    match place_type(s, place) {
        None => false,
        Some(t) => s.unit.graph.is_complete(t),
    }
}

/// Whether the default argument promotions leave a type as it is (C11 6.5.2.2p6).
fn is_promoted(g: &TypeGraph, t: Seen) -> bool
    requires { IsThere g.now t }
    ensures { result ≡ is_promoted g.now (seen_shape g.now t) }
{
    match t {
        Seen::Int(kind) => is_wide(kind),
        Seen::Ptr(_) => true,
        Seen::Other(t) => is_record(g, t),
    }
}

/// Whether a type that is neither a kind nor a pointer is a struct or union.
fn is_record(g: &TypeGraph, t: TypeId) -> bool
    requires { IsThere g.now (Seen.Other t) }
    ensures { result ≡ is_promoted g.now (shape g.now.nodes t.0) }
{
    match g.node(t) {
        Node::Agg(a) => !names_enum(g, *a),
        Node::Void | Node::Int(_) | Node::Ptr(_) | Node::Array(..) | Node::Func { .. } => false,
    }
}

/// Whether an argument without a parameter has a promoted type.
fn argument_is_promoted(s: &Scope, e: &Exp) -> bool
    ensures { result ≡ argument_is_promoted (seen_scope s.now) (exp_of s.now.unit.now.graph.nodes e.now) }
{
    match type_of(s, e) {
        None => false,
        Some(t) => is_promoted(&s.unit.graph, t),
    }
}

/// Whether an argument past the parameters fits.
fn may_follow(s: &Scope, more: bool, e: &Exp) -> bool
    ensures { result ≡ (more && argument_is_promoted (seen_scope s.now) (exp_of s.now.unit.now.graph.nodes e.now)) }
{
    more && argument_is_promoted(s, e)
}

/// Whether the arguments past the parameters fit: there may be more, and each has a promoted type (C11 6.5.2.2p6, p7).
fn rest_fits(s: &Scope, more: bool, arguments: &[Exp]) -> bool
    ensures { result ≡ arguments_fit (seen_scope s.now) NoTypes more (map (exp_of s.now.unit.now.graph.nodes) arguments.now) }
{
    for i in 0..arguments.len() {
        if !may_follow(s, more, &arguments[i]) {
            return false;
        }
    }
    true
}

/// Whether the arguments have exactly the parameters' types, in their number, and those past them promoted ones where
/// there may be more (C11 6.5.2.2p2, p6, p7).
fn arguments_fit(s: &Scope, params: &[TypeId], more: bool, arguments: &[Exp]) -> bool
    requires { EachType (length s.now.unit.now.graph.nodes) params.now }
    ensures { result ≡ arguments_fit (seen_scope s.now) (shapes_of (shape s.now.unit.now.graph.nodes) params.now) more (map (exp_of s.now.unit.now.graph.nodes) arguments.now) }
{
    for i in 0..params.len() {
        if i >= arguments.len() || !has_type(s, &arguments[i], params[i]) {
            return false;
        }
    }
    rest_fits(s, more, &arguments[params.len()..])
}

/// Whether a place has exactly a type.
fn place_has_type(s: &Scope, place: &Lval, t: TypeId) -> bool
    requires { t.0 < length s.now.unit.now.graph.nodes }
    ensures { result ≡ is_type (place_type (seen_scope s.now) (lval_of s.now.unit.now.graph.nodes place.now)) (shape s.now.unit.now.graph.nodes t.0) }
{
    match place_type(s, place) {
        None => false,
        Some(found) => same_number(&s.unit.graph, found, t),
    }
}

/// Whether a call's result is void or complete, and where it is stored has exactly the place's type.
fn result_fits(s: &Scope, place: &Option<Lval>, ret: TypeId) -> bool
    requires { ret.0 < length s.now.unit.now.graph.nodes }
    ensures { result ≡ result_fits (seen_scope s.now) (option_map (lval_of s.now.unit.now.graph.nodes) place.now) (shape s.now.unit.now.graph.nodes ret.0) }
{
    match place {
        None => is_void(&s.unit.graph, ret) || s.unit.graph.is_complete(ret),
        Some(place) => s.unit.graph.is_complete(ret) && place_has_type(s, place, ret),
    }
}

/// The type of what is called (C11 6.5.2.2p1).
fn callee_type(s: &Scope, callee: &Callee) -> Option<TypeId>
    ensures told { at s.now.unit.now.graph result ≡ callee_type (seen_scope s.now) (callee_of s.now.unit.now.graph.nodes callee.now) }
    ensures there { IfSome result (λ t. t.0 < length s.now.unit.now.graph.nodes) }
{
    match callee {
        Callee::Direct(number) => global_type(s, *number),
        Callee::Through(pointer) => pointed(&s.unit.graph, type_of(s, pointer)?),
    }
}

/// Whether a call of a function of that type fits.
fn node_call_fits(s: &Scope, place: &Option<Lval>, arguments: &[Exp], callee: &Node) -> bool
    requires { NamesBelow (length s.now.unit.now.graph.nodes) (length s.now.unit.now.graph.aggs) callee.now }
    ensures { result ≡ called_fits (seen_scope s.now) (option_map (lval_of s.now.unit.now.graph.nodes) place.now) (map (exp_of s.now.unit.now.graph.nodes) arguments.now) (shape_of (shape s.now.unit.now.graph.nodes) callee.now) }
{
    match callee {
        Node::Func {
            ret,
            params,
            proto,
            variadic,
        } => {
            result_fits(s, place, *ret)
                && arguments_fit(s, params.as_slice(), !*proto || *variadic, arguments)
        }
        Node::Void | Node::Int(_) | Node::Ptr(_) | Node::Array(..) | Node::Agg(_) => false,
    }
}

/// Whether a call of what has that type fits.
#[tactic(auto, using(crate::proofs::TypeSteps::names_there))]
fn called_fits(s: &Scope, place: &Option<Lval>, arguments: &[Exp], callee: TypeId) -> bool
    requires { callee.0 < length s.now.unit.now.graph.nodes }
    ensures { result ≡ called_fits (seen_scope s.now) (option_map (lval_of s.now.unit.now.graph.nodes) place.now) (map (exp_of s.now.unit.now.graph.nodes) arguments.now) (shape s.now.unit.now.graph.nodes callee.0) }
{
    node_call_fits(s, place, arguments, s.unit.graph.node(callee))
}

/// Whether a call fits (C11 6.5.2.2): what is called is a function, and its result and arguments fit.
fn call_fits(s: &Scope, place: &Option<Lval>, callee: &Callee, arguments: &[Exp]) -> bool
    ensures { result ≡ call_fits (seen_scope s.now) (option_map (lval_of s.now.unit.now.graph.nodes) place.now) (callee_of s.now.unit.now.graph.nodes callee.now) (map (exp_of s.now.unit.now.graph.nodes) arguments.now) }
{
    match callee_type(s, callee) {
        None => false,
        Some(t) => called_fits(s, place, arguments, t),
    }
}

/// Whether an instruction fits.
pub(crate) fn instr_fits(s: &Scope, instr: &Instr) -> bool
    ensures { result ≡ instr_fits (seen_scope s.now) (instr_of s.now.unit.now.graph.nodes instr.now) }
{
    match instr {
        Instr::Set(place, value) => set_fits(s, place, value),
        Instr::Call(place, callee, arguments) => call_fits(s, place, callee, arguments),
        Instr::Zero(place) => zero_fits(s, place),
    }
}

/// Whether a test is scalar (C11 6.8.4.1p1).
pub(crate) fn test_fits(s: &Scope, e: &Exp) -> bool
    ensures { result ≡ test_fits (seen_scope s.now) (exp_of s.now.unit.now.graph.nodes e.now) }
{
    match type_of(s, e) {
        None => false,
        Some(t) => is_scalar(&s.unit.graph, t),
    }
}

/// The kind of a type that is an integer's, int or wider.
fn kind_of(t: Seen) -> Option<IntKind>
    ensures { (g : Graph) → IsThere g t → result ≡ kind_of (seen_shape g t) }
{
    match t {
        Seen::Int(kind) => if is_wide(kind) { Some(kind) } else { None },
        Seen::Ptr(_) | Seen::Other(_) => None,
    }
}

/// The kind of a switch's value, int or wider (C11 6.8.4.2p1, p5).
pub(crate) fn switch_kind(s: &Scope, e: &Exp) -> Option<IntKind>
    ensures { result ≡ switch_kind (seen_scope s.now) (exp_of s.now.unit.now.graph.nodes e.now) }
{
    kind_of(type_of(s, e)?)
}

/// Whether `return` fits a function of that result (C11 6.8.6.4p1).
pub(crate) fn return_fits(s: &Scope, ret: TypeId, value: &Option<Exp>) -> bool
    requires { ret.0 < length s.now.unit.now.graph.nodes }
    ensures { result ≡ return_fits (seen_scope s.now) (shape s.now.unit.now.graph.nodes ret.0) (option_map (exp_of s.now.unit.now.graph.nodes) value.now) }
{
    match value {
        None => is_void(&s.unit.graph, ret),
        Some(e) => !is_void(&s.unit.graph, ret) && has_type(s, e, ret),
    }
}
