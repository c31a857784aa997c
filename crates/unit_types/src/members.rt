ghost use Rattle.std.specs.Prelude.{◌≡◌, ◌<◌, ◌&&◌, ◌||◌, true, false, None, Some, length, slice_get, IsTrue};
ghost use Rattle.type_graph.specs.declared.aggregates.Aggregate.{Aggregate};
ghost use Rattle.type_graph.specs.Shapes.{shape};
ghost use Rattle.type_graph.specs.Arena.{complete, flexible_shape, is_struct, members_of, members_fit};
ghost use Rattle.type_graph.specs.declared.nodes.Node.{Node};
ghost use Rattle.unit_types.specs.Normal.{is_plain, bears, is_normal, normal_node, normal_members, NormalFrom};

use cil_base::{AggId, TypeId};
use type_graph::{AggKind, Member, Node, QualType, Quals, TypeGraph};

/// Whether there are no qualifiers.
fn is_plain(q: Quals) -> bool
    ensures { result ≡ is_plain q }
{
    !q.constant && !q.restricted
}

/// Whether a type bears qualifiers of its own: neither an array nor a function does (C11 6.7.3p9).
fn bears(g: &TypeGraph, t: TypeId) -> bool
    requires { t.0 < length g.now.nodes }
    ensures { result ≡ bears (shape g.now.nodes t.0) }
{
    match g.node(t) {
        Node::Void | Node::Int(_) | Node::Ptr(_) | Node::Agg(_) => true,
        Node::Array(..) | Node::Func { .. } => false,
    }
}

/// Whether a qualified type is no qualified array or function; one that is not there is none.
#[tactic(auto, using(type_graph::proofs::ShapeLaws::shape_past))]
fn has_normal_form(g: &TypeGraph, q: QualType) -> bool
    ensures { result ≡ is_normal q.quals (shape g.now.nodes q.of.0) }
{
    is_plain(q.quals) || q.of.0 >= g.len() || bears(g, q.of)
}

/// Whether a qualified type is there, and is no qualified array or function.
pub(crate) fn is_normal(g: &TypeGraph, q: QualType) -> bool
    ensures there { IsTrue result → q.of.0 < length g.now.nodes }
    ensures normal { IsTrue result → is_normal q.quals (shape g.now.nodes q.of.0) ≡ true }
    ensures whole { q.of.0 < length g.now.nodes → is_normal q.quals (shape g.now.nodes q.of.0) ≡ true → IsTrue result }
{
    q.of.0 < g.len() && has_normal_form(g, q)
}

/// Whether the qualified type that a type names is in normal form.
fn is_normal_node(g: &TypeGraph, t: TypeId) -> bool
    requires { t.0 < length g.now.nodes }
    ensures { IsTrue result → (n : Node) → slice_get g.now.nodes t.0 ≡ Some n → normal_node g.now.nodes n ≡ true }
{
    match g.node(t) {
        Node::Ptr(q) => is_normal(g, *q),
        Node::Array(q, _) => is_normal(g, *q),
        Node::Void | Node::Int(_) | Node::Func { .. } | Node::Agg(_) => true,
    }
}

/// Whether the types from a number on name types in normal form.
pub(crate) fn new_are_normal(g: &TypeGraph, first: u32) -> bool
    ensures { IsTrue result → NormalFrom first g.now }
{
    for t in first..g.len() {
        if !is_normal_node(g, TypeId(t)) {
            return false;
        }
    }
    true
}

/// Whether a type is a complete object type (C11 6.2.5p1); one that is not there is none.
#[tactic(auto, using(crate::proofs::StepLaws::complete_past))]
pub(crate) fn is_complete(g: &TypeGraph, t: TypeId) -> bool
    ensures { result ≡ complete g.now t.0 }
{
    if t.0 >= g.len() {
        return false;
    }
    g.is_complete(t)
}

/// Whether a type is an array of unknown bound whose element is complete (C11 6.7.2.1p18).
#[tactic(auto, using(crate::proofs::StepLaws::flexible_past))]
fn is_flexible(g: &TypeGraph, t: TypeId) -> bool
    ensures { result ≡ flexible_shape g.now.aggs (shape g.now.nodes t.0) }
{
    if t.0 >= g.len() {
        return false;
    }
    match g.node(t) {
        Node::Array(element, None) => is_complete(g, element.of),
        Node::Array(_, Some(_)) => false,
        Node::Void | Node::Int(_) | Node::Ptr(_) | Node::Func { .. } | Node::Agg(_) => false,
    }
}

/// Whether an aggregate is a struct.
fn is_struct(kind: AggKind) -> bool
    ensures { result ≡ is_struct kind }
{
    match kind {
        AggKind::Struct => true,
        AggKind::Union | AggKind::Enum => false,
    }
}

/// Whether a member may have a type, where it stands behind others or not, and last or not (C11 6.7.2.1p3, p18).
fn member_fits(g: &TypeGraph, kind: AggKind, behind: bool, last: bool, t: TypeId) -> bool
    ensures { result ≡ (complete g.now t.0 || (is_struct kind && (behind && (last && flexible_shape g.now.aggs (shape g.now.nodes t.0))))) }
{
    is_complete(g, t) || (is_struct(kind) && behind && last && is_flexible(g, t))
}

/// Whether an aggregate of a kind may have these members (C11 6.7.2.1p3, p18).
#[tactic(auto, using(crate::proofs::MemberLists::fit_stops, crate::proofs::MemberLists::fit_next, crate::proofs::MemberLists::fit_ends))]
pub fn members_fit(g: &TypeGraph, kind: AggKind, members: &[Member]) -> bool
    ensures { result ≡ members_fit g.now kind false members.now }
{
    for i in 0..members.len() {
        if !member_fits(g, kind, i > 0, i + 1 == members.len(), members[i].ty.of) {
            return false;
        }
    }
    true
}

/// Whether no member has a qualified array or function type.
#[tactic(auto, using(crate::proofs::MemberLists::normal_stops, crate::proofs::MemberLists::normal_next, crate::proofs::MemberLists::normal_ends))]
fn are_normal(g: &TypeGraph, members: &[Member]) -> bool
    ensures { result ≡ normal_members g.now members.now }
{
    for i in 0..members.len() {
        if !has_normal_form(g, members[i].ty) {
            return false;
        }
    }
    true
}

/// Whether an aggregate is there and incomplete, and may have these members.
pub fn can_complete(g: &TypeGraph, a: AggId, members: &[Member]) -> bool
    ensures there { IsTrue result → a.0 < length g.now.aggs }
    ensures incomplete { IsTrue result → members_of g.now.aggs a.0 ≡ None }
    ensures fit { IsTrue result → (x : Aggregate) → slice_get g.now.aggs a.0 ≡ Some x → members_fit g.now x.kind false members.now ≡ true }
    ensures normal { IsTrue result → normal_members g.now members.now ≡ true }
    ensures whole { (x : Aggregate) → slice_get g.now.aggs a.0 ≡ Some x → x.members ≡ None → members_fit g.now x.kind false members.now ≡ true → normal_members g.now members.now ≡ true → IsTrue result }
{
    if a.0 >= g.agg_count() || g.agg(a).members.is_some() {
        return false;
    }
    members_fit(g, g.agg(a).kind, members) && are_normal(g, members)
}
