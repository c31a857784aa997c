ghost use Rattle.std.specs.Prelude.{◌≡◌, ◌<◌, ◌+◌, ◌&&◌, not, if◌then◌else◌, length, drop, true, false, ℕ, Bool, IsTrue};
ghost use Rattle.std.specs.List.{list_all};
ghost use Rattle.type_graph.specs.declared.aggregates.Member.{Member};
ghost use Rattle.cil_base.specs.declared.kinds.IntKind.TheVariants.{Int as int};
ghost use Rattle.type_graph.specs.Shapes.{shape, IntType};
ghost use Rattle.type_graph.specs.Arena.{IsArena, flexible_shape, members_fit, is_struct};
ghost use Rattle.cil_tree.specs.Typing.{is_enum, same_shape};
ghost use Rattle.cil_tree.specs.WellFormedTypes.{is_unqualified, member_fits, is_nonempty, enums_first};
ghost use Rattle.cil_check.specs.Rules.{AreThere, AreTops, HasMembers, stands_here, member_is_after, members_rules, aggregate_rules, aggregate_fits_at, ordered};

use crate::elements::{Tops, entry};
use crate::nodes::is_unqualified;
use cil_base::{AggId, IntKind, TypeId};
use type_graph::{AggKind, Aggregate, Member, Node, TypeGraph};

/// Whether no member's type has qualifiers.
#[tactic(auto, using(crate::proofs::TypeSteps::all_from))]
fn are_unqualified(members: &[Member]) -> bool
    ensures { result ≡ list_all (λ (m : Member). is_unqualified m.ty.quals) members.now }
{
    for i in 0..members.len() {
        if !is_unqualified(members[i].ty.quals) {
            return false;
        }
    }
    true
}

/// Whether the aggregate is an enum.
fn is_enum(kind: AggKind) -> bool
    ensures { result ≡ is_enum kind }
{
    match kind {
        AggKind::Enum => true,
        AggKind::Struct | AggKind::Union => false,
    }
}

/// Whether the aggregate is a struct.
fn is_struct(kind: AggKind) -> bool
    ensures { result ≡ is_struct kind }
{
    match kind {
        AggKind::Struct => true,
        AggKind::Union | AggKind::Enum => false,
    }
}

/// Whether the type is int.
fn is_int(g: &TypeGraph, t: TypeId) -> bool
    requires { t.0 < length g.now.nodes }
    ensures { result ≡ same_shape (shape g.now.nodes t.0) (IntType int) }
{
    match g.node(t) {
        Node::Int(kind) => *kind == IntKind::Int,
        Node::Void | Node::Ptr(_) | Node::Array(..) | Node::Func { .. } | Node::Agg(_) => false,
    }
}

/// Whether an enumerator has type int, and another member no value. Each value that a tree can have is one of int.
fn member_fits(g: &TypeGraph, enumerator: bool, member: &Member) -> bool
    requires { member.now.ty.of.0 < length g.now.nodes }
    ensures { result ≡ member_fits g.now enumerator member.now }
{
    let value = member.value;
    if enumerator {
        is_int(g, member.ty.of)
    } else {
        value == 0
    }
}

/// Whether each member is as its kind of aggregate has members.
#[tactic(auto, using(crate::proofs::TypeSteps::all_from, crate::proofs::TypeSteps::member_there))]
fn have_kind(g: &TypeGraph, enumerators: bool, members: &[Member]) -> bool
    requires { AreThere (length g.now.nodes) members.now }
    ensures { result ≡ list_all (member_fits g.now enumerators) members.now }
{
    for i in 0..members.len() {
        if !member_fits(g, enumerators, &members[i]) {
            return false;
        }
    }
    true
}

/// Whether the type is an array of unknown bound whose element is complete.
fn is_flexible(g: &TypeGraph, tops: &[Tops], t: TypeId) -> bool
    requires table { AreTops tops.now g.now }
    requires whole { length tops.now ≡ length g.now.nodes }
    requires there { t.0 < length g.now.nodes }
    ensures { result ≡ flexible_shape g.now.aggs (shape g.now.nodes t.0) }
{
    match g.node(t) {
        Node::Array(q, None) => entry(g, tops, q.of).complete,
        Node::Void | Node::Int(_) | Node::Ptr(_) | Node::Func { .. } | Node::Agg(_) => false,
        Node::Array(_, Some(_)) => false,
    }
}

/// Whether a member is complete, or a flexible array that may stand where it does: last in a struct behind another.
fn may_stand(
    g: &TypeGraph,
    tops: &[Tops],
    kind: AggKind,
    behind: bool,
    rest: &[Member],
    t: TypeId,
) -> bool
    requires table { AreTops tops.now g.now }
    requires whole { length tops.now ≡ length g.now.nodes }
    requires there { t.0 < length g.now.nodes }
    ensures { result ≡ stands_here g.now (is_struct kind) behind rest.now t.0 }
{
    entry(g, tops, t).complete
        || (is_struct(kind) && behind && rest.is_empty() && is_flexible(g, tops, t))
}

/// Whether a flexible array stands only as a struct's last member behind another (C11 6.7.2.1p3, p18).
fn flexible_is_last(g: &TypeGraph, tops: &[Tops], kind: AggKind, members: &[Member]) -> bool
    requires table { AreTops tops.now g.now }
    requires whole { length tops.now ≡ length g.now.nodes }
    requires there { AreThere (length g.now.nodes) members.now }
    ensures { result ≡ members_fit g.now kind false members.now }
{
    let mut behind = false;
    for i in 0..members.len() {
        if !may_stand(g, tops, kind, behind, &members[i + 1..], members[i].ty.of) {
            return false;
        }
        behind = true;
    }
    true
}

/// Whether an aggregate with the number stands after those that its members hold by value, and after those that are
/// elements of an array anywhere in their types.
#[tactic(auto, using(crate::proofs::TypeSteps::all_from, crate::proofs::TypeSteps::member_there))]
fn stands_after(g: &TypeGraph, tops: &[Tops], a: AggId, members: &[Member]) -> bool
    requires table { AreTops tops.now g.now }
    requires whole { length tops.now ≡ length g.now.nodes }
    requires there { AreThere (length g.now.nodes) members.now }
    ensures { result ≡ list_all (member_is_after g.now a.0) members.now }
{
    for i in 0..members.len() {
        if !member_is_after(g, tops, a, &members[i]) {
            return false;
        }
    }
    true
}

/// Whether a member may be of an aggregate with the number.
#[tactic(auto, using(crate::proofs::ElementTable::after_is))]
fn member_is_after(g: &TypeGraph, tops: &[Tops], a: AggId, member: &Member) -> bool
    requires table { AreTops tops.now g.now }
    requires whole { length tops.now ≡ length g.now.nodes }
    requires there { member.now.ty.of.0 < length g.now.nodes }
    ensures { result ≡ member_is_after g.now a.0 member.now }
{
    entry(g, tops, member.ty.of).greatest() <= a.0 as u64
}

/// Whether the members of an aggregate with the number keep the rules of types.
fn members_keep_rules(
    g: &TypeGraph,
    tops: &[Tops],
    a: AggId,
    kind: AggKind,
    members: &[Member],
) -> bool
    requires table { AreTops tops.now g.now }
    requires whole { length tops.now ≡ length g.now.nodes }
    requires there { AreThere (length g.now.nodes) members.now }
    ensures { result ≡ members_rules g.now a.0 kind members.now }
{
    are_unqualified(members)
        && have_kind(g, is_enum(kind), members)
        && is_nonempty(members)
        && flexible_is_last(g, tops, kind, members)
        && stands_after(g, tops, a, members)
}

/// Whether there is a member.
fn is_nonempty(members: &[Member]) -> bool
    ensures { result ≡ is_nonempty members.now }
{
    match members {
        [] => false,
        [_, ..] => true,
    }
}

/// Whether an aggregate with the number keeps the rules of types.
fn keeps_rules(g: &TypeGraph, tops: &[Tops], a: AggId, x: &Aggregate) -> bool
    requires table { AreTops tops.now g.now }
    requires whole { length tops.now ≡ length g.now.nodes }
    requires there { HasMembers (length g.now.nodes) x.now }
    ensures { result ≡ aggregate_rules g.now a.0 x.now }
{
    x.tag.is_some()
        && match &x.members {
            None => !is_enum(x.kind),
            Some(members) => members_keep_rules(g, tops, a, x.kind, members.as_slice()),
        }
}

/// Whether an aggregate of the graph keeps the rules of types.
#[tactic(auto, using(crate::proofs::AggregateRules::members_there, crate::proofs::AggregateRules::aggregate_is))]
fn aggregate_fits(g: &TypeGraph, tops: &[Tops], a: AggId) -> bool
    requires arena { IsArena g.now }
    requires table { AreTops tops.now g.now }
    requires whole { length tops.now ≡ length g.now.nodes }
    requires there { a.0 < length g.now.aggs }
    ensures { result ≡ aggregate_fits_at g.now a.0 }
{
    keeps_rules(g, tops, a, g.agg(a))
}

/// Whether all aggregates keep the rules of types.
pub(crate) fn aggregates_fit(g: &TypeGraph, tops: &[Tops]) -> bool
    requires table { AreTops tops.now g.now }
    requires whole { length tops.now ≡ length g.now.nodes }
    ensures fit { IsTrue result → (a : ℕ) → a < length g.now.aggs → aggregate_fits_at g.now a ≡ true }
    ensures unfit { result ≡ false → (a : ℕ) × (a < length g.now.aggs) × (aggregate_fits_at g.now a ≡ false) }
{
    for a in 0..g.agg_count() {
        if !aggregate_fits(g, tops, AggId(a)) {
            return false;
        }
    }
    true
}

/// Whether an aggregate of the graph is an enum.
#[tactic(auto, using(crate::proofs::AggregateRules::kind_is))]
fn enum_at(g: &TypeGraph, a: AggId) -> bool
    requires { a.0 < length g.now.aggs }
    ensures { (seen : Bool) → ordered seen (drop a.0 g.now.aggs) ≡ (if result then (not seen && ordered seen (drop (a.0 + 1) g.now.aggs)) else ordered true (drop (a.0 + 1) g.now.aggs)) }
{
    is_enum(g.agg(a).kind)
}

/// Whether enums have smaller numbers than structs and unions (own).
#[tactic(auto, using(crate::proofs::AggregateRules::ordered_is))]
pub(crate) fn enums_first(g: &TypeGraph) -> bool
    ensures { result ≡ enums_first g.now.aggs }
{
    let mut seen = false;
    for a in 0..g.agg_count() {
        let is_enum = enum_at(g, AggId(a));
        if is_enum && seen {
            return false;
        }
        seen = seen || !is_enum;
    }
    true
}
