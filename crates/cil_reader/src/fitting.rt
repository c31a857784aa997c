ghost use Rattle.std.specs.Prelude.{◌≡◌, ◌<◌, Some, None, true, false, length, slice_get, IsTrue};
ghost use Rattle.type_graph.specs.Arena.{members_of, members_fit};
ghost use Rattle.type_graph.specs.declared.aggregates.Aggregate.{Aggregate};
ghost use Rattle.std.specs.List.{list_all};
ghost use Rattle.cil_tree.specs.WellFormedTypes.{has_member};
ghost use Rattle.cil_reader.specs.Members.{may_complete};

use cil_base::AggId;
use type_graph::{Aggregate, Member, TypeGraph};
use unit_types::members_fit;

/// Whether an aggregate of the graph is incomplete, and may have these members.
#[tactic(auto, using(crate::proofs::MemberLaws::hold_past, crate::proofs::MemberLaws::hold_known, crate::proofs::MemberLaws::hold_fits))]
pub(crate) fn may_complete(g: &TypeGraph, a: AggId, members: &[Member]) -> bool
    ensures is { result ≡ may_complete g.now a.0 members.now }
    ensures there { IsTrue result → a.0 < length g.now.aggs }
    ensures open { IsTrue result → members_of g.now.aggs a.0 ≡ None }
    ensures fit { IsTrue result → (x : Aggregate) → slice_get g.now.aggs a.0 ≡ Some x → members_fit g.now x.kind false members.now ≡ true }
{
    if a.0 >= g.agg_count() {
        return false;
    }
    let x = g.agg(a);
    if x.members.is_some() {
        return false;
    }
    members_fit(g, x.kind, members)
}

/// Whether an aggregate is incomplete or has a member.
#[tactic(auto, using(crate::proofs::FilledLaws::is_open, crate::proofs::FilledLaws::has_none, crate::proofs::FilledLaws::has_some))]
fn has_member(x: &Aggregate) -> bool
    ensures { result ≡ has_member x.now }
{
    let Some(members) = &x.members else {
        return true;
    };
    !members.as_slice().is_empty()
}

/// Whether each aggregate is incomplete or has a member (C11 6.7.2.1p8, 6.7.2.2p1).
#[tactic(auto, using(crate::proofs::FilledLaws::fills_next, crate::proofs::FilledLaws::fills_not, crate::proofs::FilledLaws::fills_end))]
pub(crate) fn are_filled(g: &TypeGraph) -> bool
    ensures { result ≡ list_all has_member g.now.aggs }
{
    for i in 0..g.agg_count() {
        if !has_member(g.agg(AggId(i))) {
            return false;
        }
    }
    true
}
