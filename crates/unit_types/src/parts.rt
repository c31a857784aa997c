ghost use Rattle.std.specs.Prelude.{◌≡◌, ◌<◌, true, false, None, Some, length, slice_get, IfOk, IfErr, OnOk, OnErr};
ghost use Rattle.type_graph.specs.declared.aggregates.Aggregate.{Aggregate};
ghost use Rattle.type_graph.specs.Shapes.{shape, shape_of};
ghost use Rattle.type_graph.specs.Arena.{NamesBelow, HasKind, empty_graph, members_of, members_fit};
ghost use Rattle.type_graph.specs.Growth.{Grows, KeepsAggregates, with_agg, with_members};
ghost use Rattle.layout_lp64.specs.Tables.{InStep, WereInStep};
ghost use Rattle.layout_lp64.specs.Stops.{StopsAt};
ghost use Rattle.layout_lp64.specs.declared.layouts.LayoutStop.TheVariants.{Memory as WantOfMemory};
ghost use Rattle.unit_types.specs.Normal.{IsNormal, normal_node, normal_members};
ghost use Rattle.type_compat.specs.Composed.{composite_shape};
ghost use Rattle.type_compat.specs.Parts.{GainsParts};
ghost use Rattle.unit_types.specs.Known.{KeepsKnown, KnowsCompleted};
ghost use Rattle.unit_types.specs.Steps.{Makes, StopsWith, StopsMaking, StopsCompleting};

use crate::members::new_are_normal;
use cil_base::{Abi, AggId, NameId, TypeId};
use layout_lp64::{LayoutStop, Layouts};
use std::alloc::Global;
use type_compat::composite;
use type_graph::{AggKind, Members, Node, TypeGraph};

/// An arena with its layouts.
#[derive(Drop)]
pub(crate) struct Parts {
    pub(crate) graph: TypeGraph,
    pub(crate) layouts: Layouts,
}

impl Parts {
    /// No types.
    pub(crate) fn new(alloc: Global, abi: Abi) -> Self
        ensures graph { result.graph ≡ empty_graph abi }
        ensures step { InStep result.layouts result.graph }
    {
        Parts {
            graph: TypeGraph::new_for(alloc, abi),
            layouts: Layouts::new(alloc),
        }
    }
}

/// Brings the layouts up to date with the arena. After an error there are no types.
#[tactic(auto, using(crate::proofs::NormalLaws::normal_empty, crate::proofs::ConstantLaws::keeps_same, crate::proofs::ConstantLaws::keeps_none))]
fn keep_up(alloc: Global, parts: &mut Parts) -> Result<(), LayoutStop>
    requires before { WereInStep parts.old.layouts parts.old.graph }
    ensures ok { OnOk result (parts.new.graph ≡ parts.old.graph) }
    ensures stops { IfErr result (λ e. StopsAt parts.old.graph e) }
    ensures err { OnErr result (parts.new.graph ≡ empty_graph parts.old.graph.abi) }
    ensures step { InStep parts.new.layouts parts.new.graph }
    ensures normal { IsNormal parts.old.graph → IsNormal parts.new.graph }
    ensures constants { KeepsKnown parts.old.graph parts.new.graph }
{
    match parts.layouts.update(&parts.graph) {
        Ok(()) => Ok(()),
        Err(stop) => {
            *parts = Parts::new(alloc, parts.graph.abi());
            Err(stop)
        }
    }
}

/// The number of a type. After `TooBig` there are no types.
#[tactic(auto, using(type_graph::proofs::GrowthLaws::gains_one, crate::proofs::StepLaws::were_in_step, crate::proofs::StepLaws::still_in_step, crate::proofs::StepLaws::stops_added, crate::proofs::NormalLaws::normal_added, crate::proofs::ConstantLaws::keeps_same, crate::proofs::ConstantLaws::keeps_grown))]
pub(crate) fn add(alloc: Global, parts: &mut Parts, n: Node) -> Result<TypeId, LayoutStop>
    requires step { InStep parts.old.layouts parts.old.graph }
    requires normal { IsNormal parts.old.graph }
    requires names { NamesBelow (length parts.old.graph.nodes) (length parts.old.graph.aggs) n }
    requires kind { HasKind parts.old.graph.abi n }
    requires form { normal_node parts.old.graph.nodes n ≡ true }
    ensures makes { IfOk result (λ t. Makes parts.old.graph parts.new.graph (shape_of (shape parts.old.graph.nodes) n) t.0) }
    ensures stops { IfErr result (λ e. StopsWith parts.old.graph n e) }
    ensures step { InStep parts.new.layouts parts.new.graph }
    ensures normal { IsNormal parts.new.graph }
    ensures constants { KeepsKnown parts.old.graph parts.new.graph }
{
    let known = parts.graph.len();
    let t = parts.graph.add_node(n)?;
    if t.0 < known {
        return Ok(t);
    }
    keep_up(alloc, parts)?;
    Ok(t)
}

/// Adds an incomplete struct, union or enum.
#[tactic(auto, using(crate::proofs::StepLaws::were_in_step, crate::proofs::NormalLaws::normal_agg, crate::proofs::ConstantLaws::keeps_same, crate::proofs::ConstantLaws::keeps_agg))]
pub(crate) fn add_agg(
    alloc: Global,
    parts: &mut Parts,
    kind: AggKind,
    tag: Option<NameId>,
) -> Result<AggId, LayoutStop>
    requires step { InStep parts.old.layouts parts.old.graph }
    requires normal { IsNormal parts.old.graph }
    ensures ok { IfOk result (λ a. (a.0 ≡ length parts.old.graph.aggs) × (parts.new.graph ≡ with_agg parts.old.graph (record { kind = kind; tag = tag; members = None }))) }
    ensures grows { OnOk result (Grows parts.old.graph parts.new.graph) }
    ensures stops { IfErr result (λ e. StopsAt (with_agg parts.old.graph (record { kind = kind; tag = tag; members = None })) e) }
    ensures step { InStep parts.new.layouts parts.new.graph }
    ensures normal { IsNormal parts.new.graph }
    ensures constants { KeepsKnown parts.old.graph parts.new.graph }
{
    // What is known of an arena is known where it is read.
    let _types = parts.graph.len();
    let a = parts.graph.add_agg(kind, tag)?;
    keep_up(alloc, parts)?;
    Ok(a)
}

/// Gives an incomplete aggregate its members. After `TooBig` there are no types.
#[tactic(auto, using(crate::proofs::StepLaws::were_in_step, crate::proofs::StepLaws::stops_completed, crate::proofs::NormalLaws::normal_completed, crate::proofs::ConstantLaws::completes_same))]
pub(crate) fn complete(
    alloc: Global,
    parts: &mut Parts,
    a: AggId,
    members: Members,
) -> Result<(), LayoutStop>
    requires step { InStep parts.old.layouts parts.old.graph }
    requires normal { IsNormal parts.old.graph }
    requires incomplete { members_of parts.old.graph.aggs a.0 ≡ None }
    requires there { a.0 < length parts.old.graph.aggs }
    requires fit { (x : Aggregate) → slice_get parts.old.graph.aggs a.0 ≡ Some x → members_fit parts.old.graph x.kind false members ≡ true }
    requires form { normal_members parts.old.graph members ≡ true }
    ensures ok { OnOk result ((x : Aggregate) → slice_get parts.old.graph.aggs a.0 ≡ Some x → parts.new.graph ≡ with_members parts.old.graph a x members) }
    ensures grows { OnOk result (Grows parts.old.graph parts.new.graph) }
    ensures stops { IfErr result (StopsCompleting parts.old.graph a members) }
    ensures step { InStep parts.new.layouts parts.new.graph }
    ensures normal { IsNormal parts.new.graph }
    ensures constants { KnowsCompleted a members parts.old.graph parts.new.graph }
{
    // What is known of an arena is known where it is read.
    let _types = parts.graph.len();
    parts.graph.complete(a, members)?;
    match keep_up(alloc, parts) {
        Ok(()) => Ok(()),
        Err(stop) => Err(stop),
    }
}

/// The answer of want of memory, after which there are no types.
#[tactic(auto, using(crate::proofs::NormalLaws::normal_empty, crate::proofs::ConstantLaws::keeps_none))]
fn emptied(alloc: Global, parts: &mut Parts) -> LayoutStop
    ensures is { result ≡ WantOfMemory }
    ensures step { InStep parts.new.layouts parts.new.graph }
    ensures normal { IsNormal parts.new.graph }
    ensures constants { KeepsKnown parts.old.graph parts.new.graph }
{
    *parts = Parts::new(alloc, parts.graph.abi());
    LayoutStop::Memory
}

/// The composite of two types (C11 6.2.7p3). After an error there are no types.
#[tactic(auto, using(crate::proofs::StepLaws::were_in_step, crate::proofs::StepLaws::stops_made, crate::proofs::NormalLaws::normal_grown, crate::proofs::ConstantLaws::keeps_same, crate::proofs::ConstantLaws::keeps_grown))]
pub(crate) fn compose(
    alloc: Global,
    parts: &mut Parts,
    a: TypeId,
    b: TypeId,
) -> Result<TypeId, LayoutStop>
    requires step { InStep parts.old.layouts parts.old.graph }
    requires normal { IsNormal parts.old.graph }
    requires left { a.0 < length parts.old.graph.nodes }
    requires right { b.0 < length parts.old.graph.nodes }
    ensures is { IfOk result (λ t. shape parts.new.graph.nodes t.0 ≡ composite_shape (shape parts.old.graph.nodes a.0) (shape parts.old.graph.nodes b.0)) }
    ensures there { IfOk result (λ t. t.0 < length parts.new.graph.nodes) }
    ensures grows { OnOk result (Grows parts.old.graph parts.new.graph) }
    ensures aggregates { OnOk result (KeepsAggregates parts.old.graph parts.new.graph) }
    ensures gains { IfOk result (λ t. GainsParts parts.old.graph parts.new.graph (shape parts.new.graph.nodes t.0)) }
    ensures stops { IfErr result (λ e. StopsMaking parts.old.graph (composite_shape (shape parts.old.graph.nodes a.0) (shape parts.old.graph.nodes b.0)) e) }
    ensures step { InStep parts.new.layouts parts.new.graph }
    ensures normal { IsNormal parts.new.graph }
    ensures constants { KeepsKnown parts.old.graph parts.new.graph }
{
    let first = parts.graph.len();
    let Ok(t) = composite(alloc, &mut parts.graph, a, b) else {
        return Err(emptied(alloc, parts));
    };
    if !new_are_normal(&parts.graph, first) {
        return Err(emptied(alloc, parts));
    }
    keep_up(alloc, parts)?;
    Ok(t)
}
