ghost use Rattle.std.specs.Prelude.{◌≡◌, ◌<◌, [], None, Some, map, length, slice_get, OnOk, IfOk};
ghost use Rattle.type_graph.specs.declared.aggregates.Aggregate.{Aggregate};
ghost use Rattle.type_graph.specs.Growth.{Grows, with_members};
ghost use Rattle.type_iso.specs.Classes.{class_count};
ghost use Rattle.cil_merge.specs.Classes.{IsAggregate, IsMember, AreMembers, AreClassesOf, AreTypes, HasTypes};
ghost use Rattle.cil_merge.specs.Numbering.{GainsTypes, AreRepresentatives, AreBegun, AreOnWay, Completes};

use crate::numbers::type_in;
use cil_base::{Abi, AggId, Memory, TypeId, UnitNo};
use link_names::{Fronted, unit_at, unit_number};
use map_graph::map_graph;
use std::alloc::Global;
use type_graph::{Aggregate, Member, Members, QualType, TypeGraph};
use type_iso::{ClassNo, Classes};
use type_things::{impossible, narrow};
use unit_types::can_complete;

/// The types of a program, and for each unit the numbers that its types have there.
#[derive(Drop)]
pub(crate) struct Arena {
    pub(crate) graph: TypeGraph,
    pub(crate) types: Vec<Vec<TypeId>>,
}

/// The structs, unions and enums that stand for the classes, in their order: each by its unit and its number there.
#[tactic(auto, using(crate::proofs::ClassLaws::none_stand, crate::proofs::ClassLaws::stand_next))]
fn representatives(alloc: Global, classes: &Classes) -> Result<Vec<(UnitNo, AggId)>, Memory>
    ensures { IfOk result (λ all. AreRepresentatives classes.now (class_count classes.now) all.items) }
{
    let mut all = Vec::new(alloc);
    for k in 0..classes.count() {
        let Some(found) = classes.representative(ClassNo(narrow(k)?)) else {
            return Err(impossible());
        };
        all.push(found)?;
    }
    Ok(all)
}

/// A struct, union or enum of a unit.
fn aggregate(units: &[Fronted], u: UnitNo, a: AggId) -> Result<&Aggregate, Memory>
    ensures { IfOk result (λ x. IsAggregate units.now (u, a) x.now) }
{
    let unit = unit_at(units, u)?;
    if a.0 >= unit.cil.graph.agg_count() {
        return Err(impossible());
    }
    Ok(unit.cil.graph.agg(a))
}

/// An aggregate for each class, in the order of the classes, without members.
#[tactic(auto, using(crate::proofs::ClassLaws::none_begun, crate::proofs::ClassLaws::begun_next, crate::proofs::ClassLaws::begun_all, type_graph::proofs::GrowthLaws::grows_none, type_graph::proofs::GrowthLaws::grows_twice))]
fn add_classes(
    units: &[Fronted],
    stands: &[(UnitNo, AggId)],
    graph: &mut TypeGraph,
) -> Result<(), Memory>
    requires { graph.old.aggs ≡ [] }
    ensures begun { OnOk result (AreBegun units.now stands.now (length stands.now) graph.new.aggs) }
    ensures grows { OnOk result (Grows graph.old graph.new) }
{
    for k in 0..stands.len() {
        let at = stands[k];
        let x = aggregate(units, at.0, at.1)?;
        graph.add_agg(x.kind, x.tag)?;
    }
    Ok(())
}

/// The classes of the aggregates of a unit, as aggregates of the program.
#[tactic(auto, using(crate::proofs::ClassLaws::no_classes, crate::proofs::ClassLaws::classes_next))]
fn class_table(
    alloc: Global,
    classes: &Classes,
    u: UnitNo,
    graph: &TypeGraph,
) -> Result<Vec<AggId>, Memory>
    ensures { IfOk result (λ table. AreClassesOf classes.now u.0 (length graph.now.aggs) table.items) }
{
    let mut table = Vec::new(alloc);
    for a in 0..graph.agg_count() {
        let Some(class) = classes.class_of(u, AggId(a)) else {
            return Err(impossible());
        };
        table.push(AggId(class.0))?;
    }
    Ok(table)
}

/// The numbers that the types of all units have in the program.
#[tactic(auto, using(crate::proofs::ClassLaws::none_mapped, crate::proofs::ClassLaws::mapped_all, crate::proofs::GainLaws::gains_none))]
fn map_units(
    alloc: Global,
    units: &[Fronted],
    classes: &Classes,
    graph: &mut TypeGraph,
) -> Result<Vec<Vec<TypeId>>, Memory>
    ensures types { IfOk result (λ all. AreTypes classes.now units.now graph.new (map (λ v. v.items) all.items) (length units.now)) }
    ensures gains { OnOk result (GainsTypes graph.old graph.new) }
{
    let mut all = Vec::new(alloc);
    for u in 0..units.len() {
        let from = &units[u].cil.graph;
        let table = class_table(alloc, classes, unit_number(u)?, from)?;
        all.push(map_graph(alloc, from, &table, false, graph)?)?;
    }
    Ok(all)
}

/// A member with its type in the program.
#[tactic(auto, using(crate::proofs::ClassLaws::member_is))]
fn mapped_member(types: &[TypeId], m: Member) -> Result<Member, Memory>
    ensures { IfOk result (IsMember types.now m) }
{
    let ty = QualType {
        quals: m.ty.quals,
        of: type_in(types, m.ty.of)?,
    };
    Ok(m.with_type(ty))
}

/// Members with their types in the program.
#[tactic(auto, using(crate::proofs::ClassLaws::no_members, crate::proofs::ClassLaws::members_next, crate::proofs::ClassLaws::members_all))]
fn mapped_members(alloc: Global, types: &[TypeId], members: &[Member]) -> Result<Members, Memory>
    ensures { IfOk result (λ ms. AreMembers types.now members.now ms (length members.now)) }
{
    let mut mapped = Vec::new(alloc);
    for i in 0..members.len() {
        mapped.push(mapped_member(types, members[i])?)?;
    }
    Ok(Members::new(mapped))
}

/// The table of a unit.
#[tactic(auto, using(crate::proofs::ClassLaws::table_is))]
fn table_of(all: &[Vec<TypeId>], u: UnitNo) -> Result<&[TypeId], Memory>
    ensures { IfOk result (λ table. slice_get (map (λ v. v.items) all.now) u.0 ≡ Some table.now) }
{
    match all.get(u.0 as usize) {
        Some(table) => Ok(table),
        None => Err(impossible()),
    }
}

/// Gives an aggregate of the program its members.
#[tactic(auto, using(type_graph::proofs::GrowthLaws::grows_none))]
fn complete(graph: &mut TypeGraph, a: AggId, members: Members) -> Result<(), Memory>
    ensures there { OnOk result (a.0 < length graph.old.aggs) }
    ensures members { OnOk result ((x : Aggregate) → slice_get graph.old.aggs a.0 ≡ Some x → graph.new ≡ with_members graph.old a x members) }
    ensures grows { Grows graph.old graph.new }
{
    if !can_complete(graph, a, members.as_slice()) {
        return Err(impossible());
    }
    graph.complete(a, members)
}

/// Gives the aggregate of a class the members of the one that stands for it.
fn complete_class(
    alloc: Global,
    units: &[Fronted],
    stands: (UnitNo, AggId),
    types: &[Vec<TypeId>],
    k: usize,
    graph: &mut TypeGraph,
) -> Result<(), Memory>
    ensures { OnOk result (Completes units.now (map (λ v. v.items) types.now) stands k graph.old graph.new) }
{
    let x = aggregate(units, stands.0, stands.1)?;
    let Some(members) = &x.members else {
        return Ok(());
    };
    let mapped = mapped_members(alloc, table_of(types, stands.0)?, members.as_slice())?;
    complete(graph, AggId(narrow(k)?), mapped)?;
    Ok(())
}

/// Gives the aggregates of the program their members, in the order of the classes.
#[tactic(auto, using(crate::proofs::ClassLaws::on_way_next, crate::proofs::ClassLaws::on_way_all, type_graph::proofs::GrowthLaws::grows_none, type_graph::proofs::GrowthLaws::grows_twice))]
fn complete_classes(
    alloc: Global,
    units: &[Fronted],
    stands: &[(UnitNo, AggId)],
    types: &[Vec<TypeId>],
    graph: &mut TypeGraph,
) -> Result<(), Memory>
    requires { AreBegun units.now stands.now (length stands.now) graph.old.aggs }
    ensures classes { OnOk result (AreOnWay units.now (map (λ v. v.items) types.now) stands.now (length stands.now) graph.new.aggs) }
    ensures grows { OnOk result (Grows graph.old graph.new) }
{
    for k in 0..stands.len() {
        complete_class(alloc, units, stands[k], types, k, graph)?;
    }
    Ok(())
}

/// The types of the program that units become, whose aggregates are the classes, in a data model.
pub(crate) fn arena_of(
    alloc: Global,
    units: &[Fronted],
    classes: &Classes,
    abi: Abi,
) -> Result<Arena, Memory>
    ensures types { IfOk result (λ r. HasTypes classes.now units.now r.graph) }
    ensures model { IfOk result (λ r. r.graph.abi ≡ abi) }
{
    let mut graph = TypeGraph::new_for(alloc, abi);
    let stands = representatives(alloc, classes)?;
    add_classes(units, &stands, &mut graph)?;
    let types = map_units(alloc, units, classes, &mut graph)?;
    complete_classes(alloc, units, &stands, &types, &mut graph)?;
    Ok(Arena { graph, types })
}
