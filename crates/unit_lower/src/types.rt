use cil_base::{AggId, Memory, TypeId};
use map_graph::map_graph;
use std::alloc::Global;
use type_graph::{Member, Members, TypeGraph, unqualified};
use unit_types::can_complete;

/// What a branch answers that never comes.
pub(crate) fn impossible() -> Memory {
    Memory
}

/// Types of a unit without qualifiers, and the numbers of the unit's types among them.
#[derive(Drop)]
pub(crate) struct PlainTypes {
    pub(crate) graph: TypeGraph,
    pub(crate) types: Vec<TypeId>,
}

/// Adds the structs, unions and enums of an arena to another that has none: each keeps its number, and is incomplete.
fn add_aggregates(
    alloc: Global,
    from: &TypeGraph,
    to: &mut TypeGraph,
) -> Result<Vec<AggId>, Memory> {
    let mut numbers = Vec::new(alloc);
    for a in 0..from.agg_count() {
        let aggregate = from.agg(AggId(a));
        numbers.push(to.add_agg(aggregate.kind, aggregate.tag)?)?;
    }
    Ok(numbers)
}

/// A member whose type has no qualifiers.
fn plain_member(types: &[TypeId], m: &Member) -> Result<Member, Memory> {
    let Some(of) = types.get(m.ty.of.0 as usize) else {
        return Err(impossible());
    };
    Ok(m.with_type(unqualified(*of)))
}

/// Members whose types have no qualifiers.
fn plain_members(alloc: Global, types: &[TypeId], members: &[Member]) -> Result<Members, Memory> {
    let mut plain = Vec::with_capacity(alloc, members.len())?;
    for m in members {
        plain.push(plain_member(types, m)?)?;
    }
    Ok(Members::new(plain))
}

/// The members that an aggregate has.
fn members_of(from: &TypeGraph, a: AggId) -> Result<&[Member], Memory> {
    if a.0 >= from.agg_count() {
        return Err(impossible());
    }
    match &from.agg(a).members {
        None => Err(impossible()),
        Some(members) => Ok(members.as_slice()),
    }
}

/// Gives an aggregate its members.
fn complete(to: &mut TypeGraph, a: AggId, members: Members) -> Result<(), Memory> {
    if !can_complete(to, a, members.as_slice()) {
        return Err(impossible());
    }
    to.complete(a, members)
}

/// Gives aggregates the members that they have in another arena, in the order in which they got them there.
fn complete_all(
    alloc: Global,
    from: &TypeGraph,
    types: &[TypeId],
    to: &mut TypeGraph,
) -> Result<(), Memory> {
    for a in from.completed() {
        let members = plain_members(alloc, types, members_of(from, *a)?)?;
        complete(to, *a, members)?;
    }
    Ok(())
}

/// The types of an arena without their qualifiers. Aggregates keep their numbers.
pub(crate) fn plain_types(alloc: Global, from: &TypeGraph) -> Result<PlainTypes, Memory> {
    let mut graph = TypeGraph::new_for(alloc, from.abi());
    let numbers = add_aggregates(alloc, from, &mut graph)?;
    let types = map_graph(alloc, from, &numbers, false, &mut graph)?;
    complete_all(alloc, from, &types, &mut graph)?;
    Ok(PlainTypes { graph, types })
}
