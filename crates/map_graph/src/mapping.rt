ghost use Rattle.std.specs.Prelude.{◌≡◌, ◌<◌, length, IfOk};
ghost use Rattle.type_graph.specs.Shapes.{shape, shapes_of, FuncType, AggType};
ghost use Rattle.type_graph.specs.Arena.{NamesBelow, EachType, HasKind};
ghost use Rattle.type_graph.specs.Growth.{Grows, KeepsAggregates, GainsOnly};
ghost use Rattle.map_graph.specs.Mapped.{kept_quals, number_in, Maps, GainsMapped};
ghost use Rattle.map_graph.specs.Steps.{type_in, at_places, node_mapped, Gives};

use cil_base::{AggId, Memory, TypeId};
use std::alloc::Global;
use type_graph::{Node, QualType, Quals, TypeGraph, TypeList};

/// What a branch answers that never comes.
fn impossible() -> Memory {
    Memory
}

/// Qualifiers, kept or dropped.
fn kept_quals(keep: bool, q: Quals) -> Quals
    ensures { result ≡ kept_quals keep q }
{
    if keep {
        q
    } else {
        Quals {
            constant: false,
            restricted: false,
        }
    }
}

/// A qualified type, mapped.
fn map_qualified(types: &[TypeId], keep: bool, q: QualType) -> QualType
    requires { q.of.0 < length types.now }
    ensures quals { result.quals ≡ kept_quals keep q.quals }
    ensures of { result.of.0 ≡ type_in types.now q.of.0 }
{
    QualType {
        quals: kept_quals(keep, q.quals),
        of: types[q.of.0 as usize],
    }
}

/// The types that stand in a table at the places of others.
#[tactic(auto, using(crate::proofs::MappedLaws::each_at, crate::proofs::MappedLaws::places_next, crate::proofs::MappedLaws::places_end))]
fn map_params(alloc: Global, types: &[TypeId], params: &[TypeId]) -> Result<Vec<TypeId>, Memory>
    requires { EachType (length types.now) params.now }
    ensures { IfOk result (λ v. v.items ≡ at_places types.now params.now) }
{
    let mut mapped = Vec::new(alloc);
    for p in params {
        mapped.push(types[p.0 as usize])?;
    }
    Ok(mapped)
}

/// A function type whose parts are mapped.
#[tactic(auto, using(crate::proofs::MappedLaws::type_there, crate::proofs::MappedLaws::places_there, type_graph::proofs::GrowthLaws::gains_one))]
fn map_function(
    alloc: Global,
    types: &[TypeId],
    ret: TypeId,
    params: &[TypeId],
    proto: bool,
    variadic: bool,
    to: &mut TypeGraph,
) -> Result<TypeId, Memory>
    requires ret { ret.0 < length types.now }
    requires params { EachType (length types.now) params.now }
    requires there { EachType (length to.old.nodes) types.now }
    ensures gives { IfOk result (λ u. Gives to.new (FuncType (shape to.old.nodes (type_in types.now ret.0)) (shapes_of (shape to.old.nodes) (at_places types.now params.now)) proto variadic) u.0) }
    ensures only { IfOk result (λ u. GainsOnly to.old to.new u.0) }
    ensures grows { Grows to.old to.new }
    ensures aggregates { KeepsAggregates to.old to.new }
{
    let mapped = map_params(alloc, types, params)?;
    let n = Node::Func {
        proto,
        variadic,
        ret: types[ret.0 as usize],
        params: TypeList::new(mapped),
    };
    to.add_node(n)
}

/// A struct, union or enum of the second arena.
#[tactic(auto, using(type_graph::proofs::GrowthLaws::gains_one))]
fn map_aggregate(a: AggId, to: &mut TypeGraph) -> Result<TypeId, Memory>
    ensures gives { IfOk result (λ u. Gives to.new (AggType a.0) u.0) }
    ensures only { IfOk result (λ u. GainsOnly to.old to.new u.0) }
    ensures grows { Grows to.old to.new }
    ensures aggregates { KeepsAggregates to.old to.new }
{
    if a.0 >= to.agg_count() {
        return Err(impossible());
    }
    to.add_node(Node::Agg(a))
}

/// A type whose parts are mapped, in the second arena.
#[tactic(auto, using(crate::proofs::MappedLaws::type_there, type_graph::proofs::GrowthLaws::gains_one))]
fn map_node(
    alloc: Global,
    n: &Node,
    types: &[TypeId],
    aggregates: &[AggId],
    keep: bool,
    to: &mut TypeGraph,
) -> Result<TypeId, Memory>
    requires names { NamesBelow (length types.now) (length aggregates.now) n.now }
    requires kind { HasKind to.old.abi n.now }
    requires there { EachType (length to.old.nodes) types.now }
    ensures gives { IfOk result (λ u. Gives to.new (node_mapped to.old types.now (number_in aggregates.now) keep n.now) u.0) }
    ensures only { IfOk result (λ u. GainsOnly to.old to.new u.0) }
    ensures grows { Grows to.old to.new }
    ensures aggregates { KeepsAggregates to.old to.new }
{
    match n {
        Node::Void => to.add_node(Node::Void),
        Node::Int(kind) => to.add_node(Node::Int(*kind)),
        Node::Ptr(q) => to.add_node(Node::Ptr(map_qualified(types, keep, *q))),
        Node::Array(q, bound) => to.add_node(Node::Array(map_qualified(types, keep, *q), *bound)),
        Node::Func {
            proto,
            variadic,
            ret,
            params,
        } => map_function(alloc, types, *ret, params.as_slice(), *proto, *variadic, to),
        Node::Agg(a) => map_aggregate(aggregates[a.0 as usize], to),
    }
}

/// The numbers that the types of one arena have in another, in the order of the first, whose types are made there where they are
/// missing. Aggregates get the numbers that the table has for them; qualifiers are kept or dropped.
///
/// Where the arenas have two data models, or an aggregate has no number, or one that is not there, it answers Memory.
#[tactic(auto, using(type_graph::proofs::GrowthLaws::grows_twice, type_graph::proofs::GrowthLaws::grows_none, crate::proofs::MappedLaws::mapping_next, crate::proofs::MappedLaws::none_gained))]
pub fn map_graph(
    alloc: Global,
    from: &TypeGraph,
    aggregates: &[AggId],
    keep_qualifiers: bool,
    to: &mut TypeGraph,
) -> Result<Vec<TypeId>, Memory>
    ensures count { IfOk result (λ types. length types.items ≡ length from.now.nodes) }
    ensures maps { IfOk result (λ types. Maps from.now to.new (number_in aggregates.now) keep_qualifiers types.items) }
    ensures gains { IfOk result (λ types. GainsMapped to.old to.new types.items) }
    ensures grows { Grows to.old to.new }
    ensures aggregates { KeepsAggregates to.old to.new }
{
    let mut types = Vec::new(alloc);
    if from.abi() != to.abi() || aggregates.len() < from.agg_count() as usize {
        return Err(impossible());
    }
    for t in 0..from.len() {
        let n = from.node(TypeId(t));
        let mapped = map_node(alloc, n, &types, aggregates, keep_qualifiers, to)?;
        types.push(mapped)?;
    }
    Ok(types)
}
