ghost use Rattle.std.specs.Prelude.{◌≡◌, Bool, List, None, map, OnOk, IfOk, IfErr};
ghost use Rattle.cil_base.specs.NamePool.{Stays};
ghost use Rattle.link_names.specs.Linked.{AreLinks};
ghost use Rattle.link_names.specs.Linking.{Linked, declared_from, grouped, first_twice};
ghost use Rattle.cil_merge.specs.Listing.{mark};
ghost use Rattle.cil_merge.specs.Numbering.{GainsTypes};
ghost use Rattle.type_iso.specs.Classes.{AreClasses};
ghost use Rattle.cil_merge.specs.Merged.{IsJoined, IsNamedAndJoined, IsMerged};
ghost use Rattle.cil_merge.specs.Merging.{graphs_of, Correspond, IsMergeRefusal};

use crate::arena::{Arena, arena_of};
use crate::definitions::give_definitions;
use crate::globals::{all_globals, uses_of};
use crate::refusals::class_stop;
use cil_base::{EntityId, Memory, Mode, NamePool, Stop, TypeId};
use cil_bodies::Mapping;
use cil_tree::{CilUnit, GlobalDecl};
use link_names::{Fronted, Links, links};
use static_rename::rename;
use std::alloc::Global;
use type_graph::TypeGraph;
use type_iso::{Classes, classes};
use type_things::impossible;

/// Adds the definitions of a unit to the globals of the program.
fn add_unit(
    alloc: Global,
    graph: &mut TypeGraph,
    all: &mut Vec<GlobalDecl>,
    unit: CilUnit,
    types: &[TypeId],
    numbers: &[EntityId],
) -> Result<(), Memory>
    ensures marks { OnOk result (map mark all.new.items ≡ map mark all.old.items) }
    ensures gains { OnOk result (GainsTypes graph.old graph.new) }
{
    let uses = uses_of(alloc, graph, all, &unit, types, numbers)?;
    let m = Mapping { types, uses: &uses };
    give_definitions(alloc, all, unit.globals, &m)?;
    Ok(())
}

/// Adds the definitions of all units to the globals of the program.
#[tactic(auto, using(crate::proofs::GainLaws::gains_none, crate::proofs::GainLaws::gains_twice))]
fn add_units(
    alloc: Global,
    arena: &mut Arena,
    all: &mut Vec<GlobalDecl>,
    units: Vec<Fronted>,
    numbers: &[Vec<EntityId>],
) -> Result<(), Memory>
    ensures marks { OnOk result (map mark all.new.items ≡ map mark all.old.items) }
    ensures gains { OnOk result (GainsTypes arena.old.graph arena.new.graph) }
{
    let mut u = 0;
    for unit in units {
        let (Some(types), Some(numbers)) = (arena.types.get(u), numbers.get(u)) else {
            return Err(impossible());
        };
        add_unit(alloc, &mut arena.graph, all, unit.cil, types, numbers)?;
        u = u + 1;
    }
    Ok(())
}

/// The program that units become whose names are distinct.
fn joined(
    alloc: Global,
    units: Vec<Fronted>,
    classes: &Classes,
    mode: Mode,
) -> Result<CilUnit, Memory>
    ensures joined { IfOk result (IsJoined classes.now units.items) }
    ensures model { IfOk result (λ u. u.graph.abi ≡ mode.abi) }
{
    let mut arena = arena_of(alloc, &units, classes, mode.abi)?;
    let globals = all_globals(alloc, &units, &arena)?;
    let mut all = globals.all;
    add_units(alloc, &mut arena, &mut all, units, &globals.numbers)?;
    Ok(CilUnit {
        graph: arena.graph,
        globals: all,
    })
}

/// The program of units whose external names are linked.
fn merged(
    alloc: Global,
    units: Vec<Fronted>,
    links: &Links,
    classes: &Classes,
    names: &mut NamePool,
    mode: Mode,
) -> Result<CilUnit, Memory>
    ensures stays { Stays names.old names.new }
    ensures merged { IfOk result (IsNamedAndJoined (map (λ l. l.name) links.now.names.items) names.new classes.now units.items) }
    ensures model { IfOk result (λ u. u.graph.abi ≡ mode.abi) }
{
    let mut units = units;
    rename(alloc, &mut units, links, classes, names)?;
    Ok(joined(alloc, units, classes, mode)?)
}

/// The classes of the structs, unions and enums of units whose external names are linked, or why they have none.
fn classes_of(
    alloc: Global,
    units: &[Fronted],
    links: &Links,
    names: &NamePool,
) -> Result<Classes, Stop>
    ensures classes { IfOk result (AreClasses names.now (graphs_of units.now) links.now.groups.items) }
    ensures refused { (common : Bool) (ls : List Linked) → AreLinks ls common links.now → IfErr result (IsMergeRefusal common names.now (graphs_of units.now) ls) }
{
    match classes(alloc, units, &links.groups, names) {
        Ok(classes) => Ok(classes),
        Err(stop) => Err(class_stop(&links.names, stop)),
    }
}

/// The program that units become (C11 5.1.1.1): each external name is one object or function (6.2.2p2), each class of structs, unions and
/// enums one type, and every other name is made distinct. It has the data model of the mode.
///
/// It refuses with `Duplicate` where two units define one name, and else with `Incompatible` where two declare one with types that do not
/// correspond (6.2.7p2), for the first link that lets the links up to it correspond in no way: at the first declaration in the later unit,
/// with that in the earlier one as the other place. The mode says whether tentative definitions of several units are one (J.5.11). Its
/// other error is want of memory.
#[tactic(auto, using(crate::proofs::MergingLaws::duplicate_refused, crate::proofs::MergingLaws::links_correspond))]
pub fn merge(
    alloc: Global,
    units: Vec<Fronted>,
    names: &mut NamePool,
    mode: Mode,
) -> Result<CilUnit, Stop>
    ensures stays { Stays names.old names.new }
    ensures once { OnOk result (first_twice mode.common (grouped (declared_from 0 units.items)) ≡ None) }
    ensures correspond { OnOk result (Correspond names.old (graphs_of units.items) (grouped (declared_from 0 units.items))) }
    ensures merged { IfOk result (IsMerged mode.common names.old names.new units.items) }
    ensures model { IfOk result (λ u. u.graph.abi ≡ mode.abi) }
    ensures refused { IfErr result (IsMergeRefusal mode.common names.old (graphs_of units.items) (grouped (declared_from 0 units.items))) }
{
    let links = links(alloc, &units, mode)?;
    let classes = classes_of(alloc, &units, &links, names)?;
    Ok(merged(alloc, units, &links, &classes, names, mode)?)
}
