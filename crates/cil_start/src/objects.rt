ghost use Rattle.std.specs.Prelude.{◌≡◌, ◌<◌, true, [], None, OnOk, length, map, Some};
ghost use Rattle.std.specs.List.{list_all};
ghost use Rattle.byte_mem.specs.declared.pointers.ObjName.TheVariants.{Entity};
ghost use Rattle.byte_mem.specs.Store.{memory, Becomes};
ghost use Rattle.byte_mem.specs.Memory.{with_held, no_memory};
ghost use Rattle.type_graph.specs.Shapes.{shape};
ghost use Rattle.type_graph.specs.Arena.{complete_shape};
ghost use Rattle.execution.specs.Runs.{memory_of};
ghost use Rattle.cil_tree.specs.View.{item_of, global_of};
ghost use Rattle.cil_tree.specs.Globals.{item_fits, global_fits};
ghost use Rattle.cil_semantics.specs.Values.{size_in};
ghost use Rattle.cil_semantics.specs.Modes.{HaveModel};
ghost use Rattle.cil_start.specs.Loads.{program_in, IsReady, image_held, global_held, definer_held};
ghost use Rattle.cil_link.specs.Entities.{IsOne, IsThere};
ghost use Rattle.cil_link.specs.Units.{programs_in, units_in};
ghost use Rattle.cil_start.specs.Ready.{AreReady};

use crate::images::write_items;
use crate::loaded::{Loaded, LoadedUnits};
use byte_mem::{Byte, ObjName, Store};
use cil_base::{EntityId, Memory, TypeId, UnitNo};
use cil_link::Definer;
use cil_tree::{GlobalDecl, GlobalDef, ImageItem};

/// The size of an object (C11 6.5.3.4).
#[tactic(auto, using(crate::proofs::ObjectLaws::size_there, crate::proofs::ObjectLaws::size_is))]
fn size_of(l: &Loaded, t: TypeId) -> u32
    requires ready { IsReady l.now }
    requires complete { complete_shape l.now.unit.now.graph.aggs (shape l.now.unit.now.graph.nodes t.0) ≡ true }
    ensures { size_in l.now.unit.now.graph (shape l.now.unit.now.graph.nodes t.0) ≡ Some result }
{
    l.layouts.size(t)
}

/// Makes the object of an entity, whose bytes are zero but for the items of its image (C11 6.7.9p10, 6.2.4p3).
#[tactic(auto, using(crate::proofs::ObjectLaws::begun_object, crate::proofs::ObjectLaws::made_object))]
fn make_object(
    l: &Loaded,
    mem: &mut Store,
    e: EntityId,
    t: TypeId,
    items: &[ImageItem],
) -> Result<(), Memory>
    requires ready { IsReady l.now }
    requires model { mem.old.abi ≡ l.now.unit.now.graph.abi }
    requires there { t.0 < length l.now.unit.now.graph.nodes }
    requires complete { complete_shape l.now.unit.now.graph.aggs (shape l.now.unit.now.graph.nodes t.0) ≡ true }
    requires fits { list_all (item_fits (program_in l.now) (shape l.now.unit.now.graph.nodes t.0)) (map item_of items.now) ≡ true }
    ensures { OnOk result (Becomes mem.old mem.new (with_held (memory mem.old) (Entity e) (image_held l.now.unit.now.graph l.now.entities.now (shape l.now.unit.now.graph.nodes t.0) (map item_of items.now)))) }
{
    let size = size_of(l, t);
    mem.make(ObjName::Entity(e), size, Byte::Known(0), false)?;
    write_items(l, mem, e, t, items);
    Ok(())
}

/// Makes what an entity is that a global defines: an object, or a function.
#[tactic(auto, using(crate::proofs::ObjectLaws::type_there, crate::proofs::ObjectLaws::zero_complete, crate::proofs::ObjectLaws::image_complete, crate::proofs::ObjectLaws::image_items_fit, crate::proofs::ObjectLaws::declared_held, crate::proofs::ObjectLaws::nothing_made))]
fn make_global(l: &Loaded, mem: &mut Store, e: EntityId, x: &GlobalDecl) -> Result<(), Memory>
    requires ready { IsReady l.now }
    requires model { mem.old.abi ≡ l.now.unit.now.graph.abi }
    requires fits { global_fits (program_in l.now) (global_of l.now.unit.now.graph.nodes l.now.names.now x.now) ≡ true }
    requires absent { memory mem.old (Entity e) ≡ None }
    ensures { OnOk result (Becomes mem.old mem.new (with_held (memory mem.old) (Entity e) (global_held (program_in l.now) l.now.entities.now (global_of l.now.unit.now.graph.nodes l.now.names.now x.now)))) }
{
    match &x.def {
        GlobalDef::Declared => Ok(()),
        GlobalDef::Zero => make_object(l, mem, e, x.ty, &[]),
        GlobalDef::Image(items) => make_object(l, mem, e, x.ty, items),
        GlobalDef::Body(_) => mem.make_function(e),
    }
}

/// Makes what an entity is that a unit's global with a number defines.
fn make_numbered(
    l: &LoadedUnits,
    mem: &mut Store,
    e: EntityId,
    unit: UnitNo,
    global: EntityId,
) -> Result<(), Memory>
    requires ready { AreReady l.now }
    requires model { HaveModel mem.old.abi (programs_in l.now.linked) }
    requires there { IsThere (units_in l.now.linked) unit global }
    requires absent { memory mem.old (Entity e) ≡ None }
    ensures { OnOk result (Becomes mem.old mem.new (with_held (memory mem.old) (Entity e) (definer_held (units_in l.now.linked) (Definer.Global unit global)))) }
{
    let u = l.unit(unit.0 as usize);
    let x = &u.unit.globals[global.0 as usize];
    make_global(&u, mem, e, x)
}

/// Makes what an entity is.
#[tactic(auto, using(crate::proofs::ObjectLaws::nothing_made))]
fn make_entity(
    l: &LoadedUnits,
    mem: &mut Store,
    e: EntityId,
    definer: Definer,
) -> Result<(), Memory>
    requires ready { AreReady l.now }
    requires model { HaveModel mem.old.abi (programs_in l.now.linked) }
    requires one { IsOne (units_in l.now.linked) definer }
    requires absent { memory mem.old (Entity e) ≡ None }
    ensures { OnOk result (Becomes mem.old mem.new (with_held (memory mem.old) (Entity e) (definer_held (units_in l.now.linked) definer))) }
{
    match definer {
        Definer::Nothing => Ok(()),
        Definer::Host(_) => mem.make_function(e),
        Definer::Global(unit, global) => make_numbered(l, mem, e, unit, global),
    }
}

/// Makes what each entity is.
///
/// After Memory some of them are made.
pub(crate) fn make_entities(l: &LoadedUnits, mem: &mut Store) -> Result<(), Memory>
    requires ready { AreReady l.now }
    requires model { HaveModel mem.old.abi (programs_in l.now.linked) }
    requires empty { memory mem.old ≡ no_memory }
    ensures { OnOk result (Becomes mem.old mem.new (memory_of (map (definer_held (units_in l.now.linked)) l.now.linked.entities.now.definers.items) [])) }
{
    let definers = &l.linked.entities.definers;
    for i in 0..definers.len() {
        make_entity(l, mem, EntityId(i as u32), definers[i])?;
    }
    Ok(())
}
