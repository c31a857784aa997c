ghost use Rattle.std.specs.Prelude.{◌≡◌, ◌<◌, ◌^◌, pos, true, Option, Some, None, length, map};
ghost use Rattle.std.specs.List.{list_all};
ghost use Rattle.byte_mem.specs.declared.pointers.ObjName.TheVariants.{Entity};
ghost use Rattle.byte_mem.specs.Store.{memory, Becomes};
ghost use Rattle.byte_mem.specs.Memory.{with_held, store};
ghost use Rattle.type_graph.specs.Shapes.{shape};
ghost use Rattle.type_graph.specs.Arena.{complete_shape};
ghost use Rattle.cil_tree.specs.Tree as plain;
ghost use Rattle.cil_tree.specs.View.{item_of};
ghost use Rattle.cil_tree.specs.Globals.{item_fits};
ghost use Rattle.cil_semantics.specs.Values.{scalar_in};
ghost use Rattle.typed_values.specs.Units.{constant_value};
ghost use Rattle.cil_start.specs.Loads.{program_in, IsReady, written_of, place_of, Changed, IsObject, item_held, items_held};

use crate::loaded::Loaded;
use byte_mem::{ObjName, Pointer, Scalar, Store, Value};
use cil_base::{Constant, EntityId, TypeId};
use cil_check::{path_part, see};
use cil_machine::scalar_of;
use cil_tree::ImageItem;
use type_graph::TypeGraph;

/// What an item of an image writes: the value of a scalar, at an offset.
#[derive(Clone, Copy)]
pub(crate) struct Written {
    pub(crate) at: u128,
    pub(crate) scalar: Scalar,
    pub(crate) value: Value,
}

/// The scalar of a type of the graph, none of one that is not scalar.
fn scalar_at(g: &TypeGraph, t: TypeId) -> Option<Scalar>
    requires { t.0 < length g.now.nodes }
    ensures { result ≡ scalar_in g.now (shape g.now.nodes t.0) }
{
    scalar_of(g, see(g, t))
}

/// A pointer into a global.
fn pointer_to(entities: &[u32], global: EntityId, offset: i64) -> Option<Value>
    ensures { result ≡ constant_value entities.now (Constant.Address global offset) }
{
    match entities.get(global.0 as usize) {
        None => None,
        Some(e) => Some(Value::Ptr(Pointer {
            name: ObjName::Entity(EntityId(*e)),
            offset,
        })),
    }
}

/// The value of a constant (C11 6.6p6, p9): an address is that of the run's entity.
fn constant_value(entities: &[u32], c: Constant) -> Option<Value>
    ensures { result ≡ constant_value entities.now c }
{
    match c {
        Constant::Int(_, v) => Some(Value::Int(v)),
        Constant::Address(object, at) => pointer_to(entities, object, at),
        Constant::Function(function) => pointer_to(entities, function, 0),
    }
}

/// What an item writes of an object of a type.
fn written_of(l: &Loaded, t: TypeId, x: &ImageItem) -> Option<Written>
    requires ready { IsReady l.now }
    requires there { t.0 < length l.now.unit.now.graph.nodes }
    ensures { result ≡ written_of l.now.unit.now.graph l.now.entities.now (shape l.now.unit.now.graph.nodes t.0) (item_of x.now) }
{
    let g = &l.unit.graph;
    let part = path_part(g, l.layouts, t, &x.path)?;
    let scalar = scalar_at(g, part.ty)?;
    let value = constant_value(l.entities, x.value)?;
    Some(Written {
        at: part.at,
        scalar,
        value,
    })
}

/// An offset into an object.
fn offset_of(at: u128) -> i64
    requires { at < 2 ^ 63 }
    ensures { result ≡ pos at }
{
    at as i64
}

/// Writes a scalar's value into an entity.
fn put(mem: &mut Store, e: EntityId, w: Written)
    requires { w.at < 2 ^ 63 }
    ensures { Changed mem.old mem.new (store mem.old.abi (memory mem.old) (place_of e w) w.scalar w.value) }
{
    let at = Pointer {
        name: ObjName::Entity(e),
        offset: offset_of(w.at),
    };
    let _ = mem.store(at, w.scalar, w.value);
}

/// Writes an item of an image into the object of an entity.
#[tactic(auto, using(crate::proofs::Writings::item_low, crate::proofs::Writings::item_put, crate::proofs::Writings::item_none))]
fn write_item(l: &Loaded, mem: &mut Store, e: EntityId, t: TypeId, x: &ImageItem)
    requires ready { IsReady l.now }
    requires model { mem.old.abi ≡ l.now.unit.now.graph.abi }
    requires there { t.0 < length l.now.unit.now.graph.nodes }
    requires complete { complete_shape l.now.unit.now.graph.aggs (shape l.now.unit.now.graph.nodes t.0) ≡ true }
    requires fits { item_fits (program_in l.now) (shape l.now.unit.now.graph.nodes t.0) (item_of x.now) ≡ true }
    requires object { IsObject l.now.unit.now.graph (shape l.now.unit.now.graph.nodes t.0) (memory mem.old (Entity e)) }
    ensures { Becomes mem.old mem.new (with_held (memory mem.old) (Entity e) (item_held l.now.unit.now.graph l.now.entities.now (shape l.now.unit.now.graph.nodes t.0) (item_of x.now) (memory mem.old (Entity e)))) }
{
    match written_of(l, t, x) {
        None => {}
        Some(w) => put(mem, e, w),
    }
}

/// Writes the items of an image into the object of an entity.
#[tactic(auto, using(crate::proofs::Writings::item_at, crate::proofs::Writings::writing_begins, crate::proofs::Writings::writing_next, crate::proofs::Writings::writing_done))]
pub(crate) fn write_items(l: &Loaded, mem: &mut Store, e: EntityId, t: TypeId, items: &[ImageItem])
    requires ready { IsReady l.now }
    requires model { mem.old.abi ≡ l.now.unit.now.graph.abi }
    requires there { t.0 < length l.now.unit.now.graph.nodes }
    requires complete { complete_shape l.now.unit.now.graph.aggs (shape l.now.unit.now.graph.nodes t.0) ≡ true }
    requires fits { list_all (item_fits (program_in l.now) (shape l.now.unit.now.graph.nodes t.0)) (map item_of items.now) ≡ true }
    requires object { IsObject l.now.unit.now.graph (shape l.now.unit.now.graph.nodes t.0) (memory mem.old (Entity e)) }
    ensures { Becomes mem.old mem.new (with_held (memory mem.old) (Entity e) (items_held l.now.unit.now.graph l.now.entities.now (shape l.now.unit.now.graph.nodes t.0) (map item_of items.now) (memory mem.old (Entity e)))) }
{
    for i in 0..items.len() {
        write_item(l, mem, e, t, &items[i]);
    }
}
