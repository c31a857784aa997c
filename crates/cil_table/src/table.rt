ghost use Rattle.std.specs.Prelude.{◌≡◌, ◌<◌, IfOk};
ghost use Rattle.cil_tree.specs.View.{global_of};
ghost use Rattle.cil_link.specs.Entities.{IsThere, IsOne};
ghost use Rattle.cil_link.specs.Units.{programs_in, units_in};
ghost use Rattle.cil_start.specs.Loads.{program_in, loaded_in, IsReady};
ghost use Rattle.cil_start.specs.Ready.{AreReady};
ghost use Rattle.cil_frames.specs.Frames.{AllLead};
ghost use Rattle.cil_table.specs.Entries.{IsGlobal, IsGlobalEntry, IsEntry, IsLoadedTable};

use crate::functions::load_function;
use cil_base::{EntityId, Memory, UnitNo};
use cil_check::Scope;
use cil_frames::Entity;
use cil_link::{Definer, is_main};
use cil_machine::Setting;
use cil_start::{Loaded, LoadedUnits};
use cil_tree::{Body, GlobalDecl, GlobalDef};
use std::alloc::Global;
use type_graph::Node;

/// Loads a global with that body, if it is of function type.
fn load_body(
    alloc: Global,
    l: &Loaded,
    x: &GlobalDecl,
    body: &Body,
) -> Result<Option<Entity>, Memory>
    requires ready { IsReady l.now }
    requires global { IsGlobal (program_in l.now) (global_of l.now.unit.now.graph.nodes l.now.names.now x.now) }
    requires body { x.now.def ≡ GlobalDef.Body body.now }
    ensures { IfOk result (IsGlobalEntry (loaded_in l.now) (global_of l.now.unit.now.graph.nodes l.now.names.now x.now)) }
{
    let setting = Setting {
        alloc,
        scope: Scope {
            unit: l.unit,
            names: l.names,
            body,
        },
        layouts: l.layouts,
        entities: l.entities,
    };
    match l.unit.graph.node(x.ty) {
        Node::Func { ret, params, .. } => {
            let f = load_function(
                &setting,
                is_main(l.unit, l.names, x),
                *ret,
                params.as_slice(),
            )?;
            Ok(Some(Entity::Program(f)))
        }
        Node::Void | Node::Int(_) | Node::Ptr(_) | Node::Array(..) | Node::Agg(_) => Ok(None),
    }
}

/// Loads what a global is.
fn load_global(alloc: Global, l: &Loaded, x: &GlobalDecl) -> Result<Option<Entity>, Memory>
    requires ready { IsReady l.now }
    requires global { IsGlobal (program_in l.now) (global_of l.now.unit.now.graph.nodes l.now.names.now x.now) }
    ensures { IfOk result (IsGlobalEntry (loaded_in l.now) (global_of l.now.unit.now.graph.nodes l.now.names.now x.now)) }
{
    match &x.def {
        GlobalDef::Declared => Ok(None),
        GlobalDef::Zero | GlobalDef::Image(_) => Ok(Some(Entity::Data)),
        GlobalDef::Body(body) => load_body(alloc, l, x, body),
    }
}

/// Loads what an entity is that a unit's global with a number defines.
fn load_numbered(
    alloc: Global,
    l: &LoadedUnits,
    unit: UnitNo,
    global: EntityId,
) -> Result<Option<Entity>, Memory>
    requires ready { AreReady l.now }
    requires there { IsThere (units_in l.now.linked) unit global }
    ensures { IfOk result (IsEntry (programs_in l.now.linked) (Definer.Global unit global)) }
{
    let u = l.unit(unit.0 as usize);
    let x = &u.unit.globals[global.0 as usize];
    load_global(alloc, &u, x)
}

/// Loads what an entity is.
fn load_entity(alloc: Global, l: &LoadedUnits, definer: Definer) -> Result<Option<Entity>, Memory>
    requires ready { AreReady l.now }
    requires one { IsOne (units_in l.now.linked) definer }
    ensures { IfOk result (IsEntry (programs_in l.now.linked) definer) }
{
    match definer {
        Definer::Nothing => Ok(None),
        Definer::Host(name) => Ok(Some(Entity::Host(name))),
        Definer::Global(unit, global) => load_numbered(alloc, l, unit, global),
    }
}

/// The table of linked programs: for each entity of their run its loaded function, the host's function of its name, or
/// that it is an object, and none where nothing defines it. It is what the programs mean, and each function in it goes on
/// from step to step (C11 6.2.2p2, 6.9.1).
///
/// Memory also comes where a number would not fit.
pub fn load_table(alloc: Global, l: &LoadedUnits) -> Result<Vec<Option<Entity>>, Memory>
    requires { AreReady l.now }
    ensures machine { IfOk result (λ t. IsLoadedTable (programs_in l.now.linked) l.now.linked.entities.now.definers.items t.items) }
    ensures leads { IfOk result (λ t. AllLead t.items) }
{
    let definers = &l.linked.entities.definers;
    let mut table = Vec::new(alloc);
    for i in 0..definers.len() {
        table.push(load_entity(alloc, l, definers[i])?)?;
    }
    Ok(table)
}
