ghost use Rattle.std.specs.Prelude.{OnOk};
ghost use Rattle.cil_bodies.specs.Maps.{MapsBody, MapsConstant, MapsDefinition, MapsItem, MapsItems, MapsLocal, MapsLocals};

use crate::mapping::Mapping;
use crate::statements::map_stmts;
use cil_base::{Constant, Memory};
use cil_tree::{Body, GlobalDef, ImageItem, Local};
use std::alloc::Global;

/// Maps the type of a local.
#[tactic(auto, using(crate::proofs::DefinitionLaws::local_maps))]
fn map_local(local: &mut Local, m: &Mapping<'_>) -> Result<(), Memory>
    ensures { OnOk result (MapsLocal m.now local.old local.new) }
{
    local.ty = m.ty(local.ty)?;
    Ok(())
}

/// Maps the types of locals.
fn map_locals(locals: &mut Vec<Local>, m: &Mapping<'_>) -> Result<(), Memory>
    ensures { OnOk result (MapsLocals m.now locals.old.items locals.new.items) }
{
    for i in 0..locals.len() {
        map_local(&mut locals[i], m)?;
    }
    Ok(())
}

/// Maps a body.
pub fn map_body(alloc: Global, body: &mut Body, m: &Mapping<'_>) -> Result<(), Memory>
    ensures { OnOk result (MapsBody m.now body.old body.new) }
{
    map_locals(&mut body.locals, m)?;
    map_stmts(alloc, &mut body.stmts, m)
}

/// Maps a constant.
#[tactic(auto, using(crate::proofs::DefinitionLaws::object_maps, crate::proofs::DefinitionLaws::function_maps))]
fn map_constant(value: &mut Constant, m: &Mapping<'_>) -> Result<(), Memory>
    ensures { OnOk result (MapsConstant m.now value.old value.new) }
{
    match value {
        Constant::Int(..) => Ok(()),
        Constant::Address(e, _) => {
            *e = m.entity(*e)?.entity;
            Ok(())
        }
        Constant::Function(e) => {
            *e = m.entity(*e)?.entity;
            Ok(())
        }
    }
}

/// Maps a scalar of an initialised object.
#[tactic(auto, using(crate::proofs::DefinitionLaws::item_maps))]
fn map_item(item: &mut ImageItem, m: &Mapping<'_>) -> Result<(), Memory>
    ensures { OnOk result (MapsItem m.now item.old item.new) }
{
    map_constant(&mut item.value, m)
}

/// Maps the scalars of an initialised object.
fn map_image(items: &mut Vec<ImageItem>, m: &Mapping<'_>) -> Result<(), Memory>
    ensures { OnOk result (MapsItems m.now items.old.items items.new.items) }
{
    for i in 0..items.len() {
        map_item(&mut items[i], m)?;
    }
    Ok(())
}

/// Maps a definition.
pub fn map_definition(alloc: Global, def: &mut GlobalDef, m: &Mapping<'_>) -> Result<(), Memory>
    ensures { OnOk result (MapsDefinition m.now def.old def.new) }
{
    match def {
        GlobalDef::Declared | GlobalDef::Zero => Ok(()),
        GlobalDef::Image(items) => map_image(items, m),
        GlobalDef::Body(body) => map_body(alloc, body, m),
    }
}
