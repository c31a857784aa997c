use crate::types::impossible;
use cil_base::{EntityId, Memory, TypeId};
use cil_tree::{GlobalDecl, GlobalDef};
use init_expand::image;
use lower_parts::FunctionOut;
use std::alloc::Global;
use stmt_lower::function;
use typed_tree::{Definition, Entity, EntityKind, Ordinary};
use unit_types::Types;

/// The types with which the program prints the objects and functions of a unit.
pub(crate) fn printed_types(
    alloc: Global,
    types: &[TypeId],
    entities: &[Entity],
) -> Result<Vec<TypeId>, Memory> {
    let mut printed = Vec::with_capacity(alloc, entities.len())?;
    for e in entities {
        match types.get(e.ty.0 as usize) {
            Some(t) => printed.push(*t)?,
            None => return Err(impossible()),
        }
    }
    Ok(printed)
}

/// An object or function of a unit.
pub(crate) fn entity(entities: &[Entity], n: EntityId) -> Result<&Entity, Memory> {
    match entities.get(n.0 as usize) {
        Some(e) => Ok(e),
        None => Err(impossible()),
    }
}

/// What an object or function is in the program, where that prints it with a type.
fn definition(
    f: &mut FunctionOut,
    types: &Types,
    e: &Entity,
    t: TypeId,
) -> Result<GlobalDef, Memory> {
    match &e.definition {
        Definition::Declared => Ok(GlobalDef::Declared),
        Definition::Zero => Ok(GlobalDef::Zero),
        Definition::Initialised(init) => image(f.alloc(), init, types, e.ty, &f.unit.numbers),
        Definition::Body(body) => Ok(GlobalDef::Body(function(f, body, t)?)),
    }
}

/// Whether no other unit can name it (C11 6.2.2).
fn is_internal(kind: EntityKind) -> bool {
    match kind {
        EntityKind::External => false,
        EntityKind::Internal | EntityKind::StaticLocal | EntityKind::Literal => true,
    }
}

/// An object or function of a unit in the program.
fn global(
    f: &mut FunctionOut,
    types: &Types,
    entities: &[Entity],
    n: EntityId,
) -> Result<GlobalDecl, Memory> {
    let e = entity(entities, n)?;
    let ty = f.unit.printed(n)?;
    let def = definition(f, types, e, ty)?;
    Ok(GlobalDecl {
        name: e.name,
        ty,
        internal: is_internal(e.kind),
        def,
    })
}

/// The globals of the program, in order.
pub(crate) fn globals(
    f: &mut FunctionOut,
    types: &Types,
    entities: &[Entity],
    ordered: &[EntityId],
) -> Result<Vec<GlobalDecl>, Memory> {
    let mut globals = Vec::with_capacity(f.alloc(), ordered.len())?;
    for n in ordered {
        globals.push(global(f, types, entities, *n)?)?;
    }
    Ok(globals)
}

/// What no other unit sees at file scope, and the enumerators: those that the program has, in order.
pub(crate) fn plain_ordinary(
    alloc: Global,
    numbers: &[Option<EntityId>],
    all: &[Ordinary],
) -> Result<Vec<Ordinary>, Memory> {
    let mut kept = Vec::new(alloc);
    for o in all {
        match o {
            Ordinary::Enumerator(..) => kept.push(*o)?,
            Ordinary::Static(n) => {
                if let Some(Some(number)) = numbers.get(n.0 as usize) {
                    kept.push(Ordinary::Static(*number))?;
                }
            }
        }
    }
    Ok(kept)
}
