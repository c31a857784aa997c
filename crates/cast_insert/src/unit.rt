ghost use Rattle.std.specs.Prelude.{IfSome};
ghost use Rattle.cast_insert.specs.Refusals.{IsPlaceIn};

use crate::declarations::declaration;
use crate::functions::definition;
use c_lexer::TokenList;
use c_tree::{ExtDecl, Unit};
use cil_base::{Code, Memory, Place};
use decl_types::{Declarations, DeclaredEntity, LateFault, MadeNames};
use std::alloc::Global;
use typed_parts::{Site, WalkStop, Walker, impossible, violated};
use typed_tree::{
    Entity, EntityHead, EntityPlaces, Ordinary, TypedUnit, entity_declared, translation_unit,
};
use unit_types::Types;

/// An external declaration (C11 6.9).
fn external(w: &mut Walker<'_>, d: &ExtDecl) -> Result<(), WalkStop> {
    match d {
        ExtDecl::Definition(f) => definition(w, f),
        ExtDecl::Declaration(d) => {
            let mut reached = Vec::new(w.alloc);
            declaration(w, decl_types::Position::File, d, &mut reached)
        }
    }
}

/// The external declarations of a unit, in order.
pub(crate) fn externals(w: &mut Walker<'_>, u: &Unit) -> Result<(), WalkStop> {
    for d in &u.declarations {
        external(w, d)?;
    }
    Ok(())
}

/// The token at which a fault stands that the unit's end shows: the first tentative definition, or the first declaration.
fn late_at(w: &Walker<'_>, fault: LateFault) -> Option<u32> {
    let site = w.sites.get(fault.entity.0 as usize)?;
    if fault.code == Code::Incomplete {
        site.defined
    } else {
        site.first
    }
}

/// The first of the faults that the unit's end shows, by their places (C11 6.9p3, 6.9.2p2).
fn first_late(w: &Walker<'_>, faults: &[LateFault]) -> Result<(), WalkStop> {
    let mut first: Option<(u32, Code)> = None;
    for fault in faults {
        let Some(at) = late_at(w, *fault) else {
            return Err(impossible());
        };
        first = match first {
            Some((least, code)) if least <= at => Some((least, code)),
            _ => Some((at, fault.code)),
        };
    }
    match first {
        Some((at, code)) => Err(violated(at, code)),
        None => Ok(()),
    }
}

/// What the unit's end shows: tentative definitions are completed (C11 6.9.2p2), and nothing that is used may lack its definition.
pub(crate) fn ended(w: &mut Walker<'_>) -> Result<(), WalkStop> {
    let Ok(faults) = w.declarer.finish(&mut w.types) else {
        return Err(impossible());
    };
    first_late(w, &faults)?;
    for _missing in w.sites.len()..w.declarer.entities().len() {
        w.sites.push(Site::declared(None))?;
    }
    Ok(())
}

/// The place of a token, or of the unit's end.
pub(crate) fn place_of<L: TokenList>(t: &L, at: u32) -> Option<Place>
    ensures { IfSome result (IsPlaceIn (L.lexed t.now)) }
{
    if at <= t.count() {
        Some(t.place(at))
    } else {
        None
    }
}

/// The places of an entity. One that the unit does not name stands at its end.
fn places_of<L: TokenList>(t: &L, site: &Site) -> Result<EntityPlaces, Memory> {
    let first = match site.first {
        Some(at) => at,
        None => t.count(),
    };
    let defined = match site.defined {
        Some(at) => Some(place_of(t, at).ok_or(Memory)?),
        None => None,
    };
    Ok(EntityPlaces {
        first: place_of(t, first).ok_or(Memory)?,
        defined,
    })
}

/// An object with static storage duration, or a function, as the unit has it.
fn entity_of<L: TokenList>(
    t: &L,
    types: &Types,
    e: DeclaredEntity,
    site: Site,
) -> Result<Entity, Memory> {
    let places = places_of(t, &site)?;
    let head = EntityHead {
        name: e.name,
        ty: e.ty.of,
        constant: site.constant,
        kind: e.kind,
        bare: e.bare,
        kept: site.first.is_some() && !e.is_dropped(types),
    };
    Ok(entity_declared(head, places, site.definition))
}

/// The objects and functions of a unit, by their numbers.
fn entities_of<L: TokenList>(
    alloc: Global,
    t: &L,
    types: &Types,
    declared: &[DeclaredEntity],
    sites: Vec<Site>,
) -> Result<Vec<Entity>, Memory> {
    let mut entities = Vec::new(alloc);
    for (i, site) in sites.into_iter().enumerate() {
        let Some(e) = declared.get(i) else {
            return Err(Memory);
        };
        entities.push(entity_of(t, types, *e, site)?)?;
    }
    Ok(entities)
}

/// Whether a name is one of an object or function that is kept, or of an enumerator.
fn is_kept(entities: &[Entity], o: Ordinary) -> bool {
    match o {
        Ordinary::Static(e) => match entities.get(e.0 as usize) {
            Some(entity) => entity.kept,
            None => false,
        },
        Ordinary::Enumerator(..) => true,
    }
}

/// The names of a unit that no other unit sees, of those that are kept.
fn ordinary_of(
    alloc: Global,
    entities: &[Entity],
    all: &[Ordinary],
) -> Result<Vec<Ordinary>, Memory> {
    let mut kept = Vec::new(alloc);
    for o in all {
        if is_kept(entities, *o) {
            kept.push(*o)?;
        }
    }
    Ok(kept)
}

/// The typed unit at the end of its walk.
pub(crate) fn unit_of<L: TokenList>(
    t: &L,
    w: Walker<'_>,
) -> Result<(TypedUnit, MadeNames), Memory> {
    let alloc = w.alloc;
    let made = w.made;
    let Declarations { entities, ordinary } = w.declarer.into_declarations();
    let types = w.types;
    let entities = entities_of(alloc, t, &types, &entities, w.sites)?;
    let ordinary = ordinary_of(alloc, &entities, &ordinary)?;
    Ok((translation_unit(types, entities, ordinary), made))
}
