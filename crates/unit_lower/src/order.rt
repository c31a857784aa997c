use crate::types::impossible;
use cil_base::{EntityId, Memory};
use std::alloc::Global;
use typed_tree::{Entity, EntityKind};

/// The parts of the list of globals, in order.
#[derive(Clone, Copy, PartialEq, Eq)]
enum Part {
    /// Functions, and objects with linkage (C11 6.2.2).
    Linked,
    /// Objects that blocks declare as `static`.
    StaticLocals,
    /// String literals, and compound literals outside functions.
    Literals,
}

/// An object or function of the typed unit, by its number, with the token at which it stands first.
#[derive(Clone, Copy)]
struct Positioned {
    token: u32,
    number: u32,
}

/// The part of the list in which an object or function stands; one that is not kept stands in none.
fn part_of(e: &Entity) -> Option<Part> {
    if !e.kept {
        return None;
    }
    match e.kind {
        EntityKind::External | EntityKind::Internal => Some(Part::Linked),
        EntityKind::StaticLocal => Some(Part::StaticLocals),
        EntityKind::Literal => Some(Part::Literals),
    }
}

/// Puts what stands in a part of the list behind what is in order, by where it stands first in the text.
fn add_part(
    alloc: Global,
    entities: &[Entity],
    part: Part,
    ordered: &mut Vec<EntityId>,
) -> Result<(), Memory> {
    let mut found = found_in(alloc, entities, part)?;
    if !are_in_order(&found) {
        found.sort_by_key(|p| p.token)?;
    }
    for p in &found {
        ordered.push(EntityId(p.number))?;
    }
    Ok(())
}

/// Whether each stands behind those before it, as where all have their numbers by their first declarations.
fn are_in_order(found: &[Positioned]) -> bool {
    let mut last = 0;
    for p in found {
        if p.token < last {
            return false;
        }
        last = p.token;
    }
    true
}

/// What stands in a part of the list.
fn found_in(alloc: Global, entities: &[Entity], part: Part) -> Result<Vec<Positioned>, Memory> {
    let mut found = Vec::new(alloc);
    for i in 0..entities.len() {
        if part_of(&entities[i]) == Some(part) {
            if i >= u32::MAX as usize {
                return Err(Memory);
            }
            found.push(Positioned {
                token: entities[i].first.token,
                number: i as u32,
            })?;
        }
    }
    Ok(found)
}

/// The objects and functions of a unit in the order of the program's globals, by their numbers in the unit.
pub(crate) fn ordered(alloc: Global, entities: &[Entity]) -> Result<Vec<EntityId>, Memory> {
    let mut ordered = Vec::with_capacity(alloc, entities.len())?;
    add_part(alloc, entities, Part::Linked, &mut ordered)?;
    add_part(alloc, entities, Part::StaticLocals, &mut ordered)?;
    add_part(alloc, entities, Part::Literals, &mut ordered)?;
    Ok(ordered)
}

/// A table without places for so many objects and functions.
fn no_numbers(alloc: Global, count: usize) -> Result<Vec<Option<EntityId>>, Memory> {
    let mut numbers = Vec::with_capacity(alloc, count)?;
    for _i in 0..count {
        numbers.push(None)?;
    }
    Ok(numbers)
}

/// The places that the objects and functions of a unit have in an order, by their numbers in the unit.
pub(crate) fn numbered(
    alloc: Global,
    count: usize,
    ordered: &[EntityId],
) -> Result<Vec<Option<EntityId>>, Memory> {
    let mut numbers = no_numbers(alloc, count)?;
    for i in 0..ordered.len() {
        let n = ordered[i].0 as usize;
        if n >= numbers.len() || i >= u32::MAX as usize {
            return Err(impossible());
        }
        numbers[n] = Some(EntityId(i as u32));
    }
    Ok(numbers)
}
