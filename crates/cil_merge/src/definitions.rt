ghost use Rattle.std.specs.Prelude.{◌≡◌, map, OnOk};
ghost use Rattle.cil_merge.specs.Listing.{mark};

use cil_base::{EntityId, Memory};
use cil_bodies::{Mapping, map_definition};
use cil_tree::{GlobalDecl, GlobalDef};
use std::alloc::Global;
use type_things::impossible;

/// Whether a definition takes the place of another: whatever defines that of a declaration, and a value or a body that of zeroes
/// (C11 6.9.2, J.5.11).
fn defines_more(def: &GlobalDef, before: &GlobalDef) -> bool {
    match (def, before) {
        (GlobalDef::Declared, _) => false,
        (GlobalDef::Zero, GlobalDef::Declared) => true,
        (GlobalDef::Zero, _) => false,
        (_, GlobalDef::Declared | GlobalDef::Zero) => true,
        _ => false,
    }
}

/// Gives a global of the program the definition that a unit has for it.
fn give_definition(
    alloc: Global,
    global: &mut GlobalDecl,
    def: GlobalDef,
    m: &Mapping<'_>,
) -> Result<(), Memory>
    ensures { mark global.new ≡ mark global.old }
{
    if !defines_more(&def, &global.def) {
        return Ok(());
    }
    global.def = def;
    map_definition(alloc, &mut global.def, m)
}

/// Gives it to the global with a number.
#[tactic(auto, using(crate::proofs::ListingLaws::marks_set))]
fn give_at(
    alloc: Global,
    all: &mut Vec<GlobalDecl>,
    number: EntityId,
    def: GlobalDef,
    m: &Mapping<'_>,
) -> Result<(), Memory>
    ensures { map mark all.new.items ≡ map mark all.old.items }
{
    let i = number.0 as usize;
    if i >= all.len() {
        return Err(impossible());
    }
    give_definition(alloc, &mut all[i], def, m)
}

/// Gives the globals of the program the definitions that a unit has for them.
pub(crate) fn give_definitions(
    alloc: Global,
    all: &mut Vec<GlobalDecl>,
    globals: Vec<GlobalDecl>,
    m: &Mapping<'_>,
) -> Result<(), Memory>
    ensures { OnOk result (map mark all.new.items ≡ map mark all.old.items) }
{
    let mut e = 0;
    for global in globals {
        let Some(found) = m.uses.get(e) else {
            return Err(impossible());
        };
        give_at(alloc, all, found.entity, global.def, m)?;
        e = e + 1;
    }
    Ok(())
}
