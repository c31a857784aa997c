ghost use Rattle.std.specs.Prelude.{◌≡◌, ◌<◌, ◌+◌, nat_eq, true, length, map, IfOk, OnOk, IsTrue};
ghost use Rattle.std.specs.List.{IsDistinct};
ghost use Rattle.unit_lower.specs.Externals.{number, token, external_places, external_names, rise_from, ListsTo, NamesTo};

use crate::globals::entity;
use crate::types::impossible;
use cil_base::{EntityId, Memory};
use cil_tree::GlobalDecl;
use indexmap::IndexSet;
use link_names::Site;
use std::alloc::Global;
use typed_tree::{Definition, Entity};

/// Whether all definitions of an object are tentative (C11 6.9.2p2).
fn is_tentative(d: &Definition) -> bool {
    match d {
        Definition::Zero => true,
        Definition::Declared | Definition::Initialised(_) | Definition::Body(_) => false,
    }
}

/// The site of the external name of a global, by its place.
fn site(entities: &[Entity], ordered: &[EntityId], i: usize) -> Result<Site, Memory>
    ensures { IfOk result (λ s. number s ≡ i) }
{
    if i >= ordered.len() || i >= u32::MAX as usize {
        return Err(impossible());
    }
    let e = entity(entities, ordered[i])?;
    Ok(Site {
        entity: EntityId(i as u32),
        first: e.first,
        defined: e.defined,
        tentative: is_tentative(&e.definition),
        bare: e.bare,
    })
}

/// Puts the site of a global behind those of the globals before it, if it is external.
#[tactic(auto, using(crate::proofs::ExternalLaws::places_next, crate::proofs::ExternalLaws::places_skip))]
fn add_site(
    entities: &[Entity],
    ordered: &[EntityId],
    globals: &[GlobalDecl],
    i: usize,
    sites: &mut Vec<Site>,
) -> Result<(), Memory>
    requires { i < length globals.now }
    ensures { OnOk result (ListsTo globals.now i sites.old.items → ListsTo globals.now (i + 1) sites.new.items) }
{
    if globals[i].internal {
        return Ok(());
    }
    let site = site(entities, ordered, i)?;
    sites.push(site)?;
    Ok(())
}

/// The sites of the globals that are external, by their places.
#[tactic(auto, using(crate::proofs::ExternalLaws::places_end))]
fn found_sites(
    alloc: Global,
    entities: &[Entity],
    ordered: &[EntityId],
    globals: &[GlobalDecl],
) -> Result<Vec<Site>, Memory>
    ensures { IfOk result (λ sites. map number sites.items ≡ external_places 0 globals.now) }
{
    let mut sites = Vec::new(alloc);
    for i in 0..globals.len() {
        add_site(entities, ordered, globals, i, &mut sites)?;
    }
    Ok(sites)
}

/// Whether the first places of sites stand in the order of the text.
#[tactic(auto, using(crate::proofs::ExternalLaws::rise_next))]
fn are_in_order(sites: &[Site]) -> bool
    ensures { result ≡ rise_from 0 (map token sites.now) }
{
    let mut last = 0;
    for i in 0..sites.len() {
        let next = sites[i].first.token;
        if next < last {
            return false;
        }
        last = next;
    }
    true
}

/// Adds the name of a global to those of the globals before it, if it is external. It answers whether it is none of them.
#[tactic(auto, using(crate::proofs::ExternalLaws::names_next, crate::proofs::ExternalLaws::names_skip))]
fn add_name(globals: &[GlobalDecl], i: usize, seen: &mut IndexSet<u32>) -> Result<bool, Memory>
    requires { i < length globals.now }
    ensures names { IfOk result (λ b. IsTrue b → NamesTo globals.now i seen.old.keys → NamesTo globals.now (i + 1) seen.new.keys) }
    ensures once { IfOk result (λ b. IsDistinct nat_eq seen.old.keys → IsDistinct nat_eq seen.new.keys) }
{
    if globals[i].internal {
        return Ok(true);
    }
    let (_place, is_new) = seen.insert_full(globals[i].name.0)?;
    Ok(is_new)
}

/// Whether no two external globals have one name.
#[tactic(auto, using(crate::proofs::ExternalLaws::names_end))]
fn differ(alloc: Global, globals: &[GlobalDecl]) -> Result<bool, Memory>
    ensures { IfOk result (λ b. IsTrue b → IsDistinct nat_eq (external_names globals.now)) }
{
    let mut seen = IndexSet::new(alloc);
    for i in 0..globals.len() {
        if !add_name(globals, i, &mut seen)? {
            return Ok(false);
        }
    }
    Ok(true)
}

/// The external names of the unit, each once, in the order of the program's globals and of their first places (C11 6.2.2p2).
pub(crate) fn sites(
    alloc: Global,
    entities: &[Entity],
    ordered: &[EntityId],
    globals: &[GlobalDecl],
) -> Result<Vec<Site>, Memory>
    ensures listed { IfOk result (λ sites. map number sites.items ≡ external_places 0 globals.now) }
    ensures once { IfOk result (λ sites. IsDistinct nat_eq (external_names globals.now)) }
    ensures rise { IfOk result (λ sites. rise_from 0 (map token sites.items) ≡ true) }
{
    let sites = found_sites(alloc, entities, ordered, globals)?;
    if !are_in_order(&sites) {
        return Err(impossible());
    }
    if !differ(alloc, globals)? {
        return Err(impossible());
    }
    Ok(sites)
}
