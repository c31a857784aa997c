ghost use Rattle.std.specs.Prelude.{◌≡◌, [], ◌∷◌, ◌++◌, map, OnOk, IfOk};
ghost use Rattle.link_names.specs.Linking.{declared_in, declared_from, grouped};
ghost use Rattle.link_names.specs.Grouping.{InStep, with_site, sites_at, added, added_all, linked_of, found};

use crate::declared::declared;
use crate::names::{LinkedName, LinkedSite};
use crate::numbers::unit_number;
use crate::units::{Fronted, Site};
use cil_base::{Memory, NameId, UnitNo};
use cil_tree::GlobalDecl;
use indexmap::IndexSet;
use std::alloc::Global;
use type_things::impossible;

/// External names while they are found, and their places by the names.
#[derive(Drop)]
struct Finding {
    numbers: IndexSet<NameId>,
    names: Vec<LinkedName>,
}

/// Puts a site behind the others of its name.
fn push_site(name: &mut LinkedName, site: LinkedSite) -> Result<(), Memory>
    ensures { OnOk result (linked_of name.new ≡ with_site (linked_of name.old) site) }
{
    name.sites.push(site)?;
    Ok(())
}

/// Puts a site behind the others of the name at a place.
#[tactic(auto, using(crate::proofs::GroupingLaws::sites_set))]
fn push_at(names: &mut Vec<LinkedName>, i: usize, site: LinkedSite) -> Result<(), Memory>
    ensures { OnOk result (map linked_of names.new.items ≡ sites_at i site (map linked_of names.old.items)) }
{
    if i >= names.len() {
        return Err(impossible());
    }
    push_site(&mut names[i], site)
}

/// The sites of a name of which a unit says something for the first time.
fn first_sites(alloc: Global, site: LinkedSite) -> Result<Vec<LinkedSite>, Memory>
    ensures { IfOk result (λ v. v.items ≡ site ∷ []) }
{
    let mut sites = Vec::new(alloc);
    sites.push(site)?;
    Ok(sites)
}

/// Puts a name with one site behind the others.
#[tactic(auto, using(crate::proofs::GroupingLaws::linked_push))]
fn push_name(
    alloc: Global,
    names: &mut Vec<LinkedName>,
    name: NameId,
    site: LinkedSite,
) -> Result<(), Memory>
    ensures { OnOk result (map linked_of names.new.items ≡ map linked_of names.old.items ++ (name, site ∷ []) ∷ []) }
{
    let sites = first_sites(alloc, site)?;
    names.push(LinkedName { name, sites })?;
    Ok(())
}

/// Adds what a unit says of an external name.
fn add(alloc: Global, f: &mut Finding, name: NameId, site: LinkedSite) -> Result<(), Memory>
    requires step { InStep f.old }
    ensures step { OnOk result (InStep f.new) }
    ensures added { OnOk result (found f.new ≡ added (found f.old) (name, site)) }
{
    let (i, new) = f.numbers.insert_full(name)?;
    if new {
        return push_name(alloc, &mut f.names, name, site);
    }
    push_at(&mut f.names, i, site)
}

/// Adds what a unit says of its external names.
fn add_unit(
    alloc: Global,
    f: &mut Finding,
    unit: UnitNo,
    globals: &[GlobalDecl],
    sites: &[Site],
) -> Result<(), Memory>
    requires step { InStep f.old }
    ensures step { OnOk result (InStep f.new) }
    ensures added { OnOk result (found f.new ≡ added_all (found f.old) (declared_in unit globals.now sites.now)) }
{
    for site in sites {
        let (name, declared) = declared(unit, globals, *site)?;
        add(alloc, f, name, declared)?;
    }
    Ok(())
}

/// Adds what all units say of their external names.
fn add_units(alloc: Global, f: &mut Finding, units: &[Fronted]) -> Result<(), Memory>
    requires step { InStep f.old }
    ensures added { OnOk result (found f.new ≡ added_all (found f.old) (declared_from 0 units.now)) }
{
    for u in 0..units.len() {
        let unit = &units[u];
        add_unit(alloc, f, unit_number(u)?, &unit.cil.globals, &unit.sites)?;
    }
    Ok(())
}

/// The external names of units with their declarations (C11 6.2.2p2).
#[tactic(auto, using(crate::proofs::GroupedLaws::are_grouped))]
pub(crate) fn linked_names(alloc: Global, units: &[Fronted]) -> Result<Vec<LinkedName>, Memory>
    ensures { IfOk result (λ r. map linked_of r.items ≡ grouped (declared_from 0 units.now)) }
{
    let mut f = Finding {
        numbers: IndexSet::new(alloc),
        names: Vec::new(alloc),
    };
    add_units(alloc, &mut f, units)?;
    Ok(f.names)
}
