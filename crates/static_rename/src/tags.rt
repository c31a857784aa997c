ghost use Rattle.std.specs.Prelude.{◌≡◌, [], map, slice_set, OnOk, IfOk};
ghost use Rattle.cil_base.specs.NamePool.{Stays};
ghost use Rattle.fresh_names.specs.Naming.{AreNamed};
ghost use Rattle.static_rename.specs.Tags.{members_in, members_at, tag_wish, class_wish, given_in, enumerators_of};
ghost use Rattle.static_rename.specs.Tagging.{lists, with_enumerator, with_thing, with_things, given_filed};

use crate::files::Filed;
use crate::standing::{aggregate_at, class_of};
use cil_base::{AggId, Bases, Memory, NameId, NamePool, UnitNo};
use fresh_names::{Fresh, Wish};
use link_names::{Fronted, unit_number};
use std::alloc::Global;
use type_graph::{Aggregate, Member};
use type_iso::{ClassNo, Classes};
use type_things::impossible;
use typed_tree::Ordinary;

/// What an aggregate with a tag, or without one, asks for.
fn tag_wish(bases: Bases, tag: Option<NameId>) -> Wish
    ensures { result ≡ tag_wish bases tag }
{
    match tag {
        Some(tag) => Wish::Asked(tag),
        None => Wish::Made(bases.tagless),
    }
}

/// What a class asks for, for which an aggregate stands.
fn class_wish(bases: Bases, units: &[Fronted], at: (UnitNo, AggId)) -> Result<Wish, Memory>
    ensures { IfOk result (λ w. w ≡ class_wish bases units.now at) }
{
    let aggregate = aggregate_at(units, at)?;
    Ok(tag_wish(bases, aggregate.tag))
}

/// What the classes ask for, for which aggregates stand.
fn class_wishes(
    alloc: Global,
    bases: Bases,
    units: &[Fronted],
    stands: &[(UnitNo, AggId)],
) -> Result<Vec<Wish>, Memory>
    ensures { IfOk result (λ v. v.items ≡ map (class_wish bases units.now) stands.now) }
{
    let mut all = Vec::new(alloc);
    for k in 0..stands.len() {
        all.push(class_wish(bases, units, stands[k])?)?;
    }
    Ok(all)
}

/// The tags of the classes, for which aggregates stand.
pub(crate) fn name_tags(
    alloc: Global,
    names: &mut NamePool,
    bases: Bases,
    units: &[Fronted],
    stands: &[(UnitNo, AggId)],
) -> Result<Vec<NameId>, Memory>
    ensures stays { Stays names.old names.new }
    ensures named { IfOk result (λ v. AreNamed [] names.new (map (class_wish bases units.now) stands.now) v.items) }
{
    let wishes = class_wishes(alloc, bases, units, stands)?;
    let mut fresh = Fresh::new(alloc);
    fresh.give_all(names, &wishes)
}

/// The names that members have.
pub(crate) fn own_names(alloc: Global, members: &[Member]) -> Result<Vec<NameId>, Memory>
    ensures { IfOk result (λ v. v.items ≡ map (λ m. m.name) members.now) }
{
    let mut all = Vec::new(alloc);
    for i in 0..members.len() {
        all.push(members[i].name)?;
    }
    Ok(all)
}

/// The names that the members of an aggregate have.
fn names_in(alloc: Global, aggregate: &Aggregate) -> Result<Vec<NameId>, Memory>
    ensures { IfOk result (λ v. v.items ≡ map (λ m. m.name) (members_in aggregate.now.members)) }
{
    match &aggregate.members {
        Some(members) => own_names(alloc, members.as_slice()),
        None => Ok(Vec::new(alloc)),
    }
}

/// The names that enumerators have before they get any.
fn first_enumerators(
    alloc: Global,
    units: &[Fronted],
    stands: &[(UnitNo, AggId)],
) -> Result<Vec<Vec<NameId>>, Memory>
    ensures { IfOk result (λ v. lists v.items ≡ map (λ at. map (λ m. m.name) (members_at units.now at)) stands.now) }
{
    let mut all = Vec::new(alloc);
    for k in 0..stands.len() {
        all.push(names_in(alloc, aggregate_at(units, stands[k])?)?)?;
    }
    Ok(all)
}

/// Puts a name into a list.
fn put_name(all: &mut Vec<NameId>, i: u32, name: NameId) -> Result<(), Memory>
    ensures { OnOk result (all.new.items ≡ slice_set all.old.items i name) }
{
    if i as usize >= all.len() {
        return Err(impossible());
    }
    all[i as usize] = name;
    Ok(())
}

/// Gives an enumerator of a class its name.
#[tactic(auto, using(crate::proofs::TagLaws::enumerator_put))]
fn put_in_class(
    all: &mut Vec<Vec<NameId>>,
    class: ClassNo,
    i: u32,
    name: NameId,
) -> Result<(), Memory>
    ensures { OnOk result (lists all.new.items ≡ with_enumerator (Some class.0) i name (lists all.old.items)) }
{
    if class.0 as usize >= all.len() {
        return Err(impossible());
    }
    put_name(&mut all[class.0 as usize], i, name)
}

/// Gives something its name in its class where it is an enumerator.
fn put_thing(
    classes: &Classes,
    all: &mut Vec<Vec<NameId>>,
    u: UnitNo,
    o: Ordinary,
    name: NameId,
) -> Result<(), Memory>
    ensures { OnOk result (lists all.new.items ≡ with_thing classes.now u.0 o name (lists all.old.items)) }
{
    match o {
        Ordinary::Enumerator(a, i) => put_in_class(all, class_of(classes, u, a)?, i, name),
        Ordinary::Static(..) => Ok(()),
    }
}

/// Gives the enumerators of a unit their names in their classes.
fn put_things(
    classes: &Classes,
    all: &mut Vec<Vec<NameId>>,
    u: UnitNo,
    filed: &Filed,
) -> Result<(), Memory>
    ensures { OnOk result (lists all.new.items ≡ with_things classes.now (given_in u.0 filed.now.things.items filed.now.names.items) (lists all.old.items)) }
{
    if filed.things.len() != filed.names.len() {
        return Err(impossible());
    }
    for i in 0..filed.things.len() {
        put_thing(classes, all, u, filed.things[i], filed.names[i])?;
    }
    Ok(())
}

/// Gives the enumerators of all units their names in their classes.
fn put_all_things(
    classes: &Classes,
    all: &mut Vec<Vec<NameId>>,
    filed: &[Filed],
) -> Result<(), Memory>
    ensures { OnOk result (lists all.new.items ≡ with_things classes.now (given_filed 0 filed.now) (lists all.old.items)) }
{
    for u in 0..filed.len() {
        put_things(classes, all, unit_number(u)?, &filed[u])?;
    }
    Ok(())
}

/// The names of the enumerators of classes, for which aggregates stand.
pub(crate) fn name_enumerators(
    alloc: Global,
    classes: &Classes,
    units: &[Fronted],
    stands: &[(UnitNo, AggId)],
    filed: &[Filed],
) -> Result<Vec<Vec<NameId>>, Memory>
    ensures { IfOk result (λ v. lists v.items ≡ enumerators_of classes.now (given_filed 0 filed.now) units.now 0 stands.now) }
{
    let mut all = first_enumerators(alloc, units, stands)?;
    put_all_things(classes, &mut all, filed)?;
    Ok(all)
}
