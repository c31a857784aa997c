ghost use Rattle.std.specs.Prelude.{◌≡◌, [], ◌∷◌, ◌++◌, filter, length, map, OnOk, IfOk};
ghost use Rattle.std.specs.List.{list_any};
ghost use Rattle.cil_base.specs.NamePool.{Stays};
ghost use Rattle.fresh_names.specs.Giving.{IsReady};
ghost use Rattle.static_rename.specs.Files.{is_internal, is_named, unlinked_at, unlinked_from, named_in, global_wish, enumerator_wish, member_wish, wish_at, renamed_at, with_given};
ghost use Rattle.static_rename.specs.Filing.{same_entity, Links, AreLinked, Files, FilesAll};

use cil_base::{AggId, Bases, EntityId, Memory, NameId, NamePool};
use cil_tree::GlobalDecl;
use fresh_names::{Fresh, Wish};
use indexmap::IndexSet;
use link_names::{Fronted, entity_number};
use std::alloc::Global;
use type_graph::{Member, TypeGraph};
use type_things::impossible;
use typed_tree::Ordinary;

/// What a unit has that gets a name at file scope, and these names.
#[derive(Drop)]
pub(crate) struct Filed {
    pub(crate) things: Vec<Ordinary>,
    pub(crate) names: Vec<NameId>,
}

/// Whether an object or function is internal.
fn is_internal(globals: &[GlobalDecl], e: EntityId) -> bool
    ensures { result ≡ is_internal globals.now e }
{
    match globals.get(e.0 as usize) {
        Some(global) => global.internal,
        None => false,
    }
}

/// Whether something gets a name at file scope: an enumerator does where its enum stands for its class.
fn is_named(stands: &[bool], globals: &[GlobalDecl], o: Ordinary) -> bool
    ensures { result ≡ is_named stands.now globals.now o }
{
    match o {
        Ordinary::Static(e) => is_internal(globals, e),
        Ordinary::Enumerator(a, _) => match stands.get(a.0 as usize) {
            Some(stands) => *stands,
            None => false,
        },
    }
}

/// The objects and functions with internal linkage, and the enumerators, that get names.
fn named_ordinary(
    alloc: Global,
    stands: &[bool],
    globals: &[GlobalDecl],
    ordinary: &[Ordinary],
) -> Result<Vec<Ordinary>, Memory>
    ensures { IfOk result (λ v. v.items ≡ filter (is_named stands.now globals.now) ordinary.now) }
{
    let mut all = Vec::new(alloc);
    for i in 0..ordinary.len() {
        if is_named(stands, globals, ordinary[i]) {
            all.push(ordinary[i])?;
        }
    }
    Ok(all)
}

/// Puts an object or function with internal linkage into a set.
#[tactic(auto, using(crate::proofs::FilingLaws::object_linked, crate::proofs::FilingLaws::nothing_linked))]
fn put_linked(all: &mut IndexSet<EntityId>, o: Ordinary) -> Result<(), Memory>
    ensures { OnOk result (Links all.old.keys all.new.keys o) }
{
    match o {
        Ordinary::Static(e) => {
            all.insert(e)?;
            Ok(())
        }
        Ordinary::Enumerator(..) => Ok(()),
    }
}

/// The objects and functions of a unit that have internal linkage.
#[tactic(auto, using(crate::proofs::FilingLaws::linked_next))]
fn with_linkage(alloc: Global, ordinary: &[Ordinary]) -> Result<IndexSet<EntityId>, Memory>
    ensures { IfOk result (λ s. AreLinked s.keys ordinary.now) }
{
    let mut all = IndexSet::new(alloc);
    for i in 0..ordinary.len() {
        put_linked(&mut all, ordinary[i])?;
    }
    Ok(all)
}

/// Puts an object without linkage behind others.
fn push_unlinked_at(
    all: &mut Vec<Ordinary>,
    linked: &IndexSet<EntityId>,
    e: EntityId,
    global: &GlobalDecl,
) -> Result<(), Memory>
    ensures { OnOk result (all.new.items ≡ all.old.items ++ unlinked_at e (list_any (same_entity e) linked.now.keys) global.now) }
{
    if global.internal && !linked.contains(&e) {
        all.push(Ordinary::Static(e))?;
    }
    Ok(())
}

/// Puts the objects of a unit that have no linkage behind others: those declared in blocks, and then literals, which stand behind them.
fn push_unlinked(
    alloc: Global,
    all: &mut Vec<Ordinary>,
    ordinary: &[Ordinary],
    globals: &[GlobalDecl],
) -> Result<(), Memory>
    ensures { OnOk result (all.new.items ≡ all.old.items ++ unlinked_from 0 ordinary.now globals.now) }
{
    let linked = with_linkage(alloc, ordinary)?;
    for e in 0..globals.len() {
        push_unlinked_at(all, &linked, entity_number(e)?, &globals[e])?;
    }
    Ok(())
}

/// What gets a name at file scope in a unit, in order.
fn named_in(alloc: Global, stands: &[bool], f: &Fronted) -> Result<Vec<Ordinary>, Memory>
    ensures { IfOk result (λ v. v.items ≡ named_in stands.now f.now) }
{
    let mut all = named_ordinary(alloc, stands, &f.cil.globals, &f.ordinary)?;
    push_unlinked(alloc, &mut all, &f.ordinary, &f.cil.globals)?;
    Ok(all)
}

/// What an object or function asks for.
fn global_wish(bases: Bases, globals: &[GlobalDecl], e: EntityId) -> Result<Wish, Memory>
    ensures { IfOk result (λ w. w ≡ global_wish bases globals.now e) }
{
    match globals.get(e.0 as usize) {
        Some(global) => Ok(Wish::of(global.name, bases.literal)),
        None => Err(impossible()),
    }
}

/// What an enumerator asks for.
fn enumerator_wish(g: &TypeGraph, a: AggId, i: u32) -> Result<Wish, Memory>
    ensures { IfOk result (λ w. w ≡ enumerator_wish g.now.aggs a i) }
{
    if a.0 >= g.agg_count() {
        return Err(impossible());
    }
    match &g.agg(a).members {
        Some(members) => member_wish(members.as_slice(), i),
        None => Err(impossible()),
    }
}

/// What an enumerator of some asks for.
fn member_wish(members: &[Member], i: u32) -> Result<Wish, Memory>
    ensures { IfOk result (λ w. w ≡ member_wish members.now i) }
{
    match members.get(i as usize) {
        Some(m) => Ok(Wish::Asked(m.name)),
        None => Err(impossible()),
    }
}

/// What something asks for at file scope.
fn wish_at(bases: Bases, f: &Fronted, o: Ordinary) -> Result<Wish, Memory>
    ensures { IfOk result (λ w. w ≡ wish_at bases f.now o) }
{
    match o {
        Ordinary::Static(e) => global_wish(bases, &f.cil.globals, e),
        Ordinary::Enumerator(a, i) => enumerator_wish(&f.cil.graph, a, i),
    }
}

/// What things ask for at file scope.
fn wishes(
    alloc: Global,
    bases: Bases,
    f: &Fronted,
    things: &[Ordinary],
) -> Result<Vec<Wish>, Memory>
    ensures { IfOk result (λ v. v.items ≡ map (wish_at bases f.now) things.now) }
{
    let mut all = Vec::new(alloc);
    for i in 0..things.len() {
        all.push(wish_at(bases, f, things[i])?)?;
    }
    Ok(all)
}

/// Gives what a unit has at file scope, and its other objects with static storage duration, their names.
fn file_unit(
    fresh: &mut Fresh,
    names: &mut NamePool,
    bases: Bases,
    stands: &[bool],
    f: &Fronted,
) -> Result<Filed, Memory>
    requires ready { IsReady fresh.old names.old }
    ensures stays { Stays names.old names.new }
    ensures filed { IfOk result (Files bases stands.now f.now fresh.old.taken.keys fresh.new.taken.keys fresh.new.next.entries names.old names.new) }
{
    let things = named_in(fresh.alloc, stands, f)?;
    let wishes = wishes(fresh.alloc, bases, f, &things)?;
    let names = fresh.give_all(names, &wishes)?;
    Ok(Filed { things, names })
}

/// Gives what all units have at file scope its names.
#[tactic(auto, using(crate::proofs::FilingLaws::files_start, crate::proofs::FilingLaws::files_next))]
pub(crate) fn file_units(
    fresh: &mut Fresh,
    names: &mut NamePool,
    bases: Bases,
    stands: &[Vec<bool>],
    units: &[Fronted],
) -> Result<Vec<Filed>, Memory>
    requires ready { IsReady fresh.old names.old }
    ensures stays { Stays names.old names.new }
    ensures many { OnOk result (length stands.now ≡ length units.now) }
    ensures filed { IfOk result (λ v. FilesAll bases (map (λ s. s.items) stands.now) units.now fresh.old.taken.keys fresh.new.taken.keys fresh.new.next.entries names.old names.new v.items) }
{
    let mut all = Vec::new(fresh.alloc);
    if stands.len() != units.len() {
        return Err(impossible());
    }
    for u in 0..units.len() {
        all.push(file_unit(fresh, names, bases, &stands[u], &units[u])?)?;
    }
    Ok(all)
}

/// Gives a global another name.
#[tactic(auto, using(crate::proofs::FilingLaws::renamed_set))]
fn rename_at(globals: &mut Vec<GlobalDecl>, e: EntityId, name: NameId) -> Result<(), Memory>
    ensures { OnOk result (globals.new.items ≡ renamed_at e.0 name globals.old.items) }
{
    if e.0 as usize >= globals.len() {
        return Err(impossible());
    }
    globals[e.0 as usize].name = name;
    Ok(())
}

/// Gives a global its name where something is one.
fn put_given(globals: &mut Vec<GlobalDecl>, o: Ordinary, name: NameId) -> Result<(), Memory>
    ensures { OnOk result (globals.new.items ≡ with_given (o ∷ []) (name ∷ []) globals.old.items) }
{
    match o {
        Ordinary::Static(e) => rename_at(globals, e, name),
        Ordinary::Enumerator(..) => Ok(()),
    }
}

/// Gives the globals of a unit their names.
pub(crate) fn put_all_given(globals: &mut Vec<GlobalDecl>, filed: &Filed) -> Result<(), Memory>
    ensures { OnOk result (globals.new.items ≡ with_given filed.now.things.items filed.now.names.items globals.old.items) }
{
    if filed.things.len() != filed.names.len() {
        return Err(impossible());
    }
    for i in 0..filed.things.len() {
        put_given(globals, filed.things[i], filed.names[i])?;
    }
    Ok(())
}
