ghost use Rattle.std.specs.Prelude.{◌≡◌, Some, slice_get, OnOk, IfOk};
ghost use Rattle.type_graph.specs.Arena.{member_count};
ghost use Rattle.static_rename.specs.Tags.{member_names, names_under};
ghost use Rattle.static_rename.specs.Tagging.{RetagsAt, Retags, lists, named_by};
ghost use Rattle.static_rename.specs.Renamed.{AreRetagged};

use crate::standing::class_of;
use crate::tags::own_names;
use cil_base::{AggId, Bases, Memory, NameId, UnitNo};
use std::alloc::Global;
use type_graph::{AggKind, Aggregate, Member, TypeGraph};
use type_iso::{ClassNo, Classes};
use type_things::impossible;

/// The names of the classes of units.
#[derive(Drop)]
pub(crate) struct NamedTypes<'a> {
    pub(crate) alloc: Global,
    pub(crate) bases: Bases,
    pub(crate) classes: &'a Classes,
    /// For each class its tag.
    pub(crate) tags: Vec<NameId>,
    /// For each class the names of the enumerators, where it is one of enums.
    pub(crate) enumerators: Vec<Vec<NameId>>,
}

/// The names that members get: those of a struct or union stay.
fn member_names(
    alloc: Global,
    enumerators: &[NameId],
    kind: AggKind,
    members: &[Member],
) -> Result<Vec<NameId>, Memory>
    ensures { IfOk result (λ v. v.items ≡ member_names enumerators.now kind members.now) }
{
    match kind {
        AggKind::Enum => Ok(enumerators.to_vec(alloc)?),
        AggKind::Struct | AggKind::Union => own_names(alloc, members),
    }
}

/// The names that the members of an aggregate get.
fn names_under(
    alloc: Global,
    enumerators: &[NameId],
    aggregate: &Aggregate,
) -> Result<Vec<NameId>, Memory>
    ensures { IfOk result (λ v. v.items ≡ names_under enumerators.now aggregate.now) }
{
    match &aggregate.members {
        Some(members) => member_names(alloc, enumerators, aggregate.kind, members.as_slice()),
        None => Ok(Vec::new(alloc)),
    }
}

/// The number of members of an aggregate.
fn count_of(aggregate: &Aggregate) -> usize
    ensures { result ≡ member_count aggregate.now }
{
    match &aggregate.members {
        Some(members) => members.as_slice().len(),
        None => 0,
    }
}

/// Gives an aggregate a tag, and its enumerators their names where it is an enum.
fn retag(
    alloc: Global,
    g: &mut TypeGraph,
    a: AggId,
    tag: NameId,
    enumerators: &[NameId],
) -> Result<(), Memory>
    ensures { OnOk result (RetagsAt a.0 tag enumerators.now g.old g.new) }
{
    if a.0 >= g.agg_count() {
        return Err(impossible());
    }
    let names = names_under(alloc, enumerators, g.agg(a))?;
    if count_of(g.agg(a)) != names.len() {
        return Err(impossible());
    }
    g.rename_agg(a, tag, &names);
    Ok(())
}

/// The tag of a class.
fn tag_of(tags: &[NameId], class: ClassNo) -> Result<NameId, Memory>
    ensures { IfOk result (λ tag. slice_get tags.now class.0 ≡ Some tag) }
{
    match tags.get(class.0 as usize) {
        Some(tag) => Ok(*tag),
        None => Err(impossible()),
    }
}

/// The names of the enumerators of a class.
#[tactic(auto, using(crate::proofs::TagLaws::list_is))]
fn enumerators_of(all: &[Vec<NameId>], class: ClassNo) -> Result<&[NameId], Memory>
    ensures { IfOk result (λ names. slice_get (lists all.now) class.0 ≡ Some names.now) }
{
    match all.get(class.0 as usize) {
        Some(names) => Ok(names),
        None => Err(impossible()),
    }
}

/// Gives an aggregate of a unit the names of its class.
fn rename_aggregate(
    t: &NamedTypes<'_>,
    u: UnitNo,
    a: AggId,
    g: &mut TypeGraph,
) -> Result<(), Memory>
    ensures { OnOk result (Retags (named_by t.now) u.0 a.0 g.old g.new) }
{
    let class = class_of(t.classes, u, a)?;
    let tag = tag_of(&t.tags, class)?;
    retag(t.alloc, g, a, tag, enumerators_of(&t.enumerators, class)?)
}

/// Gives the aggregates of a unit the names of their classes.
#[tactic(auto, using(crate::proofs::EachLaws::none_yet, crate::proofs::TagLaws::retagged_next, crate::proofs::TagLaws::retagged_of))]
pub(crate) fn rename_aggregates(
    t: &NamedTypes<'_>,
    u: UnitNo,
    g: &mut TypeGraph,
) -> Result<(), Memory>
    ensures { OnOk result (AreRetagged (named_by t.now) u.0 g.old g.new) }
{
    for a in 0..g.agg_count() {
        rename_aggregate(t, u, AggId(a), g)?;
    }
    Ok(())
}
