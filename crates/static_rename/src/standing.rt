ghost use Rattle.std.specs.Prelude.{◌≡◌, Some, map, length, slice_get, IfOk};
ghost use Rattle.type_graph.specs.declared.aggregates.Aggregate.{Aggregate};
ghost use Rattle.type_iso.specs.Classes.{class_in, representative_in};
ghost use Rattle.static_rename.specs.Tags.{aggregate_at, is_at, stands_for, standing_in, standing_from, all_standing};

use cil_base::{AggId, Memory, UnitNo};
use link_names::{Fronted, unit_at, unit_number};
use std::alloc::Global;
use type_graph::{Aggregate, TypeGraph};
use type_iso::{ClassNo, Classes};
use type_things::{impossible, narrow};

/// An aggregate of a graph.
fn aggregate_in(g: &TypeGraph, a: AggId) -> Result<&Aggregate, Memory>
    ensures { IfOk result (λ x. slice_get g.now.aggs a.0 ≡ Some x.now) }
{
    if a.0 >= g.agg_count() {
        return Err(impossible());
    }
    Ok(g.agg(a))
}

/// An aggregate, by its unit and its number there.
pub(crate) fn aggregate_at(units: &[Fronted], at: (UnitNo, AggId)) -> Result<&Aggregate, Memory>
    ensures { IfOk result (λ x. aggregate_at units.now at ≡ Some x.now) }
{
    aggregate_in(&unit_at(units, at.0)?.cil.graph, at.1)
}

/// A class by its place.
fn class_number(k: usize) -> Result<ClassNo, Memory>
    ensures { IfOk result (λ n. n.0 ≡ k) }
{
    let number = narrow(k)?;
    Ok(ClassNo(number))
}

/// The aggregate that stands for a class.
fn representative(classes: &Classes, k: usize) -> Result<(UnitNo, AggId), Memory>
    ensures { IfOk result (λ at. representative_in classes.now k ≡ Some at) }
{
    match classes.representative(class_number(k)?) {
        Some(at) => Ok(at),
        None => Err(impossible()),
    }
}

/// The aggregates that stand for the classes, in their order.
pub(crate) fn all_standing(alloc: Global, classes: &Classes) -> Result<Vec<(UnitNo, AggId)>, Memory>
    ensures { IfOk result (λ v. v.items ≡ all_standing classes.now) }
{
    let mut all = Vec::new(alloc);
    for k in 0..classes.count() {
        all.push(representative(classes, k)?)?;
    }
    Ok(all)
}

/// Whether an aggregate is that of a unit with this number.
fn is_at(u: UnitNo, a: AggId, at: Option<(UnitNo, AggId)>) -> bool
    ensures { result ≡ is_at u.0 a.0 at }
{
    match at {
        Some((v, b)) => v == u && b == a,
        None => false,
    }
}

/// The class of an aggregate.
pub(crate) fn class_of(classes: &Classes, u: UnitNo, a: AggId) -> Result<ClassNo, Memory>
    ensures { IfOk result (λ k. class_in classes.now u.0 a.0 ≡ Some k.0) }
{
    match classes.class_of(u, a) {
        Some(class) => Ok(class),
        None => Err(impossible()),
    }
}

/// Whether an aggregate stands for its class.
fn stands_for(classes: &Classes, u: UnitNo, a: AggId) -> Result<bool, Memory>
    ensures { IfOk result (λ b. b ≡ stands_for classes.now u.0 a.0) }
{
    let class = class_of(classes, u, a)?;
    Ok(is_at(u, a, classes.representative(class)))
}

/// Which aggregates of a unit stand for their classes.
fn standing_in(
    alloc: Global,
    classes: &Classes,
    u: UnitNo,
    g: &TypeGraph,
) -> Result<Vec<bool>, Memory>
    ensures { IfOk result (λ v. v.items ≡ standing_in classes.now u.0 (length g.now.aggs)) }
{
    let mut all = Vec::new(alloc);
    for a in 0..g.agg_count() {
        all.push(stands_for(classes, u, AggId(a))?)?;
    }
    Ok(all)
}

/// For each unit, which of its aggregates stand for their classes.
pub(crate) fn standing_from(
    alloc: Global,
    classes: &Classes,
    units: &[Fronted],
) -> Result<Vec<Vec<bool>>, Memory>
    ensures { IfOk result (λ v. map (λ s. s.items) v.items ≡ standing_from classes.now 0 units.now) }
{
    let mut all = Vec::new(alloc);
    for u in 0..units.len() {
        all.push(standing_in(alloc, classes, unit_number(u)?, &units[u].cil.graph)?)?;
    }
    Ok(all)
}
