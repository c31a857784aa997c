ghost use Rattle.std.specs.Prelude.{◌≡◌, ℕ, suc, ◌<◌, ◌≤◌, true, List, [], Option, Some, None, map, length, slice_get, slice_set, IsTrue, IfOk, OnOk};
ghost use Rattle.type_joins.specs.Forests.{root, IsForest};
ghost use Rattle.type_joins.specs.Joined.{IsJoining};
ghost use Rattle.type_things.specs.Webs.{IsWeb, things_of};
ghost use Rattle.type_things.specs.declared.web.First.{First};
ghost use Rattle.type_things.specs.declared.web.Head.TheVariants.{Agg};
ghost use Rattle.type_things.specs.Heads.{first_part};
ghost use Rattle.type_things.specs.Things.{head_of};
ghost use Rattle.type_iso.specs.Places.{EndsAbove, IsPlace, ArePlaces, ArePlaced, IsTypePlace, IsOver, IsClashAt};
ghost use Rattle.type_iso.specs.Standing.{AreLeast, LetsStand, StandUpTo, AreStanding, AreNumbersIn, IsStandingAt, AreNumbersOf, AreOrdered, AreClassed};
ghost use Rattle.type_iso.specs.Ordering.{AreInOrder};
ghost use Rattle.type_iso.specs.Classes.{Answers};

use crate::class_table::Classes;
use crate::ordering::ordered;
use cil_base::{AggId, Memory, NamePool, TypeId, UnitNo};
use std::alloc::Global;
use type_joins::Joining;
use type_links::{Failure, Group, join_groups};
use type_partition::{copied, gather, isomorphic};
use type_things::{First, HasGraph, Head, Web, at, impossible, narrow, put, sum, weave};

/// Why there are no classes.
#[derive(Clone, Copy)]
pub enum ClassStop {
    /// Two declarations of one name have types that do not correspond (C11 6.2.7p2): the group, its two parties by their places, and
    /// two types that would have to correspond and differ.
    Clash {
        group: u32,
        earlier: u32,
        later: u32,
        left: (UnitNo, TypeId),
        right: (UnitNo, TypeId),
    },
    /// Memory is wanting.
    Memory,
}

impl From<Memory> for ClassStop {
    ghost use Rattle.type_iso.specs.declared.merging.ClassStop.TheVariants.{Memory as WantOfMemory};

    ghost from_gives = { λ _ stop. stop ≡ WantOfMemory };

    fn from(_want: Memory) -> Self {
        ClassStop::Memory
    }
}

/// The last unit whose first type is not above a type.
fn unit_of(firsts: &[First], x: u32) -> Result<UnitNo, Memory> {
    let mut found = UnitNo(0);
    for u in 0..firsts.len() {
        if firsts[u].ty <= x {
            found = UnitNo(narrow(u)?);
        }
    }
    Ok(found)
}

/// The first numbers of a unit.
fn first_of(firsts: &[First], u: UnitNo) -> Result<First, Memory>
    ensures { IfOk result (λ f. slice_get firsts.now u.0 ≡ Some f) }
{
    match firsts.get(u.0 as usize) {
        Some(first) => Ok(*first),
        None => Err(impossible()),
    }
}

/// That a number is below another one.
fn check_below(x: u32, end: u32) -> Result<(), Memory>
    ensures { OnOk result (x < end) }
{
    if x >= end {
        return Err(impossible());
    }
    Ok(())
}

/// That a type stands before those of the next unit.
fn check_end(firsts: &[First], u: UnitNo, x: u32) -> Result<(), Memory>
    ensures { OnOk result ((f : First) → slice_get firsts.now (suc u.0) ≡ Some f → x < f.ty) }
{
    match firsts.get(u.0 as usize + 1) {
        None => Ok(()),
        Some(next) => check_below(x, next.ty),
    }
}

/// A type by its unit and its number there.
fn type_of(web: &Web, x: u32) -> Result<(UnitNo, TypeId), Memory>
    ensures { IfOk result (IsTypePlace web.now.firsts.items (length web.now.things.items) x) }
{
    let u = unit_of(web.firsts(), x)?;
    check_end(web.firsts(), u, x)?;
    check_below(x, web.count()?)?;
    let first = first_of(web.firsts(), u)?;
    match x.checked_sub(first.ty) {
        Some(number) => Ok((u, TypeId(number))),
        None => Err(impossible()),
    }
}

/// Whether a type is an aggregate.
fn is_type_of(web: &Web, x: u32, a: u32) -> Result<bool, Memory>
    ensures { IfOk result (λ b. b ≡ true → (head_of (things_of web.now) x ≡ Some Agg) × (first_part (things_of web.now) x ≡ a)) }
{
    match web.head(x)? {
        Head::Agg => Ok(web.first_part(x)? == a),
        _ => Ok(false),
    }
}

/// A type that is an aggregate.
fn type_that_is(web: &Web, a: u32) -> Result<u32, Memory>
    ensures { IfOk result (λ y. (head_of (things_of web.now) y ≡ Some Agg) × (first_part (things_of web.now) y ≡ a)) }
{
    for x in web.aggregates..web.count()? {
        if is_type_of(web, x, a)? {
            return Ok(x);
        }
    }
    Err(impossible())
}

/// The type that a thing is: itself, or one that is the aggregate.
fn type_over(web: &Web, x: u32) -> Result<u32, Memory>
    ensures { IfOk result (IsOver (things_of web.now) x) }
{
    if x < web.aggregates {
        return type_that_is(web, x);
    }
    Ok(x)
}

/// The refusal that a link is.
fn clash(web: &Web, failure: Failure) -> Result<ClassStop, Memory>
    ensures { IfOk result (IsClashAt web.now failure) }
{
    Ok(ClassStop::Clash {
        group: failure.group,
        earlier: failure.earlier,
        later: failure.later,
        left: type_of(web, type_over(web, failure.pair.0)?)?,
        right: type_of(web, type_over(web, failure.pair.1)?)?,
    })
}

/// Lets a complete aggregate stand for its class where no complete one stands for it yet.
fn let_stand(web: &Web, standing: &mut Vec<u32>, class: u32, x: u32) -> Result<(), Memory>
    ensures { OnOk result (LetsStand (things_of web.now) class x standing.old.items standing.new.items) }
{
    let before = at(standing, class)?;
    if web.is_complete(before)? {
        return Ok(());
    }
    if !web.is_complete(x)? {
        return Ok(());
    }
    put(standing, class, x)
}

/// For the least member of each class the aggregate that stands for it: the first complete one, or that member where none is complete.
fn standing_for(alloc: Global, web: &Web, classes: &[u32]) -> Result<Vec<u32>, Memory>
    ensures { AreLeast classes.now → IfOk result (λ v. StandUpTo (things_of web.now) classes.now v.items web.now.aggregates) }
{
    let mut standing = copied(alloc, classes)?;
    for x in 0..web.aggregates {
        let class = at(classes, x)?;
        let_stand(web, &mut standing, class, x)?;
    }
    Ok(standing)
}

/// For each aggregate the one that stands for its class.
fn all_standing(alloc: Global, web: &Web, classes: &[u32]) -> Result<Vec<u32>, Memory>
    ensures { AreLeast classes.now → IfOk result (λ v. AreStanding (things_of web.now) classes.now web.now.aggregates v.items) }
{
    let standing = standing_for(alloc, web, classes)?;
    let mut all = Vec::new(alloc);
    for x in 0..web.aggregates {
        let class = at(classes, x)?;
        all.push(at(&standing, class)?)?;
    }
    Ok(all)
}

/// A table without numbers.
fn no_numbers(alloc: Global, count: usize) -> Result<Vec<Option<u32>>, Memory>
    ensures { (order : List ℕ) → IfOk result (λ v. AreNumbersIn order v.items) }
{
    let mut numbers = Vec::new(alloc);
    for _a in 0..count {
        numbers.push(None)?;
    }
    Ok(numbers)
}

/// Whether a thing is in a table and has no number there.
fn lacks_number(numbers: &[Option<u32>], x: u32) -> bool
    ensures { IsTrue result → slice_get numbers.now x ≡ Some None }
{
    matches!(numbers.get(x as usize), Some(None))
}

/// Gives a thing that has none a number.
fn put_number(numbers: &mut Vec<Option<u32>>, x: u32, number: u32) -> Result<(), Memory>
    ensures free { OnOk result (slice_get numbers.old.items x ≡ Some None) }
    ensures set { OnOk result (numbers.new.items ≡ slice_set numbers.old.items x (Some number)) }
{
    if x as usize >= numbers.len() {
        return Err(impossible());
    }
    if !lacks_number(numbers, x) {
        return Err(impossible());
    }
    numbers[x as usize] = Some(number);
    Ok(())
}

/// An aggregate of an order, which stands for its class.
fn standing_at(order: &[u32], standing: &[u32], k: u32) -> Result<u32, Memory>
    ensures { IfOk result (IsStandingAt order.now standing.now k) }
{
    let a = at(order, k)?;
    if at(standing, a)? != a {
        return Err(impossible());
    }
    Ok(a)
}

/// For each aggregate of an order its place there.
fn class_numbers(alloc: Global, order: &[u32], standing: &[u32]) -> Result<Vec<Option<u32>>, Memory>
    ensures { IfOk result (λ v. AreNumbersOf order.now standing.now v.items (length order.now)) }
{
    let mut numbers = no_numbers(alloc, standing.len())?;
    for k in 0..narrow(order.len())? {
        put_number(&mut numbers, standing_at(order, standing, k)?, k)?;
    }
    Ok(numbers)
}

/// The number of an aggregate in a table.
fn number_of(numbers: &[Option<u32>], x: u32) -> Result<u32, Memory>
    ensures { IfOk result (λ n. slice_get numbers.now x ≡ Some (Some n)) }
{
    match numbers.get(x as usize) {
        Some(Some(number)) => Ok(*number),
        _ => Err(impossible()),
    }
}

/// The class of each aggregate by its number.
fn numbered(alloc: Global, order: &[u32], standing: &[u32]) -> Result<Vec<u32>, Memory>
    ensures { IfOk result (λ v. AreOrdered order.now standing.now v.items) }
{
    let numbers = class_numbers(alloc, order, standing)?;
    let mut of = Vec::new(alloc);
    for x in 0..standing.len() {
        of.push(number_of(&numbers, standing[x])?)?;
    }
    Ok(of)
}

/// The last unit from one on before which the next one begins above an aggregate.
fn later_unit(firsts: &[First], from: u32, x: u32) -> Result<u32, Memory>
    ensures { IfOk result (EndsAbove firsts.now x) }
{
    let mut u = from;
    for next in from as usize + 1..firsts.len() {
        if firsts[next].aggregate > x {
            return Ok(u);
        }
        u = narrow(next)?;
    }
    Ok(u)
}

/// The unit of an aggregate, from one on, and its number there.
fn place_of(firsts: &[First], from: UnitNo, x: u32) -> Result<(UnitNo, AggId), Memory>
    ensures { IfOk result (IsPlace firsts.now x) }
{
    let u = later_unit(firsts, from.0, x)?;
    let Some(first) = firsts.get(u as usize) else {
        return Err(impossible());
    };
    match x.checked_sub(first.aggregate) {
        Some(number) => Ok((UnitNo(u), AggId(number))),
        None => Err(impossible()),
    }
}

/// For each aggregate its unit and its number there.
fn places(alloc: Global, web: &Web) -> Result<Vec<(UnitNo, AggId)>, Memory>
    ensures { IfOk result (λ v. ArePlaces web.now.firsts.items web.now.aggregates v.items) }
{
    let mut all = Vec::new(alloc);
    let mut u = UnitNo(0);
    for x in 0..web.aggregates {
        let place = place_of(web.firsts(), u, x)?;
        all.push(place)?;
        u = place.0;
    }
    Ok(all)
}

/// The place of an aggregate in a table.
fn place_at(places: &[(UnitNo, AggId)], x: u32) -> Result<(UnitNo, AggId), Memory>
    ensures { IfOk result (λ p. slice_get places.now x ≡ Some p) }
{
    match places.get(x as usize) {
        Some(place) => Ok(*place),
        None => Err(impossible()),
    }
}

/// The aggregates of an order by unit and number.
fn representatives(alloc: Global, web: &Web, order: &[u32]) -> Result<Vec<(UnitNo, AggId)>, Memory>
    ensures { IfOk result (λ v. ArePlaced web.now.firsts.items order.now v.items) }
{
    let places = places(alloc, web)?;
    let mut all = Vec::new(alloc);
    for k in 0..order.len() {
        all.push(place_at(&places, order[k])?)?;
    }
    Ok(all)
}

/// The numbers of the classes of aggregates, and the order of those that stand for them.
fn class_order(alloc: Global, web: &Web, joining: Joining) -> Result<(Vec<u32>, Vec<u32>), Memory>
    requires web { IsWeb (things_of web.now) web.now.aggregates }
    requires within { web.now.aggregates ≤ length web.now.things.items }
    requires forest { IsForest joining.forest.parents.items }
    ensures { (done : List (ℕ × ℕ)) → IsJoining (things_of web.now) done (root joining.forest.parents.items) joining.stand.items [] → IfOk result (λ p. AreClassed (things_of web.now) done web.now.aggregates p.0.items p.1.items × AreInOrder (things_of web.now) web.now.aggregates p.0.items p.1.items) }
{
    let numbers = isomorphic(alloc, web)?;
    let classes = gather(alloc, joining.into_forest(), &numbers)?;
    let standing = all_standing(alloc, web, &classes)?;
    let order = ordered(alloc, web, &standing)?;
    let of = numbered(alloc, &order, &standing)?;
    Ok((of, order))
}

/// The classes, once the links are joined and fit.
fn classed(alloc: Global, web: Web, joining: Joining) -> Result<Classes, Memory>
    requires web { IsWeb (things_of web) web.aggregates }
    requires within { web.aggregates ≤ length web.things.items }
    requires forest { IsForest joining.forest.parents.items }
    ensures { (done : List (ℕ × ℕ)) → IsJoining (things_of web) done (root joining.forest.parents.items) joining.stand.items [] → IfOk result (λ c. (c.firsts ≡ web.firsts) × ((order : List ℕ) × AreClassed (things_of web) done web.aggregates c.of.items order × ArePlaced web.firsts.items order c.representatives.items × AreInOrder (things_of web) web.aggregates c.of.items order)) }
{
    let (of, order) = class_order(alloc, &web, joining)?;
    let representatives = representatives(alloc, &web, &order)?;
    Ok(Classes {
        firsts: web.into_firsts(),
        of,
        representatives,
    })
}

/// The classes of the aggregates of units: the least equivalence that holds isomorphic ones and those that stand at equal places of
/// two declarations of one name.
///
/// The links between declarations are all pairs of parties of one group, in the order of the groups, then of the later party, then of
/// the earlier one. `Clash` comes for the first that lets the links up to it correspond in no way (C11 6.2.7, own); the other error is
/// want of memory. The pool has the names by which tags and members are compared; the classes are in the order in which they are printed.
pub fn classes<G: HasGraph>(
    alloc: Global,
    units: &[G],
    groups: &[Group],
    names: &NamePool,
) -> Result<Classes, ClassStop>
    ensures { Answers names.now (map G.graph_of units.now) groups.now result }
{
    let web = weave(alloc, units, names)?;
    let mut joining = Joining::new(alloc, &web)?;
    match join_groups(alloc, &web, &mut joining, groups)? {
        None => Ok(classed(alloc, web, joining)?),
        Some(failure) => Err(clash(&web, failure)?),
    }
}
