ghost use Rattle.std.specs.Prelude.{◌≡◌, ◌≢◌, ◌⊎◌, ℕ, ◌<◌, ◌≤◌, Bool, true, false, List, [], ◌∷◌, ◌++◌, Option, Some, None, MatchBool, length, slice_get, IfOk, OnOk};
ghost use Rattle.type_things.specs.declared.web.Head.{Head};
ghost use Rattle.type_things.specs.declared.web.Label.{Label};
ghost use Rattle.type_things.specs.Heads.{is_enum, parts_of};
ghost use Rattle.type_things.specs.Things.{Thing};
ghost use Rattle.type_things.specs.Webs.{things_of};
ghost use Rattle.type_iso.specs.Standing.{at_own};
ghost use Rattle.type_iso.specs.Ordering.{has_values, AreSettled, IsOnlyPart, IsValue, AreValues, IsArraySettled, IsSettled, AreSettledUpTo, AddsValue, AddsNeeds, AreNeedsOf, AreNeeds, IsOwnEnum, AreIdempotent, IsOrder, AreEnums, ListsEnum, Lists, IsReckoned};
ghost use Rattle.type_order.specs.Order.{needed_of, IsLeastFirst};

use cil_base::Memory;
use std::alloc::Global;
use type_order::least_first;
use type_things::{Head, Part, Web, at, impossible};

/// The only part of a thing.
fn only_part(web: &Web, x: u32) -> Result<u32, Memory>
    ensures { IfOk result (IsOnlyPart (things_of web.now) x) }
{
    let parts = web.parts(x)?;
    if parts.len() != 1 {
        return Err(impossible());
    }
    Ok(parts[0].1)
}

/// What a type has by value, in a table.
fn value_at(values: &[Option<u32>], ty: u32) -> Result<Option<u32>, Memory>
    ensures { IfOk result (λ o. slice_get values.now ty ≡ Some o) }
{
    match values.get(ty as usize) {
        Some(value) => Ok(*value),
        None => Err(impossible()),
    }
}

/// The aggregate that a type is, or that an array has as its elements, however many bounds it has.
fn value_of(web: &Web, values: &[Option<u32>], x: u32) -> Result<Option<u32>, Memory>
    ensures { IfOk result (IsValue (things_of web.now) values.now x) }
{
    match web.head(x)? {
        Head::Agg => Ok(Some(only_part(web, x)?)),
        Head::Array(_) => value_at(values, only_part(web, x)?),
        Head::Void | Head::Int(_) | Head::Ptr | Head::Func { .. } | Head::Tagged(..) => Ok(None),
    }
}

/// For each thing the aggregate that it has by value, if it is a type that does.
fn values(alloc: Global, web: &Web) -> Result<Vec<Option<u32>>, Memory>
    ensures { IfOk result (λ v. AreValues (things_of web.now) v.items (length web.now.things.items)) }
{
    let mut all = Vec::new(alloc);
    for x in 0..web.count()? {
        let value = value_of(web, &all, x)?;
        all.push(value)?;
    }
    Ok(all)
}

/// Whether a thing is settled, in a table.
fn settled_at(settled: &[bool], x: u32) -> Result<bool, Memory>
    ensures { IfOk result (λ b. slice_get settled.now x ≡ Some b) }
{
    match settled.get(x as usize) {
        Some(b) => Ok(*b),
        None => Err(impossible()),
    }
}

/// Whether all parts are settled.
fn parts_settled(settled: &[bool], parts: &[Part]) -> Result<bool, Memory>
    ensures { IfOk result (λ b. b ≡ true → AreSettled settled.now parts.now) }
{
    for i in 0..parts.len() {
        if !settled_at(settled, parts[i].1)? {
            return Ok(false);
        }
    }
    Ok(true)
}

/// Whether an aggregate is settled: one that does not stand for its class, or an enum.
fn aggregate_settled(standing: &[u32], head: Head, x: u32) -> Result<bool, Memory>
    ensures within { OnOk result (x < length standing.now) }
    ensures which { IfOk result (λ b. MatchBool b ((at_own standing.now x ≢ x) ⊎ (is_enum head ≡ true)) ((at_own standing.now x ≡ x) × (is_enum head ≡ false))) }
{
    let own = at(standing, x)?;
    if own != x {
        return Ok(true);
    }
    Ok(head.is_enum())
}

/// That a type in which no type stands is settled.
fn simple_settled(web: &Web, x: u32) -> Result<bool, Memory>
    ensures type_is { OnOk result (web.now.aggregates ≤ x) }
    ensures settled { IfOk result (λ b. b ≡ true) }
{
    if x < web.aggregates {
        return Err(impossible());
    }
    Ok(true)
}

/// Whether a pointer, an array or a function is settled, but for what an array has as elements: the types in it are.
fn derived_settled(web: &Web, settled: &[bool], x: u32) -> Result<bool, Memory>
    ensures type_is { OnOk result (web.now.aggregates ≤ x) }
    ensures settled { IfOk result (λ b. b ≡ true → AreSettled settled.now (parts_of (things_of web.now) x)) }
{
    if x < web.aggregates {
        return Err(impossible());
    }
    parts_settled(settled, web.parts(x)?)
}

/// Whether an array is settled: its elements have no aggregate by value, and their type is settled.
fn array_settled(
    web: &Web,
    values: &[Option<u32>],
    settled: &[bool],
    x: u32,
) -> Result<bool, Memory>
    ensures { IfOk result (IsArraySettled (things_of web.now) web.now.aggregates values.now settled.now x) }
{
    let value = value_at(values, only_part(web, x)?)?;
    let inner = derived_settled(web, settled, x)?;
    match value {
        Some(_) => Ok(false),
        None => Ok(inner),
    }
}

/// Whether a thing is settled from the start: nothing waits for it. That is an aggregate that does not stand for its class or is an
/// enum, and a type in which no aggregate is the element of an array.
fn is_settled(
    web: &Web,
    standing: &[u32],
    values: &[Option<u32>],
    settled: &[bool],
    x: u32,
) -> Result<bool, Memory>
    ensures { IfOk result (IsSettled (things_of web.now) web.now.aggregates standing.now values.now settled.now x) }
{
    match web.head(x)? {
        Head::Void | Head::Int(_) | Head::Agg => simple_settled(web, x),
        Head::Array(_) => array_settled(web, values, settled, x),
        Head::Ptr | Head::Func { .. } => derived_settled(web, settled, x),
        Head::Tagged(kind, stem) => aggregate_settled(standing, Head::Tagged(kind, stem), x),
    }
}

/// Which things are settled from the start.
fn all_settled(
    alloc: Global,
    web: &Web,
    standing: &[u32],
    values: &[Option<u32>],
) -> Result<Vec<bool>, Memory>
    ensures { IfOk result (λ v. AreSettledUpTo (things_of web.now) web.now.aggregates standing.now values.now v.items (length web.now.things.items)) }
{
    let mut all = Vec::new(alloc);
    for x in 0..web.count()? {
        let settled = is_settled(web, standing, values, &all, x)?;
        all.push(settled)?;
    }
    Ok(all)
}

/// Puts what stands for the class of an aggregate.
fn push_standing(all: &mut Vec<u32>, standing: &[u32], a: u32) -> Result<(), Memory>
    ensures within { OnOk result (a < length standing.now) }
    ensures pushed { OnOk result (all.new.items ≡ all.old.items ++ at_own standing.now a ∷ []) }
{
    let own = at(standing, a)?;
    all.push(own)?;
    Ok(())
}

/// Puts the aggregate that a type has by value, as the one that stands for its class.
fn push_value(
    all: &mut Vec<u32>,
    standing: &[u32],
    values: &[Option<u32>],
    ty: u32,
) -> Result<(), Memory>
    ensures { OnOk result (AddsValue standing.now values.now ty all.old.items all.new.items) }
{
    match value_at(values, ty)? {
        None => Ok(()),
        Some(a) => push_standing(all, standing, a),
    }
}

/// That a part is a type, and that it stands before a type whose part it is.
fn check_part(aggregates: u32, x: u32, ty: u32) -> Result<(), Memory>
    ensures above { OnOk result (aggregates ≤ ty) }
    ensures below { OnOk result (aggregates ≤ x → ty < x) }
{
    if ty < aggregates {
        return Err(impossible());
    }
    if x >= aggregates && ty >= x {
        return Err(impossible());
    }
    Ok(())
}

/// Puts what a thing waits for by one of its parts.
fn push_needs(
    all: &mut Vec<u32>,
    aggregates: u32,
    standing: &[u32],
    values: &[Option<u32>],
    by_value: bool,
    x: u32,
    ty: u32,
) -> Result<(), Memory>
    ensures { OnOk result (AddsNeeds standing.now values.now aggregates by_value x ty all.old.items all.new.items) }
{
    check_part(aggregates, x, ty)?;
    all.push(ty)?;
    if by_value {
        return push_value(all, standing, values, ty);
    }
    Ok(())
}

/// Whether the parts of a thing stand in it by value.
fn has_values(head: Head) -> bool
    ensures { result ≡ has_values head }
{
    matches!(head, Head::Array(_) | Head::Tagged(..))
}

/// What a thing waits for.
fn needs_of(
    alloc: Global,
    web: &Web,
    standing: &[u32],
    values: &[Option<u32>],
    x: u32,
) -> Result<Vec<u32>, Memory>
    ensures { IfOk result (λ v. AreNeedsOf web.now.aggregates standing.now values.now (things_of web.now) x v.items) }
{
    let by_value = has_values(web.head(x)?);
    let parts = web.parts(x)?;
    let mut all = Vec::new(alloc);
    for i in 0..parts.len() {
        push_needs(
            &mut all,
            web.aggregates,
            standing,
            values,
            by_value,
            x,
            parts[i].1,
        )?;
    }
    Ok(all)
}

/// What a thing waits for, if it is not settled.
fn needs_unless(
    alloc: Global,
    web: &Web,
    standing: &[u32],
    values: &[Option<u32>],
    settled: bool,
    x: u32,
) -> Result<Vec<u32>, Memory>
    ensures { IfOk result (λ v. settled ≡ false → AreNeedsOf web.now.aggregates standing.now values.now (things_of web.now) x v.items) }
{
    if settled {
        return Ok(Vec::new(alloc));
    }
    let needs = needs_of(alloc, web, standing, values, x)?;
    Ok(needs)
}

/// What each thing waits for that is not settled.
fn all_needs(
    alloc: Global,
    web: &Web,
    standing: &[u32],
    values: &[Option<u32>],
    settled: &[bool],
) -> Result<Vec<Vec<u32>>, Memory>
    ensures { IfOk result (λ v. AreNeeds web.now.aggregates standing.now values.now (things_of web.now) settled.now (needed_of v.items) (length web.now.things.items)) }
{
    let mut all = Vec::new(alloc);
    for x in 0..web.count()? {
        let known = settled_at(settled, x)?;
        let needs = needs_unless(alloc, web, standing, values, known, x)?;
        all.push(needs)?;
    }
    Ok(all)
}

/// Whether an aggregate is an enum that stands for its class.
fn is_own_enum(web: &Web, standing: &[u32], a: u32) -> Result<bool, Memory>
    ensures { IfOk result (λ b. MatchBool b (IsOwnEnum (things_of web.now) standing.now a) (¬ (IsOwnEnum (things_of web.now) standing.now a))) }
{
    let own = at(standing, a)?;
    if own != a {
        return Ok(false);
    }
    Ok(web.head(a)?.is_enum())
}

/// Puts an enum that stands for its class behind an order.
fn list_enum(order: &mut Vec<u32>, web: &Web, standing: &[u32], a: u32) -> Result<(), Memory>
    ensures { OnOk result (ListsEnum (things_of web.now) standing.now a order.old.items order.new.items) }
{
    if !is_own_enum(web, standing, a)? {
        return Ok(());
    }
    order.push(a)?;
    Ok(())
}

/// The enums that stand for classes.
fn enums(alloc: Global, web: &Web, standing: &[u32]) -> Result<Vec<u32>, Memory>
    ensures { IfOk result (λ v. AreEnums (things_of web.now) web.now.aggregates standing.now v.items web.now.aggregates) }
{
    let mut order = Vec::new(alloc);
    for a in 0..web.aggregates {
        list_enum(&mut order, web, standing, a)?;
    }
    Ok(order)
}

/// Puts a thing behind an order if it is an aggregate.
fn list(order: &mut Vec<u32>, aggregates: u32, x: u32) -> Result<(), Memory>
    ensures { OnOk result (Lists aggregates x order.old.items order.new.items) }
{
    if x >= aggregates {
        return Ok(());
    }
    order.push(x)?;
    Ok(())
}

/// The aggregates among what comes, behind the enums.
fn listed(come: &[u32], aggregates: u32, enums: Vec<u32>) -> Result<Vec<u32>, Memory>
    ensures { (ts : List (Thing Head Label)) (st : List ℕ) (vs : List (Option ℕ)) (settled : List Bool) (needs : ℕ → List ℕ) → IsReckoned ts aggregates st vs settled needs → IsLeastFirst needs aggregates settled come.now → AreEnums ts aggregates st enums.items aggregates → IfOk result (λ v. IsOrder ts aggregates st v.items) }
{
    let mut order = enums;
    for k in 0..come.len() {
        list(&mut order, aggregates, come[k])?;
    }
    Ok(order)
}

/// The aggregates that stand for classes, in the order of their classes: the enums first, then again and again the least that may
/// stand. One may where those that it has by value, and those that are elements of arrays anywhere in its members' types, stand before
/// it.
pub(crate) fn ordered(alloc: Global, web: &Web, standing: &[u32]) -> Result<Vec<u32>, Memory>
    ensures { web.now.aggregates ≤ length web.now.things.items → AreIdempotent web.now.aggregates standing.now → IfOk result (λ v. IsOrder (things_of web.now) web.now.aggregates standing.now v.items) }
{
    let values = values(alloc, web)?;
    let settled = all_settled(alloc, web, standing, &values)?;
    let needs = all_needs(alloc, web, standing, &values, &settled)?;
    let come = least_first(alloc, &needs, web.aggregates, settled)?;
    listed(&come, web.aggregates, enums(alloc, web, standing)?)
}
