ghost use Rattle.std.specs.Prelude.{◌≡◌, Some, ℕ, ◌<◌, ◌≤◌, ◌+◌, length, slice_get, IfOk, OnOk};
ghost use Rattle.type_things.specs.Things.{read};
ghost use Rattle.type_partition.specs.Partition.{AreNumbers};
ghost use Rattle.type_things.specs.Webs.{AllBelow, IsWeb, things_of};
ghost use Rattle.type_partition.specs.Rounds.{AreSplit};
ghost use Rattle.type_partition.specs.Keys.{Distinct, Grown, Chain, num_at, Signed, InsideBelow, AreNumbered};

use cil_base::Memory;
use indexmap::IndexSet;
use std::alloc::Global;
use type_things::{Head, Label, Part, Web, at, impossible, narrow, sum};

/// What a thing is compared by. The number of a key is its place in the list of all keys.
#[derive(Clone, Copy, PartialEq, Eq, Hash)]
pub enum Key {
    /// What it is, before its parts.
    Start(Head),
    /// The number of the key with the parts behind, what stands beside a part, and the part's number.
    Part(u32, Label, u32),
    /// An incomplete aggregate, which is like itself alone.
    Alone(u32),
}

/// The number of a key.
fn number(keys: &mut IndexSet<Key>, key: Key) -> Result<u32, Memory>
    requires distinct { Distinct keys.old.keys }
    ensures there { IfOk result (λ n. slice_get keys.new.keys n ≡ Some key) }
    ensures grown { OnOk result (Grown keys.old.keys keys.new.keys) }
    ensures distinct { OnOk result (Distinct keys.new.keys) }
{
    let (index, _new) = keys.insert_full(key)?;
    narrow(index)
}

/// The number of a head with parts.
fn chained(
    keys: &mut IndexSet<Key>,
    head: Head,
    parts: &[Part],
    numbers: &[u32],
) -> Result<u32, Memory>
    requires distinct { Distinct keys.old.keys }
    ensures chain { IfOk result (λ n. Chain keys.new.keys head (read (num_at numbers.now) parts.now) n) }
    ensures below { OnOk result (AllBelow (length numbers.now) parts.now) }
    ensures grown { OnOk result (Grown keys.old.keys keys.new.keys) }
    ensures distinct { OnOk result (Distinct keys.new.keys) }
{
    let mut n = number(keys, Key::Start(head))?;
    for k in 0..parts.len() {
        let (label, part) = parts[parts.len() - 1 - k];
        n = number(keys, Key::Part(n, label, at(numbers, part)?))?;
    }
    Ok(n)
}

/// The number of a thing whose parts have numbers: two things have one number exactly where they are alike and their parts have the
/// same numbers.
fn signature(web: &Web, x: u32, numbers: &[u32], keys: &mut IndexSet<Key>) -> Result<u32, Memory>
    requires distinct { Distinct keys.old.keys }
    ensures signed { IfOk result (λ n. Signed (things_of web.now) keys.new.keys (num_at numbers.now) x n) }
    ensures below { OnOk result (InsideBelow (things_of web.now) x (length numbers.now)) }
    ensures grown { OnOk result (Grown keys.old.keys keys.new.keys) }
    ensures distinct { OnOk result (Distinct keys.new.keys) }
{
    match web.inside(x)? {
        Some(parts) => chained(keys, web.head(x)?, parts, numbers),
        None => number(keys, Key::Alone(x)),
    }
}

/// Puts the numbers of all types behind those of the aggregates.
fn number_types(web: &Web, numbers: &mut Vec<u32>, keys: &mut IndexSet<Key>) -> Result<(), Memory>
    requires distinct { Distinct keys.old.keys }
    requires count { length numbers.old.items ≡ web.now.aggregates }
    requires within { web.now.aggregates ≤ length web.now.things.items }
    ensures { OnOk result (AreNumbered (things_of web.now) web.now.aggregates keys.new.keys numbers.old.items numbers.new.items (length web.now.things.items)) }
{
    for x in web.aggregates..web.count()? {
        let n = signature(web, x, numbers, keys)?;
        numbers.push(sum(web.aggregates, n)?)?;
    }
    Ok(())
}

/// The number of a number among those that came before, by its first appearance.
fn rank(seen: &mut IndexSet<u32>, n: u32) -> Result<u32, Memory>
    requires distinct { Distinct seen.old.keys }
    ensures there { IfOk result (λ i. slice_get seen.new.keys i ≡ Some n) }
    ensures grown { OnOk result (Grown seen.old.keys seen.new.keys) }
    ensures distinct { OnOk result (Distinct seen.new.keys) }
    ensures count { OnOk result (length seen.new.keys ≤ length seen.old.keys + 1) }
{
    let (index, _new) = seen.insert_full(n)?;
    narrow(index)
}

/// The classes of the aggregates, split by what the numbers of their parts are.
fn split(
    alloc: Global,
    web: &Web,
    numbers: &[u32],
    keys: &mut IndexSet<Key>,
) -> Result<Vec<u32>, Memory>
    requires distinct { Distinct keys.old.keys }
    ensures split { IfOk result (λ v. AreSplit (things_of web.now) web.now.aggregates (num_at numbers.now) (num_at v.items)) }
    ensures fits { OnOk result ((x : ℕ) → x < length numbers.now → num_at numbers.now x < 4294967296) }
    ensures count { IfOk result (λ v. length v.items ≡ web.now.aggregates) }
    ensures few { IfOk result (λ v. (x : ℕ) → x < web.now.aggregates → num_at v.items x < web.now.aggregates) }
{
    let mut seen = IndexSet::new(alloc);
    let mut next = Vec::new(alloc);
    for x in 0..web.aggregates {
        let n = signature(web, x, numbers, keys)?;
        next.push(rank(&mut seen, n)?)?;
    }
    Ok(next)
}

/// One class for all aggregates.
fn one_class(alloc: Global, count: u32) -> Result<Vec<u32>, Memory>
    ensures count { IfOk result (λ v. length v.items ≡ count) }
    ensures zero { IfOk result (λ v. (x : ℕ) → x < count → num_at v.items x ≡ 0) }
{
    let mut classes = Vec::new(alloc);
    for _x in 0..count {
        classes.push(0)?;
    }
    Ok(classes)
}

/// The same numbers again.
pub fn copied(alloc: Global, numbers: &[u32]) -> Result<Vec<u32>, Memory>
    ensures { IfOk result (λ v. v.items ≡ numbers.now) }
{
    let mut all = Vec::new(alloc);
    for n in numbers {
        all.push(*n)?;
    }
    Ok(all)
}

/// The numbers of all things once the aggregates have classes.
fn numbered(
    alloc: Global,
    web: &Web,
    classes: &[u32],
    keys: &mut IndexSet<Key>,
) -> Result<Vec<u32>, Memory>
    requires distinct { Distinct keys.old.keys }
    requires count { length classes.now ≡ web.now.aggregates }
    requires within { web.now.aggregates ≤ length web.now.things.items }
    ensures distinct { OnOk result (Distinct keys.new.keys) }
    ensures numbers { IfOk result (λ v. AreNumbered (things_of web.now) web.now.aggregates keys.new.keys classes.now v.items (length web.now.things.items)) }
    ensures count { IfOk result (λ v. length v.items ≡ length web.now.things.items) }
{
    let mut numbers = copied(alloc, classes)?;
    number_types(web, &mut numbers, keys)?;
    Ok(numbers)
}

/// The numbers of all things, where two things have one number exactly where they are isomorphic. All aggregates are in one class until
/// it is split, again and again, by what the parts of its members are; a class that is not split holds isomorphic ones alone.
pub fn isomorphic(alloc: Global, web: &Web) -> Result<Vec<u32>, Memory>
    requires web { IsWeb (things_of web.now) web.now.aggregates }
    requires within { web.now.aggregates ≤ length web.now.things.items }
    ensures numbers { IfOk result (λ v. AreNumbers (things_of web.now) (num_at v.items)) }
    ensures count { IfOk result (λ v. length v.items ≡ length web.now.things.items) }
{
    let mut classes = one_class(alloc, web.aggregates)?;
    for _round in 0..=web.aggregates {
        let mut keys = IndexSet::new(alloc);
        let numbers = numbered(alloc, web, &classes, &mut keys)?;
        let next = split(alloc, web, &numbers, &mut keys)?;
        if next.as_slice() == classes.as_slice() {
            return Ok(numbers);
        }
        classes = next;
    }
    Err(impossible())
}
