ghost use Rattle.std.specs.Prelude.{◌≡◌, ℕ, ◌<◌, ◌⊎◌, List, [], Some, length, slice_get, get_or, IfOk, OnOk};
ghost use Rattle.type_things.specs.declared.web.Head.{Head};
ghost use Rattle.type_things.specs.declared.web.Label.{Label};
ghost use Rattle.type_things.specs.Things.{Thing};
ghost use Rattle.type_joins.specs.Forests.{root, IsForest};
ghost use Rattle.type_joins.specs.Joined.{IsJoining};
ghost use Rattle.type_partition.specs.Partition.{AreNumbers, AreFirsts, IsGathering};
ghost use Rattle.type_partition.specs.Keys.{num_at, Grown};
ghost use Rattle.type_partition.specs.Gathered.{IsFound, IsUnion, AreGathered};

use cil_base::Memory;
use indexmap::IndexSet;
use std::alloc::Global;
use type_joins::Forest;
use type_things::{at, narrow};

/// Things by their numbers, in the order in which numbers appear.
#[derive(Drop)]
struct Found {
    numbers: IndexSet<u32>,
    things: Vec<u32>,
}

/// The first thing that has a number, which a thing has.
fn first_of(found: &mut Found, number: u32, x: u32) -> Result<u32, Memory>
    requires { IsFound found.old }
    ensures found { OnOk result (IsFound found.new) }
    ensures grown { OnOk result (Grown found.old.numbers.keys found.new.numbers.keys × Grown found.old.things.items found.new.things.items) }
    ensures there { IfOk result (λ y. (i : ℕ) × (slice_get found.new.numbers.keys i ≡ Some number) × (slice_get found.new.things.items i ≡ Some y)) }
    ensures each { OnOk result ((i k z : ℕ) → slice_get found.new.numbers.keys i ≡ Some k → slice_get found.new.things.items i ≡ Some z → ((slice_get found.old.numbers.keys i ≡ Some k) × (slice_get found.old.things.items i ≡ Some z)) ⊎ ((k ≡ number) × (z ≡ x))) }
{
    let (index, new) = found.numbers.insert_full(number)?;
    if new {
        found.things.push(x)?;
        return Ok(x);
    }
    at(&found.things, narrow(index)?)
}

/// For each thing the first that has its number.
fn first_ones(alloc: Global, numbers: &[u32]) -> Result<Vec<u32>, Memory>
    ensures firsts { IfOk result (λ v. AreFirsts (num_at numbers.now) (λ x. get_or v.items x x)) }
    ensures count { IfOk result (λ v. length v.items ≡ length numbers.now) }
{
    let mut found = Found {
        numbers: IndexSet::new(alloc),
        things: Vec::new(alloc),
    };
    let mut all = Vec::new(alloc);
    for x in 0..narrow(numbers.len())? {
        all.push(first_of(&mut found, numbers[x as usize], x)?)?;
    }
    Ok(all)
}

/// Joins two things.
fn join(forest: &mut Forest, x: u32, y: u32) -> Result<(), Memory>
    requires forest { IsForest forest.old.parents.items }
    ensures forest { OnOk result (IsForest forest.new.parents.items) }
    ensures joined { OnOk result (IsUnion x y (root forest.old.parents.items) (root forest.new.parents.items)) }
{
    let (a, b) = (forest.find(x)?, forest.find(y)?);
    if a == b {
        return Ok(());
    }
    if a < b {
        return forest.join(a, b);
    }
    forest.join(b, a)
}

/// Joins each thing to another one.
fn join_all(forest: &mut Forest, others: &[u32]) -> Result<(), Memory>
    requires forest { IsForest forest.old.parents.items }
    ensures forest { OnOk result (IsForest forest.new.parents.items) }
    ensures gathered { (ts : List (Thing Head Label)) (r i : ℕ → ℕ) → AreNumbers ts i → AreFirsts i (λ x. get_or others.now x x) → IsGathering ts r (λ x. get_or others.now x x) (root forest.old.parents.items) 0 → OnOk result (IsGathering ts r (λ x. get_or others.now x x) (root forest.new.parents.items) (length others.now)) }
{
    for x in 0..narrow(others.len())? {
        join(forest, x, others[x as usize])?;
    }
    Ok(())
}

/// The roots of the first numbers.
fn roots(alloc: Global, forest: &mut Forest, count: u32) -> Result<Vec<u32>, Memory>
    requires forest { IsForest forest.old.parents.items }
    ensures count { IfOk result (λ v. length v.items ≡ count) }
    ensures roots { IfOk result (λ v. (x : ℕ) → x < count → get_or v.items x x ≡ root forest.old.parents.items x) }
{
    let mut all = Vec::new(alloc);
    for x in 0..count {
        all.push(forest.find(x)?)?;
    }
    Ok(all)
}

/// The classes of things once those of one number are joined too: for each its class's least member.
pub fn gather(alloc: Global, forest: Forest, numbers: &[u32]) -> Result<Vec<u32>, Memory>
    requires forest { IsForest forest.parents.items }
    ensures count { IfOk result (λ v. length v.items ≡ length numbers.now) }
    ensures partition { (ts : List (Thing Head Label)) (done : List (ℕ × ℕ)) (st : List ℕ) → IsJoining ts done (root forest.parents.items) st [] → AreNumbers ts (num_at numbers.now) → IfOk result (λ v. AreGathered ts done v.items) }
{
    let mut forest = forest;
    let others = first_ones(alloc, numbers)?;
    join_all(&mut forest, &others)?;
    roots(alloc, &mut forest, narrow(numbers.len())?)
}
