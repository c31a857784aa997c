ghost use Rattle.std.specs.Prelude.{◌≡◌, ℕ, ◌+◌, ◌<◌, length, get_or, slice_set, IfOk, OnOk, OnErr};

use cil_base::Memory;
use std::alloc::Global;

/// What a branch answers that never comes.
pub fn impossible() -> Memory {
    Memory
}

/// The number at a place of a table.
#[tactic(auto, using(std::proofs::lemmas::List::get_or_default))]
pub fn at(table: &[u32], i: u32) -> Result<u32, Memory>
    ensures within { IfOk result (λ n. i < length table.now) }
    ensures is { IfOk result (λ n. (d : ℕ) → get_or table.now i d ≡ n) }
{
    if i as usize >= table.len() {
        return Err(impossible());
    }
    Ok(table[i as usize])
}

/// Puts a number at a place of a table.
pub fn put(table: &mut Vec<u32>, i: u32, n: u32) -> Result<(), Memory>
    ensures within { OnOk result (i < length table.old.items) }
    ensures set { OnOk result (table.new.items ≡ slice_set table.old.items i n) }
    ensures kept { OnErr result (table.new.items ≡ table.old.items) }
{
    if i as usize >= table.len() {
        return Err(impossible());
    }
    table[i as usize] = n;
    Ok(())
}

/// The numbers up to one.
#[tactic(auto, using(crate::proofs::WebLaws::counted_more, crate::proofs::WebLaws::push_length))]
pub fn counted(alloc: Global, count: u32) -> Result<Vec<u32>, Memory>
    ensures length { IfOk result (λ v. length v.items ≡ count) }
    ensures own { IfOk result (λ v. (x : ℕ) → get_or v.items x x ≡ x) }
{
    let mut all = Vec::new(alloc);
    for x in 0..count {
        all.push(x)?;
    }
    Ok(all)
}

/// A sum that is a number of this size; Memory where it is none.
pub fn sum(a: u32, b: u32) -> Result<u32, Memory>
    ensures { IfOk result (λ n. n ≡ a + b) }
{
    match a.checked_add(b) {
        Some(n) => Ok(n),
        None => Err(impossible()),
    }
}

/// A place in a list as a number of this size; Memory where it is none.
pub fn narrow(i: usize) -> Result<u32, Memory>
    ensures is { IfOk result (λ n. n ≡ i) }
    ensures great { OnErr result (4294967295 < i) }
{
    if i > 4294967295 {
        return Err(impossible());
    }
    Ok(i as u32)
}
