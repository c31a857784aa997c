ghost use Rattle.std.specs.Prelude.{◌≡◌, ℕ, ◌+◌, ◌≤◌, Bool, List, MatchOption, slice_get, get_or, IfOk, OnOk};
ghost use Rattle.type_order.specs.Order.{needed_of, IsLeastFirst};
ghost use Rattle.type_order.specs.Coming.{IsUpTo, IsOpenAt, Waits, Frees, Attempts, Marks, Pops, IsDrained, IsChained, IsComing, IsPopped, IsRun};

use cil_base::Memory;
use std::alloc::Global;
use std::collections::BTreeSet;
use type_things::{at, impossible, narrow, put};

/// That a number waits for another one, and the next that does; the first has the number 1, and 0 is the end.
#[derive(Clone, Copy)]
struct Wait {
    who: u32,
    next: u32,
}

/// Numbers while they come, each once all that it waits for has come.
#[derive(Drop)]
struct Coming {
    /// Which have come.
    done: Vec<bool>,
    /// For each how many of those that it waits for are known to have come.
    seen: Vec<u32>,
    /// For each the first that waits for it.
    firsts: Vec<u32>,
    all: Vec<Wait>,
    /// The listed ones that wait for nothing any more.
    ready: BTreeSet<u32>,
    /// The others that wait for nothing any more.
    silent: Vec<u32>,
}

/// Zeroes.
fn zeroes(alloc: Global, count: usize) -> Result<Vec<u32>, Memory>
    ensures { IfOk result (λ v. (x : ℕ) → get_or v.items x 0 ≡ 0) }
{
    let mut all = Vec::new(alloc);
    for _i in 0..count {
        all.push(0)?;
    }
    Ok(all)
}

/// Whether a number has come.
fn is_done(done: &[bool], x: u32) -> Result<bool, Memory>
    ensures { IfOk result (λ b. slice_get done.now x ≡ Some b) }
{
    match done.get(x as usize) {
        Some(b) => Ok(*b),
        None => Err(impossible()),
    }
}

/// What a number waits for.
fn needed(needs: &[Vec<u32>], x: u32) -> Result<&[u32], Memory>
    ensures { IfOk result (λ s. s.now ≡ needed_of needs.now x) }
{
    match needs.get(x as usize) {
        Some(all) => Ok(all.as_slice()),
        None => Err(impossible()),
    }
}

/// The place, from one on, of the first that has not come, or the end.
fn first_open(needed: &[u32], done: &[bool], from: u32) -> Result<u32, Memory>
    ensures seen { IsUpTo needed.now done.now from → IfOk result (IsUpTo needed.now done.now) }
    ensures first { IfOk result (IsOpenAt needed.now done.now) }
{
    for i in from..narrow(needed.len())? {
        if !is_done(done, needed[i as usize])? {
            return Ok(i);
        }
    }
    narrow(needed.len())
}

/// A wait by its place.
fn wait_at(all: &[Wait], i: u32) -> Result<Wait, Memory>
    ensures { IfOk result (λ w. slice_get all.now i ≡ Some w) }
{
    match all.get(i as usize) {
        Some(wait) => Ok(*wait),
        None => Err(impossible()),
    }
}

impl Coming {
    /// Nothing waits yet.
    fn new(alloc: Global, done: Vec<bool>) -> Result<Self, Memory>
        ensures coming { (needs : ℕ → List ℕ) (listed : ℕ) → IfOk result (IsComing needs listed (λ y. 0 ≤ y)) }
        ensures done { IfOk result (λ c. c.done ≡ done) }
    {
        let count = done.len();
        Ok(Coming {
            done,
            seen: zeroes(alloc, count)?,
            firsts: zeroes(alloc, count)?,
            all: Vec::new(alloc),
            ready: BTreeSet::new(alloc),
            silent: Vec::new(alloc),
        })
    }

    /// A number waits for another one.
    fn wait(&mut self, who: u32, whom: u32) -> Result<(), Memory>
        ensures waits { OnOk result (Waits who whom self.old self.new) }
        ensures rest { OnOk result ((self.new.done ≡ self.old.done) × (self.new.seen ≡ self.old.seen)) }
    {
        let next = at(&self.firsts, whom)?;
        self.all.push(Wait { who, next })?;
        let number = narrow(self.all.len())?;
        put(&mut self.firsts, whom, number)
    }

    /// A number waits for nothing any more.
    fn free(&mut self, listed: u32, x: u32) -> Result<(), Memory>
        ensures frees { OnOk result (Frees listed x self.old self.new) }
        ensures rest { OnOk result ((self.new.done ≡ self.old.done) × (self.new.seen ≡ self.old.seen)) }
    {
        if x < listed {
            self.ready.insert(x)?;
            return Ok(());
        }
        self.silent.push(x)?;
        Ok(())
    }

    /// Lets a number wait for what stands at a place of a list, or for nothing where nothing stands there.
    fn place(&mut self, needed: &[u32], listed: u32, x: u32, i: u32) -> Result<(), Memory>
        ensures placed { OnOk result (MatchOption (slice_get needed.now i) (Frees listed x self.old self.new) (λ w. Waits x w self.old self.new)) }
        ensures rest { OnOk result ((self.new.done ≡ self.old.done) × (self.new.seen ≡ self.old.seen)) }
    {
        match needed.get(i as usize) {
            Some(whom) => self.wait(x, *whom),
            None => self.free(listed, x),
        }
    }

    /// Lets a number wait for the first of those that it waits for that has not come, or for nothing.
    fn attempt(&mut self, needs: &[Vec<u32>], listed: u32, x: u32) -> Result<(), Memory>
        ensures { OnOk result (Attempts (needed_of needs.now x) listed x self.old self.new) }
    {
        let needed = needed(needs, x)?;
        let i = first_open(needed, &self.done, at(&self.seen, x)?)?;
        put(&mut self.seen, x, i)?;
        self.place(needed, listed, x, i)
    }

    /// Lets a number wait for the first that it waits for, if it has not come.
    fn attempt_unless(&mut self, needs: &[Vec<u32>], listed: u32, x: u32) -> Result<(), Memory>
        ensures { IsComing (needed_of needs.now) listed (λ y. x ≤ y) self.old → OnOk result (IsComing (needed_of needs.now) listed (λ y. x + 1 ≤ y) self.new × (self.new.done ≡ self.old.done)) }
    {
        if is_done(&self.done, x)? {
            return Ok(());
        }
        self.attempt(needs, listed, x)
    }

    /// Lets all that have not come wait for the first that they wait for.
    fn attempt_all(&mut self, needs: &[Vec<u32>], listed: u32) -> Result<(), Memory>
        ensures { IsComing (needed_of needs.now) listed (λ y. 0 ≤ y) self.old → OnOk result (IsComing (needed_of needs.now) listed (λ y. ⊥) self.new × (self.new.done ≡ self.old.done)) }
    {
        for x in 0..narrow(self.done.len())? {
            self.attempt_unless(needs, listed, x)?;
        }
        Ok(())
    }

    /// Lets all that wait for a number wait for the next.
    fn release(&mut self, needs: &[Vec<u32>], listed: u32, x: u32) -> Result<(), Memory>
        ensures { IsComing (needed_of needs.now) listed (IsChained self.old.all.items (get_or self.old.firsts.items x 0)) self.old → OnOk result (IsComing (needed_of needs.now) listed (λ y. ⊥) self.new × (self.new.done ≡ self.old.done)) }
    {
        let mut number = at(&self.firsts, x)?;
        for _step in 0..u64::MAX {
            let Some(i) = number.checked_sub(1) else {
                return Ok(());
            };
            let wait = wait_at(&self.all, i)?;
            self.attempt(needs, listed, wait.who)?;
            number = wait.next;
        }
        Err(impossible())
    }

    /// A number comes.
    fn mark(&mut self, x: u32) -> Result<(), Memory>
        ensures { OnOk result (Marks x self.old self.new) }
    {
        if x as usize >= self.done.len() {
            return Err(impossible());
        }
        self.done[x as usize] = true;
        Ok(())
    }

    /// The next that waits for nothing any more: one that is not listed, or the least that is.
    fn pop(&mut self) -> Option<u32>
        ensures { MatchOption result (IsDrained self.old self.new) (λ x. Pops x self.old self.new) }
    {
        match self.silent.pop() {
            Some(x) => Some(x),
            None => self.ready.pop_first(),
        }
    }

    /// Lets a number come that waits for nothing any more, if it has not come yet.
    fn advance(
        &mut self,
        needs: &[Vec<u32>],
        listed: u32,
        order: &mut Vec<u32>,
        x: u32,
    ) -> Result<(), Memory>
        ensures { (start : List Bool) → IsPopped (needed_of needs.now) listed start order.old.items x self.old → OnOk result (IsRun (needed_of needs.now) listed start order.new.items self.new) }
    {
        if is_done(&self.done, x)? {
            return Ok(());
        }
        order.push(x)?;
        self.mark(x)?;
        self.release(needs, listed, x)
    }
}

/// The numbers of a list that can come, in their order: those that have come from the start aside, each behind all that it waits for.
/// The first numbers are listed ones; of those the least that can comes next. The others come as soon as they can.
pub fn least_first(
    alloc: Global,
    needs: &[Vec<u32>],
    listed: u32,
    done: Vec<bool>,
) -> Result<Vec<u32>, Memory>
    ensures { IfOk result (λ v. IsLeastFirst (needed_of needs.now) listed done.items v.items) }
{
    let mut coming = Coming::new(alloc, done)?;
    coming.attempt_all(needs, listed)?;
    let mut order = Vec::new(alloc);
    for _step in 0..u64::MAX {
        let Some(x) = coming.pop() else {
            return Ok(order);
        };
        coming.advance(needs, listed, &mut order, x)?;
    }
    Err(impossible())
}
