ghost use Rattle.std.specs.Prelude.{◌≡◌, map, IfOk, OnOk};
ghost use Rattle.cil_base.specs.NamePool.{Stays, interned_all};
ghost use Rattle.decl_types.specs.MadeNames.{made_text, new_texts};

use crate::stops::impossible;
use cil_base::{Memory, NameId, NamePool};
use indexmap::IndexSet;
use itoa::Buffer;
use std::alloc::Global;
use type_graph::Member;

/// The names of anonymous members that were asked for in a unit, by their numbers k, and which of them no pool had before (own).
#[derive(Drop)]
pub struct MadeNames {
    alloc: Global,
    /// The number that the next new name gets.
    next: u32,
    /// The name `__m___k`, for k from 0.
    known: Vec<NameId>,
    /// Those k whose name is new, in the order of their numbers.
    fresh: Vec<u32>,
}

/// The text `__m___k`.
fn made_text(alloc: Global, k: u32) -> Result<Vec<u8>, Memory>
    ensures { IfOk result (λ v. v.items ≡ made_text k) }
{
    let mut text = Vec::new(alloc);
    text.extend_from_slice(b"__m___")?;
    let mut buffer = Buffer::new();
    text.extend_from_slice(buffer.format(k).as_bytes())?;
    Ok(text)
}

/// Adds the name `__m___k` of each of these k to a pool.
#[tactic(auto, using(cil_base::proofs::PoolLemmas::stays_then, crate::proofs::MadeLaws::next_made, crate::proofs::MadeLaws::all_made))]
fn intern_all(alloc: Global, fresh: &[u32], names: &mut NamePool) -> Result<(), Memory>
    ensures after { OnOk result (names.new ≡ interned_all names.old (map made_text fresh.now)) }
    ensures stays { Stays names.old names.new }
{
    for k in fresh {
        let text = made_text(alloc, *k)?;
        names.intern(&text)?;
    }
    Ok(())
}

impl MadeNames {
    /// None so far, over a pool.
    pub fn new(alloc: Global, names: &NamePool) -> Self {
        MadeNames {
            alloc,
            next: names.len(),
            known: Vec::new(alloc),
            fresh: Vec::new(alloc),
        }
    }

    /// The name of k, for which none was asked before.
    fn make(&mut self, k: u32, names: &NamePool) -> Result<NameId, Memory> {
        let text = made_text(self.alloc, k)?;
        match names.find(&text) {
            Some(name) => {
                self.known.push(name)?;
                Ok(name)
            }
            None => {
                let name = NameId(self.next);
                if self.next == u32::MAX {
                    return Err(Memory);
                }
                self.next += 1;
                self.known.push(name)?;
                self.fresh.push(k)?;
                Ok(name)
            }
        }
    }

    /// The name `__m___k`, where all before it were asked for.
    fn number(&mut self, k: u32, names: &NamePool) -> Result<NameId, Memory> {
        match self.known.get(k as usize) {
            Some(name) => Ok(*name),
            None => self.make(k, names),
        }
    }

    /// Gives the new ones to the pool over which they were made, where they get the numbers that they have.
    pub fn give(self, names: &mut NamePool) -> Result<(), Memory>
        ensures after { OnOk result (names.new ≡ interned_all names.old (new_texts self)) }
        ensures stays { Stays names.old names.new }
    {
        intern_all(self.alloc, &self.fresh, names)
    }
}

/// A name that is made, and the number with which the search for the next one begins.
#[derive(Clone, Copy)]
struct Made {
    name: NameId,
    next: u32,
}

/// The names of the members that are not anonymous.
fn own_names(alloc: Global, members: &[Member]) -> Result<IndexSet<NameId>, Memory> {
    let mut own = IndexSet::new(alloc);
    for m in members {
        if !m.anonymous {
            own.insert(m.name)?;
        }
    }
    Ok(own)
}

/// The name `__m___k` with the least k from a number on that no member has.
fn fresh(
    from: u32,
    own: &IndexSet<NameId>,
    names: &NamePool,
    made: &mut MadeNames,
) -> Result<Made, Memory> {
    for k in from..u32::MAX {
        let name = made.number(k, names)?;
        if !own.contains(&name) {
            return Ok(Made { name, next: k + 1 });
        }
    }
    Err(impossible())
}

/// Names the anonymous members in their order: `__m___k`, with the least k that no other member of the aggregate has (own).
pub(crate) fn name_anonymous(
    alloc: Global,
    members: Vec<Member>,
    names: &NamePool,
    made: &mut MadeNames,
) -> Result<Vec<Member>, Memory> {
    let mut members = members;
    let own = own_names(alloc, &members)?;
    let mut next = 0;
    for i in 0..members.len() {
        if members[i].anonymous {
            let named = fresh(next, &own, names, made)?;
            members[i].name = named.name;
            next = named.next;
        }
    }
    Ok(members)
}
