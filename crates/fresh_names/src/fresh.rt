ghost use Rattle.std.specs.Prelude.{◌≡◌, ◌+◌, [], OnOk, IfOk};
ghost use Rattle.indexmap.specs.IndexMap.{insert_entry};
ghost use Rattle.fresh_names.specs.declared.fresh.Wish.TheVariants.{Made};
ghost use Rattle.cil_base.specs.NamePool.{Stays};
ghost use Rattle.fresh_names.specs.Naming.{same_name, is_taken, with_name, with_names, wish_of, IsSuffixed};
ghost use Rattle.fresh_names.specs.Giving.{start_of, IsLeastFrom, IsReady, Gives, GivesAll};

use cil_base::{Memory, NameId, NamePool};
use indexmap::{IndexMap, IndexSet};
use itoa::Buffer;
use std::alloc::Global;

/// What a branch answers that never comes.
fn impossible() -> Memory {
    Memory
}

/// The name that is a base with the suffix `___` and a number.
fn suffixed(
    alloc: Global,
    names: &mut NamePool,
    base: NameId,
    number: u32,
) -> Result<NameId, Memory>
    ensures stays { Stays names.old names.new }
    ensures text { IfOk result (λ n. IsSuffixed names.new base n number) }
{
    if base.0 >= names.len() {
        return Err(impossible());
    }
    let mut buffer = Buffer::new();
    let mut text = names.text(base).to_vec(alloc)?;
    text.extend_from_slice(b"___")?;
    text.extend_from_slice(buffer.format(number).as_bytes())?;
    names.intern(&text)
}

/// The names that are taken in a name space (C11 6.2.3). For a base it is remembered up to which number all its suffixed names are.
#[derive(Drop)]
pub struct Fresh {
    /// What the names are allocated with.
    pub alloc: Global,
    /// The names that are taken.
    pub taken: IndexSet<NameId>,
    /// For a base the least number that may be new.
    pub next: IndexMap<NameId, u32>,
}

/// How a thing gets its name (own).
#[derive(Clone, Copy)]
pub enum Wish {
    /// It keeps its name where that is new, and else has it as base.
    Asked(NameId),
    /// It has a made name over this base, always with a suffix.
    Made(NameId),
}

impl Wish {
    /// The wish of a thing that has a name. A name that is the base of made ones is made.
    pub fn of(name: NameId, base: NameId) -> Wish
        ensures { result ≡ wish_of base name }
    {
        if name == base {
            return Wish::Made(base);
        }
        Wish::Asked(name)
    }
}

impl Fresh {
    /// No name is taken.
    pub fn new(alloc: Global) -> Self
        ensures taken { result.taken.keys ≡ [] }
        ensures next { result.next.entries ≡ [] }
    {
        Fresh {
            alloc,
            taken: IndexSet::new(alloc),
            next: IndexMap::new(alloc),
        }
    }

    /// Whether a name is taken.
    pub fn has(&self, name: NameId) -> bool
        ensures { result ≡ is_taken self.now.taken.keys name }
    {
        self.taken.contains(&name)
    }

    /// Takes a name.
    pub fn take(&mut self, name: NameId) -> Result<(), Memory>
        ensures taken { OnOk result (self.new.taken.keys ≡ with_name self.old.taken.keys name) }
        ensures next { OnOk result (self.new.next.entries ≡ self.old.next.entries) }
    {
        self.taken.insert(name)?;
        Ok(())
    }

    /// Takes names.
    pub fn take_all(&mut self, all: &[NameId]) -> Result<(), Memory>
        ensures taken { OnOk result (self.new.taken.keys ≡ with_names self.old.taken.keys all.now) }
        ensures next { OnOk result (self.new.next.entries ≡ self.old.next.entries) }
    {
        for i in 0..all.len() {
            self.take(all[i])?;
        }
        Ok(())
    }

    /// The number from which a base's suffixed names may be new.
    pub fn start(&self, base: NameId) -> u32
        ensures { result ≡ start_of self.now.next.entries base }
    {
        match self.next.get(&base) {
            Some(number) => *number,
            None => 0,
        }
    }

    /// The base with the least number from one on that is not taken, and that number.
    pub fn free_from(
        &self,
        names: &mut NamePool,
        base: NameId,
        from: u32,
    ) -> Result<(NameId, u32), Memory>
        ensures stays { Stays names.old names.new }
        ensures least { IfOk result (λ r. IsLeastFrom self.now.taken.keys names.new base from r.0 r.1) }
    {
        for number in from..u32::MAX {
            let name = suffixed(self.alloc, names, base, number)?;
            if !self.has(name) {
                return Ok((name, number));
            }
        }
        Err(impossible())
    }

    /// Takes the base with a number.
    pub fn take_suffixed(&mut self, base: NameId, name: NameId, number: u32) -> Result<(), Memory>
        ensures taken { OnOk result (self.new.taken.keys ≡ with_name self.old.taken.keys name) }
        ensures next { OnOk result (self.new.next.entries ≡ insert_entry same_name self.old.next.entries base (number + 1)) }
    {
        let Some(after) = number.checked_add(1) else {
            return Err(impossible());
        };
        self.next.insert(base, after)?;
        self.take(name)
    }

    /// Takes the base with the least number that is new.
    #[tactic(auto, using(crate::proofs::NamingLaws::made_given))]
    fn make(&mut self, names: &mut NamePool, base: NameId) -> Result<NameId, Memory>
        requires ready { IsReady self.old names.old }
        ensures stays { Stays names.old names.new }
        ensures gives { IfOk result (Gives self.old.taken.keys self.new.taken.keys self.new.next.entries names.old names.new (Made base)) }
    {
        let from = self.start(base);
        let (name, number) = self.free_from(names, base, from)?;
        self.take_suffixed(base, name, number)?;
        Ok(name)
    }

    /// The name that a thing gets, which is taken from now on.
    #[tactic(auto, using(crate::proofs::NamingLaws::kept_given, crate::proofs::NamingLaws::again_given))]
    pub fn give(&mut self, names: &mut NamePool, wish: Wish) -> Result<NameId, Memory>
        requires ready { IsReady self.old names.old }
        ensures stays { Stays names.old names.new }
        ensures gives { IfOk result (Gives self.old.taken.keys self.new.taken.keys self.new.next.entries names.old names.new wish) }
    {
        match wish {
            Wish::Made(base) => self.make(names, base),
            Wish::Asked(name) => {
                if self.has(name) {
                    return self.make(names, name);
                }
                self.take(name)?;
                Ok(name)
            }
        }
    }

    /// The names that things get one after another.
    #[tactic(auto, using(crate::proofs::NamingLaws::all_start, crate::proofs::NamingLaws::all_next))]
    pub fn give_all(&mut self, names: &mut NamePool, wishes: &[Wish]) -> Result<Vec<NameId>, Memory>
        requires ready { IsReady self.old names.old }
        ensures stays { Stays names.old names.new }
        ensures gives { IfOk result (λ r. GivesAll self.old.taken.keys self.new.taken.keys self.new.next.entries names.old names.new wishes.now r.items) }
    {
        let mut given = Vec::new(self.alloc);
        for i in 0..wishes.len() {
            given.push(self.give(names, wishes[i])?)?;
        }
        Ok(given)
    }
}
