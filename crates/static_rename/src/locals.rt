ghost use Rattle.std.specs.Prelude.{◌≡◌, ◌++◌, [], OnOk, IfOk};
ghost use Rattle.fresh_names.specs.declared.fresh.Wish.TheVariants.{Made};
ghost use Rattle.cil_base.specs.NamePool.{Stays};
ghost use Rattle.fresh_names.specs.Naming.{is_taken, IsLeast, AreNamed};
ghost use Rattle.fresh_names.specs.Giving.{IsLeastFrom, AreTakenBelow, Gives};
ghost use Rattle.static_rename.specs.Local.{IsTable};

use cil_base::{Memory, NameId, NamePool};
use fresh_names::{Fresh, Wish};
use indexmap::IndexMap;
use std::alloc::Global;
use type_things::impossible;

/// A base, and the number from which a suffixed name is looked for.
#[derive(Clone, Copy, PartialEq, Eq, Hash)]
struct Start {
    base: NameId,
    from: u32,
}

/// The names at file scope, once all are given, and what was found of suffixed names that are new to them.
#[derive(Drop)]
pub(crate) struct FileNames {
    names: Fresh,
    free: IndexMap<Start, (NameId, u32)>,
}

impl FileNames {
    /// These names.
    pub(crate) fn new(alloc: Global, names: Fresh) -> Self
        ensures taken { result.names.taken.keys ≡ names.taken.keys }
        ensures none { result.free.entries ≡ [] }
    {
        FileNames {
            names,
            free: IndexMap::new(alloc),
        }
    }

    /// Remembers what was found.
    fn remember(
        &mut self,
        names: &mut NamePool,
        start: Start,
        name: NameId,
        number: u32,
    ) -> Result<(), Memory>
        requires table { IsTable self.old names.old }
        requires found { IsLeastFrom self.old.names.taken.keys names.old start.base start.from name number }
        ensures kept { OnOk result (self.new.names.taken.keys ≡ self.old.names.taken.keys) }
        ensures stays { names.new ≡ names.old }
        ensures table { OnOk result (IsTable self.new names.new) }
    {
        self.free.insert(start, (name, number))?;
        Ok(())
    }

    /// The base with the least number from one on with which it is no name at file scope, and that number.
    #[tactic(auto, using(crate::proofs::LocalLaws::found_in, crate::proofs::LocalLaws::table_stays))]
    fn free_from(
        &mut self,
        names: &mut NamePool,
        base: NameId,
        from: u32,
    ) -> Result<(NameId, u32), Memory>
        requires table { IsTable self.old names.old }
        ensures kept { OnOk result (self.new.names.taken.keys ≡ self.old.names.taken.keys) }
        ensures stays { Stays names.old names.new }
        ensures table { OnOk result (IsTable self.new names.new) }
        ensures least { IfOk result (λ r. IsLeastFrom self.old.names.taken.keys names.new base from r.0 r.1) }
    {
        let start = Start { base, from };
        if let Some(found) = self.free.get(&start) {
            return Ok(*found);
        }
        let (name, number) = self.names.free_from(names, base, from)?;
        self.remember(names, start, name, number)?;
        Ok((name, number))
    }
}

/// The names of a function's objects, which are none at file scope (own).
#[derive(Drop)]
struct FunctionNames {
    given: Fresh,
}

impl FunctionNames {
    /// The base with the least number that is new, and that number.
    #[tactic(auto, using(crate::proofs::LocalLaws::none_below))]
    fn free(
        &self,
        file: &mut FileNames,
        names: &mut NamePool,
        base: NameId,
    ) -> Result<(NameId, u32), Memory>
        requires table { IsTable file.old names.old }
        requires ready { AreTakenBelow (file.old.names.taken.keys ++ self.now.given.taken.keys) names.old self.now.given.next.entries }
        ensures kept { OnOk result (file.new.names.taken.keys ≡ file.old.names.taken.keys) }
        ensures stays { Stays names.old names.new }
        ensures table { OnOk result (IsTable file.new names.new) }
        ensures least { IfOk result (λ r. IsLeast (file.old.names.taken.keys ++ self.now.given.taken.keys) names.new base r.0 r.1) }
    {
        let mut from = self.given.start(base);
        for _step in 0..u32::MAX {
            let (name, number) = file.free_from(names, base, from)?;
            if !self.given.has(name) {
                return Ok((name, number));
            }
            let Some(after) = number.checked_add(1) else {
                return Err(impossible());
            };
            from = after;
        }
        Err(impossible())
    }

    /// Takes the base with the least number that is new.
    fn make(
        &mut self,
        file: &mut FileNames,
        names: &mut NamePool,
        base: NameId,
    ) -> Result<NameId, Memory>
        requires table { IsTable file.old names.old }
        requires ready { AreTakenBelow (file.old.names.taken.keys ++ self.old.given.taken.keys) names.old self.old.given.next.entries }
        ensures kept { OnOk result (file.new.names.taken.keys ≡ file.old.names.taken.keys) }
        ensures stays { Stays names.old names.new }
        ensures table { OnOk result (IsTable file.new names.new) }
        ensures gives { IfOk result (Gives (file.old.names.taken.keys ++ self.old.given.taken.keys) (file.old.names.taken.keys ++ self.new.given.taken.keys) self.new.given.next.entries names.old names.new (Made base)) }
    {
        let (name, number) = self.free(file, names, base)?;
        self.given.take_suffixed(base, name, number)?;
        Ok(name)
    }

    /// Whether a name is one at file scope or in the function.
    fn has(&self, file: &FileNames, name: NameId) -> bool
        ensures { result ≡ is_taken (file.now.names.taken.keys ++ self.now.given.taken.keys) name }
    {
        file.names.has(name) || self.given.has(name)
    }

    /// The name that a parameter or object gets.
    #[tactic(auto, using(crate::proofs::LocalLaws::local_kept, fresh_names::proofs::NamingLaws::again_given))]
    fn give(
        &mut self,
        file: &mut FileNames,
        names: &mut NamePool,
        wish: Wish,
    ) -> Result<NameId, Memory>
        requires table { IsTable file.old names.old }
        requires ready { AreTakenBelow (file.old.names.taken.keys ++ self.old.given.taken.keys) names.old self.old.given.next.entries }
        ensures kept { OnOk result (file.new.names.taken.keys ≡ file.old.names.taken.keys) }
        ensures stays { Stays names.old names.new }
        ensures table { OnOk result (IsTable file.new names.new) }
        ensures gives { IfOk result (Gives (file.old.names.taken.keys ++ self.old.given.taken.keys) (file.old.names.taken.keys ++ self.new.given.taken.keys) self.new.given.next.entries names.old names.new wish) }
    {
        match wish {
            Wish::Made(base) => self.make(file, names, base),
            Wish::Asked(name) => {
                if self.has(file, name) {
                    return self.make(file, names, name);
                }
                self.given.take(name)?;
                Ok(name)
            }
        }
    }
}

/// The names that the objects of a function get one after another.
#[tactic(auto, using(crate::proofs::LocalLaws::locals_start, crate::proofs::LocalLaws::locals_next, crate::proofs::LocalLaws::locals_named, crate::proofs::LocalLaws::table_stays))]
pub(crate) fn local_names(
    alloc: Global,
    file: &mut FileNames,
    names: &mut NamePool,
    wishes: &[Wish],
) -> Result<Vec<NameId>, Memory>
    requires table { IsTable file.old names.old }
    ensures kept { OnOk result (file.new.names.taken.keys ≡ file.old.names.taken.keys) }
    ensures stays { Stays names.old names.new }
    ensures table { OnOk result (IsTable file.new names.new) }
    ensures named { IfOk result (λ r. AreNamed file.old.names.taken.keys names.new wishes.now r.items) }
{
    let mut function = FunctionNames {
        given: Fresh::new(alloc),
    };
    let mut all = Vec::new(alloc);
    for i in 0..wishes.len() {
        all.push(function.give(file, names, wishes[i])?)?;
    }
    Ok(all)
}
