ghost use Rattle.std.specs.Prelude.{◌≡◌, ℕ, ◌<◌, false, [], ◌∷◌, ◌++◌, length, take, Some, Contains, MatchOption, IsOk, IfOk, OnOk, OnErr, slice_get};
ghost use Rattle.std.specs.List.{list_any};
ghost use Rattle.std.specs.Str.{bytes_eq};
ghost use Rattle.cil_base.specs.NamePool.{IsOnceEach, Interns, NumbersBases, Stays, interned_all, base_texts};

use crate::memory::Memory;
use crate::numbers::NameId;
use indexmap::IndexSet;
use std::alloc::Global;
use std::marker::Model;

/// The numbers of the texts with which made names begin (own).
#[derive(Clone, Copy, Debug, PartialEq, Eq)]
pub struct Bases {
    /// Of string literals, and of compound literals outside functions.
    pub literal: NameId,
    /// Of tags of structs, unions and enums without a tag.
    pub tagless: NameId,
    /// Of temporaries.
    pub temporary: NameId,
    /// Of labels.
    pub label: NameId,
}

/// The texts of all names, in first-seen order. A name's number is the place of its text, and stays.
#[derive(Drop)]
pub struct NamePool {
    texts: IndexSet<Vec<u8>>,
    alloc: Global,
}

impl Model for NamePool {
    ghost use Rattle.std.specs.Prelude.{List, ℕ, map, length, ◌<◌, ◌^◌};
    ghost use Rattle.cil_base.specs.NamePool.{IsOnceEach};

    ghost Value = { List (List ℕ) };

    ghost view = { λ p. map (λ v. v.items) p.texts.keys };

    ghost invariant = { λ p. (length p.texts.keys < 2 ^ 32) × IsOnceEach (map (λ v. v.items) p.texts.keys) };
}

impl NamePool {
    /// A pool without names.
    pub fn new(alloc: Global) -> Self
        ensures empty { result ≡ [] }
        ensures once { IsOnceEach result }
    {
        NamePool {
            texts: IndexSet::new(alloc),
            alloc,
        }
    }

    /// The number of names.
    pub fn len(&self) -> u32
        ensures count { result ≡ length self.now }
        ensures once { IsOnceEach self.now }
    {
        self.texts.len() as u32
    }

    /// The text of a name.
    pub fn text(&self, n: NameId) -> &[u8]
        requires { n.0 < length self.now }
        ensures text { slice_get self.now n.0 ≡ Some result.now }
        ensures once { IsOnceEach self.now }
    {
        &self.texts[n.0 as usize]
    }

    /// The number of a text. A new text gets the next number; a known one wants no memory.
    ///
    /// Memory also comes where the next number would not fit. The pool then stays.
    pub fn intern(&mut self, text: &[u8]) -> Result<NameId, Memory>
        ensures ok { IfOk result (λ n. Interns self.old self.new text.now n.0) }
        ensures known { Contains self.old text.now → IsOk result }
        ensures err { OnErr result (self.new ≡ self.old) }
        ensures stays { Stays self.old self.new }
        ensures once { IsOnceEach self.new }
    {
        match self.find(text) {
            Some(n) => Ok(n),
            None => self.append(text),
        }
    }

    /// The number of a text, if the pool has it.
    pub fn find(&self, text: &[u8]) -> Option<NameId>
        ensures found { MatchOption result (list_any (bytes_eq text.now) self.now ≡ false) (λ n. slice_get self.now n.0 ≡ Some text.now) }
        ensures once { IsOnceEach self.now }
    {
        let index = self.texts.get_index_of(text)?;
        Some(NameId(index as u32))
    }

    /// Gives the next number to a new text.
    fn append(&mut self, text: &[u8]) -> Result<NameId, Memory>
        requires { list_any (bytes_eq text.now) self.old ≡ false }
        ensures ok { IfOk result (λ n. (self.new ≡ self.old ++ text.now ∷ []) × (n.0 ≡ length self.old)) }
        ensures err { OnErr result (self.new ≡ self.old) }
        ensures once { IsOnceEach self.new }
    {
        let index = self.len();
        if index == u32::MAX {
            return Err(Memory);
        }
        let owned = text.to_vec(self.alloc)?;
        self.texts.insert(owned)?;
        Ok(NameId(index))
    }

    /// The numbers of the base texts, each of which is asked for as by `intern`.
    ///
    /// After Memory the pool has those that were asked for before.
    pub fn bases(&mut self) -> Result<Bases, Memory>
        ensures after { OnOk result (self.new ≡ interned_all self.old base_texts) }
        ensures numbers { IfOk result (λ bases. NumbersBases self.new bases) }
        ensures err { OnErr result ((k : ℕ) × (self.new ≡ interned_all self.old (take k base_texts))) }
        ensures stays { Stays self.old self.new }
        ensures once { IsOnceEach self.new }
    {
        let literal = self.intern(b"__str")?;
        let tagless = self.intern(b"__anon")?;
        let temporary = self.intern(b"__t")?;
        let label = self.intern(b"__l")?;
        Ok(Bases {
            literal,
            tagless,
            temporary,
            label,
        })
    }
}
