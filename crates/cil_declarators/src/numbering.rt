ghost use Rattle.std.specs.Prelude.{◌≡◌, ◌++◌, ◌∷◌, [], Some, None, length, OnOk, OnErr, IfSome, ◌<◌};
ghost use Rattle.cil_text.specs.ReadTypes.{find};
ghost use Rattle.cil_declarators.specs.Gives.{Gives};
ghost use Rattle.cil_declarators.specs.Fresh.{with_new};

use crate::stop::Stop;
use indexmap::IndexSet;
use std::alloc::Global;
use std::marker::Model;

/// Different texts, each of which has its place as its number. Contracts see the list of texts.
#[derive(Drop)]
pub struct Numbering {
    texts: IndexSet<Vec<u8>>,
    alloc: Global,
}

impl Model for Numbering {
    ghost use Rattle.std.specs.Prelude.{List, ℕ, map, length, ◌<◌, ◌^◌};

    ghost Value = { List (List ℕ) };

    ghost view = { λ p. map (λ v. v.items) p.texts.keys };

    ghost invariant = { λ p. length p.texts.keys < 2 ^ 32 };
}

impl Numbering {
    /// No texts.
    pub fn new(alloc: Global) -> Self
        ensures { result ≡ [] }
    {
        Numbering {
            texts: IndexSet::new(alloc),
            alloc,
        }
    }

    /// The number of a text.
    #[tactic(auto, using(crate::proofs::NumberingLaws::found_place))]
    pub fn find(&self, text: &[u8]) -> Option<u32>
        ensures found { result ≡ find text.now self.now }
        ensures within { IfSome result (λ n. n < length self.now) }
    {
        let index = self.texts.get_index_of(text)?;
        Some(index as u32)
    }

    /// How many texts there are.
    pub fn len(&self) -> u32
        ensures { result ≡ length self.now }
    {
        self.texts.len() as u32
    }

    /// Adds a text, which is none of those that are there: the names of one scope differ (C11 6.2.1p4).
    #[tactic(auto, using(crate::proofs::NumberingLaws::new_gives, crate::proofs::NumberingLaws::new_refused))]
    pub fn add(&mut self, text: &[u8]) -> Result<(), Stop>
        ensures gives { Gives (λ u. self.new) result (with_new self.old text.now) }
        ensures ok { OnOk result (self.new ≡ self.old ++ text.now ∷ []) }
        ensures err { OnErr result (self.new ≡ self.old) }
    {
        if self.find(text).is_some() {
            return Err(Stop::NotCil);
        }
        self.append(text)
    }

    /// Gives the next number to a new text.
    fn append(&mut self, text: &[u8]) -> Result<(), Stop>
        requires { find text.now self.old ≡ None }
        ensures gives { Gives (λ u. self.new) result (Some (self.old ++ text.now ∷ [])) }
        ensures ok { OnOk result (self.new ≡ self.old ++ text.now ∷ []) }
        ensures err { OnErr result (self.new ≡ self.old) }
    {
        if self.len() == u32::MAX {
            return Err(Stop::WantOfMemory);
        }
        let owned = text.to_vec(self.alloc)?;
        self.texts.insert(owned)?;
        Ok(())
    }
}
