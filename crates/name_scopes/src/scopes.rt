ghost use Rattle.std.specs.Prelude.{◌≡◌, ◌≤◌, List, [], ◌∷◌, ◌++◌, length, map, OnOk, OnErr, IfSome, IfNone};
ghost use Rattle.name_scopes.specs.Scopes.{found, declared};
ghost use Rattle.name_scopes.specs.Undo.{pair_of};

use crate::log::{Entry, close_scope, enter_declaration, open_scope, take_back, told};
use cil_base::{Memory, NameId};
use std::alloc::Global;
use std::marker::Model;

/// The scopes that are open, from the outermost on, with what each name stands for in them (C11 6.2.1).
#[derive(Drop)]
pub struct Scopes<T> {
    outer: Vec<Vec<Entry<T>>>,
    inner: Vec<Entry<T>>,
    /// By a name's number, what it stands for now.
    latest: Vec<Option<T>>,
    alloc: Global,
}

impl<T> Model for Scopes<T> {
    ghost use Rattle.std.specs.Prelude.{List, [], ◌∷◌, ◌++◌, map};
    ghost use Rattle.cil_base.specs.declared.numbers.NameId.{NameId};
    ghost use Rattle.name_scopes.specs.Undo.{pair_of, InStep};

    ghost Value = { List (List (NameId × T)) };

    ghost view = { λ s. map (map pair_of) (map (λ v. v.items) s.outer.items) ++ map pair_of s.inner.items ∷ [] };

    ghost invariant = { λ s. InStep s.latest.items (map (λ v. v.items) s.outer.items) s.inner.items };
}

impl<T: Copy> Scopes<T> {
    /// One scope, without declarations.
    #[tactic(auto, using(crate::proofs::UndoLemmas::begun))]
    pub fn new(alloc: Global) -> Self
        ensures { result ≡ [] ∷ [] }
    {
        Scopes {
            outer: Vec::new(alloc),
            inner: Vec::new(alloc),
            latest: Vec::new(alloc),
            alloc,
        }
    }

    /// Opens a scope in the innermost one. After Memory the scopes are as before.
    #[tactic(auto, using(crate::proofs::UndoLemmas::step_entered, crate::proofs::UndoLemmas::seen_entered))]
    pub fn enter(&mut self) -> Result<(), Memory>
        ensures ok { OnOk result (self.new ≡ self.old ++ [] ∷ []) }
        ensures err { OnErr result (self.new ≡ self.old) }
    {
        open_scope(self.alloc, &mut self.outer, &mut self.inner)
    }

    /// Closes the innermost scope, and gives its declarations. Where it is the only one it stays, and the answer is None.
    #[tactic(auto, using(crate::proofs::UndoLemmas::step_left, crate::proofs::UndoLemmas::seen_left))]
    pub fn leave(&mut self) -> Option<Vec<Entry<T>>>
        ensures left { IfSome result (λ scope. self.old ≡ self.new ++ map pair_of scope.items ∷ []) }
        ensures only { IfNone result ((self.new ≡ self.old) × (length self.old ≤ 1)) }
    {
        match close_scope(&mut self.outer, &mut self.inner) {
            None => None,
            Some(scope) => {
                take_back(&mut self.latest, &scope);
                Some(scope)
            }
        }
    }

    /// Declares a name in the innermost scope. After Memory the scopes are as before.
    #[tactic(auto, using(crate::proofs::UndoLemmas::step_declared, crate::proofs::UndoLemmas::seen_declared))]
    pub fn declare(&mut self, n: NameId, value: T) -> Result<(), Memory>
        ensures ok { OnOk result (self.new ≡ declared n value self.old) }
        ensures err { OnErr result (self.new ≡ self.old) }
    {
        enter_declaration(&mut self.latest, &mut self.inner, n, value)
    }

    /// What a name stands for: the last declaration of the name in the innermost scope that declares it decides (C11 6.2.1p4).
    #[tactic(auto, using(crate::proofs::UndoLemmas::found_told))]
    pub fn find(&self, n: NameId) -> Option<T>
        ensures { result ≡ found self.now n }
    {
        told(&self.latest, n)
    }
}
