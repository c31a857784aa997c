ghost use Rattle.std.specs.Prelude.{◌≡◌, ◌≤◌, List, [], ◌∷◌, ◌++◌, length, OnOk, OnErr};
ghost use Rattle.typedef_scopes.specs.Scopes.{Scope, is_type, declared};

use crate::log::{Declaration, close_scope, enter_declaration, open_scope, take_back, told};
use cil_base::{Memory, NameId};
use std::alloc::Global;
use std::marker::Model;

/// The scopes that are open, from the outermost on, and which names are typedef names in them (C11 6.2.1).
#[derive(Drop)]
pub struct Scopes {
    outer: Vec<Vec<Declaration>>,
    inner: Vec<Declaration>,
    /// By a name's number, whether it is a typedef name now.
    types: Vec<bool>,
    alloc: Global,
}

impl Model for Scopes {
    ghost use Rattle.std.specs.Prelude.{◌≡◌, Bool, List, [], ◌∷◌, ◌++◌, map};
    ghost use Rattle.cil_base.specs.declared.numbers.NameId.{NameId};
    ghost use Rattle.typedef_scopes.specs.Undo.{pair_of, InStep};

    ghost Value = { List (List (NameId × Bool)) };

    ghost view = { λ s. map (map pair_of) (map (λ v. v.items) s.outer.items) ++ map pair_of s.inner.items ∷ [] };

    ghost invariant = { λ s. InStep s.types.items (map (λ v. v.items) s.outer.items) s.inner.items };
}

impl Scopes {
    /// One scope, without declarations.
    #[tactic(auto, using(crate::proofs::UndoLemmas::begun))]
    pub fn new(alloc: Global) -> Self
        ensures { result ≡ [] ∷ [] }
    {
        Scopes {
            outer: Vec::new(alloc),
            inner: Vec::new(alloc),
            types: Vec::new(alloc),
            alloc,
        }
    }

    /// Opens a scope in the innermost one. After Memory the scopes are as before.
    #[tactic(auto, using(crate::proofs::UndoLemmas::step_entered, crate::proofs::UndoLemmas::seen_entered))]
    pub fn enter(&mut self) -> Result<(), Memory>
        ensures ok { OnOk result (self.new ≡ self.old ++ [] ∷ []) }
        ensures room { OnOk result (2 ≤ length self.new) }
        ensures err { OnErr result (self.new ≡ self.old) }
    {
        open_scope(self.alloc, &mut self.outer, &mut self.inner)
    }

    /// Closes the innermost scope.
    #[tactic(auto, using(crate::proofs::UndoLemmas::step_left, crate::proofs::UndoLemmas::seen_left, crate::proofs::UndoLemmas::more_than_one))]
    pub fn leave(&mut self)
        requires { 2 ≤ length self.old }
        ensures { (innermost : Scope) × (self.old ≡ self.new ++ innermost ∷ []) }
    {
        take_back(&mut self.types, &mut self.inner);
        close_scope(&mut self.outer, &mut self.inner);
    }

    /// Declares a name in the innermost scope. After Memory the scopes are as before.
    #[tactic(auto, using(crate::proofs::UndoLemmas::step_declared, crate::proofs::UndoLemmas::seen_declared))]
    pub fn declare(&mut self, n: NameId, is_typedef: bool) -> Result<(), Memory>
        ensures ok { OnOk result (self.new ≡ declared n is_typedef self.old) }
        ensures err { OnErr result (self.new ≡ self.old) }
    {
        enter_declaration(&mut self.types, &mut self.inner, n, is_typedef)
    }

    /// Whether a name is a typedef name: the last declaration of the name in the innermost scope that declares it decides
    /// (C11 6.2.1p4). A name that is not declared is none.
    #[tactic(auto, using(crate::proofs::UndoLemmas::is_type_told))]
    pub fn is_type(&self, n: NameId) -> bool
        ensures { result ≡ is_type self.now n }
    {
        told(&self.types, n)
    }
}
