ghost use Rattle.std.specs.Prelude.{◌≡◌, ℕ, ◌<◌, ◌≤◌, Bool, false, [], ◌∷◌, ◌++◌, length, map, get_or, OnOk, OnErr, slice_set};
ghost use Rattle.typedef_scopes.specs.Undo.{pair_of, Agree, Grown};

use cil_base::{Memory, NameId};
use std::alloc::Global;
use std::mem;

/// A declaration of a name, and whether the name was a typedef name before it.
#[derive(Clone, Copy)]
pub struct Declaration {
    pub name: NameId,
    pub is_typedef: bool,
    pub was_typedef: bool,
}

/// What the table has of a name. Without an entry it is no typedef name.
#[tactic(auto, using(std::proofs::lemmas::List::get_or_past))]
pub fn told(types: &[bool], n: NameId) -> bool
    ensures { result ≡ get_or types.now n.0 false }
{
    let i = n.0 as usize;
    if i < types.len() { types[i] } else { false }
}

/// Makes the table longer than a name's number. A name that it did not have is no typedef name.
#[tactic(auto, using(crate::proofs::UndoLemmas::grown_same, crate::proofs::UndoLemmas::grown_push))]
fn grow(types: &mut Vec<bool>, n: NameId) -> Result<(), Memory>
    ensures grown { Grown types.old.items types.new.items }
    ensures there { OnOk result (n.0 < length types.new.items) }
{
    while types.len() <= n.0 as usize {
        types.push(false)?;
    }
    Ok(())
}

/// Enters a declaration in the table and at the end of its scope's log.
#[tactic(auto, using(crate::proofs::UndoLemmas::agree_grown, crate::proofs::UndoLemmas::agree_entered, crate::proofs::UndoLemmas::pairs_entered))]
pub fn enter_declaration(
    types: &mut Vec<bool>,
    scope: &mut Vec<Declaration>,
    n: NameId,
    is_typedef: bool,
) -> Result<(), Memory>
    ensures agree { (before : ℕ → Bool) → Agree before types.old.items scope.old.items → Agree before types.new.items scope.new.items }
    ensures longer { length types.old.items ≤ length types.new.items }
    ensures ok { OnOk result (map pair_of scope.new.items ≡ map pair_of scope.old.items ++ (n, is_typedef) ∷ []) }
    ensures err { OnErr result (scope.new.items ≡ scope.old.items) }
{
    grow(types, n)?;
    let was_typedef = told(types, n);
    scope.push(Declaration {
        name: n,
        is_typedef,
        was_typedef,
    })?;
    types[n.0 as usize] = is_typedef;
    Ok(())
}

/// Gives a name back what it was before a declaration.
fn put_back(types: &mut Vec<bool>, d: Declaration)
    ensures { types.new.items ≡ slice_set types.old.items d.name.0 d.was_typedef }
{
    let i = d.name.0 as usize;
    if i < types.len() {
        types[i] = d.was_typedef;
    }
}

/// Takes back what the declarations of a scope changed in the table.
#[tactic(auto, using(crate::proofs::UndoLemmas::agree_put_back))]
pub fn take_back(types: &mut Vec<bool>, scope: &mut Vec<Declaration>)
    ensures back { (before : ℕ → Bool) → Agree before types.old.items scope.old.items → Agree before types.new.items [] }
    ensures length { length types.new.items ≡ length types.old.items }
{
    while let Some(d) = scope.pop() {
        put_back(types, d);
    }
}

/// Keeps the innermost scope, and begins another one. After Memory both are as before.
pub fn open_scope(
    alloc: Global,
    outer: &mut Vec<Vec<Declaration>>,
    inner: &mut Vec<Declaration>,
) -> Result<(), Memory>
    ensures opened { OnOk result ((map (λ v. v.items) outer.new.items ≡ map (λ v. v.items) outer.old.items ++ inner.old.items ∷ []) × (inner.new.items ≡ [])) }
    ensures err { OnErr result ((map (λ v. v.items) outer.new.items ≡ map (λ v. v.items) outer.old.items) × (inner.new.items ≡ inner.old.items)) }
{
    let scope = mem::replace(inner, Vec::new(alloc));
    match outer.push(scope) {
        Ok(()) => Ok(()),
        Err(failed) => {
            *inner = failed.value;
            Err(Memory)
        }
    }
}

/// Drops the innermost scope, and goes on in the one around it.
pub fn close_scope(outer: &mut Vec<Vec<Declaration>>, inner: &mut Vec<Declaration>)
    requires { 0 < length outer.old.items }
    ensures { map (λ v. v.items) outer.old.items ≡ map (λ v. v.items) outer.new.items ++ inner.new.items ∷ [] }
{
    if let Some(scope) = outer.pop() {
        *inner = scope;
    }
}
