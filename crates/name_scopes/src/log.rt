ghost use Rattle.std.specs.Prelude.{◌≡◌, ℕ, ◌<◌, ◌≤◌, Option, Some, None, [], ◌∷◌, ◌++◌, length, map, get_or, OnOk, OnErr, IfSome, IfNone, slice_set};
ghost use Rattle.name_scopes.specs.Undo.{pair_of, Agree, Grown};

use cil_base::{Memory, NameId};
use std::alloc::Global;
use std::mem;

/// A declaration of a name: what the name stands for, and what it stood for before.
#[derive(Clone, Copy)]
pub struct Entry<T> {
    pub name: NameId,
    pub value: T,
    pub before: Option<T>,
}

/// What the table has of a name. Without an entry it is not declared.
#[tactic(auto, using(std::proofs::lemmas::List::get_or_past))]
pub fn told<T: Copy>(latest: &[Option<T>], n: NameId) -> Option<T>
    ensures { result ≡ get_or latest.now n.0 None }
{
    let i = n.0 as usize;
    if i < latest.len() { latest[i] } else { None }
}

/// Makes the table longer than a name's number. A name that it did not have is not declared.
#[tactic(auto, using(crate::proofs::UndoLemmas::grown_same, crate::proofs::UndoLemmas::grown_push))]
fn grow<T: Copy>(latest: &mut Vec<Option<T>>, n: NameId) -> Result<(), Memory>
    ensures grown { Grown latest.old.items latest.new.items }
    ensures there { OnOk result (n.0 < length latest.new.items) }
{
    while latest.len() <= n.0 as usize {
        latest.push(None)?;
    }
    Ok(())
}

/// Enters a declaration in the table and at the end of its scope's log.
#[tactic(auto, using(crate::proofs::UndoLemmas::agree_grown, crate::proofs::UndoLemmas::agree_entered, crate::proofs::UndoLemmas::pairs_entered))]
pub fn enter_declaration<T: Copy>(
    latest: &mut Vec<Option<T>>,
    scope: &mut Vec<Entry<T>>,
    n: NameId,
    value: T,
) -> Result<(), Memory>
    ensures agree { (before : ℕ → Option T) → Agree before latest.old.items scope.old.items → Agree before latest.new.items scope.new.items }
    ensures longer { length latest.old.items ≤ length latest.new.items }
    ensures ok { OnOk result (map pair_of scope.new.items ≡ map pair_of scope.old.items ++ (n, value) ∷ []) }
    ensures err { OnErr result (scope.new.items ≡ scope.old.items) }
{
    grow(latest, n)?;
    let before = told(latest, n);
    scope.push(Entry {
        name: n,
        value,
        before,
    })?;
    latest[n.0 as usize] = Some(value);
    Ok(())
}

/// Gives a name back what it was before a declaration.
fn put_back<T: Copy>(latest: &mut Vec<Option<T>>, e: Entry<T>)
    ensures { latest.new.items ≡ slice_set latest.old.items e.name.0 e.before }
{
    let i = e.name.0 as usize;
    if i < latest.len() {
        latest[i] = e.before;
    }
}

/// Takes back what the declarations of a scope changed in the table.
#[tactic(auto, using(crate::proofs::UndoLemmas::step_back))]
pub fn take_back<T: Copy>(latest: &mut Vec<Option<T>>, scope: &[Entry<T>])
    ensures back { (before : ℕ → Option T) → Agree before latest.old.items scope.now → Agree before latest.new.items [] }
    ensures length { length latest.new.items ≡ length latest.old.items }
{
    for i in 0..scope.len() {
        put_back(latest, scope[scope.len() - 1 - i]);
    }
}

/// Keeps the innermost scope, and begins another one. After Memory both are as before.
pub fn open_scope<T: Copy>(
    alloc: Global,
    outer: &mut Vec<Vec<Entry<T>>>,
    inner: &mut Vec<Entry<T>>,
) -> Result<(), Memory>
    ensures opened { OnOk result ((map (λ v. v.items) outer.new.items ≡ map (λ v. v.items) outer.old.items ++ inner.old.items ∷ []) × (inner.new.items ≡ [])) }
    ensures err { OnErr result ((map (λ v. v.items) outer.new.items ≡ map (λ v. v.items) outer.old.items) × (inner.new.items ≡ inner.old.items)) }
{
    let scope = mem::replace(inner, Vec::new(alloc));
    match outer.push(scope) {
        Ok(()) => Ok(()),
        Err(failed) => {
            *inner = failed.value;
            Err(Memory)
        }
    }
}

/// Goes on in the scope around the innermost one, which is the answer. Where there is none around it, it stays.
pub fn close_scope<T: Copy>(
    outer: &mut Vec<Vec<Entry<T>>>,
    inner: &mut Vec<Entry<T>>,
) -> Option<Vec<Entry<T>>>
    ensures closed { IfSome result (λ scope. (map (λ v. v.items) outer.old.items ≡ map (λ v. v.items) outer.new.items ++ inner.new.items ∷ []) × (scope.items ≡ inner.old.items)) }
    ensures only { IfNone result ((outer.old.items ≡ []) × (outer.new.items ≡ []) × (inner.new.items ≡ inner.old.items)) }
{
    match outer.pop() {
        None => None,
        Some(scope) => Some(mem::replace(inner, scope)),
    }
}
