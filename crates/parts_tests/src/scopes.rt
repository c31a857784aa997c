//! What names denote, scope by scope.

use crate::equal::equal;
use cil_base::{Memory, NameId};
use name_scopes::{Entry, Scopes};
use std::process::Abort;

const X: NameId = NameId(3);

const Y: NameId = NameId(70);

/// What X and Y stand for.
fn found(scopes: &Scopes<u32>) -> (Option<u32>, Option<u32>) {
    (scopes.find(X), scopes.find(Y))
}

/// The last declaration of a scope decides, also in a scope within it.
fn outer_declarations_decide(rt: &impl Abort, scopes: &mut Scopes<u32>) -> Result<(), Memory> {
    equal(rt, &"none", &found(scopes), &(None, None));
    scopes.declare(X, 1)?;
    scopes.declare(X, 2)?;
    scopes.enter()?;
    equal(rt, &"outer", &found(scopes), &(Some(2), None));
    Ok(())
}

/// The declarations of a scope decide over those of the scopes around it.
fn inner_declarations_decide(rt: &impl Abort, scopes: &mut Scopes<u32>) -> Result<(), Memory> {
    scopes.declare(X, 3)?;
    scopes.declare(Y, 4)?;
    scopes.enter()?;
    scopes.declare(Y, 5)?;
    equal(rt, &"inner", &found(scopes), &(Some(3), Some(5)));
    Ok(())
}

/// Whether a scope is left, and what X and Y stand for behind it.
fn left(scopes: &mut Scopes<u32>) -> (bool, (Option<u32>, Option<u32>)) {
    let is_left = scopes.leave().is_some();
    (is_left, found(scopes))
}

fn scopes_are_left(rt: &impl Abort, scopes: &mut Scopes<u32>) {
    equal(
        rt,
        &"left",
        &[left(scopes), left(scopes)],
        &[(true, (Some(3), Some(4))), (true, (Some(2), None))],
    );
}

fn scopes_decide(rt: &impl Abort, scopes: &mut Scopes<u32>) -> Result<(), Memory> {
    outer_declarations_decide(rt, scopes)?;
    inner_declarations_decide(rt, scopes)?;
    scopes_are_left(rt, scopes);
    Ok(())
}

#[test]
fn the_innermost_last_declaration_decides(rt: HostRuntime) -> Result<(), Memory> {
    let mut scopes = Scopes::new(rt.alloc());
    scopes_decide(&rt, &mut scopes)
}

fn declare_in_a_scope(scopes: &mut Scopes<u32>) -> Result<(), Memory> {
    scopes.enter()?;
    scopes.declare(X, 1)?;
    scopes.declare(Y, 2)
}

/// The name and the value of a declaration.
fn declared(entry: Option<&Entry<u32>>) -> Option<(NameId, u32)> {
    match entry {
        Some(entry) => Some((entry.name, entry.value)),
        None => None,
    }
}

/// The declarations of the scope that is left, of which the third is one too many.
fn left_declarations(scopes: &mut Scopes<u32>) -> Option<[Option<(NameId, u32)>; 3]> {
    match scopes.leave() {
        None => None,
        Some(declarations) => Some([
            declared(declarations.get(0)),
            declared(declarations.get(1)),
            declared(declarations.get(2)),
        ]),
    }
}

#[test]
fn a_scope_gives_its_declarations_when_it_is_left(rt: HostRuntime) {
    let mut scopes = Scopes::new(rt.alloc());
    equal(&rt, &"declared", &declare_in_a_scope(&mut scopes), &Ok(()));
    equal(
        &rt,
        &"left",
        &[
            left_declarations(&mut scopes),
            left_declarations(&mut scopes),
        ],
        &[Some([Some((X, 1)), Some((Y, 2)), None]), None],
    );
}
