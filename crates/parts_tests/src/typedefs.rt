//! Which names are typedef names, scope by scope.

use crate::equal::equal;
use cil_base::{Memory, NameId};
use typedef_scopes::Scopes;

const T: NameId = NameId(3);

const X: NameId = NameId(70);

/// What T and X are told to be.
fn told(scopes: &Scopes) -> (bool, bool) {
    (scopes.is_type(T), scopes.is_type(X))
}

#[test]
fn the_innermost_last_declaration_decides(rt: HostRuntime) -> Result<(), Memory> {
    let mut scopes = Scopes::new(rt.alloc());
    equal(&rt, &"told", &told(&scopes), &(false, false));
    scopes.declare(T, true)?;
    equal(&rt, &"told", &told(&scopes), &(true, false));
    scopes.declare(T, false)?;
    scopes.declare(T, true)?;
    scopes.enter()?;
    equal(&rt, &"told", &told(&scopes), &(true, false));
    scopes.declare(T, false)?;
    scopes.declare(X, true)?;
    equal(&rt, &"told", &told(&scopes), &(false, true));
    scopes.leave();
    equal(&rt, &"told", &told(&scopes), &(true, false));
    Ok(())
}

#[test]
fn a_scope_in_a_scope_is_left_alone(rt: HostRuntime) -> Result<(), Memory> {
    let mut scopes = Scopes::new(rt.alloc());
    scopes.declare(T, true)?;
    scopes.enter()?;
    scopes.declare(T, false)?;
    scopes.enter()?;
    scopes.declare(T, true)?;
    scopes.declare(X, true)?;
    equal(&rt, &"told", &told(&scopes), &(true, true));
    scopes.leave();
    equal(&rt, &"told", &told(&scopes), &(false, false));
    Ok(())
}
