//! Builders of what the tests are about: statements, terms and steps, each behind a list or a box.

ghost use Rattle.std.specs.Prelude.{◌≡◌, ◌++◌, ◌∷◌, [], OnOk};

use cil_code::Step;
use cil_machine::Term;
use cil_tree::{Exp, Stmt};
use std::alloc::{AllocError, Global};

/// Adds a statement to a list.
pub(crate) fn add(stmts: &mut Vec<Stmt>, stmt: Stmt) -> Result<(), AllocError> {
    stmts.push(stmt)?;
    Ok(())
}

/// Adds a step to a list.
pub(crate) fn add_step(code: &mut Vec<Step>, step: Step) -> Result<(), AllocError>
    ensures { OnOk result (code.new.items ≡ code.old.items ++ step ∷ []) }
{
    code.push(step)?;
    Ok(())
}

/// A term in a box.
pub(crate) fn boxed(alloc: Global, term: Term) -> Result<Box<Term>, AllocError> {
    Ok(Box::new(alloc, term)?)
}

/// A constant.
pub(crate) fn number(alloc: Global, n: u64) -> Result<Box<Term>, AllocError> {
    boxed(alloc, Term::Number(n))
}

/// An expression in a box.
pub(crate) fn boxed_exp(alloc: Global, e: Exp) -> Result<Box<Exp>, AllocError> {
    Ok(Box::new(alloc, e)?)
}
