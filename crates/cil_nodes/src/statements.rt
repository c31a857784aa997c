ghost use Rattle.std.specs.Prelude.{◌≡◌, ◌++◌, ◌∷◌, [], Some, IfOk, OnOk};
ghost use Rattle.cil_tree.specs.declared.statements.Callee.TheVariants as callee;
ghost use Rattle.cil_tree.specs.declared.statements.Instr.TheVariants as instr;
ghost use Rattle.cil_tree.specs.declared.statements.Stmt.TheVariants as stmt;
ghost use Rattle.cil_nodes.specs.Built.{IsIf, IsSwitch, IsLoop, IsBlock};

use cil_base::{EntityId, IntKind, LabelId, Memory};
use cil_tree::{Callee, Exp, Instr, Lval, Stmt};
use std::alloc::Global;

/// The function that is called by its name (C11 6.5.2.2).
pub fn direct(function: EntityId) -> Callee
    ensures { result ≡ callee.Direct function }
{
    Callee::Direct(function)
}

/// The function that a pointer points to.
pub fn through(pointer: Box<Exp>) -> Callee
    ensures { result ≡ callee.Through pointer.value }
{
    Callee::Through(Box::into_inner(pointer))
}

/// An assignment (C11 6.5.16.1).
pub fn set(place: Lval, value: Box<Exp>) -> Instr
    ensures { result ≡ instr.Set place value.value }
{
    Instr::Set(place, Box::into_inner(value))
}

/// A zero fill of an object.
pub fn zero(place: Lval) -> Instr
    ensures { result ≡ instr.Zero place }
{
    Instr::Zero(place)
}

/// An `if` with both its parts (C11 6.8.4.1).
#[tactic(auto, using(crate::proofs::Made::if_is))]
pub fn if_else(test: Box<Exp>, holds: Vec<Stmt>, fails: Vec<Stmt>) -> Stmt
    ensures { IsIf test.value holds.items fails.items result }
{
    Stmt::If(Box::into_inner(test), holds, fails)
}

/// A `switch` (C11 6.8.4.2).
#[tactic(auto, using(crate::proofs::Made::switch_is))]
pub fn switch(value: Box<Exp>, body: Vec<Stmt>) -> Stmt
    ensures { IsSwitch value.value body.items result }
{
    Stmt::Switch(Box::into_inner(value), body)
}

/// A loop without end.
#[tactic(auto, using(crate::proofs::Made::loop_is))]
pub fn looped(body: Vec<Stmt>) -> Stmt
    ensures { IsLoop body.items result }
{
    Stmt::Loop(body)
}

/// A compound statement (C11 6.8.2).
#[tactic(auto, using(crate::proofs::Made::block_is))]
pub fn block(body: Vec<Stmt>) -> Stmt
    ensures { IsBlock body.items result }
{
    Stmt::Block(body)
}

/// A label (C11 6.8.1).
pub fn label(number: LabelId) -> Stmt
    ensures { result ≡ stmt.Label number }
{
    Stmt::Label(number)
}

/// A case label (C11 6.8.1).
pub fn case(kind: IntKind, value: i128) -> Stmt
    ensures { result ≡ stmt.Case kind value }
{
    Stmt::Case(kind, value)
}

/// A jump to a label (C11 6.8.6.1).
pub fn goto(number: LabelId) -> Stmt
    ensures { result ≡ stmt.Goto number }
{
    Stmt::Goto(number)
}

/// A `return` of a value (C11 6.8.6.4).
pub fn return_value(value: Box<Exp>) -> Stmt
    ensures { result ≡ stmt.Return (Some value.value) }
{
    Stmt::Return(Some(Box::into_inner(value)))
}

/// A statement in a box.
pub fn boxed_statement(alloc: Global, statement: Stmt) -> Result<Box<Stmt>, Memory>
    ensures { IfOk result (λ b. b.value ≡ statement) }
{
    Ok(Box::new(alloc, statement)?)
}

/// Puts a statement behind others.
pub fn push_statement(all: &mut Vec<Stmt>, statement: Box<Stmt>) -> Result<(), Memory>
    ensures { OnOk result (all.new.items ≡ all.old.items ++ statement.value ∷ []) }
{
    all.push(Box::into_inner(statement))?;
    Ok(())
}
