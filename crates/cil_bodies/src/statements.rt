ghost use Rattle.std.specs.Prelude.{IfOk, OnOk};
ghost use Rattle.cil_tree.specs.declared.statements.Callee.TheVariants as callee;
ghost use Rattle.cil_bodies.specs.Maps.{IsCalled, MapsCallee, MapsExps, MapsInstr, MapsResult, MapsStmt, MapsStmts, MapsValue};

use crate::expressions::{map_exp, map_place};
use crate::mapping::{Mapping, Use};
use crate::retyping::retyped_pointer;
use cil_base::{EntityId, Memory};
use cil_nodes::{direct, through};
use cil_tree::{Callee, Exp, Instr, Lval, Stmt};
use std::alloc::Global;

/// A call of a function as it is used.
fn called(alloc: Global, found: Use) -> Result<Callee, Memory>
    ensures { IfOk result (IsCalled found) }
{
    match found.through {
        None => Ok(direct(found.entity)),
        Some(to) => Ok(through(retyped_pointer(alloc, to, found.entity)?)),
    }
}

/// A call of what a function is.
fn mapped_function(alloc: Global, e: EntityId, m: &Mapping<'_>) -> Result<Callee, Memory>
    ensures { IfOk result (MapsCallee m.now (callee.Direct e)) }
{
    called(alloc, m.entity(e)?)
}

/// Maps what a call calls.
fn map_callee(alloc: Global, callee: &mut Callee, m: &Mapping<'_>) -> Result<(), Memory>
    ensures { OnOk result (MapsCallee m.now callee.old callee.new) }
{
    match callee {
        Callee::Direct(e) => {
            *callee = mapped_function(alloc, *e, m)?;
            Ok(())
        }
        Callee::Through(e) => map_exp(alloc, e, m),
    }
}

/// Maps the place of a call's result.
fn map_result(alloc: Global, place: &mut Option<Lval>, m: &Mapping<'_>) -> Result<(), Memory>
    ensures { OnOk result (MapsResult m.now place.old place.new) }
{
    match place {
        None => Ok(()),
        Some(place) => map_place(alloc, place, m),
    }
}

/// Maps arguments.
fn map_arguments(alloc: Global, arguments: &mut Vec<Exp>, m: &Mapping<'_>) -> Result<(), Memory>
    ensures { OnOk result (MapsExps m.now arguments.old.items arguments.new.items) }
{
    for i in 0..arguments.len() {
        map_exp(alloc, &mut arguments[i], m)?;
    }
    Ok(())
}

/// Maps an instruction.
fn map_instr(alloc: Global, instr: &mut Instr, m: &Mapping<'_>) -> Result<(), Memory>
    ensures { OnOk result (MapsInstr m.now instr.old instr.new) }
{
    match instr {
        Instr::Set(place, value) => {
            map_place(alloc, place, m)?;
            map_exp(alloc, value, m)
        }
        Instr::Call(place, callee, arguments) => {
            map_result(alloc, place, m)?;
            map_callee(alloc, callee, m)?;
            map_arguments(alloc, arguments, m)
        }
        Instr::Zero(place) => map_place(alloc, place, m),
    }
}

/// Maps a returned value.
fn map_return(alloc: Global, value: &mut Option<Exp>, m: &Mapping<'_>) -> Result<(), Memory>
    ensures { OnOk result (MapsValue m.now value.old value.new) }
{
    match value {
        None => Ok(()),
        Some(e) => map_exp(alloc, e, m),
    }
}

/// Maps a statement.
#[cycle(statements)]
fn map_stmt(alloc: Global, s: &mut Stmt, m: &Mapping<'_>) -> Result<(), Memory>
    ensures { OnOk result (MapsStmt m.now s.old s.new) }
{
    match s {
        Stmt::Instr(instr) => map_instr(alloc, instr, m),
        Stmt::If(test, holds, fails) => {
            map_exp(alloc, test, m)?;
            map_stmts(alloc, holds, m)?;
            map_stmts(alloc, fails, m)
        }
        Stmt::Switch(value, body) => {
            map_exp(alloc, value, m)?;
            map_stmts(alloc, body, m)
        }
        Stmt::Loop(body) => map_stmts(alloc, body, m),
        Stmt::Block(body) => map_stmts(alloc, body, m),
        Stmt::Return(value) => map_return(alloc, value, m),
        Stmt::Label(_) | Stmt::Case(..) | Stmt::Default | Stmt::Goto(_) | Stmt::Break => Ok(()),
    }
}

/// Maps statements.
#[cycle(statements)]
pub fn map_stmts(alloc: Global, all: &mut Vec<Stmt>, m: &Mapping<'_>) -> Result<(), Memory>
    ensures { OnOk result (MapsStmts m.now all.old.items all.new.items) }
{
    for i in 0..all.len() {
        map_stmt(alloc, &mut all[i], m)?;
    }
    Ok(())
}
