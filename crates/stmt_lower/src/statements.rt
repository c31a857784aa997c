ghost use Rattle.std.specs.Prelude.{◌≡◌, ◌++◌, ◌∷◌, [], IfOk, OnOk};
ghost use Rattle.lower_parts.specs.Code.{Extends};
ghost use Rattle.stmt_lower.specs.Loops.{Leaves, IsTest, IsHead, Loops, EndsBody, ContinuesAt, EndsWhile, EndsDo, EndsFor};

use crate::labels::Labels;
use cil_base::{LabelId, Memory, TypeId};
use cil_nodes::{block, case, goto, label, looped};
use cil_tree::{Exp, Stmt};
use expr_lower::{effect, initialise, value};
use lower_parts::{FunctionOut, choose, converted, impossible};
use std::alloc::Global;
use typed_tree::{TypedExp, TypedStmt};

/// What the statements of a function ask of it beside its locals.
#[derive(Drop)]
pub(crate) struct Frame {
    pub(crate) labels: Labels,
    /// The type of what it returns, as it is printed.
    pub(crate) ret: TypeId,
}

/// Puts a statement at the end of the code.
fn put(s: Stmt, out: &mut Vec<Stmt>) -> Result<(), Memory>
    ensures { OnOk result (out.new.items ≡ out.old.items ++ s ∷ []) }
{
    out.reserve(1)?;
    out.push_reserved(s);
    Ok(())
}

/// Leaves a loop unless a condition holds.
fn leave_unless(alloc: Global, test: Exp, out: &mut Vec<Stmt>) -> Result<(), Memory>
    ensures { OnOk result (Leaves test out.old.items out.new.items) }
{
    let mut fails = Vec::with_capacity(alloc, 1)?;
    fails.push(Stmt::Break)?;
    choose(test, Vec::new(alloc), fails, out)
}

/// Evaluates the condition of a loop, and leaves it unless that holds (C11 6.8.5p4).
#[tactic(auto, using(crate::proofs::LoopLaws::tests))]
fn put_test(f: &mut FunctionOut, test: &TypedExp, out: &mut Vec<Stmt>) -> Result<(), Memory>
    ensures { OnOk result (IsTest out.old.items out.new.items) }
{
    let x = value(f, test, out)?;
    leave_unless(f.alloc(), x, out)
}

/// The beginning of a loop with a condition, with room for so many statements.
fn head(f: &mut FunctionOut, test: &TypedExp, count: usize) -> Result<Vec<Stmt>, Memory>
    ensures { IfOk result (λ code. IsTest [] code.items) }
{
    let mut code = Vec::with_capacity(f.alloc(), count.saturating_add(2))?;
    put_test(f, test, &mut code)?;
    Ok(code)
}

/// The beginning of a `for`, whose condition may be absent (C11 6.8.5.3p2).
fn for_head(f: &mut FunctionOut, test: &Option<TypedExp>, count: usize) -> Result<Vec<Stmt>, Memory>
    ensures { IfOk result (λ code. IsHead test.now code.items) }
{
    match test {
        Some(test) => head(f, test, count),
        None => Ok(Vec::with_capacity(f.alloc(), count.saturating_add(1))?),
    }
}

/// Sets the label at the end of a loop's body, where a `continue` names the loop (C11 6.8.6.2p2).
fn end_body(again: Option<LabelId>, out: &mut Vec<Stmt>) -> Result<(), Memory>
    ensures { OnOk result (EndsBody again out.old.items out.new.items) }
{
    match again {
        Some(n) => put(label(n), out),
        None => Ok(()),
    }
}

/// Puts a loop without end behind code.
#[tactic(auto, using(crate::proofs::LoopLaws::loops_in))]
fn put_loop(code: Vec<Stmt>, out: &mut Vec<Stmt>) -> Result<(), Memory>
    ensures { OnOk result (Loops code.items out.old.items out.new.items) }
{
    put(looped(code), out)
}

/// Ends a `while` (C11 6.8.5.1): behind its body stands its label.
#[tactic(auto, using(crate::proofs::LoopLaws::while_ends))]
fn end_while(again: Option<LabelId>, body: Vec<Stmt>, out: &mut Vec<Stmt>) -> Result<(), Memory>
    ensures { OnOk result (EndsWhile again body.items out.old.items out.new.items) }
{
    let mut code = body;
    end_body(again, &mut code)?;
    put_loop(code, out)
}

/// Ends a `do` (C11 6.8.5.2): behind its body stand its label and its condition.
#[tactic(auto, using(crate::proofs::LoopLaws::do_ends))]
fn end_do(
    f: &mut FunctionOut,
    test: &TypedExp,
    again: Option<LabelId>,
    body: Vec<Stmt>,
    out: &mut Vec<Stmt>,
) -> Result<(), Memory>
    ensures { OnOk result (EndsDo again body.items out.old.items out.new.items) }
{
    let mut tested = body;
    end_body(again, &mut tested)?;
    put_test(f, test, &mut tested)?;
    put_loop(tested, out)
}

/// Evaluates the third expression of a `for`, if it has one.
#[tactic(auto, using(lower_parts::proofs::CodeLaws::extends_none))]
fn put_step(f: &mut FunctionOut, step: &Option<TypedExp>, out: &mut Vec<Stmt>) -> Result<(), Memory>
    ensures { OnOk result (Extends out.old.items out.new.items) }
{
    match step {
        Some(step) => effect(f, step, out),
        None => Ok(()),
    }
}

/// Ends a `for` (C11 6.8.5.3): behind its body stand its label and its third expression.
#[tactic(auto, using(crate::proofs::LoopLaws::for_ends))]
fn end_for(
    f: &mut FunctionOut,
    step: &Option<TypedExp>,
    again: Option<LabelId>,
    body: Vec<Stmt>,
    out: &mut Vec<Stmt>,
) -> Result<(), Memory>
    ensures { OnOk result (EndsFor again body.items out.old.items out.new.items) }
{
    let mut stepped = body;
    end_body(again, &mut stepped)?;
    put_step(f, step, &mut stepped)?;
    put_loop(stepped, out)
}

/// Returns a value (C11 6.8.6.4p3), cast where the result is printed with another type.
fn put_return(
    f: &mut FunctionOut,
    ret: TypeId,
    e: &TypedExp,
    out: &mut Vec<Stmt>,
) -> Result<(), Memory> {
    let from = f.type_of(e)?;
    let x = value(f, e, out)?;
    let x = converted(f.alloc(), x, from, ret)?;
    put(Stmt::Return(Some(x)), out)
}

/// Jumps to the end of the body of the loop around (C11 6.8.6.2p2).
fn put_continue(around: Option<LabelId>, out: &mut Vec<Stmt>) -> Result<(), Memory>
    ensures { OnOk result (ContinuesAt around out.old.items out.new.items) }
{
    match around {
        Some(n) => put(goto(n), out),
        None => Err(impossible()),
    }
}

/// Lowers statements in order; `around` is the label at the end of the body of the loop around.
#[cycle(statements)]
pub(crate) fn statements(
    f: &mut FunctionOut,
    frame: &mut Frame,
    all: &[TypedStmt],
    around: Option<LabelId>,
    out: &mut Vec<Stmt>,
) -> Result<(), Memory> {
    for s in all {
        statement(f, frame, s, around, out)?;
    }
    Ok(())
}

/// Lowers statements to code of their own.
#[cycle(statements)]
fn nested(
    f: &mut FunctionOut,
    frame: &mut Frame,
    all: &[TypedStmt],
    around: Option<LabelId>,
) -> Result<Vec<Stmt>, Memory> {
    let mut out = Vec::with_capacity(f.alloc(), all.len())?;
    statements(f, frame, all, around, &mut out)?;
    Ok(out)
}

/// Lowers a statement.
#[cycle(statements)]
fn statement(
    f: &mut FunctionOut,
    frame: &mut Frame,
    s: &TypedStmt,
    around: Option<LabelId>,
    out: &mut Vec<Stmt>,
) -> Result<(), Memory> {
    match s {
        TypedStmt::Expr(e) => effect(f, e, out),
        TypedStmt::Declare(n, Some(init)) => initialise(f, init, *n, out),
        TypedStmt::Declare(_, None) => Ok(()),
        TypedStmt::Block(body) => {
            let body = nested(f, frame, body, around)?;
            put(block(body), out)
        }
        TypedStmt::If(test, holds, fails) => {
            let x = value(f, test, out)?;
            let holds = nested(f, frame, holds, around)?;
            let fails = nested(f, frame, fails, around)?;
            choose(x, holds, fails, out)
        }
        TypedStmt::Switch(e, body) => {
            let x = value(f, e, out)?;
            let body = nested(f, frame, body, around)?;
            put(Stmt::Switch(x, body), out)
        }
        TypedStmt::While(test, body) => {
            let again = frame.labels.next_loop()?;
            let mut code = head(f, test, body.len())?;
            statements(f, frame, body, again, &mut code)?;
            end_while(again, code, out)
        }
        TypedStmt::Do(body, test) => {
            let again = frame.labels.next_loop()?;
            let code = nested(f, frame, body, again)?;
            end_do(f, test, again, code, out)
        }
        TypedStmt::For(start, test, step, body) => {
            statements(f, frame, start, around, out)?;
            let again = frame.labels.next_loop()?;
            let mut code = for_head(f, test, body.len())?;
            statements(f, frame, body, again, &mut code)?;
            end_for(f, step, again, code, out)
        }
        TypedStmt::Label(n) => put(label(frame.labels.number(*n)?), out),
        TypedStmt::Case(kind, n) => put(case(*kind, *n), out),
        TypedStmt::Default => put(Stmt::Default, out),
        TypedStmt::Goto(n) => put(goto(frame.labels.number(*n)?), out),
        TypedStmt::Break => put(Stmt::Break, out),
        TypedStmt::Continue => put_continue(around, out),
        TypedStmt::Return(Some(e)) => put_return(f, frame.ret, e, out),
        TypedStmt::Return(None) => put(Stmt::Return(None), out),
    }
}
