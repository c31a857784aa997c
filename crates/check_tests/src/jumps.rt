use crate::equal::equal;
use crate::graphs::{Form, function};
use crate::program::{add_function, empty, no_body};
use cil_base::{EntityId, IntKind, LabelId, LocalId, Memory, NameId, NamePool, TypeId};
use cil_check::check;
use cil_tree::{Body, CilUnit, Exp, Host, Instr, Local, Lval, Stmt};
use std::alloc::Global;
use type_graph::Node;

/// What is changed in the program `int main ( void ) { int y ; again : ; out : ; return 0 ; }`.
#[derive(Clone, Copy, PartialEq, Eq)]
enum Change {
    Nothing,
    GotoThere,
    GotoMissing,
    LabelTwice,
    LabelsOutOfOrder,
    LabelNotSet,
    LabelWithoutName,
    BreakOutside,
    CaseOutside,
    DefaultOutside,
    ReturnNothing,
    ReturnLong,
    ReturnNarrow,
    ReturnTooBig,
    Assign,
    AssignNoLocal,
    AssignNoGlobal,
    LocalNoName,
    LocalNoType,
    GlobalNoName,
    GlobalNoType,
}

/// The changes, and whether the program keeps the rules with each.
fn rows() -> &'static [(Change, bool)] {
    &[
        (Change::Nothing, true),
        (Change::GotoThere, true),
        (Change::GotoMissing, false),
        (Change::LabelTwice, false),
        (Change::LabelsOutOfOrder, false),
        (Change::LabelNotSet, false),
        (Change::LabelWithoutName, false),
        (Change::BreakOutside, false),
        (Change::CaseOutside, false),
        (Change::DefaultOutside, false),
        (Change::ReturnNothing, false),
        (Change::ReturnLong, false),
        (Change::ReturnNarrow, false),
        (Change::ReturnTooBig, false),
        (Change::Assign, true),
        (Change::AssignNoLocal, false),
        (Change::AssignNoGlobal, false),
        (Change::LocalNoName, false),
        (Change::LocalNoType, false),
        (Change::GlobalNoName, false),
        (Change::GlobalNoType, false),
    ]
}

/// An assignment of 1 to an `int`.
fn set(alloc: Global, host: Host) -> Stmt {
    let place = Lval {
        host,
        offsets: Vec::new(alloc),
    };
    Stmt::Instr(Instr::Set(place, Exp::Const(IntKind::Int, 1)))
}

/// `return` with a constant.
fn give(kind: IntKind, value: u64) -> Stmt {
    Stmt::Return(Some(Exp::Const(kind, value)))
}

/// The statement before the last one; 1 is assigned where a change has none of its own.
fn statement(alloc: Global, change: Change) -> Stmt {
    match change {
        Change::GotoMissing => Stmt::Goto(LabelId(2)),
        Change::GotoThere => Stmt::Goto(LabelId(0)),
        Change::LabelTwice => Stmt::Label(LabelId(0)),
        Change::LabelWithoutName => Stmt::Label(LabelId(2)),
        Change::BreakOutside => Stmt::Break,
        Change::CaseOutside => Stmt::Case(IntKind::Int, 1),
        Change::DefaultOutside => Stmt::Default,
        Change::ReturnNothing => Stmt::Return(None),
        Change::ReturnLong => give(IntKind::Long, 1),
        Change::ReturnNarrow => give(IntKind::Char, 1),
        Change::ReturnTooBig => give(IntKind::Int, 2147483648),
        Change::AssignNoLocal => set(alloc, Host::Var(LocalId(9))),
        Change::AssignNoGlobal => set(alloc, Host::Global(EntityId(9))),
        _ => set(alloc, Host::Var(LocalId(0))),
    }
}

/// The labels in the order in which they are set.
fn labels_set(change: Change) -> (LabelId, LabelId) {
    if change == Change::LabelsOutOfOrder {
        (LabelId(1), LabelId(0))
    } else {
        (LabelId(0), LabelId(1))
    }
}

/// Adds the statements.
fn add_statements(stmts: &mut Vec<Stmt>, alloc: Global, change: Change) -> Result<(), Memory> {
    let (first, second) = labels_set(change);
    stmts.push(Stmt::Label(first))?;
    if change != Change::LabelNotSet {
        stmts.push(Stmt::Label(second))?;
    }
    stmts.push(statement(alloc, change))?;
    stmts.push(give(IntKind::Int, 0))?;
    Ok(())
}

/// A name, or where it is changed one that is none.
fn named(name: NameId, is_changed: bool) -> NameId {
    if is_changed { NameId(99) } else { name }
}

/// A type, or where it is changed one that is none.
fn typed(ty: TypeId, is_changed: bool) -> TypeId {
    if is_changed { TypeId(99) } else { ty }
}

/// Adds the local `y`.
fn add_y(
    locals: &mut Vec<Local>,
    pool: &mut NamePool,
    int: TypeId,
    change: Change,
) -> Result<(), Memory> {
    let y = pool.intern(b"y")?;
    locals.push(Local {
        name: named(y, change == Change::LocalNoName),
        ty: typed(int, change == Change::LocalNoType),
    })?;
    Ok(())
}

/// Adds the names of the labels.
fn add_labels(labels: &mut Vec<NameId>, pool: &mut NamePool) -> Result<(), Memory> {
    labels.push(pool.intern(b"again")?)?;
    labels.push(pool.intern(b"out")?)?;
    Ok(())
}

/// Fills the body of `main`.
fn fill(
    body: &mut Body,
    pool: &mut NamePool,
    alloc: Global,
    int: TypeId,
    change: Change,
) -> Result<(), Memory> {
    add_y(&mut body.locals, pool, int, change)?;
    add_labels(&mut body.labels, pool)?;
    add_statements(&mut body.stmts, alloc, change)
}

/// The answer for a program to which `main` with a change is added.
fn answer_in(pool: &mut NamePool, u: &mut CilUnit, change: Change) -> Result<bool, Memory> {
    let alloc = u.graph.alloc();
    let int = u.graph.add_node(Node::Int(IntKind::Int))?;
    let ty = function(&mut u.graph, int, None, Form::Prototype)?;
    let name = pool.intern(b"main")?;
    let mut body = no_body(alloc);
    fill(&mut body, pool, alloc, int, change)?;
    add_function(
        &mut u.globals,
        named(name, change == Change::GlobalNoName),
        typed(ty, change == Change::GlobalNoType),
        body,
    )?;
    check(u, pool)
}

/// The answer for the program with a change.
fn answer(alloc: Global, change: Change) -> Result<bool, Memory> {
    let mut pool = NamePool::new(alloc);
    let mut u = empty(alloc);
    answer_in(&mut pool, &mut u, change)
}

/// Labels are set in order and once, jumps and returns are where they may be, and each number names something.
#[test]
fn tells_jumps_and_numbers(rt: HostRuntime) {
    for (number, (change, right)) in rows().iter().enumerate() {
        equal(&rt, &number, &answer(rt.alloc(), *change), &Ok(*right));
    }
}
