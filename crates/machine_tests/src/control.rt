use crate::equal::are_equal;
use crate::trees::add;
use cil_base::{IntKind, LabelId};
use cil_control::{Table, add_cases, add_labels, behind};
use cil_tree::Stmt;
use std::alloc::{AllocError, Global};
use std::process::Abort;
use std::test::Fail;
use type_graph::TypeGraph;

// `while (1) { 0: ; break; } 1: ;`
fn looped(alloc: Global) -> Result<Vec<Stmt>, AllocError> {
    let mut body = Vec::new(alloc);
    add(&mut body, Stmt::Label(LabelId(0)))?;
    add(&mut body, Stmt::Break)?;
    let mut stmts = Vec::new(alloc);
    add(&mut stmts, Stmt::Loop(body))?;
    add(&mut stmts, Stmt::Label(LabelId(1)))?;
    Ok(stmts)
}

// `{ case 5: break; } default: break;`
fn cases(alloc: Global) -> Result<Vec<Stmt>, AllocError> {
    let mut first = Vec::new(alloc);
    add(&mut first, Stmt::Case(IntKind::Int, 5))?;
    add(&mut first, Stmt::Break)?;
    let mut stmts = Vec::new(alloc);
    add(&mut stmts, Stmt::Block(first))?;
    add(&mut stmts, Stmt::Default)?;
    add(&mut stmts, Stmt::Break)?;
    Ok(stmts)
}

fn labels_are(rt: &impl Abort, alloc: Global, stmts: &[Stmt], places: &[usize]) {
    let g = TypeGraph::new(alloc);
    let mut found = Vec::new(alloc);
    are_equal(
        rt,
        &[
            (add_labels(&g, stmts, 0, &mut found), Ok(3)),
            (behind(&g, stmts, 7), Ok(10)),
        ],
    );
    are_equal(rt, &[(found.as_slice(), places)]);
}

#[test]
fn labels_stand_at_the_steps_behind_them(rt: HostRuntime) -> Result<(), Fail> {
    let stmts = looped(rt.alloc())?;
    labels_are(&rt, rt.alloc(), &stmts, &[1, 3]);
    Ok(())
}

fn cases_are(rt: &impl Abort, alloc: Global, stmts: &[Stmt], cases: &[(i128, usize)]) {
    let g = TypeGraph::new(alloc);
    let mut table = Table {
        cases: Vec::new(alloc),
        other: None,
    };
    are_equal(rt, &[(add_cases(&g, stmts, 1, &mut table), Ok(3))]);
    are_equal(rt, &[(table.cases.as_slice(), cases)]);
    are_equal(rt, &[(table.other, Some(2))]);
}

#[test]
fn cases_in_blocks_are_the_switchs(rt: HostRuntime) -> Result<(), Fail> {
    let stmts = cases(rt.alloc())?;
    cases_are(&rt, rt.alloc(), &stmts, &[(5, 1)]);
    Ok(())
}
