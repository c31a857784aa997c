use crate::equal::are_equal;
use crate::trees::{add, boxed_exp};
use byte_mem::Store;
use cil_base::{IntKind, LabelId, Memory, NamePool, UnOp};
use cil_check::Scope;
use cil_code::{Onward, Step, load, take};
use cil_machine::Setting;
use cil_tree::{Body, CilUnit, Exp, Stmt};
use layout_lp64::Layouts;
use std::alloc::{AllocError, Global};
use std::test::Fail;
use type_graph::TypeGraph;

// `if ( 1 ) { } else { goto 0; } 0: ; return;`
fn body(alloc: Global) -> Result<Vec<Stmt>, AllocError> {
    let mut fails = Vec::new(alloc);
    add(&mut fails, Stmt::Goto(LabelId(0)))?;
    let mut stmts = Vec::new(alloc);
    add(
        &mut stmts,
        Stmt::If(Exp::Const(IntKind::Int, 1), Vec::new(alloc), fails),
    )?;
    add(&mut stmts, Stmt::Label(LabelId(0)))?;
    add(&mut stmts, Stmt::Return(None))?;
    Ok(stmts)
}

// The place that a step names, if it names one.
fn named(code: &[Step], p: usize) -> Option<usize> {
    match code.get(p) {
        Some(Step::Test(_, _, q)) => Some(*q),
        Some(Step::Forward(q)) => Some(*q),
        Some(Step::Back(q)) => Some(*q),
        _ => None,
    }
}

// The steps of a body in a unit without globals.
fn loaded_in(alloc: Global, unit: &CilUnit, function: &Body) -> Result<Vec<Step>, Memory> {
    let Ok(layouts) = Layouts::of_graph(alloc, &unit.graph) else {
        return Err(Memory);
    };
    let names = NamePool::new(alloc);
    let setting = Setting {
        alloc,
        scope: Scope {
            unit,
            names: &names,
            body: function,
        },
        layouts: &layouts,
        entities: &[],
    };
    load(&setting, &function.stmts)
}

fn loaded(alloc: Global, stmts: Vec<Stmt>) -> Result<Vec<Step>, Memory> {
    let unit = CilUnit {
        graph: TypeGraph::new(alloc),
        globals: Vec::new(alloc),
    };
    let function = Body {
        params: Vec::new(alloc),
        locals: Vec::new(alloc),
        labels: Vec::new(alloc),
        stmts,
    };
    loaded_in(alloc, &unit, &function)
}

#[test]
fn a_body_is_loaded_with_its_targets(rt: HostRuntime) -> Result<(), Fail> {
    let code = loaded(rt.alloc(), body(rt.alloc())?)?;
    are_equal(&rt, &[(code.len(), 5)]);
    are_equal(
        &rt,
        &[
            (named(&code, 0), Some(2)),
            (named(&code, 1), Some(3)),
            (named(&code, 2), Some(3)),
            (named(&code, 3), None),
        ],
    );
    Ok(())
}

// Adds `case value: return;`.
fn add_case(stmts: &mut Vec<Stmt>, value: i128) -> Result<(), AllocError> {
    add(stmts, Stmt::Case(IntKind::Int, value))?;
    add(stmts, Stmt::Return(None))
}

// `case 4: return; case -2147483648: return; case 4: return; case 2147483647: return; case -1: return; default: return;`
fn cases(alloc: Global) -> Result<Vec<Stmt>, AllocError> {
    let mut cases = Vec::new(alloc);
    for value in [4, -2147483648, 4, 2147483647, -1] {
        add_case(&mut cases, value)?;
    }
    add(&mut cases, Stmt::Default)?;
    add(&mut cases, Stmt::Return(None))?;
    Ok(cases)
}

// The place that a step leads to without a spent unit.
fn place(onward: Option<Onward>) -> Option<usize> {
    match onward {
        Some(Onward::At(q)) => Some(q),
        _ => None,
    }
}

// The place that the first step leads to.
fn first_place(mem: &mut Store, code: &[Step]) -> Result<Option<usize>, Memory> {
    match code.get(0) {
        Some(step) => Ok(place(take(mem, 0, 0, step)?)),
        None => Ok(None),
    }
}

// A switch over these cases.
fn switch(alloc: Global, e: Box<Exp>) -> Result<Vec<Stmt>, AllocError> {
    let cases = cases(alloc)?;
    let mut stmts = Vec::new(alloc);
    add(&mut stmts, Stmt::Switch(Box::into_inner(e), cases))?;
    Ok(stmts)
}

// The place that it leads to.
fn chosen(alloc: Global, e: Box<Exp>) -> Result<Option<usize>, Memory> {
    let stmts = switch(alloc, e)?;
    let code = loaded(alloc, stmts)?;
    first_place(&mut Store::new(alloc), &code)
}

// The place that the switch of an int that is not negative leads to.
fn of_number(alloc: Global, n: u64) -> Result<Option<usize>, Memory> {
    let e = boxed_exp(alloc, Exp::Const(IntKind::Int, n))?;
    chosen(alloc, e)
}

// That of `~n`, which is `-n - 1` (C11 6.5.3.3p4).
fn of_complement(alloc: Global, n: u64) -> Result<Option<usize>, Memory> {
    let n = boxed_exp(alloc, Exp::Const(IntKind::Int, n))?;
    let e = boxed_exp(alloc, Exp::Un(UnOp::Compl, n))?;
    chosen(alloc, e)
}

#[test]
fn a_switch_finds_the_first_case_with_the_value(rt: HostRuntime) {
    let alloc = rt.alloc();
    are_equal(
        &rt,
        &[
            (of_number(alloc, 4), Ok(Some(1))),
            (of_complement(alloc, 2147483647), Ok(Some(2))),
            (of_number(alloc, 2147483647), Ok(Some(4))),
            (of_complement(alloc, 0), Ok(Some(5))),
        ],
    );
}

#[test]
fn a_switch_without_the_case_leads_to_its_default(rt: HostRuntime) {
    let alloc = rt.alloc();
    are_equal(
        &rt,
        &[
            (of_number(alloc, 0), Ok(Some(6))),
            (of_number(alloc, 5), Ok(Some(6))),
            (of_number(alloc, 2147483646), Ok(Some(6))),
            (of_complement(alloc, 2147483646), Ok(Some(6))),
        ],
    );
}
