ghost use Rattle.std.specs.Prelude.{◌≡◌, ◌+◌, ◌++◌, IfOk, OnOk, Some};
ghost use Rattle.cil_tree.specs.View.{stmt_of, stmts_of};
ghost use Rattle.cil_control.specs.Remains.{steps, steps_in};
ghost use Rattle.cil_control.specs.Flat.{labels_at, labels_from, cases_at, cases_from, default_at, default_from, or_else};

use cil_base::Memory;
use cil_tree::Stmt;
use type_graph::TypeGraph;

/// The next place. More places than a number can tell are told as want of memory.
pub fn next(p: usize) -> Result<usize, Memory>
    ensures { IfOk result (λ q. q ≡ p + 1) }
{
    match p.checked_add(1) {
        Some(q) => Ok(q),
        None => Err(Memory),
    }
}

/// The place behind statements that begin at a place.
#[cycle(behind)]
#[tactic(auto, using(crate::proofs::Walks::steps_next))]
pub fn behind(g: &TypeGraph, stmts: &[Stmt], p: usize) -> Result<usize, Memory>
    ensures { IfOk result (λ q. q ≡ p + steps_in (stmts_of g.now.nodes stmts.now)) }
{
    let mut at = p;
    for i in 0..stmts.len() {
        at = behind_one(g, &stmts[i], at)?;
    }
    Ok(at)
}

/// The place behind a statement that begins at a place.
#[cycle(behind)]
#[tactic(auto, using(cil_tree::proofs::Views::at_if, cil_tree::proofs::Views::at_switch, cil_tree::proofs::Views::at_loop, cil_tree::proofs::Views::at_block))]
fn behind_one(g: &TypeGraph, x: &Stmt, p: usize) -> Result<usize, Memory>
    ensures { IfOk result (λ q. q ≡ p + steps (stmt_of g.now.nodes x.now)) }
{
    match x {
        Stmt::If(_, holds, fails) => {
            let at = behind(g, holds, next(p)?)?;
            behind(g, fails, next(at)?)
        }
        Stmt::Switch(_, body) => behind(g, body, next(p)?),
        Stmt::Loop(body) => next(behind(g, body, next(p)?)?),
        Stmt::Block(body) => behind(g, body, p),
        Stmt::Label(_) | Stmt::Case(..) | Stmt::Default => Ok(p),
        Stmt::Instr(_) | Stmt::Goto(_) | Stmt::Break | Stmt::Return(_) => next(p),
    }
}

/// Adds the places of the labels in statements that begin at a place, in the order of the text. It answers the place
/// behind the statements.
///
/// After Memory some of them are added.
#[cycle(labels)]
#[tactic(auto, using(crate::proofs::Walks::steps_next, crate::proofs::Walks::labels_next))]
pub fn add_labels(
    g: &TypeGraph,
    stmts: &[Stmt],
    p: usize,
    places: &mut Vec<usize>,
) -> Result<usize, Memory>
    ensures behind { IfOk result (λ q. q ≡ p + steps_in (stmts_of g.now.nodes stmts.now)) }
    ensures added { OnOk result (places.new.items ≡ places.old.items ++ labels_from p (stmts_of g.now.nodes stmts.now)) }
{
    let mut at = p;
    for i in 0..stmts.len() {
        at = add_labels_of(g, &stmts[i], at, places)?;
    }
    Ok(at)
}

/// Adds those of one statement.
#[cycle(labels)]
#[tactic(auto, using(cil_tree::proofs::Views::at_if, cil_tree::proofs::Views::at_switch, cil_tree::proofs::Views::at_loop, cil_tree::proofs::Views::at_block))]
fn add_labels_of(
    g: &TypeGraph,
    x: &Stmt,
    p: usize,
    places: &mut Vec<usize>,
) -> Result<usize, Memory>
    ensures behind { IfOk result (λ q. q ≡ p + steps (stmt_of g.now.nodes x.now)) }
    ensures added { OnOk result (places.new.items ≡ places.old.items ++ labels_at p (stmt_of g.now.nodes x.now)) }
{
    match x {
        Stmt::If(_, holds, fails) => {
            let at = add_labels(g, holds, next(p)?, places)?;
            add_labels(g, fails, next(at)?, places)
        }
        Stmt::Switch(_, body) => add_labels(g, body, next(p)?, places),
        Stmt::Loop(body) => next(add_labels(g, body, next(p)?, places)?),
        Stmt::Block(body) => add_labels(g, body, p, places),
        Stmt::Label(_) => {
            places.push(p)?;
            Ok(p)
        }
        Stmt::Case(..) | Stmt::Default => Ok(p),
        Stmt::Instr(_) | Stmt::Goto(_) | Stmt::Break | Stmt::Return(_) => next(p),
    }
}

/// Where the values of a switch lead to: the cases with their places, and the place of the default.
#[derive(Drop)]
pub struct Table {
    pub cases: Vec<(i128, usize)>,
    pub other: Option<usize>,
}

/// Adds the cases of a switch with these statements, which begin at a place, and its default where there is none yet. It
/// answers the place behind the statements.
///
/// After Memory some of them are added.
#[cycle(cases)]
#[tactic(auto, using(crate::proofs::Walks::steps_next, crate::proofs::Walks::cases_next, crate::proofs::Walks::default_next))]
pub fn add_cases(
    g: &TypeGraph,
    stmts: &[Stmt],
    p: usize,
    table: &mut Table,
) -> Result<usize, Memory>
    ensures behind { IfOk result (λ q. q ≡ p + steps_in (stmts_of g.now.nodes stmts.now)) }
    ensures cases { OnOk result (table.new.cases.items ≡ table.old.cases.items ++ cases_from p (stmts_of g.now.nodes stmts.now)) }
    ensures other { OnOk result (table.new.other ≡ or_else table.old.other (default_from p (stmts_of g.now.nodes stmts.now))) }
{
    let mut at = p;
    for i in 0..stmts.len() {
        at = add_cases_of(g, &stmts[i], at, table)?;
    }
    Ok(at)
}

/// Adds those of one statement. Those of a switch within are its own.
#[cycle(cases)]
#[tactic(auto, using(cil_tree::proofs::Views::at_if, cil_tree::proofs::Views::at_switch, cil_tree::proofs::Views::at_loop, cil_tree::proofs::Views::at_block))]
fn add_cases_of(g: &TypeGraph, x: &Stmt, p: usize, table: &mut Table) -> Result<usize, Memory>
    ensures behind { IfOk result (λ q. q ≡ p + steps (stmt_of g.now.nodes x.now)) }
    ensures cases { OnOk result (table.new.cases.items ≡ table.old.cases.items ++ cases_at p (stmt_of g.now.nodes x.now)) }
    ensures other { OnOk result (table.new.other ≡ or_else table.old.other (default_at p (stmt_of g.now.nodes x.now))) }
{
    match x {
        Stmt::If(_, holds, fails) => {
            let at = add_cases(g, holds, next(p)?, table)?;
            add_cases(g, fails, next(at)?, table)
        }
        Stmt::Switch(_, body) => behind(g, body, next(p)?),
        Stmt::Loop(body) => next(add_cases(g, body, next(p)?, table)?),
        Stmt::Block(body) => add_cases(g, body, p, table),
        Stmt::Case(_, value) => {
            table.cases.push((*value, p))?;
            Ok(p)
        }
        Stmt::Default => {
            add_default(table, p);
            Ok(p)
        }
        Stmt::Label(_) => Ok(p),
        Stmt::Instr(_) | Stmt::Goto(_) | Stmt::Break | Stmt::Return(_) => next(p),
    }
}

/// Adds a default at a place, where there is none yet.
fn add_default(table: &mut Table, p: usize)
    ensures cases { table.new.cases ≡ table.old.cases }
    ensures other { table.new.other ≡ or_else table.old.other (Some p) }
{
    if table.other.is_none() {
        table.other = Some(p);
    }
}
