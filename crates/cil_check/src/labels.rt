ghost use Rattle.std.specs.Prelude.{◌≡◌, ◌++◌, IfOk, OnOk};
ghost use Rattle.cil_tree.specs.View.{stmt_of, stmts_of};
ghost use Rattle.cil_tree.specs.Bodies.{labels_of, labels_in, labels_fit};
ghost use Rattle.cil_check.specs.Seen.{seen_scope};
ghost use Rattle.cil_check.specs.Statements.{numbered};

use crate::scope::Scope;
use cil_base::Memory;
use cil_tree::Stmt;

/// Adds the labels that statements set, by number, in the order of the text.
///
/// After Memory some of them are added.
#[cycle(labels)]
#[tactic(auto, using(crate::proofs::StatementSteps::labels_from))]
fn add_labels(s: &Scope, stmts: &[Stmt], labels: &mut Vec<u32>) -> Result<(), Memory>
    ensures { OnOk result (labels.new.items ≡ labels.old.items ++ labels_of (stmts_of s.now.unit.now.graph.nodes stmts.now)) }
{
    for i in 0..stmts.len() {
        add_labels_of(s, &stmts[i], labels)?;
    }
    Ok(())
}

/// Adds those of one statement and those within it.
#[cycle(labels)]
#[tactic(auto, using(cil_tree::proofs::Views::at_switch, cil_tree::proofs::Views::at_loop, cil_tree::proofs::Views::at_block))]
fn add_labels_of(s: &Scope, x: &Stmt, labels: &mut Vec<u32>) -> Result<(), Memory>
    ensures { OnOk result (labels.new.items ≡ labels.old.items ++ labels_in (stmt_of s.now.unit.now.graph.nodes x.now)) }
{
    match x {
        Stmt::If(_, holds, fails) => {
            add_labels(s, holds, labels)?;
            add_labels(s, fails, labels)
        }
        Stmt::Switch(_, body) => add_labels(s, body, labels),
        Stmt::Loop(body) | Stmt::Block(body) => add_labels(s, body, labels),
        Stmt::Label(label) => {
            labels.push(label.0)?;
            Ok(())
        }
        Stmt::Instr(_)
        | Stmt::Case(..)
        | Stmt::Default
        | Stmt::Goto(_)
        | Stmt::Break
        | Stmt::Return(_) => Ok(()),
    }
}

/// Whether these are the numbers from 0 on, as many as are counted.
#[tactic(auto, using(crate::proofs::LabelLaws::numbered_from))]
fn are_numbered(labels: &[u32], count: usize) -> bool
    ensures { result ≡ numbered 0 count labels.now }
{
    for i in 0..labels.len() {
        if labels[i] as usize != i {
            return false;
        }
    }
    labels.len() == count
}

/// Whether the labels of a function are numbered in the order in which the text sets them, each once, and there are
/// as many names.
///
/// Memory comes only for want of memory.
#[tactic(auto, using(crate::proofs::LabelLaws::labels_are))]
pub(crate) fn labels_fit(s: &Scope) -> Result<bool, Memory>
    ensures { IfOk result (λ b. b ≡ labels_fit (seen_scope s.now) (stmts_of s.now.unit.now.graph.nodes s.now.body.now.stmts.items)) }
{
    let mut labels = Vec::new(s.unit.graph.alloc());
    add_labels(s, &s.body.stmts, &mut labels)?;
    Ok(are_numbered(&labels, s.body.labels.len()))
}
