ghost use Rattle.std.specs.Prelude.{◌≡◌, ◌++◌, IfOk, OnOk, IsTrue, false, []};
ghost use Rattle.cil_tree.specs.View.{stmt_of, stmts_of};
ghost use Rattle.cil_check.specs.Statements.{marks_of, marks_in, once, switch_is_once, is_first, seen_with, default_with};

use crate::scope::Scope;
use cil_base::Memory;
use cil_tree::Stmt;
use indexmap::IndexSet;
use std::alloc::Global;

/// Adds the case labels of a switch with these statements, by their values, and its default labels, as `None`.
///
/// After Memory some of them are added.
#[cycle(marks)]
#[tactic(auto, using(crate::proofs::StatementSteps::marks_from))]
fn add_marks(s: &Scope, stmts: &[Stmt], marks: &mut Vec<Option<i128>>) -> Result<(), Memory>
    ensures { OnOk result (marks.new.items ≡ marks.old.items ++ marks_of (stmts_of s.now.unit.now.graph.nodes stmts.now)) }
{
    for i in 0..stmts.len() {
        add_marks_of(s, &stmts[i], marks)?;
    }
    Ok(())
}

/// Adds those of one statement. Those of a switch within are its own.
#[cycle(marks)]
#[tactic(auto, using(cil_tree::proofs::Views::at_if, cil_tree::proofs::Views::at_loop, cil_tree::proofs::Views::at_block))]
fn add_marks_of(s: &Scope, x: &Stmt, marks: &mut Vec<Option<i128>>) -> Result<(), Memory>
    ensures { OnOk result (marks.new.items ≡ marks.old.items ++ marks_in (stmt_of s.now.unit.now.graph.nodes x.now)) }
{
    match x {
        Stmt::If(_, holds, fails) => {
            add_marks(s, holds, marks)?;
            add_marks(s, fails, marks)
        }
        Stmt::Loop(body) | Stmt::Block(body) => add_marks(s, body, marks),
        Stmt::Case(_, value) => {
            marks.push(Some(*value))?;
            Ok(())
        }
        Stmt::Default => {
            marks.push(None)?;
            Ok(())
        }
        Stmt::Instr(_)
        | Stmt::Switch(..)
        | Stmt::Label(_)
        | Stmt::Goto(_)
        | Stmt::Break
        | Stmt::Return(_) => Ok(()),
    }
}

/// What a switch was seen to have: values of cases, and a default label.
#[derive(Drop)]
struct Marked {
    values: IndexSet<i128>,
    has_default: bool,
}

impl Marked {
    /// Notes a case by its value, or a default label. It answers whether it was the first.
    fn note(&mut self, mark: Option<i128>) -> Result<bool, Memory>
        ensures first { IfOk result (λ b. b ≡ is_first self.old.values.keys self.old.has_default mark) }
        ensures noted { IfOk result (λ b. IsTrue b → (self.new.values.keys ≡ seen_with self.old.values.keys mark) × (self.new.has_default ≡ default_with self.old.has_default mark)) }
    {
        match mark {
            Some(value) => {
                let (_place, is_new) = self.values.insert_full(value)?;
                Ok(is_new)
            }
            None => {
                let is_new = !self.has_default;
                self.has_default = true;
                Ok(is_new)
            }
        }
    }
}

/// Whether no value stands twice, and at most one default label.
fn are_once(alloc: Global, marks: &[Option<i128>]) -> Result<bool, Memory>
    ensures { IfOk result (λ b. b ≡ once [] false marks.now) }
{
    let mut marked = Marked {
        values: IndexSet::new(alloc),
        has_default: false,
    };
    for i in 0..marks.len() {
        if !marked.note(marks[i])? {
            return Ok(false);
        }
    }
    Ok(true)
}

/// Whether no two cases of a switch have one value, and it has at most one default (C11 6.8.4.2p3).
///
/// Memory comes only for want of memory.
#[tactic(auto, using(crate::proofs::SwitchLaws::once_is))]
pub(crate) fn cases_are_once(s: &Scope, body: &[Stmt]) -> Result<bool, Memory>
    ensures { IfOk result (λ b. b ≡ switch_is_once (stmts_of s.now.unit.now.graph.nodes body.now)) }
{
    let alloc = s.unit.graph.alloc();
    let mut marks = Vec::new(alloc);
    add_marks(s, body, &mut marks)?;
    are_once(alloc, &marks)
}
