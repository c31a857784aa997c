ghost use Rattle.std.specs.Prelude.{◌≡◌, ◌<◌, ◌&&◌, true, IfOk, is_some, length, nat_lt};
ghost use Rattle.type_graph.specs.Shapes.{shape};
ghost use Rattle.cil_tree.specs.View.{stmt_of, stmts_of};
ghost use Rattle.cil_tree.specs.Bodies.{case_fits};
ghost use Rattle.cil_check.specs.Seen.{seen_scope};
ghost use Rattle.cil_check.specs.Statements.{keeps_rules, keep_rules, switch_is_once};

use crate::instructions::{instr_fits, return_fits, switch_kind, test_fits};
use crate::scope::Scope;
use crate::switches::cases_are_once;
use cil_base::{Abi, IntKind, Memory, TypeId};
use cil_tree::Stmt;

/// Where a statement stands: the kind of the innermost switch around it, whether it is in a loop or switch, and the
/// result of its function.
#[derive(Clone, Copy)]
pub(crate) struct Place {
    pub(crate) ret: TypeId,
    pub(crate) switch: Option<IntKind>,
    pub(crate) inside: bool,
}

impl Place {
    /// The place within a switch whose expression has that kind, if it has one.
    fn in_switch(self, switch: Option<IntKind>) -> Self
        ensures { result ≡ record self { switch = switch; inside = true } }
    {
        Place {
            ret: self.ret,
            switch,
            inside: true,
        }
    }

    /// The place within a loop.
    fn in_loop(self) -> Self
        ensures { result ≡ record self { inside = true } }
    {
        Place {
            ret: self.ret,
            switch: self.switch,
            inside: true,
        }
    }
}

/// Whether a switch fits of whose expression the kind is given, if it has one, and whose body keeps its rules or not.
///
/// Memory comes only for want of memory.
fn switch_fits(s: &Scope, kind: Option<IntKind>, body: &[Stmt], kept: bool) -> Result<bool, Memory>
    ensures { IfOk result (λ b. b ≡ (is_some kind && (switch_is_once (stmts_of s.now.unit.now.graph.nodes body.now) && kept))) }
{
    if kind.is_none() {
        return Ok(false);
    }
    if !kept {
        return Ok(false);
    }
    cases_are_once(s, body)
}

/// Whether a case label fits: it stands in a switch, and is a value of the kind of its expression, which the data model
/// has (C11 6.8.1p2, 6.8.4.2p5).
fn case_fits(abi: Abi, switch: Option<IntKind>, kind: IntKind, value: i128) -> bool
    ensures { result ≡ case_fits abi switch kind value }
{
    match switch {
        None => false,
        Some(k) => kind == k && kind.is_of(abi) && kind.fits(value),
    }
}

/// Whether a label is one of the function's (C11 6.8.6.1p1).
fn is_label(s: &Scope, number: u32) -> bool
    ensures { result ≡ nat_lt number (length (seen_scope s.now).labels) }
{
    (number as usize) < s.body.labels.len()
}

/// Whether statements keep their rules, but for the numbers of labels.
///
/// Memory comes only for want of memory.
#[cycle(statements)]
#[tactic(auto, using(crate::proofs::StatementSteps::keep_from))]
pub(crate) fn keep_rules(s: &Scope, at: Place, stmts: &[Stmt]) -> Result<bool, Memory>
    requires { at.ret.0 < length s.now.unit.now.graph.nodes }
    ensures { IfOk result (λ b. b ≡ keep_rules (seen_scope s.now) (shape s.now.unit.now.graph.nodes at.ret.0) at.switch at.inside (stmts_of s.now.unit.now.graph.nodes stmts.now)) }
{
    for i in 0..stmts.len() {
        if !keeps_rules(s, at, &stmts[i])? {
            return Ok(false);
        }
    }
    Ok(true)
}

/// Whether a statement and those within it keep their rules.
#[cycle(statements)]
#[tactic(auto, using(cil_tree::proofs::Views::at_if, cil_tree::proofs::Views::at_switch, cil_tree::proofs::Views::at_loop, cil_tree::proofs::Views::at_block))]
fn keeps_rules(s: &Scope, at: Place, x: &Stmt) -> Result<bool, Memory>
    requires { at.ret.0 < length s.now.unit.now.graph.nodes }
    ensures { IfOk result (λ b. b ≡ keeps_rules (seen_scope s.now) (shape s.now.unit.now.graph.nodes at.ret.0) at.switch at.inside (stmt_of s.now.unit.now.graph.nodes x.now)) }
{
    match x {
        Stmt::Instr(instr) => Ok(instr_fits(s, instr)),
        Stmt::If(test, holds, fails) => {
            if !test_fits(s, test) {
                return Ok(false);
            }
            if !keep_rules(s, at, holds)? {
                return Ok(false);
            }
            keep_rules(s, at, fails)
        }
        Stmt::Switch(value, body) => {
            let kind = switch_kind(s, value);
            let kept = keep_rules(s, at.in_switch(kind), body)?;
            switch_fits(s, kind, body, kept)
        }
        Stmt::Loop(body) => keep_rules(s, at.in_loop(), body),
        Stmt::Block(body) => keep_rules(s, at, body),
        Stmt::Label(_) => Ok(true),
        Stmt::Case(kind, value) => Ok(case_fits(s.unit.graph.abi(), at.switch, *kind, *value)),
        Stmt::Default => Ok(at.switch.is_some()),
        Stmt::Goto(label) => Ok(is_label(s, label.0)),
        Stmt::Break => Ok(at.inside),
        Stmt::Return(value) => Ok(return_fits(s, at.ret, value)),
    }
}
