ghost use Rattle.std.specs.Prelude.{◌≡◌, ◌<◌, ◌+◌, ℕ, suc, List, [], ◌∷◌, Option, None, IfOk, OnOk, length, slice_get};
ghost use Rattle.layout_lp64.specs.Tables.{InStep};
ghost use Rattle.cil_tree.specs.View.{exp_of, instr_of, stmt_of, stmts_of};
ghost use Rattle.cil_tree.specs.Typing.{Scope as Within};
ghost use Rattle.cil_check.specs.Seen.{seen_scope};
ghost use Rattle.cil_control.specs.Remains.{steps_in};
ghost use Rattle.cil_control.specs.Flat as flat;
ghost use Rattle.cil_control.specs.Flat.{steps_at, steps_from, cases_from, default_from, place_or, body_steps, labels_from};
ghost use Rattle.cil_code.specs.Leading.{LeadOn};
ghost use Rattle.cil_code.specs.Doing.{IsStep, AreSteps, HasGot};

use crate::building::{
    break_step, call_step, choice_step, jump_step, leave_step, set_step, test_step, zero_step,
};
use crate::steps::Step;
use cil_base::Memory;
use cil_control::{Table, add_cases, add_labels, behind, next};
use cil_machine::Setting;
use cil_tree::{Exp, Instr, Stmt};

/// The step of an instruction.
fn instr_step(s: &Setting, i: &Instr) -> Result<Step, Memory>
    requires { InStep s.now.layouts.now s.now.scope.unit.now.graph }
    ensures { IfOk result (IsStep (seen_scope s.now.scope) s.now.entities.now (flat.Act (instr_of s.now.scope.unit.now.graph.nodes i.now))) }
{
    match i {
        Instr::Set(place, value) => set_step(s, place, value),
        Instr::Zero(place) => zero_step(s, place),
        Instr::Call(to, callee, arguments) => call_step(s, to, callee, arguments),
    }
}

/// Adds a step.
#[tactic(auto, using(crate::proofs::Loads::got_one))]
fn push(code: &mut Vec<Step>, step: Step) -> Result<(), Memory>
    ensures { (c : Within) (es : List ℕ) (x : flat.Step) → IsStep c es x step → OnOk result (HasGot c es (x ∷ []) code.old.items code.new.items) }
{
    code.push(step)?;
    Ok(())
}

/// Adds the test of an `if`, and answers the place behind its sides.
fn push_test(
    s: &Setting,
    e: &Exp,
    holds: &[Stmt],
    fails: &[Stmt],
    code: &mut Vec<Step>,
) -> Result<usize, Memory>
    requires { InStep s.now.layouts.now s.now.scope.unit.now.graph }
    ensures behind { IfOk result (λ q. q ≡ suc (suc (length code.old.items) + steps_in (stmts_of s.now.scope.unit.now.graph.nodes holds.now)) + steps_in (stmts_of s.now.scope.unit.now.graph.nodes fails.now)) }
    ensures got { OnOk result (HasGot (seen_scope s.now.scope) s.now.entities.now (flat.Test (exp_of s.now.scope.unit.now.graph.nodes e.now) (suc (suc (length code.old.items) + steps_in (stmts_of s.now.scope.unit.now.graph.nodes holds.now))) ∷ []) code.old.items code.new.items) }
{
    let graph = &s.scope.unit.graph;
    let at = next(behind(graph, holds, next(code.len())?)?)?;
    let q = behind(graph, fails, at)?;
    push(code, test_step(s, e, at)?)?;
    Ok(q)
}

/// Adds the step of a switch, and answers the place behind its body.
fn push_choice(s: &Setting, e: &Exp, body: &[Stmt], code: &mut Vec<Step>) -> Result<usize, Memory>
    requires { InStep s.now.layouts.now s.now.scope.unit.now.graph }
    ensures behind { IfOk result (λ q. q ≡ suc (length code.old.items) + steps_in (stmts_of s.now.scope.unit.now.graph.nodes body.now)) }
    ensures got { OnOk result (HasGot (seen_scope s.now.scope) s.now.entities.now (flat.Choose (exp_of s.now.scope.unit.now.graph.nodes e.now)
        (cases_from (suc (length code.old.items)) (stmts_of s.now.scope.unit.now.graph.nodes body.now))
        (place_or (suc (length code.old.items) + steps_in (stmts_of s.now.scope.unit.now.graph.nodes body.now)) (default_from (suc (length code.old.items)) (stmts_of s.now.scope.unit.now.graph.nodes body.now))) ∷ []) code.old.items code.new.items) }
{
    let mut table = Table {
        cases: Vec::new(s.alloc),
        other: None,
    };
    let q = add_cases(&s.scope.unit.graph, body, next(code.len())?, &mut table)?;
    let other = match table.other {
        Some(p) => p,
        None => q,
    };
    push(code, choice_step(s, e, table.cases, other)?)?;
    Ok(q)
}

/// Adds the step before the body of a loop, and answers the place behind the loop.
fn push_turn(s: &Setting, body: &[Stmt], code: &mut Vec<Step>) -> Result<usize, Memory>
    ensures behind { IfOk result (λ q. q ≡ suc (suc (length code.old.items) + steps_in (stmts_of s.now.scope.unit.now.graph.nodes body.now))) }
    ensures got { OnOk result (HasGot (seen_scope s.now.scope) s.now.entities.now (flat.Back (suc (length code.old.items)) ∷ []) code.old.items code.new.items) }
{
    let first = next(code.len())?;
    let q = next(behind(&s.scope.unit.graph, body, first)?)?;
    push(code, Step::Back(first))?;
    Ok(q)
}

/// Adds the steps of statements, in a loop or switch that ends at a place.
///
/// After Memory some of them are added.
#[cycle(loading)]
#[tactic(auto, using(crate::proofs::Loads::completes_all, crate::proofs::Loads::completes_next, crate::proofs::Loads::completes_end))]
fn push_all(
    s: &Setting,
    labels: &[usize],
    stmts: &[Stmt],
    end: Option<usize>,
    code: &mut Vec<Step>,
) -> Result<(), Memory>
    requires { InStep s.now.layouts.now s.now.scope.unit.now.graph }
    ensures { OnOk result (HasGot (seen_scope s.now.scope) s.now.entities.now (steps_from (slice_get labels.now) (length code.old.items) end (stmts_of s.now.scope.unit.now.graph.nodes stmts.now)) code.old.items code.new.items) }
{
    for i in 0..stmts.len() {
        push_one(s, labels, &stmts[i], end, code)?;
    }
    Ok(())
}

/// Adds the steps of a statement.
#[cycle(loading)]
#[tactic(auto, using(cil_tree::proofs::Views::at_block, crate::proofs::Loads::got_nothing))]
fn push_one(
    s: &Setting,
    labels: &[usize],
    x: &Stmt,
    end: Option<usize>,
    code: &mut Vec<Step>,
) -> Result<(), Memory>
    requires { InStep s.now.layouts.now s.now.scope.unit.now.graph }
    ensures { OnOk result (HasGot (seen_scope s.now.scope) s.now.entities.now (steps_at (slice_get labels.now) (length code.old.items) end (stmt_of s.now.scope.unit.now.graph.nodes x.now)) code.old.items code.new.items) }
{
    match x {
        Stmt::Instr(i) => push(code, instr_step(s, i)?),
        Stmt::If(e, holds, fails) => {
            let q = push_test(s, e, holds, fails, code)?;
            push_all(s, labels, holds, end, code)?;
            push(code, Step::Forward(q))?;
            push_all(s, labels, fails, end, code)
        }
        Stmt::Switch(e, body) => {
            let q = push_choice(s, e, body, code)?;
            push_all(s, labels, body, Some(q), code)
        }
        Stmt::Loop(body) => {
            let first = next(code.len())?;
            let q = push_turn(s, body, code)?;
            push_all(s, labels, body, Some(q), code)?;
            push(code, Step::Back(first))
        }
        Stmt::Block(body) => push_all(s, labels, body, end, code),
        Stmt::Label(_) | Stmt::Case(..) | Stmt::Default => Ok(()),
        Stmt::Goto(label) => push_jump(labels, label.0 as usize, code),
        Stmt::Break => push(code, break_step(end)),
        Stmt::Return(value) => push(code, leave_step(s, value)?),
    }
}

/// Adds a jump to a label.
fn push_jump(labels: &[usize], label: usize, code: &mut Vec<Step>) -> Result<(), Memory>
    ensures { (c : Within) (es : List ℕ) → OnOk result (HasGot c es (flat.jump (length code.old.items) (slice_get labels.now label) ∷ []) code.old.items code.new.items) }
{
    let at = label_place(labels, label);
    push(code, jump_step(code.len(), at))
}

/// The place of a label, if there is one.
fn label_place(labels: &[usize], label: usize) -> Option<usize>
    ensures { result ≡ slice_get labels.now label }
{
    match labels.get(label) {
        Some(p) => Some(*p),
        None => None,
    }
}

/// The steps of a body, with which its run goes on from place to place. There is at least one, and each leads to places
/// of the list, and further on but by a spent unit (own). Memory comes only for want of memory, which a place that no
/// number can tell counts as.
#[tactic(auto, using(crate::proofs::Loads::load_done, crate::proofs::StepMeanings::leave_is))]
pub fn load(s: &Setting, body: &[Stmt]) -> Result<Vec<Step>, Memory>
    requires { InStep s.now.layouts.now s.now.scope.unit.now.graph }
    ensures steps { IfOk result (λ code. AreSteps (seen_scope s.now.scope) s.now.entities.now (body_steps (slice_get (labels_from 0 (stmts_of s.now.scope.unit.now.graph.nodes body.now))) (stmts_of s.now.scope.unit.now.graph.nodes body.now)) code.items) }
    ensures leads { IfOk result (λ code. LeadOn code.items) }
    ensures first { IfOk result (λ code. 0 < length code.items) }
{
    let mut labels = Vec::new(s.alloc);
    add_labels(&s.scope.unit.graph, body, 0, &mut labels)?;
    let mut code = Vec::new(s.alloc);
    push_all(s, &labels, body, None, &mut code)?;
    push(&mut code, Step::Leave(None))?;
    Ok(code)
}
