ghost use Rattle.std.specs.Prelude.{◌<◌, ℕ, List, Option, IfOk, IfSome, length, map};
ghost use Rattle.layout_lp64.specs.Tables.{InStep};
ghost use Rattle.cil_tree.specs.Tree as plain;
ghost use Rattle.cil_tree.specs.Typing.{Scope as Within};
ghost use Rattle.cil_tree.specs.View.{exp_of, lval_of, callee_of};
ghost use Rattle.std.specs.Option.{option_map};
ghost use Rattle.cil_check.specs.Seen.{seen_scope, IsThere};
ghost use Rattle.cil_machine.specs.Typed.{IsTyped, IsPlaced};
ghost use Rattle.cil_control.specs.Flat as flat;
ghost use Rattle.cil_code.specs.Doing.{IsStep};

use crate::calls::resolve_call;
use crate::cases::Cases;
use crate::operands::resolve_operand;
use crate::steps::Step;
use cil_base::Memory;
use cil_check::Seen;
use cil_machine::{Setting, Typed, TypedSpot, resolve, resolve_place, scalar_of, size_of};
use cil_tree::{Callee, Exp, Lval};

/// An assignment.
#[tactic(auto, using(crate::proofs::StepMeanings::set_is))]
pub fn set_step(s: &Setting, place: &Lval, value: &Exp) -> Result<Step, Memory>
    requires { InStep s.now.layouts.now s.now.scope.unit.now.graph }
    ensures { IfOk result (IsStep (seen_scope s.now.scope) s.now.entities.now (flat.Act (plain.Set (lval_of s.now.scope.unit.now.graph.nodes place.now) (exp_of s.now.scope.unit.now.graph.nodes value.now)))) }
{
    let at = resolve_place(s, place)?;
    Ok(Step::Set(at.spot, resolve_operand(s, value)?))
}

/// A zero fill of a place.
#[tactic(auto, using(crate::proofs::StepTypings::zero_nowhere, crate::proofs::StepTypings::zero_sized, crate::proofs::StepTypings::zero_unsized))]
fn zero_typed(s: &Setting, at: TypedSpot) -> Step
    requires step { InStep s.now.layouts.now s.now.scope.unit.now.graph }
    requires there { IfSome at.ty (λ t. t.0 < length s.now.scope.unit.now.graph.nodes) }
    ensures { (p : plain.Lval) → IsPlaced (seen_scope s.now.scope) s.now.entities.now p at → IsStep (seen_scope s.now.scope) s.now.entities.now (flat.Act (plain.Zero p)) result }
{
    match at.ty {
        None => Step::Stuck,
        Some(t) => match size_of(s, t) {
            Some(size) => Step::Zero(size, at.spot),
            None => Step::Stuck,
        },
    }
}

/// A zero fill.
pub fn zero_step(s: &Setting, place: &Lval) -> Result<Step, Memory>
    requires { InStep s.now.layouts.now s.now.scope.unit.now.graph }
    ensures { IfOk result (IsStep (seen_scope s.now.scope) s.now.entities.now (flat.Act (plain.Zero (lval_of s.now.scope.unit.now.graph.nodes place.now)))) }
{
    Ok(zero_typed(s, resolve_place(s, place)?))
}

/// A call.
#[tactic(auto, using(crate::proofs::StepMeanings::call_is))]
pub fn call_step(
    s: &Setting,
    to: &Option<Lval>,
    f: &Callee,
    arguments: &[Exp],
) -> Result<Step, Memory>
    requires { InStep s.now.layouts.now s.now.scope.unit.now.graph }
    ensures { IfOk result (IsStep (seen_scope s.now.scope) s.now.entities.now (flat.Act (plain.Call (option_map (lval_of s.now.scope.unit.now.graph.nodes) to.now) (callee_of s.now.scope.unit.now.graph.nodes f.now) (map (exp_of s.now.scope.unit.now.graph.nodes) arguments.now)))) }
{
    Ok(Step::Call(resolve_call(s, to, f, arguments)?))
}

/// A test of what has this type, which leads to a place where it fails.
#[tactic(auto, using(crate::proofs::StepTypings::test_nothing, crate::proofs::StepTypings::test_scalar, crate::proofs::StepTypings::test_other))]
fn test_typed(s: &Setting, r: Typed, fails: usize) -> Step
    requires { IfSome r.ty (IsThere s.now.scope.unit.now.graph) }
    ensures { (x : plain.Exp) → IsTyped (seen_scope s.now.scope) s.now.entities.now x r → IsStep (seen_scope s.now.scope) s.now.entities.now (flat.Test x fails) result }
{
    match r.ty {
        None => Step::Stuck,
        Some(t) => match scalar_of(&s.scope.unit.graph, t) {
            Some(of) => Step::Test(of, r.term, fails),
            None => Step::Stuck,
        },
    }
}

/// A test, which leads to a place where it fails.
pub fn test_step(s: &Setting, e: &Exp, fails: usize) -> Result<Step, Memory>
    requires { InStep s.now.layouts.now s.now.scope.unit.now.graph }
    ensures { IfOk result (IsStep (seen_scope s.now.scope) s.now.entities.now (flat.Test (exp_of s.now.scope.unit.now.graph.nodes e.now) fails)) }
{
    Ok(test_typed(s, resolve(s, e)?, fails))
}

/// A switch by a value of this type.
#[tactic(auto, using(crate::proofs::StepTypings::choice_nothing, crate::proofs::StepTypings::choice_integer, crate::proofs::StepTypings::choice_pointer, crate::proofs::StepTypings::choice_other))]
fn choice_typed(
    s: &Setting,
    r: Typed,
    table: Vec<(i128, usize)>,
    other: usize,
) -> Result<Step, Memory>
    requires { IfSome r.ty (IsThere s.now.scope.unit.now.graph) }
    ensures { IfOk result (λ step. (x : plain.Exp) → IsTyped (seen_scope s.now.scope) s.now.entities.now x r → IsStep (seen_scope s.now.scope) s.now.entities.now (flat.Choose x table.items other) step) }
{
    let _globals = s.entities.len();
    match r.ty {
        None => Ok(Step::Stuck),
        Some(t) => match t {
            Seen::Int(kind) => Ok(Step::Choose(kind, r.term, Cases::new(table)?, other)),
            Seen::Ptr(_) => Ok(Step::Stuck),
            Seen::Other(_) => Ok(Step::Stuck),
        },
    }
}

/// A switch, whose values lead to the places of a table, and else to another one.
pub fn choice_step(
    s: &Setting,
    e: &Exp,
    table: Vec<(i128, usize)>,
    other: usize,
) -> Result<Step, Memory>
    requires { InStep s.now.layouts.now s.now.scope.unit.now.graph }
    ensures { IfOk result (IsStep (seen_scope s.now.scope) s.now.entities.now (flat.Choose (exp_of s.now.scope.unit.now.graph.nodes e.now) table.items other)) }
{
    choice_typed(s, resolve(s, e)?, table, other)
}

/// A return.
#[tactic(auto, using(crate::proofs::StepMeanings::leave_is, crate::proofs::StepMeanings::leave_with))]
pub fn leave_step(s: &Setting, value: &Option<Exp>) -> Result<Step, Memory>
    requires { InStep s.now.layouts.now s.now.scope.unit.now.graph }
    ensures { IfOk result (IsStep (seen_scope s.now.scope) s.now.entities.now (flat.Leave (option_map (exp_of s.now.scope.unit.now.graph.nodes) value.now))) }
{
    match value {
        None => Ok(Step::Leave(None)),
        Some(e) => Ok(Step::Leave(Some(resolve_operand(s, e)?))),
    }
}

/// A jump from a place to that of a label.
#[tactic(auto, using(crate::proofs::StepTypings::jump_nowhere, crate::proofs::StepTypings::jump_forward, crate::proofs::StepTypings::jump_back))]
pub fn jump_step(p: usize, label: Option<usize>) -> Step
    ensures { (c : Within) (es : List ℕ) → IsStep c es (flat.jump p label) result }
{
    match label {
        None => Step::Stuck,
        Some(q) => {
            if p < q {
                Step::Forward(q)
            } else {
                Step::Back(q)
            }
        }
    }
}

/// A break from a loop or switch that ends at a place.
#[tactic(auto, using(crate::proofs::StepMeanings::stuck_is, crate::proofs::StepMeanings::forward_is))]
pub fn break_step(end: Option<usize>) -> Step
    ensures { (c : Within) (es : List ℕ) → IsStep c es (flat.break_to end) result }
{
    match end {
        None => Step::Stuck,
        Some(q) => Step::Forward(q),
    }
}
