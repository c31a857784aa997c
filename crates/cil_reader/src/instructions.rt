ghost use Rattle.std.specs.Prelude.{◌≡◌, ◌++◌, IfOk, List};
ghost use Rattle.std.specs.Option.{option_and_then};
ghost use Rattle.type_graph.specs.declared.nodes.Node.{Node};
ghost use Rattle.type_graph.specs.Arena.{Graph};
ghost use Rattle.cil_tree.specs.Tree.{Set, Call};
ghost use Rattle.cil_tree.specs.View.{exp_of, lval_of, instr_of, callee_of};
ghost use Rattle.cil_text.specs.ReadExps.{read_exp, read_place};
ghost use Rattle.cil_text.specs.ReadStmts.{line_end, zero_from, read_call, read_assigned, read_effect, read_instr};
ghost use Rattle.cil_text.specs.TypesOf.{AddsParts, types_in_exp, types_in_place, types_in_result, types_in_callee, types_in_instr};
ghost use Rattle.cil_scan.specs.Said.{all_said};
ghost use Rattle.cil_declarators.specs.Gives.{Gives};
ghost use Rattle.cil_reader.specs.Settings.{Onward, env_in};
ghost use Rattle.cil_reader.specs.Parts.{ExpKnown, PlaceKnown};
ghost use Rattle.cil_reader.specs.Instructions.{args_of, called_seen, result_of, ResultKnown, CalleeKnown, InstrKnown, IsCallee, IsCalled};

use crate::arguments::read_args;
use crate::operands::{read_exp, read_place};
use crate::parts::{Located, Operand};
use crate::reader::Reader;
use cil_base::EntityId;
use cil_declarators::Stop;
use cil_forms::{behind_address, is_end, is_zero};
use cil_nodes::{direct, set, through, zero};
use cil_scan::Word;
use cil_tree::{Callee, Exp, Host, Instr, Lval};

/// What is called: a function by its name, or what a pointer points to.
#[derive(Drop)]
pub(crate) enum Called {
    Direct(EntityId),
    Through(Box<Exp>),
}

/// What is called where a place stands before `(`: a function by its name, or what a pointer points to.
#[tactic(auto, using(crate::proofs::InstructionLaws::direct_is, crate::proofs::InstructionLaws::through_is, crate::proofs::InstructionLaws::var_is, crate::proofs::InstructionLaws::part_is))]
fn callee_of(place: Lval) -> Option<Called>
    ensures { IsCallee place result }
{
    let Lval { host, offsets } = place;
    if !offsets.is_empty() {
        return None;
    }
    match host {
        Host::Global(function) => Some(Called::Direct(function)),
        Host::At(pointer) => Some(Called::Through(pointer)),
        Host::Var(_) => None,
    }
}

/// What is called where an expression stands before `(`.
#[tactic(auto, using(crate::proofs::InstructionLaws::called_is))]
fn called_place(value: Box<Exp>) -> Option<Called>
    ensures { IsCalled value.value result }
{
    match Box::into_inner(value) {
        Exp::Lval(place) => callee_of(place),
        _ => None,
    }
}

/// What is called, as a call has it.
fn callee(called: Called) -> Callee
    ensures { (nodes : List Node) → callee_of nodes result ≡ called_seen nodes called }
{
    match called {
        Called::Direct(function) => direct(function),
        Called::Through(pointer) => through(pointer),
    }
}

/// A call of its parts.
fn call(to: Option<Lval>, called: Called, args: Vec<Exp>) -> Instr
    ensures { (nodes : List Node) → instr_of nodes result ≡ Call (result_of nodes to) (called_seen nodes called) (args_of nodes args.items) }
{
    Instr::Call(to, callee(called), args)
}

/// Behind the `(` of a call: its arguments, `)` and the end of the line.
#[tactic(auto, using(crate::proofs::InstructionLaws::call_gives, crate::proofs::InstructionLaws::call_open, crate::proofs::InstructionLaws::call_fails, crate::proofs::OnwardLaws::onward_grows))]
fn read_call(
    r: &mut Reader,
    left: u32,
    to: Option<Lval>,
    callee: Called,
    words: &[Word],
) -> Result<Instr, Stop>
    requires to { ResultKnown r.old.graph to }
    requires callee { CalleeKnown r.old.graph callee }
    ensures gives { Gives (λ i. instr_of r.new.graph.nodes i) result (read_call (read_exp (env_in r.old) left) left (result_of r.old.graph.nodes to) (called_seen r.old.graph.nodes callee) (all_said words.now)) }
    ensures known { IfOk result (InstrKnown r.new.graph) }
    ensures on { Onward r.old r.new }
    ensures adds { (f : Graph) → AddsParts f r.old.graph (types_in_result (result_of r.old.graph.nodes to) ++ types_in_callee (called_seen r.old.graph.nodes callee)) → IfOk result (λ i. AddsParts f r.new.graph (types_in_instr (instr_of r.new.graph.nodes i))) }
{
    let (args, rest) = read_args(r, left, words)?;
    if !is_end(rest) {
        return Err(Stop::NotCil);
    }
    Ok(call(to, callee, args))
}

/// Behind the expression that is assigned: the end of the line, or a call's arguments (C11 6.5.16.1).
#[tactic(auto, using(crate::proofs::InstructionLaws::called_next, crate::proofs::InstructionLaws::called_none, crate::proofs::InstructionLaws::called_known, crate::proofs::InstructionLaws::result_known, crate::proofs::OnwardLaws::onward_none))]
fn read_assigned(
    r: &mut Reader,
    left: u32,
    x: Located,
    value: Operand,
    words: &[Word],
) -> Result<Instr, Stop>
    requires place { PlaceKnown r.old.graph (env_in r.old) x.place x.ty }
    requires operand { ExpKnown r.old.graph (env_in r.old) value.exp.value value.to }
    ensures gives { Gives (λ i. instr_of r.new.graph.nodes i) result (read_assigned (read_exp (env_in r.old) left) left (lval_of r.old.graph.nodes x.place) (exp_of r.old.graph.nodes value.exp.value) (all_said words.now)) }
    ensures known { IfOk result (InstrKnown r.new.graph) }
    ensures on { Onward r.old r.new }
    ensures adds { (f : Graph) → AddsParts f r.old.graph (types_in_place (lval_of r.old.graph.nodes x.place) ++ types_in_exp (exp_of r.old.graph.nodes value.exp.value)) → IfOk result (λ i. AddsParts f r.new.graph (types_in_instr (instr_of r.new.graph.nodes i))) }
{
    match words {
        [Word::LeftParen, rest @ ..] => match called_place(value.exp) {
            Some(callee) => read_call(r, left, Some(x.place), callee, rest),
            None => Err(Stop::NotCil),
        },
        _ => stored(r, x, value, words),
    }
}

/// An assignment, and the end of its line.
#[tactic(auto, using(crate::proofs::InstructionLaws::ended, crate::proofs::InstructionLaws::unended, crate::proofs::InstructionLaws::set_known))]
fn stored(r: &Reader, x: Located, value: Operand, words: &[Word]) -> Result<Instr, Stop>
    requires place { PlaceKnown r.now.graph (env_in r.now) x.place x.ty }
    requires operand { ExpKnown r.now.graph (env_in r.now) value.exp.value value.to }
    ensures gives { Gives (λ i. instr_of r.now.graph.nodes i) result (line_end (Set (lval_of r.now.graph.nodes x.place) (exp_of r.now.graph.nodes value.exp.value)) (all_said words.now)) }
    ensures known { IfOk result (InstrKnown r.now.graph) }
    ensures adds { (f : Graph) → AddsParts f r.now.graph (types_in_place (lval_of r.now.graph.nodes x.place) ++ types_in_exp (exp_of r.now.graph.nodes value.exp.value)) → IfOk result (λ i. AddsParts f r.now.graph (types_in_instr (instr_of r.now.graph.nodes i))) }
{
    if !is_end(words) {
        return Err(Stop::NotCil);
    }
    Ok(set(x.place, value.exp))
}

/// Behind `=`: an expression, or a call.
#[tactic(auto, using(crate::proofs::InstructionLaws::assigned_fails))]
fn read_assignment(r: &mut Reader, left: u32, x: Located, words: &[Word]) -> Result<Instr, Stop>
    requires { PlaceKnown r.old.graph (env_in r.old) x.place x.ty }
    ensures gives { Gives (λ i. instr_of r.new.graph.nodes i) result (option_and_then (λ y. read_assigned (read_exp (env_in r.old) left) left (lval_of r.old.graph.nodes x.place) y.0 y.1) (read_exp (env_in r.old) left (all_said words.now))) }
    ensures known { IfOk result (InstrKnown r.new.graph) }
    ensures on { Onward r.old r.new }
    ensures adds { (f : Graph) → AddsParts f r.old.graph (types_in_place (lval_of r.old.graph.nodes x.place)) → IfOk result (λ i. AddsParts f r.new.graph (types_in_instr (instr_of r.new.graph.nodes i))) }
{
    let (value, rest) = read_exp(r, left, words)?;
    read_assigned(r, left, x, value, rest)
}

/// Behind the place in front of an instruction: what is assigned to it, or the arguments of a call.
fn read_effect(r: &mut Reader, left: u32, x: Located, words: &[Word]) -> Result<Instr, Stop>
    requires { PlaceKnown r.old.graph (env_in r.old) x.place x.ty }
    ensures gives { Gives (λ i. instr_of r.new.graph.nodes i) result (read_effect (read_exp (env_in r.old) left) left (lval_of r.old.graph.nodes x.place) (all_said words.now)) }
    ensures known { IfOk result (InstrKnown r.new.graph) }
    ensures on { Onward r.old r.new }
    ensures adds { (f : Graph) → AddsParts f r.old.graph (types_in_place (lval_of r.old.graph.nodes x.place)) → IfOk result (λ i. AddsParts f r.new.graph (types_in_instr (instr_of r.new.graph.nodes i))) }
{
    match words {
        [Word::Assign, rest @ ..] => read_assignment(r, left, x, rest),
        [Word::LeftParen, rest @ ..] => match callee_of(x.place) {
            Some(callee) => read_call(r, left, None, callee, rest),
            None => Err(Stop::NotCil),
        },
        _ => Err(Stop::NotCil),
    }
}

/// The place of a zero fill; the rest of its line is not looked at.
#[tactic(auto, using(crate::proofs::InstructionLaws::zero_gives, crate::proofs::InstructionLaws::zero_fails, crate::proofs::InstructionLaws::zero_known))]
fn read_zero(r: &mut Reader, left: u32, words: &[Word]) -> Result<Instr, Stop>
    ensures gives { Gives (λ i. instr_of r.new.graph.nodes i) result (option_and_then zero_from (read_place (env_in r.old) (read_exp (env_in r.old) left) left (all_said words.now))) }
    ensures known { IfOk result (InstrKnown r.new.graph) }
    ensures on { Onward r.old r.new }
    ensures adds { IfOk result (λ i. AddsParts r.old.graph r.new.graph (types_in_instr (instr_of r.new.graph.nodes i))) }
{
    let (x, _rest) = read_place(r, left, words)?;
    Ok(zero(x.place))
}

/// A line that is an instruction.
#[tactic(auto, using(crate::proofs::InstructionLaws::instr_zero, crate::proofs::InstructionLaws::instr_fails))]
pub(crate) fn read_instr(r: &mut Reader, left: u32, words: &[Word]) -> Result<Instr, Stop>
    ensures gives { Gives (λ i. instr_of r.new.graph.nodes i) result (read_instr (env_in r.old) left (all_said words.now)) }
    ensures known { IfOk result (InstrKnown r.new.graph) }
    ensures on { Onward r.old r.new }
    ensures adds { IfOk result (λ i. AddsParts r.old.graph r.new.graph (types_in_instr (instr_of r.new.graph.nodes i))) }
{
    if is_zero(words) {
        return read_zero(r, left, behind_address(words));
    }
    let (x, rest) = read_place(r, left, words)?;
    read_effect(r, left, x, rest)
}
