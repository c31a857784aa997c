ghost use Rattle.std.specs.Prelude.{◌≡◌, ◌++◌, ◌∷◌, [], None, if◌then◌else◌, IfOk, OnOk};
ghost use Rattle.cil_tree.specs.declared.statements.Callee.TheVariants as callees;
ghost use Rattle.cil_tree.specs.declared.statements.Stmt.TheVariants as stmt;
ghost use Rattle.cil_tree.specs.declared.statements.Instr.TheVariants as instr;
ghost use Rattle.lower_parts.specs.Code.{Extends, IsLeft, IsCallee, CallsFor, any_effect, before_last};

use crate::output::FunctionOut;
use crate::places::{saved, value_of, variable};
use cil_base::{EntityId, LocalId, Memory, TypeId};
use cil_nodes::direct;
use cil_tree::{Callee, Exp, Instr, Lval, Stmt};
use typed_tree::{TypedExp, TypedNode};

/// The place of an argument that has an effect, or that of the one before it which has.
fn last_of(effect: bool, i: usize, before: usize) -> usize
    ensures { result ≡ (if effect then i else before) }
{
    if effect { i } else { before }
}

/// Which arguments have an effect behind them: those before the last one that has an effect.
#[tactic(auto, using(crate::proofs::CodeLaws::last_end))]
pub fn before_effects(arguments: &[TypedExp]) -> usize
    ensures { result ≡ before_last arguments.now }
{
    let mut last = 0;
    for i in 0..arguments.len() {
        last = last_of(arguments[i].has_effect(), i, last);
    }
    last
}

/// Whether an argument has an effect.
#[tactic(auto, using(crate::proofs::CodeLaws::any_next, crate::proofs::CodeLaws::any_found, crate::proofs::CodeLaws::any_end))]
fn have_effects(arguments: &[TypedExp]) -> bool
    ensures { result ≡ any_effect arguments.now }
{
    for argument in arguments {
        if argument.has_effect() {
            return true;
        }
    }
    false
}

/// The function that an expression is the name of, where the program prints it with the expression's type.
fn designated(f: &FunctionOut, e: &TypedExp) -> Result<Option<EntityId>, Memory> {
    match e.node() {
        TypedNode::Entity(n) => {
            let number = f.unit.number(*n)?;
            if f.unit.printed(*n)? == f.type_of(e)? {
                Ok(Some(number))
            } else {
                Ok(None)
            }
        }
        _ => Ok(None),
    }
}

/// The function that is called by its name (C11 6.5.2.2p1), where the program prints it with the type with which it is called.
pub fn called_by_name(f: &FunctionOut, callee: &TypedExp) -> Result<Option<EntityId>, Memory> {
    match callee.node() {
        TypedNode::Decay(function) => designated(f, function),
        _ => Ok(None),
    }
}

/// The function of a name.
pub fn by_name(n: EntityId) -> Callee
    ensures { result ≡ callees.Direct n }
{
    direct(n)
}

/// The function that a pointer points to; the pointer is saved where an argument has an effect.
#[tactic(auto, using(crate::proofs::CodeLaws::callee_stays, crate::proofs::CodeLaws::callee_saved, crate::proofs::CodeLaws::extends_none))]
pub fn by_pointer(
    f: &mut FunctionOut,
    callee: &TypedExp,
    pointer: Exp,
    arguments: &[TypedExp],
    out: &mut Vec<Stmt>,
) -> Result<Callee, Memory>
    ensures left { IfOk result (IsCallee (any_effect arguments.now) pointer out.old.items out.new.items) }
    ensures grows { OnOk result (Extends out.old.items out.new.items) }
{
    if !have_effects(arguments) {
        return Ok(Callee::Through(pointer));
    }
    let t = f.type_of(callee)?;
    let n = saved(f, pointer, t, out)?;
    Ok(Callee::Through(value_of(f.alloc, n)))
}

/// Puts a call behind code, with the place for its result.
#[tactic(auto, using(crate::proofs::CodeLaws::extends_one))]
fn put_call(
    place: Option<Lval>,
    callee: Callee,
    arguments: Vec<Exp>,
    out: &mut Vec<Stmt>,
) -> Result<(), Memory>
    ensures calls { OnOk result (out.new.items ≡ out.old.items ++ stmt.Instr (instr.Call place callee arguments) ∷ []) }
    ensures grows { OnOk result (Extends out.old.items out.new.items) }
{
    out.reserve(1)?;
    out.push_reserved(Stmt::Instr(Instr::Call(place, callee, arguments)));
    Ok(())
}

/// Calls, and stores the result in a new temporary of its type.
#[tactic(auto, using(crate::proofs::CodeLaws::calls_for))]
pub fn call_for_value(
    f: &mut FunctionOut,
    t: TypeId,
    callee: Callee,
    arguments: Vec<Exp>,
    out: &mut Vec<Stmt>,
) -> Result<LocalId, Memory>
    ensures calls { IfOk result (λ n. CallsFor n callee arguments out.old.items out.new.items) }
    ensures grows { OnOk result (Extends out.old.items out.new.items) }
{
    let n = f.add_unnamed(t)?;
    let place = variable(f.alloc, n);
    put_call(Some(place), callee, arguments, out)?;
    Ok(n)
}

/// Calls, and drops the result.
pub fn call_for_effect(
    callee: Callee,
    arguments: Vec<Exp>,
    out: &mut Vec<Stmt>,
) -> Result<(), Memory>
    ensures calls { OnOk result (out.new.items ≡ out.old.items ++ stmt.Instr (instr.Call None callee arguments) ∷ []) }
    ensures grows { OnOk result (Extends out.old.items out.new.items) }
{
    put_call(None, callee, arguments, out)
}

/// The value of an argument, saved where one behind it has an effect.
#[tactic(auto, using(crate::proofs::CodeLaws::left_stays, crate::proofs::CodeLaws::left_saved, crate::proofs::CodeLaws::extends_none))]
pub fn argument(
    f: &mut FunctionOut,
    e: &TypedExp,
    x: Exp,
    later: bool,
    out: &mut Vec<Stmt>,
) -> Result<Exp, Memory>
    ensures left { IfOk result (IsLeft later x out.old.items out.new.items) }
    ensures grows { OnOk result (Extends out.old.items out.new.items) }
{
    if !later {
        return Ok(x);
    }
    let t = f.type_of(e)?;
    let n = saved(f, x, t, out)?;
    Ok(value_of(f.alloc, n))
}
