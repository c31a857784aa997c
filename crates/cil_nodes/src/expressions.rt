ghost use Rattle.std.specs.Prelude.{◌≡◌, ◌++◌, ◌∷◌, [], IfOk, OnOk};
ghost use Rattle.cil_nodes.specs.Built.{IsConst, IsValue, IsUn, IsBin, IsCast, IsAddress, IsStart};

use cil_base::{BinOp, IntKind, Memory, TypeId, UnOp};
use cil_tree::{Exp, Lval};
use std::alloc::Global;

/// An integer constant (C11 6.4.4.1).
#[tactic(auto, using(crate::proofs::Made::constant_is))]
pub fn constant(kind: IntKind, n: u64) -> Exp
    ensures { IsConst kind n result }
{
    Exp::Const(kind, n)
}

/// The value of a place (C11 6.3.2.1p2).
#[tactic(auto, using(crate::proofs::Made::value_is))]
pub fn value(place: Lval) -> Exp
    ensures { IsValue place result }
{
    Exp::Lval(place)
}

/// A unary operator on an expression (C11 6.5.3.3).
pub fn unary(op: UnOp, operand: Box<Exp>) -> Exp
    ensures { IsUn op operand.value result }
{
    Exp::Un(op, operand)
}

/// A binary operator between expressions (C11 6.5.5 to 6.5.12).
pub fn binary(op: BinOp, left: Box<Exp>, right: Box<Exp>) -> Exp
    ensures { IsBin op left.value right.value result }
{
    Exp::Bin(op, left, right)
}

/// A conversion of an expression (C11 6.5.4).
pub fn cast(to: TypeId, operand: Box<Exp>) -> Exp
    ensures { IsCast to operand.value result }
{
    Exp::Cast(to, operand)
}

/// The address of a place (C11 6.5.3.2).
#[tactic(auto, using(crate::proofs::Made::address_is))]
pub fn address(place: Lval) -> Exp
    ensures { IsAddress place result }
{
    Exp::AddrOf(place)
}

/// The start of an array (C11 6.3.2.1p3).
#[tactic(auto, using(crate::proofs::Made::start_is))]
pub fn start(place: Lval) -> Exp
    ensures { IsStart place result }
{
    Exp::StartOf(place)
}

/// An expression in a box.
pub fn boxed(alloc: Global, exp: Exp) -> Result<Box<Exp>, Memory>
    ensures { IfOk result (λ b. b.value ≡ exp) }
{
    Ok(Box::new(alloc, exp)?)
}

/// Puts an expression behind others.
pub fn push_argument(all: &mut Vec<Exp>, exp: Box<Exp>) -> Result<(), Memory>
    ensures { OnOk result (all.new.items ≡ all.old.items ++ exp.value ∷ []) }
{
    all.push(Box::into_inner(exp))?;
    Ok(())
}
