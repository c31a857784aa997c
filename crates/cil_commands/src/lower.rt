ghost use Rattle.std.specs.Prelude.{◌≡◌, IfOk};
ghost use Rattle.c_meaning.specs.View.{expression_of};
ghost use Rattle.cil_meaning.specs.View.{exp_of};
ghost use Rattle.cil_commands.specs.Small.{small};

use c_meaning::Expr;
use cil_base::Memory;
use cil_meaning::Exp;
use std::alloc::{AllocError, Global};

/// The expression of a CIL program that a translation unit's expression becomes: its parentheses go, and
/// each operator stands over its lowered operands (own). It fails only for want of memory.
pub fn lower(alloc: Global, e: Expr) -> Result<Exp, Memory>
    ensures { IfOk result (λ p. exp_of p ≡ small (expression_of e)) }
{
    lower_expression(alloc, e).map_err(|_| Memory)
}

/// `lower`, with the allocator's own error.
fn lower_expression(alloc: Global, e: Expr) -> Result<Exp, AllocError>
    ensures { IfOk result (λ p. exp_of p ≡ small (expression_of e)) }
{
    match e {
        Expr::Constant(value) => Ok(Exp::Const(value)),
        Expr::Parentheses(inner) => lower_expression(alloc, Box::into_inner(inner)),
        Expr::Binary(op, left, right) => {
            let left = lower_expression(alloc, Box::into_inner(left))?;
            let right = lower_expression(alloc, Box::into_inner(right))?;
            Ok(Exp::Bin(op, Box::new(alloc, left)?, Box::new(alloc, right)?))
        }
    }
}
