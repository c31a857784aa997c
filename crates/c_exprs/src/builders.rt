ghost use Rattle.std.specs.Prelude.{◌≡◌, IfOk};
ghost use Rattle.c_tree.specs.View.{expr_of};
ghost use Rattle.c_exprs.specs.Classes.{joint_node};

use crate::words::Joint;
use c_nodes::{ExprNode, assign_of, binary_of, comma_of, logical_of};
use cil_base::Memory;
use std::alloc::Global;

/// Two operands with an operator between them.
pub(crate) fn joint_of(
    alloc: Global,
    at: u32,
    joint: Joint,
    l: ExprNode,
    r: ExprNode,
) -> Result<ExprNode, Memory>
    ensures { IfOk result (λ x. expr_of x ≡ joint_node at joint (expr_of l) (expr_of r)) }
{
    match joint {
        Joint::Arithmetic(op) => binary_of(alloc, at, op, l, r),
        Joint::Logical(op) => logical_of(alloc, at, op, l, r),
        Joint::Assign(op) => assign_of(alloc, at, op, l, r),
        Joint::Comma => comma_of(alloc, at, l, r),
    }
}
