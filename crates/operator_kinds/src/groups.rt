ghost use Rattle.std.specs.Prelude.{◌≡◌};
ghost use Rattle.operator_kinds.specs.Groups.{group_of};

use cil_base::BinOp;

/// Operators with the same constraint (C11 6.5.5 to 6.5.12).
#[derive(Clone, Copy)]
pub enum Group {
    /// `*`, `/`, `%`, `&`, `^`, `|`: numbers alone.
    Numbers,
    /// `<<`, `>>`
    Shift,
    Add,
    Sub,
    /// `<`, `>`, `<=`, `>=`
    Order,
    /// `==`, `!=`
    Equality,
}

/// The group of an operator.
pub fn group_of(op: BinOp) -> Group
    ensures { result ≡ group_of op }
{
    match op {
        BinOp::Mul | BinOp::Div | BinOp::Rem | BinOp::And | BinOp::Xor | BinOp::Or => {
            Group::Numbers
        }
        BinOp::Shl | BinOp::Shr => Group::Shift,
        BinOp::Add => Group::Add,
        BinOp::Sub => Group::Sub,
        BinOp::Lt | BinOp::Gt | BinOp::Le | BinOp::Ge => Group::Order,
        BinOp::Eq | BinOp::Ne => Group::Equality,
    }
}
