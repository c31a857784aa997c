ghost use Rattle.std.specs.Prelude.{◌≡◌};
ghost use Rattle.cil_base.specs.declared.kinds.IntKind.TheVariants.{Int};
ghost use Rattle.operator_kinds.specs.Groups.{group_of};
ghost use Rattle.operator_kinds.specs.Kinds.{computing_kind, given_kind, stepping_kind};

use crate::groups::{Group, group_of};
use cil_base::{BinOp, IntKind};

/// The kind to which the left one of two numbers is converted: the promoted one where it is shifted (C11 6.5.7p3), else the common one of
/// both (6.3.1.8p1), as the right one is then.
pub fn computing_kind(op: BinOp, left: IntKind, right: IntKind) -> IntKind
    ensures { result ≡ computing_kind (group_of op) left right }
{
    match group_of(op) {
        Group::Shift => left.promoted(),
        Group::Numbers | Group::Add | Group::Sub | Group::Order | Group::Equality => {
            left.common(right)
        }
    }
}

/// The kind of what an operator gives over two numbers: int where they are compared (C11 6.5.8p6, 6.5.9p3), else that in which it computes.
pub fn given_kind(op: BinOp, left: IntKind, right: IntKind) -> IntKind
    ensures { result ≡ given_kind (group_of op) left right }
{
    match group_of(op) {
        Group::Order | Group::Equality => IntKind::Int,
        Group::Numbers | Group::Shift | Group::Add | Group::Sub => {
            computing_kind(op, left, right)
        }
    }
}

/// The kind in which `++` and `--` compute: the common one with that of the int 1 (C11 6.5.2.4p2, 6.5.3.1p2).
pub fn stepping_kind(place: IntKind) -> IntKind
    ensures { result ≡ stepping_kind place }
{
    place.common(IntKind::Int)
}

/// The kind of what `!`, `&&` and `||` give (C11 6.5.3.3p5, 6.5.13p3, 6.5.14p3).
pub fn truth_kind() -> IntKind
    ensures { result ≡ Int }
{
    IntKind::Int
}
