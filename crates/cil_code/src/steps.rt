use crate::calls::Call;
use crate::cases::Cases;
use crate::operands::Operand;
use byte_mem::Scalar;
use cil_base::IntKind;
use cil_machine::{Spot, Term};

/// A step of the list that a body becomes. It names other steps by their places in the list.
#[derive(Drop)]
pub enum Step {
    /// An assignment (C11 6.5.16.1).
    Set(Spot, Operand),
    /// So many bytes of a place become zero (own).
    Zero(u32, Spot),
    /// A call (6.5.2.2).
    Call(Call),
    /// The next step where a scalar compares unequal to 0, else that one (6.8.4.1p2).
    Test(Scalar, Term, usize),
    /// The step of the first case with the value, else the other one (6.8.4.2p5).
    Choose(IntKind, Term, Cases, usize),
    /// A step further on.
    Forward(usize),
    /// A step that is not further on, by a spent unit (own).
    Back(usize),
    /// The end of the body, with the value that it returns (6.8.6.4).
    Leave(Option<Operand>),
    /// Undefined: what is ill-typed, or leads nowhere.
    Stuck,
}
