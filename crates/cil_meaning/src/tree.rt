use cil_base::BinOp;

/// An expression of a CIL program: it has no side effects, and each node has type int.
#[derive(Drop)]
pub enum Exp {
    /// A constant, with its value.
    Const(u32),
    /// A binary operator between its operands.
    Bin(BinOp, Box<Exp>, Box<Exp>),
}
