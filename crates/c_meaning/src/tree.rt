use cil_base::BinOp;

/// An expression of a translation unit (C11 6.5). Parentheses are a node of their own.
#[derive(Drop)]
pub enum Expr {
    /// A decimal constant (C11 6.4.4.1), with its value.
    Constant(u32),
    /// An expression in parentheses (C11 6.5.1).
    Parentheses(Box<Expr>),
    /// A binary operator between its operands.
    Binary(BinOp, Box<Expr>, Box<Expr>),
}
