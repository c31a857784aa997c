/// The binary operators of C11 6.5.5 to 6.5.12 that compute a value from two values.
#[derive(Clone, Copy, Debug, PartialEq, Eq)]
pub enum BinOp {
    Mul,
    Div,
    Rem,
    Add,
    Sub,
    Shl,
    Shr,
    Lt,
    Gt,
    Le,
    Ge,
    Eq,
    Ne,
    And,
    Xor,
    Or,
}

/// The unary operators of C11 6.5.3.3 that compute a value from a value.
#[derive(Clone, Copy, Debug)]
pub enum UnOp {
    Neg,
    Compl,
    Not,
}
