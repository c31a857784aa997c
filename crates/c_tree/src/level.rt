/// The levels of the grammar of expressions (C11 6.5.1 to 6.5.17), the tightest first.
#[derive(Clone, Copy)]
pub enum Level {
    Primary,
    Postfix,
    Unary,
    Cast,
    Multiplicative,
    Additive,
    Shift,
    Relational,
    Equality,
    BitAnd,
    ExclusiveOr,
    InclusiveOr,
    LogicalAnd,
    LogicalOr,
    Conditional,
    Assignment,
    Comma,
}
