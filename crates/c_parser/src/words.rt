/// The first token of a statement, where it is a word or a brace (C11 6.8).
#[derive(Clone, Copy)]
pub enum StatementWord {
    Case,
    Default,
    /// `{`
    Block,
    If,
    Switch,
    While,
    Do,
    For,
    Goto,
    Continue,
    Break,
    Return,
}
