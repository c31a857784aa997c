use crate::expressions::{Exp, Lval};
use cil_base::{EntityId, IntKind, LabelId};

/// What a call calls (C11 6.5.2.2).
#[derive(Drop)]
pub enum Callee {
    /// A function, by its place among the globals.
    Direct(EntityId),
    /// The function that a pointer points to.
    Through(Exp),
}

/// An instruction: a statement that changes memory or calls.
#[derive(Drop)]
pub enum Instr {
    /// An assignment (C11 6.5.16.1) between operands of one type.
    Set(Lval, Exp),
    /// A call (6.5.2.2), whose result is stored where a place is given.
    Call(Option<Lval>, Callee, Vec<Exp>),
    /// Each byte of an object becomes zero.
    Zero(Lval),
}

/// A statement (C11 6.8).
#[derive(Drop)]
pub enum Stmt {
    Instr(Instr),
    /// `if` with both its parts (6.8.4.1).
    If(Exp, Vec<Stmt>, Vec<Stmt>),
    /// `switch` (6.8.4.2).
    Switch(Exp, Vec<Stmt>),
    /// A loop without end, which `Break` and jumps leave.
    Loop(Vec<Stmt>),
    /// A compound statement (6.8.2).
    Block(Vec<Stmt>),
    /// A label (6.8.1), by its number.
    Label(LabelId),
    /// A case label (6.8.1) of the innermost switch.
    Case(IntKind, i128),
    /// The default label (6.8.1) of the innermost switch.
    Default,
    /// `goto` (6.8.6.1).
    Goto(LabelId),
    /// `break` (6.8.6.3) of the innermost loop or switch.
    Break,
    /// `return` (6.8.6.4).
    Return(Option<Exp>),
}
