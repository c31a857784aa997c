use crate::expressions::TypedExp;
use crate::initialisers::TypedInit;
use cil_base::{IntKind, LabelId, LocalId};

/// A statement, or the declaration of an object with automatic storage duration (C11 6.7, 6.8). A substatement is a list: its labels, and
/// the statement; an empty statement is no item of it.
#[derive(Drop)]
pub enum TypedStmt {
    /// `e ;`: a value of any type, or void.
    Expr(TypedExp),
    /// The declaration of an object is reached, with its initialiser where it has one.
    Declare(LocalId, Option<TypedInit>),
    /// `{ .. }`
    Block(Vec<TypedStmt>),
    /// `if ( e ) .. else ..`: an absent else is empty.
    If(TypedExp, Vec<TypedStmt>, Vec<TypedStmt>),
    /// `switch ( e ) ..`: the promoted value.
    Switch(TypedExp, Vec<TypedStmt>),
    /// `while ( e ) ..`
    While(TypedExp, Vec<TypedStmt>),
    /// `do .. while ( e ) ;`
    Do(Vec<TypedStmt>, TypedExp),
    /// `for ( start e ; e ) ..`: the start's statements, the condition, the step, the body.
    For(Vec<TypedStmt>, Option<TypedExp>, Option<TypedExp>, Vec<TypedStmt>),
    /// `label :`
    Label(LabelId),
    /// `case n :`, with the kind of the promoted value of its switch.
    Case(IntKind, i128),
    /// `default :`
    Default,
    /// `goto label ;`
    Goto(LabelId),
    /// `break ;`
    Break,
    /// `continue ;`
    Continue,
    /// `return e ;`: the value converted to the result type.
    Return(Option<TypedExp>),
}
