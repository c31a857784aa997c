use crate::expression::{Declarator, Expr, Init, Specifier, StaticAssert};
use cil_base::NameId;

/// A declarator of a declaration with its initialiser (C11 6.7).
#[derive(Drop)]
pub struct InitDeclarator {
    pub declarator: Declarator,
    pub init: Option<Init>,
}

/// A declaration (C11 6.7).
#[derive(Drop)]
pub enum Declaration {
    /// The number of its first token, its specifiers, its declarators, `;`
    Declares(u32, Vec<Specifier>, Vec<InitDeclarator>),
    StaticAssert(StaticAssert),
}

/// What stands before the first semicolon of a for statement (C11 6.8.5).
#[derive(Drop)]
pub enum ForStart {
    Expr(Option<Expr>),
    Declaration(Declaration),
}

/// A statement (C11 6.8). In each node the first field is the number of its first token.
#[cycle(statement)]
#[derive(Drop)]
pub enum Stmt {
    /// `label : s`
    Labelled(u32, NameId, Box<Stmt>),
    /// `case e : s`
    Case(u32, Expr, Box<Stmt>),
    /// `default : s`
    Default(u32, Box<Stmt>),
    /// `{ .. }`
    Compound(u32, Vec<BlockItem>),
    /// `e ;` and `;`
    Expr(u32, Option<Expr>),
    /// `if ( e ) s`
    If(u32, Expr, Box<Stmt>),
    /// `if ( e ) s else s`
    IfElse(u32, Expr, Box<Stmt>, Box<Stmt>),
    /// `switch ( e ) s`
    Switch(u32, Expr, Box<Stmt>),
    /// `while ( e ) s`
    While(u32, Expr, Box<Stmt>),
    /// `do s while ( e ) ;`
    Do(u32, Box<Stmt>, Expr),
    /// `for ( start e ; e ) s`
    For(u32, ForStart, Option<Expr>, Option<Expr>, Box<Stmt>),
    /// `goto label ;`
    Goto(u32, NameId),
    /// `continue ;`
    Continue(u32),
    /// `break ;`
    Break(u32),
    /// `return e ;` and `return ;`
    Return(u32, Option<Expr>),
}

/// A declaration or a statement of a block (C11 6.8.2).
#[cycle(statement)]
#[derive(Drop)]
pub enum BlockItem {
    Declaration(Declaration),
    Statement(Stmt),
}

/// An external declaration (C11 6.9).
#[derive(Drop)]
pub enum ExtDecl {
    Definition(FunctionDefinition),
    Declaration(Declaration),
}

/// A function definition (C11 6.9.1), with the number of its first token.
#[derive(Drop)]
pub struct FunctionDefinition {
    pub at: u32,
    pub specifiers: Vec<Specifier>,
    pub declarator: Declarator,
    /// The declarations of parameters that stand before the body where the declarator has an identifier list.
    pub declarations: Vec<Declaration>,
    /// The number of the body's opening brace.
    pub body_at: u32,
    pub body: Vec<BlockItem>,
}

/// A translation unit (C11 6.9): at least one external declaration.
#[derive(Drop)]
pub struct Unit {
    pub declarations: Vec<ExtDecl>,
}
