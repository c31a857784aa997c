use crate::statements::Stmt;
use cil_base::{Constant, NameId, TypeId};
use type_graph::TypeGraph;

/// A step of a path from an object to a scalar within it.
#[derive(Clone, Copy)]
pub enum Step {
    /// A member, by its place in its struct or union.
    Field(u32),
    /// An element of an array.
    Index(u64),
}

/// One scalar of an initialised object: the path to it, and its value.
#[derive(Drop)]
pub struct ImageItem {
    pub path: Vec<Step>,
    pub value: Constant,
}

/// A parameter, or an object with automatic storage duration.
#[derive(Clone, Copy)]
pub struct Local {
    pub name: NameId,
    pub ty: TypeId,
}

/// The body of a function. The parameters are the first locals; the place of a label's name is its number.
#[derive(Drop)]
pub struct Body {
    pub params: Vec<NameId>,
    pub locals: Vec<Local>,
    pub labels: Vec<NameId>,
    pub stmts: Vec<Stmt>,
}

/// What a global is in its program.
#[derive(Drop)]
pub enum GlobalDef {
    /// It is declared alone.
    Declared,
    /// An object all of whose bytes are zero at the start (C11 6.7.9p10).
    Zero,
    /// An object whose scalars are zero at the start, but for those that are listed.
    Image(Vec<ImageItem>),
    /// A function.
    Body(Body),
}

/// An object with static storage duration (C11 6.2.4p3) or a function. It is internal or external (6.2.2).
#[derive(Drop)]
pub struct GlobalDecl {
    pub name: NameId,
    pub ty: TypeId,
    pub internal: bool,
    pub def: GlobalDef,
}

/// A program: its types, and its objects and functions in order.
#[derive(Drop)]
pub struct CilUnit {
    pub graph: TypeGraph,
    pub globals: Vec<GlobalDecl>,
}
