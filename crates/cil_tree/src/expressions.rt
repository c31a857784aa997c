use cil_base::{BinOp, EntityId, IntKind, LocalId, TypeId, UnOp};

/// An expression without side effects (C11 6.5).
#[derive(Drop)]
#[cycle(exp)]
pub enum Exp {
    /// An integer constant of a kind (6.4.4.1). A negative value is a negated constant.
    Const(IntKind, u64),
    /// The value of an object (6.3.2.1p2).
    Lval(Lval),
    /// A unary operator (6.5.3.3).
    Un(UnOp, Box<Exp>),
    /// A binary operator (6.5.5 to 6.5.12).
    Bin(BinOp, Box<Exp>, Box<Exp>),
    /// A conversion (6.5.4).
    Cast(TypeId, Box<Exp>),
    /// The address of an object or of a function (6.5.3.2).
    AddrOf(Lval),
    /// The address of an array's first element (6.3.2.1p3).
    StartOf(Lval),
}

/// What an lvalue begins with.
#[derive(Drop)]
#[cycle(exp)]
pub enum Host {
    /// An object with static storage duration or a function, by its place among the globals.
    Global(EntityId),
    /// A local of the function, by its place among the locals.
    Var(LocalId),
    /// What a pointer points to (6.5.3.2p4).
    At(Box<Exp>),
}

/// A step from an object into a part of it.
#[derive(Drop)]
#[cycle(exp)]
pub enum Offset {
    /// A member, by its place in its struct or union (6.5.2.3).
    Field(u32),
    /// An element of an array (6.5.2.1).
    Index(Box<Exp>),
}

/// An lvalue (6.3.2.1p1): a host, and the steps from it to the part that is meant.
#[derive(Drop)]
#[cycle(exp)]
pub struct Lval {
    pub host: Host,
    pub offsets: Vec<Offset>,
}
