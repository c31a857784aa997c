use crate::equal::equal;
use crate::graphs::{Form, array, finish, function, pointer, qualified};
use crate::program::{add_function, add_local, add_zero, declare, empty, no_body};
use cil_base::{BinOp, EntityId, IntKind, LocalId, Memory, NamePool, TypeId, UnOp};
use cil_check::check;
use cil_tree::{Body, Callee, CilUnit, Exp, GlobalDecl, Host, Instr, Local, Lval, Offset, Stmt};
use std::alloc::Global;
use type_graph::{AggKind, Node, TypeGraph};

/// The locals of `main`, by their types: `int`, `long`, `char`, `int *`, `long *`, `void *`, `struct s { int n ; }`,
/// `int [ 2 ]` and `int ( * ) ( int )`.
#[derive(Clone, Copy)]
enum Var {
    Int,
    Long,
    Char,
    ToInt,
    ToLong,
    ToVoid,
    Struct,
    Array,
    ToFunction,
}

/// The globals besides `main`: `int one ( int )`, `void none ( void )`, `int many ( int , ... )`, `int old ( )`, `int n`
/// and `struct t open ( void )`, where `struct t` is incomplete; and a number that is none.
#[derive(Clone, Copy)]
enum Name {
    One,
    Nothing,
    Many,
    Old,
    Object,
    Open,
    Missing,
}

/// An expression over locals.
#[derive(Clone, Copy)]
enum Value {
    Of(Var),
    Target(Var),
    Member(Var, u32),
    Element(Var, Var),
    Un(UnOp, Var),
    Bin(BinOp, Var, Var),
    Cast(Var, Var),
    Address(Var),
    AddressOfTarget(Var),
    AddressOfGlobal(Name),
    Start(Var),
}

/// An expression that is assigned to a local, and whether it may be.
fn values() -> &'static [(Var, Value, bool)] {
    &[
        (Var::Int, Value::Of(Var::Int), true),
        (Var::Struct, Value::Of(Var::Struct), true),
        (Var::Long, Value::Of(Var::Int), false),
        (Var::ToLong, Value::Of(Var::ToInt), false),
        (Var::Array, Value::Of(Var::Array), false),
        (Var::ToInt, Value::Of(Var::Array), false),
        (Var::Int, Value::Target(Var::ToInt), true),
        (Var::Int, Value::Target(Var::ToLong), false),
        (Var::Int, Value::Target(Var::ToVoid), false),
        (Var::Int, Value::Target(Var::Int), false),
        (Var::ToFunction, Value::Target(Var::ToFunction), false),
        (Var::Int, Value::Member(Var::Struct, 0), true),
        (Var::Int, Value::Member(Var::Struct, 1), false),
        (Var::Int, Value::Member(Var::Int, 0), false),
        (Var::Int, Value::Element(Var::Array, Var::Int), true),
        (Var::Int, Value::Element(Var::Array, Var::Long), true),
        (Var::Int, Value::Element(Var::Array, Var::Char), false),
        (Var::Int, Value::Element(Var::Array, Var::ToInt), false),
        (Var::Int, Value::Element(Var::ToInt, Var::Int), false),
        (Var::Int, Value::Un(UnOp::Neg, Var::Int), true),
        (Var::Char, Value::Un(UnOp::Neg, Var::Char), false),
        (Var::ToInt, Value::Un(UnOp::Neg, Var::ToInt), false),
        (Var::Long, Value::Un(UnOp::Compl, Var::Long), true),
        (Var::Int, Value::Un(UnOp::Compl, Var::Long), false),
        (Var::Int, Value::Un(UnOp::Not, Var::Char), true),
        (Var::Int, Value::Un(UnOp::Not, Var::ToVoid), true),
        (Var::Int, Value::Un(UnOp::Not, Var::Struct), false),
        (Var::Long, Value::Un(UnOp::Not, Var::Long), false),
        (Var::Int, Value::Bin(BinOp::Add, Var::Int, Var::Int), true),
        (Var::Int, Value::Bin(BinOp::Add, Var::Int, Var::Long), false),
        (
            Var::Char,
            Value::Bin(BinOp::Add, Var::Char, Var::Char),
            false,
        ),
        (Var::Int, Value::Bin(BinOp::Shl, Var::Int, Var::Long), true),
        (
            Var::Long,
            Value::Bin(BinOp::Shl, Var::Int, Var::Long),
            false,
        ),
        (Var::Int, Value::Bin(BinOp::Shr, Var::Int, Var::Char), false),
        (Var::Int, Value::Bin(BinOp::Lt, Var::Long, Var::Long), true),
        (
            Var::Long,
            Value::Bin(BinOp::Lt, Var::Long, Var::Long),
            false,
        ),
        (
            Var::Struct,
            Value::Bin(BinOp::Add, Var::Struct, Var::Struct),
            false,
        ),
        (
            Var::ToInt,
            Value::Bin(BinOp::Add, Var::ToInt, Var::Long),
            true,
        ),
        (
            Var::ToInt,
            Value::Bin(BinOp::Add, Var::Int, Var::ToInt),
            true,
        ),
        (
            Var::ToInt,
            Value::Bin(BinOp::Sub, Var::ToInt, Var::Int),
            true,
        ),
        (
            Var::ToInt,
            Value::Bin(BinOp::Sub, Var::Int, Var::ToInt),
            false,
        ),
        (
            Var::ToInt,
            Value::Bin(BinOp::Add, Var::ToInt, Var::Char),
            false,
        ),
        (
            Var::ToInt,
            Value::Bin(BinOp::Add, Var::ToInt, Var::ToInt),
            false,
        ),
        (
            Var::ToVoid,
            Value::Bin(BinOp::Add, Var::ToVoid, Var::Long),
            false,
        ),
        (
            Var::ToFunction,
            Value::Bin(BinOp::Add, Var::ToFunction, Var::Long),
            false,
        ),
        (
            Var::Long,
            Value::Bin(BinOp::Sub, Var::ToInt, Var::ToInt),
            true,
        ),
        (
            Var::Int,
            Value::Bin(BinOp::Sub, Var::ToInt, Var::ToInt),
            false,
        ),
        (
            Var::Long,
            Value::Bin(BinOp::Sub, Var::ToInt, Var::ToLong),
            false,
        ),
        (
            Var::Long,
            Value::Bin(BinOp::Sub, Var::ToVoid, Var::ToVoid),
            false,
        ),
        (
            Var::Int,
            Value::Bin(BinOp::Lt, Var::ToInt, Var::ToInt),
            true,
        ),
        (
            Var::Int,
            Value::Bin(BinOp::Lt, Var::ToFunction, Var::ToFunction),
            false,
        ),
        (
            Var::Int,
            Value::Bin(BinOp::Eq, Var::ToFunction, Var::ToFunction),
            true,
        ),
        (
            Var::Int,
            Value::Bin(BinOp::Eq, Var::ToVoid, Var::ToVoid),
            true,
        ),
        (
            Var::Int,
            Value::Bin(BinOp::Eq, Var::ToInt, Var::ToLong),
            false,
        ),
        (
            Var::Int,
            Value::Bin(BinOp::Eq, Var::ToInt, Var::Long),
            false,
        ),
        (
            Var::ToInt,
            Value::Bin(BinOp::Mul, Var::ToInt, Var::ToInt),
            false,
        ),
        (Var::Int, Value::Cast(Var::Int, Var::Char), true),
        (Var::ToInt, Value::Cast(Var::ToInt, Var::Long), true),
        (Var::ToVoid, Value::Cast(Var::ToVoid, Var::ToFunction), true),
        (Var::Long, Value::Cast(Var::Int, Var::Char), false),
        (Var::Int, Value::Cast(Var::Int, Var::Struct), false),
        (Var::Struct, Value::Cast(Var::Struct, Var::Struct), false),
        (Var::Struct, Value::Cast(Var::Struct, Var::Int), false),
        (Var::ToInt, Value::Address(Var::Int), true),
        (Var::ToLong, Value::Address(Var::Int), false),
        (Var::ToInt, Value::Address(Var::Array), false),
        (Var::ToInt, Value::AddressOfTarget(Var::ToInt), true),
        (Var::ToVoid, Value::AddressOfTarget(Var::ToVoid), false),
        (Var::ToFunction, Value::AddressOfGlobal(Name::One), true),
        (
            Var::ToFunction,
            Value::AddressOfGlobal(Name::Nothing),
            false,
        ),
        (Var::ToInt, Value::AddressOfGlobal(Name::Object), true),
        (Var::ToInt, Value::AddressOfGlobal(Name::Missing), false),
        (Var::ToInt, Value::Start(Var::Array), true),
        (Var::ToLong, Value::Start(Var::Array), false),
        (Var::ToInt, Value::Start(Var::Int), false),
    ]
}

/// What is called.
#[derive(Clone, Copy)]
enum Called {
    Named(Name),
    Through(Var),
}

/// A call: where its result goes, what is called, and with which values.
fn calls() -> &'static [(Option<Var>, Called, &'static [Var], bool)] {
    &[
        (Some(Var::Int), Called::Named(Name::One), &[Var::Int], true),
        (None, Called::Named(Name::One), &[Var::Int], true),
        (
            Some(Var::Long),
            Called::Named(Name::One),
            &[Var::Int],
            false,
        ),
        (None, Called::Named(Name::One), &[], false),
        (None, Called::Named(Name::One), &[Var::Int, Var::Int], false),
        (None, Called::Named(Name::One), &[Var::Long], false),
        (None, Called::Named(Name::Nothing), &[], true),
        (Some(Var::Int), Called::Named(Name::Nothing), &[], false),
        (None, Called::Named(Name::Many), &[Var::Int], true),
        (
            None,
            Called::Named(Name::Many),
            &[Var::Int, Var::Struct, Var::ToInt],
            true,
        ),
        (
            None,
            Called::Named(Name::Many),
            &[Var::Int, Var::Char],
            false,
        ),
        (None, Called::Named(Name::Many), &[], false),
        (None, Called::Named(Name::Old), &[Var::Long, Var::Int], true),
        (None, Called::Named(Name::Old), &[Var::Char], false),
        (None, Called::Named(Name::Open), &[], false),
        (None, Called::Named(Name::Object), &[], false),
        (None, Called::Named(Name::Missing), &[], false),
        (
            Some(Var::Int),
            Called::Through(Var::ToFunction),
            &[Var::Int],
            true,
        ),
        (None, Called::Through(Var::ToFunction), &[Var::Char], false),
        (None, Called::Through(Var::ToInt), &[], false),
        (None, Called::Through(Var::Int), &[], false),
    ]
}

/// A statement that holds others, or stands in one.
#[derive(Clone, Copy)]
enum Shape {
    If(Var),
    Zero(Var),
    ZeroTarget(Var),
    /// A switch with two labels of a kind and with these values.
    Switch(Var, IntKind, i128, i128),
    SwitchWithDefaults,
    SwitchInSwitch,
    CaseInLoop,
    BreakInSwitch,
    BreakInLoop,
    BreakInBlock,
    DefaultInLoop,
}

/// Statements, and whether they may be.
fn shapes() -> &'static [(Shape, bool)] {
    &[
        (Shape::If(Var::Char), true),
        (Shape::If(Var::ToVoid), true),
        (Shape::If(Var::Struct), false),
        (Shape::If(Var::Array), false),
        (Shape::Zero(Var::Struct), true),
        (Shape::Zero(Var::Array), true),
        (Shape::ZeroTarget(Var::ToInt), true),
        (Shape::ZeroTarget(Var::ToVoid), false),
        (Shape::ZeroTarget(Var::ToFunction), false),
        (Shape::Switch(Var::Int, IntKind::Int, 1, -2147483648), true),
        (Shape::Switch(Var::Long, IntKind::Long, 1, 4294967296), true),
        (Shape::Switch(Var::Int, IntKind::Int, 1, 1), false),
        (Shape::Switch(Var::Int, IntKind::Int, 1, 2147483648), false),
        (Shape::Switch(Var::Int, IntKind::Long, 1, 2), false),
        (Shape::Switch(Var::Char, IntKind::Char, 1, 2), false),
        (Shape::Switch(Var::ToInt, IntKind::Long, 1, 2), false),
        (Shape::SwitchWithDefaults, false),
        (Shape::SwitchInSwitch, true),
        (Shape::CaseInLoop, false),
        (Shape::BreakInSwitch, true),
        (Shape::BreakInLoop, true),
        (Shape::BreakInBlock, false),
        (Shape::DefaultInLoop, false),
    ]
}

/// The statement in `main`: an assignment, a call, or one of those.
#[derive(Clone, Copy)]
enum Tried<'a> {
    Assigned(Var, Value),
    Called(Option<Var>, Called, &'a [Var]),
    Shaped(Shape),
}

/// The numbers of the types.
#[derive(Clone, Copy)]
struct Types {
    int: TypeId,
    long: TypeId,
    char: TypeId,
    to_int: TypeId,
    to_long: TypeId,
    to_void: TypeId,
    whole: TypeId,
    array: TypeId,
    one: TypeId,
    to_function: TypeId,
    nothing: TypeId,
    many: TypeId,
    old: TypeId,
    open: TypeId,
    main: TypeId,
}

/// Adds `struct s { int n ; }`.
fn add_struct(g: &mut TypeGraph, pool: &mut NamePool, int: TypeId) -> Result<TypeId, Memory> {
    let tag = pool.intern(b"s")?;
    let a = g.add_agg(AggKind::Struct, Some(tag))?;
    finish(g, a, pool.intern(b"n")?, qualified(int, false, false), 0)?;
    if a.0 >= g.agg_count() {
        return Err(Memory);
    }
    g.add_node(Node::Agg(a))
}

/// Adds a function type with an incomplete result, `struct t ( void )`.
fn add_open(g: &mut TypeGraph, pool: &mut NamePool) -> Result<TypeId, Memory> {
    let tag = pool.intern(b"t")?;
    let a = g.add_agg(AggKind::Struct, Some(tag))?;
    if a.0 >= g.agg_count() {
        return Err(Memory);
    }
    let t = g.add_node(Node::Agg(a))?;
    function(g, t, None, Form::Prototype)
}

/// Adds the types.
#[tactic(auto, using(cil_base::proofs::KindLaws::long_there))]
fn add_types(g: &mut TypeGraph, pool: &mut NamePool) -> Result<Types, Memory> {
    let int = g.add_node(Node::Int(IntKind::Int))?;
    let kind = g.abi().long();
    let long = g.add_node(Node::Int(kind))?;
    let char = g.add_node(Node::Int(IntKind::Char))?;
    let void = g.add_node(Node::Void)?;
    let one = function(g, int, Some(int), Form::Prototype)?;
    Ok(Types {
        int,
        long,
        char,
        to_int: pointer(g, qualified(int, false, false))?,
        to_long: pointer(g, qualified(long, false, false))?,
        to_void: pointer(g, qualified(void, false, false))?,
        whole: add_struct(g, pool, int)?,
        array: array(g, qualified(int, false, false), Some(2))?,
        one,
        to_function: pointer(g, qualified(one, false, false))?,
        nothing: function(g, void, None, Form::Prototype)?,
        many: function(g, int, Some(int), Form::Variadic)?,
        old: function(g, int, None, Form::Unprototyped)?,
        open: add_open(g, pool)?,
        main: function(g, int, None, Form::Prototype)?,
    })
}

/// The type of a local.
fn type_of(types: &Types, v: Var) -> TypeId {
    match v {
        Var::Int => types.int,
        Var::Long => types.long,
        Var::Char => types.char,
        Var::ToInt => types.to_int,
        Var::ToLong => types.to_long,
        Var::ToVoid => types.to_void,
        Var::Struct => types.whole,
        Var::Array => types.array,
        Var::ToFunction => types.to_function,
    }
}

/// The number of a local.
fn local(v: Var) -> LocalId {
    LocalId(match v {
        Var::Int => 0,
        Var::Long => 1,
        Var::Char => 2,
        Var::ToInt => 3,
        Var::ToLong => 4,
        Var::ToVoid => 5,
        Var::Struct => 6,
        Var::Array => 7,
        Var::ToFunction => 8,
    })
}

/// The number of a global.
fn global(name: Name) -> EntityId {
    EntityId(match name {
        Name::One => 0,
        Name::Nothing => 1,
        Name::Many => 2,
        Name::Old => 3,
        Name::Object => 4,
        Name::Open => 6,
        Name::Missing => 7,
    })
}

/// A place without offsets.
fn place(alloc: Global, host: Host) -> Lval {
    Lval {
        host,
        offsets: Vec::new(alloc),
    }
}

/// A local as a place.
fn local_place(alloc: Global, v: Var) -> Lval {
    place(alloc, Host::Var(local(v)))
}

/// The value of a local.
fn value_of(alloc: Global, v: Var) -> Exp {
    Exp::Lval(local_place(alloc, v))
}

/// An expression in a box.
fn boxed(alloc: Global, e: Exp) -> Result<Box<Exp>, Memory> {
    Ok(Box::new(alloc, e)?)
}

/// What a pointer points to.
fn target(alloc: Global, p: Box<Exp>) -> Lval {
    place(alloc, Host::At(p))
}

/// The value of what a local points to.
fn target_value(alloc: Global, v: Var) -> Result<Box<Exp>, Memory> {
    let p = boxed(alloc, value_of(alloc, v))?;
    boxed(alloc, Exp::Lval(target(alloc, p)))
}

/// The address of what a local points to.
fn target_address(alloc: Global, v: Var) -> Result<Box<Exp>, Memory> {
    let p = boxed(alloc, value_of(alloc, v))?;
    boxed(alloc, Exp::AddrOf(target(alloc, p)))
}

/// The value behind offsets of a local.
fn behind(v: Var, offsets: Vec<Offset>) -> Exp {
    Exp::Lval(Lval {
        host: Host::Var(local(v)),
        offsets,
    })
}

/// A member of a local.
fn member(alloc: Global, v: Var, n: u32) -> Result<Box<Exp>, Memory> {
    let mut offsets = Vec::new(alloc);
    offsets.push(Offset::Field(n))?;
    boxed(alloc, behind(v, offsets))
}

/// An element of a local.
fn element(alloc: Global, v: Var, index: Var) -> Result<Box<Exp>, Memory> {
    let index = boxed(alloc, value_of(alloc, index))?;
    let mut offsets = Vec::new(alloc);
    offsets.push(Offset::Index(index))?;
    boxed(alloc, behind(v, offsets))
}

/// An operator and a local.
fn unary(alloc: Global, op: UnOp, v: Var) -> Result<Box<Exp>, Memory> {
    let inner = boxed(alloc, value_of(alloc, v))?;
    boxed(alloc, Exp::Un(op, inner))
}

/// Two locals and an operator.
fn binary(alloc: Global, op: BinOp, a: Var, b: Var) -> Result<Box<Exp>, Memory> {
    let a = boxed(alloc, value_of(alloc, a))?;
    let b = boxed(alloc, value_of(alloc, b))?;
    boxed(alloc, Exp::Bin(op, a, b))
}

/// A conversion of a local.
fn cast(alloc: Global, to: TypeId, v: Var) -> Result<Box<Exp>, Memory> {
    let inner = boxed(alloc, value_of(alloc, v))?;
    boxed(alloc, Exp::Cast(to, inner))
}

/// An expression.
fn expression(alloc: Global, types: &Types, value: Value) -> Result<Box<Exp>, Memory> {
    match value {
        Value::Of(v) => boxed(alloc, value_of(alloc, v)),
        Value::Target(v) => target_value(alloc, v),
        Value::Member(v, n) => member(alloc, v, n),
        Value::Element(v, index) => element(alloc, v, index),
        Value::Un(op, v) => unary(alloc, op, v),
        Value::Bin(op, a, b) => binary(alloc, op, a, b),
        Value::Cast(to, v) => cast(alloc, type_of(types, to), v),
        Value::Address(v) => boxed(alloc, Exp::AddrOf(local_place(alloc, v))),
        Value::AddressOfTarget(v) => target_address(alloc, v),
        Value::AddressOfGlobal(name) => {
            boxed(alloc, Exp::AddrOf(place(alloc, Host::Global(global(name)))))
        }
        Value::Start(v) => boxed(alloc, Exp::StartOf(local_place(alloc, v))),
    }
}

/// Adds an assignment.
fn add_assignment(
    stmts: &mut Vec<Stmt>,
    alloc: Global,
    types: &Types,
    to: Var,
    value: Value,
) -> Result<(), Memory> {
    let e = expression(alloc, types, value)?;
    let set = Instr::Set(local_place(alloc, to), Box::into_inner(e));
    stmts.push(Stmt::Instr(set))?;
    Ok(())
}

/// The values of locals.
fn arguments(alloc: Global, vars: &[Var]) -> Result<Vec<Exp>, Memory> {
    let mut values = Vec::new(alloc);
    for v in vars {
        values.push(value_of(alloc, *v))?;
    }
    Ok(values)
}

/// What is called.
fn callee(alloc: Global, called: Called) -> Callee {
    match called {
        Called::Named(name) => Callee::Direct(global(name)),
        Called::Through(v) => Callee::Through(value_of(alloc, v)),
    }
}

/// Where a result goes.
fn result(alloc: Global, to: Option<Var>) -> Option<Lval> {
    match to {
        None => None,
        Some(v) => Some(local_place(alloc, v)),
    }
}

/// Adds a call.
fn add_call(
    stmts: &mut Vec<Stmt>,
    alloc: Global,
    to: Option<Var>,
    called: Called,
    vars: &[Var],
) -> Result<(), Memory> {
    let values = arguments(alloc, vars)?;
    let call = Instr::Call(result(alloc, to), callee(alloc, called), values);
    stmts.push(Stmt::Instr(call))?;
    Ok(())
}

/// A statement that stands in another.
#[derive(Clone, Copy)]
enum Inner {
    Break,
    Default,
    Case(IntKind, i128),
}

/// The first statement that stands in another, and the second.
fn inside(shape: Shape) -> (Option<Inner>, Option<Inner>) {
    match shape {
        Shape::Switch(_, kind, m, n) => (Some(Inner::Case(kind, m)), Some(Inner::Case(kind, n))),
        Shape::SwitchWithDefaults => (Some(Inner::Default), Some(Inner::Default)),
        Shape::SwitchInSwitch | Shape::CaseInLoop => (Some(Inner::Case(IntKind::Int, 1)), None),
        Shape::BreakInSwitch | Shape::BreakInLoop | Shape::BreakInBlock => {
            (Some(Inner::Break), None)
        }
        Shape::DefaultInLoop => (Some(Inner::Default), None),
        Shape::If(_) | Shape::Zero(_) | Shape::ZeroTarget(_) => (None, None),
    }
}

/// Adds a statement that stands in another.
fn add_inner(stmts: &mut Vec<Stmt>, inner: Option<Inner>) -> Result<(), Memory> {
    let Some(inner) = inner else { return Ok(()) };
    stmts.push(match inner {
        Inner::Break => Stmt::Break,
        Inner::Default => Stmt::Default,
        Inner::Case(kind, value) => Stmt::Case(kind, value),
    })?;
    Ok(())
}

/// A statement with others in it.
fn statement(alloc: Global, shape: Shape, stmts: Vec<Stmt>) -> Stmt {
    match shape {
        Shape::If(v) => Stmt::If(value_of(alloc, v), stmts, Vec::new(alloc)),
        Shape::Zero(v) | Shape::ZeroTarget(v) => Stmt::Instr(Instr::Zero(local_place(alloc, v))),
        Shape::Switch(v, ..) => Stmt::Switch(value_of(alloc, v), stmts),
        Shape::SwitchWithDefaults | Shape::SwitchInSwitch | Shape::BreakInSwitch => {
            Stmt::Switch(value_of(alloc, Var::Int), stmts)
        }
        Shape::CaseInLoop | Shape::BreakInLoop | Shape::DefaultInLoop => Stmt::Loop(stmts),
        Shape::BreakInBlock => Stmt::Block(stmts),
    }
}

/// Adds a statement with others in it.
fn add_outer(stmts: &mut Vec<Stmt>, alloc: Global, shape: Shape) -> Result<(), Memory> {
    let (first, second) = inside(shape);
    let mut inner = Vec::new(alloc);
    add_inner(&mut inner, first)?;
    add_inner(&mut inner, second)?;
    stmts.push(statement(alloc, shape, inner))?;
    Ok(())
}

/// Adds a switch with a case, in one with the same case.
fn add_nested(stmts: &mut Vec<Stmt>, alloc: Global) -> Result<(), Memory> {
    let mut outer = Vec::new(alloc);
    add_inner(&mut outer, Some(Inner::Case(IntKind::Int, 1)))?;
    add_outer(&mut outer, alloc, Shape::SwitchInSwitch)?;
    stmts.push(statement(alloc, Shape::SwitchInSwitch, outer))?;
    Ok(())
}

/// Adds the zeroing of what a local points to.
fn add_zero_target(stmts: &mut Vec<Stmt>, alloc: Global, v: Var) -> Result<(), Memory> {
    let p = boxed(alloc, value_of(alloc, v))?;
    stmts.push(Stmt::Instr(Instr::Zero(target(alloc, p))))?;
    Ok(())
}

/// Adds a statement.
fn add_shape(stmts: &mut Vec<Stmt>, alloc: Global, shape: Shape) -> Result<(), Memory> {
    match shape {
        Shape::ZeroTarget(v) => add_zero_target(stmts, alloc, v),
        Shape::SwitchInSwitch => add_nested(stmts, alloc),
        _ => add_outer(stmts, alloc, shape),
    }
}

/// Adds what is tried.
fn add_tried(
    stmts: &mut Vec<Stmt>,
    alloc: Global,
    types: &Types,
    tried: Tried,
) -> Result<(), Memory> {
    match tried {
        Tried::Assigned(to, value) => add_assignment(stmts, alloc, types, to, value),
        Tried::Called(to, called, vars) => add_call(stmts, alloc, to, called, vars),
        Tried::Shaped(shape) => add_shape(stmts, alloc, shape),
    }
}

/// The locals' names and the locals.
const LOCALS: [(&[u8], Var); 9] = [
    (b"i", Var::Int),
    (b"l", Var::Long),
    (b"c", Var::Char),
    (b"pi", Var::ToInt),
    (b"pl", Var::ToLong),
    (b"pv", Var::ToVoid),
    (b"w", Var::Struct),
    (b"a", Var::Array),
    (b"f", Var::ToFunction),
];

/// Adds the locals of `main`.
fn add_locals(locals: &mut Vec<Local>, pool: &mut NamePool, types: &Types) -> Result<(), Memory> {
    for (name, v) in LOCALS {
        add_local(locals, pool, name, type_of(types, v))?;
    }
    Ok(())
}

/// Adds the globals before `main`.
fn add_first(
    globals: &mut Vec<GlobalDecl>,
    pool: &mut NamePool,
    types: &Types,
) -> Result<(), Memory> {
    declare(globals, pool, b"one", types.one)?;
    declare(globals, pool, b"none", types.nothing)?;
    declare(globals, pool, b"many", types.many)?;
    declare(globals, pool, b"old", types.old)?;
    let n = pool.intern(b"n")?;
    add_zero(globals, n, types.int, false)
}

/// Fills the body of `main`.
fn fill(
    body: &mut Body,
    pool: &mut NamePool,
    alloc: Global,
    types: &Types,
    tried: Tried,
) -> Result<(), Memory> {
    add_locals(&mut body.locals, pool, types)?;
    add_tried(&mut body.stmts, alloc, types, tried)
}

/// Adds `main`.
fn add_main(
    globals: &mut Vec<GlobalDecl>,
    pool: &mut NamePool,
    alloc: Global,
    types: &Types,
    tried: Tried,
) -> Result<(), Memory> {
    let name = pool.intern(b"main")?;
    let mut body = no_body(alloc);
    fill(&mut body, pool, alloc, types, tried)?;
    add_function(globals, name, types.main, body)
}

/// The answer for a program to which all is added.
fn answer_in(pool: &mut NamePool, u: &mut CilUnit, tried: Tried) -> Result<bool, Memory> {
    let alloc = u.graph.alloc();
    let types = add_types(&mut u.graph, pool)?;
    add_first(&mut u.globals, pool, &types)?;
    add_main(&mut u.globals, pool, alloc, &types, tried)?;
    declare(&mut u.globals, pool, b"open", types.open)?;
    check(u, pool)
}

/// The answer for the program with a statement.
fn answer(alloc: Global, tried: Tried) -> Result<bool, Memory> {
    let mut pool = NamePool::new(alloc);
    let mut u = empty(alloc);
    answer_in(&mut pool, &mut u, tried)
}

/// Expressions are typed as C11 6.5 says, without its conversions.
#[test]
fn tells_types_of_expressions(rt: HostRuntime) {
    for (number, (to, value, right)) in values().iter().enumerate() {
        let found = answer(rt.alloc(), Tried::Assigned(*to, *value));
        equal(&rt, &number, &found, &Ok(*right));
    }
}

/// Calls have the arguments and results that their function's type asks.
#[test]
fn tells_calls(rt: HostRuntime) {
    for (number, (to, called, vars, right)) in calls().iter().enumerate() {
        let found = answer(rt.alloc(), Tried::Called(*to, *called, vars));
        equal(&rt, &number, &found, &Ok(*right));
    }
}

/// Statements nest as C11 6.8 says.
#[test]
fn tells_statements(rt: HostRuntime) {
    for (number, (shape, right)) in shapes().iter().enumerate() {
        let found = answer(rt.alloc(), Tried::Shaped(*shape));
        equal(&rt, &number, &found, &Ok(*right));
    }
}
