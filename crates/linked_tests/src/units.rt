ghost use Rattle.std.specs.Prelude.{◌<◌, length};

use cil_base::{BinOp, Constant, EntityId, IntKind, LocalId, Memory, NameId, NamePool, TypeId};
use cil_tree::{
    Body, Callee, CilUnit, Exp, GlobalDecl, GlobalDef, Host, ImageItem, Instr, Local, Lval, Stmt,
};
use std::alloc::Global;
use type_graph::{Node, TypeGraph, TypeList};

/// A step of a function that makes a number of digits.
#[derive(Clone, Copy)]
pub(crate) enum Digit {
    /// The digit itself.
    Number(u64),
    /// The value of a global.
    Value(u32),
    /// What a call of a global gives.
    Call(u32),
    /// No digit: a global becomes this number.
    Set(u32, u64),
}

/// What a global is.
#[derive(Clone, Copy)]
pub(crate) enum Form {
    /// `int name ;` or, where it is declared alone, `extern int name ;`
    Object(Option<i128>),
    /// `int name ( void )`, which gives the number with these digits.
    Function(Option<&'static [Digit]>),
}

/// A global of a unit, by its linkage.
#[derive(Clone, Copy)]
pub(crate) enum Row {
    External(&'static [u8], Form),
    Internal(&'static [u8], Form),
}

/// The names of the two locals that each function of a unit has.
pub(crate) struct Locals {
    pub(crate) sum: &'static [u8],
    pub(crate) digit: &'static [u8],
}

/// A unit, by its globals.
pub(crate) struct Unit {
    pub(crate) locals: Locals,
    pub(crate) rows: &'static [Row],
}

/// The numbers of the types `int` and `int ( void )`, and of the names of the two locals, and where what is made comes from.
#[derive(Clone, Copy)]
struct Numbers {
    alloc: Global,
    int: TypeId,
    function: TypeId,
    sum: NameId,
    digit: NameId,
}

const SUM: LocalId = LocalId(0);

const DIGIT: LocalId = LocalId(1);

fn place(alloc: Global, host: Host) -> Lval {
    Lval {
        host,
        offsets: Vec::new(alloc),
    }
}

fn value(alloc: Global, host: Host) -> Exp {
    Exp::Lval(place(alloc, host))
}

fn number(n: u64) -> Exp {
    Exp::Const(IntKind::Int, n)
}

fn boxed(alloc: Global, e: Exp) -> Result<Box<Exp>, Memory> {
    Ok(Box::new(alloc, e)?)
}

fn set(alloc: Global, host: Host, e: Box<Exp>) -> Stmt {
    Stmt::Instr(Instr::Set(place(alloc, host), Box::into_inner(e)))
}

fn add(stmts: &mut Vec<Stmt>, s: Stmt) -> Result<(), Memory> {
    stmts.push(s)?;
    Ok(())
}

/// `sum * 10`
fn tens(alloc: Global) -> Result<Box<Exp>, Memory> {
    let sum = boxed(alloc, value(alloc, Host::Var(SUM)))?;
    let ten = boxed(alloc, number(10))?;
    boxed(alloc, Exp::Bin(BinOp::Mul, sum, ten))
}

/// Adds `sum = sum * 10 + e`.
fn add_digit(stmts: &mut Vec<Stmt>, alloc: Global, e: Exp) -> Result<(), Memory> {
    let e = boxed(alloc, e)?;
    let tens = tens(alloc)?;
    let sum = boxed(alloc, Exp::Bin(BinOp::Add, tens, e))?;
    add(stmts, set(alloc, Host::Var(SUM), sum))
}

/// `digit = f ( )`
fn call(alloc: Global, f: u32) -> Stmt {
    let to = place(alloc, Host::Var(DIGIT));
    Stmt::Instr(Instr::Call(Some(to), Callee::Direct(EntityId(f)), Vec::new(alloc)))
}

/// Adds a call, and its result as a digit.
fn add_call(stmts: &mut Vec<Stmt>, alloc: Global, f: u32) -> Result<(), Memory> {
    add(stmts, call(alloc, f))?;
    add_digit(stmts, alloc, value(alloc, Host::Var(DIGIT)))
}

/// Adds `host = n`.
fn add_set(stmts: &mut Vec<Stmt>, alloc: Global, host: Host, n: u64) -> Result<(), Memory> {
    let e = boxed(alloc, number(n))?;
    add(stmts, set(alloc, host, e))
}

fn add_step(stmts: &mut Vec<Stmt>, alloc: Global, d: Digit) -> Result<(), Memory> {
    match d {
        Digit::Number(n) => add_digit(stmts, alloc, number(n)),
        Digit::Value(x) => add_digit(stmts, alloc, value(alloc, Host::Global(EntityId(x)))),
        Digit::Call(f) => add_call(stmts, alloc, f),
        Digit::Set(x, n) => add_set(stmts, alloc, Host::Global(EntityId(x)), n),
    }
}

fn statements(alloc: Global, digits: &[Digit]) -> Result<Vec<Stmt>, Memory> {
    let mut stmts = Vec::new(alloc);
    add_set(&mut stmts, alloc, Host::Var(SUM), 0)?;
    for d in digits {
        add_step(&mut stmts, alloc, *d)?;
    }
    add(&mut stmts, Stmt::Return(Some(value(alloc, Host::Var(SUM)))))?;
    Ok(stmts)
}

/// The two locals.
fn two_locals(n: Numbers) -> Result<Vec<Local>, Memory> {
    let mut locals = Vec::new(n.alloc);
    for name in [n.sum, n.digit] {
        locals.push(Local { name, ty: n.int })?;
    }
    Ok(locals)
}

fn body_of(n: Numbers, digits: &[Digit]) -> Result<Body, Memory> {
    let locals = two_locals(n)?;
    let stmts = statements(n.alloc, digits)?;
    Ok(Body {
        params: Vec::new(n.alloc),
        locals,
        labels: Vec::new(n.alloc),
        stmts,
    })
}

fn image(alloc: Global, v: i128) -> Result<GlobalDef, Memory> {
    let mut items = Vec::new(alloc);
    items.push(ImageItem {
        path: Vec::new(alloc),
        value: Constant::Int(IntKind::Int, v),
    })?;
    Ok(GlobalDef::Image(items))
}

fn definition(n: Numbers, form: Form) -> Result<GlobalDef, Memory> {
    match form {
        Form::Object(None) | Form::Function(None) => Ok(GlobalDef::Declared),
        Form::Object(Some(v)) => image(n.alloc, v),
        Form::Function(Some(digits)) => {
            let body = body_of(n, digits)?;
            Ok(GlobalDef::Body(body))
        }
    }
}

fn type_of(n: Numbers, form: Form) -> TypeId {
    match form {
        Form::Object(_) => n.int,
        Form::Function(_) => n.function,
    }
}

fn add_global(
    globals: &mut Vec<GlobalDecl>,
    names: &mut NamePool,
    n: Numbers,
    row: Row,
) -> Result<(), Memory> {
    let (name, form, internal) = match row {
        Row::External(name, form) => (name, form, false),
        Row::Internal(name, form) => (name, form, true),
    };
    let name = names.intern(name)?;
    let def = definition(n, form)?;
    globals.push(GlobalDecl {
        name,
        ty: type_of(n, form),
        internal,
        def,
    })?;
    Ok(())
}

/// Adds `int ( void )`.
fn add_function(g: &mut TypeGraph, int: TypeId) -> Result<TypeId, Memory>
    requires { int.0 < length g.old.nodes }
{
    let params = TypeList::new(Vec::new(g.alloc()));
    g.add_node(Node::Func {
        ret: int,
        params,
        proto: true,
        variadic: false,
    })
}

/// Adds the types, and the names of the locals.
fn numbers_of(graph: &mut TypeGraph, names: &mut NamePool, unit: &Unit) -> Result<Numbers, Memory> {
    let int = graph.add_node(Node::Int(IntKind::Int))?;
    let function = add_function(graph, int)?;
    let sum = names.intern(unit.locals.sum)?;
    let digit = names.intern(unit.locals.digit)?;
    Ok(Numbers {
        alloc: graph.alloc(),
        int,
        function,
        sum,
        digit,
    })
}

fn add_globals(
    globals: &mut Vec<GlobalDecl>,
    names: &mut NamePool,
    n: Numbers,
    rows: &[Row],
) -> Result<(), Memory> {
    for row in rows {
        add_global(globals, names, n, *row)?;
    }
    Ok(())
}

fn fill(made: &mut CilUnit, names: &mut NamePool, unit: &Unit) -> Result<(), Memory> {
    let n = numbers_of(&mut made.graph, names, unit)?;
    add_globals(&mut made.globals, names, n, unit.rows)
}

/// Adds a unit.
pub(crate) fn add_unit(
    units: &mut Vec<CilUnit>,
    alloc: Global,
    names: &mut NamePool,
    unit: &Unit,
) -> Result<(), Memory> {
    let mut made = CilUnit {
        graph: TypeGraph::new(alloc),
        globals: Vec::new(alloc),
    };
    fill(&mut made, names, unit)?;
    units.push(made)?;
    Ok(())
}
