use crate::equal::equal;
use crate::graphs::{Form, finish, finish_with_two, function, pointer, qualified};
use crate::program::{add_function, add_zero, empty, no_body};
use cil_base::{IntKind, LabelId, Memory, NameId, NamePool, TypeId};
use cil_check::check;
use cil_tree::{Body, CilUnit, Exp, GlobalDecl, GlobalDef, Local, Stmt};
use std::alloc::Global;
use type_graph::{AggKind, Node, TypeGraph, TypeList};

/// What has a name in the program `enum color { red } ; struct s { int x ; int y ; } ; int n ; static int k ;`
/// `int main ( void ) { int i ; int j ; l : ; m : ; return 0 ; }`.
#[derive(Clone, Copy, PartialEq, Eq)]
enum Named {
    EnumTag,
    StructTag,
    Enumerator,
    Member,
    Object,
    Internal,
    Main,
    Local,
    Label,
}

/// What gets another name, the name, and whether it may have it.
fn rows() -> &'static [(Named, &'static [u8], bool)] {
    &[
        (Named::EnumTag, b"colour", true),
        (Named::EnumTag, b"s", false),
        (Named::EnumTag, b"n", true),
        (Named::EnumTag, b"while", false),
        (Named::StructTag, b"exit", true),
        (Named::StructTag, b"__extension__", false),
        (Named::Enumerator, b"_Red9", true),
        (Named::Enumerator, b"n", false),
        (Named::Enumerator, b"k", false),
        (Named::Enumerator, b"getchar", false),
        (Named::Enumerator, b"x", true),
        (Named::Enumerator, b"int", false),
        (Named::Member, b"y", false),
        (Named::Member, b"red", true),
        (Named::Member, b"free", true),
        (Named::Member, b"", false),
        (Named::Object, b"main", false),
        (Named::Object, b"malloc", true),
        (Named::Object, b"k", false),
        (Named::Object, b"s", true),
        (Named::Object, b"9n", false),
        (Named::Object, b"__builtin_x", false),
        (Named::Object, b"__builtin_memset", false),
        (Named::Internal, b"putchar", false),
        (Named::Internal, b"n___0", true),
        (Named::Internal, b"n 0", false),
        (Named::Main, b"other", true),
        (Named::Main, b"exit", true),
        (Named::Main, b"setjmp", false),
        (Named::Local, b"j", false),
        (Named::Local, b"n", false),
        (Named::Local, b"main", false),
        (Named::Local, b"red", false),
        (Named::Local, b"abort", false),
        (Named::Local, b"s", true),
        (Named::Local, b"l", true),
        (Named::Local, b"asm", false),
        (Named::Label, b"m", false),
        (Named::Label, b"n", true),
        (Named::Label, b"exit", true),
        (Named::Label, b"goto", false),
    ]
}

/// A program's name, or the other one where it is the one that is changed.
fn text(
    pool: &mut NamePool,
    changed: Named,
    other: &[u8],
    named: Named,
    usual: &[u8],
) -> Result<NameId, Memory> {
    if named == changed {
        pool.intern(other)
    } else {
        pool.intern(usual)
    }
}

/// Adds the enum and the struct.
fn add_aggregates(
    g: &mut TypeGraph,
    pool: &mut NamePool,
    changed: Named,
    other: &[u8],
    int: TypeId,
) -> Result<(), Memory> {
    let ty = qualified(int, false, false);
    let color = text(pool, changed, other, Named::EnumTag, b"color")?;
    let red = text(pool, changed, other, Named::Enumerator, b"red")?;
    let a = g.add_agg(AggKind::Enum, Some(color))?;
    finish(g, a, red, ty, 0)?;
    let s = text(pool, changed, other, Named::StructTag, b"s")?;
    let x = text(pool, changed, other, Named::Member, b"x")?;
    let y = pool.intern(b"y")?;
    let b = g.add_agg(AggKind::Struct, Some(s))?;
    finish_with_two(g, b, (x, ty), (y, ty))
}

/// Adds the two locals.
fn add_locals(
    locals: &mut Vec<Local>,
    pool: &mut NamePool,
    changed: Named,
    other: &[u8],
    int: TypeId,
) -> Result<(), Memory> {
    let i = text(pool, changed, other, Named::Local, b"i")?;
    let j = pool.intern(b"j")?;
    locals.push(Local { name: i, ty: int })?;
    locals.push(Local { name: j, ty: int })?;
    Ok(())
}

/// Adds the two labels.
fn add_labels(
    labels: &mut Vec<NameId>,
    pool: &mut NamePool,
    changed: Named,
    other: &[u8],
) -> Result<(), Memory> {
    labels.push(text(pool, changed, other, Named::Label, b"l")?)?;
    labels.push(pool.intern(b"m")?)?;
    Ok(())
}

/// Adds the statements of `main`.
fn add_statements(stmts: &mut Vec<Stmt>) -> Result<(), Memory> {
    stmts.push(Stmt::Label(LabelId(0)))?;
    stmts.push(Stmt::Label(LabelId(1)))?;
    stmts.push(Stmt::Return(Some(Exp::Const(IntKind::Int, 0))))?;
    Ok(())
}

/// Fills the body of `main`.
fn fill(
    body: &mut Body,
    pool: &mut NamePool,
    changed: Named,
    other: &[u8],
    int: TypeId,
) -> Result<(), Memory> {
    add_locals(&mut body.locals, pool, changed, other, int)?;
    add_labels(&mut body.labels, pool, changed, other)?;
    add_statements(&mut body.stmts)
}

/// Adds the two objects.
fn add_objects(
    globals: &mut Vec<GlobalDecl>,
    pool: &mut NamePool,
    changed: Named,
    other: &[u8],
    int: TypeId,
) -> Result<(), Memory> {
    let n = text(pool, changed, other, Named::Object, b"n")?;
    let k = text(pool, changed, other, Named::Internal, b"k")?;
    add_zero(globals, n, int, false)?;
    add_zero(globals, k, int, true)
}

/// The answer for a program to which all is added.
fn answer_in(
    pool: &mut NamePool,
    u: &mut CilUnit,
    changed: Named,
    other: &[u8],
) -> Result<bool, Memory> {
    let alloc = u.graph.alloc();
    let int = u.graph.add_node(Node::Int(IntKind::Int))?;
    let ty = function(&mut u.graph, int, None, Form::Prototype)?;
    add_aggregates(&mut u.graph, pool, changed, other, int)?;
    add_objects(&mut u.globals, pool, changed, other, int)?;
    let main = text(pool, changed, other, Named::Main, b"main")?;
    let mut body = no_body(alloc);
    fill(&mut body, pool, changed, other, int)?;
    add_function(&mut u.globals, main, ty, body)?;
    check(u, pool)
}

/// The answer for the program with another name.
fn answer(alloc: Global, changed: Named, other: &[u8]) -> Result<bool, Memory> {
    let mut pool = NamePool::new(alloc);
    let mut u = empty(alloc);
    answer_in(&mut pool, &mut u, changed, other)
}

/// Names are identifiers, and differ where they have to.
#[test]
fn tells_names(rt: HostRuntime) {
    for (number, (changed, other, right)) in rows().iter().enumerate() {
        let found = answer(rt.alloc(), *changed, other);
        equal(&rt, &number, &found, &Ok(*right));
    }
}

/// How `__builtin_memset` is declared.
#[derive(Clone, Copy)]
struct Memset {
    length: IntKind,
    internal: bool,
}

/// The type of `void * __builtin_memset ( void * , int , .. )`, with a third parameter of a kind.
fn memset_type(g: &mut TypeGraph, length: IntKind) -> Result<TypeId, Memory> {
    if !length.is_of(g.abi()) {
        return Err(Memory);
    }
    let int = g.add_node(Node::Int(IntKind::Int))?;
    let length = g.add_node(Node::Int(length))?;
    let void = g.add_node(Node::Void)?;
    let p = pointer(g, qualified(void, false, false))?;
    let mut params = Vec::new(g.alloc());
    if int.0 >= g.len() || length.0 >= g.len() || p.0 >= g.len() {
        return Err(Memory);
    }
    params.push(p)?;
    params.push(int)?;
    params.push(length)?;
    g.add_node(Node::Func {
        ret: p,
        params: TypeList::new(params),
        proto: true,
        variadic: false,
    })
}

/// The answer for a program to which it is added.
fn with_memset_in(pool: &mut NamePool, u: &mut CilUnit, memset: Memset) -> Result<bool, Memory> {
    let ty = memset_type(&mut u.graph, memset.length)?;
    let name = pool.intern(b"__builtin_memset")?;
    u.globals.push(GlobalDecl {
        name,
        ty,
        internal: memset.internal,
        def: GlobalDef::Declared,
    })?;
    check(u, pool)
}

/// The answer for a program that declares it.
fn with_memset(alloc: Global, memset: Memset) -> Result<bool, Memory> {
    let mut pool = NamePool::new(alloc);
    let mut u = empty(alloc);
    with_memset_in(&mut pool, &mut u, memset)
}

/// `__builtin_memset` is external and has its type.
#[test]
fn tells_the_builtin(rt: HostRuntime) {
    for (length, internal, right) in [
        (IntKind::ULong, false, true),
        (IntKind::UInt, false, false),
        (IntKind::ULong, true, false),
    ] {
        let memset = Memset { length, internal };
        equal(
            &rt,
            &(length, internal),
            &with_memset(rt.alloc(), memset),
            &Ok(right),
        );
    }
}
