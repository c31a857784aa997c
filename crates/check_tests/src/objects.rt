use crate::equal::equal;
use crate::graphs::{Form, array, finish, finish_with_two, function, pointer, qualified};
use crate::program::{add_local, declare, empty, no_body};
use cil_base::{AggId, Constant, EntityId, IntKind, Memory, NameId, NamePool, TypeId};
use cil_check::check;
use cil_tree::{Body, CilUnit, Exp, GlobalDecl, GlobalDef, ImageItem, Step, Stmt};
use std::alloc::Global;
use type_graph::{AggKind, Node, QualType, TypeGraph};

/// The types that the global has: `char`, `int`, `int *`, `enum e { red }`, `int [ 2 ]`, `int [ ]`,
/// `union u { int i ; int row [ 2 ] ; }`, `struct s { int x ; union u v ; }`, `struct t`, `void`, `int ( void )`,
/// `int ( int )`, `int ( int , ... )`, `int ( )`, `struct t ( void )` and `void ( void )`.
#[derive(Clone, Copy)]
enum Of {
    Char,
    Int,
    ToInt,
    Enum,
    TwoInts,
    SomeInts,
    Union,
    Struct,
    Incomplete,
    Void,
    Function,
    OneParameter,
    Variadic,
    Unprototyped,
    IncompleteResult,
    NoResult,
}

/// What the global is.
#[derive(Clone, Copy)]
enum Def {
    Declared,
    InternalDeclared,
    Zero,
    InternalZero,
    /// A body that returns 0, or nothing, with so many parameters and a further local.
    Gives(usize, Of),
    GivesNothing,
    /// A body that returns 0, whose parameter has another name than its local.
    GivesRenamed,
}

/// Definitions of a global, and whether it may have them.
fn definitions() -> &'static [(Of, Def, bool)] {
    &[
        (Of::Int, Def::Declared, true),
        (Of::SomeInts, Def::Declared, true),
        (Of::Incomplete, Def::Declared, true),
        (Of::Function, Def::Declared, true),
        (Of::Void, Def::Declared, false),
        (Of::Int, Def::InternalDeclared, false),
        (Of::Function, Def::InternalDeclared, false),
        (Of::Struct, Def::Zero, true),
        (Of::Struct, Def::InternalZero, true),
        (Of::SomeInts, Def::Zero, false),
        (Of::Incomplete, Def::Zero, false),
        (Of::Void, Def::Zero, false),
        (Of::Function, Def::Zero, false),
        (Of::Function, Def::Gives(0, Of::Struct), true),
        (Of::Function, Def::Gives(0, Of::Incomplete), false),
        (Of::Function, Def::Gives(0, Of::SomeInts), false),
        (Of::Function, Def::Gives(0, Of::Function), false),
        (Of::Function, Def::Gives(1, Of::Int), false),
        (Of::OneParameter, Def::Gives(1, Of::Int), true),
        (Of::OneParameter, Def::Gives(1, Of::Char), false),
        (Of::OneParameter, Def::Gives(0, Of::Int), false),
        (Of::OneParameter, Def::GivesRenamed, false),
        (Of::Variadic, Def::Gives(1, Of::Int), false),
        (Of::Unprototyped, Def::Gives(0, Of::Int), true),
        (Of::Unprototyped, Def::Gives(1, Of::Int), false),
        (Of::IncompleteResult, Def::Declared, true),
        (Of::IncompleteResult, Def::Gives(0, Of::Int), false),
        (Of::NoResult, Def::Gives(0, Of::Int), false),
        (Of::NoResult, Def::GivesNothing, true),
        (Of::Function, Def::GivesNothing, false),
        (Of::Int, Def::Gives(0, Of::Int), false),
    ]
}

const HERE: &[Step] = &[];

const X: &[Step] = &[Step::Field(0)];

const V: &[Step] = &[Step::Field(1)];

const I: &[Step] = &[Step::Field(1), Step::Field(0)];

const ROW_0: &[Step] = &[Step::Field(1), Step::Field(1), Step::Index(0)];

const ROW_1: &[Step] = &[Step::Field(1), Step::Field(1), Step::Index(1)];

const ROW_2: &[Step] = &[Step::Field(1), Step::Field(1), Step::Index(2)];

const NO_MEMBER: &[Step] = &[Step::Field(2)];

const INTO_X: &[Step] = &[Step::Field(0), Step::Field(0)];

const ELEMENT_OF_X: &[Step] = &[Step::Field(0), Step::Index(0)];

const ROW_OF_UNION: &[Step] = &[Step::Field(1), Step::Index(1)];

const FIRST: &[Step] = &[Step::Index(0)];

const SECOND: &[Step] = &[Step::Index(1)];

/// The paths of an image all of whose values are 1, and whether the type may have it.
fn images() -> &'static [(Of, &'static [&'static [Step]], bool)] {
    &[
        (Of::Int, &[HERE], true),
        (Of::Int, &[], false),
        (Of::Int, &[FIRST], false),
        (Of::Struct, &[X], true),
        (Of::Struct, &[X, I], true),
        (Of::Struct, &[X, ROW_0, ROW_1], true),
        (Of::Struct, &[I, ROW_1], false),
        (Of::Struct, &[ROW_1, ROW_0], false),
        (Of::Struct, &[I, X], false),
        (Of::Struct, &[X, X], false),
        (Of::Struct, &[V], false),
        (Of::Struct, &[ROW_2], false),
        (Of::Struct, &[NO_MEMBER], false),
        (Of::Struct, &[INTO_X], false),
        (Of::Struct, &[ELEMENT_OF_X], false),
        (Of::Struct, &[HERE], false),
        (Of::Union, &[ROW_OF_UNION], true),
        (Of::Union, &[X, ROW_OF_UNION], false),
        (Of::TwoInts, &[FIRST, SECOND], true),
        (Of::SomeInts, &[FIRST], false),
        (Of::Incomplete, &[X], false),
        (Of::Enum, &[HERE], true),
        (Of::Enum, &[X], false),
    ]
}

/// The value of a scalar, and whether it may have it. Number 0 is that of a function, 1 that of the object itself.
fn constants() -> &'static [(Of, Constant, bool)] {
    &[
        (Of::Int, Constant::Int(IntKind::Int, -2147483648), true),
        (Of::Int, Constant::Int(IntKind::Int, 2147483648), false),
        (Of::Int, Constant::Int(IntKind::Int, 0), false),
        (Of::Int, Constant::Int(IntKind::UInt, 1), false),
        (Of::Int, Constant::Address(EntityId(1), 0), false),
        (Of::Char, Constant::Int(IntKind::Char, -128), true),
        (Of::Char, Constant::Int(IntKind::Char, 128), false),
        (Of::Char, Constant::Int(IntKind::Int, 1), false),
        (Of::Enum, Constant::Int(IntKind::Int, 7), true),
        (Of::Enum, Constant::Int(IntKind::UInt, 7), false),
        (Of::ToInt, Constant::Int(IntKind::ULong, 16), true),
        (Of::ToInt, Constant::Int(IntKind::Long, 16), false),
        (Of::ToInt, Constant::Int(IntKind::ULong, 0), false),
        (Of::ToInt, Constant::Address(EntityId(1), 2147483647), true),
        (Of::ToInt, Constant::Address(EntityId(1), 2147483648), false),
        (Of::ToInt, Constant::Address(EntityId(1), -1), false),
        (Of::ToInt, Constant::Address(EntityId(0), 0), false),
        (Of::ToInt, Constant::Address(EntityId(2), 0), false),
        (Of::ToInt, Constant::Function(EntityId(0)), true),
        (Of::ToInt, Constant::Function(EntityId(1)), false),
    ]
}

/// Adds an aggregate with a tag.
fn tagged(
    g: &mut TypeGraph,
    pool: &mut NamePool,
    kind: AggKind,
    tag: &[u8],
) -> Result<AggId, Memory> {
    let tag = pool.intern(tag)?;
    g.add_agg(kind, Some(tag))
}

/// The type of an aggregate that is there.
fn type_of(g: &mut TypeGraph, a: AggId) -> Result<QualType, Memory> {
    if a.0 >= g.agg_count() {
        return Err(Memory);
    }
    let t = g.add_node(Node::Agg(a))?;
    Ok(qualified(t, false, false))
}

/// Adds `enum e { red }`.
fn add_enum(g: &mut TypeGraph, pool: &mut NamePool, int: QualType) -> Result<QualType, Memory> {
    let a = tagged(g, pool, AggKind::Enum, b"e")?;
    finish(g, a, pool.intern(b"red")?, int, 0)?;
    type_of(g, a)
}

/// Adds `struct t`.
fn add_incomplete(g: &mut TypeGraph, pool: &mut NamePool) -> Result<QualType, Memory> {
    let a = tagged(g, pool, AggKind::Struct, b"t")?;
    type_of(g, a)
}

/// Adds `union u { int i ; int row [ 2 ] ; }`.
fn add_union(g: &mut TypeGraph, pool: &mut NamePool, int: QualType) -> Result<QualType, Memory> {
    let a = tagged(g, pool, AggKind::Union, b"u")?;
    let row = array(g, int, Some(2))?;
    let i = pool.intern(b"i")?;
    let name = pool.intern(b"row")?;
    finish_with_two(g, a, (i, int), (name, qualified(row, false, false)))?;
    type_of(g, a)
}

/// Adds `struct s { int x ; union u v ; }`.
fn add_struct(g: &mut TypeGraph, pool: &mut NamePool, int: QualType) -> Result<QualType, Memory> {
    let union = add_union(g, pool, int)?;
    let a = tagged(g, pool, AggKind::Struct, b"s")?;
    let x = pool.intern(b"x")?;
    let v = pool.intern(b"v")?;
    finish_with_two(g, a, (x, int), (v, union))?;
    type_of(g, a)
}

/// Adds a function type.
fn add_function(
    g: &mut TypeGraph,
    pool: &mut NamePool,
    int: TypeId,
    of: Of,
) -> Result<TypeId, Memory> {
    match of {
        Of::OneParameter => function(g, int, Some(int), Form::Prototype),
        Of::Variadic => function(g, int, Some(int), Form::Variadic),
        Of::Unprototyped => function(g, int, None, Form::Unprototyped),
        Of::IncompleteResult => {
            let t = add_incomplete(g, pool)?;
            function(g, t.of, None, Form::Prototype)
        }
        Of::NoResult => {
            let void = g.add_node(Node::Void)?;
            function(g, void, None, Form::Prototype)
        }
        _ => function(g, int, None, Form::Prototype),
    }
}

/// Adds a type.
fn add_type(g: &mut TypeGraph, pool: &mut NamePool, of: Of) -> Result<TypeId, Memory> {
    let t = g.add_node(Node::Int(IntKind::Int))?;
    let int = qualified(t, false, false);
    match of {
        Of::Char => g.add_node(Node::Int(IntKind::Char)),
        Of::Int => Ok(t),
        Of::ToInt => pointer(g, int),
        Of::Enum => Ok(add_enum(g, pool, int)?.of),
        Of::TwoInts => array(g, int, Some(2)),
        Of::SomeInts => array(g, int, None),
        Of::Union => Ok(add_union(g, pool, int)?.of),
        Of::Struct => Ok(add_struct(g, pool, int)?.of),
        Of::Incomplete => Ok(add_incomplete(g, pool)?.of),
        Of::Void => g.add_node(Node::Void),
        _ => add_function(g, pool, t, of),
    }
}

/// What a body gives.
fn given(def: Def) -> Option<Exp> {
    match def {
        Def::GivesNothing => None,
        _ => Some(Exp::Const(IntKind::Int, 0)),
    }
}

/// How many parameters a body has, and the type of its local.
fn parts(def: Def) -> (usize, Of) {
    match def {
        Def::Gives(count, of) => (count, of),
        _ => (0, Of::Int),
    }
}

/// Fills a body with a parameter or none, and a local beside it.
fn fill(body: &mut Body, g: &mut TypeGraph, pool: &mut NamePool, def: Def) -> Result<(), Memory> {
    let (count, of) = parts(def);
    let ty = add_type(g, pool, of)?;
    let first = add_local(&mut body.locals, pool, b"p", ty)?;
    if count > 0 {
        body.params.push(first)?;
    }
    if matches!(def, Def::GivesRenamed) {
        body.params.push(pool.intern(b"q")?)?;
    }
    body.stmts.push(Stmt::Return(given(def)))?;
    Ok(())
}

/// Whether the global has a body.
fn has_body(def: Def) -> bool {
    matches!(def, Def::Gives(..) | Def::GivesNothing | Def::GivesRenamed)
}

/// What the global is, with a body if it has one.
fn definition(def: Def, body: Body) -> GlobalDef {
    match def {
        Def::Declared | Def::InternalDeclared => GlobalDef::Declared,
        Def::Zero | Def::InternalZero => GlobalDef::Zero,
        Def::Gives(..) | Def::GivesNothing | Def::GivesRenamed => GlobalDef::Body(body),
    }
}

/// Declares `int f ( void )`.
fn declare_f(pool: &mut NamePool, u: &mut CilUnit) -> Result<(), Memory> {
    let f = add_type(&mut u.graph, pool, Of::Function)?;
    declare(&mut u.globals, pool, b"f", f)
}

/// Adds the global behind it.
fn add_g(
    globals: &mut Vec<GlobalDecl>,
    name: NameId,
    ty: TypeId,
    internal: bool,
    def: GlobalDef,
) -> Result<(), Memory> {
    globals.push(GlobalDecl {
        name,
        ty,
        internal,
        def,
    })?;
    Ok(())
}

/// The answer for a program to which the global with a definition is added.
fn defined_in(pool: &mut NamePool, u: &mut CilUnit, of: Of, def: Def) -> Result<bool, Memory> {
    let ty = add_type(&mut u.graph, pool, of)?;
    declare_f(pool, u)?;
    let name = pool.intern(b"g")?;
    let mut body = no_body(u.graph.alloc());
    if has_body(def) {
        fill(&mut body, &mut u.graph, pool, def)?;
    }
    let internal = matches!(def, Def::InternalDeclared | Def::InternalZero);
    add_g(&mut u.globals, name, ty, internal, definition(def, body))?;
    check(u, pool)
}

/// The answer for a definition of the global behind `int f ( void ) ;`.
fn defined(alloc: Global, of: Of, def: Def) -> Result<bool, Memory> {
    let mut pool = NamePool::new(alloc);
    let mut u = empty(alloc);
    defined_in(&mut pool, &mut u, of, def)
}

/// Adds a value at a path.
fn add_item(
    items: &mut Vec<ImageItem>,
    alloc: Global,
    steps: &[Step],
    value: Constant,
) -> Result<(), Memory> {
    let mut path = Vec::new(alloc);
    path.extend_from_slice(steps)?;
    items.push(ImageItem { path, value })?;
    Ok(())
}

/// An image: values that are 1 at paths, or one scalar.
#[derive(Clone, Copy)]
enum Image<'a> {
    Ones(&'a [&'a [Step]]),
    Scalar(Constant),
}

/// Adds the values of an image.
fn add_items(items: &mut Vec<ImageItem>, alloc: Global, image: Image) -> Result<(), Memory> {
    match image {
        Image::Scalar(value) => add_item(items, alloc, HERE, value),
        Image::Ones(paths) => add_ones(items, alloc, paths),
    }
}

/// Adds values that are 1.
fn add_ones(items: &mut Vec<ImageItem>, alloc: Global, paths: &[&[Step]]) -> Result<(), Memory> {
    for steps in paths {
        add_item(items, alloc, steps, Constant::Int(IntKind::Int, 1))?;
    }
    Ok(())
}

/// The answer for a program to which the global with an image is added.
fn initialised_in(
    pool: &mut NamePool,
    u: &mut CilUnit,
    of: Of,
    image: Image,
) -> Result<bool, Memory> {
    let alloc = u.graph.alloc();
    let ty = add_type(&mut u.graph, pool, of)?;
    declare_f(pool, u)?;
    let name = pool.intern(b"g")?;
    let mut items = Vec::new(alloc);
    add_items(&mut items, alloc, image)?;
    add_g(&mut u.globals, name, ty, false, GlobalDef::Image(items))?;
    check(u, pool)
}

/// The answer for an image of the global behind `int f ( void ) ;`.
fn initialised(alloc: Global, of: Of, image: Image) -> Result<bool, Memory> {
    let mut pool = NamePool::new(alloc);
    let mut u = empty(alloc);
    initialised_in(&mut pool, &mut u, of, image)
}

/// Globals are defined as their types allow.
#[test]
fn tells_definitions(rt: HostRuntime) {
    for (number, (of, def, right)) in definitions().iter().enumerate() {
        equal(&rt, &number, &defined(rt.alloc(), *of, *def), &Ok(*right));
    }
}

/// The paths of an image lead to scalars, rise, and take one member of each union.
#[test]
fn tells_paths_of_images(rt: HostRuntime) {
    for (number, (of, paths, right)) in images().iter().enumerate() {
        let found = initialised(rt.alloc(), *of, Image::Ones(paths));
        equal(&rt, &number, &found, &Ok(*right));
    }
}

/// A scalar's value has its type and is not zero.
#[test]
fn tells_values_of_images(rt: HostRuntime) {
    for (number, (of, value, right)) in constants().iter().enumerate() {
        let found = initialised(rt.alloc(), *of, Image::Scalar(*value));
        equal(&rt, &number, &found, &Ok(*right));
    }
}
