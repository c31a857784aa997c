ghost use Rattle.std.specs.Prelude.{◌≡◌, ◌<◌, length};

use crate::equal::equal;
use cil_base::{IntKind, Memory, TypeId};
use std::process::Abort;
use type_compat::{compatible, composite};
use type_graph::{AggKind, Node, QualType, Quals, TypeGraph, TypeList};

/// A type with or without `const`.
fn qualified(of: TypeId, constant: bool) -> QualType
    ensures { result.of ≡ of }
{
    QualType {
        quals: Quals {
            constant,
            restricted: false,
        },
        of,
    }
}

/// A type is one of the graph's.
fn is_there(rt: &impl Abort, g: &TypeGraph, t: TypeId)
    ensures { t.0 < length g.now.nodes }
{
    assert!(rt; t.0 < g.len());
}

/// Each row holds two types, and whether they are compatible.
fn are_compared(rt: &impl Abort, g: &TypeGraph, rows: &[(TypeId, TypeId, bool)]) {
    for (a, b, answer) in rows {
        is_there(rt, g, *a);
        is_there(rt, g, *b);
        equal(rt, &(*a, *b), &compatible(g, *a, *b), answer);
    }
}

/// Each row holds two types and their composite.
fn are_composed(
    rt: &impl Abort,
    g: &mut TypeGraph,
    rows: &[(TypeId, TypeId, TypeId)],
) -> Result<(), Memory> {
    for (a, b, answer) in rows {
        is_there(rt, g, *a);
        is_there(rt, g, *b);
        let made = composite(g.alloc(), g, *a, *b)?;
        equal(rt, &(*a, *b), &made, answer);
    }
    Ok(())
}

/// A pointer to a type, with or without `const`.
fn pointer(
    rt: &impl Abort,
    g: &mut TypeGraph,
    to: TypeId,
    constant: bool,
) -> Result<TypeId, Memory> {
    is_there(rt, g, to);
    g.add_node(Node::Ptr(qualified(to, constant)))
}

/// An array of elements without `const`.
fn array(
    rt: &impl Abort,
    g: &mut TypeGraph,
    of: TypeId,
    bound: Option<u64>,
) -> Result<TypeId, Memory> {
    is_there(rt, g, of);
    g.add_node(Node::Array(qualified(of, false), bound))
}

/// `enum e` and `struct s`.
fn tagged(g: &mut TypeGraph) -> Result<[TypeId; 2], Memory> {
    let e = g.add_agg(AggKind::Enum, None)?;
    let colour = g.add_node(Node::Agg(e))?;
    let s = g.add_agg(AggKind::Struct, None)?;
    let record = g.add_node(Node::Agg(s))?;
    Ok([colour, record])
}

/// `int [3]`, `int [4]` and `int []`.
fn arrays(rt: &impl Abort, g: &mut TypeGraph, int: TypeId) -> Result<[TypeId; 3], Memory> {
    let three = array(rt, g, int, Some(3))?;
    let four = array(rt, g, int, Some(4))?;
    let open = array(rt, g, int, None)?;
    Ok([three, four, open])
}

/// The rows are C11 6.2.7, 6.7.2.2p4, 6.7.6.1p2 and 6.7.6.2p6.
fn compatible_types_are_told(rt: &impl Abort, g: &mut TypeGraph) -> Result<(), Memory> {
    let int = g.add_node(Node::Int(IntKind::Int))?;
    let unsigned = g.add_node(Node::Int(IntKind::UInt))?;
    let plain = pointer(rt, g, int, false)?;
    let constant = pointer(rt, g, int, true)?;
    let [three, four, open] = arrays(rt, g, int)?;
    let [colour, record] = tagged(g)?;
    let rows = [
        (int, int, true),
        (int, unsigned, false),
        (int, colour, true),
        (colour, int, true),
        (unsigned, colour, false),
        (record, int, false),
        (record, record, true),
        (plain, constant, false),
        (three, four, false),
        (three, open, true),
        (open, four, true),
        (plain, three, false),
    ];
    are_compared(rt, g, &rows);
    Ok(())
}

#[test]
fn tells_compatible_types(rt: HostRuntime) -> Result<(), Memory> {
    let mut g = TypeGraph::new(rt.alloc());
    compatible_types_are_told(&rt, &mut g)
}

/// Parameters of a function that gives int: of a prototype one of a type, else none.
struct Parameters {
    of: TypeId,
    proto: bool,
    variadic: bool,
}

/// A function that gives int.
fn function(
    rt: &impl Abort,
    g: &mut TypeGraph,
    int: TypeId,
    parameters: Parameters,
) -> Result<TypeId, Memory> {
    let Parameters {
        of,
        proto,
        variadic,
    } = parameters;
    is_there(rt, g, int);
    is_there(rt, g, of);
    let mut params = Vec::new(g.alloc());
    if proto {
        params.push(of)?;
    }
    g.add_node(Node::Func {
        ret: int,
        params: TypeList::new(params),
        proto,
        variadic,
    })
}

/// `int ()`, `int (int)`, `int (char)` and `int (int, ...)`.
fn functions(rt: &impl Abort, g: &mut TypeGraph) -> Result<[TypeId; 4], Memory> {
    let int = g.add_node(Node::Int(IntKind::Int))?;
    let char = g.add_node(Node::Int(IntKind::Char))?;
    let mut made = [int; 4];
    for (place, (of, proto, variadic)) in made.iter_mut().zip([
        (int, false, false),
        (int, true, false),
        (char, true, false),
        (int, true, true),
    ]) {
        let parameters = Parameters {
            of,
            proto,
            variadic,
        };
        *place = function(rt, g, int, parameters)?;
    }
    Ok(made)
}

/// Whether a function is compatible with each of some.
fn is_compared(rt: &impl Abort, g: &TypeGraph, a: TypeId, others: &[TypeId], answers: &[bool]) {
    for (b, answer) in others.iter().zip(answers.iter()) {
        are_compared(rt, g, &[(a, *b, *answer)]);
    }
}

/// A prototype meets a function without one where its parameters survive the promotions (C11 6.7.6.3p15).
fn compatible_functions_are_told(rt: &impl Abort, g: &mut TypeGraph) -> Result<(), Memory> {
    let functions = functions(rt, g)?;
    let answers = [
        [true, true, false, false],
        [true, true, false, false],
        [false, false, true, false],
        [false, false, false, true],
    ];
    for (a, row) in functions.iter().zip(answers.iter()) {
        is_compared(rt, g, *a, &functions, row);
    }
    Ok(())
}

#[test]
fn tells_compatible_functions(rt: HostRuntime) -> Result<(), Memory> {
    let mut g = TypeGraph::new(rt.alloc());
    compatible_functions_are_told(&rt, &mut g)
}

/// A bound is taken at a place within the type (C11 6.2.7p3), and only where the first has none.
fn bounds_are_taken(rt: &impl Abort, g: &mut TypeGraph) -> Result<(), Memory> {
    let int = g.add_node(Node::Int(IntKind::Int))?;
    let three = array(rt, g, int, Some(3))?;
    let open = array(rt, g, int, None)?;
    let to_three = pointer(rt, g, three, false)?;
    let to_open = pointer(rt, g, open, true)?;
    let constant_three = pointer(rt, g, three, true)?;
    let rows = [
        (open, three, three),
        (three, open, three),
        (to_open, to_three, constant_three),
        (to_three, to_open, to_three),
        (int, int, int),
    ];
    are_composed(rt, g, &rows)
}

#[test]
fn composes_types(rt: HostRuntime) -> Result<(), Memory> {
    let mut g = TypeGraph::new(rt.alloc());
    bounds_are_taken(&rt, &mut g)
}

/// `ret (*)(void)` or `ret (*)()`.
fn pointer_taking_none(
    rt: &impl Abort,
    g: &mut TypeGraph,
    ret: TypeId,
    proto: bool,
) -> Result<TypeId, Memory> {
    is_there(rt, g, ret);
    let function = g.add_node(Node::Func {
        ret,
        params: TypeList::new(Vec::new(g.alloc())),
        proto,
        variadic: false,
    })?;
    pointer(rt, g, function, false)
}

/// `ret (*)(first, second)`.
fn pointer_taking(
    rt: &impl Abort,
    g: &mut TypeGraph,
    ret: TypeId,
    first: TypeId,
    second: TypeId,
) -> Result<TypeId, Memory> {
    is_there(rt, g, ret);
    is_there(rt, g, first);
    is_there(rt, g, second);
    let mut params = Vec::new(g.alloc());
    params.push(first)?;
    params.push(second)?;
    let function = g.add_node(Node::Func {
        ret,
        params: TypeList::new(params),
        proto: true,
        variadic: false,
    })?;
    pointer(rt, g, function, false)
}

/// `ret (*)(void)` or `ret (*)()`, and behind it 61 types each of which takes the one before twice.
fn chain(rt: &impl Abort, g: &mut TypeGraph, ret: TypeId, proto: bool) -> Result<TypeId, Memory> {
    let mut last = pointer_taking_none(rt, g, ret, proto)?;
    for _k in 1..62 {
        last = pointer_taking(rt, g, ret, last, last)?;
    }
    Ok(last)
}

/// Unfolded, each of the types has more than 2^60 parts; together they have fewer than 400 nodes.
fn chains_are_compared(rt: &impl Abort, g: &mut TypeGraph) -> Result<(), Memory> {
    let void = g.add_node(Node::Void)?;
    let int = g.add_node(Node::Int(IntKind::Int))?;
    let prototyped = chain(rt, g, void, true)?;
    let plain = chain(rt, g, void, false)?;
    let other = chain(rt, g, int, true)?;
    let pairs = [
        (prototyped, plain, true),
        (plain, prototyped, true),
        (prototyped, other, false),
        (other, plain, false),
    ];
    are_compared(rt, g, &pairs);
    let composites = [
        (prototyped, plain, prototyped),
        (plain, prototyped, prototyped),
    ];
    are_composed(rt, g, &composites)
}

#[test]
fn chains_cost_their_nodes_and_not_their_parts(rt: HostRuntime) -> Result<(), Memory> {
    let mut g = TypeGraph::new(rt.alloc());
    chains_are_compared(&rt, &mut g)
}

/// `int (*[2])(first, second)`.
fn taking(
    rt: &impl Abort,
    g: &mut TypeGraph,
    int: TypeId,
    first: TypeId,
    second: TypeId,
) -> Result<TypeId, Memory> {
    let pointer = pointer_taking(rt, g, int, first, second)?;
    array(rt, g, pointer, Some(2))
}

/// `int (*)[3]` and `int (*)[]`.
fn pointers_to_arrays(
    rt: &impl Abort,
    g: &mut TypeGraph,
    int: TypeId,
) -> Result<[TypeId; 2], Memory> {
    let three = array(rt, g, int, Some(3))?;
    let open = array(rt, g, int, None)?;
    let to_three = pointer(rt, g, three, false)?;
    let to_open = pointer(rt, g, open, false)?;
    Ok([to_three, to_open])
}

/// A bound is taken from a parameter of the functions that an array's elements point to (C11 6.2.7p3, p4 and
/// 6.7.6.2p6).
fn nested_bounds_are_taken(rt: &impl Abort, g: &mut TypeGraph) -> Result<(), Memory> {
    let int = g.add_node(Node::Int(IntKind::Int))?;
    let [to_three, to_open] = pointers_to_arrays(rt, g, int)?;
    let three_open = taking(rt, g, int, to_three, to_open)?;
    let open_three = taking(rt, g, int, to_open, to_three)?;
    let both = taking(rt, g, int, to_three, to_three)?;
    let neither = taking(rt, g, int, to_open, to_open)?;
    let rows = [
        (three_open, open_three, both),
        (open_three, three_open, both),
        (neither, open_three, open_three),
    ];
    are_composed(rt, g, &rows)
}

#[test]
fn composes_types_at_nested_places(rt: HostRuntime) -> Result<(), Memory> {
    let mut g = TypeGraph::new(rt.alloc());
    nested_bounds_are_taken(&rt, &mut g)
}

/// A pointer to a struct that is not yet complete.
fn pointer_to_struct(rt: &impl Abort, g: &mut TypeGraph) -> Result<TypeId, Memory> {
    let a = g.add_agg(AggKind::Struct, None)?;
    let record = g.add_node(Node::Agg(a))?;
    pointer(rt, g, record, false)
}

/// Two structs with one tag in two scopes are two types, also behind pointers, and a pointer to a struct that is
/// not yet complete is its own composite (C11 6.2.7p1 within one unit, 6.7.2.3p5).
fn aggregates_are_compared(rt: &impl Abort, g: &mut TypeGraph) -> Result<(), Memory> {
    let to_first = pointer_to_struct(rt, g)?;
    let to_second = pointer_to_struct(rt, g)?;
    are_compared(
        rt,
        g,
        &[(to_first, to_first, true), (to_first, to_second, false)],
    );
    are_composed(rt, g, &[(to_first, to_first, to_first)])
}

#[test]
fn aggregates_end_the_comparison(rt: HostRuntime) -> Result<(), Memory> {
    let mut g = TypeGraph::new(rt.alloc());
    aggregates_are_compared(&rt, &mut g)
}
