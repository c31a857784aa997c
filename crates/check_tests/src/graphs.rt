ghost use Rattle.std.specs.Prelude.{◌≡◌, ◌<◌, true, None, length, IfOk, IsTrue};
ghost use Rattle.type_graph.specs.Arena.{EachType, complete, members_of};

use crate::equal::equal;
use cil_base::{AggId, IntKind, Memory, NameId, TypeId};
use cil_check::types_are_well_formed;
use std::alloc::Global;
use type_graph::{AggKind, Member, Members, Node, QualType, Quals, TypeGraph, TypeList};

/// The type from which another is derived.
#[derive(Clone, Copy, PartialEq, Eq)]
enum Of {
    Void,
    Char,
    Int,
    ConstInt,
    RestrictInt,
    ThreeInts,
    SomeInts,
    Function,
    IncompleteStruct,
}

/// The forms of a function type.
#[derive(Clone, Copy)]
pub(crate) enum Form {
    Prototype,
    Variadic,
    Unprototyped,
    UnprototypedVariadic,
}

/// What is added to a graph.
#[derive(Clone, Copy)]
enum Added {
    Pointer(Of),
    Array(Of, Option<u64>),
    Function(Of, Option<Of>, Form),
    Incomplete(AggKind),
    Untagged,
    WithoutMembers(AggKind),
    /// An aggregate with a member of a type, and with a value.
    Member(AggKind, Of, i32),
    EnumBehindStruct,
    /// A struct, and one with a member of its type, behind it or before it.
    HolderBehind,
    HolderBefore,
    /// A struct, and one with a pointer to an array of it, behind it or before it.
    PointingBehind,
    PointingBefore,
    /// A struct of so many elements of type `char` and one `char`, which no type names.
    Unnamed(u64),
}

/// What may be added, and what breaks one rule of types alone.
fn rows() -> &'static [(Added, bool)] {
    &[
        (Added::Pointer(Of::Int), true),
        (Added::Pointer(Of::Void), true),
        (Added::Pointer(Of::ConstInt), false),
        (Added::Pointer(Of::RestrictInt), false),
        (Added::Array(Of::Int, Some(1)), true),
        (Added::Array(Of::Int, None), true),
        (Added::Array(Of::ThreeInts, Some(2)), true),
        (Added::Array(Of::Char, Some(2147483647)), true),
        (Added::Array(Of::Char, Some(2147483648)), false),
        (Added::Array(Of::Int, Some(536870912)), false),
        (Added::Array(Of::ConstInt, Some(1)), false),
        (Added::Array(Of::Int, Some(0)), false),
        (Added::Array(Of::Void, Some(1)), false),
        (Added::Array(Of::SomeInts, Some(1)), false),
        (Added::Array(Of::Function, Some(1)), false),
        (Added::Array(Of::IncompleteStruct, Some(1)), false),
        (Added::Function(Of::Void, None, Form::Prototype), true),
        (
            Added::Function(Of::Int, Some(Of::Int), Form::Variadic),
            true,
        ),
        (
            Added::Function(Of::Int, Some(Of::IncompleteStruct), Form::Prototype),
            true,
        ),
        (Added::Function(Of::Int, None, Form::Unprototyped), true),
        (Added::Function(Of::ThreeInts, None, Form::Prototype), false),
        (Added::Function(Of::Function, None, Form::Prototype), false),
        (
            Added::Function(Of::Int, Some(Of::Void), Form::Prototype),
            false,
        ),
        (
            Added::Function(Of::Int, Some(Of::ThreeInts), Form::Prototype),
            false,
        ),
        (
            Added::Function(Of::Int, Some(Of::Function), Form::Prototype),
            false,
        ),
        (
            Added::Function(Of::Int, Some(Of::Int), Form::Unprototyped),
            false,
        ),
        (
            Added::Function(Of::Int, None, Form::UnprototypedVariadic),
            false,
        ),
        (Added::Function(Of::Int, None, Form::Variadic), false),
        (Added::Incomplete(AggKind::Struct), true),
        (Added::Incomplete(AggKind::Enum), false),
        (Added::Untagged, false),
        (Added::WithoutMembers(AggKind::Struct), false),
        (Added::WithoutMembers(AggKind::Enum), false),
        (Added::Member(AggKind::Struct, Of::Int, 0), true),
        (Added::Member(AggKind::Union, Of::ThreeInts, 0), true),
        (Added::Member(AggKind::Struct, Of::ConstInt, 0), false),
        (Added::Member(AggKind::Struct, Of::Int, 1), false),
        (Added::Member(AggKind::Enum, Of::Int, -5), true),
        (Added::Member(AggKind::Enum, Of::Char, 5), false),
        (Added::EnumBehindStruct, false),
        (Added::HolderBehind, true),
        (Added::HolderBefore, false),
        (Added::PointingBehind, true),
        (Added::PointingBefore, false),
        (Added::Unnamed(2147483646), true),
        (Added::Unnamed(2147483647), false),
    ]
}

/// A type with qualifiers, or without.
pub(crate) fn qualified(of: TypeId, constant: bool, restricted: bool) -> QualType
    ensures { result.of ≡ of }
{
    let quals = Quals {
        constant,
        restricted,
    };
    QualType { quals, of }
}

/// Adds a pointer to a type that is there.
pub(crate) fn pointer(g: &mut TypeGraph, to: QualType) -> Result<TypeId, Memory> {
    if to.of.0 >= g.len() {
        return Err(Memory);
    }
    g.add_node(Node::Ptr(to))
}

/// Adds an array of a type that is there.
pub(crate) fn array(g: &mut TypeGraph, of: QualType, bound: Option<u64>) -> Result<TypeId, Memory> {
    if of.of.0 >= g.len() {
        return Err(Memory);
    }
    g.add_node(Node::Array(of, bound))
}

/// One parameter or none, of a type that is there.
fn parameters(alloc: Global, g: &TypeGraph, param: Option<TypeId>) -> Result<Vec<TypeId>, Memory>
    ensures { IfOk result (λ v. EachType (length g.now.nodes) v.items) }
{
    let mut params = Vec::new(alloc);
    if let Some(t) = param {
        if t.0 >= g.len() {
            return Err(Memory);
        }
        params.push(t)?;
    }
    Ok(params)
}

/// Adds a function type over types that are there.
pub(crate) fn function(
    g: &mut TypeGraph,
    ret: TypeId,
    param: Option<TypeId>,
    form: Form,
) -> Result<TypeId, Memory> {
    if ret.0 >= g.len() {
        return Err(Memory);
    }
    let params = parameters(g.alloc(), g, param)?;
    g.add_node(Node::Func {
        ret,
        params: TypeList::new(params),
        proto: matches!(form, Form::Prototype | Form::Variadic),
        variadic: matches!(form, Form::Variadic | Form::UnprototypedVariadic),
    })
}

/// Adds a struct, union or enum without members.
fn open_aggregate(g: &mut TypeGraph, kind: AggKind) -> Result<AggId, Memory> {
    g.add_agg(kind, Some(NameId(0)))
}

/// Adds an incomplete struct, and its type.
fn incomplete(g: &mut TypeGraph) -> Result<TypeId, Memory> {
    let a = g.add_agg(AggKind::Struct, Some(NameId(0)))?;
    g.add_node(Node::Agg(a))
}

/// Adds the type from which another is derived.
fn source(g: &mut TypeGraph, of: Of) -> Result<QualType, Memory> {
    let int = g.add_node(Node::Int(IntKind::Int))?;
    let t = match of {
        Of::Void => g.add_node(Node::Void)?,
        Of::Char => g.add_node(Node::Int(IntKind::Char))?,
        Of::Int | Of::ConstInt | Of::RestrictInt => int,
        Of::ThreeInts => array(g, qualified(int, false, false), Some(3))?,
        Of::SomeInts => array(g, qualified(int, false, false), None)?,
        Of::Function => function(g, int, None, Form::Prototype)?,
        Of::IncompleteStruct => incomplete(g)?,
    };
    Ok(qualified(t, of == Of::ConstInt, of == Of::RestrictInt))
}

/// Whether an aggregate is there and has no members.
fn is_open(g: &TypeGraph, a: AggId) -> bool
    ensures there { IsTrue result → a.0 < length g.now.aggs }
    ensures open_yet { IsTrue result → members_of g.now.aggs a.0 ≡ None }
{
    a.0 < g.agg_count() && g.agg(a).members.is_none()
}

/// Whether a type is there and complete.
fn is_whole(g: &TypeGraph, t: TypeId) -> bool
    ensures { IsTrue result → complete g.now t.0 ≡ true }
{
    t.0 < g.len() && g.is_complete(t)
}

/// Gives an aggregate that is there no members.
fn finish_without(g: &mut TypeGraph, a: AggId) -> Result<(), Memory> {
    if !is_open(g, a) {
        return Err(Memory);
    }
    g.complete(a, Members::new(Vec::new(g.alloc())))
}

/// Gives an aggregate that is there one member.
pub(crate) fn finish(
    g: &mut TypeGraph,
    a: AggId,
    name: NameId,
    ty: QualType,
    value: i32,
) -> Result<(), Memory> {
    if !is_open(g, a) || !is_whole(g, ty.of) {
        return Err(Memory);
    }
    let mut members = Vec::new(g.alloc());
    members.push(Member::named(name, ty, value))?;
    g.complete(a, Members::new(members))
}

/// Gives an aggregate that is there two members.
pub(crate) fn finish_with_two(
    g: &mut TypeGraph,
    a: AggId,
    first: (NameId, QualType),
    second: (NameId, QualType),
) -> Result<(), Memory> {
    if !is_open(g, a) || !is_whole(g, first.1.of) || !is_whole(g, second.1.of) {
        return Err(Memory);
    }
    let mut members = Vec::new(g.alloc());
    members.push(Member::named(first.0, first.1, 0))?;
    members.push(Member::named(second.0, second.1, 0))?;
    g.complete(a, Members::new(members))
}

/// Adds an aggregate with one member.
fn with_member(g: &mut TypeGraph, kind: AggKind, of: Of, value: i32) -> Result<(), Memory> {
    let ty = source(g, of)?;
    let a = open_aggregate(g, kind)?;
    finish(g, a, NameId(1), ty, value)
}

/// Gives the first struct a member of type `int`, and the second one of the first's type.
fn finish_holder(g: &mut TypeGraph, held: AggId, holder: AggId) -> Result<(), Memory> {
    let int = g.add_node(Node::Int(IntKind::Int))?;
    finish(g, held, NameId(1), qualified(int, false, false), 0)?;
    if held.0 >= g.agg_count() {
        return Err(Memory);
    }
    let t = g.add_node(Node::Agg(held))?;
    finish(g, holder, NameId(1), qualified(t, false, false), 0)
}

/// Gives the first struct a member of type `int`, and the second a pointer to an array of the first.
fn finish_pointing(g: &mut TypeGraph, element: AggId, holder: AggId) -> Result<(), Memory> {
    let int = g.add_node(Node::Int(IntKind::Int))?;
    finish(g, element, NameId(1), qualified(int, false, false), 0)?;
    if element.0 >= g.agg_count() {
        return Err(Memory);
    }
    let t = g.add_node(Node::Agg(element))?;
    let row = array(g, qualified(t, false, false), Some(2))?;
    let p = pointer(g, qualified(row, false, false))?;
    finish(g, holder, NameId(1), qualified(p, false, false), 0)
}

/// Adds two structs.
fn two_structs(g: &mut TypeGraph) -> Result<(AggId, AggId), Memory> {
    let first = open_aggregate(g, AggKind::Struct)?;
    let second = open_aggregate(g, AggKind::Struct)?;
    Ok((first, second))
}

/// Adds a struct that no type names.
fn unnamed(g: &mut TypeGraph, count: u64) -> Result<(), Memory> {
    let char = source(g, Of::Char)?;
    let chars = array(g, char, Some(count))?;
    let a = open_aggregate(g, AggKind::Struct)?;
    finish_with_two(
        g,
        a,
        (NameId(1), qualified(chars, false, false)),
        (NameId(2), char),
    )
}

/// Adds types derived from others.
fn derive(g: &mut TypeGraph, added: Added) -> Result<(), Memory> {
    match added {
        Added::Pointer(of) => {
            let to = source(g, of)?;
            pointer(g, to)?;
        }
        Added::Array(of, bound) => {
            let element = source(g, of)?;
            array(g, element, bound)?;
        }
        Added::Function(ret, None, form) => {
            let ret = source(g, ret)?;
            function(g, ret.of, None, form)?;
        }
        Added::Function(ret, Some(param), form) => {
            let ret = source(g, ret)?;
            let param = source(g, param)?;
            function(g, ret.of, Some(param.of), form)?;
        }
        _ => (),
    }
    Ok(())
}

/// Adds two structs in order.
fn add_pair(g: &mut TypeGraph, added: Added) -> Result<(), Memory> {
    let (first, second) = two_structs(g)?;
    match added {
        Added::HolderBehind => finish_holder(g, first, second),
        Added::HolderBefore => finish_holder(g, second, first),
        Added::PointingBehind => finish_pointing(g, first, second),
        _ => finish_pointing(g, second, first),
    }
}

/// Adds an aggregate, or two.
fn add_aggregates(g: &mut TypeGraph, added: Added) -> Result<(), Memory> {
    match added {
        Added::Incomplete(kind) => {
            open_aggregate(g, kind)?;
            Ok(())
        }
        Added::Untagged => {
            g.add_agg(AggKind::Struct, None)?;
            Ok(())
        }
        Added::WithoutMembers(kind) => {
            let a = open_aggregate(g, kind)?;
            finish_without(g, a)
        }
        Added::Member(kind, of, value) => with_member(g, kind, of, value),
        Added::EnumBehindStruct => {
            open_aggregate(g, AggKind::Struct)?;
            with_member(g, AggKind::Enum, Of::Int, 0)
        }
        Added::Unnamed(count) => unnamed(g, count),
        _ => add_pair(g, added),
    }
}

/// The answer for a graph to which that is added.
fn answer_in(g: &mut TypeGraph, added: Added) -> Result<bool, Memory> {
    match added {
        Added::Pointer(_) | Added::Array(..) | Added::Function(..) => derive(g, added)?,
        _ => add_aggregates(g, added)?,
    }
    types_are_well_formed(g.alloc(), g)
}

/// The answer for a graph of that alone.
fn answer(alloc: Global, added: Added) -> Result<bool, Memory> {
    let mut g = TypeGraph::new(alloc);
    answer_in(&mut g, added)
}

/// Types that keep the rules pass, and one that breaks one rule does not.
#[test]
fn tells_well_formed_types(rt: HostRuntime) {
    for (number, (added, right)) in rows().iter().enumerate() {
        equal(&rt, &number, &answer(rt.alloc(), *added), &Ok(*right));
    }
}
