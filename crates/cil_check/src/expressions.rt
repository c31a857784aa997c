ghost use Rattle.std.specs.Prelude.{◌≡◌, ◌<◌, IfSome, length};
ghost use Rattle.cil_tree.specs.View.{type_at, exp_of, host_of, lval_of};
ghost use Rattle.cil_tree.specs.Typing.{type_of, host_type, part_type, place_type, global_type, local_type};
ghost use Rattle.type_graph.specs.Shapes.{shape};
ghost use Rattle.cil_check.specs.Seen.{IsThere, told, at, seen_scope, steps_to};

use crate::operators::{
    address, binary, cast, constant, element, member, pointed, read, start, unary,
};
use crate::scope::Scope;
use crate::seen::{Seen, type_at};
use cil_base::{EntityId, LocalId, TypeId};
use cil_tree::{Exp, Host, Lval, Offset};
use type_graph::TypeGraph;

/// The type of an expression; none where it is ill-typed.
#[cycle(typing)]
pub(crate) fn type_of(s: &Scope, e: &Exp) -> Option<Seen>
    ensures told { told s.now.unit.now.graph result ≡ type_of (seen_scope s.now) (exp_of s.now.unit.now.graph.nodes e.now) }
    ensures there { IfSome result (IsThere s.now.unit.now.graph) }
{
    let g = &s.unit.graph;
    match e {
        Exp::Const(kind, value) => constant(g, *kind, *value),
        Exp::Lval(place) => read(g, place_type(s, place)?),
        Exp::Un(op, operand) => unary(g, *op, type_of(s, operand)?),
        Exp::Bin(op, left, right) => binary(g, *op, type_of(s, left)?, type_of(s, right)?),
        Exp::Cast(to, operand) => cast(g, type_at(g, *to)?, type_of(s, operand)?),
        Exp::AddrOf(place) => address(g, place_type(s, place)?),
        Exp::StartOf(place) => start(g, place_type(s, place)?),
    }
}

/// The type of a place; none where it is ill-typed.
#[cycle(typing)]
pub(crate) fn place_type(s: &Scope, place: &Lval) -> Option<TypeId>
    ensures told { at s.now.unit.now.graph result ≡ place_type (seen_scope s.now) (lval_of s.now.unit.now.graph.nodes place.now) }
    ensures there { IfSome result (λ t. t.0 < length s.now.unit.now.graph.nodes) }
{
    let mut t = host_type(s, &place.host)?;
    for offset in &place.offsets {
        t = part_type(s, offset, t)?;
    }
    Some(t)
}

/// The type of what a place begins with.
#[cycle(typing)]
fn host_type(s: &Scope, host: &Host) -> Option<TypeId>
    ensures told { at s.now.unit.now.graph result ≡ host_type (seen_scope s.now) (host_of s.now.unit.now.graph.nodes host.now) }
    ensures there { IfSome result (λ t. t.0 < length s.now.unit.now.graph.nodes) }
{
    match host {
        Host::Global(number) => global_type(s, *number),
        Host::Var(number) => local_type(s, *number),
        Host::At(pointer) => pointed(&s.unit.graph, type_of(s, pointer)?),
    }
}

/// The type of the part that one step leads to.
#[cycle(typing)]
fn part_type(s: &Scope, offset: &Offset, whole: TypeId) -> Option<TypeId>
    requires { whole.0 < length s.now.unit.now.graph.nodes }
    ensures told { at s.now.unit.now.graph result ≡ steps_to (seen_scope s.now) s.now.unit.now.graph.nodes offset.now (shape s.now.unit.now.graph.nodes whole.0) }
    ensures there { IfSome result (λ t. t.0 < length s.now.unit.now.graph.nodes) }
{
    let g = &s.unit.graph;
    match offset {
        Offset::Field(number) => member(g, whole, *number),
        Offset::Index(index) => element(g, whole, type_of(s, index)?),
    }
}

/// The number of a type, if the graph has it.
pub(crate) fn number_at(g: &TypeGraph, t: TypeId) -> Option<TypeId>
    ensures told { at g.now result ≡ type_at g.now.nodes t }
    ensures there { IfSome result (λ t. t.0 < length g.now.nodes) }
{
    if t.0 < g.len() { Some(t) } else { None }
}

/// The type of a global.
pub fn global_type(s: &Scope, number: EntityId) -> Option<TypeId>
    ensures told { at s.now.unit.now.graph result ≡ global_type (seen_scope s.now).program number.0 }
    ensures there { IfSome result (λ t. t.0 < length s.now.unit.now.graph.nodes) }
{
    let global = s.unit.globals.get(number.0 as usize)?;
    number_at(&s.unit.graph, global.ty)
}

/// The type of a local.
pub fn local_type(s: &Scope, number: LocalId) -> Option<TypeId>
    ensures told { at s.now.unit.now.graph result ≡ local_type (seen_scope s.now).locals number.0 }
    ensures there { IfSome result (λ t. t.0 < length s.now.unit.now.graph.nodes) }
{
    let local = s.body.locals.get(number.0 as usize)?;
    number_at(&s.unit.graph, local.ty)
}
