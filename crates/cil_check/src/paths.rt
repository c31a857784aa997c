ghost use Rattle.std.specs.Prelude.{◌≡◌, ◌<◌, ◌+◌, ◌*◌, ◌^◌, IfSome, length, map};
ghost use Rattle.type_graph.specs.Shapes.{shape};
ghost use Rattle.cil_tree.specs.View.{step_of};
ghost use Rattle.cil_tree.specs.Globals.{member_part, element_part, path_part, is_union, agree};
ghost use Rattle.layout_lp64.specs.Tables.{InStep};
ghost use Rattle.cil_check.specs.Paths.{part_of, parts, step_part, or_void, same_step, both_fields, after_step};

use crate::operators::{element_of, member};
use cil_base::TypeId;
use cil_tree::Step;
use layout_lp64::Layouts;
use type_graph::{AggKind, Node, TypeGraph};

/// A part of an object (C11 6.5p4): its type, and its offset in bytes.
#[derive(Clone, Copy)]
pub struct Subobject {
    pub ty: TypeId,
    pub at: u128,
}

/// A member of a struct or union (C11 6.5.2.3).
#[tactic(auto, using(crate::proofs::PathLaws::offset_known))]
fn member_part(g: &TypeGraph, l: &Layouts, whole: Subobject, number: u32) -> Option<Subobject>
    requires step { InStep l.now g.now }
    requires there { whole.ty.0 < length g.now.nodes }
    requires low { whole.at < 2 ^ 127 }
    ensures told { parts g.now result ≡ member_part g.now number (part_of g.now whole) }
    ensures there { IfSome result (λ p. (p.ty.0 < length g.now.nodes) × (p.at < whole.at + 2 ^ 32)) }
{
    // What is known of an arena is known where it is read.
    let _types = g.len();
    match g.node(whole.ty) {
        Node::Agg(a) => {
            let ty = member(g, whole.ty, number)?;
            let offset = l.offset(*a, number);
            Some(Subobject {
                ty,
                at: whole.at + offset as u128,
            })
        }
        Node::Void | Node::Int(_) | Node::Ptr(_) | Node::Array(..) | Node::Func { .. } => None,
    }
}

/// So many times a size.
fn scaled(index: u64, size: u32) -> u128
    requires { index * size < 2 ^ 31 }
    ensures { result ≡ index * size }
{
    index as u128 * size as u128
}

/// An element of an array, whose index is below the array's known bound.
fn element_part(g: &TypeGraph, l: &Layouts, whole: Subobject, index: u64) -> Option<Subobject>
    requires step { InStep l.now g.now }
    requires there { whole.ty.0 < length g.now.nodes }
    requires low { whole.at < 2 ^ 127 }
    ensures told { parts g.now result ≡ element_part g.now index (part_of g.now whole) }
    ensures there { IfSome result (λ p. (p.ty.0 < length g.now.nodes) × (p.at < whole.at + 2 ^ 32)) }
{
    // What is known of an arena is known where it is read.
    let _types = g.len();
    match g.node(whole.ty) {
        Node::Array(q, Some(bound)) => {
            if index >= *bound {
                return None;
            }
            let size = l.known_size(q.of)?;
            Some(Subobject {
                ty: q.of,
                at: whole.at + scaled(index, size),
            })
        }
        Node::Array(_, None) => None,
        Node::Void | Node::Int(_) | Node::Ptr(_) | Node::Func { .. } | Node::Agg(_) => None,
    }
}

/// The part that one step leads to.
fn step_part(g: &TypeGraph, l: &Layouts, whole: Subobject, step: Step) -> Option<Subobject>
    requires step { InStep l.now g.now }
    requires there { whole.ty.0 < length g.now.nodes }
    requires low { whole.at < 2 ^ 127 }
    ensures told { parts g.now result ≡ step_part g.now (step_of step) (part_of g.now whole) }
    ensures there { IfSome result (λ p. (p.ty.0 < length g.now.nodes) × (p.at < whole.at + 2 ^ 32)) }
{
    match step {
        Step::Field(number) => member_part(g, l, whole, number),
        Step::Index(index) => element_part(g, l, whole, index),
    }
}

/// The part of an object of a type that a path leads to.
#[tactic(auto, using(crate::proofs::PathLaws::path_next))]
pub fn path_part(g: &TypeGraph, l: &Layouts, t: TypeId, path: &[Step]) -> Option<Subobject>
    requires step { InStep l.now g.now }
    requires there { t.0 < length g.now.nodes }
    ensures told { parts g.now result ≡ path_part g.now (map step_of path.now) (shape g.now.nodes t.0, 0) }
    ensures there { IfSome result (λ p. p.ty.0 < length g.now.nodes) }
{
    let mut part = Subobject { ty: t, at: 0 };
    for i in 0..path.len() {
        part = step_part(g, l, part, path[i])?;
    }
    Some(part)
}

/// Whether two steps are one.
fn same_step(a: Step, b: Step) -> bool
    ensures { result ≡ same_step (step_of a) (step_of b) }
{
    match (a, b) {
        (Step::Field(m), Step::Field(n)) => m == n,
        (Step::Index(m), Step::Index(n)) => m == n,
        (Step::Field(_), Step::Index(_)) => false,
        (Step::Index(_), Step::Field(_)) => false,
    }
}

/// Whether both steps lead to members.
fn both_fields(a: Step, b: Step) -> bool
    ensures { result ≡ both_fields (step_of a) (step_of b) }
{
    match (a, b) {
        (Step::Field(_), Step::Field(_)) => true,
        (Step::Field(_), Step::Index(_)) => false,
        (Step::Index(_), _) => false,
    }
}

/// Whether a type is a union, where there is a type.
fn is_union(g: &TypeGraph, t: Option<TypeId>) -> bool
    requires { IfSome t (λ t. t.0 < length g.now.nodes) }
    ensures { result ≡ is_union g.now (or_void g.now t) }
{
    match t {
        None => false,
        Some(t) => is_union_type(g, t),
    }
}

/// Whether a type of the graph is a union.
fn is_union_type(g: &TypeGraph, t: TypeId) -> bool
    requires { t.0 < length g.now.nodes }
    ensures { result ≡ is_union g.now (shape g.now.nodes t.0) }
{
    match g.node(t) {
        Node::Agg(a) => match g.agg(*a).kind {
            AggKind::Union => true,
            AggKind::Struct | AggKind::Enum => false,
        },
        Node::Void | Node::Int(_) | Node::Ptr(_) | Node::Array(..) | Node::Func { .. } => false,
    }
}

/// The type that a step leads to, where there is one.
fn after_step(g: &TypeGraph, t: Option<TypeId>, step: Step) -> Option<TypeId>
    requires { IfSome t (λ t. t.0 < length g.now.nodes) }
    ensures told { or_void g.now result ≡ after_step g.now (or_void g.now t) (step_of step) }
    ensures there { IfSome result (λ t. t.0 < length g.now.nodes) }
{
    match t {
        None => None,
        Some(t) => type_after_step(g, t, step),
    }
}

/// The type that a step from a type leads to, where there is one.
fn type_after_step(g: &TypeGraph, t: TypeId, step: Step) -> Option<TypeId>
    requires { t.0 < length g.now.nodes }
    ensures told { or_void g.now result ≡ after_step g.now (shape g.now.nodes t.0) (step_of step) }
    ensures there { IfSome result (λ t. t.0 < length g.now.nodes) }
{
    match step {
        Step::Field(number) => member(g, t, number),
        Step::Index(_) => element_of(g, t),
    }
}

/// Whether two paths from an object of a type do not part at a union.
pub(crate) fn agree(g: &TypeGraph, t: TypeId, path: &[Step], other: &[Step]) -> bool
    requires { t.0 < length g.now.nodes }
    ensures { result ≡ agree g.now (shape g.now.nodes t.0) (map step_of path.now) (map step_of other.now) }
{
    let mut place = Some(t);
    for i in 0..path.len() {
        if i >= other.len() {
            return true;
        }
        if !same_step(path[i], other[i]) {
            return !both_fields(path[i], other[i]) || !is_union(g, place);
        }
        place = after_step(g, place, path[i]);
    }
    true
}
