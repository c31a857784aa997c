ghost use Rattle.std.specs.Prelude.{◌≡◌, true, Some, IfSome, IsTrue, map};
ghost use Rattle.type_graph.specs.Shapes.{shape};
ghost use Rattle.cil_tree.specs.View.{step_of};
ghost use Rattle.cil_tree.specs.Globals.{member_part, element_part, path_part};
ghost use Rattle.cil_tree.specs.Typing.{is_scalar};
ghost use Rattle.init_expand.specs.Spots.{part_of, step_part};

use cil_base::{IntKind, TypeId};
use cil_check::{is_scalar, see};
use cil_tree::Step;
use type_graph::AggKind;
use typed_tree::Path;
use unit_types::{Class, Types};

/// A part of an object: its offset in bytes, and its type.
#[derive(Clone, Copy)]
pub(crate) struct Spot {
    pub(crate) offset: u64,
    pub(crate) ty: TypeId,
}

/// A member of a struct or union.
#[tactic(auto, using(crate::proofs::SpotLaws::member_is))]
fn member(types: &Types, at: Spot, i: u32) -> Option<Spot>
    ensures { IfSome result (λ p. member_part types.now i (part_of types.now at) ≡ Some (part_of types.now p)) }
{
    match types.class(at.ty) {
        Class::Agg(AggKind::Struct | AggKind::Union, a) => {
            let offset = types.offset(at.ty, i)?;
            let member = types.member(a, i as usize)?;
            Some(Spot {
                offset: at.offset.checked_add(offset as u64)?,
                ty: member.ty.of,
            })
        }
        Class::Void
        | Class::Int(_)
        | Class::Ptr(_)
        | Class::Array(..)
        | Class::Func { .. }
        | Class::Agg(AggKind::Enum, _) => None,
    }
}

/// An element of an array, whose index is below the array's bound.
#[tactic(auto, using(crate::proofs::SpotLaws::element_is))]
pub(crate) fn element(types: &Types, at: Spot, i: u64) -> Option<Spot>
    ensures { IfSome result (λ p. element_part types.now i (part_of types.now at) ≡ Some (part_of types.now p)) }
{
    match types.class(at.ty) {
        Class::Array(element, Some(bound)) => {
            if i >= bound {
                return None;
            }
            let size = types.size(element.of)?;
            let behind = i.checked_mul(size as u64)?;
            Some(Spot {
                offset: at.offset.checked_add(behind)?,
                ty: element.of,
            })
        }
        Class::Void
        | Class::Int(_)
        | Class::Ptr(_)
        | Class::Array(_, None)
        | Class::Agg(..)
        | Class::Func { .. } => None,
    }
}

/// The part that a step leads to.
fn stepped(types: &Types, at: Spot, step: Step) -> Option<Spot>
    ensures { IfSome result (λ p. step_part types.now (step_of step) (part_of types.now at) ≡ Some (part_of types.now p)) }
{
    match step {
        Step::Field(i) => member(types, at, i),
        Step::Index(i) => element(types, at, i),
    }
}

/// A step of a path of the typed tree.
pub(crate) fn plain_step(step: typed_tree::Step) -> Step {
    match step {
        typed_tree::Step::Field(i) => Step::Field(i),
        typed_tree::Step::Index(i) => Step::Index(i),
    }
}

/// The part of an object of a type to which a path of the typed tree leads.
pub(crate) fn part_at(types: &Types, t: TypeId, path: &Path) -> Option<Spot> {
    let mut at = Spot { offset: 0, ty: t };
    for step in path.as_slice() {
        at = stepped(types, at, plain_step(*step))?;
    }
    Some(at)
}

/// The part of an object of a type to which a path leads.
#[tactic(auto, using(crate::proofs::SpotLaws::path_next, crate::proofs::SpotLaws::path_end))]
fn spot_at(types: &Types, t: TypeId, path: &[Step]) -> Option<Spot>
    ensures { IfSome result (λ p. path_part types.now (map step_of path.now) (shape types.now.nodes t.0, 0) ≡ Some (part_of types.now p)) }
{
    let mut at = Spot { offset: 0, ty: t };
    for step in path {
        at = stepped(types, at, *step)?;
    }
    Some(at)
}

/// Whether a type is scalar (C11 6.2.5p21); one that is not there is not.
fn has_scalar(types: &Types, t: TypeId) -> bool
    ensures { IsTrue result → is_scalar types.now (shape types.now.nodes t.0) ≡ true }
{
    let g = types.graph();
    t.0 < g.len() && is_scalar(g, see(g, t))
}

/// The scalar of an object of a type to which a path leads.
pub(crate) fn scalar_at(types: &Types, t: TypeId, path: &[Step]) -> Option<Spot>
    ensures part { IfSome result (λ p. path_part types.now (map step_of path.now) (shape types.now.nodes t.0, 0) ≡ Some (part_of types.now p)) }
    ensures scalar { IfSome result (λ p. is_scalar types.now (shape types.now.nodes p.ty.0) ≡ true) }
{
    let at = spot_at(types, t, path)?;
    if has_scalar(types, at.ty) {
        Some(at)
    } else {
        None
    }
}

/// Where a part ends.
pub(crate) fn end(types: &Types, at: Spot) -> Option<u64> {
    let size = types.size(at.ty)?;
    at.offset.checked_add(size as u64)
}

/// The kind of an integer type.
pub(crate) fn kind_of(types: &Types, t: TypeId) -> Option<IntKind> {
    match types.class(t) {
        Class::Int(kind) => Some(kind),
        Class::Void | Class::Ptr(_) | Class::Array(..) | Class::Agg(..) | Class::Func { .. } => {
            None
        }
    }
}
