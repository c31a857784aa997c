ghost use Rattle.std.specs.Prelude.{◌≡◌, ◌<◌, ◌↔◌, cond, length, IsTrue, OnOk, OnErr};
ghost use Rattle.cil_base.specs.contracts.numbers.AggIdPartialEq.TheImpl.{ghosts};
ghost use Rattle.cil_base.specs.declared.numbers.AggId.{AggId as SeenAggId};
ghost use Rattle.type_graph.specs.Shapes.{shape};
ghost use Rattle.unit_types.specs.Constants.{HasConstant, HasConstantMember};
ghost use Rattle.unit_types.specs.Known.{is_found, Knows, InPart, AnyConstant};

use cil_base::{AggId, Memory, TypeId};
use std::alloc::Global;
use std::collections::HashSet;
use type_graph::{Member, Node, QualType, TypeGraph};

/// The structs and unions that have a const member, itself or in a part of them (C11 6.3.2.1p1).
#[derive(Drop)]
pub(crate) struct ConstantMembers {
    found: HashSet<AggId>,
}

impl ConstantMembers {
    /// None.
    pub(crate) fn new(alloc: Global) -> Self {
        ConstantMembers {
            found: HashSet::new(alloc),
        }
    }

    /// Whether a struct or union is among them.
    fn has(&self, a: AggId) -> bool
        ensures { result ≡ is_found self.now a }
    {
        self.found.contains(&a)
    }

    /// Notes whether a struct or union is one of them.
    pub(crate) fn set(&mut self, a: AggId, constant: bool) -> Result<(), Memory>
        ensures ok { OnOk result ((k : SeenAggId) → is_found self.new k ≡ cond (ghosts.eq a k) constant (is_found self.old k)) }
        ensures own { OnOk result (is_found self.new a ≡ constant) }
        ensures err { OnErr result ((k : SeenAggId) → is_found self.new k ≡ is_found self.old k) }
    {
        if constant {
            self.found.insert(a)?;
        } else {
            let _was = self.found.remove(&a);
        }
        Ok(())
    }
}

/// Whether a struct or union has a const member, itself or in a part of it.
pub(crate) fn has_constant_member(g: &TypeGraph, known: &ConstantMembers, a: AggId) -> bool
    requires there { a.0 < length g.now.aggs }
    requires known { Knows known.now g.now }
    ensures { IsTrue result ↔ HasConstantMember g.now a.0 }
{
    match &g.agg(a).members {
        None => false,
        Some(_) => known.has(a),
    }
}

/// Whether a part of an object of a type is const, whether the object is or not.
fn has_constant_part(g: &TypeGraph, known: &ConstantMembers, t: TypeId) -> bool
    requires there { t.0 < length g.now.nodes }
    requires known { Knows known.now g.now }
    ensures { IsTrue result ↔ InPart g.now (shape g.now.nodes t.0) }
{
    match g.node(t) {
        Node::Array(element, _) => {
            element.quals.constant || has_constant_part(g, known, element.of)
        }
        Node::Agg(a) => has_constant_member(g, known, *a),
        Node::Void | Node::Int(_) | Node::Ptr(_) | Node::Func { .. } => false,
    }
}

/// Whether an object of a type is const, or has a const part.
pub(crate) fn has_constant(g: &TypeGraph, known: &ConstantMembers, q: QualType) -> bool
    requires known { Knows known.now g.now }
    ensures { IsTrue result ↔ HasConstant g.now q.quals (shape g.now.nodes q.of.0) }
{
    if q.quals.constant {
        return true;
    }
    q.of.0 < g.len() && has_constant_part(g, known, q.of)
}

/// Whether one of some members is const, or has a const part.
#[tactic(auto, using(crate::proofs::ConstantLaws::none_start, crate::proofs::ConstantLaws::none_next, crate::proofs::ConstantLaws::found_one, crate::proofs::ConstantLaws::none_end))]
pub(crate) fn are_constant(g: &TypeGraph, known: &ConstantMembers, members: &[Member]) -> bool
    requires known { Knows known.now g.now }
    ensures { IsTrue result ↔ AnyConstant g.now members.now }
{
    for m in members {
        if has_constant(g, known, m.ty) {
            return true;
        }
    }
    false
}
