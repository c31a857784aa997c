ghost use Rattle.std.specs.Prelude.{◌≡◌, ◌<◌, ◌↔◌, true, false, None, Some, length, slice_get, IfOk, IfErr, OnOk, IsTrue};
ghost use Rattle.std.specs.Option.{option_map, option_and_then};
ghost use Rattle.type_graph.specs.declared.aggregates.Aggregate.{Aggregate};
ghost use Rattle.type_graph.specs.declared.layout.Layout.{Layout};
ghost use Rattle.type_graph.specs.Shapes.{shape, VoidType, IntType, PtrType, ArrayType, FuncType, AggType, shapes_of};
ghost use Rattle.type_graph.specs.declared.nodes.Node.TheVariants as node;
ghost use Rattle.type_graph.specs.Arena.{IsArena, EachType, complete, empty_graph, members_of};
ghost use Rattle.type_graph.specs.Growth.{Grows, KeepsAggregates, with_agg, with_members};
ghost use Rattle.type_graph.specs.Layouts.{layout};
ghost use Rattle.layout_lp64.specs.declared.layouts.LayoutStop.TheVariants.{Memory as WantOfMemory};
ghost use Rattle.layout_lp64.specs.Stops.{StopsAt};
ghost use Rattle.unit_types.specs.Steps.{Makes, IsAsked, MayComplete, StopsWith, StopsMaking, StopsCompleting};
ghost use Rattle.unit_types.specs.Classes.{Tells, kind_of, param_of, offset_in};
ghost use Rattle.type_compat.specs.Compatible.{compatible_shape};
ghost use Rattle.type_compat.specs.Composed.{composite_shape};
ghost use Rattle.type_compat.specs.Parts.{GainsParts};
ghost use Rattle.layout_lp64.specs.Tables.{InStep, AllFit};
ghost use Rattle.unit_types.specs.Constants.{is_array, HasConstantMember, IsModifiable};
ghost use Rattle.unit_types.specs.Normal.{IsNormal, is_normal, qualified};

use crate::class::Class;
use crate::constants::{ConstantMembers, are_constant, has_constant, has_constant_member};
use crate::members::{can_complete, is_complete, is_normal};
use crate::parts::{Parts, add, add_agg, complete, compose};
use crate::quals::joined;
use cil_base::{Abi, AggId, IntKind, NameId, TypeId};
use layout_lp64::LayoutStop;
use std::alloc::Global;
use std::marker::Model;
use type_compat::compatible;
use type_graph::{
    AggKind, Member, Members, Node, QualType, Quals, TypeGraph, TypeList, unqualified,
};

/// The types of a translation unit. Contracts see the arena of its types, whose layouts are known.
#[derive(Drop)]
pub struct Types {
    parts: Parts,
    constants: ConstantMembers,
    alloc: Global,
}

impl Model for Types {
    ghost use Rattle.type_graph.specs.Arena.{Graph};
    ghost use Rattle.layout_lp64.specs.Tables.{InStep};
    ghost use Rattle.unit_types.specs.Known.{Knows};
    ghost use Rattle.unit_types.specs.Normal.{IsNormal};

    ghost Value = { Graph };

    ghost view = { λ s. s.parts.graph };

    ghost invariant = { λ s. IsNormal s.parts.graph × InStep s.parts.layouts s.parts.graph × Knows s.constants s.parts.graph };
}

/// The class of a node.
fn class_of(g: &TypeGraph, t: TypeId) -> Class
    requires { t.0 < length g.now.nodes }
    ensures { Tells g.now t.0 result }
{
    // What is known of an arena is known where it is read.
    let _types = g.len();
    match g.node(t) {
        Node::Void => Class::Void,
        Node::Int(kind) => Class::Int(*kind),
        Node::Ptr(q) => Class::Ptr(*q),
        Node::Array(q, bound) => Class::Array(*q, *bound),
        Node::Func {
            proto,
            variadic,
            ret,
            params,
        } => Class::Func {
            ret: *ret,
            count: params.as_slice().len(),
            proto: *proto,
            variadic: *variadic,
        },
        Node::Agg(a) => Class::Agg(g.agg(*a).kind, *a),
    }
}

impl Types {
    /// No types, for a data model.
    #[tactic(auto, using(crate::proofs::ConstantLaws::knows_none))]
    pub fn new(alloc: Global, abi: Abi) -> Self
        ensures { result ≡ empty_graph abi }
    {
        Types {
            parts: Parts::new(alloc, abi),
            constants: ConstantMembers::new(alloc),
            alloc,
        }
    }

    /// The arena of the types, each of whose qualified types is in normal form (C11 6.7.3p9).
    pub fn graph(&self) -> &TypeGraph
        ensures arena { result.now ≡ self.now }
        ensures normal { IsNormal self.now }
    {
        &self.parts.graph
    }

    /// The arena of the types, without their layouts.
    pub fn into_graph(self) -> TypeGraph
        ensures { result ≡ self }
    {
        self.parts.graph
    }

    /// What a type is (C11 6.2.5). A number beyond the types is void.
    #[tactic(auto, using(type_graph::proofs::ShapeLaws::shape_past))]
    pub fn class(&self, t: TypeId) -> Class
        ensures { Tells self.now t.0 result }
    {
        if t.0 < self.parts.graph.len() {
            class_of(&self.parts.graph, t)
        } else {
            Class::Void
        }
    }

    /// Whether a type is a complete object type (C11 6.2.5p1).
    pub fn is_complete(&self, t: TypeId) -> bool
        ensures { result ≡ complete self.now t.0 }
    {
        is_complete(&self.parts.graph, t)
    }

    /// The size of a type in bytes, none unless it is a complete object type (C11 6.5.3.4).
    pub fn size(&self, t: TypeId) -> Option<u32>
        ensures { result ≡ option_map (λ (l : Layout). l.size) (layout self.now t.0) }
    {
        self.parts.layouts.known_size(t)
    }

    /// The alignment of a type in bytes, none unless it is a complete object type (C11 6.2.8).
    pub fn align(&self, t: TypeId) -> Option<u32>
        ensures { result ≡ option_map (λ (l : Layout). l.align) (layout self.now t.0) }
    {
        self.parts.layouts.known_align(t)
    }

    /// The offset in bytes of a member of a struct or union type, none unless the type is complete and has it (C11 6.7.2.1p15, p16).
    pub fn offset(&self, t: TypeId, i: u32) -> Option<u32>
        ensures { result ≡ offset_in self.now (shape self.now.nodes t.0) i }
    {
        if t.0 >= self.parts.graph.len() {
            return None;
        }
        offset_of(&self.parts, t, i)
    }

    /// The number of types, of which none is too big.
    fn count(&self) -> u32
        ensures count { result ≡ length self.now.nodes }
        ensures arena { IsArena self.now }
        ensures fit { AllFit self.now }
    {
        self.parts.graph.len()
    }

    /// Whether two types are compatible (C11 6.2.7p1); types that are not there are not.
    pub fn compatible(&self, a: TypeId, b: TypeId) -> bool
        ensures there { IsTrue result → (a.0 < length self.now.nodes) × (b.0 < length self.now.nodes) }
        ensures is { a.0 < length self.now.nodes → b.0 < length self.now.nodes → result ≡ compatible_shape self.now.aggs (shape self.now.nodes a.0) (shape self.now.nodes b.0) }
    {
        compatible(&self.parts.graph, a, b)
    }

    /// Whether a struct or union has a member that is const, itself or in a struct, a union or an array in it (C11 6.3.2.1p1).
    #[tactic(auto, using(crate::proofs::ConstantLaws::none_there))]
    pub fn has_constant_member(&self, a: AggId) -> bool
        ensures { IsTrue result ↔ HasConstantMember self.now a.0 }
    {
        if a.0 >= self.parts.graph.agg_count() {
            return false;
        }
        has_constant_member(&self.parts.graph, &self.constants, a)
    }

    /// Whether an lvalue of a type is modifiable (C11 6.3.2.1p1): the type is complete, no array, and neither const nor one with a const
    /// member at any depth.
    #[tactic(auto, using(crate::proofs::ConstantLaws::modifiable, crate::proofs::ConstantLaws::incomplete, crate::proofs::ConstantLaws::array_fixed))]
    pub fn is_modifiable(&self, q: QualType) -> bool
        ensures { IsTrue result ↔ IsModifiable self.now q.quals q.of.0 }
    {
        if !self.is_complete(q.of) {
            return false;
        }
        if self.is_array(q.of) {
            return false;
        }
        !has_constant(&self.parts.graph, &self.constants, q)
    }

    /// Whether a type is an array (C11 6.2.5p20).
    fn is_array(&self, t: TypeId) -> bool
        ensures { result ≡ is_array (shape self.now.nodes t.0) }
    {
        match self.class(t) {
            Class::Array(..) => true,
            Class::Void | Class::Int(_) | Class::Ptr(_) | Class::Func { .. } | Class::Agg(..) =>
                false,
        }
    }

    /// A parameter of a function type.
    pub fn param(&self, t: TypeId, i: usize) -> Option<TypeId>
        ensures { result ≡ param_of self.now t.0 i }
    {
        if t.0 >= self.parts.graph.len() {
            return None;
        }
        match self.parts.graph.node(t) {
            Node::Func { params, .. } => params.as_slice().get(i).copied(),
            Node::Void | Node::Int(_) | Node::Ptr(_) | Node::Array(..) | Node::Agg(_) => None,
        }
    }

    /// The kind of an aggregate.
    pub fn kind(&self, a: AggId) -> Option<AggKind>
        ensures { result ≡ kind_of self.now a.0 }
    {
        if a.0 < self.parts.graph.agg_count() {
            Some(self.parts.graph.agg(a).kind)
        } else {
            None
        }
    }

    /// A member of a struct or union, or an enumerator, by its place; none while the aggregate is incomplete.
    pub fn member(&self, a: AggId, i: usize) -> Option<Member>
        ensures { result ≡ option_and_then (λ ms. slice_get ms i) (members_of self.now.aggs a.0) }
    {
        self.members(a)?.get(i).copied()
    }

    /// The members of a struct or union, or the enumerators of an enum; none while it is incomplete.
    pub fn members(&self, a: AggId) -> Option<&[Member]>
        ensures { option_map (λ ms. ms.now) result ≡ members_of self.now.aggs a.0 }
    {
        if a.0 >= self.parts.graph.agg_count() {
            return None;
        }
        match &self.parts.graph.agg(a).members {
            None => None,
            Some(members) => Some(members.as_slice()),
        }
    }

    /// The type `void`.
    pub fn void(&mut self) -> Result<TypeId, LayoutStop>
        ensures makes { IfOk result (λ t. Makes self.old self.new VoidType t.0) }
        ensures asked { OnOk result (IsAsked self.old node.Void) }
        ensures stops { IfErr result (StopsWith self.old node.Void) }
    {
        add(self.alloc, &mut self.parts, Node::Void)
    }

    /// An integer type. Of a kind that the data model lacks it answers Memory.
    pub fn int(&mut self, kind: IntKind) -> Result<TypeId, LayoutStop>
        ensures makes { IfOk result (λ t. Makes self.old self.new (IntType kind) t.0) }
        ensures asked { OnOk result (IsAsked self.old (node.Int kind)) }
        ensures stops { IfErr result (StopsWith self.old (node.Int kind)) }
    {
        if !kind.is_of(self.parts.graph.abi()) {
            return Err(impossible());
        }
        add(self.alloc, &mut self.parts, Node::Int(kind))
    }

    /// A pointer. To a type that is not there, or a qualified array or function, it answers Memory.
    pub fn pointer(&mut self, to: QualType) -> Result<TypeId, LayoutStop>
        ensures makes { IfOk result (λ t. Makes self.old self.new (PtrType to.quals (shape self.old.nodes to.of.0)) t.0) }
        ensures asked { OnOk result (IsAsked self.old (node.Ptr to)) }
        ensures stops { IfErr result (StopsWith self.old (node.Ptr to)) }
    {
        if !is_normal(&self.parts.graph, to) {
            return Err(impossible());
        }
        add(self.alloc, &mut self.parts, Node::Ptr(to))
    }

    /// An array, with the number of its elements where its bound is known. Of a type that is not there, or a qualified array or
    /// function, it answers Memory.
    pub fn array(&mut self, of: QualType, bound: Option<u64>) -> Result<TypeId, LayoutStop>
        ensures makes { IfOk result (λ t. Makes self.old self.new (ArrayType of.quals (shape self.old.nodes of.of.0) bound) t.0) }
        ensures asked { OnOk result (IsAsked self.old (node.Array of bound)) }
        ensures stops { IfErr result (StopsWith self.old (node.Array of bound)) }
    {
        if !is_normal(&self.parts.graph, of) {
            return Err(impossible());
        }
        add(self.alloc, &mut self.parts, Node::Array(of, bound))
    }

    /// A function type. With a type that is not there it answers Memory.
    pub fn function(
        &mut self,
        ret: TypeId,
        params: Vec<TypeId>,
        proto: bool,
        variadic: bool,
    ) -> Result<TypeId, LayoutStop>
        ensures makes { IfOk result (λ t. Makes self.old self.new (FuncType (shape self.old.nodes ret.0) (shapes_of (shape self.old.nodes) params.items) proto variadic) t.0) }
        ensures asked { OnOk result (IsAsked self.old (node.Func proto variadic ret params.items)) }
        ensures stops { IfErr result (StopsWith self.old (node.Func proto variadic ret params.items)) }
    {
        if ret.0 >= self.parts.graph.len() || !are_there(&self.parts.graph, &params) {
            return Err(impossible());
        }
        let n = Node::Func {
            proto,
            variadic,
            ret,
            params: TypeList::new(params),
        };
        add(self.alloc, &mut self.parts, n)
    }

    /// The type of a struct, union or enum. Of one that is not there it answers Memory.
    pub fn aggregate(&mut self, a: AggId) -> Result<TypeId, LayoutStop>
        ensures makes { IfOk result (λ t. Makes self.old self.new (AggType a.0) t.0) }
        ensures asked { OnOk result (IsAsked self.old (node.Agg a)) }
        ensures stops { IfErr result (StopsWith self.old (node.Agg a)) }
    {
        if a.0 >= self.parts.graph.agg_count() {
            return Err(impossible());
        }
        add(self.alloc, &mut self.parts, Node::Agg(a))
    }

    /// An incomplete struct, union or enum, with the next number.
    pub fn add_agg(&mut self, kind: AggKind, tag: Option<NameId>) -> Result<AggId, LayoutStop>
        ensures ok { IfOk result (λ a. (a.0 ≡ length self.old.aggs) × (self.new ≡ with_agg self.old (record { kind = kind; tag = tag; members = None }))) }
        ensures stops { IfErr result (StopsAt (with_agg self.old (record { kind = kind; tag = tag; members = None }))) }
    {
        add_agg(self.alloc, &mut self.parts, kind, tag)
    }

    /// A type with these qualifiers added: those of an array go down to its elements (C11 6.7.3p9), and a function has none (own).
    /// Of a type that is not there it answers Memory. None gets too big.
    #[tactic(auto, using(type_graph::proofs::GrowthLaws::grows_twice, type_graph::proofs::GrowthLaws::grows_none, type_graph::proofs::ShapeLaws::kept, crate::proofs::QualifiedLaws::qualified_stops, type_compat::proofs::PartLaws::no_gain))]
    pub fn qualified(&mut self, quals: Quals, t: TypeId) -> Result<QualType, LayoutStop>
        ensures there { IfOk result (λ q. q.of.0 < length self.new.nodes) }
        ensures is { IfOk result (λ q. (q.quals, shape self.new.nodes q.of.0) ≡ qualified quals (shape self.old.nodes t.0)) }
        ensures grows { OnOk result (Grows self.old self.new) }
        ensures aggregates { OnOk result (KeepsAggregates self.old self.new) }
        ensures gains { IfOk result (λ q. GainsParts self.old self.new (shape self.new.nodes q.of.0)) }
        ensures stops { IfErr result (λ e. e ≡ WantOfMemory) }
    {
        if t.0 >= self.parts.graph.len() {
            return Err(impossible());
        }
        match self.class(t) {
            Class::Array(of, bound) => {
                let of = self.qualified(joined(of.quals, quals), of.of)?;
                // What is known of the types is known where they are counted.
                let _types = self.count();
                let array = self.array(of, bound)?;
                Ok(unqualified(array))
            }
            Class::Func { .. } => Ok(unqualified(t)),
            Class::Void | Class::Int(_) | Class::Ptr(_) | Class::Agg(..) => {
                Ok(QualType { quals, of: t })
            }
        }
    }

    /// Gives an incomplete aggregate its members. Where `can_complete` does not hold it answers Memory.
    #[tactic(auto, using(crate::proofs::ConstantLaws::knows_same))]
    pub fn complete(&mut self, a: AggId, members: Members) -> Result<(), LayoutStop>
        ensures ok { OnOk result ((x : Aggregate) → slice_get self.old.aggs a.0 ≡ Some x → self.new ≡ with_members self.old a x members) }
        ensures could { OnOk result (MayComplete self.old a members) }
        ensures grows { OnOk result (Grows self.old self.new) }
        ensures stops { IfErr result (StopsCompleting self.old a members) }
    {
        if !can_complete(&self.parts.graph, a, members.as_slice()) {
            return Err(impossible());
        }
        let constant = are_constant(&self.parts.graph, &self.constants, members.as_slice());
        self.constants.set(a, constant)?;
        complete(self.alloc, &mut self.parts, a, members)
    }

    /// The composite of two compatible types (C11 6.2.7p3): the first, the earlier declaration's, but an array of unknown bound takes
    /// the bound of the other, and a function without a prototype the prototype of the other. Of types that are not there it answers
    /// Memory.
    pub fn composite(&mut self, a: TypeId, b: TypeId) -> Result<TypeId, LayoutStop>
        ensures is { IfOk result (λ t. shape self.new.nodes t.0 ≡ composite_shape (shape self.old.nodes a.0) (shape self.old.nodes b.0)) }
        ensures there { IfOk result (λ t. t.0 < length self.new.nodes) }
        ensures grows { OnOk result (Grows self.old self.new) }
        ensures aggregates { OnOk result (KeepsAggregates self.old self.new) }
        ensures gains { IfOk result (λ t. GainsParts self.old self.new (shape self.new.nodes t.0)) }
        ensures stops { IfErr result (StopsMaking self.old (composite_shape (shape self.old.nodes a.0) (shape self.old.nodes b.0))) }
    {
        let count = self.parts.graph.len();
        if a.0 >= count || b.0 >= count {
            return Err(impossible());
        }
        compose(self.alloc, &mut self.parts, a, b)
    }
}

/// The offset of a member of a struct or union type.
fn offset_of(parts: &Parts, t: TypeId, i: u32) -> Option<u32>
    requires step { InStep parts.now.layouts parts.now.graph }
    requires there { t.0 < length parts.now.graph.nodes }
    ensures { result ≡ offset_in parts.now.graph (shape parts.now.graph.nodes t.0) i }
{
    match parts.graph.node(t) {
        Node::Agg(a) => parts.layouts.known_offset(*a, i),
        Node::Void | Node::Int(_) | Node::Ptr(_) | Node::Array(..) | Node::Func { .. } => None,
    }
}

/// What a branch answers that never comes.
fn impossible() -> LayoutStop
    ensures { result ≡ WantOfMemory }
{
    LayoutStop::Memory
}

/// Whether types are there.
#[tactic(auto, using(crate::proofs::TypeLists::each_next, crate::proofs::TypeLists::each_end, crate::proofs::TypeLists::each_not))]
fn are_there(g: &TypeGraph, types: &[TypeId]) -> bool
    ensures each { IsTrue result → EachType (length g.now.nodes) types.now }
    ensures whole { EachType (length g.now.nodes) types.now → IsTrue result }
{
    for t in types {
        if t.0 >= g.len() {
            return false;
        }
    }
    true
}
