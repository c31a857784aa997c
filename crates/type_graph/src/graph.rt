ghost use Rattle.std.specs.Prelude.{◌≡◌, ◌<◌, true, false, Some, None, [], ◌∷◌, ◌++◌, length, is_some, IsTrue, MatchOption, IsOk, IfOk, OnOk, OnErr, slice_get, slice_set, ℕ};
ghost use Rattle.cil_base.specs.declared.kinds.Abi.TheVariants.{Lp64};
ghost use Rattle.cil_base.specs.declared.numbers.AggId.{AggId};
ghost use Rattle.type_graph.specs.declared.aggregates.Aggregate.{Aggregate};
ghost use Rattle.type_graph.specs.Shapes.{shape, shape_of};
ghost use Rattle.type_graph.specs.Arena.{IsArena, NamesBelow, HasKind, empty_graph, complete, members_of, members_fit, member_count};
ghost use Rattle.type_graph.specs.Growth.{Grows, AddsNode, KeepsAggregates, with_agg, with_members, renamed};

use crate::aggregates::{AggKind, Aggregate, Members};
use crate::node_table::NodeTable;
use crate::nodes::Node;
use cil_base::{Abi, AggId, Memory, NameId, TypeId};
use std::alloc::Global;
use std::marker::Model;

/// The types of one translation unit. Contracts see the data model, the list of types, the list of
/// aggregates, and the aggregates in the order in which they were completed.
#[derive(Drop)]
pub struct TypeGraph {
    abi: Abi,
    nodes: NodeTable,
    aggs: Vec<Aggregate>,
    completed: Vec<AggId>,
    alloc: Global,
}

impl Model for TypeGraph {
    ghost use Rattle.type_graph.specs.Arena.{Graph, IsArena};

    ghost Value = { Graph };

    ghost view = { λ s. record { abi = s.abi; nodes = s.nodes; aggs = s.aggs.items; completed = s.completed.items } };

    ghost invariant = { λ s. IsArena (record { abi = s.abi; nodes = s.nodes; aggs = s.aggs.items; completed = s.completed.items }) };
}

impl TypeGraph {
    /// A graph without types for a data model.
    pub fn new_for(alloc: Global, abi: Abi) -> Self
        ensures empty { result ≡ empty_graph abi }
        ensures arena { IsArena result }
    {
        TypeGraph {
            abi,
            nodes: NodeTable::new(alloc),
            aggs: Vec::new(alloc),
            completed: Vec::new(alloc),
            alloc,
        }
    }

    /// A graph without types for LP64.
    pub fn new(alloc: Global) -> Self
        ensures empty { result ≡ empty_graph Lp64 }
        ensures arena { IsArena result }
    {
        TypeGraph::new_for(alloc, Abi::Lp64)
    }

    /// The data model.
    pub fn abi(&self) -> Abi
        ensures { result ≡ self.now.abi }
    {
        self.abi
    }

    /// The allocator that the graph takes memory from.
    pub fn alloc(&self) -> Global {
        self.alloc
    }

    /// The number of types.
    pub fn len(&self) -> u32
        ensures count { result ≡ length self.now.nodes }
        ensures arena { IsArena self.now }
    {
        self.nodes.len() as u32
    }

    /// A type.
    pub fn node(&self, t: TypeId) -> &Node
        requires { t.0 < length self.now.nodes }
        ensures node { slice_get self.now.nodes t.0 ≡ Some result.now }
        ensures names { NamesBelow t.0 (length self.now.aggs) result.now }
        ensures shape { shape self.now.nodes t.0 ≡ shape_of (shape self.now.nodes) result.now }
    {
        self.nodes.get(t.0 as usize)
    }

    /// Whether two types are one. Types of one shape have one number, so no part is looked at.
    #[tactic(auto, using(crate::proofs::NumberLaws::one_number))]
    pub fn is_same(&self, a: TypeId, b: TypeId) -> bool
        requires left { a.0 < length self.now.nodes }
        requires right { b.0 < length self.now.nodes }
        ensures same { IsTrue result → shape self.now.nodes a.0 ≡ shape self.now.nodes b.0 }
        ensures one { shape self.now.nodes a.0 ≡ shape self.now.nodes b.0 → IsTrue result }
    {
        // What is known of an arena is known where it is read.
        let _types = self.len();
        a == b
    }

    /// The number of aggregates.
    pub fn agg_count(&self) -> u32
        ensures count { result ≡ length self.now.aggs }
        ensures arena { IsArena self.now }
    {
        self.aggs.len() as u32
    }

    /// The complete aggregates, in the order in which they were completed: each stands behind those
    /// that it has within itself.
    pub fn completed(&self) -> &[AggId]
        ensures order { result.now ≡ self.now.completed }
        ensures arena { IsArena self.now }
    {
        &self.completed
    }

    /// An aggregate.
    pub fn agg(&self, a: AggId) -> &Aggregate
        requires { a.0 < length self.now.aggs }
        ensures { slice_get self.now.aggs a.0 ≡ Some result.now }
    {
        &self.aggs[a.0 as usize]
    }

    /// Whether a type is a complete object type (C11 6.2.5p1).
    pub fn is_complete(&self, t: TypeId) -> bool
        requires { t.0 < length self.now.nodes }
        ensures { result ≡ complete self.now t.0 }
    {
        match self.node(t) {
            Node::Void | Node::Func { .. } | Node::Array(_, None) => false,
            Node::Int(_) | Node::Ptr(_) => true,
            Node::Array(element, Some(_)) => self.is_complete(element.of),
            Node::Agg(a) => self.agg(*a).members.is_some(),
        }
    }

    /// The number of a type. A known type keeps its number, a new one gets the next.
    ///
    /// Memory also comes where the next number would not fit. The graph then stays.
    pub fn add_node(&mut self, n: Node) -> Result<TypeId, Memory>
        requires names { NamesBelow (length self.old.nodes) (length self.old.aggs) n }
        requires kind { HasKind self.old.abi n }
        ensures ok { IfOk result (λ t. AddsNode self.old self.new n t.0) }
        ensures there { IfOk result (λ t. t.0 < length self.new.nodes) }
        ensures shape { IfOk result (λ t. shape self.new.nodes t.0 ≡ shape_of (shape self.old.nodes) n) }
        ensures known { (s : ℕ) → slice_get self.old.nodes s ≡ Some n → IsOk result }
        ensures err { OnErr result (self.new ≡ self.old) }
        ensures grows { Grows self.old self.new }
        ensures aggregates { KeepsAggregates self.old self.new }
        ensures arena { IsArena self.new }
    {
        match self.find(&n) {
            Some(t) => Ok(t),
            None => self.append(n),
        }
    }

    /// The number of a type, if the graph has it.
    fn find(&self, n: &Node) -> Option<TypeId>
        ensures found { MatchOption result ((s : ℕ) → ¬ (slice_get self.now.nodes s ≡ Some n.now)) (λ t. slice_get self.now.nodes t.0 ≡ Some n.now) }
        ensures arena { IsArena self.now }
    {
        let index = self.nodes.find(n)?;
        Some(TypeId(index as u32))
    }

    /// Gives the next number to a new type.
    fn append(&mut self, n: Node) -> Result<TypeId, Memory>
        requires names { NamesBelow (length self.old.nodes) (length self.old.aggs) n }
        requires kind { HasKind self.old.abi n }
        requires absent { (s : ℕ) → ¬ (slice_get self.old.nodes s ≡ Some n) }
        ensures ok { IfOk result (λ t. (self.new ≡ record self.old { nodes = self.old.nodes ++ n ∷ [] }) × (t.0 ≡ length self.old.nodes)) }
        ensures err { OnErr result (self.new ≡ self.old) }
        ensures arena { IsArena self.new }
    {
        let index = self.len();
        if index == u32::MAX {
            return Err(Memory);
        }
        self.nodes.push(n)?;
        Ok(TypeId(index))
    }

    /// Adds an incomplete struct, union or enum, with the next number.
    ///
    /// Memory also comes where the next number would not fit. The graph then stays.
    pub fn add_agg(&mut self, kind: AggKind, tag: Option<NameId>) -> Result<AggId, Memory>
        ensures ok { IfOk result (λ a. (a.0 ≡ length self.old.aggs) × (self.new ≡ with_agg self.old (record { kind = kind; tag = tag; members = None }))) }
        ensures err { OnErr result (self.new ≡ self.old) }
        ensures grows { Grows self.old self.new }
        ensures arena { IsArena self.new }
    {
        let index = self.agg_count();
        if index == u32::MAX {
            return Err(Memory);
        }
        self.aggs.push(Aggregate {
            kind,
            tag,
            members: None,
        })?;
        Ok(AggId(index))
    }

    /// Gives an incomplete aggregate its members. After Memory the graph is as before.
    pub fn complete(&mut self, a: AggId, members: Members) -> Result<(), Memory>
        requires incomplete { members_of self.old.aggs a.0 ≡ None }
        requires there { a.0 < length self.old.aggs }
        requires fit { (x : Aggregate) → slice_get self.old.aggs a.0 ≡ Some x → members_fit self.old x.kind false members ≡ true }
        ensures ok { OnOk result ((x : Aggregate) → slice_get self.old.aggs a.0 ≡ Some x → self.new ≡ with_members self.old a x members) }
        ensures err { OnErr result (self.new ≡ self.old) }
        ensures grows { Grows self.old self.new }
        ensures arena { IsArena self.new }
    {
        self.completed.push(a)?;
        let aggregate = &mut self.aggs[a.0 as usize];
        aggregate.members = Some(members);
        Ok(())
    }

    /// Gives an aggregate another tag, and its members other names.
    pub fn rename_agg(&mut self, a: AggId, tag: NameId, names: &[NameId])
        requires there { a.0 < length self.old.aggs }
        requires each { (x : Aggregate) → slice_get self.old.aggs a.0 ≡ Some x → member_count x ≡ length names.now }
        ensures renames { (x : Aggregate) → slice_get self.old.aggs a.0 ≡ Some x → self.new ≡ record self.old { aggs = slice_set self.old.aggs a.0 (renamed x tag names.now) } }
        ensures arena { IsArena self.new }
    {
        let aggregate = &mut self.aggs[a.0 as usize];
        aggregate.rename(tag, names);
    }
}
