ghost use Rattle.std.specs.Prelude.{◌≡◌, ◌<◌, Bool, true, None, length, IsTrue};
ghost use Rattle.type_graph.specs.declared.aggregates.AggKind.{AggKind};
ghost use Rattle.type_graph.specs.Arena.{NamesBelow, HasKind, EachType, complete, members_of, members_fit};

use crate::stop::Stop;
use cil_base::{AggId, IntKind, NameId, NamePool, TypeId};
use cil_check::check;
use cil_printer::print;
use cil_tree::{CilUnit, GlobalDecl, GlobalDef};
use std::alloc::Global;
use type_graph::{AggKind, Member, Members, Node, TypeGraph, TypeList, unqualified};

/// A program that is being built, with the texts of its names.
#[derive(Drop)]
pub(crate) struct Builder {
    pub unit: CilUnit,
    pub names: NamePool,
    pub alloc: Global,
}

/// A member or an enumerator: its name, and the place of its type in a list.
pub(crate) enum Part {
    Member(&'static [u8], usize),
    /// An anonymous member with an assigned name (C11 6.7.2.1p13).
    Anonymous(&'static [u8], usize),
    /// An enumerator and its value.
    Enumerator(&'static [u8], usize, i32),
}

/// How a function type says what it takes (C11 6.7.6.3).
#[derive(Clone, Copy, PartialEq, Eq)]
pub(crate) enum Form {
    Prototype,
    Variadic,
    Unprototyped,
}

/// The type at a place of a list. Where the list is shorter it is one that no graph has.
pub(crate) fn type_at(types: &[TypeId], place: usize) -> TypeId {
    match types.get(place) {
        Some(t) => *t,
        None => TypeId(u32::MAX),
    }
}

/// The name of a member or an enumerator.
fn name_of(part: &Part) -> &'static [u8] {
    match part {
        Part::Member(name, _) => *name,
        Part::Anonymous(name, _) => *name,
        Part::Enumerator(name, ..) => *name,
    }
}

/// A member or an enumerator under its name.
fn member_of(part: &Part, name: NameId, types: &[TypeId]) -> Member {
    match part {
        Part::Member(_, ty) => Member::named(name, unqualified(type_at(types, *ty)), 0),
        Part::Anonymous(_, ty) => Member::unnamed(name, unqualified(type_at(types, *ty))),
        Part::Enumerator(_, ty, value) => {
            Member::named(name, unqualified(type_at(types, *ty)), *value)
        }
    }
}

/// Whether the types are the graph's.
fn are_there(g: &TypeGraph, types: &[TypeId]) -> bool
    ensures { IsTrue result → EachType (length g.now.nodes) types.now }
{
    match types {
        [] => true,
        [first, rest @ ..] => first.0 < g.len() && are_there(g, rest),
    }
}

/// Whether a type names only what the graph has.
fn is_there(g: &TypeGraph, n: &Node) -> bool
    ensures names { IsTrue result → NamesBelow (length g.now.nodes) (length g.now.aggs) n.now }
    ensures kind { IsTrue result → HasKind g.now.abi n.now }
{
    match n {
        Node::Void => true,
        Node::Int(kind) => kind.is_of(g.abi()),
        Node::Ptr(q) => q.of.0 < g.len(),
        Node::Array(q, _) => q.of.0 < g.len(),
        Node::Func { ret, params, .. } => ret.0 < g.len() && are_there(g, params.as_slice()),
        Node::Agg(a) => a.0 < g.agg_count(),
    }
}

/// Whether all members have complete types of the graph.
#[tactic(auto, using(crate::proofs::Fits::no_members, crate::proofs::Fits::more_members))]
fn are_complete(g: &TypeGraph, members: &[Member]) -> bool
    ensures { IsTrue result → (kind : AggKind) (behind : Bool) → members_fit g.now kind behind members.now ≡ true }
{
    match members {
        [] => true,
        [first, rest @ ..] => is_complete(g, first.ty.of) && are_complete(g, rest),
    }
}

/// Whether a type is one of the graph's, and complete.
fn is_complete(g: &TypeGraph, t: TypeId) -> bool
    ensures { result ≡ true → complete g.now t.0 ≡ true }
{
    t.0 < g.len() && g.is_complete(t)
}

/// Whether an aggregate is one of the graph's, and has no members yet.
fn is_open(g: &TypeGraph, a: AggId) -> bool
    ensures there { IsTrue result → a.0 < length g.now.aggs }
    ensures open { IsTrue result → members_of g.now.aggs a.0 ≡ None }
{
    a.0 < g.agg_count() && g.agg(a).members.is_none()
}

impl Builder {
    /// A program of nothing.
    pub fn new(alloc: Global) -> Self {
        Builder {
            unit: CilUnit {
                graph: TypeGraph::new(alloc),
                globals: Vec::new(alloc),
            },
            names: NamePool::new(alloc),
            alloc,
        }
    }

    /// The number of a name.
    pub fn name(&mut self, text: &[u8]) -> Result<NameId, Stop> {
        Ok(self.names.intern(text)?)
    }

    /// The number of a type.
    pub fn node(&mut self, n: Node) -> Result<TypeId, Stop> {
        if !is_there(&self.unit.graph, &n) {
            return Err(Stop::Wrong);
        }
        Ok(self.unit.graph.add_node(n)?)
    }

    pub fn void(&mut self) -> Result<TypeId, Stop> {
        self.node(Node::Void)
    }

    pub fn int(&mut self, kind: IntKind) -> Result<TypeId, Stop> {
        self.node(Node::Int(kind))
    }

    pub fn pointer(&mut self, of: TypeId) -> Result<TypeId, Stop> {
        self.node(Node::Ptr(unqualified(of)))
    }

    pub fn array(&mut self, of: TypeId, bound: Option<u64>) -> Result<TypeId, Stop> {
        self.node(Node::Array(unqualified(of), bound))
    }

    /// A function type.
    pub fn function(&mut self, form: Form, ret: TypeId, params: &[TypeId]) -> Result<TypeId, Stop> {
        let params = TypeList::new(params.to_vec(self.alloc)?);
        self.node(Node::Func {
            proto: form != Form::Unprototyped,
            variadic: form == Form::Variadic,
            ret,
            params,
        })
    }

    /// The type of a new incomplete aggregate.
    pub fn tag(&mut self, kind: AggKind, tag: &[u8]) -> Result<TypeId, Stop> {
        let tag = self.name(tag)?;
        let a = self.unit.graph.add_agg(kind, Some(tag))?;
        self.node(Node::Agg(a))
    }

    /// The type of an aggregate, which gets its members; their types stand in a list.
    pub fn complete(&mut self, a: AggId, types: &[TypeId], parts: &[Part]) -> Result<TypeId, Stop> {
        let members = self.members(types, parts)?;
        self.finish(a, members)?;
        self.node(Node::Agg(a))
    }

    fn finish(&mut self, a: AggId, members: Vec<Member>) -> Result<(), Stop> {
        if !is_open(&self.unit.graph, a) || !are_complete(&self.unit.graph, &members) {
            return Err(Stop::Wrong);
        }
        self.unit.graph.complete(a, Members::new(members))?;
        Ok(())
    }

    fn members(&mut self, types: &[TypeId], parts: &[Part]) -> Result<Vec<Member>, Stop> {
        let mut members = Vec::new(self.alloc);
        for part in parts {
            let name = self.name(name_of(part))?;
            members.push(member_of(part, name, types))?;
        }
        Ok(members)
    }

    /// Adds a global.
    pub fn global(
        &mut self,
        name: NameId,
        ty: TypeId,
        internal: bool,
        def: GlobalDef,
    ) -> Result<(), Stop> {
        self.unit.globals.push(GlobalDecl {
            name,
            ty,
            internal,
            def,
        })?;
        Ok(())
    }

    /// The text of the program, if it is well-formed and the text is not too long.
    pub fn text(&self) -> Result<Vec<u8>, Stop> {
        if !check(&self.unit, &self.names)? {
            return Err(Stop::Wrong);
        }
        let text = print(&self.unit, &self.names)?;
        Ok(text.into_vec())
    }
}
