ghost use Rattle.std.specs.Prelude.{◌≡◌, ◌<◌, List, Option, Some, None, MatchOption, IfSome, length, slice_get};
ghost use Rattle.std.specs.Option.{option_map, option_and_then};
ghost use Rattle.type_graph.specs.declared.layout.Layout.{Layout};
ghost use Rattle.type_graph.specs.Shapes.{shape};
ghost use Rattle.type_graph.specs.declared.aggregates.Member.{Member};
ghost use Rattle.type_graph.specs.Arena.{Graph, IsArena};
ghost use Rattle.type_graph.specs.Layouts.{layout};
ghost use Rattle.cil_tree.specs.View.{text_at, type_at};
ghost use Rattle.cil_tree.specs.Typing.{global_type, member_at, member_of, element_of, pointed};
ghost use Rattle.cil_tree.specs.Text.{global_name, shape_layout};
ghost use Rattle.cil_printer.specs.Seen.{seen, tree_of};

use crate::program::Program;
use cil_base::{EntityId, NameId, TypeId};
use type_graph::{AggKind, Aggregate, Member, Members, Node, TypeGraph};

impl<'a> Program<'a> {
    /// The types.
    pub(crate) fn graph(&self) -> &TypeGraph
        ensures { result.now ≡ (tree_of self.now).graph }
    {
        &self.unit.graph
    }

    /// The text of a name.
    pub(crate) fn name(&self, n: NameId) -> &[u8]
        ensures { result.now ≡ text_at (tree_of self.now).names n }
    {
        if n.0 < self.names.len() {
            self.names.text(n)
        } else {
            b""
        }
    }

    /// The name of a global.
    pub(crate) fn global_name(&self, e: EntityId) -> &[u8]
        ensures { result.now ≡ global_name (tree_of self.now) e.0 }
    {
        match self.unit.globals.get(e.0 as usize) {
            Some(x) => self.name(x.name),
            None => b"",
        }
    }

    /// The type of a global.
    pub(crate) fn global_type(&self, e: EntityId) -> Option<TypeId>
        ensures { seen (tree_of self.now).graph.nodes result ≡ global_type (tree_of self.now) e.0 }
    {
        match self.unit.globals.get(e.0 as usize) {
            Some(x) => Some(x.ty),
            None => None,
        }
    }

    /// A type, where there is one.
    #[tactic(auto, using(crate::proofs::Found::type_there, crate::proofs::Found::no_type))]
    pub(crate) fn there(&self, t: Option<TypeId>) -> Option<TypeId>
        ensures { MatchOption result (seen (tree_of self.now).graph.nodes t ≡ None) (λ u. (u.0 < length (tree_of self.now).graph.nodes) × (seen (tree_of self.now).graph.nodes t ≡ Some (shape (tree_of self.now).graph.nodes u.0))) }
    {
        match t {
            None => None,
            Some(u) => self.within(u),
        }
    }

    /// A type, if it is one of the program's.
    #[tactic(auto, using(crate::proofs::Found::type_there, crate::proofs::Found::no_type))]
    pub(crate) fn within(&self, t: TypeId) -> Option<TypeId>
        ensures { MatchOption result (type_at (tree_of self.now).graph.nodes t ≡ None) (λ u. (u.0 < length (tree_of self.now).graph.nodes) × (type_at (tree_of self.now).graph.nodes t ≡ Some (shape (tree_of self.now).graph.nodes u.0))) }
    {
        if t.0 < self.graph().len() {
            Some(t)
        } else {
            None
        }
    }

    /// The type of an array's elements.
    pub(crate) fn element(&self, t: Option<TypeId>) -> Option<TypeId>
        ensures { seen (tree_of self.now).graph.nodes result ≡ option_and_then element_of (seen (tree_of self.now).graph.nodes t) }
    {
        match self.there(t) {
            None => None,
            Some(array) => self.element_of(array),
        }
    }

    /// What a pointer points to.
    pub(crate) fn pointee(&self, t: Option<TypeId>) -> Option<TypeId>
        ensures { seen (tree_of self.now).graph.nodes result ≡ option_and_then pointed (seen (tree_of self.now).graph.nodes t) }
    {
        match self.there(t) {
            None => None,
            Some(pointer) => self.pointed(pointer),
        }
    }

    /// The type of the elements of a type of the program.
    #[tactic(auto, using(crate::proofs::Found::type_below))]
    fn element_of(&self, t: TypeId) -> Option<TypeId>
        requires { t.0 < length (tree_of self.now).graph.nodes }
        ensures { seen (tree_of self.now).graph.nodes result ≡ element_of (shape (tree_of self.now).graph.nodes t.0) }
    {
        match self.graph().node(t) {
            Node::Array(q, _) => Some(q.of),
            Node::Void | Node::Int(_) | Node::Ptr(_) | Node::Func { .. } | Node::Agg(_) => None,
        }
    }

    /// What a type of the program points to.
    #[tactic(auto, using(crate::proofs::Found::type_below))]
    fn pointed(&self, t: TypeId) -> Option<TypeId>
        requires { t.0 < length (tree_of self.now).graph.nodes }
        ensures { seen (tree_of self.now).graph.nodes result ≡ pointed (shape (tree_of self.now).graph.nodes t.0) }
    {
        match self.graph().node(t) {
            Node::Ptr(q) => Some(q.of),
            Node::Void | Node::Int(_) | Node::Array(..) | Node::Func { .. } | Node::Agg(_) => None,
        }
    }

    /// A member of a struct or union.
    pub(crate) fn member(&self, t: Option<TypeId>, n: u32) -> Option<Member>
        ensures there { IfSome result (λ m. m.ty.of.0 < length (tree_of self.now).graph.nodes) }
        ensures is { result ≡ option_and_then (λ s. member_at (tree_of self.now).graph s n) (seen (tree_of self.now).graph.nodes t) }
    {
        match self.there(t) {
            None => None,
            Some(u) => self.member_in(u, n),
        }
    }

    /// A member of a type of the program.
    fn member_in(&self, t: TypeId, n: u32) -> Option<Member>
        requires { t.0 < length (tree_of self.now).graph.nodes }
        ensures arena { IsArena (tree_of self.now).graph }
        ensures is { result ≡ member_at (tree_of self.now).graph (shape (tree_of self.now).graph.nodes t.0) n }
    {
        let _types = self.graph().len();
        match self.graph().node(t) {
            Node::Agg(a) => member_of(self.graph().agg(*a), n),
            Node::Void | Node::Int(_) | Node::Ptr(_) | Node::Array(..) | Node::Func { .. } => None,
        }
    }

    /// The size in bytes of a complete type.
    pub(crate) fn size(&self, t: Option<TypeId>) -> Option<u32>
        ensures { result ≡ option_map (λ (l : Layout). l.size) (option_and_then (shape_layout (tree_of self.now).graph) (seen (tree_of self.now).graph.nodes t)) }
    {
        match self.there(t) {
            None => None,
            Some(u) => self.size_of(u),
        }
    }

    /// The size in bytes of a type of the program, if it is complete.
    #[tactic(auto, using(crate::proofs::Found::size_there))]
    fn size_of(&self, t: TypeId) -> Option<u32>
        requires { t.0 < length (tree_of self.now).graph.nodes }
        ensures { result ≡ option_map (λ (l : Layout). l.size) (layout (tree_of self.now).graph t.0) }
    {
        self.layouts.known_size(t)
    }
}

/// A member of a struct or union (C11 6.7.2.1).
fn member_of(x: &Aggregate, n: u32) -> Option<Member>
    ensures { (g : Graph) → result ≡ member_of g x.now n }
{
    match x.kind {
        AggKind::Enum => None,
        AggKind::Struct | AggKind::Union => member_at(&x.members, n),
    }
}

/// A member of a list, if there is one.
fn member_at(members: &Option<Members>, n: u32) -> Option<Member>
    ensures { result ≡ option_and_then (λ (ms : List Member). slice_get ms n) members.now }
{
    match members {
        None => None,
        Some(list) => list.as_slice().get(n as usize).copied(),
    }
}
