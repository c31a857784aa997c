ghost use Rattle.std.specs.Prelude.{◌≡◌, ◌<◌, [], ◌∷◌, Some, length, IfSome, IfOk, OnOk};
ghost use Rattle.std.specs.Option.{option_map, option_and_then};
ghost use Rattle.cil_base.specs.declared.kinds.IntKind.TheVariants.{Int as int};
ghost use Rattle.cil_base.specs.Integer.{kind_in, long_of};
ghost use Rattle.type_graph.specs.Shapes.{shape, shapes_of, IntType};
ghost use Rattle.type_graph.specs.Growth.{Grows};
ghost use Rattle.type_graph.specs.Arena.{IsArena, EachType};
ghost use Rattle.std.specs.List.{list_all};
ghost use Rattle.cil_tree.specs.WellFormedTypes.{has_member};
ghost use Rattle.cil_tree.specs.Typing.{same_shape, pointed, element_of, is_function};
ghost use Rattle.cil_tree.specs.View.{host_of};
ghost use Rattle.cil_text.specs.ReadTypes.{find, read_decl};
ghost use Rattle.cil_text.specs.ReadExps.{bases, host_named, find_named, fields, type_of_named, is_array_type};
ghost use Rattle.cil_text.specs.ReadGlobals.{params_of};
ghost use Rattle.cil_text.specs.TypesOf.{AddsParts};
ghost use Rattle.cil_scan.specs.Said.{all_said};
ghost use Rattle.cil_declarators.specs.Gives.{Gives};
ghost use Rattle.cil_declarators.specs.Layers.{named_of};
ghost use Rattle.cil_reader.specs.Settings.{Onward, type_in, TypeBelow, env_in, locals_of, with_globals, with_locals, outside};
ghost use Rattle.cil_reader.specs.Parts.{HostKnown};
ghost use Rattle.cil_reader.specs.Pools.{KeepsNames};
ghost use Rattle.cil_reader.specs.Images.{scalar_of};
ghost use Rattle.cil_declarators.specs.Fresh.{with_new};
ghost use Rattle.cil_reader.specs.Members.{AreThere};
ghost use Rattle.cil_reader.specs.Aggregates.{AddsTag, completed, with_fields, is_number};

use crate::fitting::{are_filled, may_complete};
use crate::members::find_member;
use crate::names::{Known, Names};
use crate::parts::Based;
use crate::typed::is_same;
use cil_base::{AggId, EntityId, IntKind, LocalId, NamePool, TypeId};
use cil_declarators::{Named, Stop, read_decl};
use cil_scan::Word;
use cil_tree::Host;
use std::alloc::Global;
use std::marker::Model;
use type_graph::{AggKind, Member, Members, Node, TypeGraph};

/// What a type is that may have a value of its own in an image.
#[derive(Clone, Copy)]
pub(crate) enum Scalar {
    /// A value of an integer type; that of an enumerated type is one of `int`.
    Int(IntKind),
    Pointer,
    Other,
}

/// The types of the program that is read, and the names that are known. Contracts see the graph and the names with
/// the shapes of their types.
#[derive(Drop)]
pub(crate) struct Reader {
    graph: TypeGraph,
    known: Known,
}

impl Model for Reader {
    ghost use Rattle.cil_reader.specs.Settings.{Setting, KnownIn};

    ghost Value = { Setting };

    ghost view = { λ r. record { graph = r.graph; known = r.known } };

    ghost invariant = { λ r. KnownIn r.graph r.known };
}

impl Reader {
    ghost use Rattle.cil_reader.specs.Settings.{KnownIn};

    /// A reader that knows some names, whose types are in the graph.
    pub(crate) fn new(graph: TypeGraph, known: Known) -> Self
        requires { KnownIn graph known }
        ensures { result ≡ record { graph = graph; known = known } }
    {
        Reader { graph, known }
    }

    /// The allocator that the reader takes memory from.
    pub(crate) fn alloc(&self) -> Global {
        self.graph.alloc()
    }

    /// The kind of the data model that has the words and the suffix of a kind of LP64.
    pub(crate) fn kind(&self, written: IntKind) -> IntKind
        ensures { result ≡ kind_in (env_in self.now).abi written }
    {
        self.graph.abi().kind(written)
    }

    /// The kind of `long`.
    pub(crate) fn long(&self) -> IntKind
        ensures { result ≡ long_of (env_in self.now).abi }
    {
        self.graph.abi().long()
    }

    /// A declaration without storage class, or a type's name.
    #[tactic(auto, using(crate::proofs::SettingsLaws::setting_kept, crate::proofs::SettingsLaws::known_kept, crate::proofs::SettingsLaws::setting_tags, crate::proofs::SettingsLaws::setting_model, cil_declarators::proofs::ExtendsLaws::extends_grows, cil_declarators::proofs::ExtendsLaws::extends_keeps, crate::proofs::OnwardLaws::onward_from))]
    pub(crate) fn read_decl<'w, 'a>(
        &mut self,
        left: u32,
        words: &'w [Word<'a>],
    ) -> Result<(Named<'a>, &'w [Word<'a>]), Stop>
        ensures gives { Gives (λ r. (named_of self.new.graph.nodes r.0, all_said r.1.now)) result (read_decl (bases (env_in self.old)) left (all_said words.now)) }
        ensures there { IfOk result (λ r. r.0.ty.0 < length self.new.graph.nodes) }
        ensures adds { IfOk result (λ r. AddsParts self.old.graph self.new.graph (shape self.new.graph.nodes r.0.ty.0 ∷ [])) }
        ensures on { Onward self.old self.new }
    {
        let abi = self.graph.abi();
        read_decl(abi, &self.known.tags, &mut self.graph, left, words)
    }

    /// Whether two types are one.
    pub(crate) fn is_same(&self, a: TypeId, b: TypeId) -> bool
        requires left { a.0 < length self.now.graph.nodes }
        requires right { b.0 < length self.now.graph.nodes }
        ensures is { result ≡ same_shape (shape self.now.graph.nodes a.0) (shape self.now.graph.nodes b.0) }
        ensures arena { IsArena self.now.graph }
    {
        is_same(&self.graph, a, b)
    }

    /// What a type points to, if it is a pointer.
    pub(crate) fn pointed(&self, t: Option<TypeId>) -> Option<TypeId>
        requires { TypeBelow (length self.now.graph.nodes) t }
        ensures is { type_in self.now.graph.nodes result ≡ option_and_then pointed (type_in self.now.graph.nodes t) }
        ensures below { TypeBelow (length self.now.graph.nodes) result }
    {
        match self.graph.node(t?) {
            Node::Ptr(to) => Some(to.of),
            _ => None,
        }
    }

    /// The type of the elements, if a type is an array.
    pub(crate) fn element(&self, t: Option<TypeId>) -> Option<TypeId>
        requires { TypeBelow (length self.now.graph.nodes) t }
        ensures is { type_in self.now.graph.nodes result ≡ option_and_then element_of (type_in self.now.graph.nodes t) }
        ensures below { TypeBelow (length self.now.graph.nodes) result }
    {
        match self.graph.node(t?) {
            Node::Array(element, _) => Some(element.of),
            _ => None,
        }
    }

    /// Whether a type is an array.
    pub(crate) fn is_array(&self, t: Option<TypeId>) -> bool
        requires { TypeBelow (length self.now.graph.nodes) t }
        ensures { result ≡ is_array_type (type_in self.now.graph.nodes t) }
    {
        let Some(t) = t else {
            return false;
        };
        match self.graph.node(t) {
            Node::Array(_, _) => true,
            _ => false,
        }
    }

    /// What a name in front of a place means: a local, or else a global (C11 6.2.1p4).
    #[tactic(auto, using(crate::proofs::SettingsLaws::host_local, crate::proofs::SettingsLaws::host_global, crate::proofs::SettingsLaws::global_number))]
    pub(crate) fn host_named(&self, name: &[u8]) -> Option<Based>
        ensures found { option_map (λ b. host_of self.now.graph.nodes b.host) result ≡ host_named (env_in self.now) name.now }
        ensures known { IfSome result (λ b. HostKnown self.now.graph (env_in self.now) b.host b.ty) }
    {
        if let Some(found) = self.known.locals.find(name) {
            return Some(Based {
                host: Host::Var(LocalId(found.0)),
                ty: Some(found.1),
            });
        }
        match self.known.globals.find(name) {
            Some(found) => Some(Based {
                host: Host::Global(EntityId(found.0)),
                ty: Some(found.1),
            }),
            None => None,
        }
    }

    /// The number and the type of a member.
    #[tactic(auto, using(crate::proofs::SettingsLaws::field_number, crate::proofs::SettingsLaws::field_typed, crate::proofs::SettingsLaws::field_below))]
    pub(crate) fn field(&self, t: Option<TypeId>, name: &[u8]) -> Option<(u32, TypeId)>
        requires { TypeBelow (length self.now.graph.nodes) t }
        ensures found { option_map (λ r. r.0) result ≡ find_named name.now (fields (env_in self.now) (type_in self.now.graph.nodes t)) }
        ensures typed { IfSome result (λ r. type_of_named (fields (env_in self.now) (type_in self.now.graph.nodes t)) r.0 ≡ Some (shape self.now.graph.nodes r.1.0)) }
        ensures below { IfSome result (λ r. r.1.0 < length self.now.graph.nodes) }
    {
        match self.graph.node(t?) {
            Node::Agg(a) => find_member(&self.known, *a, name),
            _ => None,
        }
    }

    /// What a type is that may have a value of its own.
    pub(crate) fn scalar(&self, t: TypeId) -> Scalar
        requires { t.0 < length self.now.graph.nodes }
        ensures { result ≡ scalar_of (shape self.now.graph.nodes t.0) }
    {
        match self.graph.node(t) {
            Node::Int(kind) => Scalar::Int(*kind),
            Node::Agg(_) => Scalar::Int(IntKind::Int),
            Node::Ptr(_) => Scalar::Pointer,
            Node::Void | Node::Array(_, _) | Node::Func { .. } => Scalar::Other,
        }
    }

    /// Whether a type is a function's.
    pub(crate) fn is_function(&self, t: TypeId) -> bool
        requires { t.0 < length self.now.graph.nodes }
        ensures { result ≡ is_function (shape self.now.graph.nodes t.0) }
    {
        match self.graph.node(t) {
            Node::Func { .. } => true,
            Node::Void | Node::Int(_) | Node::Ptr(_) => false,
            Node::Array(_, _) | Node::Agg(_) => false,
        }
    }

    /// The types of a function's parameters.
    #[tactic(auto, using(crate::proofs::MemberLaws::params_there))]
    pub(crate) fn params(&self, t: TypeId) -> &[TypeId]
        requires { t.0 < length self.now.graph.nodes }
        ensures each { EachType (length self.now.graph.nodes) result.now }
        ensures is { shapes_of (shape self.now.graph.nodes) result.now ≡ params_of (shape self.now.graph.nodes t.0) }
    {
        match self.graph.node(t) {
            Node::Func { params, .. } => params.as_slice(),
            Node::Void | Node::Int(_) | Node::Ptr(_) => &[],
            Node::Array(_, _) | Node::Agg(_) => &[],
        }
    }

    /// The type `int`.
    #[tactic(auto, using(crate::proofs::SettingsLaws::known_kept, crate::proofs::SettingsLaws::setting_kept, crate::proofs::OnwardLaws::onward_by))]
    pub(crate) fn int_type(&mut self) -> Result<TypeId, Stop>
        ensures gives { Gives (λ t. shape self.new.graph.nodes t.0) result (Some (IntType int)) }
        ensures there { IfOk result (λ t. t.0 < length self.new.graph.nodes) }
        ensures on { Onward self.old self.new }
        ensures adds { IfOk result (λ t. AddsParts self.old.graph self.new.graph (shape self.new.graph.nodes t.0 ∷ [])) }
    {
        Ok(self.graph.add_node(Node::Int(IntKind::Int))?)
    }

    /// How many aggregates there are.
    pub(crate) fn aggregate_count(&self) -> u32
        ensures { result ≡ length self.now.graph.aggs }
    {
        self.graph.agg_count()
    }

    /// Whether each aggregate is incomplete or has a member.
    pub(crate) fn are_filled(&self) -> bool
        ensures { result ≡ list_all has_member self.now.graph.aggs }
    {
        are_filled(&self.graph)
    }

    /// Whether an aggregate has this tag.
    #[tactic(auto, using(crate::proofs::SettingsLaws::setting_tags))]
    pub(crate) fn has_tag(&self, a: AggId, tag: &[u8]) -> bool
        ensures { result ≡ is_number (find tag.now (env_in self.now).tags) a.0 }
    {
        match self.known.tags.find(tag) {
            Some(number) => number == a.0,
            None => false,
        }
    }

    /// Adds an incomplete aggregate with a tag of its own.
    #[tactic(auto, using(crate::proofs::SettingsLaws::known_kept, crate::proofs::SettingsLaws::setting_tags, crate::proofs::MemberLaws::tag_known, crate::proofs::MemberLaws::tag_same, crate::proofs::PoolLaws::pool_asked, crate::proofs::PoolLaws::pool_by, crate::proofs::AggregateLaws::adds_tag, crate::proofs::AggregateLaws::tag_members))]
    pub(crate) fn add_aggregate(
        &mut self,
        pool: &mut NamePool,
        kind: AggKind,
        tag: &[u8],
    ) -> Result<AggId, Stop>
        ensures gives { Gives (λ a. (env_in self.new).tags) result (with_new (env_in self.old).tags tag.now) }
        ensures number { IfOk result (λ a. a.0 ≡ length self.old.graph.aggs) }
        ensures adds { IfOk result (λ a. AddsTag self.old.graph self.new.graph pool.new kind tag.now) }
        ensures members { IfOk result (λ a. (env_in self.new).members ≡ (env_in self.old).members) }
        ensures pool { KeepsNames pool.old pool.new }
        ensures nodes { self.new.graph.nodes ≡ self.old.graph.nodes }
    {
        let name = pool.intern(tag)?;
        let a = self.graph.add_agg(kind, Some(name))?;
        self.known.tags.add(tag)?;
        Ok(a)
    }

    /// Gives an aggregate its members, whose names are those of the next aggregate that has not been read.
    #[tactic(auto, using(crate::proofs::SettingsLaws::known_kept, crate::proofs::MemberLaws::members_known, crate::proofs::MemberLaws::members_same, crate::proofs::AggregateLaws::completed_gives, crate::proofs::AggregateLaws::completed_open))]
    pub(crate) fn complete(
        &mut self,
        a: AggId,
        members: Vec<Member>,
        fields: Names,
    ) -> Result<(), Stop>
        requires members { AreThere (length self.old.graph.nodes) members.items }
        requires fields { EachType (length self.old.graph.nodes) fields.types.items }
        ensures gives { Gives (λ u. self.new.graph) result (completed self.old.graph a members.items) }
        ensures env { OnOk result (env_in self.new ≡ with_fields (env_in self.old) (locals_of self.old.graph.nodes fields)) }
        ensures grows { Grows self.old.graph self.new.graph }
    {
        if !may_complete(&self.graph, a, &members) {
            return Err(Stop::NotCil);
        }
        self.graph.complete(a, Members::new(members))?;
        self.known.members.push(fields)?;
        Ok(())
    }

    /// Leaves the next aggregate that has not been read without members.
    #[tactic(auto, using(crate::proofs::MemberLaws::nothing_known, crate::proofs::MemberLaws::nothing_same))]
    pub(crate) fn leave_incomplete(&mut self) -> Result<(), Stop>
        ensures gives { Gives (λ u. env_in self.new) result (Some (with_fields (env_in self.old) [])) }
        ensures graph { self.new.graph ≡ self.old.graph }
    {
        let names = Names::new(self.alloc());
        self.known.members.push(names)?;
        Ok(())
    }

    /// Makes these the names of the globals, where no locals are known.
    #[tactic(auto, using(crate::proofs::EnvLaws::outside_known, crate::proofs::EnvLaws::globals_env))]
    pub(crate) fn set_globals(&mut self, globals: Names)
        requires { EachType (length self.old.graph.nodes) globals.types.items }
        ensures graph { self.new.graph ≡ self.old.graph }
        ensures env { env_in self.new ≡ outside (with_globals (env_in self.old) (locals_of self.old.graph.nodes globals)) }
    {
        let locals = Names::new(self.alloc());
        self.known.globals = globals;
        self.known.locals = locals;
    }

    /// Makes these the names of the locals.
    #[tactic(auto, using(crate::proofs::MemberLaws::locals_known, crate::proofs::EnvLaws::locals_env))]
    pub(crate) fn set_locals(&mut self, locals: Names)
        requires { EachType (length self.old.graph.nodes) locals.types.items }
        ensures graph { self.new.graph ≡ self.old.graph }
        ensures env { env_in self.new ≡ with_locals (env_in self.old) (locals_of self.old.graph.nodes locals) }
    {
        self.known.locals = locals;
    }

    /// The types.
    pub(crate) fn into_graph(self) -> TypeGraph
        ensures { result ≡ self.graph }
    {
        self.graph
    }
}
