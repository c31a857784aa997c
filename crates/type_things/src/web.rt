ghost use Rattle.std.specs.Prelude.{◌≡◌, ℕ, ◌+◌, List, [], ◌∷◌, ◌++◌, Some, None, map, length, is_some, slice_get, IfOk, OnOk};
ghost use Rattle.type_things.specs.Units.{plain, compared, member_part, aggregate_thing, type_thing, aggregates_from, types_from, aggregate_count, firsts_from};
ghost use Rattle.type_things.specs.Heads.{first_type, is_enum, is_open, is_bounded, lacks_prototype, has_prototype, parts_of, first_part};
ghost use Rattle.type_things.specs.Weaving.{IsSpanned, Adds, Closes, AreStems, AreSomeStems, AllArenas, IsWoven};
ghost use Rattle.std.specs.Option.{option_map};
ghost use Rattle.type_things.specs.Things.{head_of, inside_of};
ghost use Rattle.type_things.specs.Webs.{parts_in, things_of, first_pair, first_pairs};

use crate::graphs::HasGraph;
use crate::numbers::{impossible, narrow, sum};
use crate::stems::{StemId, Stems};
use cil_base::{AggId, IntKind, Memory, NameId, NamePool, TypeId, UnitNo};
use std::alloc::Global;
use type_graph::{AggKind, Aggregate, Member, Node, TypeGraph};

/// What a type or an aggregate is, without its parts.
#[derive(Clone, Copy, PartialEq, Eq)]
#[derive_where(Hash)]
pub enum Head {
    /// `void` (C11 6.2.5p19).
    Void,
    /// An integer type (6.2.5p4 to p7).
    Int(#[derive_where(skip(Hash))] IntKind),
    /// A pointer: its part is the type that it points to.
    Ptr,
    /// An array, with its bound: its part is the element's type.
    Array(Option<u64>),
    /// A function: its parts are the types of its result and of its parameters.
    Func { proto: bool, variadic: bool },
    /// A struct, union or enum as a type: its part is the aggregate.
    Agg,
    /// A struct, union or enum: its parts are the types of its members, if it has them.
    Tagged(#[derive_where(skip(Hash))] AggKind, StemId),
}

impl Head {
    /// Whether it is that of an enum.
    pub fn is_enum(self) -> bool
        ensures { result ≡ is_enum self }
    {
        matches!(self, Head::Tagged(AggKind::Enum, _))
    }

    /// Whether it is that of an array without a bound.
    pub fn is_open(self) -> bool
        ensures { result ≡ is_open self }
    {
        matches!(self, Head::Array(None))
    }

    /// Whether it is that of an array with a bound.
    pub fn is_bounded(self) -> bool
        ensures { result ≡ is_bounded self }
    {
        matches!(self, Head::Array(Some(_)))
    }

    /// Whether it is that of a function without a prototype.
    pub fn lacks_prototype(self) -> bool
        ensures { result ≡ lacks_prototype self }
    {
        matches!(self, Head::Func { proto: false, .. })
    }

    /// Whether it is that of a function with a prototype that does not end in `...`.
    pub fn has_prototype(self) -> bool
        ensures { result ≡ has_prototype self }
    {
        matches!(
            self,
            Head::Func {
                proto: true,
                variadic: false
            }
        )
    }
}

/// What stands beside a part: of a member its name and value, of a type's part nothing.
#[derive(Clone, Copy, PartialEq, Eq, Hash)]
pub struct Label {
    /// The name's number, in an enum that of its stem.
    pub name: u32,
    /// An enumerator's value.
    pub value: i32,
}

/// What stands beside a part of a type.
const PLAIN: Label = Label { name: 0, value: 0 };

/// A part of a type or of an aggregate: what stands beside it, and its number.
pub type Part = (Label, u32);

/// Where the parts of a thing stand in the list of parts.
#[derive(Clone, Copy)]
pub struct Span {
    /// The place of the first.
    pub first: u32,
    /// How many they are.
    pub count: u32,
}

/// A type or an aggregate of a unit. An incomplete aggregate has no parts.
#[derive(Clone, Copy)]
pub struct Stored {
    /// What it is.
    pub head: Head,
    /// Where its parts stand, if it has them.
    pub inside: Option<Span>,
}

/// The first numbers of a unit.
#[derive(Clone, Copy)]
pub struct First {
    /// That of its first aggregate.
    pub aggregate: u32,
    /// That of its first type.
    pub ty: u32,
}

/// The aggregates of all units, numbered one after the other, and then their types. A part of a type has a smaller number than the
/// type.
#[derive(Drop)]
pub struct Web {
    /// The aggregates and types by their numbers.
    pub things: Vec<Stored>,
    /// The parts of all of them.
    pub parts: Vec<Part>,
    /// The first numbers of each unit.
    pub firsts: Vec<First>,
    /// The number of aggregates.
    pub aggregates: u32,
}

impl Web {
    /// The number of things.
    pub fn count(&self) -> Result<u32, Memory>
        ensures { IfOk result (λ n. n ≡ length self.now.things.items) }
    {
        narrow(self.things.len())
    }

    /// A thing.
    fn stored(&self, x: u32) -> Result<Stored, Memory>
        ensures { IfOk result (λ t. slice_get self.now.things.items x ≡ Some t) }
    {
        match self.things.get(x as usize) {
            Some(stored) => Ok(*stored),
            None => Err(impossible()),
        }
    }

    /// What a thing is.
    #[tactic(auto, using(crate::proofs::WebLaws::head_at))]
    pub fn head(&self, x: u32) -> Result<Head, Memory>
        ensures { IfOk result (λ h. head_of (things_of self.now) x ≡ Some h) }
    {
        Ok(self.stored(x)?.head)
    }

    /// The parts that stand in a span.
    fn within(&self, span: Span) -> Result<&[Part], Memory>
        ensures { IfOk result (λ s. s.now ≡ parts_in self.now.parts.items span) }
    {
        let (first, count) = (span.first as usize, span.count as usize);
        if first > self.parts.len() {
            return Err(impossible());
        }
        let behind = &self.parts[first..];
        if count > behind.len() {
            return Err(impossible());
        }
        Ok(&behind[..count])
    }

    /// The parts of a thing, if it has them.
    #[tactic(auto, using(crate::proofs::WebLaws::inside_at))]
    pub fn inside(&self, x: u32) -> Result<Option<&[Part]>, Memory>
        ensures { IfOk result (λ o. inside_of (things_of self.now) x ≡ option_map (λ s. s.now) o) }
    {
        match self.stored(x)?.inside {
            Some(span) => Ok(Some(self.within(span)?)),
            None => Ok(None),
        }
    }

    /// Whether a thing has parts.
    #[tactic(auto, using(crate::proofs::WebLaws::complete_at))]
    pub fn is_complete(&self, x: u32) -> Result<bool, Memory>
        ensures { IfOk result (λ b. b ≡ is_some (inside_of (things_of self.now) x)) }
    {
        Ok(self.stored(x)?.inside.is_some())
    }

    /// The parts of a thing, none where it does not have them.
    pub fn parts(&self, x: u32) -> Result<&[Part], Memory>
        ensures { IfOk result (λ s. s.now ≡ parts_of (things_of self.now) x) }
    {
        match self.inside(x)? {
            Some(parts) => Ok(parts),
            None => Ok(&[]),
        }
    }

    /// The first part of a thing.
    pub fn first_part(&self, x: u32) -> Result<u32, Memory>
        ensures { IfOk result (λ n. n ≡ first_part (things_of self.now) x) }
    {
        match self.parts(x)? {
            [first, ..] => Ok(first.1),
            [] => Err(impossible()),
        }
    }

    /// The first numbers of a unit.
    fn first(&self, u: UnitNo) -> Result<First, Memory>
        ensures { IfOk result (λ f. slice_get self.now.firsts.items u.0 ≡ Some f) }
    {
        match self.firsts.get(u.0 as usize) {
            Some(first) => Ok(*first),
            None => Err(impossible()),
        }
    }

    /// The number of a type.
    pub fn ty(&self, u: UnitNo, t: TypeId) -> Result<u32, Memory>
        ensures { IfOk result (λ n. n ≡ first_type (first_pairs self.now) u.0 + t.0) }
    {
        sum(self.first(u)?.ty, t.0)
    }

    /// The first numbers of all units.
    pub fn firsts(&self) -> &[First]
        ensures { result.now ≡ self.now.firsts.items }
    {
        &self.firsts
    }

    /// The first numbers of all units, given up by the web.
    pub fn into_firsts(self) -> Vec<First>
        ensures { result ≡ self.firsts }
    {
        self.firsts
    }
}

/// A member's name, as it is compared in an aggregate of a kind.
fn compared_name(stems: &Stems, kind: AggKind, name: NameId) -> Result<u32, Memory>
    ensures { (names : List (List ℕ)) → AreStems names stems.now → IfOk result (λ n. n ≡ compared names kind name) }
{
    match kind {
        AggKind::Struct | AggKind::Union => Ok(name.0),
        AggKind::Enum => Ok(stems.of(name)?.0),
    }
}

/// What stands beside a member of an aggregate of a kind.
fn label_of(stems: &Stems, kind: AggKind, m: &Member) -> Result<Label, Memory>
    ensures { (names : List (List ℕ)) → AreStems names stems.now → IfOk result (λ l. l ≡ record { name = compared names kind m.now.name; value = m.now.value }) }
{
    let name = compared_name(stems, kind, m.name)?;
    Ok(Label {
        name,
        value: m.value,
    })
}

/// The types and aggregates of one unit while they are added to a web.
#[derive(Drop)]
struct Weaving<'a> {
    stems: &'a Stems,
    first: First,
}

/// Puts a part behind the others.
fn push_part(parts: &mut Vec<Part>, label: Label, first: u32, number: u32) -> Result<(), Memory>
    ensures { OnOk result (parts.new.items ≡ parts.old.items ++ (label, first + number) ∷ []) }
{
    parts.push((label, sum(first, number)?))?;
    Ok(())
}

/// Adds a thing whose parts are those from a place on.
fn add_thing(web: &mut Web, head: Head, first: u32) -> Result<(), Memory>
    ensures { OnOk result (Closes web.old web.new head first) }
{
    let end = narrow(web.parts.len())?;
    let Some(count) = end.checked_sub(first) else {
        return Err(impossible());
    };
    let inside = Some(Span { first, count });
    web.things.push(Stored { head, inside })?;
    Ok(())
}

/// Adds a type without parts.
fn add_bare(web: &mut Web, head: Head) -> Result<(), Memory>
    requires { IsSpanned web.old }
    ensures { OnOk result (Adds web.old web.new ((record { head = head; inside = Some [] }) ∷ [])) }
{
    let first = narrow(web.parts.len())?;
    add_thing(web, head, first)
}

/// Adds a type with one part.
fn add_over(web: &mut Web, head: Head, base: u32, part: u32) -> Result<(), Memory>
    requires { IsSpanned web.old }
    ensures { OnOk result (Adds web.old web.new ((record { head = head; inside = Some ((plain, base + part) ∷ []) }) ∷ [])) }
{
    let first = narrow(web.parts.len())?;
    push_part(&mut web.parts, PLAIN, base, part)?;
    add_thing(web, head, first)
}

/// Puts types behind the parts.
fn push_types(parts: &mut Vec<Part>, base: u32, types: &[TypeId]) -> Result<(), Memory>
    ensures { OnOk result (parts.new.items ≡ parts.old.items ++ map (λ p. (plain, base + p.0)) types.now) }
{
    for t in types {
        push_part(parts, PLAIN, base, t.0)?;
    }
    Ok(())
}

/// Adds a function type.
fn add_function(
    web: &mut Web,
    head: Head,
    base: u32,
    ret: TypeId,
    params: &[TypeId],
) -> Result<(), Memory>
    requires { IsSpanned web.old }
    ensures { OnOk result (Adds web.old web.new ((record { head = head; inside = Some ((plain, base + ret.0) ∷ map (λ p. (plain, base + p.0)) params.now) }) ∷ [])) }
{
    let first = narrow(web.parts.len())?;
    push_part(&mut web.parts, PLAIN, base, ret.0)?;
    push_types(&mut web.parts, base, params)?;
    add_thing(web, head, first)
}

/// Adds an aggregate without members.
fn add_incomplete(web: &mut Web, head: Head) -> Result<(), Memory>
    requires { IsSpanned web.old }
    ensures { OnOk result (Adds web.old web.new ((record { head = head; inside = None }) ∷ [])) }
{
    web.things.push(Stored { head, inside: None })?;
    Ok(())
}

impl Weaving<'_> {
    /// Puts the types of members behind the parts, with what stands beside them.
    fn push_members(
        &self,
        parts: &mut Vec<Part>,
        kind: AggKind,
        members: &[Member],
    ) -> Result<(), Memory>
        ensures { (names : List (List ℕ)) → AreStems names self.now.stems.now → OnOk result (parts.new.items ≡ parts.old.items ++ map (member_part names kind self.now.first.ty) members.now) }
    {
        for m in members {
            let label = label_of(self.stems, kind, m)?;
            push_part(parts, label, self.first.ty, m.ty.of.0)?;
        }
        Ok(())
    }

    /// Adds an aggregate with members.
    fn add_complete(
        &self,
        web: &mut Web,
        head: Head,
        kind: AggKind,
        members: &[Member],
    ) -> Result<(), Memory>
        requires { IsSpanned web.old }
        ensures { (names : List (List ℕ)) → AreStems names self.now.stems.now → OnOk result (Adds web.old web.new ((record { head = head; inside = Some (map (member_part names kind self.now.first.ty) members.now) }) ∷ [])) }
    {
        let first = narrow(web.parts.len())?;
        self.push_members(&mut web.parts, kind, members)?;
        add_thing(web, head, first)
    }

    /// Adds an aggregate.
    fn add_aggregate(&self, web: &mut Web, aggregate: &Aggregate) -> Result<(), Memory>
        requires spanned { IsSpanned web.old }
        requires stems { AreSomeStems self.now.stems.now }
        ensures { (names : List (List ℕ)) → AreStems names self.now.stems.now → OnOk result (Adds web.old web.new (aggregate_thing names self.now.first.ty aggregate.now ∷ [])) }
    {
        let head = Head::Tagged(aggregate.kind, self.stems.of_tag(aggregate.tag)?);
        match &aggregate.members {
            None => add_incomplete(web, head),
            Some(members) => self.add_complete(web, head, aggregate.kind, members.as_slice()),
        }
    }

    /// Adds a type.
    fn add_type(&self, web: &mut Web, n: &Node) -> Result<(), Memory>
        requires { IsSpanned web.old }
        ensures { OnOk result (Adds web.old web.new (type_thing self.now.first.aggregate self.now.first.ty n.now ∷ [])) }
    {
        match n {
            Node::Void => add_bare(web, Head::Void),
            Node::Int(kind) => add_bare(web, Head::Int(*kind)),
            Node::Ptr(q) => add_over(web, Head::Ptr, self.first.ty, q.of.0),
            Node::Array(q, bound) => add_over(web, Head::Array(*bound), self.first.ty, q.of.0),
            Node::Func {
                proto,
                variadic,
                ret,
                params,
            } => {
                let head = Head::Func {
                    proto: *proto,
                    variadic: *variadic,
                };
                add_function(web, head, self.first.ty, *ret, params.as_slice())
            }
            Node::Agg(a) => add_over(web, Head::Agg, self.first.aggregate, a.0),
        }
    }

    /// Adds the aggregates of a unit.
    fn add_aggregates(&self, web: &mut Web, g: &TypeGraph) -> Result<(), Memory>
        requires spanned { IsSpanned web.old }
        requires stems { AreSomeStems self.now.stems.now }
        ensures { (names : List (List ℕ)) → AreStems names self.now.stems.now → OnOk result (Adds web.old web.new (map (aggregate_thing names self.now.first.ty) g.now.aggs)) }
    {
        for a in 0..g.agg_count() {
            self.add_aggregate(web, g.agg(AggId(a)))?;
        }
        Ok(())
    }

    /// Adds the types of a unit.
    fn add_types(&self, web: &mut Web, g: &TypeGraph) -> Result<(), Memory>
        requires { IsSpanned web.old }
        ensures { OnOk result (Adds web.old web.new (map (type_thing self.now.first.aggregate self.now.first.ty) g.now.nodes)) }
    {
        for t in 0..g.len() {
            self.add_type(web, g.node(TypeId(t)))?;
        }
        Ok(())
    }
}

/// The number of aggregates of all units.
fn count_aggregates<G: HasGraph>(units: &[G]) -> Result<u32, Memory>
    ensures count { IfOk result (λ n. n ≡ aggregate_count (map G.graph_of units.now)) }
    ensures arenas { OnOk result (AllArenas (map G.graph_of units.now)) }
{
    let mut count = 0;
    for u in 0..units.len() {
        count = sum(count, units[u].graph().agg_count())?;
    }
    Ok(count)
}

/// The first numbers of each unit.
fn first_numbers<G: HasGraph>(
    alloc: Global,
    units: &[G],
    aggregates: u32,
) -> Result<Vec<First>, Memory>
    ensures { IfOk result (λ v. map first_pair v.items ≡ firsts_from 0 aggregates (map G.graph_of units.now)) }
{
    let mut firsts = Vec::new(alloc);
    let mut aggregate = 0;
    let mut ty = aggregates;
    for u in 0..units.len() {
        let types = units[u].graph();
        firsts.push(First { aggregate, ty })?;
        aggregate = sum(aggregate, types.agg_count())?;
        ty = sum(ty, types.len())?;
    }
    Ok(firsts)
}

/// Adds the aggregates of all units.
fn weave_aggregates<G: HasGraph>(web: &mut Web, stems: &Stems, units: &[G]) -> Result<(), Memory>
    requires spanned { IsSpanned web.old }
    requires stems { AreSomeStems stems.now }
    ensures { (names : List (List ℕ)) (types : ℕ) → AreStems names stems.now → first_pairs web.old ≡ firsts_from 0 types (map G.graph_of units.now) → OnOk result (Adds web.old web.new (aggregates_from names types (map G.graph_of units.now))) }
{
    for u in 0..units.len() {
        let first = web.first(UnitNo(narrow(u)?))?;
        Weaving { stems, first }.add_aggregates(web, units[u].graph())?;
    }
    Ok(())
}

/// Adds the types of all units.
fn weave_types<G: HasGraph>(web: &mut Web, stems: &Stems, units: &[G]) -> Result<(), Memory>
    requires { IsSpanned web.old }
    ensures { (types : ℕ) → first_pairs web.old ≡ firsts_from 0 types (map G.graph_of units.now) → OnOk result (Adds web.old web.new (types_from 0 types (map G.graph_of units.now))) }
{
    for u in 0..units.len() {
        let first = web.first(UnitNo(narrow(u)?))?;
        Weaving { stems, first }.add_types(web, units[u].graph())?;
    }
    Ok(())
}

/// The aggregates and types of units whose names are those of a pool.
pub fn weave<G: HasGraph>(alloc: Global, units: &[G], names: &NamePool) -> Result<Web, Memory>
    ensures { IfOk result (λ w. IsWoven names.now (map G.graph_of units.now) w) }
{
    let stems = Stems::new(alloc, names)?;
    let aggregates = count_aggregates(units)?;
    let firsts = first_numbers(alloc, units, aggregates)?;
    let mut web = Web {
        things: Vec::new(alloc),
        parts: Vec::new(alloc),
        firsts,
        aggregates,
    };
    weave_aggregates(&mut web, &stems, units)?;
    weave_types(&mut web, &stems, units)?;
    Ok(web)
}
