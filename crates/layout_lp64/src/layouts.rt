ghost use Rattle.std.specs.Prelude.{◌≡◌, ◌↔◌, ◌<◌, ◌+◌, ◌^◌, ℕ, true, false, Some, None, length, MatchResult, MatchOption, IfOk, OnOk, IfSome, IsSome, IsTrue, slice_get};
ghost use Rattle.type_graph.specs.declared.aggregates.Member.{Member};
ghost use Rattle.type_graph.specs.declared.layout.Layout.{Layout};
ghost use Rattle.type_graph.specs.Shapes.{shape};
ghost use Rattle.cil_base.specs.declared.kinds.Abi.{Abi};
ghost use Rattle.type_graph.specs.Arena.{IsArena, empty_graph};
ghost use Rattle.type_graph.specs.Layouts.{nothing_placed, enum_layout, without_elements as no_elements};
ghost use Rattle.layout_lp64.specs.Capped.{resolve, copies, member_span, capped_all, capped_finished, capped_members, capped_aggregate};
ghost use Rattle.layout_lp64.specs.Placements.{seen};
ghost use Rattle.layout_lp64.specs.Tables.{whole_found, found, found_offset, AreSpans, AreTables, InStep, WereInStep, AreAligned, AddsSpan, AddsLayout, AddsAggs, AddsSpans, AddsLayouts, AggregatesFit, TypesFit, AggsFit, FitsOrNew, IsLeastLarge, is_large};
ghost use Rattle.layout_lp64.specs.Stops.{StopsAt};
ghost use Rattle.std.specs.Option.{option_and_then, option_map};

use crate::aggregate_table::AggregateTable;
use crate::arithmetic::{LIMIT, capped};
use crate::placing::{AggregateLayout, Placing};
use crate::span_table::SpanTable;
use crate::spans::{Span, make_span};
use cil_base::{AggId, IntKind, Memory, TypeId};
use std::alloc::Global;
use type_graph::{AggKind, Layout, Member, Node, TypeGraph};

/// Why there are no layouts.
#[derive(Clone, Copy, Debug, PartialEq, Eq)]
pub enum LayoutStop {
    /// A complete type has more bytes than an object may have: the least such type (own).
    TooBig(TypeId),
    /// Want of memory.
    Memory,
}

impl From<Memory> for LayoutStop {
    ghost use Rattle.std.specs.Prelude.{◌≡◌};
    ghost use Rattle.layout_lp64.specs.declared.layouts.LayoutStop.TheVariants as stop;

    ghost from_gives = { λ _ e. e ≡ stop.Memory };

    fn from(_memory: Memory) -> Self {
        LayoutStop::Memory
    }
}

/// The layouts of a graph's types and aggregates.
#[derive(Drop)]
pub struct Layouts {
    spans: SpanTable,
    aggs: AggregateTable,
    most: Vec<u32>,
    completed: usize,
    alloc: Global,
}

/// The size and alignment of a span.
fn resolved(aggs: &AggregateTable, span: Span) -> Option<Layout>
    ensures { result ≡ resolve (whole_found aggs.now) span }
{
    match span {
        Span::Nothing => None,
        Span::Fixed(l) => Some(l),
        Span::Copies(a, count) => copied(aggs.whole(a), count),
    }
}

/// So many copies of a layout, as elements of an array.
fn copied(l: Option<Layout>, count: u32) -> Option<Layout>
    ensures { result ≡ option_map (copies count) l }
{
    match l {
        None => None,
        Some(l) => Some(Layout {
            size: capped(count as u64 * l.size as u64),
            align: l.align,
        }),
    }
}

impl Layouts {
    /// The layout of a type, if it is complete.
    fn found(&self, t: TypeId) -> Option<Layout>
        ensures { result ≡ found self.now t.0 }
    {
        match self.spans.get(t.0 as usize) {
            None => None,
            Some(span) => resolved(&self.aggs, span),
        }
    }

    /// The layout of a member of a type, if it has one. A flexible array takes no room (C11 6.7.2.1p18).
    fn member(&self, g: &TypeGraph, t: TypeId) -> Option<Layout>
        requires there { t.0 < length self.now.spans }
        requires spans { AreSpans self.now.spans g.now }
        ensures { result ≡ member_span g.now.abi (whole_found self.now.aggs) (shape g.now.nodes t.0) }
    {
        match g.node(t) {
            Node::Array(element, None) => without_elements(self.found(element.of)),
            _ => self.found(t),
        }
    }

    /// The layout of a struct, or of a union, with these members.
    fn placed(
        &self,
        g: &TypeGraph,
        over: bool,
        members: &[Member],
    ) -> Result<Option<AggregateLayout>, Memory>
        requires there { (i : ℕ) (m : Member) → slice_get members.now i ≡ Some m → m.ty.of.0 < length self.now.spans }
        requires spans { AreSpans self.now.spans g.now }
        requires aligned { AreAligned self.now.aggs }
        ensures { IfOk result (λ o. option_map seen o ≡ option_map capped_finished (capped_all over (λ (m : Member). member_span g.now.abi (whole_found self.now.aggs) (shape g.now.nodes m.ty.of.0)) nothing_placed members.now)) }
    {
        let mut placing = Placing::new(self.alloc);
        for m in members {
            match self.member(g, m.ty.of) {
                None => return Ok(None),
                Some(l) => placing.place(over, l)?,
            }
        }
        Ok(Some(placing.finish()))
    }

    /// The layout of an enum, which is that of int (own, C11 6.7.2.2p4).
    #[tactic(auto, using(crate::proofs::TableLaws::no_offsets))]
    fn enumerated(&self, members: &[Member]) -> Result<Option<AggregateLayout>, Memory>
        ensures { IfOk result (λ o. option_map seen o ≡ Some (enum_layout members.now)) }
    {
        let size = IntKind::Int.size();
        let offsets = vec![in self.alloc; 0; members.len()]?;
        Ok(Some(AggregateLayout {
            whole: Layout { size, align: size },
            offsets,
        }))
    }

    /// The layout of an aggregate with these members.
    fn of_members(
        &self,
        g: &TypeGraph,
        kind: AggKind,
        members: &[Member],
    ) -> Result<Option<AggregateLayout>, Memory>
        requires there { (i : ℕ) (m : Member) → slice_get members.now i ≡ Some m → m.ty.of.0 < length self.now.spans }
        requires spans { AreSpans self.now.spans g.now }
        requires aligned { AreAligned self.now.aggs }
        ensures { IfOk result (λ o. option_map seen o ≡ capped_members kind (λ (m : Member). member_span g.now.abi (whole_found self.now.aggs) (shape g.now.nodes m.ty.of.0)) members.now) }
    {
        match kind {
            AggKind::Struct => self.placed(g, false, members),
            AggKind::Union => self.placed(g, true, members),
            AggKind::Enum => self.enumerated(members),
        }
    }

    /// The layout of an aggregate, if it is complete.
    fn aggregate(&self, g: &TypeGraph, a: AggId) -> Result<Option<AggregateLayout>, Memory>
        requires arena { IsArena g.now }
        requires there { a.0 < length g.now.aggs }
        requires spans { AreSpans self.now.spans g.now }
        requires all { length self.now.spans ≡ length g.now.nodes }
        requires aligned { AreAligned self.now.aggs }
        ensures { IfOk result (λ o. option_map seen o ≡ option_and_then (capped_aggregate g.now.abi g.now.nodes (whole_found self.now.aggs)) (slice_get g.now.aggs a.0)) }
    {
        let aggregate = g.agg(a);
        match &aggregate.members {
            None => Ok(None),
            Some(members) => self.of_members(g, aggregate.kind, members.as_slice()),
        }
    }

    /// Adds the span of the next type.
    fn add_span(&mut self, g: &TypeGraph, t: TypeId) -> Result<(), Memory>
        requires arena { IsArena g.now }
        requires tables { AreTables self.old g.now }
        requires next { t.0 ≡ length self.old.spans }
        requires there { t.0 < length g.now.nodes }
        ensures { OnOk result (AddsSpan self.old self.new g.now) }
    {
        let span = make_span(g.abi(), &self.spans, g.node(t));
        self.spans.push(span)?;
        if let Span::Copies(a, count) = span {
            let most = self.most[a.0 as usize].max(count);
            self.most[a.0 as usize] = most;
        }
        Ok(())
    }

    /// Adds the layout of the aggregate that was completed next.
    fn add_layout(&mut self, g: &TypeGraph, a: AggId) -> Result<(), Memory>
        requires arena { IsArena g.now }
        requires tables { AreTables self.old g.now }
        requires all { length self.old.spans ≡ length g.now.nodes }
        requires next { slice_get g.now.completed self.old.completed ≡ Some a }
        ensures { OnOk result (AddsLayout self.old self.new g.now) }
    {
        let layout = self.aggregate(g, a)?;
        self.aggs.set(a, &layout)?;
        self.completed += 1;
        Ok(())
    }

    /// Adds entries for the aggregates that were added to the graph.
    fn add_aggs(&mut self, g: &TypeGraph, count: usize) -> Result<(), Memory>
        requires before { WereInStep self.old g.now }
        requires count { count ≡ length g.now.aggs }
        ensures { OnOk result (AddsAggs self.old self.new g.now) }
    {
        for _i in self.aggs.len()..count {
            self.aggs.push_incomplete()?;
            self.most.push(0)?;
        }
        Ok(())
    }

    /// Adds the spans of the types that were added to the graph.
    fn add_spans(&mut self, g: &TypeGraph) -> Result<(), Memory>
        requires arena { IsArena g.now }
        requires tables { AreTables self.old g.now }
        ensures { OnOk result (AddsSpans self.old self.new g.now) }
    {
        for t in self.spans.len()..g.len() as usize {
            self.add_span(g, TypeId(t as u32))?;
        }
        Ok(())
    }

    /// Adds the layouts of the aggregates that were completed.
    fn add_layouts(&mut self, g: &TypeGraph) -> Result<(), Memory>
        requires arena { IsArena g.now }
        requires tables { AreTables self.old g.now }
        requires all { length self.old.spans ≡ length g.now.nodes }
        ensures { OnOk result (AddsLayouts self.old self.new g.now) }
    {
        let order = g.completed();
        for i in self.completed..order.len() {
            self.add_layout(g, order[i])?;
        }
        Ok(())
    }

    /// Whether no type from the first on is too big.
    fn types_fit(&self, first: usize) -> bool
        requires { length self.now.spans < 2 ^ 32 }
        ensures { IsTrue result → TypesFit self.now first }
    {
        for t in first..self.spans.len() {
            if large(self.found(TypeId(t as u32))) {
                return false;
            }
        }
        true
    }

    /// Whether no type is too big that is made of an aggregate which was completed as the first or later.
    fn aggs_fit(&self, g: &TypeGraph, first: usize) -> bool
        requires arena { IsArena g.now }
        requires tables { AreTables self.now g.now }
        ensures { IsTrue result → AggsFit self.now g.now first }
    {
        let order = g.completed();
        for i in first..order.len() {
            let a = order[i];
            let most = self.most[a.0 as usize];
            if large(copied(self.aggs.whole(a), most)) {
                return false;
            }
        }
        true
    }

    /// The least type that is too big.
    fn least_large(&self) -> Option<TypeId>
        requires { length self.now.spans < 2 ^ 32 }
        ensures { MatchOption result (TypesFit self.now 0) (λ t. IsLeastLarge self.now t.0) }
    {
        for t in 0..self.spans.len() {
            let id = TypeId(t as u32);
            if large(self.found(id)) {
                return Some(id);
            }
        }
        None
    }

    /// Finds the least type that is too big, if one may be.
    fn checked(&self, g: &TypeGraph, first: usize, completed: usize) -> Option<TypeId>
        requires arena { IsArena g.now }
        requires tables { AreTables self.now g.now }
        requires all { length self.now.spans ≡ length g.now.nodes }
        ensures { MatchOption result (FitsOrNew self.now g.now first completed) (λ t. IsLeastLarge self.now t.0) }
    {
        if self.types_fit(first) && self.aggs_fit(g, completed) {
            return None;
        }
        self.least_large()
    }

    /// Brings the layouts up to date with a graph that gained types and aggregates or had aggregates
    /// completed since the last call. The cost follows what is new.
    ///
    /// TooBig names the least type that is too big. After an error the layouts are only dropped.
    pub fn update(&mut self, g: &TypeGraph) -> Result<(), LayoutStop>
        requires { WereInStep self.old g.now }
        ensures { MatchResult result (λ _. InStep self.new g.now) (λ e. StopsAt g.now e) }
    {
        let first = self.spans.len();
        let completed = self.completed;
        if self.extend(g).is_err() {
            return Err(LayoutStop::Memory);
        }
        match self.checked(g, first, completed) {
            None => Ok(()),
            Some(t) => Err(LayoutStop::TooBig(t)),
        }
    }

    /// Adds what is new in the graph to the tables.
    fn extend(&mut self, g: &TypeGraph) -> Result<(), Memory>
        requires { WereInStep self.old g.now }
        ensures extended { OnOk result (AddsLayouts self.old self.new g.now) }
        ensures arena { IsArena g.now }
    {
        let count = g.agg_count() as usize;
        self.add_aggs(g, count)?;
        self.add_spans(g)?;
        self.add_layouts(g)
    }

    /// No layouts, for a graph without types.
    pub fn new(alloc: Global) -> Self
        ensures { (abi : Abi) → InStep result (empty_graph abi) }
    {
        Layouts {
            spans: SpanTable::new(alloc),
            aggs: AggregateTable::new(alloc),
            most: Vec::new(alloc),
            completed: 0,
            alloc,
        }
    }

    /// The layouts of a graph. TooBig names the least complete type with more bytes than an object may
    /// have, which is 2147483647 (own).
    pub fn of_graph(alloc: Global, g: &TypeGraph) -> Result<Self, LayoutStop>
        ensures { MatchResult result (λ l. InStep l g.now) (λ e. StopsAt g.now e) }
    {
        let mut layouts = Layouts::new(alloc);
        match layouts.update(g) {
            Ok(()) => Ok(layouts),
            Err(stop) => Err(stop),
        }
    }

    /// Whether no complete aggregate has more bytes than an object may have, which is 2147483647 (own). That no type
    /// is too big says this only of aggregates that a type is made of.
    #[tactic(auto, using(crate::proofs::AggregateSizes::not_fit, crate::proofs::AggregateSizes::all_fit))]
    pub fn aggregates_fit(&self, g: &TypeGraph) -> bool
        requires { InStep self.now g.now }
        ensures { (result ≡ true) ↔ AggregatesFit g.now }
    {
        for a in 0..g.agg_count() {
            if large(self.aggs.whole(AggId(a))) {
                return false;
            }
        }
        true
    }

    /// The size of a complete object type in bytes (C11 6.5.3.4).
    pub fn size(&self, t: TypeId) -> u32
        requires { IsSome (found self.now t.0) }
        ensures { IfSome (found self.now t.0) (λ l. result ≡ l.size) }
    {
        match self.found(t) {
            Some(l) => l.size,
            None => unreachable!(),
        }
    }

    /// The size of a type in bytes, if it is a complete object type (C11 6.5.3.4). The cost is the same for each type.
    pub fn known_size(&self, t: TypeId) -> Option<u32>
        ensures { result ≡ option_map (λ (l : Layout). l.size) (found self.now t.0) }
    {
        match self.found(t) {
            Some(l) => Some(l.size),
            None => None,
        }
    }

    /// The alignment of a type in bytes, if it is a complete object type (C11 6.2.8).
    pub fn known_align(&self, t: TypeId) -> Option<u32>
        ensures { result ≡ option_map (λ (l : Layout). l.align) (found self.now t.0) }
    {
        match self.found(t) {
            Some(l) => Some(l.align),
            None => None,
        }
    }

    /// The offset of a member in bytes, if its aggregate is complete and has it (C11 6.7.2.1p15, p16).
    pub fn known_offset(&self, a: AggId, member: u32) -> Option<u32>
        ensures { result ≡ found_offset self.now a.0 member }
    {
        self.aggs.known_offset(a, member)
    }

    /// The alignment of a complete object type in bytes (C11 6.2.8).
    pub fn align(&self, t: TypeId) -> u32
        requires { IsSome (found self.now t.0) }
        ensures { IfSome (found self.now t.0) (λ l. result ≡ l.align) }
    {
        match self.found(t) {
            Some(l) => l.align,
            None => unreachable!(),
        }
    }

    /// The offset of a member in its aggregate in bytes (C11 6.7.2.1p15, p16).
    pub fn offset(&self, a: AggId, member: u32) -> u32
        requires { IsSome (found_offset self.now a.0 member) }
        ensures { found_offset self.now a.0 member ≡ Some result }
    {
        self.aggs.offset(a, member)
    }
}

/// Whether a layout has more bytes than an object may have.
fn large(l: Option<Layout>) -> bool
    ensures { result ≡ is_large l }
{
    match l {
        None => false,
        Some(l) => l.size >= LIMIT,
    }
}

/// The layout of an array without elements.
fn without_elements(l: Option<Layout>) -> Option<Layout>
    ensures { result ≡ option_map no_elements l }
{
    match l {
        None => None,
        Some(l) => Some(Layout {
            size: 0,
            align: l.align,
        }),
    }
}
