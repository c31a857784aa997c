ghost use Rattle.std.specs.Prelude.{◌≡◌, ◌<◌, Some, [], ◌∷◌, ◌++◌, length, IfOk, OnOk, OnErr, slice_get, slice_index_or};
ghost use Rattle.layout_lp64.specs.declared.spans.Span.TheVariants.{Nothing};
ghost use Rattle.layout_lp64.specs.Compacts.{span_kept, IsAside, AddsSpansAside};

use crate::spans::Span;
use cil_base::{AggId, Memory};
use std::alloc::Global;
use std::marker::Model;
use type_graph::Layout;

/// A span in eight bytes.
#[derive(Clone, Copy)]
enum Compact {
    /// No size.
    Nothing,
    /// The layout of a type without aggregates in it.
    Fixed { align: u8, size: u32 },
    /// One aggregate.
    Whole(AggId),
    /// The span at this place of those that stand aside.
    Other(u32),
}

/// Puts a span aside.
#[tactic(auto, using(crate::proofs::CompactLaws::aside_at))]
fn aside(others: &mut Vec<Span>, span: Span) -> Result<Compact, Memory>
    ensures is { IfOk result (λ c. span_kept others.new.items c ≡ span) }
    ensures within { IfOk result (λ c. IsAside (length others.new.items) c) }
    ensures adds { OnOk result (AddsSpansAside others.old.items others.new.items) }
    ensures err { OnErr result (others.new.items ≡ others.old.items) }
{
    let place = others.len();
    if place > u32::MAX as usize {
        return Err(Memory);
    }
    others.push(span)?;
    Ok(Compact::Other(place as u32))
}

/// A layout in eight bytes, or aside where its alignment is large.
fn fixed(others: &mut Vec<Span>, l: Layout) -> Result<Compact, Memory>
    ensures is { IfOk result (λ c. span_kept others.new.items c ≡ Span.Fixed l) }
    ensures within { IfOk result (λ c. IsAside (length others.new.items) c) }
    ensures adds { OnOk result (AddsSpansAside others.old.items others.new.items) }
    ensures err { OnErr result (others.new.items ≡ others.old.items) }
{
    if l.align > 255 {
        return aside(others, Span::Fixed(l));
    }
    Ok(Compact::Fixed {
        align: l.align as u8,
        size: l.size,
    })
}

/// Copies of an aggregate: one of them in eight bytes, more aside.
fn copied(others: &mut Vec<Span>, a: AggId, count: u32) -> Result<Compact, Memory>
    ensures is { IfOk result (λ c. span_kept others.new.items c ≡ Span.Copies a count) }
    ensures within { IfOk result (λ c. IsAside (length others.new.items) c) }
    ensures adds { OnOk result (AddsSpansAside others.old.items others.new.items) }
    ensures err { OnErr result (others.new.items ≡ others.old.items) }
{
    if count != 1 {
        return aside(others, Span::Copies(a, count));
    }
    Ok(Compact::Whole(a))
}

/// A span in eight bytes, or aside.
fn compacted(others: &mut Vec<Span>, span: Span) -> Result<Compact, Memory>
    ensures is { IfOk result (λ c. span_kept others.new.items c ≡ span) }
    ensures within { IfOk result (λ c. IsAside (length others.new.items) c) }
    ensures adds { OnOk result (AddsSpansAside others.old.items others.new.items) }
    ensures err { OnErr result (others.new.items ≡ others.old.items) }
{
    match span {
        Span::Nothing => Ok(Compact::Nothing),
        Span::Fixed(l) => fixed(others, l),
        Span::Copies(a, count) => copied(others, a, count),
    }
}

/// The span that is kept so.
fn span_in(others: &[Span], c: Compact) -> Span
    ensures { result ≡ span_kept others.now c }
{
    match c {
        Compact::Nothing => Span::Nothing,
        Compact::Fixed { align, size } => Span::Fixed(Layout {
            size,
            align: u32::from(align),
        }),
        Compact::Whole(a) => Span::Copies(a, 1),
        Compact::Other(i) => others.get(i as usize).copied().unwrap_or(Span::Nothing),
    }
}

/// The spans of types by number. Contracts see them as a list.
#[derive(Drop)]
pub(crate) struct SpanTable {
    spans: Vec<Compact>,
    others: Vec<Span>,
}

impl Model for SpanTable {
    ghost use Rattle.std.specs.Prelude.{List, length};
    ghost use Rattle.layout_lp64.specs.declared.spans.Span.{Span};
    ghost use Rattle.layout_lp64.specs.Compacts.{spans_kept, AreAside};

    ghost Value = { List Span };

    ghost view = { λ s. spans_kept s.others.items s.spans.items };

    ghost invariant = { λ s. AreAside s.spans.items (length s.others.items) };
}

impl SpanTable {
    /// No types.
    pub(crate) fn new(alloc: Global) -> Self
        ensures { result ≡ [] }
    {
        SpanTable {
            spans: Vec::new(alloc),
            others: Vec::new(alloc),
        }
    }

    /// The number of types.
    pub(crate) fn len(&self) -> usize
        ensures { result ≡ length self.now }
    {
        self.spans.len()
    }

    /// The span of a type, if it is there.
    #[tactic(auto, using(crate::proofs::CompactLaws::kept_get))]
    pub(crate) fn get(&self, t: usize) -> Option<Span>
        ensures { result ≡ slice_get self.now t }
    {
        match self.spans.get(t) {
            None => None,
            Some(c) => Some(span_in(&self.others, *c)),
        }
    }

    /// The span of a type, or that of no size where the type is not there.
    #[tactic(auto, using(crate::proofs::CompactLaws::at_is))]
    pub(crate) fn at(&self, t: usize) -> Span
        ensures { result ≡ slice_index_or self.now t Nothing }
    {
        self.get(t).unwrap_or(Span::Nothing)
    }

    /// Adds the span of the next type.
    pub(crate) fn push(&mut self, span: Span) -> Result<(), Memory>
        ensures ok { OnOk result (self.new ≡ self.old ++ span ∷ []) }
        ensures err { OnErr result (self.new ≡ self.old) }
    {
        let c = compacted(&mut self.others, span)?;
        self.spans.push(c)?;
        Ok(())
    }
}
