ghost use Rattle.std.specs.Prelude.{◌≡◌, length, slice_index_or};
ghost use Rattle.type_graph.specs.Arena.{NamesBelow};
ghost use Rattle.layout_lp64.specs.Capped.{span_of, times};
ghost use Rattle.layout_lp64.specs.declared.spans.Span.TheVariants.{Nothing};
ghost use Rattle.std.specs.Prelude.{ℕ};

use crate::arithmetic::capped;
use crate::span_table::SpanTable;
use cil_base::{Abi, AggId};
use type_graph::{Layout, Node};

/// What the size of a type is made of, in numbers that stop at the limit of an object's size.
#[derive(Clone, Copy)]
pub enum Span {
    /// The type has no size, whatever is completed later.
    Nothing,
    /// The layout of a type without aggregates in it.
    Fixed(Layout),
    /// So many copies of an aggregate.
    Copies(AggId, u32),
}

/// The span of a scalar, which is aligned to its size (own).
fn scalar(size: u32) -> Span
    ensures { result ≡ Span.Fixed (record { size = size; align = size }) }
{
    Span::Fixed(Layout { size, align: size })
}

/// So many copies of a span.
#[tactic(auto, using(crate::proofs::CapLaws::cap_mul))]
fn times(n: u64, span: Span) -> Span
    ensures { result ≡ times n span }
{
    let n = capped(n) as u64;
    match span {
        Span::Nothing => Span::Nothing,
        Span::Fixed(l) => Span::Fixed(Layout {
            size: capped(n * l.size as u64),
            align: l.align,
        }),
        Span::Copies(a, k) => Span::Copies(a, capped(n * k as u64)),
    }
}

/// The span of a type, from those of the types that it names.
pub(crate) fn make_span(abi: Abi, spans: &SpanTable, n: &Node) -> Span
    requires { (m : ℕ) × NamesBelow (length spans.now) m n.now }
    ensures { result ≡ span_of abi (λ k. slice_index_or spans.now k Nothing) n.now }
{
    match n {
        Node::Void | Node::Func { .. } | Node::Array(_, None) => Span::Nothing,
        Node::Int(kind) => scalar(kind.size()),
        Node::Ptr(_) => scalar(abi.pointer_size()),
        Node::Array(element, Some(count)) => times(*count, spans.at(element.of.0 as usize)),
        Node::Agg(a) => Span::Copies(*a, 1),
    }
}
