ghost use Rattle.std.specs.Prelude.{◌≡◌, ◌<◌, length, max, IfOk};
ghost use Rattle.type_graph.specs.declared.nodes.Quals.{Quals};
ghost use Rattle.type_graph.specs.Shapes.{Shape, ArrayType, shape, shape_of, shapes_of};
ghost use Rattle.type_graph.specs.Arena.{Graph, EachType, NamesBelow};
ghost use Rattle.cil_check.specs.Rules.{elements_top, IsTop, AreTops};

use cil_base::{Memory, TypeId};
use std::alloc::Global;
use type_graph::{Node, TypeGraph};

/// What a type has within itself: which aggregates, and whether its size is known.
#[derive(Clone, Copy)]
pub(crate) struct Tops {
    /// One more than the number of the aggregate that the type has within itself, its own or that of its elements;
    /// 0 where there is none.
    pub(crate) held: u64,
    /// One more than the greatest number of an aggregate that is an element of an array anywhere in the type; 0 where
    /// there is none.
    pub(crate) elements: u64,
    /// Whether the type is a complete object type (C11 6.2.5p1).
    pub(crate) complete: bool,
}

impl Tops {
    /// More than each aggregate within the type.
    pub(crate) fn greatest(self) -> u64
        ensures { result ≡ max self.held self.elements }
    {
        self.held.max(self.elements)
    }
}

/// The entry of a type.
#[tactic(auto, using(crate::proofs::ElementTable::entry_is))]
pub(crate) fn entry(g: &TypeGraph, tops: &[Tops], t: TypeId) -> Tops
    requires table { AreTops tops.now g.now }
    requires there { t.0 < length tops.now }
    ensures { IsTop g.now result (shape g.now.nodes t.0) }
{
    tops[t.0 as usize]
}

/// The greatest entry of the parameters.
#[tactic(auto, using(crate::proofs::ElementTable::tops_next, crate::proofs::TypeSteps::type_at))]
fn parameters_top(g: &TypeGraph, tops: &[Tops], params: &[TypeId]) -> u64
    requires table { AreTops tops.now g.now }
    requires there { EachType (length tops.now) params.now }
    ensures { result ≡ elements_top (shapes_of (shape g.now.nodes) params.now) }
{
    let mut top = 0;
    for i in 0..params.len() {
        top = top.max(entry(g, tops, params[i]).elements);
    }
    top
}

/// The entry of an array of elements with this entry. It is complete where its bound is known and its element is
/// complete (C11 6.2.5p22).
#[tactic(auto, using(crate::proofs::ElementTable::array_is))]
fn array_top(of: Tops, bound: &Option<u64>) -> Tops
    ensures { (g : Graph) (q : Quals) (s : Shape) → IsTop g of s → IsTop g result (ArrayType q s bound.now) }
{
    Tops {
        held: of.held,
        elements: of.greatest(),
        complete: bound.is_some() && of.complete,
    }
}

/// The entry of a type that names types with entries.
fn top_of(g: &TypeGraph, tops: &[Tops], n: &Node) -> Tops
    requires table { AreTops tops.now g.now }
    requires there { NamesBelow (length tops.now) (length g.now.aggs) n.now }
    ensures { IsTop g.now result (shape_of (shape g.now.nodes) n.now) }
{
    match n {
        Node::Void => Tops {
            held: 0,
            elements: 0,
            complete: false,
        },
        Node::Int(_) => Tops {
            held: 0,
            elements: 0,
            complete: true,
        },
        Node::Ptr(q) => Tops {
            held: 0,
            elements: entry(g, tops, q.of).elements,
            complete: true,
        },
        Node::Array(q, bound) => array_top(entry(g, tops, q.of), bound),
        Node::Func { ret, params, .. } => Tops {
            held: 0,
            elements: entry(g, tops, *ret)
                .elements
                .max(parameters_top(g, tops, params.as_slice())),
            complete: false,
        },
        Node::Agg(a) => Tops {
            held: a.0 as u64 + 1,
            elements: 0,
            complete: g.agg(*a).members.is_some(),
        },
    }
}

/// The entries of all types.
pub(crate) fn element_tops(alloc: Global, g: &TypeGraph) -> Result<Vec<Tops>, Memory>
    ensures { IfOk result (λ tops. AreTops tops.items g.now × (length tops.items ≡ length g.now.nodes)) }
{
    let mut tops = Vec::new(alloc);
    for t in 0..g.len() {
        let top = top_of(g, &tops, g.node(TypeId(t)));
        tops.push(top)?;
    }
    Ok(tops)
}
