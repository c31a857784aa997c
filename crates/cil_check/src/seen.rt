ghost use Rattle.std.specs.Prelude.{◌≡◌, ◌<◌, IfSome, length};
ghost use Rattle.type_graph.specs.Shapes.{shape};
ghost use Rattle.cil_tree.specs.View.{type_at};
ghost use Rattle.cil_tree.specs.Typing.{same_shape, same_quals};
ghost use Rattle.cil_check.specs.Seen.{seen_shape, IsThere, told};

use cil_base::{IntKind, TypeId};
use type_graph::{Node, QualType, Quals, TypeGraph};

/// A type that an expression or a place has, as far as rules look at it. Kinds and pointers are always seen as such.
#[derive(Clone, Copy)]
pub enum Seen {
    /// An integer type.
    Int(IntKind),
    /// A pointer. The graph has what it points to, but maybe not the pointer.
    Ptr(QualType),
    /// Another type of the graph.
    Other(TypeId),
}

/// A type of the graph, as it is seen.
pub fn see(g: &TypeGraph, t: TypeId) -> Seen
    requires { t.0 < length g.now.nodes }
    ensures shape { seen_shape g.now result ≡ shape g.now.nodes t.0 }
    ensures there { IsThere g.now result }
{
    match g.node(t) {
        Node::Int(kind) => Seen::Int(*kind),
        Node::Ptr(q) => Seen::Ptr(*q),
        Node::Void | Node::Array(..) | Node::Func { .. } | Node::Agg(_) => Seen::Other(t),
    }
}

/// The type with a number, if the graph has it.
pub fn type_at(g: &TypeGraph, t: TypeId) -> Option<Seen>
    ensures told { told g.now result ≡ type_at g.now.nodes t }
    ensures there { IfSome result (IsThere g.now) }
{
    if t.0 < g.len() { Some(see(g, t)) } else { None }
}

/// Whether two numbers are those of one type. Types of one shape have one number.
pub fn same_number(g: &TypeGraph, s: TypeId, t: TypeId) -> bool
    requires left { s.0 < length g.now.nodes }
    requires right { t.0 < length g.now.nodes }
    ensures { result ≡ same_shape (shape g.now.nodes s.0) (shape g.now.nodes t.0) }
{
    g.is_same(s, t)
}

/// Whether qualifiers are the same.
pub fn same_quals(p: Quals, q: Quals) -> bool
    ensures { result ≡ same_quals p q }
{
    p == q
}

/// Whether pointers to two types of the graph are one type.
fn same_pointer(g: &TypeGraph, p: QualType, q: QualType) -> bool
    requires left { p.of.0 < length g.now.nodes }
    requires right { q.of.0 < length g.now.nodes }
    ensures { result ≡ same_shape (seen_shape g.now (Seen.Ptr p)) (seen_shape g.now (Seen.Ptr q)) }
{
    same_quals(p.quals, q.quals) && same_number(g, p.of, q.of)
}

/// Whether two types are one: kinds and pointers by their parts, others by their numbers.
pub fn is_same(g: &TypeGraph, a: Seen, b: Seen) -> bool
    requires left { IsThere g.now a }
    requires right { IsThere g.now b }
    ensures { result ≡ same_shape (seen_shape g.now a) (seen_shape g.now b) }
{
    match (a, b) {
        (Seen::Int(k), Seen::Int(l)) => k == l,
        (Seen::Ptr(q), Seen::Ptr(r)) => same_pointer(g, q, r),
        (Seen::Other(s), Seen::Other(t)) => same_number(g, s, t),
        (_, _) => false,
    }
}
