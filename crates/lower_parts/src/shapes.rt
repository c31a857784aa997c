use cil_base::{AggId, IntKind, Memory, TypeId};
use type_graph::{Node, QualType, Quals, TypeGraph};

/// What a branch answers that never comes.
pub fn impossible() -> Memory {
    Memory
}

/// A type, if it is there.
fn node_of(g: &TypeGraph, t: TypeId) -> Option<&Node> {
    if t.0 < g.len() { Some(g.node(t)) } else { None }
}

/// The type of pointers to a type (C11 6.2.5p20).
pub fn pointer_to(g: &mut TypeGraph, t: TypeId) -> Result<TypeId, Memory> {
    if t.0 >= g.len() {
        return Err(impossible());
    }
    let quals = Quals {
        constant: false,
        restricted: false,
    };
    g.add_node(Node::Ptr(QualType { quals, of: t }))
}

/// The kind of an integer type.
pub fn kind_of(g: &TypeGraph, t: TypeId) -> Option<IntKind> {
    match node_of(g, t)? {
        Node::Int(kind) => Some(*kind),
        Node::Void | Node::Ptr(_) | Node::Array(..) | Node::Func { .. } | Node::Agg(_) => None,
    }
}

/// Whether a type is void, or is not there.
pub fn is_void(g: &TypeGraph, t: TypeId) -> bool {
    match node_of(g, t) {
        None | Some(Node::Void) => true,
        Some(Node::Int(_) | Node::Ptr(_) | Node::Array(..) | Node::Func { .. } | Node::Agg(_)) => {
            false
        }
    }
}

/// Whether a type is a function.
pub fn is_function(g: &TypeGraph, t: TypeId) -> bool {
    match node_of(g, t) {
        Some(Node::Func { .. }) => true,
        None | Some(Node::Void | Node::Int(_) | Node::Ptr(_) | Node::Array(..) | Node::Agg(_)) => {
            false
        }
    }
}

/// The type of an array's elements.
pub fn element_of(g: &TypeGraph, t: TypeId) -> Option<TypeId> {
    match node_of(g, t)? {
        Node::Array(element, _) => Some(element.of),
        Node::Void | Node::Int(_) | Node::Ptr(_) | Node::Func { .. } | Node::Agg(_) => None,
    }
}

/// The type of a member of a complete struct or union.
fn member_in(g: &TypeGraph, a: AggId, i: u32) -> Option<TypeId> {
    if a.0 >= g.agg_count() {
        return None;
    }
    match &g.agg(a).members {
        None => None,
        Some(members) => Some(members.as_slice().get(i as usize)?.ty.of),
    }
}

/// The type of a member of a struct or union type.
pub fn member_of(g: &TypeGraph, t: TypeId, i: u32) -> Option<TypeId> {
    match node_of(g, t)? {
        Node::Agg(a) => member_in(g, *a, i),
        Node::Void | Node::Int(_) | Node::Ptr(_) | Node::Array(..) | Node::Func { .. } => None,
    }
}

/// The type of a parameter of a function type with a prototype.
pub fn param_of(g: &TypeGraph, t: TypeId, i: usize) -> Option<TypeId> {
    match node_of(g, t)? {
        Node::Func { params, .. } => params.as_slice().get(i).copied(),
        Node::Void | Node::Int(_) | Node::Ptr(_) | Node::Array(..) | Node::Agg(_) => None,
    }
}

/// The type of what functions of a type return.
pub fn result_of(g: &TypeGraph, t: TypeId) -> Option<TypeId> {
    match node_of(g, t)? {
        Node::Func { ret, .. } => Some(*ret),
        Node::Void | Node::Int(_) | Node::Ptr(_) | Node::Array(..) | Node::Agg(_) => None,
    }
}
