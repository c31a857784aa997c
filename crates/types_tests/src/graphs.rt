ghost use Rattle.std.specs.Prelude.{◌≡◌, ◌<◌, true, length, IsTrue};
ghost use Rattle.type_graph.specs.Arena.{complete};

use crate::equal::equal;
use cil_base::{AggId, IntKind, Memory, NameId, TypeId};
use std::process::Abort;
use type_graph::{AggKind, Member, Members, Node, QualType, Quals, TypeGraph};

/// Pointers to int with these qualifiers have the number that equal ones got first.
fn pointers_have_one_number(rt: &impl Abort, g: &mut TypeGraph, int: TypeId) -> Result<(), Memory> {
    for (constant, number) in [(false, 2), (true, 3), (false, 2), (true, 3)] {
        assert!(rt; int.0 < g.len());
        let quals = Quals {
            constant,
            restricted: false,
        };
        let pointer = g.add_node(Node::Ptr(QualType { quals, of: int }))?;
        equal(rt, &constant, &pointer, &TypeId(number));
    }
    Ok(())
}

/// A known type keeps its number, and a new one gets the next.
fn types_have_one_number(rt: &impl Abort, g: &mut TypeGraph) -> Result<(), Memory> {
    let void = g.add_node(Node::Void)?;
    let int = g.add_node(Node::Int(IntKind::Int))?;
    pointers_have_one_number(rt, g, int)?;
    let again = g.add_node(Node::Void)?;
    equal(rt, &"void", &again, &void);
    assert!(rt; void.0 < g.len() && int.0 < g.len());
    assert!(rt; g.is_same(void, void) && !g.is_same(void, int));
    let unsigned = g.add_node(Node::Int(IntKind::UInt))?;
    equal(rt, &"unsigned", &unsigned, &TypeId(4));
    equal(rt, &"types", &g.len(), &5);
    Ok(())
}

#[test]
fn equal_types_have_one_number(rt: HostRuntime) -> Result<(), Memory> {
    let mut g = TypeGraph::new(rt.alloc());
    types_have_one_number(&rt, &mut g)
}

/// A struct is completed with no members.
fn members_complete(rt: &impl Abort, g: &mut TypeGraph) -> Result<(), Memory> {
    let a = g.add_agg(AggKind::Struct, None)?;
    let t = g.add_node(Node::Agg(a))?;
    assert!(rt; t.0 < g.len());
    equal(rt, &"before", &g.is_complete(t), &false);
    g.complete(a, Members::new(Vec::new(g.alloc())))?;
    assert!(rt; t.0 < g.len());
    equal(rt, &"behind", &g.is_complete(t), &true);
    equal(rt, &"completed", &g.completed().len(), &1);
    Ok(())
}

#[test]
fn an_aggregate_is_complete_once_it_has_members(rt: HostRuntime) -> Result<(), Memory> {
    let mut g = TypeGraph::new(rt.alloc());
    members_complete(&rt, &mut g)
}

/// An incomplete struct, its type, and the type of pointers to it.
fn pointed_to(g: &mut TypeGraph) -> Result<(AggId, TypeId, TypeId), Memory> {
    let quals = Quals {
        constant: false,
        restricted: false,
    };
    let a = g.add_agg(AggKind::Struct, None)?;
    let t = g.add_node(Node::Agg(a))?;
    let pointer = g.add_node(Node::Ptr(QualType { quals, of: t }))?;
    Ok((a, t, pointer))
}

/// Whether a type is there and complete.
fn complete_in(g: &TypeGraph, t: TypeId) -> bool
    ensures there { IsTrue result → t.0 < length g.now.nodes }
    ensures complete { IsTrue result → complete g.now t.0 ≡ true }
{
    if t.0 >= g.len() {
        return false;
    }
    g.is_complete(t)
}

/// Gives an aggregate one member of a type, if the aggregate has none yet and the type is complete.
fn finish(g: &mut TypeGraph, a: AggId, t: TypeId) -> Result<(), Memory> {
    if a.0 >= g.agg_count() {
        return Ok(());
    }
    if g.agg(a).members.is_some() || !complete_in(g, t) {
        return Ok(());
    }
    let quals = Quals {
        constant: false,
        restricted: false,
    };
    let mut members = Vec::new(g.alloc());
    members.push(Member::named(NameId(0), QualType { quals, of: t }, 0))?;
    g.complete(a, Members::new(members))
}

/// `struct outer; struct inner { struct outer *up; }; struct outer { struct inner in; };`: the inner one, which
/// reaches the outer one through a pointer alone, is completed first, and both are then complete.
fn structs_are_completed(rt: &impl Abort, g: &mut TypeGraph) -> Result<(), Memory> {
    let (outer, outer_type, up) = pointed_to(g)?;
    let (inner, inner_type, _) = pointed_to(g)?;
    finish(g, outer, inner_type)?;
    let early = complete_in(g, outer_type);
    equal(rt, &"its member is incomplete", &early, &false);
    finish(g, inner, up)?;
    finish(g, outer, inner_type)?;
    let both = [complete_in(g, inner_type), complete_in(g, outer_type)];
    equal(rt, &"both", &both, &[true, true]);
    equal(rt, &"completed", &g.completed(), &&[inner, outer][..]);
    Ok(())
}

#[test]
fn structs_reach_each_other_through_pointers(rt: HostRuntime) -> Result<(), Memory> {
    let mut g = TypeGraph::new(rt.alloc());
    structs_are_completed(&rt, &mut g)
}
