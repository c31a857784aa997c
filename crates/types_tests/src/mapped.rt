use crate::equal::equal;
use cil_base::{Abi, AggId, IntKind, NameId, TypeId};
use layout_lp64::LayoutStop;
use map_graph::map_graph;
use std::alloc::Global;
use std::process::Abort;
use type_graph::{AggKind, Member, Members, QualType, Quals, TypeGraph};
use unit_types::Types;

/// A type with `const` or without.
fn qualified(constant: bool, of: TypeId) -> QualType {
    QualType {
        quals: Quals {
            constant,
            restricted: false,
        },
        of,
    }
}

/// `struct list { struct list *next; }`, then `int`, `int *` and `const int *`, whose numbers are 0 to 4.
fn add_types(alloc: Global, types: &mut Types) -> Result<(), LayoutStop> {
    let a = types.add_agg(AggKind::Struct, None)?;
    let list = types.aggregate(a)?;
    let next = types.pointer(qualified(false, list))?;
    let mut members = Vec::new(alloc);
    if members
        .push(Member::named(NameId(0), qualified(false, next), 0))
        .is_err()
    {
        return Err(LayoutStop::Memory);
    }
    types.complete(a, Members::new(members))?;
    let int = types.int(IntKind::Int)?;
    types.pointer(qualified(false, int))?;
    types.pointer(qualified(true, int))?;
    Ok(())
}

/// `char`, and two structs.
fn add_others(types: &mut Types) -> Result<(), LayoutStop> {
    types.int(IntKind::Char)?;
    types.add_agg(AggKind::Struct, None)?;
    types.add_agg(AggKind::Struct, None)?;
    Ok(())
}

/// The types of the first arena in the second, behind its own: new numbers in the order of the first, and without qualifiers both
/// pointers to int are one.
fn are_mapped(
    rt: &impl Abort,
    alloc: Global,
    from: &TypeGraph,
    to: &mut TypeGraph,
) -> Result<(), LayoutStop> {
    for (keep, expected) in [
        (
            false,
            [TypeId(1), TypeId(2), TypeId(3), TypeId(4), TypeId(4)],
        ),
        (
            true,
            [TypeId(1), TypeId(2), TypeId(3), TypeId(4), TypeId(5)],
        ),
    ] {
        let types = map_graph(alloc, from, &[AggId(1)], keep, to)?;
        equal(rt, &keep, &types.as_slice(), &expected.as_slice());
    }
    assert!(rt; map_graph(alloc, from, &[AggId(2)], true, to).is_err());
    Ok(())
}

/// The second arena.
fn second(alloc: Global) -> Result<TypeGraph, LayoutStop> {
    let mut types = Types::new(alloc, Abi::Lp64);
    add_others(&mut types)?;
    Ok(types.into_graph())
}

/// The types of the first arena, which are added to it, are mapped to the second.
fn are_mapped_behind_others(
    rt: &impl Abort,
    alloc: Global,
    from: &mut Types,
) -> Result<(), LayoutStop> {
    add_types(alloc, from)?;
    let mut to = second(alloc)?;
    are_mapped(rt, alloc, from.graph(), &mut to)
}

#[test]
fn types_of_a_struct_that_reaches_itself_are_mapped(rt: HostRuntime) -> Result<(), LayoutStop> {
    let mut from = Types::new(rt.alloc(), Abi::Lp64);
    are_mapped_behind_others(&rt, rt.alloc(), &mut from)
}
