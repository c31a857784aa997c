//! The least that lowering makes: of a sum, of a unit with nothing in it.

use cil_base::{Abi, Bases, BinOp, IntKind, Memory, NameId};
use cil_tree::{CilUnit, Exp};
use expr_lower::{Lowered, lower};
use link_names::Fronted;
use lower_parts::{FunctionOut, UnitOut};
use std::alloc::Global;
use std::process::Abort;
use std::test::Fail;
use type_graph::{Node, TypeGraph};
use type_things::{HasGraph, stem};
use typed_tree::{binary, integer, translation_unit};
use unit_lower::lower_unit;
use unit_types::Types;

/// The bases of made names.
const BASES: Bases = Bases {
    literal: NameId(0),
    tagless: NameId(1),
    temporary: NameId(2),
    label: NameId(3),
};

/// What is made of functions of a unit whose only type is `int`.
fn with_int(alloc: Global) -> Result<FunctionOut, Memory> {
    let mut graph = TypeGraph::new(alloc);
    let int = graph.add_node(Node::Int(IntKind::Int))?;
    let mut types = Vec::new(alloc);
    types.push(int)?;
    Ok(FunctionOut::new(
        alloc,
        UnitOut {
            graph,
            types,
            numbers: Vec::new(alloc),
            printed: Vec::new(alloc),
            bases: BASES,
        },
    ))
}

/// Lowers `2 + 3`.
fn lower_sum(alloc: Global, f: &mut FunctionOut) -> Result<Lowered, Memory> {
    let Some(int) = f.unit.types.first().copied() else {
        return Err(Memory);
    };
    let left = integer(alloc, int, 2)?;
    let right = integer(alloc, int, 3)?;
    let e = binary(alloc, int, BinOp::Add, left, right)?;
    lower(&e, f)
}

/// Whether an expression is a sum.
fn is_sum(e: &Exp) -> bool {
    match e {
        Exp::Bin(op, _, _) => *op == BinOp::Add,
        _ => false,
    }
}

#[test]
fn a_sum_makes_no_instruction(rt: HostRuntime) -> Result<(), Fail> {
    let alloc = rt.alloc();
    let mut f = with_int(alloc)?;
    let lowered = lower_sum(alloc, &mut f)?;
    assert!(rt; lowered.instrs.is_empty());
    match &lowered.value {
        Some(x) => assert!(rt; is_sum(x)),
        None => assert!(rt; false),
    }
    Ok(())
}

#[test]
fn an_empty_unit_is_an_empty_program(rt: HostRuntime) -> Result<(), Fail> {
    let alloc = rt.alloc();
    let types = Types::new(alloc, Abi::Lp64);
    let unit = translation_unit(types, Vec::new(alloc), Vec::new(alloc));
    let fronted = lower_unit(alloc, &unit, BASES)?;
    assert!(rt; fronted.cil.globals.is_empty());
    Ok(())
}

#[test]
fn a_unit_has_its_types(rt: HostRuntime) {
    let alloc = rt.alloc();
    let unit = Fronted {
        cil: CilUnit {
            graph: TypeGraph::new(alloc),
            globals: Vec::new(alloc),
        },
        sites: Vec::new(alloc),
        ordinary: Vec::new(alloc),
    };
    assert_eq!(rt; unit.graph().len(), 0);
}

#[test]
fn stems_have_no_suffix(rt: HostRuntime) {
    for (text, expected) in [
        (b"s".as_slice(), b"s".as_slice()),
        (b"s___0", b"s"),
        (b"s___0___12", b"s"),
        (b"s___", b"s___"),
        (b"s__1", b"s__1"),
        (b"s12", b"s12"),
        (b"___1", b""),
        (b"s____1", b"s_"),
        (b"__anon___3", b"__anon"),
        (b"", b""),
    ] {
        assert_eq!(rt; stem(text), expected);
    }
}
