use cil_base::{
    Abi, AggId, Bytes, EntityId, Fault, Memory, Mode, NameId, NamePool, Place, Stop, UnitNo,
};
use cil_check::check;
use cil_merge::merge;
use cil_printer::{PrintStop, print};
use cil_reader::read;
use cil_tree::{CilUnit, GlobalDecl, GlobalDef};
use link_names::{Fronted, Site};
use std::alloc::Global;
use std::test::Fail;
use type_graph::{AggKind, Node, TypeGraph};
use typed_tree::Ordinary;

/// What a merge is to answer.
#[derive(Clone, Copy)]
pub(crate) enum Expected {
    /// The program with this text.
    Text(&'static str),
    /// The refusal, with the unit and the number of the global at its place, and at the other one.
    Refused(Fault, (u32, u32), (u32, u32)),
}

/// Whether tentative definitions of several units are one.
#[derive(Clone, Copy)]
pub(crate) enum Tentative {
    Apart,
    Common,
}

/// Units as CIL texts, and what their merge is to answer.
#[derive(Clone, Copy)]
pub(crate) struct Row {
    pub(crate) name: &'static str,
    pub(crate) units: &'static [&'static str],
    pub(crate) tentative: Tentative,
    pub(crate) expected: Expected,
}

/// The place of a global of a unit: its number counts as its token.
fn place_of(u: u32, e: u32) -> Place {
    Place {
        unit: UnitNo(u),
        token: e,
        file: NameId(0),
        line: e,
    }
}

/// Whether a type is that of a function without a prototype.
fn is_unprototyped(graph: &TypeGraph, global: &GlobalDecl) -> bool {
    if global.ty.0 >= graph.len() {
        return false;
    }
    match graph.node(global.ty) {
        Node::Func { proto, .. } => !*proto,
        _ => false,
    }
}

/// The site of an external global.
fn site_of(unit: &CilUnit, u: u32, e: u32, global: &GlobalDecl) -> Site {
    let place = place_of(u, e);
    let (defined, tentative, body) = match &global.def {
        GlobalDef::Declared => (None, false, false),
        GlobalDef::Zero => (Some(place), true, false),
        GlobalDef::Image(_) => (Some(place), false, false),
        GlobalDef::Body(_) => (Some(place), false, true),
    };
    Site {
        entity: EntityId(e),
        first: place,
        defined,
        tentative,
        bare: body && is_unprototyped(&unit.graph, global),
    }
}

/// Puts the enumerators of an aggregate behind others.
fn push_enumerators(graph: &TypeGraph, a: AggId, all: &mut Vec<Ordinary>) -> Result<(), Memory> {
    if a.0 >= graph.agg_count() || graph.agg(a).kind != AggKind::Enum {
        return Ok(());
    }
    if let Some(members) = &graph.agg(a).members {
        for i in 0..members.as_slice().len() {
            all.push(Ordinary::Enumerator(a, (i & 0xffff) as u32))?;
        }
    }
    Ok(())
}

/// Puts a global that has internal linkage behind others. One whose name begins with `s_` counts as an object in a block, and one
/// that begins with `__str` as a literal.
fn push_internal(
    names: &NamePool,
    e: u32,
    global: &GlobalDecl,
    all: &mut Vec<Ordinary>,
) -> Result<(), Memory> {
    if global.name.0 >= names.len() || !global.internal {
        return Ok(());
    }
    let text = names.text(global.name);
    if !text.starts_with(b"s_") && !text.starts_with(b"__str") {
        all.push(Ordinary::Static(EntityId(e)))?;
    }
    Ok(())
}

/// The external names of a unit.
fn sites_of(alloc: Global, unit: &CilUnit, u: u32) -> Result<Vec<Site>, Memory> {
    let mut sites = Vec::new(alloc);
    for e in 0..unit.globals.len() {
        let global = &unit.globals[e];
        if !global.internal {
            sites.push(site_of(unit, u, (e & 0xffff) as u32, global))?;
        }
    }
    Ok(sites)
}

/// What of a unit has a name at file scope that no other unit sees.
fn ordinary_of(alloc: Global, names: &NamePool, unit: &CilUnit) -> Result<Vec<Ordinary>, Memory> {
    let mut ordinary = Vec::new(alloc);
    for e in 0..unit.globals.len() {
        push_internal(names, (e & 0xffff) as u32, &unit.globals[e], &mut ordinary)?;
    }
    for a in 0..unit.graph.agg_count() {
        push_enumerators(&unit.graph, AggId(a), &mut ordinary)?;
    }
    Ok(ordinary)
}

/// The unit of a text.
fn unit_of(alloc: Global, u: u32, text: &str, names: &mut NamePool) -> Result<Fronted, Fail> {
    let cil = read(alloc, text.as_bytes(), names, Abi::Lp64)?;
    let sites = sites_of(alloc, &cil, u)?;
    let ordinary = ordinary_of(alloc, names, &cil)?;
    Ok(Fronted {
        cil,
        sites,
        ordinary,
    })
}

/// The units of texts.
fn units_of(alloc: Global, texts: &[&str], names: &mut NamePool) -> Result<Vec<Fronted>, Fail> {
    let mut units = Vec::new(alloc);
    for u in 0..texts.len() {
        let unit = unit_of(alloc, (u & 0xffff) as u32, texts[u], names)?;
        units.push(unit)?;
    }
    Ok(units)
}

/// The mode of a row.
fn mode_of(tentative: Tentative) -> Mode {
    let common = match tentative {
        Tentative::Apart => false,
        Tentative::Common => true,
    };
    Mode {
        common,
        abi: Abi::Lp64,
    }
}

/// The text of a program, if it is well-formed and the text is not too long.
fn text_of(unit: &CilUnit, names: &NamePool) -> Result<Option<Bytes>, Memory> {
    if !check(unit, names)? {
        return Ok(None);
    }
    match print(unit, names) {
        Ok(text) => Ok(Some(text)),
        Err(PrintStop::TooLong) => Ok(None),
        Err(PrintStop::Memory) => Err(Memory),
    }
}

/// Whether a program is well-formed and has a text.
fn has_text(unit: &CilUnit, names: &NamePool, text: &str) -> Result<bool, Memory> {
    match text_of(unit, names)? {
        Some(printed) => Ok(printed.as_slice() == text.as_bytes()),
        None => Ok(false),
    }
}

/// Whether a place is that of a global of a unit.
fn is_at(place: Place, expected: (u32, u32)) -> bool {
    place.unit == UnitNo(expected.0) && place.token == expected.1
}

/// Whether a refusal is the expected one.
fn is_refused(stop: Stop, fault: Fault, at: (u32, u32), other: (u32, u32)) -> bool {
    match stop {
        Stop::Refused(refusal) => {
            let Some(second) = refusal.other else {
                return false;
            };
            refusal.fault == fault && is_at(refusal.at, at) && is_at(second, other)
        }
        Stop::Memory => false,
    }
}

/// Whether the merge of a row's units answers what it is to answer.
pub(crate) fn holds(alloc: Global, row: Row) -> Result<bool, Fail> {
    let mut names = NamePool::new(alloc);
    let units = units_of(alloc, row.units, &mut names)?;
    let merged = merge(alloc, units, &mut names, mode_of(row.tentative));
    match (merged, row.expected) {
        (Ok(unit), Expected::Text(text)) => Ok(has_text(&unit, &names, text)?),
        (Err(stop), Expected::Refused(fault, at, other)) => Ok(is_refused(stop, fault, at, other)),
        _ => Ok(false),
    }
}
