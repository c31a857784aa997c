ghost use Rattle.std.specs.Prelude.{IfOk, OnOk};
ghost use Rattle.cil_tree.specs.declared.expressions.Host.TheVariants as host;
ghost use Rattle.cil_bodies.specs.Maps.{IsUse, MapsExp, MapsHost, MapsLval, MapsOffset, MapsOffsets};

use crate::mapping::{Mapping, Use};
use crate::retyping::retyped;
use cil_base::{EntityId, Memory};
use cil_tree::{Exp, Host, Lval, Offset};
use std::alloc::Global;

/// An object or function as it is used.
#[tactic(auto, using(crate::proofs::MapLaws::used_itself, crate::proofs::MapLaws::used_through))]
fn used(alloc: Global, found: Use) -> Result<Host, Memory>
    ensures { IfOk result (IsUse found) }
{
    match found.through {
        None => Ok(Host::Global(found.entity)),
        Some(to) => retyped(alloc, to, found.entity),
    }
}

/// What an object or function is.
fn mapped_entity(alloc: Global, e: EntityId, m: &Mapping<'_>) -> Result<Host, Memory>
    ensures { IfOk result (MapsHost m.now (host.Global e)) }
{
    used(alloc, m.entity(e)?)
}

/// Maps what an lvalue begins with.
#[cycle(rewrite)]
fn map_host(alloc: Global, host: &mut Host, m: &Mapping<'_>) -> Result<(), Memory>
    ensures { OnOk result (MapsHost m.now host.old host.new) }
{
    match host {
        Host::Global(e) => {
            *host = mapped_entity(alloc, *e, m)?;
            Ok(())
        }
        Host::Var(_) => Ok(()),
        Host::At(e) => map_exp(alloc, e, m),
    }
}

/// Maps a step.
#[cycle(rewrite)]
fn map_offset(alloc: Global, offset: &mut Offset, m: &Mapping<'_>) -> Result<(), Memory>
    ensures { OnOk result (MapsOffset m.now offset.old offset.new) }
{
    match offset {
        Offset::Field(_) => Ok(()),
        Offset::Index(e) => map_exp(alloc, e, m),
    }
}

/// Maps the steps of an lvalue.
#[cycle(rewrite)]
fn map_offsets(alloc: Global, offsets: &mut Vec<Offset>, m: &Mapping<'_>) -> Result<(), Memory>
    ensures { OnOk result (MapsOffsets m.now offsets.old.items offsets.new.items) }
{
    for i in 0..offsets.len() {
        map_offset(alloc, &mut offsets[i], m)?;
    }
    Ok(())
}

/// Maps an lvalue.
#[cycle(rewrite)]
pub fn map_place(alloc: Global, place: &mut Lval, m: &Mapping<'_>) -> Result<(), Memory>
    ensures { OnOk result (MapsLval m.now place.old place.new) }
{
    map_host(alloc, &mut place.host, m)?;
    map_offsets(alloc, &mut place.offsets, m)
}

/// Maps an expression.
#[cycle(rewrite)]
pub fn map_exp(alloc: Global, e: &mut Exp, m: &Mapping<'_>) -> Result<(), Memory>
    ensures { OnOk result (MapsExp m.now e.old e.new) }
{
    match e {
        Exp::Const(..) => Ok(()),
        Exp::Lval(place) => map_place(alloc, place, m),
        Exp::Un(_, operand) => map_exp(alloc, operand, m),
        Exp::Bin(_, left, right) => {
            map_exp(alloc, left, m)?;
            map_exp(alloc, right, m)
        }
        Exp::Cast(to, operand) => {
            *to = m.ty(*to)?;
            map_exp(alloc, operand, m)
        }
        Exp::AddrOf(place) => map_place(alloc, place, m),
        Exp::StartOf(place) => map_place(alloc, place, m),
    }
}
