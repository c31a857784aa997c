ghost use Rattle.std.specs.Prelude.{◌≡◌, IsTrue};
ghost use Rattle.cil_base.specs.declared.faults.Fault.TheVariants.{Excluded, Limit};
ghost use Rattle.cil_base.specs.declared.faults.Stop.TheVariants.{Memory as WantOfMemory};
ghost use Rattle.cil_base.specs.NamePool.{Stays};
ghost use Rattle.c_lexer.specs.Lexed.{IfRefused};
ghost use Rattle.cast_insert.specs.Refusals.{IfRefusal, IsCheckedFault, IsCheckedRefusal};

use crate::unit::{ended, externals, place_of, unit_of};
use c_lexer::TokenList;
use c_tree::Unit;
use cil_base::{Abi, Fault, Feature, Memory, NamePool, Refusal, Stop, What};
use decl_types::Declarer;
use std::alloc::Global;
use typed_parts::{WalkStop, Walker};
use typed_tree::TypedUnit;
use unit_types::Types;

/// Whether a form that is left out is found behind the grammar: what is left out as a token is refused before.
fn is_form(feature: Feature) -> bool
    ensures { IsTrue result → IsCheckedFault (Excluded feature) }
{
    match feature {
        Feature::BitField
        | Feature::VariableArray
        | Feature::IdentifierList
        | Feature::ExternalInline
        | Feature::VariadicDefinition
        | Feature::FlexibleInit => true,
        _ => false,
    }
}

/// Whether a limit is one on types, functions and initialisers.
fn is_limit(what: What) -> bool
    ensures { IsTrue result → IsCheckedFault (Limit what) }
{
    match what {
        What::ObjectSize | What::Locals | What::Scalars => true,
        What::UnitBytes | What::TotalBytes | What::NameBytes | What::PrintedBytes => false,
    }
}

/// Whether a fault is one that the walk finds.
fn is_checked(fault: Fault) -> bool
    ensures { IsTrue result → IsCheckedFault fault }
{
    match fault {
        Fault::Excluded(feature) => is_form(feature),
        Fault::Constraint(_) => true,
        Fault::Limit(what) => is_limit(what),
        Fault::Lexical | Fault::Syntax | Fault::Duplicate | Fault::Incompatible => false,
    }
}

/// What a branch answers that never comes.
fn impossible() -> Stop
    ensures { result ≡ WantOfMemory }
{
    Stop::Memory
}

/// The refusal of a unit for a fault at a token.
fn refused<L: TokenList>(t: &L, at: u32, fault: Fault) -> Stop
    ensures { IfRefusal result (IsCheckedRefusal (L.lexed t.now)) }
{
    if !is_checked(fault) {
        return impossible();
    }
    match place_of(t, at) {
        Some(at) => Stop::Refused(Refusal {
            fault,
            at,
            other: None,
        }),
        None => impossible(),
    }
}

/// The refusal of a unit at a token.
fn stopped<L: TokenList>(t: &L, stop: WalkStop) -> Stop
    ensures { IfRefusal result (IsCheckedRefusal (L.lexed t.now)) }
{
    match stop {
        WalkStop::At(at, fault) => refused(t, at, fault),
        WalkStop::Memory => Stop::Memory,
    }
}

/// The declarations of a unit before its first one, and its types.
fn begun(alloc: Global, names: &mut NamePool, abi: Abi) -> Result<(Declarer, Types), Memory>
    ensures { Stays names.old names.new }
{
    let mut types = Types::new(alloc, abi);
    match Declarer::new(alloc, names, &mut types) {
        Ok(declarer) => Ok((declarer, types)),
        Err(_) => Err(Memory),
    }
}

/// The walk of all external declarations, and of the unit's end.
fn walked(w: &mut Walker<'_>, u: &Unit) -> Result<(), WalkStop> {
    externals(w, u)?;
    ended(w)
}

/// The typed unit of a syntax tree whose tokens are given (C11 6.9), under a data model. The names of the unit stand in the pool, which
/// gains those that are made.
///
/// It is refused at the first constraint that is violated, the first form that is left out and the first limit that is passed, with the place
/// of its token.
#[tactic(auto, using(cil_base::proofs::PoolLemmas::stays_then))]
pub fn check_unit<L: TokenList>(
    alloc: Global,
    u: &Unit,
    t: &L,
    names: &mut NamePool,
    abi: Abi,
) -> Result<TypedUnit, Stop>
    ensures refused { IfRefused result (IsCheckedRefusal (L.lexed t.now)) }
    ensures stays { Stays names.old names.new }
{
    let (declarer, types) = begun(alloc, names, abi)?;
    let mut w = Walker::new(alloc, names, types, declarer);
    if let Err(stop) = walked(&mut w, u) {
        return Err(stopped(t, stop));
    }
    let (unit, made) = unit_of(t, w)?;
    made.give(names)?;
    Ok(unit)
}
