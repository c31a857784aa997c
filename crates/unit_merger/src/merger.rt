ghost use Rattle.std.specs.Prelude.{◌≡◌, ◌+◌, ◌<◌, ◌≤◌, map, length, IfOk, OnOk, None, Some, false};
ghost use Rattle.std.specs.String.{string_bytes};
ghost use Rattle.c_lexer.specs.Lexed.{IfRefused};
ghost use Rattle.cil_tree.specs.View.{program_of};
ghost use Rattle.cil_tree.specs.Text.{Text};
ghost use Rattle.cil_tree.specs.Programs.{IsProgram};
ghost use Rattle.cil_base.specs.NamePool.{Stays};
ghost use Rattle.cil_base.specs.declared.kinds.Abi.TheVariants.{Lp64};
ghost use Rattle.merge_refusals.specs.Refusals.{IsUnitRefusal, IsMergeRefusal, PrintedIfLong, IfRefusal};
ghost use Rattle.unit_merger.specs.Units.{AreGrammatical, AreMerged, IsRefusedAmong, IsUnitCause, over_limit};
ghost use Rattle.unit_front.specs.Refusals.{IsFrontFault};
ghost use Rattle.unit_merger.specs.Linking.{AreFronted, IsProgramOf, IsTextOfUnits, SaysFirst, SaysOfLinks};
ghost use Rattle.unit_merger.specs.Programs.{IsProgramOfUnit, IsTextOfUnit};
ghost use Rattle.cil_base.specs.Limits.{text_bytes};

use crate::naming::named;
use crate::printing::{unit_printed, units_printed};
use c_lexer::Tokens;
use c_tree::Unit;
use cil_base::{Abi, Bytes, Fault, Mode, NameId, NamePool, Place, Refusal, Stop, UnitNo, What};
use cil_merge::merge;
use cil_sources::Sources;
use cil_tree::CilUnit;
use link_names::Fronted;
use merge_refusals::{of_first, of_link, of_units};
use std::alloc::Global;
use unit_front::{front, parsed_front};

/// The text of the CIL program that a translation unit becomes (C11 5.1.1.1), whose tree these tokens spell. The pool has the names and
/// files of the tokens; it keeps them and gains others.
///
/// It is refused for an excluded form, a constraint or a limit, at one of its tokens or at its end, or for a text of more than
/// 268,435,456 bytes, at its first token. `Memory` comes where memory is wanting, and where the program is not well-formed, which ought
/// never to be. Own.
#[tactic(auto)]
pub fn unit_text(
    alloc: Global,
    unit: &Unit,
    tokens: &Tokens<'_>,
    names: &mut NamePool,
) -> Result<Bytes, Stop>
    ensures text { IfOk result (IsTextOfUnit tokens.now names.old) }
    ensures refused { IfRefused result (IsUnitRefusal (length names.new)) }
    ensures cause { IfRefused result (IsUnitCause tokens.now names.old) }
    ensures printed { IfRefused result PrintedIfLong }
    ensures stays { Stays names.old names.new }
{
    let program = merged_unit(alloc, unit, tokens, names)?;
    unit_printed(&program, tokens, names)
}

/// The text of the CIL program that translation units become (C11 5.1.1.1), of which the i-th is of the i-th file; behind them one may
/// pass a limit on bytes. Where they are common, tentative definitions of one name are one object (J.5.11).
///
/// They are refused for the first fault of the first unit that has one, then for that limit, then with `Duplicate` (6.9p5) or
/// `Incompatible` (6.2.7p2) as the links of their programs ask, then for the length of the text. `Memory` comes as of `unit_text`. Own.
#[tactic(auto, using(crate::proofs::InOrder::late, crate::proofs::Links::of_printing, crate::proofs::Links::linked_later, cil_base::proofs::PoolLemmas::stays_then))]
pub fn units_text(
    alloc: Global,
    sources: &Sources,
    files: &[String],
    common: bool,
    names: &mut NamePool,
) -> Result<Bytes, Stop>
    ensures text { IfOk result (IsTextOfUnits common sources.now.units.items (map string_bytes files.now) names.new) }
    ensures refused { IfRefused result (IsMergeRefusal (length files.now) (length names.new)) }
    ensures merged { IfOk result (λ _. AreMerged sources.now.units.items sources.now.over (map string_bytes files.now)) }
    ensures cause { IfRefused result (IsRefusedAmong sources.now.units.items sources.now.over (map string_bytes files.now) names.new) }
    ensures printed { IfRefused result PrintedIfLong }
    ensures links { SaysOfLinks common sources.now.units.items (map string_bytes files.now) names.new result }
    ensures stays { Stays names.old names.new }
{
    let units = &sources.units;
    let program = merged(alloc, units, sources.over, files, common, names)?;
    units_printed(alloc, &program, units, files, names)
}

/// The CIL program that translation units in memory become, of files of these names, without common definitions; they are refused as by
/// `units_text`. Own.
#[tactic(auto, using(crate::proofs::Texts::made_later, crate::proofs::InOrder::late, crate::proofs::Links::of_long, crate::proofs::Links::linked_later, cil_base::proofs::PoolLemmas::stays_then))]
pub fn units_program(
    alloc: Global,
    units: &[Bytes],
    files: &[String],
    names: &mut NamePool,
) -> Result<CilUnit, Stop>
    ensures program { IfOk result (λ u. IsProgram (program_of names.new u)) }
    ensures short { IfOk result (λ u. length (Text (program_of names.new u)) ≤ text_bytes) }
    ensures of { IfOk result (IsProgramOf false units.now (map string_bytes files.now) names.new) }
    ensures model { IfOk result (λ u. u.graph.abi ≡ Lp64) }
    ensures refused { IfRefused result (IsMergeRefusal (length files.now) (length names.new)) }
    ensures merged { IfOk result (λ _. AreMerged units.now None (map string_bytes files.now)) }
    ensures cause { IfRefused result (IsRefusedAmong units.now None (map string_bytes files.now) names.new) }
    ensures printed { IfRefused result PrintedIfLong }
    ensures links { SaysOfLinks false units.now (map string_bytes files.now) names.new result }
    ensures stays { Stays names.old names.new }
{
    let program = merged(alloc, units, None, files, false, names)?;
    let _ = units_printed(alloc, &program, units, files, names)?;
    Ok(program)
}

/// The program that one unit becomes.
fn merged_unit(
    alloc: Global,
    unit: &Unit,
    tokens: &Tokens<'_>,
    names: &mut NamePool,
) -> Result<CilUnit, Stop>
    ensures program { IfOk result (IsProgramOfUnit tokens.now names.old names.new) }
    ensures model { IfOk result (λ u. u.graph.abi ≡ Lp64) }
    ensures refused { IfRefused result (IsUnitRefusal (length names.new)) }
    ensures cause { IfRefused result (IsUnitCause tokens.now names.old) }
    ensures printed { IfRefused result PrintedIfLong }
    ensures stays { Stays names.old names.new }
{
    match program_of_unit(alloc, unit, tokens, names) {
        Ok(program) => Ok(program),
        Err(Stop::Refused(refusal)) => Err(of_first(refusal, names)),
        Err(Stop::Memory) => Err(Stop::Memory),
    }
}

/// The program that units of these files become; behind them one passes a limit where `over` has one.
#[tactic(auto, using(crate::proofs::Links::of_first_stop))]
fn merged(
    alloc: Global,
    units: &[Bytes],
    over: Option<What>,
    files: &[String],
    common: bool,
    names: &mut NamePool,
) -> Result<CilUnit, Stop>
    ensures program { IfOk result (IsProgramOf common units.now (map string_bytes files.now) names.new) }
    ensures model { IfOk result (λ u. u.graph.abi ≡ Lp64) }
    ensures refused { IfRefused result (IsMergeRefusal (length files.now) (length names.new)) }
    ensures merged { IfOk result (λ _. AreMerged units.now over (map string_bytes files.now)) }
    ensures cause { IfRefused result (IsRefusedAmong units.now over (map string_bytes files.now) names.new) }
    ensures printed { IfRefused result PrintedIfLong }
    ensures links { SaysOfLinks common units.now (map string_bytes files.now) names.new result }
    ensures stays { Stays names.old names.new }
{
    match program_of_units(alloc, units, over, files, common, names) {
        Ok(program) => Ok(program),
        Err(Stop::Refused(refusal)) => Err(of_units(refusal, files.len(), names)),
        Err(Stop::Memory) => Err(Stop::Memory),
    }
}

/// The program that one unit becomes, or its first fault. A unit alone has no links, so that merging refuses it for none.
#[tactic(auto, using(crate::proofs::InOrder::of_check, cil_base::proofs::PoolLemmas::stays_then))]
fn program_of_unit(
    alloc: Global,
    unit: &Unit,
    tokens: &Tokens<'_>,
    names: &mut NamePool,
) -> Result<CilUnit, Stop>
    ensures program { IfOk result (IsProgramOfUnit tokens.now names.old names.new) }
    ensures model { IfOk result (λ u. u.graph.abi ≡ Lp64) }
    ensures cause { IfRefused result (IsUnitCause tokens.now names.old) }
    ensures stays { Stays names.old names.new }
{
    let mode = Mode {
        common: false,
        abi: Abi::Lp64,
    };
    let fronted = parsed_front(alloc, unit, tokens, names, mode.abi)?;
    let mut units = Vec::new(alloc);
    units.push(fronted)?;
    match merge(alloc, units, names, mode) {
        Ok(program) => Ok(program),
        Err(stop) => Err(stop),
    }
}

/// The program that units of these files become, or their first fault.
#[tactic(auto, using(crate::proofs::Links::linked, crate::proofs::Links::of_merge, crate::proofs::Links::merge_cause, crate::proofs::Links::of_front, cil_base::proofs::PoolLemmas::stays_then))]
fn program_of_units(
    alloc: Global,
    units: &[Bytes],
    over: Option<What>,
    files: &[String],
    common: bool,
    names: &mut NamePool,
) -> Result<CilUnit, Stop>
    ensures program { IfOk result (IsProgramOf common units.now (map string_bytes files.now) names.new) }
    ensures model { IfOk result (λ u. u.graph.abi ≡ Lp64) }
    ensures merged { IfOk result (λ _. AreMerged units.now over (map string_bytes files.now)) }
    ensures cause { IfRefused result (IsRefusedAmong units.now over (map string_bytes files.now) names.new) }
    ensures links { SaysFirst common units.now (map string_bytes files.now) names.new result }
    ensures stays { Stays names.old names.new }
{
    let mode = Mode {
        common,
        abi: Abi::Lp64,
    };
    let fronted = fronted(alloc, units, over, files, names, mode)?;
    match merge(alloc, fronted, names, mode) {
        Ok(program) => Ok(program),
        Err(Stop::Refused(refusal)) => Err(of_link(refusal)),
        Err(Stop::Memory) => Err(Stop::Memory),
    }
}

/// Each unit as a CIL program; it is refused at the first unit that has a fault.
#[tactic(auto, using(crate::proofs::InOrder::none_yet, crate::proofs::Links::none_fronted, cil_base::proofs::PoolLemmas::stays_then))]
fn fronted(
    alloc: Global,
    units: &[Bytes],
    over: Option<What>,
    files: &[String],
    names: &mut NamePool,
    mode: Mode,
) -> Result<Vec<Fronted>, Stop>
    ensures merged { IfOk result (λ _. AreMerged units.now over (map string_bytes files.now)) }
    ensures cause { IfRefused result (IsRefusedAmong units.now over (map string_bytes files.now) names.new) }
    ensures fronted { IfOk result (λ fs. AreFronted units.now (map string_bytes files.now) names.new (length units.now) fs.items) }
    ensures early { IfRefused result (λ r. IsFrontFault r.fault) }
    ensures stays { Stays names.old names.new }
{
    let mut done = Vec::new(alloc);
    for i in 0..units.len() {
        add_front(alloc, units, i, over, files, names, mode, &mut done)?;
    }
    if let Some(limit) = over {
        let (unit, file) = named(units.len(), files, names)?;
        return Err(limit_of(limit, unit, file));
    }
    Ok(done)
}

/// Puts the CIL program of the unit of a number behind those before it.
#[tactic(auto, using(cil_base::proofs::PoolLemmas::stays_then))]
fn add_front(
    alloc: Global,
    units: &[Bytes],
    i: usize,
    over: Option<What>,
    files: &[String],
    names: &mut NamePool,
    mode: Mode,
    done: &mut Vec<Fronted>,
) -> Result<(), Stop>
    requires within { i < length units.now }
    requires before { AreGrammatical units.now (map string_bytes files.now) i }
    ensures grammatical { OnOk result (AreGrammatical units.now (map string_bytes files.now) (i + 1)) }
    ensures cause { IfRefused result (IsRefusedAmong units.now over (map string_bytes files.now) names.new) }
    ensures fronted { OnOk result (AreFronted units.now (map string_bytes files.now) names.old i done.old.items → AreFronted units.now (map string_bytes files.now) names.new (i + 1) done.new.items) }
    ensures early { IfRefused result (λ r. IsFrontFault r.fault) }
    ensures stays { Stays names.old names.new }
{
    let (unit, file) = named(i, files, names)?;
    let fronted = front(alloc, units[i].as_slice(), unit, file, names, mode.abi)?;
    done.push(fronted)?;
    Ok(())
}

/// The refusal of a unit that passes a limit.
fn limit_of(limit: What, unit: UnitNo, file: NameId) -> Stop
    ensures { IfRefusal result (λ refusal. refusal ≡ over_limit limit unit.0 file) }
{
    Stop::Refused(Refusal {
        fault: Fault::Limit(limit),
        at: Place {
            unit,
            token: 0,
            file,
            line: 1,
        },
        other: None,
    })
}
