ghost use Rattle.std.specs.Prelude.{◌≡◌, ◌≤◌, ◌<◌, ℕ, Bool, List, Some, None, length, map, MatchOption, IfOk, OnOk};
ghost use Rattle.std.specs.String.{string_bytes};
ghost use Rattle.cil_base.specs.NamePool.{Stays};
ghost use Rattle.cil_base.specs.declared.kinds.Abi.TheVariants.{Lp64};
ghost use Rattle.cil_base.specs.declared.faults.Fault.TheVariants.{Limit};
ghost use Rattle.cil_base.specs.declared.faults.What.TheVariants.{PrintedBytes};
ghost use Rattle.c_lexer.specs.Lexed.{IfRefused, place_at};
ghost use Rattle.cil_tree.specs.Text.{Text};
ghost use Rattle.cil_tree.specs.View.{program_of};
ghost use Rattle.cil_tree.specs.Programs.{IsProgram, IsTextOf};
ghost use Rattle.unit_merger.specs.Linking.{IsProgramOf, AreLong};
ghost use Rattle.unit_merger.specs.Programs.{IsProgramOfUnit};
ghost use Rattle.unit_merger.specs.Units.{IsPlaceAmong, IsUnitCause};
ghost use Rattle.merge_refusals.specs.Refusals.{IsLateFault, IsUnitRefusal, IsMergeRefusal, PrintedIfLong};
ghost use Rattle.cil_base.specs.Limits.{text_bytes};

use crate::naming::named;
use c_lexer::{Tokens, lex};
use cil_base::{Bytes, NamePool, Place, Stop, UNIT_BYTES, UnitNo};
use cil_check::check;
use cil_printer::{PrintStop, print};
use cil_tree::CilUnit;
use merge_refusals::{impossible, too_long};
use std::alloc::Global;

/// The text of a program, which is looked at before it is printed; none where the text is too long.
fn printed(program: &CilUnit, names: &NamePool) -> Result<Option<Bytes>, Stop>
    ensures program { OnOk result (IsProgram (program_of names.now program.now)) }
    ensures text { IfOk result (λ found. MatchOption found (text_bytes < length (Text (program_of names.now program.now))) (λ b. IsTextOf b (program_of names.now program.now))) }
    ensures refused { IfRefused result (λ refusal. ⊥) }
{
    if !check(program, names)? {
        return Err(impossible());
    }
    match print(program, names) {
        Ok(text) => Ok(Some(text)),
        Err(PrintStop::TooLong) => Ok(None),
        Err(PrintStop::Memory) => Err(Stop::Memory),
    }
}

/// The place of the first token of the first unit, which has these tokens.
fn first_place(tokens: &Tokens<'_>) -> Result<Place, Stop>
    ensures at { IfOk result (λ place. place_at tokens.now 0 ≡ Some place) }
    ensures unit { IfOk result (λ place. place.unit ≡ record { 0 = 0 }) }
    ensures token { IfOk result (λ place. place.token ≡ 0) }
    ensures refused { IfRefused result (λ refusal. ⊥) }
{
    let place = tokens.place(0);
    if place.unit != UnitNo(0) || place.token != 0 {
        return Err(impossible());
    }
    Ok(place)
}

/// The text of the program that a unit of these tokens becomes, in the data model of the commands.
#[tactic(auto, using(crate::proofs::InOrder::of_length))]
pub(crate) fn unit_printed(
    program: &CilUnit,
    tokens: &Tokens<'_>,
    names: &NamePool,
) -> Result<Bytes, Stop>
    requires { program.now.graph.abi ≡ Lp64 }
    ensures text { IfOk result (λ b. IsTextOf b (program_of names.now program.now)) }
    ensures refused { IfRefused result (IsUnitRefusal (length names.now)) }
    ensures cause { (before : List (List ℕ)) → IsProgramOfUnit tokens.now before names.now program.now → IfRefused result (IsUnitCause tokens.now before) }
    ensures printed { IfRefused result PrintedIfLong }
{
    match printed(program, names)? {
        Some(text) => Ok(text),
        None => Err(too_long(first_place(tokens)?, names)),
    }
}

/// The place of the first token of the first of some units, of which the first file has that name.
#[tactic(auto, using(unit_front::proofs::Files::grows_stays, cil_base::proofs::PoolLemmas::stays_then))]
fn place_in(
    alloc: Global,
    units: &[Bytes],
    files: &[String],
    names: &mut NamePool,
) -> Result<Place, Stop>
    ensures unit { IfOk result (λ place. place.unit ≡ record { 0 = 0 }) }
    ensures token { IfOk result (λ place. place.token ≡ 0) }
    ensures placed { IfOk result (IsPlaceAmong units.now (map string_bytes files.now) names.new) }
    ensures some { OnOk result (0 < length files.now) }
    ensures refused { IfRefused result (λ refusal. ⊥) }
    ensures stays { Stays names.old names.new }
{
    if units.is_empty() || files.is_empty() {
        return Err(impossible());
    }
    let bytes = units[0].as_slice();
    if bytes.len() > UNIT_BYTES {
        return Err(impossible());
    }
    let (unit, file) = named(0, files, names)?;
    match lex(alloc, bytes, unit, file, names) {
        Ok(tokens) => first_place(&tokens),
        Err(_) => Err(impossible()),
    }
}

/// The text of the program that units of these files become, in the data model of the commands.
#[tactic(auto, using(crate::proofs::Places::long_among, crate::proofs::Texts::short_text))]
pub(crate) fn units_printed(
    alloc: Global,
    program: &CilUnit,
    units: &[Bytes],
    files: &[String],
    names: &mut NamePool,
) -> Result<Bytes, Stop>
    requires { program.now.graph.abi ≡ Lp64 }
    ensures text { IfOk result (λ b. IsTextOf b (program_of names.new program.now)) }
    ensures program { OnOk result (IsProgram (program_of names.new program.now)) }
    ensures short { OnOk result (length (Text (program_of names.new program.now)) ≤ text_bytes) }
    ensures refused { IfRefused result (IsMergeRefusal (length files.now) (length names.new)) }
    ensures late { IfRefused result (λ r. IsLateFault r.fault) }
    ensures long { IfRefused result (λ r. r.fault ≡ Limit PrintedBytes) }
    ensures placed { IfRefused result (λ r. IsPlaceAmong units.now (map string_bytes files.now) names.new r.at) }
    ensures alone { IfRefused result (λ r. r.other ≡ None) }
    ensures are_long { (common : Bool) → IsProgramOf common units.now (map string_bytes files.now) names.old program.now → IfRefused result (λ r. AreLong common units.now (map string_bytes files.now) names.new) }
    ensures printed { IfRefused result PrintedIfLong }
    ensures stays { Stays names.old names.new }
{
    match printed(program, names)? {
        Some(text) => Ok(text),
        None => {
            let place = place_in(alloc, units, files, names)?;
            Err(too_long(place, names))
        }
    }
}
