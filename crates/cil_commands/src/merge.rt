ghost use Rattle.std.specs.Prelude.{◌≡◌, ◌≢◌, ◌<◌, ◌⊎◌, ℕ, List, None, [], ◌∷◌, map, length, IfOk, IfSome};
ghost use Rattle.std.specs.String.{string_bytes};
ghost use Rattle.c_meaning.specs.SourceFile.{SourceFile};
ghost use Rattle.c_meaning.specs.View.{expression_of};
ghost use Rattle.cil_meaning.specs.Text.{Text as SmallText};
ghost use Rattle.c_lexer.specs.Lexed.{Grows, PlacesWithin, IfRefused as IfStopped};
ghost use Rattle.cil_tree.specs.Tree.{Program};
ghost use Rattle.cil_tree.specs.Text.{Text};
ghost use Rattle.outside.specs.Moves.{Began, Wrote};
ghost use Rattle.outside.specs.Named.{find_file, names_of};
ghost use Rattle.merge_refusals.specs.Refusals.{IsMergeRefusal};
ghost use Rattle.cil_base.specs.NamePool.{Stays};
ghost use Rattle.cil_sources.specs.Files.{bytes_under, all_under};
ghost use Rattle.cil_sources.specs.Units.{kept};
ghost use Rattle.cil_commands.specs.Grammatical.{AreTokens};
ghost use Rattle.cil_commands.specs.Merge.{file_under, IsMergeAnswer, IsWritten, IsMergedTo, IsRefused, IfRefused};
ghost use Rattle.cil_commands.specs.Merged.{file_in, IsAlone};
ghost use Rattle.cil_commands.specs.Calls.{CountsCalls, LeavesFiles};
ghost use Rattle.cil_commands.specs.Written.{WritesProgram};
ghost use Rattle.cil_commands.specs.Several.{SaysOfKept, SaysOfUnits, SaysOfLinks};
ghost use Rattle.cil_commands.specs.Small.{small};
ghost use Rattle.cil_lines.specs.Messages.{HasFiles};
ghost use Rattle.cil_commands.specs.Messages.{Begins};

use crate::file::refused_first;
use crate::lower::lower;
use crate::printer::print;
use crate::reader::unit_of;
use c_lexer::{Tokens, lex};
use c_meaning::Expr;
use c_parser::parse;
use cil_base::{Fault, Memory, NameId, NamePool, Stop, UNIT_BYTES, UnitNo, What};
use cil_lines::{Status, send};
use cil_sources::{Sources, read_file, read_units};
use outside::{Files, ReadStop, Sink};
use std::alloc::Global;
use unit_merger::{unit_text, units_text};

// One byte more than a unit may have: so many bytes show that a unit is too large.
const READ_LIMIT: usize = UNIT_BYTES + 1;

// The tokens of the first unit, whose file is the only name of the pool.
fn unit_tokens<'a>(
    alloc: Global,
    unit: &'a [u8],
    file: NameId,
    names: &mut NamePool,
) -> Result<Tokens<'a>, Stop>
    requires first { file.0 ≡ 0 }
    requires alone { IsAlone names.old }
    ensures tokens { IfOk result (λ t. AreTokens (file_in names.old unit.now) t names.new) }
    ensures places { IfOk result (PlacesWithin (length names.new)) }
    ensures refused { IfStopped result (λ refusal. IsRefused (file_in names.old unit.now) refusal names.new) }
    ensures refusal { IfStopped result (IsMergeRefusal 1 (length names.new)) }
    ensures pool { Grows names.old names.new }
{
    if unit.len() > UNIT_BYTES {
        return Err(Stop::Refused(refused_first(Fault::Limit(What::UnitBytes), file)));
    }
    lex(alloc, unit, UnitNo(0), file, names)
}

// The text of the program of a unit of the form, whose main returns the expression.
fn form_text(alloc: Global, e: Expr) -> Result<Vec<u8>, Memory>
    ensures { IfOk result (λ text. text.items ≡ SmallText (small (expression_of e))) }
{
    let program = lower(alloc, e)?;
    print(alloc, &program)
}

// The text of the program that the first unit is merged to, which has these tokens.
fn tokens_text(alloc: Global, tokens: &Tokens<'_>, names: &mut NamePool) -> Result<Vec<u8>, Stop>
    ensures merged { (file : SourceFile) → AreTokens file tokens.now names.old → IfOk result (λ text. (p : Program) × IsMergedTo file p × (text.items ≡ Text p)) }
    ensures refused { (file : SourceFile) → AreTokens file tokens.now names.old → PlacesWithin (length names.old) tokens.now → IfStopped result (λ refusal. IsRefused file refusal names.new) }
    ensures refusal { (file : SourceFile) → AreTokens file tokens.now names.old → PlacesWithin (length names.old) tokens.now → IfStopped result (IsMergeRefusal 1 (length names.new)) }
    ensures stays { Stays names.old names.new }
{
    let tree = parse(alloc, tokens)?;
    match unit_of(alloc, tokens)? {
        Some(e) => Ok(form_text(alloc, e)?),
        None => match unit_text(alloc, &tree, tokens, names) {
            Ok(text) => Ok(text.into_vec()),
            Err(stop) => Err(stop),
        },
    }
}

// The text of the program that the first unit is merged to.
#[tactic(auto, using(unit_front::proofs::Files::grows_stays, cil_base::proofs::PoolLemmas::stays_then))]
fn merged_text(
    alloc: Global,
    unit: &[u8],
    file: NameId,
    names: &mut NamePool,
) -> Result<Vec<u8>, Stop>
    requires first { file.0 ≡ 0 }
    requires alone { IsAlone names.old }
    ensures merged { IfOk result (λ text. (p : Program) × IsMergedTo (file_in names.old unit.now) p × (text.items ≡ Text p)) }
    ensures refused { IfStopped result (λ refusal. IsRefused (file_in names.old unit.now) refusal names.new) }
    ensures refusal { IfStopped result (IsMergeRefusal 1 (length names.new)) }
    ensures stays { Stays names.old names.new }
{
    let tokens = unit_tokens(alloc, unit, file, names)?;
    tokens_text(alloc, &tokens, names)
}

// Merges the first unit, whose file is the only name of the pool, and writes the text.
#[tactic(auto, using(crate::proofs::Counts::counted))]
fn merge_unit<O: Sink>(
    alloc: Global,
    unit: &[u8],
    file: NameId,
    names: &mut NamePool,
    out: &mut O,
) -> Status
    requires first { file.0 ≡ 0 }
    requires alone { IsAlone names.old }
    ensures kind { IsMergeAnswer 1 result }
    ensures files { HasFiles (length names.new) result }
    ensures stays { Stays names.old names.new }
    ensures done { result ≡ Status.Done → (p : Program) × IsMergedTo (file_in names.old unit.now) p × Wrote (O.taken out.old) (O.taken out.new) (Text p) }
    ensures part { result ≡ Status.WriteFault → (p : Program) × IsMergedTo (file_in names.old unit.now) p × Began (O.taken out.old) (O.taken out.new) (Text p) }
    ensures idle { result ≢ Status.Done → result ≢ Status.WriteFault → out.new ≡ out.old }
    ensures refused { IfRefused result (λ refusal. IsRefused (file_in names.old unit.now) refusal names.new) }
    ensures no_read { result ≢ Status.ReadFault }
    ensures writes { CountsCalls Status.WriteFault result (O.faults out.old) (O.faults out.new) }
{
    match merged_text(alloc, unit, file, names) {
        Ok(text) => send(out, &text),
        Err(Stop::Refused(refusal)) => Status::Refused(refusal),
        Err(Stop::Memory) => Status::Memory,
    }
}

// Merges the file of that name, which becomes the first name of the pool, and writes the text.
#[tactic(auto, using(crate::proofs::Counts::counted))]
pub fn merge<F: Files, O: Sink>(
    alloc: Global,
    name: &str,
    names: &mut NamePool,
    files: &mut F,
    out: &mut O,
) -> Status
    requires { names.old ≡ [] }
    ensures kind { IsMergeAnswer 1 result }
    ensures names { result ≢ Status.Memory → Begins (name.now ∷ []) names.new }
    ensures files { HasFiles (length names.new) result }
    ensures done { result ≡ Status.Done → (p : Program) × IsWritten p × Wrote (O.taken out.old) (O.taken out.new) (Text p) × IfSome (file_under (F.told files.old) name.now) (λ unit. IsMergedTo unit p) }
    ensures part { result ≡ Status.WriteFault → (p : Program) × IsWritten p × Began (O.taken out.old) (O.taken out.new) (Text p) × IfSome (file_under (F.told files.old) name.now) (λ unit. IsMergedTo unit p) }
    ensures idle { result ≢ Status.Done → result ≢ Status.WriteFault → out.new ≡ out.old }
    ensures refused { IfSome (file_under (F.told files.old) name.now) (λ unit. IfRefused result (λ refusal. IsRefused unit refusal names.new)) }
    ensures reads { CountsCalls Status.ReadFault result (F.faults files.old) (F.faults files.new) }
    ensures writes { CountsCalls Status.WriteFault result (O.faults out.old) (O.faults out.new) }
    ensures missing { IfSome (F.told files.old) (λ t. find_file name.now t.names ≡ None → (result ≡ Status.ReadFault) ⊎ (result ≡ Status.Memory)) }
    ensures names_stay { names_of (F.told files.new) ≡ names_of (F.told files.old) }
    ensures strays { IfSome (bytes_under (F.told files.old) name.now) (λ _. F.strays files.new ≡ F.strays files.old) }
{
    let Ok(file) = names.intern(name.as_bytes()) else {
        return Status::Memory;
    };
    match read_file(alloc, name, READ_LIMIT, files) {
        Ok(unit) => merge_unit(alloc, &unit, file, names, out),
        Err(ReadStop::Failed) => Status::ReadFault,
        Err(ReadStop::Memory) => Status::Memory,
    }
}

// Merges units of these files, and writes the text.
#[tactic(auto, using(crate::proofs::Counts::counted, crate::proofs::Written::written_as))]
fn merge_sources<O: Sink>(
    alloc: Global,
    sources: &Sources,
    asked: &[String],
    common: bool,
    names: &mut NamePool,
    out: &mut O,
) -> Status
    ensures kind { IsMergeAnswer (length asked.now) result }
    ensures files { HasFiles (length names.new) result }
    ensures units { SaysOfKept sources.now.units.items sources.now.over (map string_bytes asked.now) names.new result }
    ensures links { SaysOfLinks common sources.now.units.items (map string_bytes asked.now) names.new result (O.taken out.old) (O.taken out.new) }
    ensures stays { Stays names.old names.new }
    ensures pool { result ≢ Status.Memory → (first : List ℕ) (more : List (List ℕ)) → names.old ≡ first ∷ more → (rest : List (List ℕ)) × (names.new ≡ first ∷ rest) }
    ensures written { WritesProgram None result (O.taken out.old) (O.taken out.new) }
    ensures idle { result ≢ Status.Done → result ≢ Status.WriteFault → out.new ≡ out.old }
    ensures no_read { result ≢ Status.ReadFault }
    ensures writes { CountsCalls Status.WriteFault result (O.faults out.old) (O.faults out.new) }
{
    match units_text(alloc, sources, asked, common, names) {
        Ok(text) => send(out, text.as_slice()),
        Err(Stop::Refused(refusal)) => Status::Refused(refusal),
        Err(Stop::Memory) => Status::Memory,
    }
}

// Merges the files of these names, of which the first becomes the first name of the pool, and writes the text.
#[tactic(auto, using(crate::proofs::Counts::counted, crate::proofs::Written::written_as, crate::proofs::Counts::left_alone, crate::proofs::Several::says_read, crate::proofs::Several::links_read))]
pub fn merge_all<F: Files, O: Sink>(
    alloc: Global,
    asked: &[String],
    common: bool,
    names: &mut NamePool,
    files: &mut F,
    out: &mut O,
) -> Status
    requires empty { names.old ≡ [] }
    requires some { 0 < length asked.now }
    ensures kind { IsMergeAnswer (length asked.now) result }
    ensures names { result ≢ Status.Memory → (first : List ℕ) (more : List (List ℕ)) → map string_bytes asked.now ≡ first ∷ more → Begins (first ∷ []) names.new }
    ensures files { HasFiles (length names.new) result }
    ensures units { IfSome (all_under (F.told files.old) (map string_bytes asked.now)) (λ units. SaysOfUnits units (map string_bytes asked.now) names.new result) }
    ensures links { IfSome (all_under (F.told files.old) (map string_bytes asked.now)) (λ units. SaysOfLinks common (kept 0 units).units (map string_bytes asked.now) names.new result (O.taken out.old) (O.taken out.new)) }
    ensures written { WritesProgram None result (O.taken out.old) (O.taken out.new) }
    ensures idle { result ≢ Status.Done → result ≢ Status.WriteFault → out.new ≡ out.old }
    ensures reads { CountsCalls Status.ReadFault result (F.faults files.old) (F.faults files.new) }
    ensures writes { CountsCalls Status.WriteFault result (O.faults out.old) (O.faults out.new) }
    ensures leaves { LeavesFiles result (map string_bytes asked.now) (F.told files.old) (F.told files.new) (F.strays files.old) (F.strays files.new) }
{
    if names.intern(asked[0].as_bytes()).is_err() {
        return Status::Memory;
    }
    match read_units(alloc, asked, files) {
        Ok(sources) => merge_sources(alloc, &sources, asked, common, names, out),
        Err(ReadStop::Failed) => Status::ReadFault,
        Err(ReadStop::Memory) => Status::Memory,
    }
}
