ghost use Rattle.std.specs.Prelude.{◌≡◌, ◌≢◌, ◌≤◌, ◌+◌, ◌↔◌, ◌⊎◌, ◌∷◌, ℕ, List, [], Option, None, Some, length, map, unwrap_or, IfSome, IsSome};
ghost use Rattle.std.specs.String.{string_bytes};
ghost use Rattle.cil_base.specs.declared.kinds.Abi.TheVariants.{Lp64};
ghost use Rattle.c_meaning.specs.Grammar.{Expression, IsUnit};
ghost use Rattle.cil_tree.specs.Tree.{Program};
ghost use Rattle.cil_tree.specs.Text.{Text};
ghost use Rattle.cil_tree.specs.Programs.{IsTextOf};
ghost use Rattle.cil_tree.specs.LaidOut.{bad_place};
ghost use Rattle.cil_semantics.specs.Runs.{RunCil};
ghost use Rattle.cil_semantics.specs.Modes.{mode_of};
ghost use Rattle.cil_reader.specs.Stops.{IsNoText};
ghost use Rattle.outside.specs.Counts.{Rose};
ghost use Rattle.outside.specs.Moves.{Began, Wrote};
ghost use Rattle.outside.specs.Named.{names_of};
ghost use Rattle.std.specs.Option.{option_map};
ghost use Rattle.cil_base.specs.declared.faults.Refusal.{Refusal};
ghost use Rattle.cil_commands.specs.Answers.{IsAnswerTo};
ghost use Rattle.outside.specs.Named.{Told};
ghost use Rattle.cil_words.specs.Command.{command_of, files_of, merged_files, run_file, sample_asked, bound_of, steps_asked, words_given};
ghost use Rattle.cil_commands.specs.Execute.{text_asked, IsRunAnswer, IsEnd, RanAs, RunSays, AnswersAs};
ghost use Rattle.cil_sources.specs.Files.{bytes_under, all_under, found_all};
ghost use Rattle.cil_commands.specs.Calls.{CountsCalls, LeavesFiles};
ghost use Rattle.cil_commands.specs.Written.{WritesProgram, AnswersUnit};
ghost use Rattle.cil_commands.specs.Merge.{unit_asked, IsMergeAnswer, IsWritten, IsMergedTo, IsNoGrammar, IsRefused, IsRefusedLike, IfRefused};
ghost use Rattle.cil_commands.specs.Several.{SaysOfUnits, UnitsSay, LinksSay, SampledSays};
ghost use Rattle.cil_lines.specs.Messages.{line_of, IsQuiet, HasFiles};
ghost use Rattle.cil_commands.specs.Messages.{AreNames, SaysWith};
ghost use Rattle.cil_lines.specs.Sent.{Sent};

use crate::execute::execute;
use crate::merge::{merge, merge_all};
use cil_base::{NamePool, RUN_STEPS};
use cil_lines::{Status, report};
use cil_words::{Command, read_words};
use outside::{Files, Sink, Source};
use sample_command::sample;
use std::alloc::Global;

/// Does what the words ask for, over these files, standard input, standard output and standard error, and answers how it ended.
/// Its CIL programs are those of LP64, in which `long` and pointers have 8 bytes.
///
/// `merge [--common] FILE...` reads the files as C translation units and writes the text of the CIL program that they are merged to.
/// Where it is `Done`, out took the whole text of one well-formed CIL program. Of a file that is merged alone it is further said: it is
/// a grammatical unit (C11 6.9); where it is of the form `int main(void) { return E; }`, with E of decimal constants, binary `+` and `-`
/// and parentheses, the program's run is, in every environment and at every bound of steps, one that the unit's run allows; where the
/// unit is not of that form, the program is one to which a CIL program of the unit is merged; and where no call on the files failed it
/// is `Refused` exactly for the first of these: the unit has more than 4,194,304 bytes; a token of it is a lexical fault, excluded or a
/// name that is too long; no grammatical unit spells its tokens. Every other refusal is of one of the seven kinds, at places in the
/// units that were asked for. A unit that is not grammatical has two places: that of the token at which, behind whole external
/// declarations, none begins, and that of one up to which none does; a second definition and a declaration that does not go with
/// another have two as well. Then, as in each other case but `Done` and `WriteFault`, out took nothing. Of any number of files it is
/// said too: where a text is written each unit is grammatical and none passes a limit on bytes; and where it is `Refused`, each unit
/// before the one of the place is grammatical, and that one has too many bytes, or the units so far have, or it is refused as its tokens
/// and its grammar say, or behind its grammar for an excluded form, a constraint or a limit, at one of its tokens or at its end; or all
/// units are grammatical, and the fault is one of those that are found behind all: `Duplicate`, `Incompatible`, and the limit on the
/// bytes of the text. With `--common` tentative definitions of one name in several units are one object (J.5.11). Of several files it is
/// said as well: each has a CIL program; where a text is written it is that of a program to which these are merged, in the order of the
/// words, no external name is defined twice in them, and all declarations of one correspond; `Duplicate` and `Incompatible` come for the
/// first name, or the first pair of declarations, of which that is not so; and the limit on the text comes only where the text of such a
/// program is longer, at the first token of the first unit.
///
/// `run [--steps N] FILE [ARG...]` reads the file as a CIL text and runs its program with the words from FILE on, bounded by N
/// steps: it is `Exited`, `StillRunning` or `WentUndefined` as the program's run on the bytes of input ends, and then out took just
/// that run's output. Where no call on the files failed it is `NotCil` exactly where the bytes are the text of no CIL program, at the
/// place that is defined for them, and nothing was run. A `ReadFault` comes where the file could not be read, and nothing was run, or
/// where the program wanted a byte of input that could not be read; then, as after a `WriteFault` or want of memory, out took a front
/// of the output, whatever input has still to give. Each read of input, of at most 4,096 bytes or its end, was needed.
///
/// `sample SEED UNITS` makes so many C translation units from the seed, merges them, runs their program without input, bounded by
/// 10,000,000 steps, and writes five lines. Where it is `Done`, out took just these lines, of a well-formed program to which CIL
/// programs of these units are merged: the number of units, that of the program's structs, unions and enums, and how its run exits: how
/// many bytes of output, with which status, and the least bound at which it does. `StillRunning` and `WentUndefined` come only where the
/// run of such a program ends so. With every status but `Done` and `WriteFault` out took nothing. The program's output is not seen.
///
/// `Usage` comes exactly where the words are no command; `ReadFault` and `WriteFault` only where a call on files, on input or on out
/// failed, and every such failure is told; `Memory` wherever memory is wanting. Only `run` reads input, and `sample` calls no files. Each status but `Done` and
/// `Exited` is told by one line on err. Own.
pub fn cil<F: Files, I: Source, O: Sink, E: Sink>(
    alloc: Global,
    words: &[String],
    files: &mut F,
    input: &mut I,
    out: &mut O,
    err: &mut E,
) -> Status
    ensures kind { IsAnswerTo (map string_bytes words.now) result }
    ensures usage { (result ≡ Status.Usage) ↔ (command_of (map string_bytes words.now) ≡ None) }

    // merge
    ensures done { sample_asked (map string_bytes words.now) ≡ None → result ≡ Status.Done → (p : Program) × IsWritten p × Wrote (O.taken out.old) (O.taken out.new) (Text p) × IfSome (unit_asked (F.told files.old) (map string_bytes words.now)) (λ unit. IsMergedTo unit p) }
    ensures accepted { IfSome (unit_asked (F.told files.old) (map string_bytes words.now)) (λ unit. (e : Expression) → IsUnit unit e → ¬ (Rose (F.faults files.old) (F.faults files.new)) → ¬ (Rose (O.faults out.old) (O.faults out.new)) → (result ≡ Status.Done) ⊎ (result ≡ Status.Memory)) }
    ensures refused { IfSome (unit_asked (F.told files.old) (map string_bytes words.now)) (λ unit. IfRefused result (λ refusal. (names : List (List ℕ)) × IsRefused unit refusal names)) }
    ensures refuses { IfSome (unit_asked (F.told files.old) (map string_bytes words.now)) (λ unit. (refusal : Refusal) (names : List (List ℕ)) → IsNoGrammar unit refusal names → ¬ (Rose (F.faults files.old) (F.faults files.new)) → IsRefusedLike result refusal ⊎ (result ≡ Status.Memory)) }
    ensures units { (names : List (List ℕ)) × UnitsSay (F.told files.old) (map string_bytes words.now) names result }
    ensures links { (names : List (List ℕ)) × LinksSay (F.told files.old) (map string_bytes words.now) names result (O.taken out.old) (O.taken out.new) }

    // Where a write failed, out took a front of the text of such a program.
    ensures part { run_file (map string_bytes words.now) ≡ None → sample_asked (map string_bytes words.now) ≡ None → result ≡ Status.WriteFault → (p : Program) × IsWritten p × Began (O.taken out.old) (O.taken out.new) (Text p) × IfSome (unit_asked (F.told files.old) (map string_bytes words.now)) (λ unit. IsMergedTo unit p) }

    // run
    ensures ran { IfSome (run_file (map string_bytes words.now)) (λ name. RunSays ((input.new ≡ input.old) × (out.new ≡ out.old)) (Rose (F.faults files.old) (F.faults files.new)) ((F.faults files.new ≡ F.faults files.old) × Rose (I.faults input.old) (I.faults input.new)) (bytes_under (F.told files.old) name) (words_given (map string_bytes words.now)) (steps_asked (map string_bytes words.now)) result (I.left input.old) (I.left input.new) (O.taken out.old) (O.taken out.new)) }
    ensures runs { IfSome (text_asked (F.told files.old) (map string_bytes words.now)) (λ bytes. (p : Program) → p.graph.abi ≡ Lp64 → IsTextOf bytes p → ¬ (Rose (F.faults files.old) (F.faults files.new)) → ¬ (Rose (I.faults input.old) (I.faults input.new)) → ¬ (Rose (O.faults out.old) (O.faults out.new)) → (IsEnd result × RanAs p (words_given (map string_bytes words.now)) (steps_asked (map string_bytes words.now)) result (I.left input.old) (I.left input.new) (O.taken out.old) (O.taken out.new)) ⊎ (result ≡ Status.Memory)) }
    ensures answers { IfSome (text_asked (F.told files.old) (map string_bytes words.now)) (λ bytes. IfSome (I.left input.old) (λ given. (p : Program) → p.graph.abi ≡ Lp64 → IsTextOf bytes p → ¬ (Rose (F.faults files.old) (F.faults files.new)) → ¬ (Rose (I.faults input.old) (I.faults input.new)) → ¬ (Rose (O.faults out.old) (O.faults out.new)) → AnswersAs (RunCil (p ∷ []) (mode_of p) (words_given (map string_bytes words.now)) given (steps_asked (map string_bytes words.now))) result (O.taken out.old) (O.taken out.new) ⊎ (result ≡ Status.Memory))) }
    ensures not_cil { IfSome (text_asked (F.told files.old) (map string_bytes words.now)) (λ bytes. IsNoText Lp64 bytes → ¬ (Rose (F.faults files.old) (F.faults files.new)) → (result ≡ Status.NotCil (bad_place bytes)) ⊎ (result ≡ Status.Memory)) }

    // sample
    ensures sampled { (names : List (List ℕ)) × SampledSays (map string_bytes words.now) names result (O.taken out.old) (O.taken out.new) }

    ensures read { result ≡ Status.ReadFault → Rose (F.faults files.old) (F.faults files.new) ⊎ (IsSome (run_file (map string_bytes words.now)) × Rose (I.faults input.old) (I.faults input.new)) }
    ensures read_told { result ≢ Status.ReadFault → F.faults files.new ≡ F.faults files.old }
    ensures input_told { result ≢ Status.ReadFault → I.faults input.new ≡ I.faults input.old }
    ensures write { result ≡ Status.WriteFault → Rose (O.faults out.old) (O.faults out.new) }
    ensures write_told { result ≢ Status.WriteFault → O.faults out.new ≡ O.faults out.old }
    ensures nothing_written { run_file (map string_bytes words.now) ≡ None → result ≢ Status.Done → result ≢ Status.WriteFault → out.new ≡ out.old }
    ensures nothing_read { result ≡ Status.Usage → files.new ≡ files.old }
    ensures no_files { IfSome (sample_asked (map string_bytes words.now)) (λ _. files.new ≡ files.old) }
    ensures input { run_file (map string_bytes words.now) ≡ None → input.new ≡ input.old }
    ensures missing { IfSome (F.told files.old) (λ t. found_all t.names (files_of (map string_bytes words.now)) ≡ None → (result ≡ Status.ReadFault) ⊎ (result ≡ Status.Memory)) }
    ensures files_later { F.faults files.old ≤ F.faults files.new }
    ensures input_later { I.faults input.old ≤ I.faults input.new }
    ensures names_stay { names_of (F.told files.new) ≡ names_of (F.told files.old) }
    ensures out_later { O.faults out.old ≤ O.faults out.new }
    ensures strays { IfSome (all_under (F.told files.old) (files_of (map string_bytes words.now))) (λ _. F.strays files.new ≡ F.strays files.old) }

    ensures line { (names : List (List ℕ)) × AreNames (F.told files.old) (map string_bytes words.now) result names × SaysWith (F.told files.old) (map string_bytes words.now) result names (O.taken out.old) (O.taken out.new) × Sent (E.taken err.old) (E.taken err.new) (E.faults err.old) (E.faults err.new) (line_of names (steps_asked (map string_bytes words.now)) result) }
    ensures quiet { IsQuiet result → err.new ≡ err.old }
    ensures err_later { E.faults err.old ≤ E.faults err.new }
{
    let mut names = NamePool::new(alloc);
    let command = read_words(words);
    let status = run_command(alloc, words, &command, &mut names, files, input, out);
    report(err, &names, steps_of(&command), &status);
    status
}

// The bound on steps that a command gives, or 0.
fn steps_of(command: &Option<Command>) -> u64
    ensures { result ≡ unwrap_or (option_map bound_of command.now) 0 }
{
    match command {
        Some(Command::Run { steps, .. }) => *steps,
        Some(Command::Merge { .. }) => 0,
        Some(Command::Sample { .. }) => RUN_STEPS,
        None => 0,
    }
}

// Does what the command asks for; the files of places in the answer are numbers in `names`.
#[tactic(auto, using(crate::proofs::Counts::counted, crate::proofs::Words::is_asked))]
fn run_command<F: Files, I: Source, O: Sink>(
    alloc: Global,
    words: &[String],
    command: &Option<Command>,
    names: &mut NamePool,
    files: &mut F,
    input: &mut I,
    out: &mut O,
) -> Status
    requires empty { names.old ≡ [] }
    requires command { command.now ≡ command_of (map string_bytes words.now) }
    ensures kind { IsAnswerTo (map string_bytes words.now) result }
    ensures usage { (result ≡ Status.Usage) ↔ (command_of (map string_bytes words.now) ≡ None) }
    ensures names { result ≢ Status.Memory → AreNames (F.told files.old) (map string_bytes words.now) result names.new }
    ensures files { HasFiles (length names.new) result }
    ensures done { sample_asked (map string_bytes words.now) ≡ None → result ≡ Status.Done → (p : Program) × IsWritten p × Wrote (O.taken out.old) (O.taken out.new) (Text p) × IfSome (unit_asked (F.told files.old) (map string_bytes words.now)) (λ unit. IsMergedTo unit p) }
    ensures unit { AnswersUnit (unit_asked (F.told files.old) (map string_bytes words.now)) result (Rose (F.faults files.old) (F.faults files.new)) (Rose (O.faults out.old) (O.faults out.new)) }
    ensures ran { IfSome (run_file (map string_bytes words.now)) (λ name. RunSays ((input.new ≡ input.old) × (out.new ≡ out.old)) (Rose (F.faults files.old) (F.faults files.new)) ((F.faults files.new ≡ F.faults files.old) × Rose (I.faults input.old) (I.faults input.new)) (bytes_under (F.told files.old) name) (words_given (map string_bytes words.now)) (steps_asked (map string_bytes words.now)) result (I.left input.old) (I.left input.new) (O.taken out.old) (O.taken out.new)) }
    ensures sampled { SampledSays (map string_bytes words.now) names.new result (O.taken out.old) (O.taken out.new) }
    ensures read { result ≡ Status.ReadFault → Rose (F.faults files.old) (F.faults files.new) ⊎ (IsSome (run_file (map string_bytes words.now)) × Rose (I.faults input.old) (I.faults input.new)) }
    ensures read_told { result ≢ Status.ReadFault → F.faults files.new ≡ F.faults files.old }
    ensures input_told { result ≢ Status.ReadFault → I.faults input.new ≡ I.faults input.old }
    ensures writes { CountsCalls Status.WriteFault result (O.faults out.old) (O.faults out.new) }
    ensures units { UnitsSay (F.told files.old) (map string_bytes words.now) names.new result }
    ensures links { LinksSay (F.told files.old) (map string_bytes words.now) names.new result (O.taken out.old) (O.taken out.new) }
    ensures part { run_file (map string_bytes words.now) ≡ None → sample_asked (map string_bytes words.now) ≡ None → result ≡ Status.WriteFault → (p : Program) × IsWritten p × Began (O.taken out.old) (O.taken out.new) (Text p) × IfSome (unit_asked (F.told files.old) (map string_bytes words.now)) (λ unit. IsMergedTo unit p) }
    ensures nothing_written { run_file (map string_bytes words.now) ≡ None → result ≢ Status.Done → result ≢ Status.WriteFault → out.new ≡ out.old }
    ensures nothing_read { result ≡ Status.Usage → files.new ≡ files.old }
    ensures no_files { IfSome (sample_asked (map string_bytes words.now)) (λ _. files.new ≡ files.old) }
    ensures input { run_file (map string_bytes words.now) ≡ None → input.new ≡ input.old }
    ensures files_later { F.faults files.old ≤ F.faults files.new }
    ensures input_later { I.faults input.old ≤ I.faults input.new }
    ensures leaves { LeavesFiles result (files_of (map string_bytes words.now)) (F.told files.old) (F.told files.new) (F.strays files.old) (F.strays files.new) }
{
    match command {
        None => Status::Usage,
        Some(Command::Merge { common, first }) => {
            merge_words(alloc, words, *common, *first, names, files, out)
        }
        Some(Command::Run { steps, file }) => {
            run_words(alloc, words, *steps, *file, names, files, input, out)
        }
        Some(Command::Sample { seed, units }) => {
            sample_words(alloc, words, *seed, *units, names, out)
        }
    }
}

// Makes a sample of so many units.
#[tactic(auto, using(crate::proofs::Counts::counted))]
fn sample_words<O: Sink>(
    alloc: Global,
    _words: &[String],
    seed: u32,
    units: u32,
    names: &mut NamePool,
    out: &mut O,
) -> Status
    requires command { command_of (map string_bytes _words.now) ≡ Some (Command.Sample seed units) }
    ensures kind { IsAnswerTo (map string_bytes _words.now) result }
    ensures usage { (result ≡ Status.Usage) ↔ (command_of (map string_bytes _words.now) ≡ None) }
    ensures names { (told : Option Told) → AreNames told (map string_bytes _words.now) result names.new }
    ensures files { HasFiles (length names.new) result }
    ensures sampled { SampledSays (map string_bytes _words.now) names.new result (O.taken out.old) (O.taken out.new) }
    ensures asked { sample_asked (map string_bytes _words.now) ≢ None }
    ensures no_unit { (told : Option Told) → unit_asked told (map string_bytes _words.now) ≡ None }
    ensures no_run { run_file (map string_bytes _words.now) ≡ None }
    ensures no_text { (told : Option Told) → text_asked told (map string_bytes _words.now) ≡ None }
    ensures no_file { files_of (map string_bytes _words.now) ≡ [] }
    ensures links { (told : Option Told) → LinksSay told (map string_bytes _words.now) names.new result (O.taken out.old) (O.taken out.new) }
    ensures no_read { result ≢ Status.ReadFault }
    ensures writes { CountsCalls Status.WriteFault result (O.faults out.old) (O.faults out.new) }
    ensures nothing_written { result ≢ Status.Done → result ≢ Status.WriteFault → out.new ≡ out.old }
{
    sample(alloc, seed, units, names, out)
}

// Merges the files from that position of the words on.
#[tactic(auto, using(crate::proofs::Words::merge_within))]
fn merge_words<F: Files, O: Sink>(
    alloc: Global,
    words: &[String],
    common: bool,
    first: u32,
    names: &mut NamePool,
    files: &mut F,
    out: &mut O,
) -> Status
    requires empty { names.old ≡ [] }
    requires command { command_of (map string_bytes words.now) ≡ Some (Command.Merge common first) }
    ensures kind { IsMergeAnswer (length (files_of (map string_bytes words.now))) result }
    ensures names { result ≢ Status.Memory → AreNames (F.told files.old) (map string_bytes words.now) result names.new }
    ensures files { HasFiles (length names.new) result }
    ensures written { WritesProgram (unit_asked (F.told files.old) (map string_bytes words.now)) result (O.taken out.old) (O.taken out.new) }
    ensures unit { AnswersUnit (unit_asked (F.told files.old) (map string_bytes words.now)) result (Rose (F.faults files.old) (F.faults files.new)) (Rose (O.faults out.old) (O.faults out.new)) }
    ensures units { IfSome (all_under (F.told files.old) (merged_files (map string_bytes words.now))) (λ units. SaysOfUnits units (merged_files (map string_bytes words.now)) names.new result) }
    ensures links { LinksSay (F.told files.old) (map string_bytes words.now) names.new result (O.taken out.old) (O.taken out.new) }
    ensures reads { CountsCalls Status.ReadFault result (F.faults files.old) (F.faults files.new) }
    ensures writes { CountsCalls Status.WriteFault result (O.faults out.old) (O.faults out.new) }
    ensures nothing_written { result ≢ Status.Done → result ≢ Status.WriteFault → out.new ≡ out.old }
    ensures leaves { LeavesFiles result (files_of (map string_bytes words.now)) (F.told files.old) (F.told files.new) (F.strays files.old) (F.strays files.new) }
{
    if words.len() == first as usize + 1 {
        merge_alone(alloc, words, common, first, names, files, out)
    } else {
        merge_several(alloc, words, common, first, names, files, out)
    }
}

// Merges the file at that position of the words, which is the last.
#[tactic(auto, using(crate::proofs::Words::merge_within))]
fn merge_alone<F: Files, O: Sink>(
    alloc: Global,
    words: &[String],
    _common: bool,
    first: u32,
    names: &mut NamePool,
    files: &mut F,
    out: &mut O,
) -> Status
    requires empty { names.old ≡ [] }
    requires command { command_of (map string_bytes words.now) ≡ Some (Command.Merge _common first) }
    requires last { first + 1 ≡ length words.now }
    ensures kind { IsMergeAnswer (length (files_of (map string_bytes words.now))) result }
    ensures names { result ≢ Status.Memory → AreNames (F.told files.old) (map string_bytes words.now) result names.new }
    ensures files { HasFiles (length names.new) result }
    ensures written { WritesProgram (unit_asked (F.told files.old) (map string_bytes words.now)) result (O.taken out.old) (O.taken out.new) }
    ensures unit { AnswersUnit (unit_asked (F.told files.old) (map string_bytes words.now)) result (Rose (F.faults files.old) (F.faults files.new)) (Rose (O.faults out.old) (O.faults out.new)) }
    ensures units { IfSome (all_under (F.told files.old) (merged_files (map string_bytes words.now))) (λ units. SaysOfUnits units (merged_files (map string_bytes words.now)) names.new result) }
    ensures links { LinksSay (F.told files.old) (map string_bytes words.now) names.new result (O.taken out.old) (O.taken out.new) }
    ensures reads { CountsCalls Status.ReadFault result (F.faults files.old) (F.faults files.new) }
    ensures writes { CountsCalls Status.WriteFault result (O.faults out.old) (O.faults out.new) }
    ensures nothing_written { result ≢ Status.Done → result ≢ Status.WriteFault → out.new ≡ out.old }
    ensures leaves { LeavesFiles result (files_of (map string_bytes words.now)) (F.told files.old) (F.told files.new) (F.strays files.old) (F.strays files.new) }
{
    merge(alloc, words[first as usize].as_str(), names, files, out)
}

// Merges the files from that position of the words on, which are several.
#[tactic(auto, using(crate::proofs::Words::merge_within, crate::proofs::Words::merge_files_are))]
fn merge_several<F: Files, O: Sink>(
    alloc: Global,
    words: &[String],
    common: bool,
    first: u32,
    names: &mut NamePool,
    files: &mut F,
    out: &mut O,
) -> Status
    requires empty { names.old ≡ [] }
    requires command { command_of (map string_bytes words.now) ≡ Some (Command.Merge common first) }
    requires several { first + 1 ≢ length words.now }
    ensures kind { IsMergeAnswer (length (files_of (map string_bytes words.now))) result }
    ensures names { result ≢ Status.Memory → AreNames (F.told files.old) (map string_bytes words.now) result names.new }
    ensures files { HasFiles (length names.new) result }
    ensures written { WritesProgram (unit_asked (F.told files.old) (map string_bytes words.now)) result (O.taken out.old) (O.taken out.new) }
    ensures unit { AnswersUnit (unit_asked (F.told files.old) (map string_bytes words.now)) result (Rose (F.faults files.old) (F.faults files.new)) (Rose (O.faults out.old) (O.faults out.new)) }
    ensures units { IfSome (all_under (F.told files.old) (merged_files (map string_bytes words.now))) (λ units. SaysOfUnits units (merged_files (map string_bytes words.now)) names.new result) }
    ensures links { LinksSay (F.told files.old) (map string_bytes words.now) names.new result (O.taken out.old) (O.taken out.new) }
    ensures reads { CountsCalls Status.ReadFault result (F.faults files.old) (F.faults files.new) }
    ensures writes { CountsCalls Status.WriteFault result (O.faults out.old) (O.faults out.new) }
    ensures nothing_written { result ≢ Status.Done → result ≢ Status.WriteFault → out.new ≡ out.old }
    ensures leaves { LeavesFiles result (files_of (map string_bytes words.now)) (F.told files.old) (F.told files.new) (F.strays files.old) (F.strays files.new) }
{
    merge_all(alloc, &words[first as usize..], common, names, files, out)
}

// Runs the text of the file at that position of the words, with the words from there on.
#[tactic(auto, using(crate::proofs::Words::run_within, crate::proofs::Words::run_file_is))]
fn run_words<F: Files, I: Source, O: Sink>(
    alloc: Global,
    words: &[String],
    steps: u64,
    file: u32,
    names: &mut NamePool,
    files: &mut F,
    input: &mut I,
    out: &mut O,
) -> Status
    requires empty { names.old ≡ [] }
    requires command { command_of (map string_bytes words.now) ≡ Some (Command.Run steps file) }
    ensures kind { IsRunAnswer result }
    ensures names { result ≢ Status.Memory → AreNames (F.told files.old) (map string_bytes words.now) result names.new }
    ensures files { HasFiles (length names.new) result }
    ensures named { IsSome (run_file (map string_bytes words.now)) }
    ensures no_unit { unit_asked (F.told files.old) (map string_bytes words.now) ≡ None }
    ensures units { IfSome (all_under (F.told files.old) (merged_files (map string_bytes words.now))) (λ units. SaysOfUnits units (merged_files (map string_bytes words.now)) names.new result) }
    ensures links { LinksSay (F.told files.old) (map string_bytes words.now) names.new result (O.taken out.old) (O.taken out.new) }
    ensures ran { IfSome (run_file (map string_bytes words.now)) (λ name. RunSays ((input.new ≡ input.old) × (out.new ≡ out.old)) (Rose (F.faults files.old) (F.faults files.new)) ((F.faults files.new ≡ F.faults files.old) × Rose (I.faults input.old) (I.faults input.new)) (bytes_under (F.told files.old) name) (words_given (map string_bytes words.now)) (steps_asked (map string_bytes words.now)) result (I.left input.old) (I.left input.new) (O.taken out.old) (O.taken out.new)) }
    ensures read { result ≡ Status.ReadFault → Rose (F.faults files.old) (F.faults files.new) ⊎ (IsSome (run_file (map string_bytes words.now)) × Rose (I.faults input.old) (I.faults input.new)) }
    ensures read_told { result ≢ Status.ReadFault → F.faults files.new ≡ F.faults files.old }
    ensures input_told { result ≢ Status.ReadFault → I.faults input.new ≡ I.faults input.old }
    ensures writes { CountsCalls Status.WriteFault result (O.faults out.old) (O.faults out.new) }
    ensures files_later { F.faults files.old ≤ F.faults files.new }
    ensures input_later { I.faults input.old ≤ I.faults input.new }
    ensures leaves { LeavesFiles result (files_of (map string_bytes words.now)) (F.told files.old) (F.told files.new) (F.strays files.old) (F.strays files.new) }
{
    let args = &words[file as usize..];
    execute(
        alloc,
        words[file as usize].as_str(),
        args,
        steps,
        names,
        files,
        input,
        out,
    )
}
