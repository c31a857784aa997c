ghost use Rattle.std.specs.Prelude.{◌≡◌, ◌≢◌, ◌≤◌, ◌<◌, ℕ, false, None, length, IfOk};
ghost use Rattle.c_lexer.specs.Lexed.{IfRefused};
ghost use Rattle.outside.specs.Counts.{Rose};
ghost use Rattle.cil_tree.specs.View.{program_of};
ghost use Rattle.cil_tree.specs.Programs.{IsProgram};
ghost use Rattle.merge_refusals.specs.Refusals.{IsMergeRefusal, PrintedIfLong};
ghost use Rattle.unit_merger.specs.Units.{IsRefusedAmong};
ghost use Rattle.unit_merger.specs.Linking.{SaysOfLinks};
ghost use Rattle.sample_units.specs.Units.{unit_texts, file_names};
ghost use Rattle.cil_lines.specs.Messages.{HasFiles};
ghost use Rattle.sample_command.specs.Answers.{IsOfSample, SampleSays};

use cil_base::{NamePool, Stop};
use cil_lines::{Status, send};
use cil_tree::CilUnit;
use outside::Sink;
use sample_summary::{SampleStop, summary};
use sample_units::{unit_files, unit_sources};
use std::alloc::Global;
use unit_merger::units_program;

/// The program of a sample.
fn program(alloc: Global, seed: u32, units: u32, names: &mut NamePool) -> Result<CilUnit, Stop>
    ensures program { IfOk result (IsOfSample seed units names.new) }
    ensures refused { IfRefused result (IsMergeRefusal units (length names.new)) }
    ensures printed { IfRefused result PrintedIfLong }
    ensures among { IfRefused result (IsRefusedAmong (unit_texts seed units) None (file_names units) names.new) }
    ensures links { SaysOfLinks false (unit_texts seed units) (file_names units) names.new result }
{
    let sources = unit_sources(alloc, seed, units)?;
    let files = unit_files(alloc, units)?;
    units_program(alloc, &sources, &files, names)
}

/// Writes the summary of a program, or tells why it has none.
fn tell<O: Sink>(
    alloc: Global,
    program: &CilUnit,
    names: &NamePool,
    units: u32,
    out: &mut O,
) -> Status
    requires formed { IsProgram (program_of names.now program.now) }
    ensures says { (seed : ℕ) → IsOfSample seed units names.now program.now → SampleSays seed units names.now result (O.taken out.old) (O.taken out.new) }
    ensures files { HasFiles (length names.now) result }
    ensures idle { result ≢ Status.Done → result ≢ Status.WriteFault → out.new ≡ out.old }
    ensures write { result ≡ Status.WriteFault → Rose (O.faults out.old) (O.faults out.new) }
    ensures calm_out { result ≢ Status.WriteFault → O.faults out.new ≡ O.faults out.old }
    ensures later_out { O.faults out.old ≤ O.faults out.new }
{
    match summary(alloc, program, names, units) {
        Ok(lines) => send(out, lines.as_slice()),
        Err(SampleStop::StillRunning) => Status::StillRunning,
        Err(SampleStop::Undefined) => Status::WentUndefined,
        Err(SampleStop::Memory) => Status::Memory,
    }
}

/// Makes so many translation units from the seed, merges them, runs their program with a bound of 10,000,000 steps and no input, and
/// writes five lines: the numbers of units, of types and of bytes of output, the exit status, and the least bound at which the program
/// exits. Of the rest of the output nothing is seen. The files of places in the answer are numbers in `names`. Own.
pub fn sample<O: Sink>(
    alloc: Global,
    seed: u32,
    units: u32,
    names: &mut NamePool,
    out: &mut O,
) -> Status
    ensures says { SampleSays seed units names.new result (O.taken out.old) (O.taken out.new) }
    ensures files { HasFiles (length names.new) result }
    ensures idle { result ≢ Status.Done → result ≢ Status.WriteFault → out.new ≡ out.old }
    ensures write { result ≡ Status.WriteFault → Rose (O.faults out.old) (O.faults out.new) }
    ensures calm_out { result ≢ Status.WriteFault → O.faults out.new ≡ O.faults out.old }
    ensures later_out { O.faults out.old ≤ O.faults out.new }
{
    match program(alloc, seed, units, names) {
        Ok(program) => tell(alloc, &program, names, units, out),
        Err(Stop::Refused(refusal)) => Status::Refused(refusal),
        Err(Stop::Memory) => Status::Memory,
    }
}
