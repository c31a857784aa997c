ghost use Rattle.std.specs.Prelude.{◌≡◌, ◌≢◌, ◌≤◌, ◌⊎◌, None, Some, [], ◌∷◌, map, IfSome};
ghost use Rattle.std.specs.String.{string_bytes};
ghost use Rattle.cil_tree.specs.View.{program_of};
ghost use Rattle.cil_tree.specs.Programs.{IsProgram};
ghost use Rattle.outside.specs.Counts.{Rose};
ghost use Rattle.outside.specs.Named.{find_file, names_of};
ghost use Rattle.cil_sources.specs.Files.{bytes_under};
ghost use Rattle.cil_commands.specs.Execute.{RanAs, RunSays};
ghost use Rattle.cil_commands.specs.RunEnds.{status_by};
ghost use Rattle.cil_commands.specs.Calls.{CountsCalls};

use cil_base::{Abi, NamePool, TEXT_BYTES};
use cil_lines::Status;
use cil_reader::{ReadStop as TextStop, read};
use cil_runner::{Machine, RunEnd};
use cil_sources::read_file;
use cil_tree::CilUnit;
use outside::{Files, ReadStop, Sink, Source};
use std::alloc::Global;

// One byte more than a CIL text may have: so many bytes show that a file is too large.
const READ_LIMIT: usize = TEXT_BYTES + 1;

// The status that tells how a run ended.
fn status_of(end: RunEnd) -> Status
    ensures { result ≡ status_by end }
{
    match end {
        RunEnd::Exited(status) => Status::Exited(status),
        RunEnd::StillRunning => Status::StillRunning,
        RunEnd::Undefined => Status::WentUndefined,
        RunEnd::ReadFault => Status::ReadFault,
        RunEnd::WriteFault => Status::WriteFault,
        RunEnd::Memory => Status::Memory,
    }
}

// Runs a loaded program, which is a well-formed one, and answers how that ended.
#[tactic(auto, using(crate::proofs::Counts::counted))]
fn run_program<I: Source, O: Sink>(
    alloc: Global,
    unit: &CilUnit,
    names: &NamePool,
    words: &[String],
    steps: u64,
    input: &mut I,
    out: &mut O,
) -> Status
    requires { IsProgram (program_of names.now unit.now) }
    ensures ran { RanAs (program_of names.now unit.now) (map string_bytes words.now) steps result (I.left input.old) (I.left input.new) (O.taken out.old) (O.taken out.new) }
    ensures reads { CountsCalls Status.ReadFault result (I.faults input.old) (I.faults input.new) }
    ensures writes { CountsCalls Status.WriteFault result (O.faults out.old) (O.faults out.new) }
{
    let Ok(machine) = Machine::load(alloc, unit, names, words) else {
        return Status::Memory;
    };
    let mut machine = machine;
    status_of(machine.run(steps, input, out))
}

// Runs the program of LP64 whose text the bytes are, with its argument words.
#[tactic(auto, using(crate::proofs::Counts::counted))]
fn run_text<I: Source, O: Sink>(
    alloc: Global,
    bytes: &[u8],
    words: &[String],
    steps: u64,
    input: &mut I,
    out: &mut O,
) -> Status
    ensures says { RunSays ((input.new ≡ input.old) × (out.new ≡ out.old)) ⊥ (Rose (I.faults input.old) (I.faults input.new)) (Some bytes.now) (map string_bytes words.now) steps result (I.left input.old) (I.left input.new) (O.taken out.old) (O.taken out.new) }
    ensures calm { result ≢ Status.ReadFault → I.faults input.new ≡ I.faults input.old }
    ensures later { I.faults input.old ≤ I.faults input.new }
    ensures writes { CountsCalls Status.WriteFault result (O.faults out.old) (O.faults out.new) }
{
    if bytes.len() > TEXT_BYTES {
        return Status::NotCil(TEXT_BYTES);
    }
    let mut names = NamePool::new(alloc);
    match read(alloc, bytes, &mut names, Abi::Lp64) {
        Ok(unit) => run_program(alloc, &unit, &names, words, steps, input, out),
        Err(TextStop::NotCil(byte)) => Status::NotCil(byte),
        Err(TextStop::Memory) => Status::Memory,
    }
}

/// Runs the text of the file of that name, which becomes the first name of the pool, with its argument words
/// and so many steps. Own.
#[tactic(auto, using(crate::proofs::Counts::counted))]
pub fn execute<F: Files, I: Source, O: Sink>(
    alloc: Global,
    name: &str,
    words: &[String],
    steps: u64,
    names: &mut NamePool,
    files: &mut F,
    input: &mut I,
    out: &mut O,
) -> Status
    requires { names.old ≡ [] }
    ensures names { result ≢ Status.Memory → names.new ≡ name.now ∷ [] }
    ensures says { RunSays ((input.new ≡ input.old) × (out.new ≡ out.old)) (Rose (F.faults files.old) (F.faults files.new)) ((F.faults files.new ≡ F.faults files.old) × Rose (I.faults input.old) (I.faults input.new)) (bytes_under (F.told files.old) name.now) (map string_bytes words.now) steps result (I.left input.old) (I.left input.new) (O.taken out.old) (O.taken out.new) }
    ensures calm { result ≢ Status.ReadFault → F.faults files.new ≡ F.faults files.old }
    ensures calm_input { result ≢ Status.ReadFault → I.faults input.new ≡ I.faults input.old }
    ensures missing { IfSome (F.told files.old) (λ t. find_file name.now t.names ≡ None → (result ≡ Status.ReadFault) ⊎ (result ≡ Status.Memory)) }
    ensures writes { CountsCalls Status.WriteFault result (O.faults out.old) (O.faults out.new) }
    ensures later { F.faults files.old ≤ F.faults files.new }
    ensures later_input { I.faults input.old ≤ I.faults input.new }
    ensures names_stay { names_of (F.told files.new) ≡ names_of (F.told files.old) }
    ensures strays { IfSome (bytes_under (F.told files.old) name.now) (λ _. F.strays files.new ≡ F.strays files.old) }
{
    if names.intern(name.as_bytes()).is_err() {
        return Status::Memory;
    }
    match read_file(alloc, name, READ_LIMIT, files) {
        Ok(bytes) => run_text(alloc, &bytes, words, steps, input, out),
        Err(ReadStop::Failed) => Status::ReadFault,
        Err(ReadStop::Memory) => Status::Memory,
    }
}
