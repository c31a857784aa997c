ghost use Rattle.std.specs.Prelude.{◌≡◌, ℕ, List, [], ◌∷◌, Option, Some, length, map, IfOk, MatchResult};
ghost use Rattle.std.specs.String.{string_bytes};
ghost use Rattle.cil_tree.specs.Tree.{Program};
ghost use Rattle.cil_tree.specs.View.{program_of};
ghost use Rattle.cil_tree.specs.Programs.{IsProgram};
ghost use Rattle.cil_semantics.specs.Modes.{mode_of};
ghost use Rattle.cil_runner.specs.Machine.{RunsAs};
ghost use Rattle.sample_summary.specs.Summary.{ExitsSo, StopsSo, sample_words as the_words};
ghost use Rattle.cil_base.specs.Limits.{run_steps};

use crate::stop::SampleStop;
use cil_base::{NamePool, RUN_STEPS};
use cil_runner::{Machine, RunEnd};
use cil_tree::CilUnit;
use outside::{MemSink, MemSource};
use std::alloc::{AllocError, Global};

/// The most bytes that a read or a write moves.
const PIECE: usize = 4096;

/// The bytes of output for which there is room from the start.
const ROOM: usize = 65_536;

/// How a run exited.
#[derive(Clone, Copy)]
pub(crate) struct RunExit {
    /// The bytes of output.
    pub(crate) output: usize,
    pub(crate) status: u8,
    /// The least bound on steps at which the run exits.
    pub(crate) steps: u64,
}

/// The words that the program is run with.
fn sample_words(alloc: Global) -> Result<Vec<String>, AllocError>
    ensures { IfOk result (λ words. map string_bytes words.items ≡ the_words) }
{
    let mut words = Vec::new(alloc);
    words.push(String::from_str(alloc, "sample")?)?;
    Ok(words)
}

/// The exit that an answer of the machine tells.

fn exit_of(end: RunEnd, output: usize, steps: u64) -> Result<RunExit, SampleStop>
    ensures { (p : Program) (left : Option (List ℕ)) (taken : List ℕ) → RunsAs end (p ∷ []) (mode_of p) the_words run_steps steps (Some []) left (Some []) (Some taken) → output ≡ length taken
        → MatchResult result (λ e. ExitsSo p e.output e.status e.steps) (StopsSo p) }
{
    match end {
        RunEnd::Exited(status) => Ok(RunExit {
            output,
            status,
            steps,
        }),
        RunEnd::StillRunning => Err(SampleStop::StillRunning),
        RunEnd::Undefined => Err(SampleStop::Undefined),
        RunEnd::ReadFault | RunEnd::WriteFault | RunEnd::Memory => Err(SampleStop::Memory),
    }
}

/// Runs a well-formed program without input, and keeps its output in memory.
pub(crate) fn program_run(
    alloc: Global,
    program: &CilUnit,
    names: &NamePool,
) -> Result<RunExit, SampleStop>
    requires { IsProgram (program_of names.now program.now) }
    ensures { MatchResult result (λ e. ExitsSo (program_of names.now program.now) e.output e.status e.steps) (StopsSo (program_of names.now program.now)) }
{
    let words = sample_words(alloc)?;
    let mut machine = Machine::load(alloc, program, names, &words)?;
    let mut input = MemSource::new(Vec::new(alloc), PIECE, Vec::new(alloc));
    let mut out = MemSink::new(alloc, PIECE, ROOM, Vec::new(alloc))?;
    let end = machine.run(RUN_STEPS, &mut input, &mut out);
    exit_of(end, out.taken().len(), machine.used())
}
