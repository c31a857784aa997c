ghost use Rattle.std.specs.Prelude.{◌≡◌, Some, IfOk, All, map};
ghost use Rattle.cil_base.specs.declared.kinds.Mode.{Mode};
ghost use Rattle.cil_tree.specs.View.{program_of};
ghost use Rattle.cil_semantics.specs.Units.{IsUnit};
ghost use Rattle.cil_semantics.specs.Runs.{RunCil};
ghost use Rattle.cil_semantics.specs.Modes.{HaveModel, LinksApart, HaveOneModel};
ghost use Rattle.cil_runner.specs.Beginning.{outcome_by};

use crate::machine::Machine;
use cil_base::{Bytes, Env, Memory, NamePool, Outcome};
use cil_tree::CilUnit;
use cil_turns::RunEnd;
use outside::{MemSink, MemSource};
use std::alloc::Global;

/// The outcome that an answer tells, with these bytes as its output. A run that was cut off tells none.
fn outcome(end: RunEnd, text: Bytes) -> Result<Outcome, Memory>
    ensures { IfOk result (λ o. outcome_by end text ≡ Some o) }
{
    match end {
        RunEnd::Exited(status) => Ok(Outcome::Exit(status, text)),
        RunEnd::StillRunning => Ok(Outcome::Running(text)),
        RunEnd::Undefined => Ok(Outcome::Undefined(text)),
        RunEnd::ReadFault | RunEnd::WriteFault | RunEnd::Memory => Err(Memory),
    }
}

/// The outcome of the run of programs, which are linked, in an environment and within so many units (C11 5.1.1.2p1
/// phase 8, 5.1.2.2.1; own: units). Each is well-formed but for its names, missing tags and the order of its aggregates,
/// and each of its globals has a name; all have one data model. In each mode of that in which they have no definitions in
/// common (C11 J.5.11) the outcome is the same (own). `names` are the texts of the names of all of them.
///
/// Memory comes for want of memory, and where a number would not fit.
pub fn run_cil(
    alloc: Global,
    units: &[CilUnit],
    names: &NamePool,
    env: &Env,
    n: u64,
) -> Result<Outcome, Memory>
    requires units { All (λ u. IsUnit (program_of names.now u)) units.now }
    requires model { HaveOneModel (map (program_of names.now) units.now) }
    ensures { (mode : Mode) → HaveModel mode.abi (map (program_of names.now) units.now) → LinksApart mode (map (program_of names.now) units.now) → IfOk result (λ o. o ≡ RunCil (map (program_of names.now) units.now) mode env.now.args.items env.now.input n) }
{
    let mut machine = Machine::link(alloc, units, names, env.args.as_slice())?;
    let bytes = env.input.as_slice().to_vec(alloc)?;
    let mut input = MemSource::new(bytes, 4096, Vec::new(alloc));
    let mut out = MemSink::new(alloc, 4096, 0, Vec::new(alloc))?;
    let end = machine.run(n, &mut input, &mut out);
    let text = out.taken().to_vec(alloc)?;
    outcome(end, Bytes::new(text))
}
