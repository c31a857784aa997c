ghost use Rattle.std.specs.Prelude.{◌≡◌, ◌++◌, OnOk, IfOk, MatchResult};
ghost use Rattle.cil_tree.specs.View.{program_of};
ghost use Rattle.cil_tree.specs.Programs.{IsProgram};
ghost use Rattle.sample_summary.specs.Summary.{line, summary as the_summary, IsSummary, StopsSo};

use crate::running::{RunExit, program_run};
use crate::stop::SampleStop;
use cil_base::{Bytes, NamePool};
use cil_tree::CilUnit;
use itoa::Buffer;
use std::alloc::{AllocError, Global};

/// Puts a line that tells a figure behind a text.
#[tactic(auto, using(crate::proofs::Behind::three_behind))]
fn push_line(out: &mut Vec<u8>, words: &[u8], n: u64) -> Result<(), AllocError>
    ensures { OnOk result (out.new.items ≡ out.old.items ++ line words.now n) }
{
    let mut buffer = Buffer::new();
    out.extend_from_slice(words)?;
    out.extend_from_slice(buffer.format(n).as_bytes())?;
    out.push(b'\n')?;
    Ok(())
}

/// The lines that tell a run of a program of so many units and types.
fn lines_of(alloc: Global, units: u32, types: u32, run: &RunExit) -> Result<Vec<u8>, AllocError>
    ensures { IfOk result (λ v. v.items ≡ the_summary units types run.now.output run.now.status run.now.steps) }
{
    let mut lines = Vec::new(alloc);
    push_line(&mut lines, b"units ", u64::from(units))?;
    push_line(&mut lines, b"types ", u64::from(types))?;
    push_line(&mut lines, b"output ", run.output as u64)?;
    push_line(&mut lines, b"status ", u64::from(run.status))?;
    push_line(&mut lines, b"steps ", run.steps)?;
    Ok(lines)
}

/// The summary of a well-formed program that is made of so many translation units, which is run for it within 10,000,000 steps; or why
/// there is none. `names` are the texts of the program's names. Own.
pub fn summary(
    alloc: Global,
    program: &CilUnit,
    names: &NamePool,
    units: u32,
) -> Result<Bytes, SampleStop>
    requires { IsProgram (program_of names.now program.now) }
    ensures { MatchResult result (IsSummary units (program_of names.now program.now)) (StopsSo (program_of names.now program.now)) }
{
    let run = program_run(alloc, program, names)?;
    let lines = lines_of(alloc, units, program.graph.agg_count(), &run)?;
    Ok(Bytes::new(lines))
}
