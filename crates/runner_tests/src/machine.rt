ghost use Rattle.std.specs.Prelude.{IfOk};
ghost use Rattle.cil_runner.specs.Beginning.{IsFresh};

use cil_base::{Abi, NamePool};
use cil_reader::read;
use cil_runner::Machine;
use std::alloc::{AllocError, Global};
use std::test::Fail;

/// The words of a program that is named `p`.
fn one_word(alloc: Global) -> Result<Vec<String>, AllocError> {
    let mut words = Vec::new(alloc);
    words.push(String::from_str(alloc, "p")?)?;
    Ok(words)
}

/// The machine of a text, before it runs.
pub(crate) fn machine_of(alloc: Global, text: &str) -> Result<Machine, Fail>
    ensures { IfOk result IsFresh }
{
    let words = one_word(alloc)?;
    let mut names = NamePool::new(alloc);
    let unit = read(alloc, text.as_bytes(), &mut names, Abi::Lp64)?;
    Ok(Machine::load(alloc, &unit, &names, &words)?)
}
