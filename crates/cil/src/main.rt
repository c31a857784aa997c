//! The program `cil`: it merges C translation units into a CIL program, runs CIL programs, and makes samples.
//!
//! The contract of the function `cil` of `cil_commands` says what each command answers; `main` only hands it the real files and streams.
//!
//! The commands and their messages are the product's own.
#![tactic(auto)]

use cil_base::NamePool;
use cil_commands::{Status, cil};
use cil_lines::report;
use outside::{HostFiles, StdSink, StdSource};
use std::process::ExitCode;
use std::{env, io};

fn main(rt: HostRuntime) -> ExitCode {
    ExitCode::from(run(&rt).code())
}

// Runs the command that the words of the process are. Words that are no text are no command, as no words are none.
fn run(rt: &HostRuntime) -> Status {
    let mut files = HostFiles::new(rt);
    let mut input = StdSource::new(rt.stdin());
    let mut out = StdSink::new(rt.stdout());
    let mut err = StdSink::new(rt.stderr());
    match words_of(rt) {
        Ok(words) => cil(
            rt.alloc(),
            &words,
            &mut files,
            &mut input,
            &mut out,
            &mut err,
        ),
        Err(error) => {
            if error.kind() == io::ErrorKind::OutOfMemory {
                report(&mut err, &NamePool::new(rt.alloc()), 0, &Status::Memory);
                return Status::Memory;
            }
            cil(rt.alloc(), &[], &mut files, &mut input, &mut out, &mut err)
        }
    }
}

// The words behind the program's name. The error is `OutOfMemory`, or it tells of a word that is no text.
fn words_of(rt: &HostRuntime) -> io::Result<Vec<String>> {
    let mut words = Vec::new(rt.alloc());
    for word in env::args(rt)?.skip(1) {
        words.push(word)?;
    }
    Ok(words)
}
