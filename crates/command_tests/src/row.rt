//! The top call over files and streams in memory, where calls fail.

use cil_commands::cil;
use outside::{MemFiles, MemSink, MemSource};
use std::alloc::Global;
use std::process::Abort;
use std::test::Fail;

/// A command: its words, the files that there are, standard input, which gives a byte a call, and how many bytes standard output
/// takes in a call. Standard error takes five.
#[derive(Clone, Copy)]
pub(crate) struct Command {
    pub(crate) words: &'static [&'static str],
    pub(crate) files: &'static [(&'static str, &'static [u8])],
    pub(crate) given: &'static [u8],
    pub(crate) piece: usize,
}

/// The numbers of the calls that fail on files, standard input, standard output and standard error, and what is answered: the
/// exit status, how many bytes of a text are written, or the whole of it, and what is told.
#[derive(Clone, Copy, Debug)]
pub(crate) struct Row<'a> {
    pub(crate) files: &'a [u64],
    pub(crate) input: &'a [u64],
    pub(crate) out: &'a [u64],
    pub(crate) err: &'a [u64],
    pub(crate) status: u8,
    pub(crate) written: usize,
    pub(crate) told: &'a str,
}

/// No call fails, and the text is written.
pub(crate) const CALM: Row<'static> = Row {
    files: &[],
    input: &[],
    out: &[],
    err: &[],
    status: 0,
    written: usize::MAX,
    told: "",
};

fn owned(alloc: Global, words: &[&str]) -> Result<Vec<String>, Fail> {
    let mut owned = Vec::new(alloc);
    for word in words {
        owned.push(String::from_str(alloc, word)?)?;
    }
    Ok(owned)
}

fn files_of(alloc: Global, files: &[(&str, &[u8])]) -> Result<Vec<(String, Vec<u8>)>, Fail> {
    let mut there = Vec::new(alloc);
    for (name, bytes) in files {
        let bytes = Vec::from_slice(alloc, bytes)?;
        there.push((String::from_str(alloc, name)?, bytes))?;
    }
    Ok(there)
}

/// The files that there are, and standard input.
fn sources(alloc: Global, command: &Command, row: &Row<'_>) -> Result<(MemFiles, MemSource), Fail> {
    let fails = Vec::from_slice(alloc, row.files)?;
    let files = MemFiles::new(files_of(alloc, command.files)?, fails);
    let fails = Vec::from_slice(alloc, row.input)?;
    let given = Vec::from_slice(alloc, command.given)?;
    Ok((files, MemSource::new(given, 1, fails)))
}

fn sink(alloc: Global, piece: usize, fails: &[u64]) -> Result<MemSink, Fail> {
    let fails = Vec::from_slice(alloc, fails)?;
    Ok(MemSink::new(alloc, piece.max(1), 4096, fails)?)
}

/// Standard output and standard error.
fn sinks(alloc: Global, command: &Command, row: &Row<'_>) -> Result<(MemSink, MemSink), Fail> {
    let out = sink(alloc, command.piece, row.out)?;
    Ok((out, sink(alloc, 5, row.err)?))
}

/// Runs a command over its files and streams.
fn status_of(
    alloc: Global,
    command: &Command,
    row: &Row<'_>,
    out: &mut MemSink,
    err: &mut MemSink,
) -> Result<u8, Fail> {
    let words = owned(alloc, command.words)?;
    let (mut files, mut input) = sources(alloc, command, row)?;
    Ok(cil(alloc, &words, &mut files, &mut input, out, err).code())
}

/// Whether a command answers as the row says, of this text.
fn is_answered(alloc: Global, command: &Command, text: &[u8], row: &Row<'_>) -> Result<bool, Fail> {
    let (mut out, mut err) = sinks(alloc, command, row)?;
    let status = status_of(alloc, command, row, &mut out, &mut err)?;
    let written = text.get(..row.written.min(text.len()));
    let told = row.told.as_bytes();
    Ok(status == row.status && written == Some(out.taken()) && err.taken() == told)
}

/// A command answers as the rows say, of this text.
pub(crate) fn rows_hold(
    rt: &impl Abort,
    alloc: Global,
    command: &Command,
    text: &[u8],
    rows: &[Row<'_>],
) -> Result<(), Fail> {
    for row in rows {
        let holds = is_answered(alloc, command, text, row)?;
        assert!(rt; holds, "{row:?}");
    }
    Ok(())
}

/// What a command writes where no call fails.
pub(crate) fn text_of(alloc: Global, command: &Command) -> Result<Vec<u8>, Fail> {
    let (mut out, mut err) = sinks(alloc, command, &CALM)?;
    status_of(alloc, command, &CALM, &mut out, &mut err)?;
    Ok(Vec::from_slice(alloc, out.taken())?)
}
