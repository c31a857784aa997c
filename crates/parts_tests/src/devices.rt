//! Files, sources and sinks: which call fails, and what it answers.

use crate::equal::equal;
use cil_base::Memory;
use outside::{
    Failed, Files, HostFiles, MemFiles, MemSink, MemSource, ReadStop, Sink, Source, StdSink,
    StdSource, read_all, write_all,
};
use std::alloc::{AllocError, Global};
use std::fs::File;
use std::io::Write;
use std::process::Abort;
use std::test::Fail;
use std::{fs, io, process};

// Adds a file of that name with these bytes.
fn add_file(
    files: &mut Vec<(String, Vec<u8>)>,
    alloc: Global,
    name: &str,
    bytes: &str,
) -> Result<(), AllocError> {
    let name = String::from_str(alloc, name)?;
    let bytes = bytes.as_bytes().to_vec(alloc)?;
    files.push((name, bytes))?;
    Ok(())
}

fn named_files(
    alloc: Global,
    names: &[(&str, &str)],
) -> Result<Vec<(String, Vec<u8>)>, AllocError> {
    let mut files = Vec::new(alloc);
    for (name, bytes) in names {
        add_file(&mut files, alloc, name, bytes)?;
    }
    Ok(files)
}

// The files a.c, b.c and once more a.c, of which these calls fail.
fn three_files(alloc: Global, fails: &[u64]) -> Result<MemFiles, AllocError> {
    let fails = fails.to_vec(alloc)?;
    let files = named_files(alloc, &[("a.c", "abc"), ("b.c", ""), ("a.c", "second")])?;
    Ok(MemFiles::new(files, fails))
}

// What a call answers: how many bytes, or F for `Failed`.
fn push_answer(answers: &mut String, answer: Result<usize, Failed>) -> Result<(), AllocError> {
    match answer {
        Ok(n) => write!(answers, "{n}"),
        Err(Failed) => answers.push('F'),
    }
}

// What `open_file` answers: 0, or that it failed.
fn opened<F: Files>(files: &mut F, name: &str) -> Result<usize, Failed> {
    match files.open_file(name) {
        Ok(()) => Ok(0),
        Err(Failed) => Err(Failed),
    }
}

// What a read of at most eight bytes answers.
fn read_eight<F: Files>(files: &mut F) -> Result<usize, Failed> {
    files.read(&mut [0; 8])
}

// What `open_file` of a.c and three reads of at most two bytes answer.
fn add_answers_of_files(files: &mut MemFiles, answers: &mut String) -> Result<(), AllocError> {
    push_answer(answers, opened(files, "a.c"))?;
    for _ in 0..3 {
        push_answer(answers, files.read(&mut [0; 2]))?;
    }
    Ok(())
}

// What five reads of at most four bytes answer.
fn add_answers_of_source(source: &mut MemSource, answers: &mut String) -> Result<(), AllocError> {
    for _ in 0..5 {
        push_answer(answers, source.read(&mut [0; 4]))?;
    }
    Ok(())
}

// The answers of the three files, of which that call fails.
fn answers_of_files(alloc: Global, fail: u64) -> Result<String, AllocError> {
    let mut answers = String::new(alloc);
    let mut files = three_files(alloc, &[fail])?;
    add_answers_of_files(&mut files, &mut answers)?;
    Ok(answers)
}

#[test]
fn files_fail_where_their_call_is_listed(rt: HostRuntime) -> Result<(), Fail> {
    let rows = [
        (0, "F000"),
        (1, "0F21"),
        (2, "02F1"),
        (3, "021F"),
        (4, "0210"),
    ];
    for (fail, wanted) in rows {
        let answers = answers_of_files(rt.alloc(), fail)?;
        equal(&rt, &fail, &answers.as_str(), &wanted);
    }
    Ok(())
}

// Five bytes of which a call gives two at most, and of which that call fails.
fn five_bytes(alloc: Global, fail: u64) -> Result<MemSource, AllocError> {
    let fails = vec![in alloc; fail]?;
    let bytes = b"abcde".to_vec(alloc)?;
    Ok(MemSource::new(bytes, 2, fails))
}

fn answers_of_source(alloc: Global, fail: u64) -> Result<String, AllocError> {
    let mut answers = String::new(alloc);
    let mut source = five_bytes(alloc, fail)?;
    add_answers_of_source(&mut source, &mut answers)?;
    Ok(answers)
}

#[test]
fn a_source_fails_where_its_call_is_listed(rt: HostRuntime) -> Result<(), Fail> {
    let rows = [
        (0, "F2210"),
        (1, "2F210"),
        (2, "22F10"),
        (3, "221F0"),
        (4, "2210F"),
    ];
    for (fail, wanted) in rows {
        let answers = answers_of_source(rt.alloc(), fail)?;
        equal(&rt, &fail, &answers.as_str(), &wanted);
    }
    Ok(())
}

// Nothing is open, then a.c, then none, then b.c.
fn nothing_is_left(rt: &impl Abort, files: &mut MemFiles) {
    let found = [
        read_eight(files),
        opened(files, "a.c"),
        opened(files, "c.c"),
        read_eight(files),
        opened(files, "b.c"),
        read_eight(files),
    ];
    equal(
        rt,
        &"answers",
        &found,
        &[Ok(0), Ok(0), Err(Failed), Ok(0), Ok(0), Ok(0)],
    );
}

#[test]
fn a_name_that_is_not_there_leaves_nothing(rt: HostRuntime) -> Result<(), Fail> {
    let mut files = three_files(rt.alloc(), &[])?;
    nothing_is_left(&rt, &mut files);
    Ok(())
}

// How many bytes a sink has room for, the number of its call that fails, what it answers to abcde, and what it took.
struct SinkRow {
    room: usize,
    fail: u64,
    answer: Result<(), Failed>,
    taken: &'static str,
}

const SINKS: [SinkRow; 6] = [
    SinkRow {
        room: 8,
        fail: 0,
        answer: Err(Failed),
        taken: "",
    },
    SinkRow {
        room: 8,
        fail: 1,
        answer: Err(Failed),
        taken: "ab",
    },
    SinkRow {
        room: 8,
        fail: 2,
        answer: Err(Failed),
        taken: "abcd",
    },
    SinkRow {
        room: 8,
        fail: 3,
        answer: Ok(()),
        taken: "abcde",
    },
    SinkRow {
        room: 0,
        fail: 3,
        answer: Ok(()),
        taken: "abcde",
    },
    SinkRow {
        room: 3,
        fail: 3,
        answer: Ok(()),
        taken: "abcde",
    },
];

fn is_taken(rt: &impl Abort, sink: &mut MemSink, row: &SinkRow) {
    let answer = write_all(sink, b"abcde");
    equal(rt, &row.fail, &answer, &row.answer);
    equal(rt, &row.fail, &sink.taken(), &row.taken.as_bytes());
    equal(rt, &row.fail, &sink.write(b""), &Ok(0));
}

// A sink that takes two bytes in a call.
fn sink_of(alloc: Global, row: &SinkRow) -> Result<MemSink, Memory> {
    let fails = vec![in alloc; row.fail]?;
    MemSink::new(alloc, 2, row.room, fails)
}

#[test]
fn a_sink_takes_a_front_where_a_call_fails(rt: HostRuntime) -> Result<(), Fail> {
    for row in &SINKS {
        let mut sink = sink_of(rt.alloc(), row)?;
        is_taken(&rt, &mut sink, row);
    }
    Ok(())
}

// So many bytes, each the number of its place modulo 251.
fn places(alloc: Global, len: u32) -> Result<Vec<u8>, AllocError> {
    let mut bytes = Vec::new(alloc);
    for i in 0..len {
        bytes.push((i % 251) as u8)?;
    }
    Ok(bytes)
}

// How many bytes there are, where each is that number.
fn length_of_places(bytes: &[u8]) -> Option<usize> {
    let all = bytes
        .iter()
        .enumerate()
        .all(|(i, b)| i % 251 == *b as usize);
    if all { Some(bytes.len()) } else { None }
}

// Adds a file of that many such bytes.
fn add_long_file(
    files: &mut Vec<(String, Vec<u8>)>,
    alloc: Global,
    len: u32,
) -> Result<(), AllocError> {
    let name = String::from_str(alloc, "long.c")?;
    let bytes = places(alloc, len)?;
    files.push((name, bytes))?;
    Ok(())
}

// One file of that many bytes, of which these calls fail.
fn long_file(alloc: Global, len: u32, fails: &[u64]) -> Result<MemFiles, AllocError> {
    let fails = fails.to_vec(alloc)?;
    let mut files = Vec::new(alloc);
    add_long_file(&mut files, alloc, len)?;
    Ok(MemFiles::new(files, fails))
}

// How many bytes of it are read up to a limit, where each is right.
fn read_length(
    alloc: Global,
    files: &mut MemFiles,
    limit: usize,
) -> Result<Option<usize>, ReadStop> {
    files.open_file("long.c")?;
    let bytes = read_all(alloc, files, limit)?;
    Ok(length_of_places(&bytes))
}

fn long_length(
    alloc: Global,
    len: u32,
    limit: usize,
    fails: &[u64],
) -> Result<Option<usize>, ReadStop> {
    let mut files = long_file(alloc, len, fails)?;
    read_length(alloc, &mut files, limit)
}

#[test]
fn a_file_is_read_to_its_end_or_to_the_limit(rt: HostRuntime) {
    let rows = [
        (0, 0, 0),
        (0, 10, 0),
        (1, 0, 0),
        (65536, 65535, 65535),
        (65536, 65536, 65536),
        (65537, 65537, 65537),
        (65537, 100_000, 65537),
        (900_000, 4_194_305, 900_000),
        (900_000, 800_000, 800_000),
    ];
    for (len, limit, wanted) in rows {
        let found = long_length(rt.alloc(), len, limit, &[]);
        equal(&rt, &(len, limit), &found, &Ok(Some(wanted)));
    }
}

// Whether the file is opened, and reading it fails.
fn reading_fails(alloc: Global, fail: u64) -> Result<(bool, Option<ReadStop>), AllocError> {
    let mut files = long_file(alloc, 100_000, &[fail])?;
    let is_open = files.open_file("long.c").is_ok();
    let stop = read_all(alloc, &mut files, 4_194_305).err();
    Ok((is_open, stop))
}

#[test]
fn a_failed_read_stops_the_reading_of_a_file(rt: HostRuntime) {
    for fail in 1..4 {
        let found = reading_fails(rt.alloc(), fail);
        equal(&rt, &fail, &found, &Ok((true, Some(ReadStop::Failed))));
    }
}

// A writer that takes nothing, without an error.
#[derive(Drop)]
struct Full;

impl Write for Full {
    fn write(&mut self, _: &[u8]) -> io::Result<usize> {
        Ok(0)
    }

    fn flush(&mut self) -> io::Result<()> {
        Ok(())
    }
}

// The name of a file that no other process has.
fn own_name(rt: &HostRuntime, what: &str) -> Result<String, AllocError> {
    let id = process::id(rt.process());
    format!(in rt.alloc(); "/tmp/cil-outside-{what}-{id}")
}

// Before a file is open nothing is left; then its bytes are.
fn a_file_is_read(
    rt: &impl Abort,
    host: &HostRuntime,
    files: &mut HostFiles<'_>,
    name: &str,
) -> Result<(), ReadStop> {
    let found = [read_eight(files), opened(files, name)];
    equal(rt, &name, &found, &[Ok(0), Ok(0)]);
    let bytes = read_all(host.alloc(), files, 100)?;
    equal(rt, &name, &bytes.as_slice(), &b"int x;".as_slice());
    Ok(())
}

// A file that is no longer there cannot be opened, and leaves nothing.
fn a_file_is_gone(
    rt: &impl Abort,
    host: &HostRuntime,
    files: &mut HostFiles<'_>,
    name: &str,
) -> io::Result<()> {
    equal(rt, &name, &opened(files, name), &Ok(0));
    fs::remove_file(host, name)?;
    let found = [opened(files, name), read_eight(files)];
    equal(rt, &name, &found, &[Err(Failed), Ok(0)]);
    Ok(())
}

// A folder can be opened, and not read.
fn a_folder_is_not_read(rt: &impl Abort, files: &mut HostFiles<'_>) {
    let found = [opened(files, "/tmp"), read_eight(files)];
    equal(rt, &"/tmp", &found, &[Ok(0), Err(Failed)]);
}

fn files_are_read(
    rt: &impl Abort,
    host: &HostRuntime,
    files: &mut HostFiles<'_>,
    name: &str,
) -> Result<(), Fail> {
    a_file_is_read(rt, host, files, name)?;
    a_file_is_gone(rt, host, files, name)?;
    a_folder_is_not_read(rt, files);
    Ok(())
}

#[test]
fn host_files_are_read_by_name(rt: HostRuntime) -> Result<(), Fail> {
    let name = own_name(&rt, "files")?;
    fs::write(&rt, name.as_str(), "int x;")?;
    let mut files = HostFiles::new(&rt);
    files_are_read(&rt, &rt, &mut files, name.as_str())
}

// A file gives its bytes once.
fn a_reader_gives_its_bytes(rt: &impl Abort, host: &HostRuntime, name: &str) -> io::Result<()> {
    let mut source = StdSource::new(File::open(host, name)?);
    let mut buf = [0u8; 8];
    equal(rt, &"bytes", &source.read(&mut buf), &Ok(3));
    equal(rt, &"bytes", &&buf[..3], &b"abc".as_slice());
    equal(rt, &"end", &source.read(&mut buf), &Ok(0));
    Ok(())
}

// Such a source fails, but for an empty buffer.
fn fails_to_read(rt: &impl Abort, source: &mut StdSource<File>) {
    equal(rt, &"bytes", &source.read(&mut [0; 8]), &Err(Failed));
    equal(rt, &"no bytes", &source.read(&mut []), &Ok(0));
}

// A file that is open for writing alone can't be read.
fn a_written_file_is_not_read(rt: &impl Abort, host: &HostRuntime, name: &str) -> io::Result<()> {
    let mut source = StdSource::new(File::create(host, name)?);
    fs::remove_file(host, name)?;
    fails_to_read(rt, &mut source);
    Ok(())
}

#[test]
fn a_reader_is_a_source(rt: HostRuntime) -> Result<(), Fail> {
    let name = own_name(&rt, "source")?;
    fs::write(&rt, name.as_str(), "abc")?;
    a_reader_gives_its_bytes(&rt, &rt, name.as_str())?;
    a_written_file_is_not_read(&rt, &rt, name.as_str())?;
    Ok(())
}

// What a sink takes stands in its file.
fn a_writer_takes_bytes(rt: &impl Abort, host: &HostRuntime, name: &str) -> io::Result<()> {
    let mut sink = StdSink::new(File::create(host, name)?);
    equal(rt, &name, &write_all(&mut sink, b"abc"), &Ok(()));
    let bytes = fs::read(host, name)?;
    equal(rt, &name, &bytes.as_slice(), &b"abc".as_slice());
    Ok(())
}

// A file that is open for reading alone can't be written.
fn a_read_file_is_not_written(rt: &impl Abort, host: &HostRuntime, name: &str) -> io::Result<()> {
    let mut sink = StdSink::new(File::open(host, name)?);
    fs::remove_file(host, name)?;
    let found = [sink.write(b"d"), sink.write(b"")];
    equal(rt, &name, &found, &[Err(Failed), Ok(0)]);
    Ok(())
}

#[test]
fn a_writer_is_a_sink(rt: HostRuntime) -> Result<(), Fail> {
    let name = own_name(&rt, "sink")?;
    a_writer_takes_bytes(&rt, &rt, name.as_str())?;
    a_read_file_is_not_written(&rt, &rt, name.as_str())?;
    equal(&rt, &"full", &StdSink::new(Full).write(b"d"), &Err(Failed));
    Ok(())
}
