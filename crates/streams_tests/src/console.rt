ghost use Rattle.std.specs.Prelude.{◌<◌};
ghost use Rattle.byte_mem.specs.Store.{memory};
ghost use Rattle.cil_streams.specs.Held.{host_part};
ghost use Rattle.host_calls.specs.Counted.{IsCounted};

use byte_mem::{Scalar, Store, Value};
use cil_base::{IntKind, Memory};
use cil_streams::{HostEnd, Streams};
use host_calls::HostName;
use outside::{Failed, MemSink, MemSource};
use std::alloc::{AllocError, Global};
use std::test::Fail;

pub const INT: Scalar = Scalar::Int(IntKind::Int);

/// The number, or 1 in place of 0.
fn at_least_one(n: usize) -> usize
    ensures { 0 < result }
{
    if n == 0 { 1 } else { n }
}

/// What a console is over: the bytes of its source, how many of them a call gives at most, and which calls fail; and how many bytes
/// a call of its sink takes at most, and which calls fail. The sink has room for 10,000 bytes.
#[derive(Clone, Copy)]
pub struct Outside<'a, 'b, 'c> {
    pub bytes: &'a [u8],
    pub piece: usize,
    pub reads: &'b [u64],
    pub taken: usize,
    pub writes: &'c [u64],
}

/// A source that gives all its bytes in one call, and a sink that takes a byte in a call; no call fails.
pub const CALM: Outside<'static, 'static, 'static> = Outside {
    bytes: b"",
    piece: 5000,
    reads: &[],
    taken: 1,
    writes: &[],
};

fn source(alloc: Global, outside: &Outside<'_, '_, '_>) -> Result<MemSource, AllocError> {
    let fails = outside.reads.to_vec(alloc)?;
    let bytes = outside.bytes.to_vec(alloc)?;
    Ok(MemSource::new(bytes, at_least_one(outside.piece), fails))
}

fn sink(alloc: Global, outside: &Outside<'_, '_, '_>) -> Result<MemSink, Memory> {
    let fails = outside.writes.to_vec(alloc).map_err(|_| Memory)?;
    MemSink::new(alloc, at_least_one(outside.taken), 10_000, fails)
}

/// A console at the start of a run, in a box.
pub fn new_console(alloc: Global, outside: &Outside<'_, '_, '_>) -> Result<Box<Console>, Fail> {
    let input = source(alloc, outside)?;
    let out = sink(alloc, outside)?;
    let console = Console::new(alloc, input, out)?;
    Ok(Box::new(alloc, console)?)
}

/// The streams and the store of a run, over a source and a sink in memory.
#[derive(Drop)]
pub struct Console {
    store: Store,
    streams: Streams,
    input: MemSource,
    out: MemSink,
    ghost counted: { IsCounted (host_part (memory store) streams) },
}

impl Console {
    /// At the start of a run.
    fn new(alloc: Global, input: MemSource, out: MemSink) -> Result<Console, AllocError> {
        let streams = Streams::new(alloc)?;
        let store = Store::new(alloc);
        Ok(Console {
            store,
            streams,
            input,
            out,
        })
    }

    /// A call of a function of the host.
    pub fn call(
        &mut self,
        name: HostName,
        wanted: Option<Scalar>,
        args: &[(Scalar, Value)],
    ) -> HostEnd {
        self.streams.call(
            name,
            wanted,
            args,
            &mut self.store,
            &mut self.input,
            &mut self.out,
        )
    }

    pub fn getchar(&mut self) -> HostEnd {
        self.call(HostName::Getchar, Some(INT), &[])
    }

    pub fn putchar(&mut self, b: u8) -> HostEnd {
        let args = [(INT, Value::Int(i128::from(b)))];
        self.call(HostName::Putchar, Some(INT), &args)
    }

    pub fn flush(&mut self) -> Result<(), Failed> {
        self.streams.flush(&mut self.out)
    }

    /// What the sink has taken.
    pub fn taken(&self) -> &[u8] {
        self.out.taken()
    }

    /// A step of a script: `<` is a getchar, `!` a flush, `#` appends how many bytes the sink has taken, and another
    /// byte is a putchar of it.
    fn step(&mut self, b: u8, answers: &mut String) -> Result<(), AllocError> {
        match b {
            b'#' => write!(answers, "{}", self.taken().len()),
            b'!' => answers.push(flushed(self.flush())),
            b'<' => answers.push(letter(self.getchar())),
            _ => answers.push(letter(self.putchar(b))),
        }
    }

    /// What the steps of a script answer.
    pub fn answers(&mut self, alloc: Global, script: &str) -> Result<String, AllocError> {
        let mut answers = String::new(alloc);
        for b in script.as_bytes() {
            self.step(*b, &mut answers)?;
        }
        Ok(answers)
    }

    /// The same, and the bytes that the sink has taken behind them.
    pub fn written(
        &mut self,
        alloc: Global,
        script: &str,
    ) -> Result<(String, Vec<u8>), AllocError> {
        let answers = self.answers(alloc, script)?;
        Ok((answers, self.taken().to_vec(alloc)?))
    }
}

fn flushed(answer: Result<(), Failed>) -> char {
    match answer {
        Ok(()) => '!',
        Err(Failed) => 'W',
    }
}

// What an answer is, as a character: the byte, `.` for -1, `R` and `W` for faults.
fn letter(end: HostEnd) -> char {
    match end {
        HostEnd::Value(Value::Int(-1)) => '.',
        HostEnd::Value(v) => v
            .number()
            .and_then(|n| u8::try_from(n).ok())
            .map_or('?', char::from),
        HostEnd::ReadFault => 'R',
        HostEnd::WriteFault => 'W',
        HostEnd::Exit(_) => 'E',
        HostEnd::Undefined => 'U',
        HostEnd::Memory => 'M',
    }
}

/// What the steps of a script answer over a console.
pub fn answers_of(
    alloc: Global,
    outside: &Outside<'_, '_, '_>,
    script: &str,
) -> Result<String, Fail> {
    let mut console = new_console(alloc, outside)?;
    Ok(console.answers(alloc, script)?)
}
