use crate::console::{CALM, Console, Outside, answers_of, new_console};
use crate::equal::equal;
use cil_streams::HostEnd;
use std::alloc::Global;
use std::test::Fail;

// How many bytes of n were taken before the flush, and how many behind it.
fn counts(console: &mut Console, n: usize) -> (usize, usize) {
    for _ in 0..n {
        let _ = console.putchar(b'x');
    }
    let before = console.taken().len();
    let _ = console.flush();
    (before, console.taken().len())
}

// How many bytes are put, and how many are taken before the flush.
const COUNTS: [(usize, usize); 8] = [
    (0, 0),
    (1, 0),
    (4095, 0),
    (4096, 4096),
    (4097, 4096),
    (8191, 4096),
    (8192, 8192),
    (8193, 8192),
];

// A sink that takes all that is given.
const WIDE: Outside<'static, 'static, 'static> = Outside {
    taken: 5000,
    ..CALM
};

#[test]
fn output_is_written_where_4096_bytes_wait(rt: HostRuntime) -> Result<(), Fail> {
    for (n, before) in &COUNTS {
        let mut console = new_console(rt.alloc(), &WIDE)?;
        equal(&rt, n, &counts(&mut console, *n), &(*before, *n));
    }
    Ok(())
}

// Which of 4,097 calls of putchar answers that a write failed, and how many bytes are taken behind a flush.
fn fault_of_putchar(console: &mut Console) -> (Option<usize>, usize) {
    let mut at = None;
    for i in 0..4097 {
        if console.putchar(b'x') == HostEnd::WriteFault {
            at = Some(i);
        }
    }
    let _ = console.flush();
    (at, console.taken().len())
}

// The same where that call of the sink fails.
fn fault_of_write(alloc: Global, fail: u64) -> Result<(Option<usize>, usize), Fail> {
    let writes = [fail];
    let outside = Outside {
        writes: writes.as_slice(),
        ..CALM
    };
    let mut console = new_console(alloc, &outside)?;
    Ok(fault_of_putchar(&mut console))
}

// The call that fails, the putchar that tells it, and how many bytes are taken.
const TOLD: [(u64, Option<usize>, usize); 5] = [
    (0, Some(4095), 1),
    (1, Some(4095), 2),
    (4095, Some(4095), 4096),
    (4096, None, 4096),
    (4097, None, 4097),
];

// What waited where a write failed is not written again.
#[test]
fn the_last_byte_that_may_wait_tells_the_fault(rt: HostRuntime) -> Result<(), Fail> {
    for (fail, at, taken) in &TOLD {
        let found = fault_of_write(rt.alloc(), *fail)?;
        equal(&rt, fail, &found, &(*at, *taken));
    }
    Ok(())
}

// A script, how many bytes a call takes, the call that fails, what the steps answer, and what is taken.
const SCRIPTS: [(&str, usize, u64, &str, &str); 18] = [
    ("ab<#c!", 9, 9, "abz2c!", "abc"),
    ("ab<#c!", 1, 9, "abz2c!", "abc"),
    ("ab<#c!", 9, 0, "abW0c!", "c"),
    ("ab<#c!", 1, 0, "abW0c!", "c"),
    ("ab<#c!", 1, 1, "abW1c!", "ac"),
    ("ab<#c!", 9, 1, "abz2cW", "ab"),
    ("ab<#c!", 1, 2, "abz2cW", "ab"),
    ("ab<#c!", 1, 3, "abz2c!", "abc"),
    ("ab<<#c!", 1, 1, "abWz1c!", "ac"),
    ("ab<<#c!", 1, 2, "abz.2cW", "ab"),
    ("abc!!#", 1, 1, "abcW!1", "a"),
    ("abc!!#", 1, 2, "abcW!2", "ab"),
    ("!a!!b!#", 1, 0, "!aW!b!1", "b"),
    ("!a!!b!#", 1, 1, "!a!!bW1", "a"),
    ("!a!!b!#", 1, 2, "!a!!b!2", "ab"),
    ("!<!a!#", 1, 0, "!z!aW0", ""),
    ("!<!a!#", 1, 1, "!z!a!1", "a"),
    ("#!#", 1, 0, "0!0", ""),
];

// What the steps of a script answer, and what is taken, where that call of the sink fails.
fn written(
    alloc: Global,
    script: &str,
    taken: usize,
    fail: u64,
) -> Result<(String, Vec<u8>), Fail> {
    let writes = [fail];
    let outside = Outside {
        bytes: b"z",
        piece: 1,
        taken,
        writes: writes.as_slice(),
        ..CALM
    };
    let mut console = new_console(alloc, &outside)?;
    Ok(console.written(alloc, script)?)
}

// A flush or a getchar with nothing waiting makes no write that could fail.
#[test]
fn output_is_written_before_a_read_and_at_the_end(rt: HostRuntime) -> Result<(), Fail> {
    for (script, piece, fail, want, taken) in &SCRIPTS {
        let (found, bytes) = written(rt.alloc(), script, *piece, *fail)?;
        equal(&rt, script, &found.as_str(), want);
        equal(&rt, script, &bytes.as_slice(), &taken.as_bytes());
    }
    Ok(())
}

// How many bytes a call gives, the call that fails, and what the steps answer.
const WAITS: [(usize, u64, &str); 8] = [
    (1, 9, "az1by2c.3d.3!4"),
    (2, 9, "az1by1c.3d.3!4"),
    (1, 0, "aR1bz2cy3d.4!4"),
    (2, 0, "aR1bz2cy2d.4!4"),
    (1, 1, "az1bR2cy3d.4!4"),
    (2, 1, "az1by1cR3d.4!4"),
    (1, 2, "az1by2cR3d.4!4"),
    (2, 2, "az1by1c.3d.3!4"),
];

// What the steps answer over two bytes, where that call of the source fails.
fn answers_where(alloc: Global, piece: usize, fail: u64) -> Result<String, Fail> {
    let reads = [fail];
    let outside = Outside {
        bytes: b"zy",
        piece,
        reads: reads.as_slice(),
        ..CALM
    };
    answers_of(alloc, &outside, "a<#b<#c<#d<#!#")
}

// Output is written before each read, also one that fails, and waits where no read is wanted.
#[test]
fn output_waits_while_bytes_are_at_hand(rt: HostRuntime) -> Result<(), Fail> {
    for (piece, fail, want) in &WAITS {
        let found = answers_where(rt.alloc(), *piece, *fail)?;
        equal(&rt, &(*piece, *fail), &found.as_str(), want);
    }
    Ok(())
}
