use crate::console::{CALM, Console, Outside, answers_of, new_console};
use crate::equal::equal;
use cil_streams::HostEnd;
use std::alloc::Global;
use std::test::Fail;

// What seven calls of getchar answer, where a call of the source gives at most so many bytes, and 1 at least.
fn characters(alloc: Global, bytes: &str, piece: usize, reads: &[u64]) -> Result<String, Fail> {
    let outside = Outside {
        bytes: bytes.as_bytes(),
        piece,
        reads,
        ..CALM
    };
    answers_of(alloc, &outside, "<<<<<<<")
}

// Bytes, how many of them a call gives at most, two calls that fail, and what seven calls of getchar answer.
const READS: [(&str, usize, [u64; 2], &str); 25] = [
    ("abcd", 1, [9, 9], "abcd..."),
    ("abcd", 2, [9, 9], "abcd..."),
    ("abcd", 5000, [9, 9], "abcd..."),
    ("abcd", 1, [0, 1], "RRabcd."),
    ("abcd", 1, [0, 9], "Rabcd.."),
    ("abcd", 1, [1, 9], "aRbcd.."),
    ("abcd", 1, [2, 9], "abRcd.."),
    ("abcd", 1, [3, 9], "abcRd.."),
    ("abcd", 1, [4, 9], "abcdR.."),
    ("abcd", 1, [4, 5], "abcdRR."),
    ("abcd", 1, [4, 6], "abcdR.."),
    ("abcd", 1, [5, 6], "abcd..."),
    ("abcd", 2, [0, 9], "Rabcd.."),
    ("abcd", 2, [1, 9], "abRcd.."),
    ("abcd", 2, [2, 9], "abcdR.."),
    ("abcd", 2, [3, 9], "abcd..."),
    ("abcd", 3, [1, 9], "abcRd.."),
    ("abcd", 3, [2, 9], "abcdR.."),
    ("abcd", 5000, [0, 9], "Rabcd.."),
    ("abcd", 5000, [1, 3], "abcdR.."),
    ("abcd", 5000, [2, 3], "abcd..."),
    ("", 1, [9, 9], "......."),
    ("", 1, [0, 9], "R......"),
    ("", 1, [0, 1], "RR....."),
    ("", 1, [1, 2], "......."),
];

// Once the source has given its end it is not read again, so that no later read fails. After a read that failed the
// next getchar reads again.
#[test]
fn bytes_are_read_once_and_the_end_too(rt: HostRuntime) -> Result<(), Fail> {
    for (number, (bytes, piece, reads, want)) in READS.iter().enumerate() {
        let found = characters(rt.alloc(), bytes, *piece, reads.as_slice())?;
        equal(&rt, &number, &found.as_str(), want);
    }
    Ok(())
}

// How many of 9,000 calls of getchar answer before one whose read fails.
fn before_a_fault(console: &mut Console) -> Option<usize> {
    for i in 0..9000 {
        if console.getchar() == HostEnd::ReadFault {
            return Some(i);
        }
    }
    None
}

// The same over a source of n bytes that gives all that is asked of it.
fn before_a_fault_of(alloc: Global, n: usize, fail: u64) -> Result<Option<usize>, Fail> {
    let bytes = vec![in alloc; b'x'; n]?;
    let reads = [fail];
    let outside = Outside {
        bytes: &bytes,
        reads: reads.as_slice(),
        ..CALM
    };
    let mut console = new_console(alloc, &outside)?;
    Ok(before_a_fault(&mut console))
}

// How many bytes there are, the call that fails, and how many calls of getchar answer before it.
const FAULTS: [(usize, u64, Option<usize>); 13] = [
    (0, 0, Some(0)),
    (0, 1, None),
    (4095, 0, Some(0)),
    (4095, 1, Some(4095)),
    (4095, 2, None),
    (4096, 1, Some(4096)),
    (4096, 2, None),
    (4097, 1, Some(4096)),
    (4097, 2, Some(4097)),
    (4097, 3, None),
    (8192, 1, Some(4096)),
    (8192, 2, Some(8192)),
    (8192, 3, None),
];

#[test]
fn a_read_asks_for_4096_bytes(rt: HostRuntime) -> Result<(), Fail> {
    for (n, fail, want) in &FAULTS {
        let found = before_a_fault_of(rt.alloc(), *n, *fail)?;
        equal(&rt, &(*n, *fail), &found, want);
    }
    Ok(())
}
