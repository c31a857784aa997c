//! Each call that can fail, one by one: on files, standard input, standard output and standard error.

use crate::row::{CALM, Command, Row, rows_hold};
use std::test::Fail;

const SUM_TEXT: &str = "int main ( void ) ;\nint main ( void ) {\n  return ( 2 + 3 ) ;\n}\n";

const MERGE: Command = Command {
    words: &["merge", "a.c"],
    files: &[("a.c", b"int main(void) { return 2 + 3; }")],
    given: b"",
    piece: 10,
};

// No merge reads standard input.
const MERGED: Row<'static> = Row {
    input: &[0],
    ..CALM
};

// A call that would come behind the last one changes nothing, nor does one for a line that is not there.
const MERGE_ROWS: [Row<'static>; 16] = [
    Row {
        files: &[0],
        status: 74,
        written: 0,
        told: "cil: read fault\n",
        ..MERGED
    },
    Row {
        files: &[1],
        status: 74,
        written: 0,
        told: "cil: read fault\n",
        ..MERGED
    },
    Row {
        files: &[2],
        status: 74,
        written: 0,
        told: "cil: read fault\n",
        ..MERGED
    },
    Row {
        out: &[0],
        status: 74,
        written: 0,
        told: "cil: write fault\n",
        ..MERGED
    },
    Row {
        out: &[1],
        status: 74,
        written: 10,
        told: "cil: write fault\n",
        ..MERGED
    },
    Row {
        out: &[2],
        status: 74,
        written: 20,
        told: "cil: write fault\n",
        ..MERGED
    },
    Row {
        out: &[3],
        status: 74,
        written: 30,
        told: "cil: write fault\n",
        ..MERGED
    },
    Row {
        out: &[4],
        status: 74,
        written: 40,
        told: "cil: write fault\n",
        ..MERGED
    },
    Row {
        out: &[5],
        status: 74,
        written: 50,
        told: "cil: write fault\n",
        ..MERGED
    },
    Row {
        out: &[6],
        status: 74,
        written: 60,
        told: "cil: write fault\n",
        ..MERGED
    },
    Row {
        out: &[1],
        err: &[0],
        status: 74,
        written: 10,
        ..MERGED
    },
    Row {
        out: &[1],
        err: &[1],
        status: 74,
        written: 10,
        told: "cil: ",
        ..MERGED
    },
    Row {
        out: &[1],
        err: &[2],
        status: 74,
        written: 10,
        told: "cil: write",
        ..MERGED
    },
    Row {
        out: &[1],
        err: &[3],
        status: 74,
        written: 10,
        told: "cil: write faul",
        ..MERGED
    },
    Row {
        files: &[3],
        out: &[7],
        ..MERGED
    },
    Row {
        err: &[0],
        ..MERGED
    },
];

#[test]
fn each_call_of_a_merge_fails(rt: HostRuntime) -> Result<(), Fail> {
    rows_hold(&rt, rt.alloc(), &MERGE, SUM_TEXT.as_bytes(), &MERGE_ROWS)
}

// A CIL text that writes what it reads, and returns 7.
const ECHO: Command = Command {
    words: &["run", "a.c"],
    files: &[(
        "a.c",
        b"int getchar ( void ) ;\nint putchar ( int ) ;\nint main ( void ) ;\nint main ( void ) {\n  int c ;\n  while ( 1 ) {\n    c = getchar ( ) ;\n    if ( ( c == ( - 1 ) ) ) {\n      break ;\n    } else {\n    }\n    putchar ( c ) ;\n  }\n  return 7 ;\n}\n",
    )],
    given: b"ab",
    piece: 10,
};

// Each byte is read by a call of its own, once those before it were written, and one call more finds the end.
const ECHO_ROWS: [Row<'static>; 13] = [
    Row {
        files: &[0],
        status: 74,
        written: 0,
        told: "cil: read fault\n",
        ..CALM
    },
    Row {
        files: &[1],
        status: 74,
        written: 0,
        told: "cil: read fault\n",
        ..CALM
    },
    Row {
        files: &[2],
        status: 74,
        written: 0,
        told: "cil: read fault\n",
        ..CALM
    },
    Row {
        input: &[0],
        status: 74,
        written: 0,
        told: "cil: read fault\n",
        ..CALM
    },
    Row {
        input: &[1],
        status: 74,
        written: 1,
        told: "cil: read fault\n",
        ..CALM
    },
    Row {
        input: &[2],
        status: 74,
        told: "cil: read fault\n",
        ..CALM
    },
    Row {
        input: &[3],
        status: 7,
        ..CALM
    },
    Row {
        out: &[0],
        status: 74,
        written: 0,
        told: "cil: write fault\n",
        ..CALM
    },
    Row {
        out: &[1],
        status: 74,
        written: 1,
        told: "cil: write fault\n",
        ..CALM
    },
    Row {
        out: &[2],
        status: 7,
        ..CALM
    },
    Row {
        input: &[2],
        out: &[1],
        status: 74,
        written: 1,
        told: "cil: write fault\n",
        ..CALM
    },
    Row {
        input: &[2],
        err: &[1],
        status: 74,
        told: "cil: ",
        ..CALM
    },
    Row {
        err: &[0],
        status: 7,
        ..CALM
    },
];

#[test]
fn each_call_of_a_run_fails(rt: HostRuntime) -> Result<(), Fail> {
    rows_hold(&rt, rt.alloc(), &ECHO, b"ab", &ECHO_ROWS)
}

const SAMPLE: Command = Command {
    words: &["sample", "1", "2"],
    files: &[],
    given: b"",
    piece: 9,
};

const SAMPLE_TEXT: &str = "units 2\ntypes 2\noutput 7\nstatus 2\nsteps 55\n";

// A sample opens no file and reads no input.
const SAMPLE_ROWS: [Row<'static>; 8] = [
    Row {
        files: &[0],
        input: &[0],
        ..CALM
    },
    Row {
        out: &[0],
        status: 74,
        written: 0,
        told: "cil: write fault\n",
        ..CALM
    },
    Row {
        out: &[1],
        status: 74,
        written: 9,
        told: "cil: write fault\n",
        ..CALM
    },
    Row {
        out: &[4],
        status: 74,
        written: 36,
        told: "cil: write fault\n",
        ..CALM
    },
    Row { out: &[5], ..CALM },
    Row {
        out: &[1],
        err: &[0],
        status: 74,
        written: 9,
        ..CALM
    },
    Row {
        out: &[1],
        err: &[2],
        status: 74,
        written: 9,
        told: "cil: write",
        ..CALM
    },
    Row { err: &[0], ..CALM },
];

#[test]
fn each_call_of_a_sample_fails(rt: HostRuntime) -> Result<(), Fail> {
    rows_hold(
        &rt,
        rt.alloc(),
        &SAMPLE,
        SAMPLE_TEXT.as_bytes(),
        &SAMPLE_ROWS,
    )
}
