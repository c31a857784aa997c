use crate::console::{CALM, Console, INT, Outside, new_console};
use crate::equal::equal;
use byte_mem::{ObjName, Pointer, Scalar, Value};
use cil_base::IntKind;
use cil_streams::HostEnd;
use host_calls::HostName;
use std::alloc::Global;
use std::process::Abort;
use std::test::Fail;

const SIZE: Scalar = Scalar::Int(IntKind::ULong);

// Over `z`, whose first read fails.
const FIRST_FAILS: Outside<'static, 'static, 'static> = Outside {
    bytes: b"z",
    piece: 1,
    reads: &[0],
    ..CALM
};

fn first(offset: i64) -> Value {
    Value::Ptr(Pointer {
        name: ObjName::Heap(0),
        offset,
    })
}

// What is answered before a call, by the call, and behind it.
fn around(
    alloc: Global,
    console: &mut Console,
    before: &str,
    call: (HostName, Option<Scalar>, &[(Scalar, Value)]),
    behind: &str,
) -> Result<(String, HostEnd, String), Fail> {
    let before = console.answers(alloc, before)?;
    let (name, wanted, args) = call;
    let end = console.call(name, wanted, args);
    Ok((before, end, console.answers(alloc, behind)?))
}

// A call ends the program, with output that waits before it and behind it.
fn ends(
    rt: &impl Abort,
    alloc: Global,
    console: &mut Console,
    call: (HostName, Option<Scalar>, &[(Scalar, Value)]),
    want: HostEnd,
) -> Result<(), Fail> {
    let (before, end, behind) = around(alloc, console, "ab#", call, "#!#")?;
    equal(rt, &want, &before.as_str(), &"ab0");
    equal(rt, &want, &end, &want);
    equal(rt, &want, &behind.as_str(), &"0!2");
    Ok(())
}

// C11 7.22.4: the status is a byte. What waits is left to a flush.
#[test]
fn an_exit_leaves_output_that_waits(rt: HostRuntime) -> Result<(), Fail> {
    let int = [(INT, Value::Int(258))];
    let mut console = new_console(rt.alloc(), &FIRST_FAILS)?;
    let call = (HostName::Exit, None, int.as_slice());
    ends(&rt, rt.alloc(), &mut console, call, HostEnd::Exit(2))
}

// C11 7.22.4.1: what waits is left to a flush.
#[test]
fn an_abort_leaves_output_that_waits(rt: HostRuntime) -> Result<(), Fail> {
    let mut console = new_console(rt.alloc(), &FIRST_FAILS)?;
    let call = (HostName::Abort, None, [].as_slice());
    ends(&rt, rt.alloc(), &mut console, call, HostEnd::Exit(134))
}

// An object of 8 bytes is made, 5 of them are set, and it is freed twice.
fn object_calls(console: &mut Console) -> [HostEnd; 4] {
    let size = [(SIZE, Value::Int(8))];
    let set = [
        (Scalar::Ptr, first(3)),
        (INT, Value::Int(1)),
        (SIZE, Value::Int(5)),
    ];
    let object = [(Scalar::Ptr, first(0))];
    let pointer = Some(Scalar::Ptr);
    [
        console.call(HostName::Malloc, pointer, &size),
        console.call(HostName::Memset, pointer, &set),
        console.call(HostName::Free, None, &object),
        console.call(HostName::Free, None, &object),
    ]
}

// C11 7.22.3.3, 7.22.3.4.
#[test]
fn an_object_is_made_set_and_freed_once(rt: HostRuntime) -> Result<(), Fail> {
    let mut console = new_console(rt.alloc(), &FIRST_FAILS)?;
    equal(
        &rt,
        &"made, set, freed, freed again",
        &object_calls(&mut console),
        &[
            HostEnd::Value(first(0)),
            HostEnd::Value(first(3)),
            HostEnd::Value(Value::Unknown),
            HostEnd::Undefined,
        ],
    );
    Ok(())
}

// A call is undefined, and reads and writes nothing.
fn is_undefined(
    rt: &impl Abort,
    alloc: Global,
    call: (HostName, Option<Scalar>, &[(Scalar, Value)]),
) -> Result<(), Fail> {
    let mut console = new_console(alloc, &FIRST_FAILS)?;
    let (_, end, behind) = around(alloc, &mut console, "", call, "#<#<<")?;
    equal(rt, &call, &end, &HostEnd::Undefined);
    equal(rt, &call, &behind.as_str(), &"0R0z.");
    Ok(())
}

const LETTER: &[(Scalar, Value)] = &[(INT, Value::Int(65))];

const UNKNOWN: &[(Scalar, Value)] = &[(INT, Value::Unknown)];

const CALLS: [(HostName, Option<Scalar>, &[(Scalar, Value)]); 6] = [
    (HostName::Getchar, None, &[]),
    (HostName::Getchar, Some(SIZE), &[]),
    (HostName::Getchar, Some(INT), LETTER),
    (HostName::Putchar, None, LETTER),
    (HostName::Putchar, Some(INT), &[]),
    (HostName::Putchar, Some(INT), UNKNOWN),
];

// A call with other kinds than the row's, or of an indeterminate value (own), reads and writes nothing: the first read
// is that of the getchar behind it.
#[test]
fn undefined_calls_leave_source_and_sink_alone(rt: HostRuntime) -> Result<(), Fail> {
    for call in &CALLS {
        is_undefined(&rt, rt.alloc(), *call)?;
    }
    Ok(())
}
