ghost use Rattle.std.specs.Prelude.{IfOk};
ghost use Rattle.byte_mem.specs.Store.{memory};
ghost use Rattle.host_calls.specs.Counted.{IsCounted, state};

use crate::equal::are_equal;
use byte_mem::{Byte, ObjName, Pointer, Scalar, Store, Value};
use cil_base::{EntityId, IntKind, LocalId, Memory};
use host_calls::{HostName, HostResult, Io, host};
use std::alloc::Global;

const INT: Scalar = Scalar::Int(IntKind::Int);

const SIZE: Scalar = Scalar::Int(IntKind::ULong);

fn to(name: ObjName, offset: i64) -> Value {
    Value::Ptr(Pointer { name, offset })
}

fn heap(i: u64, offset: i64) -> Value {
    to(ObjName::Heap(i), offset)
}

fn entity(e: u32) -> ObjName {
    ObjName::Entity(EntityId(e))
}

fn part() -> Value {
    Value::Part(
        Pointer {
            name: ObjName::Heap(0),
            offset: 0,
        },
        3,
    )
}

fn begin(alloc: Global) -> (Store, Io)
    ensures { IsCounted (state (memory result.0) result.1) }
{
    let mem = Store::new(alloc);
    let io = Io::new(alloc);
    (mem, io)
}

fn malloc(alloc: Global, n: i128, mem: &mut Store, io: &mut Io) -> HostResult
    requires { IsCounted (state (memory mem.old) io.old) }
    ensures { IsCounted (state (memory mem.new) io.new) }
{
    host(
        alloc,
        HostName::Malloc,
        Some(Scalar::Ptr),
        &[(SIZE, Value::Int(n))],
        mem,
        io,
    )
}

fn free(alloc: Global, v: Value, mem: &mut Store, io: &mut Io) -> HostResult
    requires { IsCounted (state (memory mem.old) io.old) }
    ensures { IsCounted (state (memory mem.new) io.new) }
{
    host(alloc, HostName::Free, None, &[(Scalar::Ptr, v)], mem, io)
}

fn memset(alloc: Global, v: Value, n: i128, mem: &mut Store, io: &mut Io) -> HostResult
    requires { IsCounted (state (memory mem.old) io.old) }
    ensures { IsCounted (state (memory mem.new) io.new) }
{
    let args = [
        (Scalar::Ptr, v),
        (INT, Value::Int(257)),
        (SIZE, Value::Int(n)),
    ];
    host(alloc, HostName::Memset, Some(Scalar::Ptr), &args, mem, io)
}

fn putchar(alloc: Global, kind: Scalar, v: Value, mem: &mut Store, io: &mut Io) -> HostResult
    requires { IsCounted (state (memory mem.old) io.old) }
    ensures { IsCounted (state (memory mem.new) io.new) }
{
    host(alloc, HostName::Putchar, Some(INT), &[(kind, v)], mem, io)
}

fn getchar(alloc: Global, mem: &mut Store, io: &mut Io) -> HostResult
    requires { IsCounted (state (memory mem.old) io.old) }
    ensures { IsCounted (state (memory mem.new) io.new) }
{
    host(alloc, HostName::Getchar, Some(INT), &[], mem, io)
}

/// Makes 8 bytes live under the number of an entity.
fn put(mem: &mut Store, io: &Io, e: u32, read_only: bool) -> Result<(), Memory>
    requires { IsCounted (state (memory mem.old) io.now) }
    ensures { IsCounted (state (memory mem.new) io.now) }
{
    mem.make(ObjName::Entity(EntityId(e)), 8, Byte::Known(0), read_only)
}

/// An object of 8 bytes that may be written and one that may not, one of `malloc` of 8 bytes, and one that is
/// freed.
fn sample(alloc: Global) -> Result<(Store, Io), Memory>
    ensures { IfOk result (λ made. IsCounted (state (memory made.0) made.1)) }
{
    let (mut mem, mut io) = begin(alloc);
    put(&mut mem, &io, 0, false)?;
    put(&mut mem, &io, 1, true)?;
    let _ = malloc(alloc, 8, &mut mem, &mut io);
    let _ = malloc(alloc, 4, &mut mem, &mut io);
    let _ = free(alloc, heap(1, 0), &mut mem, &mut io);
    Ok((mem, io))
}

/// A call over these objects.
fn call(
    alloc: Global,
    name: HostName,
    wanted: Option<Scalar>,
    args: &[(Scalar, Value)],
) -> Result<HostResult, Memory> {
    let (mut mem, mut io) = sample(alloc)?;
    Ok(host(alloc, name, wanted, args, &mut mem, &mut io))
}

/// What a call over these objects is that is undefined.
const UNDEFINED: Result<HostResult, Memory> = Ok(HostResult::Undefined);

/// The bound of 67,108,864 bytes, and what `free` undoes.
#[test]
fn malloc_stops_at_its_bound(rt: HostRuntime) {
    let alloc = rt.alloc();
    let (mut mem, mut io) = begin(alloc);
    are_equal(
        &rt,
        &[
            (
                malloc(alloc, 67_108_864, &mut mem, &mut io),
                HostResult::Value(heap(0, 0)),
            ),
            (
                malloc(alloc, 1, &mut mem, &mut io),
                HostResult::Value(Value::Int(0)),
            ),
            (
                free(alloc, heap(0, 1), &mut mem, &mut io),
                HostResult::Undefined,
            ),
            (
                free(alloc, heap(0, 0), &mut mem, &mut io),
                HostResult::Value(Value::Unknown),
            ),
            (
                free(alloc, heap(0, 0), &mut mem, &mut io),
                HostResult::Undefined,
            ),
            (
                free(alloc, Value::Int(0), &mut mem, &mut io),
                HostResult::Value(Value::Unknown),
            ),
            (
                malloc(alloc, 67_108_865, &mut mem, &mut io),
                HostResult::Value(Value::Int(0)),
            ),
            (
                malloc(alloc, 0, &mut mem, &mut io),
                HostResult::Value(heap(1, 0)),
            ),
        ],
    );
    let before = io.live;
    let anew = malloc(alloc, 1, &mut mem, &mut io);
    are_equal(&rt, &[(anew, HostResult::Value(heap(2, 0)))]);
    are_equal(&rt, &[(before, 0), (io.live, 1)]);
}

fn freed(alloc: Global, v: Value) -> Result<HostResult, Memory> {
    call(alloc, HostName::Free, None, &[(Scalar::Ptr, v)])
}

/// C11 7.22.3.3: what `free` takes is null, or the beginning of a live object of `malloc`.
#[test]
fn only_objects_of_malloc_are_freed(rt: HostRuntime) {
    let alloc = rt.alloc();
    let done = Ok(HostResult::Value(Value::Unknown));
    are_equal(
        &rt,
        &[
            (freed(alloc, Value::Int(0)), done),
            (freed(alloc, heap(0, 0)), done),
            (freed(alloc, heap(0, 1)), UNDEFINED),
            (freed(alloc, heap(0, 8)), UNDEFINED),
            (freed(alloc, heap(0, -1)), UNDEFINED),
            (freed(alloc, heap(1, 0)), UNDEFINED),
            (freed(alloc, heap(2, 0)), UNDEFINED),
            (freed(alloc, to(entity(0), 0)), UNDEFINED),
            (
                freed(alloc, to(ObjName::Local(1, LocalId(0)), 0)),
                UNDEFINED,
            ),
            (freed(alloc, to(ObjName::Literal(0), 0)), UNDEFINED),
            (freed(alloc, to(ObjName::Argument(0), 0)), UNDEFINED),
            (freed(alloc, Value::Int(8)), UNDEFINED),
            (freed(alloc, Value::Unknown), UNDEFINED),
            (freed(alloc, part()), UNDEFINED),
        ],
    );
}

/// `__builtin_memset` of so many bytes.
fn set(alloc: Global, v: Value, c: Value, n: Value) -> Result<HostResult, Memory> {
    let args = [(Scalar::Ptr, v), (INT, c), (SIZE, n)];
    call(alloc, HostName::Memset, Some(Scalar::Ptr), &args)
}

/// The same of zeros, by a count.
fn zeroed(alloc: Global, v: Value, n: i128) -> Result<HostResult, Memory> {
    set(alloc, v, Value::Int(0), Value::Int(n))
}

/// Bytes are set where a pointer leads to so many that may be written (own).
#[test]
fn bytes_are_set_where_they_may_be(rt: HostRuntime) {
    let alloc = rt.alloc();
    are_equal(
        &rt,
        &[
            (
                zeroed(alloc, heap(0, 0), 8),
                Ok(HostResult::Value(heap(0, 0))),
            ),
            (
                zeroed(alloc, heap(0, 3), 5),
                Ok(HostResult::Value(heap(0, 3))),
            ),
            (zeroed(alloc, heap(0, 3), 6), UNDEFINED),
            (
                zeroed(alloc, heap(0, 8), 0),
                Ok(HostResult::Value(heap(0, 8))),
            ),
            (zeroed(alloc, heap(0, 9), 0), UNDEFINED),
            (zeroed(alloc, heap(0, -1), 1), UNDEFINED),
            (zeroed(alloc, heap(0, 0), 0x1_0000_0000), UNDEFINED),
            (zeroed(alloc, heap(0, 0), 0xffff_ffff_ffff_ffff), UNDEFINED),
            (
                zeroed(alloc, to(entity(0), 0), 8),
                Ok(HostResult::Value(to(entity(0), 0))),
            ),
            (zeroed(alloc, to(entity(1), 0), 8), UNDEFINED),
            (zeroed(alloc, to(entity(1), 0), 0), UNDEFINED),
            (zeroed(alloc, heap(1, 0), 0), UNDEFINED),
            (zeroed(alloc, heap(2, 0), 0), UNDEFINED),
            (zeroed(alloc, Value::Int(0), 0), UNDEFINED),
            (zeroed(alloc, Value::Int(8), 0), UNDEFINED),
            (zeroed(alloc, Value::Unknown, 0), UNDEFINED),
            (zeroed(alloc, part(), 0), UNDEFINED),
        ],
    );
}

/// Bytes are set by numbers (own).
#[test]
fn bytes_are_set_by_numbers(rt: HostRuntime) {
    let alloc = rt.alloc();
    let (zero, eight) = (Value::Int(0), Value::Int(8));
    are_equal(
        &rt,
        &[
            (set(alloc, heap(0, 0), Value::Unknown, eight), UNDEFINED),
            (set(alloc, heap(0, 0), heap(0, 0), eight), UNDEFINED),
            (set(alloc, heap(0, 0), part(), eight), UNDEFINED),
            (set(alloc, heap(0, 0), zero, Value::Unknown), UNDEFINED),
            (set(alloc, heap(0, 0), zero, heap(0, 0)), UNDEFINED),
            (set(alloc, heap(0, 0), zero, part()), UNDEFINED),
        ],
    );
}

/// `malloc`, `exit` and `putchar` of an argument.
fn called_with(alloc: Global, v: Value) -> [Result<HostResult, Memory>; 3] {
    [
        call(alloc, HostName::Malloc, Some(Scalar::Ptr), &[(SIZE, v)]),
        call(alloc, HostName::Exit, None, &[(INT, v)]),
        call(alloc, HostName::Putchar, Some(INT), &[(INT, v)]),
    ]
}

/// An argument that is no number of its type makes a call undefined (own; C11 6.2.6.1p5).
#[test]
fn arguments_are_numbers(rt: HostRuntime) {
    are_equal(
        &rt,
        &[
            (called_with(rt.alloc(), Value::Unknown), [UNDEFINED; 3]),
            (called_with(rt.alloc(), part()), [UNDEFINED; 3]),
            (called_with(rt.alloc(), heap(0, 0)), [UNDEFINED; 3]),
        ],
    );
}

/// A function with no argument, with two and with four.
fn miscalled(
    alloc: Global,
    name: HostName,
    wanted: Option<Scalar>,
) -> [Result<HostResult, Memory>; 4] {
    let int = (INT, Value::Int(0));
    let size = (SIZE, Value::Int(0));
    let null = (Scalar::Ptr, Value::Int(0));
    [
        call(alloc, name, wanted, &[]),
        call(alloc, name, wanted, &[int, int]),
        call(alloc, name, wanted, &[null, int]),
        call(alloc, name, wanted, &[null, int, size, size]),
    ]
}

/// C11 6.5.2.2p6: a call has as many arguments as the function has parameters.
#[test]
fn arguments_are_as_many_as_parameters(rt: HostRuntime) {
    let alloc = rt.alloc();
    let int = [(INT, Value::Int(0))];
    are_equal(
        &rt,
        &[
            (
                miscalled(alloc, HostName::Putchar, Some(INT)),
                [UNDEFINED; 4],
            ),
            (miscalled(alloc, HostName::Exit, None), [UNDEFINED; 4]),
            (
                miscalled(alloc, HostName::Malloc, Some(Scalar::Ptr)),
                [UNDEFINED; 4],
            ),
            (miscalled(alloc, HostName::Free, None), [UNDEFINED; 4]),
            (
                miscalled(alloc, HostName::Memset, Some(Scalar::Ptr)),
                [UNDEFINED; 4],
            ),
        ],
    );
    are_equal(
        &rt,
        &[
            (call(alloc, HostName::Getchar, Some(INT), &int), UNDEFINED),
            (call(alloc, HostName::Abort, None, &int), UNDEFINED),
        ],
    );
}

/// C11 6.5.2.2p9: a call gives what the function's type does; `getchar` of another type asks for no input.
#[test]
fn results_are_of_their_kinds(rt: HostRuntime) {
    let alloc = rt.alloc();
    let size = [(SIZE, Value::Int(4))];
    are_equal(
        &rt,
        &[
            (
                call(alloc, HostName::Getchar, Some(INT), &[]),
                Ok(HostResult::NeedsInput),
            ),
            (call(alloc, HostName::Getchar, None, &[]), UNDEFINED),
            (call(alloc, HostName::Getchar, Some(SIZE), &[]), UNDEFINED),
            (
                call(alloc, HostName::Getchar, Some(Scalar::Ptr), &[]),
                UNDEFINED,
            ),
            (
                call(alloc, HostName::Abort, None, &[]),
                Ok(HostResult::Exit(134)),
            ),
            (call(alloc, HostName::Abort, Some(INT), &[]), UNDEFINED),
            (call(alloc, HostName::Malloc, Some(SIZE), &size), UNDEFINED),
        ],
    );
}

/// C11 7.21.7.6, 7.21.7.8: bytes are unsigned chars, and the end is -1 and stays.
#[test]
fn characters_come_and_go(rt: HostRuntime) {
    let alloc = rt.alloc();
    let (mut mem, mut io) = begin(alloc);
    let early = getchar(alloc, &mut mem, &mut io);
    io.ready = Some(Some(200));
    let byte = getchar(alloc, &mut mem, &mut io);
    let between = io.ready;
    io.ready = Some(None);
    let end = getchar(alloc, &mut mem, &mut io);
    are_equal(
        &rt,
        &[
            (early, HostResult::NeedsInput),
            (byte, HostResult::Value(Value::Int(200))),
            (end, HostResult::Value(Value::Int(-1))),
        ],
    );
    are_equal(&rt, &[(between, None), (io.ready, Some(None))]);
}

/// C11 7.21.7.8: a byte is written where an int is given.
#[test]
fn characters_are_written(rt: HostRuntime) {
    let alloc = rt.alloc();
    let (mut mem, mut io) = begin(alloc);
    are_equal(
        &rt,
        &[
            (
                putchar(alloc, INT, Value::Int(256), &mut mem, &mut io),
                HostResult::Value(Value::Int(0)),
            ),
            (
                putchar(alloc, INT, Value::Int(-1), &mut mem, &mut io),
                HostResult::Value(Value::Int(255)),
            ),
            (
                putchar(alloc, INT, Value::Unknown, &mut mem, &mut io),
                HostResult::Undefined,
            ),
            (
                putchar(alloc, INT, heap(0, 0), &mut mem, &mut io),
                HostResult::Undefined,
            ),
            (
                putchar(alloc, SIZE, Value::Int(65), &mut mem, &mut io),
                HostResult::Undefined,
            ),
        ],
    );
    are_equal(&rt, &[(io.out.as_slice(), [0, 255].as_slice())]);
}

/// C11 7.22.4: the status is a byte; a call with other kinds than the row's is undefined.
#[test]
fn programs_end(rt: HostRuntime) {
    let alloc = rt.alloc();
    let (mut mem, mut io) = begin(alloc);
    let args = [(INT, Value::Int(258))];
    are_equal(
        &rt,
        &[
            (
                host(alloc, HostName::Exit, None, &args, &mut mem, &mut io),
                HostResult::Exit(2),
            ),
            (
                host(alloc, HostName::Exit, Some(INT), &args, &mut mem, &mut io),
                HostResult::Undefined,
            ),
            (
                host(alloc, HostName::Abort, None, &[], &mut mem, &mut io),
                HostResult::Exit(134),
            ),
            (
                host(alloc, HostName::Abort, None, &args, &mut mem, &mut io),
                HostResult::Undefined,
            ),
        ],
    );
}

/// Bytes become a number modulo 256.
#[test]
fn bytes_are_set(rt: HostRuntime) {
    let alloc = rt.alloc();
    let (mut mem, mut io) = begin(alloc);
    are_equal(
        &rt,
        &[
            (
                malloc(alloc, 4, &mut mem, &mut io),
                HostResult::Value(heap(0, 0)),
            ),
            (
                memset(alloc, heap(0, 0), 4, &mut mem, &mut io),
                HostResult::Value(heap(0, 0)),
            ),
        ],
    );
    let at = Pointer {
        name: ObjName::Heap(0),
        offset: 0,
    };
    are_equal(&rt, &[(mem.load(at, INT), Some(Value::Int(0x0101_0101)))]);
}

/// Each function by its name, and a text that is none.
#[test]
fn names_are_found(rt: HostRuntime) {
    are_equal(
        &rt,
        &[
            (HostName::of(b"getchar"), Some(HostName::Getchar)),
            (HostName::of(b"putchar"), Some(HostName::Putchar)),
            (HostName::of(b"exit"), Some(HostName::Exit)),
            (HostName::of(b"abort"), Some(HostName::Abort)),
            (HostName::of(b"malloc"), Some(HostName::Malloc)),
            (HostName::of(b"free"), Some(HostName::Free)),
            (HostName::of(b"__builtin_memset"), Some(HostName::Memset)),
            (HostName::of(b"memset"), None),
        ],
    );
}
