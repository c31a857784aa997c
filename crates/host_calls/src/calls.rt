ghost use Rattle.std.specs.Prelude.{◌≡◌, ◌≤◌, ◌<◌, ◌+◌, ◌^◌, ℕ, [], ◌∷◌, ◌++◌, None, Some, OnOk, OnErr, slice_get, unsigned_abs, MatchOption};
ghost use Rattle.byte_mem.specs.Memory.{live_size, fill};
ghost use Rattle.byte_mem.specs.Store.{memory};
ghost use Rattle.host_calls.specs.Host.{result_of, parameters_of, byte_of, getchar, putchar, malloc, free, free_named, memset, called, same_scalar, same_result, have_kinds, values_of, host, heap_limit, free_object, filled, value_arg, number_arg, HostState};
ghost use Rattle.host_calls.specs.Counted.{IsCounted, state, Answers};

use crate::names::HostName;
use byte_mem::{Byte, ObjName, Pointer, Scalar, Store, Value};
use cil_base::{Abi, Bytes, IntKind};
use std::alloc::{AllocError, Global};

/// The most bytes of live objects that `malloc` makes (own).
const HEAP_LIMIT: u64 = 67_108_864;

/// What a call of the host's function gives.
#[derive(Clone, Copy, Debug, PartialEq, Eq)]
pub enum HostResult {
    /// A value; Unknown for a function without result.
    Value(Value),
    /// The program ends with that status.
    Exit(u8),
    /// Undefined behaviour (C11 3.4.3).
    Undefined,
    /// `getchar` was called and it is not known yet what comes.
    NeedsInput,
    /// Want of memory.
    Memory,
}

/// What the host keeps beside memory.
#[derive(Drop)]
pub struct Io {
    /// What `getchar` takes next: a byte or the end of the input, None where that is not known yet. A byte
    /// is taken once; the end stays.
    pub ready: Option<Option<u8>>,
    /// The output so far.
    pub out: Bytes,
    /// The bytes of the live objects that `malloc` made.
    pub live: u64,
    /// The number of the next object that `malloc` makes.
    pub heap: u64,
}

impl Io {
    /// Nothing ready, no output, and no object of `malloc`.
    pub fn new(alloc: Global) -> Self
        ensures { (result.ready ≡ None) × (result.out ≡ []) × (result.live ≡ 0) × (result.heap ≡ 0) }
    {
        Io {
            ready: None,
            out: Bytes::new(Vec::new(alloc)),
            live: 0,
            heap: 0,
        }
    }
}

fn is_same_scalar(a: Scalar, b: Scalar) -> bool
    ensures { result ≡ same_scalar a b }
{
    match (a, b) {
        (Scalar::Int(x), Scalar::Int(y)) => x == y,
        (Scalar::Ptr, Scalar::Ptr) => true,
        _ => false,
    }
}

fn is_same_result(a: Option<Scalar>, b: Option<Scalar>) -> bool
    ensures { result ≡ same_result a b }
{
    match (a, b) {
        (None, None) => true,
        (Some(x), Some(y)) => is_same_scalar(x, y),
        _ => false,
    }
}

/// The kind of a function's result, None for void.
fn result_of(abi: Abi, name: HostName) -> Option<Scalar>
    ensures { result ≡ result_of abi name }
{
    match name {
        HostName::Getchar | HostName::Putchar => Some(Scalar::Int(IntKind::Int)),
        HostName::Exit | HostName::Abort | HostName::Free => None,
        HostName::Malloc | HostName::Memset => Some(Scalar::Ptr),
    }
}

/// Whether the arguments are as many as the function has parameters, and of their kinds.
fn is_fit(abi: Abi, name: HostName, args: &[(Scalar, Value)]) -> bool
    ensures { result ≡ have_kinds (parameters_of abi name) args.now }
{
    let int = Scalar::Int(IntKind::Int);
    let long = Scalar::Int(abi.ulong());
    match name {
        HostName::Getchar | HostName::Abort => args.is_empty(),
        HostName::Putchar | HostName::Exit => is_one(int, args),
        HostName::Malloc => is_one(long, args),
        HostName::Free => is_one(Scalar::Ptr, args),
        HostName::Memset => is_memset(long, args),
    }
}

fn is_one(s: Scalar, args: &[(Scalar, Value)]) -> bool
    ensures { result ≡ have_kinds (s ∷ []) args.now }
{
    match args {
        [(t, _)] => is_same_scalar(s, *t),
        _ => false,
    }
}

fn is_memset(long: Scalar, args: &[(Scalar, Value)]) -> bool
    ensures { result ≡ have_kinds (Scalar.Ptr ∷ Scalar.Int IntKind.Int ∷ long ∷ []) args.now }
{
    match args {
        [(s, _), (t, _), (u, _)] => {
            is_same_scalar(Scalar::Ptr, *s)
                && (is_same_scalar(Scalar::Int(IntKind::Int), *t) && is_same_scalar(long, *u))
        }
        _ => false,
    }
}

/// A call of a function of the host, with the kind of the call's result and the kinds of its arguments, over
/// memory and what the host keeps beside it.
///
/// Undefined where the row of the function says so, where an argument is Unknown, a part of a pointer, or a
/// pointer in an integer type, and where the kinds differ from the row's (own). NeedsInput exactly for a call
/// of `getchar` of the row's kinds where nothing is ready; then nothing has changed. After Undefined and want
/// of memory nothing has changed either.
pub fn host(
    alloc: Global,
    name: HostName,
    wanted: Option<Scalar>,
    args: &[(Scalar, Value)],
    mem: &mut Store,
    io: &mut Io,
) -> HostResult
    requires { IsCounted (state (memory mem.old) io.old) }
    ensures answers { Answers result (state (memory mem.old) io.old) (state (memory mem.new) io.new) (host mem.old.abi name wanted args.now (state (memory mem.old) io.old)) }
    ensures counted { IsCounted (state (memory mem.new) io.new) }
    ensures model { mem.new.abi ≡ mem.old.abi }
{
    let abi = mem.abi();
    if is_same_result(result_of(abi, name), wanted) && is_fit(abi, name, args) {
        call(alloc, name, args, mem, io)
    } else {
        HostResult::Undefined
    }
}

/// A call with as many arguments as the row has.
fn call(
    alloc: Global,
    name: HostName,
    args: &[(Scalar, Value)],
    mem: &mut Store,
    io: &mut Io,
) -> HostResult
    requires { IsCounted (state (memory mem.old) io.old) }
    ensures answers { Answers result (state (memory mem.old) io.old) (state (memory mem.new) io.new) (called name (values_of args.now) (state (memory mem.old) io.old)) }
    ensures model { mem.new.abi ≡ mem.old.abi }
{
    match name {
        HostName::Getchar => getchar(mem, io),
        HostName::Putchar => call_putchar(alloc, args, mem, io),
        HostName::Exit => call_exit(args),
        HostName::Abort => HostResult::Exit(134),
        HostName::Malloc => call_malloc(args, mem, io),
        HostName::Free => call_free(args, mem, io),
        HostName::Memset => call_memset(args, mem, io),
    }
}

fn call_putchar(alloc: Global, args: &[(Scalar, Value)], mem: &Store, io: &mut Io) -> HostResult
    ensures { Answers result (state (memory mem.now) io.old) (state (memory mem.now) io.new) (called HostName.Putchar (values_of args.now) (state (memory mem.now) io.old)) }
{
    match number_arg(args, 0) {
        Some(n) => putchar(alloc, mem, io, byte_of(n)),
        None => HostResult::Undefined,
    }
}

fn call_exit(args: &[(Scalar, Value)]) -> HostResult
    ensures { (s : HostState) → Answers result s s (called HostName.Exit (values_of args.now) s) }
{
    match number_arg(args, 0) {
        Some(n) => HostResult::Exit(byte_of(n)),
        None => HostResult::Undefined,
    }
}

fn call_malloc(args: &[(Scalar, Value)], mem: &mut Store, io: &mut Io) -> HostResult
    ensures answers { Answers result (state (memory mem.old) io.old) (state (memory mem.new) io.new) (called HostName.Malloc (values_of args.now) (state (memory mem.old) io.old)) }
    ensures model { mem.new.abi ≡ mem.old.abi }
{
    match number_arg(args, 0) {
        Some(n) => malloc(mem, io, n),
        None => HostResult::Undefined,
    }
}

fn call_free(args: &[(Scalar, Value)], mem: &mut Store, io: &mut Io) -> HostResult
    requires { IsCounted (state (memory mem.old) io.old) }
    ensures answers { Answers result (state (memory mem.old) io.old) (state (memory mem.new) io.new) (called HostName.Free (values_of args.now) (state (memory mem.old) io.old)) }
    ensures model { mem.new.abi ≡ mem.old.abi }
{
    match value_arg(args, 0) {
        Some(v) => free(mem, io, v),
        None => HostResult::Undefined,
    }
}

fn call_memset(args: &[(Scalar, Value)], mem: &mut Store, io: &Io) -> HostResult
    ensures answers { Answers result (state (memory mem.old) io.now) (state (memory mem.new) io.now) (called HostName.Memset (values_of args.now) (state (memory mem.old) io.now)) }
    ensures model { mem.new.abi ≡ mem.old.abi }
{
    match (value_arg(args, 0), number_arg(args, 1), number_arg(args, 2)) {
        (Some(v), Some(c), Some(n)) => memset(mem, io, v, byte_of(c), n),
        _ => HostResult::Undefined,
    }
}

/// The value of the argument at a place.
#[tactic(auto, using(crate::proofs::ArgumentLemmas::value_at))]
fn value_arg(args: &[(Scalar, Value)], i: usize) -> Option<Value>
    ensures { result ≡ value_arg (values_of args.now) i }
{
    match argument(args, i) {
        Some((_, v)) => Some(v),
        None => None,
    }
}

fn argument(args: &[(Scalar, Value)], i: usize) -> Option<(Scalar, Value)>
    ensures { result ≡ slice_get args.now i }
{
    args.get(i).copied()
}

/// The number that the argument at a place is.
fn number_arg(args: &[(Scalar, Value)], i: usize) -> Option<i128>
    ensures { result ≡ number_arg (values_of args.now) i }
{
    value_arg(args, i)?.number()
}

/// A number as a byte: converted to unsigned char (C11 7.21.7.3p2).
fn byte_of(n: i128) -> u8
    ensures { result ≡ byte_of n }
{
    n.rem_euclid(0x100) as u8
}

/// Appends a byte. After want of memory the bytes are as before.
fn append(alloc: Global, out: &mut Bytes, b: u8) -> Result<(), AllocError>
    ensures ok { OnOk result (out.new ≡ out.old ++ b ∷ []) }
    ensures err { OnErr result (out.new ≡ out.old) }
{
    let mut bytes = std::mem::replace(out, Bytes::new(Vec::new(alloc))).into_vec();
    let pushed = bytes.push(b);
    *out = Bytes::new(bytes);
    pushed?;
    Ok(())
}

fn getchar(mem: &Store, io: &mut Io) -> HostResult
    ensures { Answers result (state (memory mem.now) io.old) (state (memory mem.now) io.new) (getchar (state (memory mem.now) io.old) io.old.ready) }
{
    match io.ready {
        Some(Some(b)) => {
            io.ready = None;
            HostResult::Value(Value::Int(i128::from(b)))
        }
        Some(None) => HostResult::Value(Value::Int(-1)),
        None => HostResult::NeedsInput,
    }
}

fn putchar(alloc: Global, mem: &Store, io: &mut Io, b: u8) -> HostResult
    ensures { Answers result (state (memory mem.now) io.old) (state (memory mem.now) io.new) (putchar (state (memory mem.now) io.old) b) }
{
    match append(alloc, &mut io.out, b) {
        Ok(()) => HostResult::Value(Value::Int(i128::from(b))),
        Err(_) => HostResult::Memory,
    }
}

/// The number of bytes that an argument asks for, None where no object has as many.
fn length_of(n: i128) -> Option<u32>
    ensures { MatchOption result (2 ^ 32 ≤ unsigned_abs n) (λ k. k ≡ unsigned_abs n) }
{
    if n < -0xffff_ffff || n > 0xffff_ffff {
        None
    } else if n < 0 {
        Some((0 - n) as u32)
    } else {
        Some(n as u32)
    }
}

fn malloc(mem: &mut Store, io: &mut Io, n: i128) -> HostResult
    ensures answers { Answers result (state (memory mem.old) io.old) (state (memory mem.new) io.new) (malloc (state (memory mem.old) io.old) (unsigned_abs n)) }
    ensures model { mem.new.abi ≡ mem.old.abi }
{
    match length_of(n) {
        None => HostResult::Value(Value::Int(0)),
        Some(size) => {
            if io.live > HEAP_LIMIT || u64::from(size) > HEAP_LIMIT - io.live {
                HostResult::Value(Value::Int(0))
            } else {
                make_object(mem, io, size)
            }
        }
    }
}

fn make_object(mem: &mut Store, io: &mut Io, size: u32) -> HostResult
    requires { io.old.live + size ≤ heap_limit }
    ensures answers { Answers result (state (memory mem.old) io.old) (state (memory mem.new) io.new) (malloc (state (memory mem.old) io.old) size) }
    ensures model { mem.new.abi ≡ mem.old.abi }
{
    if io.heap == u64::MAX {
        return HostResult::Memory;
    }
    let name = ObjName::Heap(io.heap);
    match mem.make(name, size, Byte::Unknown, false) {
        Err(_) => HostResult::Memory,
        Ok(()) => {
            io.live += u64::from(size);
            io.heap += 1;
            HostResult::Value(Value::Ptr(Pointer { name, offset: 0 }))
        }
    }
}

fn free(mem: &mut Store, io: &mut Io, v: Value) -> HostResult
    requires { IsCounted (state (memory mem.old) io.old) }
    ensures answers { Answers result (state (memory mem.old) io.old) (state (memory mem.new) io.new) (free (state (memory mem.old) io.old) v) }
    ensures model { mem.new.abi ≡ mem.old.abi }
{
    match v {
        Value::Int(n) => {
            if n == 0 {
                HostResult::Value(Value::Unknown)
            } else {
                HostResult::Undefined
            }
        }
        Value::Ptr(p) => {
            if p.offset == 0 {
                free_named(mem, io, p.name)
            } else {
                HostResult::Undefined
            }
        }
        Value::Unknown | Value::Part(_, _) => HostResult::Undefined,
    }
}

fn free_named(mem: &mut Store, io: &mut Io, name: ObjName) -> HostResult
    requires { IsCounted (state (memory mem.old) io.old) }
    ensures answers { Answers result (state (memory mem.old) io.old) (state (memory mem.new) io.new) (free_named (state (memory mem.old) io.old) name) }
    ensures model { mem.new.abi ≡ mem.old.abi }
{
    match name {
        ObjName::Heap(i) => free_object(mem, io, i),
        ObjName::Entity(_) | ObjName::Local(_, _) | ObjName::Literal(_) | ObjName::Argument(_) =>
            HostResult::Undefined,
    }
}

fn free_object(mem: &mut Store, io: &mut Io, i: u64) -> HostResult
    requires { IsCounted (state (memory mem.old) io.old) }
    ensures answers { Answers result (state (memory mem.old) io.old) (state (memory mem.new) io.new) (free_object (state (memory mem.old) io.old) i (live_size (memory mem.old) (ObjName.Heap i))) }
    ensures model { mem.new.abi ≡ mem.old.abi }
{
    match mem.live_size(ObjName::Heap(i)) {
        Some(size) => {
            mem.end(ObjName::Heap(i));
            io.live -= u64::from(size);
            HostResult::Value(Value::Unknown)
        }
        None => HostResult::Undefined,
    }
}

fn memset(mem: &mut Store, io: &Io, v: Value, b: u8, n: i128) -> HostResult
    ensures answers { Answers result (state (memory mem.old) io.now) (state (memory mem.new) io.now) (memset (state (memory mem.old) io.now) v b (unsigned_abs n)) }
    ensures model { mem.new.abi ≡ mem.old.abi }
{
    match v {
        Value::Ptr(p) => fill_object(mem, io, p, b, n),
        Value::Int(_) | Value::Unknown | Value::Part(_, _) => HostResult::Undefined,
    }
}

fn fill_object(mem: &mut Store, io: &Io, p: Pointer, b: u8, n: i128) -> HostResult
    ensures answers { Answers result (state (memory mem.old) io.now) (state (memory mem.new) io.now) (filled (state (memory mem.old) io.now) p (fill (memory mem.old) p (unsigned_abs n) b)) }
    ensures model { mem.new.abi ≡ mem.old.abi }
{
    match room(mem, p, n) {
        None => HostResult::Undefined,
        Some(size) => match mem.fill(p, size, b) {
            Some(()) => HostResult::Value(Value::Ptr(p)),
            None => HostResult::Undefined,
        },
    }
}

/// The number of bytes that an argument asks for, None where the object of a pointer has not as many.
fn room(mem: &Store, p: Pointer, n: i128) -> Option<u32>
    ensures { MatchOption result ((b : ℕ) → fill (memory mem.now) p (unsigned_abs n) b ≡ None) (λ k. k ≡ unsigned_abs n) }
{
    match mem.live_size(p.name) {
        None => None,
        Some(size) => match length_of(n) {
            Some(k) => if k <= size { Some(k) } else { None },
            None => None,
        },
    }
}
