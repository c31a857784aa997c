ghost use Rattle.std.specs.Prelude.{◌≡◌, ◌≤◌, ◌<◌, ◌+◌, ◌-◌, ◌*◌, ◌^◌, [], ◌∷◌, length, replicate, unsigned_abs, if◌then◌else◌, IfOk, IfSome};
ghost use Rattle.cil_base.specs.Integer.{reduced, pointer_size_of};
ghost use Rattle.byte_mem.specs.Scalar.{scalar_size, number_of, low_bytes, parts_of, goes_on, number_value, whole_pointer, lone_part, parts_value, value_of, bytes_of, IsSize};
ghost use Rattle.byte_mem.specs.Object.{part_at, with_part};

use crate::contents::Contents;
use crate::pointers::Pointer;
use crate::values::{Byte, Scalar, Value};
use cil_base::{Abi, IntKind, wrap};
use std::alloc::{AllocError, Global};

/// The value of a scalar in the bytes from a place on.
#[inline(always)]
pub fn read(abi: Abi, c: &Contents, at: u32, s: Scalar) -> Value
    requires { at + scalar_size abi s ≤ length c.now }
    ensures { result ≡ value_of abi s (part_at at (scalar_size abi s) c.now) }
{
    let size = s.size(abi);
    match known_number(c, at, size) {
        Some(n) => number_value(s.kind(abi), n),
        None => parts_value(abi, c, at, size),
    }
}

/// The number that so many bytes are to the base 256, the least first; none where one is not known.
#[inline(always)]
fn known_number(c: &Contents, at: u32, size: u32) -> Option<u64>
    requires room { at + size ≤ length c.now }
    requires size { IsSize size }
    ensures { result ≡ number_of (part_at at size c.now) }
{
    // Fewer bytes than 2 to the 32nd stand in a region.
    let _len = c.len();
    match size {
        1 => known_byte(c, at as usize),
        2 => known_pair(c, at as usize),
        4 => known_four(c, at as usize),
        _ => known_eight(c, at as usize),
    }
}

/// The number that one byte is.
#[tactic(auto, using(crate::proofs::DigitLemmas::one_known, crate::proofs::DigitLemmas::one_unknown))]
#[inline(always)]
fn known_byte(c: &Contents, i: usize) -> Option<u64>
    requires room { i + 1 ≤ length c.now }
    requires short { length c.now < 2 ^ 32 }
    ensures value { result ≡ number_of (part_at i 1 c.now) }
    ensures small { IfSome result (λ n. n < 2 ^ 8) }
{
    match c.known(i) {
        Some(b) => Some(u64::from(b)),
        None => None,
    }
}

/// The number that two bytes are.
#[tactic(auto, using(crate::proofs::DigitLemmas::pair_known, crate::proofs::DigitLemmas::pair_low, crate::proofs::DigitLemmas::pair_high))]
#[inline(always)]
fn known_pair(c: &Contents, i: usize) -> Option<u64>
    requires room { i + 2 ≤ length c.now }
    requires short { length c.now < 2 ^ 32 }
    ensures value { result ≡ number_of (part_at i 2 c.now) }
    ensures small { IfSome result (λ n. n < 2 ^ 16) }
{
    let low = known_byte(c, i)?;
    let high = known_byte(c, i + 1)?;
    Some(low + 0x100 * high)
}

/// The number that four bytes are.
#[tactic(auto, using(crate::proofs::DigitLemmas::four_low, crate::proofs::DigitLemmas::four_high))]
#[inline(always)]
fn known_four(c: &Contents, i: usize) -> Option<u64>
    requires room { i + 4 ≤ length c.now }
    requires short { length c.now < 2 ^ 32 }
    ensures value { result ≡ number_of (part_at i 4 c.now) }
    ensures small { IfSome result (λ n. n < 2 ^ 32) }
{
    let low = known_pair(c, i)?;
    let high = known_pair(c, i + 2)?;
    Some(low + 0x1_0000 * high)
}

/// The number that eight bytes are.
#[tactic(auto, using(crate::proofs::DigitLemmas::eight_low, crate::proofs::DigitLemmas::eight_high))]
#[inline(always)]
fn known_eight(c: &Contents, i: usize) -> Option<u64>
    requires room { i + 8 ≤ length c.now }
    requires short { length c.now < 2 ^ 32 }
    ensures { result ≡ number_of (part_at i 8 c.now) }
{
    let low = known_four(c, i)?;
    let high = known_four(c, i + 4)?;
    Some(low + 0x1_0000_0000 * high)
}

#[inline(always)]
fn number_value(kind: IntKind, n: u64) -> Value
    ensures { result ≡ number_value kind n }
{
    if kind == IntKind::Bool && n > 1 {
        Value::Unknown
    } else {
        Value::Int(wrap(kind, i128::from(n)))
    }
}

/// The value of a scalar of that size whose bytes are not all known.
fn parts_value(abi: Abi, c: &Contents, at: u32, size: u32) -> Value
    requires room { at + size ≤ length c.now }
    requires size { IsSize size }
    ensures { result ≡ parts_value (pointer_size_of abi) size (part_at at size c.now) }
{
    if size == 1 {
        lone_part(c.get(at as usize))
    } else if size == abi.pointer_size() {
        whole_pointer(c, at, size)
    } else {
        Value::Unknown
    }
}

fn lone_part(b: Byte) -> Value
    ensures { result ≡ lone_part (b ∷ []) }
{
    match b {
        Byte::Part(p, k) => Value::Part(p, k),
        Byte::Known(_) | Byte::Unknown => Value::Unknown,
    }
}

/// The pointer whose parts so many bytes are.
#[tactic(auto, using(crate::proofs::ScalarLemmas::part_first))]
fn whole_pointer(c: &Contents, at: u32, size: u32) -> Value
    requires room { at + size ≤ length c.now }
    requires size { IsSize size }
    ensures { result ≡ whole_pointer (part_at at size c.now) }
{
    match c.get(at as usize) {
        Byte::Part(p, k) => pointer_if(p, k == 0 && goes_on(c, p, at, 1, size)),
        Byte::Known(_) | Byte::Unknown => Value::Unknown,
    }
}

fn pointer_if(p: Pointer, is_whole: bool) -> Value
    ensures { result ≡ (if is_whole then Value.Ptr p else Value.Unknown) }
{
    if is_whole {
        Value::Ptr(p)
    } else {
        Value::Unknown
    }
}

/// Whether the bytes from number k on, of so many from a place, are the parts of a pointer.
#[tactic(auto, using(crate::proofs::ScalarLemmas::part_of_some, crate::proofs::ScalarLemmas::part_goes_on))]
fn goes_on(c: &Contents, p: Pointer, at: u32, k: u32, size: u32) -> bool
    requires room { at + size ≤ length c.now }
    requires some { k ≤ size }
    requires short { size ≤ 8 }
    ensures { result ≡ goes_on p k (part_at (at + k) (size - k) c.now) }
{
    if k == size {
        return true;
    }
    c.is_part(at as usize + k as usize, p, k as u8) && goes_on(c, p, at, k + 1, size)
}

/// Writes the bytes of an integer in two's complement (C11 6.2.6.2p2), the least first.
#[inline(always)]
fn write_integer(c: &mut Contents, at: u32, size: u32, v: i128)
    requires room { at + size ≤ length c.old }
    requires size { IsSize size }
    ensures { c.new ≡ with_part at (low_bytes size (unsigned_abs (reduced (2 ^ (8 * size)) v))) c.old }
{
    // Fewer bytes than 2 to the 32nd stand in a region.
    let _len = c.len();
    match size {
        1 => write_byte(c, at as usize, v.rem_euclid(0x100) as u64),
        2 => write_pair(c, at as usize, v.rem_euclid(0x1_0000) as u64),
        4 => write_four(c, at as usize, v.rem_euclid(0x1_0000_0000) as u64),
        _ => write_eight(c, at as usize, v.rem_euclid(0x1_0000_0000_0000_0000) as u64),
    }
}

/// Writes the last digit of a number to the base 256.
#[tactic(auto, using(crate::proofs::DigitLemmas::one_written))]
#[inline(always)]
fn write_byte(c: &mut Contents, i: usize, n: u64)
    requires room { i + 1 ≤ length c.old }
    requires short { length c.old < 2 ^ 32 }
    ensures { c.new ≡ with_part i (low_bytes 1 n) c.old }
{
    c.put_known(i, (n % 0x100) as u8);
}

/// Writes the last two digits, the least first.
#[tactic(auto, using(crate::proofs::DigitLemmas::pair_written, crate::proofs::DigitLemmas::length_written))]
#[inline(always)]
fn write_pair(c: &mut Contents, i: usize, n: u64)
    requires room { i + 2 ≤ length c.old }
    requires short { length c.old < 2 ^ 32 }
    ensures { c.new ≡ with_part i (low_bytes 2 n) c.old }
{
    write_byte(c, i, n);
    write_byte(c, i + 1, n / 0x100);
}

/// Writes the last four digits, the least first.
#[tactic(auto, using(crate::proofs::DigitLemmas::four_written, crate::proofs::DigitLemmas::length_written))]
#[inline(always)]
fn write_four(c: &mut Contents, i: usize, n: u64)
    requires room { i + 4 ≤ length c.old }
    requires short { length c.old < 2 ^ 32 }
    ensures { c.new ≡ with_part i (low_bytes 4 n) c.old }
{
    write_pair(c, i, n);
    write_pair(c, i + 2, n / 0x1_0000);
}

/// Writes the last eight digits, the least first.
#[tactic(auto, using(crate::proofs::DigitLemmas::eight_written, crate::proofs::DigitLemmas::length_written))]
#[inline(always)]
fn write_eight(c: &mut Contents, i: usize, n: u64)
    requires room { i + 8 ≤ length c.old }
    requires short { length c.old < 2 ^ 32 }
    ensures { c.new ≡ with_part i (low_bytes 8 n) c.old }
{
    write_four(c, i, n);
    write_four(c, i + 4, n / 0x1_0000_0000);
}

/// Writes so many parts of a pointer, from the first on.
#[tactic(auto, using(crate::proofs::ScalarLemmas::with_part_none))]
fn write_parts(c: &mut Contents, at: u32, size: u32, p: Pointer)
    requires room { at + size ≤ length c.old }
    requires short { size ≤ 8 }
    ensures { c.new ≡ with_part at (parts_of p 0 size) c.old }
{
    for k in 0..size {
        c.put_part(at as usize + k as usize, p, k as u8);
    }
}

/// Writes so many equal bytes.
#[tactic(auto, using(crate::proofs::ScalarLemmas::with_part_none))]
pub fn fill(c: &mut Contents, at: u32, size: u32, b: Byte)
    requires { at + size ≤ length c.old }
    ensures { c.new ≡ with_part at (replicate size b) c.old }
{
    for k in 0..size {
        c.put(at as usize + k as usize, b);
    }
}

/// Writes bytes from a place on.
#[tactic(auto, using(crate::proofs::ScalarLemmas::with_part_none))]
pub fn write_bytes(c: &mut Contents, at: u32, bytes: &[Byte])
    requires { at + length bytes.now ≤ length c.old }
    ensures { c.new ≡ with_part at bytes.now c.old }
{
    for (k, b) in bytes.iter().enumerate() {
        c.put(at as usize + k, *b);
    }
}

/// Makes so many bytes unknown.
// Apart from `write`, which is to hold no byte: most values are integers.
#[inline(never)]
fn write_unknown(c: &mut Contents, at: u32, size: u32)
    requires { at + size ≤ length c.old }
    ensures { c.new ≡ with_part at (replicate size Byte.Unknown) c.old }
{
    fill(c, at, size, Byte::Unknown);
}

/// Writes so many times a part of a pointer.
#[inline(never)]
fn write_part(c: &mut Contents, at: u32, size: u32, p: Pointer, k: u8)
    requires { at + size ≤ length c.old }
    ensures { c.new ≡ with_part at (replicate size (Byte.Part p k)) c.old }
{
    fill(c, at, size, Byte::Part(p, k));
}

/// Writes the bytes of a value of a scalar from a place on.
#[inline(always)]
pub fn write(abi: Abi, c: &mut Contents, at: u32, s: Scalar, v: Value)
    requires { at + scalar_size abi s ≤ length c.old }
    ensures { c.new ≡ with_part at (bytes_of abi s v) c.old }
{
    let size = s.size(abi);
    match v {
        Value::Int(n) => write_integer(c, at, size, n),
        Value::Ptr(p) => write_parts(c, at, size, p),
        Value::Unknown => write_unknown(c, at, size),
        Value::Part(p, k) => write_part(c, at, size, p, k),
    }
}

/// So many bytes from a place on.
#[tactic(auto, using(crate::proofs::ScalarLemmas::part_push))]
pub fn read_bytes(alloc: Global, c: &Contents, at: u32, n: u32) -> Result<Vec<Byte>, AllocError>
    requires { at + n ≤ length c.now }
    ensures { IfOk result (λ v. v.items ≡ part_at at n c.now) }
{
    let mut bytes = Vec::with_capacity(alloc, n as usize)?;
    for k in 0..n {
        bytes.push(c.get(at as usize + k as usize))?;
    }
    Ok(bytes)
}
