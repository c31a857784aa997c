ghost use Rattle.std.specs.Prelude.{◌≡◌, ◌≤◌, ◌+◌, ◌<◌, ◌^◌, length, replicate, IfSome, IfOk, option_map, ◌%◌, nat_eq};
ghost use Rattle.byte_mem.specs.Object.{inside, aligned, load_held, load_part, store_held, store_part, fill_part};
ghost use Rattle.byte_mem.specs.Change.{changed_held};
ghost use Rattle.byte_mem.specs.Scalar.{IsSize};
ghost use Rattle.byte_mem.specs.Places.{held_of, IsWithin, PlaceChanges, Extended};

use crate::contents::Contents;
use crate::pointers::Pointer;
use crate::scalars::{fill, read, read_bytes, write, write_bytes};
use crate::values::{Byte, Scalar, Value};
use cil_base::Abi;
use std::alloc::{AllocError, Global};
use std::marker::Model;

/// What may happen to an object while it lives.
#[derive(Clone, Copy)]
pub enum Change<'a> {
    /// Bytes are stored.
    Copy(&'a [Byte]),
    /// So many bytes become a number.
    Fill(u32, u8),
    /// It becomes read-only, or writable.
    Protect(bool),
}

/// What begins to live: an object of equal bytes, or a function, which has none.
#[derive(Clone, Copy)]
pub struct Beginning {
    pub size: u32,
    pub fill: Byte,
    pub read_only: bool,
    pub is_function: bool,
}

/// Where an object stands: the number of a region of bytes, and the place and number of its own among them.
#[derive(Clone, Copy)]
pub struct Place {
    pub region: usize,
    pub start: u32,
    pub size: u32,
    pub read_only: bool,
    pub is_function: bool,
}

/// A live object, or a function.
#[derive(Drop)]
pub struct Object<'a> {
    contents: &'a Contents,
    place: Place,
}

impl<'a> Model for Object<'a> {
    ghost use Rattle.byte_mem.specs.Object.{Held};

    ghost Value = { Held };

    ghost use Rattle.byte_mem.specs.Places.{held_of, IsWithin};

    ghost view = { λ o. held_of o.contents.now o.place };

    ghost invariant = { λ o. IsWithin o.contents.now o.place };
}

impl<'a> Object<'a> {
    /// What stands at a place of some bytes.
    #[inline(always)]
    pub fn new(contents: &'a Contents, place: Place) -> Self
        requires { IsWithin contents.now place }
        ensures { result ≡ held_of contents.now place }
    {
        Object { contents, place }
    }

    /// The number of its bytes.
    #[tactic(auto, using(crate::proofs::PartLemmas::length_part))]
    pub fn len(&self) -> u32
        ensures { result ≡ length self.now.bytes }
    {
        self.place.size
    }

    pub fn is_function(&self) -> bool
        ensures { result ≡ self.now.function }
    {
        self.place.is_function
    }

    #[inline(always)]
    pub fn load(&self, abi: Abi, at: Pointer, s: Scalar) -> Option<Value>
        ensures { result ≡ load_held abi self.now at.offset s }
    {
        load_at(abi, self.contents, self.place, at, s)
    }

    pub fn load_bytes(
        &self,
        alloc: Global,
        at: Pointer,
        n: u32,
    ) -> Result<Option<Vec<Byte>>, AllocError>
        ensures { IfOk result (λ found. option_map (λ v. v.items) found ≡ load_part self.now at.offset n) }
    {
        load_bytes_at(alloc, self.contents, self.place, at, n)
    }
}

#[inline(always)]
fn load_at(abi: Abi, c: &Contents, p: Place, at: Pointer, s: Scalar) -> Option<Value>
    requires { IsWithin c.now p }
    ensures { result ≡ load_held abi (held_of c.now p) at.offset s }
{
    let i = aligned(at, s.size(abi), p.size)?;
    Some(read(abi, c, first(c, p, i), s))
}

fn load_bytes_at(
    alloc: Global,
    c: &Contents,
    p: Place,
    at: Pointer,
    n: u32,
) -> Result<Option<Vec<Byte>>, AllocError>
    requires { IsWithin c.now p }
    ensures { IfOk result (λ found. option_map (λ v. v.items) found ≡ load_part (held_of c.now p) at.offset n) }
{
    match inside(at, n, p.size) {
        None => Ok(None),
        Some(i) => Ok(Some(read_bytes(alloc, c, first(c, p, i), n)?)),
    }
}

/// The place among a region's bytes of one of an object's.
#[inline(always)]
fn first(c: &Contents, p: Place, i: u32) -> u32
    requires within { IsWithin c.now p }
    requires inside { i ≤ p.size }
    ensures { result ≡ p.start + i }
{
    let _size = c.len();
    p.start + i
}

/// Changes what stands at a place of some bytes, and gives the place that it has then.
pub fn change_at(c: &mut Contents, p: Place, at: Pointer, change: Change<'_>) -> Option<Place>
    requires { IsWithin c.old p }
    ensures { PlaceChanges result c.old c.new p (changed_held at.offset change.entry (held_of c.old p)) }
{
    match change {
        Change::Copy(bytes) => store_bytes_at(c, p, at, bytes),
        Change::Fill(n, b) => fill_at(c, p, at, n, b),
        Change::Protect(read_only) => Some(Place { read_only, ..p }),
    }
}

/// Stores a scalar in what stands at a place of some bytes, and gives that place.
#[inline(always)]
pub fn store_at(
    c: &mut Contents,
    p: Place,
    abi: Abi,
    at: Pointer,
    s: Scalar,
    v: Value,
) -> Option<Place>
    requires { IsWithin c.old p }
    ensures changed { PlaceChanges result c.old c.new p (store_held abi (held_of c.old p) at.offset s v) }
    ensures same { IfSome result (λ q. q ≡ p) }
{
    let i = aligned(at, s.size(abi), p.size)?;
    if p.read_only {
        return None;
    }
    write(abi, c, first(c, p, i), s, v);
    Some(p)
}

fn store_bytes_at(c: &mut Contents, p: Place, at: Pointer, bytes: &[Byte]) -> Option<Place>
    requires { IsWithin c.old p }
    ensures { PlaceChanges result c.old c.new p (store_part (held_of c.old p) at.offset bytes.now) }
{
    let i = inside_long(at, bytes.len(), p.size)?;
    if p.read_only {
        return None;
    }
    write_bytes(c, first(c, p, i), bytes);
    Some(p)
}

fn fill_at(c: &mut Contents, p: Place, at: Pointer, n: u32, b: u8) -> Option<Place>
    requires { IsWithin c.old p }
    ensures { PlaceChanges result c.old c.new p (fill_part (held_of c.old p) at.offset n b) }
{
    let i = inside(at, n, p.size)?;
    if p.read_only {
        return None;
    }
    fill(c, first(c, p, i), n, Byte::Known(b));
    Some(p)
}

/// Adds the bytes of what begins to live at the end of a region.
pub fn begin(c: &mut Contents, b: &Beginning) -> Result<(), AllocError>
    requires { length c.old + b.now.size < 2 ^ 32 }
    ensures { Extended result c.old c.new (replicate b.now.size b.now.fill) }
{
    match b.fill {
        Byte::Known(_) | Byte::Unknown => c.extend(b.size, b.fill),
        Byte::Part(_, _) => begin_parts(c, b),
    }
}

fn begin_parts(c: &mut Contents, b: &Beginning) -> Result<(), AllocError>
    requires { length c.old + b.now.size < 2 ^ 32 }
    ensures { Extended result c.old c.new (replicate b.now.size b.now.fill) }
{
    let start = c.len();
    c.extend(b.size, Byte::Unknown)?;
    fill(c, start, b.size, b.fill);
    Ok(())
}

/// The place of the first of n bytes at an offset into an object of that size, if they all lie in it.
#[inline(always)]
fn inside(at: Pointer, n: u32, size: u32) -> Option<u32>
    ensures value { result ≡ inside at.offset n size }
    ensures room { IfSome result (λ i. i + n ≤ size) }
{
    inside_long(at, n as usize, size)
}

/// The same for a number of bytes that may be larger than any object.
#[inline(always)]
fn inside_long(at: Pointer, n: usize, size: u32) -> Option<u32>
    ensures value { result ≡ inside at.offset n size }
    ensures room { IfSome result (λ i. i + n ≤ size) }
{
    if at.offset < 0 || at.offset > size as i64 {
        return None;
    }
    let i = at.offset as u32;
    if n <= (size - i) as usize {
        Some(i)
    } else {
        None
    }
}

/// The same for a scalar, whose alignment is its size.
#[inline(always)]
fn aligned(at: Pointer, n: u32, size: u32) -> Option<u32>
    requires { IsSize n }
    ensures value { result ≡ aligned at.offset n size }
    ensures room { IfSome result (λ i. i + n ≤ size) }
{
    let i = inside(at, n, size)?;
    if is_multiple(i, n) { Some(i) } else { None }
}

/// Whether a place is a multiple of the size of a scalar.
// By each size, since a remainder by a constant is no division.
#[inline(always)]
fn is_multiple(i: u32, n: u32) -> bool
    requires { IsSize n }
    ensures { result ≡ nat_eq (i % n) 0 }
{
    match n {
        1 => true,
        2 => i % 2 == 0,
        4 => i % 4 == 0,
        _ => i % 8 == 0,
    }
}
