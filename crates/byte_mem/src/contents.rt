ghost use Rattle.std.specs.Prelude.{◌≡◌, ◌≤◌, ◌<◌, ◌+◌, ◌^◌, [], true, length, replicate, take, slice_get, slice_index_or, slice_set, None, IfOk, OnOk, IsTrue, vec_len};
ghost use Rattle.std.specs.Vec.{vec_capacity};
ghost use Rattle.byte_mem.specs.Contents.{seen, byte_of, grown, cell_of, is_plain, known_in, is_part};
ghost use Rattle.byte_mem.specs.Places.{Extended};

use crate::pointers::{Pointer, is_same_pointer};
use crate::values::Byte;
use std::alloc::{AllocError, Global};
use std::marker::Model;

/// A byte of an object, without the pointer that it may be a part of.
#[derive(Clone, Copy)]
pub enum Cell {
    Plain(u8),
    Blank,
    Piece(u8),
}

/// A region of bytes, in which objects stand (own). Two bytes are kept for each; the pointers that some are
/// parts of stand beside them, in room that is taken with the bytes and touched when a pointer is stored.
#[derive(Drop)]
pub struct Contents {
    cells: Vec<Cell>,
    pointers: Vec<Pointer>,
    /// The size that its objects have within a factor of two, if they are to be alike.
    unit: Option<u32>,
}

impl Model for Contents {
    ghost use Rattle.std.specs.Prelude.{List};
    ghost use Rattle.std.specs.Vec.{vec_capacity};
    ghost use Rattle.byte_mem.specs.declared.values.Byte.{Byte};

    ghost Value = { List Byte };

    ghost use Rattle.byte_mem.specs.Contents.{seen, IsKept};

    ghost view = { λ c. seen c.cells.items c.pointers.items };

    ghost invariant = { λ c. IsKept c.cells.items c.pointers.items (vec_capacity c.pointers) };
}

impl Contents {
    /// No bytes.
    pub fn new(alloc: Global) -> Self
        ensures { result ≡ [] }
    {
        Contents {
            cells: Vec::new(alloc),
            pointers: Vec::new(alloc),
            unit: None,
        }
    }

    /// No bytes, with room for so many, in objects of about a size if there is one.
    pub fn with_room(alloc: Global, room: u32, unit: Option<u32>) -> Result<Self, AllocError>
        ensures { IfOk result (λ c. c ≡ []) }
    {
        let cells = Vec::with_capacity(alloc, room as usize)?;
        let pointers = Vec::with_capacity(alloc, room as usize)?;
        Ok(Contents {
            cells,
            pointers,
            unit,
        })
    }

    /// Whether there is room for an object of so many bytes more.
    #[tactic(auto, using(crate::proofs::ContentsLemmas::length_seen))]
    pub fn has_room(&self, n: u32) -> bool
        ensures { IsTrue result → length self.now + n < 2 ^ 32 }
    {
        let len = self.cells.len() + n as usize;
        is_about(n, self.unit) && len <= self.cells.capacity() && len < 0x1_0000_0000
    }

    /// Adds so many equal bytes at the end, which are no parts of pointers.
    #[tactic(auto, using(crate::proofs::ContentsLemmas::length_seen))]
    pub fn extend(&mut self, n: u32, fill: Byte) -> Result<(), AllocError>
        requires room { length self.old + n < 2 ^ 32 }
        requires plain { is_plain fill ≡ true }
        ensures { Extended result self.old self.new (replicate n fill) }
    {
        let len = self.cells.len() + n as usize;
        take_room(&mut self.pointers, len)?;
        self.cells.resize(len, plain_cell(fill))?;
        Ok(())
    }

    /// Takes the bytes from a place on away.
    pub fn truncate(&mut self, n: usize)
        ensures { self.new ≡ take n self.old }
    {
        self.cells.truncate(n);
    }

    /// The number of bytes.
    #[tactic(auto, using(crate::proofs::ContentsLemmas::length_seen))]
    #[inline(always)]
    pub fn len(&self) -> u32
        ensures { result ≡ length self.now }
    {
        self.cells.len() as u32
    }

    /// The byte at a place.
    #[tactic(auto, using(crate::proofs::ContentsLemmas::length_seen, crate::proofs::ContentsLemmas::byte_seen))]
    #[inline(always)]
    pub fn get(&self, i: usize) -> Byte
        requires { i < length self.now }
        ensures { result ≡ slice_index_or self.now i Byte.Unknown }
    {
        byte_of(self.cells[i], pointer_at(&self.pointers, i))
    }

    /// The number of the byte at a place, if it is known.
    #[tactic(auto, using(crate::proofs::ContentsLemmas::length_seen, crate::proofs::ContentsLemmas::number_seen))]
    #[inline(always)]
    pub fn known(&self, i: usize) -> Option<u8>
        requires { i < length self.now }
        ensures { result ≡ known_in (slice_index_or self.now i Byte.Unknown) }
    {
        plain_number(self.cells[i])
    }

    /// Whether the byte at a place is the byte of that number of a pointer.
    #[tactic(auto, using(crate::proofs::ContentsLemmas::length_seen, crate::proofs::ContentsLemmas::byte_seen))]
    #[inline(always)]
    pub fn is_part(&self, i: usize, p: Pointer, k: u8) -> bool
        requires { i < length self.now }
        ensures { result ≡ is_part p k (slice_index_or self.now i Byte.Unknown) }
    {
        is_part_of(self.cells[i], pointer_at(&self.pointers, i), p, k)
    }

    /// Makes the byte at a place known.
    #[tactic(auto, using(crate::proofs::ContentsLemmas::length_seen, crate::proofs::ContentsLemmas::seen_set_plain))]
    #[inline(always)]
    pub fn put_known(&mut self, i: usize, b: u8)
        requires { i < length self.old }
        ensures { self.new ≡ slice_set self.old i (Byte.Known b) }
    {
        self.cells[i] = Cell::Plain(b);
    }

    /// Writes a byte at a place.
    #[inline(always)]
    pub fn put(&mut self, i: usize, b: Byte)
        requires { i < length self.old }
        ensures { self.new ≡ slice_set self.old i b }
    {
        match b {
            Byte::Known(n) => self.put_known(i, n),
            Byte::Unknown => self.put_blank(i),
            Byte::Part(p, k) => self.put_part(i, p, k),
        }
    }

    #[tactic(auto, using(crate::proofs::ContentsLemmas::length_seen, crate::proofs::ContentsLemmas::seen_set_blank))]
    #[inline(always)]
    fn put_blank(&mut self, i: usize)
        requires { i < length self.old }
        ensures { self.new ≡ slice_set self.old i Byte.Unknown }
    {
        self.cells[i] = Cell::Blank;
    }

    /// Makes the byte at a place the byte of that number of a pointer.
    #[tactic(auto, using(crate::proofs::ContentsLemmas::length_seen, crate::proofs::ContentsLemmas::seen_put_part))]
    #[inline(always)]
    pub fn put_part(&mut self, i: usize, p: Pointer, k: u8)
        requires { i < length self.old }
        ensures { self.new ≡ slice_set self.old i (Byte.Part p k) }
    {
        set_pointer(&mut self.pointers, i, p);
        self.cells[i] = Cell::Piece(k);
    }
}

/// Sets the pointer at a place, and grows the list to it first, in the room that it has.
#[inline(always)]
fn set_pointer(pointers: &mut Vec<Pointer>, i: usize, p: Pointer)
    requires { i < vec_capacity pointers.old }
    ensures items { pointers.new.items ≡ slice_set (grown pointers.old.items i p) i p }
    ensures room { vec_capacity pointers.old ≤ vec_capacity pointers.new }
{
    grow(pointers, i, p);
    pointers[i] = p;
}

fn grow(pointers: &mut Vec<Pointer>, i: usize, p: Pointer)
    requires { i < vec_capacity pointers.old }
    ensures items { pointers.new.items ≡ grown pointers.old.items i p }
    ensures long { i < vec_len pointers.new }
    ensures room { vec_capacity pointers.old ≤ vec_capacity pointers.new }
{
    if pointers.len() <= i {
        pointers.resize(i + 1, p).unwrap();
    }
}

/// Takes room for so many pointers.
fn take_room(pointers: &mut Vec<Pointer>, n: usize) -> Result<(), AllocError>
    ensures items { pointers.new.items ≡ pointers.old.items }
    ensures room { vec_capacity pointers.old ≤ vec_capacity pointers.new }
    ensures taken { OnOk result (n ≤ vec_capacity pointers.new) }
{
    let len = pointers.len();
    if len < n {
        pointers.reserve(n - len)?;
    }
    Ok(())
}

/// Whether a size is another one within a factor of two, if there is another one.
fn is_about(n: u32, unit: Option<u32>) -> bool {
    match unit {
        Some(unit) => n <= unit.saturating_mul(2) && unit <= n.saturating_mul(2),
        None => true,
    }
}

fn plain_cell(b: Byte) -> Cell
    ensures { result ≡ cell_of b }
{
    match b {
        Byte::Known(n) => Cell::Plain(n),
        Byte::Unknown => Cell::Blank,
        Byte::Part(_, k) => Cell::Piece(k),
    }
}

#[inline(always)]
fn pointer_at(pointers: &[Pointer], i: usize) -> Option<Pointer>
    ensures { result ≡ slice_get pointers.now i }
{
    pointers.get(i).copied()
}

#[inline(always)]
fn byte_of(c: Cell, p: Option<Pointer>) -> Byte
    ensures { result ≡ byte_of c p }
{
    match c {
        Cell::Plain(b) => Byte::Known(b),
        Cell::Blank => Byte::Unknown,
        Cell::Piece(k) => match p {
            Some(p) => Byte::Part(p, k),
            None => Byte::Unknown,
        },
    }
}

/// Whether what a cell stands for, with the pointer at its place, is the byte of that number of a pointer.
#[inline(always)]
fn is_part_of(c: Cell, at: Option<Pointer>, p: Pointer, k: u8) -> bool
    ensures { result ≡ is_part p k (byte_of c at) }
{
    match c {
        Cell::Piece(j) => match at {
            Some(q) => is_same_pointer(p, q) && k == j,
            None => false,
        },
        Cell::Plain(_) | Cell::Blank => false,
    }
}

#[inline(always)]
fn plain_number(c: Cell) -> Option<u8>
    ensures { result ≡ known_in (byte_of c None) }
{
    match c {
        Cell::Plain(b) => Some(b),
        Cell::Blank | Cell::Piece(_) => None,
    }
}
