ghost use Rattle.std.specs.Prelude.{◌≡◌, ◌<◌, ◌≤◌, ◌↔◌, ℕ, None, Some, [], length, OnOk, IsTrue, vec_len};
ghost use Rattle.byte_mem.specs.Change.{changed_live, stored_live};
ghost use Rattle.byte_mem.specs.Layers.{paged, page_at, IsPut, PagedChanges, PagedPut, IsPagedPut};
ghost use Rattle.byte_mem.specs.Places.{begun};

use crate::objects::{Beginning, Change, Object};
use crate::pointers::Pointer;
use crate::regions::Sharing;
use crate::slots::Slots;
use crate::values::{Scalar, Value};
use cil_base::Abi;
use std::alloc::{AllocError, Global};
use std::marker::Model;

/// Objects by number. Those of 64 numbers, from a multiple of 64 on, are a page, and share regions of bytes.
#[derive(Drop)]
pub struct Pages {
    alloc: Global,
    sharing: Sharing,
    pages: Vec<Slots>,
}

impl Model for Pages {
    ghost use Rattle.std.specs.Prelude.{List, Option};
    ghost use Rattle.byte_mem.specs.Object.{Held};

    ghost Value = { List (List (Option Held)) };

    ghost view = { λ p. p.pages.items };
}

impl Pages {
    /// No objects yet.
    pub fn new(alloc: Global, sharing: Sharing) -> Self
        ensures { result ≡ [] }
    {
        Pages {
            alloc,
            sharing,
            pages: Vec::new(alloc),
        }
    }

    pub fn is_empty(&self) -> bool
        ensures { IsTrue result ↔ (self.now ≡ []) }
    {
        self.pages.is_empty()
    }

    /// The object of a number.
    #[inline(always)]
    pub fn get(&self, i: usize) -> Option<Object<'_>>
        ensures { paged self.now i ≡ result }
    {
        let page = i / 64;
        if page < self.pages.len() {
            self.pages[page].get(i % 64)
        } else {
            None
        }
    }

    /// Changes the object of a number.
    pub fn change(&mut self, i: usize, at: Pointer, change: Change<'_>) -> Option<()>
        ensures { PagedChanges result self.old self.new i (changed_live at.offset change.entry (paged self.old i)) }
    {
        let page = i / 64;
        if page < self.pages.len() {
            self.pages[page].change(i % 64, at, change)
        } else {
            None
        }
    }

    /// Stores a scalar in the object of a number.
    #[inline(always)]
    pub fn store(&mut self, abi: Abi, i: usize, at: Pointer, s: Scalar, v: Value) -> Option<()>
        ensures { PagedChanges result self.old self.new i (stored_live abi at.offset s v (paged self.old i)) }
    {
        let page = i / 64;
        if page < self.pages.len() {
            self.pages[page].store(abi, i % 64, at, s, v)
        } else {
            None
        }
    }

    /// Makes an object live, in the place of an earlier one.
    pub fn put(&mut self, i: usize, b: &Beginning) -> Result<(), AllocError>
        ensures { PagedPut result self.old self.new i (Some (begun b.now)) }
    {
        let page = i / 64;
        grow(&mut self.pages, self.alloc, self.sharing, page)?;
        self.pages[page].put(i % 64, b)
    }

    /// Ends the life of an object, and takes pages at the end that have none away.
    pub fn clear(&mut self, i: usize)
        ensures { IsPagedPut self.old self.new i None }
    {
        clear_in(&mut self.pages, self.alloc, self.sharing, i);
        let last = used(&self.pages);
        self.pages.truncate(last);
    }
}

/// Ends the life of the object of a number.
fn clear_in(pages: &mut Vec<Slots>, alloc: Global, sharing: Sharing, i: usize)
    ensures { IsPagedPut pages.old.items pages.new.items i None }
{
    let page = i / 64;
    if page < pages.len() {
        clear_page(&mut pages[page], alloc, sharing, i % 64);
    }
}

/// Ends the life of an object of a page. A page without objects takes no memory.
fn clear_page(page: &mut Slots, alloc: Global, sharing: Sharing, i: usize)
    ensures { IsPut page.old page.new i None }
{
    page.clear(i);
    if page.is_empty() {
        *page = Slots::new(alloc, sharing);
    }
}

/// Makes pages up to one, which are empty.
#[tactic(auto, using(crate::proofs::SlotLemmas::page_push))]
fn grow(
    pages: &mut Vec<Slots>,
    alloc: Global,
    sharing: Sharing,
    page: usize,
) -> Result<(), AllocError>
    ensures same { (k : ℕ) → page_at pages.new.items k ≡ page_at pages.old.items k }
    ensures long { OnOk result (page < vec_len pages.new) }
{
    while pages.len() <= page {
        pages.push(Slots::new(alloc, sharing))?;
    }
    Ok(())
}

/// The number of pages up to the last that has objects.
#[tactic(auto, using(crate::proofs::SlotLemmas::page_past))]
fn used(pages: &[Slots]) -> usize
    ensures within { result ≤ length pages.now }
    ensures rest { (k : ℕ) → result ≤ k → page_at pages.now k ≡ [] }
{
    let mut last = pages.len();
    while last > 0 && pages[last - 1].is_empty() {
        last -= 1;
    }
    last
}
