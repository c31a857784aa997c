ghost use Rattle.std.specs.Prelude.{◌≡◌, ◌≤◌, ◌+◌, ◌<◌, ◌^◌, [], length, take, max, IfOk, IfSome, OnOk, IsTrue, nat_eq, nat_le, if◌then◌else◌};
ghost use Rattle.byte_mem.specs.Change.{changed_held};
ghost use Rattle.byte_mem.specs.Object.{store_held};
ghost use Rattle.byte_mem.specs.Places.{region_at, held_in, IsIn, IsSameRegions, IsGrown, IsBegun, RegionChanges, end_in, top_of, trimmed};

use crate::contents::Contents;
use crate::objects::{Beginning, Change, Place, begin, change_at, store_at};
use crate::pointers::Pointer;
use crate::values::{Scalar, Value};
use cil_base::Abi;
use std::alloc::{AllocError, Global};

/// A region has room for no more bytes than these, unless one object has more.
const SHARED: u32 = 8192;

/// How objects share regions of bytes.
#[derive(Clone, Copy)]
pub struct Sharing {
    /// A new region has room for so many objects of the size of its first one.
    pub objects: u32,
    /// Whether the objects of a region are alike in size, so that a small one that lives on does not keep the
    /// bytes of large ones.
    pub is_alike: bool,
}

impl Sharing {
    /// The size that the objects of a region are to have within a factor of two, if they are to be alike.
    fn unit(self, size: u32) -> Option<u32> {
        if self.is_alike { Some(size) } else { None }
    }
}

/// Changes what stands at a place, and gives the place that it has then.
pub fn change_in(
    regions: &mut Vec<Contents>,
    p: Place,
    at: Pointer,
    change: Change<'_>,
) -> Option<Place>
    requires { IsIn regions.old.items p }
    ensures { RegionChanges result regions.old.items regions.new.items p (changed_held at.offset change.entry (held_in regions.old.items p)) }
{
    change_at(&mut regions[p.region], p, at, change)
}

/// Stores a scalar in what stands at a place, and gives that place.
#[inline(always)]
pub fn store_in(
    regions: &mut Vec<Contents>,
    p: Place,
    abi: Abi,
    at: Pointer,
    s: Scalar,
    v: Value,
) -> Option<Place>
    requires { IsIn regions.old.items p }
    ensures changed { RegionChanges result regions.old.items regions.new.items p (store_held abi (held_in regions.old.items p) at.offset s v) }
    ensures same { IfSome result (λ q. q ≡ p) }
{
    store_at(&mut regions[p.region], p, abi, at, s, v)
}

/// Finds room for what begins to live: in the region of that number, or in the first that serves, or in one
/// that has no bytes, which has room for so many objects of the same size.
pub fn place_new(
    regions: &mut Vec<Contents>,
    alloc: Global,
    open: usize,
    sharing: Sharing,
    b: &Beginning,
) -> Result<Place, AllocError>
    ensures grown { IsGrown regions.old.items regions.new.items }
    ensures placed { IfOk result (λ p. IsBegun regions.old.items regions.new.items b.now p) }
{
    let region = room_for(regions, alloc, open, sharing, b.size)?;
    let start = regions[region].len();
    begin(&mut regions[region], b)?;
    Ok(Place {
        region,
        start,
        size: b.size,
        read_only: b.read_only,
        is_function: b.is_function,
    })
}

/// The number of a region with room for so many bytes.
fn room_for(
    regions: &mut Vec<Contents>,
    alloc: Global,
    open: usize,
    sharing: Sharing,
    size: u32,
) -> Result<usize, AllocError>
    ensures same { IsSameRegions regions.old.items regions.new.items }
    ensures room { IfOk result (λ r. (r < length regions.new.items) × (length (region_at regions.new.items r) + size < 2 ^ 32)) }
{
    if has_room(regions, open, size) {
        return Ok(open);
    }
    let fit = first_fit(regions, size);
    if fit < regions.len() {
        return Ok(fit);
    }
    let r = first_empty(regions);
    let region = Contents::with_room(alloc, room_of(sharing.objects, size), sharing.unit(size))?;
    set_region(regions, r, region)?;
    Ok(r)
}

/// Whether the region of a number has room for so many bytes.
fn has_room(regions: &[Contents], r: usize, size: u32) -> bool
    ensures { IsTrue result → (r < length regions.now) × (length (region_at regions.now r) + size < 2 ^ 32) }
{
    r < regions.len() && regions[r].has_room(size)
}

/// The number of the first region with room for so many bytes, or of the next one.
fn first_fit(regions: &[Contents], size: u32) -> usize
    ensures { result < length regions.now → length (region_at regions.now result) + size < 2 ^ 32 }
{
    let mut r = 0;
    while r < regions.len() && !regions[r].has_room(size) {
        r += 1;
    }
    r
}

/// The room of a region that so many objects of a size share.
fn room_of(objects: u32, size: u32) -> u32
    ensures least { size ≤ result }
    ensures most { result ≤ max size 8192 }
{
    size.saturating_mul(objects).clamp(16, SHARED).max(size)
}

/// The number of the first region without bytes, or of the next one.
fn first_empty(regions: &[Contents]) -> usize
    ensures within { result ≤ length regions.now }
    ensures empty { region_at regions.now result ≡ [] }
{
    let mut r = 0;
    while r < regions.len() && regions[r].len() > 0 {
        r += 1;
    }
    r
}

/// Puts a region without bytes in the place of another.
fn set_region(regions: &mut Vec<Contents>, r: usize, c: Contents) -> Result<(), AllocError>
    requires within { r ≤ length regions.old.items }
    requires empty { region_at regions.old.items r ≡ [] }
    requires new { c ≡ [] }
    ensures same { IsSameRegions regions.old.items regions.new.items }
    ensures there { OnOk result (r < length regions.new.items) }
{
    if r < regions.len() {
        regions[r] = c;
    } else {
        regions.push(c)?;
    }
    Ok(())
}

/// Whether no byte of its region is behind a place.
pub fn is_last(regions: &[Contents], p: Place) -> bool
    ensures { result ≡ nat_le (length (region_at regions.now p.region)) (p.start + p.size) }
{
    length_of(regions, p.region) <= p.start as usize + p.size as usize
}

/// The number of bytes of a region.
fn length_of(regions: &[Contents], r: usize) -> usize
    ensures { result ≡ length (region_at regions.now r) }
{
    if r < regions.len() {
        regions[r].len() as usize
    } else {
        0
    }
}

/// Takes away what a region has behind its last object.
pub fn trim(regions: &mut Vec<Contents>, alloc: Global, places: &[Option<Place>], r: usize)
    ensures { regions.new.items ≡ trimmed regions.old.items places.now r }
{
    if r < regions.len() {
        let top = top_of(places, r);
        cut(&mut regions[r], alloc, top);
    }
}

/// Keeps so many bytes of a region. One without bytes has no room.
fn cut(c: &mut Contents, alloc: Global, n: usize)
    ensures { c.new ≡ take n c.old }
{
    if n == 0 {
        *c = Contents::new(alloc);
    } else {
        c.truncate(n);
    }
}

/// The end of the last object of a region.
fn top_of(places: &[Option<Place>], r: usize) -> usize
    ensures { result ≡ top_of places.now r }
{
    let mut top = 0;
    for place in places {
        top = top.max(end_in(*place, r));
    }
    top
}

/// The end of an object, if it stands in a region.
fn end_in(place: Option<Place>, r: usize) -> usize
    ensures { result ≡ end_in place r }
{
    match place {
        Some(p) => end_of(p, r),
        None => 0,
    }
}

fn end_of(p: Place, r: usize) -> usize
    ensures { result ≡ (if nat_eq p.region r then p.start + p.size else 0) }
{
    if p.region == r {
        p.start as usize + p.size as usize
    } else {
        0
    }
}
