ghost use Rattle.std.specs.Prelude.{◌≡◌, ◌<◌, ◌≤◌, ◌↔◌, ℕ, None, Some, [], length, OnOk, IsTrue, vec_len, nat_eq, if◌then◌else◌};
ghost use Rattle.byte_mem.specs.Change.{changed_live, stored_live};
ghost use Rattle.byte_mem.specs.Layers.{slot, SlotChanges, SlotPut, IsPut};
ghost use Rattle.byte_mem.specs.Places.{begun, place_at, given_up};

use crate::contents::Contents;
use crate::objects::{Beginning, Change, Object, Place};
use crate::pointers::Pointer;
use crate::regions::{Sharing, change_in, is_last, place_new, store_in, trim};
use crate::values::{Scalar, Value};
use cil_base::Abi;
use std::alloc::{AllocError, Global};
use std::marker::Model;

/// A few objects by number, which share regions of bytes.
#[derive(Drop)]
pub struct Slots {
    alloc: Global,
    sharing: Sharing,
    /// The region that objects were added to last.
    open: usize,
    regions: Vec<Contents>,
    places: Vec<Option<Place>>,
}

impl Model for Slots {
    ghost use Rattle.std.specs.Prelude.{List, Option};
    ghost use Rattle.byte_mem.specs.Object.{Held};

    ghost Value = { List (Option Held) };

    ghost use Rattle.byte_mem.specs.Places.{placed, IsApart};

    ghost view = { λ s. placed s.regions.items s.places.items };

    ghost invariant = { λ s. IsApart s.regions.items s.places.items };
}

impl Slots {
    pub fn new(alloc: Global, sharing: Sharing) -> Self
        ensures { result ≡ [] }
    {
        Slots {
            alloc,
            sharing,
            open: 0,
            regions: Vec::new(alloc),
            places: Vec::new(alloc),
        }
    }

    pub fn is_empty(&self) -> bool
        ensures { IsTrue result ↔ (self.now ≡ []) }
    {
        self.places.is_empty()
    }

    /// The object of a number.
    #[inline(always)]
    pub fn get(&self, i: usize) -> Option<Object<'_>>
        ensures { slot self.now i ≡ result }
    {
        match place_at(&self.places, i) {
            Some(place) => Some(Object::new(&self.regions[place.region], place)),
            None => None,
        }
    }

    /// Changes the object of a number.
    pub fn change(&mut self, i: usize, at: Pointer, change: Change<'_>) -> Option<()>
        ensures { SlotChanges result self.old self.new i (changed_live at.offset change.entry (slot self.old i)) }
    {
        let place = place_at(&self.places, i)?;
        let changed = change_in(&mut self.regions, place, at, change)?;
        self.places[i] = Some(changed);
        Some(())
    }

    /// Stores a scalar in the object of a number.
    // The object stays where it is, so that no place is written.
    #[inline(always)]
    pub fn store(&mut self, abi: Abi, i: usize, at: Pointer, s: Scalar, v: Value) -> Option<()>
        ensures { SlotChanges result self.old self.new i (stored_live abi at.offset s v (slot self.old i)) }
    {
        let place = place_at(&self.places, i)?;
        let _same = store_in(&mut self.regions, place, abi, at, s, v)?;
        Some(())
    }

    /// Makes an object live, in the place of an earlier one.
    pub fn put(&mut self, i: usize, b: &Beginning) -> Result<(), AllocError>
        ensures { SlotPut result self.old self.new i (Some (begun b.now)) }
    {
        grow(&mut self.places, i)?;
        let place = place_new(&mut self.regions, self.alloc, self.open, self.sharing, b)?;
        self.open = place.region;
        let before = place_at(&self.places, i);
        self.places[i] = Some(place);
        give_up(&mut self.regions, self.alloc, &self.places, before);
        Ok(())
    }

    /// Ends the life of an object, and gives up what no other one needs.
    pub fn clear(&mut self, i: usize)
        ensures { IsPut self.old self.new i None }
    {
        let before = place_at(&self.places, i);
        empty(&mut self.places, i);
        give_up(&mut self.regions, self.alloc, &self.places, before);
        let last = used(&self.places);
        self.places.truncate(last);
    }
}

/// The place of a number.
#[inline(always)]
fn place_at(places: &[Option<Place>], i: usize) -> Option<Place>
    ensures { result ≡ place_at places.now i }
{
    if i < places.len() { places[i] } else { None }
}

/// Empties the place of a number.
#[tactic(auto, using(crate::proofs::PlaceLemmas::place_emptied, crate::proofs::PlaceLemmas::place_absent))]
fn empty(places: &mut Vec<Option<Place>>, i: usize)
    ensures { (k : ℕ) → place_at places.new.items k ≡ (if nat_eq i k then None else place_at places.old.items k) }
{
    if i < places.len() {
        places[i] = None;
    }
}

/// Takes away what the region of an earlier place has behind the last object.
fn give_up(
    regions: &mut Vec<Contents>,
    alloc: Global,
    places: &[Option<Place>],
    before: Option<Place>,
)
    ensures { regions.new.items ≡ given_up regions.old.items places.now before }
{
    match before {
        Some(place) => {
            if is_last(regions, place) {
                trim(regions, alloc, places, place.region);
            }
        }
        None => {}
    }
}

/// Makes places up to one, which are empty.
#[tactic(auto, using(crate::proofs::PlaceLemmas::place_push))]
fn grow(places: &mut Vec<Option<Place>>, i: usize) -> Result<(), AllocError>
    ensures same { (k : ℕ) → place_at places.new.items k ≡ place_at places.old.items k }
    ensures long { OnOk result (i < vec_len places.new) }
{
    while places.len() <= i {
        places.push(None)?;
    }
    Ok(())
}

/// The number of places up to the last that is not empty.
#[tactic(auto, using(crate::proofs::PlaceLemmas::place_past))]
fn used(places: &[Option<Place>]) -> usize
    ensures within { result ≤ length places.now }
    ensures rest { (k : ℕ) → result ≤ k → place_at places.now k ≡ None }
{
    let mut last = places.len();
    while last > 0 && places[last - 1].is_none() {
        last -= 1;
    }
    last
}
