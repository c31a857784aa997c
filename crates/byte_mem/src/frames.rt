ghost use Rattle.std.specs.Prelude.{◌≡◌, ◌<◌, ◌≤◌, ◌+◌, ◌↔◌, ℕ, [], None, Some, length, IsTrue, MatchOption};
ghost use Rattle.byte_mem.specs.Change.{changed_live, stored_live};
ghost use Rattle.byte_mem.specs.Layers.{local, number_at, slots_at, IsFrame, IsAbsent, IsRising, LocalChanges, LocalPut, IsLocalPut};
ghost use Rattle.byte_mem.specs.Places.{begun};

use crate::objects::{Beginning, Change, Object};
use crate::pages::Pages;
use crate::pointers::Pointer;
use crate::regions::Sharing;
use crate::values::{Scalar, Value};
use cil_base::Abi;
use std::alloc::{AllocError, Global};
use std::marker::Model;

/// Few locals share a region of bytes, of whatever sizes, since all of them end with their activation.
const SHARING: Sharing = Sharing {
    objects: 4,
    is_alike: false,
};

/// The objects of an activation of a function.
#[derive(Drop)]
pub struct Frame {
    pub activation: u64,
    pub slots: Pages,
}

/// The activations that have objects, in rising order of their numbers. Most accesses are to the last.
#[derive(Drop)]
pub struct Stack {
    frames: Vec<Frame>,
}

impl Model for Stack {
    ghost use Rattle.std.specs.Prelude.{List};
    ghost use Rattle.byte_mem.specs.declared.frames.Frame.{Frame};

    ghost Value = { List Frame };

    ghost use Rattle.byte_mem.specs.Layers.{IsRising};

    ghost view = { λ s. s.frames.items };

    ghost invariant = { λ s. IsRising s.frames.items };
}

impl Stack {
    pub fn new(alloc: Global) -> Self
        ensures { result ≡ [] }
    {
        Stack {
            frames: Vec::new(alloc),
        }
    }

    /// The object of a number in an activation.
    #[inline(always)]
    pub fn get(&self, activation: u64, i: usize) -> Option<Object<'_>>
        ensures { local self.now activation i ≡ result }
    {
        get_in(&self.frames, activation, i)
    }

    /// Changes the object of a number in an activation.
    pub fn change(
        &mut self,
        activation: u64,
        i: usize,
        at: Pointer,
        change: Change<'_>,
    ) -> Option<()>
        ensures { LocalChanges result self.old self.new activation i (changed_live at.offset change.entry (local self.old activation i)) }
    {
        change_in(&mut self.frames, activation, i, at, change)
    }

    /// Stores a scalar in the object of a number in an activation.
    #[inline(always)]
    pub fn store(
        &mut self,
        abi: Abi,
        activation: u64,
        i: usize,
        at: Pointer,
        s: Scalar,
        v: Value,
    ) -> Option<()>
        ensures { LocalChanges result self.old self.new activation i (stored_live abi at.offset s v (local self.old activation i)) }
    {
        store_in(&mut self.frames, abi, activation, i, at, s, v)
    }

    /// Puts an object into an activation, in the place of an earlier one.
    pub fn put(
        &mut self,
        alloc: Global,
        activation: u64,
        i: usize,
        b: &Beginning,
    ) -> Result<(), AllocError>
        ensures { LocalPut result self.old self.new activation i (Some (begun b.now)) }
    {
        match find(&self.frames, activation) {
            Some(k) => put_in(&mut self.frames, k, activation, i, b),
            None => add_frame(&mut self.frames, alloc, activation, i, b),
        }
    }

    /// Ends an object of an activation, and takes away activations at the end that have none.
    pub fn clear(&mut self, activation: u64, i: usize)
        ensures { IsLocalPut self.old self.new activation i None }
    {
        clear_in(&mut self.frames, activation, i);
        shed(&mut self.frames);
    }
}

#[tactic(auto, using(crate::proofs::FrameLemmas::local_found, crate::proofs::FrameLemmas::local_absent))]
#[inline(always)]
fn get_in(frames: &[Frame], activation: u64, i: usize) -> Option<Object<'_>>
    requires { IsRising frames.now }
    ensures { local frames.now activation i ≡ result }
{
    match find(frames, activation) {
        Some(k) => frames[k].slots.get(i),
        None => None,
    }
}

/// The place of an activation among the frames.
#[tactic(auto, using(crate::proofs::FrameLemmas::number_read))]
#[inline(always)]
fn find(frames: &[Frame], activation: u64) -> Option<usize>
    requires { IsRising frames.now }
    ensures { MatchOption result (IsAbsent frames.now activation) (λ k. IsFrame frames.now activation k) }
{
    let top = frames.len();
    if top == 0 {
        return None;
    }
    if frames[top - 1].activation == activation {
        return Some(top - 1);
    }
    let k = position(frames, activation);
    if is_at(frames, k, activation) {
        Some(k)
    } else {
        None
    }
}

/// Whether the frame at a place is that of an activation.
#[tactic(auto, using(crate::proofs::FrameLemmas::number_read))]
fn is_at(frames: &[Frame], k: usize, activation: u64) -> bool
    ensures { IsTrue result ↔ IsFrame frames.now activation k }
{
    k < frames.len() && frames[k].activation == activation
}

/// The number of frames of lower activations.
#[tactic(auto, using(crate::proofs::FrameLemmas::number_read))]
fn position(frames: &[Frame], activation: u64) -> usize
    requires { IsRising frames.now }
    ensures within { result ≤ length frames.now }
    ensures below { (k : ℕ) → k < result → number_at frames.now k < activation }
    ensures above { (k : ℕ) → result ≤ k → k < length frames.now → activation ≤ number_at frames.now k }
{
    let mut low = 0;
    let mut high = frames.len();
    while low < high {
        let middle = low + (high - low) / 2;
        if frames[middle].activation < activation {
            low = middle + 1;
        } else {
            high = middle;
        }
    }
    low
}

fn change_in(
    frames: &mut [Frame],
    activation: u64,
    i: usize,
    at: Pointer,
    change: Change<'_>,
) -> Option<()>
    requires { IsRising frames.old }
    ensures changed { LocalChanges result frames.old frames.new activation i (changed_live at.offset change.entry (local frames.old activation i)) }
    ensures rising { IsRising frames.new }
{
    match find(frames, activation) {
        Some(k) => frames[k].slots.change(i, at, change),
        None => None,
    }
}

#[inline(always)]
fn store_in(
    frames: &mut [Frame],
    abi: Abi,
    activation: u64,
    i: usize,
    at: Pointer,
    s: Scalar,
    v: Value,
) -> Option<()>
    requires { IsRising frames.old }
    ensures stored { LocalChanges result frames.old frames.new activation i (stored_live abi at.offset s v (local frames.old activation i)) }
    ensures rising { IsRising frames.new }
{
    match find(frames, activation) {
        Some(k) => frames[k].slots.store(abi, i, at, s, v),
        None => None,
    }
}

fn put_in(
    frames: &mut [Frame],
    k: usize,
    activation: u64,
    i: usize,
    b: &Beginning,
) -> Result<(), AllocError>
    requires rising { IsRising frames.old }
    requires found { IsFrame frames.old activation k }
    ensures put { LocalPut result frames.old frames.new activation i (Some (begun b.now)) }
    ensures rising { IsRising frames.new }
{
    frames[k].slots.put(i, b)
}

/// Adds the frame of an activation that has none yet.
fn add_frame(
    frames: &mut Vec<Frame>,
    alloc: Global,
    activation: u64,
    i: usize,
    b: &Beginning,
) -> Result<(), AllocError>
    requires rising { IsRising frames.old.items }
    requires absent { IsAbsent frames.old.items activation }
    ensures put { LocalPut result frames.old.items frames.new.items activation i (Some (begun b.now)) }
    ensures rising { IsRising frames.new.items }
{
    let mut slots = Pages::new(alloc, SHARING);
    slots.put(i, b)?;
    let k = position(frames, activation);
    frames.insert(k, Frame { activation, slots })?;
    Ok(())
}

fn clear_in(frames: &mut [Frame], activation: u64, i: usize)
    requires { IsRising frames.old }
    ensures cleared { IsLocalPut frames.old frames.new activation i None }
    ensures rising { IsRising frames.new }
{
    match find(frames, activation) {
        Some(k) => frames[k].slots.clear(i),
        None => {}
    }
}

/// Takes the frames at the end away that have no objects.
fn shed(frames: &mut Vec<Frame>)
    requires { IsRising frames.old.items }
    ensures same { (a k : ℕ) → local frames.new.items a k ≡ local frames.old.items a k }
    ensures rising { IsRising frames.new.items }
{
    let last = used(frames);
    frames.truncate(last);
}

/// The number of frames up to the last that has objects.
#[tactic(auto, using(crate::proofs::FrameLemmas::slots_read, crate::proofs::FrameLemmas::slots_past))]
fn used(frames: &[Frame]) -> usize
    ensures within { result ≤ length frames.now }
    ensures rest { (k : ℕ) → result ≤ k → slots_at frames.now k ≡ [] }
{
    let mut last = frames.len();
    while last > 0 && frames[last - 1].slots.is_empty() {
        last -= 1;
    }
    last
}
