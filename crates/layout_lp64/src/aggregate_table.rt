ghost use Rattle.std.specs.Prelude.{◌≡◌, ◌+◌, ◌<◌, ◌≤◌, Some, None, [], ◌∷◌, ◌++◌, length, slice_get, slice_set, IsSome, IfOk, OnOk, OnErr};
ghost use Rattle.std.specs.Option.{option_map};
ghost use Rattle.layout_lp64.specs.Placements.{seen};
ghost use Rattle.layout_lp64.specs.Tables.{whole_found, offset_found};
ghost use Rattle.layout_lp64.specs.Entries.{entry_of, IsWithin, AddsOffsets};

use crate::placing::AggregateLayout;
use cil_base::{AggId, Memory};
use std::alloc::Global;
use std::marker::Model;
use type_graph::Layout;

/// The size and alignment of an aggregate, and where its members' offsets stand in the list of all.
#[derive(Clone, Copy)]
pub(crate) struct Entry {
    whole: Layout,
    first: u32,
    count: u32,
}

/// Adds the offsets of an aggregate to the list of all.
#[tactic(auto, using(crate::proofs::EntryLaws::entry_kept))]
fn kept(offsets: &mut Vec<u32>, layout: &AggregateLayout) -> Result<Entry, Memory>
    ensures is { IfOk result (λ e. entry_of offsets.new.items e ≡ seen layout.now) }
    ensures within { IfOk result (λ e. e.first + e.count ≤ length offsets.new.items) }
    ensures adds { OnOk result (AddsOffsets offsets.old.items offsets.new.items) }
    ensures err { OnErr result (offsets.new.items ≡ offsets.old.items) }
{
    let first = offsets.len();
    let count = layout.offsets.len();
    if first + count > u32::MAX as usize {
        return Err(Memory);
    }
    offsets.extend_from_slice(&layout.offsets)?;
    Ok(Entry {
        whole: layout.whole,
        first: first as u32,
        count: count as u32,
    })
}

/// The same, where the aggregate is complete.
fn kept_if(
    offsets: &mut Vec<u32>,
    layout: &Option<AggregateLayout>,
) -> Result<Option<Entry>, Memory>
    ensures is { IfOk result (λ o. option_map (entry_of offsets.new.items) o ≡ option_map seen layout.now) }
    ensures within { IfOk result (λ o. IsWithin (length offsets.new.items) o) }
    ensures adds { OnOk result (AddsOffsets offsets.old.items offsets.new.items) }
    ensures err { OnErr result (offsets.new.items ≡ offsets.old.items) }
{
    match layout {
        None => Ok(None),
        Some(layout) => {
            let entry = kept(offsets, layout)?;
            Ok(Some(entry))
        }
    }
}

/// The offset of a member of the entry's aggregate, if it is there.
fn member_offset(offsets: &[u32], e: Entry, member: u32) -> Option<u32>
    requires { e.first + e.count ≤ length offsets.now }
    ensures { result ≡ slice_get (entry_of offsets.now e).offsets member }
{
    let first = e.first as usize;
    match offsets[first..first + e.count as usize].get(member as usize) {
        None => None,
        Some(offset) => Some(*offset),
    }
}

/// The layouts of aggregates by number, none while an aggregate is incomplete. Contracts see them as a list;
/// the offsets of all members stand in one vector.
#[derive(Drop)]
pub(crate) struct AggregateTable {
    entries: Vec<Option<Entry>>,
    offsets: Vec<u32>,
}

impl Model for AggregateTable {
    ghost use Rattle.std.specs.Prelude.{List, Option, length};
    ghost use Rattle.type_graph.specs.Layouts.{AggLayout};
    ghost use Rattle.layout_lp64.specs.Entries.{entries_of, AreWithin};

    ghost Value = { List (Option AggLayout) };

    ghost view = { λ s. entries_of s.offsets.items s.entries.items };

    ghost invariant = { λ s. AreWithin s.entries.items (length s.offsets.items) };
}

impl AggregateTable {
    /// No aggregates.
    pub(crate) fn new(alloc: Global) -> Self
        ensures { result ≡ [] }
    {
        AggregateTable {
            entries: Vec::new(alloc),
            offsets: Vec::new(alloc),
        }
    }

    /// The number of aggregates.
    pub(crate) fn len(&self) -> usize
        ensures { result ≡ length self.now }
    {
        self.entries.len()
    }

    /// Adds an incomplete aggregate.
    pub(crate) fn push_incomplete(&mut self) -> Result<(), Memory>
        ensures ok { OnOk result (self.new ≡ self.old ++ None ∷ []) }
        ensures err { OnErr result (self.new ≡ self.old) }
    {
        self.entries.push(None)?;
        Ok(())
    }

    /// Gives an aggregate its layout.
    pub(crate) fn set(&mut self, a: AggId, layout: &Option<AggregateLayout>) -> Result<(), Memory>
        requires { a.0 < length self.old }
        ensures ok { OnOk result (self.new ≡ slice_set self.old a.0 (option_map seen layout.now)) }
        ensures err { OnErr result (self.new ≡ self.old) }
    {
        let entry = kept_if(&mut self.offsets, layout)?;
        self.entries[a.0 as usize] = entry;
        Ok(())
    }

    /// The size and alignment of an aggregate, if it is there and complete.
    pub(crate) fn whole(&self, a: AggId) -> Option<Layout>
        ensures { result ≡ whole_found self.now a.0 }
    {
        match self.entries.get(a.0 as usize) {
            Some(Some(e)) => Some(e.whole),
            Some(None) => None,
            None => None,
        }
    }

    /// The offset of a member, if it is there and the aggregate is complete.
    pub(crate) fn known_offset(&self, a: AggId, member: u32) -> Option<u32>
        ensures { result ≡ offset_found self.now a.0 member }
    {
        match self.entries.get(a.0 as usize) {
            Some(Some(e)) => member_offset(&self.offsets, *e, member),
            Some(None) => None,
            None => None,
        }
    }

    /// The offset of a member.
    pub(crate) fn offset(&self, a: AggId, member: u32) -> u32
        requires { IsSome (offset_found self.now a.0 member) }
        ensures { offset_found self.now a.0 member ≡ Some result }
    {
        match &self.entries[a.0 as usize] {
            Some(e) => self.offsets[e.first as usize + member as usize],
            None => unreachable!(),
        }
    }
}
