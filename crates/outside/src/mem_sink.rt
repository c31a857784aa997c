ghost use Rattle.std.specs.Prelude.{◌≡◌, ◌+◌, ◌<◌, ◌≤◌, ◌++◌, ◌↔◌, [], Ok, Some, length, take, min, vec_capacity, IfOk, IsErr, OnErr};
ghost use Rattle.std.specs.List.{Contains};
ghost use Rattle.outside.specs.Counts.{Counts, KeepsLimit, next_number};
ghost use Rattle.outside.specs.Moves.{Writes};
ghost use Rattle.outside.specs.InMemory.{SinkState, number_after};

use crate::traits::{Failed, Sink};
use cil_base::Memory;
use std::alloc::Global;
use std::marker::Model;

/// A sink in memory, which fails in the calls whose numbers it was given. Calls are numbered from 0; a
/// call with an empty piece has no number; a number stays at 2^64 - 1. Own.
#[derive(Drop)]
pub struct MemSink {
    kept: Vec<u8>,
    piece: usize,
    room: usize,
    fails: Vec<u64>,
    number: u64,
    faults: u64,
}

impl Model for MemSink {
    ghost Value = { SinkState };

    ghost view = { λ s. record {
      taken = s.kept.items;
      piece = s.piece;
      room = s.room;
      fails = s.fails.items;
      number = s.number;
      faults = s.faults;
    } };

    ghost invariant = { λ s. (s.room ≤ vec_capacity s.kept) × (0 < s.piece) };
}

impl MemSink {
    /// A sink that has memory for `room` bytes, of which a call takes at most `piece`, and which fails in
    /// the calls whose numbers are in `fails`. `Memory` where the room is not to be had.
    pub fn new(alloc: Global, piece: usize, room: usize, fails: Vec<u64>) -> Result<MemSink, Memory>
        requires { 0 < piece }
        ensures { IfOk result (λ s. s ≡ record {
          taken = [];
          piece = piece;
          room = room;
          fails = fails.items;
          number = 0;
          faults = 0;
        }) }
    {
        let kept = Vec::with_capacity(alloc, room).map_err(|_| Memory)?;
        Ok(MemSink {
            kept,
            piece,
            room,
            fails,
            number: 0,
            faults: 0,
        })
    }

    /// The bytes that were taken so far.
    pub fn taken(&self) -> &[u8]
        ensures { result.now ≡ self.now.taken }
    {
        &self.kept
    }
}

impl Sink for MemSink {
    ghost taken = { λ s. Some s.taken };

    ghost faults = { λ s. s.faults };

    /// Takes as many bytes as the piece and the most of a call allow. It is `Failed` where its number is
    /// among those that fail, and in no other call that leaves at most `room` bytes taken; past the room
    /// it may be `Failed` besides, because memory may be wanting.
    fn write(&mut self, bytes: &[u8]) -> Result<usize, Failed>
        ensures write { IfOk result (λ n. Writes (Some self.old.taken) (Some self.new.taken) bytes.now n) }
        ensures failed { OnErr result (Some self.new.taken ≡ Some self.old.taken) }
        ensures empty { length bytes.now ≡ 0 → result ≡ Ok 0 }
        ensures count { Counts self.old.faults self.new.faults result }
        ensures limit { KeepsLimit self.old.faults self.new.faults }
        ensures listed { 0 < length bytes.now → Contains self.old.fails self.old.number → IsErr result }
        ensures within { length self.old.taken + min (length bytes.now) self.old.piece ≤ self.old.room
            → (IsErr result ↔ ((0 < length bytes.now) × Contains self.old.fails self.old.number)) }
        ensures amount { IfOk result (λ n. n ≡ min (length bytes.now) self.old.piece) }
        ensures moved { IfOk result (λ n. self.new ≡ record self.old {
          taken = self.old.taken ++ take n bytes.now;
          number = number_after (length bytes.now) self.old.number;
        }) }
        ensures stays { OnErr result (self.new ≡ record self.old {
          number = next_number self.old.number;
          faults = next_number self.old.faults;
        }) }
    {
        if bytes.is_empty() {
            return Ok(0);
        }
        let number = self.number;
        self.number = number.saturating_add(1);
        if self.fails.contains(&number) {
            self.faults = self.faults.saturating_add(1);
            return Err(Failed);
        }
        let n = bytes.len().min(self.piece);
        if self.kept.extend_from_slice(&bytes[..n]).is_err() {
            self.faults = self.faults.saturating_add(1);
            return Err(Failed);
        }
        Ok(n)
    }
}
