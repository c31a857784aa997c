ghost use Rattle.std.specs.Prelude.{◌≡◌, ◌<◌, ◌≤◌, ◌↔◌, Ok, Some, length, drop, min, vec_len, IfOk, IsErr, OnErr};
ghost use Rattle.std.specs.List.{Contains};
ghost use Rattle.outside.specs.Counts.{Counts, KeepsLimit, next_number};
ghost use Rattle.outside.specs.Moves.{Reads};
ghost use Rattle.outside.specs.InMemory.{SourceState, number_after};

use crate::traits::{Failed, Source};
use std::marker::Model;

/// A source in memory, which fails in the calls whose numbers it was given. Calls are numbered from 0; a
/// call with an empty buffer has no number; a number stays at 2^64 - 1. Own.
#[derive(Drop)]
pub struct MemSource {
    bytes: Vec<u8>,
    at: usize,
    piece: usize,
    fails: Vec<u64>,
    number: u64,
    faults: u64,
}

impl Model for MemSource {
    ghost Value = { SourceState };

    ghost view = { λ s. record {
      left = drop s.at s.bytes.items;
      piece = s.piece;
      fails = s.fails.items;
      number = s.number;
      faults = s.faults;
    } };

    ghost invariant = { λ s. (s.at ≤ vec_len s.bytes) × (0 < s.piece) };
}

impl MemSource {
    /// A source of these bytes, of which a call moves at most `piece`, and which fails in the calls whose
    /// numbers are in `fails`.
    pub fn new(bytes: Vec<u8>, piece: usize, fails: Vec<u64>) -> MemSource
        requires { 0 < piece }
        ensures { result ≡ record {
          left = bytes.items;
          piece = piece;
          fails = fails.items;
          number = 0;
          faults = 0;
        } }
    {
        MemSource {
            bytes,
            at: 0,
            piece,
            fails,
            number: 0,
            faults: 0,
        }
    }
}

impl Source for MemSource {
    ghost left = { λ s. Some s.left };

    ghost faults = { λ s. s.faults };

    /// Moves as many bytes as the buffer, the piece and what is left allow, and is `Failed` exactly where
    /// its number is among those that fail.
    fn read(&mut self, buf: &mut [u8]) -> Result<usize, Failed>
        ensures read { IfOk result (λ n. Reads (Some self.old.left) (Some self.new.left) buf.old buf.new n) }
        ensures failed { OnErr result (Some self.new.left ≡ Some self.old.left) }
        ensures empty { length buf.old ≡ 0 → result ≡ Ok 0 }
        ensures count { Counts self.old.faults self.new.faults result }
        ensures limit { KeepsLimit self.old.faults self.new.faults }
        ensures when { IsErr result ↔ ((0 < length buf.old) × Contains self.old.fails self.old.number) }
        ensures amount { IfOk result (λ n. n ≡ min (min (length buf.old) self.old.piece) (length self.old.left)) }
        ensures moved { IfOk result (λ n. self.new ≡ record self.old {
          left = drop n self.old.left;
          number = number_after (length buf.old) self.old.number;
        }) }
        ensures stays { OnErr result ((buf.new ≡ buf.old) × (self.new ≡ record self.old {
          number = next_number self.old.number;
          faults = next_number self.old.faults;
        })) }
    {
        if buf.is_empty() {
            return Ok(0);
        }
        let number = self.number;
        self.number = number.saturating_add(1);
        if self.fails.contains(&number) {
            self.faults = self.faults.saturating_add(1);
            return Err(Failed);
        }
        let n = buf.len().min(self.piece).min(self.bytes.len() - self.at);
        buf[..n].copy_from_slice(&self.bytes[self.at..self.at + n]);
        self.at += n;
        Ok(n)
    }
}
