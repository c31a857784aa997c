ghost use Rattle.std.specs.Prelude.{◌≡◌, ◌≤◌, ◌↔◌, [], take, drop, length, vec_len, false, IsTrue, IfOk, OnErr};
ghost use Rattle.execution.specs.Calls.{behind_first};
ghost use Rattle.outside.specs.Counts.{Counts, KeepsLimit};
ghost use Rattle.outside.specs.Moves.{Reads};
ghost use Rattle.cil_streams.specs.Held.{AheadState};
ghost use Rattle.cil_streams.specs.Fetching.{character, Fills};

use byte_mem::Value;
use outside::{Failed, Source};
use std::alloc::{AllocError, Global};
use std::marker::Model;

/// The most bytes that are asked of a source at once.
const PIECE: usize = 4096;

/// The bytes that were read from a source and are not taken yet, and whether the source has given its end. Own.
#[derive(Drop)]
pub struct Ahead {
    buffer: Vec<u8>,
    taken: usize,
    filled: usize,
    ended: bool,
}

impl Model for Ahead {
    ghost Value = { AheadState };

    ghost view = { λ a. record {
      unread = drop a.taken (take a.filled a.buffer.items);
      ended = a.ended;
    } };

    ghost invariant = { λ a. (a.taken ≤ a.filled) × (a.filled ≤ vec_len a.buffer) × (vec_len a.buffer ≡ 4096) };
}

impl Ahead {
    /// Nothing was read yet. It has all the memory that it needs.
    pub fn new(alloc: Global) -> Result<Ahead, AllocError>
        ensures { IfOk result (λ a. a ≡ record { unread = []; ended = false }) }
    {
        Ok(Ahead {
            buffer: vec![in alloc; 0; PIECE]?,
            taken: 0,
            filled: 0,
            ended: false,
        })
    }

    /// Whether no byte is at hand, and the source may have one.
    #[tactic(auto, using(crate::proofs::Unread::no_unread, crate::proofs::Unread::all_taken))]
    pub fn is_used_up(&self) -> bool
        ensures { IsTrue result ↔ ((self.now.unread ≡ []) × (self.now.ended ≡ false)) }
    {
        if self.ended {
            return false;
        }
        self.taken == self.filled
    }

    /// Reads what the source gives at once, at most 4,096 bytes, which is its end where it gives nothing. After `Failed` all
    /// is as before.
    pub fn fill<I: Source>(&mut self, input: &mut I) -> Result<(), Failed>
        requires { self.old.unread ≡ [] }
        ensures filled { Fills result self.old self.new (I.left input.old) (I.left input.new) }
        ensures count { Counts (I.faults input.old) (I.faults input.new) result }
        ensures limit { KeepsLimit (I.faults input.old) (I.faults input.new) }
    {
        let n = read_into(&mut self.buffer, input)?;
        self.taken = 0;
        self.filled = n;
        self.ended = n == 0;
        Ok(())
    }

    /// Takes the next byte: what `getchar` gives of it (C11 7.21.7.6), which is -1 where none is at hand.
    pub fn next_character(&mut self) -> Value
        ensures value { result ≡ character self.old.unread }
        ensures unread { self.new.unread ≡ behind_first self.old.unread }
        ensures ended { self.new.ended ≡ self.old.ended }
    {
        if self.taken == self.filled {
            return Value::Int(-1);
        }
        let b = self.buffer[self.taken];
        self.taken += 1;
        Value::Int(i128::from(b))
    }
}

// Reads into the front of the buffer.
fn read_into<I: Source>(buffer: &mut Vec<u8>, input: &mut I) -> Result<usize, Failed>
    ensures read { IfOk result (λ n. Reads (I.left input.old) (I.left input.new) buffer.old.items buffer.new.items n) }
    ensures len { length buffer.new.items ≡ length buffer.old.items }
    ensures vec_len { vec_len buffer.new ≡ vec_len buffer.old }
    ensures failed { OnErr result (I.left input.new ≡ I.left input.old) }
    ensures count { Counts (I.faults input.old) (I.faults input.new) result }
    ensures limit { KeepsLimit (I.faults input.old) (I.faults input.new) }
{
    input.read(buffer)
}
