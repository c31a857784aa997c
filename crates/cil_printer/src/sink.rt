ghost use Rattle.std.specs.Prelude.{◌≡◌, ◌∷◌, [], ◌++◌, ◌*◌, replicate, length as length_of, true, false, List, ℕ, IfOk};
ghost use Rattle.cil_printer.specs.Output.{Output, Counted, Written, put, puts, counts, capped, text_of};

use crate::page::Page;
use std::alloc::{AllocError, Global};
use std::marker::Model;

/// What a sink does with bytes.
#[derive(Drop)]
enum Kept {
    /// It counts them. The number is theirs, or the greatest number.
    Length(u64),
    /// It keeps those for which there is room.
    Text(Page),
}

/// Where a text goes: its bytes are counted or kept. Nothing that appends fails: the room of what is kept is
/// taken when the sink is made, and what would not fit is left out.
#[derive(Drop)]
pub(crate) struct Sink {
    kept: Kept,
}

impl Model for Sink {
    ghost use Rattle.cil_printer.specs.Output.{Output, output_of};

    ghost Value = { Output };

    ghost view = { λ s. output_of s.kept };
}

impl Sink {
    /// A sink that counts bytes.
    pub(crate) fn counting() -> Self
        ensures { result ≡ Counted 0 }
    {
        Sink {
            kept: Kept::Length(0),
        }
    }

    /// A sink that keeps bytes, with room for so many.
    pub(crate) fn keeping(alloc: Global, room: usize) -> Result<Self, AllocError>
        ensures { IfOk result (λ s. s ≡ Written room []) }
    {
        let page = Page::new(alloc, room)?;
        Ok(Sink {
            kept: Kept::Text(page),
        })
    }

    /// Whether bytes are counted.
    pub(crate) fn is_counting(&self) -> bool
        ensures { result ≡ counts self.now }
    {
        match &self.kept {
            Kept::Length(_) => true,
            Kept::Text(_) => false,
        }
    }

    /// Counts so many bytes more.
    #[tactic(auto, using(crate::proofs::Puts::put_known))]
    pub(crate) fn add(&mut self, length: u64)
        requires { counts self.old ≡ true }
        ensures { (bytes : List ℕ) → length ≡ capped (length_of bytes) → self.new ≡ put self.old bytes }
    {
        if let Kept::Length(before) = &mut self.kept {
            *before = before.saturating_add(length);
        }
    }

    /// Appends bytes.
    #[tactic(auto, using(crate::proofs::Puts::put_counted, crate::proofs::Puts::put_written))]
    pub(crate) fn push(&mut self, bytes: &[u8])
        ensures { self.new ≡ put self.old bytes.now }
    {
        match &mut self.kept {
            Kept::Length(length) => *length = length.saturating_add(bytes.len() as u64),
            Kept::Text(page) => page.append(bytes),
        }
    }

    /// Appends bytes and one more.
    #[tactic(auto, using(crate::proofs::Puts::ended_counted, crate::proofs::Puts::put_written))]
    fn push_ended(&mut self, bytes: &[u8], last: u8)
        ensures { self.new ≡ put self.old (bytes.now ++ last ∷ []) }
    {
        match &mut self.kept {
            Kept::Length(length) => *length = length.saturating_add(bytes.len() as u64 + 1),
            Kept::Text(page) => page.append_ended(bytes, last),
        }
    }

    /// Appends a token and a blank.
    #[tactic(auto, using(crate::proofs::Puts::token_pushed))]
    pub(crate) fn token(&mut self, token: &[u8])
        ensures { self.new ≡ puts self.old (token.now ∷ []) }
    {
        self.push_ended(token, b' ');
    }

    /// Appends the indentation of a line in so many braces: two blanks for each.
    pub(crate) fn indent(&mut self, depth: u64)
        ensures { self.new ≡ put self.old (replicate (2 * depth) 32) }
    {
        if self.is_counting() {
            self.add(depth.saturating_mul(2));
        } else {
            self.push_indentation(depth);
        }
    }

    /// Appends two blanks for each brace.
    fn push_indentation(&mut self, depth: u64)
        ensures { self.new ≡ put self.old (replicate (2 * depth) 32) }
    {
        for _i in 0..depth {
            self.push(b"  ");
        }
    }

    /// Appends a line's last token and a line feed.
    pub(crate) fn end(&mut self, token: &[u8])
        ensures { self.new ≡ put self.old (token.now ++ 10 ∷ []) }
    {
        self.push_ended(token, b'\n');
    }

    /// The number of bytes that were counted, or the greatest number.
    pub(crate) fn length(&self) -> u64
        requires { counts self.now ≡ true }
        ensures { self.now ≡ Counted result }
    {
        match &self.kept {
            Kept::Length(length) => *length,
            Kept::Text(_) => unreachable!(),
        }
    }

    /// The bytes that were kept.
    pub(crate) fn into_bytes(self) -> Vec<u8>
        requires { counts self ≡ false }
        ensures { text_of self ≡ result.items }
    {
        match self.kept {
            Kept::Length(_) => unreachable!(),
            Kept::Text(page) => page.bytes,
        }
    }
}
