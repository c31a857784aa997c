ghost use Rattle.std.specs.Prelude.{◌≡◌, ◌<◌, ◌≤◌, length, Some, All};
ghost use Rattle.c_lexer.specs.Entries.{IsWithin};
ghost use Rattle.c_lexer.specs.Lexed.{token_at, text_at, place_at};
ghost use Rattle.cil_base.specs.Limits.{unit_bytes};

use crate::entries::{Entry, Spot};
use cil_base::{Place, Token, UnitNo};
use std::marker::Model;

/// The tokens of a unit with their places, in order.
#[derive(Drop)]
pub struct Tokens<'a> {
    source: &'a [u8],
    unit: UnitNo,
    entries: Vec<Entry>,
    end: Spot,
}

impl<'a> Model for Tokens<'a> {
    ghost use Rattle.std.specs.Prelude.{◌≤◌, length, All};
    ghost use Rattle.c_lexer.specs.Lexed.{Lexed};
    ghost use Rattle.c_lexer.specs.Entries.{IsWithin};
    ghost use Rattle.cil_base.specs.Limits.{unit_bytes};

    ghost Value = { Lexed };

    ghost view = { λ t. record { source = t.source.now; unit = t.unit; entries = t.entries.items; end = t.end } };

    ghost invariant = { λ t. (length t.entries.items ≤ unit_bytes) × All (IsWithin (length t.source.now)) t.entries.items };
}

impl<'a> Tokens<'a> {
    /// The tokens that were read from a source.
    pub(crate) fn new(source: &'a [u8], unit: UnitNo, entries: Vec<Entry>, end: Spot) -> Self
        requires few { length entries.items ≤ unit_bytes }
        requires within { All (IsWithin (length source.now)) entries.items }
        ensures { result ≡ record { source = source.now; unit = unit; entries = entries.items; end = end } }
    {
        Tokens {
            source,
            unit,
            entries,
            end,
        }
    }

    /// The number of tokens.
    pub fn count(&self) -> u32
        ensures { result ≡ length self.now.entries }
    {
        self.entries.len() as u32
    }

    /// A token.
    pub fn token(&self, i: u32) -> Token
        requires { i < length self.now.entries }
        ensures { token_at self.now i ≡ Some result }
    {
        self.entries[i as usize].token
    }

    /// The text of a token: the source from its start up to its end.
    pub fn text(&self, i: u32) -> &'a [u8]
        requires { i < length self.now.entries }
        ensures { text_at self.now i ≡ Some result.now }
    {
        let token = self.entries[i as usize].token;
        let behind = self.source.split_at(token.start as usize).1;
        behind.split_at((token.end - token.start) as usize).0
    }

    /// The place of a token, or of the unit's end, which counts as one more token (C11 6.10.4).
    pub fn place(&self, i: u32) -> Place
        requires { i ≤ length self.now.entries }
        ensures { place_at self.now i ≡ Some result }
    {
        if i as usize == self.entries.len() {
            return Place {
                unit: self.unit,
                token: i,
                file: self.end.file,
                line: self.end.line,
            };
        }
        let entry = self.entries[i as usize];
        Place {
            unit: self.unit,
            token: i,
            file: entry.file,
            line: entry.line,
        }
    }
}
