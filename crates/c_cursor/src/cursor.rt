ghost use Rattle.std.specs.Prelude.{◌≡◌, ◌+◌, ◌<◌, ◌≤◌, ◌^◌, length, drop, IfSome};
ghost use Rattle.c_cursor.specs.Lexemes.{lexemes, ahead};
ghost use Rattle.c_cursor.specs.Readers.{head};
ghost use Rattle.c_cursor.specs.Given.{IsNext, IsValue};

use crate::signs::has_text;
use c_lexer::TokenList;
use cil_base::TokenKind;
use std::marker::Model;

/// A place between the tokens of a list, from which on they are read.
#[derive(Drop)]
pub struct Cursor<'a, L: TokenList> {
    list: &'a L,
    at: u32,
    /// The number of tokens.
    end: u32,
}

impl<'a, L: TokenList> Model for Cursor<'a, L> {
    ghost use Rattle.std.specs.Prelude.{◌≡◌, ◌≤◌, length};
    ghost use Rattle.c_cursor.specs.Lexemes.{Standing, lexemes};

    ghost Value = { Standing };

    ghost view = { λ c. record { all = lexemes (L.lexed c.list.now); at = c.at } };

    ghost invariant = { λ c. (c.at ≤ c.end) × (c.end ≡ length (L.lexed c.list.now).entries) };
}

impl<'a, L: TokenList> Cursor<'a, L> {
    /// Before the first token.
    pub fn new(list: &'a L) -> Self
        ensures { result ≡ record { all = lexemes (L.lexed list.now); at = 0 } }
    {
        Cursor {
            list,
            at: 0,
            end: list.count(),
        }
    }

    /// The number of the token before which the cursor stands.
    pub fn position(&self) -> u32
        ensures { result ≡ self.now.at }
    {
        self.at
    }

    /// Puts the cursor before a token, or behind the last.
    pub fn move_to(&mut self, i: u32)
        requires { i ≤ length self.old.all }
        ensures { self.new ≡ record { all = self.old.all; at = i } }
    {
        self.at = i;
    }

    /// The kind of the next token (C11 6.4), if there is one.
    pub fn next(&self) -> Option<TokenKind>
        ensures kind { IsNext result (head (ahead self.now).rest) }
        ensures room { IfSome result (λ _. self.now.at < length self.now.all) }
        ensures fits { IfSome result (λ _. self.now.at + 1 < 2 ^ 32) }
    {
        if self.at < self.end {
            Some(self.list.token(self.at).kind)
        } else {
            None
        }
    }

    /// The kind of the token behind the next one, if there is one.
    pub fn second(&self) -> Option<TokenKind>
        ensures kind { IsNext result (head (drop 1 (ahead self.now).rest)) }
    {
        if self.end - self.at >= 2 {
            Some(self.list.token(self.at + 1).kind)
        } else {
            None
        }
    }

    /// The text of the next token, if it is a constant or literal; otherwise nothing.
    pub fn next_text(&self) -> &'a [u8]
        requires { self.now.at < length self.now.all }
        ensures { IsValue result.now (head (ahead self.now).rest) }
    {
        if has_text(self.list.token(self.at).kind) {
            self.list.text(self.at)
        } else {
            &[]
        }
    }

    /// Puts the cursor behind the next token.
    pub fn advance(&mut self)
        requires { self.old.at < length self.old.all }
        ensures { self.new ≡ record { all = self.old.all; at = self.old.at + 1 } }
    {
        self.at += 1;
    }
}
