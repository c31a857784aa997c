ghost use Rattle.std.specs.Prelude.{◌≡◌, ◌<◌, ◌≤◌, length, Some};
ghost use Rattle.c_lexer.specs.Lexed.{Lexed, token_at, text_at, place_at};

use crate::tokens::Tokens;
use cil_base::{Place, Token};

/// The tokens of a unit with their texts and places, in order, however they are kept.
pub trait TokenList {
    // the tokens as the lexer gives them
    ghost lexed: { Self → Lexed };

    /// The number of tokens.
    fn count(&self) -> u32
        ensures { result ≡ length (lexed self.now).entries };

    /// A token.
    fn token(&self, i: u32) -> Token
        requires { i < length (lexed self.now).entries }
        ensures { token_at (lexed self.now) i ≡ Some result };

    /// The text of a token.
    fn text(&self, i: u32) -> &[u8]
        requires { i < length (lexed self.now).entries }
        ensures { text_at (lexed self.now) i ≡ Some result.now };

    /// The place of a token, or of the unit's end, which counts as one more token (C11 6.10.4).
    fn place(&self, i: u32) -> Place
        requires { i ≤ length (lexed self.now).entries }
        ensures { place_at (lexed self.now) i ≡ Some result };
}

impl<'a> TokenList for Tokens<'a> {
    ghost lexed = { λ t. t };

    fn count(&self) -> u32 {
        self.count()
    }

    fn token(&self, i: u32) -> Token {
        self.token(i)
    }

    fn text(&self, i: u32) -> &[u8] {
        self.text(i)
    }

    fn place(&self, i: u32) -> Place {
        self.place(i)
    }
}
