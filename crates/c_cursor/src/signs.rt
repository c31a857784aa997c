ghost use Rattle.std.specs.Prelude.{◌≡◌};
ghost use Rattle.c_cursor.specs.Classes.{is_sign, is_static_word, is_assert_word, is_name, is_literal, has_text, name_kind};

use cil_base::{Keyword, NameId, Punctuator, TokenKind};

/// Whether a token is that punctuator.
#[tactic(auto, using(crate::proofs::SignLemmas::same_sign))]
pub fn is_sign(p: Punctuator, kind: TokenKind) -> bool
    ensures { result ≡ is_sign p kind }
{
    match kind {
        TokenKind::Name(_) => false,
        TokenKind::Keyword(_) => false,
        TokenKind::Integer => false,
        TokenKind::Character => false,
        TokenKind::Literal => false,
        TokenKind::Punctuator(q) => p == q,
    }
}

/// Whether a token is `static`.
pub fn is_static_word(kind: TokenKind) -> bool
    ensures { result ≡ is_static_word kind }
{
    match kind {
        TokenKind::Keyword(Keyword::Static) => true,
        _ => false,
    }
}

/// Whether a token is `_Static_assert`.
pub fn is_assert_word(kind: TokenKind) -> bool
    ensures { result ≡ is_assert_word kind }
{
    match kind {
        TokenKind::Keyword(Keyword::StaticAssert) => true,
        _ => false,
    }
}

/// Whether a token is an identifier.
pub fn is_name(kind: TokenKind) -> bool
    ensures { result ≡ is_name kind }
{
    match kind {
        TokenKind::Name(_) => true,
        _ => false,
    }
}

/// Whether a token is a string literal.
pub fn is_literal(kind: TokenKind) -> bool
    ensures { result ≡ is_literal kind }
{
    match kind {
        TokenKind::Literal => true,
        _ => false,
    }
}

/// Whether a token is told by its text too.
pub fn has_text(kind: TokenKind) -> bool
    ensures { result ≡ has_text kind }
{
    match kind {
        TokenKind::Name(_) => false,
        TokenKind::Keyword(_) => false,
        TokenKind::Integer => true,
        TokenKind::Character => true,
        TokenKind::Literal => true,
        TokenKind::Punctuator(_) => false,
    }
}

/// The name of a token that is an identifier.
pub fn name_kind(kind: TokenKind) -> Option<NameId>
    ensures { result ≡ name_kind kind }
{
    match kind {
        TokenKind::Name(n) => Some(n),
        _ => None,
    }
}
