ghost use Rattle.std.specs.Prelude.{◌≡◌, ◌<◌, true, length};
ghost use Rattle.c_cursor.specs.Lexemes.{ahead};
ghost use Rattle.c_cursor.specs.Readers.{head};
ghost use Rattle.c_cursor.specs.Classes.{next_is, next_is_not, is_sign, is_static_word, is_assert_word, is_name, is_literal};

use crate::cursor::Cursor;
use crate::signs::{is_assert_word, is_literal, is_name, is_sign, is_static_word};
use c_lexer::TokenList;
use cil_base::Punctuator;

/// Whether the next token is that punctuator.
#[tactic(auto, using(crate::proofs::NextLemmas::next_told, crate::proofs::NextLemmas::none_told))]
pub fn at_sign<L: TokenList>(c: &Cursor<L>, p: Punctuator) -> bool
    ensures is { result ≡ next_is (is_sign p) (head (ahead c.now).rest) }
    ensures room { result ≡ true → c.now.at < length c.now.all }
{
    match c.next() {
        Some(kind) => is_sign(p, kind),
        None => false,
    }
}

/// Whether there is a next token that is not that punctuator.
#[tactic(auto, using(crate::proofs::NextLemmas::other_told, crate::proofs::NextLemmas::no_other))]
pub fn at_other<L: TokenList>(c: &Cursor<L>, p: Punctuator) -> bool
    ensures is { result ≡ next_is_not p (head (ahead c.now).rest) }
    ensures room { result ≡ true → c.now.at < length c.now.all }
{
    match c.next() {
        Some(kind) => !is_sign(p, kind),
        None => false,
    }
}

/// Whether the next token is `static`.
#[tactic(auto, using(crate::proofs::NextLemmas::next_told, crate::proofs::NextLemmas::none_told))]
pub fn at_static<L: TokenList>(c: &Cursor<L>) -> bool
    ensures { result ≡ next_is is_static_word (head (ahead c.now).rest) }
{
    match c.next() {
        Some(kind) => is_static_word(kind),
        None => false,
    }
}

/// Whether the next token is `_Static_assert`.
#[tactic(auto, using(crate::proofs::NextLemmas::next_told, crate::proofs::NextLemmas::none_told))]
pub fn at_assert<L: TokenList>(c: &Cursor<L>) -> bool
    ensures is { result ≡ next_is is_assert_word (head (ahead c.now).rest) }
    ensures room { result ≡ true → c.now.at < length c.now.all }
{
    match c.next() {
        Some(kind) => is_assert_word(kind),
        None => false,
    }
}

/// Whether the next token is an identifier.
#[tactic(auto, using(crate::proofs::NextLemmas::next_told, crate::proofs::NextLemmas::none_told))]
pub fn at_name<L: TokenList>(c: &Cursor<L>) -> bool
    ensures { result ≡ next_is is_name (head (ahead c.now).rest) }
{
    match c.next() {
        Some(kind) => is_name(kind),
        None => false,
    }
}

/// Whether the next token is a string literal.
#[tactic(auto, using(crate::proofs::NextLemmas::next_told, crate::proofs::NextLemmas::none_told))]
pub fn at_literal<L: TokenList>(c: &Cursor<L>) -> bool
    ensures is { result ≡ next_is is_literal (head (ahead c.now).rest) }
    ensures room { result ≡ true → c.now.at < length c.now.all }
{
    match c.next() {
        Some(kind) => is_literal(kind),
        None => false,
    }
}
