ghost use Rattle.std.specs.Prelude.{◌≡◌, ◌<◌, Some, length, IfOk, IfSome};
ghost use Rattle.c_cursor.specs.Lexemes.{Onward, ahead};
ghost use Rattle.c_cursor.specs.Readers.{head, one};
ghost use Rattle.c_cursor.specs.Classes.{is_sign, is_static_word, is_assert_word, if_so, plain, take, a_name};
ghost use Rattle.c_cursor.specs.Given.{Gives, next_of, given};

use crate::cursor::Cursor;
use crate::signs::{is_assert_word, is_sign, is_static_word, name_kind};
use crate::stops::ParseStop;
use c_lexer::TokenList;
use cil_base::{NameId, Punctuator};

/// Takes the next token, where something was found in it; where nothing was, the next token is the fault.
#[tactic(auto, using(crate::proofs::NextLemmas::given_ahead))]
pub fn taken<L: TokenList, A: Copy>(c: &mut Cursor<L>, found: Option<A>) -> Result<A, ParseStop>
    requires room { IfSome found (λ _. c.old.at < length c.old.all) }
    ensures gives { Gives (λ a. a) result (given found (ahead c.old)) (ahead c.new) }
    ensures onward { Onward c.old c.new }
    ensures further { IfOk result (λ _. c.old.at < c.new.at) }
    ensures found { IfOk result (λ a. found ≡ Some a) }
{
    match found {
        Some(a) => {
            c.advance();
            Ok(a)
        }
        None => Err(ParseStop::At(c.position())),
    }
}

/// That the next token is that punctuator, if it is.
#[tactic(auto, using(crate::proofs::NextLemmas::sign_plain, crate::proofs::NextLemmas::none_plain))]
fn next_sign<L: TokenList>(c: &Cursor<L>, p: Punctuator) -> Option<()>
    ensures found { result ≡ next_of (plain (λ k. if_so (is_sign p k) tt)) (head (ahead c.now).rest) }
    ensures room { IfSome result (λ _. c.now.at < length c.now.all) }
{
    match c.next() {
        Some(kind) => met(is_sign(p, kind)),
        None => None,
    }
}

/// Takes that punctuator (C11 6.4.6).
#[tactic(auto, using(crate::proofs::NextLemmas::taken_one))]
pub fn take_sign<L: TokenList>(c: &mut Cursor<L>, p: Punctuator) -> Result<(), ParseStop>
    ensures gives { Gives (λ u. u) result (take (is_sign p) (ahead c.old)) (ahead c.new) }
    ensures onward { Onward c.old c.new }
    ensures further { IfOk result (λ _. c.old.at < c.new.at) }
{
    let found = next_sign(c, p);
    taken(c, found)
}

/// Something where the condition holds.
fn met(holds: bool) -> Option<()>
    ensures { result ≡ if_so holds tt }
{
    if holds { Some(()) } else { None }
}

/// The name of the next token, if it is an identifier.
#[tactic(auto, using(crate::proofs::NextLemmas::next_plain, crate::proofs::NextLemmas::none_plain, crate::proofs::NextLemmas::names_plain))]
pub fn next_name<L: TokenList>(c: &Cursor<L>) -> Option<NameId>
    ensures found { result ≡ next_of a_name (head (ahead c.now).rest) }
    ensures room { IfSome result (λ _. c.now.at < length c.now.all) }
{
    match c.next() {
        Some(kind) => name_kind(kind),
        None => None,
    }
}

/// Takes an identifier (C11 6.4.2).
#[tactic(auto, using(crate::proofs::NextLemmas::taken_one))]
pub fn take_name<L: TokenList>(c: &mut Cursor<L>) -> Result<NameId, ParseStop>
    ensures gives { Gives (λ n. n) result (one a_name (ahead c.old)) (ahead c.new) }
    ensures onward { Onward c.old c.new }
    ensures further { IfOk result (λ _. c.old.at < c.new.at) }
{
    let found = next_name(c);
    taken(c, found)
}

/// That the next token is `static`, if it is.
#[tactic(auto, using(crate::proofs::NextLemmas::static_plain, crate::proofs::NextLemmas::none_plain))]
fn next_static<L: TokenList>(c: &Cursor<L>) -> Option<()>
    ensures found { result ≡ next_of (plain (λ k. if_so (is_static_word k) tt)) (head (ahead c.now).rest) }
    ensures room { IfSome result (λ _. c.now.at < length c.now.all) }
{
    match c.next() {
        Some(kind) => met(is_static_word(kind)),
        None => None,
    }
}

/// Takes `static`.
#[tactic(auto, using(crate::proofs::NextLemmas::taken_one))]
pub fn take_static<L: TokenList>(c: &mut Cursor<L>) -> Result<(), ParseStop>
    ensures gives { Gives (λ u. u) result (take is_static_word (ahead c.old)) (ahead c.new) }
    ensures onward { Onward c.old c.new }
    ensures further { IfOk result (λ _. c.old.at < c.new.at) }
{
    let found = next_static(c);
    taken(c, found)
}

/// That the next token is `_Static_assert`, if it is.
#[tactic(auto, using(crate::proofs::NextLemmas::assert_plain, crate::proofs::NextLemmas::none_plain))]
fn next_assert<L: TokenList>(c: &Cursor<L>) -> Option<()>
    ensures found { result ≡ next_of (plain (λ k. if_so (is_assert_word k) tt)) (head (ahead c.now).rest) }
    ensures room { IfSome result (λ _. c.now.at < length c.now.all) }
{
    match c.next() {
        Some(kind) => met(is_assert_word(kind)),
        None => None,
    }
}

/// Takes `_Static_assert` (C11 6.7.10).
#[tactic(auto, using(crate::proofs::NextLemmas::taken_one))]
pub fn take_assert<L: TokenList>(c: &mut Cursor<L>) -> Result<(), ParseStop>
    ensures gives { Gives (λ u. u) result (take is_assert_word (ahead c.old)) (ahead c.new) }
    ensures onward { Onward c.old c.new }
    ensures further { IfOk result (λ _. c.old.at < c.new.at) }
{
    let found = next_assert(c);
    taken(c, found)
}
