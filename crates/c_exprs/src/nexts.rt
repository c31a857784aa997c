ghost use Rattle.std.specs.Prelude.{◌≡◌, ◌<◌, true, not, ◌&&◌, ◌||◌, length};
ghost use Rattle.cil_base.specs.declared.tokens.Punctuator.TheVariants.{RightParen};
ghost use Rattle.c_cursor.specs.Lexemes.{ahead};
ghost use Rattle.c_cursor.specs.Readers.{head};
ghost use Rattle.c_cursor.specs.Classes.{next_is, is_sign, name_kind};
ghost use Rattle.c_exprs.specs.Classes.{is_qualifier, is_designation, is_some_of, begins_type_name, begins_parameter};

use crate::derivations::designation_kind;
use crate::pieces::{begins_parameter, begins_type_name, qualifier_kind};
use c_cursor::{Cursor, is_sign, name_kind};
use c_lexer::TokenList;
use cil_base::{Punctuator, TokenKind};
use typedef_scopes::Scopes;

/// Whether a token is a type qualifier (C11 6.7.3).
fn is_qualifier(kind: TokenKind) -> bool
    ensures { result ≡ is_qualifier kind }
{
    qualifier_kind(kind).is_some()
}

/// Whether the next token is a type qualifier (C11 6.7.3).
#[tactic(auto, using(c_cursor::proofs::NextLemmas::next_told, c_cursor::proofs::NextLemmas::none_told))]
pub(crate) fn at_qualifier<L: TokenList>(c: &Cursor<L>) -> bool
    ensures is { result ≡ next_is is_qualifier (head (ahead c.now).rest) }
    ensures room { result ≡ true → c.now.at < length c.now.all }
{
    match c.next() {
        Some(kind) => is_qualifier(kind),
        None => false,
    }
}

/// Whether a token begins a designator (C11 6.7.9).
fn is_designation(kind: TokenKind) -> bool
    ensures { result ≡ is_designation kind }
{
    designation_kind(kind).is_some()
}

/// Whether the next token begins a designator (C11 6.7.9).
#[tactic(auto, using(c_cursor::proofs::NextLemmas::next_told, c_cursor::proofs::NextLemmas::none_told))]
pub(crate) fn at_designation<L: TokenList>(c: &Cursor<L>) -> bool
    ensures is { result ≡ next_is is_designation (head (ahead c.now).rest) }
    ensures room { result ≡ true → c.now.at < length c.now.all }
{
    match c.next() {
        Some(kind) => is_designation(kind),
        None => false,
    }
}

/// Whether the next token begins a type name (C11 6.7.7).
#[tactic(auto, using(c_cursor::proofs::NextLemmas::next_told, c_cursor::proofs::NextLemmas::none_told))]
pub(crate) fn at_type<L: TokenList>(c: &Cursor<L>, s: &Scopes) -> bool
    ensures { result ≡ next_is (begins_type_name s.now) (head (ahead c.now).rest) }
{
    match c.next() {
        Some(kind) => begins_type_name(s, kind),
        None => false,
    }
}

/// Whether a token behind `(` makes that the parenthesis of a function's declarator.
fn is_function_start(s: &Scopes, kind: TokenKind) -> bool
    ensures { result ≡ (is_sign RightParen kind || begins_parameter s.now kind) }
{
    is_sign(Punctuator::RightParen, kind) || begins_parameter(s, kind)
}

/// Whether the next token makes the `(` before it that of a function's declarator, where the name may be absent (C11 6.7.6.3p11).
#[tactic(auto, using(c_cursor::proofs::NextLemmas::next_told, c_cursor::proofs::NextLemmas::none_told))]
pub(crate) fn at_function<L: TokenList>(c: &Cursor<L>, s: &Scopes) -> bool
    ensures { result ≡ next_is (λ k. is_sign RightParen k || begins_parameter s.now k) (head (ahead c.now).rest) }
{
    match c.next() {
        Some(kind) => is_function_start(s, kind),
        None => false,
    }
}

/// Whether a token is an identifier that begins no parameter.
fn is_identifier_start(s: &Scopes, kind: TokenKind) -> bool
    ensures { result ≡ (is_some_of (name_kind kind) && not (begins_parameter s.now kind)) }
{
    name_kind(kind).is_some() && !begins_parameter(s, kind)
}

/// Whether the next token is an identifier that begins no parameter.
#[tactic(auto, using(c_cursor::proofs::NextLemmas::next_told, c_cursor::proofs::NextLemmas::none_told))]
pub(crate) fn at_identifier<L: TokenList>(c: &Cursor<L>, s: &Scopes) -> bool
    ensures { result ≡ next_is (λ k. is_some_of (name_kind k) && not (begins_parameter s.now k)) (head (ahead c.now).rest) }
{
    match c.next() {
        Some(kind) => is_identifier_start(s, kind),
        None => false,
    }
}
