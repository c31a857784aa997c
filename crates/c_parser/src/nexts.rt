ghost use Rattle.std.specs.Prelude.{◌≡◌, ◌<◌, true, length, drop, IfOk, IfSome};
ghost use Rattle.cil_base.specs.declared.tokens.Punctuator.TheVariants.{Colon};
ghost use Rattle.typedef_scopes.specs.Scopes.{is_type};
ghost use Rattle.c_cursor.specs.Lexemes.{ahead};
ghost use Rattle.c_cursor.specs.Readers.{head, one};
ghost use Rattle.c_cursor.specs.Classes.{next_is, is_sign, name_kind, fitting, if_so, plain, take};
ghost use Rattle.c_exprs.specs.Classes.{is_some_of};
ghost use Rattle.c_cursor.specs.Lexemes.{Onward};
ghost use Rattle.c_cursor.specs.Given.{Gives, next_of};
ghost use Rattle.c_parser.specs.StatementWords.{begins_declaration, begins_by_word, is_while_word, name_ahead, type_ahead, token_ahead, label_ahead, a_statement_word};
ghost use Rattle.c_parser.specs.UnitForms.{is_else_word};

use crate::classes::{begins_declaration, is_else_word, is_while_word, statement_kind};
use crate::words::StatementWord;
use c_cursor::{Cursor, ParseStop, taken};
use c_lexer::TokenList;
use cil_base::{NameId, Punctuator, TokenKind};
use typedef_scopes::Scopes;

/// Whether there is a next token.
#[tactic(auto, using(crate::proofs::NextTokens::token_told, crate::proofs::NextTokens::no_token))]
pub(crate) fn at_token<L: TokenList>(c: &Cursor<L>) -> bool
    ensures is { result ≡ token_ahead (head (ahead c.now).rest) }
    ensures room { result ≡ true → c.now.at < length c.now.all }
{
    match c.next() {
        Some(_) => true,
        None => false,
    }
}

/// Whether the next token begins a declaration (C11 6.7).
#[tactic(auto, using(c_cursor::proofs::NextLemmas::next_told, c_cursor::proofs::NextLemmas::none_told))]
pub(crate) fn at_declaration<L: TokenList>(c: &Cursor<L>, s: &Scopes) -> bool
    ensures is { result ≡ next_is (begins_declaration s.now) (head (ahead c.now).rest) }
    ensures room { result ≡ true → c.now.at < length c.now.all }
{
    match c.next() {
        Some(kind) => begins_declaration(s, kind),
        None => false,
    }
}

/// Whether a token is a word or a brace that begins a statement (C11 6.8).
fn begins_by_word(kind: TokenKind) -> bool
    ensures { result ≡ begins_by_word kind }
{
    statement_kind(kind).is_some()
}

/// Whether the next token is a word or a brace that begins a statement (C11 6.8).
#[tactic(auto, using(c_cursor::proofs::NextLemmas::next_told, c_cursor::proofs::NextLemmas::none_told))]
pub(crate) fn at_statement_word<L: TokenList>(c: &Cursor<L>) -> bool
    ensures { result ≡ next_is begins_by_word (head (ahead c.now).rest) }
{
    match c.next() {
        Some(kind) => begins_by_word(kind),
        None => false,
    }
}

/// Whether the next token is `else`.
#[tactic(auto, using(c_cursor::proofs::NextLemmas::next_told, c_cursor::proofs::NextLemmas::none_told))]
pub(crate) fn at_else<L: TokenList>(c: &Cursor<L>) -> bool
    ensures { result ≡ next_is is_else_word (head (ahead c.now).rest) }
{
    match c.next() {
        Some(kind) => is_else_word(kind),
        None => false,
    }
}

/// The name of a token that is an identifier.
fn name_kind(kind: TokenKind) -> Option<NameId>
    ensures { result ≡ name_kind kind }
{
    match kind {
        TokenKind::Name(n) => Some(n),
        _ => None,
    }
}

/// Whether a token is an identifier.
fn is_name(kind: TokenKind) -> bool
    ensures { result ≡ is_some_of (name_kind kind) }
{
    name_kind(kind).is_some()
}

/// Whether the next token is an identifier.
#[tactic(auto, using(crate::proofs::NextTokens::name_told, crate::proofs::NextTokens::no_name))]
pub(crate) fn at_name<L: TokenList>(c: &Cursor<L>) -> bool
    ensures { result ≡ name_ahead (head (ahead c.now).rest) }
{
    match c.next() {
        Some(kind) => is_name(kind),
        None => false,
    }
}

/// Whether a token is a typedef name in scope.
#[tactic(auto, using(crate::proofs::NextTokens::type_name_told))]
fn is_type_name(s: &Scopes, kind: TokenKind) -> bool
    ensures { result ≡ is_some_of (fitting (is_type s.now) (name_kind kind)) }
{
    match kind {
        TokenKind::Name(n) => s.is_type(n),
        _ => false,
    }
}

/// Whether the next token is a typedef name in scope (C11 6.7.8).
#[tactic(auto, using(crate::proofs::NextTokens::type_told, crate::proofs::NextTokens::no_type))]
pub(crate) fn at_type_name<L: TokenList>(c: &Cursor<L>, s: &Scopes) -> bool
    ensures { result ≡ type_ahead s.now (head (ahead c.now).rest) }
{
    match c.next() {
        Some(kind) => is_type_name(s, kind),
        None => false,
    }
}

/// Whether the token behind the next is a colon.
#[tactic(auto, using(c_cursor::proofs::NextLemmas::next_told, c_cursor::proofs::NextLemmas::none_told))]
fn at_colon_behind<L: TokenList>(c: &Cursor<L>) -> bool
    ensures { result ≡ next_is (is_sign Colon) (head (drop 1 (ahead c.now).rest)) }
{
    match c.second() {
        Some(kind) => is_colon(kind),
        None => false,
    }
}

fn is_colon(kind: TokenKind) -> bool
    ensures { result ≡ is_sign Colon kind }
{
    match kind {
        TokenKind::Punctuator(Punctuator::Colon) => true,
        _ => false,
    }
}

/// Whether the next two tokens are an identifier and a colon, which make a label (C11 6.8.1).
#[tactic(auto, using(crate::proofs::NextTokens::label_told))]
pub(crate) fn at_label<L: TokenList>(c: &Cursor<L>) -> bool
    ensures { result ≡ label_ahead (ahead c.now).rest }
{
    at_name(c) && at_colon_behind(c)
}

/// The word or brace that the next token is, if it begins a statement.
#[tactic(auto, using(c_cursor::proofs::NextLemmas::next_plain, c_cursor::proofs::NextLemmas::none_plain, crate::proofs::NextTokens::words_plain))]
fn next_statement_word<L: TokenList>(c: &Cursor<L>) -> Option<StatementWord>
    ensures found { result ≡ next_of a_statement_word (head (ahead c.now).rest) }
    ensures room { IfSome result (λ _. c.now.at < length c.now.all) }
{
    match c.next() {
        Some(kind) => statement_kind(kind),
        None => None,
    }
}

/// Takes the word or brace that begins a statement (C11 6.8).
#[tactic(auto, using(c_cursor::proofs::NextLemmas::taken_one))]
pub(crate) fn take_statement_word<L: TokenList>(
    c: &mut Cursor<L>,
) -> Result<StatementWord, ParseStop>
    ensures gives { Gives (λ w. w) result (one a_statement_word (ahead c.old)) (ahead c.new) }
    ensures onward { Onward c.old c.new }
    ensures further { IfOk result (λ _. c.old.at < c.new.at) }
{
    let found = next_statement_word(c);
    taken(c, found)
}

/// Something where the condition holds.
fn met(holds: bool) -> Option<()>
    ensures { result ≡ if_so holds tt }
{
    if holds { Some(()) } else { None }
}

/// That the next token is `else`, if it is.
#[tactic(auto, using(crate::proofs::NextTokens::else_plain, c_cursor::proofs::NextLemmas::none_plain))]
fn next_else<L: TokenList>(c: &Cursor<L>) -> Option<()>
    ensures found { result ≡ next_of (plain (λ k. if_so (is_else_word k) tt)) (head (ahead c.now).rest) }
    ensures room { IfSome result (λ _. c.now.at < length c.now.all) }
{
    match c.next() {
        Some(kind) => met(is_else_word(kind)),
        None => None,
    }
}

/// Takes `else`.
#[tactic(auto, using(c_cursor::proofs::NextLemmas::taken_one))]
pub(crate) fn take_else<L: TokenList>(c: &mut Cursor<L>) -> Result<(), ParseStop>
    ensures gives { Gives (λ u. u) result (take is_else_word (ahead c.old)) (ahead c.new) }
    ensures onward { Onward c.old c.new }
{
    let found = next_else(c);
    taken(c, found)
}

/// That the next token is `while`, if it is.
#[tactic(auto, using(crate::proofs::NextTokens::while_plain, c_cursor::proofs::NextLemmas::none_plain))]
fn next_while<L: TokenList>(c: &Cursor<L>) -> Option<()>
    ensures found { result ≡ next_of (plain (λ k. if_so (is_while_word k) tt)) (head (ahead c.now).rest) }
    ensures room { IfSome result (λ _. c.now.at < length c.now.all) }
{
    match c.next() {
        Some(kind) => met(is_while_word(kind)),
        None => None,
    }
}

/// Takes `while`.
#[tactic(auto, using(c_cursor::proofs::NextLemmas::taken_one))]
pub(crate) fn take_while<L: TokenList>(c: &mut Cursor<L>) -> Result<(), ParseStop>
    ensures gives { Gives (λ u. u) result (take is_while_word (ahead c.old)) (ahead c.new) }
    ensures onward { Onward c.old c.new }
{
    let found = next_while(c);
    taken(c, found)
}
