ghost use Rattle.std.specs.Prelude.{◌≡◌, ◌<◌, true, [], length};
ghost use Rattle.c_cursor.specs.Lexemes.{ahead};
ghost use Rattle.c_cursor.specs.Readers.{head};
ghost use Rattle.c_exprs.specs.GoesOn.{goes_on_by, goes_on_level, goes_on_expr, goes_on_typed, goes_on_specifiers, goes_on_name, goes_on_absent, goes_on_kind, goes_on_declarator, goes_on_type, goes_on_type_name};

use crate::operators::{operator_level, operator_sign};
use crate::pieces::piece_word;
use crate::words::{DeclaratorForm, Operator};
use c_cursor::{Cursor, is_name, is_sign};
use c_lexer::TokenList;
use c_tree::{Level, rank};
use cil_base::{Punctuator, TokenKind};
use typedef_scopes::Scopes;

fn goes_on_by(level: Level, op: Option<Operator>) -> bool
    ensures { result ≡ goes_on_by level op }
{
    match op {
        Some(op) => {
            rank(operator_level(op)) <= rank(Level::Postfix)
                || rank(operator_level(op)) <= rank(level)
        }
        None => false,
    }
}

fn goes_on_level(level: Level, kind: TokenKind) -> bool
    ensures { result ≡ goes_on_level level kind }
{
    match kind {
        TokenKind::Name(_) => false,
        TokenKind::Keyword(_) => false,
        TokenKind::Integer => false,
        TokenKind::Character => false,
        TokenKind::Literal => true,
        TokenKind::Punctuator(p) => {
            is_sign(Punctuator::LeftBrace, kind) || goes_on_by(level, operator_sign(p))
        }
    }
}

/// Whether the next token goes on behind an expression of that level: operators that its level or a tighter one has, those of
/// 6.5.2, and `{` and string literals, which no production takes there.
#[tactic(auto, using(c_cursor::proofs::NextLemmas::next_told, c_cursor::proofs::NextLemmas::none_told))]
pub(crate) fn goes_on_expr<L: TokenList>(c: &Cursor<L>, level: Level) -> bool
    ensures is { result ≡ goes_on_expr level (head (ahead c.now).rest) }
    ensures room { result ≡ true → c.now.at < length c.now.all }
{
    match c.next() {
        Some(kind) => goes_on_level(level, kind),
        None => false,
    }
}

fn goes_on_typed(typed: bool, s: &Scopes, kind: TokenKind) -> bool
    ensures { result ≡ goes_on_typed typed s.now kind }
{
    match kind {
        TokenKind::Name(n) => !typed && s.is_type(n),
        TokenKind::Keyword(word) => piece_word(word).is_some(),
        TokenKind::Integer => false,
        TokenKind::Character => false,
        TokenKind::Literal => false,
        TokenKind::Punctuator(_) => is_sign(Punctuator::LeftBrace, kind),
    }
}

/// Whether the next token goes on behind specifiers, of which some is a type specifier where `typed` says so.
#[tactic(auto, using(c_cursor::proofs::NextLemmas::next_told, c_cursor::proofs::NextLemmas::none_told))]
pub(crate) fn goes_on_specifiers<L: TokenList>(c: &Cursor<L>, typed: bool, s: &Scopes) -> bool
    ensures is { result ≡ goes_on_specifiers typed s.now (head (ahead c.now).rest) }
    ensures room { result ≡ true → c.now.at < length c.now.all }
{
    match c.next() {
        Some(kind) => goes_on_typed(typed, s, kind),
        None => false,
    }
}

fn goes_on_name(kind: TokenKind) -> bool
    ensures { result ≡ goes_on_name kind }
{
    is_sign(Punctuator::LeftParen, kind) || is_sign(Punctuator::LeftBracket, kind)
}

/// Whether a keyword or brace can stand among specifiers.
fn goes_on_words(kind: TokenKind) -> bool
    ensures { result ≡ goes_on_typed true [] kind }
{
    match kind {
        TokenKind::Name(_) => false,
        TokenKind::Keyword(word) => piece_word(word).is_some(),
        TokenKind::Integer => false,
        TokenKind::Character => false,
        TokenKind::Literal => false,
        TokenKind::Punctuator(_) => is_sign(Punctuator::LeftBrace, kind),
    }
}

fn goes_on_absent(kind: TokenKind) -> bool
    ensures { result ≡ goes_on_absent kind }
{
    goes_on_name(kind) || is_sign(Punctuator::Star, kind) || goes_on_words(kind)
}

fn goes_on_kind(form: DeclaratorForm, kind: TokenKind) -> bool
    ensures { result ≡ goes_on_kind form kind }
{
    match form {
        DeclaratorForm::Definition => goes_on_name(kind),
        DeclaratorForm::Member => goes_on_name(kind),
        DeclaratorForm::Abstract => goes_on_absent(kind),
        DeclaratorForm::Parameter => goes_on_absent(kind) || is_name(kind),
    }
}

/// Whether the next token goes on behind a declarator of that form.
#[tactic(auto, using(c_cursor::proofs::NextLemmas::next_told, c_cursor::proofs::NextLemmas::none_told))]
pub(crate) fn goes_on_declarator<L: TokenList>(c: &Cursor<L>, form: DeclaratorForm) -> bool
    ensures is { result ≡ goes_on_declarator form (head (ahead c.now).rest) }
    ensures room { result ≡ true → c.now.at < length c.now.all }
{
    match c.next() {
        Some(kind) => goes_on_kind(form, kind),
        None => false,
    }
}

fn goes_on_type(typed: bool, s: &Scopes, kind: TokenKind) -> bool
    ensures { result ≡ goes_on_type typed s.now kind }
{
    goes_on_typed(typed, s, kind) || (is_sign(Punctuator::Star, kind) || goes_on_name(kind))
}

/// Whether the next token goes on behind a type name, of whose specifiers some is a type specifier where `typed` says so.
#[tactic(auto, using(c_cursor::proofs::NextLemmas::next_told, c_cursor::proofs::NextLemmas::none_told))]
pub(crate) fn goes_on_type_name<L: TokenList>(c: &Cursor<L>, typed: bool, s: &Scopes) -> bool
    ensures { result ≡ goes_on_type_name typed s.now (head (ahead c.now).rest) }
{
    match c.next() {
        Some(kind) => goes_on_type(typed, s, kind),
        None => false,
    }
}
