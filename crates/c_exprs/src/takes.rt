ghost use Rattle.std.specs.Prelude.{◌≡◌, ◌<◌, not, nat_lt, length, IfOk, IfSome};
ghost use Rattle.typedef_scopes.specs.Scopes.{is_type};
ghost use Rattle.c_cursor.specs.Lexemes.{Onward, ahead};
ghost use Rattle.c_cursor.specs.Readers.{head, one};
ghost use Rattle.c_tree.specs.View.{expr_of, declarator_of};
ghost use Rattle.c_cursor.specs.Classes.{fitting};
ghost use Rattle.c_exprs.specs.Classes.{derivation_kind, an_identifier, a_qualifier, a_designation, piece_for, operator_for, derivation_for};
ghost use Rattle.c_cursor.specs.Given.{Gives, next_of};

use crate::derivations::{derivation_kind, designation_kind};
use crate::operators::operator_for;
use crate::pieces::{piece_for, qualifier_kind};
use crate::words::{Derivation, Designation, Operator, Piece, SpecifierForm};
use c_cursor::{Cursor, ParseStop, next_name, taken};
use c_lexer::TokenList;
use c_nodes::{DeclaratorNode, ExprNode};
use c_tree::{Level, Qualifier};
use cil_base::{NameId, TokenKind};
use typedef_scopes::Scopes;

/// The qualifier that the next token is, if it is one.
#[tactic(auto, using(c_cursor::proofs::NextLemmas::next_plain, c_cursor::proofs::NextLemmas::none_plain, crate::proofs::NextLemmas::qualifiers_plain))]
fn next_qualifier<L: TokenList>(c: &Cursor<L>) -> Option<Qualifier>
    ensures found { result ≡ next_of a_qualifier (head (ahead c.now).rest) }
    ensures room { IfSome result (λ _. c.now.at < length c.now.all) }
{
    match c.next() {
        Some(kind) => qualifier_kind(kind),
        None => None,
    }
}

/// Takes a type qualifier (C11 6.7.3).
#[tactic(auto, using(c_cursor::proofs::NextLemmas::taken_one))]
pub(crate) fn take_qualifier<L: TokenList>(c: &mut Cursor<L>) -> Result<Qualifier, ParseStop>
    ensures gives { Gives (λ q. q) result (one a_qualifier (ahead c.old)) (ahead c.new) }
    ensures onward { Onward c.old c.new }
    ensures further { IfOk result (λ _. c.old.at < c.new.at) }
{
    let found = next_qualifier(c);
    taken(c, found)
}

/// How a designator begins with the next token, if it can.
#[tactic(auto, using(c_cursor::proofs::NextLemmas::next_plain, c_cursor::proofs::NextLemmas::none_plain, crate::proofs::NextLemmas::designations_plain))]
fn next_designation<L: TokenList>(c: &Cursor<L>) -> Option<Designation>
    ensures found { result ≡ next_of a_designation (head (ahead c.now).rest) }
    ensures room { IfSome result (λ _. c.now.at < length c.now.all) }
{
    match c.next() {
        Some(kind) => designation_kind(kind),
        None => None,
    }
}

/// Takes the first token of a designator (C11 6.7.9).
#[tactic(auto, using(c_cursor::proofs::NextLemmas::taken_one))]
pub(crate) fn take_designation<L: TokenList>(c: &mut Cursor<L>) -> Result<Designation, ParseStop>
    ensures gives { Gives (λ k. k) result (one a_designation (ahead c.old)) (ahead c.new) }
    ensures onward { Onward c.old c.new }
    ensures further { IfOk result (λ _. c.old.at < c.new.at) }
{
    let found = next_designation(c);
    taken(c, found)
}

/// How a specifier of that form and height begins with the next token, if it can.
#[tactic(auto, using(c_cursor::proofs::NextLemmas::next_fitting, c_cursor::proofs::NextLemmas::none_plain, crate::proofs::NextLemmas::pieces_plain))]
fn next_piece<L: TokenList>(
    c: &Cursor<L>,
    s: &Scopes,
    height: u32,
    form: SpecifierForm,
    typed: bool,
) -> Option<Piece>
    ensures found { result ≡ next_of (piece_for height form typed s.now) (head (ahead c.now).rest) }
    ensures room { IfSome result (λ _. c.now.at < length c.now.all) }
{
    match c.next() {
        Some(kind) => piece_for(height, form, typed, s, kind),
        None => None,
    }
}

/// Takes the first token of a specifier of that form and height (C11 6.7.1 to 6.7.4).
#[tactic(auto, using(c_cursor::proofs::NextLemmas::taken_one))]
pub(crate) fn take_piece<L: TokenList>(
    c: &mut Cursor<L>,
    s: &Scopes,
    height: u32,
    form: SpecifierForm,
    typed: bool,
) -> Result<Piece, ParseStop>
    ensures gives { Gives (λ k. k) result (one (piece_for height form typed s.now) (ahead c.old)) (ahead c.new) }
    ensures onward { Onward c.old c.new }
    ensures further { IfOk result (λ _. c.old.at < c.new.at) }
{
    let found = next_piece(c, s, height, form, typed);
    taken(c, found)
}

/// The name, where it is no typedef name in scope.
fn untyped(s: &Scopes, found: Option<NameId>) -> Option<NameId>
    ensures { result ≡ fitting (λ n. not (is_type s.now n)) found }
{
    match found {
        Some(n) if !s.is_type(n) => Some(n),
        _ => None,
    }
}

/// The name of the next token, if it is an identifier and no typedef name in scope.
#[tactic(auto, using(crate::proofs::NextLemmas::identifier_next))]
fn next_identifier<L: TokenList>(c: &Cursor<L>, s: &Scopes) -> Option<NameId>
    ensures found { result ≡ next_of (an_identifier s.now) (head (ahead c.now).rest) }
    ensures room { IfSome result (λ _. c.now.at < length c.now.all) }
{
    untyped(s, next_name(c))
}

/// Takes an identifier that is no typedef name in scope.
#[tactic(auto, using(c_cursor::proofs::NextLemmas::taken_one))]
pub(crate) fn take_identifier<L: TokenList>(
    c: &mut Cursor<L>,
    s: &Scopes,
) -> Result<NameId, ParseStop>
    ensures gives { Gives (λ n. n) result (one (an_identifier s.now) (ahead c.old)) (ahead c.new) }
    ensures onward { Onward c.old c.new }
    ensures further { IfOk result (λ _. c.old.at < c.new.at) }
{
    let found = next_identifier(c, s);
    taken(c, found)
}

/// The operator that the next token is behind an operand, whose height is told, if it is one.
#[tactic(auto, using(c_cursor::proofs::NextLemmas::next_fitting, c_cursor::proofs::NextLemmas::none_plain, crate::proofs::NextLemmas::operators_plain))]
fn next_operator<L: TokenList>(
    c: &Cursor<L>,
    height: u32,
    level: Level,
    e: &ExprNode,
) -> Option<Operator>
    ensures found { result ≡ next_of (operator_for height level (expr_of e.now)) (head (ahead c.now).rest) }
    ensures room { IfSome result (λ _. c.now.at < length c.now.all) }
{
    match c.next() {
        Some(kind) => operator_for(height, level, e, kind),
        None => None,
    }
}

/// Takes an operator behind an operand, whose height is told, in an expression of that level and height (C11 6.5.2, 6.5.5 to 6.5.17).
#[tactic(auto, using(c_cursor::proofs::NextLemmas::taken_one))]
pub(crate) fn take_operator<L: TokenList>(
    c: &mut Cursor<L>,
    height: u32,
    level: Level,
    e: &ExprNode,
) -> Result<Operator, ParseStop>
    ensures gives { Gives (λ k. k) result (one (operator_for height level (expr_of e.now)) (ahead c.old)) (ahead c.new) }
    ensures onward { Onward c.old c.new }
    ensures further { IfOk result (λ _. c.old.at < c.new.at) }
{
    let found = next_operator(c, height, level, e);
    taken(c, found)
}

/// How a derivation of a declarator of that height begins with the next token, if it can.
#[tactic(auto, using(c_cursor::proofs::NextLemmas::next_fitting, c_cursor::proofs::NextLemmas::none_plain, crate::proofs::NextLemmas::derivations_plain))]
fn next_derivation<L: TokenList>(
    c: &Cursor<L>,
    height: u32,
    d: &DeclaratorNode,
) -> Option<Derivation>
    ensures found { result ≡ next_of (derivation_for height (declarator_of d.now)) (head (ahead c.now).rest) }
    ensures room { IfSome result (λ _. c.now.at < length c.now.all) }
{
    match c.next() {
        Some(kind) => derivation_within(height, d.height(), kind),
        None => None,
    }
}

/// How a derivation behind a declarator of that height begins, within the other height.
fn derivation_within(height: u32, d_height: u32, kind: TokenKind) -> Option<Derivation>
    ensures is { result ≡ fitting (λ k. nat_lt d_height height) (derivation_kind kind) }
{
    match derivation_kind(kind) {
        Some(k) if d_height < height => Some(k),
        _ => None,
    }
}

/// Takes the first token of a derivation of a declarator, whose height is told, within a height (C11 6.7.6).
#[tactic(auto, using(c_cursor::proofs::NextLemmas::taken_one))]
pub(crate) fn take_derivation<L: TokenList>(
    c: &mut Cursor<L>,
    height: u32,
    d: &DeclaratorNode,
) -> Result<Derivation, ParseStop>
    ensures gives { Gives (λ k. k) result (one (derivation_for height (declarator_of d.now)) (ahead c.old)) (ahead c.new) }
    ensures onward { Onward c.old c.new }
    ensures further { IfOk result (λ _. c.old.at < c.new.at) }
{
    let found = next_derivation(c, height, d);
    taken(c, found)
}
