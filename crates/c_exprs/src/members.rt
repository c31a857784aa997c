ghost use Rattle.std.specs.Prelude.{◌<◌, map, IfOk};
ghost use Rattle.c_tree.specs.View.{expr_of, declarator_of, member_of, member_declarator_of};
ghost use Rattle.c_cursor.specs.Lexemes.{Onward, ahead};
ghost use Rattle.c_cursor.specs.Given.{Gives};
ghost use Rattle.c_exprs.specs.Subs.{behind_comma, more_listed};
ghost use Rattle.c_exprs.specs.Reading.{below};
ghost use Rattle.c_exprs.specs.SpecifierReading.{bit_field, member_declarator, member_declarators, member_line, assert_end, member};

use crate::below::{declarator_below, expr_below, specifiers_below};
use crate::words::{DeclaratorForm, SpecifierForm};
use c_cursor::{Cursor, ParseStop, at_assert, at_sign, some_literals, take_assert, take_sign};
use c_lexer::TokenList;
use c_nodes::{
    DeclaratorNode, ExprNode, MemberDeclaratorList, MemberDeclaratorNode, MemberNode, absent_of,
    bit_field_of, member_assert_of, member_line_of, plain_of,
};
use c_tree::{Level, TypeName};
use cil_base::Punctuator;
use std::alloc::Global;
use typedef_scopes::Scopes;

/// `: width`
#[cycle(reading)]
pub(crate) fn bit_field<L: TokenList>(
    alloc: Global,
    c: &mut Cursor<L>,
    s: &mut Scopes,
    height: u32,
    d: DeclaratorNode,
) -> Result<MemberDeclaratorNode, ParseStop>
    ensures gives { Gives (λ x. (member_declarator_of x, s.new)) result (bit_field (below height) (declarator_of d) s.old (ahead c.old)) (ahead c.new) }
    ensures onward { Onward c.old c.new }
{
    take_sign(c, Punctuator::Colon)?;
    let width = expr_below(alloc, c, s, height, Level::Conditional)?;
    Ok(bit_field_of(d, width))
}

/// A declarator of a member, or a bit-field without one (C11 6.7.2.1).
#[cycle(reading)]
pub(crate) fn member_declarator<L: TokenList>(
    alloc: Global,
    c: &mut Cursor<L>,
    s: &mut Scopes,
    height: u32,
) -> Result<MemberDeclaratorNode, ParseStop>
    ensures gives { Gives (λ x. (member_declarator_of x, s.new)) result (member_declarator (below height) s.old (ahead c.old)) (ahead c.new) }
    ensures onward { Onward c.old c.new }
{
    if at_sign(c, Punctuator::Colon) {
        let d = absent_of(alloc, c.position())?;
        return bit_field(alloc, c, s, height, d);
    }
    let d = declarator_below(alloc, c, s, height, DeclaratorForm::Member)?;
    if at_sign(c, Punctuator::Colon) {
        return bit_field(alloc, c, s, height, d);
    }
    Ok(plain_of(d))
}

/// A declarator of a member behind a comma.
#[cycle(reading)]
pub(crate) fn next_member_declarator<L: TokenList>(
    alloc: Global,
    c: &mut Cursor<L>,
    s: &mut Scopes,
    height: u32,
) -> Result<MemberDeclaratorNode, ParseStop>
    ensures gives { Gives (λ x. (member_declarator_of x, s.new)) result (behind_comma (member_declarator (below height)) s.old (ahead c.old)) (ahead c.new) }
    ensures onward { Onward c.old c.new }
    ensures further { IfOk result (λ _. c.old.at < c.new.at) }
{
    take_sign(c, Punctuator::Comma)?;
    member_declarator(alloc, c, s, height)
}

/// All declarators of members behind some.
#[cycle(reading)]
pub(crate) fn more_member_declarators<L: TokenList>(
    alloc: Global,
    c: &mut Cursor<L>,
    s: &mut Scopes,
    height: u32,
    first: MemberDeclaratorList,
) -> Result<MemberDeclaratorList, ParseStop>
    ensures gives { Gives (λ x. (map member_declarator_of x, s.new)) result (more_listed (member_declarator (below height)) (map member_declarator_of first, s.old) (ahead c.old)) (ahead c.new) }
    ensures onward { Onward c.old c.new }
{
    let mut ds = first;
    while at_sign(c, Punctuator::Comma) {
        let d = next_member_declarator(alloc, c, s, height)?;
        ds.push(d)?;
    }
    Ok(ds)
}

/// The declarators of a line of members, of which there may be none (C11 6.7.2.1).
#[cycle(reading)]
pub(crate) fn member_declarators<L: TokenList>(
    alloc: Global,
    c: &mut Cursor<L>,
    s: &mut Scopes,
    height: u32,
) -> Result<MemberDeclaratorList, ParseStop>
    ensures gives { Gives (λ x. (map member_declarator_of x, s.new)) result (member_declarators (below height) s.old (ahead c.old)) (ahead c.new) }
    ensures onward { Onward c.old c.new }
{
    if at_sign(c, Punctuator::Semicolon) {
        return Ok(MemberDeclaratorList::new(alloc));
    }
    let d = member_declarator(alloc, c, s, height)?;
    let mut ds = MemberDeclaratorList::new(alloc);
    ds.push(d)?;
    more_member_declarators(alloc, c, s, height, ds)
}

/// A line of members (C11 6.7.2.1).
#[cycle(reading)]
#[tactic(auto, using(crate::proofs::TreeLists::seen_member_declarators))]
pub(crate) fn member_line<L: TokenList>(
    alloc: Global,
    c: &mut Cursor<L>,
    s: &mut Scopes,
    height: u32,
) -> Result<MemberNode, ParseStop>
    ensures gives { Gives (λ x. (member_of x, s.new)) result (member_line (below height) s.old (ahead c.old)) (ahead c.new) }
    ensures onward { Onward c.old c.new }
    ensures further { IfOk result (λ _. c.old.at < c.new.at) }
{
    let specifiers = specifiers_below(alloc, c, s, height, SpecifierForm::TypeName)?;
    let ds = member_declarators(alloc, c, s, height)?;
    take_sign(c, Punctuator::Semicolon)?;
    Ok(member_line_of(specifiers, ds))
}

/// `, message ) ;`
pub(crate) fn assert_end<L: TokenList>(
    alloc: Global,
    c: &mut Cursor<L>,
    s: &Scopes,
    at: u32,
    condition: ExprNode,
) -> Result<MemberNode, ParseStop>
    ensures gives { Gives (λ x. (member_of x, s.now)) result (assert_end at (expr_of condition, s.now) (ahead c.old)) (ahead c.new) }
    ensures onward { Onward c.old c.new }
{
    take_sign(c, Punctuator::Comma)?;
    let message_at = c.position();
    let message = some_literals(alloc, c)?;
    take_sign(c, Punctuator::RightParen)?;
    take_sign(c, Punctuator::Semicolon)?;
    Ok(member_assert_of(at, condition, message_at, message))
}

/// A declaration among members: a line of members, or a static assertion (C11 6.7.2.1, 6.7.10).
#[cycle(reading)]
pub(crate) fn member<L: TokenList>(
    alloc: Global,
    c: &mut Cursor<L>,
    s: &mut Scopes,
    height: u32,
) -> Result<MemberNode, ParseStop>
    ensures gives { Gives (λ x. (member_of x, s.new)) result (member (below height) s.old (ahead c.old)) (ahead c.new) }
    ensures onward { Onward c.old c.new }
    ensures further { IfOk result (λ _. c.old.at < c.new.at) }
{
    if !at_assert(c) {
        return member_line(alloc, c, s, height);
    }
    let at = c.position();
    take_assert(c)?;
    take_sign(c, Punctuator::LeftParen)?;
    let condition = expr_below(alloc, c, s, height, Level::Conditional)?;
    assert_end(alloc, c, s, at, condition)
}
