ghost use Rattle.std.specs.Prelude.{◌+◌, ◌<◌, ◌^◌};
ghost use Rattle.c_tree.specs.View.{expr_of, specifiers_of, declarator_of};
ghost use Rattle.c_cursor.specs.Lexemes.{Onward, ahead};
ghost use Rattle.c_cursor.specs.Given.{Gives};
ghost use Rattle.c_exprs.specs.Reading.{below};
ghost use Rattle.c_exprs.specs.ExprReading.{in_parentheses, compound, behind_parenthesis, signed, sizeof_operand, operand};

use crate::below::{expr_below, literal_below, parenthesised_below};
use crate::literals::literals_from;
use crate::nexts::at_type;
use crate::type_names::{braced, type_name_closed};
use crate::words::Start;
use c_cursor::{Cursor, ParseStop, at_sign, take_sign};
use c_lexer::TokenList;
use c_nodes::{
    ExprNode, TypeNameNode, alignof_of, cast_of, character_of, compound_of, identifier_of,
    integer_of, parentheses_of, prefix_of, sizeof_of, sizeof_type_of, unary_of,
};
use c_tree::{Level, UnaryOp, rank};
use cil_base::{Bytes, Punctuator};
use std::alloc::Global;
use typedef_scopes::Scopes;

/// `e )`
#[cycle(reading)]
pub(crate) fn in_parentheses<L: TokenList>(
    alloc: Global,
    c: &mut Cursor<L>,
    s: &mut Scopes,
    height: u32,
    at: u32,
) -> Result<ExprNode, ParseStop>
    ensures gives { Gives (λ x. (expr_of x, s.new)) result (in_parentheses (below height) at s.old (ahead c.old)) (ahead c.new) }
    ensures onward { Onward c.old c.new }
{
    let e = expr_below(alloc, c, s, height, Level::Comma)?;
    take_sign(c, Punctuator::RightParen)?;
    Ok(parentheses_of(alloc, at, e)?)
}

/// `{ items }` behind `( type-name )`
#[cycle(reading)]
pub(crate) fn compound<L: TokenList>(
    alloc: Global,
    c: &mut Cursor<L>,
    s: &mut Scopes,
    height: u32,
    at: u32,
    t: TypeNameNode,
) -> Result<ExprNode, ParseStop>
    ensures gives { Gives (λ x. (expr_of x, s.new)) result (compound (below height) at ((specifiers_of t.specifiers.items, declarator_of t.declarator), s.old) (ahead c.old)) (ahead c.new) }
    ensures onward { Onward c.old c.new }
{
    let (items, comma) = braced(alloc, c, s, height)?;
    Ok(compound_of(alloc, at, t, items, comma)?)
}

/// What stands behind a first `(`, in an expression of that level: an expression, or a type name with a compound literal or a cast (C11 6.5.1, 6.5.2.5, 6.5.4).
#[cycle(reading)]
pub(crate) fn behind_parenthesis<L: TokenList>(
    alloc: Global,
    c: &mut Cursor<L>,
    s: &mut Scopes,
    height: u32,
    at: u32,
    level: Level,
) -> Result<ExprNode, ParseStop>
    ensures gives { Gives (λ x. (expr_of x, s.new)) result (behind_parenthesis (below height) at level s.old (ahead c.old)) (ahead c.new) }
    ensures onward { Onward c.old c.new }
{
    if !at_type(c, s) {
        return in_parentheses(alloc, c, s, height, at);
    }
    if rank(level) < rank(Level::Postfix) {
        return Err(ParseStop::At(c.position()));
    }
    let t = type_name_closed(alloc, c, s, height)?;
    if at_sign(c, Punctuator::LeftBrace) {
        return compound(alloc, c, s, height, at, t);
    }
    if rank(level) < rank(Level::Cast) {
        return Err(ParseStop::At(c.position()));
    }
    let operand = expr_below(alloc, c, s, height, Level::Cast)?;
    Ok(cast_of(alloc, at, t, operand)?)
}

/// The operand of a unary operator (C11 6.5.3).
#[cycle(reading)]
pub(crate) fn signed<L: TokenList>(
    alloc: Global,
    c: &mut Cursor<L>,
    s: &mut Scopes,
    height: u32,
    at: u32,
    op: UnaryOp,
) -> Result<ExprNode, ParseStop>
    ensures gives { Gives (λ x. (expr_of x, s.new)) result (signed (below height) at op s.old (ahead c.old)) (ahead c.new) }
    ensures onward { Onward c.old c.new }
{
    let e = expr_below(alloc, c, s, height, Level::Cast)?;
    Ok(unary_of(alloc, at, op, e)?)
}

/// The operand of `sizeof` (C11 6.5.3.4).
#[cycle(reading)]
pub(crate) fn sizeof_operand<L: TokenList>(
    alloc: Global,
    c: &mut Cursor<L>,
    s: &mut Scopes,
    height: u32,
    at: u32,
) -> Result<ExprNode, ParseStop>
    requires fits { at + 1 < 2 ^ 32 }
    ensures gives { Gives (λ x. (expr_of x, s.new)) result (sizeof_operand (below height) at s.old (ahead c.old)) (ahead c.new) }
    ensures onward { Onward c.old c.new }
{
    if !at_sign(c, Punctuator::LeftParen) {
        let e = expr_below(alloc, c, s, height, Level::Unary)?;
        return Ok(sizeof_of(alloc, at, e)?);
    }
    take_sign(c, Punctuator::LeftParen)?;
    if !at_type(c, s) {
        let e = parenthesised_below(alloc, c, s, height, at + 1)?;
        return Ok(sizeof_of(alloc, at, e)?);
    }
    let t = type_name_closed(alloc, c, s, height)?;
    if !at_sign(c, Punctuator::LeftBrace) {
        return Ok(sizeof_type_of(alloc, at, t)?);
    }
    let e = literal_below(alloc, c, s, height, at + 1, t)?;
    Ok(sizeof_of(alloc, at, e)?)
}

/// What no operator behind it is part of, behind its first token, which has that text if it is a constant or literal (C11 6.5.1 to 6.5.4).
#[cycle(reading)]
pub(crate) fn operand<L: TokenList>(
    alloc: Global,
    c: &mut Cursor<L>,
    s: &mut Scopes,
    height: u32,
    at: u32,
    level: Level,
    start: Start,
    text: Bytes,
) -> Result<ExprNode, ParseStop>
    requires fits { at + 1 < 2 ^ 32 }
    ensures gives { Gives (λ x. (expr_of x, s.new)) result (operand (below height) at level s.old start text (ahead c.old)) (ahead c.new) }
    ensures onward { Onward c.old c.new }
{
    match start {
        Start::Name(n) => Ok(identifier_of(alloc, at, n)?),
        Start::Integer => Ok(integer_of(alloc, at, text)?),
        Start::Character => Ok(character_of(alloc, at, text)?),
        Start::Literal => literals_from(alloc, c, s, at, text),
        Start::Parenthesis => behind_parenthesis(alloc, c, s, height, at, level),
        Start::Step(op) => {
            let e = expr_below(alloc, c, s, height, Level::Unary)?;
            Ok(prefix_of(alloc, at, op, e)?)
        }
        Start::Unary(op) => signed(alloc, c, s, height, at, op),
        Start::Sizeof => sizeof_operand(alloc, c, s, height, at),
        Start::Alignof => {
            take_sign(c, Punctuator::LeftParen)?;
            let t = type_name_closed(alloc, c, s, height)?;
            Ok(alignof_of(alloc, at, t)?)
        }
    }
}
