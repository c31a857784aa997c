ghost use Rattle.std.specs.Prelude.{◌<◌, map, IfOk};
ghost use Rattle.cil_base.specs.declared.tokens.Punctuator.TheVariants.{RightParen, RightBracket};
ghost use Rattle.c_tree.specs.Syntax as plain;
ghost use Rattle.c_tree.specs.View.{expr_of, specifiers_of, declarator_of};
ghost use Rattle.c_cursor.specs.Lexemes.{Onward, ahead};
ghost use Rattle.c_cursor.specs.Given.{Gives};
ghost use Rattle.c_exprs.specs.Subs.{In};
ghost use Rattle.c_exprs.specs.Reading.{below};
ghost use Rattle.c_cursor.specs.Readers.{bind, pure};
ghost use Rattle.c_cursor.specs.Classes.{is_sign, take};
ghost use Rattle.c_exprs.specs.ExprReading.{expr_trees, to_member, to_arrow, to_choose, rise, rises, expression, parenthesised, starred, literal_of};

use crate::argument_list::arguments;
use crate::below::expr_below;
use crate::builders::joint_of;
use crate::goes_on::goes_on_expr;
use crate::operands::{compound, in_parentheses, operand, signed};
use crate::operators::joint_right;
use crate::takes::take_operator;
use crate::texts::take_start;
use crate::words::Operator;
use c_cursor::{Cursor, ParseStop, take_name, take_sign};
use c_lexer::TokenList;
use c_nodes::{
    ExprList, ExprNode, TypeNameNode, arrow_of, call_of, conditional_of, index_of, member_of,
    postfix_of,
};
use c_tree::{Level, UnaryOp};
use cil_base::Punctuator;
use std::alloc::Global;
use typedef_scopes::Scopes;

/// `]` behind an index
fn index_closed<L: TokenList>(
    alloc: Global,
    c: &mut Cursor<L>,
    s: &Scopes,
    at: u32,
    x: ExprNode,
    i: ExprNode,
) -> Result<ExprNode, ParseStop>
    ensures gives { Gives {B = In plain.ExprTree} (λ y. (expr_of y, s.now)) result (bind (take (is_sign RightBracket)) (λ c. pure (plain.Index at (expr_of x) (expr_of i), s.now)) (ahead c.old)) (ahead c.new) }
    ensures onward { Onward c.old c.new }
{
    take_sign(c, Punctuator::RightBracket)?;
    Ok(index_of(alloc, at, x, i)?)
}

/// `)` behind arguments
#[tactic(auto, using(crate::proofs::TreeLists::seen_exprs))]
fn call_closed<L: TokenList>(
    alloc: Global,
    c: &mut Cursor<L>,
    s: &Scopes,
    at: u32,
    x: ExprNode,
    es: ExprList,
) -> Result<ExprNode, ParseStop>
    ensures gives { Gives {B = In plain.ExprTree} (λ y. (expr_of y, s.now)) result (bind (take (is_sign RightParen)) (λ c. pure (plain.Call at (expr_of x) (expr_trees (map expr_of es)), s.now)) (ahead c.old)) (ahead c.new) }
    ensures onward { Onward c.old c.new }
{
    take_sign(c, Punctuator::RightParen)?;
    Ok(call_of(alloc, at, x, es)?)
}

/// The name behind `.`
pub(crate) fn to_member<L: TokenList>(
    alloc: Global,
    c: &mut Cursor<L>,
    s: &Scopes,
    at: u32,
    x: ExprNode,
) -> Result<ExprNode, ParseStop>
    ensures gives { Gives (λ y. (expr_of y, s.now)) result (to_member at (expr_of x, s.now) (ahead c.old)) (ahead c.new) }
    ensures onward { Onward c.old c.new }
{
    let n = take_name(c)?;
    Ok(member_of(alloc, at, x, n)?)
}

/// The name behind `->`
pub(crate) fn to_arrow<L: TokenList>(
    alloc: Global,
    c: &mut Cursor<L>,
    s: &Scopes,
    at: u32,
    x: ExprNode,
) -> Result<ExprNode, ParseStop>
    ensures gives { Gives (λ y. (expr_of y, s.now)) result (to_arrow at (expr_of x, s.now) (ahead c.old)) (ahead c.new) }
    ensures onward { Onward c.old c.new }
{
    let n = take_name(c)?;
    Ok(arrow_of(alloc, at, x, n)?)
}

/// `e : e` behind `?` (C11 6.5.15)
#[cycle(reading)]
pub(crate) fn to_choose<L: TokenList>(
    alloc: Global,
    c: &mut Cursor<L>,
    s: &mut Scopes,
    height: u32,
    at: u32,
    x: ExprNode,
) -> Result<ExprNode, ParseStop>
    ensures gives { Gives (λ y. (expr_of y, s.new)) result (to_choose (below height) at (expr_of x, s.old) (ahead c.old)) (ahead c.new) }
    ensures onward { Onward c.old c.new }
{
    let a = expr_below(alloc, c, s, height, Level::Comma)?;
    take_sign(c, Punctuator::Colon)?;
    let b = expr_below(alloc, c, s, height, Level::Conditional)?;
    Ok(conditional_of(alloc, at, x, a, b)?)
}

/// An operator behind an operand, and what it asks for behind it, in an expression of that level (C11 6.5.2, 6.5.5 to 6.5.17).
#[cycle(reading)]
pub(crate) fn rise<L: TokenList>(
    alloc: Global,
    c: &mut Cursor<L>,
    s: &mut Scopes,
    height: u32,
    at: u32,
    level: Level,
    x: ExprNode,
) -> Result<ExprNode, ParseStop>
    ensures gives { Gives (λ y. (expr_of y, s.new)) result (rise height (below height) at level (expr_of x, s.old) (ahead c.old)) (ahead c.new) }
    ensures onward { Onward c.old c.new }
    ensures further { IfOk result (λ _. c.old.at < c.new.at) }
{
    match take_operator(c, height, level, &x)? {
        Operator::Index => {
            let i = expr_below(alloc, c, s, height, Level::Comma)?;
            index_closed(alloc, c, s, at, x, i)
        }
        Operator::Call => {
            let es = arguments(alloc, c, s, height)?;
            call_closed(alloc, c, s, at, x, es)
        }
        Operator::Member => to_member(alloc, c, s, at, x),
        Operator::Arrow => to_arrow(alloc, c, s, at, x),
        Operator::Step(op) => Ok(postfix_of(alloc, at, x, op)?),
        Operator::Conditional => to_choose(alloc, c, s, height, at, x),
        Operator::Join(joint) => {
            let r = expr_below(alloc, c, s, height, joint_right(joint))?;
            Ok(joint_of(alloc, at, joint, x, r)?)
        }
    }
}

/// All operators behind an operand, in an expression of that level (C11 6.5.2, 6.5.5 to 6.5.17).
#[cycle(reading)]
pub(crate) fn rises<L: TokenList>(
    alloc: Global,
    c: &mut Cursor<L>,
    s: &mut Scopes,
    height: u32,
    at: u32,
    level: Level,
    x: ExprNode,
) -> Result<ExprNode, ParseStop>
    ensures gives { Gives (λ y. (expr_of y, s.new)) result (rises height (below height) at level (expr_of x, s.old) (ahead c.old)) (ahead c.new) }
    ensures onward { Onward c.old c.new }
{
    let mut e = x;
    while goes_on_expr(c, level) {
        e = rise(alloc, c, s, height, at, level, e)?;
    }
    Ok(e)
}

/// An expression of that level and at most that height (C11 6.5).
#[cycle(reading)]
pub(crate) fn expression<L: TokenList>(
    alloc: Global,
    c: &mut Cursor<L>,
    s: &mut Scopes,
    height: u32,
    level: Level,
) -> Result<ExprNode, ParseStop>
    ensures gives { Gives (λ y. (expr_of y, s.new)) result (expression height (below height) level s.old (ahead c.old)) (ahead c.new) }
    ensures onward { Onward c.old c.new }
{
    let at = c.position();
    let (start, text) = take_start(alloc, c, s, height, level)?;
    let x = operand(alloc, c, s, height, at, level, start, text)?;
    rises(alloc, c, s, height, at, level, x)
}

/// A unary expression that begins with a parenthesised expression, behind its `(` of that number.
#[cycle(reading)]
pub(crate) fn parenthesised<L: TokenList>(
    alloc: Global,
    c: &mut Cursor<L>,
    s: &mut Scopes,
    height: u32,
    at: u32,
) -> Result<ExprNode, ParseStop>
    ensures gives { Gives (λ y. (expr_of y, s.new)) result (parenthesised height (below height) at s.old (ahead c.old)) (ahead c.new) }
    ensures onward { Onward c.old c.new }
{
    let x = in_parentheses(alloc, c, s, height, at)?;
    rises(alloc, c, s, height, at, Level::Unary, x)
}

/// An assignment expression that begins with a unary `*`, behind that token of that number.
#[cycle(reading)]
pub(crate) fn starred<L: TokenList>(
    alloc: Global,
    c: &mut Cursor<L>,
    s: &mut Scopes,
    height: u32,
    at: u32,
) -> Result<ExprNode, ParseStop>
    ensures gives { Gives (λ y. (expr_of y, s.new)) result (starred height (below height) at s.old (ahead c.old)) (ahead c.new) }
    ensures onward { Onward c.old c.new }
{
    let x = signed(alloc, c, s, height, at, UnaryOp::Indirection)?;
    rises(alloc, c, s, height, at, Level::Assignment, x)
}

/// A unary expression that begins with a compound literal, behind `( type-name )`; the `(` has that number.
#[cycle(reading)]
pub(crate) fn literal_of<L: TokenList>(
    alloc: Global,
    c: &mut Cursor<L>,
    s: &mut Scopes,
    height: u32,
    at: u32,
    t: TypeNameNode,
) -> Result<ExprNode, ParseStop>
    ensures gives { Gives (λ y. (expr_of y, s.new)) result (literal_of height (below height) at ((specifiers_of t.specifiers.items, declarator_of t.declarator), s.old) (ahead c.old)) (ahead c.new) }
    ensures onward { Onward c.old c.new }
{
    if t.height() >= height {
        return Err(ParseStop::At(c.position()));
    }
    let x = compound(alloc, c, s, height, at, t)?;
    rises(alloc, c, s, height, at, Level::Unary, x)
}
