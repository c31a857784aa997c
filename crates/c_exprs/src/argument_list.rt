ghost use Rattle.std.specs.Prelude.{◌<◌, map, IfOk};
ghost use Rattle.c_tree.specs.View.{expr_of};
ghost use Rattle.c_tree.specs.declared.level.Level.TheVariants.{Assignment as AssignmentLevel};
ghost use Rattle.c_cursor.specs.Lexemes.{Onward, ahead};
ghost use Rattle.c_cursor.specs.Given.{Gives};
ghost use Rattle.c_exprs.specs.Subs.{behind_comma, more_listed};
ghost use Rattle.c_exprs.specs.Reading.{below};
ghost use Rattle.c_exprs.specs.ExprReading.{arguments};

use crate::below::expr_below;
use c_cursor::{Cursor, ParseStop, at_sign, take_sign};
use c_lexer::TokenList;
use c_nodes::{ExprList, ExprNode};
use c_tree::Level;
use cil_base::Punctuator;
use std::alloc::Global;
use typedef_scopes::Scopes;

/// An argument behind a comma.
#[cycle(reading)]
pub(crate) fn next_argument<L: TokenList>(
    alloc: Global,
    c: &mut Cursor<L>,
    s: &mut Scopes,
    height: u32,
) -> Result<ExprNode, ParseStop>
    ensures gives { Gives (λ x. (expr_of x, s.new)) result (behind_comma ((below height).expr AssignmentLevel) s.old (ahead c.old)) (ahead c.new) }
    ensures onward { Onward c.old c.new }
    ensures further { IfOk result (λ _. c.old.at < c.new.at) }
{
    take_sign(c, Punctuator::Comma)?;
    expr_below(alloc, c, s, height, Level::Assignment)
}

/// All arguments behind some.
#[cycle(reading)]
pub(crate) fn more_arguments<L: TokenList>(
    alloc: Global,
    c: &mut Cursor<L>,
    s: &mut Scopes,
    height: u32,
    first: ExprList,
) -> Result<ExprList, ParseStop>
    ensures gives { Gives (λ x. (map expr_of x, s.new)) result (more_listed ((below height).expr AssignmentLevel) (map expr_of first, s.old) (ahead c.old)) (ahead c.new) }
    ensures onward { Onward c.old c.new }
{
    let mut es = first;
    while at_sign(c, Punctuator::Comma) {
        let e = next_argument(alloc, c, s, height)?;
        es.push(e)?;
    }
    Ok(es)
}

/// The arguments of a call (C11 6.5.2.2).
#[cycle(reading)]
pub(crate) fn arguments<L: TokenList>(
    alloc: Global,
    c: &mut Cursor<L>,
    s: &mut Scopes,
    height: u32,
) -> Result<ExprList, ParseStop>
    ensures gives { Gives (λ x. (map expr_of x, s.new)) result (arguments (below height) s.old (ahead c.old)) (ahead c.new) }
    ensures onward { Onward c.old c.new }
{
    if at_sign(c, Punctuator::RightParen) {
        return Ok(ExprList::new(alloc));
    }
    let e = expr_below(alloc, c, s, height, Level::Assignment)?;
    let mut es = ExprList::new(alloc);
    es.push(e)?;
    more_arguments(alloc, c, s, height, es)
}
