ghost use Rattle.std.specs.Prelude.{◌<◌, false, map, IfOk};
ghost use Rattle.std.specs.Option.{option_map};
ghost use Rattle.cil_base.specs.declared.tokens.Punctuator.TheVariants.{RightBrace};
ghost use Rattle.c_tree.specs.View.{enumerator_of};
ghost use Rattle.c_cursor.specs.Lexemes.{Onward, ahead};
ghost use Rattle.c_cursor.specs.Given.{Gives};
ghost use Rattle.c_cursor.specs.Readers.{pure};
ghost use Rattle.c_cursor.specs.Classes.{next_is, is_sign};
ghost use Rattle.c_exprs.specs.Subs.{more_listed_to};
ghost use Rattle.c_exprs.specs.Steps.{item_or_end};
ghost use Rattle.c_exprs.specs.Reading.{below};
ghost use Rattle.c_exprs.specs.SpecifierReading.{enumerator, enumerators};

use crate::below::expr_below;
use c_cursor::{Cursor, ParseStop, at_sign, take_name, take_sign};
use c_lexer::TokenList;
use c_nodes::{EnumeratorList, EnumeratorNode, enumerates_of, enumerator_of};
use c_tree::Level;
use cil_base::Punctuator;
use std::alloc::Global;
use typedef_scopes::Scopes;

/// An enumerator, which is declared behind its value (C11 6.7.2.2, 6.2.1p7).
#[cycle(reading)]
pub(crate) fn enumerator<L: TokenList>(
    alloc: Global,
    c: &mut Cursor<L>,
    s: &mut Scopes,
    height: u32,
) -> Result<EnumeratorNode, ParseStop>
    ensures gives { Gives (λ x. (enumerator_of x, s.new)) result (enumerator (below height) s.old (ahead c.old)) (ahead c.new) }
    ensures onward { Onward c.old c.new }
{
    let at = c.position();
    let n = take_name(c)?;
    if !at_sign(c, Punctuator::Equal) {
        s.declare(n, false)?;
        return Ok(enumerator_of(at, n));
    }
    take_sign(c, Punctuator::Equal)?;
    let value = expr_below(alloc, c, s, height, Level::Conditional)?;
    s.declare(n, false)?;
    Ok(enumerates_of(at, n, value))
}

/// An enumerator behind a comma, or nothing before `}`.
#[cycle(reading)]
pub(crate) fn next_enumerator<L: TokenList>(
    alloc: Global,
    c: &mut Cursor<L>,
    s: &mut Scopes,
    height: u32,
) -> Result<Option<EnumeratorNode>, ParseStop>
    ensures gives { Gives (λ x. (option_map enumerator_of x, s.new)) result (item_or_end (next_is (is_sign RightBrace)) (pure tt) (enumerator (below height)) s.old (ahead c.old)) (ahead c.new) }
    ensures onward { Onward c.old c.new }
    ensures further { IfOk result (λ _. c.old.at < c.new.at) }
{
    take_sign(c, Punctuator::Comma)?;
    if at_sign(c, Punctuator::RightBrace) {
        return Ok(None);
    }
    Ok(Some(enumerator(alloc, c, s, height)?))
}

/// All enumerators behind some, and whether a comma stands behind the last.
#[cycle(reading)]
pub(crate) fn more_enumerators<L: TokenList>(
    alloc: Global,
    c: &mut Cursor<L>,
    s: &mut Scopes,
    height: u32,
    first: EnumeratorList,
) -> Result<(EnumeratorList, bool), ParseStop>
    ensures gives { Gives (λ x. ((map enumerator_of x.0, x.1), s.new)) result (more_listed_to (next_is (is_sign RightBrace)) (pure tt) (enumerator (below height)) ((map enumerator_of first, false), s.old) (ahead c.old)) (ahead c.new) }
    ensures onward { Onward c.old c.new }
{
    let mut es = first;
    while at_sign(c, Punctuator::Comma) {
        match next_enumerator(alloc, c, s, height)? {
            Some(e) => es.push(e)?,
            None => return Ok((es, true)),
        }
    }
    Ok((es, false))
}

/// Enumerators: at least one, and whether a comma stands behind the last (C11 6.7.2.2).
#[cycle(reading)]
pub(crate) fn enumerators<L: TokenList>(
    alloc: Global,
    c: &mut Cursor<L>,
    s: &mut Scopes,
    height: u32,
) -> Result<(EnumeratorList, bool), ParseStop>
    ensures gives { Gives (λ x. ((map enumerator_of x.0, x.1), s.new)) result (enumerators (below height) s.old (ahead c.old)) (ahead c.new) }
    ensures onward { Onward c.old c.new }
{
    let e = enumerator(alloc, c, s, height)?;
    let mut es = EnumeratorList::new(alloc);
    es.push(e)?;
    more_enumerators(alloc, c, s, height, es)
}
