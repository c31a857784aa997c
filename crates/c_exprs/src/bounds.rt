ghost use Rattle.std.specs.Prelude.{◌≡◌};
ghost use Rattle.c_tree.specs.View.{bound_of};
ghost use Rattle.c_tree.specs.Levels.{has_some};
ghost use Rattle.c_cursor.specs.Lexemes.{Onward, ahead};
ghost use Rattle.c_cursor.specs.Given.{Gives};
ghost use Rattle.c_exprs.specs.Reading.{below};
ghost use Rattle.c_exprs.specs.DeclaratorReading.{qualifiers, star_bound, qualified_bound, bound};

use crate::below::{expr_below, starred_below};
use crate::nexts::at_qualifier;
use crate::takes::take_qualifier;
use c_cursor::{Cursor, ParseStop, at_sign, at_static, take_sign, take_static};
use c_lexer::TokenList;
use c_nodes::{BoundNode, size_of, size_static_of, star_of, static_size_of, unspecified_of};
use c_tree::{Level, Qualifier};
use cil_base::Punctuator;
use std::alloc::Global;
use typedef_scopes::Scopes;

/// Any number of type qualifiers (C11 6.7.3).
pub(crate) fn qualifiers<L: TokenList>(
    alloc: Global,
    c: &mut Cursor<L>,
) -> Result<Vec<Qualifier>, ParseStop>
    ensures gives { Gives (λ qs. qs.items) result (qualifiers (ahead c.old)) (ahead c.new) }
    ensures onward { Onward c.old c.new }
{
    let mut qs = Vec::new(alloc);
    while at_qualifier(c) {
        let q = take_qualifier(c)?;
        qs.push(q)?;
    }
    Ok(qs)
}

/// Whether there are qualifiers.
#[tactic(auto, using(crate::proofs::TreeLists::some_qualified))]
fn has_some(qs: &[Qualifier]) -> bool
    ensures { result ≡ has_some qs.now }
{
    !qs.is_empty()
}

/// `*` and what follows, behind qualifiers: it is the bound or begins an expression. `named`: the declarator declares a name.
#[cycle(reading)]
pub(crate) fn star_bound<L: TokenList>(
    alloc: Global,
    c: &mut Cursor<L>,
    s: &mut Scopes,
    height: u32,
    named: bool,
    b: u32,
    qs: Vec<Qualifier>,
) -> Result<BoundNode, ParseStop>
    ensures gives { Gives (λ x. (bound_of x, s.new)) result (star_bound (below height) named b qs.items s.old (ahead c.old)) (ahead c.new) }
    ensures onward { Onward c.old c.new }
{
    let at = c.position();
    take_sign(c, Punctuator::Star)?;
    if !at_sign(c, Punctuator::RightBracket) {
        let e = starred_below(alloc, c, s, height, at)?;
        return Ok(size_of(b, qs, e));
    }
    if !named && has_some(&qs) {
        return Err(ParseStop::At(c.position()));
    }
    Ok(star_of(b, qs))
}

/// A bound, or nothing, behind qualifiers. `named`: the declarator declares a name.
#[cycle(reading)]
pub(crate) fn qualified_bound<L: TokenList>(
    alloc: Global,
    c: &mut Cursor<L>,
    s: &mut Scopes,
    height: u32,
    named: bool,
    b: u32,
    qs: Vec<Qualifier>,
) -> Result<BoundNode, ParseStop>
    ensures gives { Gives (λ x. (bound_of x, s.new)) result (qualified_bound (below height) named b qs.items s.old (ahead c.old)) (ahead c.new) }
    ensures onward { Onward c.old c.new }
{
    if at_sign(c, Punctuator::RightBracket) {
        return Ok(unspecified_of(b, qs));
    }
    if at_static(c) {
        if !has_some(&qs) {
            return Err(ParseStop::At(c.position()));
        }
        take_static(c)?;
        let e = expr_below(alloc, c, s, height, Level::Assignment)?;
        return Ok(size_static_of(b, qs, e));
    }
    if at_sign(c, Punctuator::Star) {
        return star_bound(alloc, c, s, height, named, b, qs);
    }
    let e = expr_below(alloc, c, s, height, Level::Assignment)?;
    Ok(size_of(b, qs, e))
}

/// What stands between the brackets of an array, of which the first has the number `b` (C11 6.7.6.2). `named`: the declarator declares a name.
#[cycle(reading)]
pub(crate) fn bound<L: TokenList>(
    alloc: Global,
    c: &mut Cursor<L>,
    s: &mut Scopes,
    height: u32,
    named: bool,
    b: u32,
) -> Result<BoundNode, ParseStop>
    ensures gives { Gives (λ x. (bound_of x, s.new)) result (bound (below height) named b s.old (ahead c.old)) (ahead c.new) }
    ensures onward { Onward c.old c.new }
{
    if at_static(c) {
        take_static(c)?;
        let qs = qualifiers(alloc, c)?;
        let e = expr_below(alloc, c, s, height, Level::Assignment)?;
        return Ok(static_size_of(b, qs, e));
    }
    let qs = qualifiers(alloc, c)?;
    qualified_bound(alloc, c, s, height, named, b, qs)
}
