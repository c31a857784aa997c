ghost use Rattle.std.specs.Prelude.{◌≡◌, ◌<◌, IfOk};
ghost use Rattle.c_tree.specs.View.{declarator_of};
ghost use Rattle.c_cursor.specs.Lexemes.{Onward, ahead};
ghost use Rattle.c_cursor.specs.Given.{Gives};
ghost use Rattle.c_cursor.specs.Readers.{head};
ghost use Rattle.c_exprs.specs.Reading.{below};
ghost use Rattle.c_exprs.specs.DeclaratorReading.{array_of, derivation, derivations, group_closed, begins_function, name_or_none, inner, direct, pointer, declarator};

use crate::below::declarator_below;
use crate::bounds::{bound, qualifiers};
use crate::derivations::{may_be_absent, may_be_named};
use crate::goes_on::goes_on_declarator;
use crate::nexts::at_function;
use crate::parameters::function_behind;
use crate::takes::take_derivation;
use crate::words::{DeclaratorForm, Derivation};
use c_cursor::{Cursor, ParseStop, at_name, at_sign, take_name, take_sign};
use c_lexer::TokenList;
use c_nodes::{DeclaratorNode, absent_of, array_of, declared_of, group_of, pointer_of};
use c_tree::{declares, is_absent};
use cil_base::Punctuator;
use std::alloc::Global;
use typedef_scopes::Scopes;

/// `bound ]`
#[cycle(reading)]
pub(crate) fn array_behind<L: TokenList>(
    alloc: Global,
    c: &mut Cursor<L>,
    s: &mut Scopes,
    height: u32,
    at: u32,
    b: u32,
    d: DeclaratorNode,
) -> Result<DeclaratorNode, ParseStop>
    ensures gives { Gives (λ x. (declarator_of x, s.new)) result (array_of (below height) at b (declarator_of d, s.old) (ahead c.old)) (ahead c.new) }
    ensures onward { Onward c.old c.new }
{
    let bound = bound(alloc, c, s, height, declares(d.tree()), b)?;
    take_sign(c, Punctuator::RightBracket)?;
    Ok(array_of(alloc, at, d, bound)?)
}

/// A derivation behind a declarator, which begins with the token of that number (C11 6.7.6).
#[cycle(reading)]
pub(crate) fn derivation<L: TokenList>(
    alloc: Global,
    c: &mut Cursor<L>,
    s: &mut Scopes,
    height: u32,
    form: DeclaratorForm,
    at: u32,
    d: DeclaratorNode,
) -> Result<DeclaratorNode, ParseStop>
    ensures gives { Gives (λ x. (declarator_of x, s.new)) result (derivation height (below height) form at (declarator_of d, s.old) (ahead c.old)) (ahead c.new) }
    ensures onward { Onward c.old c.new }
    ensures further { IfOk result (λ _. c.old.at < c.new.at) }
{
    let b = c.position();
    match take_derivation(c, height, &d)? {
        Derivation::Array => array_behind(alloc, c, s, height, at, b, d),
        Derivation::Function => function_behind(alloc, c, s, height, form, at, d),
    }
}

/// All derivations behind a declarator.
#[cycle(reading)]
pub(crate) fn derivations<L: TokenList>(
    alloc: Global,
    c: &mut Cursor<L>,
    s: &mut Scopes,
    height: u32,
    form: DeclaratorForm,
    at: u32,
    first: DeclaratorNode,
) -> Result<DeclaratorNode, ParseStop>
    ensures gives { Gives (λ x. (declarator_of x, s.new)) result (derivations height (below height) form at (declarator_of first, s.old) (ahead c.old)) (ahead c.new) }
    ensures onward { Onward c.old c.new }
{
    let mut d = first;
    while goes_on_declarator(c, form) {
        d = derivation(alloc, c, s, height, form, at, d)?;
    }
    Ok(d)
}

/// Whether the `(` before the next token is that of a function, in a declarator that may declare no name (C11 6.7.6.3p11).
fn begins_function<L: TokenList>(c: &Cursor<L>, s: &Scopes, form: DeclaratorForm) -> bool
    ensures { result ≡ begins_function form s.now (head (ahead c.now).rest) }
{
    may_be_absent(form) && at_function(c, s)
}

/// The declared name, or nothing.
pub(crate) fn name_or_none<L: TokenList>(
    alloc: Global,
    c: &mut Cursor<L>,
    s: &Scopes,
    form: DeclaratorForm,
    at: u32,
) -> Result<DeclaratorNode, ParseStop>
    ensures gives { Gives (λ x. (declarator_of x, s.now)) result (name_or_none form at s.now (ahead c.old)) (ahead c.new) }
    ensures onward { Onward c.old c.new }
{
    if may_be_named(form) && at_name(c) {
        let n = take_name(c)?;
        return Ok(declared_of(alloc, at, n)?);
    }
    if !may_be_absent(form) {
        return Err(ParseStop::At(c.position()));
    }
    Ok(absent_of(alloc, at)?)
}

/// `)` behind a declarator in parentheses, which is more than an absent name
fn group_closed<L: TokenList>(
    alloc: Global,
    c: &mut Cursor<L>,
    s: &Scopes,
    at: u32,
    d: DeclaratorNode,
) -> Result<DeclaratorNode, ParseStop>
    ensures gives { Gives (λ x. (declarator_of x, s.now)) result (group_closed at (declarator_of d, s.now) (ahead c.old)) (ahead c.new) }
    ensures onward { Onward c.old c.new }
{
    if is_absent(d.tree()) {
        return Err(ParseStop::At(c.position()));
    }
    take_sign(c, Punctuator::RightParen)?;
    Ok(group_of(alloc, at, d)?)
}

/// What derivations stand behind: a name or none; behind `(` a declarator, or the list of a function without a name (C11 6.7.6.3p11).
#[cycle(reading)]
pub(crate) fn inner<L: TokenList>(
    alloc: Global,
    c: &mut Cursor<L>,
    s: &mut Scopes,
    height: u32,
    form: DeclaratorForm,
    at: u32,
) -> Result<DeclaratorNode, ParseStop>
    ensures gives { Gives (λ x. (declarator_of x, s.new)) result (inner height (below height) form at s.old (ahead c.old)) (ahead c.new) }
    ensures onward { Onward c.old c.new }
{
    if !at_sign(c, Punctuator::LeftParen) {
        return name_or_none(alloc, c, s, form, at);
    }
    take_sign(c, Punctuator::LeftParen)?;
    if !begins_function(c, s, form) {
        let d = declarator_below(alloc, c, s, height, form)?;
        return group_closed(alloc, c, s, at, d);
    }
    if height < 2 {
        return Err(ParseStop::At(c.position()));
    }
    let d = absent_of(alloc, at)?;
    function_behind(alloc, c, s, height, form, at, d)
}

/// A declarator that is no pointer (C11 6.7.6).
#[cycle(reading)]
pub(crate) fn direct<L: TokenList>(
    alloc: Global,
    c: &mut Cursor<L>,
    s: &mut Scopes,
    height: u32,
    form: DeclaratorForm,
    at: u32,
) -> Result<DeclaratorNode, ParseStop>
    ensures gives { Gives (λ x. (declarator_of x, s.new)) result (direct height (below height) form at s.old (ahead c.old)) (ahead c.new) }
    ensures onward { Onward c.old c.new }
{
    let d = inner(alloc, c, s, height, form, at)?;
    derivations(alloc, c, s, height, form, at, d)
}

/// `* qualifiers declarator`
#[cycle(reading)]
pub(crate) fn pointer<L: TokenList>(
    alloc: Global,
    c: &mut Cursor<L>,
    s: &mut Scopes,
    height: u32,
    form: DeclaratorForm,
    at: u32,
) -> Result<DeclaratorNode, ParseStop>
    ensures gives { Gives (λ x. (declarator_of x, s.new)) result (pointer (below height) form at s.old (ahead c.old)) (ahead c.new) }
    ensures onward { Onward c.old c.new }
{
    take_sign(c, Punctuator::Star)?;
    let qs = qualifiers(alloc, c)?;
    let d = declarator_below(alloc, c, s, height, form)?;
    Ok(pointer_of(alloc, at, qs, d)?)
}

/// A declarator of that form and at most that height (C11 6.7.6, 6.7.7).
#[cycle(reading)]
pub(crate) fn declarator<L: TokenList>(
    alloc: Global,
    c: &mut Cursor<L>,
    s: &mut Scopes,
    height: u32,
    form: DeclaratorForm,
) -> Result<DeclaratorNode, ParseStop>
    ensures gives { Gives (λ x. (declarator_of x, s.new)) result (declarator height (below height) form s.old (ahead c.old)) (ahead c.new) }
    ensures onward { Onward c.old c.new }
{
    if height < 1 {
        return Err(ParseStop::At(c.position()));
    }
    let at = c.position();
    if at_sign(c, Punctuator::Star) {
        pointer(alloc, c, s, height, form, at)
    } else {
        direct(alloc, c, s, height, form, at)
    }
}
