ghost use Rattle.std.specs.Prelude.{◌≡◌, ◌<◌, false, map, IfOk, MatchResult};
ghost use Rattle.std.specs.Option.{option_map};
ghost use Rattle.cil_base.specs.declared.tokens.Punctuator.TheVariants.{Ellipsis};
ghost use Rattle.c_tree.specs.View.{specifiers_of, declarator_of, parameter_of};
ghost use Rattle.c_tree.specs.Scoped.{name_of, has_typedef, declared_if};
ghost use Rattle.c_cursor.specs.declared.stops.ParseStop.TheVariants.{Memory as WantOfMemory};
ghost use Rattle.c_cursor.specs.Lexemes.{Onward, ahead};
ghost use Rattle.c_cursor.specs.Given.{Gives};
ghost use Rattle.c_cursor.specs.Readers.{head};
ghost use Rattle.c_cursor.specs.Classes.{next_is, is_sign, take};
ghost use Rattle.c_exprs.specs.Subs.{more_listed_to};
ghost use Rattle.c_exprs.specs.Steps.{item_or_end, comma_identifier};
ghost use Rattle.c_exprs.specs.Reading.{below};
ghost use Rattle.c_exprs.specs.DeclaratorReading.{parameter, parameters, prototyped, more_identifiers, identifiers, unprototyped, without_parameters, begins_identifiers, function_of};

use crate::below::{declarator_below, specifiers_below};
use crate::derivations::may_have_identifiers;
use crate::nexts::at_identifier;
use crate::takes::take_identifier;
use crate::told::{has_typedef, name_of};
use crate::words::{DeclaratorForm, SpecifierForm};
use c_cursor::{Cursor, ParseStop, at_sign, take_sign};
use c_lexer::TokenList;
use c_nodes::{
    DeclaratorNode, ParameterList, ParameterNode, function_of, parameter_of, unprototyped_of,
};
use c_tree::{Declarator, Parameter, Specifier, is_underived};
use cil_base::{NameId, Punctuator};
use std::alloc::Global;
use typedef_scopes::Scopes;

/// Declares the name of a parameter, if it has one (C11 6.2.1p4).
fn declare_parameter(
    s: &mut Scopes,
    d: &Declarator,
    specifiers: &[Specifier],
) -> Result<(), ParseStop>
    ensures { MatchResult result (λ _. s.new ≡ declared_if (name_of (declarator_of d.now)) (has_typedef (specifiers_of specifiers.now)) s.old) (λ stop. stop ≡ WantOfMemory) }
{
    if let Some(n) = name_of(d) {
        s.declare(n, has_typedef(specifiers))?;
    }
    Ok(())
}

/// A parameter, which is declared behind its declarator (C11 6.7.6).
#[cycle(reading)]
pub(crate) fn parameter<L: TokenList>(
    alloc: Global,
    c: &mut Cursor<L>,
    s: &mut Scopes,
    height: u32,
) -> Result<ParameterNode, ParseStop>
    ensures gives { Gives (λ x. (parameter_of x, s.new)) result (parameter (below height) s.old (ahead c.old)) (ahead c.new) }
    ensures onward { Onward c.old c.new }
{
    let specifiers = specifiers_below(alloc, c, s, height, SpecifierForm::Declaration)?;
    let declarator = declarator_below(alloc, c, s, height, DeclaratorForm::Parameter)?;
    declare_parameter(s, declarator.tree(), specifiers.as_slice())?;
    Ok(parameter_of(specifiers, declarator))
}

/// A parameter behind a comma, or nothing behind `...`
#[cycle(reading)]
pub(crate) fn next_parameter<L: TokenList>(
    alloc: Global,
    c: &mut Cursor<L>,
    s: &mut Scopes,
    height: u32,
) -> Result<Option<ParameterNode>, ParseStop>
    ensures gives { Gives (λ x. (option_map parameter_of x, s.new)) result (item_or_end (next_is (is_sign Ellipsis)) (take (is_sign Ellipsis)) (parameter (below height)) s.old (ahead c.old)) (ahead c.new) }
    ensures onward { Onward c.old c.new }
    ensures further { IfOk result (λ _. c.old.at < c.new.at) }
{
    take_sign(c, Punctuator::Comma)?;
    if at_sign(c, Punctuator::Ellipsis) {
        take_sign(c, Punctuator::Ellipsis)?;
        return Ok(None);
    }
    Ok(Some(parameter(alloc, c, s, height)?))
}

/// All parameters behind some, and whether `, ...` ends them.
#[cycle(reading)]
pub(crate) fn more_parameters<L: TokenList>(
    alloc: Global,
    c: &mut Cursor<L>,
    s: &mut Scopes,
    height: u32,
    first: ParameterList,
) -> Result<(ParameterList, bool), ParseStop>
    ensures gives { Gives (λ x. ((map parameter_of x.0, x.1), s.new)) result (more_listed_to (next_is (is_sign Ellipsis)) (take (is_sign Ellipsis)) (parameter (below height)) ((map parameter_of first, false), s.old) (ahead c.old)) (ahead c.new) }
    ensures onward { Onward c.old c.new }
{
    let mut ps = first;
    while at_sign(c, Punctuator::Comma) {
        match next_parameter(alloc, c, s, height)? {
            Some(p) => ps.push(p)?,
            None => return Ok((ps, true)),
        }
    }
    Ok((ps, false))
}

/// Parameters: at least one, and whether `, ...` ends them (C11 6.7.6).
#[cycle(reading)]
pub(crate) fn parameters<L: TokenList>(
    alloc: Global,
    c: &mut Cursor<L>,
    s: &mut Scopes,
    height: u32,
) -> Result<(ParameterList, bool), ParseStop>
    ensures gives { Gives (λ x. ((map parameter_of x.0, x.1), s.new)) result (parameters (below height) s.old (ahead c.old)) (ahead c.new) }
    ensures onward { Onward c.old c.new }
{
    let p = parameter(alloc, c, s, height)?;
    let mut ps = ParameterList::new(alloc);
    ps.push(p)?;
    more_parameters(alloc, c, s, height, ps)
}

/// `parameters )`, in a scope of their own (C11 6.2.1p4).
#[cycle(reading)]
#[tactic(auto, using(crate::proofs::LeaveLemmas::left_parameters))]
pub(crate) fn prototyped<L: TokenList>(
    alloc: Global,
    c: &mut Cursor<L>,
    s: &mut Scopes,
    height: u32,
    at: u32,
    d: DeclaratorNode,
) -> Result<DeclaratorNode, ParseStop>
    ensures gives { Gives (λ x. (declarator_of x, s.new)) result (prototyped (below height) at (declarator_of d, s.old) (ahead c.old)) (ahead c.new) }
    ensures onward { Onward c.old c.new }
{
    s.enter()?;
    let (ps, variadic) = parameters(alloc, c, s, height)?;
    take_sign(c, Punctuator::RightParen)?;
    s.leave();
    Ok(function_of(alloc, at, d, ps, variadic)?)
}

/// All identifiers of a list behind some.
fn more_identifiers<L: TokenList>(
    c: &mut Cursor<L>,
    s: &Scopes,
    first: Vec<NameId>,
) -> Result<Vec<NameId>, ParseStop>
    ensures gives { Gives (λ ns. ns.items) result (more_identifiers s.now first.items (ahead c.old)) (ahead c.new) }
    ensures onward { Onward c.old c.new }
{
    let mut ns = first;
    while at_sign(c, Punctuator::Comma) {
        let n = next_identifier(c, s)?;
        ns.push(n)?;
    }
    Ok(ns)
}

/// An identifier behind a comma.
fn next_identifier<L: TokenList>(c: &mut Cursor<L>, s: &Scopes) -> Result<NameId, ParseStop>
    ensures gives { Gives (λ n. n) result (comma_identifier s.now (ahead c.old)) (ahead c.new) }
    ensures onward { Onward c.old c.new }
    ensures further { IfOk result (λ _. c.old.at < c.new.at) }
{
    take_sign(c, Punctuator::Comma)?;
    take_identifier(c, s)
}

/// Identifiers: at least one (C11 6.7.6.3p3).
fn identifiers<L: TokenList>(
    alloc: Global,
    c: &mut Cursor<L>,
    s: &Scopes,
) -> Result<Vec<NameId>, ParseStop>
    ensures gives { Gives (λ ns. ns.items) result (identifiers s.now (ahead c.old)) (ahead c.new) }
    ensures onward { Onward c.old c.new }
{
    let n = take_identifier(c, s)?;
    let mut ns = Vec::new(alloc);
    ns.push(n)?;
    more_identifiers(c, s, ns)
}

/// `names )`
pub(crate) fn unprototyped<L: TokenList>(
    alloc: Global,
    c: &mut Cursor<L>,
    s: &Scopes,
    at: u32,
    d: DeclaratorNode,
) -> Result<DeclaratorNode, ParseStop>
    ensures gives { Gives (λ x. (declarator_of x, s.now)) result (unprototyped at (declarator_of d, s.now) (ahead c.old)) (ahead c.new) }
    ensures onward { Onward c.old c.new }
{
    let ns = identifiers(alloc, c, s)?;
    take_sign(c, Punctuator::RightParen)?;
    Ok(unprototyped_of(alloc, at, d, ns)?)
}

/// `)`
pub(crate) fn without_parameters<L: TokenList>(
    alloc: Global,
    c: &mut Cursor<L>,
    s: &Scopes,
    at: u32,
    d: DeclaratorNode,
) -> Result<DeclaratorNode, ParseStop>
    ensures gives { Gives (λ x. (declarator_of x, s.now)) result (without_parameters at (declarator_of d, s.now) (ahead c.old)) (ahead c.new) }
    ensures onward { Onward c.old c.new }
{
    take_sign(c, Punctuator::RightParen)?;
    Ok(unprototyped_of(alloc, at, d, Vec::new(alloc))?)
}

/// Whether identifiers stand here: the declarator may be that of a definition, and nothing was derived yet (C11 6.7.6.3p3, 6.9.1p5).
fn begins_identifiers<L: TokenList>(
    c: &Cursor<L>,
    s: &Scopes,
    form: DeclaratorForm,
    d: &Declarator,
) -> bool
    ensures { result ≡ begins_identifiers form (declarator_of d.now, s.now) (head (ahead c.now).rest) }
{
    may_have_identifiers(form) && is_underived(d) && at_identifier(c, s)
}

/// What stands behind the `(` of a function (C11 6.7.6.3).
#[cycle(reading)]
pub(crate) fn function_behind<L: TokenList>(
    alloc: Global,
    c: &mut Cursor<L>,
    s: &mut Scopes,
    height: u32,
    form: DeclaratorForm,
    at: u32,
    d: DeclaratorNode,
) -> Result<DeclaratorNode, ParseStop>
    ensures gives { Gives (λ x. (declarator_of x, s.new)) result (function_of (below height) form at (declarator_of d, s.old) (ahead c.old)) (ahead c.new) }
    ensures onward { Onward c.old c.new }
{
    if at_sign(c, Punctuator::RightParen) {
        return without_parameters(alloc, c, s, at, d);
    }
    if begins_identifiers(c, s, form, d.tree()) {
        return unprototyped(alloc, c, s, at, d);
    }
    prototyped(alloc, c, s, height, at, d)
}
