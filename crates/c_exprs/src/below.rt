ghost use Rattle.std.specs.Prelude.{◌<◌, IfOk};
ghost use Rattle.c_tree.specs.View.{expr_of, specifiers_of, declarator_of, items_of};
ghost use Rattle.c_cursor.specs.Lexemes.{Onward, ahead};
ghost use Rattle.c_cursor.specs.Given.{Gives};
ghost use Rattle.c_exprs.specs.Reading.{below};

use crate::declarators::declarator;
use crate::expressions::{expression, literal_of, parenthesised, starred};
use crate::initialisers::items;
use crate::specifier_lists::specifiers;
use crate::words::{DeclaratorForm, SpecifierForm};
use c_cursor::{Cursor, ParseStop};
use c_lexer::TokenList;
use c_nodes::{DeclaratorNode, ExprNode, ItemList, SpecifierList, TypeNameNode};
use c_tree::Level;
use std::alloc::Global;
use typedef_scopes::Scopes;

/// An expression of that level, lower than that height.
#[cycle(reading)]
#[tactic(auto, using(crate::proofs::Heights::no_expr, crate::proofs::Heights::lower_expr))]
pub(crate) fn expr_below<L: TokenList>(
    alloc: Global,
    c: &mut Cursor<L>,
    s: &mut Scopes,
    height: u32,
    level: Level,
) -> Result<ExprNode, ParseStop>
    ensures gives { Gives (λ x. (expr_of x, s.new)) result ((below height).expr level s.old (ahead c.old)) (ahead c.new) }
    ensures onward { Onward c.old c.new }
{
    if height < 1 {
        return Err(ParseStop::At(c.position()));
    }
    expression(alloc, c, s, height - 1, level)
}

/// As `parenthesised`, lower than that height.
#[cycle(reading)]
#[tactic(auto, using(crate::proofs::Heights::no_parenthesised, crate::proofs::Heights::lower_parenthesised))]
pub(crate) fn parenthesised_below<L: TokenList>(
    alloc: Global,
    c: &mut Cursor<L>,
    s: &mut Scopes,
    height: u32,
    at: u32,
) -> Result<ExprNode, ParseStop>
    ensures gives { Gives (λ x. (expr_of x, s.new)) result ((below height).parenthesised at s.old (ahead c.old)) (ahead c.new) }
    ensures onward { Onward c.old c.new }
{
    if height < 1 {
        return Err(ParseStop::At(c.position()));
    }
    parenthesised(alloc, c, s, height - 1, at)
}

/// As `starred`, lower than that height.
#[cycle(reading)]
#[tactic(auto, using(crate::proofs::Heights::no_starred, crate::proofs::Heights::lower_starred))]
pub(crate) fn starred_below<L: TokenList>(
    alloc: Global,
    c: &mut Cursor<L>,
    s: &mut Scopes,
    height: u32,
    at: u32,
) -> Result<ExprNode, ParseStop>
    ensures gives { Gives (λ x. (expr_of x, s.new)) result ((below height).starred at s.old (ahead c.old)) (ahead c.new) }
    ensures onward { Onward c.old c.new }
{
    if height < 1 {
        return Err(ParseStop::At(c.position()));
    }
    starred(alloc, c, s, height - 1, at)
}

/// As `literal_of`, lower than that height.
#[cycle(reading)]
#[tactic(auto, using(crate::proofs::Heights::no_literal, crate::proofs::Heights::lower_literal))]
pub(crate) fn literal_below<L: TokenList>(
    alloc: Global,
    c: &mut Cursor<L>,
    s: &mut Scopes,
    height: u32,
    at: u32,
    t: TypeNameNode,
) -> Result<ExprNode, ParseStop>
    ensures gives { Gives (λ x. (expr_of x, s.new)) result ((below height).literal at ((specifiers_of t.specifiers.items, declarator_of t.declarator), s.old) (ahead c.old)) (ahead c.new) }
    ensures onward { Onward c.old c.new }
{
    if height < 1 {
        return Err(ParseStop::At(c.position()));
    }
    literal_of(alloc, c, s, height - 1, at, t)
}

/// Specifiers of that form, lower than that height.
#[cycle(reading)]
#[tactic(auto, using(crate::proofs::Heights::no_specifiers, crate::proofs::Heights::lower_specifiers))]
pub(crate) fn specifiers_below<L: TokenList>(
    alloc: Global,
    c: &mut Cursor<L>,
    s: &mut Scopes,
    height: u32,
    form: SpecifierForm,
) -> Result<SpecifierList, ParseStop>
    ensures gives { Gives (λ x. (specifiers_of x, s.new)) result ((below height).specifiers form s.old (ahead c.old)) (ahead c.new) }
    ensures onward { Onward c.old c.new }
    ensures further { IfOk result (λ _. c.old.at < c.new.at) }
{
    if height < 1 {
        return Err(ParseStop::At(c.position()));
    }
    specifiers(alloc, c, s, height - 1, form)
}

/// A declarator of that form, lower than that height.
#[cycle(reading)]
#[tactic(auto, using(crate::proofs::Heights::no_declarator, crate::proofs::Heights::lower_declarator))]
pub(crate) fn declarator_below<L: TokenList>(
    alloc: Global,
    c: &mut Cursor<L>,
    s: &mut Scopes,
    height: u32,
    form: DeclaratorForm,
) -> Result<DeclaratorNode, ParseStop>
    ensures gives { Gives (λ x. (declarator_of x, s.new)) result ((below height).declarator form s.old (ahead c.old)) (ahead c.new) }
    ensures onward { Onward c.old c.new }
{
    if height < 1 {
        return Err(ParseStop::At(c.position()));
    }
    declarator(alloc, c, s, height - 1, form)
}

/// The items of an initialiser in braces, lower than that height, and whether a comma stands behind the last.
#[cycle(reading)]
#[tactic(auto, using(crate::proofs::Heights::no_items, crate::proofs::Heights::lower_items))]
pub(crate) fn items_below<L: TokenList>(
    alloc: Global,
    c: &mut Cursor<L>,
    s: &mut Scopes,
    height: u32,
) -> Result<(ItemList, bool), ParseStop>
    ensures gives { Gives (λ x. ((items_of x.0, x.1), s.new)) result ((below height).items s.old (ahead c.old)) (ahead c.new) }
    ensures onward { Onward c.old c.new }
{
    if height < 1 {
        return Err(ParseStop::At(c.position()));
    }
    items(alloc, c, s, height - 1)
}
