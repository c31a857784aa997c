ghost use Rattle.std.specs.Prelude.{◌<◌, false, map, IfOk};
ghost use Rattle.std.specs.Option.{option_map};
ghost use Rattle.cil_base.specs.declared.tokens.Punctuator.TheVariants.{RightBracket, RightBrace};
ghost use Rattle.c_tree.specs.Syntax as plain;
ghost use Rattle.c_tree.specs.View.{expr_of, designator_of, init_of, item_of, items_of};
ghost use Rattle.c_cursor.specs.Lexemes.{Onward, ahead};
ghost use Rattle.c_cursor.specs.Given.{Gives};
ghost use Rattle.c_cursor.specs.Readers.{bind, pure};
ghost use Rattle.c_cursor.specs.Classes.{next_is, is_sign, take};
ghost use Rattle.c_exprs.specs.Subs.{In, more_listed_to};
ghost use Rattle.c_exprs.specs.Steps.{item_or_end};
ghost use Rattle.c_exprs.specs.Reading.{below};
ghost use Rattle.c_exprs.specs.InitReading.{designator_member, designator, more_designators, some_designators, initialiser, item, items};

use crate::expressions::expression;
use crate::goes_on::goes_on_expr;
use crate::nexts::at_designation;
use crate::takes::take_designation;
use crate::type_names::braced;
use crate::words::Designation;
use c_cursor::{Cursor, ParseStop, at_sign, take_name, take_sign};
use c_lexer::TokenList;
use c_nodes::{
    DesignatorList, DesignatorNode, ExprNode, InitNode, ItemList, ItemNode, at_index_of,
    at_member_of, braces_of, item_of, single_of,
};
use c_tree::Level;
use cil_base::Punctuator;
use std::alloc::Global;
use typedef_scopes::Scopes;

/// The name behind the `.` of a designator
pub(crate) fn designator_member<L: TokenList>(
    c: &mut Cursor<L>,
    s: &Scopes,
    at: u32,
) -> Result<DesignatorNode, ParseStop>
    ensures gives { Gives (λ x. (designator_of x, s.now)) result (designator_member at s.now (ahead c.old)) (ahead c.new) }
    ensures onward { Onward c.old c.new }
{
    let n = take_name(c)?;
    Ok(at_member_of(at, n))
}

/// `]` behind the index of a designator
fn index_closed<L: TokenList>(
    alloc: Global,
    c: &mut Cursor<L>,
    s: &Scopes,
    at: u32,
    e: ExprNode,
) -> Result<DesignatorNode, ParseStop>
    ensures gives { Gives {B = In plain.DesignatorTree} (λ x. (designator_of x, s.now)) result (bind (take (is_sign RightBracket)) (λ c. pure (plain.AtIndex at (expr_of e), s.now)) (ahead c.old)) (ahead c.new) }
    ensures onward { Onward c.old c.new }
{
    take_sign(c, Punctuator::RightBracket)?;
    Ok(at_index_of(at, e))
}

/// A designator (C11 6.7.9).
#[cycle(reading)]
pub(crate) fn designator<L: TokenList>(
    alloc: Global,
    c: &mut Cursor<L>,
    s: &mut Scopes,
    height: u32,
) -> Result<DesignatorNode, ParseStop>
    ensures gives { Gives (λ x. (designator_of x, s.new)) result (designator height (below height) s.old (ahead c.old)) (ahead c.new) }
    ensures onward { Onward c.old c.new }
    ensures further { IfOk result (λ _. c.old.at < c.new.at) }
{
    let at = c.position();
    match take_designation(c)? {
        Designation::Index => {
            let e = expression(alloc, c, s, height, Level::Conditional)?;
            index_closed(alloc, c, s, at, e)
        }
        Designation::Member => designator_member(c, s, at),
    }
}

/// All designators behind some.
#[cycle(reading)]
pub(crate) fn more_designators<L: TokenList>(
    alloc: Global,
    c: &mut Cursor<L>,
    s: &mut Scopes,
    height: u32,
    first: DesignatorList,
) -> Result<DesignatorList, ParseStop>
    ensures gives { Gives (λ x. (map designator_of x, s.new)) result (more_designators height (below height) (map designator_of first, s.old) (ahead c.old)) (ahead c.new) }
    ensures onward { Onward c.old c.new }
{
    let mut ds = first;
    while at_designation(c) {
        let d = designator(alloc, c, s, height)?;
        ds.push(d)?;
    }
    Ok(ds)
}

/// Designators: at least one.
#[cycle(reading)]
pub(crate) fn some_designators<L: TokenList>(
    alloc: Global,
    c: &mut Cursor<L>,
    s: &mut Scopes,
    height: u32,
) -> Result<DesignatorList, ParseStop>
    ensures gives { Gives (λ x. (map designator_of x, s.new)) result (some_designators height (below height) s.old (ahead c.old)) (ahead c.new) }
    ensures onward { Onward c.old c.new }
{
    let d = designator(alloc, c, s, height)?;
    let mut ds = DesignatorList::new(alloc);
    ds.push(d)?;
    more_designators(alloc, c, s, height, ds)
}

/// An initialiser of at most that height: an expression, or items in braces (C11 6.7.9).
#[cycle(reading)]
pub(crate) fn initialiser_within<L: TokenList>(
    alloc: Global,
    c: &mut Cursor<L>,
    s: &mut Scopes,
    height: u32,
) -> Result<InitNode, ParseStop>
    ensures gives { Gives (λ x. (init_of x, s.new)) result (initialiser height (below height) s.old (ahead c.old)) (ahead c.new) }
    ensures onward { Onward c.old c.new }
{
    if !at_sign(c, Punctuator::LeftBrace) {
        let e = expression(alloc, c, s, height, Level::Assignment)?;
        return Ok(single_of(e));
    }
    let at = c.position();
    let (items, comma) = braced(alloc, c, s, height)?;
    if goes_on_expr(c, Level::Assignment) {
        return Err(ParseStop::At(c.position()));
    }
    Ok(braces_of(at, items, comma)?)
}

/// An item of an initialiser in braces, with designators or without (C11 6.7.9).
#[cycle(reading)]
#[tactic(auto, using(crate::proofs::TreeLists::seen_designators))]
pub(crate) fn item<L: TokenList>(
    alloc: Global,
    c: &mut Cursor<L>,
    s: &mut Scopes,
    height: u32,
) -> Result<ItemNode, ParseStop>
    ensures gives { Gives (λ x. (item_of x, s.new)) result (item height (below height) s.old (ahead c.old)) (ahead c.new) }
    ensures onward { Onward c.old c.new }
{
    if !at_designation(c) {
        let init = initialiser_within(alloc, c, s, height)?;
        return Ok(item_of(DesignatorList::new(alloc), init));
    }
    let designators = some_designators(alloc, c, s, height)?;
    take_sign(c, Punctuator::Equal)?;
    let init = initialiser_within(alloc, c, s, height)?;
    Ok(item_of(designators, init))
}

/// An item behind a comma, or nothing before `}`.
#[cycle(reading)]
pub(crate) fn next_item<L: TokenList>(
    alloc: Global,
    c: &mut Cursor<L>,
    s: &mut Scopes,
    height: u32,
) -> Result<Option<ItemNode>, ParseStop>
    ensures gives { Gives (λ x. (option_map item_of x, s.new)) result (item_or_end (next_is (is_sign RightBrace)) (pure tt) (item height (below height)) s.old (ahead c.old)) (ahead c.new) }
    ensures onward { Onward c.old c.new }
    ensures further { IfOk result (λ _. c.old.at < c.new.at) }
{
    take_sign(c, Punctuator::Comma)?;
    if at_sign(c, Punctuator::RightBrace) {
        return Ok(None);
    }
    Ok(Some(item(alloc, c, s, height)?))
}

/// All items behind some, and whether a comma stands behind the last.
#[cycle(reading)]
pub(crate) fn more_items<L: TokenList>(
    alloc: Global,
    c: &mut Cursor<L>,
    s: &mut Scopes,
    height: u32,
    first: ItemList,
) -> Result<(ItemList, bool), ParseStop>
    ensures gives { Gives (λ x. ((map item_of x.0, x.1), s.new)) result (more_listed_to (next_is (is_sign RightBrace)) (pure tt) (item height (below height)) ((map item_of first, false), s.old) (ahead c.old)) (ahead c.new) }
    ensures onward { Onward c.old c.new }
{
    let mut is = first;
    while at_sign(c, Punctuator::Comma) {
        match next_item(alloc, c, s, height)? {
            Some(i) => is.push(i)?,
            None => return Ok((is, true)),
        }
    }
    Ok((is, false))
}

/// The items of an initialiser in braces: at least one, and whether a comma stands behind the last (C11 6.7.9).
#[cycle(reading)]
#[tactic(auto, using(crate::proofs::TreeLists::seen_items))]
pub(crate) fn items<L: TokenList>(
    alloc: Global,
    c: &mut Cursor<L>,
    s: &mut Scopes,
    height: u32,
) -> Result<(ItemList, bool), ParseStop>
    ensures gives { Gives (λ x. ((items_of x.0, x.1), s.new)) result (items height (below height) s.old (ahead c.old)) (ahead c.new) }
    ensures onward { Onward c.old c.new }
{
    if height < 1 {
        return Err(ParseStop::At(c.position()));
    }
    let i = item(alloc, c, s, height)?;
    let mut is = ItemList::new(alloc);
    is.push(i)?;
    more_items(alloc, c, s, height, is)
}
