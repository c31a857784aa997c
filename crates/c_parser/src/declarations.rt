ghost use Rattle.std.specs.Prelude.{◌≡◌, ◌<◌, map, IfOk, MatchResult};
ghost use Rattle.c_tree.specs.View.{expr_of, specifiers_of, declarator_of};
ghost use Rattle.c_tree.specs.UnitView.{init_declarator_of, declaration_of};
ghost use Rattle.c_tree.specs.Scoped.{name_of, declared_if};
ghost use Rattle.c_cursor.specs.declared.stops.ParseStop.TheVariants.{Memory as WantOfMemory};
ghost use Rattle.c_cursor.specs.Lexemes.{ahead};
ghost use Rattle.c_cursor.specs.Lexemes.{Onward};
ghost use Rattle.c_cursor.specs.Given.{Gives};
ghost use Rattle.c_exprs.specs.Subs.{behind_comma, listed, more_listed};
ghost use Rattle.c_exprs.specs.DeclaratorReading.{outer_of};
ghost use Rattle.c_parser.specs.DeclarationReading.{assert_end, static_assert, initialised, behind_declarator, init_declarator, init_declarators, behind_specifiers, specified, declaration};
ghost use Rattle.c_parser.specs.UnitReading.{lower};

use crate::below::{expr_below, init_below, named_declarator_below, specifiers_below};
use crate::own_list::declare_if;
use c_cursor::{Cursor, ParseStop, at_assert, at_sign, some_literals, take_assert, take_sign};
use c_exprs::{has_typedef, name_of};
use c_lexer::TokenList;
use c_nodes::{
    DeclarationNode, DeclarationSpecifiers, Declarators, FullDeclarator, FullExpr,
    InitDeclaratorNode,
};
use c_tree::Level;
use cil_base::Punctuator;
use std::alloc::Global;
use typedef_scopes::Scopes;

/// `, message ) ;` of a static assertion
fn assert_end<L: TokenList>(
    alloc: Global,
    c: &mut Cursor<L>,
    s: &Scopes,
    at: u32,
    condition: FullExpr,
) -> Result<DeclarationNode, ParseStop>
    ensures gives { Gives (λ x. (declaration_of x, s.now)) result (assert_end at (expr_of condition, s.now) (ahead c.old)) (ahead c.new) }
    ensures onward { Onward c.old c.new }
{
    take_sign(c, Punctuator::Comma)?;
    let message_at = c.position();
    let message = some_literals(alloc, c)?;
    take_sign(c, Punctuator::RightParen)?;
    take_sign(c, Punctuator::Semicolon)?;
    Ok(DeclarationNode::asserts(at, condition, message_at, message))
}

/// A static assertion (C11 6.7.10), whose first token has that number.
pub(crate) fn static_assert<L: TokenList>(
    alloc: Global,
    c: &mut Cursor<L>,
    s: &mut Scopes,
    height: u32,
    at: u32,
) -> Result<DeclarationNode, ParseStop>
    ensures gives { Gives (λ x. (declaration_of x, s.new)) result (static_assert (lower height) s.old at (ahead c.old)) (ahead c.new) }
    ensures onward { Onward c.old c.new }
    ensures further { IfOk result (λ _. c.old.at < c.new.at) }
{
    take_assert(c)?;
    take_sign(c, Punctuator::LeftParen)?;
    let condition = expr_below(alloc, c, s, height, Level::Conditional)?;
    assert_end(alloc, c, s, at, condition)
}

/// `= initialiser` behind a declarator
fn initialised<L: TokenList>(
    alloc: Global,
    c: &mut Cursor<L>,
    s: &mut Scopes,
    height: u32,
    declarator: FullDeclarator,
) -> Result<InitDeclaratorNode, ParseStop>
    ensures gives { Gives (λ x. (init_declarator_of x, s.new)) result (initialised (lower height) (declarator_of declarator) s.old (ahead c.old)) (ahead c.new) }
    ensures onward { Onward c.old c.new }
{
    take_sign(c, Punctuator::Equal)?;
    let init = init_below(alloc, c, s, height)?;
    Ok(InitDeclaratorNode::of(declarator, Some(init)))
}

/// What stands behind a declarator, whose name is declared: `= initialiser`, or nothing (C11 6.7, 6.2.1p7).
pub(crate) fn behind_declarator<L: TokenList>(
    alloc: Global,
    c: &mut Cursor<L>,
    s: &mut Scopes,
    height: u32,
    declarator: FullDeclarator,
) -> Result<InitDeclaratorNode, ParseStop>
    ensures gives { Gives (λ x. (init_declarator_of x, s.new)) result (behind_declarator (lower height) (declarator_of declarator, s.old) (ahead c.old)) (ahead c.new) }
    ensures onward { Onward c.old c.new }
{
    if at_sign(c, Punctuator::Equal) {
        return initialised(alloc, c, s, height, declarator);
    }
    Ok(InitDeclaratorNode::of(declarator, None))
}

/// Declares the name of a declarator, if it has one (C11 6.2.1p7, 6.7.8p3).
pub(crate) fn declare_name(
    s: &mut Scopes,
    d: &FullDeclarator,
    typedef: bool,
) -> Result<(), ParseStop>
    ensures { MatchResult result (λ _. s.new ≡ declared_if (name_of (declarator_of d.now)) typedef s.old) (λ stop. stop ≡ WantOfMemory) }
{
    declare_if(name_of(d.tree()), typedef, s)?;
    Ok(())
}

/// A declarator with its initialiser, if it has one (C11 6.7).
pub(crate) fn init_declarator<L: TokenList>(
    alloc: Global,
    c: &mut Cursor<L>,
    s: &mut Scopes,
    height: u32,
    typedef: bool,
) -> Result<InitDeclaratorNode, ParseStop>
    ensures gives { Gives (λ x. (init_declarator_of x, s.new)) result (init_declarator (lower height) typedef s.old (ahead c.old)) (ahead c.new) }
    ensures onward { Onward c.old c.new }
{
    let d = named_declarator_below(alloc, c, s, height)?;
    declare_name(s, &d, typedef)?;
    behind_declarator(alloc, c, s, height, d)
}

/// A declarator with its initialiser behind a comma.
fn next_init_declarator<L: TokenList>(
    alloc: Global,
    c: &mut Cursor<L>,
    s: &mut Scopes,
    height: u32,
    typedef: bool,
) -> Result<InitDeclaratorNode, ParseStop>
    ensures gives { Gives (λ x. (init_declarator_of x, s.new)) result (behind_comma (init_declarator (lower height) typedef) s.old (ahead c.old)) (ahead c.new) }
    ensures onward { Onward c.old c.new }
    ensures further { IfOk result (λ _. c.old.at < c.new.at) }
{
    take_sign(c, Punctuator::Comma)?;
    init_declarator(alloc, c, s, height, typedef)
}

/// All declarators with their initialisers behind some.
pub(crate) fn more_init_declarators<L: TokenList>(
    alloc: Global,
    c: &mut Cursor<L>,
    s: &mut Scopes,
    height: u32,
    typedef: bool,
    first: Declarators,
) -> Result<Declarators, ParseStop>
    ensures gives { Gives (λ x. (map init_declarator_of x, s.new)) result (more_listed (init_declarator (lower height) typedef) (map init_declarator_of first, s.old) (ahead c.old)) (ahead c.new) }
    ensures onward { Onward c.old c.new }
{
    let mut ds = first;
    while at_sign(c, Punctuator::Comma) {
        let d = next_init_declarator(alloc, c, s, height, typedef)?;
        ds.push(d)?;
    }
    Ok(ds)
}

/// Declarators with their initialisers: at least one.
fn some_init_declarators<L: TokenList>(
    alloc: Global,
    c: &mut Cursor<L>,
    s: &mut Scopes,
    height: u32,
    typedef: bool,
) -> Result<Declarators, ParseStop>
    ensures gives { Gives (λ x. (map init_declarator_of x, s.new)) result (listed (init_declarator (lower height) typedef) s.old (ahead c.old)) (ahead c.new) }
    ensures onward { Onward c.old c.new }
{
    let d = init_declarator(alloc, c, s, height, typedef)?;
    let mut ds = Declarators::new(alloc);
    ds.push(d)?;
    more_init_declarators(alloc, c, s, height, typedef, ds)
}

/// The declarators behind specifiers, if there are some (C11 6.7).
fn init_declarators<L: TokenList>(
    alloc: Global,
    c: &mut Cursor<L>,
    s: &mut Scopes,
    height: u32,
    specifiers: &DeclarationSpecifiers,
) -> Result<Declarators, ParseStop>
    ensures gives { Gives (λ x. (map init_declarator_of x, s.new)) result (init_declarators (lower height) (specifiers_of specifiers.now, s.old) (ahead c.old)) (ahead c.new) }
    ensures onward { Onward c.old c.new }
{
    if at_sign(c, Punctuator::Semicolon) {
        return Ok(Declarators::new(alloc));
    }
    some_init_declarators(alloc, c, s, height, has_typedef(specifiers.list()))
}

/// `declarators ;`
fn behind_specifiers<L: TokenList>(
    alloc: Global,
    c: &mut Cursor<L>,
    s: &mut Scopes,
    height: u32,
    at: u32,
    specifiers: DeclarationSpecifiers,
) -> Result<DeclarationNode, ParseStop>
    ensures gives { Gives (λ x. (declaration_of x, s.new)) result (behind_specifiers (lower height) at (specifiers_of specifiers, s.old) (ahead c.old)) (ahead c.new) }
    ensures onward { Onward c.old c.new }
    ensures further { IfOk result (λ _. c.old.at < c.new.at) }
{
    let ds = init_declarators(alloc, c, s, height, &specifiers)?;
    take_sign(c, Punctuator::Semicolon)?;
    Ok(DeclarationNode::declares(at, specifiers, ds))
}

/// `specifiers declarators ;`, whose first token has that number
fn specified<L: TokenList>(
    alloc: Global,
    c: &mut Cursor<L>,
    s: &mut Scopes,
    height: u32,
    at: u32,
) -> Result<DeclarationNode, ParseStop>
    ensures gives { Gives (λ x. (declaration_of x, s.new)) result (specified (lower height) s.old at (ahead c.old)) (ahead c.new) }
    ensures onward { Onward c.old c.new }
    ensures further { IfOk result (λ _. c.old.at < c.new.at) }
{
    let specifiers = specifiers_below(alloc, c, s, height)?;
    behind_specifiers(alloc, c, s, height, at, specifiers)
}

/// A declaration (C11 6.7), of at most that height.
pub(crate) fn declaration<L: TokenList>(
    alloc: Global,
    c: &mut Cursor<L>,
    s: &mut Scopes,
    height: u32,
) -> Result<DeclarationNode, ParseStop>
    ensures gives { Gives (λ x. (declaration_of x, s.new)) result (declaration (lower height) s.old (ahead c.old)) (ahead c.new) }
    ensures onward { Onward c.old c.new }
    ensures further { IfOk result (λ _. c.old.at < c.new.at) }
{
    let at = c.position();
    if at_assert(c) {
        return static_assert(alloc, c, s, height, at);
    }
    specified(alloc, c, s, height, at)
}

/// A declaration that is lower than that height.
#[tactic(auto, using(crate::proofs::Lower::no_declaration, crate::proofs::Lower::lower_declaration, crate::proofs::Kept::declaration_kept_below))]
pub(crate) fn declaration_below<L: TokenList>(
    alloc: Global,
    c: &mut Cursor<L>,
    s: &mut Scopes,
    height: u32,
) -> Result<DeclarationNode, ParseStop>
    ensures gives { Gives (λ x. (declaration_of x, s.new)) result ((lower height).declaration s.old (ahead c.old)) (ahead c.new) }
    ensures onward { Onward c.old c.new }
    ensures further { IfOk result (λ _. c.old.at < c.new.at) }
    ensures outer { IfOk result (λ _. outer_of s.new ≡ outer_of s.old) }
{
    if height < 1 {
        return Err(ParseStop::At(c.position()));
    }
    declaration(alloc, c, s, height - 1)
}
