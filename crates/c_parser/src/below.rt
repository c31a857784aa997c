ghost use Rattle.std.specs.Prelude.{◌≡◌, IfOk};
ghost use Rattle.c_tree.specs.View.{expr_of, specifiers_of, declarator_of, init_of};
ghost use Rattle.c_exprs.specs.declared.words.SpecifierForm.TheVariants.{Declaration as InDeclaration};
ghost use Rattle.c_exprs.specs.declared.words.DeclaratorForm.TheVariants.{Definition as InDefinition, Member as InMember};
ghost use Rattle.c_cursor.specs.Lexemes.{ahead};
ghost use Rattle.c_cursor.specs.Lexemes.{Onward};
ghost use Rattle.c_cursor.specs.Given.{Gives};
ghost use Rattle.c_exprs.specs.DeclaratorReading.{outer_of};
ghost use Rattle.c_parser.specs.UnitReading.{lower};

use c_cursor::{Cursor, ParseStop};
use c_exprs::{declarator, expr, initialiser, named_declarator, specifiers};
use c_lexer::TokenList;
use c_nodes::{DeclarationSpecifiers, FullDeclarator, FullExpr, Initialiser};
use c_tree::Level;
use std::alloc::Global;
use typedef_scopes::Scopes;

/// An expression of that level, lower than that height (C11 6.5).
#[tactic(auto, using(crate::proofs::Lower::no_expr, crate::proofs::Lower::expr_same, crate::proofs::Lower::expr_fails))]
pub(crate) fn expr_below<L: TokenList>(
    alloc: Global,
    c: &mut Cursor<L>,
    s: &mut Scopes,
    height: u32,
    level: Level,
) -> Result<FullExpr, ParseStop>
    ensures gives { Gives (λ x. (expr_of x, s.new)) result ((lower height).trees.expr level s.old (ahead c.old)) (ahead c.new) }
    ensures onward { Onward c.old c.new }
    ensures outer { IfOk result (λ _. outer_of s.new ≡ outer_of s.old) }
{
    if height < 1 {
        return Err(ParseStop::At(c.position()));
    }
    let tree = expr(alloc, c, s, height - 1, level)?;
    Ok(FullExpr::of(tree))
}

/// The specifiers of a declaration, lower than that height (C11 6.7).
pub(crate) fn specifiers_below<L: TokenList>(
    alloc: Global,
    c: &mut Cursor<L>,
    s: &mut Scopes,
    height: u32,
) -> Result<DeclarationSpecifiers, ParseStop>
    ensures gives { Gives (λ x. (specifiers_of x, s.new)) result ((lower height).trees.specifiers InDeclaration s.old (ahead c.old)) (ahead c.new) }
    ensures onward { Onward c.old c.new }
{
    if height < 1 {
        return Err(ParseStop::At(c.position()));
    }
    Ok(DeclarationSpecifiers::of(specifiers(alloc, c, s, height - 1)?))
}

/// A declarator that may be that of a function's definition, lower than that height (C11 6.7.6, 6.9.1).
pub(crate) fn declarator_below<L: TokenList>(
    alloc: Global,
    c: &mut Cursor<L>,
    s: &mut Scopes,
    height: u32,
) -> Result<FullDeclarator, ParseStop>
    ensures gives { Gives (λ x. (declarator_of x, s.new)) result ((lower height).trees.declarator InDefinition s.old (ahead c.old)) (ahead c.new) }
    ensures onward { Onward c.old c.new }
{
    if height < 1 {
        return Err(ParseStop::At(c.position()));
    }
    Ok(FullDeclarator::of(declarator(alloc, c, s, height - 1)?))
}

/// A declarator without an identifier list, lower than that height (C11 6.7.6).
pub(crate) fn named_declarator_below<L: TokenList>(
    alloc: Global,
    c: &mut Cursor<L>,
    s: &mut Scopes,
    height: u32,
) -> Result<FullDeclarator, ParseStop>
    ensures gives { Gives (λ x. (declarator_of x, s.new)) result ((lower height).trees.declarator InMember s.old (ahead c.old)) (ahead c.new) }
    ensures onward { Onward c.old c.new }
{
    if height < 1 {
        return Err(ParseStop::At(c.position()));
    }
    Ok(FullDeclarator::of(named_declarator(alloc, c, s, height - 1)?))
}

/// An initialiser, lower than that height (C11 6.7.9).
pub(crate) fn init_below<L: TokenList>(
    alloc: Global,
    c: &mut Cursor<L>,
    s: &mut Scopes,
    height: u32,
) -> Result<Initialiser, ParseStop>
    ensures gives { Gives (λ x. (init_of x, s.new)) result ((lower height).init s.old (ahead c.old)) (ahead c.new) }
    ensures onward { Onward c.old c.new }
{
    if height < 1 {
        return Err(ParseStop::At(c.position()));
    }
    Ok(Initialiser::of(initialiser(alloc, c, s, height - 1)?))
}
