ghost use Rattle.std.specs.Prelude.{drop, IfOk, IfErr};
ghost use Rattle.c_tree.specs.View.{expr_of, specifiers_of, declarator_of, init_of};
ghost use Rattle.c_exprs.specs.declared.words.SpecifierForm.TheVariants.{Declaration as InDeclaration};
ghost use Rattle.c_exprs.specs.declared.words.DeclaratorForm.TheVariants.{Definition as InDefinition, Member as InMember};
ghost use Rattle.c_cursor.specs.Lexemes.{Onward, ahead};
ghost use Rattle.c_cursor.specs.Given.{Gives};
ghost use Rattle.c_exprs.specs.Reading.{readings, below};
ghost use Rattle.c_exprs.specs.Answers.{Reads, Refuses};
ghost use Rattle.c_exprs.specs.Forms.{IsExpr, expr_goes, IsTypeName, type_name_goes, IsSpecifiers, specifiers_goes, IsDeclarator, declarator_goes, IsNamedDeclarator, named_declarator_goes, IsInit, init_goes};
ghost use Rattle.c_cursor.specs.Telling.{Tells};
ghost use Rattle.c_exprs.specs.ExprReading.{type_name as reading_of_type};
ghost use Rattle.c_exprs.specs.InitReading.{initialiser as reading_of_initialiser};

use crate::declarators::declarator as declarator_within;
use crate::expressions::expression;
use crate::goes_on::goes_on_type_name;
use crate::initialisers::initialiser_within;
use crate::specifier_lists::specifiers as specifiers_within;
use crate::told::has_type_specifier;
use crate::words::{DeclaratorForm, SpecifierForm};
use c_cursor::{Cursor, ParseStop};
use c_lexer::TokenList;
use c_nodes::{TypeNameNode, type_name_of};
use c_tree::{Declarator, Expr, Init, Level, Specifiers, TypeName};
use std::alloc::Global;
use typedef_scopes::Scopes;

/// Reads an expression of that level and of at most that height from the cursor on (C11 6.5).
///
/// The tree's names and the scopes behind it are those of the scopes at hand. The token behind the tree does not go on with it. After `At(i)` no such
/// tree begins with the tokens up to and including token i, and none spells the tokens up to one that does not go on; where i is the number of tokens,
/// only the second is said. After an error the cursor and the scopes are to be dropped.
#[tactic(auto, using(crate::proofs::CallLemmas::reads_expr, crate::proofs::CallLemmas::refused_expr))]
pub fn expr<L: TokenList>(
    alloc: Global,
    c: &mut Cursor<L>,
    s: &mut Scopes,
    height: u32,
    level: Level,
) -> Result<Box<Expr>, ParseStop>
    ensures gives { Gives (λ x. (expr_of x.value, s.new)) result ((readings height (below height)).expr level s.old (ahead c.old)) (ahead c.new) }
    ensures reads { IfOk result (λ x. Reads (IsExpr s.old level height) (expr_goes level) c.old.at (drop c.old.at c.old.all) (expr_of x.value, s.new) c.new.at (drop c.new.at c.new.all)) }
    ensures refused { IfErr result (λ stop. Tells (λ i. Refuses (IsExpr s.old level height) (expr_goes level) c.old.at (drop c.old.at c.old.all) i (drop i c.old.all)) stop) }
    ensures onward { Onward c.old c.new }
{
    Ok(expression(alloc, c, s, height, level)?.into_tree())
}

/// A type name of at most that height.
fn type_name_within<L: TokenList>(
    alloc: Global,
    c: &mut Cursor<L>,
    s: &mut Scopes,
    height: u32,
) -> Result<TypeNameNode, ParseStop>
    ensures gives { Gives (λ x. ((specifiers_of x.specifiers.items, declarator_of x.declarator), s.new)) result (reading_of_type (readings height (below height)) s.old (ahead c.old)) (ahead c.new) }
    ensures onward { Onward c.old c.new }
{
    let specifiers = specifiers_within(alloc, c, s, height, SpecifierForm::TypeName)?;
    let declarator = declarator_within(alloc, c, s, height, DeclaratorForm::Abstract)?;
    if goes_on_type_name(c, has_type_specifier(specifiers.as_slice()), s) {
        return Err(ParseStop::At(c.position()));
    }
    Ok(type_name_of(alloc, specifiers, declarator)?)
}

/// Reads a type name of at most that height from the cursor on (C11 6.7.7).
///
/// The tree's names and the scopes behind it are those of the scopes at hand. The token behind the tree does not go on with it. After `At(i)` no such
/// tree begins with the tokens up to and including token i, and none spells the tokens up to one that does not go on; where i is the number of tokens,
/// only the second is said. After an error the cursor and the scopes are to be dropped.
#[tactic(auto, using(crate::proofs::CallLemmas::reads_type_name, crate::proofs::CallLemmas::refused_type_name))]
pub fn type_name<L: TokenList>(
    alloc: Global,
    c: &mut Cursor<L>,
    s: &mut Scopes,
    height: u32,
) -> Result<Box<TypeName>, ParseStop>
    ensures gives { Gives (λ x. ((specifiers_of x.value.specifiers.items, declarator_of x.value.declarator), s.new)) result (reading_of_type (readings height (below height)) s.old (ahead c.old)) (ahead c.new) }
    ensures reads { IfOk result (λ x. Reads (IsTypeName s.old height) (type_name_goes) c.old.at (drop c.old.at c.old.all) ((specifiers_of x.value.specifiers.items, declarator_of x.value.declarator), s.new) c.new.at (drop c.new.at c.new.all)) }
    ensures refused { IfErr result (λ stop. Tells (λ i. Refuses (IsTypeName s.old height) (type_name_goes) c.old.at (drop c.old.at c.old.all) i (drop i c.old.all)) stop) }
    ensures onward { Onward c.old c.new }
{
    Ok(type_name_within(alloc, c, s, height)?.into_tree())
}

/// Reads the specifiers of a declaration, at least one, of at most that height from the cursor on (C11 6.7).
///
/// The tree's names and the scopes behind it are those of the scopes at hand. The token behind the tree does not go on with it. After `At(i)` no such
/// tree begins with the tokens up to and including token i, and none spells the tokens up to one that does not go on; where i is the number of tokens,
/// only the second is said. After an error the cursor and the scopes are to be dropped.
#[tactic(auto, using(crate::proofs::CallLemmas::reads_specifiers, crate::proofs::CallLemmas::refused_specifiers))]
pub fn specifiers<L: TokenList>(
    alloc: Global,
    c: &mut Cursor<L>,
    s: &mut Scopes,
    height: u32,
) -> Result<Specifiers, ParseStop>
    ensures gives { Gives (λ x. (specifiers_of x.items, s.new)) result ((readings height (below height)).specifiers InDeclaration s.old (ahead c.old)) (ahead c.new) }
    ensures reads { IfOk result (λ x. Reads (IsSpecifiers s.old height) (specifiers_goes) c.old.at (drop c.old.at c.old.all) (specifiers_of x.items, s.new) c.new.at (drop c.new.at c.new.all)) }
    ensures refused { IfErr result (λ stop. Tells (λ i. Refuses (IsSpecifiers s.old height) (specifiers_goes) c.old.at (drop c.old.at c.old.all) i (drop i c.old.all)) stop) }
    ensures onward { Onward c.old c.new }
{
    Ok(specifiers_within(alloc, c, s, height, SpecifierForm::Declaration)?.into_vec())
}

/// Reads a declarator of a declaration or of a function's definition, of at most that height from the cursor on (C11 6.7.6, 6.9.1).
///
/// The tree's names and the scopes behind it are those of the scopes at hand. The token behind the tree does not go on with it. After `At(i)` no such
/// tree begins with the tokens up to and including token i, and none spells the tokens up to one that does not go on; where i is the number of tokens,
/// only the second is said. After an error the cursor and the scopes are to be dropped.
/// The name that it declares is not declared in the scopes.
#[tactic(auto, using(crate::proofs::CallLemmas::reads_declarator, crate::proofs::CallLemmas::refused_declarator))]
pub fn declarator<L: TokenList>(
    alloc: Global,
    c: &mut Cursor<L>,
    s: &mut Scopes,
    height: u32,
) -> Result<Box<Declarator>, ParseStop>
    ensures gives { Gives (λ x. (declarator_of x.value, s.new)) result ((readings height (below height)).declarator InDefinition s.old (ahead c.old)) (ahead c.new) }
    ensures reads { IfOk result (λ x. Reads (IsDeclarator s.old height) (declarator_goes) c.old.at (drop c.old.at c.old.all) (declarator_of x.value, s.new) c.new.at (drop c.new.at c.new.all)) }
    ensures refused { IfErr result (λ stop. Tells (λ i. Refuses (IsDeclarator s.old height) (declarator_goes) c.old.at (drop c.old.at c.old.all) i (drop i c.old.all)) stop) }
    ensures onward { Onward c.old c.new }
{
    Ok(declarator_within(alloc, c, s, height, DeclaratorForm::Definition)?.into_tree())
}

/// Reads a declarator that declares a name and has no identifier list, of at most that height from the cursor on (C11 6.7.6, 6.7.6.3p3): what stands
/// behind the first declarator of a declaration, and behind a declarator among the declarations of a definition's parameters.
///
/// The tree's names and the scopes behind it are those of the scopes at hand. The token behind the tree does not go on with it. After `At(i)` no such
/// tree begins with the tokens up to and including token i, and none spells the tokens up to one that does not go on; where i is the number of tokens,
/// only the second is said. After an error the cursor and the scopes are to be dropped.
/// The name that it declares is not declared in the scopes.
#[tactic(auto, using(crate::proofs::CallLemmas::reads_named, crate::proofs::CallLemmas::refused_named))]
pub fn named_declarator<L: TokenList>(
    alloc: Global,
    c: &mut Cursor<L>,
    s: &mut Scopes,
    height: u32,
) -> Result<Box<Declarator>, ParseStop>
    ensures gives { Gives (λ x. (declarator_of x.value, s.new)) result ((readings height (below height)).declarator InMember s.old (ahead c.old)) (ahead c.new) }
    ensures reads { IfOk result (λ x. Reads (IsNamedDeclarator s.old height) (named_declarator_goes) c.old.at (drop c.old.at c.old.all) (declarator_of x.value, s.new) c.new.at (drop c.new.at c.new.all)) }
    ensures refused { IfErr result (λ stop. Tells (λ i. Refuses (IsNamedDeclarator s.old height) (named_declarator_goes) c.old.at (drop c.old.at c.old.all) i (drop i c.old.all)) stop) }
    ensures onward { Onward c.old c.new }
{
    Ok(declarator_within(alloc, c, s, height, DeclaratorForm::Member)?.into_tree())
}

/// Reads an initialiser of at most that height from the cursor on (C11 6.7.9).
///
/// The tree's names and the scopes behind it are those of the scopes at hand. The token behind the tree does not go on with it. After `At(i)` no such
/// tree begins with the tokens up to and including token i, and none spells the tokens up to one that does not go on; where i is the number of tokens,
/// only the second is said. After an error the cursor and the scopes are to be dropped.
#[tactic(auto, using(crate::proofs::CallLemmas::reads_init, crate::proofs::CallLemmas::refused_init))]
pub fn initialiser<L: TokenList>(
    alloc: Global,
    c: &mut Cursor<L>,
    s: &mut Scopes,
    height: u32,
) -> Result<Init, ParseStop>
    ensures gives { Gives (λ x. (init_of x, s.new)) result (reading_of_initialiser height (below height) s.old (ahead c.old)) (ahead c.new) }
    ensures reads { IfOk result (λ x. Reads (IsInit s.old height) (init_goes) c.old.at (drop c.old.at c.old.all) (init_of x, s.new) c.new.at (drop c.new.at c.new.all)) }
    ensures refused { IfErr result (λ stop. Tells (λ i. Refuses (IsInit s.old height) (init_goes) c.old.at (drop c.old.at c.old.all) i (drop i c.old.all)) stop) }
    ensures onward { Onward c.old c.new }
{
    Ok(initialiser_within(alloc, c, s, height)?.into_tree())
}
