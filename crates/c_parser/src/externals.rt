ghost use Rattle.std.specs.Prelude.{◌≡◌, ◌<◌, ◌≤◌, [], ◌∷◌, length, map, IfOk, MatchResult};
ghost use Rattle.c_tree.specs.View.{specifiers_of, declarator_of};
ghost use Rattle.c_tree.specs.UnitView.{init_declarator_of, declaration_of};
ghost use Rattle.c_tree.specs.UnitView.{external_of as tree_of};
ghost use Rattle.c_tree.specs.Scoped.{entered, has_typedef, after_own_list};
ghost use Rattle.c_cursor.specs.declared.stops.ParseStop.TheVariants.{Memory as WantOfMemory};
ghost use Rattle.c_cursor.specs.Lexemes.{ahead};
ghost use Rattle.cil_base.specs.declared.tokens.Punctuator.TheVariants.{Semicolon};
ghost use Rattle.c_tree.specs.Units as plain;
ghost use Rattle.c_cursor.specs.Readers.{head, pure, bind};
ghost use Rattle.c_cursor.specs.Classes.{is_sign, take};
ghost use Rattle.c_cursor.specs.Lexemes.{Onward};
ghost use Rattle.c_cursor.specs.Given.{Gives};
ghost use Rattle.c_exprs.specs.Subs.{In, more_listed};
ghost use Rattle.c_exprs.specs.DeclaratorReading.{outer_of};
ghost use Rattle.c_parser.specs.DeclarationReading.{init_declarator};
ghost use Rattle.c_parser.specs.ExternalReading.{declarations, own_declarations, definition, more_declarators, declared, defines, defined_or_declared, first_declarator, no_declarator, behind_specifiers, specified, asserted};
ghost use Rattle.c_parser.specs.UnitReading.{lower, external_of};

use crate::below::{declarator_below, specifiers_below};
use crate::blocks::{enter_block, leave_block};
use crate::declarations::{
    behind_declarator, declaration_below, declare_name, more_init_declarators, static_assert,
};
use crate::nexts::at_declaration;
use crate::own_list::declare_own_list;
use crate::statements::body_below;
use c_cursor::{Cursor, ParseStop, at_assert, at_sign, take_sign};
use c_exprs::has_typedef;
use c_lexer::TokenList;
use c_nodes::{
    DeclarationNode, DeclarationSpecifiers, Declarations, Declarators, ExternalNode,
    FullDeclarator, InitDeclaratorNode,
};
use c_tree::has_own_names;
use cil_base::Punctuator;
use std::alloc::Global;
use typedef_scopes::Scopes;

/// Declarations before the body of a function with an identifier list (C11 6.9.1p6).
fn declarations<L: TokenList>(
    alloc: Global,
    c: &mut Cursor<L>,
    s: &mut Scopes,
    height: u32,
) -> Result<Declarations, ParseStop>
    ensures gives { Gives (λ x. (map declaration_of x, s.new)) result (declarations (lower height) s.old (ahead c.old)) (ahead c.new) }
    ensures onward { Onward c.old c.new }
    ensures outer { IfOk result (λ _. outer_of s.new ≡ outer_of s.old) }
{
    let mut ds = Declarations::new(alloc);
    while at_declaration(c, s) {
        let d = declaration_below(alloc, c, s, height)?;
        ds.push(d)?;
    }
    Ok(ds)
}

/// These, where the function has an identifier list; otherwise none.
fn own_declarations<L: TokenList>(
    alloc: Global,
    c: &mut Cursor<L>,
    s: &mut Scopes,
    height: u32,
    named: bool,
) -> Result<Declarations, ParseStop>
    ensures gives { Gives (λ x. (map declaration_of x, s.new)) result (own_declarations named (lower height) s.old (ahead c.old)) (ahead c.new) }
    ensures onward { Onward c.old c.new }
    ensures outer { IfOk result (λ _. outer_of s.new ≡ outer_of s.old) }
{
    if named {
        return declarations(alloc, c, s, height);
    }
    Ok(Declarations::new(alloc))
}

/// Enters the block of a function's body, in which what its own list declares is in scope (C11 6.2.1p4).
#[tactic(auto, using(crate::proofs::Kept::own_list_kept, crate::proofs::Kept::two_kept))]
fn enter_function(s: &mut Scopes, d: &FullDeclarator) -> Result<(), ParseStop>
    ensures entered { MatchResult result (λ _. s.new ≡ after_own_list (entered s.old) (declarator_of d.now)) (λ stop. stop ≡ WantOfMemory) }
    ensures outer { IfOk result (λ _. outer_of s.new ≡ s.old) }
    ensures room { IfOk result (λ _. 2 ≤ length s.new) }
{
    enter_block(s)?;
    declare_own_list(d.tree(), s)?;
    Ok(())
}

/// A function's definition behind its declarator, whose name is declared (C11 6.9.1).
fn definition<L: TokenList>(
    alloc: Global,
    c: &mut Cursor<L>,
    s: &mut Scopes,
    height: u32,
    at: u32,
    specifiers: DeclarationSpecifiers,
    declarator: FullDeclarator,
) -> Result<ExternalNode, ParseStop>
    ensures gives { Gives (λ x. (tree_of x, s.new)) result (definition (lower height) at (specifiers_of specifiers) (declarator_of declarator, s.old) (ahead c.old)) (ahead c.new) }
    ensures onward { Onward c.old c.new }
    ensures further { IfOk result (λ _. c.old.at < c.new.at) }
{
    enter_function(s, &declarator)?;
    let named = has_own_names(declarator.tree());
    let declarations = own_declarations(alloc, c, s, height, named)?;
    let body_at = c.position();
    let body = body_below(alloc, c, s, height)?;
    leave_block(s);
    Ok(ExternalNode::definition(at, specifiers, declarator, declarations, body_at, body))
}

/// All declarators of a declaration, of which the first was read with its initialiser.
fn all_declarators<L: TokenList>(
    alloc: Global,
    c: &mut Cursor<L>,
    s: &mut Scopes,
    height: u32,
    typedef: bool,
    first: InitDeclaratorNode,
) -> Result<Declarators, ParseStop>
    ensures gives { Gives (λ x. (map init_declarator_of x, s.new)) result (more_listed (init_declarator (lower height) typedef) (init_declarator_of first ∷ [], s.old) (ahead c.old)) (ahead c.new) }
    ensures onward { Onward c.old c.new }
{
    let mut ds = Declarators::new(alloc);
    ds.push(first)?;
    more_init_declarators(alloc, c, s, height, typedef, ds)
}

/// All declarators behind specifiers, of which the first was read with its initialiser.
fn declarators_from<L: TokenList>(
    alloc: Global,
    c: &mut Cursor<L>,
    s: &mut Scopes,
    height: u32,
    specifiers: &DeclarationSpecifiers,
    first: InitDeclaratorNode,
) -> Result<Declarators, ParseStop>
    ensures gives { Gives (λ x. (map init_declarator_of x, s.new)) result (more_listed (init_declarator (lower height) (has_typedef (specifiers_of specifiers.now))) (init_declarator_of first ∷ [], s.old) (ahead c.old)) (ahead c.new) }
    ensures onward { Onward c.old c.new }
{
    all_declarators(alloc, c, s, height, has_typedef(specifiers.list()), first)
}

/// `;` behind the declarators of a declaration
fn declared_with<L: TokenList>(
    c: &mut Cursor<L>,
    s: &Scopes,
    at: u32,
    specifiers: DeclarationSpecifiers,
    ds: Declarators,
) -> Result<ExternalNode, ParseStop>
    ensures gives { Gives {B = In plain.ExternalTree} (λ x. (tree_of x, s.now)) result (bind (take (is_sign Semicolon)) (λ c. pure (plain.External (plain.Declares at (specifiers_of specifiers) (map init_declarator_of ds)), s.now)) (ahead c.old)) (ahead c.new) }
    ensures onward { Onward c.old c.new }
    ensures further { IfOk result (λ _. c.old.at < c.new.at) }
{
    take_sign(c, Punctuator::Semicolon)?;
    let declaration = DeclarationNode::declares(at, specifiers, ds);
    Ok(ExternalNode::declaration(declaration))
}

/// What stands behind the first declarator of a declaration, with its initialiser.
fn more_declarators<L: TokenList>(
    alloc: Global,
    c: &mut Cursor<L>,
    s: &mut Scopes,
    height: u32,
    at: u32,
    specifiers: DeclarationSpecifiers,
    first: InitDeclaratorNode,
) -> Result<ExternalNode, ParseStop>
    ensures gives { Gives (λ x. (tree_of x, s.new)) result (more_declarators (lower height) at (specifiers_of specifiers) (init_declarator_of first, s.old) (ahead c.old)) (ahead c.new) }
    ensures onward { Onward c.old c.new }
    ensures further { IfOk result (λ _. c.old.at < c.new.at) }
{
    let ds = declarators_from(alloc, c, s, height, &specifiers, first)?;
    declared_with(c, s, at, specifiers, ds)
}

/// A declaration behind its first declarator, whose name is declared.
fn declared<L: TokenList>(
    alloc: Global,
    c: &mut Cursor<L>,
    s: &mut Scopes,
    height: u32,
    at: u32,
    specifiers: DeclarationSpecifiers,
    declarator: FullDeclarator,
) -> Result<ExternalNode, ParseStop>
    ensures gives { Gives (λ x. (tree_of x, s.new)) result (declared (lower height) at (specifiers_of specifiers) (declarator_of declarator, s.old) (ahead c.old)) (ahead c.new) }
    ensures onward { Onward c.old c.new }
    ensures further { IfOk result (λ _. c.old.at < c.new.at) }
{
    let first = behind_declarator(alloc, c, s, height, declarator)?;
    more_declarators(alloc, c, s, height, at, specifiers, first)
}

/// Whether a declarator, by the next token, is that of a definition.
fn defines<L: TokenList>(c: &Cursor<L>, d: &FullDeclarator) -> bool
    ensures { result ≡ defines (declarator_of d.now) (head (ahead c.now).rest) }
{
    has_own_names(d.tree()) || at_sign(c, Punctuator::LeftBrace)
}

/// An external declaration behind its first declarator, whose name is declared.
fn defined_or_declared<L: TokenList>(
    alloc: Global,
    c: &mut Cursor<L>,
    s: &mut Scopes,
    height: u32,
    at: u32,
    specifiers: DeclarationSpecifiers,
    declarator: FullDeclarator,
) -> Result<ExternalNode, ParseStop>
    ensures gives { Gives (λ x. (tree_of x, s.new)) result (defined_or_declared (lower height) at (specifiers_of specifiers) (declarator_of declarator, s.old) (ahead c.old)) (ahead c.new) }
    ensures onward { Onward c.old c.new }
    ensures further { IfOk result (λ _. c.old.at < c.new.at) }
{
    if defines(c, &declarator) {
        return definition(alloc, c, s, height, at, specifiers, declarator);
    }
    declared(alloc, c, s, height, at, specifiers, declarator)
}

/// An external declaration behind its specifiers, with its first declarator.
fn first_declarator<L: TokenList>(
    alloc: Global,
    c: &mut Cursor<L>,
    s: &mut Scopes,
    height: u32,
    at: u32,
    specifiers: DeclarationSpecifiers,
) -> Result<ExternalNode, ParseStop>
    ensures gives { Gives (λ x. (tree_of x, s.new)) result (first_declarator (lower height) at (specifiers_of specifiers, s.old) (ahead c.old)) (ahead c.new) }
    ensures onward { Onward c.old c.new }
    ensures further { IfOk result (λ _. c.old.at < c.new.at) }
{
    let d = declarator_below(alloc, c, s, height)?;
    declare_name(s, &d, has_typedef(specifiers.list()))?;
    defined_or_declared(alloc, c, s, height, at, specifiers, d)
}

/// `;` behind specifiers alone
fn no_declarator<L: TokenList>(
    alloc: Global,
    c: &mut Cursor<L>,
    s: &Scopes,
    at: u32,
    specifiers: DeclarationSpecifiers,
) -> Result<ExternalNode, ParseStop>
    ensures gives { Gives (λ x. (tree_of x, s.now)) result (no_declarator at (specifiers_of specifiers, s.now) (ahead c.old)) (ahead c.new) }
    ensures onward { Onward c.old c.new }
    ensures further { IfOk result (λ _. c.old.at < c.new.at) }
{
    take_sign(c, Punctuator::Semicolon)?;
    let declaration = DeclarationNode::declares(at, specifiers, Declarators::new(alloc));
    Ok(ExternalNode::declaration(declaration))
}

/// An external declaration behind its specifiers.
fn behind_specifiers<L: TokenList>(
    alloc: Global,
    c: &mut Cursor<L>,
    s: &mut Scopes,
    height: u32,
    at: u32,
    specifiers: DeclarationSpecifiers,
) -> Result<ExternalNode, ParseStop>
    ensures gives { Gives (λ x. (tree_of x, s.new)) result (behind_specifiers (lower height) at (specifiers_of specifiers, s.old) (ahead c.old)) (ahead c.new) }
    ensures onward { Onward c.old c.new }
    ensures further { IfOk result (λ _. c.old.at < c.new.at) }
{
    if at_sign(c, Punctuator::Semicolon) {
        return no_declarator(alloc, c, s, at, specifiers);
    }
    first_declarator(alloc, c, s, height, at, specifiers)
}

/// An external declaration that begins with specifiers, whose first token has that number.
fn specified<L: TokenList>(
    alloc: Global,
    c: &mut Cursor<L>,
    s: &mut Scopes,
    height: u32,
    at: u32,
) -> Result<ExternalNode, ParseStop>
    ensures gives { Gives (λ x. (tree_of x, s.new)) result (specified (lower height) s.old at (ahead c.old)) (ahead c.new) }
    ensures onward { Onward c.old c.new }
    ensures further { IfOk result (λ _. c.old.at < c.new.at) }
{
    let specifiers = specifiers_below(alloc, c, s, height)?;
    behind_specifiers(alloc, c, s, height, at, specifiers)
}

/// A static assertion outside functions (C11 6.7.10).
fn asserted<L: TokenList>(
    alloc: Global,
    c: &mut Cursor<L>,
    s: &mut Scopes,
    height: u32,
    at: u32,
) -> Result<ExternalNode, ParseStop>
    ensures gives { Gives (λ x. (tree_of x, s.new)) result (asserted (lower height) s.old at (ahead c.old)) (ahead c.new) }
    ensures onward { Onward c.old c.new }
    ensures further { IfOk result (λ _. c.old.at < c.new.at) }
{
    let declaration = static_assert(alloc, c, s, height, at)?;
    Ok(ExternalNode::declaration(declaration))
}

/// An external declaration (C11 6.9), of at most that height.
pub(crate) fn external<L: TokenList>(
    alloc: Global,
    c: &mut Cursor<L>,
    s: &mut Scopes,
    height: u32,
) -> Result<ExternalNode, ParseStop>
    ensures gives { Gives (λ x. (tree_of x, s.new)) result (external_of height s.old (ahead c.old)) (ahead c.new) }
    ensures onward { Onward c.old c.new }
    ensures further { IfOk result (λ _. c.old.at < c.new.at) }
{
    let at = c.position();
    if at_assert(c) {
        return asserted(alloc, c, s, height, at);
    }
    specified(alloc, c, s, height, at)
}
