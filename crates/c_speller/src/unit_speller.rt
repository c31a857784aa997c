ghost use Rattle.std.specs.Prelude.{◌≡◌, ◌∷◌, ◌++◌, map, IfOk};
ghost use Rattle.std.specs.Option.{option_map};
ghost use Rattle.c_tree.specs.View.{expr_of, init_of};
ghost use Rattle.c_tree.specs.UnitView.{init_declarator_of, declaration_of, start_of, stmt_of, block_item_of, block_of, external_of, unit_of};
ghost use Rattle.c_tree.specs.Spelling.{sign, in_parens, in_braces, with_commas};
ghost use Rattle.c_tree.specs.UnitSpelling.{spell_maybe, spell_maybe_init, spell_init_declarator, spell_declaration, spell_declarations, spell_start, spell_stmt, spell_block_item, spell_block, spell_external, spell_unit};
ghost use Rattle.c_speller.specs.SpelledTokens.{with_texts, tokens_of};
ghost use Rattle.c_speller.specs.Added.{Adds};
ghost use Rattle.cil_base.specs.declared.tokens.Punctuator.TheVariants.{Semicolon};

use crate::spelled::{SpelledToken, Texts, TokenSink, put_comma_if, put_name, put_sign, put_word};
use crate::speller::{
    put_assertion, put_declarator, put_expr, put_in_parens, put_init, put_specifiers,
};
use c_tree::{
    BlockItem, Declaration, Expr, ExtDecl, ForStart, FunctionDefinition, Init, InitDeclarator,
    Stmt, Unit,
};
use cil_base::{Keyword, Memory, NamePool, Punctuator};
use std::alloc::Global;

/// Puts an expression that may be absent.
#[tactic(auto, using(crate::proofs::AddedLemmas::adds_none))]
fn put_maybe(from: &Texts, out: &mut TokenSink, x: &Option<Expr>)
    ensures { Adds from.now.names.now out.old out.new (spell_maybe (option_map expr_of x.now)) }
{
    match x {
        None => {}
        Some(e) => put_expr(from, out, e),
    }
}

/// Puts `=` and an initialiser, where there is one.
#[tactic(auto, using(crate::proofs::AddedLemmas::adds_more, crate::proofs::AddedLemmas::adds_next, crate::proofs::AddedLemmas::adds_none))]
fn put_maybe_init(from: &Texts, out: &mut TokenSink, x: &Option<Init>)
    ensures { Adds from.now.names.now out.old out.new (spell_maybe_init (option_map init_of x.now)) }
{
    match x {
        None => {}
        Some(i) => {
            put_sign(from, out, Punctuator::Equal);
            put_init(from, out, i);
        }
    }
}

/// Puts a declarator with its initialiser.
#[tactic(auto, using(crate::proofs::AddedLemmas::adds_more, crate::proofs::AddedLemmas::adds_next))]
fn put_init_declarator(from: &Texts, out: &mut TokenSink, x: &InitDeclarator)
    ensures { Adds from.now.names.now out.old out.new (spell_init_declarator (init_declarator_of x.now)) }
{
    put_declarator(from, out, &x.declarator);
    put_maybe_init(from, out, &x.init);
}

/// Puts declarators with their initialisers, with commas between them.
#[tactic(auto, using(crate::proofs::AddedLemmas::commas_start, crate::proofs::AddedLemmas::commas_step, crate::proofs::UnitLists::init_declarators_end))]
fn put_init_declarators(from: &Texts, out: &mut TokenSink, xs: &[InitDeclarator])
    ensures { Adds from.now.names.now out.old out.new (with_commas (map spell_init_declarator (map init_declarator_of xs.now))) }
{
    let mut is_more = false;
    for x in xs {
        put_comma_if(from, out, is_more);
        put_init_declarator(from, out, x);
        is_more = true;
    }
}

/// Puts a declaration (C11 6.7).
#[tactic(auto, using(crate::proofs::AddedLemmas::adds_more, crate::proofs::AddedLemmas::adds_next))]
fn put_declaration(from: &Texts, out: &mut TokenSink, x: &Declaration)
    ensures { Adds from.now.names.now out.old out.new (spell_declaration (declaration_of x.now)) }
{
    match x {
        Declaration::Declares(_, ss, ds) => {
            put_specifiers(from, out, ss);
            put_init_declarators(from, out, ds);
            put_sign(from, out, Punctuator::Semicolon);
        }
        Declaration::StaticAssert(a) => put_assertion(from, out, a),
    }
}

/// Puts declarations.
#[tactic(auto, using(crate::proofs::AddedLemmas::added_start, crate::proofs::AddedLemmas::added_step, crate::proofs::UnitLists::declarations_end))]
fn put_declarations(from: &Texts, out: &mut TokenSink, xs: &[Declaration])
    ensures { Adds from.now.names.now out.old out.new (spell_declarations (map declaration_of xs.now)) }
{
    for x in xs {
        put_declaration(from, out, x);
    }
}

/// Puts what stands before the first semicolon of a for statement, and that semicolon.
#[tactic(auto, using(crate::proofs::AddedLemmas::adds_more, crate::proofs::AddedLemmas::adds_next))]
fn put_start(from: &Texts, out: &mut TokenSink, x: &ForStart)
    ensures { Adds from.now.names.now out.old out.new (spell_start (start_of x.now)) }
{
    match x {
        ForStart::Expr(e) => {
            put_maybe(from, out, e);
            put_sign(from, out, Punctuator::Semicolon);
        }
        ForStart::Declaration(d) => put_declaration(from, out, d),
    }
}

/// Puts what a for statement has in its parentheses.
#[tactic(auto, using(crate::proofs::AddedLemmas::adds_more, crate::proofs::AddedLemmas::adds_next))]
fn put_clauses(
    from: &Texts,
    out: &mut TokenSink,
    start: &ForStart,
    condition: &Option<Expr>,
    step: &Option<Expr>,
)
    ensures { Adds from.now.names.now out.old out.new (spell_start (start_of start.now) ++ (spell_maybe (option_map expr_of condition.now) ++ (sign Semicolon ∷ spell_maybe (option_map expr_of step.now)))) }
{
    put_start(from, out, start);
    put_maybe(from, out, condition);
    put_sign(from, out, Punctuator::Semicolon);
    put_maybe(from, out, step);
}

/// Puts the parentheses of a for statement with what they hold.
#[tactic(auto, using(crate::proofs::AddedLemmas::adds_more, crate::proofs::AddedLemmas::adds_next))]
fn put_head(
    from: &Texts,
    out: &mut TokenSink,
    start: &ForStart,
    condition: &Option<Expr>,
    step: &Option<Expr>,
)
    ensures { Adds from.now.names.now out.old out.new (in_parens (spell_start (start_of start.now) ++ (spell_maybe (option_map expr_of condition.now) ++ (sign Semicolon ∷ spell_maybe (option_map expr_of step.now))))) }
{
    put_sign(from, out, Punctuator::LeftParen);
    put_clauses(from, out, start, condition, step);
    put_sign(from, out, Punctuator::RightParen);
}

/// Puts a statement (C11 6.8).
#[cycle(spelled_block)]
#[tactic(auto, using(crate::proofs::AddedLemmas::adds_more, crate::proofs::AddedLemmas::adds_next, crate::proofs::AddedLemmas::adds_parens, c_tree::proofs::UnitLemmas::at_compound))]
fn put_stmt(from: &Texts, out: &mut TokenSink, x: &Stmt)
    ensures { Adds from.now.names.now out.old out.new (spell_stmt (stmt_of x.now)) }
{
    match x {
        Stmt::Labelled(_, n, s) => {
            put_name(from, out, *n);
            put_sign(from, out, Punctuator::Colon);
            put_stmt(from, out, s);
        }
        Stmt::Case(_, e, s) => {
            put_word(from, out, Keyword::Case);
            put_expr(from, out, e);
            put_sign(from, out, Punctuator::Colon);
            put_stmt(from, out, s);
        }
        Stmt::Default(_, s) => {
            put_word(from, out, Keyword::Default);
            put_sign(from, out, Punctuator::Colon);
            put_stmt(from, out, s);
        }
        Stmt::Compound(_, items) => put_braced(from, out, items),
        Stmt::Expr(_, e) => {
            put_maybe(from, out, e);
            put_sign(from, out, Punctuator::Semicolon);
        }
        Stmt::If(_, e, s) => {
            put_word(from, out, Keyword::If);
            put_in_parens(from, out, e);
            put_stmt(from, out, s);
        }
        Stmt::IfElse(_, e, s, u) => {
            put_word(from, out, Keyword::If);
            put_in_parens(from, out, e);
            put_stmt(from, out, s);
            put_word(from, out, Keyword::Else);
            put_stmt(from, out, u);
        }
        Stmt::Switch(_, e, s) => {
            put_word(from, out, Keyword::Switch);
            put_in_parens(from, out, e);
            put_stmt(from, out, s);
        }
        Stmt::While(_, e, s) => {
            put_word(from, out, Keyword::While);
            put_in_parens(from, out, e);
            put_stmt(from, out, s);
        }
        Stmt::Do(_, s, e) => {
            put_word(from, out, Keyword::Do);
            put_stmt(from, out, s);
            put_word(from, out, Keyword::While);
            put_in_parens(from, out, e);
            put_sign(from, out, Punctuator::Semicolon);
        }
        Stmt::For(_, start, e, step, s) => {
            put_word(from, out, Keyword::For);
            put_head(from, out, start, e, step);
            put_stmt(from, out, s);
        }
        Stmt::Goto(_, n) => {
            put_word(from, out, Keyword::Goto);
            put_name(from, out, *n);
            put_sign(from, out, Punctuator::Semicolon);
        }
        Stmt::Continue(_) => {
            put_word(from, out, Keyword::Continue);
            put_sign(from, out, Punctuator::Semicolon);
        }
        Stmt::Break(_) => {
            put_word(from, out, Keyword::Break);
            put_sign(from, out, Punctuator::Semicolon);
        }
        Stmt::Return(_, e) => {
            put_word(from, out, Keyword::Return);
            put_maybe(from, out, e);
            put_sign(from, out, Punctuator::Semicolon);
        }
    }
}

/// Puts the items of a block in their braces.
#[cycle(spelled_block)]
#[tactic(auto, using(crate::proofs::AddedLemmas::adds_more, crate::proofs::AddedLemmas::adds_next))]
fn put_braced(from: &Texts, out: &mut TokenSink, xs: &[BlockItem])
    ensures { Adds from.now.names.now out.old out.new (in_braces (spell_block (block_of xs.now))) }
{
    put_sign(from, out, Punctuator::LeftBrace);
    put_block(from, out, xs);
    put_sign(from, out, Punctuator::RightBrace);
}

/// Puts an item of a block.
#[cycle(spelled_block)]
fn put_block_item(from: &Texts, out: &mut TokenSink, x: &BlockItem)
    ensures { Adds from.now.names.now out.old out.new (spell_block_item (block_item_of x.now)) }
{
    match x {
        BlockItem::Declaration(d) => put_declaration(from, out, d),
        BlockItem::Statement(s) => put_stmt(from, out, s),
    }
}

/// Puts the items of a block.
#[cycle(spelled_block)]
#[tactic(auto, using(crate::proofs::AddedLemmas::added_start, crate::proofs::AddedLemmas::added_step, crate::proofs::UnitLists::block_end))]
fn put_block(from: &Texts, out: &mut TokenSink, xs: &[BlockItem])
    ensures { Adds from.now.names.now out.old out.new (spell_block (block_of xs.now)) }
{
    for x in xs {
        put_block_item(from, out, x);
    }
}

/// Puts a function definition (C11 6.9.1).
#[tactic(auto, using(crate::proofs::AddedLemmas::adds_more, crate::proofs::AddedLemmas::adds_next))]
fn put_definition(from: &Texts, out: &mut TokenSink, x: &FunctionDefinition)
    ensures { Adds from.now.names.now out.old out.new (spell_external (external_of (ExtDecl.Definition x.now))) }
{
    put_specifiers(from, out, &x.specifiers);
    put_declarator(from, out, &x.declarator);
    put_declarations(from, out, &x.declarations);
    put_braced(from, out, &x.body);
}

/// Puts an external declaration.
fn put_external(from: &Texts, out: &mut TokenSink, x: &ExtDecl)
    ensures { Adds from.now.names.now out.old out.new (spell_external (external_of x.now)) }
{
    match x {
        ExtDecl::Definition(d) => put_definition(from, out, d),
        ExtDecl::Declaration(d) => put_declaration(from, out, d),
    }
}

/// Puts external declarations.
#[tactic(auto, using(crate::proofs::AddedLemmas::added_start, crate::proofs::AddedLemmas::added_step, crate::proofs::UnitLists::externals_end))]
fn put_externals(from: &Texts, out: &mut TokenSink, xs: &[ExtDecl])
    ensures { Adds from.now.names.now out.old out.new (spell_unit (map external_of xs.now)) }
{
    for x in xs {
        put_external(from, out, x);
    }
}

/// The tokens of a unit with their texts (C11 Annex A): those of each node in the order of its production.
///
/// A name has its text in the pool; a number that the pool does not have stands for no byte (own). A keyword and a
/// punctuator have their first spelling, constants and literals the text that they were written with. Only want of
/// memory makes it fail.
#[tactic(auto, using(crate::proofs::AddedLemmas::adds_all))]
pub fn spell(alloc: Global, u: &Unit, names: &NamePool) -> Result<Vec<SpelledToken>, Memory>
    ensures { IfOk result (λ tokens. tokens_of tokens.items ≡ with_texts names.now (spell_unit (unit_of u.now))) }
{
    let mut out = TokenSink::new(alloc);
    put_externals(&Texts { alloc, names }, &mut out, &u.declarations);
    if out.has_failed {
        return Err(Memory);
    }
    Ok(out.tokens)
}
