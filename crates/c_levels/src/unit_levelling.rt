ghost use Rattle.std.specs.Prelude.{◌≡◌, not, map};
ghost use Rattle.std.specs.Option.{option_map};
ghost use Rattle.c_tree.specs.View.{expr_of, init_of};
ghost use Rattle.c_tree.specs.UnitView.{init_declarator_of, declaration_of, start_of, stmt_of, block_item_of, block_of, external_of, unit_of};
ghost use Rattle.c_tree.specs.Levels.{levelled_maybe, levelled_maybe_init, levelled_init_declarator, levelled_init_declarators, levelled_declaration, levelled_declarations, levelled_start, takes_else as ends_open, levelled_stmt, levelled_block_item, levelled_block, levelled_external, levelled_externals, levelled_unit, has_some};
ghost use Rattle.c_tree.specs.Told.{told};

use crate::levelling::{declarator_fits, expr_fits, init_fits, operand_fits, specifiers_fit};
use crate::rules::{both, has_literal, has_specifier, is_defined_by, is_plain};
use c_tree::{
    BlockItem, Declaration, Expr, ExtDecl, ForStart, FunctionDefinition, Init, InitDeclarator,
    Level, Stmt, Unit, declares,
};

/// Whether each part of an expression that may be absent is what its production asks.
#[tactic(auto, using(c_tree::proofs::ToldLemmas::told_true))]
fn maybe_fits(x: &Option<Expr>) -> bool
    ensures { result ≡ told (levelled_maybe (option_map expr_of x.now)) }
{
    match x {
        None => true,
        Some(e) => expr_fits(e),
    }
}

/// Whether each part of an initialiser that may be absent is what its production asks.
#[tactic(auto, using(c_tree::proofs::ToldLemmas::told_true))]
fn maybe_init_fits(x: &Option<Init>) -> bool
    ensures { result ≡ told (levelled_maybe_init (option_map init_of x.now)) }
{
    match x {
        None => true,
        Some(i) => init_fits(i),
    }
}

/// Whether each part of a declarator with its initialiser is what its production asks (C11 6.7).
fn init_declarator_fits(x: &InitDeclarator) -> bool
    ensures { result ≡ told (levelled_init_declarator (init_declarator_of x.now)) }
{
    both(
        both(is_plain(&x.declarator), declarator_fits(&x.declarator)),
        maybe_init_fits(&x.init),
    )
}

/// Whether each part of some is what its production asks.
#[tactic(auto, using(c_tree::proofs::ToldLemmas::all_start, c_tree::proofs::ToldLemmas::all_step, c_tree::proofs::ToldLemmas::all_end, c_tree::proofs::UnitLemmas::all_init_declarators))]
fn init_declarators_fit(xs: &[InitDeclarator]) -> bool
    ensures { result ≡ told (levelled_init_declarators (map init_declarator_of xs.now)) }
{
    let mut all = true;
    for x in xs {
        all = both(all, init_declarator_fits(x));
    }
    all
}

/// Whether each part of a declaration is what its production asks.
fn declaration_fits(x: &Declaration) -> bool
    ensures { result ≡ told (levelled_declaration (declaration_of x.now)) }
{
    match x {
        Declaration::Declares(_, ss, ds) => both(
            both(has_specifier(ss), specifiers_fit(ss)),
            init_declarators_fit(ds),
        ),
        Declaration::StaticAssert(a) => both(
            operand_fits(Level::Conditional, &a.condition),
            has_literal(&a.message),
        ),
    }
}

/// Whether each part of some is what its production asks.
#[tactic(auto, using(c_tree::proofs::ToldLemmas::all_start, c_tree::proofs::ToldLemmas::all_step, c_tree::proofs::ToldLemmas::all_end, c_tree::proofs::UnitLemmas::all_declarations))]
fn declarations_fit(xs: &[Declaration]) -> bool
    ensures { result ≡ told (levelled_declarations (map declaration_of xs.now)) }
{
    let mut all = true;
    for x in xs {
        all = both(all, declaration_fits(x));
    }
    all
}

/// Whether each part of what stands before the first semicolon of a for statement is what its production asks.
fn start_fits(x: &ForStart) -> bool
    ensures { result ≡ told (levelled_start (start_of x.now)) }
{
    match x {
        ForStart::Expr(e) => maybe_fits(e),
        ForStart::Declaration(d) => declaration_fits(d),
    }
}

/// Whether the statement ends in an if without else, to which an else behind it would belong (C11 6.8.4.1p3).
fn takes_else(s: &Stmt) -> bool
    ensures { result ≡ ends_open (stmt_of s.now) }
{
    match s {
        Stmt::If(..) => true,
        Stmt::Labelled(_, _, body) => takes_else(body),
        Stmt::Case(_, _, body) => takes_else(body),
        Stmt::Default(_, body) => takes_else(body),
        Stmt::IfElse(_, _, _, no) => takes_else(no),
        Stmt::Switch(_, _, body) => takes_else(body),
        Stmt::While(_, _, body) => takes_else(body),
        Stmt::For(_, _, _, _, body) => takes_else(body),
        Stmt::Compound(..) | Stmt::Expr(..) | Stmt::Do(..) => false,
        Stmt::Goto(..) | Stmt::Continue(_) | Stmt::Break(_) | Stmt::Return(..) => false,
    }
}

/// Whether an else behind the statement would belong to an if before it.
#[tactic(auto, using(c_tree::proofs::ToldLemmas::told_is))]
fn leaves_else(s: &Stmt) -> bool
    ensures { result ≡ told (not (ends_open (stmt_of s.now))) }
{
    !takes_else(s)
}

/// Whether each part of a statement is what its production asks.
#[cycle(levelled_block)]
#[tactic(auto, using(c_tree::proofs::UnitLemmas::at_compound, c_tree::proofs::ToldLemmas::told_true))]
fn stmt_fits(x: &Stmt) -> bool
    ensures { result ≡ told (levelled_stmt (stmt_of x.now)) }
{
    match x {
        Stmt::Labelled(_, _, s) => stmt_fits(s),
        Stmt::Case(_, e, s) => both(operand_fits(Level::Conditional, e), stmt_fits(s)),
        Stmt::Default(_, s) => stmt_fits(s),
        Stmt::Compound(_, items) => block_fits(items),
        Stmt::Expr(_, e) => maybe_fits(e),
        Stmt::If(_, e, s) => both(expr_fits(e), stmt_fits(s)),
        Stmt::IfElse(_, e, s, u) => both(
            expr_fits(e),
            both(both(leaves_else(s), stmt_fits(s)), stmt_fits(u)),
        ),
        Stmt::Switch(_, e, s) => both(expr_fits(e), stmt_fits(s)),
        Stmt::While(_, e, s) => both(expr_fits(e), stmt_fits(s)),
        Stmt::Do(_, s, e) => both(stmt_fits(s), expr_fits(e)),
        Stmt::For(_, start, c, step, s) => both(
            start_fits(start),
            both(both(maybe_fits(c), maybe_fits(step)), stmt_fits(s)),
        ),
        Stmt::Goto(..) => true,
        Stmt::Continue(..) => true,
        Stmt::Break(..) => true,
        Stmt::Return(_, e) => maybe_fits(e),
    }
}

/// Whether each part of an item of a block is what its production asks.
#[cycle(levelled_block)]
fn block_item_fits(x: &BlockItem) -> bool
    ensures { result ≡ told (levelled_block_item (block_item_of x.now)) }
{
    match x {
        BlockItem::Declaration(d) => declaration_fits(d),
        BlockItem::Statement(s) => stmt_fits(s),
    }
}

/// Whether each part of a block's items is what its production asks.
#[cycle(levelled_block)]
#[tactic(auto, using(c_tree::proofs::ToldLemmas::all_start, c_tree::proofs::ToldLemmas::all_step, c_tree::proofs::ToldLemmas::all_end, c_tree::proofs::UnitLemmas::all_block))]
fn block_fits(xs: &[BlockItem]) -> bool
    ensures { result ≡ told (levelled_block (block_of xs.now)) }
{
    let mut all = true;
    for x in xs {
        all = both(all, block_item_fits(x));
    }
    all
}

/// Whether each part of a function definition is what its production asks (C11 6.9.1).
fn definition_fits(x: &FunctionDefinition) -> bool
    ensures { result ≡ told (levelled_external (external_of (ExtDecl.Definition x.now))) }
{
    let specifiers = both(has_specifier(&x.specifiers), specifiers_fit(&x.specifiers));
    let declarator = both(
        both(declares(&x.declarator), declarator_fits(&x.declarator)),
        is_defined_by(&x.declarator, &x.declarations),
    );
    both(
        both(specifiers, declarator),
        both(declarations_fit(&x.declarations), block_fits(&x.body)),
    )
}

/// Whether each part of an external declaration is what its production asks.
fn external_fits(x: &ExtDecl) -> bool
    ensures { result ≡ told (levelled_external (external_of x.now)) }
{
    match x {
        ExtDecl::Definition(d) => definition_fits(d),
        ExtDecl::Declaration(d) => declaration_fits(d),
    }
}

/// Whether each part of some is what its production asks.
#[tactic(auto, using(c_tree::proofs::ToldLemmas::all_start, c_tree::proofs::ToldLemmas::all_step, c_tree::proofs::ToldLemmas::all_end, c_tree::proofs::UnitLemmas::all_externals))]
fn externals_fit(xs: &[ExtDecl]) -> bool
    ensures { result ≡ told (levelled_externals (map external_of xs.now)) }
{
    let mut all = true;
    for x in xs {
        all = both(all, external_fits(x));
    }
    all
}

/// Whether there is an external declaration.
#[tactic(auto, using(c_tree::proofs::UnitLemmas::some_externals))]
fn has_external(xs: &[ExtDecl]) -> bool
    ensures { result ≡ told (has_some (map external_of xs.now)) }
{
    !xs.is_empty()
}

/// Whether each node of a unit has the parts that its production asks for (C11 6.5 to 6.9): operands of its level,
/// specifiers and declarators that may stand there, lists that are not empty, and else with the nearest if that can
/// take it.
#[tactic(auto, using(c_tree::proofs::ToldLemmas::told_says))]
pub fn well_levelled(u: &Unit) -> bool
    ensures { result ≡ levelled_unit (unit_of u.now) }
{
    both(
        has_external(&u.declarations),
        externals_fit(&u.declarations),
    )
}
