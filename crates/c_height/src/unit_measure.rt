ghost use Rattle.std.specs.Prelude.{◌≡◌, ◌<◌, ◌^◌, map};
ghost use Rattle.std.specs.Option.{option_map};
ghost use Rattle.c_tree.specs.View.{expr_of, init_of};
ghost use Rattle.c_tree.specs.UnitView.{init_declarator_of, declaration_of, start_of, stmt_of, block_item_of, block_of, external_of};
ghost use Rattle.c_tree.specs.Height.{maybe_height, maybe_init_height, init_declarator_height, init_declarators_height, declaration_height, declarations_height, start_height, stmt_height, item_of_block_height, block_height, external_height};
ghost use Rattle.c_tree.specs.Capped.{capped};

use crate::measure::{
    above, height_of_declarator, height_of_expr, height_of_init, height_of_specifiers, higher,
};
use c_tree::{
    BlockItem, Declaration, Expr, ExtDecl, ForStart, FunctionDefinition, Init, InitDeclarator, Stmt,
};

/// The height of an expression that may be absent.
#[tactic(auto, using(c_tree::proofs::CappedLemmas::capped_zero))]
fn height_of_maybe(x: &Option<Expr>) -> u32
    ensures { result ≡ capped (maybe_height (option_map expr_of x.now)) }
{
    match x {
        None => 0,
        Some(e) => height_of_expr(e),
    }
}

/// The height of an initialiser that may be absent.
#[tactic(auto, using(c_tree::proofs::CappedLemmas::capped_zero))]
fn height_of_maybe_init(x: &Option<Init>) -> u32
    ensures { result ≡ capped (maybe_init_height (option_map init_of x.now)) }
{
    match x {
        None => 0,
        Some(i) => height_of_init(i),
    }
}

/// The height of a declarator with its initialiser.
fn height_of_init_declarator(x: &InitDeclarator) -> u32
    ensures { result ≡ capped (init_declarator_height (init_declarator_of x.now)) }
{
    higher(
        height_of_declarator(&x.declarator),
        height_of_maybe_init(&x.init),
    )
}

/// The greatest height of some.
#[tactic(auto, using(c_tree::proofs::CappedLemmas::highest_start, c_tree::proofs::CappedLemmas::highest_step, c_tree::proofs::CappedLemmas::highest_end, c_tree::proofs::UnitLemmas::most_init_declarators))]
fn height_of_init_declarators(xs: &[InitDeclarator]) -> u32
    ensures { result ≡ capped (init_declarators_height (map init_declarator_of xs.now)) }
{
    let mut most = 0;
    for x in xs {
        most = higher(most, height_of_init_declarator(x));
    }
    most
}

/// The height of a declaration.
#[tactic(auto, using(c_tree::proofs::CappedLemmas::capped_one))]
fn height_of_declaration(x: &Declaration) -> u32
    ensures { result ≡ capped (declaration_height (declaration_of x.now)) }
{
    match x {
        Declaration::Declares(_, ss, ds) => above(higher(
            height_of_specifiers(ss),
            height_of_init_declarators(ds),
        )),
        Declaration::StaticAssert(a) => above(higher(height_of_expr(&a.condition), 1)),
    }
}

/// The greatest height of some.
#[tactic(auto, using(c_tree::proofs::CappedLemmas::highest_start, c_tree::proofs::CappedLemmas::highest_step, c_tree::proofs::CappedLemmas::highest_end, c_tree::proofs::UnitLemmas::most_declarations))]
fn height_of_declarations(xs: &[Declaration]) -> u32
    ensures { result ≡ capped (declarations_height (map declaration_of xs.now)) }
{
    let mut most = 0;
    for x in xs {
        most = higher(most, height_of_declaration(x));
    }
    most
}

/// The height of the first part of a for statement.
fn height_of_start(x: &ForStart) -> u32
    ensures { result ≡ capped (start_height (start_of x.now)) }
{
    match x {
        ForStart::Expr(e) => height_of_maybe(e),
        ForStart::Declaration(d) => height_of_declaration(d),
    }
}

/// The height of a statement.
#[cycle(block)]
#[tactic(auto, using(c_tree::proofs::UnitLemmas::at_compound, c_tree::proofs::CappedLemmas::capped_one, c_tree::proofs::CappedLemmas::capped_two))]
fn height_of_stmt(x: &Stmt) -> u32
    ensures { result ≡ capped (stmt_height (stmt_of x.now)) }
{
    match x {
        Stmt::Labelled(_, _, s) => above(height_of_stmt(s)),
        Stmt::Case(_, e, s) => above(higher(height_of_expr(e), height_of_stmt(s))),
        Stmt::Default(_, s) => above(height_of_stmt(s)),
        Stmt::Compound(_, items) => above(height_of_block(items)),
        Stmt::Expr(_, e) => above(height_of_maybe(e)),
        Stmt::If(_, e, s) => above(higher(height_of_expr(e), height_of_stmt(s))),
        Stmt::IfElse(_, e, s, u) => above(higher(
            higher(height_of_expr(e), height_of_stmt(s)),
            height_of_stmt(u),
        )),
        Stmt::Switch(_, e, s) => above(higher(height_of_expr(e), height_of_stmt(s))),
        Stmt::While(_, e, s) => above(higher(height_of_expr(e), height_of_stmt(s))),
        Stmt::Do(_, s, e) => above(higher(height_of_stmt(s), height_of_expr(e))),
        Stmt::For(_, start, c, step, s) => above(higher(
            higher(
                height_of_start(start),
                higher(height_of_maybe(c), height_of_maybe(step)),
            ),
            height_of_stmt(s),
        )),
        Stmt::Goto(..) => 2,
        Stmt::Continue(..) => 1,
        Stmt::Break(..) => 1,
        Stmt::Return(_, e) => above(height_of_maybe(e)),
    }
}

/// The height of an item of a block.
#[cycle(block)]
fn height_of_block_item(x: &BlockItem) -> u32
    ensures { result ≡ capped (item_of_block_height (block_item_of x.now)) }
{
    match x {
        BlockItem::Declaration(d) => height_of_declaration(d),
        BlockItem::Statement(s) => height_of_stmt(s),
    }
}

/// The greatest height of a block's items.
#[cycle(block)]
#[tactic(auto, using(c_tree::proofs::CappedLemmas::highest_start, c_tree::proofs::CappedLemmas::highest_step, c_tree::proofs::CappedLemmas::highest_end, c_tree::proofs::UnitLemmas::most_block))]
fn height_of_block(xs: &[BlockItem]) -> u32
    ensures { result ≡ capped (block_height (block_of xs.now)) }
{
    let mut most = 0;
    for x in xs {
        most = higher(most, height_of_block_item(x));
    }
    most
}

/// The height of a function definition.
fn height_of_definition(x: &FunctionDefinition) -> u32
    ensures { result ≡ capped (external_height (external_of (ExtDecl.Definition x.now))) }
{
    let head = higher(
        height_of_specifiers(&x.specifiers),
        height_of_declarator(&x.declarator),
    );
    above(higher(
        higher(head, height_of_declarations(&x.declarations)),
        above(height_of_block(&x.body)),
    ))
}

/// The height of an external declaration, up to the greatest number.
pub fn height_of_external(x: &ExtDecl) -> u32
    ensures { result ≡ capped (external_height (external_of x.now)) }
{
    match x {
        ExtDecl::Definition(d) => height_of_definition(d),
        ExtDecl::Declaration(d) => height_of_declaration(d),
    }
}

/// The height of an external declaration: its nesting depth. An identifier, be it a typedef name or a tag, an absent
/// identifier, a constant and adjacent literals have 1, a keyword none, and any other expression, statement, declaration,
/// derivation of a declarator, specifier with a body and initialiser in braces one more than its highest part (own).
#[tactic(auto, using(c_tree::proofs::CappedLemmas::capped_is))]
pub fn height(d: &ExtDecl) -> u32
    requires { external_height (external_of d.now) < 2 ^ 32 }
    ensures { result ≡ external_height (external_of d.now) }
{
    height_of_external(d)
}
