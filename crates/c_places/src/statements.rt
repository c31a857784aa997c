ghost use Rattle.std.specs.Prelude.{◌≡◌};
ghost use Rattle.c_tree.specs.UnitView.{block_item_of, declaration_of, external_of, stmt_of};
ghost use Rattle.c_tree.specs.Places.{first_block_item, first_declaration, first_external, first_stmt};

use c_tree::{BlockItem, Declaration, ExtDecl, Stmt};

/// The number of the first token of a declaration.
pub fn declaration_at(d: &Declaration) -> u32
    ensures { result ≡ first_declaration (declaration_of d.now) }
{
    match d {
        Declaration::Declares(at, ..) => *at,
        Declaration::StaticAssert(a) => a.at,
    }
}

/// The number of the first token of a statement.
pub fn statement_at(s: &Stmt) -> u32
    ensures { result ≡ first_stmt (stmt_of s.now) }
{
    match s {
        Stmt::Labelled(at, ..)
        | Stmt::Case(at, ..)
        | Stmt::Default(at, _)
        | Stmt::Compound(at, _)
        | Stmt::Expr(at, _)
        | Stmt::If(at, ..)
        | Stmt::IfElse(at, ..)
        | Stmt::Switch(at, ..)
        | Stmt::While(at, ..)
        | Stmt::Do(at, ..)
        | Stmt::For(at, ..)
        | Stmt::Goto(at, _)
        | Stmt::Continue(at)
        | Stmt::Break(at)
        | Stmt::Return(at, _) => *at,
    }
}

/// The number of the first token of an item of a block.
pub fn block_item_at(i: &BlockItem) -> u32
    ensures { result ≡ first_block_item (block_item_of i.now) }
{
    match i {
        BlockItem::Declaration(d) => declaration_at(d),
        BlockItem::Statement(s) => statement_at(s),
    }
}

/// The number of the first token of an external declaration.
pub fn external_at(d: &ExtDecl) -> u32
    ensures { result ≡ first_external (external_of d.now) }
{
    match d {
        ExtDecl::Definition(f) => f.at,
        ExtDecl::Declaration(d) => declaration_at(d),
    }
}
