ghost use Rattle.std.specs.Prelude.{◌≡◌, [], ◌∷◌, ◌++◌, IfOk};
ghost use Rattle.std.specs.Option.{option_map};
ghost use Rattle.c_tree.specs.View.{expr_of};
ghost use Rattle.c_tree.specs.UnitView.{declaration_of, start_of, stmt_of, block_item_of, block_of};
ghost use Rattle.c_tree.specs.Units as plain;

use crate::units::DeclarationNode;
use c_tree::{BlockItem, Expr, ForStart, Stmt};
use cil_base::{Memory, NameId};
use std::alloc::Global;
use std::marker::Model;

/// A full expression (C11 6.8p4), one that is part of no other, in its box.
#[derive(Drop)]
pub struct FullExpr {
    tree: Box<Expr>,
}

impl Model for FullExpr {
    ghost use Rattle.std.specs.Coded.{codes};
    ghost use Rattle.c_tree.specs.contracts.expression.Expr as contracts;
    ghost use Rattle.c_tree.specs.declared.expression.Expr.{Expr};

    ghost Value = { Expr };

    ghost coded = { Prim.hlevel (codes, contracts.the_row.coded) };

    ghost view = { λ n. n.tree.value };
}

impl FullExpr {
    /// The expression as part of a statement or declaration.
    pub fn of(tree: Box<Expr>) -> Self
        ensures { result ≡ tree.value }
    {
        FullExpr { tree }
    }

    /// The expression in its box.
    pub(crate) fn into_box(self) -> Box<Expr>
        ensures { result.value ≡ self }
    {
        self.tree
    }

    fn into_expr(self) -> Expr
        ensures { result ≡ self }
    {
        Box::into_inner(self.tree)
    }
}

fn into_optional(e: Option<FullExpr>) -> Option<Expr>
    ensures { result ≡ e }
{
    match e {
        Some(e) => Some(e.into_expr()),
        None => None,
    }
}

/// What stands before the first semicolon of a for statement (C11 6.8.5).
#[derive(Drop)]
pub struct StartNode {
    start: ForStart,
}

impl Model for StartNode {
    ghost use Rattle.std.specs.Coded.{codes};
    ghost use Rattle.c_tree.specs.contracts.statement.ForStart as contracts;
    ghost use Rattle.c_tree.specs.declared.statement.ForStart.{ForStart};

    ghost Value = { ForStart };

    ghost coded = { Prim.hlevel (codes, contracts.the_row.coded) };

    ghost view = { λ n. n.start };
}

impl StartNode {
    /// An expression, or none.
    pub fn expr(e: Option<FullExpr>) -> Self
        ensures { start_of result ≡ plain.StartExpr (option_map expr_of e) }
    {
        StartNode {
            start: ForStart::Expr(into_optional(e)),
        }
    }

    /// A declaration.
    pub fn declaration(d: DeclarationNode) -> Self
        ensures { start_of result ≡ plain.StartDeclaration (declaration_of d) }
    {
        StartNode {
            start: ForStart::Declaration(d.into_tree()),
        }
    }
}

/// A statement (C11 6.8).
#[derive(Drop)]
pub struct StmtNode {
    tree: Stmt,
}

impl Model for StmtNode {
    ghost use Rattle.std.specs.Coded.{codes};
    ghost use Rattle.c_tree.specs.contracts.statement.Stmt as contracts;
    ghost use Rattle.c_tree.specs.declared.statement.Stmt.{Stmt};

    ghost Value = { Stmt };

    ghost coded = { Prim.hlevel (codes, contracts.the_row.coded) };

    ghost view = { λ n. n.tree };
}

/// A statement as part of another one, in its box.
#[derive(Drop)]
pub struct InnerStmt {
    tree: Box<Stmt>,
}

impl Model for InnerStmt {
    ghost use Rattle.std.specs.Coded.{codes};
    ghost use Rattle.c_tree.specs.contracts.statement.Stmt as contracts;
    ghost use Rattle.c_tree.specs.declared.statement.Stmt.{Stmt};

    ghost Value = { Stmt };

    ghost coded = { Prim.hlevel (codes, contracts.the_row.coded) };

    ghost view = { λ n. n.tree.value };
}

impl InnerStmt {
    /// Puts a statement into its box.
    pub fn of(alloc: Global, statement: StmtNode) -> Result<Self, Memory>
        ensures { IfOk result (λ x. x ≡ statement) }
    {
        let tree = Box::new(alloc, statement.tree)?;
        Ok(InnerStmt { tree })
    }
}

impl StmtNode {
    /// `label : s`
    pub fn labelled(at: u32, label: NameId, body: InnerStmt) -> Self
        ensures { stmt_of result ≡ plain.Labelled at label (stmt_of body) }
    {
        StmtNode {
            tree: Stmt::Labelled(at, label, body.tree),
        }
    }

    /// `case e : s`
    pub fn case(at: u32, value: FullExpr, body: InnerStmt) -> Self
        ensures { stmt_of result ≡ plain.Case at (expr_of value) (stmt_of body) }
    {
        StmtNode {
            tree: Stmt::Case(at, value.into_expr(), body.tree),
        }
    }

    /// `default : s`
    pub fn default(at: u32, body: InnerStmt) -> Self
        ensures { stmt_of result ≡ plain.Default at (stmt_of body) }
    {
        StmtNode {
            tree: Stmt::Default(at, body.tree),
        }
    }

    /// `{ items }`
    pub fn compound(at: u32, items: Block) -> Self
        ensures { stmt_of result ≡ plain.Compound at (block_of items) }
    {
        let items = items.into_items();
        StmtNode {
            tree: Stmt::Compound(at, items),
        }
    }

    /// `e ;` and `;`
    pub fn expr(at: u32, e: Option<FullExpr>) -> Self
        ensures { stmt_of result ≡ plain.Expression at (option_map expr_of e) }
    {
        StmtNode {
            tree: Stmt::Expr(at, into_optional(e)),
        }
    }

    /// `if ( e ) s`
    pub fn if_only(at: u32, condition: FullExpr, yes: InnerStmt) -> Self
        ensures { stmt_of result ≡ plain.If at (expr_of condition) (stmt_of yes) }
    {
        StmtNode {
            tree: Stmt::If(at, condition.into_expr(), yes.tree),
        }
    }

    /// `if ( e ) s else s`
    pub fn if_else(at: u32, condition: FullExpr, yes: InnerStmt, no: InnerStmt) -> Self
        ensures { stmt_of result ≡ plain.IfElse at (expr_of condition) (stmt_of yes) (stmt_of no) }
    {
        StmtNode {
            tree: Stmt::IfElse(at, condition.into_expr(), yes.tree, no.tree),
        }
    }

    /// `switch ( e ) s`
    pub fn switch(at: u32, value: FullExpr, body: InnerStmt) -> Self
        ensures { stmt_of result ≡ plain.Switch at (expr_of value) (stmt_of body) }
    {
        StmtNode {
            tree: Stmt::Switch(at, value.into_expr(), body.tree),
        }
    }

    /// `while ( e ) s`
    pub fn while_loop(at: u32, condition: FullExpr, body: InnerStmt) -> Self
        ensures { stmt_of result ≡ plain.While at (expr_of condition) (stmt_of body) }
    {
        StmtNode {
            tree: Stmt::While(at, condition.into_expr(), body.tree),
        }
    }

    /// `do s while ( e ) ;`
    pub fn do_while(at: u32, body: InnerStmt, condition: FullExpr) -> Self
        ensures { stmt_of result ≡ plain.Do at (stmt_of body) (expr_of condition) }
    {
        StmtNode {
            tree: Stmt::Do(at, body.tree, condition.into_expr()),
        }
    }

    /// `for ( start e ; e ) s`
    pub fn for_loop(
        at: u32,
        start: StartNode,
        condition: Option<FullExpr>,
        step: Option<FullExpr>,
        body: InnerStmt,
    ) -> Self
        ensures { stmt_of result ≡ plain.For at (start_of start) (option_map expr_of condition) (option_map expr_of step) (stmt_of body) }
    {
        StmtNode {
            tree: Stmt::For(
                at,
                start.start,
                into_optional(condition),
                into_optional(step),
                body.tree,
            ),
        }
    }

    /// `goto label ;`
    pub fn goto(at: u32, label: NameId) -> Self
        ensures { stmt_of result ≡ plain.Goto at label }
    {
        StmtNode {
            tree: Stmt::Goto(at, label),
        }
    }

    /// `continue ;`
    pub fn continue_at(at: u32) -> Self
        ensures { stmt_of result ≡ plain.Continue at }
    {
        StmtNode {
            tree: Stmt::Continue(at),
        }
    }

    /// `break ;`
    pub fn break_at(at: u32) -> Self
        ensures { stmt_of result ≡ plain.Break at }
    {
        StmtNode {
            tree: Stmt::Break(at),
        }
    }

    /// `return e ;` and `return ;`
    pub fn return_of(at: u32, e: Option<FullExpr>) -> Self
        ensures { stmt_of result ≡ plain.Return at (option_map expr_of e) }
    {
        StmtNode {
            tree: Stmt::Return(at, into_optional(e)),
        }
    }
}

/// A declaration or a statement of a block (C11 6.8.2).
#[derive(Drop)]
pub struct BlockItemNode {
    item: BlockItem,
}

impl Model for BlockItemNode {
    ghost use Rattle.std.specs.Coded.{codes};
    ghost use Rattle.c_tree.specs.contracts.statement.BlockItem as contracts;
    ghost use Rattle.c_tree.specs.declared.statement.BlockItem.{BlockItem};

    ghost Value = { BlockItem };

    ghost coded = { Prim.hlevel (codes, contracts.the_row.coded) };

    ghost view = { λ n. n.item };
}

impl BlockItemNode {
    /// A statement.
    pub fn statement(statement: StmtNode) -> Self
        ensures { block_item_of result ≡ plain.Doing (stmt_of statement) }
    {
        BlockItemNode {
            item: BlockItem::Statement(statement.tree),
        }
    }

    /// A declaration.
    pub fn declaration(declaration: DeclarationNode) -> Self
        ensures { block_item_of result ≡ plain.Declaring (declaration_of declaration) }
    {
        BlockItemNode {
            item: BlockItem::Declaration(declaration.into_tree()),
        }
    }
}

/// The items of a block (C11 6.8.2).
#[derive(Drop)]
pub struct Block {
    items: Vec<BlockItem>,
}

impl Model for Block {
    ghost use Rattle.std.specs.Prelude.{List};
    ghost use Rattle.std.specs.Coded.{codes};
    ghost use Rattle.c_tree.specs.contracts.statement.BlockItem as contracts;
    ghost use Rattle.c_tree.specs.declared.statement.BlockItem.{BlockItem};

    ghost Value = { List BlockItem };

    ghost coded = { Prim.hlevel (codes, contracts.the_row.coded) };

    ghost view = { λ n. n.items.items };
}

impl Block {
    /// No item.
    pub fn new(alloc: Global) -> Self
        ensures { result ≡ [] }
    {
        Block {
            items: Vec::new(alloc),
        }
    }

    /// Puts an item behind the others.
    pub fn push(&mut self, item: BlockItemNode) -> Result<(), Memory>
        ensures { IfOk result (λ _. self.new ≡ self.old ++ item ∷ []) }
    {
        self.items.push(item.item)?;
        Ok(())
    }

    /// The items.
    pub(crate) fn into_items(self) -> Vec<BlockItem>
        ensures { result.items ≡ self }
    {
        self.items
    }
}
