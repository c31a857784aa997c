ghost use Rattle.std.specs.Prelude.{◌≡◌, IfOk};
ghost use Rattle.c_tree.specs.Syntax as plain;
ghost use Rattle.c_tree.specs.View.{expr_of};
ghost use Rattle.c_tree.specs.Height.{expr_height};

use crate::heights::above;
use c_tree::{Expr, LogicalOp, StepOp, UnaryOp};
use cil_base::{BinOp, Bytes, Memory, NameId};
use std::alloc::Global;
use std::marker::Model;

/// An expression in its box, with its height.
#[derive(Drop)]
pub struct ExprNode {
    pub(crate) tree: Box<Expr>,
    pub(crate) height: u32,
}

impl Model for ExprNode {
    ghost use Rattle.std.specs.Prelude.{◌≡◌};
    ghost use Rattle.std.specs.Coded.{codes};
    ghost use Rattle.c_tree.specs.contracts.expression.Expr as contracts;
    ghost use Rattle.c_tree.specs.declared.expression.Expr.{Expr};
    ghost use Rattle.c_tree.specs.View.{expr_of};
    ghost use Rattle.c_tree.specs.Height.{expr_height};

    ghost Value = { Expr };

    ghost coded = { Prim.hlevel (codes, contracts.the_row.coded) };

    ghost view = { λ n. n.tree.value };

    ghost invariant = { λ n. n.height ≡ expr_height (expr_of n.tree.value) };
}

impl ExprNode {
    /// Puts an expression of that height into its box.
    pub(crate) fn boxed(alloc: Global, tree: Expr, height: u32) -> Result<Self, Memory>
        requires { height ≡ expr_height (expr_of tree) }
        ensures { IfOk result (λ x. x ≡ tree) }
    {
        let tree = Box::new(alloc, tree)?;
        Ok(ExprNode { tree, height })
    }

    /// The height of the expression.
    pub fn height(&self) -> u32
        ensures { result ≡ expr_height (expr_of self.now) }
    {
        self.height
    }

    /// The expression.
    pub fn tree(&self) -> &Expr
        ensures { result.now ≡ self.now }
    {
        &self.tree
    }

    /// The expression, without its height.
    pub fn into_tree(self) -> Box<Expr>
        ensures { result.value ≡ self }
    {
        self.tree
    }
}

/// An identifier.
pub fn identifier_of(alloc: Global, at: u32, n: NameId) -> Result<ExprNode, Memory>
    ensures { IfOk result (λ x. expr_of x ≡ plain.Name at n) }
{
    ExprNode::boxed(alloc, Expr::Name(at, n), 1)
}

/// An integer constant, as it is written.
pub fn integer_of(alloc: Global, at: u32, text: Bytes) -> Result<ExprNode, Memory>
    ensures { IfOk result (λ x. expr_of x ≡ plain.Integer at text) }
{
    ExprNode::boxed(alloc, Expr::Integer(at, text), 1)
}

/// A character constant, as it is written.
pub fn character_of(alloc: Global, at: u32, text: Bytes) -> Result<ExprNode, Memory>
    ensures { IfOk result (λ x. expr_of x ≡ plain.Character at text) }
{
    ExprNode::boxed(alloc, Expr::Character(at, text), 1)
}

/// String literals that stand one behind the other, as they are written.
pub fn literals_of(alloc: Global, at: u32, texts: Vec<Bytes>) -> Result<ExprNode, Memory>
    ensures { IfOk result (λ x. expr_of x ≡ plain.Literals at texts.items) }
{
    ExprNode::boxed(alloc, Expr::Literals(at, texts), 1)
}

/// `( e )`
pub fn parentheses_of(alloc: Global, at: u32, e: ExprNode) -> Result<ExprNode, Memory>
    ensures { IfOk result (λ x. expr_of x ≡ plain.Parentheses at (expr_of e)) }
{
    let height = above(e.height)?;
    ExprNode::boxed(alloc, Expr::Parentheses(at, e.tree), height)
}

/// `e [ i ]`
pub fn index_of(alloc: Global, at: u32, e: ExprNode, i: ExprNode) -> Result<ExprNode, Memory>
    ensures { IfOk result (λ x. expr_of x ≡ plain.Index at (expr_of e) (expr_of i)) }
{
    let height = above(e.height.max(i.height))?;
    ExprNode::boxed(alloc, Expr::Index(at, e.tree, i.tree), height)
}

/// `e . name`
pub fn member_of(alloc: Global, at: u32, e: ExprNode, n: NameId) -> Result<ExprNode, Memory>
    ensures { IfOk result (λ x. expr_of x ≡ plain.Member at (expr_of e) n) }
{
    let height = above(e.height)?;
    ExprNode::boxed(alloc, Expr::Member(at, e.tree, n), height)
}

/// `e -> name`
pub fn arrow_of(alloc: Global, at: u32, e: ExprNode, n: NameId) -> Result<ExprNode, Memory>
    ensures { IfOk result (λ x. expr_of x ≡ plain.Arrow at (expr_of e) n) }
{
    let height = above(e.height)?;
    ExprNode::boxed(alloc, Expr::Arrow(at, e.tree, n), height)
}

/// `e ++` and `e --`
pub fn postfix_of(alloc: Global, at: u32, e: ExprNode, op: StepOp) -> Result<ExprNode, Memory>
    ensures { IfOk result (λ x. expr_of x ≡ plain.Postfix at (expr_of e) op) }
{
    let height = above(e.height)?;
    ExprNode::boxed(alloc, Expr::Postfix(at, e.tree, op), height)
}

/// `++ e` and `-- e`
pub fn prefix_of(alloc: Global, at: u32, op: StepOp, e: ExprNode) -> Result<ExprNode, Memory>
    ensures { IfOk result (λ x. expr_of x ≡ plain.Prefix at op (expr_of e)) }
{
    let height = above(e.height)?;
    ExprNode::boxed(alloc, Expr::Prefix(at, op, e.tree), height)
}

/// A unary operator before its operand.
pub fn unary_of(alloc: Global, at: u32, op: UnaryOp, e: ExprNode) -> Result<ExprNode, Memory>
    ensures { IfOk result (λ x. expr_of x ≡ plain.Unary at op (expr_of e)) }
{
    let height = above(e.height)?;
    ExprNode::boxed(alloc, Expr::Unary(at, op, e.tree), height)
}

/// `sizeof e`
pub fn sizeof_of(alloc: Global, at: u32, e: ExprNode) -> Result<ExprNode, Memory>
    ensures { IfOk result (λ x. expr_of x ≡ plain.SizeofExpr at (expr_of e)) }
{
    let height = above(e.height)?;
    ExprNode::boxed(alloc, Expr::SizeofExpr(at, e.tree), height)
}

/// `c ? a : b`
pub fn conditional_of(
    alloc: Global,
    at: u32,
    c: ExprNode,
    a: ExprNode,
    b: ExprNode,
) -> Result<ExprNode, Memory>
    ensures { IfOk result (λ x. expr_of x ≡ plain.Conditional at (expr_of c) (expr_of a) (expr_of b)) }
{
    let height = above(c.height.max(a.height).max(b.height))?;
    ExprNode::boxed(alloc, Expr::Conditional(at, c.tree, a.tree, b.tree), height)
}

/// A binary operator of 6.5.5 to 6.5.12 between its operands.
pub fn binary_of(
    alloc: Global,
    at: u32,
    op: BinOp,
    l: ExprNode,
    r: ExprNode,
) -> Result<ExprNode, Memory>
    ensures { IfOk result (λ x. expr_of x ≡ plain.Binary at op (expr_of l) (expr_of r)) }
{
    let height = above(l.height.max(r.height))?;
    ExprNode::boxed(alloc, Expr::Binary(at, op, l.tree, r.tree), height)
}

/// `l && r` and `l || r`
pub fn logical_of(
    alloc: Global,
    at: u32,
    op: LogicalOp,
    l: ExprNode,
    r: ExprNode,
) -> Result<ExprNode, Memory>
    ensures { IfOk result (λ x. expr_of x ≡ plain.Logical at op (expr_of l) (expr_of r)) }
{
    let height = above(l.height.max(r.height))?;
    ExprNode::boxed(alloc, Expr::Logical(at, op, l.tree, r.tree), height)
}

/// `l = r`, and with an operator a compound assignment.
pub fn assign_of(
    alloc: Global,
    at: u32,
    op: Option<BinOp>,
    l: ExprNode,
    r: ExprNode,
) -> Result<ExprNode, Memory>
    ensures { IfOk result (λ x. expr_of x ≡ plain.Assign at op (expr_of l) (expr_of r)) }
{
    let height = above(l.height.max(r.height))?;
    ExprNode::boxed(alloc, Expr::Assign(at, op, l.tree, r.tree), height)
}

/// `l , r`
pub fn comma_of(alloc: Global, at: u32, l: ExprNode, r: ExprNode) -> Result<ExprNode, Memory>
    ensures { IfOk result (λ x. expr_of x ≡ plain.Comma at (expr_of l) (expr_of r)) }
{
    let height = above(l.height.max(r.height))?;
    ExprNode::boxed(alloc, Expr::Comma(at, l.tree, r.tree), height)
}
