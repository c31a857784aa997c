ghost use Rattle.std.specs.Prelude.{◌≡◌, [], ◌∷◌, ◌++◌, IfOk};
ghost use Rattle.c_tree.specs.Syntax as plain;
ghost use Rattle.c_tree.specs.View.{expr_of, exprs_of};
ghost use Rattle.c_tree.specs.Height.{exprs_height};

use crate::expressions::ExprNode;
use crate::heights::above;
use c_tree::Expr;
use cil_base::Memory;
use std::alloc::Global;
use std::marker::Model;

/// Expressions, and the height of the highest.
#[derive(Drop)]
pub struct ExprList {
    list: Vec<Expr>,
    height: u32,
}

impl Model for ExprList {
    ghost use Rattle.std.specs.Prelude.{◌≡◌, List};
    ghost use Rattle.std.specs.Coded.{codes};
    ghost use Rattle.c_tree.specs.contracts.expression.Expr as contracts;
    ghost use Rattle.c_tree.specs.declared.expression.Expr.{Expr};
    ghost use Rattle.c_tree.specs.View.{exprs_of};
    ghost use Rattle.c_tree.specs.Height.{exprs_height};

    ghost Value = { List Expr };

    ghost coded = { Prim.hlevel (codes, contracts.the_row.coded) };

    ghost view = { λ l. l.list.items };

    ghost invariant = { λ l. l.height ≡ exprs_height (exprs_of l.list.items) };
}

impl ExprList {
    /// None.
    pub fn new(alloc: Global) -> Self
        ensures { result ≡ [] }
    {
        ExprList {
            list: Vec::new(alloc),
            height: 0,
        }
    }

    /// One more, behind the others.
    #[tactic(auto, using(crate::proofs::Lists::tall_exprs))]
    pub fn push(&mut self, e: ExprNode) -> Result<(), Memory>
        ensures { IfOk result (λ _. self.new ≡ self.old ++ e ∷ []) }
    {
        let height = self.height.max(e.height);
        self.list.push(Box::into_inner(e.tree))?;
        self.height = height;
        Ok(())
    }
}

/// `e ( es )`
#[tactic(auto, using(c_tree::proofs::Views::held_exprs))]
pub fn call_of(alloc: Global, at: u32, e: ExprNode, es: ExprList) -> Result<ExprNode, Memory>
    ensures { IfOk result (λ x. expr_of x ≡ plain.Call at (expr_of e) (exprs_of es)) }
{
    let height = above(e.height.max(es.height))?;
    ExprNode::boxed(alloc, Expr::Call(at, e.tree, es.list), height)
}
