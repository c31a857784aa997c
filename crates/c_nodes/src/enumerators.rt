ghost use Rattle.std.specs.Prelude.{◌≡◌, [], ◌∷◌, ◌++◌, IfOk};
ghost use Rattle.c_tree.specs.Syntax as plain;
ghost use Rattle.c_tree.specs.View.{expr_of, enumerator_of, enumerators_of};
ghost use Rattle.c_tree.specs.Height.{enumerators_height};

use crate::expressions::ExprNode;
use c_tree::Enumerator;
use cil_base::{Memory, NameId};
use std::alloc::Global;
use std::marker::Model;

/// An enumerator, with its height.
#[derive(Drop)]
pub struct EnumeratorNode {
    tree: Enumerator,
    height: u32,
}

impl Model for EnumeratorNode {
    ghost use Rattle.std.specs.Prelude.{◌≡◌};
    ghost use Rattle.std.specs.Coded.{codes};
    ghost use Rattle.c_tree.specs.contracts.expression.Enumerator as contracts;
    ghost use Rattle.c_tree.specs.declared.expression.Enumerator.{Enumerator};
    ghost use Rattle.c_tree.specs.View.{enumerator_of};
    ghost use Rattle.c_tree.specs.Height.{enumerator_height};

    ghost Value = { Enumerator };

    ghost coded = { Prim.hlevel (codes, contracts.the_row.coded) };

    ghost view = { λ n. n.tree };

    ghost invariant = { λ n. n.height ≡ enumerator_height (enumerator_of n.tree) };
}

/// An enumerator without a value.
pub fn enumerator_of(at: u32, name: NameId) -> EnumeratorNode
    ensures { enumerator_of result ≡ plain.Enumerates at name plain.NoExpr }
{
    EnumeratorNode {
        tree: Enumerator {
            at,
            name,
            value: None,
        },
        height: 1,
    }
}

/// An enumerator with its value.
pub fn enumerates_of(at: u32, name: NameId, e: ExprNode) -> EnumeratorNode
    ensures { enumerator_of result ≡ plain.Enumerates at name (plain.SomeExpr (expr_of e)) }
{
    let height = e.height;
    EnumeratorNode {
        tree: Enumerator {
            at,
            name,
            value: Some(e.tree),
        },
        height,
    }
}

/// Enumerators, and the height of the highest.
#[derive(Drop)]
pub struct EnumeratorList {
    pub(crate) list: Vec<Enumerator>,
    pub(crate) height: u32,
}

impl Model for EnumeratorList {
    ghost use Rattle.std.specs.Prelude.{◌≡◌, List};
    ghost use Rattle.std.specs.Coded.{codes};
    ghost use Rattle.c_tree.specs.contracts.expression.Enumerator as contracts;
    ghost use Rattle.c_tree.specs.declared.expression.Enumerator.{Enumerator};
    ghost use Rattle.c_tree.specs.View.{enumerators_of};
    ghost use Rattle.c_tree.specs.Height.{enumerators_height};

    ghost Value = { List Enumerator };

    ghost coded = { Prim.hlevel (codes, contracts.the_row.coded) };

    ghost view = { λ l. l.list.items };

    ghost invariant = { λ l. l.height ≡ enumerators_height (enumerators_of l.list.items) };
}

impl EnumeratorList {
    /// None.
    pub fn new(alloc: Global) -> Self
        ensures { result ≡ [] }
    {
        EnumeratorList {
            list: Vec::new(alloc),
            height: 0,
        }
    }

    /// One more, behind the others.
    #[tactic(auto, using(crate::proofs::Lists::tall_enumerators))]
    pub fn push(&mut self, e: EnumeratorNode) -> Result<(), Memory>
        ensures { IfOk result (λ _. self.new ≡ self.old ++ e ∷ []) }
    {
        let height = self.height.max(e.height);
        self.list.push(e.tree)?;
        self.height = height;
        Ok(())
    }
}
