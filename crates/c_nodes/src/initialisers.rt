ghost use Rattle.std.specs.Prelude.{◌≡◌, [], ◌∷◌, ◌++◌, IfOk};
ghost use Rattle.c_tree.specs.Syntax as plain;
ghost use Rattle.c_tree.specs.View.{expr_of, designator_of, designators_of, init_of, item_of, items_of};
ghost use Rattle.c_tree.specs.Height.{designators_height, items_height};

use crate::expressions::ExprNode;
use crate::heights::above;
use c_tree::{Designator, Init, InitItem};
use cil_base::{Memory, NameId};
use std::alloc::Global;
use std::marker::Model;

/// A designator, with its height.
#[derive(Drop)]
pub struct DesignatorNode {
    tree: Designator,
    height: u32,
}

impl Model for DesignatorNode {
    ghost use Rattle.std.specs.Prelude.{◌≡◌};
    ghost use Rattle.std.specs.Coded.{codes};
    ghost use Rattle.c_tree.specs.contracts.expression.Designator as contracts;
    ghost use Rattle.c_tree.specs.declared.expression.Designator.{Designator};
    ghost use Rattle.c_tree.specs.View.{designator_of};
    ghost use Rattle.c_tree.specs.Height.{designator_height};

    ghost Value = { Designator };

    ghost coded = { Prim.hlevel (codes, contracts.the_row.coded) };

    ghost view = { λ n. n.tree };

    ghost invariant = { λ n. n.height ≡ designator_height (designator_of n.tree) };
}

/// `[ e ]` as a designator.
pub fn at_index_of(at: u32, e: ExprNode) -> DesignatorNode
    ensures { designator_of result ≡ plain.AtIndex at (expr_of e) }
{
    let height = e.height;
    DesignatorNode {
        tree: Designator::Index(at, e.tree),
        height,
    }
}

/// `. name` as a designator.
pub fn at_member_of(at: u32, n: NameId) -> DesignatorNode
    ensures { designator_of result ≡ plain.AtMember at n }
{
    DesignatorNode {
        tree: Designator::Member(at, n),
        height: 1,
    }
}

/// Designators, and the height of the highest.
#[derive(Drop)]
pub struct DesignatorList {
    list: Vec<Designator>,
    height: u32,
}

impl Model for DesignatorList {
    ghost use Rattle.std.specs.Prelude.{◌≡◌, List};
    ghost use Rattle.std.specs.Coded.{codes};
    ghost use Rattle.c_tree.specs.contracts.expression.Designator as contracts;
    ghost use Rattle.c_tree.specs.declared.expression.Designator.{Designator};
    ghost use Rattle.c_tree.specs.View.{designators_of};
    ghost use Rattle.c_tree.specs.Height.{designators_height};

    ghost Value = { List Designator };

    ghost coded = { Prim.hlevel (codes, contracts.the_row.coded) };

    ghost view = { λ l. l.list.items };

    ghost invariant = { λ l. l.height ≡ designators_height (designators_of l.list.items) };
}

impl DesignatorList {
    /// None.
    pub fn new(alloc: Global) -> Self
        ensures { result ≡ [] }
    {
        DesignatorList {
            list: Vec::new(alloc),
            height: 0,
        }
    }

    /// One more, behind the others.
    #[tactic(auto, using(crate::proofs::Lists::tall_designators))]
    pub fn push(&mut self, d: DesignatorNode) -> Result<(), Memory>
        ensures { IfOk result (λ _. self.new ≡ self.old ++ d ∷ []) }
    {
        let height = self.height.max(d.height);
        self.list.push(d.tree)?;
        self.height = height;
        Ok(())
    }
}

/// An initialiser, with its height.
#[derive(Drop)]
pub struct InitNode {
    tree: Init,
    height: u32,
}

impl Model for InitNode {
    ghost use Rattle.std.specs.Prelude.{◌≡◌};
    ghost use Rattle.std.specs.Coded.{codes};
    ghost use Rattle.c_tree.specs.contracts.expression.Init as contracts;
    ghost use Rattle.c_tree.specs.declared.expression.Init.{Init};
    ghost use Rattle.c_tree.specs.View.{init_of};
    ghost use Rattle.c_tree.specs.Height.{init_height};

    ghost Value = { Init };

    ghost coded = { Prim.hlevel (codes, contracts.the_row.coded) };

    ghost view = { λ n. n.tree };

    ghost invariant = { λ n. n.height ≡ init_height (init_of n.tree) };
}

impl InitNode {
    /// The initialiser, without its height.
    pub fn into_tree(self) -> Init
        ensures { result ≡ self }
    {
        self.tree
    }
}

/// An expression as an initialiser.
pub fn single_of(e: ExprNode) -> InitNode
    ensures { init_of result ≡ plain.Single (expr_of e) }
{
    let height = e.height;
    InitNode {
        tree: Init::Expr(e.tree),
        height,
    }
}

/// `{ items }`, and whether a comma stands behind the last.
#[tactic(auto, using(c_tree::proofs::Views::held_items))]
pub fn braces_of(at: u32, items: ItemList, comma: bool) -> Result<InitNode, Memory>
    ensures { IfOk result (λ x. init_of x ≡ plain.Braces at (items_of items) comma) }
{
    let height = above(items.height)?;
    Ok(InitNode {
        tree: Init::Braces(at, items.list, comma),
        height,
    })
}

/// An initialiser in a brace list with its designators, and its height.
#[derive(Drop)]
pub struct ItemNode {
    tree: InitItem,
    height: u32,
}

impl Model for ItemNode {
    ghost use Rattle.std.specs.Prelude.{◌≡◌};
    ghost use Rattle.std.specs.Coded.{codes};
    ghost use Rattle.c_tree.specs.contracts.expression.InitItem as contracts;
    ghost use Rattle.c_tree.specs.declared.expression.InitItem.{InitItem};
    ghost use Rattle.c_tree.specs.View.{item_of};
    ghost use Rattle.c_tree.specs.Height.{item_height};

    ghost Value = { InitItem };

    ghost coded = { Prim.hlevel (codes, contracts.the_row.coded) };

    ghost view = { λ n. n.tree };

    ghost invariant = { λ n. n.height ≡ item_height (item_of n.tree) };
}

/// An initialiser with its designators, if any, as an item.
pub fn item_of(designators: DesignatorList, init: InitNode) -> ItemNode
    ensures { item_of result ≡ plain.Item (designators_of designators) (init_of init) }
{
    let height = designators.height.max(init.height);
    ItemNode {
        tree: InitItem {
            designators: designators.list,
            init: init.tree,
        },
        height,
    }
}

/// The items of an initialiser in braces, and the height of the highest.
#[derive(Drop)]
pub struct ItemList {
    pub(crate) list: Vec<InitItem>,
    pub(crate) height: u32,
}

impl Model for ItemList {
    ghost use Rattle.std.specs.Prelude.{◌≡◌, List};
    ghost use Rattle.std.specs.Coded.{codes};
    ghost use Rattle.c_tree.specs.contracts.expression.InitItem as contracts;
    ghost use Rattle.c_tree.specs.declared.expression.InitItem.{InitItem};
    ghost use Rattle.c_tree.specs.View.{items_of};
    ghost use Rattle.c_tree.specs.Height.{items_height};

    ghost Value = { List InitItem };

    ghost coded = { Prim.hlevel (codes, contracts.the_row.coded) };

    ghost view = { λ l. l.list.items };

    ghost invariant = { λ l. l.height ≡ items_height (items_of l.list.items) };
}

impl ItemList {
    /// None.
    pub fn new(alloc: Global) -> Self
        ensures { result ≡ [] }
    {
        ItemList {
            list: Vec::new(alloc),
            height: 0,
        }
    }

    /// One more, behind the others.
    #[tactic(auto, using(crate::proofs::Lists::tall_items))]
    pub fn push(&mut self, i: ItemNode) -> Result<(), Memory>
        ensures { IfOk result (λ _. self.new ≡ self.old ++ i ∷ []) }
    {
        let height = self.height.max(i.height);
        self.list.push(i.tree)?;
        self.height = height;
        Ok(())
    }
}
