ghost use Rattle.std.specs.Prelude.{◌≡◌, max, IfOk};
ghost use Rattle.c_tree.specs.Syntax as plain;
ghost use Rattle.c_tree.specs.View.{expr_of, specifiers_of, declarator_of, items_of};
ghost use Rattle.c_tree.specs.Height.{specifiers_height, declarator_height};

use crate::declarators::DeclaratorNode;
use crate::expressions::ExprNode;
use crate::heights::above;
use crate::initialisers::ItemList;
use crate::specifiers::SpecifierList;
use c_tree::{Expr, TypeName};
use cil_base::Memory;
use std::alloc::Global;
use std::marker::Model;

/// A type name in its box, with its height.
#[derive(Drop)]
pub struct TypeNameNode {
    tree: Box<TypeName>,
    height: u32,
}

impl Model for TypeNameNode {
    ghost use Rattle.std.specs.Prelude.{◌≡◌, max};
    ghost use Rattle.std.specs.Coded.{codes};
    ghost use Rattle.c_tree.specs.contracts.expression.TypeName as contracts;
    ghost use Rattle.c_tree.specs.declared.expression.TypeName.{TypeName};
    ghost use Rattle.c_tree.specs.View.{specifiers_of, declarator_of};
    ghost use Rattle.c_tree.specs.Height.{specifiers_height, declarator_height};

    ghost Value = { TypeName };

    ghost coded = { Prim.hlevel (codes, contracts.the_row.coded) };

    ghost view = { λ n. n.tree.value };

    ghost invariant = { λ n. n.height ≡ max (specifiers_height (specifiers_of n.tree.value.specifiers.items)) (declarator_height (declarator_of n.tree.value.declarator)) };
}

impl TypeNameNode {
    /// The height of the type name.
    pub fn height(&self) -> u32
        ensures { result ≡ max (specifiers_height (specifiers_of self.now.specifiers.items)) (declarator_height (declarator_of self.now.declarator)) }
    {
        self.height
    }

    /// The type name, without its height.
    pub fn into_tree(self) -> Box<TypeName>
        ensures { result.value ≡ self }
    {
        self.tree
    }
}

/// Specifiers and qualifiers, and an abstract declarator.
pub fn type_name_of(
    alloc: Global,
    specifiers: SpecifierList,
    d: DeclaratorNode,
) -> Result<TypeNameNode, Memory>
    ensures { IfOk result (λ x. ◌≡◌ {A = plain.SpecifierTrees × plain.DeclaratorTree} (specifiers_of x.specifiers.items, declarator_of x.declarator) (specifiers_of specifiers, declarator_of d)) }
{
    let height = specifiers.height.max(d.height);
    let tree = TypeName {
        specifiers: specifiers.list,
        declarator: Box::into_inner(d.tree),
    };
    Ok(TypeNameNode {
        tree: Box::new(alloc, tree)?,
        height,
    })
}

/// `( type-name ) { items }`, and whether a comma stands behind the last item.
#[tactic(auto, using(c_tree::proofs::Views::held_specifiers, c_tree::proofs::Views::held_items))]
pub fn compound_of(
    alloc: Global,
    at: u32,
    t: TypeNameNode,
    items: ItemList,
    comma: bool,
) -> Result<ExprNode, Memory>
    ensures { IfOk result (λ x. expr_of x ≡ plain.CompoundLiteral at (plain.TypeName (specifiers_of t.specifiers.items) (declarator_of t.declarator)) (items_of items) comma) }
{
    let height = above(t.height.max(items.height))?;
    ExprNode::boxed(
        alloc,
        Expr::CompoundLiteral(at, t.tree, items.list, comma),
        height,
    )
}

/// `sizeof ( type-name )`
#[tactic(auto, using(c_tree::proofs::Views::held_specifiers))]
pub fn sizeof_type_of(alloc: Global, at: u32, t: TypeNameNode) -> Result<ExprNode, Memory>
    ensures { IfOk result (λ x. expr_of x ≡ plain.SizeofType at (plain.TypeName (specifiers_of t.specifiers.items) (declarator_of t.declarator))) }
{
    let height = above(t.height)?;
    ExprNode::boxed(alloc, Expr::SizeofType(at, t.tree), height)
}

/// `_Alignof ( type-name )`
#[tactic(auto, using(c_tree::proofs::Views::held_specifiers))]
pub fn alignof_of(alloc: Global, at: u32, t: TypeNameNode) -> Result<ExprNode, Memory>
    ensures { IfOk result (λ x. expr_of x ≡ plain.AlignofType at (plain.TypeName (specifiers_of t.specifiers.items) (declarator_of t.declarator))) }
{
    let height = above(t.height)?;
    ExprNode::boxed(alloc, Expr::AlignofType(at, t.tree), height)
}

/// `( type-name ) e`
#[tactic(auto, using(c_tree::proofs::Views::held_specifiers))]
pub fn cast_of(alloc: Global, at: u32, t: TypeNameNode, e: ExprNode) -> Result<ExprNode, Memory>
    ensures { IfOk result (λ x. expr_of x ≡ plain.Cast at (plain.TypeName (specifiers_of t.specifiers.items) (declarator_of t.declarator)) (expr_of e)) }
{
    let height = above(t.height.max(e.height))?;
    ExprNode::boxed(alloc, Expr::Cast(at, t.tree, e.tree), height)
}
