ghost use Rattle.std.specs.Prelude.{◌≡◌};
ghost use Rattle.c_tree.specs.Syntax as plain;
ghost use Rattle.c_tree.specs.View.{expr_of, bound_of};

use crate::expressions::ExprNode;
use c_tree::{ArrayBound, Qualifier};
use std::marker::Model;

/// What stands between the brackets of an array, with its height.
#[derive(Drop)]
pub struct BoundNode {
    pub(crate) tree: ArrayBound,
    pub(crate) height: u32,
}

impl Model for BoundNode {
    ghost use Rattle.std.specs.Prelude.{◌≡◌};
    ghost use Rattle.std.specs.Coded.{codes};
    ghost use Rattle.c_tree.specs.contracts.expression.ArrayBound as contracts;
    ghost use Rattle.c_tree.specs.declared.expression.ArrayBound.{ArrayBound};
    ghost use Rattle.c_tree.specs.View.{bound_of};
    ghost use Rattle.c_tree.specs.Height.{bound_height};

    ghost Value = { ArrayBound };

    ghost coded = { Prim.hlevel (codes, contracts.the_row.coded) };

    ghost view = { λ n. n.tree };

    ghost invariant = { λ n. n.height ≡ bound_height (bound_of n.tree) };
}

/// `[ qualifiers ]`
pub fn unspecified_of(at: u32, qualifiers: Vec<Qualifier>) -> BoundNode
    ensures { bound_of result ≡ plain.Unspecified at qualifiers.items }
{
    BoundNode {
        tree: ArrayBound::Unspecified(at, qualifiers),
        height: 0,
    }
}

/// `[ qualifiers * ]`
pub fn star_of(at: u32, qualifiers: Vec<Qualifier>) -> BoundNode
    ensures { bound_of result ≡ plain.Star at qualifiers.items }
{
    BoundNode {
        tree: ArrayBound::Star(at, qualifiers),
        height: 0,
    }
}

/// `[ qualifiers e ]`
pub fn size_of(at: u32, qualifiers: Vec<Qualifier>, e: ExprNode) -> BoundNode
    ensures { bound_of result ≡ plain.Size at qualifiers.items (expr_of e) }
{
    let height = e.height;
    BoundNode {
        tree: ArrayBound::Size(at, qualifiers, e.tree),
        height,
    }
}

/// `[ static qualifiers e ]`
pub fn static_size_of(at: u32, qualifiers: Vec<Qualifier>, e: ExprNode) -> BoundNode
    ensures { bound_of result ≡ plain.StaticSize at qualifiers.items (expr_of e) }
{
    let height = e.height;
    BoundNode {
        tree: ArrayBound::StaticSize(at, qualifiers, e.tree),
        height,
    }
}

/// `[ qualifiers static e ]`
pub fn size_static_of(at: u32, qualifiers: Vec<Qualifier>, e: ExprNode) -> BoundNode
    ensures { bound_of result ≡ plain.SizeStatic at qualifiers.items (expr_of e) }
{
    let height = e.height;
    BoundNode {
        tree: ArrayBound::SizeStatic(at, qualifiers, e.tree),
        height,
    }
}
