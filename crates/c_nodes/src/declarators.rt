ghost use Rattle.std.specs.Prelude.{◌≡◌, IfOk};
ghost use Rattle.c_tree.specs.Syntax as plain;
ghost use Rattle.c_tree.specs.View.{declarator_of, bound_of, parameters_of};
ghost use Rattle.c_tree.specs.Height.{declarator_height};

use crate::bounds::BoundNode;
use crate::heights::above;
use crate::parameters::ParameterList;
use c_tree::{Declarator, Qualifier};
use cil_base::{Memory, NameId};
use std::alloc::Global;
use std::marker::Model;

/// A declarator in its box, with its height.
#[derive(Drop)]
pub struct DeclaratorNode {
    pub(crate) tree: Box<Declarator>,
    pub(crate) height: u32,
}

impl Model for DeclaratorNode {
    ghost use Rattle.std.specs.Prelude.{◌≡◌};
    ghost use Rattle.std.specs.Coded.{codes};
    ghost use Rattle.c_tree.specs.contracts.expression.Declarator as contracts;
    ghost use Rattle.c_tree.specs.declared.expression.Declarator.{Declarator};
    ghost use Rattle.c_tree.specs.View.{declarator_of};
    ghost use Rattle.c_tree.specs.Height.{declarator_height};

    ghost Value = { Declarator };

    ghost coded = { Prim.hlevel (codes, contracts.the_row.coded) };

    ghost view = { λ n. n.tree.value };

    ghost invariant = { λ n. n.height ≡ declarator_height (declarator_of n.tree.value) };
}

impl DeclaratorNode {
    /// Puts a declarator of that height into its box.
    fn boxed(alloc: Global, tree: Declarator, height: u32) -> Result<Self, Memory>
        requires { height ≡ declarator_height (declarator_of tree) }
        ensures { IfOk result (λ x. x ≡ tree) }
    {
        let tree = Box::new(alloc, tree)?;
        Ok(DeclaratorNode { tree, height })
    }

    /// The height of the declarator.
    pub fn height(&self) -> u32
        ensures { result ≡ declarator_height (declarator_of self.now) }
    {
        self.height
    }

    /// The declarator.
    pub fn tree(&self) -> &Declarator
        ensures { result.now ≡ self.now }
    {
        &self.tree
    }

    /// The declarator, without its height.
    pub fn into_tree(self) -> Box<Declarator>
        ensures { result.value ≡ self }
    {
        self.tree
    }
}

/// The declared identifier.
pub fn declared_of(alloc: Global, at: u32, n: NameId) -> Result<DeclaratorNode, Memory>
    ensures { IfOk result (λ x. declarator_of x ≡ plain.Declared at n) }
{
    DeclaratorNode::boxed(alloc, Declarator::Name(at, n), 1)
}

/// No identifier.
pub fn absent_of(alloc: Global, at: u32) -> Result<DeclaratorNode, Memory>
    ensures { IfOk result (λ x. declarator_of x ≡ plain.Absent at) }
{
    DeclaratorNode::boxed(alloc, Declarator::Absent(at), 1)
}

/// `( d )`
pub fn group_of(alloc: Global, at: u32, d: DeclaratorNode) -> Result<DeclaratorNode, Memory>
    ensures { IfOk result (λ x. declarator_of x ≡ plain.Grouped at (declarator_of d)) }
{
    let height = above(d.height)?;
    DeclaratorNode::boxed(alloc, Declarator::Parentheses(at, d.tree), height)
}

/// `* qualifiers d`
pub fn pointer_of(
    alloc: Global,
    at: u32,
    qualifiers: Vec<Qualifier>,
    d: DeclaratorNode,
) -> Result<DeclaratorNode, Memory>
    ensures { IfOk result (λ x. declarator_of x ≡ plain.Pointer at qualifiers.items (declarator_of d)) }
{
    let height = above(d.height)?;
    DeclaratorNode::boxed(alloc, Declarator::Pointer(at, qualifiers, d.tree), height)
}

/// `d [ bound ]`
pub fn array_of(
    alloc: Global,
    at: u32,
    d: DeclaratorNode,
    bound: BoundNode,
) -> Result<DeclaratorNode, Memory>
    ensures { IfOk result (λ x. declarator_of x ≡ plain.Array at (declarator_of d) (bound_of bound)) }
{
    let height = above(d.height.max(bound.height))?;
    DeclaratorNode::boxed(alloc, Declarator::Array(at, d.tree, bound.tree), height)
}

/// `d ( parameters )`, and whether `, ...` ends them.
#[tactic(auto, using(c_tree::proofs::Views::held_parameters))]
pub fn function_of(
    alloc: Global,
    at: u32,
    d: DeclaratorNode,
    parameters: ParameterList,
    variadic: bool,
) -> Result<DeclaratorNode, Memory>
    ensures { IfOk result (λ x. declarator_of x ≡ plain.Function at (declarator_of d) (parameters_of parameters) variadic) }
{
    let height = above(d.height.max(parameters.height))?;
    DeclaratorNode::boxed(
        alloc,
        Declarator::Function(at, d.tree, parameters.list, variadic),
        height,
    )
}

/// `d ( names )`
pub fn unprototyped_of(
    alloc: Global,
    at: u32,
    d: DeclaratorNode,
    names: Vec<NameId>,
) -> Result<DeclaratorNode, Memory>
    ensures { IfOk result (λ x. declarator_of x ≡ plain.Unprototyped at (declarator_of d) names.items) }
{
    let height = above(d.height)?;
    DeclaratorNode::boxed(alloc, Declarator::Identifiers(at, d.tree, names), height)
}
