ghost use Rattle.std.specs.Prelude.{◌≡◌, List};
ghost use Rattle.type_graph.specs.declared.nodes.Node.{Node};
ghost use Rattle.typed_tree.specs.Places.{is_place};
ghost use Rattle.typed_tree.specs.View.{typed_of};

use crate::initialisers::TypedInit;
use cil_base::{AggId, BinOp, EntityId, LocalId, TypeId, UnOp};
use type_graph::QualType;

/// A typed expression (C11 6.5): its type, whether an effect stands in it, and its node.
#[derive(Drop)]
#[cycle(typed)]
pub struct TypedExp {
    pub(crate) ty: QualType,
    pub(crate) effect: bool,
    pub(crate) node: Box<TypedNode>,
}

/// What connects two tests (C11 6.5.13, 6.5.14).
#[derive(Clone, Copy, Debug)]
pub enum Logic {
    /// `&&`
    And,
    /// `||`
    Or,
}

/// The forms of increments and decrements (C11 6.5.2.4, 6.5.3.1).
#[derive(Clone, Copy, Debug)]
pub enum StepForm {
    /// `++ e`
    PreIncrement,
    /// `-- e`
    PreDecrement,
    /// `e ++`
    PostIncrement,
    /// `e --`
    PostDecrement,
}

/// The two expressions of a conditional (C11 6.5.15), each converted to its type.
#[derive(Drop)]
#[cycle(typed)]
pub struct Branches {
    pub holds: TypedExp,
    pub fails: TypedExp,
}

/// What a typed expression is. Operands are converted: where a value is asked, an lvalue stands under `Load` or `Decay`.
#[derive(Drop)]
#[cycle(typed)]
pub enum TypedNode {
    /// An integer constant: a value of the kind of its type (6.4.4, 6.5.3.4).
    Integer(i128),
    /// The place of a declared object with automatic storage duration, or of a parameter.
    Local(LocalId),
    /// The place of a compound literal in a function (6.5.2.5), by its number in the function, and its initialiser.
    Literal(u32, TypedInit),
    /// The place of an object with static storage duration, or a function (6.5.1p2).
    Entity(EntityId),
    /// The value of a place (6.3.2.1p2).
    Load(TypedExp),
    /// A pointer to the first element of an array, or to a function (6.3.2.1p3, p4). The array need not be a place.
    Decay(TypedExp),
    /// `& e` (6.5.3.2): of a place, or of a function.
    Address(TypedExp),
    /// `* e` (6.5.3.2): a place, or a function.
    Indirect(TypedExp),
    /// `e [ e ]` (6.5.2.1): a pointer and an integer, in either order.
    Subscript(TypedExp, TypedExp),
    /// A member by its number (6.5.2.3): of a place, which gives a place, or of a value.
    Member(TypedExp, AggId, u32),
    /// A conversion of a value, written or implied, to the node's type (6.3, 6.5.4).
    Convert(TypedExp),
    /// A unary operator on a value (6.5.3.3).
    Unary(UnOp, TypedExp),
    /// A binary operator on values (6.5.5 to 6.5.12).
    Binary(BinOp, TypedExp, TypedExp),
    /// `e && e`, `e || e`
    Logical(Logic, TypedExp, TypedExp),
    /// `e ? e : e`
    Conditional(TypedExp, Box<Branches>),
    /// `e , e`: the first is a value or void.
    Comma(TypedExp, TypedExp),
    /// `e = e` (6.5.16.1): a place, and a value of its type.
    Assign(TypedExp, TypedExp),
    /// A compound assignment (6.5.16.2): the operator, the type in which it computes, a place, and the converted right operand.
    Compute(BinOp, TypeId, TypedExp, TypedExp),
    /// An increment or decrement (6.5.2.4, 6.5.3.1): its form, the type in which it computes, and a place.
    Step(StepForm, TypeId, TypedExp),
    /// A call (6.5.2.2): a pointer to a function, and the converted arguments.
    Call(TypedExp, Vec<TypedExp>),
}

impl TypedExp {
    /// The type of the expression. That of a value has no qualifiers.
    pub fn ty(&self) -> QualType
        ensures { result ≡ self.now.ty }
    {
        self.ty
    }

    /// Whether an effect stands in it: an assignment, an increment or decrement, a call, `&&`, `||`, a conditional, a comma or a
    /// compound literal.
    pub fn has_effect(&self) -> bool
        ensures { result ≡ self.now.effect }
    {
        self.effect
    }

    /// What it is.
    pub fn node(&self) -> &TypedNode
        ensures { result.now ≡ self.now.node.value }
    {
        &self.node
    }

    /// Whether it is an lvalue (C11 6.3.2.1p1), or a function.
    pub fn is_place(&self) -> bool
        ensures { (nodes : List Node) → result ≡ is_place (typed_of nodes self.now) }
    {
        match &*self.node {
            TypedNode::Local(_)
            | TypedNode::Literal(..)
            | TypedNode::Entity(_)
            | TypedNode::Indirect(_)
            | TypedNode::Subscript(..) => true,
            TypedNode::Member(of, _, _) => of.is_place(),
            TypedNode::Integer(_)
            | TypedNode::Load(_)
            | TypedNode::Decay(_)
            | TypedNode::Address(_)
            | TypedNode::Convert(_)
            | TypedNode::Unary(..)
            | TypedNode::Binary(..)
            | TypedNode::Logical(..)
            | TypedNode::Conditional(..)
            | TypedNode::Comma(..)
            | TypedNode::Assign(..)
            | TypedNode::Compute(..)
            | TypedNode::Step(..)
            | TypedNode::Call(..) => false,
        }
    }
}
