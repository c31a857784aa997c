ghost use Rattle.std.specs.Prelude.{◌≡◌, IfSome};
ghost use Rattle.const_eval.specs.Constants.{value, place, constant};
ghost use Rattle.const_eval.specs.Values.{IsKnown};
ghost use Rattle.typed_tree.specs.View.{typed_of};

use crate::known::{
    Known, binary, constant, converted, decided, entity, integer, member, sum, told, truth, unary,
};
use cil_base::Constant;
use typed_tree::{TypedExp, TypedNode};
use unit_types::Types;

/// The value of a constant expression (C11 6.6), none where it is no constant.
///
/// An integer constant expression (6.6p6) has the value that its evaluation gives; one that leaves its type is no constant (6.6p4). What is
/// not evaluated of `&&`, `||` and `?:` is not looked at (6.6p3). An address constant (6.6p9) stays within its object at each step, as far as
/// the unit knows its size where it stands; an integer that was converted to a pointer is a number of the unsigned kind of a pointer's size.
pub fn eval(e: &TypedExp, t: &Types) -> Option<Constant>
    ensures { result ≡ constant t.now (typed_of t.now.nodes e.now) }
{
    match value(e, t) {
        Some(known) => Some(constant(t, known)),
        None => None,
    }
}

/// The value of an expression that is no lvalue.
#[cycle(constants)]
pub(crate) fn value(e: &TypedExp, t: &Types) -> Option<Known>
    ensures told { result ≡ value t.now (typed_of t.now.nodes e.now) }
    ensures known { IfSome result IsKnown }
{
    match e.node() {
        TypedNode::Integer(n) => integer(t, e.ty().of, *n),
        TypedNode::Decay(of) => place(of, t),
        TypedNode::Address(of) => place(of, t),
        TypedNode::Convert(from) => converted(t, e.ty().of, value(from, t)?),
        TypedNode::Unary(op, of) => unary(*op, value(of, t)?),
        TypedNode::Binary(op, left, right) => {
            let left = value(left, t)?;
            binary(t, e.ty().of, *op, left, value(right, t)?)
        }
        TypedNode::Logical(op, left, right) => match decided(*op, truth(value(left, t)?)?) {
            Some(holds) => Some(told(holds)),
            None => Some(told(truth(value(right, t)?)?)),
        },
        TypedNode::Conditional(test, branches) => {
            if truth(value(test, t)?)? {
                value(&branches.holds, t)
            } else {
                value(&branches.fails, t)
            }
        }
        TypedNode::Local(_)
        | TypedNode::Literal(..)
        | TypedNode::Entity(_)
        | TypedNode::Load(_)
        | TypedNode::Indirect(_)
        | TypedNode::Subscript(..)
        | TypedNode::Member(..)
        | TypedNode::Comma(..)
        | TypedNode::Assign(..)
        | TypedNode::Compute(..)
        | TypedNode::Step(..)
        | TypedNode::Call(..) => None,
    }
}

/// The address of what an lvalue designates (C11 6.6p9), or the function.
#[cycle(constants)]
fn place(e: &TypedExp, t: &Types) -> Option<Known>
    ensures told { result ≡ place t.now (typed_of t.now.nodes e.now) }
    ensures known { IfSome result IsKnown }
{
    match e.node() {
        TypedNode::Entity(n) => Some(entity(t, e.ty().of, *n)),
        TypedNode::Indirect(pointer) => value(pointer, t),
        TypedNode::Subscript(left, right) => {
            let left = value(left, t)?;
            let right = value(right, t)?;
            sum(left, right, t.size(e.ty().of)?)
        }
        TypedNode::Member(of, _, i) => member(t, of.ty().of, *i, place(of, t)?),
        TypedNode::Integer(_)
        | TypedNode::Local(_)
        | TypedNode::Literal(..)
        | TypedNode::Load(_)
        | TypedNode::Decay(_)
        | TypedNode::Address(_)
        | TypedNode::Convert(_)
        | TypedNode::Unary(..)
        | TypedNode::Binary(..)
        | TypedNode::Logical(..)
        | TypedNode::Conditional(..)
        | TypedNode::Comma(..)
        | TypedNode::Assign(..)
        | TypedNode::Compute(..)
        | TypedNode::Step(..)
        | TypedNode::Call(..) => None,
    }
}
