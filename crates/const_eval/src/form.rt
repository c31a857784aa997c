ghost use Rattle.std.specs.Prelude.{◌≡◌};
ghost use Rattle.const_eval.specs.Constants.{value, truth_in};
ghost use Rattle.const_eval.specs.Forms.{decides, has_constant_form};
ghost use Rattle.typed_tree.specs.View.{typed_of};

use crate::constants::value;
use crate::known::{decided, kind_of, truth};
use typed_tree::{Logic, TypedExp, TypedNode};
use unit_types::Types;

/// The truth of an integer expression, where it is known.
fn truth_of(e: &TypedExp, t: &Types) -> Option<bool>
    ensures { result ≡ truth_in (value t.now (typed_of t.now.nodes e.now)) }
{
    truth(value(e, t)?)
}

/// Whether the first operand of `&&` or `||` decides alone, so that the second one is not evaluated (C11 6.5.13p4, 6.5.14p4).
fn decides(op: Logic, left: &TypedExp, t: &Types) -> bool
    ensures { result ≡ decides op (truth_in (value t.now (typed_of t.now.nodes left.now))) }
{
    match truth_of(left, t) {
        Some(holds) => decided(op, holds).is_some(),
        None => false,
    }
}

/// Whether an expression has the form of an integer constant expression (C11 6.6p6): what is evaluated of it is built of integer constants
/// by conversions between integer types and by operators on integers. Such a one is no constant exactly where a part of it has no value in
/// its type. What is not evaluated of `&&`, `||` and `?:` is not looked at (own).
pub fn is_constant_form(e: &TypedExp, t: &Types) -> bool
    ensures { result ≡ has_constant_form t.now (typed_of t.now.nodes e.now) }
{
    if kind_of(t, e.ty().of).is_none() {
        return false;
    }
    match e.node() {
        TypedNode::Integer(_) => true,
        TypedNode::Convert(of) | TypedNode::Unary(_, of) => is_constant_form(of, t),
        TypedNode::Binary(_, left, right) => {
            is_constant_form(left, t) && is_constant_form(right, t)
        }
        TypedNode::Logical(op, left, right) => {
            is_constant_form(left, t) && (decides(*op, left, t) || is_constant_form(right, t))
        }
        TypedNode::Conditional(test, branches) => {
            is_constant_form(test, t)
                && match truth_of(test, t) {
                    Some(true) => is_constant_form(&branches.holds, t),
                    Some(false) => is_constant_form(&branches.fails, t),
                    None => {
                        is_constant_form(&branches.holds, t) && is_constant_form(&branches.fails, t)
                    }
                }
        }
        TypedNode::Local(_)
        | TypedNode::Literal(..)
        | TypedNode::Entity(_)
        | TypedNode::Load(_)
        | TypedNode::Decay(_)
        | TypedNode::Address(_)
        | TypedNode::Indirect(_)
        | TypedNode::Subscript(..)
        | TypedNode::Member(..)
        | TypedNode::Comma(..)
        | TypedNode::Assign(..)
        | TypedNode::Compute(..)
        | TypedNode::Step(..)
        | TypedNode::Call(..) => false,
    }
}
