use crate::kit::{Kit, Sample};
use cast_rules::{
    Operand, address, assign, binary, cast, comma, conditional, convert, indirect, logical, plus,
    scalar_test, step, subscript, switch_value, unary, value,
};
use cil_base::{BinOp, Code, Fault, RuleStop, UnOp};
use std::alloc::Global;
use type_graph::{QualType, Quals};
use typed_tree::{Logic, StepForm, TypedExp, TypedNode};
use unit_types::Types;

/// What a row wants: the type of a sample, or a constraint.
pub(crate) type Want = Result<Sample, Code>;

/// A call over one operand.
#[derive(Clone, Copy, Debug)]
pub(crate) enum Single {
    Value,
    Plus,
    Unary(UnOp),
    Test,
    Switch,
    Address,
    Indirect,
    Step(StepForm),
    /// A cast to a sample's type.
    Cast(Sample),
    /// A conversion as by assignment to a sample's type.
    Convert(Sample),
}

/// A call over two operands.
#[derive(Clone, Copy, Debug)]
pub(crate) enum Double {
    Binary(BinOp),
    Logical(Logic),
    Comma,
    Assign,
    Compound(BinOp),
    Subscript,
    /// The second and third operands of a conditional.
    Branches,
}

/// The type of a node, or that in which it computes.
fn told(e: &TypedExp) -> QualType {
    match e.node() {
        TypedNode::Compute(_, at, _, _) | TypedNode::Step(_, at, _) => QualType {
            quals: Quals {
                constant: false,
                restricted: false,
            },
            of: *at,
        },
        _ => e.ty(),
    }
}

/// What a call answered: the type of its node, or why there is none.
pub(crate) fn answer(r: Result<TypedExp, RuleStop>) -> Result<QualType, RuleStop> {
    match r {
        Ok(e) => Ok(told(&e)),
        Err(stop) => Err(stop),
    }
}

/// What a row wants.
pub(crate) fn wanted(kit: &Kit, want: Want) -> Result<QualType, RuleStop> {
    match want {
        Ok(s) => kit.ty(s),
        Err(code) => Err(RuleStop::Bad(Fault::Constraint(code))),
    }
}

/// What a call over one operand answers.
pub(crate) fn call_single(
    alloc: Global,
    form: Single,
    e: Operand,
    kit: &Kit,
    t: &mut Types,
) -> Result<TypedExp, RuleStop> {
    match form {
        Single::Value => value(alloc, e, t),
        Single::Plus => plus(alloc, e, t),
        Single::Unary(op) => unary(alloc, op, e, t),
        Single::Test => scalar_test(alloc, e, t),
        Single::Switch => switch_value(alloc, e, t),
        Single::Address => address(alloc, e, t),
        Single::Indirect => indirect(alloc, e, t),
        Single::Step(form) => step(alloc, form, e, t),
        Single::Cast(to) => cast(alloc, kit.ty(to)?.of, e, t),
        Single::Convert(to) => convert(alloc, kit.ty(to)?.of, e, t),
    }
}

/// What a call over two operands answers.
pub(crate) fn call_double(
    alloc: Global,
    form: Double,
    a: Operand,
    b: Operand,
    kit: &Kit,
    t: &mut Types,
) -> Result<TypedExp, RuleStop> {
    match form {
        Double::Binary(op) => binary(alloc, op, a, b, t),
        Double::Logical(op) => logical(alloc, op, a, b, t),
        Double::Comma => comma(alloc, a, b, t),
        Double::Assign => assign(alloc, None, a, b, t),
        Double::Compound(op) => assign(alloc, Some(op), a, b, t),
        Double::Subscript => subscript(alloc, a, b, t),
        Double::Branches => conditional(alloc, kit.operand(alloc, Sample::ToInt)?, a, b, t),
    }
}
