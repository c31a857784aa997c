use crate::nulls::{beside, is_integer, is_null_beside, is_register, is_void_pointer};
use crate::stops::{WalkStop, placed, violated};
use crate::walker::Walker;
use c_places::expr_at;
use c_tree::{Expr, LogicalOp, StepOp, UnaryOp};
use cast_rules::Operand;
use cil_base::{BinOp, Code, Fault, NameId, RuleStop, TypeId, UnOp};
use decl_types::MemberPath;
use type_graph::{AggKind, QualType};
use typed_tree::{Logic, StepForm, TypedExp};
use unit_types::Class;

/// The answer of a rule over an operand: a fault that names the operand stands at its first token (C11 6.5.2.4p1, 6.5.3.1p1, 6.5.3.2p1),
/// another one at the operator's node.
fn placed_at_operand<T>(at: u32, operand: u32, r: Result<T, RuleStop>) -> Result<T, WalkStop> {
    match r {
        Err(RuleStop::Bad(Fault::Constraint(Code::NotLvalue))) => {
            Err(violated(operand, Code::NotLvalue))
        }
        Err(RuleStop::Bad(Fault::Constraint(Code::NotModifiable))) => {
            Err(violated(operand, Code::NotModifiable))
        }
        other => placed(at, other),
    }
}

/// `left [ right ]` (C11 6.5.2.1).
pub fn subscript(
    w: &mut Walker<'_>,
    at: u32,
    left: TypedExp,
    right: TypedExp,
) -> Result<TypedExp, WalkStop> {
    placed(
        at,
        cast_rules::subscript(
            w.alloc,
            Operand::plain(left),
            Operand::plain(right),
            &mut w.types,
        ),
    )
}

/// The token of the argument that may not be assigned to its parameter, or else that of the call (C11 6.5.2.2p2).
fn argument_at(
    w: &Walker<'_>,
    at: u32,
    callee: &Operand,
    arguments: &[Operand],
    es: &[Expr],
) -> u32 {
    match cast_rules::first_unassignable(callee, arguments, &w.types) {
        Some(i) => match es.get(i) {
            Some(e) => expr_at(e),
            None => at,
        },
        None => at,
    }
}

/// `callee ( arguments )` (C11 6.5.2.2).
pub fn call(
    w: &mut Walker<'_>,
    at: u32,
    callee: TypedExp,
    arguments: Vec<Operand>,
    es: &[Expr],
) -> Result<TypedExp, WalkStop> {
    let callee = Operand::plain(callee);
    let unfit = argument_at(w, at, &callee, &arguments, es);
    match cast_rules::call(w.alloc, callee, arguments, &mut w.types) {
        Err(RuleStop::Bad(Fault::Constraint(Code::Assignment))) => {
            Err(violated(unfit, Code::Assignment))
        }
        other => placed(at, other),
    }
}

/// The path to a member that a struct or union type offers (C11 6.5.2.3p1).
fn member_path(w: &Walker<'_>, at: u32, of: TypeId, n: NameId) -> Result<MemberPath, WalkStop> {
    match w.types.class(of) {
        Class::Agg(AggKind::Struct, a) | Class::Agg(AggKind::Union, a) => {
            match w.declarer.member_path(a, n, &w.types)? {
                Some(path) => Ok(path),
                None => Err(violated(at, Code::Member)),
            }
        }
        Class::Agg(AggKind::Enum, _)
        | Class::Void
        | Class::Int(_)
        | Class::Ptr(_)
        | Class::Array(..)
        | Class::Func { .. } => Err(violated(at, Code::Member)),
    }
}

/// The member at the end of a path (C11 6.7.2.1p13).
fn along(
    w: &mut Walker<'_>,
    at: u32,
    of: TypedExp,
    path: &MemberPath,
) -> Result<TypedExp, WalkStop> {
    let mut e = of;
    for step in path.as_slice() {
        e = placed(
            at,
            cast_rules::member(
                w.alloc,
                Operand::plain(e),
                step.agg,
                step.index,
                &mut w.types,
            ),
        )?;
    }
    Ok(e)
}

/// `e . name` (C11 6.5.2.3).
pub fn member(w: &mut Walker<'_>, at: u32, of: TypedExp, n: NameId) -> Result<TypedExp, WalkStop> {
    let path = member_path(w, at, of.ty().of, n)?;
    along(w, at, of, &path)
}

/// What the value of an expression of a type points to.
fn pointee(w: &Walker<'_>, of: TypeId) -> Option<QualType> {
    match w.types.class(of) {
        Class::Ptr(to) => Some(to),
        Class::Array(element, _) => Some(element),
        Class::Void | Class::Int(_) | Class::Func { .. } | Class::Agg(..) => None,
    }
}

/// Why a type whose value is no pointer has no member: where it is incomplete, there is no value (C11 6.3.2.1p2).
fn no_pointer(w: &Walker<'_>, of: TypeId) -> Code {
    match w.types.class(of) {
        Class::Agg(..) if !w.types.is_complete(of) => Code::Incomplete,
        _ => Code::Member,
    }
}

/// `e -> name` (C11 6.5.2.3).
pub fn arrow(
    w: &mut Walker<'_>,
    at: u32,
    pointer: TypedExp,
    n: NameId,
) -> Result<TypedExp, WalkStop> {
    let Some(to) = pointee(w, pointer.ty().of) else {
        return Err(violated(at, no_pointer(w, pointer.ty().of)));
    };
    let path = member_path(w, at, to.of, n)?;
    let of = placed(
        at,
        cast_rules::indirect(w.alloc, Operand::plain(pointer), &mut w.types),
    )?;
    along(w, at, of, &path)
}

/// The form of a step before its operand.
pub fn prefix_form(op: StepOp) -> StepForm {
    match op {
        StepOp::Increment => StepForm::PreIncrement,
        StepOp::Decrement => StepForm::PreDecrement,
    }
}

/// The form of a step behind its operand.
pub fn postfix_form(op: StepOp) -> StepForm {
    match op {
        StepOp::Increment => StepForm::PostIncrement,
        StepOp::Decrement => StepForm::PostDecrement,
    }
}

/// An increment or decrement (C11 6.5.2.4, 6.5.3.1) of an operand whose first token is known.
pub fn step(
    w: &mut Walker<'_>,
    at: u32,
    operand: u32,
    form: StepForm,
    place: TypedExp,
) -> Result<TypedExp, WalkStop> {
    placed_at_operand(
        at,
        operand,
        cast_rules::step(w.alloc, form, Operand::plain(place), &mut w.types),
    )
}

/// `& e` (C11 6.5.3.2).
fn address(w: &mut Walker<'_>, at: u32, operand: u32, exp: TypedExp) -> Result<TypedExp, WalkStop> {
    let register = is_register(w, &exp);
    let e = Operand {
        exp,
        null: false,
        register,
    };
    placed_at_operand(at, operand, cast_rules::address(w.alloc, e, &mut w.types))
}

/// A unary operator before its operand (C11 6.5.3.2, 6.5.3.3), whose first token is known.
pub fn unary(
    w: &mut Walker<'_>,
    at: u32,
    operand: u32,
    op: UnaryOp,
    e: TypedExp,
) -> Result<TypedExp, WalkStop> {
    let op = match op {
        UnaryOp::Address => return address(w, at, operand, e),
        UnaryOp::Indirection => {
            return placed(
                at,
                cast_rules::indirect(w.alloc, Operand::plain(e), &mut w.types),
            );
        }
        UnaryOp::Plus => {
            return placed(
                at,
                cast_rules::plus(w.alloc, Operand::plain(e), &mut w.types),
            );
        }
        UnaryOp::Minus => UnOp::Neg,
        UnaryOp::Complement => UnOp::Compl,
        UnaryOp::Not => UnOp::Not,
    };
    placed(
        at,
        cast_rules::unary(w.alloc, op, Operand::plain(e), &mut w.types),
    )
}

/// `sizeof` of a type (C11 6.5.3.4), whose operand begins with a token.
pub fn size_of(
    w: &mut Walker<'_>,
    at: u32,
    operand: u32,
    of: TypeId,
) -> Result<TypedExp, WalkStop> {
    placed_at_type(at, operand, cast_rules::size_of(w.alloc, of, &mut w.types))
}

/// `_Alignof` of a type (C11 6.5.3.4).
pub fn align_of(
    w: &mut Walker<'_>,
    at: u32,
    operand: u32,
    of: TypeId,
) -> Result<TypedExp, WalkStop> {
    placed_at_type(at, operand, cast_rules::align_of(w.alloc, of, &mut w.types))
}

/// The answer of a rule over a type: a fault that names the type stands at its first token.
fn placed_at_type<T>(at: u32, operand: u32, r: Result<T, RuleStop>) -> Result<T, WalkStop> {
    match r {
        Err(RuleStop::Bad(Fault::Constraint(Code::Incomplete))) => {
            Err(violated(operand, Code::Incomplete))
        }
        other => placed(at, other),
    }
}

/// `( type ) e` (C11 6.5.4).
pub fn cast(w: &mut Walker<'_>, at: u32, to: TypeId, e: TypedExp) -> Result<TypedExp, WalkStop> {
    if is_void_pointer(&w.types, to) && is_integer(&w.types, e.ty().of) {
        w.void_casts.insert(at)?;
    }
    placed(
        at,
        cast_rules::cast(w.alloc, to, Operand::plain(e), &mut w.types),
    )
}

/// Whether a null pointer constant counts as an operand of an operator (C11 6.5.9p2).
fn takes_null(op: BinOp) -> bool {
    op == BinOp::Eq || op == BinOp::Ne
}

/// A binary operator between its operands (C11 6.5.5 to 6.5.12).
pub fn binary(
    w: &mut Walker<'_>,
    at: u32,
    op: BinOp,
    a: TypedExp,
    b: TypedExp,
    sources: (&Expr, &Expr),
) -> Result<TypedExp, WalkStop> {
    let asks = takes_null(op);
    let left = asks && is_null_beside(w, sources.0, &a, b.ty().of);
    let right = asks && is_null_beside(w, sources.1, &b, a.ty().of);
    let a = Operand {
        exp: a,
        null: left,
        register: false,
    };
    let b = Operand {
        exp: b,
        null: right,
        register: false,
    };
    placed(at, cast_rules::binary(w.alloc, op, a, b, &mut w.types))
}

/// `a && b`, `a || b` (C11 6.5.13, 6.5.14).
pub fn logical(
    w: &mut Walker<'_>,
    at: u32,
    op: LogicalOp,
    a: TypedExp,
    b: TypedExp,
) -> Result<TypedExp, WalkStop> {
    let op = match op {
        LogicalOp::And => Logic::And,
        LogicalOp::Or => Logic::Or,
    };
    placed(
        at,
        cast_rules::logical(
            w.alloc,
            op,
            Operand::plain(a),
            Operand::plain(b),
            &mut w.types,
        ),
    )
}

/// `test ? a : b` (C11 6.5.15).
pub fn conditional(
    w: &mut Walker<'_>,
    at: u32,
    test: TypedExp,
    a: TypedExp,
    b: TypedExp,
    sources: (&Expr, &Expr),
) -> Result<TypedExp, WalkStop> {
    let left = is_null_beside(w, sources.0, &a, b.ty().of);
    let right = is_null_beside(w, sources.1, &b, a.ty().of);
    let a = Operand {
        exp: a,
        null: left,
        register: false,
    };
    let b = Operand {
        exp: b,
        null: right,
        register: false,
    };
    placed(
        at,
        cast_rules::conditional(w.alloc, Operand::plain(test), a, b, &mut w.types),
    )
}

/// `place = value`, `place op= value` (C11 6.5.16).
pub fn assign(
    w: &mut Walker<'_>,
    at: u32,
    op: Option<BinOp>,
    place: TypedExp,
    value: TypedExp,
    source: &Expr,
) -> Result<TypedExp, WalkStop> {
    let value = beside(w, source, value, place.ty().of);
    placed(
        at,
        cast_rules::assign(w.alloc, op, Operand::plain(place), value, &mut w.types),
    )
}

/// `a , b` (C11 6.5.17).
pub fn comma(w: &mut Walker<'_>, at: u32, a: TypedExp, b: TypedExp) -> Result<TypedExp, WalkStop> {
    placed(
        at,
        cast_rules::comma(w.alloc, Operand::plain(a), Operand::plain(b), &mut w.types),
    )
}

/// A value converted as by assignment (C11 6.5.16.1), whose faults stand at its first token.
pub fn convert(
    w: &mut Walker<'_>,
    to: TypeId,
    source: &Expr,
    exp: TypedExp,
) -> Result<TypedExp, WalkStop> {
    let value = beside(w, source, exp, to);
    placed(
        expr_at(source),
        cast_rules::convert(w.alloc, to, value, &mut w.types),
    )
}
