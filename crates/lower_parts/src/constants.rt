use crate::shapes::impossible;
use cil_base::{BinOp, IntKind, Memory, TypeId, UnOp};
use cil_nodes::{binary, boxed, cast, constant, unary};
use cil_tree::Exp;
use std::alloc::Global;

/// The greatest number of a constant.
const MOST: i128 = 0xffff_ffff_ffff_ffff;

/// The greatest value that each kind has which is int or wider (C11 5.2.4.2.1p1).
const SMALL: i128 = 0x7fff_ffff;

/// A constant of a kind that is int or wider, from a number that is not negative.
pub(crate) fn natural(kind: IntKind, n: i128) -> Result<Exp, Memory> {
    if n < 0 || n > MOST {
        return Err(impossible());
    }
    Ok(constant(kind, n as u64))
}

/// A constant with a minus.
fn negated(alloc: Global, kind: IntKind, n: i128) -> Result<Exp, Memory> {
    let positive = boxed(alloc, natural(kind, n)?)?;
    Ok(unary(UnOp::Neg, positive))
}

/// The least value of a signed kind, whose positive counterpart the kind lacks.
fn least(alloc: Global, kind: IntKind) -> Result<Exp, Memory> {
    let most = boxed(alloc, negated(alloc, kind, kind.greatest())?)?;
    let one = boxed(alloc, natural(kind, 1)?)?;
    Ok(binary(BinOp::Sub, most, one))
}

/// A value of a kind that is int or wider: constants themselves are not negative (C11 6.4.4.1).
fn number(alloc: Global, kind: IntKind, n: i128) -> Result<Exp, Memory> {
    if n < 0 - MOST || !kind.fits(n) {
        return Err(impossible());
    }
    if n >= 0 {
        natural(kind, n)
    } else if n == kind.least() {
        least(alloc, kind)
    } else {
        negated(alloc, kind, 0 - n)
    }
}

/// Whether a kind is int or wider.
fn is_wide(kind: IntKind) -> bool {
    kind.promoted() == kind
}

/// A value of an integer type.
pub(crate) fn integer(alloc: Global, kind: IntKind, t: TypeId, n: i128) -> Result<Exp, Memory> {
    if n >= 0 && n <= SMALL && is_wide(kind) {
        Ok(constant(kind, n as u64))
    } else {
        any_integer(alloc, kind, t, n)
    }
}

/// A value of an integer type, in its box.
pub(crate) fn integer_operand(
    alloc: Global,
    kind: IntKind,
    t: TypeId,
    n: i128,
) -> Result<Box<Exp>, Memory> {
    if n >= 0 && n <= SMALL && is_wide(kind) {
        boxed(alloc, constant(kind, n as u64))
    } else {
        let x = any_integer(alloc, kind, t, n)?;
        boxed(alloc, x)
    }
}

/// A value of an integer type: one of a type narrower than int is an int that is cast.
#[inline(never)]
fn any_integer(alloc: Global, kind: IntKind, t: TypeId, n: i128) -> Result<Exp, Memory> {
    let wide = kind.promoted();
    let value = number(alloc, wide, n)?;
    if wide == kind {
        Ok(value)
    } else {
        Ok(cast(t, boxed(alloc, value)?))
    }
}
