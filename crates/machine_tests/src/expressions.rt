use crate::equal::are_equal;
use crate::trees::{boxed, number};
use byte_mem::{Byte, ObjName, Scalar, Store, Value};
use cil_base::{BinOp, IntKind, LocalId, UnOp};
use cil_machine::{Spot, Term, set_place, term_value, zero_place};
use std::alloc::{AllocError, Global};
use std::process::Abort;
use std::test::Fail;

const INT: Scalar = Scalar::Int(IntKind::Int);

const LONG: Scalar = Scalar::Int(IntKind::Long);

const UCHAR: Scalar = Scalar::Int(IntKind::UChar);

// `left op right` over integers.
fn operation(alloc: Global, op: BinOp, left: u64, right: u64) -> Result<Box<Term>, AllocError> {
    let left = number(alloc, left)?;
    let right = number(alloc, right)?;
    boxed(alloc, Term::Arithmetic(op, left, right))
}

// The value of a term where there are no objects.
fn value(alloc: Global, s: Scalar, term: &Term) -> Option<Value> {
    term_value(&Store::new(alloc), 0, s, term)
}

#[test]
fn overflow_and_division_by_zero_are_undefined(rt: HostRuntime) -> Result<(), Fail> {
    let alloc = rt.alloc();
    let sum = operation(alloc, BinOp::Add, 2147483647, 1)?;
    let quotient = operation(alloc, BinOp::Div, 1, 0)?;
    are_equal(
        &rt,
        &[
            (value(alloc, INT, &sum), None),
            (value(alloc, LONG, &sum), Some(Value::Int(2147483648))),
            (value(alloc, INT, &quotient), None),
        ],
    );
    Ok(())
}

// `( int ) -1 < 1U`
fn below_one(alloc: Global) -> Result<Box<Term>, AllocError> {
    let one = number(alloc, 1)?;
    let minus = boxed(alloc, Term::Unary(UnOp::Neg, one))?;
    let left = boxed(alloc, Term::Convert(INT, minus))?;
    let right = number(alloc, 1)?;
    boxed(alloc, Term::Compare(BinOp::Lt, IntKind::UInt, left, right))
}

#[test]
fn minus_one_is_not_below_one_of_unsigned(rt: HostRuntime) -> Result<(), Fail> {
    let test = below_one(rt.alloc())?;
    are_equal(&rt, &[(value(rt.alloc(), INT, &test), Some(Value::Int(0)))]);
    Ok(())
}

// The local 0, of type unsigned char.
fn local() -> Spot {
    Spot::Local(LocalId(0))
}

// `( int ) l0 + 1 == 256`
fn is_256(alloc: Global) -> Result<Box<Term>, AllocError> {
    let c = boxed(alloc, Term::Load(local()))?;
    let c = boxed(alloc, Term::Convert(UCHAR, c))?;
    let one = number(alloc, 1)?;
    let sum = boxed(alloc, Term::Arithmetic(BinOp::Add, c, one))?;
    let right = number(alloc, 256)?;
    boxed(alloc, Term::Compare(BinOp::Eq, IntKind::Int, sum, right))
}

// What is stored is loaded in its activation alone, and zero behind it.
fn is_stored(rt: &impl Abort, mem: &mut Store, c: &Term, is_256: &Term) {
    let set = set_place(mem, 7, UCHAR, &local(), c);
    let there = term_value(mem, 7, INT, is_256);
    let elsewhere = term_value(mem, 8, INT, is_256);
    let zero = zero_place(mem, 7, 1, &local());
    let behind = term_value(mem, 7, INT, is_256);
    let beyond = zero_place(mem, 7, 2, &local());
    are_equal(rt, &[(set, Some(())), (zero, Some(())), (beyond, None)]);
    are_equal(
        rt,
        &[
            (there, Some(Value::Int(1))),
            (elsewhere, None),
            (behind, Some(Value::Int(0))),
        ],
    );
}

// The object of the local 0 in the activation 7 begins, and is stored and loaded.
fn a_char_is_stored(rt: &impl Abort, mem: &mut Store, c: &Term, is_256: &Term) -> Result<(), Fail> {
    mem.make(ObjName::Local(7, LocalId(0)), 1, Byte::Unknown, false)?;
    is_stored(rt, mem, c, is_256);
    Ok(())
}

#[test]
fn a_stored_char_is_loaded_and_compared(rt: HostRuntime) -> Result<(), Fail> {
    let alloc = rt.alloc();
    let c = number(alloc, 255)?;
    let is_256 = is_256(alloc)?;
    let c = boxed(alloc, Term::Convert(INT, c))?;
    let mut mem = Store::new(alloc);
    a_char_is_stored(&rt, &mut mem, &c, &is_256)
}
