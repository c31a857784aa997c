use crate::equal::equal;
use crate::forms::{Double, Want, answer, call_double, wanted};
use crate::kit::Sample::{self, *};
use crate::kit::{Kit, no_types};
use cil_base::{BinOp, Code, RuleStop};
use std::alloc::Global;
use std::process::Abort;
use type_graph::QualType;
use typed_tree::Logic;
use unit_types::Types;

/// Constraints that rows violate.
const INCOMPLETE: Want = Err(Code::Incomplete);

const PLACE: Want = Err(Code::NotLvalue);

const FIXED: Want = Err(Code::NotModifiable);

const OPERAND: Want = Err(Code::Operand);

const ASSIGNMENT: Want = Err(Code::Assignment);

/// Numbers: C11 6.3.1.8, 6.5.5 to 6.5.12.
const NUMBERS: [(Double, Sample, Sample, Want); 16] = [
    (Double::Binary(BinOp::Add), Char, Char, Ok(Int)),
    (Double::Binary(BinOp::Add), UInt, Long, Ok(Long)),
    (Double::Binary(BinOp::Add), Int, UInt, Ok(UInt)),
    (Double::Binary(BinOp::Add), ULong, Long, Ok(ULong)),
    (Double::Binary(BinOp::Add), Bool, Bool, Ok(Int)),
    (Double::Binary(BinOp::Sub), Enum, Char, Ok(Int)),
    (Double::Binary(BinOp::Mul), ConstInt, Short, Ok(Int)),
    (Double::Binary(BinOp::Rem), Enum, Enum, Ok(Int)),
    (Double::Binary(BinOp::Shl), Char, Long, Ok(Int)),
    (Double::Binary(BinOp::Shl), Long, Char, Ok(Long)),
    (Double::Binary(BinOp::Shr), UInt, ULong, Ok(UInt)),
    (Double::Binary(BinOp::Lt), UInt, Long, Ok(Int)),
    (Double::Binary(BinOp::Eq), ULong, Int, Ok(Int)),
    (Double::Binary(BinOp::Add), Record, Int, OPERAND),
    (Double::Binary(BinOp::Add), Int, Void, OPERAND),
    (Double::Binary(BinOp::Add), Open, Int, INCOMPLETE),
];

/// Sums and differences of pointers: C11 6.5.6.
const SUMS: [(Double, Sample, Sample, Want); 19] = [
    (Double::Binary(BinOp::Add), ToInt, Char, Ok(ToInt)),
    (Double::Binary(BinOp::Add), Long, ToInt, Ok(ToInt)),
    (Double::Binary(BinOp::Add), Row, Enum, Ok(ToInt)),
    (Double::Binary(BinOp::Sub), ToInt, UInt, Ok(ToInt)),
    (Double::Binary(BinOp::Sub), ToInt, ToConstInt, Ok(Long)),
    (Double::Binary(BinOp::Sub), ToRow, ToRow, Ok(Long)),
    (Double::Binary(BinOp::Sub), ToEnum, ToInt, Ok(Long)),
    (Double::Binary(BinOp::Sub), Int, ToInt, OPERAND),
    (Double::Binary(BinOp::Add), ToInt, ToInt, OPERAND),
    (Double::Binary(BinOp::Sub), ToInt, ToChar, OPERAND),
    (Double::Binary(BinOp::Add), ToFunction, Int, OPERAND),
    (Double::Binary(BinOp::Sub), ToFunction, ToFunction, OPERAND),
    (Double::Binary(BinOp::Mul), ToInt, Int, OPERAND),
    (Double::Binary(BinOp::Shl), Int, ToInt, OPERAND),
    (Double::Binary(BinOp::And), Int, ToInt, OPERAND),
    (Double::Binary(BinOp::Add), ToVoid, Int, INCOMPLETE),
    (Double::Binary(BinOp::Add), Int, ToOpen, INCOMPLETE),
    (Double::Binary(BinOp::Sub), ToInt, ToVoid, INCOMPLETE),
    (Double::Binary(BinOp::Sub), ToRow, ToOpenRow, INCOMPLETE),
];

/// Comparisons: C11 6.5.8, 6.5.9.
const COMPARISONS: [(Double, Sample, Sample, Want); 27] = [
    (Double::Binary(BinOp::Lt), ToInt, ToConstInt, Ok(Int)),
    (Double::Binary(BinOp::Ge), ToVoid, ToVoid, Ok(Int)),
    (Double::Binary(BinOp::Le), ToOpen, ToOpen, Ok(Int)),
    (Double::Binary(BinOp::Gt), ToRow, ToOpenRow, Ok(Int)),
    (Double::Binary(BinOp::Lt), ToEnum, ToInt, Ok(Int)),
    (Double::Binary(BinOp::Lt), ToInt, ToVoid, OPERAND),
    (Double::Binary(BinOp::Lt), ToInt, Zero, OPERAND),
    (Double::Binary(BinOp::Lt), ToInt, Null, OPERAND),
    (Double::Binary(BinOp::Lt), ToFunction, ToFunction, OPERAND),
    (Double::Binary(BinOp::Eq), ToInt, ToConstInt, Ok(Int)),
    (Double::Binary(BinOp::Eq), ToInt, ToVoid, Ok(Int)),
    (Double::Binary(BinOp::Eq), ToConstVoid, ToInt, Ok(Int)),
    (Double::Binary(BinOp::Ne), ToOpen, ToVoid, Ok(Int)),
    (Double::Binary(BinOp::Eq), ToInt, Zero, Ok(Int)),
    (Double::Binary(BinOp::Ne), Zero, ToFunction, Ok(Int)),
    (Double::Binary(BinOp::Eq), ToFunction, Null, Ok(Int)),
    (Double::Binary(BinOp::Eq), Function, ToFunction, Ok(Int)),
    (Double::Binary(BinOp::Eq), Null, Zero, Ok(Int)),
    (Double::Binary(BinOp::Eq), ToRow, ToOpenRow, Ok(Int)),
    (Double::Binary(BinOp::Eq), Row, ToInt, Ok(Int)),
    (Double::Binary(BinOp::Eq), ToFunction, ToVoid, OPERAND),
    (
        Double::Binary(BinOp::Eq),
        ToFunction,
        ToUnprototyped,
        OPERAND,
    ),
    (Double::Binary(BinOp::Eq), ToInt, ToChar, OPERAND),
    (Double::Binary(BinOp::Eq), ToInt, Int, OPERAND),
    (Double::Binary(BinOp::Eq), Record, Record, OPERAND),
    (Double::Binary(BinOp::Eq), Void, Zero, OPERAND),
    (Double::Binary(BinOp::Eq), Open, Open, INCOMPLETE),
];

/// `&&`, `||` and commas: C11 6.5.13, 6.5.14, 6.5.17.
const SEQUENCES: [(Double, Sample, Sample, Want); 12] = [
    (Double::Logical(Logic::And), Char, ToInt, Ok(Int)),
    (Double::Logical(Logic::Or), Function, Row, Ok(Int)),
    (Double::Logical(Logic::And), Enum, ConstInt, Ok(Int)),
    (Double::Logical(Logic::Or), Record, Char, OPERAND),
    (Double::Logical(Logic::And), Int, Void, OPERAND),
    (Double::Logical(Logic::And), Record, Open, INCOMPLETE),
    (Double::Comma, Char, ToInt, Ok(ToInt)),
    (Double::Comma, Function, Row, Ok(ToInt)),
    (Double::Comma, Record, ConstInt, Ok(Int)),
    (Double::Comma, Void, Void, Ok(Void)),
    (Double::Comma, Int, ConstRecord, Ok(Record)),
    (Double::Comma, Open, Int, INCOMPLETE),
];

/// The second and third operands of a conditional, and its type: C11 6.5.15p3, p5, p6.
const BRANCHES: [(Double, Sample, Sample, Want); 24] = [
    (Double::Branches, Char, UInt, Ok(UInt)),
    (Double::Branches, Enum, Enum, Ok(Int)),
    (Double::Branches, Record, ConstRecord, Ok(Record)),
    (Double::Branches, Record, Other, OPERAND),
    (Double::Branches, Void, Void, Ok(Void)),
    (Double::Branches, Void, Int, OPERAND),
    (Double::Branches, ToInt, ToConstInt, Ok(ToConstInt)),
    (Double::Branches, ToInt, Zero, Ok(ToInt)),
    (Double::Branches, Zero, ToConstInt, Ok(ToConstInt)),
    (Double::Branches, ToInt, Null, Ok(ToInt)),
    (Double::Branches, Null, ToVoid, Ok(ToVoid)),
    (Double::Branches, Null, ToConstVoid, Ok(ToConstVoid)),
    (Double::Branches, ToInt, ToVoid, Ok(ToVoid)),
    (Double::Branches, ToConstInt, ToVoid, Ok(ToConstVoid)),
    (Double::Branches, ToConstVoid, ToInt, Ok(ToConstVoid)),
    (Double::Branches, ToFunction, Null, Ok(ToFunction)),
    (Double::Branches, Function, Function, Ok(ToFunction)),
    (Double::Branches, ToRow, ToOpenRow, Ok(ToRow)),
    (Double::Branches, ToOpenRow, ToRow, Ok(ToRow)),
    (Double::Branches, ToEnum, ToInt, Ok(ToEnum)),
    (Double::Branches, Row, Row, Ok(ToInt)),
    (Double::Branches, ToInt, ToChar, OPERAND),
    (Double::Branches, ToFunction, ToVoid, OPERAND),
    (Double::Branches, ToInt, Int, OPERAND),
];

/// What may be assigned to what: C11 6.5.16p2, 6.5.16.1p1.
const ASSIGNMENTS: [(Double, Sample, Sample, Want); 42] = [
    (Double::Assign, Char, Long, Ok(Char)),
    (Double::Assign, Enum, Int, Ok(Enum)),
    (Double::Assign, Int, Enum, Ok(Int)),
    (Double::Assign, Int, ToInt, ASSIGNMENT),
    (Double::Assign, Bool, ToInt, Ok(Bool)),
    (Double::Assign, Bool, Function, Ok(Bool)),
    (Double::Assign, Bool, Record, ASSIGNMENT),
    (Double::Assign, ToInt, Zero, Ok(ToInt)),
    (Double::Assign, ToInt, Null, Ok(ToInt)),
    (Double::Assign, ToInt, Int, ASSIGNMENT),
    (Double::Assign, ToInt, Row, Ok(ToInt)),
    (Double::Assign, ToInt, ToEnum, Ok(ToInt)),
    (Double::Assign, ToChar, ToInt, ASSIGNMENT),
    (Double::Assign, ToConstInt, ToInt, Ok(ToConstInt)),
    (Double::Assign, ToInt, ToConstInt, ASSIGNMENT),
    (Double::Assign, ToVoid, ToInt, Ok(ToVoid)),
    (Double::Assign, ToInt, ToVoid, Ok(ToInt)),
    (Double::Assign, ToVoid, ToConstInt, ASSIGNMENT),
    (Double::Assign, ToInt, ToConstVoid, ASSIGNMENT),
    (Double::Assign, ToConstVoid, ToConstInt, Ok(ToConstVoid)),
    (Double::Assign, ToVoid, ToOpen, Ok(ToVoid)),
    (Double::Assign, ToFunction, Function, Ok(ToFunction)),
    (Double::Assign, ToFunction, Null, Ok(ToFunction)),
    (Double::Assign, ToFunction, ToVoid, ASSIGNMENT),
    (Double::Assign, ToVoid, ToFunction, ASSIGNMENT),
    (Double::Assign, ToFunction, ToUnprototyped, ASSIGNMENT),
    (Double::Assign, ToRow, ToOpenRow, Ok(ToRow)),
    (Double::Assign, ToOpenRow, ToRow, Ok(ToOpenRow)),
    (Double::Assign, Record, ConstRecord, Ok(Record)),
    (Double::Assign, Record, Other, ASSIGNMENT),
    (Double::Assign, Int, Record, ASSIGNMENT),
    (Double::Assign, Int, Void, ASSIGNMENT),
    (Double::Assign, Int, Open, INCOMPLETE),
    (Double::Assign, ConstInt, Open, INCOMPLETE),
    (Double::Assign, ConstInt, Record, FIXED),
    (Double::Assign, ConstRecord, Record, FIXED),
    (Double::Assign, Fixed, Fixed, FIXED),
    (Double::Assign, Row, Row, FIXED),
    (Double::Assign, Open, Int, FIXED),
    (Double::Assign, Function, Function, PLACE),
    (Double::Assign, Zero, Int, PLACE),
    (Double::Assign, Void, Record, PLACE),
];

/// Compound assignments, and the type in which they compute: C11 6.5.16.2.
const COMPOUNDS: [(Double, Sample, Sample, Want); 17] = [
    (Double::Compound(BinOp::Add), Char, Long, Ok(Long)),
    (Double::Compound(BinOp::Mul), UInt, Int, Ok(UInt)),
    (Double::Compound(BinOp::Or), Enum, Char, Ok(Int)),
    (Double::Compound(BinOp::Shl), Char, Long, Ok(Int)),
    (Double::Compound(BinOp::Shr), Long, Char, Ok(Long)),
    (Double::Compound(BinOp::Add), ToInt, Char, Ok(ToInt)),
    (Double::Compound(BinOp::Sub), ToInt, ULong, Ok(ToInt)),
    (Double::Compound(BinOp::Sub), ToInt, ToInt, OPERAND),
    (Double::Compound(BinOp::Mul), ToInt, Int, OPERAND),
    (Double::Compound(BinOp::Add), Int, ToInt, OPERAND),
    (Double::Compound(BinOp::Add), ToFunction, Int, OPERAND),
    (Double::Compound(BinOp::Add), Record, Int, OPERAND),
    (Double::Compound(BinOp::Add), ToVoid, Int, INCOMPLETE),
    (Double::Compound(BinOp::Add), Int, Open, INCOMPLETE),
    (Double::Compound(BinOp::Add), ConstInt, Record, FIXED),
    (Double::Compound(BinOp::Add), Row, Int, FIXED),
    (Double::Compound(BinOp::Add), Zero, Record, PLACE),
];

/// Subscripts, whose elements keep their qualifiers: C11 6.5.2.1.
const SUBSCRIPTS: [(Double, Sample, Sample, Want); 10] = [
    (Double::Subscript, ToInt, Int, Ok(Int)),
    (Double::Subscript, Char, Row, Ok(Int)),
    (Double::Subscript, ToConstInt, ULong, Ok(ConstInt)),
    (Double::Subscript, ToRow, Enum, Ok(Row)),
    (Double::Subscript, ToFunction, Int, OPERAND),
    (Double::Subscript, Int, Int, OPERAND),
    (Double::Subscript, ToInt, ToInt, OPERAND),
    (Double::Subscript, ToInt, Record, OPERAND),
    (Double::Subscript, ToVoid, Int, INCOMPLETE),
    (Double::Subscript, Int, ToOpenRow, INCOMPLETE),
];

/// What a row answers.
fn answered(
    alloc: Global,
    row: &(Double, Sample, Sample, Want),
    kit: &Kit,
    t: &mut Types,
) -> Result<QualType, RuleStop> {
    let left = kit.operand(alloc, row.1)?;
    let right = kit.operand(alloc, row.2)?;
    answer(call_double(alloc, row.0, left, right, kit, t))
}

/// Each row of a table.
fn rows_are_met(
    rt: &impl Abort,
    alloc: Global,
    rows: &[(Double, Sample, Sample, Want)],
    kit: &Kit,
    t: &mut Types,
) {
    for row in rows {
        let got = answered(alloc, row, kit, t);
        equal(rt, &(row.0, row.1, row.2), &got, &wanted(kit, row.3));
    }
}

/// All tables, over the types of one unit.
fn tables_are_met(rt: &impl Abort, alloc: Global, kit: &Kit, t: &mut Types) {
    for rows in [
        NUMBERS.as_slice(),
        SUMS.as_slice(),
        COMPARISONS.as_slice(),
        SEQUENCES.as_slice(),
        BRANCHES.as_slice(),
        ASSIGNMENTS.as_slice(),
        COMPOUNDS.as_slice(),
        SUBSCRIPTS.as_slice(),
    ] {
        rows_are_met(rt, alloc, rows, kit, t);
    }
}

#[test]
fn operators_have_their_operands(rt: HostRuntime) -> Result<(), RuleStop> {
    let mut types = no_types(rt.alloc())?;
    let kit = Kit::new(rt.alloc(), &mut types)?;
    tables_are_met(&rt, rt.alloc(), &kit, &mut types);
    Ok(())
}
