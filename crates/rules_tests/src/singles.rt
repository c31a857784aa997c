use crate::equal::equal;
use crate::forms::{Single, Want, answer, call_single, wanted};
use crate::kit::Sample::{self, *};
use crate::kit::{Kit, no_types};
use cast_rules::{Operand, address, indirect};
use cil_base::{Code, RuleStop, UnOp};
use std::alloc::Global;
use std::process::Abort;
use type_graph::QualType;
use typed_tree::StepForm;
use unit_types::Types;

/// Constraints that rows violate.
const INCOMPLETE: Want = Err(Code::Incomplete);

const PLACE: Want = Err(Code::NotLvalue);

const FIXED: Want = Err(Code::NotModifiable);

const OPERAND: Want = Err(Code::Operand);

const ASSIGNMENT: Want = Err(Code::Assignment);

const CAST: Want = Err(Code::Cast);

const CONDITION: Want = Err(Code::Condition);

/// Unary operators: C11 6.5.3.3.
const UNARY: [(Single, Sample, Want); 14] = [
    (Single::Unary(UnOp::Neg), Char, Ok(Int)),
    (Single::Unary(UnOp::Neg), Bool, Ok(Int)),
    (Single::Unary(UnOp::Neg), UInt, Ok(UInt)),
    (Single::Unary(UnOp::Compl), Enum, Ok(Int)),
    (Single::Unary(UnOp::Compl), ULong, Ok(ULong)),
    (Single::Unary(UnOp::Not), ULong, Ok(Int)),
    (Single::Unary(UnOp::Not), ToInt, Ok(Int)),
    (Single::Unary(UnOp::Not), Row, Ok(Int)),
    (Single::Unary(UnOp::Not), Function, Ok(Int)),
    (Single::Unary(UnOp::Neg), ToInt, OPERAND),
    (Single::Unary(UnOp::Compl), Record, OPERAND),
    (Single::Unary(UnOp::Not), Record, OPERAND),
    (Single::Unary(UnOp::Not), Void, OPERAND),
    (Single::Unary(UnOp::Not), Open, INCOMPLETE),
];

/// `+`, the controlling expressions of `if` and `switch`, and what is read: C11 6.5.3.3p2, 6.8.4.1, 6.8.4.2, 6.3.2.1.
const VALUES: [(Single, Sample, Want); 40] = [
    (Single::Plus, Char, Ok(Int)),
    (Single::Plus, ConstInt, Ok(Int)),
    (Single::Plus, ULong, Ok(ULong)),
    (Single::Plus, Enum, Ok(Int)),
    (Single::Plus, ToInt, OPERAND),
    (Single::Plus, Row, OPERAND),
    (Single::Plus, Function, OPERAND),
    (Single::Plus, ConstRecord, OPERAND),
    (Single::Plus, Void, OPERAND),
    (Single::Plus, Open, INCOMPLETE),
    (Single::Test, Char, Ok(Char)),
    (Single::Test, ConstInt, Ok(Int)),
    (Single::Test, ULong, Ok(ULong)),
    (Single::Test, Enum, Ok(Enum)),
    (Single::Test, ToInt, Ok(ToInt)),
    (Single::Test, Row, Ok(ToInt)),
    (Single::Test, Function, Ok(ToFunction)),
    (Single::Test, ConstRecord, CONDITION),
    (Single::Test, Void, CONDITION),
    (Single::Test, Open, INCOMPLETE),
    (Single::Switch, Char, Ok(Int)),
    (Single::Switch, ConstInt, Ok(Int)),
    (Single::Switch, ULong, Ok(ULong)),
    (Single::Switch, Enum, Ok(Int)),
    (Single::Switch, ToInt, CONDITION),
    (Single::Switch, Row, CONDITION),
    (Single::Switch, Function, CONDITION),
    (Single::Switch, ConstRecord, CONDITION),
    (Single::Switch, Void, CONDITION),
    (Single::Switch, Open, INCOMPLETE),
    (Single::Value, Char, Ok(Char)),
    (Single::Value, ConstInt, Ok(Int)),
    (Single::Value, ULong, Ok(ULong)),
    (Single::Value, Enum, Ok(Enum)),
    (Single::Value, ToInt, Ok(ToInt)),
    (Single::Value, Row, Ok(ToInt)),
    (Single::Value, Function, Ok(ToFunction)),
    (Single::Value, ConstRecord, Ok(Record)),
    (Single::Value, Void, Ok(Void)),
    (Single::Value, Open, INCOMPLETE),
];

/// Steps, and the type in which they compute: C11 6.5.2.4, 6.5.3.1.
const STEPS: [(Single, Sample, Want); 14] = [
    (Single::Step(StepForm::PreIncrement), Char, Ok(Int)),
    (Single::Step(StepForm::PreDecrement), Bool, Ok(Int)),
    (Single::Step(StepForm::PostIncrement), Enum, Ok(Int)),
    (Single::Step(StepForm::PostDecrement), ULong, Ok(ULong)),
    (Single::Step(StepForm::PreIncrement), ToInt, Ok(ToInt)),
    (Single::Step(StepForm::PreDecrement), ToRow, Ok(ToRow)),
    (Single::Step(StepForm::PostIncrement), ToVoid, INCOMPLETE),
    (Single::Step(StepForm::PostDecrement), ToOpenRow, INCOMPLETE),
    (Single::Step(StepForm::PreIncrement), ToFunction, OPERAND),
    (Single::Step(StepForm::PreDecrement), Record, OPERAND),
    (Single::Step(StepForm::PostIncrement), ConstInt, FIXED),
    (Single::Step(StepForm::PostDecrement), Row, FIXED),
    (Single::Step(StepForm::PreIncrement), Function, PLACE),
    (Single::Step(StepForm::PreDecrement), Zero, PLACE),
];

/// `&` and `*`: C11 6.5.3.2.
const ADDRESSES: [(Single, Sample, Want); 21] = [
    (Single::Address, Int, Ok(ToInt)),
    (Single::Address, ConstInt, Ok(ToConstInt)),
    (Single::Address, Row, Ok(ToRow)),
    (Single::Address, Function, Ok(ToFunction)),
    (Single::Address, Open, Ok(ToOpen)),
    (Single::Address, Null, PLACE),
    (Single::Address, Zero, PLACE),
    (Single::Address, Void, PLACE),
    (Single::Indirect, Int, OPERAND),
    (Single::Indirect, ConstInt, OPERAND),
    (Single::Indirect, Row, Ok(Int)),
    (Single::Indirect, Function, Ok(Function)),
    (Single::Indirect, Open, INCOMPLETE),
    (Single::Indirect, Null, Ok(Void)),
    (Single::Indirect, Zero, OPERAND),
    (Single::Indirect, Void, OPERAND),
    (Single::Indirect, ToConstInt, Ok(ConstInt)),
    (Single::Indirect, ToVoid, Ok(Void)),
    (Single::Indirect, ToOpen, Ok(Open)),
    (Single::Indirect, ToFunction, Ok(Function)),
    (Single::Indirect, ToRow, Ok(Row)),
];

/// Casts: C11 6.5.4p2.
const CASTS: [(Single, Sample, Want); 15] = [
    (Single::Cast(Int), ToInt, Ok(Int)),
    (Single::Cast(ToInt), Char, Ok(ToInt)),
    (Single::Cast(ToInt), ToConstInt, Ok(ToInt)),
    (Single::Cast(ToFunction), ToVoid, Ok(ToFunction)),
    (Single::Cast(Bool), Row, Ok(Bool)),
    (Single::Cast(Enum), Long, Ok(Enum)),
    (Single::Cast(Void), Record, Ok(Void)),
    (Single::Cast(Void), Void, Ok(Void)),
    (Single::Cast(Record), Record, CAST),
    (Single::Cast(Int), Record, CAST),
    (Single::Cast(Int), Void, CAST),
    (Single::Cast(Row), Int, CAST),
    (Single::Cast(Function), ToFunction, CAST),
    (Single::Cast(Void), Open, INCOMPLETE),
    (Single::Cast(Record), Open, INCOMPLETE),
];

/// Conversions as by assignment: C11 6.5.16.1p1. To add qualifiers to what a pointer points to is no node.
const CONVERSIONS: [(Single, Sample, Want); 33] = [
    (Single::Convert(Char), Long, Ok(Char)),
    (Single::Convert(Enum), Int, Ok(Enum)),
    (Single::Convert(Int), Enum, Ok(Int)),
    (Single::Convert(Int), ToInt, ASSIGNMENT),
    (Single::Convert(Bool), ToInt, Ok(Bool)),
    (Single::Convert(Bool), Function, Ok(Bool)),
    (Single::Convert(Bool), Record, ASSIGNMENT),
    (Single::Convert(ToInt), Zero, Ok(ToInt)),
    (Single::Convert(ToInt), Null, Ok(ToInt)),
    (Single::Convert(ToInt), Int, ASSIGNMENT),
    (Single::Convert(ToInt), Row, Ok(ToInt)),
    (Single::Convert(ToInt), ToEnum, Ok(ToInt)),
    (Single::Convert(ToChar), ToInt, ASSIGNMENT),
    (Single::Convert(ToConstInt), ToInt, Ok(ToInt)),
    (Single::Convert(ToInt), ToConstInt, ASSIGNMENT),
    (Single::Convert(ToVoid), ToInt, Ok(ToVoid)),
    (Single::Convert(ToInt), ToVoid, Ok(ToInt)),
    (Single::Convert(ToVoid), ToConstInt, ASSIGNMENT),
    (Single::Convert(ToInt), ToConstVoid, ASSIGNMENT),
    (Single::Convert(ToConstVoid), ToConstInt, Ok(ToConstVoid)),
    (Single::Convert(ToVoid), ToOpen, Ok(ToVoid)),
    (Single::Convert(ToFunction), Function, Ok(ToFunction)),
    (Single::Convert(ToFunction), Null, Ok(ToFunction)),
    (Single::Convert(ToFunction), ToVoid, ASSIGNMENT),
    (Single::Convert(ToVoid), ToFunction, ASSIGNMENT),
    (Single::Convert(ToFunction), ToUnprototyped, ASSIGNMENT),
    (Single::Convert(ToRow), ToOpenRow, Ok(ToRow)),
    (Single::Convert(ToOpenRow), ToRow, Ok(ToOpenRow)),
    (Single::Convert(Record), ConstRecord, Ok(Record)),
    (Single::Convert(Record), Other, ASSIGNMENT),
    (Single::Convert(Int), Record, ASSIGNMENT),
    (Single::Convert(Int), Void, ASSIGNMENT),
    (Single::Convert(Int), Open, INCOMPLETE),
];

/// What a row answers.
fn answered(
    alloc: Global,
    row: &(Single, Sample, Want),
    kit: &Kit,
    t: &mut Types,
) -> Result<QualType, RuleStop> {
    let e = kit.operand(alloc, row.1)?;
    answer(call_single(alloc, row.0, e, kit, t))
}

/// Each row of a table.
fn rows_are_met(
    rt: &impl Abort,
    alloc: Global,
    rows: &[(Single, Sample, Want)],
    kit: &Kit,
    t: &mut Types,
) {
    for row in rows {
        let got = answered(alloc, row, kit, t);
        equal(rt, &(row.0, row.1), &got, &wanted(kit, row.2));
    }
}

/// What `& * p` answers.
fn undone(alloc: Global, a: Sample, kit: &Kit, t: &mut Types) -> Result<QualType, RuleStop> {
    let p = kit.operand(alloc, a)?;
    let e = indirect(alloc, p, t)?;
    answer(address(alloc, Operand::plain(e), t))
}

/// `& * p` is a pointer of p's type, whatever p points to (C11 6.5.3.2p3).
fn addresses_undo_indirections(rt: &impl Abort, alloc: Global, kit: &Kit, t: &mut Types) {
    for a in [ToConstInt, ToVoid, ToOpen, ToFunction, ToRow] {
        equal(rt, &a, &undone(alloc, a, kit, t), &kit.ty(a));
    }
}

/// What `&` of a `register` object answers.
fn of_register(alloc: Global, a: Sample, kit: &Kit, t: &mut Types) -> Result<QualType, RuleStop> {
    let mut e = kit.operand(alloc, a)?;
    e.register = true;
    answer(address(alloc, e, t))
}

/// `&` of a `register` object (C11 6.5.3.2p1); what is no lvalue comes before.
fn registers_have_no_address(rt: &impl Abort, alloc: Global, kit: &Kit, t: &mut Types) {
    for (a, want) in [(Int, Code::Register), (Zero, Code::NotLvalue)] {
        let got = of_register(alloc, a, kit, t);
        equal(rt, &a, &got, &wanted(kit, Err(want)));
    }
}

/// All tables, over the types of one unit.
fn tables_are_met(rt: &impl Abort, alloc: Global, kit: &Kit, t: &mut Types) {
    for rows in [
        UNARY.as_slice(),
        VALUES.as_slice(),
        STEPS.as_slice(),
        ADDRESSES.as_slice(),
        CASTS.as_slice(),
        CONVERSIONS.as_slice(),
    ] {
        rows_are_met(rt, alloc, rows, kit, t);
    }
    addresses_undo_indirections(rt, alloc, kit, t);
    registers_have_no_address(rt, alloc, kit, t);
}

#[test]
fn operators_have_their_operand(rt: HostRuntime) -> Result<(), RuleStop> {
    let mut types = no_types(rt.alloc())?;
    let kit = Kit::new(rt.alloc(), &mut types)?;
    tables_are_met(&rt, rt.alloc(), &kit, &mut types);
    Ok(())
}
