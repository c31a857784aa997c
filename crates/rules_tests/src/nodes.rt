use crate::equal::equal;
use crate::forms::{Want, answer, wanted};
use crate::kit::Sample::{self, *};
use crate::kit::{Kit, made, no_types};
use cast_rules::{
    Operand, address, align_of, binary, call, cast, conditional, first_unassignable, indirect,
    member, size_of, subscript, value,
};
use cil_base::{BinOp, Code, EntityId, Fault, RuleStop, TypeId};
use std::alloc::Global;
use std::process::Abort;
use type_graph::{QualType, unqualified};
use typed_tree::{TypedExp, TypedNode};
use unit_types::Types;

/// Constraints that rows violate.
const INCOMPLETE: Want = Err(Code::Incomplete);

const PLACE: Want = Err(Code::NotLvalue);

const OPERAND: Want = Err(Code::Operand);

const ASSIGNMENT: Want = Err(Code::Assignment);

/// Whether an expression is a conversion.
fn is_conversion(e: &TypedExp) -> bool {
    matches!(e.node(), TypedNode::Convert(_))
}

/// Whether each of a binary operator's operands is a conversion.
fn conversions(e: &TypedExp) -> (bool, bool) {
    match e.node() {
        TypedNode::Binary(_, left, right) => (is_conversion(left), is_conversion(right)),
        _ => (false, false),
    }
}

/// Binary operators, and which of their operands are converted: where their types change, the qualifiers of what they point to aside.
const CONVERTED: [(BinOp, Sample, Sample, (bool, bool)); 14] = [
    (BinOp::Add, Char, Int, (true, false)),
    (BinOp::Add, ConstInt, Int, (false, false)),
    (BinOp::Add, Int, Enum, (false, true)),
    (BinOp::Mul, Char, Bool, (true, true)),
    (BinOp::Lt, Int, UInt, (true, false)),
    (BinOp::Shl, Char, Long, (true, false)),
    (BinOp::Add, ToInt, Char, (false, true)),
    (BinOp::Add, UInt, ToInt, (false, false)),
    (BinOp::Sub, ToInt, ToConstInt, (false, false)),
    (BinOp::Sub, ToEnum, ToInt, (false, true)),
    (BinOp::Eq, ToInt, ToVoid, (true, false)),
    (BinOp::Eq, ToInt, Null, (false, true)),
    (BinOp::Eq, Zero, ToFunction, (true, false)),
    (BinOp::Eq, ToOpenRow, ToRow, (true, false)),
];

/// Which operands of a binary operator are converted.
fn converted(
    alloc: Global,
    row: &(BinOp, Sample, Sample, (bool, bool)),
    kit: &Kit,
    t: &mut Types,
) -> Result<(bool, bool), RuleStop> {
    let left = kit.operand(alloc, row.1)?;
    let right = kit.operand(alloc, row.2)?;
    let e = binary(alloc, row.0, left, right, t)?;
    Ok(conversions(&e))
}

fn operands_are_converted(rt: &impl Abort, alloc: Global, kit: &Kit, t: &mut Types) {
    for row in &CONVERTED {
        let found = converted(alloc, row, kit, t);
        equal(rt, &(row.0, row.1, row.2), &found, &Ok(row.3));
    }
}

/// The type of a conditional.
fn chosen(
    alloc: Global,
    test: Sample,
    last: Sample,
    kit: &Kit,
    t: &mut Types,
) -> Result<QualType, RuleStop> {
    let test = kit.operand(alloc, test)?;
    let left = kit.operand(alloc, Int)?;
    let right = kit.operand(alloc, last)?;
    answer(conditional(alloc, test, left, right, t))
}

/// The first operand of a conditional is scalar (C11 6.5.15p2); what cannot be read comes before.
fn conditionals_test_a_scalar(rt: &impl Abort, alloc: Global, kit: &Kit, t: &mut Types) {
    for (test, last, want) in [
        (Record, Int, OPERAND),
        (Void, Int, OPERAND),
        (Record, Open, INCOMPLETE),
        (Function, Char, Ok(Int)),
    ] {
        let got = chosen(alloc, test, last, kit, t);
        equal(rt, &(test, last), &got, &wanted(kit, want));
    }
}

/// Whether a cast is a node.
fn is_cast(
    alloc: Global,
    to: Sample,
    of: Sample,
    kit: &Kit,
    t: &mut Types,
) -> Result<bool, RuleStop> {
    let to = kit.ty(to)?;
    let e = kit.operand(alloc, of)?;
    let e = cast(alloc, to.of, e, t)?;
    Ok(is_conversion(&e))
}

/// A cast is a node where it changes the type, and always where it is to void (C11 6.5.4p5).
fn casts_are_nodes(rt: &impl Abort, alloc: Global, kit: &Kit, t: &mut Types) {
    for (a, b, node) in [
        (Int, ConstInt, false),
        (Int, Enum, true),
        (ToInt, ToConstInt, true),
    ] {
        equal(rt, &(a, b), &is_cast(alloc, a, b, kit, t), &Ok(node));
    }
}

/// What `& ( void ) * p` answers.
fn cast_to_void(alloc: Global, kit: &Kit, t: &mut Types) -> Result<QualType, RuleStop> {
    let void = kit.ty(Void)?;
    let p = kit.operand(alloc, ToVoid)?;
    let e = indirect(alloc, p, t)?;
    let e = cast(alloc, void.of, Operand::plain(e), t)?;
    answer(address(alloc, Operand::plain(e), t))
}

/// `& ( void ) * p` has no lvalue (C11 6.5.4p5).
fn casts_give_no_lvalue(rt: &impl Abort, alloc: Global, kit: &Kit, t: &mut Types) {
    casts_are_nodes(rt, alloc, kit, t);
    let got = cast_to_void(alloc, kit, t);
    equal(rt, &"& ( void ) * p", &got, &wanted(kit, PLACE));
}

/// The number that a constant holds, or why there is none.
fn number(r: Result<TypedExp, RuleStop>) -> Result<i128, RuleStop> {
    let e = r?;
    match e.node() {
        TypedNode::Integer(n) => Ok(*n),
        _ => Err(RuleStop::Memory),
    }
}

const NO_SIZE: Result<i128, RuleStop> = Err(RuleStop::Bad(Fault::Constraint(Code::Incomplete)));

const NO_OBJECT: Result<i128, RuleStop> = Err(RuleStop::Bad(Fault::Constraint(Code::Operand)));

/// Types, their sizes and their alignments.
const SIZES: [(Sample, [Result<i128, RuleStop>; 2]); 8] = [
    (Char, [Ok(1), Ok(1)]),
    (Enum, [Ok(4), Ok(4)]),
    (ToVoid, [Ok(8), Ok(8)]),
    (Row, [Ok(12), Ok(4)]),
    (Record, [Ok(8), Ok(4)]),
    (Void, [NO_SIZE, NO_SIZE]),
    (Open, [NO_SIZE, NO_SIZE]),
    (Function, [NO_OBJECT, NO_OBJECT]),
];

fn size_and_align(alloc: Global, of: TypeId, t: &mut Types) -> [Result<i128, RuleStop>; 2] {
    [
        number(size_of(alloc, of, t)),
        number(align_of(alloc, of, t)),
    ]
}

/// C11 6.5.3.4; the figures are those of the data model.
fn sizes_are_those_of_types(
    rt: &impl Abort,
    alloc: Global,
    kit: &Kit,
    t: &mut Types,
) -> Result<(), RuleStop> {
    for (a, sizes) in &SIZES {
        let of = kit.ty(*a)?.of;
        equal(rt, a, &size_and_align(alloc, of, t), sizes);
    }
    let char = kit.ty(Char)?.of;
    let got = answer(size_of(alloc, char, t));
    equal(rt, &"size_t", &got, &kit.ty(ULong));
    Ok(())
}

/// The type of an expression, and whether it is an lvalue.
fn told(r: Result<TypedExp, RuleStop>) -> Result<(QualType, bool), RuleStop> {
    match r {
        Ok(e) => Ok((e.ty(), e.is_place())),
        Err(stop) => Err(stop),
    }
}

/// A member of an lvalue.
fn member_told(
    alloc: Global,
    of: Sample,
    kit: &Kit,
    t: &mut Types,
) -> Result<(QualType, bool), RuleStop> {
    let record = kit.operand(alloc, of)?;
    told(member(alloc, record, kit.record, 0, t))
}

/// A member of a value.
fn member_of_value(alloc: Global, kit: &Kit, t: &mut Types) -> Result<(QualType, bool), RuleStop> {
    let record = kit.operand(alloc, ConstRecord)?;
    let record = value(alloc, record, t)?;
    told(member(alloc, Operand::plain(record), kit.record, 0, t))
}

/// C11 6.5.2.3p3: a member of an lvalue has its qualifiers too, in an array those of the elements; a member of a value is no lvalue.
fn members_have_both_qualifiers(
    rt: &impl Abort,
    alloc: Global,
    kit: &Kit,
    t: &mut Types,
) -> Result<(), RuleStop> {
    let int = kit.ty(Int)?;
    for (of, want) in [(Record, Int), (ConstRecord, ConstInt)] {
        let want = kit.ty(want)?;
        equal(rt, &of, &member_told(alloc, of, kit, t), &Ok((want, true)));
    }
    let found = member_of_value(alloc, kit, t);
    equal(rt, &"of a value", &found, &Ok((int, false)));
    Ok(())
}

/// An element of the array member of a struct.
fn element_told(
    alloc: Global,
    record: Operand,
    kit: &Kit,
    t: &mut Types,
) -> Result<(QualType, bool), RuleStop> {
    let text = member(alloc, record, kit.record, 1, t)?;
    let index = kit.operand(alloc, Int)?;
    told(subscript(alloc, Operand::plain(text), index, t))
}

fn element_of_place(alloc: Global, kit: &Kit, t: &mut Types) -> Result<(QualType, bool), RuleStop> {
    let place = kit.operand(alloc, ConstRecord)?;
    element_told(alloc, place, kit, t)
}

fn element_of_value(alloc: Global, kit: &Kit, t: &mut Types) -> Result<(QualType, bool), RuleStop> {
    let place = kit.operand(alloc, ConstRecord)?;
    let read = value(alloc, place, t)?;
    element_told(alloc, Operand::plain(read), kit, t)
}

/// The element of an array member, of an lvalue and of a value, is an lvalue (C11 6.2.4p8, 6.3.2.1p3); that of a const struct is const
/// (6.7.3p9).
fn elements_of_members_are_lvalues(
    rt: &impl Abort,
    alloc: Global,
    kit: &Kit,
    t: &mut Types,
) -> Result<(), RuleStop> {
    let char = kit.ty(Char)?.of;
    let (place, is_place) = element_of_place(alloc, kit, t)?;
    let (read, is_also) = element_of_value(alloc, kit, t)?;
    let found = [
        (is_place, place.quals.constant, place.of),
        (is_also, read.quals.constant, read.of),
    ];
    equal(
        rt,
        &"elements",
        &found,
        &[(true, true, char), (true, false, char)],
    );
    Ok(())
}

/// Samples as arguments.
fn arguments(alloc: Global, kit: &Kit, samples: &[Sample]) -> Result<Vec<Operand>, RuleStop> {
    let mut done = Vec::new(alloc);
    for s in samples {
        done.push(kit.operand(alloc, *s)?)?;
    }
    Ok(done)
}

/// C11 6.5.2.2p1, p2: what is called, the arguments, the first one that may not be assigned, and the type.
const CALLS: [(Sample, &[Sample], Option<usize>, Want); 14] = [
    (Function, &[Long], None, Ok(Int)),
    (ToFunction, &[Enum], None, Ok(Int)),
    (ToUnprototyped, &[], None, Ok(Int)),
    (ToUnprototyped, &[Char, Row, Record], None, Ok(Int)),
    (Function, &[], None, Err(Code::Call)),
    (Function, &[Int, Int], None, Err(Code::Call)),
    (Int, &[Int], None, Err(Code::Call)),
    (ToInt, &[Void], None, Err(Code::Call)),
    (Function, &[Record], Some(0), ASSIGNMENT),
    (Function, &[ToInt, Int], Some(0), ASSIGNMENT),
    (Function, &[Int, Void], Some(1), ASSIGNMENT),
    (ToUnprototyped, &[Int, Void], Some(1), ASSIGNMENT),
    (Function, &[Open], Some(0), INCOMPLETE),
    (Int, &[Open], None, INCOMPLETE),
];

/// The first argument of a call that may not be assigned, and the type of the call.
fn called(
    alloc: Global,
    f: Sample,
    samples: &[Sample],
    kit: &Kit,
    t: &mut Types,
) -> Result<(Option<usize>, Result<QualType, RuleStop>), RuleStop> {
    let callee = kit.operand(alloc, f)?;
    let given = arguments(alloc, kit, samples)?;
    let first = first_unassignable(&callee, &given, t);
    Ok((first, answer(call(alloc, callee, given, t))))
}

fn calls_have_their_arguments(
    rt: &impl Abort,
    alloc: Global,
    kit: &Kit,
    t: &mut Types,
) -> Result<(), RuleStop> {
    for (number, (f, samples, first, want)) in CALLS.iter().enumerate() {
        let found = called(alloc, *f, samples, kit, t)?;
        equal(rt, &number, &found, &(*first, wanted(kit, *want)));
    }
    Ok(())
}

/// The types of a call's arguments.
fn argument_types(e: &TypedExp) -> (Option<TypeId>, Option<TypeId>) {
    match e.node() {
        TypedNode::Call(_, arguments) => {
            let first = arguments.get(0).map(|e| e.ty().of);
            let second = arguments.get(1).map(|e| e.ty().of);
            (first, second)
        }
        _ => (None, None),
    }
}

/// The types of the arguments of a call.
fn passed(
    alloc: Global,
    f: Operand,
    samples: &[Sample],
    kit: &Kit,
    t: &mut Types,
) -> Result<(Option<TypeId>, Option<TypeId>), RuleStop> {
    let given = arguments(alloc, kit, samples)?;
    let e = call(alloc, f, given, t)?;
    Ok(argument_types(&e))
}

/// `int f(char, ...)`
fn variadic(alloc: Global, kit: &Kit, t: &mut Types) -> Result<QualType, RuleStop> {
    let int = kit.ty(Int)?.of;
    let char = kit.ty(Char)?.of;
    let mut params = Vec::new(alloc);
    params.push(char)?;
    Ok(unqualified(made(t.function(int, params, true, true))?))
}

/// An operand of a function type.
fn function_of(alloc: Global, ty: QualType) -> Result<Operand, RuleStop> {
    let f = typed_tree::entity(alloc, ty, EntityId(0))?;
    Ok(Operand::plain(f))
}

/// `int f(char, ...)` with two arguments.
fn passed_variadic(
    alloc: Global,
    kit: &Kit,
    t: &mut Types,
) -> Result<(Option<TypeId>, Option<TypeId>), RuleStop> {
    let ty = variadic(alloc, kit, t)?;
    let f = function_of(alloc, ty)?;
    passed(alloc, f, &[Long, Short], kit, t)
}

/// `int g()` with two arguments.
fn passed_unprototyped(
    alloc: Global,
    kit: &Kit,
    t: &mut Types,
) -> Result<(Option<TypeId>, Option<TypeId>), RuleStop> {
    let g = kit.operand(alloc, ToUnprototyped)?;
    passed(alloc, g, &[Bool, Long], kit, t)
}

/// The type of a call without arguments.
fn called_with_none(alloc: Global, ty: QualType, t: &mut Types) -> Result<QualType, RuleStop> {
    let f = function_of(alloc, ty)?;
    answer(call(alloc, f, Vec::new(alloc), t))
}

/// `int f(char, ...)` and `int g()`: an argument is converted to its parameter's type, or promoted (C11 6.5.2.2p6, p7).
fn arguments_are_converted_or_promoted(
    rt: &impl Abort,
    alloc: Global,
    kit: &Kit,
    t: &mut Types,
) -> Result<(), RuleStop> {
    let [int, char, long] = [kit.ty(Int)?.of, kit.ty(Char)?.of, kit.ty(Long)?.of];
    let found = [
        passed_variadic(alloc, kit, t),
        passed_unprototyped(alloc, kit, t),
    ];
    equal(
        rt,
        &"arguments",
        &found,
        &[Ok((Some(char), Some(int))), Ok((Some(int), Some(long)))],
    );
    let ty = variadic(alloc, kit, t)?;
    let got = called_with_none(alloc, ty, t);
    equal(rt, &"no argument", &got, &wanted(kit, Err(Code::Call)));
    Ok(())
}

/// The type of a call of a function that returns a type.
fn returned(alloc: Global, ret: Sample, kit: &Kit, t: &mut Types) -> Result<QualType, RuleStop> {
    let ret = kit.ty(ret)?.of;
    let ty = made(t.function(ret, Vec::new(alloc), true, false))?;
    called_with_none(alloc, unqualified(ty), t)
}

/// A call's result is complete or void (C11 6.5.2.2p1).
fn results_are_complete_or_void(rt: &impl Abort, alloc: Global, kit: &Kit, t: &mut Types) {
    for (ret, want) in [(Open, INCOMPLETE), (Void, Ok(Void)), (Record, Ok(Record))] {
        let got = returned(alloc, ret, kit, t);
        equal(rt, &ret, &got, &wanted(kit, want));
    }
}

/// Operators, casts, sizes and members.
fn expressions_are_right(
    rt: &impl Abort,
    alloc: Global,
    kit: &Kit,
    t: &mut Types,
) -> Result<(), RuleStop> {
    operands_are_converted(rt, alloc, kit, t);
    conditionals_test_a_scalar(rt, alloc, kit, t);
    casts_give_no_lvalue(rt, alloc, kit, t);
    sizes_are_those_of_types(rt, alloc, kit, t)?;
    members_have_both_qualifiers(rt, alloc, kit, t)?;
    elements_of_members_are_lvalues(rt, alloc, kit, t)
}

/// Calls.
fn calls_are_right(
    rt: &impl Abort,
    alloc: Global,
    kit: &Kit,
    t: &mut Types,
) -> Result<(), RuleStop> {
    calls_have_their_arguments(rt, alloc, kit, t)?;
    arguments_are_converted_or_promoted(rt, alloc, kit, t)?;
    results_are_complete_or_void(rt, alloc, kit, t);
    Ok(())
}

/// All of these, over the types of one unit.
fn nodes_are_right(
    rt: &impl Abort,
    alloc: Global,
    kit: &Kit,
    t: &mut Types,
) -> Result<(), RuleStop> {
    expressions_are_right(rt, alloc, kit, t)?;
    calls_are_right(rt, alloc, kit, t)
}

#[test]
fn operators_have_their_nodes(rt: HostRuntime) -> Result<(), RuleStop> {
    let mut types = no_types(rt.alloc())?;
    let kit = Kit::new(rt.alloc(), &mut types)?;
    nodes_are_right(&rt, rt.alloc(), &kit, &mut types)
}
