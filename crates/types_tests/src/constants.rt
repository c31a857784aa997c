use crate::constants::Word::{N, U};
use crate::equal::equal;
use cil_base::{
    Abi, AggId, BinOp, Constant, EntityId, IntKind, LocalId, Memory, NameId, TypeId, UnOp,
};
use const_eval::{eval, is_constant_form};
use layout_lp64::LayoutStop;
use std::alloc::Global;
use std::process::Abort;
use type_graph::{AggKind, Member, Members, QualType, Quals};
use typed_tree::{Branches, Logic, TypedExp};
use unit_types::{Class, Types};

/// A part of an expression, written behind its operands.
#[derive(Clone, Copy)]
enum Word {
    /// An int constant.
    N(i128),
    /// An unsigned int constant.
    U(i128),
    /// An integer constant of a kind.
    C(IntKind, i128),
    /// An enumerator, converted to its enum.
    Enumerator(i128),
    /// An object or function of the unit.
    Of(Object),
    /// An automatic object.
    Automatic,
    Load,
    Decay,
    Address,
    Star,
    Subscript,
    Dot(u32),
    To(IntKind),
    ToPointer(IntKind),
    Un(UnOp),
    Bin(BinOp),
    Both(Logic),
    If,
    Comma,
}

/// The declarations of the unit in which the expressions stand:
///
///     struct pair { char c; int of[3]; };
///     int a[5]; struct pair p[2]; int i; extern int open[]; int f(void); int grid[2][3]; extern struct none missing;
#[derive(Clone, Copy)]
enum Object {
    A,
    P,
    I,
    Open,
    F,
    Grid,
    Missing,
}

impl Object {
    fn number(self) -> EntityId {
        match self {
            Object::A => A_NUMBER,
            Object::P => P_NUMBER,
            Object::I => I_NUMBER,
            Object::Open => OPEN_NUMBER,
            Object::F => F_NUMBER,
            Object::Grid => GRID_NUMBER,
            Object::Missing => MISSING_NUMBER,
        }
    }
}

const A_NUMBER: EntityId = EntityId(0);

const P_NUMBER: EntityId = EntityId(1);

const I_NUMBER: EntityId = EntityId(2);

const OPEN_NUMBER: EntityId = EntityId(3);

const F_NUMBER: EntityId = EntityId(4);

const GRID_NUMBER: EntityId = EntityId(5);

const MISSING_NUMBER: EntityId = EntityId(6);

fn plain(of: TypeId) -> QualType {
    QualType {
        quals: Quals {
            constant: false,
            restricted: false,
        },
        of,
    }
}

fn int(types: &mut Types) -> Result<TypeId, LayoutStop> {
    types.int(IntKind::Int)
}

/// Members of these types.
fn members_of(alloc: Global, parts: &[TypeId]) -> Result<Members, LayoutStop> {
    let mut members = Vec::new(alloc);
    for t in parts {
        if members
            .push(Member::named(NameId(t.0), plain(*t), 0))
            .is_err()
        {
            return Err(LayoutStop::Memory);
        }
    }
    Ok(Members::new(members))
}

/// Adds `struct pair`.
fn add_pair(alloc: Global, types: &mut Types) -> Result<(), LayoutStop> {
    types.add_agg(AggKind::Struct, None)?;
    let char = types.int(IntKind::Char)?;
    let int = types.int(IntKind::Int)?;
    let of = types.array(plain(int), Some(3))?;
    types.complete(AggId(0), members_of(alloc, &[char, of])?)
}

/// `struct pair`
fn pair(alloc: Global, types: &mut Types) -> Result<TypeId, LayoutStop> {
    if types.kind(AggId(0)).is_none() {
        add_pair(alloc, types)?;
    }
    types.aggregate(AggId(0))
}

/// `enum e`
fn an_enum(alloc: Global, types: &mut Types) -> Result<TypeId, LayoutStop> {
    pair(alloc, types)?;
    if types.kind(AggId(1)).is_none() {
        types.add_agg(AggKind::Enum, None)?;
        types.add_agg(AggKind::Struct, None)?;
    }
    types.aggregate(AggId(1))
}

fn type_of(alloc: Global, types: &mut Types, object: Object) -> Result<TypeId, LayoutStop> {
    let int = int(types)?;
    match object {
        Object::A => types.array(plain(int), Some(5)),
        Object::P => {
            let pair = pair(alloc, types)?;
            types.array(plain(pair), Some(2))
        }
        Object::I => Ok(int),
        Object::Open => types.array(plain(int), None),
        Object::F => types.function(int, Vec::new(alloc), true, false),
        Object::Grid => {
            let row = types.array(plain(int), Some(3))?;
            types.array(plain(row), Some(2))
        }
        Object::Missing => {
            an_enum(alloc, types)?;
            types.aggregate(AggId(2))
        }
    }
}

/// The type of what an expression of this pointer or array type points to.
fn target(types: &Types, ty: QualType) -> QualType {
    match types.class(ty.of) {
        Class::Ptr(to) => to,
        Class::Array(of, _) => of,
        _ => ty,
    }
}

fn is_pointer(types: &Types, ty: QualType) -> bool {
    matches!(types.class(ty.of), Class::Ptr(_))
}

/// The type of a binary operator's value.
fn result(
    types: &mut Types,
    op: BinOp,
    left: QualType,
    right: QualType,
) -> Result<TypeId, LayoutStop> {
    match op {
        BinOp::Lt | BinOp::Gt | BinOp::Le | BinOp::Ge | BinOp::Eq | BinOp::Ne => int(types),
        _ => if is_pointer(types, right) {
            if is_pointer(types, left) {
                types.int(IntKind::Long)
            } else {
                Ok(right.of)
            }
        } else {
            Ok(left.of)
        },
    }
}

/// The type of a word without operands.
fn leaf_type(alloc: Global, types: &mut Types, word: Word) -> Result<TypeId, LayoutStop> {
    match word {
        Word::U(_) => types.int(IntKind::UInt),
        Word::C(kind, _) => types.int(kind),
        Word::Enumerator(_) => an_enum(alloc, types),
        Word::Of(object) => type_of(alloc, types, object),
        _ => int(types),
    }
}

/// A word without operands, of a type.
fn leaf(alloc: Global, word: Word, of: TypeId) -> Result<TypedExp, Memory> {
    match word {
        Word::N(n) => typed_tree::integer(alloc, of, n),
        Word::U(n) => typed_tree::integer(alloc, of, n),
        Word::C(_, n) => typed_tree::integer(alloc, of, n),
        Word::Enumerator(n) => typed_tree::integer(alloc, of, n),
        Word::Of(object) => typed_tree::entity(alloc, plain(of), object.number()),
        _ => typed_tree::local(alloc, plain(of), LocalId(0)),
    }
}

/// The type to which an array or a function decays.
fn decayed(types: &mut Types, ty: QualType) -> Result<TypeId, LayoutStop> {
    match types.class(ty.of) {
        Class::Array(of, _) => types.pointer(of),
        _ => types.pointer(ty),
    }
}

/// The type of pointers to integers of a kind.
fn pointer_to(types: &mut Types, kind: IntKind) -> Result<TypeId, LayoutStop> {
    let to = types.int(kind)?;
    types.pointer(plain(to))
}

/// The type of a member of `struct pair`, or of the operand where there is none.
fn member_type(types: &Types, i: u32, ty: QualType) -> QualType {
    match types.member(AggId(0), i as usize) {
        Some(member) => member.ty,
        None => ty,
    }
}

/// The type that a word with one operand, of this type, has itself, but for its qualifiers.
fn type_on_one(types: &mut Types, word: Word, ty: QualType) -> Result<TypeId, LayoutStop> {
    match word {
        Word::Decay => decayed(types, ty),
        Word::Address => types.pointer(ty),
        Word::To(kind) => types.int(kind),
        Word::ToPointer(kind) => pointer_to(types, kind),
        Word::Un(UnOp::Not) => int(types),
        _ => Ok(ty.of),
    }
}

/// The type of the place that a word with one operand, of this type, makes of it.
fn place_on_one(types: &Types, word: Word, ty: QualType) -> QualType {
    match word {
        Word::Star => target(types, ty),
        Word::Dot(i) => member_type(types, i, ty),
        _ => ty,
    }
}

/// A word that takes one operand: as a value it has one type, as a place the other.
fn built_on_one(
    alloc: Global,
    word: Word,
    of: TypeId,
    place: QualType,
    e: TypedExp,
) -> Result<TypedExp, Memory> {
    match word {
        Word::Load => typed_tree::load(alloc, e),
        Word::Decay => typed_tree::decay(alloc, of, e),
        Word::Address => typed_tree::address(alloc, of, e),
        Word::Star => typed_tree::indirect(alloc, place, e),
        Word::Dot(i) => typed_tree::member(alloc, place, e, AggId(0), i),
        Word::To(_) | Word::ToPointer(_) => typed_tree::convert(alloc, of, e),
        Word::Un(op) => typed_tree::unary(alloc, of, op, e),
        _ => Ok(e),
    }
}

/// The type of a word that takes two operands of these types; a comma is not asked for it.
fn type_on_two(
    types: &mut Types,
    word: Word,
    left: QualType,
    right: QualType,
) -> Result<QualType, LayoutStop> {
    match word {
        Word::Bin(op) => Ok(plain(result(types, op, left, right)?)),
        Word::Both(_) => Ok(plain(int(types)?)),
        _ => if is_pointer(types, left) {
            Ok(target(types, left))
        } else {
            Ok(target(types, right))
        },
    }
}

/// A word that takes two operands, of a type.
fn built_on_two(
    alloc: Global,
    word: Word,
    ty: QualType,
    left: TypedExp,
    right: TypedExp,
) -> Result<TypedExp, Memory> {
    match word {
        Word::Bin(op) => typed_tree::binary(alloc, ty.of, op, left, right),
        Word::Subscript => typed_tree::subscript(alloc, ty, left, right),
        Word::Both(op) => typed_tree::logical(alloc, ty.of, op, left, right),
        _ => typed_tree::comma(alloc, left, right),
    }
}

/// How many operands a word takes.
fn arity(word: Word) -> usize {
    match word {
        Word::N(_)
        | Word::U(_)
        | Word::C(..)
        | Word::Enumerator(_)
        | Word::Of(_)
        | Word::Automatic => 0,
        Word::Load
        | Word::Decay
        | Word::Address
        | Word::Star
        | Word::Dot(_)
        | Word::To(_)
        | Word::ToPointer(_)
        | Word::Un(_) => 1,
        Word::Subscript | Word::Bin(_) | Word::Both(_) | Word::Comma => 2,
        Word::If => 3,
    }
}

fn popped(stack: &mut Vec<TypedExp>) -> Result<TypedExp, LayoutStop> {
    match stack.pop() {
        Some(e) => Ok(e),
        None => Err(LayoutStop::Memory),
    }
}

fn boxed(alloc: Global, holds: TypedExp, fails: TypedExp) -> Result<Box<Branches>, Memory> {
    Ok(Box::new(alloc, Branches { holds, fails })?)
}

fn pushed(stack: &mut Vec<TypedExp>, e: TypedExp) -> Result<(), Memory> {
    stack.push(e)?;
    Ok(())
}

/// A word that takes the last expression.
fn on_one(
    alloc: Global,
    types: &mut Types,
    word: Word,
    stack: &mut Vec<TypedExp>,
) -> Result<TypedExp, LayoutStop> {
    let e = popped(stack)?;
    let ty = e.ty();
    let of = type_on_one(types, word, ty)?;
    Ok(built_on_one(alloc, word, of, place_on_one(types, word, ty), e)?)
}

/// A word that takes the last two expressions.
fn on_two(
    alloc: Global,
    types: &mut Types,
    word: Word,
    stack: &mut Vec<TypedExp>,
) -> Result<TypedExp, LayoutStop> {
    let right = popped(stack)?;
    let left = popped(stack)?;
    let ty = type_on_two(types, word, left.ty(), right.ty())?;
    Ok(built_on_two(alloc, word, ty, left, right)?)
}

/// A conditional of the last three expressions.
fn on_three(alloc: Global, stack: &mut Vec<TypedExp>) -> Result<TypedExp, LayoutStop> {
    let fails = popped(stack)?;
    let holds = popped(stack)?;
    let of = holds.ty().of;
    let branches = boxed(alloc, holds, fails)?;
    let test = popped(stack)?;
    Ok(typed_tree::conditional(alloc, of, test, branches)?)
}

/// A word without operands.
fn on_none(alloc: Global, types: &mut Types, word: Word) -> Result<TypedExp, LayoutStop> {
    let of = leaf_type(alloc, types, word)?;
    Ok(leaf(alloc, word, of)?)
}

/// Takes a word's operands off the stack, and puts what it makes of them there.
fn put(
    alloc: Global,
    types: &mut Types,
    word: Word,
    stack: &mut Vec<TypedExp>,
) -> Result<(), LayoutStop> {
    let made = match arity(word) {
        0 => on_none(alloc, types, word),
        1 => on_one(alloc, types, word, stack),
        2 => on_two(alloc, types, word, stack),
        _ => on_three(alloc, stack),
    };
    Ok(pushed(stack, made?)?)
}

/// The last of the expressions that the words write.
fn last_read(
    alloc: Global,
    types: &mut Types,
    words: &[Word],
    stack: &mut Vec<TypedExp>,
) -> Result<TypedExp, LayoutStop> {
    for word in words {
        put(alloc, types, *word, stack)?;
    }
    popped(stack)
}

/// The expression that the words write.
fn read(alloc: Global, types: &mut Types, words: &[Word]) -> Result<TypedExp, LayoutStop> {
    let mut stack = Vec::new(alloc);
    last_read(alloc, types, words, &mut stack)
}

const INT: IntKind = IntKind::Int;

const UINT: IntKind = IntKind::UInt;

const ULONG: IntKind = IntKind::ULong;

const PLUS: Word = Word::Bin(BinOp::Add);

const MINUS: Word = Word::Bin(BinOp::Sub);

const OVER: Word = Word::Bin(BinOp::Div);

const REST: Word = Word::Bin(BinOp::Rem);

const LEFT: Word = Word::Bin(BinOp::Shl);

const RIGHT: Word = Word::Bin(BinOp::Shr);

const LESS: Word = Word::Bin(BinOp::Lt);

const EQUAL: Word = Word::Bin(BinOp::Eq);

const NEG: Word = Word::Un(UnOp::Neg);

const COMPL: Word = Word::Un(UnOp::Compl);

const NOT: Word = Word::Un(UnOp::Not);

const AND: Word = Word::Both(Logic::And);

const OR: Word = Word::Both(Logic::Or);

const DECAY: Word = Word::Decay;

const AT: Word = Word::Subscript;

const OF: Word = Word::Address;

const POINTER: Word = Word::ToPointer(INT);

const ARRAY: Word = Word::Of(Object::A);

const PAIRS: Word = Word::Of(Object::P);

const GRID: Word = Word::Of(Object::Grid);

const SCALAR: Word = Word::Of(Object::I);

/// The constant of what the words write.
fn constant_of(
    alloc: Global,
    types: &mut Types,
    words: &[Word],
) -> Result<Option<Constant>, LayoutStop> {
    let e = read(alloc, types, words)?;
    Ok(eval(&e, types))
}

/// Each row holds words and the constant of what they write, if it has one.
fn rows_are_met(
    rt: &impl Abort,
    alloc: Global,
    types: &mut Types,
    rows: &[(&[Word], Option<Constant>)],
) -> Result<(), LayoutStop> {
    for (number, (words, expected)) in rows.iter().enumerate() {
        let found = constant_of(alloc, types, words)?;
        equal(rt, &number, &found, expected);
    }
    Ok(())
}

/// The values are those that gcc 12 gives; there is none where it finds an overflow or a zero divisor.
const INTEGERS: &[(&[Word], Option<Constant>)] = &[
    (&[N(7), N(2), OVER], Some(Constant::Int(INT, 3))),
    (&[N(-7), N(2), OVER], Some(Constant::Int(INT, -3))),
    (&[N(-7), N(2), REST], Some(Constant::Int(INT, -1))),
    (&[N(7), N(0), OVER], None),
    (&[N(2147483647), N(1), PLUS], None),
    (&[U(4294967295), U(1), PLUS], Some(Constant::Int(UINT, 0))),
    (&[N(1), N(30), LEFT], Some(Constant::Int(INT, 1073741824))),
    (&[N(1), N(31), LEFT], None),
    (&[N(1), N(32), RIGHT], None),
    (&[U(1), N(31), LEFT], Some(Constant::Int(UINT, 2147483648))),
    (&[N(1), Word::C(ULONG, 4294967296), LEFT], None),
    (&[U(1), Word::C(IntKind::Long, 4294967299), LEFT], None),
    (&[N(-9), N(1), RIGHT], Some(Constant::Int(INT, -5))),
    (&[N(-2147483648), N(-1), OVER], None),
    (&[N(-2147483648), N(-1), REST], None),
    (
        &[N(-1), Word::To(UINT), U(1), LESS],
        Some(Constant::Int(INT, 0)),
    ),
    (&[N(-1), N(1), LESS], Some(Constant::Int(INT, 1))),
    (&[N(-2147483648), NEG], None),
    (&[U(1), NEG], Some(Constant::Int(UINT, 4294967295))),
    (&[N(0), COMPL], Some(Constant::Int(INT, -1))),
    (&[U(0), COMPL], Some(Constant::Int(UINT, 4294967295))),
    (&[Word::C(ULONG, 5), NOT], Some(Constant::Int(INT, 0))),
    (&[Word::C(ULONG, 0), NOT], Some(Constant::Int(INT, 1))),
];

/// What gcc 12 gives for casts, and what it does not evaluate.
const CONVERSIONS: &[(&[Word], Option<Constant>)] = &[
    (
        &[N(200), Word::To(IntKind::Char)],
        Some(Constant::Int(IntKind::Char, -56)),
    ),
    (
        &[N(256), Word::To(IntKind::Bool)],
        Some(Constant::Int(IntKind::Bool, 1)),
    ),
    (
        &[N(-1), Word::To(IntKind::UChar)],
        Some(Constant::Int(IntKind::UChar, 255)),
    ),
    (
        &[U(4294967295), Word::To(INT)],
        Some(Constant::Int(INT, -1)),
    ),
    (
        &[N(-1), Word::To(ULONG)],
        Some(Constant::Int(ULONG, 18446744073709551615)),
    ),
    (
        &[Word::Enumerator(3), Word::To(INT), N(4), PLUS],
        Some(Constant::Int(INT, 7)),
    ),
    (&[Word::Enumerator(3)], Some(Constant::Int(INT, 3))),
    (&[N(0), N(1), N(0), OVER, AND], Some(Constant::Int(INT, 0))),
    (&[N(2), N(1), N(0), OVER, AND], None),
    (&[N(2), N(3), AND], Some(Constant::Int(INT, 1))),
    (
        &[N(2), Word::Automatic, Word::Load, OR],
        Some(Constant::Int(INT, 1)),
    ),
    (&[N(0), Word::Automatic, Word::Load, OR], None),
    (&[N(0), N(0), OR], Some(Constant::Int(INT, 0))),
    (
        &[N(1), N(2), N(1), N(0), OVER, Word::If],
        Some(Constant::Int(INT, 2)),
    ),
    (&[N(0), N(2), N(1), N(0), OVER, Word::If], None),
    (
        &[N(0), Word::Automatic, Word::Load, N(3), Word::If],
        Some(Constant::Int(INT, 3)),
    ),
    (&[Word::Automatic, Word::Load, N(2), N(3), Word::If], None),
    (&[N(1), N(2), Word::Comma], None),
    (&[Word::Of(Object::I), Word::Load], None),
];

/// The offsets are those that gcc 12 writes for static objects.
const ADDRESSES: &[(&[Word], Option<Constant>)] = &[
    (&[ARRAY, DECAY], Some(Constant::Address(A_NUMBER, 0))),
    (
        &[ARRAY, DECAY, N(2), AT, OF],
        Some(Constant::Address(A_NUMBER, 8)),
    ),
    (
        &[N(3), ARRAY, DECAY, AT, OF],
        Some(Constant::Address(A_NUMBER, 12)),
    ),
    (
        &[ARRAY, DECAY, N(5), PLUS],
        Some(Constant::Address(A_NUMBER, 20)),
    ),
    (
        &[N(5), ARRAY, DECAY, PLUS],
        Some(Constant::Address(A_NUMBER, 20)),
    ),
    (
        &[ARRAY, DECAY, N(5), AT, OF, N(5), MINUS],
        Some(Constant::Address(A_NUMBER, 0)),
    ),
    (
        &[PAIRS, DECAY, N(1), AT, Word::Dot(1), DECAY, N(2), AT, OF],
        Some(Constant::Address(P_NUMBER, 28)),
    ),
    (
        &[PAIRS, DECAY, N(1), PLUS, Word::Star, Word::Dot(1), DECAY],
        Some(Constant::Address(P_NUMBER, 20)),
    ),
    (
        &[PAIRS, DECAY, N(2), AT, OF],
        Some(Constant::Address(P_NUMBER, 32)),
    ),
    (
        &[PAIRS, DECAY, N(2), AT, Word::Dot(0), OF],
        Some(Constant::Address(P_NUMBER, 32)),
    ),
    (
        &[GRID, DECAY, N(1), AT, DECAY, N(2), AT, OF],
        Some(Constant::Address(GRID_NUMBER, 20)),
    ),
    (&[GRID, OF], Some(Constant::Address(GRID_NUMBER, 0))),
    (
        &[
            Word::Of(Object::I),
            OF,
            Word::ToPointer(IntKind::Char),
            N(4),
            PLUS,
        ],
        Some(Constant::Address(I_NUMBER, 4)),
    ),
    (
        &[Word::Of(Object::Open), DECAY, N(536870911), PLUS],
        Some(Constant::Address(OPEN_NUMBER, 2147483644)),
    ),
    (
        &[Word::Of(Object::Missing), OF],
        Some(Constant::Address(MISSING_NUMBER, 0)),
    ),
    (
        &[N(1), ARRAY, DECAY, N(0), Word::ToPointer(INT), Word::If],
        Some(Constant::Address(A_NUMBER, 0)),
    ),
    (
        &[Word::Of(Object::F), DECAY],
        Some(Constant::Function(F_NUMBER)),
    ),
    (
        &[Word::Of(Object::F), OF, Word::Star, OF],
        Some(Constant::Function(F_NUMBER)),
    ),
    (
        &[Word::Of(Object::F), DECAY, Word::ToPointer(INT)],
        Some(Constant::Function(F_NUMBER)),
    ),
];

/// Steps that leave their object, numbers as pointers, and what is asked of an address besides (own).
const NO_ADDRESSES: &[(&[Word], Option<Constant>)] = &[
    (&[ARRAY, DECAY, N(6), PLUS], None),
    (&[ARRAY, DECAY, N(1), MINUS], None),
    (&[ARRAY, DECAY, N(6), PLUS, N(1), MINUS], None),
    (&[ARRAY, DECAY, N(-1), AT, OF], None),
    (
        &[ARRAY, DECAY, Word::C(ULONG, 18446744073709551615), PLUS],
        None,
    ),
    (&[PAIRS, DECAY, N(2), AT, Word::Dot(1), DECAY], None),
    (&[Word::Of(Object::Open), DECAY, N(536870912), PLUS], None),
    (
        &[SCALAR, OF, Word::ToPointer(IntKind::Char), N(5), PLUS],
        None,
    ),
    (&[N(5), POINTER], Some(Constant::Int(ULONG, 5))),
    (
        &[N(-1), POINTER],
        Some(Constant::Int(ULONG, 18446744073709551615)),
    ),
    (
        &[N(0), POINTER, Word::Star, OF],
        Some(Constant::Int(ULONG, 0)),
    ),
    (&[N(0), POINTER, N(0), PLUS], None),
    (&[N(0), POINTER, Word::To(IntKind::Long)], None),
    (&[N(0), POINTER, NOT], None),
    (&[SCALAR, OF, Word::To(IntKind::Long)], None),
    (&[SCALAR, OF, Word::To(IntKind::Bool)], None),
    (&[SCALAR, OF, SCALAR, OF, EQUAL], None),
    (&[SCALAR, OF, NOT], None),
    (&[ARRAY, DECAY, ARRAY, DECAY, MINUS], None),
    (&[ARRAY, DECAY, N(1), N(2), Word::If], None),
    (&[Word::Automatic, OF], None),
    (
        &[PAIRS, DECAY, N(1), AT, Word::Load, Word::Dot(1), DECAY],
        None,
    ),
];

fn constants_are_met(rt: &impl Abort, alloc: Global, types: &mut Types) -> Result<(), LayoutStop> {
    for rows in [INTEGERS, CONVERSIONS, ADDRESSES, NO_ADDRESSES] {
        rows_are_met(rt, alloc, types, rows)?;
    }
    Ok(())
}

#[test]
fn expressions_have_their_constants(rt: HostRuntime) -> Result<(), LayoutStop> {
    let mut types = Types::new(rt.alloc(), Abi::Lp64);
    constants_are_met(&rt, rt.alloc(), &mut types)
}

/// Whether an expression has the form of an integer constant expression (C11 6.6p6).
const FORMS: &[(&[Word], bool)] = &[
    (&[N(2147483647), N(1), PLUS], true),
    (&[N(1), NEG, Word::To(IntKind::Char), N(2), AND], true),
    (&[N(1), N(1), N(0), OVER, N(3), Word::If], true),
    (&[Word::Automatic, Word::Load, N(1), PLUS], false),
    (&[N(1), N(2), Word::Automatic, Word::Load, Word::If], true),
    (&[N(0), N(2), Word::Automatic, Word::Load, Word::If], false),
    (
        &[
            N(1),
            N(1),
            N(0),
            OVER,
            Word::Automatic,
            Word::Load,
            Word::If,
        ],
        true,
    ),
    (
        &[
            N(1),
            N(0),
            OVER,
            N(2),
            Word::Automatic,
            Word::Load,
            Word::If,
        ],
        false,
    ),
    (&[N(4), POINTER, Word::To(INT)], false),
    (&[N(1), N(2), Word::Comma], false),
];

/// Whether what the words write has that form.
fn has_form(alloc: Global, types: &mut Types, words: &[Word]) -> Result<bool, LayoutStop> {
    let e = read(alloc, types, words)?;
    Ok(is_constant_form(&e, types))
}

fn forms_are_told(rt: &impl Abort, alloc: Global, types: &mut Types) -> Result<(), LayoutStop> {
    for (number, (words, expected)) in FORMS.iter().enumerate() {
        let found = has_form(alloc, types, words)?;
        equal(rt, &number, &found, expected);
    }
    Ok(())
}

#[test]
fn integer_constant_expressions_are_told_by_their_form(rt: HostRuntime) -> Result<(), LayoutStop> {
    let mut types = Types::new(rt.alloc(), Abi::Lp64);
    forms_are_told(&rt, rt.alloc(), &mut types)
}
