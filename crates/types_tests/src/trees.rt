use crate::equal::equal;
use cil_base::{AggId, BinOp, EntityId, LocalId, Memory, TypeId};
use std::alloc::Global;
use std::mem::size_of;
use std::process::Abort;
use type_graph::{QualType, unqualified};
use typed_tree::{
    Branches, Path, StepForm, TypedExp, TypedInit, TypedNode, TypedStmt, assign, binary, call,
    compound, compute, conditional, decay, declaration, entity, evaluation, initialiser, integer,
    literal, load, local, member, scalar_part, selection, step, subscript,
};

const INT: TypeId = TypeId(0);

const POINTER: TypeId = TypeId(1);

/// A part of an expression, written behind its operands.
#[derive(Clone, Copy)]
enum Word {
    /// The constant 2.
    Two,
    Local(TypeId, LocalId),
    Entity(TypeId, EntityId),
    Load,
    Decay,
    /// The member 1 of a struct.
    Member,
    /// `++` behind its operand.
    Next,
    Bin(BinOp),
    Assign,
    /// `*=`
    Doubled,
    Subscript,
    Choice,
    /// A call with one argument.
    Call,
}

/// The local `x`, an `int`.
const X: Word = Word::Local(INT, LocalId(3));

/// A local of a struct type.
const RECORD: Word = Word::Local(TypeId(3), LocalId(0));

/// An array.
const ARRAY: Word = Word::Entity(TypeId(2), EntityId(0));

/// A function.
const FUNCTION: Word = Word::Entity(TypeId(4), EntityId(1));

const ADD: Word = Word::Bin(BinOp::Add);

/// What a builder makes: whether an effect stands in it, and whether it is a place.
struct Row {
    name: &'static str,
    words: &'static [Word],
    effect: bool,
    place: bool,
}

fn popped(stack: &mut Vec<TypedExp>) -> Result<TypedExp, Memory> {
    match stack.pop() {
        Some(e) => Ok(e),
        None => Err(Memory),
    }
}

/// A word without operands.
fn on_none(alloc: Global, word: Word) -> Result<TypedExp, Memory> {
    match word {
        Word::Local(of, n) => local(alloc, unqualified(of), n),
        Word::Entity(of, n) => entity(alloc, unqualified(of), n),
        Word::Two => integer(alloc, INT, 2),
        _ => Err(Memory),
    }
}

/// A word on one operand.
fn on_one(alloc: Global, word: Word, stack: &mut Vec<TypedExp>) -> Result<TypedExp, Memory> {
    let e = popped(stack)?;
    match word {
        Word::Load => load(alloc, e),
        Word::Decay => decay(alloc, POINTER, e),
        Word::Member => member(alloc, unqualified(INT), e, AggId(0), 1),
        Word::Next => step(alloc, StepForm::PostIncrement, INT, e),
        _ => Err(Memory),
    }
}

/// A word on two operands.
fn on_two(alloc: Global, word: Word, stack: &mut Vec<TypedExp>) -> Result<TypedExp, Memory> {
    let right = popped(stack)?;
    let left = popped(stack)?;
    match word {
        Word::Bin(op) => binary(alloc, INT, op, left, right),
        Word::Assign => assign(alloc, left, right),
        Word::Doubled => compute(alloc, BinOp::Mul, INT, left, right),
        Word::Subscript => subscript(alloc, unqualified(INT), left, right),
        _ => Err(Memory),
    }
}

/// The last two expressions of a conditional.
fn branches(alloc: Global, stack: &mut Vec<TypedExp>) -> Result<Box<Branches>, Memory> {
    let fails = popped(stack)?;
    let holds = popped(stack)?;
    Ok(Box::new(alloc, Branches { holds, fails })?)
}

fn choice(alloc: Global, stack: &mut Vec<TypedExp>) -> Result<TypedExp, Memory> {
    let branches = branches(alloc, stack)?;
    let test = popped(stack)?;
    conditional(alloc, INT, test, branches)
}

/// The last expression as the arguments of a call.
fn one_argument(alloc: Global, stack: &mut Vec<TypedExp>) -> Result<Vec<TypedExp>, Memory> {
    let e = popped(stack)?;
    let mut arguments = Vec::new(alloc);
    arguments.push(e)?;
    Ok(arguments)
}

fn called(alloc: Global, stack: &mut Vec<TypedExp>) -> Result<TypedExp, Memory> {
    let arguments = one_argument(alloc, stack)?;
    let callee = popped(stack)?;
    call(alloc, INT, callee, arguments)
}

/// What a word makes of its operands, which are taken off the stack.
fn made(alloc: Global, word: Word, stack: &mut Vec<TypedExp>) -> Result<TypedExp, Memory> {
    match word {
        Word::Two | Word::Local(..) | Word::Entity(..) => on_none(alloc, word),
        Word::Load | Word::Decay | Word::Member | Word::Next => on_one(alloc, word, stack),
        Word::Bin(_) | Word::Assign | Word::Doubled | Word::Subscript => {
            on_two(alloc, word, stack)
        }
        Word::Choice => choice(alloc, stack),
        Word::Call => called(alloc, stack),
    }
}

/// Puts behind the others what a word makes.
fn put(alloc: Global, word: Word, stack: &mut Vec<TypedExp>) -> Result<(), Memory> {
    let e = made(alloc, word, stack)?;
    stack.push(e)?;
    Ok(())
}

/// The last of the expressions that the words write.
fn last_read(alloc: Global, words: &[Word], stack: &mut Vec<TypedExp>) -> Result<TypedExp, Memory> {
    for word in words {
        put(alloc, *word, stack)?;
    }
    popped(stack)
}

/// The expression that the words write.
fn read(alloc: Global, words: &[Word]) -> Result<TypedExp, Memory> {
    let mut stack = Vec::new(alloc);
    last_read(alloc, words, &mut stack)
}

/// `2`
const TWO: &[Word] = &[Word::Two];

/// `x`, as a value
const VALUE: &[Word] = &[X, Word::Load];

/// `x = 2`
const SET: &[Word] = &[X, Word::Two, Word::Assign];

const ROWS: [Row; 13] = [
    Row {
        name: "2",
        words: TWO,
        effect: false,
        place: false,
    },
    Row {
        name: "x",
        words: &[X],
        effect: false,
        place: true,
    },
    Row {
        name: "x, as a value",
        words: VALUE,
        effect: false,
        place: false,
    },
    Row {
        name: "x + 2",
        words: &[X, Word::Load, Word::Two, ADD],
        effect: false,
        place: false,
    },
    Row {
        name: "x = 2",
        words: SET,
        effect: true,
        place: false,
    },
    Row {
        name: "2 - (x = 2)",
        words: &[Word::Two, X, Word::Two, Word::Assign, Word::Bin(BinOp::Sub)],
        effect: true,
        place: false,
    },
    Row {
        name: "a[2]",
        words: &[ARRAY, Word::Decay, Word::Two, Word::Subscript],
        effect: false,
        place: true,
    },
    Row {
        name: "a member of a value",
        words: &[RECORD, Word::Load, Word::Member],
        effect: false,
        place: false,
    },
    Row {
        name: "a member of a place",
        words: &[RECORD, Word::Member],
        effect: false,
        place: true,
    },
    Row {
        name: "x *= 2",
        words: &[X, Word::Two, Word::Doubled],
        effect: true,
        place: false,
    },
    Row {
        name: "x++",
        words: &[X, Word::Next],
        effect: true,
        place: false,
    },
    Row {
        name: "x ? 2 : x + 2",
        words: &[
            X,
            Word::Load,
            Word::Two,
            X,
            Word::Load,
            Word::Two,
            ADD,
            Word::Choice,
        ],
        effect: true,
        place: false,
    },
    Row {
        name: "f(2)",
        words: &[FUNCTION, Word::Decay, Word::Two, Word::Call],
        effect: true,
        place: false,
    },
];

/// Whether an effect stands in an expression, and whether it is a place.
fn effect_and_place(alloc: Global, words: &[Word]) -> Result<(bool, bool), Memory> {
    let e = read(alloc, words)?;
    Ok((e.has_effect(), e.is_place()))
}

#[test]
fn builders_tell_effects_and_places(rt: HostRuntime) -> Result<(), Memory> {
    for row in &ROWS {
        let got = effect_and_place(rt.alloc(), row.words)?;
        equal(&rt, &row.name, &got, &(row.effect, row.place));
    }
    Ok(())
}

/// `{ 2 }`, of a scalar.
fn one_scalar(alloc: Global) -> Result<TypedInit, Memory> {
    let two = read(alloc, TWO)?;
    let mut steps = Vec::new(alloc);
    steps.push(scalar_part(Path::new(alloc), two))?;
    Ok(initialiser(steps))
}

/// `( int ) { 2 }`
fn compound_literal(alloc: Global) -> Result<TypedExp, Memory> {
    let init = one_scalar(alloc)?;
    literal(alloc, unqualified(INT), 0, init)
}

#[test]
fn a_compound_literal_is_a_place_with_an_effect(rt: HostRuntime) -> Result<(), Memory> {
    let e = compound_literal(rt.alloc())?;
    let got = (e.has_effect(), e.is_place());
    equal(&rt, &"( int ) { 2 }", &got, &(true, true));
    Ok(())
}

/// A node stands in one block of at most 64 bytes; of the expression itself nothing else is allocated.
#[test]
fn nodes_are_small(rt: HostRuntime) {
    let (node, expression) = (size_of::<TypedNode>(), size_of::<TypedExp>());
    equal(&rt, &(node, expression), &(node <= 64), &true);
    equal(&rt, &(node, expression), &(expression <= 24), &true);
    equal(&rt, &"a type", &size_of::<QualType>(), &8);
}

/// `x = 2;`
fn put_assignment(alloc: Global, items: &mut Vec<TypedStmt>) -> Result<(), Memory> {
    let e = read(alloc, SET)?;
    items.push(evaluation(e))?;
    Ok(())
}

/// `int x = 2;`
fn put_declaration(alloc: Global, items: &mut Vec<TypedStmt>) -> Result<(), Memory> {
    let init = one_scalar(alloc)?;
    items.push(declaration(LocalId(3), Some(init)))?;
    Ok(())
}

/// Statements of one assignment.
fn one_assignment(alloc: Global) -> Result<Vec<TypedStmt>, Memory> {
    let mut holds = Vec::new(alloc);
    put_assignment(alloc, &mut holds)?;
    Ok(holds)
}

/// `if (x) x = 2;`
fn put_selection(alloc: Global, items: &mut Vec<TypedStmt>) -> Result<(), Memory> {
    let test = read(alloc, VALUE)?;
    let holds = one_assignment(alloc)?;
    items.push(selection(test, holds, Vec::new(alloc)))?;
    Ok(())
}

/// `int x = 2; if (x) x = 2;`
fn put_both(alloc: Global, items: &mut Vec<TypedStmt>) -> Result<(), Memory> {
    put_declaration(alloc, items)?;
    put_selection(alloc, items)
}

/// `{ int x = 2; if (x) x = 2; }`, whose statements are seen in order.
#[test]
fn statements_stand_in_order(rt: HostRuntime) -> Result<(), Memory> {
    let mut items = Vec::new(rt.alloc());
    put_both(rt.alloc(), &mut items)?;
    let block = compound(items);
    equal(&rt, &"in order", &is_block_in_order(&block), &true);
    Ok(())
}

/// Whether a statement is a block of these.
fn is_block_in_order(block: &TypedStmt) -> bool {
    match block {
        TypedStmt::Block(items) => is_in_order(items),
        _ => false,
    }
}

fn is_in_order(items: &[TypedStmt]) -> bool {
    match items {
        [
            TypedStmt::Declare(n, Some(init)),
            TypedStmt::If(test, holds, fails),
        ] => {
            *n == LocalId(3)
                && init.steps.len() == 1
                && !test.has_effect()
                && holds.len() == 1
                && fails.is_empty()
        }
        _ => false,
    }
}
