use crate::builder::{Builder, Form, type_at};
use crate::equal::equal;
use crate::objects::alone;
use crate::stop::Stop;
use cil_base::{Constant, IntKind, TypeId};
use cil_tree::GlobalDef;
use std::alloc::Global;
use std::test::Fail;

/// A pointer to a function that takes two of a type.
fn taking(b: &mut Builder, void: TypeId, of: TypeId) -> Result<TypeId, Stop> {
    let function = b.function(Form::Prototype, void, &[of, of])?;
    b.pointer(function)
}

/// `void ( * ) ( void )`, and so many types more, each a pointer to a function that takes two of the one before.
fn add_chain(b: &mut Builder, types: &mut Vec<TypeId>, more: u32) -> Result<(), Stop> {
    let void = b.void()?;
    let first = b.function(Form::Prototype, void, &[])?;
    let mut last = b.pointer(first)?;
    types.push(last)?;
    for _i in 0..more {
        last = taking(b, void, last)?;
        types.push(last)?;
    }
    Ok(())
}

/// The length of the text of a program with one declaration.
fn declared_length(b: &mut Builder, name: &[u8], ty: TypeId) -> Result<usize, Stop> {
    let name = b.name(name)?;
    b.global(name, ty, false, GlobalDef::Declared)?;
    let text = b.text()?;
    Ok(text.len())
}

fn chain_length_in(b: &mut Builder, more: u32) -> Result<usize, Stop> {
    let mut types = Vec::new(b.alloc);
    add_chain(b, &mut types, more)?;
    match types.as_slice() {
        [.., last] => declared_length(b, b"x", *last),
        [] => Err(Stop::Wrong),
    }
}

/// The length of the text `extern T x ;` with the last type of such a chain.
fn chain_length(alloc: Global, more: u32) -> Result<usize, Stop> {
    let mut b = Builder::new(alloc);
    chain_length_in(&mut b, more)
}

/// Seven types of a chain, whose declarations have 268,246,914 bytes together.
fn add_seven(b: &mut Builder, params: &mut Vec<TypeId>) -> Result<(), Stop> {
    let mut types = Vec::new(b.alloc);
    add_chain(b, &mut types, 22)?;
    for number in [22, 21, 19, 18, 17, 15, 13] {
        params.push(type_at(&types, number))?;
    }
    Ok(())
}

/// `void ( T , .. )`, with seven parameters.
fn seven_taking(b: &mut Builder) -> Result<TypeId, Stop> {
    let mut params = Vec::new(b.alloc);
    add_seven(b, &mut params)?;
    let void = b.void()?;
    b.function(Form::Prototype, void, &params)
}

fn function_length_in(b: &mut Builder, name: &[u8]) -> Result<usize, Stop> {
    let function = seven_taking(b)?;
    declared_length(b, name, function)
}

/// The length of the text `void NAME ( T , .. ) ;`, with a name of so many letters, and with seven parameters.
fn function_length(alloc: Global, letters: usize) -> Result<usize, Stop> {
    let name = vec![in alloc; b'a'; letters]?;
    let mut b = Builder::new(alloc);
    function_length_in(&mut b, &name)
}

/// A chain of so many types more, and the length of its text; none where that is too long.
struct ChainRow {
    more: u32,
    length: Option<usize>,
}

// The declaration without a name of the type behind k more has 37 * 2 ^ k - 18 bytes, and the rest of the line 12.
fn chain_rows() -> &'static [ChainRow] {
    &[
        ChainRow {
            more: 0,
            length: Some(31),
        },
        ChainRow {
            more: 3,
            length: Some(290),
        },
        ChainRow {
            more: 12,
            length: Some(151546),
        },
        ChainRow {
            more: 23,
            length: None,
        },
        ChainRow {
            more: 70,
            length: None,
        },
    ]
}

/// The length, or none where the text is too long.
fn short(length: Result<usize, Stop>) -> Result<Option<usize>, Stop> {
    match length {
        Ok(length) => Ok(Some(length)),
        Err(Stop::TooLong) => Ok(None),
        Err(stop) => Err(stop),
    }
}

#[test]
fn a_length_is_known_without_the_text(rt: HostRuntime) {
    for row in chain_rows() {
        let length = short(chain_length(rt.alloc(), row.more));
        equal(&rt, &row.more, &length, &Ok(row.length));
    }
}

#[test]
fn a_text_is_too_long_from_one_byte_above_the_limit(rt: HostRuntime) {
    for (letters, length) in [(188511, Some(268435456)), (188512, None)] {
        let found = short(function_length(rt.alloc(), letters));
        equal(&rt, &letters, &found, &Ok(length));
    }
}

/// A number, its kind, and the definition of an object that has it.
struct NumberRow {
    kind: IntKind,
    value: i128,
    text: &'static [u8],
}

/// The suffixes of C11 6.4.4.1, a sign for what is negative, and the least values, which no constant negates.
fn number_rows() -> &'static [NumberRow] {
    &[
        NumberRow {
            kind: IntKind::Int,
            value: 2147483647,
            text: b"extern int x ;\nint x = 2147483647 ;\n",
        },
        NumberRow {
            kind: IntKind::UInt,
            value: 4294967295,
            text: b"extern unsigned int x ;\nunsigned int x = 4294967295U ;\n",
        },
        NumberRow {
            kind: IntKind::Long,
            value: -5,
            text: b"extern long x ;\nlong x = - 5L ;\n",
        },
        NumberRow {
            kind: IntKind::ULong,
            value: 16,
            text: b"extern unsigned long x ;\nunsigned long x = 16UL ;\n",
        },
        NumberRow {
            kind: IntKind::LLong,
            value: 7,
            text: b"extern long long x ;\nlong long x = 7LL ;\n",
        },
        NumberRow {
            kind: IntKind::ULLong,
            value: 18446744073709551615,
            text: b"extern unsigned long long x ;\nunsigned long long x = 18446744073709551615ULL ;\n",
        },
        NumberRow {
            kind: IntKind::Char,
            value: -128,
            text: b"extern char x ;\nchar x = - 127 - 1 ;\n",
        },
        NumberRow {
            kind: IntKind::Char,
            value: -127,
            text: b"extern char x ;\nchar x = - 127 ;\n",
        },
        NumberRow {
            kind: IntKind::Short,
            value: -32768,
            text: b"extern short x ;\nshort x = - 32767 - 1 ;\n",
        },
        NumberRow {
            kind: IntKind::Int,
            value: -2147483648,
            text: b"extern int x ;\nint x = - 2147483647 - 1 ;\n",
        },
        NumberRow {
            kind: IntKind::Long,
            value: -9223372036854775808,
            text: b"extern long x ;\nlong x = - 9223372036854775807L - 1 ;\n",
        },
        NumberRow {
            kind: IntKind::LLong,
            value: -9223372036854775808,
            text: b"extern long long x ;\nlong long x = - 9223372036854775807LL - 1 ;\n",
        },
    ]
}

fn object_text_in(b: &mut Builder, kind: IntKind, value: i128) -> Result<Vec<u8>, Stop> {
    let name = b.name(b"x")?;
    let ty = b.int(kind)?;
    let image = alone(b.alloc, Constant::Int(kind, value))?;
    b.global(name, ty, false, GlobalDef::Image(image))?;
    b.text()
}

/// The text of a program of one object `x` with that value.
fn object_text(alloc: Global, kind: IntKind, value: i128) -> Result<Vec<u8>, Stop> {
    let mut b = Builder::new(alloc);
    object_text_in(&mut b, kind, value)
}

#[test]
fn numbers_have_their_suffixes(rt: HostRuntime) -> Result<(), Fail> {
    for row in number_rows() {
        let text = object_text(rt.alloc(), row.kind, row.value)?;
        equal(&rt, &row.text, &text.as_slice(), &row.text);
    }
    Ok(())
}
