//! Kinds, arithmetic, names and words of `cil_base`.

use crate::equal::equal;
use cil_base::{
    Abi, BinOp, HOST_NAMES, IntKind, Memory, NameId, NamePool, arith, is_host_name, wrap,
};
use std::alloc::AllocError;
use std::process::Abort;

#[test]
fn knows_the_names_of_the_host(rt: HostRuntime) {
    for name in HOST_NAMES {
        equal(&rt, &name, &is_host_name(name.as_bytes()), &true);
    }
}

#[test]
fn knows_no_other_name(rt: HostRuntime) {
    for name in [b"put".as_slice(), b"putsx", b"", b"main"] {
        equal(&rt, &name, &is_host_name(name), &false);
    }
}

/// The kinds of the data model whose long has 8 bytes.
const KINDS: [IntKind; 12] = [
    IntKind::Bool,
    IntKind::Char,
    IntKind::SChar,
    IntKind::UChar,
    IntKind::Short,
    IntKind::UShort,
    IntKind::Int,
    IntKind::UInt,
    IntKind::Long,
    IntKind::ULong,
    IntKind::LLong,
    IntKind::ULLong,
];

/// For each of them: the kind to which gcc 12 promotes it (`_Generic` of `+ a`), and the kinds that it gives to
/// `a + b` for each b. A letter is that of `letter`.
const COMMON: [(u8, &[u8; 12]); 12] = [
    (b'i', b"iiiiiiiulmLM"),
    (b'i', b"iiiiiiiulmLM"),
    (b'i', b"iiiiiiiulmLM"),
    (b'i', b"iiiiiiiulmLM"),
    (b'i', b"iiiiiiiulmLM"),
    (b'i', b"iiiiiiiulmLM"),
    (b'i', b"iiiiiiiulmLM"),
    (b'u', b"uuuuuuuulmLM"),
    (b'l', b"lllllllllmLM"),
    (b'm', b"mmmmmmmmmmMM"),
    (b'L', b"LLLLLLLLLMLM"),
    (b'M', b"MMMMMMMMMMMM"),
];

/// The kinds of the data model whose long has 4 bytes.
const KINDS_OF_FOUR: [IntKind; 12] = [
    IntKind::Bool,
    IntKind::Char,
    IntKind::SChar,
    IntKind::UChar,
    IntKind::Short,
    IntKind::UShort,
    IntKind::Int,
    IntKind::UInt,
    IntKind::Long4,
    IntKind::ULong4,
    IntKind::LLong,
    IntKind::ULLong,
];

/// The same by gcc -m32.
const COMMON_OF_FOUR: [(u8, &[u8; 12]); 12] = [
    (b'i', b"iiiiiiiulmLM"),
    (b'i', b"iiiiiiiulmLM"),
    (b'i', b"iiiiiiiulmLM"),
    (b'i', b"iiiiiiiulmLM"),
    (b'i', b"iiiiiiiulmLM"),
    (b'i', b"iiiiiiiulmLM"),
    (b'i', b"iiiiiiiulmLM"),
    (b'u', b"uuuuuuuummLM"),
    (b'l', b"lllllllmlmLM"),
    (b'm', b"mmmmmmmmmmLM"),
    (b'L', b"LLLLLLLLLLLM"),
    (b'M', b"MMMMMMMMMMMM"),
];

fn letter(kind: IntKind) -> u8 {
    match kind {
        IntKind::Int => b'i',
        IntKind::UInt => b'u',
        IntKind::Long | IntKind::Long4 => b'l',
        IntKind::ULong | IntKind::ULong4 => b'm',
        IntKind::LLong => b'L',
        IntKind::ULLong => b'M',
        _ => b'?',
    }
}

fn row_is_met(rt: &impl Abort, kinds: &[IntKind; 12], kind: IntKind, row: &[u8; 12]) {
    for j in 0..12 {
        equal(rt, &(kind, j), &letter(kind.common(kinds[j])), &row[j]);
    }
}

fn are_converted(rt: &impl Abort, kinds: &[IntKind; 12], common: &[(u8, &[u8; 12]); 12]) {
    for i in 0..12 {
        let (promoted, row) = common[i];
        equal(rt, &i, &letter(kinds[i].promoted()), &promoted);
        row_is_met(rt, kinds, kinds[i], row);
    }
}

#[test]
fn converts_operands_as_a_c_compiler(rt: HostRuntime) {
    are_converted(&rt, &KINDS, &COMMON);
}

#[test]
fn converts_operands_as_a_c_compiler_of_32_bits(rt: HostRuntime) {
    are_converted(&rt, &KINDS_OF_FOUR, &COMMON_OF_FOUR);
}

/// Each data model has its kinds, and no kind of long or unsigned long of the other.
#[test]
fn tells_the_kinds_of_each_model(rt: HostRuntime) {
    for i in 0..12 {
        let other = i == 8 || i == 9;
        let found = [
            KINDS[i].is_of(Abi::Lp64),
            KINDS_OF_FOUR[i].is_of(Abi::Ilp32),
            KINDS[i].is_of(Abi::Ilp32),
            KINDS_OF_FOUR[i].is_of(Abi::Lp64),
        ];
        equal(&rt, &i, &found, &[true, true, !other, !other]);
    }
}

#[test]
fn tells_the_kinds_and_the_pointers_of_the_model_of_32_bits(rt: HostRuntime) {
    let found = [Abi::Ilp32.long(), Abi::Ilp32.ulong()];
    equal(&rt, &"long", &found, &[IntKind::Long4, IntKind::ULong4]);
    equal(&rt, &"pointers", &Abi::Ilp32.pointer_size(), &4);
}

/// The limits of C11 5.2.4.2.1 at which a number begins not to fit.
#[test]
fn has_the_values_of_its_range(rt: HostRuntime) {
    for (kind, least, greatest) in [
        (IntKind::Bool, 0, 1),
        (IntKind::Char, -128, 127),
        (IntKind::UShort, 0, 65535),
        (IntKind::Int, -2147483648, 2147483647),
        (IntKind::ULLong, 0, 18446744073709551615),
        (IntKind::Long4, -2147483648, 2147483647),
        (IntKind::ULong4, 0, 4294967295),
    ] {
        let found = [
            kind.fits(least),
            kind.fits(greatest),
            kind.fits(least - 1),
            kind.fits(greatest + 1),
        ];
        equal(&rt, &kind, &found, &[true, true, false, false]);
    }
}

#[test]
fn prints_its_words(rt: HostRuntime) -> Result<(), AllocError> {
    let text = format!(in rt.alloc(); "{}", Memory)?;
    equal(&rt, &"words", &text.as_str(), &"want of memory");
    Ok(())
}

/// A text has the number of its first interning, and only interned texts are found.
fn texts_are_numbered(rt: &impl Abort, pool: &mut NamePool) {
    let numbers = [
        pool.intern(b"main"),
        pool.intern(b"argc"),
        pool.intern(b"main"),
    ];
    equal(
        rt,
        &"interned",
        &numbers,
        &[Ok(NameId(0)), Ok(NameId(1)), Ok(NameId(0))],
    );
    let found = [pool.find(b"argc"), pool.find(b"arg")];
    equal(rt, &"found", &found, &[Some(NameId(1)), None]);
}

/// The text of a name.
fn has_text(rt: &impl Abort, pool: &NamePool, name: NameId, text: &[u8]) {
    assert!(rt; name.0 < pool.len());
    equal(rt, &name, &pool.text(name), &text);
}

/// The bases have the numbers behind those of the texts, also where they are asked for again.
fn bases_are_numbered(rt: &impl Abort, pool: &mut NamePool) -> Result<(), Memory> {
    let bases = pool.bases()?;
    let numbers = [bases.literal, bases.tagless, bases.temporary, bases.label];
    equal(
        rt,
        &"bases",
        &numbers,
        &[NameId(2), NameId(3), NameId(4), NameId(5)],
    );
    equal(rt, &"again", &pool.bases(), &Ok(bases));
    equal(rt, &"names", &pool.len(), &6);
    has_text(rt, pool, bases.tagless, b"__anon");
    Ok(())
}

#[test]
fn numbers_texts_in_first_seen_order(rt: HostRuntime) -> Result<(), Memory> {
    let mut pool = NamePool::new(rt.alloc());
    texts_are_numbered(&rt, &mut pool);
    bases_are_numbered(&rt, &mut pool)
}

/// What gcc 12 computes for these expressions, where C11 defines them.
#[test]
fn computes_as_a_c_compiler(rt: HostRuntime) {
    let greatest = 18446744073709551615;
    let found = [
        arith(BinOp::Div, IntKind::Int, -7, 2),
        arith(BinOp::Rem, IntKind::Int, -7, 2),
        arith(BinOp::Rem, IntKind::Int, -2147483648, -1),
        arith(BinOp::Shl, IntKind::UInt, 3, 31),
        arith(BinOp::Shr, IntKind::Long, -9, 1),
        arith(BinOp::Mul, IntKind::ULong, greatest, greatest),
        arith(BinOp::Xor, IntKind::Int, -1, 5),
    ];
    let wanted = [
        Some(-3),
        Some(-1),
        None,
        Some(2147483648),
        Some(-5),
        Some(1),
        Some(-6),
    ];
    equal(&rt, &"computed", &found, &wanted);
}

#[test]
fn converts_as_a_c_compiler(rt: HostRuntime) {
    let found = [wrap(IntKind::Char, 200), wrap(IntKind::Bool, 256)];
    equal(&rt, &"converted", &found, &[-56, 1]);
}
