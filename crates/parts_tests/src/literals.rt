//! Values of integer and character constants.

use crate::equal::equal;
use cil_base::{Abi, IntKind};
use literal_values::{character_value, integer_value};
use std::process::Abort;

/// Integer constants with the kind that gcc gives them (`_Generic`) on a 64-bit system, and their values.
const CONSTANTS: [(&[u8], Option<(IntKind, i128)>); 17] = [
    (b"0", Some((IntKind::Int, 0))),
    (b"2147483647", Some((IntKind::Int, 2147483647))),
    (b"2147483648", Some((IntKind::Long, 2147483648))),
    (b"0x7fffffff", Some((IntKind::Int, 2147483647))),
    (b"0x80000000", Some((IntKind::UInt, 2147483648))),
    (
        b"0XFFFFFFFFFFFFFFFF",
        Some((IntKind::ULong, 18446744073709551615)),
    ),
    (b"037777777777", Some((IntKind::UInt, 4294967295))),
    (b"017", Some((IntKind::Int, 15))),
    (b"1u", Some((IntKind::UInt, 1))),
    (b"1L", Some((IntKind::Long, 1))),
    (b"1ll", Some((IntKind::LLong, 1))),
    (b"1uLL", Some((IntKind::ULLong, 1))),
    (b"4294967296U", Some((IntKind::ULong, 4294967296))),
    (
        b"9223372036854775807",
        Some((IntKind::Long, 9223372036854775807)),
    ),
    (b"9223372036854775808", None),
    (
        b"9223372036854775808u",
        Some((IntKind::ULong, 9223372036854775808)),
    ),
    (b"18446744073709551616u", None),
];

/// The same by gcc -m32.
const CONSTANTS_OF_FOUR: [(&[u8], Option<(IntKind, i128)>); 14] = [
    (b"2147483647", Some((IntKind::Int, 2147483647))),
    (b"2147483648", Some((IntKind::LLong, 2147483648))),
    (b"0x80000000", Some((IntKind::UInt, 2147483648))),
    (
        b"0XFFFFFFFFFFFFFFFF",
        Some((IntKind::ULLong, 18446744073709551615)),
    ),
    (b"1L", Some((IntKind::Long4, 1))),
    (b"1ll", Some((IntKind::LLong, 1))),
    (b"4294967295U", Some((IntKind::UInt, 4294967295))),
    (b"4294967296U", Some((IntKind::ULLong, 4294967296))),
    (b"2147483648L", Some((IntKind::LLong, 2147483648))),
    (b"0x80000000L", Some((IntKind::ULong4, 2147483648))),
    (b"4294967295UL", Some((IntKind::ULong4, 4294967295))),
    (b"4294967296UL", Some((IntKind::ULLong, 4294967296))),
    (
        b"9223372036854775807",
        Some((IntKind::LLong, 9223372036854775807)),
    ),
    (b"9223372036854775808", None),
];

/// Integer constants have these kinds and values in a data model.
fn have_values(rt: &impl Abort, abi: Abi, rows: &[(&[u8], Option<(IntKind, i128)>)]) {
    for (text, expected) in rows {
        equal(rt, text, &integer_value(text, abi), expected);
    }
}

#[test]
fn integer_constants_have_the_first_type_that_holds_them(rt: HostRuntime) {
    have_values(&rt, Abi::Lp64, &CONSTANTS);
}

#[test]
fn integer_constants_of_four_have_the_first_type_that_holds_them(rt: HostRuntime) {
    have_values(&rt, Abi::Ilp32, &CONSTANTS_OF_FOUR);
}

/// Character constants and the values that gcc gives them; none where an escape is out of the range of `unsigned char` (C11 6.4.4.4p9).
const CHARACTERS: [(&[u8], Option<i128>); 14] = [
    (b"'a'", Some(97)),
    (b"'\\n'", Some(10)),
    (b"'\\''", Some(39)),
    (b"'\"'", Some(34)),
    (b"'\\\\'", Some(92)),
    (b"'\\0'", Some(0)),
    (b"'\\377'", Some(-1)),
    (b"'\\x7f'", Some(127)),
    (b"'\\x80'", Some(-128)),
    (b"'\\12'", Some(10)),
    (b"'\\v'", Some(11)),
    (b"'\xe9'", Some(-23)),
    (b"'\\400'", None),
    (b"'\\x100'", None),
];

#[test]
fn characters_have_the_values_of_chars(rt: HostRuntime) {
    for (text, expected) in &CHARACTERS {
        equal(
            &rt,
            text,
            &character_value(rt.alloc(), text),
            &Ok(*expected),
        );
    }
}
