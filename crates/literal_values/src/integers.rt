use cil_base::{Abi, IntKind};

/// The base of an integer constant (C11 6.4.4.1p2).
#[derive(Clone, Copy, PartialEq, Eq)]
enum Base {
    Decimal,
    Octal,
    Hexadecimal,
}

/// The length of an integer type, from that of `int` on.
#[derive(Clone, Copy, PartialEq, Eq, PartialOrd, Ord)]
enum Length {
    Int,
    Long,
    LongLong,
}

/// What a suffix says (C11 6.4.4.1p1).
#[derive(Clone, Copy)]
struct Suffix {
    unsigned: bool,
    length: Length,
}

/// The value of a digit; a letter counts from 10 on.
fn digit(b: u8) -> Option<u64> {
    match b {
        b'0'..=b'9' => Some((b - b'0') as u64),
        b'a'..=b'f' => Some((b - b'a') as u64 + 10),
        b'A'..=b'F' => Some((b - b'A') as u64 + 10),
        _ => None,
    }
}

impl Base {
    fn radix(self) -> u64 {
        match self {
            Base::Decimal => 10,
            Base::Octal => 8,
            Base::Hexadecimal => 16,
        }
    }
}

/// The base of a constant, and its digits and suffix.
fn split(text: &[u8]) -> (Base, &[u8]) {
    match text {
        [b'0', b'x' | b'X', digits @ ..] => (Base::Hexadecimal, digits),
        [b'0', ..] => (Base::Octal, text),
        _ => (Base::Decimal, text),
    }
}

/// The value of the digits with which a text begins, none where it passes that of each integer type.
fn digits_value(base: Base, text: &[u8]) -> Option<u64> {
    let mut value: u64 = 0;
    for b in text {
        match digit(*b) {
            Some(d) if d < base.radix() => {
                value = value.checked_mul(base.radix())?.checked_add(d)?;
            }
            _ => return Some(value),
        }
    }
    Some(value)
}

/// The suffix of a constant: its letters `u` and `l` in either case.
fn suffix_of(text: &[u8]) -> Suffix {
    let mut found = Suffix {
        unsigned: false,
        length: Length::Int,
    };
    for b in text {
        match *b {
            b'u' | b'U' => found.unsigned = true,
            b'l' | b'L' => {
                found.length = match found.length {
                    Length::Int => Length::Long,
                    Length::Long | Length::LongLong => Length::LongLong,
                }
            }
            _ => {}
        }
    }
    found
}

/// The signed kind of a length.
fn signed(length: Length, abi: Abi) -> IntKind {
    match length {
        Length::Int => IntKind::Int,
        Length::Long => abi.long(),
        Length::LongLong => IntKind::LLong,
    }
}

/// The lengths in the order in which a constant's types are tried.
const LENGTHS: [Length; 3] = [Length::Int, Length::Long, Length::LongLong];

/// The first kind of the constant's list that holds the value (C11 6.4.4.1p5).
fn kind(base: Base, suffix: Suffix, value: i128, abi: Abi) -> Option<IntKind> {
    for length in LENGTHS {
        let kind = signed(length, abi);
        if length < suffix.length {
            continue;
        }
        if !suffix.unsigned && kind.fits(value) {
            return Some(kind);
        }
        if (suffix.unsigned || base != Base::Decimal) && kind.unsigned().fits(value) {
            return Some(kind.unsigned());
        }
    }
    None
}

/// The kind and the value of an integer constant (C11 6.4.4.1). None where no type of its list holds it.
pub fn integer_value(text: &[u8], abi: Abi) -> Option<(IntKind, i128)> {
    let (base, rest) = split(text);
    let value = digits_value(base, rest)? as i128;
    let kind = kind(base, suffix_of(rest), value, abi)?;
    Some((kind, value))
}
