use cil_base::{Bytes, IntKind, Memory, wrap};
use std::alloc::Global;

/// Where the characters of a literal are read (C11 6.4.4.4, 6.4.5).
#[derive(Clone, Copy)]
enum Reading {
    /// In no escape sequence.
    Plain,
    /// Behind a backslash.
    Escape,
    /// In an octal escape sequence with this value so far, which may have so many more digits.
    Octals(u32, u8),
    /// In a hexadecimal escape sequence with this value so far.
    Hexes(u32),
}

/// The value of an octal digit.
fn octal(b: u8) -> Option<u32> {
    match b {
        b'0'..=b'7' => Some((b - b'0') as u32),
        _ => None,
    }
}

/// The value of a hexadecimal digit.
fn hex(b: u8) -> Option<u32> {
    match b {
        b'0'..=b'9' => Some((b - b'0') as u32),
        b'a'..=b'f' => Some((b - b'a') as u32 + 10),
        b'A'..=b'F' => Some((b - b'A') as u32 + 10),
        _ => None,
    }
}

/// The value of a simple escape sequence (C11 6.4.4.4p3, p4, 5.2.2p2); a quote, a question mark and a backslash stand for themselves.
fn simple(b: u8) -> u32 {
    match b {
        b'a' => 7,
        b'b' => 8,
        b't' => 9,
        b'n' => 10,
        b'v' => 11,
        b'f' => 12,
        b'r' => 13,
        _ => b as u32,
    }
}

/// What comes behind a byte that begins a character, and the character that ends with it. A quote begins none.
fn begun(quote: u8, b: u8) -> (Reading, Option<u32>) {
    if b == b'\\' {
        (Reading::Escape, None)
    } else if b == quote {
        (Reading::Plain, None)
    } else {
        (Reading::Plain, Some(b as u32))
    }
}

/// What comes behind the byte that stands behind a backslash, and the character that ends with it.
fn escaped(b: u8) -> (Reading, Option<u32>) {
    match octal(b) {
        Some(d) => (Reading::Octals(d, 2), None),
        None => {
            if b == b'x' {
                (Reading::Hexes(0), None)
            } else {
                (Reading::Plain, Some(simple(b)))
            }
        }
    }
}

/// One more digit of a hexadecimal escape sequence. A value above 255 stays above it.
fn grown(value: u32, d: u32) -> u32 {
    value.saturating_mul(16).saturating_add(d)
}

/// One more digit of an octal escape sequence, which has three at most.
fn longer(value: u32, d: u32) -> u32 {
    value.saturating_mul(8).saturating_add(d)
}

/// How the reading goes on with a byte: the character that it ends stands before it.
fn next(quote: u8, reading: Reading, b: u8) -> (Option<u32>, Reading, Option<u32>) {
    match reading {
        Reading::Plain => {
            let (reading, whole) = begun(quote, b);
            (None, reading, whole)
        }
        Reading::Escape => {
            let (reading, whole) = escaped(b);
            (None, reading, whole)
        }
        Reading::Octals(value, left) => match octal(b) {
            Some(d) if left > 0 => (None, Reading::Octals(longer(value, d), left - 1), None),
            _ => {
                let (reading, whole) = begun(quote, b);
                (Some(value), reading, whole)
            }
        },
        Reading::Hexes(value) => match hex(b) {
            Some(d) => (None, Reading::Hexes(grown(value, d)), None),
            None => {
                let (reading, whole) = begun(quote, b);
                (Some(value), reading, whole)
            }
        },
    }
}

/// The characters of a literal as it is written, its quotes included: the value of each, which an escape sequence may put above 255.
fn each_character(alloc: Global, text: &[u8], quote: u8) -> Result<Vec<u32>, Memory> {
    let mut found = Vec::new(alloc);
    let mut reading = Reading::Plain;
    for b in text {
        let (before, behind, whole) = next(quote, reading, *b);
        reading = behind;
        if let Some(value) = before {
            found.push(value)?;
        }
        if let Some(value) = whole {
            found.push(value)?;
        }
    }
    Ok(found)
}

/// The value of a character constant (C11 6.4.4.4p10): that of a char, converted to int. None where an escape sequence is above 255
/// (6.4.4.4p9).
pub fn character_value(alloc: Global, text: &[u8]) -> Result<Option<i128>, Memory> {
    let found = each_character(alloc, text, b'\'')?;
    match found.as_slice() {
        [value] if *value <= 0xff => Ok(Some(wrap(IntKind::Char, *value as i128))),
        _ => Ok(None),
    }
}

/// The bytes of string literals that stand one behind the other, and the zero byte behind them (C11 6.4.5p5, p6). None where an escape
/// sequence is above 255 (6.4.4.4p9).
pub fn string_bytes(alloc: Global, texts: &[Bytes]) -> Result<Option<Vec<u8>>, Memory> {
    let mut bytes = Vec::new(alloc);
    for text in texts {
        let found = each_character(alloc, text.as_slice(), b'"')?;
        if !append(&found, &mut bytes)? {
            return Ok(None);
        }
    }
    bytes.push(0)?;
    Ok(Some(bytes))
}

/// Adds characters to bytes. Whether each of them fits.
fn append(found: &[u32], bytes: &mut Vec<u8>) -> Result<bool, Memory> {
    for value in found {
        match u8::try_from(*value) {
            Ok(byte) => bytes.push(byte)?,
            Err(_) => return Ok(false),
        }
    }
    Ok(true)
}
