ghost use Rattle.std.specs.Prelude.{◌≡◌};
ghost use Rattle.c_lexer.specs.Languages.{is_plain, digit_less, hex_behind, universal_behind, word_behind, number_behind, exponent_behind, escape_behind, literal_behind};

use crate::bytes::{is_escape, is_exponent, is_word_byte};
use crate::state::Mode;

impl Mode {
    /// Whether the bytes stand in no escape.
    pub fn is_plain(self) -> bool
        ensures { result ≡ is_plain self }
    {
        match self {
            Mode::Plain => true,
            Mode::Escaped | Mode::Digits(_) => false,
        }
    }
}

/// The mode behind one of n hexadecimal digits.
fn digit_less(n: u8) -> Mode
    ensures { result ≡ digit_less n }
{
    if n <= 1 {
        Mode::Plain
    } else {
        Mode::Digits(n - 1)
    }
}

fn hex_behind(n: u8, b: u8) -> Option<Mode>
    ensures { result ≡ hex_behind n b }
{
    if b.is_ascii_hexdigit() {
        Some(digit_less(n))
    } else {
        None
    }
}

/// A universal character name behind its backslash (C11 6.4.3).
pub fn universal_behind(b: u8) -> Option<Mode>
    ensures { result ≡ universal_behind b }
{
    match b {
        b'u' => Some(Mode::Digits(4)),
        b'U' => Some(Mode::Digits(8)),
        _ => None,
    }
}

/// How a word goes on (C11 6.4.2.1).
pub fn word_behind(mode: Mode, b: u8) -> Option<Mode>
    ensures { result ≡ word_behind mode b }
{
    match mode {
        Mode::Plain => plain_word_behind(b),
        Mode::Escaped => universal_behind(b),
        Mode::Digits(n) => hex_behind(n, b),
    }
}

fn plain_word_behind(b: u8) -> Option<Mode>
    ensures { result ≡ word_behind Mode.Plain b }
{
    if is_word_byte(b) {
        return Some(Mode::Plain);
    }
    if b == b'\\' {
        Some(Mode::Escaped)
    } else {
        None
    }
}

/// How a preprocessing number goes on (C11 6.4.8).
pub fn number_behind(exponent: bool, mode: Mode, b: u8) -> Option<Mode>
    ensures { result ≡ number_behind exponent mode b }
{
    match mode {
        Mode::Plain => plain_number_behind(exponent, b),
        Mode::Escaped => universal_behind(b),
        Mode::Digits(n) => hex_behind(n, b),
    }
}

fn plain_number_behind(exponent: bool, b: u8) -> Option<Mode>
    ensures { result ≡ number_behind exponent Mode.Plain b }
{
    if is_word_byte(b) || b == b'.' || (exponent && (b == b'+' || b == b'-')) {
        return Some(Mode::Plain);
    }
    if b == b'\\' {
        Some(Mode::Escaped)
    } else {
        None
    }
}

/// Whether a sign may follow the byte in a preprocessing number.
pub fn exponent_behind(mode: Mode, b: u8) -> bool
    ensures { result ≡ exponent_behind mode b }
{
    match mode {
        Mode::Plain => is_exponent(b),
        Mode::Escaped | Mode::Digits(_) => false,
    }
}

/// An escape sequence behind its backslash (C11 6.4.4.4).
fn escape_behind(b: u8) -> Option<Mode>
    ensures { result ≡ escape_behind b }
{
    if b == b'x' {
        return Some(Mode::Digits(1));
    }
    if is_escape(b) {
        Some(Mode::Plain)
    } else {
        universal_behind(b)
    }
}

/// How a literal goes on with a byte that is not its closing quote (C11 6.4.4.4, 6.4.5).
pub fn literal_behind(mode: Mode, b: u8) -> Option<Mode>
    ensures { result ≡ literal_behind mode b }
{
    match mode {
        Mode::Plain => plain_literal_behind(b),
        Mode::Escaped => escape_behind(b),
        Mode::Digits(n) => hex_behind(n, b),
    }
}

fn plain_literal_behind(b: u8) -> Option<Mode>
    ensures { result ≡ literal_behind Mode.Plain b }
{
    match b {
        b'\n' => None,
        b'\\' => Some(Mode::Escaped),
        _ => Some(Mode::Plain),
    }
}
