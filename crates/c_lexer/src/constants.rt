ghost use Rattle.std.specs.Prelude.{◌≡◌, false};
ghost use Rattle.c_lexer.specs.Constants.{behind_digits, behind_octals, behind_hexes, is_u, is_l, is_suffix, is_x, begins_hex, begins_digit, is_integer_behind_zero, is_integer, is_floating_suffix, behind_sign, is_power, is_e, is_p, is_behind_fraction, is_behind_whole, is_decimal_floating, is_behind_hex_fraction, is_behind_hex_whole, is_hex_floating, is_floating, behind_quote, begins_character, behind_start, behind_escape, behind_inner, count, characters, has_universal};

use crate::bytes::is_octal;

/// Where the characters of a character constant are counted (C11 6.4.4.4).
#[derive(Clone, Copy)]
pub enum Counting {
    /// In no escape sequence.
    Byte,
    /// Behind a backslash.
    Escape,
    /// In an octal escape sequence, which may have so many more digits.
    Octals(u8),
    /// In a hexadecimal escape sequence.
    Hexes,
    /// In a universal character name, which has so many more digits.
    Named(u8),
}

/// What stands behind the decimal digits with which the text begins.
fn behind_digits(text: &[u8]) -> &[u8]
    ensures { result.now ≡ behind_digits text.now }
{
    for (i, b) in text.iter().enumerate() {
        if !b.is_ascii_digit() {
            return text.split_at(i).1;
        }
    }
    &[]
}

fn behind_octals(text: &[u8]) -> &[u8]
    ensures { result.now ≡ behind_octals text.now }
{
    for (i, b) in text.iter().enumerate() {
        if !is_octal(*b) {
            return text.split_at(i).1;
        }
    }
    &[]
}

fn behind_hexes(text: &[u8]) -> &[u8]
    ensures { result.now ≡ behind_hexes text.now }
{
    for (i, b) in text.iter().enumerate() {
        if !b.is_ascii_hexdigit() {
            return text.split_at(i).1;
        }
    }
    &[]
}

fn is_u(b: u8) -> bool
    ensures { result ≡ is_u b }
{
    b == b'u' || b == b'U'
}

fn is_l(b: u8) -> bool
    ensures { result ≡ is_l b }
{
    b == b'l' || b == b'L'
}

fn is_x(b: u8) -> bool
    ensures { result ≡ is_x b }
{
    b == b'x' || b == b'X'
}

fn is_e(b: u8) -> bool
    ensures { result ≡ is_e b }
{
    b == b'e' || b == b'E'
}

fn is_p(b: u8) -> bool
    ensures { result ≡ is_p b }
{
    b == b'p' || b == b'P'
}

/// An integer suffix, or none (C11 6.4.4.1).
fn is_suffix(text: &[u8]) -> bool
    ensures { result ≡ is_suffix text.now }
{
    match text {
        [] => true,
        [a] => is_u(*a) || is_l(*a),
        [a, b] => (is_u(*a) && is_l(*b)) || (is_l(*a) && is_u(*b)) || (is_l(*a) && a == b),
        [a, b, c] => (is_u(*a) && is_l(*b) && b == c) || (is_l(*a) && a == b && is_u(*c)),
        _ => false,
    }
}

fn begins_hex(text: &[u8]) -> bool
    ensures { result ≡ begins_hex text.now }
{
    match text {
        [b, ..] => b.is_ascii_hexdigit(),
        [] => false,
    }
}

fn begins_digit(text: &[u8]) -> bool
    ensures { result ≡ begins_digit text.now }
{
    match text {
        [b, ..] => b.is_ascii_digit(),
        [] => false,
    }
}

fn is_integer_behind_zero(text: &[u8]) -> bool
    ensures { result ≡ is_integer_behind_zero text.now }
{
    match text {
        [] => true,
        [b, more @ ..] => {
            if is_x(*b) {
                begins_hex(more) && is_suffix(behind_hexes(more))
            } else {
                is_suffix(behind_octals(text))
            }
        }
    }
}

/// Whether a preprocessing number is an integer constant (C11 6.4.4.1).
pub fn is_integer(text: &[u8]) -> bool
    ensures { result ≡ is_integer text.now }
{
    match text {
        [] => false,
        [b, more @ ..] => {
            if *b == b'0' {
                is_integer_behind_zero(more)
            } else {
                b.is_ascii_digit() && is_suffix(behind_digits(more))
            }
        }
    }
}

fn is_floating_suffix(text: &[u8]) -> bool
    ensures { result ≡ is_floating_suffix text.now }
{
    match text {
        [] => true,
        [b] => *b == b'f' || *b == b'F' || is_l(*b),
        _ => false,
    }
}

fn behind_sign(text: &[u8]) -> &[u8]
    ensures { result.now ≡ behind_sign text.now }
{
    match text {
        [b, more @ ..] => if *b == b'+' || *b == b'-' { more } else { text },
        [] => text,
    }
}

/// What stands behind the letter of an exponent.
fn is_power(text: &[u8]) -> bool
    ensures { result ≡ is_power text.now }
{
    let digits = behind_sign(text);
    begins_digit(digits) && is_floating_suffix(behind_digits(digits))
}

fn is_behind_fraction(text: &[u8]) -> bool
    ensures { result ≡ is_behind_fraction text.now }
{
    match text {
        [] => true,
        [b, more @ ..] => if is_e(*b) {
            is_power(more)
        } else {
            is_floating_suffix(text)
        },
    }
}

fn is_behind_whole(some: bool, text: &[u8]) -> bool
    ensures { result ≡ is_behind_whole some text.now }
{
    match text {
        [] => false,
        [b, more @ ..] => {
            if *b == b'.' {
                (some || begins_digit(more)) && is_behind_fraction(behind_digits(more))
            } else {
                some && is_e(*b) && is_power(more)
            }
        }
    }
}

fn is_decimal_floating(text: &[u8]) -> bool
    ensures { result ≡ is_decimal_floating text.now }
{
    is_behind_whole(begins_digit(text), behind_digits(text))
}

fn is_behind_hex_fraction(text: &[u8]) -> bool
    ensures { result ≡ is_behind_hex_fraction text.now }
{
    match text {
        [] => false,
        [b, more @ ..] => is_p(*b) && is_power(more),
    }
}

fn is_behind_hex_whole(some: bool, text: &[u8]) -> bool
    ensures { result ≡ is_behind_hex_whole some text.now }
{
    match text {
        [] => false,
        [b, more @ ..] => {
            if *b == b'.' {
                (some || begins_hex(more)) && is_behind_hex_fraction(behind_hexes(more))
            } else {
                some && is_p(*b) && is_power(more)
            }
        }
    }
}

fn is_hex_floating(text: &[u8]) -> bool
    ensures { result ≡ is_hex_floating text.now }
{
    match text {
        [a, b, more @ ..] => *a == b'0'
            && is_x(*b)
            && is_behind_hex_whole(begins_hex(more), behind_hexes(more)),
        _ => false,
    }
}

/// Whether a preprocessing number is a floating constant (C11 6.4.4.2).
pub fn is_floating(text: &[u8]) -> bool
    ensures { result ≡ is_floating text.now }
{
    is_decimal_floating(text) || is_hex_floating(text)
}

/// What stands behind the first quote of a character constant.
fn behind_quote(text: &[u8]) -> &[u8]
    ensures { result.now ≡ behind_quote text.now }
{
    for (i, b) in text.iter().enumerate() {
        if *b == b'\'' {
            return text.split_at(i + 1).1;
        }
    }
    &[]
}

impl Counting {
    fn begins_character(self, b: u8) -> bool
        ensures { result ≡ begins_character self b }
    {
        match self {
            Counting::Byte => true,
            Counting::Escape => false,
            Counting::Octals(left) => !(left > 0 && is_octal(b)),
            Counting::Hexes => !b.is_ascii_hexdigit(),
            Counting::Named(left) => left == 0,
        }
    }

    fn behind_inner(self, b: u8) -> Counting
        ensures { result ≡ behind_inner self b }
    {
        match self {
            Counting::Byte => Counting::Byte,
            Counting::Escape => behind_escape(b),
            Counting::Octals(left) => Counting::Octals(left.saturating_sub(1)),
            Counting::Hexes => Counting::Hexes,
            Counting::Named(left) => Counting::Named(left.saturating_sub(1)),
        }
    }
}

fn behind_escape(b: u8) -> Counting
    ensures { result ≡ behind_escape b }
{
    if is_octal(b) {
        return Counting::Octals(2);
    }
    match b {
        b'x' => Counting::Hexes,
        b'u' => Counting::Named(4),
        b'U' => Counting::Named(8),
        _ => Counting::Byte,
    }
}

fn behind_start(b: u8) -> Counting
    ensures { result ≡ behind_start b }
{
    if b == b'\\' {
        Counting::Escape
    } else {
        Counting::Byte
    }
}

/// The characters up to the closing quote.
fn count(text: &[u8]) -> usize
    ensures { result ≡ count Counting.Byte text.now }
{
    let mut counting = Counting::Byte;
    let mut n = 0;
    for b in text {
        if counting.begins_character(*b) {
            if *b == b'\'' {
                return n;
            }
            n += 1;
            counting = behind_start(*b);
        } else {
            counting = counting.behind_inner(*b);
        }
    }
    n
}

/// How many characters a character constant has (C11 6.4.4.4).
pub fn characters(text: &[u8]) -> usize
    ensures { result ≡ characters text.now }
{
    count(behind_quote(text))
}

/// Whether a literal has a universal character name (C11 6.4.3).
pub fn has_universal(text: &[u8]) -> bool
    ensures { result ≡ has_universal false text.now }
{
    let mut escaped = false;
    for b in text {
        if escaped && (*b == b'u' || *b == b'U') {
            return true;
        }
        escaped = !escaped && *b == b'\\';
    }
    false
}
