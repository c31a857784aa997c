ghost use Rattle.std.specs.Prelude.{◌≡◌};
ghost use Rattle.c_lexer.specs.Bytes.{is_blank, is_nondigit, is_word_byte, is_exponent, is_octal, is_escape};

/// Space, horizontal and vertical tab, form feed and carriage return (C11 6.4p3; carriage return is own).
pub fn is_blank(b: u8) -> bool
    ensures { result ≡ is_blank b }
{
    b == b' ' || b == 9 || (b >= 11 && b <= 13)
}

/// A letter or an underscore (C11 6.4.2.1).
pub fn is_nondigit(b: u8) -> bool
    ensures { result ≡ is_nondigit b }
{
    b.is_ascii_alphabetic() || b == b'_'
}

/// A bit for each byte, 64 of them in a number, the lowest first: whether it is a nondigit or a digit.
const WORD_BITS: [u64; 4] = [0x03ff_0000_0000_0000, 0x07ff_fffe_87ff_fffe, 0, 0];

/// A nondigit or a digit.
pub fn is_word_byte(b: u8) -> bool
    ensures { result ≡ is_word_byte b }
{
    (WORD_BITS[usize::from(b >> 6)] >> (b & 63)) & 1 == 1
}

/// A letter behind which a sign belongs to a preprocessing number (C11 6.4.8).
pub fn is_exponent(b: u8) -> bool
    ensures { result ≡ is_exponent b }
{
    b == b'e' || b == b'E' || b == b'p' || b == b'P'
}

/// An octal digit (C11 6.4.4.1).
pub fn is_octal(b: u8) -> bool
    ensures { result ≡ is_octal b }
{
    b >= b'0' && b <= b'7'
}

/// What may stand behind a backslash in a literal, `x`, `u` and `U` aside (C11 6.4.4.4).
pub fn is_escape(b: u8) -> bool
    ensures { result ≡ is_escape b }
{
    b == b'\''
        || b == b'"'
        || b == b'?'
        || b == b'\\'
        || b == b'a'
        || b == b'b'
        || b == b'f'
        || b == b'n'
        || b == b'r'
        || b == b't'
        || b == b'v'
        || is_octal(b)
}
