ghost use Rattle.std.specs.Prelude.{◌≡◌, ◌*◌, ◌+◌, ◌-◌, ◌^◌, ◌<◌, ◌≤◌, true, MatchOption};
ghost use Rattle.std.specs.Option.{option_map};
ghost use Rattle.std.specs.Char.{is_ascii_digit};
ghost use Rattle.cil_text.specs.Words.{look_up, suffixes, word_of, number_or_other, free_word, number_from};
ghost use Rattle.cil_scan.specs.Said.{said};
ghost use Rattle.cil_scan.specs.Spelled.{sign_1, sign_2, sign_3, word_2, word_3, word_4, word_5, words_6, word_7, word_8, sign_of, reserved_of};

use cil_base::{BinOp, IntKind};
use type_graph::AggKind;

/// A token of a CIL text (C11 6.4).
#[derive(Clone, Copy)]
pub enum Word<'a> {
    LeftParen,
    RightParen,
    LeftBracket,
    RightBracket,
    LeftBrace,
    RightBrace,
    Dot,
    Comma,
    Semicolon,
    Colon,
    Assign,
    Ellipsis,
    Tilde,
    Bang,
    /// A binary operator; `*`, `-` and `&` stand elsewhere too.
    Operator(BinOp),
    VoidWord,
    BoolWord,
    CharWord,
    ShortWord,
    IntWord,
    LongWord,
    SignedWord,
    UnsignedWord,
    /// `struct`, `union` or `enum`
    TagWord(AggKind),
    ExternWord,
    StaticWord,
    IfWord,
    ElseWord,
    SwitchWord,
    WhileWord,
    CaseWord,
    DefaultWord,
    GotoWord,
    BreakWord,
    ReturnWord,
    /// An integer constant (6.4.4.1), by the kind of its suffix and its value.
    Number(IntKind, u64),
    /// An identifier (6.4.2).
    Name(&'a [u8]),
    /// What is none of these.
    Other,
}

/// The punctuator of one byte (C11 6.4.6p1).
#[tactic(auto, unfolding(crate::specs::Spelled::sign_1))]
fn sign_1<'a>(a: u8) -> Option<Word<'a>>
    ensures { option_map said result ≡ sign_1 a }
{
    match a {
        b'(' => Some(Word::LeftParen),
        b')' => Some(Word::RightParen),
        b';' => Some(Word::Semicolon),
        b'*' => Some(Word::Operator(BinOp::Mul)),
        b',' => Some(Word::Comma),
        b'[' => Some(Word::LeftBracket),
        b']' => Some(Word::RightBracket),
        b'{' => Some(Word::LeftBrace),
        b'}' => Some(Word::RightBrace),
        b'.' => Some(Word::Dot),
        b':' => Some(Word::Colon),
        b'=' => Some(Word::Assign),
        b'~' => Some(Word::Tilde),
        b'!' => Some(Word::Bang),
        b'/' => Some(Word::Operator(BinOp::Div)),
        b'%' => Some(Word::Operator(BinOp::Rem)),
        b'+' => Some(Word::Operator(BinOp::Add)),
        b'-' => Some(Word::Operator(BinOp::Sub)),
        b'<' => Some(Word::Operator(BinOp::Lt)),
        b'>' => Some(Word::Operator(BinOp::Gt)),
        b'&' => Some(Word::Operator(BinOp::And)),
        b'^' => Some(Word::Operator(BinOp::Xor)),
        b'|' => Some(Word::Operator(BinOp::Or)),
        _ => None,
    }
}

/// The punctuator of two bytes (C11 6.4.6p1).
#[tactic(auto, unfolding(crate::specs::Spelled::sign_2))]
fn sign_2<'a>(a: u8, b: u8) -> Option<Word<'a>>
    ensures { option_map said result ≡ sign_2 a b }
{
    match (a, b) {
        (b'<', b'<') => Some(Word::Operator(BinOp::Shl)),
        (b'>', b'>') => Some(Word::Operator(BinOp::Shr)),
        (b'<', b'=') => Some(Word::Operator(BinOp::Le)),
        (b'>', b'=') => Some(Word::Operator(BinOp::Ge)),
        (b'=', b'=') => Some(Word::Operator(BinOp::Eq)),
        (b'!', b'=') => Some(Word::Operator(BinOp::Ne)),
        _ => None,
    }
}

/// The punctuator of three bytes (C11 6.4.6p1).
#[tactic(auto, unfolding(crate::specs::Spelled::sign_3))]
fn sign_3<'a>(a: u8, b: u8, c: u8) -> Option<Word<'a>>
    ensures { option_map said result ≡ sign_3 a b c }
{
    match (a, b, c) {
        (b'.', b'.', b'.') => Some(Word::Ellipsis),
        _ => None,
    }
}

/// The keyword of two bytes (C11 6.4.1).
#[tactic(auto, unfolding(crate::specs::Spelled::word_2))]
fn word_2<'a>(a: u8, b: u8) -> Option<Word<'a>>
    ensures { option_map said result ≡ word_2 a b }
{
    match (a, b) {
        (b'i', b'f') => Some(Word::IfWord),
        _ => None,
    }
}

/// The keyword of three bytes (C11 6.4.1).
#[tactic(auto, unfolding(crate::specs::Spelled::word_3))]
fn word_3<'a>(a: u8, b: u8, c: u8) -> Option<Word<'a>>
    ensures { option_map said result ≡ word_3 a b c }
{
    match (a, b, c) {
        (b'i', b'n', b't') => Some(Word::IntWord),
        _ => None,
    }
}

/// The keyword of four bytes (C11 6.4.1).
#[tactic(auto, unfolding(crate::specs::Spelled::word_4))]
fn word_4<'a>(a: u8, b: u8, c: u8, d: u8) -> Option<Word<'a>>
    ensures { option_map said result ≡ word_4 a b c d }
{
    match (a, b, c, d) {
        (b'v', b'o', b'i', b'd') => Some(Word::VoidWord),
        (b'c', b'h', b'a', b'r') => Some(Word::CharWord),
        (b'l', b'o', b'n', b'g') => Some(Word::LongWord),
        (b'e', b'n', b'u', b'm') => Some(Word::TagWord(AggKind::Enum)),
        (b'e', b'l', b's', b'e') => Some(Word::ElseWord),
        (b'c', b'a', b's', b'e') => Some(Word::CaseWord),
        (b'g', b'o', b't', b'o') => Some(Word::GotoWord),
        _ => None,
    }
}

/// The keyword of five bytes (C11 6.4.1).
#[tactic(auto, unfolding(crate::specs::Spelled::word_5))]
fn word_5<'a>(a: u8, b: u8, c: u8, d: u8, e: u8) -> Option<Word<'a>>
    ensures { option_map said result ≡ word_5 a b c d e }
{
    match (a, b, c, d, e) {
        (b'_', b'B', b'o', b'o', b'l') => Some(Word::BoolWord),
        (b's', b'h', b'o', b'r', b't') => Some(Word::ShortWord),
        (b'u', b'n', b'i', b'o', b'n') => Some(Word::TagWord(AggKind::Union)),
        (b'w', b'h', b'i', b'l', b'e') => Some(Word::WhileWord),
        (b'b', b'r', b'e', b'a', b'k') => Some(Word::BreakWord),
        _ => None,
    }
}

/// The keyword of six bytes (C11 6.4.1).
fn word_6<'a>(token: &[u8]) -> Option<Word<'a>>
    ensures { option_map said result ≡ look_up words_6 token.now }
{
    if token == b"signed".as_slice() {
        return Some(Word::SignedWord);
    }
    if token == b"struct".as_slice() {
        return Some(Word::TagWord(AggKind::Struct));
    }
    if token == b"extern".as_slice() {
        return Some(Word::ExternWord);
    }
    if token == b"static".as_slice() {
        return Some(Word::StaticWord);
    }
    if token == b"switch".as_slice() {
        return Some(Word::SwitchWord);
    }
    if token == b"return".as_slice() {
        return Some(Word::ReturnWord);
    }
    None
}

/// The keyword of seven bytes (C11 6.4.1).
#[tactic(auto, unfolding(crate::specs::Spelled::word_7))]
fn word_7<'a>(a: u8, b: u8, c: u8, d: u8, e: u8, f: u8, g: u8) -> Option<Word<'a>>
    ensures { option_map said result ≡ word_7 a b c d e f g }
{
    match (a, b, c, d, e, f, g) {
        (b'd', b'e', b'f', b'a', b'u', b'l', b't') => Some(Word::DefaultWord),
        _ => None,
    }
}

/// The keyword of eight bytes (C11 6.4.1).
#[tactic(auto, unfolding(crate::specs::Spelled::word_8))]
fn word_8<'a>(a: u8, b: u8, c: u8, d: u8, e: u8, f: u8, g: u8, h: u8) -> Option<Word<'a>>
    ensures { option_map said result ≡ word_8 a b c d e f g h }
{
    match (a, b, c, d, e, f, g, h) {
        (b'u', b'n', b's', b'i', b'g', b'n', b'e', b'd') => Some(Word::UnsignedWord),
        _ => None,
    }
}

/// The punctuator (C11 6.4.6p1) that a token is.
fn sign_of<'a>(token: &[u8]) -> Option<Word<'a>>
    ensures { option_map said result ≡ sign_of token.now }
{
    match token {
        [a] => sign_1(*a),
        [a, b] => sign_2(*a, *b),
        [a, b, c] => sign_3(*a, *b, *c),
        _ => None,
    }
}

/// The keyword (C11 6.4.1) that a token is.
fn reserved_of<'a>(token: &[u8]) -> Option<Word<'a>>
    ensures { option_map said result ≡ reserved_of token.now }
{
    match token {
        [a, b] => word_2(*a, *b),
        [a, b, c] => word_3(*a, *b, *c),
        [a, b, c, d] => word_4(*a, *b, *c, *d),
        [a, b, c, d, e] => word_5(*a, *b, *c, *d, *e),
        [_, _, _, _, _, _] => word_6(token),
        [a, b, c, d, e, f, g] => word_7(*a, *b, *c, *d, *e, *f, *g),
        [a, b, c, d, e, f, g, h] => word_8(*a, *b, *c, *d, *e, *f, *g, *h),
        _ => None,
    }
}

/// A number of so much and a digit more, if it has at most 64 bits.
fn one_digit(n: u64, digit: u8) -> Option<u64>
    requires { is_ascii_digit digit ≡ true }
    ensures { MatchOption result (2 ^ 64 ≤ n * 10 + (digit - 48)) (λ m. (m ≡ n * 10 + (digit - 48)) × (m < 2 ^ 64)) }
{
    n.checked_mul(10)?.checked_add((digit - b'0') as u64)
}

/// The kind of a constant by its suffix (C11 6.4.4.1).
fn kind_of(suffix: &[u8]) -> Option<IntKind>
    ensures { result ≡ look_up suffixes suffix.now }
{
    match suffix {
        [] => Some(IntKind::Int),
        [b'U'] => Some(IntKind::UInt),
        [b'L'] => Some(IntKind::Long),
        [b'U', b'L'] => Some(IntKind::ULong),
        [b'L', b'L'] => Some(IntKind::LLong),
        [b'U', b'L', b'L'] => Some(IntKind::ULLong),
        _ => None,
    }
}

/// The constant of a value and a suffix.
fn suffixed<'a>(value: u64, suffix: &[u8]) -> Word<'a>
    ensures { said result ≡ number_or_other value (look_up suffixes suffix.now) }
{
    match kind_of(suffix) {
        Some(kind) => Word::Number(kind, value),
        None => Word::Other,
    }
}

/// The constant that a token is: digits and a suffix.
fn number<'a>(token: &[u8]) -> Word<'a>
    ensures { said result ≡ number_from 0 token.now }
{
    let mut value: u64 = 0;
    for at in 0..token.len() {
        if !token[at].is_ascii_digit() {
            return suffixed(value, &token[at..]);
        }
        match one_digit(value, token[at]) {
            Some(more) => value = more,
            None => return Word::Other,
        }
    }
    Word::Number(IntKind::Int, value)
}

/// What a token is that is neither a punctuator nor a keyword.
fn free_word(token: &[u8]) -> Word
    ensures { said result ≡ free_word token.now }
{
    match token {
        [] => Word::Other,
        [first, ..] => {
            if first.is_ascii_digit() {
                number(token)
            } else {
                Word::Name(token)
            }
        }
    }
}

/// A token by its bytes.
#[tactic(auto, using(crate::proofs::SpelledLaws::spelled), unfolding(cil_text::specs::Words::word_of))]
pub fn word_of(token: &[u8]) -> Word
    ensures { said result ≡ word_of token.now }
{
    if let Some(sign) = sign_of(token) {
        return sign;
    }
    match reserved_of(token) {
        Some(word) => word,
        None => free_word(token),
    }
}
