ghost use Rattle.std.specs.Prelude.{◌≡◌, ◌<◌, ◌^◌, ◌≢◌, ℕ, MatchOption, option_map, decimal};
ghost use Rattle.std.specs.Str.Parse.{digits_value};
ghost use Rattle.c_meaning.specs.SourceFile.{spelled};
ghost use Rattle.c_meaning.specs.Reading.{terminal_of as the_terminal, word_terminal, sign_terminal, number_terminal, name_terminal, Number};
ghost use Rattle.cil_commands.specs.Reader.{terminal_of};

use cil_base::{Keyword, Punctuator, TokenKind};
use itoa::Buffer;

/// The least number that is no value of type int.
const INT_END: u64 = 2_147_483_648;

/// A token that a unit of the form can have.
#[derive(Clone, Copy)]
pub enum Tok {
    IntWord,
    MainWord,
    VoidWord,
    ReturnWord,
    Number(u32),
    OpenParen,
    CloseParen,
    OpenBrace,
    CloseBrace,
    Semicolon,
    Plus,
    Minus,
}

/// The token of the form that a token of that kind and text is.
pub fn token(kind: TokenKind, text: &[u8]) -> Option<Tok>
    ensures { option_map terminal_of result ≡ the_terminal (spelled kind text.now) }
{
    match kind {
        TokenKind::Keyword(keyword) => word(keyword),
        TokenKind::Punctuator(punctuator) => sign(punctuator),
        TokenKind::Name(_) => name(text),
        TokenKind::Integer => constant(text),
        TokenKind::Character | TokenKind::Literal => None,
    }
}

fn word(keyword: Keyword) -> Option<Tok>
    ensures { option_map terminal_of result ≡ word_terminal keyword }
{
    match keyword {
        Keyword::Int => Some(Tok::IntWord),
        Keyword::Void => Some(Tok::VoidWord),
        Keyword::Return => Some(Tok::ReturnWord),
        _ => None,
    }
}

fn sign(punctuator: Punctuator) -> Option<Tok>
    ensures { option_map terminal_of result ≡ sign_terminal punctuator }
{
    match punctuator {
        Punctuator::LeftParen => Some(Tok::OpenParen),
        Punctuator::RightParen => Some(Tok::CloseParen),
        Punctuator::LeftBrace => Some(Tok::OpenBrace),
        Punctuator::RightBrace => Some(Tok::CloseBrace),
        Punctuator::Semicolon => Some(Tok::Semicolon),
        Punctuator::Plus => Some(Tok::Plus),
        Punctuator::Minus => Some(Tok::Minus),
        _ => None,
    }
}

#[tactic(auto, unfolding(c_meaning::specs::Reading::name_terminal))]
fn name(text: &[u8]) -> Option<Tok>
    ensures { option_map terminal_of result ≡ name_terminal text.now }
{
    if text == b"main".as_slice() {
        Some(Tok::MainWord)
    } else {
        None
    }
}

fn constant(text: &[u8]) -> Option<Tok>
    ensures { option_map terminal_of result ≡ number_terminal text.now }
{
    number(text).map(Tok::Number)
}

/// The value of a decimal constant of type int (C11 6.4.4.1): its text is the one that its value has in decimal.
fn number(text: &[u8]) -> Option<u32>
    ensures { option_map (λ value. Number value) result ≡ number_terminal text.now }
{
    let value = digits(text)?;
    let mut buffer = Buffer::new();
    if buffer.format(value).as_bytes() == text {
        Some(value)
    } else {
        None
    }
}

/// The value of decimal digits, if it is below 2^31.
fn digits(text: &[u8]) -> Option<u32>
    ensures { MatchOption result
        ((n : ℕ) → n < 2 ^ 31 → text.now ≢ decimal n)
        (λ n. (n < 2 ^ 31) × (n ≡ digits_value 10 text.now)) }
{
    let mut value = 0u64;
    for b in text {
        if !b.is_ascii_digit() {
            return None;
        }
        value = value * 10 + u64::from(*b - b'0');
        if value >= INT_END {
            return None;
        }
    }
    Some(value as u32)
}
