ghost use Rattle.std.specs.Prelude.{◌≡◌, ◌≤◌, ◌+◌, ◌^◌, ℕ, true, length, Some};
ghost use Rattle.c_lexer.specs.Automaton.{in_literal, munch, whole};

use crate::automaton::{accepts, behind, behind_punctuator, longer};
use crate::bytes::{is_blank, is_word_byte};
use crate::pieces::{Kind, Raw, Sign};
use crate::state::{Mode, Quote, State};
use cil_base::Punctuator;

/// The longest piece, of which `len` bytes are read up to a state, where `last` is the longest whole one among its beginnings.
pub fn run(start: State, last: Raw, len: usize, rest: &[u8]) -> Raw
    requires room { len + length rest.now ≤ 2 ^ 63 }
    ensures reading { result ≡ munch start last len rest.now }
    ensures some { 1 ≤ last.len → 1 ≤ result.len }
    ensures within { last.len ≤ len → result.len ≤ len + length rest.now }
{
    let mut state = start;
    let mut longest = last;
    let mut read = len;
    for b in rest {
        match behind(state, *b) {
            None => return longest,
            Some(next) => {
                state = next;
                read += 1;
                longest = longer(accepts(next), read, longest);
            }
        }
    }
    Raw {
        at_end: true,
        ..longest
    }
}

/// A piece that begins with a nondigit, which is read (C11 6.4.2.1).
pub fn word(rest: &[u8]) -> Raw
    ensures reading { result ≡ munch (State.Word Mode.Plain) (whole Kind.Word 1) 1 rest.now }
    ensures some { 1 ≤ result.len }
    ensures within { result.len ≤ length rest.now + 1 }
{
    for (i, b) in rest.iter().enumerate() {
        if !is_word_byte(*b) {
            let word = Raw {
                kind: Kind::Word,
                len: i + 1,
                at_end: false,
            };
            if *b == b'\\' {
                return run(State::Word(Mode::Plain), word, i + 1, rest.split_at(i).1);
            }
            return word;
        }
    }
    Raw {
        kind: Kind::Word,
        len: rest.len() + 1,
        at_end: true,
    }
}

/// Blanks, of which one is read.
pub fn blanks(rest: &[u8]) -> Raw
    ensures reading { result ≡ munch State.Blanks (whole Kind.Blank 1) 1 rest.now }
    ensures some { 1 ≤ result.len }
    ensures within { result.len ≤ length rest.now + 1 }
{
    for (i, b) in rest.iter().enumerate() {
        if !is_blank(*b) {
            return Raw {
                kind: Kind::Blank,
                len: i + 1,
                at_end: false,
            };
        }
    }
    Raw {
        kind: Kind::Blank,
        len: rest.len() + 1,
        at_end: true,
    }
}

/// A literal whose opening quote is read, which alone is broken.
pub fn literal(quote: Quote, rest: &[u8]) -> Raw
    ensures reading { result ≡ munch (State.Opened quote) (whole Kind.Broken 1) 1 rest.now }
    ensures some { 1 ≤ result.len }
    ensures within { result.len ≤ length rest.now + 1 }
{
    let opening = Raw {
        kind: Kind::Broken,
        len: 1,
        at_end: false,
    };
    for (i, b) in rest.iter().enumerate() {
        if !is_plain_in(quote, *b) {
            return run(
                State::Literal(quote, Mode::Plain),
                opening,
                i + 1,
                rest.split_at(i).1,
            );
        }
    }
    Raw {
        at_end: true,
        ..opening
    }
}

/// Whether the byte stands for itself in a literal.
#[tactic(auto, unfolding(crate::specs::Automaton::in_literal))]
fn is_plain_in(quote: Quote, b: u8) -> bool
    ensures { result ≡ true → in_literal quote Mode.Plain b ≡ Some (State.Literal quote Mode.Plain) }
{
    b != b'\n' && b != b'\\' && b != quote.byte()
}

/// A sign that begins with a punctuator, which is read.
pub fn sign(punctuator: Punctuator, rest: &[u8]) -> Raw
    ensures reading { result ≡ munch (State.Sign (Sign.Read punctuator)) (whole (Kind.Sign (Sign.Read punctuator)) 1) 1 rest.now }
    ensures some { 1 ≤ result.len }
    ensures within { result.len ≤ length rest.now + 1 }
{
    let alone = Raw {
        kind: Kind::Sign(Sign::Read(punctuator)),
        len: 1,
        at_end: false,
    };
    if ends_sign(punctuator, rest) {
        return alone;
    }
    run(State::Sign(Sign::Read(punctuator)), alone, 1, rest)
}

/// Whether a byte is next with which no sign goes on.
fn ends_sign(punctuator: Punctuator, rest: &[u8]) -> bool
    ensures { result ≡ true → (last : Raw) (len : ℕ) → munch (State.Sign (Sign.Read punctuator)) last len rest.now ≡ last }
{
    match rest {
        [b, ..] => match behind_punctuator(punctuator, *b) {
            None => true,
            Some(_) => false,
        },
        [] => false,
    }
}
