ghost use Rattle.std.specs.Prelude.{◌≡◌, ◌==◌};
ghost use Rattle.std.specs.List.{list_any};
ghost use Rattle.c_lexer.specs.Tokens.{number_meaning, meaning_of_word, meaning_of_text, character_meaning, literal_meaning, sign_meaning, meaning};

use crate::constants::{characters, has_universal, is_floating, is_integer};
use crate::pieces::{Kind, Sign};
use crate::words::{WordMeaning, first_byte, word_meaning};
use cil_base::{Fault, Feature, Punctuator, TokenKind, What};

/// The most bytes of an identifier (own).
const NAME_BYTES: usize = 1024;

/// What a piece that is no blank, comment or line is outside attributes.
#[derive(Clone, Copy)]
pub enum Meaning {
    /// A token other than an identifier.
    Token(TokenKind),
    /// An identifier.
    Name,
    /// It is passed over.
    Skipped,
    /// It begins an attribute.
    Attribute,
    Fault(Fault),
}

/// A preprocessing number has to be an integer constant (C11 6.4.4.1); floating constants are excluded (own).
#[tactic(auto, unfolding(crate::specs::Tokens::number_meaning))]
fn number_meaning(text: &[u8]) -> Meaning
    ensures { result ≡ number_meaning text.now }
{
    if is_integer(text) {
        return Meaning::Token(TokenKind::Integer);
    }
    if is_floating(text) {
        return Meaning::Fault(Fault::Excluded(Feature::Floating));
    }
    Meaning::Fault(Fault::Lexical)
}

fn meaning_of_word(len: usize, word: WordMeaning) -> Meaning
    ensures { result ≡ meaning_of_word len word }
{
    match word {
        WordMeaning::Keyword(keyword) => Meaning::Token(TokenKind::Keyword(keyword)),
        WordMeaning::Excluded(feature) => Meaning::Fault(Fault::Excluded(feature)),
        WordMeaning::Skipped => Meaning::Skipped,
        WordMeaning::Attribute => Meaning::Attribute,
        WordMeaning::Name => if len <= NAME_BYTES {
            Meaning::Name
        } else {
            Meaning::Fault(Fault::Limit(What::NameBytes))
        },
    }
}

fn has_backslash(text: &[u8]) -> bool
    ensures { result ≡ list_any (λ b. b == 92) text.now }
{
    text.iter().any(|b| *b == b'\\')
}

/// A word with a backslash has a universal character name, which is excluded (own).
#[tactic(auto, unfolding(crate::specs::Tokens::meaning_of_text))]
fn meaning_of_text(text: &[u8]) -> Meaning
    ensures { result ≡ meaning_of_text text.now }
{
    if has_backslash(text) {
        return Meaning::Fault(Fault::Excluded(Feature::Universal));
    }
    meaning_of_word(text.len(), word_meaning(text))
}

/// A character constant has one character and no prefix (C11 6.4.4.4; the rest is excluded).
#[tactic(auto, unfolding(crate::specs::Tokens::character_meaning))]
fn character_meaning(text: &[u8]) -> Meaning
    ensures { result ≡ character_meaning text.now }
{
    let count = characters(text);
    if count == 0 {
        return Meaning::Fault(Fault::Lexical);
    }
    if first_byte(text) != b'\'' {
        return Meaning::Fault(Fault::Excluded(Feature::Prefixed));
    }
    if count != 1 {
        return Meaning::Fault(Fault::Excluded(Feature::MultiChar));
    }
    if has_universal(text) {
        return Meaning::Fault(Fault::Excluded(Feature::Universal));
    }
    Meaning::Token(TokenKind::Character)
}

/// A string literal has no prefix (C11 6.4.5; the rest is excluded).
#[tactic(auto, unfolding(crate::specs::Tokens::literal_meaning))]
fn literal_meaning(text: &[u8]) -> Meaning
    ensures { result ≡ literal_meaning text.now }
{
    if first_byte(text) != b'"' {
        return Meaning::Fault(Fault::Excluded(Feature::Prefixed));
    }
    if has_universal(text) {
        return Meaning::Fault(Fault::Excluded(Feature::Universal));
    }
    Meaning::Token(TokenKind::Literal)
}

/// A digraph is another spelling of its punctuator (C11 6.4.6p3); what only preprocessing has is none.
fn sign_meaning(sign: Sign) -> Meaning
    ensures { result ≡ sign_meaning sign }
{
    match sign {
        Sign::Read(punctuator) => Meaning::Token(TokenKind::Punctuator(punctuator)),
        Sign::LessColon => Meaning::Token(TokenKind::Punctuator(Punctuator::LeftBracket)),
        Sign::ColonGreater => Meaning::Token(TokenKind::Punctuator(Punctuator::RightBracket)),
        Sign::LessPercent => Meaning::Token(TokenKind::Punctuator(Punctuator::LeftBrace)),
        Sign::PercentGreater => Meaning::Token(TokenKind::Punctuator(Punctuator::RightBrace)),
        Sign::Hash | Sign::TwoHashes | Sign::PercentColon | Sign::TwoPercentColons =>
            Meaning::Fault(Fault::Lexical),
    }
}

/// What a piece is outside attributes. Of two faults of one piece the lexical one comes first, then what is excluded, by the features'
/// numbers, then a long name.
pub fn meaning_of_piece(kind: Kind, text: &[u8]) -> Meaning
    ensures { result ≡ meaning kind text.now }
{
    match kind {
        Kind::Blank | Kind::LineEnd | Kind::Comment | Kind::Directive => Meaning::Skipped,
        Kind::Word => meaning_of_text(text),
        Kind::Number => number_meaning(text),
        Kind::Character => character_meaning(text),
        Kind::Text => literal_meaning(text),
        Kind::Sign(sign) => sign_meaning(sign),
        Kind::Broken => Meaning::Fault(Fault::Lexical),
    }
}
