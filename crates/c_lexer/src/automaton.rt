ghost use Rattle.std.specs.Prelude.{◌≡◌, ◌≤◌, ◌+◌, ℕ, false, List, ◌∷◌, ◌++◌, length, take, drop};
ghost use Rattle.c_lexer.specs.Longest.{IsLongest};
ghost use Rattle.c_lexer.specs.Automaton.{one_byte_sign, begins_sign, begins, behind_dot, behind_minus, behind_plus, behind_ampersand, behind_bar, behind_slash, behind_percent, behind_less, behind_greater, only, behind_punctuator, behind_sign, quote_byte, in_literal, behind_prefix, in_comment, behind, if_plain, accepts, longer, piece, word_at, number_at, literal_at, prefixes_character, is_small_u};

use crate::bytes::{is_blank, is_nondigit};
use crate::escapes::{
    exponent_behind, literal_behind, number_behind, universal_behind, word_behind,
};
use crate::pieces::{Kind, Raw, Sign};
use crate::runs::{blanks, literal, run, sign, word};
use crate::state::{Mode, Prefix, Quote, State};
use cil_base::Punctuator;

/// The punctuator that is this byte.
#[tactic(auto, unfolding(crate::specs::Automaton::one_byte_sign))]
fn one_byte_sign(b: u8) -> Option<Punctuator>
    ensures { result ≡ one_byte_sign b }
{
    match b {
        b'[' => Some(Punctuator::LeftBracket),
        b']' => Some(Punctuator::RightBracket),
        b'(' => Some(Punctuator::LeftParen),
        b')' => Some(Punctuator::RightParen),
        b'{' => Some(Punctuator::LeftBrace),
        b'}' => Some(Punctuator::RightBrace),
        b'.' => Some(Punctuator::Dot),
        b'&' => Some(Punctuator::Ampersand),
        b'*' => Some(Punctuator::Star),
        b'+' => Some(Punctuator::Plus),
        b'-' => Some(Punctuator::Minus),
        b'~' => Some(Punctuator::Tilde),
        b'!' => Some(Punctuator::Exclamation),
        b'/' => Some(Punctuator::Slash),
        b'%' => Some(Punctuator::Percent),
        b'<' => Some(Punctuator::Less),
        b'>' => Some(Punctuator::Greater),
        b'^' => Some(Punctuator::Caret),
        b'|' => Some(Punctuator::Bar),
        b'?' => Some(Punctuator::Question),
        b':' => Some(Punctuator::Colon),
        b';' => Some(Punctuator::Semicolon),
        b'=' => Some(Punctuator::Equal),
        b',' => Some(Punctuator::Comma),
        _ => None,
    }
}

/// Behind a first byte that begins no blank, word or number.
#[tactic(auto, unfolding(crate::specs::Automaton::begins_sign))]
fn begins_sign(fresh: bool, b: u8) -> State
    ensures { result ≡ begins_sign fresh b }
{
    match b {
        b'\'' => State::Opened(Quote::Single),
        b'"' => State::Opened(Quote::Double),
        b'\\' => State::Backslash,
        b'#' => begins_hash(fresh),
        _ => match one_byte_sign(b) {
            Some(punctuator) => State::Sign(Sign::Read(punctuator)),
            None => State::Stray,
        },
    }
}

#[tactic(auto, unfolding(crate::specs::Automaton::begins_sign))]
fn begins_hash(fresh: bool) -> State
    ensures { result ≡ begins_sign fresh 35 }
{
    if fresh {
        State::Line
    } else {
        State::Sign(Sign::Hash)
    }
}

/// The state behind the first byte of a piece, where `fresh` tells that only blanks stand before it on its line.
#[tactic(auto, unfolding(crate::specs::Automaton::begins))]
pub fn begins(fresh: bool, b: u8) -> State
    ensures { result ≡ begins fresh b }
{
    if is_blank(b) {
        return State::Blanks;
    }
    if b == b'\n' {
        return State::LineEnd;
    }
    if b == b'L' || b == b'U' {
        return State::Prefix(Prefix::Letter);
    }
    if b == b'u' {
        return State::Prefix(Prefix::SmallU);
    }
    if is_nondigit(b) {
        return State::Word(Mode::Plain);
    }
    if b.is_ascii_digit() {
        return State::Number(Mode::Plain, false);
    }
    begins_sign(fresh, b)
}

#[tactic(auto, unfolding(crate::specs::Automaton::behind_dot))]
fn behind_dot(b: u8) -> Option<State>
    ensures { result ≡ behind_dot b }
{
    if b == b'.' {
        return Some(State::TwoDots);
    }
    if b.is_ascii_digit() {
        Some(State::Number(Mode::Plain, false))
    } else {
        None
    }
}

fn read_sign(punctuator: Punctuator) -> Option<State>
    ensures { result ≡ Some (State.Sign (Sign.Read punctuator)) }
{
    Some(State::Sign(Sign::Read(punctuator)))
}

#[tactic(auto, unfolding(crate::specs::Automaton::behind_minus))]
fn behind_minus(b: u8) -> Option<State>
    ensures { result ≡ behind_minus b }
{
    match b {
        b'>' => read_sign(Punctuator::Arrow),
        b'-' => read_sign(Punctuator::MinusMinus),
        b'=' => read_sign(Punctuator::MinusEqual),
        _ => None,
    }
}

#[tactic(auto, unfolding(crate::specs::Automaton::behind_plus))]
fn behind_plus(b: u8) -> Option<State>
    ensures { result ≡ behind_plus b }
{
    match b {
        b'+' => read_sign(Punctuator::PlusPlus),
        b'=' => read_sign(Punctuator::PlusEqual),
        _ => None,
    }
}

#[tactic(auto, unfolding(crate::specs::Automaton::behind_ampersand))]
fn behind_ampersand(b: u8) -> Option<State>
    ensures { result ≡ behind_ampersand b }
{
    match b {
        b'&' => read_sign(Punctuator::AmpersandAmpersand),
        b'=' => read_sign(Punctuator::AmpersandEqual),
        _ => None,
    }
}

#[tactic(auto, unfolding(crate::specs::Automaton::behind_bar))]
fn behind_bar(b: u8) -> Option<State>
    ensures { result ≡ behind_bar b }
{
    match b {
        b'|' => read_sign(Punctuator::BarBar),
        b'=' => read_sign(Punctuator::BarEqual),
        _ => None,
    }
}

#[tactic(auto, unfolding(crate::specs::Automaton::behind_slash))]
fn behind_slash(b: u8) -> Option<State>
    ensures { result ≡ behind_slash b }
{
    match b {
        b'*' => Some(State::CommentOpen),
        b'/' => Some(State::LineComment),
        b'=' => read_sign(Punctuator::SlashEqual),
        _ => None,
    }
}

#[tactic(auto, unfolding(crate::specs::Automaton::behind_percent))]
fn behind_percent(b: u8) -> Option<State>
    ensures { result ≡ behind_percent b }
{
    match b {
        b'=' => read_sign(Punctuator::PercentEqual),
        b'>' => Some(State::Sign(Sign::PercentGreater)),
        b':' => Some(State::Sign(Sign::PercentColon)),
        _ => None,
    }
}

#[tactic(auto, unfolding(crate::specs::Automaton::behind_less))]
fn behind_less(b: u8) -> Option<State>
    ensures { result ≡ behind_less b }
{
    match b {
        b'<' => read_sign(Punctuator::LeftShift),
        b'=' => read_sign(Punctuator::LessEqual),
        b':' => Some(State::Sign(Sign::LessColon)),
        b'%' => Some(State::Sign(Sign::LessPercent)),
        _ => None,
    }
}

#[tactic(auto, unfolding(crate::specs::Automaton::behind_greater))]
fn behind_greater(b: u8) -> Option<State>
    ensures { result ≡ behind_greater b }
{
    match b {
        b'>' => read_sign(Punctuator::RightShift),
        b'=' => read_sign(Punctuator::GreaterEqual),
        _ => None,
    }
}

/// A state that one byte alone leads to.
#[tactic(auto, unfolding(crate::specs::Automaton::only))]
fn only(wanted: u8, state: State, b: u8) -> Option<State>
    ensures { result ≡ only wanted state b }
{
    if b == wanted { Some(state) } else { None }
}

fn only_equal(punctuator: Punctuator, b: u8) -> Option<State>
    ensures { result ≡ only 61 (State.Sign (Sign.Read punctuator)) b }
{
    only(b'=', State::Sign(Sign::Read(punctuator)), b)
}

/// A punctuator with one more byte.
#[tactic(auto, unfolding(crate::specs::Automaton::behind_punctuator))]
pub fn behind_punctuator(punctuator: Punctuator, b: u8) -> Option<State>
    ensures { result ≡ behind_punctuator punctuator b }
{
    match punctuator {
        Punctuator::Dot => behind_dot(b),
        Punctuator::Minus => behind_minus(b),
        Punctuator::Plus => behind_plus(b),
        Punctuator::Ampersand => behind_ampersand(b),
        Punctuator::Bar => behind_bar(b),
        Punctuator::Slash => behind_slash(b),
        Punctuator::Percent => behind_percent(b),
        Punctuator::Less => behind_less(b),
        Punctuator::Greater => behind_greater(b),
        Punctuator::Star => only_equal(Punctuator::StarEqual, b),
        Punctuator::Exclamation => only_equal(Punctuator::ExclamationEqual, b),
        Punctuator::LeftShift => only_equal(Punctuator::LeftShiftEqual, b),
        Punctuator::RightShift => only_equal(Punctuator::RightShiftEqual, b),
        Punctuator::Equal => only_equal(Punctuator::EqualEqual, b),
        Punctuator::Caret => only_equal(Punctuator::CaretEqual, b),
        Punctuator::Colon => only(b'>', State::Sign(Sign::ColonGreater), b),
        _ => None,
    }
}

#[tactic(auto, unfolding(crate::specs::Automaton::behind_sign))]
fn behind_sign(sign: Sign, b: u8) -> Option<State>
    ensures { result ≡ behind_sign sign b }
{
    match sign {
        Sign::Read(punctuator) => behind_punctuator(punctuator, b),
        Sign::Hash => only(b'#', State::Sign(Sign::TwoHashes), b),
        Sign::PercentColon => only(b'%', State::PercentColonPercent, b),
        _ => None,
    }
}

impl Quote {
    pub fn byte(self) -> u8
        ensures { result ≡ quote_byte self }
    {
        match self {
            Quote::Single => b'\'',
            Quote::Double => b'"',
        }
    }
}

fn literal_at(quote: Quote, mode: Option<Mode>) -> Option<State>
    ensures { result ≡ literal_at quote mode }
{
    match mode {
        Some(mode) => Some(State::Literal(quote, mode)),
        None => None,
    }
}

fn word_at(mode: Option<Mode>) -> Option<State>
    ensures { result ≡ word_at mode }
{
    match mode {
        Some(mode) => Some(State::Word(mode)),
        None => None,
    }
}

fn number_at(exponent: bool, mode: Option<Mode>) -> Option<State>
    ensures { result ≡ number_at exponent mode }
{
    match mode {
        Some(mode) => Some(State::Number(mode, exponent)),
        None => None,
    }
}

#[tactic(auto, unfolding(crate::specs::Automaton::in_literal))]
fn in_literal(quote: Quote, mode: Mode, b: u8) -> Option<State>
    ensures { result ≡ in_literal quote mode b }
{
    if mode.is_plain() && b == quote.byte() {
        return Some(State::Closed(quote));
    }
    literal_at(quote, literal_behind(mode, b))
}

impl Prefix {
    fn prefixes_character(self) -> bool
        ensures { result ≡ prefixes_character self }
    {
        match self {
            Prefix::Letter | Prefix::SmallU => true,
            Prefix::SmallU8 => false,
        }
    }

    fn is_small_u(self) -> bool
        ensures { result ≡ is_small_u self }
    {
        match self {
            Prefix::SmallU => true,
            Prefix::Letter | Prefix::SmallU8 => false,
        }
    }
}

#[tactic(auto, unfolding(crate::specs::Automaton::behind_prefix))]
fn behind_prefix(prefix: Prefix, b: u8) -> Option<State>
    ensures { result ≡ behind_prefix prefix b }
{
    if b == b'"' {
        return Some(State::Opened(Quote::Double));
    }
    if prefix.prefixes_character() && b == b'\'' {
        return Some(State::Opened(Quote::Single));
    }
    if prefix.is_small_u() && b == b'8' {
        return Some(State::Prefix(Prefix::SmallU8));
    }
    word_at(word_behind(Mode::Plain, b))
}

#[tactic(auto, unfolding(crate::specs::Automaton::in_comment))]
fn in_comment(star: bool, b: u8) -> State
    ensures { result ≡ in_comment star b }
{
    if star && b == b'/' {
        State::CommentDone
    } else {
        State::Comment(b == b'*')
    }
}

/// The state with one more byte, or none where no piece goes on so.
#[tactic(auto, unfolding(crate::specs::Automaton::behind))]
pub fn behind(state: State, b: u8) -> Option<State>
    ensures { result ≡ behind state b }
{
    match state {
        State::Blanks => if is_blank(b) {
            Some(State::Blanks)
        } else {
            None
        },
        State::Line => if b == b'\n' {
            Some(State::LineDone)
        } else {
            Some(State::Line)
        },
        State::LineComment => if b == b'\n' {
            None
        } else {
            Some(State::LineComment)
        },
        State::CommentOpen => Some(in_comment(false, b)),
        State::Comment(star) => Some(in_comment(star, b)),
        State::Prefix(prefix) => behind_prefix(prefix, b),
        State::Word(mode) => word_at(word_behind(mode, b)),
        State::Backslash => word_at(universal_behind(b)),
        State::Number(mode, exponent) => number_at(
            exponent_behind(mode, b),
            number_behind(exponent, mode, b),
        ),
        State::Opened(quote) => in_literal(quote, Mode::Plain, b),
        State::Literal(quote, mode) => in_literal(quote, mode, b),
        State::Sign(sign) => behind_sign(sign, b),
        State::TwoDots => only(b'.', State::Sign(Sign::Read(Punctuator::Ellipsis)), b),
        State::PercentColonPercent => only(b':', State::Sign(Sign::TwoPercentColons), b),
        State::LineEnd | State::LineDone | State::CommentDone | State::Closed(_) | State::Stray =>
            None,
    }
}

fn if_plain(mode: Mode, kind: Kind) -> Option<Kind>
    ensures { result ≡ if_plain mode kind }
{
    if mode.is_plain() { Some(kind) } else { None }
}

/// The kind of piece that is whole in the state.
#[tactic(auto, unfolding(crate::specs::Automaton::accepts))]
pub fn accepts(state: State) -> Option<Kind>
    ensures { result ≡ accepts state }
{
    match state {
        State::Blanks => Some(Kind::Blank),
        State::LineEnd => Some(Kind::LineEnd),
        State::Line | State::LineDone => Some(Kind::Directive),
        State::LineComment | State::CommentDone => Some(Kind::Comment),
        State::CommentOpen | State::Backslash | State::Opened(_) | State::Stray => Some(
            Kind::Broken,
        ),
        State::Prefix(_) => Some(Kind::Word),
        State::Word(mode) => if_plain(mode, Kind::Word),
        State::Number(mode, _) => if_plain(mode, Kind::Number),
        State::Closed(Quote::Single) => Some(Kind::Character),
        State::Closed(Quote::Double) => Some(Kind::Text),
        State::Sign(sign) => Some(Kind::Sign(sign)),
        State::Comment(_) | State::Literal(_, _) | State::TwoDots | State::PercentColonPercent =>
            None,
    }
}

/// A byte that begins no piece.
const NO_PIECE: Raw = Raw {
    kind: Kind::Broken,
    len: 1,
    at_end: false,
};

/// The longest piece so far, with one more byte.
pub fn longer(kind: Option<Kind>, len: usize, last: Raw) -> Raw
    ensures value { result ≡ longer kind len last }
    ensures some { 1 ≤ len → 1 ≤ last.len → 1 ≤ result.len }
    ensures within { last.len ≤ len → result.len ≤ len }
{
    match kind {
        Some(kind) => Raw {
            kind,
            len,
            at_end: false,
        },
        None => last,
    }
}

/// The longest piece (C11 6.4p4) that begins with the first byte and the bytes behind it, where `fresh` tells that only blanks stand
/// before it on its line. Where it is not `at_end`, it is the same with any more bytes behind them.
pub fn piece(fresh: bool, first: u8, rest: &[u8]) -> Raw
    ensures reading { result ≡ piece fresh first rest.now }
    ensures longest { IsLongest fresh (first ∷ rest.now) result.kind (take result.len (first ∷ rest.now)) (drop result.len (first ∷ rest.now)) }
    ensures some { 1 ≤ result.len }
    ensures within { result.len ≤ length rest.now + 1 }
    ensures stays { result.at_end ≡ false → (more : List ℕ) → piece fresh first (rest.now ++ more) ≡ result }
{
    munched(fresh, first, rest)
}

/// The automaton's run. Words, blanks and literals, of which a text has most, go by loops of their own, and most signs need none.
#[tactic(auto, unfolding(crate::specs::Automaton::piece))]
fn munched(fresh: bool, first: u8, rest: &[u8]) -> Raw
    ensures reading { result ≡ piece fresh first rest.now }
    ensures some { 1 ≤ result.len }
    ensures within { result.len ≤ length rest.now + 1 }
{
    let state = begins(fresh, first);
    match state {
        State::Word(Mode::Plain) => word(rest),
        State::Blanks => blanks(rest),
        State::Sign(Sign::Read(punctuator)) => sign(punctuator, rest),
        State::Opened(quote) => literal(quote, rest),
        _ => run(state, longer(accepts(state), 1, NO_PIECE), 1, rest),
    }
}
