use cil_base::Punctuator;

/// What is written like a punctuator (C11 6.4.6): one that is read, by its first spelling or its digraph, or one that only
/// preprocessing has, which is no token here.
#[derive(Clone, Copy)]
pub enum Sign {
    /// A punctuator by its first spelling.
    Read(Punctuator),
    /// `<:`
    LessColon,
    /// `:>`
    ColonGreater,
    /// `<%`
    LessPercent,
    /// `%>`
    PercentGreater,
    /// `#`
    Hash,
    /// `##`
    TwoHashes,
    /// `%:`
    PercentColon,
    /// `%:%:`
    TwoPercentColons,
}

/// The kinds of pieces into which a text is cut (C11 6.4; the cutting of what is no token is own).
#[derive(Clone, Copy)]
pub enum Kind {
    /// Blanks without a line feed.
    Blank,
    /// A line feed.
    LineEnd,
    /// A comment of either form (6.4.9).
    Comment,
    /// A line that begins with `#`, with its line feed if it has one.
    Directive,
    /// An identifier or keyword, with universal character names (6.4.1, 6.4.2.1).
    Word,
    /// A preprocessing number (6.4.8).
    Number,
    /// A character constant, with its prefix (6.4.4.4).
    Character,
    /// A string literal, with its prefix (6.4.5).
    Text,
    /// What is written like a punctuator.
    Sign(Sign),
    /// The opening of a literal or comment that has no end, or a byte that begins no token.
    Broken,
}

/// The next piece: its kind and how many bytes it has.
#[derive(Clone, Copy)]
pub struct Raw {
    pub kind: Kind,
    pub len: usize,
    /// The bytes ended before another byte showed where the piece ends: with more bytes it may be another one.
    pub at_end: bool,
}
