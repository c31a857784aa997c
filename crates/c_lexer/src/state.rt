use crate::pieces::Sign;

/// Where in an escape the bytes stand (C11 6.4.3, 6.4.4.4).
#[derive(Clone, Copy)]
pub enum Mode {
    /// In none.
    Plain,
    /// Behind its backslash.
    Escaped,
    /// So many hexadecimal digits have to come.
    Digits(u8),
}

/// The quotes of a character constant and of a string literal.
#[derive(Clone, Copy)]
pub enum Quote {
    Single,
    Double,
}

/// The words that are a prefix of a literal where its quote stands directly behind them (C11 6.4.4.4, 6.4.5).
#[derive(Clone, Copy)]
pub enum Prefix {
    /// `L` or `U`, of both literals.
    Letter,
    /// `u`, of both literals.
    SmallU,
    /// `u8`, of string literals alone.
    SmallU8,
}

/// What is known of a piece while its bytes are read, behind the first.
#[derive(Clone, Copy)]
pub enum State {
    Blanks,
    LineEnd,
    /// In a line that begins with `#`.
    Line,
    /// Behind its line feed.
    LineDone,
    /// In a comment of one line.
    LineComment,
    /// Behind `/*`.
    CommentOpen,
    /// In a comment; whether the last byte is a star of it.
    Comment(bool),
    CommentDone,
    Prefix(Prefix),
    Word(Mode),
    /// Behind a backslash with which the piece begins.
    Backslash,
    /// In a preprocessing number; whether a sign may follow.
    Number(Mode, bool),
    /// Behind the quote that opens a literal.
    Opened(Quote),
    Literal(Quote, Mode),
    Closed(Quote),
    Sign(Sign),
    /// Behind `..`.
    TwoDots,
    /// Behind `%:%`.
    PercentColonPercent,
    /// Behind a byte that begins no token.
    Stray,
}
