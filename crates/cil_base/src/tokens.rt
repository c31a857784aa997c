ghost use Rattle.std.specs.Prelude.{◌≡◌};
ghost use Rattle.std.specs.Option.{option_copied};
ghost use Rattle.cil_base.specs.Token.{keyword_spelling, punctuator_spelling, second_spelling};

use crate::numbers::NameId;

/// The keywords of C11 6.4.1 that are read.
#[derive(Clone, Copy, PartialEq, Eq)]
pub enum Keyword {
    /// `auto`
    Auto,
    /// `break`
    Break,
    /// `case`
    Case,
    /// `char`
    Char,
    /// `const`
    Const,
    /// `continue`
    Continue,
    /// `default`
    Default,
    /// `do`
    Do,
    /// `else`
    Else,
    /// `enum`
    Enum,
    /// `extern`
    Extern,
    /// `for`
    For,
    /// `goto`
    Goto,
    /// `if`
    If,
    /// `inline`
    Inline,
    /// `int`
    Int,
    /// `long`
    Long,
    /// `register`
    Register,
    /// `restrict`
    Restrict,
    /// `return`
    Return,
    /// `short`
    Short,
    /// `signed`
    Signed,
    /// `sizeof`
    Sizeof,
    /// `static`
    Static,
    /// `struct`
    Struct,
    /// `switch`
    Switch,
    /// `typedef`
    Typedef,
    /// `union`
    Union,
    /// `unsigned`
    Unsigned,
    /// `void`
    Void,
    /// `while`
    While,
    /// `_Alignof`
    Alignof,
    /// `_Bool`
    Bool,
    /// `_Noreturn`
    Noreturn,
    /// `_Static_assert`
    StaticAssert,
}

/// All keywords, in the order of the alphabet.
pub const KEYWORDS: [Keyword; 35] = [
    Keyword::Auto,
    Keyword::Break,
    Keyword::Case,
    Keyword::Char,
    Keyword::Const,
    Keyword::Continue,
    Keyword::Default,
    Keyword::Do,
    Keyword::Else,
    Keyword::Enum,
    Keyword::Extern,
    Keyword::For,
    Keyword::Goto,
    Keyword::If,
    Keyword::Inline,
    Keyword::Int,
    Keyword::Long,
    Keyword::Register,
    Keyword::Restrict,
    Keyword::Return,
    Keyword::Short,
    Keyword::Signed,
    Keyword::Sizeof,
    Keyword::Static,
    Keyword::Struct,
    Keyword::Switch,
    Keyword::Typedef,
    Keyword::Union,
    Keyword::Unsigned,
    Keyword::Void,
    Keyword::While,
    Keyword::Alignof,
    Keyword::Bool,
    Keyword::Noreturn,
    Keyword::StaticAssert,
];

impl Keyword {
    /// The keyword as it is written (C11 6.4.1).
    pub fn spelling(self) -> &'static [u8]
        ensures { result.now ≡ keyword_spelling self }
    {
        match self {
            Keyword::Auto => b"auto",
            Keyword::Break => b"break",
            Keyword::Case => b"case",
            Keyword::Char => b"char",
            Keyword::Const => b"const",
            Keyword::Continue => b"continue",
            Keyword::Default => b"default",
            Keyword::Do => b"do",
            Keyword::Else => b"else",
            Keyword::Enum => b"enum",
            Keyword::Extern => b"extern",
            Keyword::For => b"for",
            Keyword::Goto => b"goto",
            Keyword::If => b"if",
            Keyword::Inline => b"inline",
            Keyword::Int => b"int",
            Keyword::Long => b"long",
            Keyword::Register => b"register",
            Keyword::Restrict => b"restrict",
            Keyword::Return => b"return",
            Keyword::Short => b"short",
            Keyword::Signed => b"signed",
            Keyword::Sizeof => b"sizeof",
            Keyword::Static => b"static",
            Keyword::Struct => b"struct",
            Keyword::Switch => b"switch",
            Keyword::Typedef => b"typedef",
            Keyword::Union => b"union",
            Keyword::Unsigned => b"unsigned",
            Keyword::Void => b"void",
            Keyword::While => b"while",
            Keyword::Alignof => b"_Alignof",
            Keyword::Bool => b"_Bool",
            Keyword::Noreturn => b"_Noreturn",
            Keyword::StaticAssert => b"_Static_assert",
        }
    }
}

/// The punctuators of C11 6.4.6 that are read. A digraph is a second spelling of its punctuator.
#[derive(Clone, Copy, PartialEq, Eq)]
pub enum Punctuator {
    /// `[`
    LeftBracket,
    /// `]`
    RightBracket,
    /// `(`
    LeftParen,
    /// `)`
    RightParen,
    /// `{`
    LeftBrace,
    /// `}`
    RightBrace,
    /// `.`
    Dot,
    /// `->`
    Arrow,
    /// `++`
    PlusPlus,
    /// `--`
    MinusMinus,
    /// `&`
    Ampersand,
    /// `*`
    Star,
    /// `+`
    Plus,
    /// `-`
    Minus,
    /// `~`
    Tilde,
    /// `!`
    Exclamation,
    /// `/`
    Slash,
    /// `%`
    Percent,
    /// `<<`
    LeftShift,
    /// `>>`
    RightShift,
    /// `<`
    Less,
    /// `>`
    Greater,
    /// `<=`
    LessEqual,
    /// `>=`
    GreaterEqual,
    /// `==`
    EqualEqual,
    /// `!=`
    ExclamationEqual,
    /// `^`
    Caret,
    /// `|`
    Bar,
    /// `&&`
    AmpersandAmpersand,
    /// `||`
    BarBar,
    /// `?`
    Question,
    /// `:`
    Colon,
    /// `;`
    Semicolon,
    /// `...`
    Ellipsis,
    /// `=`
    Equal,
    /// `*=`
    StarEqual,
    /// `/=`
    SlashEqual,
    /// `%=`
    PercentEqual,
    /// `+=`
    PlusEqual,
    /// `-=`
    MinusEqual,
    /// `<<=`
    LeftShiftEqual,
    /// `>>=`
    RightShiftEqual,
    /// `&=`
    AmpersandEqual,
    /// `^=`
    CaretEqual,
    /// `|=`
    BarEqual,
    /// `,`
    Comma,
}

/// All punctuators, those with a longer first spelling first.
pub const PUNCTUATORS: [Punctuator; 46] = [
    Punctuator::Ellipsis,
    Punctuator::LeftShiftEqual,
    Punctuator::RightShiftEqual,
    Punctuator::Arrow,
    Punctuator::PlusPlus,
    Punctuator::MinusMinus,
    Punctuator::LeftShift,
    Punctuator::RightShift,
    Punctuator::LessEqual,
    Punctuator::GreaterEqual,
    Punctuator::EqualEqual,
    Punctuator::ExclamationEqual,
    Punctuator::AmpersandAmpersand,
    Punctuator::BarBar,
    Punctuator::StarEqual,
    Punctuator::SlashEqual,
    Punctuator::PercentEqual,
    Punctuator::PlusEqual,
    Punctuator::MinusEqual,
    Punctuator::AmpersandEqual,
    Punctuator::CaretEqual,
    Punctuator::BarEqual,
    Punctuator::LeftBracket,
    Punctuator::RightBracket,
    Punctuator::LeftParen,
    Punctuator::RightParen,
    Punctuator::LeftBrace,
    Punctuator::RightBrace,
    Punctuator::Dot,
    Punctuator::Ampersand,
    Punctuator::Star,
    Punctuator::Plus,
    Punctuator::Minus,
    Punctuator::Tilde,
    Punctuator::Exclamation,
    Punctuator::Slash,
    Punctuator::Percent,
    Punctuator::Less,
    Punctuator::Greater,
    Punctuator::Caret,
    Punctuator::Bar,
    Punctuator::Question,
    Punctuator::Colon,
    Punctuator::Semicolon,
    Punctuator::Equal,
    Punctuator::Comma,
];

impl Punctuator {
    /// The punctuator as it is written, its first spelling (C11 6.4.6p1).
    pub fn spelling(self) -> &'static [u8]
        ensures { result.now ≡ punctuator_spelling self }
    {
        match self {
            Punctuator::LeftBracket => b"[",
            Punctuator::RightBracket => b"]",
            Punctuator::LeftParen => b"(",
            Punctuator::RightParen => b")",
            Punctuator::LeftBrace => b"{",
            Punctuator::RightBrace => b"}",
            Punctuator::Dot => b".",
            Punctuator::Arrow => b"->",
            Punctuator::PlusPlus => b"++",
            Punctuator::MinusMinus => b"--",
            Punctuator::Ampersand => b"&",
            Punctuator::Star => b"*",
            Punctuator::Plus => b"+",
            Punctuator::Minus => b"-",
            Punctuator::Tilde => b"~",
            Punctuator::Exclamation => b"!",
            Punctuator::Slash => b"/",
            Punctuator::Percent => b"%",
            Punctuator::LeftShift => b"<<",
            Punctuator::RightShift => b">>",
            Punctuator::Less => b"<",
            Punctuator::Greater => b">",
            Punctuator::LessEqual => b"<=",
            Punctuator::GreaterEqual => b">=",
            Punctuator::EqualEqual => b"==",
            Punctuator::ExclamationEqual => b"!=",
            Punctuator::Caret => b"^",
            Punctuator::Bar => b"|",
            Punctuator::AmpersandAmpersand => b"&&",
            Punctuator::BarBar => b"||",
            Punctuator::Question => b"?",
            Punctuator::Colon => b":",
            Punctuator::Semicolon => b";",
            Punctuator::Ellipsis => b"...",
            Punctuator::Equal => b"=",
            Punctuator::StarEqual => b"*=",
            Punctuator::SlashEqual => b"/=",
            Punctuator::PercentEqual => b"%=",
            Punctuator::PlusEqual => b"+=",
            Punctuator::MinusEqual => b"-=",
            Punctuator::LeftShiftEqual => b"<<=",
            Punctuator::RightShiftEqual => b">>=",
            Punctuator::AmpersandEqual => b"&=",
            Punctuator::CaretEqual => b"^=",
            Punctuator::BarEqual => b"|=",
            Punctuator::Comma => b",",
        }
    }

    /// The punctuator's digraph, if it has one (C11 6.4.6p3).
    pub fn second_spelling(self) -> Option<&'static [u8]>
        ensures { option_copied result ≡ second_spelling self }
    {
        match self {
            Punctuator::LeftBracket => Some(b"<:"),
            Punctuator::RightBracket => Some(b":>"),
            Punctuator::LeftBrace => Some(b"<%"),
            Punctuator::RightBrace => Some(b"%>"),
            _ => None,
        }
    }
}

/// The kinds of tokens (C11 6.4). The value of a constant and the bytes of a literal are in the source.
#[derive(Clone, Copy, PartialEq, Eq)]
pub enum TokenKind {
    /// An identifier (6.4.2).
    Name(NameId),
    Keyword(Keyword),
    /// An integer constant (6.4.4.1).
    Integer,
    /// An integer character constant (6.4.4.4).
    Character,
    /// A string literal (6.4.5).
    Literal,
    Punctuator(Punctuator),
}

/// A token of a unit: the bytes of the source from start up to, and not with, end.
#[derive(Clone, Copy)]
pub struct Token {
    pub kind: TokenKind,
    pub start: u32,
    pub end: u32,
}
