use crate::lexer::kinds;
use cil_base::{Keyword, Punctuator, Stop, TokenKind};
use std::alloc::Global;
use std::test::Fail;

/// The punctuators of C11 6.4.6 that are read, and the digraphs of some.
fn punctuators() -> &'static [(&'static str, Punctuator)] {
    &[
        ("[", Punctuator::LeftBracket),
        ("]", Punctuator::RightBracket),
        ("(", Punctuator::LeftParen),
        (")", Punctuator::RightParen),
        ("{", Punctuator::LeftBrace),
        ("}", Punctuator::RightBrace),
        (".", Punctuator::Dot),
        ("->", Punctuator::Arrow),
        ("++", Punctuator::PlusPlus),
        ("--", Punctuator::MinusMinus),
        ("&", Punctuator::Ampersand),
        ("*", Punctuator::Star),
        ("+", Punctuator::Plus),
        ("-", Punctuator::Minus),
        ("~", Punctuator::Tilde),
        ("!", Punctuator::Exclamation),
        ("/", Punctuator::Slash),
        ("%", Punctuator::Percent),
        ("<<", Punctuator::LeftShift),
        (">>", Punctuator::RightShift),
        ("<", Punctuator::Less),
        (">", Punctuator::Greater),
        ("<=", Punctuator::LessEqual),
        (">=", Punctuator::GreaterEqual),
        ("==", Punctuator::EqualEqual),
        ("!=", Punctuator::ExclamationEqual),
        ("^", Punctuator::Caret),
        ("|", Punctuator::Bar),
        ("&&", Punctuator::AmpersandAmpersand),
        ("||", Punctuator::BarBar),
        ("?", Punctuator::Question),
        (":", Punctuator::Colon),
        (";", Punctuator::Semicolon),
        ("...", Punctuator::Ellipsis),
        ("=", Punctuator::Equal),
        ("*=", Punctuator::StarEqual),
        ("/=", Punctuator::SlashEqual),
        ("%=", Punctuator::PercentEqual),
        ("+=", Punctuator::PlusEqual),
        ("-=", Punctuator::MinusEqual),
        ("<<=", Punctuator::LeftShiftEqual),
        (">>=", Punctuator::RightShiftEqual),
        ("&=", Punctuator::AmpersandEqual),
        ("^=", Punctuator::CaretEqual),
        ("|=", Punctuator::BarEqual),
        (",", Punctuator::Comma),
        ("<:", Punctuator::LeftBracket),
        (":>", Punctuator::RightBracket),
        ("<%", Punctuator::LeftBrace),
        ("%>", Punctuator::RightBrace),
    ]
}

/// The first punctuator of a table that is not the one token of its spelling.
fn first_other_punctuator(
    alloc: Global,
    rows: &[(&'static str, Punctuator)],
) -> Result<Option<&'static str>, Stop> {
    for (spelling, punctuator) in rows {
        if !is_one(alloc, spelling, TokenKind::Punctuator(*punctuator))? {
            return Ok(Some(*spelling));
        }
    }
    Ok(None)
}

/// Whether a text is one token, of that kind.
fn is_one(alloc: Global, text: &str, kind: TokenKind) -> Result<bool, Stop> {
    let found = kinds(alloc, text.as_bytes())?;
    Ok(found.as_slice() == [kind].as_slice())
}

#[test]
fn reads_punctuators(rt: HostRuntime) -> Result<(), Fail> {
    let other = first_other_punctuator(rt.alloc(), punctuators())?;
    assert_eq!(rt; other, None);
    Ok(())
}

/// The keywords of C11 6.4.1 that are read, and the other spellings of some.
fn keywords() -> &'static [(&'static str, Keyword)] {
    &[
        ("auto", Keyword::Auto),
        ("break", Keyword::Break),
        ("case", Keyword::Case),
        ("char", Keyword::Char),
        ("const", Keyword::Const),
        ("continue", Keyword::Continue),
        ("default", Keyword::Default),
        ("do", Keyword::Do),
        ("else", Keyword::Else),
        ("enum", Keyword::Enum),
        ("extern", Keyword::Extern),
        ("for", Keyword::For),
        ("goto", Keyword::Goto),
        ("if", Keyword::If),
        ("inline", Keyword::Inline),
        ("int", Keyword::Int),
        ("long", Keyword::Long),
        ("register", Keyword::Register),
        ("restrict", Keyword::Restrict),
        ("return", Keyword::Return),
        ("short", Keyword::Short),
        ("signed", Keyword::Signed),
        ("sizeof", Keyword::Sizeof),
        ("static", Keyword::Static),
        ("struct", Keyword::Struct),
        ("switch", Keyword::Switch),
        ("typedef", Keyword::Typedef),
        ("union", Keyword::Union),
        ("unsigned", Keyword::Unsigned),
        ("void", Keyword::Void),
        ("while", Keyword::While),
        ("_Alignof", Keyword::Alignof),
        ("_Bool", Keyword::Bool),
        ("_Noreturn", Keyword::Noreturn),
        ("_Static_assert", Keyword::StaticAssert),
        ("__restrict", Keyword::Restrict),
        ("__restrict__", Keyword::Restrict),
        ("__inline", Keyword::Inline),
        ("__inline__", Keyword::Inline),
        ("__const", Keyword::Const),
        ("__signed__", Keyword::Signed),
    ]
}

/// The first keyword of a table that is not the one token of its spelling.
fn first_other_keyword(
    alloc: Global,
    rows: &[(&'static str, Keyword)],
) -> Result<Option<&'static str>, Stop> {
    for (spelling, keyword) in rows {
        if !is_one(alloc, spelling, TokenKind::Keyword(*keyword))? {
            return Ok(Some(*spelling));
        }
    }
    Ok(None)
}

#[test]
fn reads_keywords(rt: HostRuntime) -> Result<(), Fail> {
    let other = first_other_keyword(rt.alloc(), keywords())?;
    assert_eq!(rt; other, None);
    Ok(())
}

/// Texts and the same with a blank behind each token but the last, as longest match cuts them (C11 6.4p4).
fn cuts() -> &'static [(&'static str, &'static str)] {
    &[
        ("a+++++b", "a ++ ++ + b"),
        ("a+++b", "a ++ + b"),
        ("x-->y", "x -- > y"),
        ("x->y", "x -> y"),
        ("x<-y", "x < - y"),
        ("..", ". ."),
        ("....", "... ."),
        (".....", "... . ."),
        ("a..b", "a . . b"),
        ("<::", "<: :"),
        ("<:::>", "<: : :>"),
        ("a>>=b", "a >>= b"),
        ("a>>>=b", "a >> >= b"),
        ("a<<<=b", "a << <= b"),
        ("a&&&b", "a && & b"),
        ("a|||b", "a || | b"),
        ("a===b", "a == = b"),
        ("a!==b", "a != = b"),
        ("%>%=%", "%> %= %"),
        ("<%:>", "<% :>"),
        ("a/ *b", "a / * b"),
        ("a/=b", "a /= b"),
    ]
}

/// Whether a text has the tokens of the blanked one, as many as that has pieces.
fn is_cut_so(alloc: Global, source: &str, blanked: &str) -> Result<bool, Stop> {
    let found = kinds(alloc, source.as_bytes())?;
    let want = kinds(alloc, blanked.as_bytes())?;
    Ok(found.as_slice() == want.as_slice() && blanked.split(' ').count() == found.len())
}

/// The first text of a table that is cut otherwise.
fn first_other_cut(
    alloc: Global,
    rows: &[(&'static str, &'static str)],
) -> Result<Option<&'static str>, Stop> {
    for (source, blanked) in rows {
        if !is_cut_so(alloc, source, blanked)? {
            return Ok(Some(*source));
        }
    }
    Ok(None)
}

#[test]
fn takes_the_longest_piece(rt: HostRuntime) -> Result<(), Fail> {
    let other = first_other_cut(rt.alloc(), cuts())?;
    assert_eq!(rt; other, None);
    Ok(())
}
