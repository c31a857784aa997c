use crate::lexer::tokens_of;
use c_height::height_of_external;
use c_levels::well_levelled;
use c_parser::parse;
use c_speller::{SpelledToken, spell};
use c_tree::Unit;
use cil_base::{Keyword, Memory, NameId, NamePool, Punctuator, Stop, TokenKind};
use std::alloc::Global;
use std::test::Fail;

/// The pool with the texts of the names.
pub(crate) fn pool(alloc: Global) -> Result<NamePool, Memory> {
    let mut names = NamePool::new(alloc);
    intern_each(&mut names)?;
    Ok(names)
}

/// Gives the names their numbers.
fn intern_each(names: &mut NamePool) -> Result<(), Memory> {
    for name in ["f", "a", "T", "x"] {
        names.intern(name.as_bytes())?;
    }
    Ok(())
}

/// The height of its last external declaration.
pub(crate) fn height_of_last(u: &Unit) -> u32 {
    match u.declarations.last() {
        None => 0,
        Some(d) => height_of_external(d),
    }
}

/// The texts of tokens, with a blank behind each.
fn joined(alloc: Global, tokens: &[SpelledToken]) -> Result<Vec<u8>, Memory> {
    let mut text = Vec::new(alloc);
    for token in tokens {
        text.extend_from_slice(token.text.as_slice())?;
        text.extend_from_slice(b" ")?;
    }
    Ok(text)
}

/// Whether a unit is levelled, the height of its last external declaration, and whether its tokens have those texts, with a blank behind each.
pub(crate) fn told(
    alloc: Global,
    u: &Unit,
    names: &NamePool,
    text: &str,
) -> Result<(bool, u32, bool), Memory> {
    let tokens = spell(alloc, u, names)?;
    let spelled = joined(alloc, &tokens)?;
    Ok((
        well_levelled(u),
        height_of_last(u),
        spelled.as_slice() == text.as_bytes(),
    ))
}

/// Units, of which the tokens end with a blank, and the height of their last external declaration.
fn rows() -> &'static [(&'static str, u32)] {
    &[
        ("int f ( ) { return 2 + 3 ; } ", 5),
        ("int f ( ) { a - a - a ; } ", 6),
        ("int f ( ) { if ( a ) if ( a ) ; else ; } ", 5),
        ("typedef int T ; int f ( ) { T * x = 0 ; } ", 5),
        ("int f ( ) { T * x ; } ", 5),
    ]
}

/// What is told of the unit that a text is.
fn told_of(alloc: Global, names: &mut NamePool, text: &str) -> Result<(bool, u32, bool), Stop> {
    let tokens = tokens_of(alloc, text.as_bytes(), names)?;
    let u = parse(alloc, &tokens)?;
    Ok(told(alloc, &u, names, text)?)
}

/// The first unit of a table that is not levelled, has another height, or is spelled otherwise.
fn first_other(
    alloc: Global,
    names: &mut NamePool,
    rows: &[(&'static str, u32)],
) -> Result<Option<&'static str>, Stop> {
    for (text, height) in rows {
        if told_of(alloc, names, text)? != (true, *height, true) {
            return Ok(Some(*text));
        }
    }
    Ok(None)
}

#[test]
fn units_are_spelled_measured_and_tested(rt: HostRuntime) -> Result<(), Fail> {
    let mut names = pool(rt.alloc())?;
    let other = first_other(rt.alloc(), &mut names, rows())?;
    assert_eq!(rt; other, None);
    Ok(())
}

/// The kinds of the tokens of `int f ( ) { return 2 + 3 ; }`.
fn kinds() -> &'static [TokenKind] {
    &[
        TokenKind::Keyword(Keyword::Int),
        TokenKind::Name(NameId(0)),
        TokenKind::Punctuator(Punctuator::LeftParen),
        TokenKind::Punctuator(Punctuator::RightParen),
        TokenKind::Punctuator(Punctuator::LeftBrace),
        TokenKind::Keyword(Keyword::Return),
        TokenKind::Integer,
        TokenKind::Punctuator(Punctuator::Plus),
        TokenKind::Integer,
        TokenKind::Punctuator(Punctuator::Semicolon),
        TokenKind::Punctuator(Punctuator::RightBrace),
    ]
}

/// The tokens of the first unit, spelled.
fn sum(alloc: Global, names: &mut NamePool) -> Result<Vec<SpelledToken>, Stop> {
    let tokens = tokens_of(alloc, b"int f ( ) { return 2 + 3 ; }", names)?;
    let u = parse(alloc, &tokens)?;
    Ok(spell(alloc, &u, names)?)
}

/// Whether tokens have these kinds.
fn have_kinds(tokens: &[SpelledToken], kinds: &[TokenKind]) -> bool {
    for (token, kind) in tokens.iter().zip(kinds) {
        if token.kind != *kind {
            return false;
        }
    }
    tokens.len() == kinds.len()
}

#[test]
fn each_token_has_its_kind(rt: HostRuntime) -> Result<(), Fail> {
    let mut names = pool(rt.alloc())?;
    let tokens = sum(rt.alloc(), &mut names)?;
    assert!(rt; have_kinds(&tokens, kinds()));
    Ok(())
}
