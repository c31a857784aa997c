use crate::lexer::tokens_of;
use c_cursor::{Cursor, ParseStop};
use c_exprs::expr;
use c_lexer::Tokens;
use c_tree::Level;
use cil_base::{NamePool, Stop};
use std::alloc::Global;
use std::test::Fail;
use typedef_scopes::Scopes;

/// What an answer tells: the tokens up to that number make an expression, or the token of that number does not fit.
#[derive(Clone, Copy, PartialEq, Eq)]
enum Outcome {
    Read(u32),
    Stopped(u32),
}

/// Sources, the level that is asked for and what is told.
fn levels() -> &'static [(&'static str, Level, Outcome)] {
    &[
        ("a , b", Level::Assignment, Outcome::Read(1)),
        ("a = b , c", Level::Assignment, Outcome::Read(3)),
        ("a = b", Level::Conditional, Outcome::Read(1)),
        ("a ? b : c = d", Level::Conditional, Outcome::Read(5)),
        ("a || b", Level::LogicalAnd, Outcome::Read(1)),
        ("a + b", Level::Multiplicative, Outcome::Read(1)),
        ("- a", Level::Postfix, Outcome::Stopped(0)),
        ("( T ) a", Level::Unary, Outcome::Stopped(3)),
        ("( T ) { 1 }", Level::Unary, Outcome::Read(6)),
    ]
}

/// What is told of the expression that tokens begin with.
fn told(
    alloc: Global,
    tokens: &Tokens,
    scopes: &mut Scopes,
    level: Level,
) -> Result<Outcome, Stop> {
    let mut c = Cursor::new(tokens);
    match expr(alloc, &mut c, scopes, 512, level) {
        Ok(_) => Ok(Outcome::Read(c.position())),
        Err(ParseStop::At(i)) => Ok(Outcome::Stopped(i)),
        Err(ParseStop::Memory) => Err(Stop::Memory),
    }
}

/// Whether that is told of a source in a scope in which T is a typedef name.
fn is_told(
    alloc: Global,
    names: &mut NamePool,
    source: &str,
    level: Level,
    outcome: Outcome,
) -> Result<bool, Stop> {
    let mut scopes = Scopes::new(alloc);
    scopes.declare(names.intern(b"T")?, true)?;
    let tokens = tokens_of(alloc, source.as_bytes(), names)?;
    Ok(told(alloc, &tokens, &mut scopes, level)? == outcome)
}

/// The first source of a table of which something else is told.
fn first_other(
    alloc: Global,
    names: &mut NamePool,
    rows: &[(&'static str, Level, Outcome)],
) -> Result<Option<&'static str>, Stop> {
    for (source, level, outcome) in rows {
        if !is_told(alloc, names, source, *level, *outcome)? {
            return Ok(Some(*source));
        }
    }
    Ok(None)
}

#[test]
fn a_level_ends_an_expression(rt: HostRuntime) -> Result<(), Fail> {
    let mut names = NamePool::new(rt.alloc());
    let other = first_other(rt.alloc(), &mut names, levels())?;
    assert_eq!(rt; other, None);
    Ok(())
}
