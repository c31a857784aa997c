use c_lexer::{Tokens, lex};
use cil_base::{Fault, Memory, NameId, NamePool, Place, Refusal, Stop, TokenKind, UnitNo};
use std::alloc::Global;

/// The tokens of a unit in the file a.c, a name of the pool.
pub(crate) fn tokens_of<'a>(
    alloc: Global,
    source: &'a [u8],
    names: &mut NamePool,
) -> Result<Tokens<'a>, Stop> {
    let file = names.intern(b"a.c")?;
    if source.len() > 4_194_304 {
        return Err(Stop::Memory);
    }
    lex(alloc, source, UnitNo(3), file, names)
}

/// The kinds and lines of tokens.
fn listed(alloc: Global, tokens: &Tokens) -> Result<Vec<(TokenKind, u32)>, Memory> {
    let mut list = Vec::new(alloc);
    for i in 0..tokens.count() {
        list.push((tokens.token(i).kind, tokens.place(i).line))?;
    }
    Ok(list)
}

/// The kinds and lines of a unit's tokens, and the line of its end.
pub(crate) fn read(alloc: Global, source: &[u8]) -> Result<(Vec<(TokenKind, u32)>, u32), Stop> {
    let mut names = NamePool::new(alloc);
    let tokens = tokens_of(alloc, source, &mut names)?;
    let list = listed(alloc, &tokens)?;
    Ok((list, tokens.place(tokens.count()).line))
}

/// The kinds of a unit's tokens.
pub(crate) fn kinds(alloc: Global, source: &[u8]) -> Result<Vec<TokenKind>, Stop> {
    let mut names = NamePool::new(alloc);
    let tokens = tokens_of(alloc, source, &mut names)?;
    let mut kinds = Vec::new(alloc);
    for i in 0..tokens.count() {
        kinds.push(tokens.token(i).kind)?;
    }
    Ok(kinds)
}

/// The fault of a unit with its place, if it is refused.
pub(crate) fn refusal(alloc: Global, source: &[u8]) -> Result<Option<(Fault, Place)>, Stop> {
    let mut names = NamePool::new(alloc);
    match tokens_of(alloc, source, &mut names) {
        Ok(_) => Ok(None),
        Err(Stop::Refused(Refusal { fault, at, .. })) => Ok(Some((fault, at))),
        Err(Stop::Memory) => Err(Stop::Memory),
    }
}

/// A place in the file a.c.
pub(crate) fn at(token: u32, line: u32) -> Place {
    Place {
        unit: UnitNo(3),
        token,
        file: NameId(0),
        line,
    }
}
