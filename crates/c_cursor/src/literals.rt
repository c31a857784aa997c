ghost use Rattle.c_cursor.specs.Lexemes.{Onward, ahead};
ghost use Rattle.c_cursor.specs.Given.{Gives};
ghost use Rattle.c_cursor.specs.Literals.{more_literals, some_literals};

use crate::cursor::Cursor;
use crate::nexts::at_literal;
use crate::stops::ParseStop;
use crate::texts::take_literal;
use c_lexer::TokenList;
use cil_base::Bytes;
use std::alloc::Global;

/// The string literals behind some.
#[tactic(auto, using(crate::proofs::ListLoops::collecting_from, crate::proofs::ListLoops::collecting_next, crate::proofs::ListLoops::collecting_stops, crate::proofs::ListLoops::collecting_ends))]
pub fn more_literals<L: TokenList>(
    alloc: Global,
    c: &mut Cursor<L>,
    first: Vec<Bytes>,
) -> Result<Vec<Bytes>, ParseStop>
    ensures gives { Gives (λ texts. texts.items) result (more_literals first.items (ahead c.old)) (ahead c.new) }
    ensures onward { Onward c.old c.new }
{
    let mut texts = first;
    while at_literal(c) {
        let text = take_literal(alloc, c)?;
        texts.push(text)?;
    }
    Ok(texts)
}

/// Reads string literals that stand one behind the other: at least one (C11 6.4.5).
pub fn some_literals<L: TokenList>(
    alloc: Global,
    c: &mut Cursor<L>,
) -> Result<Vec<Bytes>, ParseStop>
    ensures gives { Gives (λ texts. texts.items) result (some_literals (ahead c.old)) (ahead c.new) }
    ensures onward { Onward c.old c.new }
{
    let text = take_literal(alloc, c)?;
    let mut texts = Vec::new(alloc);
    texts.push(text)?;
    more_literals(alloc, c, texts)
}
