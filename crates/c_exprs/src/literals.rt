ghost use Rattle.c_tree.specs.View.{expr_of};
ghost use Rattle.c_cursor.specs.Lexemes.{Onward, ahead};
ghost use Rattle.c_cursor.specs.Given.{Gives};
ghost use Rattle.c_exprs.specs.ExprReading.{literals_from};

use c_cursor::{Cursor, ParseStop, more_literals};
use c_lexer::TokenList;
use c_nodes::{ExprNode, literals_of};
use cil_base::Bytes;
use std::alloc::Global;
use typedef_scopes::Scopes;

/// String literals, of which the first was taken (C11 6.5.1).
pub(crate) fn literals_from<L: TokenList>(
    alloc: Global,
    c: &mut Cursor<L>,
    s: &Scopes,
    at: u32,
    text: Bytes,
) -> Result<ExprNode, ParseStop>
    ensures gives { Gives (λ x. (expr_of x, s.now)) result (literals_from at text s.now (ahead c.old)) (ahead c.new) }
    ensures onward { Onward c.old c.new }
{
    let mut first = Vec::new(alloc);
    first.push(text)?;
    let texts = more_literals(alloc, c, first)?;
    Ok(literals_of(alloc, at, texts)?)
}
