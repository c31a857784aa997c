ghost use Rattle.std.specs.Prelude.{◌≡◌, ◌<◌, length, MatchResult, IfOk};
ghost use Rattle.c_cursor.specs.declared.stops.ParseStop.TheVariants.{Memory as WantOfMemory};
ghost use Rattle.c_cursor.specs.Lexemes.{Onward, ahead};
ghost use Rattle.c_cursor.specs.Readers.{head, one};
ghost use Rattle.c_cursor.specs.Classes.{a_literal};
ghost use Rattle.c_cursor.specs.Given.{Gives, IsValue};

use crate::cursor::Cursor;
use crate::nexts::at_literal;
use crate::stops::ParseStop;
use c_lexer::TokenList;
use cil_base::Bytes;
use std::alloc::Global;

/// A copy of the text of the next token, which is empty if that is no constant and no literal.
pub fn text_copied<L: TokenList>(alloc: Global, c: &Cursor<L>) -> Result<Bytes, ParseStop>
    requires { c.now.at < length c.now.all }
    ensures { MatchResult result (λ text. IsValue text (head (ahead c.now).rest)) (λ stop. stop ≡ WantOfMemory) }
{
    Ok(Bytes::new(c.next_text().to_vec(alloc)?))
}

/// Takes a string literal (C11 6.4.5).
#[tactic(auto, using(crate::proofs::NextLemmas::class_taken, crate::proofs::NextLemmas::class_missing, crate::proofs::NextLemmas::literal_next, crate::proofs::NextLemmas::no_literal_next))]
pub fn take_literal<L: TokenList>(alloc: Global, c: &mut Cursor<L>) -> Result<Bytes, ParseStop>
    ensures gives { Gives (λ text. text) result (one a_literal (ahead c.old)) (ahead c.new) }
    ensures onward { Onward c.old c.new }
    ensures further { IfOk result (λ _. c.old.at < c.new.at) }
{
    if !at_literal(c) {
        return Err(ParseStop::At(c.position()));
    }
    let text = text_copied(alloc, c)?;
    c.advance();
    Ok(text)
}
