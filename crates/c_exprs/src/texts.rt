ghost use Rattle.std.specs.Prelude.{◌+◌, ◌<◌, ◌^◌, length, IfOk, IfSome};
ghost use Rattle.c_cursor.specs.Lexemes.{Onward, ahead};
ghost use Rattle.c_cursor.specs.Readers.{head, one};
ghost use Rattle.c_exprs.specs.Classes.{start_of};
ghost use Rattle.c_cursor.specs.Given.{Gives, next_of};
ghost use Rattle.c_exprs.specs.Given.{IsStartNext};

use crate::starts::start_of;
use crate::words::Start;
use c_cursor::{Cursor, ParseStop, text_copied};
use c_lexer::TokenList;
use c_tree::Level;
use cil_base::Bytes;
use std::alloc::Global;
use typedef_scopes::Scopes;

/// How an expression of that level and height begins with the next token, if it can.
fn next_start<L: TokenList>(c: &Cursor<L>, s: &Scopes, height: u32, level: Level) -> Option<Start>
    ensures found { IsStartNext result (next_of (start_of height level s.now) (head (ahead c.now).rest)) (head (ahead c.now).rest) }
    ensures room { IfSome result (λ _. c.now.at < length c.now.all) }
    ensures fits { IfSome result (λ _. c.now.at + 1 < 2 ^ 32) }
{
    match c.next() {
        Some(kind) => start_of(height, level, s, kind),
        None => None,
    }
}

/// Takes the first token of an expression of that level and height (C11 6.5.1 to 6.5.4), with its text if it is a constant or literal.
#[tactic(auto, using(crate::proofs::NextLemmas::start_taken, c_cursor::proofs::NextLemmas::class_missing))]
pub(crate) fn take_start<L: TokenList>(
    alloc: Global,
    c: &mut Cursor<L>,
    s: &Scopes,
    height: u32,
    level: Level,
) -> Result<(Start, Bytes), ParseStop>
    ensures gives { Gives (λ x. x) result (one (start_of height level s.now) (ahead c.old)) (ahead c.new) }
    ensures onward { Onward c.old c.new }
    ensures further { IfOk result (λ _. c.old.at < c.new.at) }
    ensures fits { IfOk result (λ _. c.old.at + 1 < 2 ^ 32) }
{
    match next_start(c, s, height, level) {
        Some(start) => {
            let text = text_copied(alloc, c)?;
            c.advance();
            Ok((start, text))
        }
        None => Err(ParseStop::At(c.position())),
    }
}
