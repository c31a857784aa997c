//! The reader of a unit of the form: a shift-reduce automaton over its tokens (C11 6.5.6, 6.9.1) that keeps what is
//! open on a stack of its own.

ghost use Rattle.std.specs.Prelude.{◌≡◌, IfOk, option_map, option_and_then};
ghost use Rattle.c_meaning.specs.SourceFile.{spelled, spelled_in};
ghost use Rattle.c_meaning.specs.Reading.{fed as the_fed, terminal_of, reading};
ghost use Rattle.cil_commands.specs.Reader.{state_of, stack_of};
ghost use Rattle.c_meaning.specs.View.{expression_of};

use c_lexer::Tokens;
use c_meaning::Expr;
use cil_base::{Memory, TokenKind};
use std::alloc::{AllocError, Global};

mod automaton;
mod token;

use automaton::{Context, Place, State, fed, whole};
use token::token;

/// The expression that the main of the unit with these tokens returns, or none where they are no unit of the form (own).
/// The error comes only for want of memory.
pub fn unit_of(alloc: Global, tokens: &Tokens<'_>) -> Result<Option<Expr>, Memory>
    ensures { IfOk result (λ found. option_map expression_of found ≡ reading (spelled_in tokens.now.source tokens.now.entries)) }
{
    read_tokens(alloc, tokens).map_err(|_| Memory)
}

fn read_tokens(alloc: Global, tokens: &Tokens<'_>) -> Result<Option<Expr>, AllocError>
    ensures { IfOk result (λ found. option_map expression_of found ≡ reading (spelled_in tokens.now.source tokens.now.entries)) }
{
    let mut below = Vec::new(alloc);
    let mut state = State::Front(Place::Specifier);
    for i in 0..tokens.count() {
        match behind(
            alloc,
            tokens.token(i).kind,
            tokens.text(i),
            state,
            &mut below,
        )? {
            Some(next) => state = next,
            None => return Ok(None),
        }
    }
    Ok(whole(state))
}

/// The state behind one token more of the unit, or none where it is no token of the form or none that can stand there.
fn behind(
    alloc: Global,
    kind: TokenKind,
    text: &[u8],
    state: State,
    below: &mut Vec<Context>,
) -> Result<Option<State>, AllocError>
    ensures { IfOk result
        (λ next. option_map (λ s. (state_of s, stack_of below.new.items)) next
        ≡ option_and_then (λ token. the_fed 509 token (state_of state) (stack_of below.old.items)) (terminal_of (spelled kind text.now))) }
{
    let Some(tok) = token(kind, text) else {
        return Ok(None);
    };
    fed(alloc, tok, state, below)
}
