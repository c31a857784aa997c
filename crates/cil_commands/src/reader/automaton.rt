ghost use Rattle.std.specs.Prelude.{◌≡◌, ◌+◌, List, IfOk, option_map, nat_lt, if◌then◌else◌};
ghost use Rattle.c_meaning.specs.Grammar.{Parentheses, Binary};
ghost use Rattle.c_meaning.specs.View.{expression_of};
ghost use Rattle.c_meaning.specs.Reading.{passed, placed, opened, closed, ended, fed, result_of, Operand, Whole, Returned, Context as Awaited};
ghost use Rattle.cil_commands.specs.Reader.{terminal_of, place_of, context_of, state_of, stack_of};

use super::token::Tok;
use c_meaning::Expr;
use cil_base::BinOp;
use std::alloc::{AllocError, Global};

/// The greatest height of an expression: three of the 512 levels of an external declaration stand around it (own).
const HEIGHT: u32 = 509;

/// What is awaited before the expression.
#[derive(Clone, Copy)]
pub enum Place {
    Specifier,
    Name,
    List,
    Parameter,
    ListEnd,
    Body,
    Statement,
}

/// Where an operand is awaited.
#[derive(Drop)]
pub enum Context {
    /// At the beginning of an expression.
    Beginning,
    /// Behind an operator, with its left operand and the height of that.
    Behind(BinOp, Expr, u32),
}

/// What was read last.
#[derive(Drop)]
pub enum State {
    /// A part of what stands before the expression: this is awaited next.
    Front(Place),
    /// An operand is awaited.
    Operand(Context),
    /// A whole expression, with its height.
    Whole(Expr, u32),
    /// The return statement.
    Returned(Expr),
    /// The whole unit.
    Done(Expr),
}

/// The expression of a whole unit.
pub fn whole(state: State) -> Option<Expr>
    ensures { option_map expression_of result ≡ result_of (state_of state) }
{
    match state {
        State::Done(e) => Some(e),
        _ => None,
    }
}

/// The state behind one token more; `below` has what is awaited around each open parenthesis, the innermost last.
pub fn fed(
    alloc: Global,
    tok: Tok,
    state: State,
    below: &mut Vec<Context>,
) -> Result<Option<State>, AllocError>
    ensures { IfOk result
        (λ next. option_map (λ s. (state_of s, stack_of below.new.items)) next
        ≡ fed HEIGHT (terminal_of tok) (state_of state) (stack_of below.old.items)) }
{
    match state {
        State::Front(place) => Ok(passed(place, tok)),
        State::Operand(context) => operand(alloc, tok, context, below),
        State::Whole(e, height) => behind_whole(alloc, tok, e, height, below),
        State::Returned(e) => Ok(behind_return(tok, e)),
        State::Done(_) => Ok(None),
    }
}

/// The state behind one token more of those before the expression: `int main ( void ) { return`.
fn passed(place: Place, tok: Tok) -> Option<State>
    ensures { option_map state_of result ≡ passed (place_of place) (terminal_of tok) }
{
    match (place, tok) {
        (Place::Specifier, Tok::IntWord) => Some(State::Front(Place::Name)),
        (Place::Name, Tok::MainWord) => Some(State::Front(Place::List)),
        (Place::List, Tok::OpenParen) => Some(State::Front(Place::Parameter)),
        (Place::Parameter, Tok::VoidWord) => Some(State::Front(Place::ListEnd)),
        (Place::ListEnd, Tok::CloseParen) => Some(State::Front(Place::Body)),
        (Place::Body, Tok::OpenBrace) => Some(State::Front(Place::Statement)),
        (Place::Statement, Tok::ReturnWord) => Some(State::Operand(Context::Beginning)),
        _ => None,
    }
}

/// The state behind one token more where an operand is awaited.
fn operand(
    alloc: Global,
    tok: Tok,
    context: Context,
    below: &mut Vec<Context>,
) -> Result<Option<State>, AllocError>
    ensures { IfOk result
        (λ next. option_map (λ s. (state_of s, stack_of below.new.items)) next
        ≡ fed HEIGHT (terminal_of tok) (Operand (context_of context)) (stack_of below.old.items)) }
{
    match tok {
        Tok::Number(value) => placed(alloc, context, Expr::Constant(value), 1),
        Tok::OpenParen => opened(context, below),
        _ => Ok(None),
    }
}

/// A parenthesis begins. Around too many of them no expression of the greatest height can stand.
fn opened(context: Context, below: &mut Vec<Context>) -> Result<Option<State>, AllocError>
    ensures { IfOk result
        (λ next. option_map (λ s. (state_of s, stack_of below.new.items)) next
        ≡ opened HEIGHT (context_of context) (stack_of below.old.items)) }
{
    if below.len() + 1 < HEIGHT as usize {
        below.push(context)?;
        Ok(Some(State::Operand(Context::Beginning)))
    } else {
        Ok(None)
    }
}

/// An operand is put where it was awaited; nothing higher than the greatest height is built.
fn placed(
    alloc: Global,
    context: Context,
    e: Expr,
    height: u32,
) -> Result<Option<State>, AllocError>
    ensures { IfOk result
        (λ next. option_map state_of next ≡ placed HEIGHT (context_of context) (expression_of e) height) }
{
    match context {
        Context::Beginning => Ok(Some(State::Whole(e, height))),
        Context::Behind(op, left, left_height) => joined(
            alloc,
            op,
            left,
            left_height.max(height),
            e,
        ),
    }
}

/// A binary expression over operands of which the higher has that height.
fn joined(
    alloc: Global,
    op: BinOp,
    left: Expr,
    higher: u32,
    right: Expr,
) -> Result<Option<State>, AllocError>
    ensures { IfOk result
        (λ next. option_map state_of next ≡ (if nat_lt higher HEIGHT
        then Some (Whole (Binary op (expression_of left) (expression_of right)) (1 + higher))
        else None)) }
{
    if higher < HEIGHT {
        let e = binary(alloc, op, left, right)?;
        Ok(Some(State::Whole(e, 1 + higher)))
    } else {
        Ok(None)
    }
}

fn binary(alloc: Global, op: BinOp, left: Expr, right: Expr) -> Result<Expr, AllocError>
    ensures { IfOk result (λ e. expression_of e ≡ Binary op (expression_of left) (expression_of right)) }
{
    Ok(Expr::Binary(op, Box::new(alloc, left)?, Box::new(alloc, right)?))
}

fn parentheses(alloc: Global, inner: Expr) -> Result<Expr, AllocError>
    ensures { IfOk result (λ e. expression_of e ≡ Parentheses (expression_of inner)) }
{
    Ok(Expr::Parentheses(Box::new(alloc, inner)?))
}

/// The state behind one token more where a whole expression stands.
fn behind_whole(
    alloc: Global,
    tok: Tok,
    e: Expr,
    height: u32,
    below: &mut Vec<Context>,
) -> Result<Option<State>, AllocError>
    ensures { IfOk result
        (λ next. option_map (λ s. (state_of s, stack_of below.new.items)) next
        ≡ fed HEIGHT (terminal_of tok) (Whole (expression_of e) height) (stack_of below.old.items)) }
{
    match tok {
        Tok::Plus => Ok(Some(State::Operand(Context::Behind(BinOp::Add, e, height)))),
        Tok::Minus => Ok(Some(State::Operand(Context::Behind(BinOp::Sub, e, height)))),
        Tok::CloseParen => closed(alloc, e, height, below),
        Tok::Semicolon => Ok(ended(e, below)),
        _ => Ok(None),
    }
}

/// A parenthesis ends.
fn closed(
    alloc: Global,
    e: Expr,
    height: u32,
    below: &mut Vec<Context>,
) -> Result<Option<State>, AllocError>
    ensures { IfOk result
        (λ next. option_map (λ s. (state_of s, stack_of below.new.items)) next
        ≡ closed HEIGHT (expression_of e) height (stack_of below.old.items)) }
{
    let Some(context) = below.pop() else {
        return Ok(None);
    };
    if height < HEIGHT {
        let group = parentheses(alloc, e)?;
        placed(alloc, context, group, 1 + height)
    } else {
        Ok(None)
    }
}

/// The expression ends, which it may where no parenthesis is open.
fn ended(e: Expr, below: &[Context]) -> Option<State>
    ensures { option_map (λ s. (state_of s, stack_of below.now)) result
        ≡ ended (expression_of e) (stack_of below.now) }
{
    if below.is_empty() {
        Some(State::Returned(e))
    } else {
        None
    }
}

/// The state behind one token more where the return statement stands.
fn behind_return(tok: Tok, e: Expr) -> Option<State>
    ensures { (below : List Awaited) → option_map (λ s. (state_of s, below)) result
        ≡ fed HEIGHT (terminal_of tok) (Returned (expression_of e)) below }
{
    match tok {
        Tok::CloseBrace => Some(State::Done(e)),
        _ => None,
    }
}
