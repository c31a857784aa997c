ghost use Rattle.std.specs.Prelude.{◌≡◌, ◌≤◌, true, not, IfSome};
ghost use Rattle.typedef_scopes.specs.Scopes.{is_type};
ghost use Rattle.c_exprs.specs.declared.words.Start.TheVariants.{Name as NameStart};
ghost use Rattle.c_cursor.specs.Classes.{if_so, fitting};
ghost use Rattle.c_exprs.specs.Classes.{step_sign_kind, start_word_kind, start_kind, start_fits};

use crate::words::Start;
use c_tree::{Level, StepOp, UnaryOp, rank};
use cil_base::{Keyword, NameId, Punctuator, TokenKind};
use typedef_scopes::Scopes;

fn start_sign(p: Punctuator) -> Option<Start>
    ensures { result ≡ step_sign_kind p }
{
    match p {
        Punctuator::LeftParen => Some(Start::Parenthesis),
        Punctuator::PlusPlus => Some(Start::Step(StepOp::Increment)),
        Punctuator::MinusMinus => Some(Start::Step(StepOp::Decrement)),
        Punctuator::Ampersand => Some(Start::Unary(UnaryOp::Address)),
        Punctuator::Star => Some(Start::Unary(UnaryOp::Indirection)),
        Punctuator::Plus => Some(Start::Unary(UnaryOp::Plus)),
        Punctuator::Minus => Some(Start::Unary(UnaryOp::Minus)),
        Punctuator::Tilde => Some(Start::Unary(UnaryOp::Complement)),
        Punctuator::Exclamation => Some(Start::Unary(UnaryOp::Not)),
        _ => None,
    }
}

fn start_word(word: Keyword) -> Option<Start>
    ensures { result ≡ start_word_kind word }
{
    match word {
        Keyword::Sizeof => Some(Start::Sizeof),
        Keyword::Alignof => Some(Start::Alignof),
        _ => None,
    }
}

fn start_name(s: &Scopes, n: NameId) -> Option<Start>
    ensures { result ≡ if_so (not (is_type s.now n)) (NameStart n) }
{
    if s.is_type(n) {
        None
    } else {
        Some(Start::Name(n))
    }
}

fn start_kind(s: &Scopes, kind: TokenKind) -> Option<Start>
    ensures { result ≡ start_kind s.now kind }
{
    match kind {
        TokenKind::Name(n) => start_name(s, n),
        TokenKind::Keyword(word) => start_word(word),
        TokenKind::Integer => Some(Start::Integer),
        TokenKind::Character => Some(Start::Character),
        TokenKind::Literal => Some(Start::Literal),
        TokenKind::Punctuator(p) => start_sign(p),
    }
}

/// Whether an expression of that level and height may begin so.
fn start_fits(height: u32, level: Level, start: Start) -> bool
    ensures is { result ≡ start_fits height level start }
    ensures some { result ≡ true → 1 ≤ height }
{
    match start {
        Start::Name(_) => height >= 1,
        Start::Integer => height >= 1,
        Start::Character => height >= 1,
        Start::Literal => height >= 1,
        Start::Parenthesis => height >= 2,
        Start::Step(_) => height >= 2 && rank(level) >= rank(Level::Unary),
        Start::Unary(_) => height >= 2 && rank(level) >= rank(Level::Unary),
        Start::Sizeof => height >= 2 && rank(level) >= rank(Level::Unary),
        Start::Alignof => height >= 2 && rank(level) >= rank(Level::Unary),
    }
}

/// How an expression of that level and height begins with a token of that kind, if it can (C11 6.5.1 to 6.5.4).
pub(crate) fn start_of(height: u32, level: Level, s: &Scopes, kind: TokenKind) -> Option<Start>
    ensures is { result ≡ fitting (start_fits height level) (start_kind s.now kind) }
    ensures some { IfSome result (λ _. 1 ≤ height) }
{
    match start_kind(s, kind) {
        Some(start) if start_fits(height, level, start) => Some(start),
        _ => None,
    }
}
