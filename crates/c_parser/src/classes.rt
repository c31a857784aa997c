ghost use Rattle.std.specs.Prelude.{◌≡◌, ◌||◌};
ghost use Rattle.cil_base.specs.declared.tokens.TokenKind.TheVariants.{Keyword as IsKeyword};
ghost use Rattle.c_cursor.specs.Classes.{is_assert_word};
ghost use Rattle.c_exprs.specs.Classes.{is_some_of, piece_word};
ghost use Rattle.c_parser.specs.StatementWords.{statement_word, statement_sign, statement_kind, is_while_word, begins_declaration};
ghost use Rattle.c_parser.specs.UnitForms.{is_else_word};

use crate::words::StatementWord;
use cil_base::{Keyword, Punctuator, TokenKind};
use typedef_scopes::Scopes;

fn statement_word(word: Keyword) -> Option<StatementWord>
    ensures { result ≡ statement_word word }
{
    match word {
        Keyword::Case => Some(StatementWord::Case),
        Keyword::Default => Some(StatementWord::Default),
        Keyword::If => Some(StatementWord::If),
        Keyword::Switch => Some(StatementWord::Switch),
        Keyword::While => Some(StatementWord::While),
        Keyword::Do => Some(StatementWord::Do),
        Keyword::For => Some(StatementWord::For),
        Keyword::Goto => Some(StatementWord::Goto),
        Keyword::Continue => Some(StatementWord::Continue),
        Keyword::Break => Some(StatementWord::Break),
        Keyword::Return => Some(StatementWord::Return),
        _ => None,
    }
}

fn statement_sign(p: Punctuator) -> Option<StatementWord>
    ensures { result ≡ statement_sign p }
{
    match p {
        Punctuator::LeftBrace => Some(StatementWord::Block),
        _ => None,
    }
}

/// The word or brace that begins a statement, if the token is one (C11 6.8).
pub(crate) fn statement_kind(kind: TokenKind) -> Option<StatementWord>
    ensures { result ≡ statement_kind kind }
{
    match kind {
        TokenKind::Keyword(word) => statement_word(word),
        TokenKind::Punctuator(p) => statement_sign(p),
        TokenKind::Name(_) => None,
        TokenKind::Integer => None,
        TokenKind::Character => None,
        TokenKind::Literal => None,
    }
}

/// Whether the token is `else`.
pub(crate) fn is_else_word(kind: TokenKind) -> bool
    ensures { result ≡ is_else_word kind }
{
    matches!(kind, TokenKind::Keyword(Keyword::Else))
}

/// Whether the token is `while`.
pub(crate) fn is_while_word(kind: TokenKind) -> bool
    ensures { result ≡ is_while_word kind }
{
    matches!(kind, TokenKind::Keyword(Keyword::While))
}

/// Whether the keyword begins a declaration: a specifier, or `_Static_assert` (C11 6.7).
fn declaration_word(word: Keyword) -> bool
    ensures { result ≡ (is_assert_word (IsKeyword word) || is_some_of (piece_word word)) }
{
    match word {
        Keyword::Typedef
        | Keyword::Extern
        | Keyword::Static
        | Keyword::Auto
        | Keyword::Register
        | Keyword::Void
        | Keyword::Char
        | Keyword::Short
        | Keyword::Int
        | Keyword::Long
        | Keyword::Signed
        | Keyword::Unsigned
        | Keyword::Bool
        | Keyword::Const
        | Keyword::Restrict
        | Keyword::Inline
        | Keyword::Noreturn
        | Keyword::Struct
        | Keyword::Union
        | Keyword::Enum
        | Keyword::StaticAssert => true,
        _ => false,
    }
}

/// Whether the token begins a declaration: such a word, or a typedef name in scope.
#[tactic(auto, using(crate::proofs::StatementHeads::name_begins))]
pub(crate) fn begins_declaration(s: &Scopes, kind: TokenKind) -> bool
    ensures { result ≡ begins_declaration s.now kind }
{
    match kind {
        TokenKind::Name(n) => s.is_type(n),
        TokenKind::Keyword(word) => declaration_word(word),
        TokenKind::Integer => false,
        TokenKind::Character => false,
        TokenKind::Literal => false,
        TokenKind::Punctuator(_) => false,
    }
}
