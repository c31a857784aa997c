ghost use Rattle.std.specs.Prelude.{◌≡◌, not, ◌&&◌};
ghost use Rattle.typedef_scopes.specs.Scopes.{is_type};
ghost use Rattle.c_exprs.specs.declared.words.Piece.TheVariants.{Name as NamePiece};
ghost use Rattle.c_cursor.specs.Classes.{if_so, fitting};
ghost use Rattle.c_exprs.specs.Classes.{piece_word, piece_kind, in_type_name, piece_fits, qualifier_word_kind, qualifier_kind, begins_type_name, begins_parameter};

use crate::words::{Piece, SpecifierForm};
use c_tree::{BasicType, FunctionSpecifier, Qualifier, StorageClass, StructKind};
use cil_base::{Keyword, NameId, TokenKind};
use typedef_scopes::Scopes;

pub(crate) fn piece_word(word: Keyword) -> Option<Piece>
    ensures { result ≡ piece_word word }
{
    match word {
        Keyword::Typedef => Some(Piece::Storage(StorageClass::Typedef)),
        Keyword::Extern => Some(Piece::Storage(StorageClass::Extern)),
        Keyword::Static => Some(Piece::Storage(StorageClass::Static)),
        Keyword::Auto => Some(Piece::Storage(StorageClass::Auto)),
        Keyword::Register => Some(Piece::Storage(StorageClass::Register)),
        Keyword::Void => Some(Piece::Basic(BasicType::Void)),
        Keyword::Char => Some(Piece::Basic(BasicType::Char)),
        Keyword::Short => Some(Piece::Basic(BasicType::Short)),
        Keyword::Int => Some(Piece::Basic(BasicType::Int)),
        Keyword::Long => Some(Piece::Basic(BasicType::Long)),
        Keyword::Signed => Some(Piece::Basic(BasicType::Signed)),
        Keyword::Unsigned => Some(Piece::Basic(BasicType::Unsigned)),
        Keyword::Bool => Some(Piece::Basic(BasicType::Bool)),
        Keyword::Const => Some(Piece::Qualifier(Qualifier::Const)),
        Keyword::Restrict => Some(Piece::Qualifier(Qualifier::Restrict)),
        Keyword::Inline => Some(Piece::Function(FunctionSpecifier::Inline)),
        Keyword::Noreturn => Some(Piece::Function(FunctionSpecifier::Noreturn)),
        Keyword::Struct => Some(Piece::Struct(StructKind::Struct)),
        Keyword::Union => Some(Piece::Struct(StructKind::Union)),
        Keyword::Enum => Some(Piece::Enum),
        _ => None,
    }
}

fn piece_name(typed: bool, s: &Scopes, n: NameId) -> Option<Piece>
    ensures { result ≡ if_so (not typed && is_type s.now n) (NamePiece n) }
{
    if !typed && s.is_type(n) {
        Some(Piece::Name(n))
    } else {
        None
    }
}

fn piece_kind(typed: bool, s: &Scopes, kind: TokenKind) -> Option<Piece>
    ensures { result ≡ piece_kind typed s.now kind }
{
    match kind {
        TokenKind::Name(n) => piece_name(typed, s, n),
        TokenKind::Keyword(word) => piece_word(word),
        TokenKind::Integer => None,
        TokenKind::Character => None,
        TokenKind::Literal => None,
        TokenKind::Punctuator(_) => None,
    }
}

fn in_type_name(form: SpecifierForm) -> bool
    ensures { result ≡ in_type_name form }
{
    match form {
        SpecifierForm::Declaration => false,
        SpecifierForm::TypeName => true,
    }
}

/// Whether specifiers of that form and height may have one that begins so.
fn piece_fits(height: u32, form: SpecifierForm, piece: Piece) -> bool
    ensures is { result ≡ piece_fits height form piece }
{
    match piece {
        Piece::Storage(_) => !in_type_name(form),
        Piece::Basic(_) => true,
        Piece::Qualifier(_) => true,
        Piece::Function(_) => !in_type_name(form),
        Piece::Name(_) => height >= 1,
        Piece::Struct(_) => height >= 1,
        Piece::Enum => height >= 1,
    }
}

/// How a specifier of that form and height begins with a token of that kind, if it can (C11 6.7.1 to 6.7.4). `typed`: a type specifier was
/// read among the same specifiers, so that no typedef name follows.
pub(crate) fn piece_for(
    height: u32,
    form: SpecifierForm,
    typed: bool,
    s: &Scopes,
    kind: TokenKind,
) -> Option<Piece>
    ensures is { result ≡ fitting (piece_fits height form) (piece_kind typed s.now kind) }
{
    match piece_kind(typed, s, kind) {
        Some(piece) if piece_fits(height, form, piece) => Some(piece),
        _ => None,
    }
}

/// Whether a token of that kind begins a type name (C11 6.7.7).
pub(crate) fn begins_type_name(s: &Scopes, kind: TokenKind) -> bool
    ensures { result ≡ begins_type_name s.now kind }
{
    piece_for(1, SpecifierForm::TypeName, false, s, kind).is_some()
}

/// Whether a token of that kind begins a parameter (C11 6.7.6).
pub(crate) fn begins_parameter(s: &Scopes, kind: TokenKind) -> bool
    ensures { result ≡ begins_parameter s.now kind }
{
    piece_kind(false, s, kind).is_some()
}

fn qualifier_word(word: Keyword) -> Option<Qualifier>
    ensures { result ≡ qualifier_word_kind word }
{
    match word {
        Keyword::Const => Some(Qualifier::Const),
        Keyword::Restrict => Some(Qualifier::Restrict),
        _ => None,
    }
}

pub(crate) fn qualifier_kind(kind: TokenKind) -> Option<Qualifier>
    ensures { result ≡ qualifier_kind kind }
{
    match kind {
        TokenKind::Keyword(word) => qualifier_word(word),
        _ => None,
    }
}
