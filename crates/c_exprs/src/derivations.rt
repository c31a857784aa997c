ghost use Rattle.std.specs.Prelude.{◌≡◌};
ghost use Rattle.c_exprs.specs.Classes.{derivation_sign, derivation_kind, designation_sign, designation_kind, may_be_absent, may_be_named, may_have_identifiers};

use crate::words::{DeclaratorForm, Derivation, Designation};
use cil_base::{Punctuator, TokenKind};

fn derivation_sign(p: Punctuator) -> Option<Derivation>
    ensures { result ≡ derivation_sign p }
{
    match p {
        Punctuator::LeftBracket => Some(Derivation::Array),
        Punctuator::LeftParen => Some(Derivation::Function),
        _ => None,
    }
}

/// How a derivation of a declarator begins with a token of that kind, if it can (C11 6.7.6).
pub(crate) fn derivation_kind(kind: TokenKind) -> Option<Derivation>
    ensures { result ≡ derivation_kind kind }
{
    match kind {
        TokenKind::Punctuator(p) => derivation_sign(p),
        _ => None,
    }
}

/// Whether a declarator of that form may declare no name.
pub(crate) fn may_be_absent(form: DeclaratorForm) -> bool
    ensures { result ≡ may_be_absent form }
{
    match form {
        DeclaratorForm::Definition => false,
        DeclaratorForm::Member => false,
        DeclaratorForm::Abstract => true,
        DeclaratorForm::Parameter => true,
    }
}

/// Whether a declarator of that form may declare a name.
pub(crate) fn may_be_named(form: DeclaratorForm) -> bool
    ensures { result ≡ may_be_named form }
{
    match form {
        DeclaratorForm::Definition => true,
        DeclaratorForm::Member => true,
        DeclaratorForm::Abstract => false,
        DeclaratorForm::Parameter => true,
    }
}

/// Whether a declarator of that form may have an identifier list (C11 6.7.6.3p3).
pub(crate) fn may_have_identifiers(form: DeclaratorForm) -> bool
    ensures { result ≡ may_have_identifiers form }
{
    match form {
        DeclaratorForm::Definition => true,
        DeclaratorForm::Member => false,
        DeclaratorForm::Abstract => false,
        DeclaratorForm::Parameter => false,
    }
}

fn designation_sign(p: Punctuator) -> Option<Designation>
    ensures { result ≡ designation_sign p }
{
    match p {
        Punctuator::LeftBracket => Some(Designation::Index),
        Punctuator::Dot => Some(Designation::Member),
        _ => None,
    }
}

/// How a designator begins with a token of that kind, if it can (C11 6.7.9).
pub(crate) fn designation_kind(kind: TokenKind) -> Option<Designation>
    ensures { result ≡ designation_kind kind }
{
    match kind {
        TokenKind::Punctuator(p) => designation_sign(p),
        _ => None,
    }
}
