use crate::stops::{WalkStop, impossible};
use c_tree::{Expr, Specifier, TypeName};

/// The number of the first token of specifiers, of which there is one at least.
pub fn specifiers_at(ss: &[Specifier]) -> Result<u32, WalkStop> {
    match c_places::specifiers_at(ss) {
        Some(at) => Ok(at),
        None => Err(impossible()),
    }
}

/// The number of a type name's first token.
pub fn type_name_at(t: &TypeName) -> Result<u32, WalkStop> {
    specifiers_at(&t.specifiers)
}

/// The number of the tag's token in specifiers that have one: it stands behind its keyword.
pub fn tag_at(ss: &[Specifier]) -> Option<u32> {
    for s in ss {
        match s {
            Specifier::Tag(at, ..)
            | Specifier::Members(at, _, Some(_), _)
            | Specifier::Enumerators(at, Some(_), ..) => return at.checked_add(1),
            Specifier::Members(_, _, None, _)
            | Specifier::Enumerators(_, None, ..)
            | Specifier::Storage(..)
            | Specifier::Basic(..)
            | Specifier::Qualifier(..)
            | Specifier::Function(..)
            | Specifier::TypedefName(..) => {}
        }
    }
    None
}

/// An expression without the parentheses around it (C11 6.5.1p5).
pub fn stripped(e: &Expr) -> &Expr {
    match e {
        Expr::Parentheses(_, inner) => stripped(inner),
        _ => e,
    }
}
