ghost use Rattle.std.specs.Prelude.{IfSome, IsTrue};
ghost use Rattle.unit_front.specs.Identifiers.{IsIdentifier, IsDeclared, AreDeclared};

use c_lexer::Tokens;
use cil_base::{NameId, Place, TokenKind};
use cil_tree::GlobalDecl;
use link_names::{Fronted, Site};

/// Whether the token of a place is an identifier of this name (C11 6.4.2).
fn is_named(tokens: &Tokens<'_>, name: NameId, place: Place) -> bool
    ensures { IsTrue result → IsIdentifier tokens.now name place }
{
    place.token < tokens.count()
        && tokens.place(place.token) == place
        && tokens.token(place.token).kind == TokenKind::Name(name)
}

/// Whether a definition stands at an identifier of this name, if there is one.
fn is_defined_at(tokens: &Tokens<'_>, name: NameId, defined: Option<Place>) -> bool
    ensures { IsTrue result → IfSome defined (IsIdentifier tokens.now name) }
{
    match defined {
        Some(place) => is_named(tokens, name, place),
        None => true,
    }
}

/// Whether an external name is declared and defined at identifiers of its name.
fn is_declared(tokens: &Tokens<'_>, globals: &[GlobalDecl], site: Site) -> bool
    ensures { IsTrue result → IsDeclared tokens.now globals.now site }
{
    match globals.get(site.entity.0 as usize) {
        Some(global) => {
            is_named(tokens, global.name, site.first)
                && is_defined_at(tokens, global.name, site.defined)
        }
        None => false,
    }
}

/// Whether all external names of a program are.
#[tactic(auto, using(crate::proofs::Declaring::none_yet, crate::proofs::Declaring::one_more, crate::proofs::Declaring::all))]
pub(crate) fn are_declared(tokens: &Tokens<'_>, f: &Fronted) -> bool
    ensures { IsTrue result → AreDeclared tokens.now f.now }
{
    for i in 0..f.sites.len() {
        if !is_declared(tokens, &f.cil.globals, f.sites[i]) {
            return false;
        }
    }
    true
}
