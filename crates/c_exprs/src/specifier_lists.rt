ghost use Rattle.std.specs.Prelude.{◌≡◌, ◌<◌, map, IfOk};
ghost use Rattle.c_tree.specs.View.{specifier_of, specifiers_of, member_of};
ghost use Rattle.c_cursor.specs.Lexemes.{Onward, ahead};
ghost use Rattle.c_cursor.specs.Given.{Gives};
ghost use Rattle.c_exprs.specs.Reading.{below};
ghost use Rattle.c_exprs.specs.SpecifierReading.{more_members, members, struct_body, struct_tag, behind_struct, enum_body, behind_enum, specifier, some_typed, more_specifiers, specifiers};

use crate::enumerators::enumerators;
use crate::goes_on::goes_on_specifiers;
use crate::members::member;
use crate::takes::take_piece;
use crate::told::{either, names_type};
use crate::words::{Piece, SpecifierForm};
use c_cursor::{Cursor, ParseStop, at_name, at_other, at_sign, take_name, take_sign};
use c_lexer::TokenList;
use c_nodes::{
    MemberList, SpecifierList, SpecifierNode, basic_of, enum_of, function_specifier_of,
    qualifier_of, storage_of, struct_of, tag_height, tag_of, typedef_name_of,
};
use c_tree::{Qualifier, StructKind, TagKind};
use cil_base::{NameId, Punctuator};
use std::alloc::Global;
use typedef_scopes::Scopes;

/// All declarations among members behind some.
#[cycle(reading)]
pub(crate) fn more_members<L: TokenList>(
    alloc: Global,
    c: &mut Cursor<L>,
    s: &mut Scopes,
    height: u32,
    first: MemberList,
) -> Result<MemberList, ParseStop>
    ensures gives { Gives (λ x. (map member_of x, s.new)) result (more_members (below height) (map member_of first, s.old) (ahead c.old)) (ahead c.new) }
    ensures onward { Onward c.old c.new }
{
    let mut ms = first;
    while at_other(c, Punctuator::RightBrace) {
        let m = member(alloc, c, s, height)?;
        ms.push(m)?;
    }
    Ok(ms)
}

/// Declarations among members: at least one (C11 6.7.2.1).
#[cycle(reading)]
pub(crate) fn members<L: TokenList>(
    alloc: Global,
    c: &mut Cursor<L>,
    s: &mut Scopes,
    height: u32,
) -> Result<MemberList, ParseStop>
    ensures gives { Gives (λ x. (map member_of x, s.new)) result (members (below height) s.old (ahead c.old)) (ahead c.new) }
    ensures onward { Onward c.old c.new }
{
    let m = member(alloc, c, s, height)?;
    let mut ms = MemberList::new(alloc);
    ms.push(m)?;
    more_members(alloc, c, s, height, ms)
}

/// `{ members }`
#[cycle(reading)]
#[tactic(auto, using(crate::proofs::TreeLists::seen_members))]
pub(crate) fn struct_body<L: TokenList>(
    alloc: Global,
    c: &mut Cursor<L>,
    s: &mut Scopes,
    height: u32,
    at: u32,
    kind: StructKind,
    tag: Option<NameId>,
) -> Result<SpecifierNode, ParseStop>
    ensures gives { Gives (λ x. (specifier_of x, s.new)) result (struct_body height (below height) at kind tag s.old (ahead c.old)) (ahead c.new) }
    ensures onward { Onward c.old c.new }
{
    if tag_height(tag) >= height {
        return Err(ParseStop::At(c.position()));
    }
    take_sign(c, Punctuator::LeftBrace)?;
    let ms = members(alloc, c, s, height)?;
    take_sign(c, Punctuator::RightBrace)?;
    Ok(struct_of(at, kind, tag, ms)?)
}

/// The kind of a structure's or union's tag.
fn struct_tag(kind: StructKind) -> TagKind
    ensures { result ≡ struct_tag kind }
{
    match kind {
        StructKind::Struct => TagKind::Struct,
        StructKind::Union => TagKind::Union,
    }
}

/// A structure or union specifier behind its first word (C11 6.7.2.1).
#[cycle(reading)]
pub(crate) fn behind_struct<L: TokenList>(
    alloc: Global,
    c: &mut Cursor<L>,
    s: &mut Scopes,
    height: u32,
    at: u32,
    kind: StructKind,
) -> Result<SpecifierNode, ParseStop>
    ensures gives { Gives (λ x. (specifier_of x, s.new)) result (behind_struct height (below height) at kind s.old (ahead c.old)) (ahead c.new) }
    ensures onward { Onward c.old c.new }
{
    if !at_name(c) {
        return struct_body(alloc, c, s, height, at, kind, None);
    }
    let tag = take_name(c)?;
    if at_sign(c, Punctuator::LeftBrace) {
        return struct_body(alloc, c, s, height, at, kind, Some(tag));
    }
    Ok(tag_of(at, struct_tag(kind), tag))
}

/// `{ enumerators }`
#[cycle(reading)]
#[tactic(auto, using(crate::proofs::TreeLists::seen_enumerators))]
pub(crate) fn enum_body<L: TokenList>(
    alloc: Global,
    c: &mut Cursor<L>,
    s: &mut Scopes,
    height: u32,
    at: u32,
    tag: Option<NameId>,
) -> Result<SpecifierNode, ParseStop>
    ensures gives { Gives (λ x. (specifier_of x, s.new)) result (enum_body height (below height) at tag s.old (ahead c.old)) (ahead c.new) }
    ensures onward { Onward c.old c.new }
{
    if height < 2 {
        return Err(ParseStop::At(c.position()));
    }
    take_sign(c, Punctuator::LeftBrace)?;
    let (es, comma) = enumerators(alloc, c, s, height)?;
    take_sign(c, Punctuator::RightBrace)?;
    Ok(enum_of(at, tag, es, comma)?)
}

/// An enumeration specifier behind its first word (C11 6.7.2.2).
#[cycle(reading)]
pub(crate) fn behind_enum<L: TokenList>(
    alloc: Global,
    c: &mut Cursor<L>,
    s: &mut Scopes,
    height: u32,
    at: u32,
) -> Result<SpecifierNode, ParseStop>
    ensures gives { Gives (λ x. (specifier_of x, s.new)) result (behind_enum height (below height) at s.old (ahead c.old)) (ahead c.new) }
    ensures onward { Onward c.old c.new }
{
    if !at_name(c) {
        return enum_body(alloc, c, s, height, at, None);
    }
    let tag = take_name(c)?;
    if at_sign(c, Punctuator::LeftBrace) {
        return enum_body(alloc, c, s, height, at, Some(tag));
    }
    Ok(tag_of(at, TagKind::Enum, tag))
}

/// A specifier of that form. `typed`: a type specifier was read among the same specifiers, so that no typedef name follows (C11 6.7.1 to 6.7.4, 6.7.2p2).
#[cycle(reading)]
pub(crate) fn specifier<L: TokenList>(
    alloc: Global,
    c: &mut Cursor<L>,
    s: &mut Scopes,
    height: u32,
    form: SpecifierForm,
    typed: bool,
) -> Result<SpecifierNode, ParseStop>
    ensures gives { Gives (λ x. (specifier_of x, s.new)) result (specifier height (below height) form typed s.old (ahead c.old)) (ahead c.new) }
    ensures onward { Onward c.old c.new }
    ensures further { IfOk result (λ _. c.old.at < c.new.at) }
{
    let at = c.position();
    match take_piece(c, s, height, form, typed)? {
        Piece::Storage(word) => Ok(storage_of(at, word)),
        Piece::Basic(word) => Ok(basic_of(at, word)),
        Piece::Qualifier(word) => Ok(qualifier_of(at, word)),
        Piece::Function(word) => Ok(function_specifier_of(at, word)),
        Piece::Name(n) => Ok(typedef_name_of(at, n)),
        Piece::Struct(kind) => behind_struct(alloc, c, s, height, at, kind),
        Piece::Enum => behind_enum(alloc, c, s, height, at),
    }
}

/// All specifiers behind some. `first_typed`: a type specifier is among them.
#[cycle(reading)]
pub(crate) fn more_specifiers<L: TokenList>(
    alloc: Global,
    c: &mut Cursor<L>,
    s: &mut Scopes,
    height: u32,
    form: SpecifierForm,
    first: SpecifierList,
    first_typed: bool,
) -> Result<SpecifierList, ParseStop>
    requires typed { first_typed ≡ some_typed (map specifier_of first) }
    ensures gives { Gives (λ x. (map specifier_of x, s.new)) result (more_specifiers height (below height) form (map specifier_of first, s.old) (ahead c.old)) (ahead c.new) }
    ensures onward { Onward c.old c.new }
{
    let mut xs = first;
    let mut typed = first_typed;
    while goes_on_specifiers(c, typed, s) {
        let x = specifier(alloc, c, s, height, form, typed)?;
        typed = either(typed, names_type(x.tree()));
        xs.push(x)?;
    }
    Ok(xs)
}

/// Specifiers of that form: at least one (C11 6.7, 6.7.7).
#[cycle(reading)]
#[tactic(auto, using(crate::proofs::TreeLists::seen_specifiers, crate::proofs::TreeHeights::one_typed))]
pub(crate) fn specifiers<L: TokenList>(
    alloc: Global,
    c: &mut Cursor<L>,
    s: &mut Scopes,
    height: u32,
    form: SpecifierForm,
) -> Result<SpecifierList, ParseStop>
    ensures gives { Gives (λ x. (specifiers_of x, s.new)) result (specifiers height (below height) form s.old (ahead c.old)) (ahead c.new) }
    ensures onward { Onward c.old c.new }
    ensures further { IfOk result (λ _. c.old.at < c.new.at) }
{
    let x = specifier(alloc, c, s, height, form, false)?;
    let typed = names_type(x.tree());
    let mut xs = SpecifierList::new(alloc);
    xs.push(x)?;
    more_specifiers(alloc, c, s, height, form, xs, typed)
}
