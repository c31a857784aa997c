ghost use Rattle.std.specs.Prelude.{◌≡◌, List, length, true, false, pos};
ghost use Rattle.type_graph.specs.Renaming.{renamed_members};
ghost use Rattle.type_graph.specs.Kept.{members_in};

use crate::nodes::QualType;
use cil_base::NameId;
use std::marker::Model;

/// The kinds of types that tags name (C11 6.7.2.3).
#[derive(Clone, Copy, Debug, PartialEq, Eq)]
pub enum AggKind {
    Struct,
    Union,
    Enum,
}

/// A member of a struct or union (C11 6.7.2.1), or an enumerator (6.7.2.2).
#[derive(Clone, Copy)]
pub struct Member {
    pub name: NameId,
    /// Whether it is an anonymous structure or union (C11 6.7.2.1p13); its name is then a made one.
    pub anonymous: bool,
    pub ty: QualType,
    /// The value of an enumerator; 0 elsewhere.
    pub value: i32,
}

impl Member {
    /// A member or enumerator with a name of its own.
    pub fn named(name: NameId, ty: QualType, value: i32) -> Self
        ensures { result ≡ record { name = name; anonymous = false; ty = ty; value = value } }
    {
        Member {
            name,
            anonymous: false,
            ty,
            value,
        }
    }

    /// An anonymous structure or union (C11 6.7.2.1p13), with the name that is made for it.
    pub fn unnamed(name: NameId, ty: QualType) -> Self
        ensures { result ≡ record { name = name; anonymous = true; ty = ty; value = pos 0 } }
    {
        Member {
            name,
            anonymous: true,
            ty,
            value: 0,
        }
    }

    /// The same member or enumerator at another type.
    pub fn with_type(self, ty: QualType) -> Self
        ensures { result ≡ record self { ty = ty } }
    {
        Member { ty, ..self }
    }
}

/// Members in order. One or two stand in the value itself, so that they need no block of memory.
#[derive(Drop)]
enum Kept {
    One([Member; 1]),
    Two([Member; 2]),
    Any(Vec<Member>),
}

/// The members of an aggregate in order, which contracts see as a list.
#[derive(Drop)]
pub struct Members {
    kept: Kept,
}

impl Model for Members {
    ghost use Rattle.std.specs.Prelude.{List};
    ghost use Rattle.type_graph.specs.declared.aggregates.Member.{Member};
    ghost use Rattle.type_graph.specs.Kept.{members_in};

    ghost Value = { List Member };

    ghost view = { λ l. members_in l.kept };
}

/// Gives members other names, in order.
fn rename_all(members: &mut [Member], names: &[NameId])
    requires { length members.old ≡ length names.now }
    ensures { members.new ≡ renamed_members members.old names.now }
{
    for i in 0..names.len() {
        members[i].name = names[i];
    }
}

/// Members in their place, without the room that a vector has for more.
fn kept_in(members: Vec<Member>) -> Kept
    ensures { members_in result ≡ members.items }
{
    match members.as_slice() {
        [only] => Kept::One([*only]),
        [first, second] => Kept::Two([*first, *second]),
        _ => fitted(members),
    }
}

/// Members in a vector that has no room for more.
fn fitted(members: Vec<Member>) -> Kept
    ensures { members_in result ≡ members.items }
{
    let mut members = members;
    members.shrink_to_fit();
    Kept::Any(members)
}

impl Members {
    /// The members of a vector, without the room that it has for more.
    pub fn new(members: Vec<Member>) -> Self
        ensures { result ≡ members.items }
    {
        Members {
            kept: kept_in(members),
        }
    }

    /// The members, as a slice.
    pub fn as_slice(&self) -> &[Member]
        ensures { result.now ≡ self.now }
    {
        match &self.kept {
            Kept::One(members) => members.as_slice(),
            Kept::Two(members) => members.as_slice(),
            Kept::Any(members) => members.as_slice(),
        }
    }

    /// Gives the members other names, in order.
    pub(crate) fn rename(&mut self, names: &[NameId])
        requires { length self.old ≡ length names.now }
        ensures { self.new ≡ renamed_members self.old names.now }
    {
        match &mut self.kept {
            Kept::One(members) => rename_all(members, names),
            Kept::Two(members) => rename_all(members, names),
            Kept::Any(members) => rename_all(members, names),
        }
    }
}

/// A struct, union or enum. It has no members while it is incomplete (C11 6.7.2.1p8, 6.7.2.2p4).
#[derive(Drop)]
pub struct Aggregate {
    pub kind: AggKind,
    pub tag: Option<NameId>,
    pub members: Option<Members>,
}

impl Aggregate {
    ghost use Rattle.type_graph.specs.Arena.{member_count};
    ghost use Rattle.type_graph.specs.Growth.{renamed};

    /// Gives the aggregate another tag, and its members other names in order.
    pub(crate) fn rename(&mut self, tag: NameId, names: &[NameId])
        requires { member_count self.old ≡ length names.now }
        ensures { self.new ≡ renamed self.old tag names.now }
    {
        self.tag = Some(tag);
        if let Some(members) = &mut self.members {
            members.rename(names);
        }
    }
}
