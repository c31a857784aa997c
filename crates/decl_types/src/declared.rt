use cil_base::{AggId, EntityId, LocalId};
use type_graph::{AggKind, QualType, Quals};

/// What an ordinary name stands for (C11 6.2.3).
#[derive(Clone, Copy, PartialEq, Eq)]
pub enum Declaring {
    /// A typedef name (6.7.8).
    Typedef,
    /// An enumerator with its value (6.7.2.2).
    Enumerator(i32),
    /// An object with static storage duration, or a function.
    Entity(EntityId),
    /// A parameter, or an object with automatic storage duration.
    Local(LocalId),
}

/// The linkage of a name (C11 6.2.2).
#[derive(Clone, Copy, PartialEq, Eq)]
pub enum Linkage {
    External,
    Internal,
    NoLinkage,
}

/// The visible declaration of an ordinary name.
#[derive(Clone, Copy, PartialEq, Eq)]
pub struct Declared {
    pub what: Declaring,
    /// The type that is visible: the composite with the declaration that was visible before, where both have linkage (C11 6.2.7p4).
    pub ty: QualType,
    pub linkage: Linkage,
    /// Whether it is declared `register` (6.7.1p6).
    pub register: bool,
    /// The number of scopes around the one that it is declared in: 0 at file scope.
    pub depth: u32,
}

/// Whether a tag has a body (C11 6.7.2.3).
#[derive(Clone, Copy, PartialEq, Eq)]
pub(crate) enum TagBody {
    /// It is mentioned alone.
    Absent,
    /// Its body has begun, and may have ended.
    Begun,
}

/// The visible declaration of a tag.
#[derive(Clone, Copy)]
pub(crate) struct Tag {
    pub(crate) agg: AggId,
    pub(crate) kind: AggKind,
    pub(crate) body: TagBody,
    pub(crate) depth: u32,
}

/// What stands behind specifiers (C11 6.7p1).
#[derive(Clone, Copy, PartialEq, Eq)]
pub enum Behind {
    /// A declarator, also an abstract one.
    Declarators,
    /// The semicolon of a declaration that has no declarator.
    Nothing,
}

/// Where a member stands among those of its struct or union: static assertions do not count.
#[derive(Clone, Copy, PartialEq, Eq)]
pub enum MemberAt {
    /// In front of another one.
    Inner,
    /// Behind all others, where a struct may have a flexible array (C11 6.7.2.1p18).
    Last,
}

/// The declarator in front of a function's body (C11 6.9.1).
#[derive(Clone, Copy, PartialEq, Eq)]
pub enum BodyForm {
    /// The name with a parameter list of its own: each parameter has a name, or there is the lone `void`.
    Prototype,
    /// The name with `( )`.
    Empty,
    /// The name with an identifier list that is not empty.
    Identifiers,
    /// The name with a parameter list of its own, where a parameter has no name (6.9.1p5).
    Unnamed,
    /// No declarator of function form (6.9.1p2).
    NotFunction,
}

/// How a name is declared.
#[derive(Clone, Copy)]
pub enum Form {
    /// Without an initialiser.
    Plain,
    /// With an initialiser (C11 6.7.9).
    Initialised,
    /// With a function's body.
    Body(BodyForm),
    /// As a parameter, with the qualifiers between the outermost brackets of its declarator (6.7.6.3p7).
    Parameter(Quals),
}
