use crate::initialisers::TypedInit;
use crate::statements::TypedStmt;
use cil_base::{AggId, EntityId, NameId, Place, TypeId};
use type_graph::QualType;
use unit_types::Types;

/// A parameter, or a declared object with automatic storage duration.
#[derive(Clone, Copy)]
pub struct TypedLocal {
    pub name: NameId,
    pub ty: QualType,
}

/// A compound literal in a function (C11 6.5.2.5).
#[derive(Clone, Copy)]
pub struct TypedLiteral {
    pub ty: QualType,
}

/// The body of a function (C11 6.9.1). The parameters are the first locals.
#[derive(Drop)]
pub struct TypedFunction {
    pub params: u32,
    /// The parameters and the declared objects, by their numbers.
    pub locals: Vec<TypedLocal>,
    /// The compound literals, by their numbers.
    pub literals: Vec<TypedLiteral>,
    /// The labels' names, by their numbers.
    pub labels: Vec<NameId>,
    /// The items of the body's block.
    pub body: Vec<TypedStmt>,
}

/// What an object with static storage duration, or a function, is in its unit.
#[derive(Clone, Copy, PartialEq, Eq)]
pub enum EntityKind {
    /// It has external linkage (C11 6.2.2p2).
    External,
    /// It has internal linkage (6.2.2p3).
    Internal,
    /// An object without linkage that is declared in a block as `static`.
    StaticLocal,
    /// A string literal (6.4.5p6), or a compound literal outside functions (6.5.2.5p5).
    Literal,
}

/// Its definition in the unit.
#[derive(Drop)]
pub enum Definition {
    /// It is declared alone.
    Declared,
    /// An object without initialiser: all its bytes are zero (C11 6.7.9p10, 6.9.2p2).
    Zero,
    /// An object with an initialiser, whose steps hold constants.
    Initialised(TypedInit),
    /// A function.
    Body(TypedFunction),
}

/// An object with static storage duration, or a function.
#[derive(Drop)]
pub struct Entity {
    /// Its name; the base of made names for a literal.
    pub name: NameId,
    /// The composite of all its declarations in the unit (C11 6.2.7p4).
    pub ty: TypeId,
    /// Whether it is an object that is defined const (6.7.3p6).
    pub constant: bool,
    pub kind: EntityKind,
    /// The place of its first declaration, or of the literal.
    pub first: Place,
    /// The place of its definition: the first tentative one where it has no other (6.9.2p2).
    pub defined: Option<Place>,
    /// Whether it is a function that is defined with an empty identifier list (6.7.6.3p14).
    pub bare: bool,
    /// Whether it stands in the program: a static function that is neither used nor defined does not (own), nor does the function that is
    /// declared before each unit where the unit does not name it.
    pub kept: bool,
    pub definition: Definition,
}

/// What has a name at file scope that no other unit sees, or is an enumerator: each in the order of its place (C11 6.2.1).
#[derive(Clone, Copy)]
pub enum Ordinary {
    /// An object or function with internal linkage.
    Static(EntityId),
    /// An enumerator, by its place in its enum, at whatever scope.
    Enumerator(AggId, u32),
}

/// A translation unit (C11 6.9).
#[derive(Drop)]
pub struct TypedUnit {
    pub types: Types,
    pub entities: Vec<Entity>,
    pub ordinary: Vec<Ordinary>,
}
