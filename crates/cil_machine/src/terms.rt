use byte_mem::Scalar;
use cil_base::{BinOp, EntityId, IntKind, LocalId, UnOp};

/// An expression of scalar type whose types, sizes and entities are resolved. It is asked for a value of a scalar,
/// and its operands are asked for values of theirs.
#[derive(Drop)]
#[cycle(term)]
pub enum Term {
    /// A constant.
    Number(u64),
    /// The value of an object (C11 6.3.2.1p2).
    Load(Spot),
    /// Whether a value of the scalar compares equal to 0 (6.5.3.3p5).
    Not(Scalar, Box<Term>),
    /// `-` or `~` (6.5.3.3p3, p4).
    Unary(UnOp, Box<Term>),
    /// An operator over integers of the kind that the term is asked for (6.5.5, 6.5.6, 6.5.10 to 6.5.12).
    Arithmetic(BinOp, Box<Term>, Box<Term>),
    /// A shift, whose right operand is of this kind (6.5.7): to the left, or else to the right.
    Shift(bool, IntKind, Box<Term>, Box<Term>),
    /// A comparison of integers of this kind (6.5.8, 6.5.9).
    Compare(BinOp, IntKind, Box<Term>, Box<Term>),
    /// A pointer to elements of that size and an integer of this kind added (6.5.6p8).
    Sum(u32, IntKind, Box<Term>, Box<Term>),
    /// An integer subtracted from a pointer (6.5.6p8).
    Less(u32, IntKind, Box<Term>, Box<Term>),
    /// The difference of two pointers (6.5.6p9).
    Difference(u32, Box<Term>, Box<Term>),
    /// A comparison of pointers (6.5.8, 6.5.9).
    Relation(BinOp, Box<Term>, Box<Term>),
    /// A conversion of a value of the scalar (6.5.4).
    Convert(Scalar, Box<Term>),
    /// The place itself (6.5.3.2p3, 6.3.2.1p3).
    Address(Spot),
    /// Undefined: what has no type.
    Wrong,
}

/// A resolved place.
#[derive(Drop)]
#[cycle(term)]
pub enum Spot {
    /// A global, by the run's number of it.
    Entity(EntityId),
    /// A local of the activation.
    Local(LocalId),
    /// What a pointer points to (6.5.3.2p4).
    At(Box<Term>),
    /// A member of that offset (6.5.2.3p3).
    Member(u32, Box<Spot>),
    /// An element of that size, by an index of this kind (6.5.2.1p2).
    Element(u32, IntKind, Box<Spot>, Box<Term>),
    /// Undefined: what has no type.
    Wrong,
}
