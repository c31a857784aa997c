use crate::expressions::TypedExp;
use cil_base::{Bytes, Constant};
use smallvec::SmallVec;

/// A step from an object into a part of it (C11 6.7.9p7).
#[derive(Clone, Copy)]
pub enum Step {
    /// A member, by its place in its struct or union.
    Field(u32),
    /// An element of an array.
    Index(u64),
}

impl Default for Step {
    fn default() -> Self {
        Step::Field(0)
    }
}

/// The way from an object to a part of it: no step for the object itself.
pub type Path = SmallVec<Step, 4>;

/// What an initialiser does to a part of its object (C11 6.7.9).
#[derive(Drop)]
#[cycle(typed)]
pub enum InitStep {
    /// Each byte of the part becomes zero: it has a brace list or a string, or is a union of which another member was initialised.
    Zero(Path),
    /// A scalar is given a value of its type.
    Scalar(Path, TypedExp),
    /// A scalar of an object with static storage duration is given a constant (6.7.9p4).
    Constant(Path, Constant),
    /// A struct or union is given a value of its type (6.7.9p13).
    Aggregate(Path, TypedExp),
    /// The first elements of an array of characters are given the bytes of a string (6.7.9p14).
    Bytes(Path, Bytes),
}

/// An initialiser, as its steps in the order of the text.
#[derive(Drop)]
#[cycle(typed)]
pub struct TypedInit {
    pub steps: Vec<InitStep>,
}
