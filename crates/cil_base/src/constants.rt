use crate::kinds::IntKind;
use crate::numbers::EntityId;

/// The value of a constant expression (C11 6.6). A null pointer constant is `Int(k, 0)`, where k is
/// the data model's kind of `unsigned long`.
#[derive(Clone, Copy, Debug, PartialEq, Eq)]
pub enum Constant {
    /// An integer constant expression (6.6p6): a value of the kind.
    Int(IntKind, i128),
    /// An address constant (6.6p9): the object, and the offset in bytes from its beginning.
    Address(EntityId, i64),
    /// The address of a function (6.6p9).
    Function(EntityId),
}
