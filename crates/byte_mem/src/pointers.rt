ghost use Rattle.std.specs.Prelude.{◌≡◌};
ghost use Rattle.byte_mem.specs.Name.{same_name, same_pointer};

use cil_base::{EntityId, LocalId};

/// The name of an object or a function (own): C11 6.2.4 and 6.3.2.3 give an object an address, and here its
/// name stands for it.
#[derive(Clone, Copy, Debug, PartialEq, Eq)]
pub enum ObjName {
    /// What has static storage duration, or a function: the number is one over all units of a run.
    Entity(EntityId),
    /// What has automatic storage duration: the number of the activation, and that of the object in its
    /// function.
    Local(u64, LocalId),
    /// A string literal that is no entity.
    Literal(u32),
    /// What `malloc` made: its number among the objects that `malloc` made.
    Heap(u64),
    /// What holds the arguments of the program (C11 5.1.2.2.1): 0 is the array `argv`, and 1, 2 .. the words.
    Argument(u32),
}

/// A pointer to an object or into it (own): the object's name, and the offset in bytes from its beginning.
#[derive(Clone, Copy, Debug, PartialEq, Eq)]
pub struct Pointer {
    pub name: ObjName,
    pub offset: i64,
}

/// Whether two names are the same: of one kind, with equal numbers.
#[inline(always)]
pub fn is_same_name(a: ObjName, b: ObjName) -> bool
    ensures { result ≡ same_name a b }
{
    match (a, b) {
        (ObjName::Entity(m), ObjName::Entity(n)) => m.0 == n.0,
        (ObjName::Local(first, m), ObjName::Local(second, n)) => first == second && m.0 == n.0,
        (ObjName::Literal(m), ObjName::Literal(n)) => m == n,
        (ObjName::Heap(m), ObjName::Heap(n)) => m == n,
        (ObjName::Argument(m), ObjName::Argument(n)) => m == n,
        _ => false,
    }
}

/// Whether two pointers lead to one place of one object.
#[inline(always)]
pub fn is_same_pointer(p: Pointer, q: Pointer) -> bool
    ensures { result ≡ same_pointer p q }
{
    is_same_name(p.name, q.name) && p.offset == q.offset
}
