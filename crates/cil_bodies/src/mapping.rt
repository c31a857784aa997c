ghost use Rattle.std.specs.Prelude.{◌≡◌, Some, Ok, slice_get, IfOk};
ghost use Rattle.cil_base.specs.declared.numbers.TypeId.{TypeId};
ghost use Rattle.cil_bodies.specs.declared.mapping.Use.{Use};

use cil_base::{EntityId, Memory, TypeId};

/// What an object or function of a unit is in a program.
#[derive(Clone, Copy)]
pub struct Use {
    /// Its number there.
    pub entity: EntityId,
    /// The pointer to the type at which it is used, where that is not the type that it has there.
    pub through: Option<TypeId>,
}

/// What the numbers of a unit are in a program.
#[derive(Clone, Copy)]
pub struct Mapping<'a> {
    /// By the number of a type, that of its type there.
    pub types: &'a [TypeId],
    /// By the number of an object or function, what it is there.
    pub uses: &'a [Use],
}

impl Mapping<'_> {
    /// What a type is. Of one that is not there it answers Memory.
    pub fn ty(&self, t: TypeId) -> Result<TypeId, Memory>
        ensures is { IfOk result (λ u. slice_get self.now.types.now t.0 ≡ Some u) }
        ensures there { (u : TypeId) → slice_get self.now.types.now t.0 ≡ Some u → result ≡ Ok u }
    {
        match self.types.get(t.0 as usize) {
            Some(found) => Ok(*found),
            None => Err(impossible()),
        }
    }

    /// What an object or function is. Of one that is not there it answers Memory.
    pub fn entity(&self, e: EntityId) -> Result<Use, Memory>
        ensures is { IfOk result (λ u. slice_get self.now.uses.now e.0 ≡ Some u) }
        ensures there { (u : Use) → slice_get self.now.uses.now e.0 ≡ Some u → result ≡ Ok u }
    {
        match self.uses.get(e.0 as usize) {
            Some(found) => Ok(*found),
            None => Err(impossible()),
        }
    }
}

/// What a branch answers that never comes.
fn impossible() -> Memory {
    Memory
}
