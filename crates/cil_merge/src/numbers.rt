ghost use Rattle.std.specs.Prelude.{◌≡◌, Some, slice_get, IfOk};

use cil_base::{Memory, TypeId};
use type_things::impossible;

/// The type that stands for another in a table.
pub(crate) fn type_in(types: &[TypeId], t: TypeId) -> Result<TypeId, Memory>
    ensures { IfOk result (λ u. slice_get types.now t.0 ≡ Some u) }
{
    match types.get(t.0 as usize) {
        Some(found) => Ok(*found),
        None => Err(impossible()),
    }
}
