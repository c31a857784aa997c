ghost use Rattle.std.specs.Prelude.{◌≡◌, ◌<◌, Some, None, slice_get, IfOk, OnErr};

use crate::units::Fronted;
use cil_base::{EntityId, Memory, UnitNo};
use type_things::{impossible, narrow};

/// The number of a unit, by its place among the units; Memory where no number is so great.
pub fn unit_number(u: usize) -> Result<UnitNo, Memory>
    ensures is { IfOk result (λ n. n.0 ≡ u) }
    ensures great { OnErr result (4294967295 < u) }
{
    Ok(UnitNo(narrow(u)?))
}

/// The number of a global, by its place among the globals; Memory where no number is so great.
pub fn entity_number(e: usize) -> Result<EntityId, Memory>
    ensures is { IfOk result (λ n. n.0 ≡ e) }
    ensures great { OnErr result (4294967295 < e) }
{
    Ok(EntityId(narrow(e)?))
}

/// The unit with a number; Memory where there is none.
pub fn unit_at(units: &[Fronted], u: UnitNo) -> Result<&Fronted, Memory>
    ensures is { IfOk result (λ f. slice_get units.now u.0 ≡ Some f.now) }
    ensures none { OnErr result (slice_get units.now u.0 ≡ None) }
{
    match units.get(u.0 as usize) {
        Some(unit) => Ok(unit),
        None => Err(impossible()),
    }
}
