ghost use Rattle.std.specs.Prelude.{◌≡◌, ◌+◌, IfOk};

use cil_base::Memory;

/// One more than a height.
pub(crate) fn above(height: u32) -> Result<u32, Memory>
    ensures { IfOk result (λ h. h ≡ 1 + height) }
{
    match height.checked_add(1) {
        Some(h) => Ok(h),
        None => Err(Memory),
    }
}
