ghost use Rattle.std.specs.Prelude.{◌<◌, length, map, IfOk};
ghost use Rattle.std.specs.String.{string_bytes};
ghost use Rattle.cil_base.specs.NamePool.{Stays};
ghost use Rattle.c_lexer.specs.Lexed.{IfRefused};
ghost use Rattle.unit_merger.specs.Naming.{IsNamed};

use cil_base::{NameId, NamePool, Stop, UnitNo};
use merge_refusals::impossible;

/// The number of a unit, and the number of its file's name.
pub(crate) fn named(
    i: usize,
    files: &[String],
    names: &mut NamePool,
) -> Result<(UnitNo, NameId), Stop>
    ensures named { IfOk result (λ at. IsNamed (map string_bytes files.now) i at.0 at.1 names.new) }
    ensures known { IfOk result (λ at. at.1.0 < length names.new) }
    ensures stays { Stays names.old names.new }
    ensures refused { IfRefused result (λ refusal. ⊥) }
{
    if i >= files.len() || i >= u32::MAX as usize {
        return Err(impossible());
    }
    let file = names.intern(files[i].as_bytes())?;
    Ok((UnitNo(i as u32), file))
}
