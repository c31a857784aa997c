ghost use Rattle.std.specs.Prelude.{◌≡◌};
ghost use Rattle.cil_commands.specs.Merge.{refused_first as the_refusal};

use cil_base::{Fault, NameId, Place, Refusal, UnitNo};

/// A refusal at the first token of the first unit, whose file is the first name. Own.
pub fn refused_first(fault: Fault, file: NameId) -> Refusal
    requires { file.0 ≡ 0 }
    ensures { result ≡ the_refusal fault }
{
    let at = Place {
        unit: UnitNo(0),
        token: 0,
        file,
        line: 1,
    };
    Refusal {
        fault,
        at,
        other: None,
    }
}
