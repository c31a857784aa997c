ghost use Rattle.std.specs.Prelude.{IfOk, IfErr};
ghost use Rattle.link_names.specs.Linking.{declared_from, grouped};
ghost use Rattle.link_names.specs.Linked.{AreLinks, IsDuplicate};

use crate::duplicates::first_duplicate;
use crate::grouping::linked_names;
use crate::names::Links;
use crate::parties::groups;
use crate::units::Fronted;
use cil_base::{Mode, Stop};
use std::alloc::Global;

/// The external names of units with their declarations (C11 6.2.2p2).
///
/// It refuses with `Duplicate` where two units define one name (6.9p5), at the second definition, with the first as the other place,
/// for the first such name in the order in which names appear. Under common, tentative definitions of several units are one, and a
/// definition that is not tentative may stand beside them (J.5.11). Its other error is want of memory.
pub fn links(alloc: Global, units: &[Fronted], mode: Mode) -> Result<Links, Stop>
    ensures links { IfOk result (AreLinks (grouped (declared_from 0 units.now)) mode.common) }
    ensures duplicate { IfErr result (IsDuplicate (grouped (declared_from 0 units.now)) mode.common) }
{
    let names = linked_names(alloc, units)?;
    match first_duplicate(&names, mode) {
        Some(refusal) => Err(Stop::Refused(refusal)),
        None => {
            let groups = groups(alloc, &names)?;
            Ok(Links { names, groups })
        }
    }
}
