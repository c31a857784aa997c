ghost use Rattle.std.specs.Prelude.{◌≡◌, slice_get};
ghost use Rattle.std.specs.Option.{option_map};
ghost use Rattle.cil_reader.specs.Settings.{FoundAmong};

use crate::names::{Known, Names};
use cil_base::{AggId, TypeId};

/// The names of an aggregate's members.
fn members_of(known: &Known, a: AggId) -> Option<&Names>
    ensures { option_map (λ x. x.now) result ≡ slice_get known.now.members.items a.0 }
{
    known.members.get(a.0 as usize)
}

/// The number and the type of an aggregate's member.
pub(crate) fn find_member(known: &Known, a: AggId, name: &[u8]) -> Option<(u32, TypeId)>
    ensures { FoundAmong name.now (slice_get known.now.members.items a.0) result }
{
    match members_of(known, a) {
        Some(names) => names.find(name),
        None => None,
    }
}
