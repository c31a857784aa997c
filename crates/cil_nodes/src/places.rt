ghost use Rattle.std.specs.Prelude.{◌≡◌, [], OnOk};
ghost use Rattle.cil_nodes.specs.Built.{IsAt, IsField, IsElement};

use cil_base::Memory;
use cil_tree::{Exp, Host, Lval, Offset};
use std::alloc::Global;

/// What a pointer points to (C11 6.5.3.2p4).
pub fn at(pointer: Box<Exp>) -> Host
    ensures { IsAt pointer.value result }
{
    Host::At(pointer)
}

/// A place without a step into a part.
pub fn whole(alloc: Global, host: Host) -> Lval
    ensures host { result.host ≡ host }
    ensures offsets { result.offsets.items ≡ [] }
{
    Lval {
        host,
        offsets: Vec::new(alloc),
    }
}

/// Steps from a place into a member (C11 6.5.2.3).
#[tactic(auto, using(crate::proofs::Made::field_is))]
pub fn add_field(place: &mut Lval, number: u32) -> Result<(), Memory>
    ensures { OnOk result (IsField place.old number place.new) }
{
    place.offsets.push(Offset::Field(number))?;
    Ok(())
}

/// Steps from a place into an element (C11 6.5.2.1).
#[tactic(auto, using(crate::proofs::Made::element_is))]
pub fn add_element(place: &mut Lval, index: Box<Exp>) -> Result<(), Memory>
    ensures { OnOk result (IsElement place.old index.value place.new) }
{
    place.offsets.push(Offset::Index(index))?;
    Ok(())
}
