ghost use Rattle.std.specs.Prelude.{IfOk};
ghost use Rattle.cil_bodies.specs.Retyped.{IsRetypedPointer, IsRetyped};

use cil_base::{EntityId, Memory, TypeId};
use cil_nodes::{address, at, boxed, cast, whole};
use cil_tree::{Exp, Host};
use std::alloc::Global;

/// The address of an object or function as a pointer of a type: `( P ) ( & x )` (C11 6.5.3.2, 6.5.4).
#[tactic(auto, using(crate::proofs::RetypedLaws::pointer_is))]
pub fn retyped_pointer(alloc: Global, to: TypeId, entity: EntityId) -> Result<Box<Exp>, Memory>
    ensures { IfOk result (λ b. IsRetypedPointer to entity.0 b.value) }
{
    let place = whole(alloc, Host::Global(entity));
    let operand = boxed(alloc, address(place))?;
    boxed(alloc, cast(to, operand))
}

/// An object or function at another type, to which a pointer type points: `* ( P ) ( & x )`.
#[tactic(auto, using(crate::proofs::RetypedLaws::retyped_is))]
pub fn retyped(alloc: Global, to: TypeId, entity: EntityId) -> Result<Host, Memory>
    ensures { IfOk result (λ h. IsRetyped to entity.0 h) }
{
    Ok(at(retyped_pointer(alloc, to, entity)?))
}
