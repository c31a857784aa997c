ghost use Rattle.std.specs.Prelude.{IfErr};
ghost use Rattle.decl_types.specs.Refusals.{IsRefusal, of_types};

use crate::declarer::Declarer;
use crate::entities::{DeclaredEntity, Defined, LateFault};
use crate::stops::{laid, narrow};
use crate::types::is_unbounded;
use cil_base::{Code, EntityId, RuleStop, TypeId};
use unit_types::{Class, Types};

/// The type of an entity at the unit's end: an array of unknown bound that is defined tentatively alone has one element (C11 6.9.2p2, p5).
fn final_type(e: &DeclaredEntity, t: &mut Types) -> Result<TypeId, RuleStop>
    ensures { IfErr result (IsRefusal of_types) }
{
    if e.defined != Defined::Tentative || !is_unbounded(t, e.ty.of) {
        return Ok(e.ty.of);
    }
    match t.class(e.ty.of) {
        Class::Array(element, None) => laid(t.array(element, Some(1))),
        Class::Array(_, Some(_))
        | Class::Void
        | Class::Int(_)
        | Class::Ptr(_)
        | Class::Func { .. }
        | Class::Agg(..) => Ok(e.ty.of),
    }
}

/// The fault that the unit's end shows of an entity: a tentative definition whose type stays incomplete (C11 6.9.2p2), or a function with internal linkage
/// that is used and not defined (6.9p3).
fn late_code(e: &DeclaredEntity, t: &Types) -> Option<Code> {
    if e.defined == Defined::Tentative && !t.is_complete(e.ty.of) {
        Some(Code::Incomplete)
    } else if e.is_missing(t) {
        Some(Code::Defined)
    } else {
        None
    }
}

impl Declarer {
    /// Ends an entity.
    fn finish_entity(&mut self, e: EntityId, t: &mut Types) -> Result<Option<LateFault>, RuleStop>
        ensures { IfErr result (IsRefusal of_types) }
    {
        let entity = match self.entities.get(e) {
            None => return Ok(None),
            Some(entity) => entity,
        };
        let of = final_type(&entity, t)?;
        self.entities.set_type(e, of)?;
        match self.entities.get(e) {
            None => Ok(None),
            Some(ended) => match late_code(&ended, t) {
                None => Ok(None),
                Some(code) => Ok(Some(LateFault { entity: e, code })),
            },
        }
    }

    /// Ends the unit: tentative definitions of arrays of unknown bound get one element. The answer lists the faults that only the end shows, by entity.
    pub fn finish(&mut self, t: &mut Types) -> Result<Vec<LateFault>, RuleStop>
        ensures { IfErr result (IsRefusal of_types) }
    {
        let mut faults = Vec::new(self.alloc);
        let count = narrow(self.entities.as_slice().len())?;
        for i in 0..count {
            if let Some(fault) = self.finish_entity(EntityId(i), t)? {
                faults.push(fault)?;
            }
        }
        Ok(faults)
    }
}
