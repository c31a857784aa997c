ghost use Rattle.std.specs.Prelude.{◌≡◌, ◌≢◌, ◌<◌, ℕ, None, length, IsTrue};
ghost use Rattle.std.specs.Option.{ForSome};
ghost use Rattle.cil_base.specs.declared.faults.Fault.TheVariants.{Limit};
ghost use Rattle.cil_base.specs.declared.faults.What.TheVariants.{PrintedBytes};
ghost use Rattle.merge_refusals.specs.Refusals.{IsLateFault, IsUnitFault, IsUnitRefusal, IsMergeFault, has_two_places, HasOther, IsMergeRefusal, IfRefusal, IsTooLong, PrintedIfLong};

use cil_base::{Fault, NamePool, Place, Refusal, Stop, UnitNo, What};

/// Whether a fault is one of a grammatical unit, before its program is printed.
fn is_unit_fault(fault: &Fault) -> bool
    ensures unit { IsTrue result → IsUnitFault fault.now }
    ensures printed { IsTrue result → fault.now ≢ Limit PrintedBytes }
{
    match fault {
        Fault::Limit(What::PrintedBytes) => false,
        Fault::Excluded(_) | Fault::Constraint(_) | Fault::Limit(_) => true,
        Fault::Lexical | Fault::Syntax | Fault::Duplicate | Fault::Incompatible => false,
    }
}

/// Whether a fault is one of a merge, before its program is printed.
fn is_merge_fault(fault: &Fault) -> bool
    ensures merge { IsTrue result → IsMergeFault fault.now }
    ensures printed { IsTrue result → fault.now ≢ Limit PrintedBytes }
{
    match fault {
        Fault::Limit(What::PrintedBytes) => false,
        Fault::Lexical
        | Fault::Excluded(_)
        | Fault::Syntax
        | Fault::Constraint(_)
        | Fault::Limit(_)
        | Fault::Duplicate
        | Fault::Incompatible => true,
    }
}

/// Whether a fault has a second place.
fn has_two(fault: &Fault) -> bool
    ensures { result ≡ has_two_places fault.now }
{
    match fault {
        Fault::Syntax | Fault::Duplicate | Fault::Incompatible => true,
        Fault::Lexical | Fault::Excluded(_) | Fault::Constraint(_) | Fault::Limit(_) => false,
    }
}

/// Whether a place stands in one of so many units, and its file is a name of the pool.
fn is_within(place: &Place, units: usize, names: &NamePool) -> bool
    ensures unit { IsTrue result → place.now.unit.0 < units }
    ensures file { IsTrue result → place.now.file.0 < length names.now }
{
    (place.unit.0 as usize) < units && place.file.0 < names.len()
}

/// Whether a refusal has a second place where its fault has one, which stands in the units.
#[tactic(auto, using(crate::proofs::Places::has_second, crate::proofs::Places::has_none))]
fn has_other(refusal: &Refusal, units: usize, names: &NamePool) -> bool
    ensures other { IsTrue result → HasOther units refusal.now.fault refusal.now.other }
    ensures file { IsTrue result → ForSome refusal.now.other (λ place. place.file.0 < length names.now) }
{
    match &refusal.other {
        None => !has_two(&refusal.fault),
        Some(place) => has_two(&refusal.fault) && is_within(place, units, names),
    }
}

/// What is answered where the first unit alone is refused before its program is printed.
pub fn of_first(refusal: Refusal, names: &NamePool) -> Stop
    ensures printed { IfRefusal result PrintedIfLong }
    ensures refused { IfRefusal result (IsUnitRefusal (length names.now)) }
    ensures same { IfRefusal result (λ r. r ≡ refusal) }
{
    if is_unit_fault(&refusal.fault)
        && refusal.at.unit == UnitNo(0)
        && refusal.at.file.0 < names.len()
        && refusal.other.is_none()
    {
        Stop::Refused(refusal)
    } else {
        impossible()
    }
}

/// What is answered where units are refused before their program is printed.
pub fn of_units(refusal: Refusal, units: usize, names: &NamePool) -> Stop
    ensures printed { IfRefusal result PrintedIfLong }
    ensures refused { IfRefusal result (IsMergeRefusal units (length names.now)) }
    ensures same { IfRefusal result (λ r. r ≡ refusal) }
    ensures short { IfRefusal result (λ r. r.fault ≢ Limit PrintedBytes) }
{
    if is_merge_fault(&refusal.fault)
        && is_within(&refusal.at, units, names)
        && has_other(&refusal, units, names)
    {
        Stop::Refused(refusal)
    } else {
        impossible()
    }
}

/// Whether a fault is one of the linking of units.
fn is_link_fault(fault: &Fault) -> bool
    ensures { IsTrue result → IsLateFault fault.now }
{
    match fault {
        Fault::Duplicate | Fault::Incompatible => true,
        Fault::Lexical
        | Fault::Excluded(_)
        | Fault::Syntax
        | Fault::Constraint(_)
        | Fault::Limit(_) => false,
    }
}

/// What is answered where units cannot be linked.
pub fn of_link(refusal: Refusal) -> Stop
    ensures late { IfRefusal result (λ r. IsLateFault r.fault) }
    ensures same { IfRefusal result (λ r. r ≡ refusal) }
{
    if is_link_fault(&refusal.fault) {
        Stop::Refused(refusal)
    } else {
        impossible()
    }
}

/// What is answered where the text of a program is too long, by the place of the first unit's first token.
pub fn too_long(at: Place, names: &NamePool) -> Stop
    requires { IsTooLong at }
    ensures late { IfRefusal result (λ r. IsLateFault r.fault) }
    ensures long { IfRefusal result (λ r. r.fault ≡ Limit PrintedBytes) }
    ensures place { IfRefusal result (λ r. r.at ≡ at) }
    ensures alone { IfRefusal result (λ r. r.other ≡ None) }
    ensures printed { IfRefusal result PrintedIfLong }
    ensures unit { IfRefusal result (IsUnitRefusal (length names.now)) }
    ensures refused { (units : ℕ) → 0 < units → IfRefusal result (IsMergeRefusal units (length names.now)) }
{
    if at.file.0 < names.len() {
        Stop::Refused(Refusal {
            fault: Fault::Limit(What::PrintedBytes),
            at,
            other: None,
        })
    } else {
        impossible()
    }
}

/// What a branch answers that never comes.
pub fn impossible() -> Stop
    ensures { IfRefusal result (λ refusal. ⊥) }
{
    Stop::Memory
}
