ghost use Rattle.std.specs.Prelude.{◌≡◌, MatchResult, IfOk, Ok, Err, IfErr};
ghost use Rattle.cil_base.specs.declared.faults.Fault.TheVariants.{Constraint, Excluded, Limit};
ghost use Rattle.cil_base.specs.declared.faults.RuleStop.TheVariants as stop;
ghost use Rattle.decl_types.specs.Stops.{refusal};
ghost use Rattle.decl_types.specs.Refusals.{IsRefusal, of_types};

use cil_base::{Code, Fault, Feature, Memory, RuleStop, What};
use layout_lp64::LayoutStop;

/// What a branch answers that never comes.
pub(crate) fn impossible() -> Memory {
    Memory
}

/// The same, where a rule may refuse.
pub(crate) fn never() -> RuleStop
    ensures { result ≡ stop.Memory }
{
    RuleStop::from(impossible())
}

/// A violated constraint.
pub(crate) fn bad(code: Code) -> RuleStop
    ensures { result ≡ stop.Bad (Constraint code) }
{
    RuleStop::Bad(Fault::Constraint(code))
}

/// A form that is left out.
pub(crate) fn excluded(feature: Feature) -> RuleStop
    ensures { result ≡ stop.Bad (Excluded feature) }
{
    RuleStop::Bad(Fault::Excluded(feature))
}

/// A limit that is passed.
pub(crate) fn past(what: What) -> RuleStop
    ensures { result ≡ stop.Bad (Limit what) }
{
    RuleStop::Bad(Fault::Limit(what))
}

/// Why types stop, as a refusal of a declaration: a type that is too big passes the limit on objects.
fn refusal(stop: LayoutStop) -> RuleStop
    ensures { result ≡ refusal stop }
{
    match stop {
        LayoutStop::TooBig(_) => past(What::ObjectSize),
        LayoutStop::Memory => RuleStop::Memory,
    }
}

/// Hands on what the types of the unit answer.
pub(crate) fn laid<T>(r: Result<T, LayoutStop>) -> Result<T, RuleStop>
    ensures is { MatchResult r (λ x. result ≡ Ok x) (λ e. result ≡ Err (refusal e)) }
    ensures refused { IfErr result (IsRefusal of_types) }
{
    match r {
        Ok(x) => Ok(x),
        Err(stop) => Err(refusal(stop)),
    }
}

/// A length as a number of 32 bits. One that has none wants memory.
pub(crate) fn narrow(count: usize) -> Result<u32, Memory>
    ensures { IfOk result (λ n. n ≡ count) }
{
    if count >= 4_000_000_000 {
        return Err(impossible());
    }
    Ok(count as u32)
}
