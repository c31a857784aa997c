ghost use Rattle.std.specs.Prelude.{◌≡◌, MatchOption, MatchResult, IfErr, Ok, Err};
ghost use Rattle.cil_base.specs.declared.faults.Fault.TheVariants.{Constraint};
ghost use Rattle.cil_base.specs.declared.faults.RuleStop.TheVariants as stop;
ghost use Rattle.layout_lp64.specs.declared.layouts.LayoutStop.TheVariants.{Memory as WantOfMemory};
ghost use Rattle.cast_rules.specs.Exact.{IsNoConstraint};
ghost use Rattle.cast_rules.specs.Stops.{refusal};

use cil_base::{Code, Fault, RuleStop, What};
use layout_lp64::LayoutStop;

/// The refusal of an operator whose operands violate a constraint.
pub(crate) fn bad(code: Code) -> RuleStop
    ensures { result ≡ stop.Bad (Constraint code) }
{
    RuleStop::Bad(Fault::Constraint(code))
}

/// What a branch answers that never comes.
pub(crate) fn impossible() -> LayoutStop
    ensures { result ≡ WantOfMemory }
{
    LayoutStop::Memory
}

/// Why types stop, as a rule's refusal: a type that is too big passes a limit.
fn refusal(stop: LayoutStop) -> RuleStop
    ensures { result ≡ refusal stop }
{
    match stop {
        LayoutStop::TooBig(_) => RuleStop::Bad(Fault::Limit(What::ObjectSize)),
        LayoutStop::Memory => RuleStop::Memory,
    }
}

/// What the making of a node or of a type gives, or its refusal.
pub(crate) fn made<T>(r: Result<T, LayoutStop>) -> Result<T, RuleStop>
    ensures made { MatchResult r (λ x. result ≡ Ok x) (λ e. result ≡ Err (refusal e)) }
    ensures unviolated { IfErr result IsNoConstraint }
{
    match r {
        Ok(x) => Ok(x),
        Err(stop) => Err(refusal(stop)),
    }
}

/// Nothing, or the refusal for a constraint.
pub(crate) fn allowed(first: Option<Code>) -> Result<(), RuleStop>
    ensures { MatchOption first (result ≡ Ok tt) (λ code. result ≡ Err (stop.Bad (Constraint code))) }
{
    match first {
        Some(code) => Err(bad(code)),
        None => Ok(()),
    }
}
