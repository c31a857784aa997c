ghost use Rattle.std.specs.Prelude.{◌≡◌, Ok, Err, IfOk};
ghost use Rattle.cil_base.specs.declared.faults.Fault.{Fault};
ghost use Rattle.cil_base.specs.declared.faults.RuleStop.TheVariants as rule;
ghost use Rattle.typed_parts.specs.declared.stops.WalkStop.TheVariants as walk;

use cil_base::{Code, Fault, Memory, RuleStop, What};
use layout_lp64::LayoutStop;
use std::alloc::{AllocError, AllocFailed};

/// Why the walk of a unit ends early: a fault at a token, or want of memory.
#[derive(Clone, Copy)]
pub enum WalkStop {
    /// The first fault, with the number of its token.
    At(u32, Fault),
    Memory,
}

impl From<Memory> for WalkStop {
    ghost use Rattle.typed_parts.specs.declared.stops.WalkStop.TheVariants.{Memory as WantOfMemory};

    ghost from_gives = { λ _ stop. stop ≡ WantOfMemory };

    fn from(_want: Memory) -> Self {
        WalkStop::Memory
    }
}

impl From<AllocError> for WalkStop {
    ghost use Rattle.typed_parts.specs.declared.stops.WalkStop.TheVariants.{Memory as WantOfMemory};

    ghost from_gives = { λ _ stop. stop ≡ WantOfMemory };

    fn from(_failed: AllocError) -> Self {
        WalkStop::Memory
    }
}

impl<T: Drop> From<AllocFailed<T>> for WalkStop {
    ghost use Rattle.typed_parts.specs.declared.stops.WalkStop.TheVariants.{Memory as WantOfMemory};

    ghost from_gives = { λ _ stop. stop ≡ WantOfMemory };

    fn from(_failed: AllocFailed<T>) -> Self {
        WalkStop::Memory
    }
}

/// A violated constraint at a token.
pub fn violated(at: u32, code: Code) -> WalkStop {
    WalkStop::At(at, Fault::Constraint(code))
}

/// The answer of a rule, whose fault stands at a token.
pub fn placed<T>(at: u32, r: Result<T, RuleStop>) -> Result<T, WalkStop>
    ensures ok { IfOk r (λ x. result ≡ Ok x) }
    ensures bad { (f : Fault) → r ≡ Err (rule.Bad f) → result ≡ Err (walk.At at f) }
    ensures memory { r ≡ Err rule.Memory → result ≡ Err walk.Memory }
{
    match r {
        Ok(x) => Ok(x),
        Err(RuleStop::Bad(fault)) => Err(WalkStop::At(at, fault)),
        Err(RuleStop::Memory) => Err(WalkStop::Memory),
    }
}

/// A type that was made for a node that begins with a token.
pub fn sized<T>(at: u32, r: Result<T, LayoutStop>) -> Result<T, WalkStop>
    ensures ok { IfOk r (λ x. result ≡ Ok x) }
{
    match r {
        Ok(x) => Ok(x),
        Err(LayoutStop::TooBig(_)) => Err(WalkStop::At(at, Fault::Limit(What::ObjectSize))),
        Err(LayoutStop::Memory) => Err(WalkStop::Memory),
    }
}

/// What a branch answers that never comes.
pub fn impossible() -> WalkStop
    ensures { result ≡ walk.Memory }
{
    WalkStop::Memory
}
