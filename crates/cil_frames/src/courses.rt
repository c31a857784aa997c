ghost use Rattle.std.specs.Prelude.{◌≡◌, ◌<◌, IfOk, length};
ghost use Rattle.byte_mem.specs.Store.{memory};
ghost use Rattle.cil_code.specs.Leading.{LeadOn};
ghost use Rattle.cil_code.specs.Taking.{is_call};
ghost use Rattle.cil_frames.specs.Keeping.{SameHeap};
ghost use Rattle.cil_frames.specs.Course.{Led, Turned, Stepped, Ran};

use byte_mem::Store;
use cil_base::Memory;
use cil_code::{Datum, Onward, Step, take};

/// Where a course through a body's steps stops.
#[derive(Drop)]
pub enum Stop {
    /// The call that stands at that place is next.
    Call(usize),
    /// No unit is left where one is to be spent.
    Running,
    /// The body ends, with what it returns.
    Ended(Option<Datum>),
    /// Undefined behaviour (C11 3.4.3).
    Undefined,
}

/// Where a step leads to, once its unit is spent.
#[derive(Drop)]
pub enum Pace {
    /// A place, from which the course goes on.
    On(usize),
    /// Nowhere: the course stops.
    Stopped(Stop),
}

/// A jump that spends a unit.
fn turned(q: usize, left: &mut u64) -> Pace
    ensures { Turned q left.old left.new result }
{
    if *left == 0 {
        return Pace::Stopped(Stop::Running);
    }
    *left -= 1;
    Pace::On(q)
}

/// Goes where a step leads to.
fn led(onward: Onward, left: &mut u64) -> Pace
    ensures { Led onward left.old left.new result }
{
    match onward {
        Onward::At(q) => Pace::On(q),
        Onward::Back(q) => turned(q, left),
        Onward::Ended(d) => Pace::Stopped(Stop::Ended(d)),
        Onward::Undefined => Pace::Stopped(Stop::Undefined),
    }
}

/// Whether a step is a call.
fn is_call(step: &Step) -> bool
    ensures { result ≡ is_call step.now }
{
    matches!(step, Step::Call(_))
}

/// Takes the step at a place, if it is no call.
#[tactic(auto, using(crate::proofs::Going::stops_at_call, crate::proofs::Going::steps_on, crate::proofs::Keeping::took_keeps))]
fn step_on(
    mem: &mut Store,
    act: u64,
    code: &[Step],
    p: usize,
    left: &mut u64,
) -> Result<Pace, Memory>
    requires leads { LeadOn code.now }
    requires there { p < length code.now }
    ensures stepped { IfOk result (Stepped mem.old mem.new act code.now p left.old left.new) }
    ensures heap { IfOk result (λ p. SameHeap (memory mem.old) (memory mem.new)) }
{
    if is_call(&code[p]) {
        return Ok(Pace::Stopped(Stop::Call(p)));
    }
    match take(mem, act, p, &code[p])? {
        None => unreachable!(),
        Some(onward) => Ok(led(onward, left)),
    }
}

/// Takes steps from a place on, in an activation, until a call is next, the body ends, or it goes no further: where a
/// step is undefined, or is to spend a unit and none is left. Memory comes only for want of memory.
#[tactic(auto, using(crate::proofs::Going::starts, crate::proofs::Going::goes_along, crate::proofs::Going::falls_along, crate::proofs::Going::stops_along))]
pub fn run_course(
    mem: &mut Store,
    act: u64,
    code: &[Step],
    place: usize,
    left: &mut u64,
) -> Result<Stop, Memory>
    requires leads { LeadOn code.now }
    requires there { place < length code.now }
    ensures ran { IfOk result (Ran mem.old mem.new act code.now place left.old left.new) }
    ensures heap { IfOk result (λ stop. SameHeap (memory mem.old) (memory mem.new)) }
{
    let mut p = place;
    loop {
        match step_on(mem, act, code, p, left)? {
            Pace::On(q) => p = q,
            Pace::Stopped(stop) => return Ok(stop),
        }
    }
}
