ghost use Rattle.std.specs.Prelude.{◌≡◌, IfOk, IfSome, is_some, not, option_map};
ghost use Rattle.byte_mem.specs.Store.{memory, Stored};
ghost use Rattle.cil_code.specs.Passing.{operand_datum};
ghost use Rattle.cil_code.specs.Doing.{assigned};
ghost use Rattle.cil_code.specs.Taking.{datum_of, is_call, Took};

use crate::cases::Cases;
use crate::operands::Operand;
use crate::steps::Step;
use byte_mem::{Cells, Scalar, Store, Value};
use cil_base::{IntKind, Memory};
use cil_control::next;
use cil_machine::{
    Spot, Term, bytes_at, copy_place, set_place, term_number, term_truth, term_value, zero_place,
};

/// A value that is returned.
#[derive(Drop)]
pub enum Datum {
    /// A value of a scalar.
    Single(Value),
    /// The bytes of a struct or union.
    Bytes(Cells),
}

/// Where a step leads to.
#[derive(Drop)]
pub enum Onward {
    /// A place.
    At(usize),
    /// A place, once a unit is spent.
    Back(usize),
    /// The end of the body, with what it returns.
    Ended(Option<Datum>),
    /// Undefined behaviour (C11 3.4.3).
    Undefined,
}

/// Assigns an operand to a place. None exactly where that is undefined; then nothing has changed.
#[tactic(auto, using(crate::proofs::Takes::set_single, crate::proofs::Takes::set_bytes))]
fn assign(mem: &mut Store, act: u64, place: &Spot, o: &Operand) -> Result<Option<()>, Memory>
    ensures { IfOk result (λ u. Stored u mem.old mem.new (assigned mem.old.abi (memory mem.old) act place.now o.now)) }
{
    match o {
        Operand::Single(of, e) => Ok(set_place(mem, act, *of, place, e)),
        Operand::Bytes(size, from) => copy_place(mem, act, *size, place, from),
        Operand::Wrong => Ok(None),
    }
}

/// An assignment.
#[tactic(auto, using(crate::proofs::Takes::set_took, crate::proofs::Takes::set_broken))]
fn take_set(
    mem: &mut Store,
    act: u64,
    p: usize,
    place: &Spot,
    o: &Operand,
) -> Result<Onward, Memory>
    ensures { IfOk result (Took mem.old mem.new act p (Step.Set place.now o.now)) }
{
    match assign(mem, act, place, o)? {
        Some(()) => Ok(Onward::At(next(p)?)),
        None => Ok(Onward::Undefined),
    }
}

/// A zero fill.
#[tactic(auto, using(crate::proofs::Takes::zero_took, crate::proofs::Takes::zero_broken))]
fn take_zero(mem: &mut Store, act: u64, p: usize, size: u32, place: &Spot) -> Result<Onward, Memory>
    ensures { IfOk result (Took mem.old mem.new act p (Step.Zero size place.now)) }
{
    match zero_place(mem, act, size, place) {
        Some(()) => Ok(Onward::At(next(p)?)),
        None => Ok(Onward::Undefined),
    }
}

/// A test.
#[tactic(auto, using(crate::proofs::Takes::test_took, crate::proofs::Takes::test_broken))]
fn take_test(
    mem: &Store,
    act: u64,
    p: usize,
    of: Scalar,
    e: &Term,
    fails: usize,
) -> Result<Onward, Memory>
    ensures { IfOk result (Took mem.now mem.now act p (Step.Test of e.now fails)) }
{
    match term_truth(mem, act, of, e) {
        None => Ok(Onward::Undefined),
        Some(true) => Ok(Onward::At(next(p)?)),
        Some(false) => Ok(Onward::At(fails)),
    }
}

/// A switch.
#[tactic(auto, using(crate::proofs::Takes::choice_took, crate::proofs::Takes::choice_broken))]
fn take_choice(
    mem: &Store,
    act: u64,
    p: usize,
    kind: IntKind,
    e: &Term,
    cases: &Cases,
    other: usize,
) -> Onward
    ensures { Took mem.now mem.now act p (Step.Choose kind e.now cases.now other) result }
{
    match term_number(mem, act, kind, e) {
        None => Onward::Undefined,
        Some(v) => Onward::At(cases.place_for(v, other)),
    }
}

/// The value of an operand. None exactly where that is undefined.
fn value_of(mem: &Store, act: u64, o: &Operand) -> Result<Option<Datum>, Memory>
    ensures { IfOk result (λ u. option_map datum_of u ≡ operand_datum mem.now.abi (memory mem.now) act o.now) }
{
    match o {
        Operand::Single(of, e) => match term_value(mem, act, *of, e) {
            Some(v) => Ok(Some(Datum::Single(v))),
            None => Ok(None),
        },
        Operand::Bytes(size, place) => match bytes_at(mem, act, *size, place)? {
            Some(b) => Ok(Some(Datum::Bytes(b))),
            None => Ok(None),
        },
        Operand::Wrong => Ok(None),
    }
}

/// A return.
#[tactic(auto, using(crate::proofs::Takes::leave_took, crate::proofs::Takes::leave_with, crate::proofs::Takes::leave_broken))]
fn take_leave(mem: &Store, act: u64, p: usize, value: &Option<Operand>) -> Result<Onward, Memory>
    ensures { IfOk result (Took mem.now mem.now act p (Step.Leave value.now)) }
{
    match value {
        None => Ok(Onward::Ended(None)),
        Some(o) => match value_of(mem, act, o)? {
            Some(d) => Ok(Onward::Ended(Some(d))),
            None => Ok(Onward::Undefined),
        },
    }
}

/// Takes a step at a place in an activation, but for a call, which is none of its own. Where it is undefined nothing has
/// changed. Memory comes only for want of memory.
#[tactic(auto, using(crate::proofs::Takes::forward_took, crate::proofs::Takes::back_took, crate::proofs::Takes::stuck_took))]
pub fn take(mem: &mut Store, act: u64, p: usize, step: &Step) -> Result<Option<Onward>, Memory>
    ensures took { IfOk result (λ o. IfSome o (Took mem.old mem.new act p step.now)) }
    ensures call { IfOk result (λ o. is_some o ≡ not (is_call step.now)) }
{
    match step {
        Step::Set(place, o) => Ok(Some(take_set(mem, act, p, place, o)?)),
        Step::Zero(size, place) => Ok(Some(take_zero(mem, act, p, *size, place)?)),
        Step::Call(_) => Ok(None),
        Step::Test(of, e, fails) => Ok(Some(take_test(mem, act, p, *of, e, *fails)?)),
        Step::Choose(kind, e, cases, other) => {
            Ok(Some(take_choice(mem, act, p, *kind, e, cases, *other)))
        }
        Step::Forward(q) => Ok(Some(Onward::At(*q))),
        Step::Back(q) => Ok(Some(Onward::Back(*q))),
        Step::Leave(value) => Ok(Some(take_leave(mem, act, p, value)?)),
        Step::Stuck => Ok(Some(Onward::Undefined)),
    }
}
