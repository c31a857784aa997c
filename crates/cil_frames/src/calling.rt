ghost use Rattle.std.specs.Prelude.{◌≡◌, IfOk, option_map};
ghost use Rattle.byte_mem.specs.Store.{memory, Stored};
ghost use Rattle.cil_code.specs.Calling.{passing, passing_all};
ghost use Rattle.cil_code.specs.Taking.{datum_of};
ghost use Rattle.cil_frames.specs.Entering.{argument_of, arguments_of};
ghost use Rattle.cil_frames.specs.Evaluating.{destination, kept_in, value_kept, bytes_kept, Evaluates};

use crate::activations::Argument;
use crate::kinds::{single, sized};
use byte_mem::{Cells, Scalar, Store, Value};
use cil_base::Memory;
use cil_code::{Call, Datum, Kind, Operand, Receiver};
use cil_machine::{bytes_at, spot_place, term_value};
use std::alloc::Global;

/// Where the result of a call goes: a place, and the kind of its type.
#[derive(Clone, Copy)]
pub struct Destination {
    /// The address of the place.
    pub place: Value,
    /// The kind of its type, if it has one.
    pub kind: Option<Kind>,
}

/// The parts of a call, evaluated (C11 6.5.2.2p4, p10).
#[derive(Drop)]
pub struct Evaluated {
    /// Where the result goes, none where it is not stored.
    pub to: Option<Destination>,
    /// What is called.
    pub callee: Value,
    /// The kind of the result that the caller's types ask for.
    pub result: Option<Kind>,
    /// What is passed, in order.
    pub arguments: Vec<Argument>,
}

/// The value of an operand, with its kind. None exactly where that is undefined.
fn argument(mem: &Store, act: u64, o: &Operand) -> Result<Option<Argument>, Memory>
    ensures { IfOk result (λ u. option_map argument_of u ≡ passing mem.now.abi (memory mem.now) act o.now) }
{
    match o {
        Operand::Single(of, e) => match term_value(mem, act, *of, e) {
            Some(v) => Ok(Some(Argument {
                kind: Some(Kind::Single(*of)),
                datum: Datum::Single(v),
            })),
            None => Ok(None),
        },
        Operand::Bytes(size, place) => match bytes_at(mem, act, *size, place)? {
            Some(bytes) => Ok(Some(Argument {
                kind: Some(Kind::Bytes(*size)),
                datum: Datum::Bytes(bytes),
            })),
            None => Ok(None),
        },
        Operand::Wrong => Ok(None),
    }
}

/// The values of the arguments from the left. None exactly where one of them is undefined.
#[tactic(auto, using(crate::proofs::Passed::passed_next, crate::proofs::Passed::passed_nothing, crate::proofs::Passed::passed_all))]
fn arguments(
    alloc: Global,
    mem: &Store,
    act: u64,
    operands: &[Operand],
) -> Result<Option<Vec<Argument>>, Memory>
    ensures { IfOk result (λ o. option_map (λ v. arguments_of v.items) o ≡ passing_all mem.now.abi (memory mem.now) act operands.now) }
{
    let mut done = Vec::new(alloc);
    for i in 0..operands.len() {
        match argument(mem, act, &operands[i])? {
            None => return Ok(None),
            Some(a) => done.push(a)?,
        }
    }
    Ok(Some(done))
}

/// Where the result goes. None exactly where its place is undefined.
fn receiving(mem: &Store, act: u64, to: &Option<Receiver>) -> Option<Option<Destination>>
    ensures { result ≡ destination mem.now.abi (memory mem.now) act to.now }
{
    match to {
        None => Some(None),
        Some(r) => match spot_place(mem, act, &r.place) {
            None => None,
            Some(place) => Some(Some(Destination {
                place,
                kind: r.kind,
            })),
        },
    }
}

/// Evaluates the parts of a call in an activation: the place of its result, what is called, and the arguments from the
/// left (C11 6.5.2.2p10; the order is own). None exactly where one of them is undefined. Memory comes only for want of
/// memory.
#[tactic(auto, using(crate::proofs::Passed::no_destination, crate::proofs::Passed::no_callee, crate::proofs::Passed::no_arguments, crate::proofs::Passed::all_evaluated))]
pub fn evaluate(
    alloc: Global,
    mem: &Store,
    act: u64,
    call: &Call,
) -> Result<Option<Evaluated>, Memory>
    ensures { IfOk result (Evaluates mem.now act call.now) }
{
    let Some(to) = receiving(mem, act, &call.to) else {
        return Ok(None);
    };
    let Some(callee) = term_value(mem, act, Scalar::Ptr, &call.callee) else {
        return Ok(None);
    };
    match arguments(alloc, mem, act, &call.arguments)? {
        None => Ok(None),
        Some(arguments) => Ok(Some(Evaluated {
            to,
            callee,
            result: call.result,
            arguments,
        })),
    }
}

/// Stores a scalar's value where the result goes.
fn keep_value(mem: &mut Store, to: Destination, v: Value) -> Option<()>
    ensures { Stored result mem.old mem.new (value_kept mem.old.abi to v (memory mem.old)) }
{
    let s = single(to.kind)?;
    let at = to.place.pointer()?;
    mem.store(at, s, v)
}

/// Stores the bytes of a struct or union there.
fn keep_bytes(mem: &mut Store, to: Destination, bytes: &Cells) -> Option<()>
    ensures { Stored result mem.old mem.new (bytes_kept to bytes.now (memory mem.old)) }
{
    let _size = sized(to.kind)?;
    let at = to.place.pointer()?;
    mem.store_bytes(at, bytes)
}

/// Stores a result at a place.
#[tactic(auto, using(crate::proofs::Passed::single_stored, crate::proofs::Passed::bytes_stored))]
fn keep_at(mem: &mut Store, to: Destination, d: &Datum) -> Option<()>
    ensures { Stored result mem.old mem.new (kept_in mem.old.abi (Some to) (datum_of d.now) (memory mem.old)) }
{
    match d {
        Datum::Single(v) => keep_value(mem, to, *v),
        Datum::Bytes(bytes) => keep_bytes(mem, to, bytes),
    }
}

/// Stores the result of a call where it goes (C11 6.5.2.2p10, 6.5.16.1). None exactly where that is undefined; then
/// nothing has changed.
pub fn keep(mem: &mut Store, to: Option<Destination>, d: &Datum) -> Option<()>
    ensures { Stored result mem.old mem.new (kept_in mem.old.abi to (datum_of d.now) (memory mem.old)) }
{
    match to {
        None => Some(()),
        Some(to) => keep_at(mem, to, d),
    }
}
