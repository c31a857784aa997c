ghost use Rattle.std.specs.Prelude.{◌≡◌, IfOk, OnErr};
ghost use Rattle.byte_mem.specs.Store.{memory, Stored};
ghost use Rattle.cil_machine.specs.Instructions.{value_set, scalar_set, copied, zeroed, bytes_from};

use crate::evaluation::{place_pointer, term_number, term_value};
use crate::terms::{Spot, Term};
use byte_mem::{Cells, Pointer, Scalar, Store, Value};
use cil_base::{IntKind, Memory};

/// Evaluates a value of a scalar, and stores it in an object.
fn set_value(mem: &mut Store, act: u64, at: Pointer, s: Scalar, value: &Term) -> Option<()>
    ensures { Stored result mem.old mem.new (value_set mem.old.abi (memory mem.old) act s at value.now) }
{
    let v = term_value(mem, act, s, value)?;
    mem.store(at, s, v)
}

/// The same of an integer, which is a number but where it is a pointer, a part of one, or unknown.
fn set_integer(mem: &mut Store, act: u64, at: Pointer, kind: IntKind, value: &Term) -> Option<()>
    ensures { Stored result mem.old mem.new (value_set mem.old.abi (memory mem.old) act (Scalar.Int kind) at value.now) }
{
    match term_number(mem, act, kind, value) {
        Some(n) => mem.store(at, Scalar::Int(kind), Value::Int(n)),
        None => set_value(mem, act, at, Scalar::Int(kind), value),
    }
}

/// Evaluates a place and then a value of a scalar, and stores it there (C11 6.5.16p3; the order is own). None exactly
/// where one of these is undefined; then nothing has changed.
pub fn set_place(mem: &mut Store, act: u64, s: Scalar, place: &Spot, value: &Term) -> Option<()>
    ensures { Stored result mem.old mem.new (scalar_set mem.old.abi (memory mem.old) act s place.now value.now) }
{
    let at = place_pointer(mem, act, place)?;
    match s {
        Scalar::Int(kind) => set_integer(mem, act, at, kind, value),
        Scalar::Ptr => set_value(mem, act, at, s, value),
    }
}

/// Makes so many bytes of a place zero (own). None exactly where that is undefined; then nothing has changed.
pub fn zero_place(mem: &mut Store, act: u64, size: u32, place: &Spot) -> Option<()>
    ensures { Stored result mem.old mem.new (zeroed mem.old.abi (memory mem.old) act size place.now) }
{
    let at = place_pointer(mem, act, place)?;
    mem.zero(at, size)
}

/// The bytes of a struct or union at a place. None exactly where that is undefined.
pub fn bytes_at(mem: &Store, act: u64, size: u32, place: &Spot) -> Result<Option<Cells>, Memory>
    ensures { IfOk result (λ o. o ≡ bytes_from mem.now.abi (memory mem.now) act size place.now) }
{
    match place_pointer(mem, act, place) {
        Some(at) => mem.load_bytes(at, size),
        None => Ok(None),
    }
}

/// Evaluates a place and then the value of a struct or union at another, and stores all its bytes there (C11 6.5.16p3;
/// the order is own). None exactly where one of these is undefined; then, and after want of memory, nothing has
/// changed.
pub fn copy_place(
    mem: &mut Store,
    act: u64,
    size: u32,
    to: &Spot,
    from: &Spot,
) -> Result<Option<()>, Memory>
    ensures ok { IfOk result (λ o. Stored o mem.old mem.new (copied mem.old.abi (memory mem.old) act size to.now from.now)) }
    ensures err { OnErr result (mem.new ≡ mem.old) }
{
    match place_pointer(mem, act, to) {
        None => Ok(None),
        Some(at) => match bytes_at(mem, act, size, from)? {
            None => Ok(None),
            Some(bytes) => Ok(mem.store_bytes(at, &bytes)),
        },
    }
}
