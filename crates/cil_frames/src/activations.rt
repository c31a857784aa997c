ghost use Rattle.std.specs.Prelude.{◌≡◌, List, Some, None, length, map, IfOk, OnOk};
ghost use Rattle.byte_mem.specs.Memory.{with_held, make};
ghost use Rattle.byte_mem.specs.Scalar.{bytes_of};
ghost use Rattle.byte_mem.specs.Store.{memory, Becomes};
ghost use Rattle.execution.specs.Data as passed;
ghost use Rattle.execution.specs.Data.{bytes_in, argument_held, with_arguments, with_objects, without_objects};
ghost use Rattle.execution.specs.Calls.{number_of, numbers};
ghost use Rattle.execution.specs.Runs.{writable};
ghost use Rattle.cil_code.specs.Calling.{kind_from};
ghost use Rattle.cil_frames.specs.Entering.{argument_of, arguments_of, objects_of, begun_in, ended_in};

use crate::kinds::single;
use byte_mem::{Byte, Cells, ObjName, Pointer, Scalar, Store, Value};
use cil_base::{LocalId, Memory};
use cil_code::{Datum, Kind};

/// An argument of a call, with the kind of its type.
#[derive(Drop)]
pub struct Argument {
    /// The kind of its type, if it has one.
    pub kind: Option<Kind>,
    /// What is passed.
    pub datum: Datum,
}

/// An object with automatic storage duration (C11 6.2.4p5): its number in its function, and its size in bytes.
#[derive(Clone, Copy)]
pub struct Automatic {
    /// Its number in its function.
    pub number: LocalId,
    /// Its size in bytes.
    pub size: u32,
}

/// The number of a parameter. More of them than a number can tell are told as want of memory.
fn parameter(i: usize) -> Result<LocalId, Memory>
    ensures { IfOk result (λ l. l.0 ≡ i) }
{
    match u32::try_from(i) {
        Ok(n) => Ok(LocalId(n)),
        Err(_) => Err(Memory),
    }
}

/// An object that holds a scalar's value begins to live.
#[tactic(auto, using(crate::proofs::Beginnings::scalar_begun))]
fn begin_scalar(mem: &mut Store, name: ObjName, s: Scalar, v: Value) -> Result<(), Memory>
    ensures { OnOk result (Becomes mem.old mem.new (with_held (memory mem.old) name (Some (writable (bytes_of mem.old.abi s v))))) }
{
    mem.make(name, s.size(mem.abi()), Byte::Unknown, false)?;
    let _ = mem.store(Pointer { name, offset: 0 }, s, v);
    Ok(())
}

/// How many bytes there are. More than an object can have are told as want of memory.
fn byte_count(bytes: &Cells) -> Result<u32, Memory>
    ensures { IfOk result (λ n. length bytes.now ≡ n) }
{
    match u32::try_from(bytes.as_slice().len()) {
        Ok(n) => Ok(n),
        Err(_) => Err(Memory),
    }
}

/// An object of these bytes begins to live.
#[tactic(auto, using(crate::proofs::Beginnings::bytes_begun))]
fn begin_bytes(mem: &mut Store, name: ObjName, bytes: &Cells) -> Result<(), Memory>
    ensures { OnOk result (Becomes mem.old mem.new (with_held (memory mem.old) name (Some (writable bytes.now)))) }
{
    let size = byte_count(bytes)?;
    mem.make(name, size, Byte::Unknown, false)?;
    let _ = mem.store_bytes(Pointer { name, offset: 0 }, bytes);
    Ok(())
}

/// An object that holds a value of a kind begins to live.
fn begin_value(mem: &mut Store, name: ObjName, kind: Option<Kind>, v: Value) -> Result<(), Memory>
    ensures { OnOk result (Becomes mem.old mem.new (with_held (memory mem.old) name (Some (writable (bytes_in mem.old.abi (kind_from kind) (passed.Single v)))))) }
{
    match single(kind) {
        Some(s) => begin_scalar(mem, name, s, v),
        None => mem.make(name, 0, Byte::Unknown, false),
    }
}

/// An object that holds an argument begins to live (C11 6.9.1p9, p10).
fn begin_argument(mem: &mut Store, name: ObjName, a: &Argument) -> Result<(), Memory>
    ensures { OnOk result (Becomes mem.old mem.new (with_held (memory mem.old) name (Some (argument_held mem.old.abi (argument_of a.now))))) }
{
    match &a.datum {
        Datum::Single(v) => begin_value(mem, name, a.kind, *v),
        Datum::Bytes(bytes) => begin_bytes(mem, name, bytes),
    }
}

/// The arguments become the first objects of an activation (C11 6.5.2.2p4).
#[tactic(auto, using(crate::proofs::Activating::arguments_next, crate::proofs::Activating::arguments_end))]
fn begin_arguments(mem: &mut Store, act: u64, arguments: &[Argument]) -> Result<(), Memory>
    ensures { OnOk result (Becomes mem.old mem.new (with_arguments mem.old.abi act 0 (arguments_of arguments.now) (memory mem.old))) }
{
    for i in 0..arguments.len() {
        begin_argument(mem, ObjName::Local(act, parameter(i)?), &arguments[i])?;
    }
    Ok(())
}

/// The objects of an activation begin to live, with unknown bytes (C11 6.2.4p5, p6).
#[tactic(auto, using(crate::proofs::Activating::objects_next, crate::proofs::Activating::objects_end))]
fn begin_objects(mem: &mut Store, act: u64, objects: &[Automatic]) -> Result<(), Memory>
    ensures { OnOk result (Becomes mem.old mem.new (with_objects act (objects_of objects.now) (memory mem.old))) }
{
    for i in 0..objects.len() {
        let x = objects[i];
        mem.make(ObjName::Local(act, x.number), x.size, Byte::Unknown, false)?;
    }
    Ok(())
}

/// An activation begins: its arguments are its objects from number 0 on, and its other objects begin to live (C11
/// 6.2.4p5, p6, 6.5.2.2p4, 6.9.1p9, p10). After want of memory some of them may live.
pub fn enter(
    mem: &mut Store,
    act: u64,
    arguments: &[Argument],
    objects: &[Automatic],
) -> Result<(), Memory>
    ensures { OnOk result (Becomes mem.old mem.new (begun_in mem.old.abi act (arguments_of arguments.now) (objects_of objects.now) (memory mem.old))) }
{
    begin_arguments(mem, act, arguments)?;
    begin_objects(mem, act, objects)
}

/// The lifetimes of an activation's objects end (C11 6.2.4p5, p6).
#[tactic(auto, using(crate::proofs::Activating::without_next, crate::proofs::Activating::without_end))]
fn end_objects(mem: &mut Store, act: u64, objects: &[Automatic])
    ensures { Becomes mem.old mem.new (without_objects act (map number_of (objects_of objects.now)) (memory mem.old)) }
{
    for i in 0..objects.len() {
        mem.end(ObjName::Local(act, objects[i].number));
    }
}

/// The lifetimes of so many arguments end.
#[tactic(auto, using(crate::proofs::Activating::numbers_next, crate::proofs::Activating::numbers_end))]
fn end_arguments(mem: &mut Store, act: u64, arguments: u32)
    ensures { (xs : List passed.Argument) → length xs ≡ arguments → Becomes mem.old mem.new (without_objects act (numbers 0 xs) (memory mem.old)) }
{
    for i in 0..arguments {
        mem.end(ObjName::Local(act, LocalId(i)));
    }
}

/// An activation with so many arguments ends, and with it the lifetimes of its objects, and then of its arguments (C11
/// 6.2.4p5, p6).
pub fn leave(mem: &mut Store, act: u64, arguments: u32, objects: &[Automatic])
    ensures { (xs : List passed.Argument) → length xs ≡ arguments → Becomes mem.old mem.new (ended_in act xs (objects_of objects.now) (memory mem.old)) }
{
    end_objects(mem, act, objects);
    end_arguments(mem, act, arguments);
}
