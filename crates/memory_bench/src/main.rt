//! So many stores and loads of an int over 1,000 objects of 64 bytes, calls with four locals, an object of
//! 64 MiB, so many objects of 8, 64 or 2,048 bytes, so many small ones beside large ones that end, or so many
//! that are freed, as its arguments tell, with a checksum on standard output: what the store of objects is
//! measured by.
//!
//! It promises that what it prints depends on its arguments alone.
//!
//! The places follow from a linear congruential generator (own).
#![tactic(auto)]

use anyhow::{Result, anyhow};
use byte_mem::{Byte, ObjName, Pointer, Scalar, Store, Value};
use cil_base::{EntityId, IntKind, LocalId, Memory};
use std::alloc::Global;

const OBJECTS: u32 = 1000;

/// Objects of 64 zero bytes under the names that `name_of` gives the numbers below 1,000.
fn globals(alloc: Global) -> Result<Store, Memory> {
    let mut store = Store::new(alloc);
    for i in 0..OBJECTS {
        store.make(ObjName::Entity(EntityId(i)), 64, Byte::Known(0), false)?;
    }
    Ok(store)
}

fn locals(alloc: Global) -> Result<Store, Memory> {
    let mut store = Store::new(alloc);
    for i in 0..OBJECTS {
        store.make(ObjName::Local(7, LocalId(i)), 64, Byte::Known(0), false)?;
    }
    Ok(store)
}

fn heap(alloc: Global) -> Result<Store, Memory> {
    let mut store = Store::new(alloc);
    for i in 0..OBJECTS {
        store.make(ObjName::Heap(u64::from(i)), 64, Byte::Known(0), false)?;
    }
    Ok(store)
}

/// The next number of the generator.
fn next(seed: u64) -> u64 {
    seed.wrapping_mul(6364136223846793005)
        .wrapping_add(1442695040888963407)
}

fn name_of(is_local: bool, is_heap: bool, i: u32) -> ObjName {
    if is_local {
        ObjName::Local(7, LocalId(i))
    } else if is_heap {
        ObjName::Heap(u64::from(i))
    } else {
        ObjName::Entity(EntityId(i))
    }
}

/// The place that a number of the generator chooses.
fn place(is_local: bool, is_heap: bool, seed: u64) -> Pointer {
    let high = (seed >> 33) as u32;
    Pointer {
        name: name_of(is_local, is_heap, high % OBJECTS),
        offset: i64::from((high >> 16) % 16 * 4),
    }
}

/// A store and a load of an int in each turn.
fn accesses(store: &mut Store, is_local: bool, is_heap: bool, count: u64) -> u64 {
    let int = Scalar::Int(IntKind::Int);
    let mut seed = 1;
    let mut sum: u64 = 0;
    for _ in 0..count {
        seed = next(seed);
        let value = Value::Int(i128::from((seed >> 40) as u32));
        let _ = store.store(place(is_local, is_heap, seed), int, value);
        seed = next(seed);
        if let Some(Value::Int(n)) = store.load(place(is_local, is_heap, seed), int) {
            sum = sum.wrapping_add(n.rem_euclid(0x1_0000_0000) as u64);
        }
    }
    sum
}

/// Four locals of an activation are made, one is written, and they end.
fn call(store: &mut Store, activation: u64) -> Result<u64, Memory> {
    let int = Scalar::Int(IntKind::Int);
    for i in 0..4 {
        store.make(
            ObjName::Local(activation, LocalId(i)),
            4,
            Byte::Unknown,
            false,
        )?;
    }
    let at = Pointer {
        name: ObjName::Local(activation, LocalId(2)),
        offset: 0,
    };
    let _ = store.store(at, int, Value::Int(i128::from(activation % 100)));
    let found = match store.load(at, int) {
        Some(Value::Int(n)) => n.rem_euclid(0x1_0000_0000) as u64,
        _ => 0,
    };
    for i in 0..4 {
        store.end(ObjName::Local(activation, LocalId(i)));
    }
    Ok(found)
}

fn calls(alloc: Global, count: u64) -> Result<u64, Memory> {
    let mut store = Store::new(alloc);
    let mut sum: u64 = 0;
    for activation in 0..count {
        sum = sum.wrapping_add(call(&mut store, activation)?);
    }
    Ok(sum)
}

/// The size of an object of 64 MiB.
fn block(alloc: Global) -> Result<u64, Memory> {
    let mut store = Store::new(alloc);
    store.make(ObjName::Heap(0), 67_108_864, Byte::Unknown, false)?;
    Ok(store.live_size(ObjName::Heap(0)).map_or(0, u64::from))
}

/// So many objects of `malloc` of a size that live together.
fn many(alloc: Global, size: u32, count: u64) -> Result<u64, Memory> {
    let mut store = Store::new(alloc);
    for i in 0..count {
        store.make(ObjName::Heap(i), size, Byte::Unknown, false)?;
    }
    Ok(count)
}

/// So many objects of `malloc` that each end when the next one is made, and a last one that lives.
fn freed(alloc: Global, count: u64) -> Result<u64, Memory> {
    let mut store = Store::new(alloc);
    store.make(ObjName::Heap(0), 1, Byte::Unknown, false)?;
    for i in 0..count {
        store.make(ObjName::Heap(i + 1), 1, Byte::Unknown, false)?;
        store.end(ObjName::Heap(i));
    }
    Ok(count)
}

/// So many objects of 24 bytes that live together, each made behind one of 4,096 bytes that ends then.
fn beside(alloc: Global, count: u64) -> Result<u64, Memory> {
    let mut store = Store::new(alloc);
    for i in 0..count {
        let large = ObjName::Heap(i.wrapping_mul(2));
        let small = ObjName::Heap(i.wrapping_mul(2).wrapping_add(1));
        store.make(large, 4096, Byte::Unknown, false)?;
        store.make(small, 24, Byte::Unknown, false)?;
        store.end(large);
    }
    Ok(count)
}

fn checksum(alloc: Global, mode: &str, count: u64) -> Result<u64, Memory> {
    match mode {
        "calls" => calls(alloc, count),
        "block" => block(alloc),
        "tiny" => many(alloc, 8, count),
        "small" => many(alloc, 64, count),
        "large" => many(alloc, 2048, count),
        "freed" => freed(alloc, count),
        "beside" => beside(alloc, count),
        "locals" => Ok(accesses(&mut locals(alloc)?, true, false, count)),
        "heap" => Ok(accesses(&mut heap(alloc)?, false, true, count)),
        _ => Ok(accesses(&mut globals(alloc)?, false, false, count)),
    }
}

fn main(rt: HostRuntime) -> Result<()> {
    let alloc = rt.alloc();
    let mut words = std::env::args(&rt)?;
    let _program = words.next();
    let mode = words.next().ok_or_else(|| anyhow!("a mode is wanted"))?;
    let count = words.next().ok_or_else(|| anyhow!("a count is wanted"))?;
    let count = count.as_str().parse::<u64>()?;
    match checksum(alloc, mode.as_str(), count) {
        Ok(sum) => println!(rt; "{sum}")?,
        Err(_) => return Err(anyhow!("want of memory")),
    }
    Ok(())
}
