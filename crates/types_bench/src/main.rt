//! Builds the types of a unit, so many, each part of which is laid out as soon as it stands, and prints a checksum.
//!
//! It promises nothing of what it prints; the calls that it makes keep their contracts. It is there to be measured (bench/types.sh).
//!
//! The rules are own.
#![tactic(auto)]

use cil_base::{Abi, IntKind, NameId, TypeId};
use layout_lp64::LayoutStop;
use std::alloc::Global;
use std::{env, io};
use type_graph::{AggKind, Member, Members, QualType, Quals};
use unit_types::Types;

/// A type without qualifiers.
fn plain(of: TypeId) -> QualType {
    QualType {
        quals: Quals {
            constant: false,
            restricted: false,
        },
        of,
    }
}

/// Adds a complete struct or union with members of these types, and its type.
fn add_aggregate(
    alloc: Global,
    types: &mut Types,
    kind: AggKind,
    parts: &[TypeId],
) -> Result<TypeId, LayoutStop> {
    let mut members = Vec::new(alloc);
    for t in parts {
        if members
            .push(Member::named(NameId(t.0), plain(*t), 0))
            .is_err()
        {
            return Err(LayoutStop::Memory);
        }
    }
    let a = types.add_agg(kind, None)?;
    types.complete(a, Members::new(members))?;
    types.aggregate(a)
}

/// Adds an array, a struct that holds it, a pointer to the struct, and a union of both.
fn add_part(alloc: Global, types: &mut Types, count: u64) -> Result<TypeId, LayoutStop> {
    let int = types.int(IntKind::Int)?;
    let array = types.array(plain(int), Some(count))?;
    let record = add_aggregate(alloc, types, AggKind::Struct, &[array, int])?;
    let pointer = types.pointer(plain(record))?;
    add_aggregate(alloc, types, AggKind::Union, &[record, pointer])
}

/// The sum of the sizes of so many parts.
fn checksum(alloc: Global, parts: u32) -> Result<u64, LayoutStop> {
    let mut types = Types::new(alloc, Abi::Lp64);
    let mut sum = 0u64;
    for i in 0..parts {
        let t = add_part(alloc, &mut types, u64::from(i) + 1)?;
        sum = sum.wrapping_add(u64::from(types.size(t).unwrap_or(0)));
    }
    Ok(sum)
}

/// The number of types that the command line asks for; 1,000 if it asks for none.
fn asked(rt: &HostRuntime) -> io::Result<u32> {
    let mut types = 1000;
    for word in env::args(rt)? {
        types = word.as_str().parse::<u32>().unwrap_or(types);
    }
    Ok(types)
}

fn main(rt: HostRuntime) -> io::Result<()> {
    let types = asked(&rt)?;
    match checksum(rt.alloc(), types / 4) {
        Ok(sum) => println!(rt; "{types} types, {sum} bytes"),
        Err(_) => println!(rt; "no layouts"),
    }
}
