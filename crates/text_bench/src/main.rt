//! Reads a CIL text of LP64 from standard input, which includes the test and the printing of its program, and prints the program once more.
//!
//! It is there to be measured (bench/text.sh): what it prints is what was read, since the calls that it makes keep their contracts.
//!
//! The program is own.
#![tactic(auto)]

use cil_base::{Abi, Bytes, NamePool};
use cil_printer::print;
use cil_reader::read;
use std::alloc::Global;
use std::io;
use std::io::{Read, Write};

/// The bytes of standard input.
fn input(rt: &HostRuntime) -> io::Result<Vec<u8>> {
    let mut bytes = Vec::new(rt.alloc());
    let _count = rt.stdin().read_to_end(&mut bytes)?;
    Ok(bytes)
}

/// The program that a text says, as a text.
fn again(alloc: Global, bytes: &[u8]) -> Option<Bytes> {
    let mut names = NamePool::new(alloc);
    match read(alloc, bytes, &mut names, Abi::Lp64) {
        Ok(unit) => print(&unit, &names).ok(),
        Err(_) => None,
    }
}

fn main(rt: HostRuntime) -> io::Result<()> {
    let bytes = input(&rt)?;
    match again(rt.alloc(), &bytes) {
        Some(text) => io::writer(&rt).write_all(text.as_slice()),
        None => println!(rt; "not read"),
    }
}
