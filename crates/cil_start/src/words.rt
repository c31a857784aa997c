ghost use Rattle.std.specs.Prelude.{◌≡◌, ◌<◌, ◌^◌, ◌++◌, IfOk, OnOk, List, [], Option, Some, length, map, replicate};
ghost use Rattle.byte_mem.specs.declared.pointers.ObjName.TheVariants.{Argument};
ghost use Rattle.byte_mem.specs.declared.values.Byte.TheVariants.{Known};
ghost use Rattle.byte_mem.specs.Store.{memory, Becomes};
ghost use Rattle.byte_mem.specs.Memory.{with_held};
ghost use Rattle.byte_mem.specs.Object.{Held};
ghost use Rattle.byte_mem.specs.Scalar.{parts_of};
ghost use Rattle.cil_base.specs.Integer.{pointer_size_of};
ghost use Rattle.execution.specs.Runs.{memory_of, words_held, word_held, word_pointers, writable};

use byte_mem::{Byte, Cells, ObjName, Pointer, Store};
use cil_base::{Abi, Bytes, Memory};
use std::alloc::{AllocError, Global};

/// Adds the bytes of a pointer, which are its parts (own).
#[tactic(auto, using(crate::proofs::WordLaws::parts_begin, crate::proofs::WordLaws::parts_next, crate::proofs::WordLaws::parts_end))]
fn push_pointer(bytes: &mut Vec<Byte>, p: Pointer, size: u8) -> Result<(), Memory>
    ensures { OnOk result (bytes.new.items ≡ bytes.old.items ++ parts_of p 0 size) }
{
    for k in 0..size {
        bytes.push(Byte::Part(p, k))?;
    }
    Ok(())
}

/// Adds zero bytes.
#[tactic(auto, using(crate::proofs::WordLaws::zeros_begin, crate::proofs::WordLaws::zeros_next, crate::proofs::WordLaws::zeros_end))]
fn push_zeros(bytes: &mut Vec<Byte>, count: u8) -> Result<(), Memory>
    ensures { OnOk result (bytes.new.items ≡ bytes.old.items ++ replicate count (Known 0)) }
{
    for _k in 0..count {
        bytes.push(Byte::Known(0))?;
    }
    Ok(())
}

/// The size of a pointer.
#[tactic(auto, using(cil_base::proofs::KindLaws::pointer_small))]
fn pointer_size(abi: Abi) -> u8
    ensures { result ≡ pointer_size_of abi }
{
    abi.pointer_size() as u8
}

/// The bytes of the array argv: pointers to the words, and a null pointer behind them (C11 5.1.2.2.1p2).
#[tactic(auto, using(crate::proofs::WordLaws::pointers_next, crate::proofs::WordLaws::pointers_end))]
fn argv_bytes(alloc: Global, abi: Abi, words: &[Bytes]) -> Result<Vec<Byte>, Memory>
    requires { length words.now < 2 ^ 32 }
    ensures { IfOk result (λ v. v.items ≡ word_pointers abi 0 words.now) }
{
    let size = pointer_size(abi);
    let mut bytes = Vec::new(alloc);
    for i in 0..words.len() {
        let word = Pointer {
            name: ObjName::Argument(i as u32 + 1),
            offset: 0,
        };
        push_pointer(&mut bytes, word, size)?;
    }
    push_zeros(&mut bytes, size)?;
    Ok(bytes)
}

/// The bytes of a word.
fn known_bytes(alloc: Global, word: &[u8]) -> Result<Vec<Byte>, AllocError>
    ensures { IfOk result (λ v. v.items ≡ map (λ b. Known b) word.now) }
{
    word.iter().map(|b| Byte::Known(*b)).collect(alloc)
}

/// The bytes of a word, and a zero byte behind them (C11 5.1.2.2.1p2).
fn word_bytes(alloc: Global, word: &[u8]) -> Result<Vec<Byte>, Memory>
    ensures { IfOk result (λ v. Some (writable v.items) ≡ word_held word.now) }
{
    let mut bytes = known_bytes(alloc, word)?;
    push_zeros(&mut bytes, 1)?;
    Ok(bytes)
}

/// Makes an argument with these bytes, which may be modified (C11 5.1.2.2.1p2).
#[tactic(auto, using(crate::proofs::WordLaws::filled_by))]
fn make_argument(mem: &mut Store, i: u32, bytes: Vec<Byte>) -> Result<(), Memory>
    ensures { OnOk result (Becomes mem.old mem.new (with_held (memory mem.old) (Argument i) (Some (writable bytes.items)))) }
{
    if bytes.len() > u32::MAX as usize {
        return Err(Memory);
    }
    let name = ObjName::Argument(i);
    mem.make(name, bytes.len() as u32, Byte::Known(0), false)?;
    let _ = mem.store_bytes(Pointer { name, offset: 0 }, &Cells::new(bytes));
    Ok(())
}

/// Makes the arguments: the array argv, and the words behind it (C11 5.1.2.2.1p2; own: which objects they are).
///
/// Memory also comes where a number would not fit.
#[tactic(auto, using(crate::proofs::WordLaws::arguments_begin, crate::proofs::WordLaws::arguments_next, crate::proofs::WordLaws::arguments_end))]
pub(crate) fn make_arguments(
    alloc: Global,
    mem: &mut Store,
    abi: Abi,
    words: &[Bytes],
) -> Result<(), Memory>
    ensures model { OnOk result (mem.new.abi ≡ mem.old.abi) }
    ensures filled { (entities : List (Option Held)) → memory mem.old ≡ memory_of entities [] → OnOk result (memory mem.new ≡ memory_of entities (words_held abi words.now)) }
{
    if words.len() >= u32::MAX as usize {
        return Err(Memory);
    }
    let argv = argv_bytes(alloc, abi, words)?;
    make_argument(mem, 0, argv)?;
    for i in 0..words.len() {
        let bytes = word_bytes(alloc, words[i].as_slice())?;
        make_argument(mem, i as u32 + 1, bytes)?;
    }
    Ok(())
}
