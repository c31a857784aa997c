ghost use Rattle.std.specs.Prelude.{◌≡◌, ◌<◌, ◌+◌, ◌++◌, ◌^◌, ◌==◌, ◌%◌, map, IfOk, OnOk};
ghost use Rattle.std.specs.List.{concat, range_with_len};
ghost use Rattle.std.specs.String.{string_bytes};
ghost use Rattle.sample_units.specs.Draws.{next_state as the_next, drawn as the_drawn};
ghost use Rattle.sample_units.specs.Units.{struct_lines, work_lines, declaration_line, call_line, main_lines, rest_lines, unit_texts, file_name as the_name, file_names};

use crate::pieces::push_pieces;
use crate::words::{
    call_rest, call_words, cell_words, declaration_rest, declaration_words, factor_words,
    list_line, main_begin, main_end, node_line, work_rest, work_words,
};
use cil_base::{Bytes, Memory};
use itoa::Buffer;
use std::alloc::{AllocError, Global};

/// The state of the generator behind a draw.
fn next_state(x: u64) -> u64
    requires { x < 2 ^ 32 }
    ensures is { result ≡ the_next x }
    ensures below { result < 2 ^ 31 }
{
    (x * 1_103_515_245 + 12_345) % 2_147_483_648
}

/// Puts the declarations of the two structs behind a text.
fn push_structs(out: &mut Vec<u8>, u: u32) -> Result<(), AllocError>
    ensures { OnOk result (out.new.items ≡ out.old.items ++ struct_lines u) }
{
    if u % 2 == 0 {
        push_pieces(out, &[node_line(), list_line()])
    } else {
        push_pieces(out, &[list_line(), node_line()])
    }
}

/// Puts the cell and the function of a unit behind a text.
fn push_work(out: &mut Vec<u8>, cell: u32, factor: u32, u: u32) -> Result<(), AllocError>
    ensures { OnOk result (out.new.items ≡ out.old.items ++ work_lines cell factor u) }
{
    let mut cells = Buffer::new();
    let mut factors = Buffer::new();
    let mut units = Buffer::new();
    let cell = cells.format(cell).as_bytes();
    let factor = factors.format(factor).as_bytes();
    let unit = units.format(u).as_bytes();
    push_pieces(
        out,
        &[
            cell_words(),
            cell,
            factor_words(),
            factor,
            work_words(),
            unit,
            work_rest(),
        ],
    )
}

/// Puts the declaration of a unit's function behind a text.
fn push_declaration(out: &mut Vec<u8>, u: u32) -> Result<(), AllocError>
    ensures { OnOk result (out.new.items ≡ out.old.items ++ declaration_line u) }
{
    let mut buffer = Buffer::new();
    let unit = buffer.format(u).as_bytes();
    push_pieces(out, &[declaration_words(), unit, declaration_rest()])
}

/// Puts the declarations of the functions of so many units behind a text.
fn push_declarations(out: &mut Vec<u8>, units: u32) -> Result<(), AllocError>
    ensures { OnOk result (out.new.items ≡ out.old.items ++ concat (map declaration_line (range_with_len 0 units))) }
{
    for u in 0..units {
        push_declaration(out, u)?;
    }
    Ok(())
}

/// Puts the call of a unit's function behind a text.
fn push_call(out: &mut Vec<u8>, u: u32) -> Result<(), AllocError>
    ensures { OnOk result (out.new.items ≡ out.old.items ++ call_line u) }
{
    let mut buffer = Buffer::new();
    let unit = buffer.format(u).as_bytes();
    push_pieces(out, &[call_words(), unit, call_rest()])
}

/// Puts the calls of the functions of so many units behind a text.
fn push_calls(out: &mut Vec<u8>, units: u32) -> Result<(), AllocError>
    ensures { OnOk result (out.new.items ≡ out.old.items ++ concat (map call_line (range_with_len 0 units))) }
{
    for u in 0..units {
        push_call(out, u)?;
    }
    Ok(())
}

/// Puts the list and main behind the text of the first of so many units.
fn push_main(out: &mut Vec<u8>, units: u32) -> Result<(), AllocError>
    ensures { OnOk result (out.new.items ≡ out.old.items ++ main_lines units) }
{
    push_declarations(out, units)?;
    out.extend_from_slice(main_begin())?;
    push_calls(out, units)?;
    out.extend_from_slice(main_end())?;
    Ok(())
}

/// Puts what stands in the first of so many units alone behind its text.
fn push_rest(out: &mut Vec<u8>, units: u32, u: u32) -> Result<(), AllocError>
    ensures { OnOk result (out.new.items ≡ out.old.items ++ rest_lines units u) }
{
    if u == 0 {
        push_main(out, units)
    } else {
        Ok(())
    }
}

/// The text of unit `u` of so many, where the generator has drawn for those before it.
fn unit_text(alloc: Global, units: u32, state: u64, u: u32) -> Result<Vec<u8>, AllocError>
    requires { state < 2 ^ 32 }
    ensures { IfOk result (λ v. v.items ≡ struct_lines u ++ (work_lines (the_drawn state % 50) (the_drawn (the_next state) % 9 + 1) u ++ rest_lines units u)) }
{
    let first = next_state(state);
    let second = next_state(first);
    let cell = (first / 65_536 % 50) as u32;
    let factor = (second / 65_536 % 9 + 1) as u32;
    let mut text = Vec::new(alloc);
    push_structs(&mut text, u)?;
    push_work(&mut text, cell, factor, u)?;
    push_rest(&mut text, units, u)?;
    Ok(text)
}

/// The texts of the units of a sample, so many and with this seed. The error comes only for want of memory.
pub fn unit_sources(alloc: Global, seed: u32, units: u32) -> Result<Vec<Bytes>, Memory>
    ensures { IfOk result (λ v. v.items ≡ unit_texts seed units) }
{
    let mut texts = Vec::new(alloc);
    let mut state = u64::from(seed);
    for u in 0..units {
        let text = unit_text(alloc, units, state, u)?;
        texts.push(Bytes::new(text))?;
        state = next_state(next_state(state));
    }
    Ok(texts)
}

/// The name of the file of a unit.
fn file_name(alloc: Global, u: u32) -> Result<String, AllocError>
    ensures { IfOk result (λ s. string_bytes s ≡ the_name u) }
{
    let mut buffer = Buffer::new();
    let mut name = String::new(alloc);
    name.push_str("sample-")?;
    name.push_str(buffer.format(u))?;
    name.push_str(".c")?;
    Ok(name)
}

/// The names of the files of so many units. The error comes only for want of memory.
pub fn unit_files(alloc: Global, units: u32) -> Result<Vec<String>, Memory>
    ensures { IfOk result (λ v. map string_bytes v.items ≡ file_names units) }
{
    let mut names = Vec::new(alloc);
    for u in 0..units {
        names.push(file_name(alloc, u)?)?;
    }
    Ok(names)
}
