ghost use Rattle.std.specs.Prelude.{◌≡◌, Some, IfOk};
ghost use Rattle.execution.specs.Runs.{int_argument, words_argument};
ghost use Rattle.cil_frames.specs.Entering.{argument_of, arguments_of};
ghost use Rattle.cil_runner.specs.Beginning.{arguments_for};

use byte_mem::{ObjName, Pointer, Scalar, Value};
use cil_base::{IntKind, Memory};
use cil_code::{Datum, Kind};
use cil_frames::Argument;
use cil_link::Main;
use cil_turns::FirstCall;
use std::alloc::Global;

/// The number of words, as an int (C11 5.1.2.2.1p2).
fn word_count(count: usize) -> Argument
    ensures { argument_of result ≡ int_argument count }
{
    Argument {
        kind: Some(Kind::Single(Scalar::Int(IntKind::Int))),
        datum: Datum::Single(Value::Int(count as i128)),
    }
}

/// A pointer to the array argv (C11 5.1.2.2.1p2).
fn word_array() -> Argument
    ensures { argument_of result ≡ words_argument }
{
    Argument {
        kind: Some(Kind::Single(Scalar::Ptr)),
        datum: Datum::Single(Value::Ptr(Pointer {
            name: ObjName::Argument(0),
            offset: 0,
        })),
    }
}

/// The arguments of a main that takes so many words, or takes none (C11 5.1.2.2.1p1).
fn main_arguments(alloc: Global, words: bool, count: usize) -> Result<Vec<Argument>, Memory>
    ensures { IfOk result (λ v. arguments_of v.items ≡ arguments_for words count) }
{
    let mut arguments = Vec::new(alloc);
    if words {
        arguments.push(word_count(count))?;
        arguments.push(word_array())?;
    }
    Ok(arguments)
}

/// The call of main at the start of a run (C11 5.1.2.2.1p1, 5.1.2.2.3p1).
pub(crate) fn call_of_main(alloc: Global, main: Main, count: usize) -> Result<FirstCall, Memory>
    ensures callee { IfOk result (λ c. c.callee ≡ main.entity) }
    ensures result { IfOk result (λ c. c.result ≡ Some (Kind.Single (Scalar.Int IntKind.Int))) }
    ensures arguments { IfOk result (λ c. arguments_of c.arguments.items ≡ arguments_for main.words count) }
{
    Ok(FirstCall {
        callee: main.entity,
        result: Some(Kind::Single(Scalar::Int(IntKind::Int))),
        arguments: main_arguments(alloc, main.words, count)?,
    })
}
