ghost use Rattle.std.specs.Prelude.{◌≡◌, ◌<◌, ◌≤◌, [], ◌∷◌, ◌++◌, map, length, codes, decimal, OnOk};
ghost use Rattle.std.specs.Option.{ForSome};
ghost use Rattle.std.specs.List.{concat};
ghost use Rattle.outside.specs.Counts.{Counts};
ghost use Rattle.outside.specs.Moves.{Began, Wrote};
ghost use Rattle.cil_lines.specs.Messages.{line_of, IsQuiet, HasFiles, refusal_line, place_pieces, other_pieces, fault_pieces};
ghost use Rattle.cil_lines.specs.Sent.{Sent};

use crate::status::Status;
use cil_base::{Fault, NamePool, Place, Refusal};
use itoa::Buffer;
use outside::{Failed, Sink, write_all};

// The forms of the commands.
const USAGE: &str =
    "cil: usage: cil merge [--common] FILE... | cil run [--steps N] FILE [ARG...] | cil sample SEED UNITS\n";

// Writes the pieces, one behind the other.
fn write_pieces<E: Sink>(err: &mut E, pieces: &[&[u8]]) -> Result<(), Failed>
    ensures began { Began (E.taken err.old) (E.taken err.new) (concat (map (λ piece. piece.now) pieces.now)) }
    ensures ok { OnOk result (Wrote (E.taken err.old) (E.taken err.new) (concat (map (λ piece. piece.now) pieces.now))) }
    ensures count { Counts (E.faults err.old) (E.faults err.new) result }
{
    for piece in pieces {
        write_all(err, piece)?;
    }
    Ok(())
}

// Writes the line of a refusal.
fn write_refusal<E: Sink>(err: &mut E, names: &NamePool, refusal: &Refusal) -> Result<(), Failed>
    requires at { refusal.now.at.file.0 < length names.now }
    requires other { ForSome refusal.now.other (λ place. place.file.0 < length names.now) }
    ensures began { Began (E.taken err.old) (E.taken err.new) (refusal_line names.now refusal.now) }
    ensures ok { OnOk result (Wrote (E.taken err.old) (E.taken err.new) (refusal_line names.now refusal.now)) }
    ensures count { Counts (E.faults err.old) (E.faults err.new) result }
{
    write_at(err, b"cil: ", names, &refusal.at)?;
    write_fault(err, refusal.fault)?;
    write_other(err, names, &refusal.other)
}

// Writes a text and a place behind it.
fn write_at<E: Sink>(
    err: &mut E,
    text: &[u8],
    names: &NamePool,
    place: &Place,
) -> Result<(), Failed>
    requires { place.now.file.0 < length names.now }
    ensures began { Began (E.taken err.old) (E.taken err.new) (concat (text.now ∷ place_pieces names.now place.now)) }
    ensures ok { OnOk result (Wrote (E.taken err.old) (E.taken err.new) (concat (text.now ∷ place_pieces names.now place.now))) }
    ensures count { Counts (E.faults err.old) (E.faults err.new) result }
{
    let mut buffer = Buffer::new();
    let line = buffer.format(place.line).as_bytes();
    write_pieces(err, &[text, names.text(place.file), b":", line])
}

// Writes what a fault is called.
fn write_fault<E: Sink>(err: &mut E, fault: Fault) -> Result<(), Failed>
    ensures began { Began (E.taken err.old) (E.taken err.new) (concat (codes ": " ∷ fault_pieces fault)) }
    ensures ok { OnOk result (Wrote (E.taken err.old) (E.taken err.new) (concat (codes ": " ∷ fault_pieces fault))) }
    ensures count { Counts (E.faults err.old) (E.faults err.new) result }
{
    let (words, name) = fault_words(fault);
    write_pieces(err, &[b": ", words.as_bytes(), name.as_bytes()])
}

// What a fault is called, in two pieces.
fn fault_words(fault: Fault) -> (&'static str, &'static str)
    ensures { result.0.now ∷ (result.1.now ∷ []) ≡ fault_pieces fault }
{
    match fault {
        Fault::Lexical => ("lexical fault", ""),
        Fault::Excluded(feature) => ("excluded: ", feature.text()),
        Fault::Syntax => ("syntax fault, stopped at ", ""),
        Fault::Constraint(code) => ("constraint: ", code.text()),
        Fault::Limit(what) => ("limit: ", what.text()),
        Fault::Duplicate => ("duplicate definition, other at ", ""),
        Fault::Incompatible => ("incompatible declaration, other at ", ""),
    }
}

// Writes the other place of a refusal, where it has one, and the line's end.
fn write_other<E: Sink>(err: &mut E, names: &NamePool, other: &Option<Place>) -> Result<(), Failed>
    requires { ForSome other.now (λ place. place.file.0 < length names.now) }
    ensures began { Began (E.taken err.old) (E.taken err.new) (concat (other_pieces names.now other.now ++ codes "\n" ∷ [])) }
    ensures ok { OnOk result (Wrote (E.taken err.old) (E.taken err.new) (concat (other_pieces names.now other.now ++ codes "\n" ∷ []))) }
    ensures count { Counts (E.faults err.old) (E.faults err.new) result }
{
    match other {
        None => write_pieces(err, &[b"\n"]),
        Some(place) => {
            let mut buffer = Buffer::new();
            let line = buffer.format(place.line).as_bytes();
            write_pieces(err, &[names.text(place.file), b":", line, b"\n"])
        }
    }
}

// Writes the line of a status.
fn write_line<E: Sink>(
    err: &mut E,
    names: &NamePool,
    steps: u64,
    status: &Status,
) -> Result<(), Failed>
    requires { HasFiles (length names.now) status.now }
    ensures began { Began (E.taken err.old) (E.taken err.new) (line_of names.now steps status.now) }
    ensures ok { OnOk result (Wrote (E.taken err.old) (E.taken err.new) (line_of names.now steps status.now)) }
    ensures count { Counts (E.faults err.old) (E.faults err.new) result }
    ensures quiet { IsQuiet status.now → err.new ≡ err.old }
{
    match status {
        Status::Done | Status::Exited(_) => Ok(()),
        Status::StillRunning => write_number(err, b"cil: still running after ", steps, b" steps\n"),
        Status::WentUndefined => write_all(err, b"cil: undefined behaviour\n"),
        Status::Usage => write_all(err, USAGE.as_bytes()),
        Status::Refused(refusal) => write_refusal(err, names, refusal),
        Status::NotCil(byte) => write_number(err, b"cil: not CIL at byte ", *byte as u64, b"\n"),
        Status::ReadFault => write_all(err, b"cil: read fault\n"),
        Status::WriteFault => write_all(err, b"cil: write fault\n"),
        Status::Memory => write_all(err, b"cil: want of memory\n"),
    }
}

// Writes a number between two texts.
fn write_number<E: Sink>(
    err: &mut E,
    before: &[u8],
    number: u64,
    behind: &[u8],
) -> Result<(), Failed>
    ensures began { Began (E.taken err.old) (E.taken err.new) (concat (before.now ∷ (decimal number ∷ (behind.now ∷ [])))) }
    ensures ok { OnOk result (Wrote (E.taken err.old) (E.taken err.new) (concat (before.now ∷ (decimal number ∷ (behind.now ∷ []))))) }
    ensures count { Counts (E.faults err.old) (E.faults err.new) result }
{
    let mut buffer = Buffer::new();
    let digits = buffer.format(number).as_bytes();
    write_pieces(err, &[before, digits, behind])
}

/// Tells a status on standard error, by its line, or by nothing where the command or the program that was run
/// ended by itself. The files of places are numbers in `names`; a run that reached its bound had so many steps.
/// Where a write fails the line ends there. Own.
#[tactic(auto, using(crate::proofs::Fronts::sent_by))]
pub fn report<E: Sink>(err: &mut E, names: &NamePool, steps: u64, status: &Status)
    requires { HasFiles (length names.now) status.now }
    ensures sent { Sent (E.taken err.old) (E.taken err.new) (E.faults err.old) (E.faults err.new) (line_of names.now steps status.now) }
    ensures quiet { IsQuiet status.now → err.new ≡ err.old }
    ensures later { E.faults err.old ≤ E.faults err.new }
{
    let _ = write_line(err, names, steps, status);
}
