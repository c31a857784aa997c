ghost use Rattle.std.specs.Prelude.{◌≡◌, ◌<◌, ◌≤◌, true, length, IfOk};
ghost use Rattle.c_lexer.specs.Longest.{fresh_behind};
ghost use Rattle.c_lexer.specs.Automaton.{pieces};
ghost use Rattle.c_lexer.specs.Tokens.{Answer, IsAnswer, read, begun};
ghost use Rattle.c_lexer.specs.Lexed.{Gives, IfAnswered, IfRefused, IsTokenRefusal, Grows, PlacesWithin};
ghost use Rattle.cil_base.specs.Limits.{unit_bytes};

use crate::automaton::piece;
use crate::entries::Spot;
use crate::pieces::Kind;
use crate::reader::Reader;
use crate::tokens::Tokens;
use cil_base::{NameId, NamePool, Stop, UnitNo};
use std::alloc::Global;

/// Whether only blanks stand before what follows a piece on its line.
fn fresh_behind(fresh: bool, kind: Kind) -> bool
    ensures { result ≡ fresh_behind fresh kind }
{
    match kind {
        Kind::Blank => fresh,
        Kind::LineEnd | Kind::Directive => true,
        _ => false,
    }
}

/// The tokens of a unit (C11 6.4), with the numbers of its names in the pool, where each new name, and each new file of a line marker,
/// gets the next number. Until the first line marker its presumed file is `file`.
///
/// It is refused, with one place, where a lexical fault, what is excluded or a name of more than 1,024 bytes comes first. Memory comes
/// where memory is wanting, or where the pool has no more numbers; the pool then keeps the numbers that it had given.
pub fn lex<'a>(
    alloc: Global,
    bytes: &'a [u8],
    unit: UnitNo,
    file: NameId,
    names: &mut NamePool,
) -> Result<Tokens<'a>, Stop>
    requires small { length bytes.now ≤ unit_bytes }
    requires named { file.0 < length names.old }
    ensures tokens { IfAnswered (λ answer. Gives result bytes.now unit names.new answer) (IsAnswer unit file names.old bytes.now) }
    ensures only { (answer : Answer) → IsAnswer unit file names.old bytes.now answer → Gives result bytes.now unit names.new answer }
    ensures refusal { IfRefused result (IsTokenRefusal unit (length names.new)) }
    ensures files { IfOk result (PlacesWithin (length names.new)) }
    ensures pool { Grows names.old names.new }
{
    read_pieces(alloc, bytes, unit, file, names)
}

/// The tokens, cut piece by piece.
#[tactic(auto, using(crate::proofs::Interning::grows_same))]
fn read_pieces<'a>(
    alloc: Global,
    bytes: &'a [u8],
    unit: UnitNo,
    file: NameId,
    names: &mut NamePool,
) -> Result<Tokens<'a>, Stop>
    requires { length bytes.now ≤ unit_bytes }
    ensures tokens { Gives result bytes.now unit names.new (read (pieces 0 true bytes.now) (begun unit file names.old)) }
    ensures pool { Grows names.old names.new }
{
    let mut reader = Reader {
        alloc,
        unit,
        limit: bytes.len() as u32,
        entries: Vec::new(alloc),
        spot: Spot {
            start: 0,
            file,
            line: 1,
        },
        attribute: None,
        brackets: Vec::new(alloc),
    };
    let mut fresh = true;
    let mut rest = bytes;
    while let [first, behind @ ..] = rest {
        let raw = piece(fresh, *first, behind);
        let (text, more) = rest.split_at(raw.len);
        reader.piece(names, raw.kind, text)?;
        fresh = fresh_behind(fresh, raw.kind);
        rest = more;
    }
    reader.end(bytes)
}
