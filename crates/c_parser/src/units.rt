ghost use Rattle.std.specs.Prelude.{◌≡◌, ◌<◌, true, map, drop, Ok, IfOk, IfErr};
ghost use Rattle.c_tree.specs.UnitView.{unit_of};
ghost use Rattle.c_tree.specs.UnitView.{external_of as tree_of};
ghost use Rattle.c_tree.specs.Levels.{has_some};
ghost use Rattle.c_cursor.specs.Lexemes.{lexemes, ahead};
ghost use Rattle.c_lexer.specs.Lexed.{IfRefused};
ghost use Rattle.c_cursor.specs.Readers.{head};
ghost use Rattle.c_parser.specs.StatementWords.{token_ahead};
ghost use Rattle.c_parser.specs.Externals.{file_scope, greatest_height};
ghost use Rattle.c_parser.specs.UnitAnswers.{ReadsUnit, IsSyntaxFault};
ghost use Rattle.c_parser.specs.UnitReading.{external_of};
ghost use Rattle.c_parser.specs.UnitStops.{StopsUnit, Told, StopsAt, FailsExternal, Behind};

use crate::externals::external;
use crate::nexts::at_token;
use crate::stops::UnitStop;
use c_cursor::{Cursor, ParseStop};
use c_lexer::TokenList;
use c_nodes::{ExternalNode, Externals};
use c_tree::Unit;
use cil_base::{Fault, Refusal, Stop};
use std::alloc::Global;
use typedef_scopes::Scopes;

/// The most that the height of an external declaration may be (own).
const GREATEST_HEIGHT: u32 = 512;

/// An external declaration (C11 6.9), or where it begins and where it stops.
fn next_external<L: TokenList>(
    alloc: Global,
    c: &mut Cursor<L>,
    s: &mut Scopes,
) -> Result<ExternalNode, UnitStop>
    ensures read { IfOk result (λ x. external_of greatest_height s.old (ahead c.old) ≡ Ok ((tree_of x, s.new), ahead c.new)) }
    ensures refused { IfErr result (λ stop. Told (FailsExternal s.old (ahead c.old) (ahead c.new)) stop) }
    ensures same { c.new.all ≡ c.old.all }
    ensures further { IfOk result (λ _. c.old.at < c.new.at) }
{
    let start = c.position();
    match external(alloc, c, s, GREATEST_HEIGHT) {
        Ok(d) => Ok(d),
        Err(ParseStop::At(stop)) => Err(UnitStop::Syntax(start, stop)),
        Err(ParseStop::Memory) => Err(UnitStop::Memory),
    }
}

/// The external declarations that were read, and the next one.
#[tactic(auto, using(crate::proofs::UnitWhole::behind_next, crate::proofs::UnitWhole::some_pushed))]
fn one_more<L: TokenList>(
    alloc: Global,
    c: &mut Cursor<L>,
    s: &mut Scopes,
    first: Externals,
) -> Result<Externals, UnitStop>
    requires behind { Behind c.old.all c.old.at (map tree_of first) s.old }
    requires on { token_ahead (head (drop c.old.at c.old.all)) ≡ true }
    ensures behind { IfOk result (λ ds. Behind c.new.all c.new.at (map tree_of ds) s.new) }
    ensures some { IfOk result (λ ds. has_some (map tree_of ds) ≡ true) }
    ensures refused { IfErr result (λ stop. Told (StopsUnit c.old.all) stop) }
    ensures same { c.new.all ≡ c.old.all }
    ensures further { IfOk result (λ _. c.old.at < c.new.at) }
{
    let d = next_external(alloc, c, s)?;
    let mut ds = first;
    ds.push(d)?;
    Ok(ds)
}

/// All external declarations behind some, up to the unit's end.
#[tactic(auto, using(crate::proofs::UnitWhole::stops_told_of))]
fn more_externals<L: TokenList>(
    alloc: Global,
    c: &mut Cursor<L>,
    s: &mut Scopes,
    first: Externals,
) -> Result<Externals, UnitStop>
    requires behind { Behind c.old.all c.old.at (map tree_of first) s.old }
    requires some { has_some (map tree_of first) ≡ true }
    ensures read { IfOk result (λ ds. ReadsUnit c.old.all (map tree_of ds)) }
    ensures refused { IfErr result (λ stop. Told (StopsUnit c.old.all) stop) }
{
    let mut ds = first;
    while at_token(c) {
        ds = one_more(alloc, c, s, ds)?;
    }
    Ok(ds)
}

/// Reads external declarations, at least one, from the first token of a unit to its end.
fn externals<L: TokenList>(
    alloc: Global,
    c: &mut Cursor<L>,
    s: &mut Scopes,
) -> Result<Externals, UnitStop>
    requires at { c.old.at ≡ 0 }
    requires scopes { s.old ≡ file_scope }
    ensures read { IfOk result (λ ds. ReadsUnit c.old.all (map tree_of ds)) }
    ensures refused { IfErr result (λ stop. Told (StopsUnit c.old.all) stop) }
{
    let d = next_external(alloc, c, s)?;
    let mut ds = Externals::new(alloc);
    ds.push(d)?;
    more_externals(alloc, c, s, ds)
}

/// A unit, or where its reading stops.
fn unit<L: TokenList>(alloc: Global, tokens: &L) -> Result<Unit, UnitStop>
    ensures read { IfOk result (λ u. ReadsUnit (lexemes (L.lexed tokens.now)) (unit_of u)) }
    ensures refused { IfErr result (λ stop. Told (StopsUnit (lexemes (L.lexed tokens.now))) stop) }
{
    let mut c = Cursor::new(tokens);
    let mut s = Scopes::new(alloc);
    let declarations = externals(alloc, &mut c, &mut s)?;
    Ok(declarations.into_unit())
}

/// The refusal of a unit at the places of two tokens.
#[tactic(auto, using(crate::proofs::UnitWhole::start_within, crate::proofs::UnitWhole::stop_within, crate::proofs::UnitWhole::stops_at))]
fn syntax_fault<L: TokenList>(tokens: &L, start: u32, stop: u32) -> Refusal
    requires { StopsUnit (lexemes (L.lexed tokens.now)) start stop }
    ensures { StopsAt (L.lexed tokens.now) result }
{
    let at = tokens.place(start);
    let other = tokens.place(stop);
    Refusal {
        fault: Fault::Syntax,
        at,
        other: Some(other),
    }
}

/// Reads a translation unit from its tokens (C11 6.9).
///
/// Ok gives a grammatical unit that spells the tokens, of whose external declarations none is higher than 512; no other does. `Refused` comes exactly
/// where no grammatical unit spells them, and is a syntax fault: its place is that of the token at which, behind whole external declarations, none
/// begins, and its other place that of the token at which the reading of the next one fails, up to and including which none begins there. The unit's end
/// counts as a token.
#[tactic(auto, using(crate::proofs::UnitWhole::stops_refused))]
pub fn parse<L: TokenList>(alloc: Global, tokens: &L) -> Result<Unit, Stop>
    ensures reads { IfOk result (λ u. ReadsUnit (lexemes (L.lexed tokens.now)) (unit_of u)) }
    ensures refused { IfRefused result (λ refusal. IsSyntaxFault (L.lexed tokens.now) refusal) }
    ensures stops { IfRefused result (λ refusal. StopsAt (L.lexed tokens.now) refusal) }
{
    match unit(alloc, tokens) {
        Ok(u) => Ok(u),
        Err(UnitStop::Syntax(start, stop)) => Err(Stop::Refused(syntax_fault(tokens, start, stop))),
        Err(UnitStop::Memory) => Err(Stop::Memory),
    }
}
