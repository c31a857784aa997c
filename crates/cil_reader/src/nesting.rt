ghost use Rattle.std.specs.Prelude.{◌≡◌, ◌++◌, ◌∷◌, [], Some, None, if◌then◌else◌, List, IfOk};
ghost use Rattle.cil_tree.specs.Tree.{Switch, Loop, Block};
ghost use Rattle.cil_tree.specs.View.{exp_of, stmts_of};
ghost use Rattle.cil_text.specs.ReadStmts.{Head as Line, read_nested};
ghost use Rattle.cil_declarators.specs.Gives.{Gives};
ghost use Rattle.cil_reader.specs.Heads.{head_of};
ghost use Rattle.cil_reader.specs.declared.heads.Head.TheVariants as seen;
ghost use Rattle.cil_reader.specs.Nesting.{waiting, closed_next, otherwise_next, part_read, two_parts, one_read, one_if, one_block, maybe_seen, Carries, CarriesOne};

use crate::heads::Head;
use crate::reader::Reader;
use cil_declarators::Stop;
use cil_nodes::{boxed_statement, if_else, looped, push_statement, switch};
use cil_tree::{Exp, Stmt};

/// Whether a line closes a block.
fn is_closed(r: &Reader, line: &Head) -> bool
    ensures { (more : List Line) → closed_next (head_of r.now.graph.nodes line.now ∷ more) ≡ (if result then Some more else None) }
{
    match line {
        Head::Closed => true,
        Head::Whole(_) | Head::Tested(_) | Head::Turned(_) => false,
        Head::Looped | Head::Opened | Head::Otherwise => false,
    }
}

/// Whether a line stands between the parts of an `if`.
fn is_otherwise(r: &Reader, line: &Head) -> bool
    ensures { (more : List Line) → otherwise_next (head_of r.now.graph.nodes line.now ∷ more) ≡ (if result then Some more else None) }
{
    match line {
        Head::Otherwise => true,
        Head::Whole(_) | Head::Tested(_) | Head::Turned(_) => false,
        Head::Looped | Head::Opened | Head::Closed => false,
    }
}

/// Takes the line that closes a block, if it stands next: the last of the list is the next one.
#[tactic(auto, using(crate::proofs::NestingLaws::line_taken, crate::proofs::CarryLaws::carries_same, crate::proofs::CarryLaws::carries_last))]
fn takes_closed(r: &Reader, lines: &mut Vec<Head>) -> bool
    ensures next { closed_next (waiting r.now.graph.nodes lines.old.items) ≡ (if result then Some (waiting r.now.graph.nodes lines.new.items) else None) }
    ensures known { Carries r.now.graph lines.old.items lines.new.items [] }
{
    match lines.pop() {
        None => false,
        Some(line) => is_closed(r, &line),
    }
}

/// Takes the line between the parts of an `if`, if it stands next.
#[tactic(auto, using(crate::proofs::NestingLaws::line_taken, crate::proofs::CarryLaws::carries_same, crate::proofs::CarryLaws::carries_last))]
fn takes_otherwise(r: &Reader, lines: &mut Vec<Head>) -> bool
    ensures next { otherwise_next (waiting r.now.graph.nodes lines.old.items) ≡ (if result then Some (waiting r.now.graph.nodes lines.new.items) else None) }
    ensures known { Carries r.now.graph lines.old.items lines.new.items [] }
{
    match lines.pop() {
        None => false,
        Some(line) => is_otherwise(r, &line),
    }
}

/// The statements of a block, and the line that closes it (C11 6.8.2).
#[cycle(nesting)]
#[tactic(auto, using(crate::proofs::NestingLaws::part_gives, crate::proofs::NestingLaws::part_open, crate::proofs::NestingLaws::part_fails, crate::proofs::CarryLaws::carries_first))]
fn block(r: &Reader, lines: &mut Vec<Head>, left: u32) -> Result<Vec<Stmt>, Stop>
    ensures gives { Gives (λ ss. (stmts_of r.now.graph.nodes ss.items, waiting r.now.graph.nodes lines.new.items)) result (part_read (read_nested left) closed_next (waiting r.now.graph.nodes lines.old.items)) }
    ensures known { IfOk result (λ ss. Carries r.now.graph lines.old.items lines.new.items ss.items) }
{
    let stmts = read_nested(r, lines, left)?;
    if !takes_closed(r, lines) {
        return Err(Stop::NotCil);
    }
    Ok(stmts)
}

/// The statements of an `if` where its test holds, and the line behind them.
#[cycle(nesting)]
#[tactic(auto, using(crate::proofs::NestingLaws::part_gives, crate::proofs::NestingLaws::part_open, crate::proofs::NestingLaws::part_fails, crate::proofs::CarryLaws::carries_first))]
fn first_part(r: &Reader, lines: &mut Vec<Head>, left: u32) -> Result<Vec<Stmt>, Stop>
    ensures gives { Gives (λ ss. (stmts_of r.now.graph.nodes ss.items, waiting r.now.graph.nodes lines.new.items)) result (part_read (read_nested left) otherwise_next (waiting r.now.graph.nodes lines.old.items)) }
    ensures known { IfOk result (λ ss. Carries r.now.graph lines.old.items lines.new.items ss.items) }
{
    let stmts = read_nested(r, lines, left)?;
    if !takes_otherwise(r, lines) {
        return Err(Stop::NotCil);
    }
    Ok(stmts)
}

/// Both parts of an `if` (C11 6.8.4.1).
#[cycle(nesting)]
#[tactic(auto, using(crate::proofs::NestingLaws::parts_open, crate::proofs::NestingLaws::parts_fail))]
fn both_parts(r: &Reader, lines: &mut Vec<Head>, left: u32) -> Result<(Vec<Stmt>, Vec<Stmt>), Stop>
    ensures gives { Gives (λ x. ((stmts_of r.now.graph.nodes x.0.items, stmts_of r.now.graph.nodes x.1.items), waiting r.now.graph.nodes lines.new.items)) result (two_parts (read_nested left) (waiting r.now.graph.nodes lines.old.items)) }
    ensures first { IfOk result (λ x. Carries r.now.graph lines.old.items lines.new.items x.0.items) }
    ensures second { IfOk result (λ x. Carries r.now.graph lines.old.items lines.new.items x.1.items) }
{
    let holds = first_part(r, lines, left)?;
    let fails = block(r, lines, left)?;
    Ok((holds, fails))
}

/// An `if` with this test: its parts (C11 6.8.4.1).
#[cycle(nesting)]
#[tactic(auto, using(crate::proofs::NestingLaws::if_fails))]
fn read_if(
    r: &Reader,
    lines: &mut Vec<Head>,
    left: u32,
    test: Box<Exp>,
) -> Result<Option<Box<Stmt>>, Stop>
    ensures gives { Gives (λ o. (maybe_seen r.now.graph.nodes o, waiting r.now.graph.nodes lines.new.items)) result (one_if (read_nested left) (exp_of r.now.graph.nodes test.value) (waiting r.now.graph.nodes lines.old.items)) }
    ensures known { IfOk result (λ o. CarriesOne r.now.graph (lines.old.items ++ seen.Tested test ∷ []) lines.new.items o) }
{
    let (holds, fails) = both_parts(r, lines, left)?;
    let statement = boxed_statement(r.alloc(), if_else(test, holds, fails))?;
    Ok(Some(statement))
}

/// A `switch` on this value: its block (C11 6.8.4.2).
#[cycle(nesting)]
#[tactic(auto, using(crate::proofs::NestingLaws::block_fails))]
fn read_switch(
    r: &Reader,
    lines: &mut Vec<Head>,
    left: u32,
    value: Box<Exp>,
) -> Result<Option<Box<Stmt>>, Stop>
    ensures gives { Gives (λ o. (maybe_seen r.now.graph.nodes o, waiting r.now.graph.nodes lines.new.items)) result (one_block (read_nested left) (Switch (exp_of r.now.graph.nodes value.value)) (waiting r.now.graph.nodes lines.old.items)) }
    ensures known { IfOk result (λ o. CarriesOne r.now.graph (lines.old.items ++ seen.Turned value ∷ []) lines.new.items o) }
{
    let body = block(r, lines, left)?;
    let statement = boxed_statement(r.alloc(), switch(value, body))?;
    Ok(Some(statement))
}

/// A `while`: its block (C11 6.8.5).
#[cycle(nesting)]
#[tactic(auto, using(crate::proofs::NestingLaws::block_fails))]
fn read_loop(r: &Reader, lines: &mut Vec<Head>, left: u32) -> Result<Option<Box<Stmt>>, Stop>
    ensures gives { Gives (λ o. (maybe_seen r.now.graph.nodes o, waiting r.now.graph.nodes lines.new.items)) result (one_block (read_nested left) Loop (waiting r.now.graph.nodes lines.old.items)) }
    ensures known { IfOk result (λ o. CarriesOne r.now.graph (lines.old.items ++ seen.Looped ∷ []) lines.new.items o) }
{
    let body = block(r, lines, left)?;
    let statement = boxed_statement(r.alloc(), looped(body))?;
    Ok(Some(statement))
}

/// A block: its statements (C11 6.8.2).
#[cycle(nesting)]
#[tactic(auto, using(crate::proofs::NestingLaws::made_inner, crate::proofs::NestingLaws::block_fails, crate::proofs::CarryLaws::carries_block))]
fn read_inner(r: &Reader, lines: &mut Vec<Head>, left: u32) -> Result<Option<Box<Stmt>>, Stop>
    ensures gives { Gives (λ o. (maybe_seen r.now.graph.nodes o, waiting r.now.graph.nodes lines.new.items)) result (one_block (read_nested left) Block (waiting r.now.graph.nodes lines.old.items)) }
    ensures known { IfOk result (λ o. CarriesOne r.now.graph (lines.old.items ++ seen.Opened ∷ []) lines.new.items o) }
{
    let body = block(r, lines, left)?;
    let statement = boxed_statement(r.alloc(), cil_nodes::block(body))?;
    Ok(Some(statement))
}

/// A line that belongs to what holds these statements: it is left.
#[tactic(auto, using(crate::proofs::CarryLaws::carries_same))]
fn put_back(r: &Reader, lines: &mut Vec<Head>, line: Head) -> Result<Option<Box<Stmt>>, Stop>
    ensures gives { Gives (λ o. lines.new.items) result (Some (lines.old.items ++ line ∷ [])) }
    ensures nothing { IfOk result (λ o. o ≡ None) }
    ensures known { IfOk result (λ o. CarriesOne r.now.graph (lines.old.items ++ line ∷ []) lines.new.items o) }
{
    lines.push(line)?;
    Ok(None)
}

/// A statement, if one stands next (C11 6.8).
#[cycle(nesting)]
#[tactic(auto, using(crate::proofs::NestingLaws::waiting_more, crate::proofs::CarryLaws::carries_same, crate::proofs::CarryLaws::carries_whole))]
fn one_statement(r: &Reader, lines: &mut Vec<Head>, left: u32) -> Result<Option<Box<Stmt>>, Stop>
    ensures gives { Gives (λ o. (maybe_seen r.now.graph.nodes o, waiting r.now.graph.nodes lines.new.items)) result (one_read (read_nested left) (waiting r.now.graph.nodes lines.old.items)) }
    ensures known { IfOk result (λ o. CarriesOne r.now.graph lines.old.items lines.new.items o) }
{
    match lines.pop() {
        None => Ok(None),
        Some(Head::Whole(s)) => Ok(Some(s)),
        Some(Head::Tested(test)) => read_if(r, lines, left, test),
        Some(Head::Turned(value)) => read_switch(r, lines, left, value),
        Some(Head::Looped) => read_loop(r, lines, left),
        Some(Head::Opened) => read_inner(r, lines, left),
        Some(Head::Otherwise) => put_back(r, lines, Head::Otherwise),
        Some(Head::Closed) => put_back(r, lines, Head::Closed),
    }
}

/// Statements up to a line that closes what holds them, or to the end. Their number and depth are bounded.
#[cycle(nesting)]
#[tactic(auto, using(crate::proofs::NestingLaws::nested_begins, crate::proofs::NestingLaws::nested_goes_on, crate::proofs::NestingLaws::nested_stops, crate::proofs::NestingLaws::nested_error, crate::proofs::NestingLaws::nested_ends, crate::proofs::CarryLaws::carries_same, crate::proofs::CarryLaws::carries_first, crate::proofs::CarryLaws::carries_more))]
pub(crate) fn read_nested(r: &Reader, lines: &mut Vec<Head>, left: u32) -> Result<Vec<Stmt>, Stop>
    ensures gives { Gives (λ ss. (stmts_of r.now.graph.nodes ss.items, waiting r.now.graph.nodes lines.new.items)) result (read_nested left (waiting r.now.graph.nodes lines.old.items)) }
    ensures known { IfOk result (λ ss. Carries r.now.graph lines.old.items lines.new.items ss.items) }
{
    let mut stmts = Vec::new(r.alloc());
    for step in 0..left {
        match one_statement(r, lines, left - 1 - step)? {
            None => return Ok(stmts),
            Some(s) => push_statement(&mut stmts, s)?,
        }
    }
    Err(Stop::NotCil)
}
