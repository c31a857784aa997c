ghost use Rattle.std.specs.Prelude.{◌≡◌, ◌<◌, ◌≤◌, length, List, map, IfOk};
ghost use Rattle.std.specs.Option.{option_map};
ghost use Rattle.typedef_scopes.specs.Scopes.{Scope};
ghost use Rattle.c_tree.specs.View.{expr_of};
ghost use Rattle.c_tree.specs.UnitView.{start_of, stmt_of, block_item_of, block_of};
ghost use Rattle.c_tree.specs.Units as plain;
ghost use Rattle.c_tree.specs.Scoped.{entered};
ghost use Rattle.c_cursor.specs.Lexemes.{ahead};
ghost use Rattle.c_cursor.specs.Readers.{bind};
ghost use Rattle.c_cursor.specs.Lexemes.{Onward};
ghost use Rattle.c_cursor.specs.Given.{Gives};
ghost use Rattle.c_exprs.specs.DeclaratorReading.{outer_of};
ghost use Rattle.c_parser.specs.StatementReading.{controlled, behind_colon, labelled, case_behind, else_behind, if_rest, if_behind, switch_behind, while_behind, do_rest, do_behind, for_start, for_body, for_rest, for_behind, doing, typed_item, untyped_item, item, items, items_closed, block_behind, body, behind_word, worded, named, unnamed, statement_at, statement};
ghost use Rattle.c_parser.specs.UnitReading.{lower};

use crate::below::expr_below;
use crate::blocks::{enter_block, leave_block};
use crate::nexts::{
    at_declaration, at_else, at_label, at_name, at_statement_word, at_type_name, take_else,
    take_statement_word, take_while,
};
use crate::statement_parts::{
    break_behind, condition, continue_behind, declaring, expressing, for_start, goto_behind,
    maybe_closed, return_behind, unlabelled,
};
use crate::words::StatementWord;
use c_cursor::{Cursor, ParseStop, at_other, take_name, take_sign};
use c_lexer::TokenList;
use c_nodes::{Block, BlockItemNode, FullExpr, InnerStmt, StartNode, StmtNode};
use c_tree::Level;
use cil_base::Punctuator;
use std::alloc::Global;
use typedef_scopes::Scopes;

/// What stands behind the word of a statement that a condition governs: `( e ) s`.
#[derive(Drop)]
struct ControlledStmt {
    condition: FullExpr,
    body: InnerStmt,
}

/// A statement that is lower than that height.
#[cycle(reading)]
#[tactic(auto, using(crate::proofs::Lower::no_statement, crate::proofs::Lower::lower_statement, crate::proofs::Kept::statement_kept_below))]
pub(crate) fn statement_below<L: TokenList>(
    alloc: Global,
    c: &mut Cursor<L>,
    s: &mut Scopes,
    height: u32,
) -> Result<StmtNode, ParseStop>
    ensures gives { Gives (λ x. (stmt_of x, s.new)) result ((lower height).statement s.old (ahead c.old)) (ahead c.new) }
    ensures onward { Onward c.old c.new }
    ensures further { IfOk result (λ _. c.old.at < c.new.at) }
    ensures outer { IfOk result (λ _. outer_of s.new ≡ outer_of s.old) }
{
    if height < 1 {
        return Err(ParseStop::At(c.position()));
    }
    statement(alloc, c, s, height - 1)
}

/// Such a statement as part of another one.
#[cycle(reading)]
fn inner_below<L: TokenList>(
    alloc: Global,
    c: &mut Cursor<L>,
    s: &mut Scopes,
    height: u32,
) -> Result<InnerStmt, ParseStop>
    ensures gives { Gives (λ x. (stmt_of x, s.new)) result ((lower height).statement s.old (ahead c.old)) (ahead c.new) }
    ensures onward { Onward c.old c.new }
    ensures further { IfOk result (λ _. c.old.at < c.new.at) }
    ensures outer { IfOk result (λ _. outer_of s.new ≡ outer_of s.old) }
{
    let statement = statement_below(alloc, c, s, height)?;
    Ok(InnerStmt::of(alloc, statement)?)
}

/// `( e ) s`, of which the statement is a block (C11 6.8.4p3, 6.8.5p5); the block that both stand in is entered and not left.
#[cycle(reading)]
#[tactic(auto, using(crate::proofs::Kept::two_kept))]
fn controlled<L: TokenList>(
    alloc: Global,
    c: &mut Cursor<L>,
    s: &mut Scopes,
    height: u32,
) -> Result<ControlledStmt, ParseStop>
    ensures gives { Gives (λ x. ((expr_of x.condition, s.new), stmt_of x.body)) result (controlled (lower height) s.old (ahead c.old)) (ahead c.new) }
    ensures onward { Onward c.old c.new }
    ensures outer { IfOk result (λ _. outer_of s.new ≡ s.old) }
    ensures room { IfOk result (λ _. 2 ≤ length s.new) }
{
    enter_block(s)?;
    let condition = condition(alloc, c, s, height)?;
    enter_block(s)?;
    let body = inner_below(alloc, c, s, height)?;
    leave_block(s);
    Ok(ControlledStmt { condition, body })
}

/// `: s` behind a label
#[cycle(reading)]
fn labelled<L: TokenList>(
    alloc: Global,
    c: &mut Cursor<L>,
    s: &mut Scopes,
    height: u32,
    at: u32,
) -> Result<StmtNode, ParseStop>
    ensures gives { Gives (λ x. (stmt_of x, s.new)) result (labelled (lower height) s.old at (ahead c.old)) (ahead c.new) }
    ensures onward { Onward c.old c.new }
    ensures further { IfOk result (λ _. c.old.at < c.new.at) }
{
    let label = take_name(c)?;
    take_sign(c, Punctuator::Colon)?;
    let body = inner_below(alloc, c, s, height)?;
    Ok(StmtNode::labelled(at, label, body))
}

/// `e : s` behind `case`
#[cycle(reading)]
fn case_behind<L: TokenList>(
    alloc: Global,
    c: &mut Cursor<L>,
    s: &mut Scopes,
    height: u32,
    at: u32,
) -> Result<StmtNode, ParseStop>
    ensures gives { Gives (λ x. (stmt_of x, s.new)) result (case_behind (lower height) s.old at (ahead c.old)) (ahead c.new) }
    ensures onward { Onward c.old c.new }
{
    let value = expr_below(alloc, c, s, height, Level::Conditional)?;
    take_sign(c, Punctuator::Colon)?;
    let body = inner_below(alloc, c, s, height)?;
    Ok(StmtNode::case(at, value, body))
}

/// `: s` behind `default`
#[cycle(reading)]
fn default_behind<L: TokenList>(
    alloc: Global,
    c: &mut Cursor<L>,
    s: &mut Scopes,
    height: u32,
    at: u32,
) -> Result<StmtNode, ParseStop>
    ensures gives { Gives (λ x. (stmt_of x, s.new)) result (behind_colon (lower height) (plain.Default at) s.old (ahead c.old)) (ahead c.new) }
    ensures onward { Onward c.old c.new }
{
    take_sign(c, Punctuator::Colon)?;
    let body = inner_below(alloc, c, s, height)?;
    Ok(StmtNode::default(at, body))
}

/// `else s` behind a first branch, within the block of both
#[cycle(reading)]
#[tactic(auto, using(crate::proofs::Kept::two_kept))]
fn else_behind<L: TokenList>(
    alloc: Global,
    c: &mut Cursor<L>,
    s: &mut Scopes,
    height: u32,
    at: u32,
    condition: FullExpr,
    yes: InnerStmt,
) -> Result<StmtNode, ParseStop>
    ensures gives { (ds : List Scope) → Gives (λ x. (stmt_of x, ds)) result (else_behind (lower height) ds at ((expr_of condition, s.old), stmt_of yes) (ahead c.old)) (ahead c.new) }
    ensures onward { Onward c.old c.new }
    ensures kept { IfOk result (λ _. s.new ≡ s.old) }
{
    take_else(c)?;
    enter_block(s)?;
    let no = inner_below(alloc, c, s, height)?;
    leave_block(s);
    Ok(StmtNode::if_else(at, condition, yes, no))
}

/// What stands behind a first branch: `else s`, or nothing; an else belongs to the nearest if (C11 6.8.4.1p3).
#[cycle(reading)]
fn if_rest<L: TokenList>(
    alloc: Global,
    c: &mut Cursor<L>,
    s: &mut Scopes,
    height: u32,
    at: u32,
    condition: FullExpr,
    yes: InnerStmt,
) -> Result<StmtNode, ParseStop>
    ensures gives { (ds : List Scope) → Gives (λ x. (stmt_of x, ds)) result (if_rest (lower height) ds at ((expr_of condition, s.old), stmt_of yes) (ahead c.old)) (ahead c.new) }
    ensures onward { Onward c.old c.new }
    ensures kept { IfOk result (λ _. s.new ≡ s.old) }
{
    if at_else(c) {
        return else_behind(alloc, c, s, height, at, condition, yes);
    }
    Ok(StmtNode::if_only(at, condition, yes))
}

/// `( e ) s` and an else behind `if` (C11 6.8.4.1)
#[cycle(reading)]
fn if_behind<L: TokenList>(
    alloc: Global,
    c: &mut Cursor<L>,
    s: &mut Scopes,
    height: u32,
    at: u32,
) -> Result<StmtNode, ParseStop>
    ensures gives { Gives (λ x. (stmt_of x, s.new)) result (if_behind (lower height) s.old at (ahead c.old)) (ahead c.new) }
    ensures onward { Onward c.old c.new }
{
    let ControlledStmt { condition, body } = controlled(alloc, c, s, height)?;
    let statement = if_rest(alloc, c, s, height, at, condition, body)?;
    leave_block(s);
    Ok(statement)
}

/// `( e ) s` behind `switch` (C11 6.8.4.2)
#[cycle(reading)]
fn switch_behind<L: TokenList>(
    alloc: Global,
    c: &mut Cursor<L>,
    s: &mut Scopes,
    height: u32,
    at: u32,
) -> Result<StmtNode, ParseStop>
    ensures gives { Gives (λ x. (stmt_of x, s.new)) result (switch_behind (lower height) s.old at (ahead c.old)) (ahead c.new) }
    ensures onward { Onward c.old c.new }
{
    let ControlledStmt { condition, body } = controlled(alloc, c, s, height)?;
    leave_block(s);
    Ok(StmtNode::switch(at, condition, body))
}

/// `( e ) s` behind `while` (C11 6.8.5.1)
#[cycle(reading)]
fn while_behind<L: TokenList>(
    alloc: Global,
    c: &mut Cursor<L>,
    s: &mut Scopes,
    height: u32,
    at: u32,
) -> Result<StmtNode, ParseStop>
    ensures gives { Gives (λ x. (stmt_of x, s.new)) result (while_behind (lower height) s.old at (ahead c.old)) (ahead c.new) }
    ensures onward { Onward c.old c.new }
{
    let ControlledStmt { condition, body } = controlled(alloc, c, s, height)?;
    leave_block(s);
    Ok(StmtNode::while_loop(at, condition, body))
}

/// `while ( e ) ;` behind the body of a do statement, in the block of both, of which `ds` are the scopes in front
fn do_rest<L: TokenList>(
    alloc: Global,
    c: &mut Cursor<L>,
    s: &mut Scopes,
    height: u32,
    at: u32,
    body: InnerStmt,
) -> Result<StmtNode, ParseStop>
    ensures gives { (ds : List Scope) (es : List Scope) → s.old ≡ entered ds → Gives (λ x. (stmt_of x, ds)) result (do_rest (lower height) ds at (stmt_of body, es) (ahead c.old)) (ahead c.new) }
    ensures onward { Onward c.old c.new }
    ensures outer { IfOk result (λ _. outer_of s.new ≡ outer_of s.old) }
{
    take_while(c)?;
    let e = condition(alloc, c, s, height)?;
    take_sign(c, Punctuator::Semicolon)?;
    Ok(StmtNode::do_while(at, body, e))
}

/// `s while ( e ) ;` behind `do` (C11 6.8.5.2)
#[cycle(reading)]
#[tactic(auto, using(crate::proofs::Kept::two_kept))]
fn do_behind<L: TokenList>(
    alloc: Global,
    c: &mut Cursor<L>,
    s: &mut Scopes,
    height: u32,
    at: u32,
) -> Result<StmtNode, ParseStop>
    ensures gives { Gives (λ x. (stmt_of x, s.new)) result (do_behind (lower height) s.old at (ahead c.old)) (ahead c.new) }
    ensures onward { Onward c.old c.new }
{
    enter_block(s)?;
    enter_block(s)?;
    let body = inner_below(alloc, c, s, height)?;
    leave_block(s);
    let statement = do_rest(alloc, c, s, height, at, body)?;
    leave_block(s);
    Ok(statement)
}

/// The body of a for statement, a block within the block of the whole
#[cycle(reading)]
#[tactic(auto, using(crate::proofs::Kept::two_kept))]
fn for_body<L: TokenList>(
    alloc: Global,
    c: &mut Cursor<L>,
    s: &mut Scopes,
    height: u32,
    at: u32,
    start: StartNode,
    condition: Option<FullExpr>,
    step: Option<FullExpr>,
) -> Result<StmtNode, ParseStop>
    ensures gives { (ds : List Scope) → Gives (λ x. (stmt_of x, ds)) result (for_body (lower height) ds at (start_of start) (option_map expr_of condition) (option_map expr_of step, s.old) (ahead c.old)) (ahead c.new) }
    ensures onward { Onward c.old c.new }
    ensures kept { IfOk result (λ _. s.new ≡ s.old) }
{
    enter_block(s)?;
    let body = inner_below(alloc, c, s, height)?;
    leave_block(s);
    Ok(StmtNode::for_loop(at, start, condition, step, body))
}

/// `e ; e ) s` behind the start of a for statement
#[cycle(reading)]
fn for_rest<L: TokenList>(
    alloc: Global,
    c: &mut Cursor<L>,
    s: &mut Scopes,
    height: u32,
    at: u32,
    start: StartNode,
) -> Result<StmtNode, ParseStop>
    ensures gives { (ds : List Scope) → Gives (λ x. (stmt_of x, ds)) result (for_rest (lower height) ds at (start_of start, s.old) (ahead c.old)) (ahead c.new) }
    ensures onward { Onward c.old c.new }
    ensures outer { IfOk result (λ _. outer_of s.new ≡ outer_of s.old) }
{
    let condition = maybe_closed(alloc, c, s, height, Punctuator::Semicolon)?;
    let step = maybe_closed(alloc, c, s, height, Punctuator::RightParen)?;
    for_body(alloc, c, s, height, at, start, condition, step)
}

/// `start e ; e ) s` of a for statement, in the block of the whole, of which `ds` are the scopes in front
#[cycle(reading)]
fn for_inside<L: TokenList>(
    alloc: Global,
    c: &mut Cursor<L>,
    s: &mut Scopes,
    height: u32,
    at: u32,
) -> Result<StmtNode, ParseStop>
    ensures gives { (ds : List Scope) → s.old ≡ entered ds → Gives (λ x. (stmt_of x, ds)) result (bind (for_start (lower height) (entered ds)) (λ start. for_rest (lower height) ds at start) (ahead c.old)) (ahead c.new) }
    ensures onward { Onward c.old c.new }
    ensures outer { IfOk result (λ _. outer_of s.new ≡ outer_of s.old) }
{
    let start = for_start(alloc, c, s, height)?;
    for_rest(alloc, c, s, height, at, start)
}

/// `( start e ; e ) s` behind `for` (C11 6.8.5.3)
#[cycle(reading)]
#[tactic(auto, using(crate::proofs::Kept::two_kept))]
fn for_behind<L: TokenList>(
    alloc: Global,
    c: &mut Cursor<L>,
    s: &mut Scopes,
    height: u32,
    at: u32,
) -> Result<StmtNode, ParseStop>
    ensures gives { Gives (λ x. (stmt_of x, s.new)) result (for_behind (lower height) s.old at (ahead c.old)) (ahead c.new) }
    ensures onward { Onward c.old c.new }
{
    take_sign(c, Punctuator::LeftParen)?;
    enter_block(s)?;
    let statement = for_inside(alloc, c, s, height, at)?;
    leave_block(s);
    Ok(statement)
}

/// A statement as an item of a block (C11 6.8.2).
#[cycle(reading)]
fn doing<L: TokenList>(
    alloc: Global,
    c: &mut Cursor<L>,
    s: &mut Scopes,
    height: u32,
) -> Result<BlockItemNode, ParseStop>
    ensures gives { Gives (λ x. (block_item_of x, s.new)) result (doing (lower height) s.old (ahead c.old)) (ahead c.new) }
    ensures onward { Onward c.old c.new }
    ensures further { IfOk result (λ _. c.old.at < c.new.at) }
    ensures outer { IfOk result (λ _. outer_of s.new ≡ outer_of s.old) }
{
    let statement = statement_below(alloc, c, s, height)?;
    Ok(BlockItemNode::statement(statement))
}

/// An item that begins with a typedef name: a declaration, but for a label (C11 6.2.3).
#[cycle(reading)]
fn typed_item<L: TokenList>(
    alloc: Global,
    c: &mut Cursor<L>,
    s: &mut Scopes,
    height: u32,
) -> Result<BlockItemNode, ParseStop>
    ensures gives { Gives (λ x. (block_item_of x, s.new)) result (typed_item height (lower height) s.old (ahead c.old)) (ahead c.new) }
    ensures onward { Onward c.old c.new }
    ensures further { IfOk result (λ _. c.old.at < c.new.at) }
    ensures outer { IfOk result (λ _. outer_of s.new ≡ outer_of s.old) }
{
    if height < 3 {
        return Err(ParseStop::At(c.position()));
    }
    if at_label(c) {
        return doing(alloc, c, s, height);
    }
    declaring(alloc, c, s, height)
}

/// An item that begins with another token.
#[cycle(reading)]
fn untyped_item<L: TokenList>(
    alloc: Global,
    c: &mut Cursor<L>,
    s: &mut Scopes,
    height: u32,
) -> Result<BlockItemNode, ParseStop>
    ensures gives { Gives (λ x. (block_item_of x, s.new)) result (untyped_item (lower height) s.old (ahead c.old)) (ahead c.new) }
    ensures onward { Onward c.old c.new }
    ensures further { IfOk result (λ _. c.old.at < c.new.at) }
    ensures outer { IfOk result (λ _. outer_of s.new ≡ outer_of s.old) }
{
    if at_declaration(c, s) {
        return declaring(alloc, c, s, height);
    }
    doing(alloc, c, s, height)
}

/// An item of a block (C11 6.8.2).
#[cycle(reading)]
fn item<L: TokenList>(
    alloc: Global,
    c: &mut Cursor<L>,
    s: &mut Scopes,
    height: u32,
) -> Result<BlockItemNode, ParseStop>
    ensures gives { Gives (λ x. (block_item_of x, s.new)) result (item height (lower height) s.old (ahead c.old)) (ahead c.new) }
    ensures onward { Onward c.old c.new }
    ensures further { IfOk result (λ _. c.old.at < c.new.at) }
    ensures outer { IfOk result (λ _. outer_of s.new ≡ outer_of s.old) }
{
    if at_type_name(c, s) {
        return typed_item(alloc, c, s, height);
    }
    untyped_item(alloc, c, s, height)
}

/// The items of a block, up to its `}`.
#[cycle(reading)]
#[tactic(auto, using(c_exprs::proofs::ListLoops::growing_from, c_exprs::proofs::ListLoops::growing_next, c_exprs::proofs::ListLoops::growing_stops, c_exprs::proofs::ListLoops::growing_ends))]
fn items<L: TokenList>(
    alloc: Global,
    c: &mut Cursor<L>,
    s: &mut Scopes,
    height: u32,
) -> Result<Block, ParseStop>
    ensures gives { Gives (λ x. (map block_item_of x, s.new)) result (items height (lower height) s.old (ahead c.old)) (ahead c.new) }
    ensures onward { Onward c.old c.new }
    ensures outer { IfOk result (λ _. outer_of s.new ≡ outer_of s.old) }
{
    let mut is = Block::new(alloc);
    while at_other(c, Punctuator::RightBrace) {
        let i = item(alloc, c, s, height)?;
        is.push(i)?;
    }
    Ok(is)
}

/// `items }`
#[cycle(reading)]
#[tactic(auto, using(crate::proofs::BlockTrees::seen_items))]
fn items_closed<L: TokenList>(
    alloc: Global,
    c: &mut Cursor<L>,
    s: &mut Scopes,
    height: u32,
) -> Result<Block, ParseStop>
    ensures gives { Gives (λ x. block_of x) result (items_closed height (lower height) s.old (ahead c.old)) (ahead c.new) }
    ensures onward { Onward c.old c.new }
    ensures outer { IfOk result (λ _. outer_of s.new ≡ outer_of s.old) }
{
    let is = items(alloc, c, s, height)?;
    take_sign(c, Punctuator::RightBrace)?;
    Ok(is)
}

/// `items }` behind the `{` of a block (C11 6.8.2)
#[cycle(reading)]
#[tactic(auto, using(crate::proofs::Kept::two_kept))]
fn block_behind<L: TokenList>(
    alloc: Global,
    c: &mut Cursor<L>,
    s: &mut Scopes,
    height: u32,
    at: u32,
) -> Result<StmtNode, ParseStop>
    ensures gives { Gives (λ x. (stmt_of x, s.new)) result (block_behind height (lower height) s.old at (ahead c.old)) (ahead c.new) }
    ensures onward { Onward c.old c.new }
{
    enter_block(s)?;
    let is = items_closed(alloc, c, s, height)?;
    leave_block(s);
    Ok(StmtNode::compound(at, is))
}

/// What stands behind the first word or brace of a statement.
#[cycle(reading)]
fn behind_word<L: TokenList>(
    alloc: Global,
    c: &mut Cursor<L>,
    s: &mut Scopes,
    height: u32,
    at: u32,
    word: StatementWord,
) -> Result<StmtNode, ParseStop>
    ensures gives { Gives (λ x. (stmt_of x, s.new)) result (behind_word height (lower height) s.old at word (ahead c.old)) (ahead c.new) }
    ensures onward { Onward c.old c.new }
{
    match word {
        StatementWord::Case => case_behind(alloc, c, s, height, at),
        StatementWord::Default => default_behind(alloc, c, s, height, at),
        StatementWord::Block => block_behind(alloc, c, s, height, at),
        StatementWord::If => if_behind(alloc, c, s, height, at),
        StatementWord::Switch => switch_behind(alloc, c, s, height, at),
        StatementWord::While => while_behind(alloc, c, s, height, at),
        StatementWord::Do => do_behind(alloc, c, s, height, at),
        StatementWord::For => for_behind(alloc, c, s, height, at),
        StatementWord::Goto => goto_behind(c, s, height, at),
        StatementWord::Continue => continue_behind(c, s, at),
        StatementWord::Break => break_behind(c, s, at),
        StatementWord::Return => return_behind(alloc, c, s, height, at),
    }
}

/// A statement that begins with a word or a brace.
#[cycle(reading)]
fn worded<L: TokenList>(
    alloc: Global,
    c: &mut Cursor<L>,
    s: &mut Scopes,
    height: u32,
    at: u32,
) -> Result<StmtNode, ParseStop>
    ensures gives { Gives (λ x. (stmt_of x, s.new)) result (worded height (lower height) s.old at (ahead c.old)) (ahead c.new) }
    ensures onward { Onward c.old c.new }
    ensures further { IfOk result (λ _. c.old.at < c.new.at) }
{
    let word = take_statement_word(c)?;
    behind_word(alloc, c, s, height, at, word)
}

/// A statement that begins with an identifier.
#[cycle(reading)]
fn named<L: TokenList>(
    alloc: Global,
    c: &mut Cursor<L>,
    s: &mut Scopes,
    height: u32,
    at: u32,
) -> Result<StmtNode, ParseStop>
    ensures gives { Gives (λ x. (stmt_of x, s.new)) result (named height (lower height) s.old at (ahead c.old)) (ahead c.new) }
    ensures onward { Onward c.old c.new }
    ensures further { IfOk result (λ _. c.old.at < c.new.at) }
{
    if height < 2 {
        return Err(ParseStop::At(c.position()));
    }
    if at_label(c) {
        return labelled(alloc, c, s, height, at);
    }
    unlabelled(alloc, c, s, height, at)
}

/// A statement that begins with another token.
#[cycle(reading)]
fn unnamed<L: TokenList>(
    alloc: Global,
    c: &mut Cursor<L>,
    s: &mut Scopes,
    height: u32,
    at: u32,
) -> Result<StmtNode, ParseStop>
    ensures gives { Gives (λ x. (stmt_of x, s.new)) result (unnamed height (lower height) s.old at (ahead c.old)) (ahead c.new) }
    ensures onward { Onward c.old c.new }
    ensures further { IfOk result (λ _. c.old.at < c.new.at) }
{
    if at_statement_word(c) {
        return worded(alloc, c, s, height, at);
    }
    expressing(alloc, c, s, height, at)
}

/// A statement, whose first token has that number.
#[cycle(reading)]
fn statement_at<L: TokenList>(
    alloc: Global,
    c: &mut Cursor<L>,
    s: &mut Scopes,
    height: u32,
    at: u32,
) -> Result<StmtNode, ParseStop>
    ensures gives { Gives (λ x. (stmt_of x, s.new)) result (statement_at height (lower height) s.old at (ahead c.old)) (ahead c.new) }
    ensures onward { Onward c.old c.new }
    ensures further { IfOk result (λ _. c.old.at < c.new.at) }
{
    if at_name(c) {
        return named(alloc, c, s, height, at);
    }
    unnamed(alloc, c, s, height, at)
}

/// A statement (C11 6.8), of at most that height.
#[cycle(reading)]
fn statement<L: TokenList>(
    alloc: Global,
    c: &mut Cursor<L>,
    s: &mut Scopes,
    height: u32,
) -> Result<StmtNode, ParseStop>
    ensures gives { Gives (λ x. (stmt_of x, s.new)) result (statement height (lower height) s.old (ahead c.old)) (ahead c.new) }
    ensures onward { Onward c.old c.new }
    ensures further { IfOk result (λ _. c.old.at < c.new.at) }
{
    if height < 1 {
        return Err(ParseStop::At(c.position()));
    }
    let at = c.position();
    statement_at(alloc, c, s, height, at)
}

/// The body of a function, in the scope of its parameters (C11 6.9.1).
fn body<L: TokenList>(
    alloc: Global,
    c: &mut Cursor<L>,
    s: &mut Scopes,
    height: u32,
) -> Result<Block, ParseStop>
    ensures gives { Gives (λ x. block_of x) result (body height (lower height) s.old (ahead c.old)) (ahead c.new) }
    ensures onward { Onward c.old c.new }
    ensures further { IfOk result (λ _. c.old.at < c.new.at) }
    ensures outer { IfOk result (λ _. outer_of s.new ≡ outer_of s.old) }
{
    if height < 1 {
        return Err(ParseStop::At(c.position()));
    }
    take_sign(c, Punctuator::LeftBrace)?;
    items_closed(alloc, c, s, height)
}

/// The body of a function, lower than that height.
#[tactic(auto, using(crate::proofs::Lower::no_body, crate::proofs::Lower::lower_body))]
pub(crate) fn body_below<L: TokenList>(
    alloc: Global,
    c: &mut Cursor<L>,
    s: &mut Scopes,
    height: u32,
) -> Result<Block, ParseStop>
    ensures gives { Gives (λ x. block_of x) result ((lower height).body s.old (ahead c.old)) (ahead c.new) }
    ensures onward { Onward c.old c.new }
    ensures further { IfOk result (λ _. c.old.at < c.new.at) }
    ensures outer { IfOk result (λ _. outer_of s.new ≡ outer_of s.old) }
{
    if height < 1 {
        return Err(ParseStop::At(c.position()));
    }
    body(alloc, c, s, height - 1)
}
