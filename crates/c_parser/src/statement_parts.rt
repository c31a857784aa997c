ghost use Rattle.std.specs.Prelude.{◌≡◌, ◌<◌, IfOk};
ghost use Rattle.std.specs.Option.{option_map};
ghost use Rattle.c_tree.specs.View.{expr_of};
ghost use Rattle.c_tree.specs.UnitView.{start_of, stmt_of, block_item_of};
ghost use Rattle.c_tree.specs.Units as plain;
ghost use Rattle.c_cursor.specs.Lexemes.{ahead};
ghost use Rattle.c_cursor.specs.Lexemes.{Onward};
ghost use Rattle.c_cursor.specs.Given.{Gives};
ghost use Rattle.c_exprs.specs.DeclaratorReading.{outer_of};
ghost use Rattle.c_parser.specs.StatementReading.{maybe_expr, maybe_closed, condition, for_start, goto_behind, jump_behind, return_behind, declaring, expressing, mistaken, unlabelled};
ghost use Rattle.c_parser.specs.UnitReading.{lower};

use crate::below::expr_below;
use crate::declarations::declaration_below;
use crate::nexts::{at_declaration, at_type_name};
use c_cursor::{Cursor, ParseStop, at_sign, take_name, take_sign};
use c_lexer::TokenList;
use c_nodes::{BlockItemNode, FullExpr, StartNode, StmtNode};
use c_tree::Level;
use cil_base::Punctuator;
use std::alloc::Global;
use typedef_scopes::Scopes;

/// An expression, or none before that punctuator.
fn maybe_expr<L: TokenList>(
    alloc: Global,
    c: &mut Cursor<L>,
    s: &mut Scopes,
    height: u32,
    end: Punctuator,
) -> Result<Option<FullExpr>, ParseStop>
    ensures gives { Gives (λ x. (option_map expr_of x, s.new)) result (maybe_expr (lower height) end s.old (ahead c.old)) (ahead c.new) }
    ensures onward { Onward c.old c.new }
    ensures outer { IfOk result (λ _. outer_of s.new ≡ outer_of s.old) }
{
    if at_sign(c, end) {
        return Ok(None);
    }
    Ok(Some(expr_below(alloc, c, s, height, Level::Comma)?))
}

/// An expression or none, and that punctuator.
pub(crate) fn maybe_closed<L: TokenList>(
    alloc: Global,
    c: &mut Cursor<L>,
    s: &mut Scopes,
    height: u32,
    end: Punctuator,
) -> Result<Option<FullExpr>, ParseStop>
    ensures gives { Gives (λ x. (option_map expr_of x, s.new)) result (maybe_closed (lower height) end s.old (ahead c.old)) (ahead c.new) }
    ensures onward { Onward c.old c.new }
    ensures further { IfOk result (λ _. c.old.at < c.new.at) }
    ensures outer { IfOk result (λ _. outer_of s.new ≡ outer_of s.old) }
{
    let e = maybe_expr(alloc, c, s, height, end)?;
    take_sign(c, end)?;
    Ok(e)
}

/// `( e )`
pub(crate) fn condition<L: TokenList>(
    alloc: Global,
    c: &mut Cursor<L>,
    s: &mut Scopes,
    height: u32,
) -> Result<FullExpr, ParseStop>
    ensures gives { Gives (λ x. (expr_of x, s.new)) result (condition (lower height) s.old (ahead c.old)) (ahead c.new) }
    ensures onward { Onward c.old c.new }
    ensures outer { IfOk result (λ _. outer_of s.new ≡ outer_of s.old) }
{
    take_sign(c, Punctuator::LeftParen)?;
    let e = expr_below(alloc, c, s, height, Level::Comma)?;
    take_sign(c, Punctuator::RightParen)?;
    Ok(e)
}

/// What stands before the first semicolon of a for statement, with it (C11 6.8.5).
pub(crate) fn for_start<L: TokenList>(
    alloc: Global,
    c: &mut Cursor<L>,
    s: &mut Scopes,
    height: u32,
) -> Result<StartNode, ParseStop>
    ensures gives { Gives (λ x. (start_of x, s.new)) result (for_start (lower height) s.old (ahead c.old)) (ahead c.new) }
    ensures onward { Onward c.old c.new }
    ensures outer { IfOk result (λ _. outer_of s.new ≡ outer_of s.old) }
{
    if at_declaration(c, s) {
        let declaration = declaration_below(alloc, c, s, height)?;
        return Ok(StartNode::declaration(declaration));
    }
    let e = maybe_closed(alloc, c, s, height, Punctuator::Semicolon)?;
    Ok(StartNode::expr(e))
}

/// `name ;` behind `goto` (C11 6.8.6.1)
pub(crate) fn goto_behind<L: TokenList>(
    c: &mut Cursor<L>,
    s: &Scopes,
    height: u32,
    at: u32,
) -> Result<StmtNode, ParseStop>
    ensures gives { Gives (λ x. (stmt_of x, s.now)) result (goto_behind height s.now at (ahead c.old)) (ahead c.new) }
    ensures onward { Onward c.old c.new }
{
    if height < 2 {
        return Err(ParseStop::At(c.position()));
    }
    let label = take_name(c)?;
    take_sign(c, Punctuator::Semicolon)?;
    Ok(StmtNode::goto(at, label))
}

/// `;` behind `continue` (C11 6.8.6.2)
pub(crate) fn continue_behind<L: TokenList>(
    c: &mut Cursor<L>,
    s: &Scopes,
    at: u32,
) -> Result<StmtNode, ParseStop>
    ensures gives { Gives (λ x. (stmt_of x, s.now)) result (jump_behind (plain.Continue at) s.now (ahead c.old)) (ahead c.new) }
    ensures onward { Onward c.old c.new }
{
    take_sign(c, Punctuator::Semicolon)?;
    Ok(StmtNode::continue_at(at))
}

/// `;` behind `break` (C11 6.8.6.3)
pub(crate) fn break_behind<L: TokenList>(
    c: &mut Cursor<L>,
    s: &Scopes,
    at: u32,
) -> Result<StmtNode, ParseStop>
    ensures gives { Gives (λ x. (stmt_of x, s.now)) result (jump_behind (plain.Break at) s.now (ahead c.old)) (ahead c.new) }
    ensures onward { Onward c.old c.new }
{
    take_sign(c, Punctuator::Semicolon)?;
    Ok(StmtNode::break_at(at))
}

/// `e ;` or `;` behind `return` (C11 6.8.6.4)
pub(crate) fn return_behind<L: TokenList>(
    alloc: Global,
    c: &mut Cursor<L>,
    s: &mut Scopes,
    height: u32,
    at: u32,
) -> Result<StmtNode, ParseStop>
    ensures gives { Gives (λ x. (stmt_of x, s.new)) result (return_behind (lower height) s.old at (ahead c.old)) (ahead c.new) }
    ensures onward { Onward c.old c.new }
{
    let e = maybe_closed(alloc, c, s, height, Punctuator::Semicolon)?;
    Ok(StmtNode::return_of(at, e))
}

/// A declaration as an item of a block (C11 6.8.2).
pub(crate) fn declaring<L: TokenList>(
    alloc: Global,
    c: &mut Cursor<L>,
    s: &mut Scopes,
    height: u32,
) -> Result<BlockItemNode, ParseStop>
    ensures gives { Gives (λ x. (block_item_of x, s.new)) result (declaring (lower height) s.old (ahead c.old)) (ahead c.new) }
    ensures onward { Onward c.old c.new }
    ensures further { IfOk result (λ _. c.old.at < c.new.at) }
    ensures outer { IfOk result (λ _. outer_of s.new ≡ outer_of s.old) }
{
    let declaration = declaration_below(alloc, c, s, height)?;
    Ok(BlockItemNode::declaration(declaration))
}

/// `e ;` and `;` (C11 6.8.3)
pub(crate) fn expressing<L: TokenList>(
    alloc: Global,
    c: &mut Cursor<L>,
    s: &mut Scopes,
    height: u32,
    at: u32,
) -> Result<StmtNode, ParseStop>
    ensures gives { Gives (λ x. (stmt_of x, s.new)) result (expressing (lower height) s.old at (ahead c.old)) (ahead c.new) }
    ensures onward { Onward c.old c.new }
    ensures further { IfOk result (λ _. c.old.at < c.new.at) }
{
    let e = maybe_closed(alloc, c, s, height, Punctuator::Semicolon)?;
    Ok(StmtNode::expr(at, e))
}

/// A typedef name that is no label, where a statement alone can stand: nothing can follow it.
fn mistaken<L: TokenList>(c: &mut Cursor<L>, s: &Scopes) -> Result<StmtNode, ParseStop>
    ensures gives { Gives (λ x. (stmt_of x, s.now)) result (mistaken (ahead c.old)) (ahead c.new) }
    ensures onward { Onward c.old c.new }
    ensures further { IfOk result (λ _. c.old.at < c.new.at) }
{
    take_name(c)?;
    Err(ParseStop::At(c.position()))
}

/// A statement that begins with an identifier, which is no label.
pub(crate) fn unlabelled<L: TokenList>(
    alloc: Global,
    c: &mut Cursor<L>,
    s: &mut Scopes,
    height: u32,
    at: u32,
) -> Result<StmtNode, ParseStop>
    ensures gives { Gives (λ x. (stmt_of x, s.new)) result (unlabelled (lower height) s.old at (ahead c.old)) (ahead c.new) }
    ensures onward { Onward c.old c.new }
    ensures further { IfOk result (λ _. c.old.at < c.new.at) }
{
    if at_type_name(c, s) {
        return mistaken(c, s);
    }
    expressing(alloc, c, s, height, at)
}
