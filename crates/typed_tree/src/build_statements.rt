ghost use Rattle.std.specs.Prelude.{max};
ghost use Rattle.std.specs.Option.{option_map};
ghost use Rattle.typed_tree.specs.Statements as tree;
ghost use Rattle.typed_tree.specs.StatementView.{stmts_of, top_stmts, top_maybe, top_maybe_init};
ghost use Rattle.typed_tree.specs.StatementsBuilt.{IsStatement};
ghost use Rattle.typed_tree.specs.Top.{top_of};
ghost use Rattle.typed_tree.specs.View.{typed_of, typed_init_of};

use crate::expressions::TypedExp;
use crate::initialisers::TypedInit;
use crate::statements::TypedStmt;
use cil_base::{IntKind, LabelId, LocalId};

/// An expression statement (C11 6.8.3).
pub fn evaluation(e: TypedExp) -> TypedStmt
    ensures { IsStatement (λ nodes. tree.Expr (typed_of nodes e)) (top_of e) result }
{
    TypedStmt::Expr(e)
}

/// The declaration of an object with automatic storage duration (C11 6.7), with its initialiser where it has one.
pub fn declaration(n: LocalId, init: Option<TypedInit>) -> TypedStmt
    ensures { IsStatement (λ nodes. tree.Declare n.0 (option_map (typed_init_of nodes) init)) (top_maybe_init init) result }
{
    TypedStmt::Declare(n, init)
}

/// A compound statement (C11 6.8.2).
pub fn compound(items: Vec<TypedStmt>) -> TypedStmt
    ensures { IsStatement (λ nodes. tree.Block (stmts_of nodes items.items)) (top_stmts items.items) result }
{
    TypedStmt::Block(items)
}

/// An `if` statement (C11 6.8.4.1); an absent `else` is empty.
pub fn selection(test: TypedExp, holds: Vec<TypedStmt>, fails: Vec<TypedStmt>) -> TypedStmt
    ensures { IsStatement (λ nodes. tree.If (typed_of nodes test) (stmts_of nodes holds.items) (stmts_of nodes fails.items)) (max (top_of test) (max (top_stmts holds.items) (top_stmts fails.items))) result }
{
    TypedStmt::If(test, holds, fails)
}

/// A `switch` statement (C11 6.8.4.2).
pub fn switch(value: TypedExp, body: Vec<TypedStmt>) -> TypedStmt
    ensures { IsStatement (λ nodes. tree.Switch (typed_of nodes value) (stmts_of nodes body.items)) (max (top_of value) (top_stmts body.items)) result }
{
    TypedStmt::Switch(value, body)
}

/// A `while` statement (C11 6.8.5.1).
pub fn while_loop(test: TypedExp, body: Vec<TypedStmt>) -> TypedStmt
    ensures { IsStatement (λ nodes. tree.While (typed_of nodes test) (stmts_of nodes body.items)) (max (top_of test) (top_stmts body.items)) result }
{
    TypedStmt::While(test, body)
}

/// A `do` statement (C11 6.8.5.2).
pub fn do_loop(body: Vec<TypedStmt>, test: TypedExp) -> TypedStmt
    ensures { IsStatement (λ nodes. tree.Do (stmts_of nodes body.items) (typed_of nodes test)) (max (top_of test) (top_stmts body.items)) result }
{
    TypedStmt::Do(body, test)
}

/// A `for` statement (C11 6.8.5.3): what its start does, its condition, its step, its body.
pub fn for_loop(
    start: Vec<TypedStmt>,
    test: Option<TypedExp>,
    step: Option<TypedExp>,
    body: Vec<TypedStmt>,
) -> TypedStmt
    ensures { IsStatement (λ nodes. tree.For (stmts_of nodes start.items) (option_map (typed_of nodes) test) (option_map (typed_of nodes) step) (stmts_of nodes body.items)) (max (max (top_maybe test) (top_maybe step)) (max (top_stmts start.items) (top_stmts body.items))) result }
{
    TypedStmt::For(start, test, step, body)
}

/// A label (C11 6.8.1), by its number.
pub fn label(n: LabelId) -> TypedStmt
    ensures { IsStatement (λ nodes. tree.Label n.0) 0 result }
{
    TypedStmt::Label(n)
}

/// A case label (C11 6.8.1), with the kind of the promoted value of its switch.
pub fn case_label(kind: IntKind, n: i128) -> TypedStmt
    ensures { IsStatement (λ nodes. tree.Case kind n) 0 result }
{
    TypedStmt::Case(kind, n)
}

/// The label `default` (C11 6.8.1).
pub fn default_label() -> TypedStmt
    ensures { IsStatement (λ nodes. tree.Default) 0 result }
{
    TypedStmt::Default
}

/// A jump to a label (C11 6.8.6.1).
pub fn goto(n: LabelId) -> TypedStmt
    ensures { IsStatement (λ nodes. tree.Goto n.0) 0 result }
{
    TypedStmt::Goto(n)
}

/// A `continue` statement (C11 6.8.6.2).
pub fn continue_jump() -> TypedStmt
    ensures { IsStatement (λ nodes. tree.Continue) 0 result }
{
    TypedStmt::Continue
}

/// A `break` statement (C11 6.8.6.3).
pub fn break_jump() -> TypedStmt
    ensures { IsStatement (λ nodes. tree.Break) 0 result }
{
    TypedStmt::Break
}

/// A `return` statement (C11 6.8.6.4), with the value converted to the result type where it has one.
pub fn return_jump(value: Option<TypedExp>) -> TypedStmt
    ensures { IsStatement (λ nodes. tree.Return (option_map (typed_of nodes) value)) (top_maybe value) result }
{
    TypedStmt::Return(value)
}
