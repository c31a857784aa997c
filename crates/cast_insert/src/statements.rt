use crate::body::{Around, Body, may_break, may_continue};
use crate::declarations::declaration;
use crate::labels::not_reserved;
use c_places::expr_at;
use c_tree::{BlockItem, Expr, ForStart, Stmt};
use cast_exprs::expr;
use cast_rules::{Operand, scalar_test, switch_value, value};
use cil_base::{Code, IntKind};
use decl_types::Position;
use typed_parts::{WalkStop, Walker, constant_value, convert, impossible, placed, violated};
use typed_tree::{
    TypedExp, TypedStmt, break_jump, case_label, continue_jump, default_label, do_loop, evaluation,
    for_loop, goto, return_jump, switch, while_loop,
};
use unit_types::Class;

/// The value of an expression whose value is not used, or a void expression (C11 6.8.3p2).
fn discarded(w: &mut Walker<'_>, e: &Expr) -> Result<TypedExp, WalkStop> {
    let x = expr(w, e)?;
    placed(expr_at(e), value(w.alloc, Operand::plain(x), &mut w.types))
}

/// The value of such an expression, where there is one.
fn discarded_if(w: &mut Walker<'_>, e: &Option<Expr>) -> Result<Option<TypedExp>, WalkStop> {
    match e {
        Some(e) => Ok(Some(discarded(w, e)?)),
        None => Ok(None),
    }
}

/// The controlling expression of an `if` or a loop (C11 6.8.4.1p1, 6.8.5p2).
fn test(w: &mut Walker<'_>, e: &Expr) -> Result<TypedExp, WalkStop> {
    let x = expr(w, e)?;
    placed(
        expr_at(e),
        scalar_test(w.alloc, Operand::plain(x), &mut w.types),
    )
}

/// The condition of a `for`, where there is one.
fn test_if(w: &mut Walker<'_>, e: &Option<Expr>) -> Result<Option<TypedExp>, WalkStop> {
    match e {
        Some(e) => Ok(Some(test(w, e)?)),
        None => Ok(None),
    }
}

/// The promoted controlling expression of a `switch` (C11 6.8.4.2p1, p5).
fn switched(w: &mut Walker<'_>, e: &Expr) -> Result<TypedExp, WalkStop> {
    let x = expr(w, e)?;
    placed(
        expr_at(e),
        switch_value(w.alloc, Operand::plain(x), &mut w.types),
    )
}

/// The kind of a promoted value.
fn kind_of(w: &Walker<'_>, e: &TypedExp) -> Result<IntKind, WalkStop> {
    match w.types.class(e.ty().of) {
        Class::Int(kind) => Ok(kind),
        Class::Void | Class::Ptr(_) | Class::Array(..) | Class::Func { .. } | Class::Agg(..) => {
            Err(impossible())
        }
    }
}

/// Whether the function returns nothing.
fn is_void(w: &Walker<'_>, f: &Body) -> bool {
    match w.types.class(f.result) {
        Class::Void => true,
        Class::Int(_) | Class::Ptr(_) | Class::Array(..) | Class::Func { .. } | Class::Agg(..) => {
            false
        }
    }
}

/// The value that a function returns, converted as by assignment (C11 6.8.6.4); the token of the `return` is given.
fn returned_value(w: &mut Walker<'_>, f: &Body, at: u32, e: &Expr) -> Result<TypedExp, WalkStop> {
    let x = expr(w, e)?;
    if is_void(w, f) {
        return Err(violated(at, Code::Return));
    }
    convert(w, f.result, e, x)
}

/// What stands behind a `return`, whose token is given (C11 6.8.6.4p1).
fn returned(
    w: &mut Walker<'_>,
    f: &Body,
    at: u32,
    e: &Option<Expr>,
) -> Result<Option<TypedExp>, WalkStop> {
    match e {
        Some(e) => Ok(Some(returned_value(w, f, at, e)?)),
        None => {
            if is_void(w, f) {
                Ok(None)
            } else {
                Err(violated(at, Code::Return))
            }
        }
    }
}

/// The kind and the value of a case label (C11 6.8.4.2p3), whose token is given.
fn case_of(
    w: &mut Walker<'_>,
    f: &mut Body,
    at: u32,
    e: &Expr,
) -> Result<(IntKind, i128), WalkStop> {
    let x = expr(w, e)?;
    let v = constant_value(w, expr_at(e), &x)?;
    f.case(at, v)
}

/// What stands before the first semicolon of a `for` (C11 6.8.5.3p1).
fn start_of(w: &mut Walker<'_>, s: &ForStart) -> Result<Vec<TypedStmt>, WalkStop> {
    let mut out = Vec::new(w.alloc);
    match s {
        ForStart::Expr(None) => {}
        ForStart::Expr(Some(e)) => {
            let x = discarded(w, e)?;
            out.push(evaluation(x))?;
        }
        ForStart::Declaration(d) => declaration(w, Position::ForStart, d, &mut out)?,
    }
    Ok(out)
}

/// What stands behind the first semicolon of a `for`.
#[derive(Drop)]
struct Controls {
    condition: Option<TypedExp>,
    step: Option<TypedExp>,
}

/// The condition and the step of a `for`.
fn controls_of(
    w: &mut Walker<'_>,
    condition: &Option<Expr>,
    step: &Option<Expr>,
) -> Result<Controls, WalkStop> {
    let condition = test_if(w, condition)?;
    let step = discarded_if(w, step)?;
    Ok(Controls { condition, step })
}

/// The items of a block (C11 6.8.2), behind others.
#[cycle(statements)]
pub(crate) fn items(
    w: &mut Walker<'_>,
    f: &mut Body,
    around: Around,
    list: &[BlockItem],
    out: &mut Vec<TypedStmt>,
) -> Result<(), WalkStop> {
    for i in list {
        item(w, f, around, i, out)?;
    }
    Ok(())
}

/// An item of a block.
#[cycle(statements)]
fn item(
    w: &mut Walker<'_>,
    f: &mut Body,
    around: Around,
    i: &BlockItem,
    out: &mut Vec<TypedStmt>,
) -> Result<(), WalkStop> {
    match i {
        BlockItem::Declaration(d) => declaration(w, Position::Block, d, out),
        BlockItem::Statement(s) => statement(w, f, around, s, out),
    }
}

/// A substatement of a selection or iteration statement, which is a block (C11 6.8.4p3, 6.8.5p5).
#[cycle(statements)]
fn substatement(
    w: &mut Walker<'_>,
    f: &mut Body,
    around: Around,
    s: &Stmt,
) -> Result<Vec<TypedStmt>, WalkStop> {
    w.declarer.enter()?;
    let mut out = Vec::new(w.alloc);
    statement(w, f, around, s, &mut out)?;
    w.declarer.leave()?;
    Ok(out)
}

/// A compound statement (C11 6.8.2).
#[cycle(statements)]
fn compound(
    w: &mut Walker<'_>,
    f: &mut Body,
    around: Around,
    list: &[BlockItem],
) -> Result<Vec<TypedStmt>, WalkStop> {
    w.declarer.enter()?;
    let mut out = Vec::new(w.alloc);
    items(w, f, around, list, &mut out)?;
    w.declarer.leave()?;
    Ok(out)
}

/// A statement (C11 6.8), behind others. An empty one adds nothing.
#[cycle(statements)]
fn statement(
    w: &mut Walker<'_>,
    f: &mut Body,
    around: Around,
    s: &Stmt,
    out: &mut Vec<TypedStmt>,
) -> Result<(), WalkStop> {
    match s {
        Stmt::Labelled(_, _, inner) | Stmt::Case(_, _, inner) | Stmt::Default(_, inner) => {
            label(w, f, s, out)?;
            statement(w, f, around, inner, out)
        }
        Stmt::Compound(_, list) => {
            let block = compound(w, f, around, list)?;
            out.push(typed_tree::compound(block))?;
            Ok(())
        }
        Stmt::Expr(_, None) => Ok(()),
        Stmt::Expr(_, Some(e)) => {
            let x = discarded(w, e)?;
            out.push(evaluation(x))?;
            Ok(())
        }
        Stmt::If(..) | Stmt::IfElse(..) | Stmt::Switch(..) => selection(w, f, around, s, out),
        Stmt::While(..) | Stmt::Do(..) | Stmt::For(..) => iteration(w, f, s, out),
        Stmt::Goto(..) | Stmt::Continue(_) | Stmt::Break(_) | Stmt::Return(..) => {
            jump(w, f, around, s, out)
        }
    }
}

/// The label of a labelled statement (C11 6.8.1), without its statement.
fn label(
    w: &mut Walker<'_>,
    f: &mut Body,
    s: &Stmt,
    out: &mut Vec<TypedStmt>,
) -> Result<(), WalkStop> {
    match s {
        Stmt::Labelled(at, n, _) => {
            let set = f.labels.set(*at, *n)?;
            not_reserved(w, *at, *n)?;
            out.push(typed_tree::label(set))?;
            Ok(())
        }
        Stmt::Case(at, e, _) => {
            let (kind, v) = case_of(w, f, *at, e)?;
            out.push(case_label(kind, v))?;
            Ok(())
        }
        Stmt::Default(at, _) => {
            f.fall_back(*at)?;
            out.push(default_label())?;
            Ok(())
        }
        _ => Err(impossible()),
    }
}

/// A selection statement, which is a block (C11 6.8.4).
#[cycle(statements)]
fn selection(
    w: &mut Walker<'_>,
    f: &mut Body,
    around: Around,
    s: &Stmt,
    out: &mut Vec<TypedStmt>,
) -> Result<(), WalkStop> {
    w.declarer.enter()?;
    match s {
        Stmt::If(_, e, yes) => {
            let x = test(w, e)?;
            let yes = substatement(w, f, around, yes)?;
            out.push(typed_tree::selection(x, yes, Vec::new(w.alloc)))?;
        }
        Stmt::IfElse(_, e, yes, no) => {
            let x = test(w, e)?;
            let yes = substatement(w, f, around, yes)?;
            let no = substatement(w, f, around, no)?;
            out.push(typed_tree::selection(x, yes, no))?;
        }
        Stmt::Switch(_, e, inner) => {
            let x = switched(w, e)?;
            f.begin_switch(w.alloc, kind_of(w, &x)?)?;
            let inner = substatement(w, f, around.switched(), inner)?;
            f.end_switch();
            out.push(switch(x, inner))?;
        }
        _ => return Err(impossible()),
    }
    w.declarer.leave()?;
    Ok(())
}

/// An iteration statement, which is a block (C11 6.8.5).
#[cycle(statements)]
fn iteration(
    w: &mut Walker<'_>,
    f: &mut Body,
    s: &Stmt,
    out: &mut Vec<TypedStmt>,
) -> Result<(), WalkStop> {
    w.declarer.enter()?;
    match s {
        Stmt::While(_, e, inner) => {
            let x = test(w, e)?;
            let inner = substatement(w, f, Around::Loop, inner)?;
            out.push(while_loop(x, inner))?;
        }
        Stmt::Do(_, inner, e) => {
            let inner = substatement(w, f, Around::Loop, inner)?;
            let x = test(w, e)?;
            out.push(do_loop(inner, x))?;
        }
        Stmt::For(_, s, condition, step, inner) => {
            let start = start_of(w, s)?;
            let c = controls_of(w, condition, step)?;
            let inner = substatement(w, f, Around::Loop, inner)?;
            out.push(for_loop(start, c.condition, c.step, inner))?;
        }
        _ => return Err(impossible()),
    }
    w.declarer.leave()?;
    Ok(())
}

/// A jump statement (C11 6.8.6).
fn jump(
    w: &mut Walker<'_>,
    f: &mut Body,
    around: Around,
    s: &Stmt,
    out: &mut Vec<TypedStmt>,
) -> Result<(), WalkStop> {
    match s {
        Stmt::Goto(at, n) => {
            let to = f.labels.jump(*at, *n)?;
            out.push(goto(to))?;
        }
        Stmt::Continue(at) => {
            may_continue(*at, around)?;
            out.push(continue_jump())?;
        }
        Stmt::Break(at) => {
            may_break(*at, around)?;
            out.push(break_jump())?;
        }
        Stmt::Return(at, e) => {
            let x = returned(w, f, *at, e)?;
            out.push(return_jump(x))?;
        }
        _ => return Err(impossible()),
    }
    Ok(())
}
