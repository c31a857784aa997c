ghost use Rattle.std.specs.Prelude.{◌≡◌};
ghost use Rattle.c_tree.specs.View.{expr_of};
ghost use Rattle.c_cursor.specs.Classes.{fitting};
ghost use Rattle.c_exprs.specs.Classes.{joint_level, joint_left, joint_right, operator_level, operator_left, operator_sign, operator_kind, operator_fits};

use crate::words::{Joint, Operator};
use c_nodes::ExprNode;
use c_tree::{Level, LogicalOp, StepOp, binary_level, is_within, logical_level, rank, tighter};
use cil_base::{BinOp, Punctuator, TokenKind};

fn joint_level(joint: Joint) -> Level
    ensures { result ≡ joint_level joint }
{
    match joint {
        Joint::Arithmetic(op) => binary_level(op),
        Joint::Logical(op) => logical_level(op),
        Joint::Assign(_) => Level::Assignment,
        Joint::Comma => Level::Comma,
    }
}

/// The level of the left operand.
fn joint_left(joint: Joint) -> Level
    ensures { result ≡ joint_left joint }
{
    match joint {
        Joint::Arithmetic(op) => binary_level(op),
        Joint::Logical(op) => logical_level(op),
        Joint::Assign(_) => Level::Unary,
        Joint::Comma => Level::Comma,
    }
}

/// The level of the right operand.
pub(crate) fn joint_right(joint: Joint) -> Level
    ensures { result ≡ joint_right joint }
{
    match joint {
        Joint::Arithmetic(op) => tighter(binary_level(op)),
        Joint::Logical(op) => tighter(logical_level(op)),
        Joint::Assign(_) => Level::Assignment,
        Joint::Comma => Level::Assignment,
    }
}

pub(crate) fn operator_level(op: Operator) -> Level
    ensures { result ≡ operator_level op }
{
    match op {
        Operator::Index => Level::Postfix,
        Operator::Call => Level::Postfix,
        Operator::Member => Level::Postfix,
        Operator::Arrow => Level::Postfix,
        Operator::Step(_) => Level::Postfix,
        Operator::Conditional => Level::Conditional,
        Operator::Join(joint) => joint_level(joint),
    }
}

/// The level of the operand before it.
fn operator_left(op: Operator) -> Level
    ensures { result ≡ operator_left op }
{
    match op {
        Operator::Index => Level::Postfix,
        Operator::Call => Level::Postfix,
        Operator::Member => Level::Postfix,
        Operator::Arrow => Level::Postfix,
        Operator::Step(_) => Level::Postfix,
        Operator::Conditional => Level::LogicalOr,
        Operator::Join(joint) => joint_left(joint),
    }
}

pub(crate) fn operator_sign(p: Punctuator) -> Option<Operator>
    ensures { result ≡ operator_sign p }
{
    match p {
        Punctuator::LeftBracket => Some(Operator::Index),
        Punctuator::LeftParen => Some(Operator::Call),
        Punctuator::Dot => Some(Operator::Member),
        Punctuator::Arrow => Some(Operator::Arrow),
        Punctuator::PlusPlus => Some(Operator::Step(StepOp::Increment)),
        Punctuator::MinusMinus => Some(Operator::Step(StepOp::Decrement)),
        Punctuator::Star => Some(Operator::Join(Joint::Arithmetic(BinOp::Mul))),
        Punctuator::Slash => Some(Operator::Join(Joint::Arithmetic(BinOp::Div))),
        Punctuator::Percent => Some(Operator::Join(Joint::Arithmetic(BinOp::Rem))),
        Punctuator::Plus => Some(Operator::Join(Joint::Arithmetic(BinOp::Add))),
        Punctuator::Minus => Some(Operator::Join(Joint::Arithmetic(BinOp::Sub))),
        Punctuator::LeftShift => Some(Operator::Join(Joint::Arithmetic(BinOp::Shl))),
        Punctuator::RightShift => Some(Operator::Join(Joint::Arithmetic(BinOp::Shr))),
        Punctuator::Less => Some(Operator::Join(Joint::Arithmetic(BinOp::Lt))),
        Punctuator::Greater => Some(Operator::Join(Joint::Arithmetic(BinOp::Gt))),
        Punctuator::LessEqual => Some(Operator::Join(Joint::Arithmetic(BinOp::Le))),
        Punctuator::GreaterEqual => Some(Operator::Join(Joint::Arithmetic(BinOp::Ge))),
        Punctuator::EqualEqual => Some(Operator::Join(Joint::Arithmetic(BinOp::Eq))),
        Punctuator::ExclamationEqual => Some(Operator::Join(Joint::Arithmetic(BinOp::Ne))),
        Punctuator::Ampersand => Some(Operator::Join(Joint::Arithmetic(BinOp::And))),
        Punctuator::Caret => Some(Operator::Join(Joint::Arithmetic(BinOp::Xor))),
        Punctuator::Bar => Some(Operator::Join(Joint::Arithmetic(BinOp::Or))),
        Punctuator::AmpersandAmpersand => Some(Operator::Join(Joint::Logical(LogicalOp::And))),
        Punctuator::BarBar => Some(Operator::Join(Joint::Logical(LogicalOp::Or))),
        Punctuator::Question => Some(Operator::Conditional),
        Punctuator::Equal => Some(Operator::Join(Joint::Assign(None))),
        Punctuator::StarEqual => Some(Operator::Join(Joint::Assign(Some(BinOp::Mul)))),
        Punctuator::SlashEqual => Some(Operator::Join(Joint::Assign(Some(BinOp::Div)))),
        Punctuator::PercentEqual => Some(Operator::Join(Joint::Assign(Some(BinOp::Rem)))),
        Punctuator::PlusEqual => Some(Operator::Join(Joint::Assign(Some(BinOp::Add)))),
        Punctuator::MinusEqual => Some(Operator::Join(Joint::Assign(Some(BinOp::Sub)))),
        Punctuator::LeftShiftEqual => Some(Operator::Join(Joint::Assign(Some(BinOp::Shl)))),
        Punctuator::RightShiftEqual => Some(Operator::Join(Joint::Assign(Some(BinOp::Shr)))),
        Punctuator::AmpersandEqual => Some(Operator::Join(Joint::Assign(Some(BinOp::And)))),
        Punctuator::CaretEqual => Some(Operator::Join(Joint::Assign(Some(BinOp::Xor)))),
        Punctuator::BarEqual => Some(Operator::Join(Joint::Assign(Some(BinOp::Or)))),
        Punctuator::Comma => Some(Operator::Join(Joint::Comma)),
        _ => None,
    }
}

fn operator_kind(kind: TokenKind) -> Option<Operator>
    ensures { result ≡ operator_kind kind }
{
    match kind {
        TokenKind::Punctuator(p) => operator_sign(p),
        _ => None,
    }
}

/// Whether an operator can stand behind an operand, whose height is told, in an expression of that level and height.
fn operator_fits(height: u32, level: Level, e: &ExprNode, op: Operator) -> bool
    ensures is { result ≡ operator_fits height level (expr_of e.now) op }
{
    rank(operator_level(op)) <= rank(level)
        && is_within(operator_left(op), e.tree())
        && e.height() < height
}

/// The operator that a token of that kind is behind an operand, whose height is told, in an expression of that level and height (C11 6.5.2,
/// 6.5.5 to 6.5.17).
pub(crate) fn operator_for(
    height: u32,
    level: Level,
    e: &ExprNode,
    kind: TokenKind,
) -> Option<Operator>
    ensures is { result ≡ fitting (operator_fits height level (expr_of e.now)) (operator_kind kind) }
{
    match operator_kind(kind) {
        Some(op) if operator_fits(height, level, e, op) => Some(op),
        _ => None,
    }
}
