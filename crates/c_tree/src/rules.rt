ghost use Rattle.std.specs.Prelude.{◌≡◌};
ghost use Rattle.c_tree.specs.View.{expr_of, declarator_of};
ghost use Rattle.c_tree.specs.Levels.{rank as rank_of, tighter as tighter_of, binary_level as level_of_binary, logical_level as level_of_logical, level_of as level_of_tree, is_within as stands_within, is_absent as is_left_out, declares as has_name, is_underived as is_plain_name, has_own_names as lists_own_names};
ghost use Rattle.c_tree.specs.Told.{told};

use crate::expression::{Declarator, Expr};
use crate::level::Level;
use crate::words::LogicalOp;
use cil_base::BinOp;

/// The place of a level among the levels, the tightest first (C11 6.5.1 to 6.5.17).
pub fn rank(level: Level) -> u8
    ensures { result ≡ rank_of level }
{
    match level {
        Level::Primary => 0,
        Level::Postfix => 1,
        Level::Unary => 2,
        Level::Cast => 3,
        Level::Multiplicative => 4,
        Level::Additive => 5,
        Level::Shift => 6,
        Level::Relational => 7,
        Level::Equality => 8,
        Level::BitAnd => 9,
        Level::ExclusiveOr => 10,
        Level::InclusiveOr => 11,
        Level::LogicalAnd => 12,
        Level::LogicalOr => 13,
        Level::Conditional => 14,
        Level::Assignment => 15,
        Level::Comma => 16,
    }
}

/// The level next to it that binds tighter; the tightest has none and stays.
pub fn tighter(level: Level) -> Level
    ensures { result ≡ tighter_of level }
{
    match level {
        Level::Primary | Level::Postfix => Level::Primary,
        Level::Unary => Level::Postfix,
        Level::Cast => Level::Unary,
        Level::Multiplicative => Level::Cast,
        Level::Additive => Level::Multiplicative,
        Level::Shift => Level::Additive,
        Level::Relational => Level::Shift,
        Level::Equality => Level::Relational,
        Level::BitAnd => Level::Equality,
        Level::ExclusiveOr => Level::BitAnd,
        Level::InclusiveOr => Level::ExclusiveOr,
        Level::LogicalAnd => Level::InclusiveOr,
        Level::LogicalOr => Level::LogicalAnd,
        Level::Conditional => Level::LogicalOr,
        Level::Assignment => Level::Conditional,
        Level::Comma => Level::Assignment,
    }
}

/// The level of a binary operator (C11 6.5.5 to 6.5.12).
pub fn binary_level(op: BinOp) -> Level
    ensures { result ≡ level_of_binary op }
{
    match op {
        BinOp::Mul | BinOp::Div | BinOp::Rem => Level::Multiplicative,
        BinOp::Add | BinOp::Sub => Level::Additive,
        BinOp::Shl | BinOp::Shr => Level::Shift,
        BinOp::Lt | BinOp::Gt | BinOp::Le | BinOp::Ge => Level::Relational,
        BinOp::Eq | BinOp::Ne => Level::Equality,
        BinOp::And => Level::BitAnd,
        BinOp::Xor => Level::ExclusiveOr,
        BinOp::Or => Level::InclusiveOr,
    }
}

/// The level of a logical operator (C11 6.5.13, 6.5.14).
pub fn logical_level(op: LogicalOp) -> Level
    ensures { result ≡ level_of_logical op }
{
    match op {
        LogicalOp::And => Level::LogicalAnd,
        LogicalOp::Or => Level::LogicalOr,
    }
}

/// The level of the production that makes the node.
pub fn level_of(e: &Expr) -> Level
    ensures { result ≡ level_of_tree (expr_of e.now) }
{
    match e {
        Expr::Name(..)
        | Expr::Integer(..)
        | Expr::Character(..)
        | Expr::Literals(..)
        | Expr::Parentheses(..) => Level::Primary,
        Expr::Index(..)
        | Expr::Call(..)
        | Expr::Member(..)
        | Expr::Arrow(..)
        | Expr::Postfix(..)
        | Expr::CompoundLiteral(..) => Level::Postfix,
        Expr::Prefix(..)
        | Expr::Unary(..)
        | Expr::SizeofExpr(..)
        | Expr::SizeofType(..)
        | Expr::AlignofType(..) => Level::Unary,
        Expr::Cast(..) => Level::Cast,
        Expr::Binary(_, op, _, _) => binary_level(*op),
        Expr::Logical(_, op, _, _) => logical_level(*op),
        Expr::Conditional(..) => Level::Conditional,
        Expr::Assign(..) => Level::Assignment,
        Expr::Comma(..) => Level::Comma,
    }
}

/// Whether the expression can stand where one of that level is asked.
#[tactic(auto, using(crate::proofs::ToldLemmas::told_is))]
pub fn is_within(level: Level, e: &Expr) -> bool
    ensures is { result ≡ stands_within level (expr_of e.now) }
    ensures told { result ≡ told (stands_within level (expr_of e.now)) }
{
    rank(level_of(e)) <= rank(level)
}

/// Whether the declarator has no token at all.
pub fn is_absent(d: &Declarator) -> bool
    ensures { result ≡ is_left_out (declarator_of d.now) }
{
    match d {
        Declarator::Absent(_) => true,
        Declarator::Name(..)
        | Declarator::Parentheses(..)
        | Declarator::Pointer(..)
        | Declarator::Array(..)
        | Declarator::Function(..)
        | Declarator::Identifiers(..) => false,
    }
}

/// Whether the declarator declares an identifier (C11 6.7.6).
#[tactic(auto, using(crate::proofs::ToldLemmas::told_is))]
pub fn declares(d: &Declarator) -> bool
    ensures is { result ≡ has_name (declarator_of d.now) }
    ensures told { result ≡ told (has_name (declarator_of d.now)) }
{
    match d {
        Declarator::Name(..) => true,
        Declarator::Absent(_) => false,
        Declarator::Parentheses(_, inner) => declares(inner),
        Declarator::Pointer(_, _, inner) => declares(inner),
        Declarator::Array(_, inner, _) => declares(inner),
        Declarator::Function(_, inner, _, _) => declares(inner),
        Declarator::Identifiers(_, inner, _) => declares(inner),
    }
}

/// Whether the declarator is the identifier alone, in parentheses or not.
pub fn is_underived(d: &Declarator) -> bool
    ensures { result ≡ is_plain_name (declarator_of d.now) }
{
    match d {
        Declarator::Name(..) => true,
        Declarator::Parentheses(_, inner) => is_underived(inner),
        Declarator::Absent(_)
        | Declarator::Pointer(..)
        | Declarator::Array(..)
        | Declarator::Function(..)
        | Declarator::Identifiers(..) => false,
    }
}

/// Whether the first derivation of the identifier is a function with an identifier list that is not empty.
pub fn has_own_names(d: &Declarator) -> bool
    ensures { result ≡ lists_own_names (declarator_of d.now) }
{
    match d {
        Declarator::Name(..) | Declarator::Absent(_) => false,
        Declarator::Parentheses(_, inner) => has_own_names(inner),
        Declarator::Pointer(_, _, inner) => has_own_names(inner),
        Declarator::Array(_, inner, _) => has_own_names(inner),
        Declarator::Function(_, inner, _, _) => has_own_names(inner),
        Declarator::Identifiers(_, inner, names) => {
            (is_underived(inner) && !names.is_empty()) || has_own_names(inner)
        }
    }
}
