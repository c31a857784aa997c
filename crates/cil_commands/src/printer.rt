ghost use Rattle.std.specs.Prelude.{◌≡◌, ◌++◌, [], ◌∷◌, IfOk, OnOk};
ghost use Rattle.cil_base.specs.Operators.{operator_spelling};
ghost use Rattle.cil_meaning.specs.Spaced.{spaced};
ghost use Rattle.cil_meaning.specs.Text.{exp_tokens, Text};
ghost use Rattle.cil_meaning.specs.View.{exp_of};

use cil_base::{BinOp, Memory};
use cil_meaning::Exp;
use itoa::Buffer;
use std::alloc::{AllocError, Global};

/// What stands in a text in front of the expression.
const FRONT: &[u8] = b"int main ( void ) ;\nint main ( void ) {\n  return ";

/// What stands in a text behind the expression.
const BACK: &[u8] = b";\n}\n";

/// The text of the program whose main returns the expression (own). It fails only for want of memory.
pub fn print(alloc: Global, p: &Exp) -> Result<Vec<u8>, Memory>
    ensures { IfOk result (λ text. text.items ≡ Text (exp_of p.now)) }
{
    text_of(alloc, p).map_err(|_| Memory)
}

/// `print`, with the allocator's own error. The room of the whole text is asked for at once, so no bytes are moved.
fn text_of(alloc: Global, p: &Exp) -> Result<Vec<u8>, AllocError>
    ensures { IfOk result (λ text. text.items ≡ Text (exp_of p.now)) }
{
    let room = FRONT
        .len()
        .saturating_add(expression_len(p))
        .saturating_add(BACK.len());
    let mut out = Vec::with_capacity(alloc, room)?;
    out.extend_from_slice(FRONT)?;
    push_expression(&mut out, p)?;
    out.extend_from_slice(BACK)?;
    Ok(out)
}

/// Appends the tokens of an expression, with a blank behind each.
fn push_expression(out: &mut Vec<u8>, e: &Exp) -> Result<(), AllocError>
    ensures { OnOk result (out.new.items ≡ out.old.items ++ spaced (exp_tokens (exp_of e.now))) }
{
    match e {
        Exp::Const(value) => {
            let mut buffer = Buffer::new();
            push_token(out, buffer.format(*value).as_bytes())
        }
        Exp::Bin(op, left, right) => {
            push_token(out, b"(")?;
            push_expression(out, left)?;
            push_token(out, operator_text(*op))?;
            push_expression(out, right)?;
            push_token(out, b")")
        }
    }
}

/// Appends a token and a blank.
fn push_token(out: &mut Vec<u8>, token: &[u8]) -> Result<(), AllocError>
    ensures { OnOk result (out.new.items ≡ out.old.items ++ spaced (token.now ∷ [])) }
{
    out.extend_from_slice(token)?;
    out.extend_from_slice(b" ")
}

/// How many bytes `push_expression` appends, or the greatest number.
fn expression_len(e: &Exp) -> usize {
    match e {
        Exp::Const(value) => {
            let mut buffer = Buffer::new();
            buffer.format(*value).len() + 1
        }
        Exp::Bin(op, left, right) => {
            let operands = expression_len(left).saturating_add(expression_len(right));
            operands
                .saturating_add(operator_text(*op).len())
                .saturating_add(5)
        }
    }
}

/// The spelling of an operator (C11 6.4.6).
fn operator_text(op: BinOp) -> &'static [u8]
    ensures { result.now ≡ operator_spelling op }
{
    match op {
        BinOp::Mul => b"*",
        BinOp::Div => b"/",
        BinOp::Rem => b"%",
        BinOp::Add => b"+",
        BinOp::Sub => b"-",
        BinOp::Shl => b"<<",
        BinOp::Shr => b">>",
        BinOp::Lt => b"<",
        BinOp::Gt => b">",
        BinOp::Le => b"<=",
        BinOp::Ge => b">=",
        BinOp::Eq => b"==",
        BinOp::Ne => b"!=",
        BinOp::And => b"&",
        BinOp::Xor => b"^",
        BinOp::Or => b"|",
    }
}
