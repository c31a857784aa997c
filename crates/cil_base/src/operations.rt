ghost use Rattle.std.specs.Prelude.{◌≡◌, ◌≢◌, ◌*◌, ◌^◌, ◌≤◌, ◌<◌, false, pos, ◌+ℤ◌, ◌-ℤ◌, ◌*ℤ◌, int_div, int_rem, bit_and, bit_or, bit_xor, unsigned_abs, IfSome};
ghost use Rattle.cil_base.specs.Integer.{IsOf};
ghost use Rattle.cil_base.specs.Arithmetic.{arith_of, is_shift, fits, settled, quotient, remainder, shift_count, left_shifted, right_shifted, told, bits_of, bitwise};

use crate::conversion::wrap;
use crate::kinds::IntKind;
use crate::operators::BinOp;

/// The value of `a op b` in arithmetic of a kind (C11 6.5.5 to 6.5.12). A comparison gives 0 or 1. C11 promotes
/// operands of kinds narrower than int first (6.3.1.1p2); at those kinds the same rules are own.
///
/// None exactly where C11 leaves the result undefined: where a signed result does not fit the kind, a
/// divisor is zero, or a quotient does not fit, also for the remainder; where a shift's count is negative
/// or not below the kind's width, or a negative number is shifted to the left. A right shift of a negative
/// number is arithmetic (own).
#[tactic(auto, using(crate::proofs::ArithmeticLaws::arith_value))]
pub fn arith(op: BinOp, kind: IntKind, a: i128, b: i128) -> Option<i128>
    requires left { IsOf kind a }
    requires right { is_shift op ≡ false → IsOf kind b }
    ensures computed { result ≡ arith_of op kind a b }
    ensures value { IfSome result (IsOf kind) }
{
    match op {
        BinOp::Mul => times(kind, a, b),
        BinOp::Div => quotient(kind, a, b),
        BinOp::Rem => remainder(kind, a, b),
        BinOp::Add => settled(kind, plus(a, b)),
        BinOp::Sub => settled(kind, minus(a, b)),
        BinOp::Shl => match shift_count(kind, b) {
            None => None,
            Some(n) => left_shifted(kind, a, n),
        },
        BinOp::Shr => match shift_count(kind, b) {
            None => None,
            Some(n) => Some(right_shifted(a, n)),
        },
        BinOp::Lt => Some(told(a < b)),
        BinOp::Gt => Some(told(b < a)),
        BinOp::Le => Some(told(a <= b)),
        BinOp::Ge => Some(told(b <= a)),
        BinOp::Eq => Some(told(a == b)),
        BinOp::Ne => Some(told(a != b)),
        BinOp::And => Some(and(kind, a, b)),
        BinOp::Xor => Some(xor(kind, a, b)),
        BinOp::Or => Some(or(kind, a, b)),
    }
}

/// What an operation gives whose mathematical result is v (C11 6.2.5p9, 6.5p5).
fn settled(kind: IntKind, v: i128) -> Option<i128>
    ensures { result ≡ settled kind v }
{
    if kind.is_signed() {
        if kind.fits(v) { Some(v) } else { None }
    } else {
        Some(wrap(kind, v))
    }
}

/// The same where the mathematical result is not negative, but may be too large for an i128.
fn settled_wide(kind: IntKind, v: u128) -> Option<i128>
    ensures { result ≡ settled kind (pos v) }
{
    if v < 0x1_0000_0000_0000_0000 {
        settled(kind, v as i128)
    } else {
        settled_large(kind, v)
    }
}

/// The same where no kind has the result.
fn settled_large(kind: IntKind, v: u128) -> Option<i128>
    requires { 2 ^ 64 ≤ v }
    ensures { result ≡ settled kind (pos v) }
{
    if kind.is_signed() {
        None
    } else if kind == IntKind::Bool {
        Some(1)
    } else {
        Some(wrap(kind, (v % 0x1_0000_0000_0000_0000) as i128))
    }
}

/// The product. That of two unsigned values may be too large for an i128.
fn times(kind: IntKind, a: i128, b: i128) -> Option<i128>
    requires left { IsOf kind a }
    requires right { IsOf kind b }
    ensures { result ≡ settled kind (a *ℤ b) }
{
    if kind.is_signed() {
        settled(kind, signed_product(a, b))
    } else {
        settled_wide(kind, unsigned_product(a as u64, b as u64))
    }
}

fn signed_product(a: i128, b: i128) -> i128
    requires left { unsigned_abs a ≤ 2 ^ 63 }
    requires right { unsigned_abs b ≤ 2 ^ 63 }
    ensures { result ≡ a *ℤ b }
{
    a * b
}

fn unsigned_product(a: u64, b: u64) -> u128
    ensures { result ≡ a * b }
{
    a as u128 * b as u128
}

fn plus(a: i128, b: i128) -> i128
    requires left { unsigned_abs a < 2 ^ 64 }
    requires right { unsigned_abs b < 2 ^ 64 }
    ensures { result ≡ a +ℤ b }
{
    a + b
}

fn minus(a: i128, b: i128) -> i128
    requires left { unsigned_abs a < 2 ^ 64 }
    requires right { unsigned_abs b < 2 ^ 64 }
    ensures { result ≡ a -ℤ b }
{
    a - b
}

/// The quotient, truncated toward zero (C11 6.5.5p6).
fn quotient(kind: IntKind, a: i128, b: i128) -> Option<i128>
    requires left { unsigned_abs a < 2 ^ 64 }
    requires right { unsigned_abs b < 2 ^ 64 }
    ensures { result ≡ quotient kind a b }
{
    if b == 0 {
        None
    } else {
        settled(kind, divided(a, b))
    }
}

fn divided(a: i128, b: i128) -> i128
    requires left { unsigned_abs a < 2 ^ 64 }
    requires right { unsigned_abs b < 2 ^ 64 }
    requires divisor { b ≢ pos 0 }
    ensures { result ≡ int_div a b }
{
    a / b
}

/// The remainder, which is undefined where the quotient is (C11 6.5.5p6).
fn remainder(kind: IntKind, a: i128, b: i128) -> Option<i128>
    requires left { unsigned_abs a < 2 ^ 64 }
    requires right { unsigned_abs b < 2 ^ 64 }
    ensures { result ≡ remainder kind a b }
{
    if b == 0 {
        return None;
    }
    match settled(kind, divided(a, b)) {
        None => None,
        Some(_) => Some(rest(a, b)),
    }
}

fn rest(a: i128, b: i128) -> i128
    requires left { unsigned_abs a < 2 ^ 64 }
    requires right { unsigned_abs b < 2 ^ 64 }
    requires divisor { b ≢ pos 0 }
    ensures { result ≡ int_rem a b }
{
    a % b
}

/// The count of a shift, None where it is negative or not below the width (C11 6.5.7p3).
fn shift_count(kind: IntKind, b: i128) -> Option<u32>
    ensures { result ≡ shift_count kind b }
{
    let width = 8 * kind.size();
    if b < 0 || width as i128 <= b {
        None
    } else {
        Some(b as u32)
    }
}

/// The left shift of a value, None where it is negative or a signed result does not fit (C11 6.5.7p4).
fn left_shifted(kind: IntKind, a: i128, n: u32) -> Option<i128>
    requires value { unsigned_abs a < 2 ^ 64 }
    requires count { n < 64 }
    ensures { result ≡ left_shifted kind a n }
{
    if a < 0 {
        None
    } else {
        settled_wide(kind, scaled(a as u64, n))
    }
}

fn scaled(a: u64, n: u32) -> u128
    requires { n < 64 }
    ensures { result ≡ a * 2 ^ n }
{
    (a as u128) << n
}

/// The right shift of a value, arithmetic for a negative one (C11 6.5.7p5).
fn right_shifted(a: i128, n: u32) -> i128
    requires { n < 64 }
    ensures { result ≡ right_shifted a n }
{
    a >> n
}

/// 1 where a relation holds, else 0 (C11 6.5.8p6).
fn told(holds: bool) -> i128
    ensures { result ≡ told holds }
{
    if holds { 1 } else { 0 }
}

/// The bits of a value in two's complement (C11 6.2.6.2p2).
fn bits_of(kind: IntKind, v: i128) -> u64
    ensures { result ≡ bits_of kind v }
{
    match kind {
        IntKind::Bool | IntKind::Char | IntKind::SChar | IntKind::UChar => {
            v.rem_euclid(0x100) as u64
        }
        IntKind::Short | IntKind::UShort => v.rem_euclid(0x1_0000) as u64,
        IntKind::Int | IntKind::UInt | IntKind::Long4 | IntKind::ULong4 => {
            v.rem_euclid(0x1_0000_0000) as u64
        }
        IntKind::Long | IntKind::ULong | IntKind::LLong | IntKind::ULLong => {
            v.rem_euclid(0x1_0000_0000_0000_0000) as u64
        }
    }
}

/// C11 6.5.10.
fn and(kind: IntKind, a: i128, b: i128) -> i128
    ensures { result ≡ bitwise bit_and kind a b }
{
    wrap(kind, i128::from(bits_of(kind, a) & bits_of(kind, b)))
}

/// C11 6.5.11.
fn xor(kind: IntKind, a: i128, b: i128) -> i128
    ensures { result ≡ bitwise bit_xor kind a b }
{
    wrap(
        kind,
        i128::from(differing(bits_of(kind, a), bits_of(kind, b))),
    )
}

fn differing(a: u64, b: u64) -> u64
    ensures { result ≡ bit_xor a b }
{
    a ^ b
}

/// C11 6.5.12.
fn or(kind: IntKind, a: i128, b: i128) -> i128
    ensures { result ≡ bitwise bit_or kind a b }
{
    wrap(kind, i128::from(joined(bits_of(kind, a), bits_of(kind, b))))
}

fn joined(a: u64, b: u64) -> u64
    ensures { result ≡ bit_or a b }
{
    a | b
}
