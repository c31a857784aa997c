ghost use Rattle.std.specs.Prelude.{◌≡◌, ◌^◌, pos, ◌+ℤ◌, ◌-ℤ◌, ◌≤ℤ◌, int_lt, if◌then◌else◌};
ghost use Rattle.cil_base.specs.Integer.{IsOf, wrapped};

use crate::kinds::IntKind;

/// A number converted to a kind: to `_Bool` 0 for zero and else 1 (C11 6.3.1.2), to another unsigned kind
/// modulo 2 to its width (6.3.1.3p2), and to a signed kind the number itself or, where it does not fit,
/// modulo 2 to the width (6.3.1.3p3, own).
#[tactic(auto, using(crate::proofs::IntegerLaws::wrapped_value))]
pub fn wrap(kind: IntKind, v: i128) -> i128
    ensures converted { result ≡ wrapped kind v }
    ensures value { IsOf kind result }
{
    match kind {
        IntKind::Bool => { if v == 0 { 0 } else { 1 } }
        IntKind::Char | IntKind::SChar => centred(v.rem_euclid(0x100), 0x80),
        IntKind::UChar => v.rem_euclid(0x100),
        IntKind::Short => centred(v.rem_euclid(0x1_0000), 0x8000),
        IntKind::UShort => v.rem_euclid(0x1_0000),
        IntKind::Int | IntKind::Long4 => centred(v.rem_euclid(0x1_0000_0000), 0x8000_0000),
        IntKind::UInt | IntKind::ULong4 => v.rem_euclid(0x1_0000_0000),
        IntKind::Long | IntKind::LLong => {
            centred(v.rem_euclid(0x1_0000_0000_0000_0000), 0x8000_0000_0000_0000)
        }
        IntKind::ULong | IntKind::ULLong => v.rem_euclid(0x1_0000_0000_0000_0000),
    }
}

/// The number from -half to half - 1 for one from 0 to 2 half - 1.
fn centred(low: i128, half: i128) -> i128
    requires low_in_range { (pos 0 ≤ℤ low) × (low ≤ℤ pos (2 ^ 64)) }
    requires half_in_range { (pos 0 ≤ℤ half) × (half ≤ℤ pos (2 ^ 64)) }
    ensures { result ≡ (if int_lt low half then low else low -ℤ (half +ℤ half)) }
{
    if low < half { low } else { low - (half + half) }
}
