ghost use Rattle.std.specs.Prelude.{◌≡◌, ◌++◌, [], ◌∷◌, unsigned_abs, codes, true};
ghost use Rattle.cil_base.specs.Integer.{suffix_of, least, greatest};
ghost use Rattle.cil_tree.specs.Declarators.{digits, number};
ghost use Rattle.std.specs.Ordering.{int_eq};
ghost use Rattle.cil_printer.specs.Output.{puts};
ghost use Rattle.cil_printer.specs.Signs.{is_minus};

use crate::sink::Sink;
use cil_base::IntKind;
use itoa::Buffer;

/// Appends digits with the suffix of a kind.
#[tactic(auto, using(crate::proofs::Puts::constant_pushed))]
fn push_constant(out: &mut Sink, kind: IntKind, figures: &[u8])
    ensures { out.new ≡ puts out.old ((figures.now ++ suffix_of kind) ∷ []) }
{
    out.push(figures);
    out.push(kind.suffix().as_bytes());
    out.push(b" ");
}

/// Appends an integer constant (C11 6.4.4.1).
pub(crate) fn push_digits(out: &mut Sink, kind: IntKind, n: u64)
    ensures { out.new ≡ puts out.old (digits kind n ∷ []) }
{
    let mut buffer = Buffer::new();
    push_constant(out, kind, buffer.format(n).as_bytes())
}

/// Appends the integer constant of a number's absolute value (C11 6.4.4.1).
fn push_absolute(out: &mut Sink, kind: IntKind, v: i128)
    ensures { out.new ≡ puts out.old (digits kind (unsigned_abs v) ∷ []) }
{
    let mut buffer = Buffer::new();
    push_constant(out, kind, buffer.format(v.unsigned_abs()).as_bytes())
}

/// Appends the least value of a kind, whose absolute value no constant of the kind has.
#[tactic(auto, using(crate::proofs::Puts::least_pushed))]
fn push_least(out: &mut Sink, kind: IntKind)
    ensures { out.new ≡ puts out.old (codes "-" ∷ digits kind (unsigned_abs (greatest kind)) ∷ codes "-" ∷ codes "1" ∷ []) }
{
    out.token(b"-");
    push_absolute(out, kind, kind.greatest());
    out.token(b"-");
    out.token(b"1");
}

/// Whether a number is below zero.
#[tactic(auto, using(crate::proofs::Numerals::minus_is))]
fn is_minus(v: i128) -> bool
    ensures { result ≡ is_minus v }
{
    v < 0
}

/// Whether a number is the least value of a kind.
fn is_least(kind: IntKind, v: i128) -> bool
    ensures { result ≡ int_eq v (least kind) }
{
    v == kind.least()
}

/// Appends a negative value of a kind.
#[tactic(auto, using(crate::proofs::Numerals::number_least, crate::proofs::Numerals::number_negative))]
fn push_negative(out: &mut Sink, kind: IntKind, v: i128)
    requires { is_minus v ≡ true }
    ensures { out.new ≡ puts out.old (number kind v) }
{
    if is_least(kind, v) {
        push_least(out, kind)
    } else {
        out.token(b"-");
        push_absolute(out, kind, v);
    }
}

/// Appends a value of a kind: a negative one is `-` and its absolute value.
#[tactic(auto, using(crate::proofs::Numerals::number_plain))]
pub(crate) fn push_number(out: &mut Sink, kind: IntKind, v: i128)
    ensures { out.new ≡ puts out.old (number kind v) }
{
    if is_minus(v) {
        push_negative(out, kind, v)
    } else {
        push_absolute(out, kind, v)
    }
}
