ghost use Rattle.std.specs.Prelude.{◌≡◌};
ghost use Rattle.std.specs.Option.{option_map};
ghost use Rattle.cil_text.specs.ReadTypes.{skip_one};
ghost use Rattle.cil_text.specs.ReadStmts.{is_minus, read_number};
ghost use Rattle.cil_scan.specs.Said.{all_said};
ghost use Rattle.cil_numbers.specs.Numbers.{below_zero};

use cil_base::{BinOp, IntKind};
use cil_scan::Word;

/// A value of a kind.
#[derive(Clone, Copy)]
pub struct Numbered {
    pub kind: IntKind,
    pub value: i128,
}

/// Whether `-` stands in front.
fn is_minus(words: &[Word]) -> bool
    ensures { result ≡ is_minus (all_said words.now) }
{
    match words {
        [Word::Operator(BinOp::Sub), ..] => true,
        _ => false,
    }
}

/// What stands behind the first two words.
fn behind_two<'w, 'a>(words: &'w [Word<'a>]) -> &'w [Word<'a>]
    ensures { all_said result.now ≡ skip_one (skip_one (all_said words.now)) }
{
    match words {
        [_, _, rest @ ..] => rest,
        [_] => &[],
        [] => words,
    }
}

/// Behind `- n`: nothing, or the `- 1` of a kind's least value.
#[tactic(auto, using(crate::proofs::NumberLaws::minus_is, crate::proofs::NumberLaws::least_is))]
fn negative<'w, 'a>(kind: IntKind, n: u64, words: &'w [Word<'a>]) -> (Numbered, &'w [Word<'a>])
    ensures { ((result.0.kind, result.0.value), all_said result.1.now) ≡ below_zero kind n (all_said words.now) }
{
    if is_minus(words) {
        let value = -1 - n as i128;
        return (Numbered { kind, value }, behind_two(words));
    }
    let value = -(n as i128);
    (Numbered { kind, value }, words)
}

/// A value with its sign: `n`, `- n`, or `- n - 1`, which is the least value of a kind (own).
#[tactic(auto, using(crate::proofs::NumberLaws::negative_is))]
pub fn read_number<'w, 'a>(words: &'w [Word<'a>]) -> Option<(Numbered, &'w [Word<'a>])>
    ensures { option_map (λ r. ((r.0.kind, r.0.value), all_said r.1.now)) result ≡ read_number (all_said words.now) }
{
    match words {
        [Word::Number(kind, n), rest @ ..] => {
            let value = *n as i128;
            Some((Numbered { kind: *kind, value }, rest))
        }
        [Word::Operator(BinOp::Sub), Word::Number(kind, n), rest @ ..] => Some(negative(
            *kind, *n, rest,
        )),
        _ => None,
    }
}
