ghost use Rattle.std.specs.Prelude.{◌≡◌, map};
ghost use Rattle.host_calls.specs.Host.{same_scalar};
ghost use Rattle.execution.specs.Data.{kinds_match, same_kind};
ghost use Rattle.execution.specs.Calls.{arguments_match};
ghost use Rattle.cil_code.specs.Calling.{kind_of, kind_from};
ghost use Rattle.cil_frames.specs.Entering.{arguments_of};
ghost use Rattle.cil_turns.specs.Turning.{kinds_agree};

use byte_mem::Scalar;
use cil_code::Kind;
use cil_frames::{Argument, Function};

fn is_same_scalar(a: Scalar, b: Scalar) -> bool
    ensures { result ≡ same_scalar a b }
{
    match (a, b) {
        (Scalar::Int(x), Scalar::Int(y)) => x == y,
        (Scalar::Ptr, Scalar::Ptr) => true,
        (Scalar::Int(_), Scalar::Ptr) | (Scalar::Ptr, Scalar::Int(_)) => false,
    }
}

fn is_match(a: Kind, b: Kind) -> bool
    ensures { result ≡ kinds_match (kind_of a) (kind_of b) }
{
    match (a, b) {
        (Kind::Void, Kind::Void) => true,
        (Kind::Single(s), Kind::Single(t)) => is_same_scalar(s, t),
        (Kind::Bytes(m), Kind::Bytes(n)) => m == n,
        (Kind::Void | Kind::Single(_) | Kind::Bytes(_), _) => false,
    }
}

/// Whether two kinds are the same; what has no kind is like nothing (own).
fn is_same_kind(a: Option<Kind>, b: Option<Kind>) -> bool
    ensures { result ≡ same_kind (kind_from a) (kind_from b) }
{
    match (a, b) {
        (Some(a), Some(b)) => is_match(a, b),
        (None, _) | (Some(_), None) => false,
    }
}

/// Whether there are as many arguments as parameters, and of their kinds.
#[tactic(auto, using(crate::proofs::KindLemmas::match_next, crate::proofs::KindLemmas::match_end, crate::proofs::KindLemmas::match_counts))]
fn arguments_match(kinds: &[Option<Kind>], arguments: &[Argument]) -> bool
    ensures { result ≡ arguments_match (map kind_from kinds.now) (arguments_of arguments.now) }
{
    if kinds.len() != arguments.len() {
        return false;
    }
    for i in 0..kinds.len() {
        if !is_same_kind(kinds[i], arguments[i].kind) {
            return false;
        }
    }
    true
}

/// Whether the kinds of a call are those of a function: that of the result that is asked for, and those of the arguments
/// (own, in place of C11 6.5.2.2p6, p9).
pub(crate) fn kinds_agree(f: &Function, wanted: Option<Kind>, arguments: &[Argument]) -> bool
    ensures { result ≡ kinds_agree f.now wanted arguments.now }
{
    is_same_kind(f.result, wanted) && arguments_match(&f.parameters, arguments)
}
