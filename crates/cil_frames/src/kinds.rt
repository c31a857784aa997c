ghost use Rattle.std.specs.Prelude.{◌≡◌};
ghost use Rattle.cil_frames.specs.Kinds.{single_in, size_in};

use byte_mem::Scalar;
use cil_code::Kind;

/// The scalar that a kind is.
pub fn single(kind: Option<Kind>) -> Option<Scalar>
    ensures { result ≡ single_in kind }
{
    match kind {
        Some(Kind::Single(s)) => Some(s),
        Some(Kind::Void) | Some(Kind::Bytes(_)) | None => None,
    }
}

/// The size of a struct or union that a kind is.
pub fn sized(kind: Option<Kind>) -> Option<u32>
    ensures { result ≡ size_in kind }
{
    match kind {
        Some(Kind::Bytes(size)) => Some(size),
        Some(Kind::Void) | Some(Kind::Single(_)) | None => None,
    }
}
