ghost use Rattle.std.specs.Prelude.{◌≡◌, ◌++◌, map, OnOk};
ghost use Rattle.std.specs.List.{concat};

use std::alloc::AllocError;

/// Puts pieces behind a text, one behind the other.
#[tactic(auto, using(crate::proofs::Behind::pieces_behind))]
pub(crate) fn push_pieces(out: &mut Vec<u8>, pieces: &[&[u8]]) -> Result<(), AllocError>
    ensures { OnOk result (out.new.items ≡ out.old.items ++ concat (map (λ piece. piece.now) pieces.now)) }
{
    for piece in pieces {
        out.extend_from_slice(piece)?;
    }
    Ok(())
}
