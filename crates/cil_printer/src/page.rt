ghost use Rattle.std.specs.Prelude.{◌≡◌, ◌≤◌, ◌<◌, ◌-◌, ◌∷◌, ◌++◌, [], take, length, IfOk};
ghost use Rattle.std.specs.Vec.{vec_capacity};

use std::alloc::{AllocError, Global};

/// The first bytes of a text, as many as there was room for from the start.
#[derive(Drop)]
pub(crate) struct Page {
    pub bytes: Vec<u8>,
    pub room: usize,
    ghost within: { length bytes.items ≤ room },
    ghost taken: { room ≤ vec_capacity bytes },
}

impl Page {
    /// An empty page with room for so many bytes.
    pub(crate) fn new(alloc: Global, room: usize) -> Result<Self, AllocError>
        ensures { IfOk result (λ p. (p.bytes.items ≡ []) × (p.room ≡ room)) }
    {
        let bytes = Vec::with_capacity(alloc, room)?;
        Ok(Page { bytes, room })
    }

    /// Appends the first of the bytes, as many as there is room for.
    #[tactic(auto, using(crate::proofs::Rooms::front_fits))]
    pub(crate) fn append(&mut self, more: &[u8])
        ensures bytes { self.new.bytes.items ≡ self.old.bytes.items ++ take (self.old.room - length self.old.bytes.items) more.now }
        ensures room { self.new.room ≡ self.old.room }
    {
        let front = front_of(more, self.room - self.bytes.len());
        match self.bytes.extend_from_slice(front) {
            Ok(()) => {}
            Err(_) => unreachable!(),
        }
    }

    /// Appends bytes and one more, as many of them as there is room for.
    #[tactic(auto, using(crate::proofs::Rooms::kept_twice))]
    pub(crate) fn append_ended(&mut self, more: &[u8], last: u8)
        ensures bytes { self.new.bytes.items ≡ self.old.bytes.items ++ take (self.old.room - length self.old.bytes.items) (more.now ++ last ∷ []) }
        ensures room { self.new.room ≡ self.old.room }
    {
        if more.len() < self.room - self.bytes.len() {
            self.append_all(more, last);
        } else {
            self.append(more);
            self.append(&[last]);
        }
    }

    /// Appends bytes and one more, for which there is room.
    #[tactic(auto, using(crate::proofs::Rooms::all_fit))]
    fn append_all(&mut self, more: &[u8], last: u8)
        requires { length more.now < self.old.room - length self.old.bytes.items }
        ensures bytes { self.new.bytes.items ≡ self.old.bytes.items ++ take (self.old.room - length self.old.bytes.items) (more.now ++ last ∷ []) }
        ensures room { self.new.room ≡ self.old.room }
    {
        match self.bytes.extend_from_slice(more) {
            Ok(()) => {}
            Err(_) => unreachable!(),
        }
        match self.bytes.push(last) {
            Ok(()) => {}
            Err(_) => unreachable!(),
        }
    }
}

/// The first of the bytes, so many at the most.
#[tactic(auto, using(crate::proofs::Rooms::all_of))]
fn front_of(bytes: &[u8], most: usize) -> &[u8]
    ensures { result.now ≡ take most bytes.now }
{
    if bytes.len() <= most {
        bytes
    } else {
        &bytes[..most]
    }
}
