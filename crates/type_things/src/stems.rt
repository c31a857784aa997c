ghost use Rattle.std.specs.Prelude.{◌≡◌, ℕ, ◌≤◌, List, length, option_map, IfOk};
ghost use Rattle.type_things.specs.Stems.{digits_at_end, without_suffix, stem_of};
ghost use Rattle.type_things.specs.Units.{name_stem, tag_stem};
ghost use Rattle.type_things.specs.Weaving.{AreStems};

use crate::numbers::at;
use cil_base::{Memory, NameId, NamePool};
use std::alloc::Global;

/// How many digits stand at the end of a text.
fn count_digits(text: &[u8]) -> usize
    ensures digits { result ≡ digits_at_end text.now }
    ensures within { result ≤ length text.now }
{
    for k in 0..text.len() {
        if !text[text.len() - 1 - k].is_ascii_digit() {
            return k;
        }
    }
    text.len()
}

/// A name without one suffix `___` with digits behind it, if it has one.
fn shortened(text: &[u8]) -> Option<&[u8]>
    ensures { option_map (λ s. s.now) result ≡ without_suffix text.now }
{
    let digits = count_digits(text);
    if digits == 0 {
        return None;
    }
    let front = &text[..text.len() - digits];
    let (rest, bars) = front.split_at(front.len().saturating_sub(3));
    if bars == b"___".as_slice() {
        return Some(rest);
    }
    None
}

/// What remains of a name once every suffix `___` with digits behind it is taken off (own). It may be empty.
pub fn stem(text: &[u8]) -> &[u8]
    ensures { result.now ≡ stem_of text.now }
{
    let mut rest = text;
    for _turn in 0..text.len() {
        match shortened(rest) {
            Some(front) => rest = front,
            None => return rest,
        }
    }
    rest
}

/// The number of a stem.
#[derive(Clone, Copy, PartialEq, Eq, Hash)]
pub struct StemId(pub u32);

/// The stems of all names of a pool: two names match exactly where they have one number.
#[derive(Drop)]
pub struct Stems {
    of: Vec<u32>,
    tagless: StemId,
}

impl Stems {
    /// The stems of the names of a pool.
    pub fn new(alloc: Global, names: &NamePool) -> Result<Self, Memory>
        ensures { IfOk result (AreStems names.now) }
    {
        let mut stems = NamePool::new(alloc);
        let tagless = StemId(stems.intern(b"__anon")?.0);
        let mut of = Vec::new(alloc);
        for n in 0..names.len() {
            let number = stems.intern(stem(names.text(NameId(n))))?;
            of.push(number.0)?;
        }
        Ok(Stems { of, tagless })
    }

    /// The stem of a name.
    pub fn of(&self, n: NameId) -> Result<StemId, Memory>
        ensures { (names : List (List ℕ)) → AreStems names self.now → IfOk result (λ s. s ≡ name_stem names n) }
    {
        Ok(StemId(at(&self.of, n.0)?))
    }

    /// The stem of a tag. A missing one is as one that was made.
    pub fn of_tag(&self, tag: Option<NameId>) -> Result<StemId, Memory>
        ensures { (names : List (List ℕ)) → AreStems names self.now → IfOk result (λ s. s ≡ tag_stem names tag) }
    {
        match tag {
            Some(n) => self.of(n),
            None => Ok(self.tagless),
        }
    }
}
