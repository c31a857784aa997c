ghost use Rattle.std.specs.Prelude.{◌≡◌, option_map};
ghost use Rattle.type_iso.specs.Classes.{class_count, class_in, is_one, representative_in};

use cil_base::{AggId, UnitNo};
use type_things::First;

/// The number of a class: its place in the order in which the classes are printed.
#[derive(Clone, Copy)]
pub struct ClassNo(pub u32);

/// The classes of the aggregates of several units.
#[derive(Drop)]
pub struct Classes {
    pub(crate) firsts: Vec<First>,
    pub(crate) of: Vec<u32>,
    pub(crate) representatives: Vec<(UnitNo, AggId)>,
}

impl Classes {
    /// The number of classes.
    pub fn count(&self) -> usize
        ensures { result ≡ class_count self.now }
    {
        self.representatives.len()
    }

    /// The class of an aggregate, if it is there.
    pub fn class_of(&self, u: UnitNo, a: AggId) -> Option<ClassNo>
        ensures { option_map (λ k. k.0) result ≡ class_in self.now u.0 a.0 }
    {
        let first = self.firsts.get(u.0 as usize)?;
        let class = self.of.get(first.aggregate as usize + a.0 as usize)?;
        Some(ClassNo(*class))
    }

    /// Whether two aggregates are there and in one class.
    #[tactic(auto, using(crate::proofs::ClassLaws::no_first, crate::proofs::ClassLaws::no_second, crate::proofs::ClassLaws::both_classes))]
    pub fn same(&self, x: (UnitNo, AggId), y: (UnitNo, AggId)) -> bool
        ensures { result ≡ is_one (class_in self.now x.0.0 x.1.0) (class_in self.now y.0.0 y.1.0) }
    {
        let Some(a) = self.class_of(x.0, x.1) else {
            return false;
        };
        let Some(b) = self.class_of(y.0, y.1) else {
            return false;
        };
        a.0 == b.0
    }

    /// The aggregate that stands for a class, if there is such a class: the first complete one by unit and number, or the first of
    /// all where none is complete.
    pub fn representative(&self, class: ClassNo) -> Option<(UnitNo, AggId)>
        ensures { result ≡ representative_in self.now class.0 }
    {
        match self.representatives.get(class.0 as usize) {
            Some(found) => Some(*found),
            None => None,
        }
    }
}
