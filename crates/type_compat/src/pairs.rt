ghost use Rattle.std.specs.Prelude.{◌≡◌, OnOk};
ghost use Rattle.type_graph.specs.Arena.{Graph};
ghost use Rattle.type_compat.specs.Pairs.{pair, knows, answer_of, KnowsMore, AnswersMore, AllCompatible, AllComposed};

use cil_base::{Memory, TypeId};
use std::alloc::Global;
use std::collections::{HashMap, HashSet};

/// Two types of one graph, in order.
#[derive(Clone, Copy, PartialEq, Eq, Hash)]
pub(crate) struct Pair {
    left: TypeId,
    right: TypeId,
}

/// Pairs of types that were found compatible, so that no pair is compared twice.
#[derive(Drop)]
pub(crate) struct Known {
    pairs: HashSet<Pair>,
}

impl Known {
    /// No pairs.
    #[tactic(auto, using(crate::proofs::PairLaws::none_compatible))]
    pub(crate) fn new(alloc: Global) -> Self
        ensures { (g : Graph) → AllCompatible g result }
    {
        Known {
            pairs: HashSet::new(alloc),
        }
    }

    /// Whether a pair is among them.
    pub(crate) fn has(&self, a: TypeId, b: TypeId) -> bool
        ensures { result ≡ knows self.now (pair a b) }
    {
        self.pairs.contains(&Pair { left: a, right: b })
    }

    /// Adds a pair. Where there is no memory for it, it is left out, and may be compared again.
    pub(crate) fn note(&mut self, a: TypeId, b: TypeId)
        ensures { KnowsMore self.old self.new (pair a b) }
    {
        let _added = self.pairs.insert(Pair { left: a, right: b }).is_ok();
    }
}

/// Composites of pairs of types, so that no pair is composed twice.
#[derive(Drop)]
pub(crate) struct Composites {
    answers: HashMap<Pair, TypeId>,
}

impl Composites {
    /// No composites.
    #[tactic(auto, using(crate::proofs::PairLaws::none_composed))]
    pub(crate) fn new(alloc: Global) -> Self
        ensures { (g : Graph) → AllComposed g result }
    {
        Composites {
            answers: HashMap::new(alloc),
        }
    }

    /// The composite of a pair, if it is there.
    pub(crate) fn get(&self, a: TypeId, b: TypeId) -> Option<TypeId>
        ensures { result ≡ answer_of self.now (pair a b) }
    {
        let t = self.answers.get(&Pair { left: a, right: b })?;
        Some(*t)
    }

    /// Adds the composite of a pair.
    pub(crate) fn note(&mut self, a: TypeId, b: TypeId, t: TypeId) -> Result<(), Memory>
        ensures { OnOk result (AnswersMore self.old self.new (pair a b) t) }
    {
        self.answers.insert(Pair { left: a, right: b }, t)?;
        Ok(())
    }
}
