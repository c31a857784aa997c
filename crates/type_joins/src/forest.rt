ghost use Rattle.std.specs.Prelude.{◌≡◌, ℕ, ◌<◌, length, IfOk, OnOk};
ghost use Rattle.type_joins.specs.Forests.{root, IsForest, joined};

use cil_base::Memory;
use std::alloc::Global;
use type_things::{at, counted, impossible, put};

/// Numbers in trees: each leads to a lesser one of its class, and the least of a class, its root, to itself.
#[derive(Drop)]
pub struct Forest {
    /// For each number one that is not above it.
    pub parents: Vec<u32>,
}

impl Forest {
    /// Each number is a class of its own.
    pub fn new(alloc: Global, count: u32) -> Result<Self, Memory>
        ensures forest { IfOk result (λ f. IsForest f.parents.items) }
        ensures length { IfOk result (λ f. length f.parents.items ≡ count) }
        ensures own { IfOk result (λ f. (x : ℕ) → root f.parents.items x ≡ x) }
    {
        Ok(Forest {
            parents: counted(alloc, count)?,
        })
    }

    /// The root of a number. Those on the way skip their parents, so that the ways stay short.
    pub fn find(&mut self, x: u32) -> Result<u32, Memory>
        requires { IsForest self.old.parents.items }
        ensures root { IfOk result (λ r. r ≡ root self.old.parents.items x) }
        ensures forest { IsForest self.new.parents.items }
        ensures kept { (y : ℕ) → root self.new.parents.items y ≡ root self.old.parents.items y }
    {
        let mut x = x;
        for _step in 0..self.parents.len() {
            let parent = at(&self.parents, x)?;
            if parent == x {
                return Ok(x);
            }
            let above = at(&self.parents, parent)?;
            put(&mut self.parents, x, above)?;
            x = above;
        }
        Err(impossible())
    }

    /// Makes one class of two, which are given by their roots, the lesser one first.
    pub fn join(&mut self, low: u32, high: u32) -> Result<(), Memory>
        requires forest { IsForest self.old.parents.items }
        requires less { low < high }
        requires low { root self.old.parents.items low ≡ low }
        requires high { root self.old.parents.items high ≡ high }
        ensures forest { OnOk result (IsForest self.new.parents.items) }
        ensures joined { OnOk result ((y : ℕ) → root self.new.parents.items y ≡ joined low high (root self.old.parents.items) y) }
    {
        put(&mut self.parents, high, low)
    }
}
