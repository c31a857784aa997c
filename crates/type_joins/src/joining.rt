ghost use Rattle.std.specs.Prelude.{◌≡◌, ℕ, ◌<◌, List, [], ◌∷◌, ◌++◌, length, IsTrue, MatchBool, MatchOption, IfOk, OnOk};
ghost use Rattle.type_things.specs.Things.{labels, Agree, IsClash};
ghost use Rattle.type_joins.specs.Forests.{root, IsForest};
ghost use Rattle.type_joins.specs.Joined.{zipped, chosen, carried, IsJoining};
ghost use Rattle.type_things.specs.Webs.{things_of};

use crate::forest::Forest;
use cil_base::Memory;
use std::alloc::Global;
use type_things::{Part, Web, at, counted, impossible, put};

/// Two things that are to be one.
pub type Pair = (u32, u32);

/// Things that are one, as classes, and the pairs of things that are still to be joined.
#[derive(Drop)]
pub struct Joining {
    /// What is one with what.
    pub forest: Forest,
    /// For each root a thing of its class: one with parts, if the class has one.
    pub stand: Vec<u32>,
    /// What is left to be joined.
    pub work: Vec<Pair>,
}

/// Whether the same stands beside the parts of two things.
fn same_labels(left: &[Part], right: &[Part]) -> bool
    ensures same { IsTrue result → labels left.now ≡ labels right.now }
    ensures apart { labels left.now ≡ labels right.now → IsTrue result }
{
    if left.len() != right.len() {
        return false;
    }
    for i in 0..left.len() {
        if left[i].0 != right[i].0 {
            return false;
        }
    }
    true
}

/// Whether two things do not differ in themselves, whatever their parts are. Of two aggregates one may be incomplete.
fn agree(web: &Web, s: u32, t: u32) -> Result<bool, Memory>
    ensures { IfOk result (λ b. MatchBool b (Agree (things_of web.now) s t) (¬ (Agree (things_of web.now) s t))) }
{
    if web.head(s)? != web.head(t)? {
        return Ok(false);
    }
    match (web.inside(s)?, web.inside(t)?) {
        (Some(left), Some(right)) => Ok(same_labels(left, right)),
        _ => Ok(true),
    }
}

/// Which of two things stands for both.
fn choose(web: &Web, s: u32, t: u32) -> Result<u32, Memory>
    ensures { IfOk result (λ n. n ≡ chosen (things_of web.now) s t) }
{
    if web.is_complete(s)? {
        return Ok(s);
    }
    Ok(t)
}

/// Puts the parts at equal places behind the work.
fn push_zipped(work: &mut Vec<Pair>, left: &[Part], right: &[Part]) -> Result<(), Memory>
    ensures { OnOk result (work.new.items ≡ work.old.items ++ zipped left.now right.now) }
{
    for i in 0..left.len() {
        if i >= right.len() {
            return Ok(());
        }
        work.push((left[i].1, right[i].1))?;
    }
    Ok(())
}

/// Puts the parts of two things, if both have them, behind the work.
fn push_parts(web: &Web, work: &mut Vec<Pair>, s: u32, t: u32) -> Result<(), Memory>
    ensures { OnOk result (work.new.items ≡ work.old.items ++ carried (things_of web.now) s t) }
{
    match (web.inside(s)?, web.inside(t)?) {
        (Some(left), Some(right)) => push_zipped(work, left, right),
        _ => Ok(()),
    }
}

impl Joining {
    /// Each thing is a class of its own.
    pub fn new(alloc: Global, web: &Web) -> Result<Self, Memory>
        ensures forest { IfOk result (λ j. IsForest j.forest.parents.items) }
        ensures length { IfOk result (λ j. length j.forest.parents.items ≡ length web.now.things.items) }
        ensures joining { IfOk result (λ j. IsJoining (things_of web.now) [] (root j.forest.parents.items) j.stand.items []) }
        ensures empty { IfOk result (λ j. j.work.items ≡ []) }
    {
        let count = web.count()?;
        Ok(Joining {
            forest: Forest::new(alloc, count)?,
            stand: counted(alloc, count)?,
            work: Vec::new(alloc),
        })
    }

    /// Whether two things are one.
    pub fn are_joined(&mut self, x: u32, y: u32) -> Result<bool, Memory>
        requires { IsForest self.old.forest.parents.items }
        ensures forest { IsForest self.new.forest.parents.items }
        ensures kept { (y : ℕ) → root self.new.forest.parents.items y ≡ root self.old.forest.parents.items y }
        ensures rest { (self.new.stand ≡ self.old.stand) × (self.new.work ≡ self.old.work) }
        ensures same { IfOk result (λ b. MatchBool b (root self.old.forest.parents.items x ≡ root self.old.forest.parents.items y) (¬ (root self.old.forest.parents.items x ≡ root self.old.forest.parents.items y))) }
    {
        let (a, b) = (self.forest.find(x)?, self.forest.find(y)?);
        Ok(a == b)
    }

    /// Joins two classes, which are given by their roots, the lesser one first. Two things that would have to be one and differ are the
    /// answer, if there are any.
    fn join(&mut self, web: &Web, low: u32, high: u32) -> Result<Option<Pair>, Memory>
        requires forest { IsForest self.old.forest.parents.items }
        requires less { low < high }
        requires low { root self.old.forest.parents.items low ≡ low }
        requires high { root self.old.forest.parents.items high ≡ high }
        ensures forest { IfOk result (λ o. IsForest self.new.forest.parents.items) }
        ensures joins { (done : List (ℕ × ℕ)) → IsJoining (things_of web.now) done (root self.old.forest.parents.items) self.old.stand.items (self.old.work.items ++ (low, high) ∷ []) → IfOk result (λ o. MatchOption o (IsJoining (things_of web.now) done (root self.new.forest.parents.items) self.new.stand.items self.new.work.items) (IsClash (things_of web.now) done)) }
    {
        let (s, t) = (at(&self.stand, low)?, at(&self.stand, high)?);
        if !agree(web, s, t)? {
            return Ok(Some((s, t)));
        }
        self.forest.join(low, high)?;
        put(&mut self.stand, low, choose(web, s, t)?)?;
        push_parts(web, &mut self.work, s, t)?;
        Ok(None)
    }

    /// Joins two things.
    fn settle(&mut self, web: &Web, pair: Pair) -> Result<Option<Pair>, Memory>
        requires forest { IsForest self.old.forest.parents.items }
        ensures forest { IfOk result (λ o. IsForest self.new.forest.parents.items) }
        ensures joins { (done : List (ℕ × ℕ)) → IsJoining (things_of web.now) done (root self.old.forest.parents.items) self.old.stand.items (self.old.work.items ++ pair ∷ []) → IfOk result (λ o. MatchOption o (IsJoining (things_of web.now) done (root self.new.forest.parents.items) self.new.stand.items self.new.work.items) (IsClash (things_of web.now) done)) }
    {
        let (a, b) = (self.forest.find(pair.0)?, self.forest.find(pair.1)?);
        if a == b {
            return Ok(None);
        }
        if a < b {
            return self.join(web, a, b);
        }
        self.join(web, b, a)
    }

    /// Joins what is left to be joined, and all that follows from it.
    fn close(&mut self, web: &Web) -> Result<Option<Pair>, Memory>
        requires forest { IsForest self.old.forest.parents.items }
        ensures forest { IfOk result (λ o. IsForest self.new.forest.parents.items) }
        ensures empty { IfOk result (λ o. MatchOption o (self.new.work.items ≡ []) (λ _. Unit {0})) }
        ensures joins { (done : List (ℕ × ℕ)) → IsJoining (things_of web.now) done (root self.old.forest.parents.items) self.old.stand.items self.old.work.items → IfOk result (λ o. MatchOption o (IsJoining (things_of web.now) done (root self.new.forest.parents.items) self.new.stand.items []) (IsClash (things_of web.now) done)) }
    {
        for _step in 0..u64::MAX {
            let Some(pair) = self.work.pop() else {
                return Ok(None);
            };
            match self.settle(web, pair)? {
                None => {}
                Some(found) => return Ok(Some(found)),
            }
        }
        Err(impossible())
    }

    /// Joins two things, and all that follows from it. Two things that would have to be one and differ are the answer, if there are any.
    pub fn demand(&mut self, web: &Web, x: u32, y: u32) -> Result<Option<Pair>, Memory>
        requires forest { IsForest self.old.forest.parents.items }
        requires empty { self.old.work.items ≡ [] }
        ensures forest { IfOk result (λ o. IsForest self.new.forest.parents.items) }
        ensures empty { IfOk result (λ o. MatchOption o (self.new.work.items ≡ []) (λ _. Unit {0})) }
        ensures joins { (done : List (ℕ × ℕ)) → IsJoining (things_of web.now) done (root self.old.forest.parents.items) self.old.stand.items ((x, y) ∷ []) → IfOk result (λ o. MatchOption o (IsJoining (things_of web.now) done (root self.new.forest.parents.items) self.new.stand.items []) (IsClash (things_of web.now) done)) }
    {
        self.work.push((x, y))?;
        self.close(web)
    }

    /// The classes, once nothing is left to be joined.
    pub fn into_forest(self) -> Forest
        ensures { result ≡ self.forest }
    {
        self.forest
    }
}
