ghost use Rattle.std.specs.Prelude.{◌≡◌, ℕ, suc, ◌+◌, ◌*◌, ◌%◌, ◌^◌, ◌<◌, ◌≤◌, Some, [], length, MatchOption, IfOk, OnOk, OnErr, slice_get};
ghost use Rattle.type_graph.specs.Linked.{node_hash, mixed, mixed_all, quals_hash, bound_hash, IsLinked, IsChained, HasRoom, HadRoom};

use crate::nodes::{Node, Quals};
use cil_base::{Memory, TypeId};
use std::alloc::Global;

/// A hash with one number more, in 64 bits.
fn mixed(hash: u64, x: u32) -> u64
    ensures { result ≡ mixed hash x }
{
    (hash % 4294967296) * 2654435769 + x as u64
}

/// A hash with the numbers of types.
fn mixed_all(start: u64, types: &[TypeId]) -> u64
    ensures { result ≡ mixed_all start types.now }
{
    let mut hash = start;
    for t in types {
        hash = mixed(hash, t.0);
    }
    hash
}

/// What qualifiers add to a hash.
fn quals_hash(q: Quals) -> u64
    ensures { result ≡ quals_hash q }
{
    2 * q.constant as u64 + q.restricted as u64
}

/// What the bound of an array adds to a hash.
fn bound_hash(bound: Option<u64>) -> u32
    ensures { result ≡ bound_hash bound }
{
    match bound {
        None => u32::MAX,
        Some(n) => (n % 4294967296) as u32,
    }
}

/// The hash of a node.
#[tactic(auto, unfolding(crate::specs::Linked::node_hash))]
fn hash_of(n: &Node) -> u64
    ensures { result ≡ node_hash n.now }
{
    match n {
        Node::Void => 0,
        Node::Int(kind) => mixed(1, 2 * kind.rank() as u32 + kind.is_signed() as u32),
        Node::Ptr(q) => mixed(2 + 8 * quals_hash(q.quals), q.of.0),
        Node::Array(q, bound) => {
            let of = mixed(3 + 8 * quals_hash(q.quals), q.of.0);
            mixed(of, bound_hash(*bound))
        }
        Node::Func { ret, params, .. } => mixed_all(mixed(4, ret.0), params.as_slice()),
        Node::Agg(a) => mixed(5, a.0),
    }
}

/// Which of so many chains a node belongs to.
fn chain_of(n: &Node, count: usize) -> usize
    requires { 0 < count }
    ensures within { result < count }
    ensures is { result ≡ node_hash n.now % count }
{
    (hash_of(n) % count as u64) as usize
}

/// Puts the next node at the end of its chain.
#[tactic(auto, using(crate::proofs::ChainLaws::linked_next))]
fn link(nodes: &[Node], before: &mut [u32], ends: &mut [u32], next: usize)
    requires linked { IsLinked nodes.now before.old ends.old next }
    requires there { next < length nodes.now }
    requires few { length nodes.now < 2 ^ 32 }
    requires room { length nodes.now ≤ length before.old }
    requires chains { 0 < length ends.old }
    ensures linked { IsLinked nodes.now before.new ends.new (suc next) }
    ensures before { length before.new ≡ length before.old }
    ensures ends { length ends.new ≡ length ends.old }
{
    let chain = chain_of(&nodes[next], ends.len());
    before[next] = ends[chain];
    ends[chain] = next as u32 + 1;
}

/// Puts the nodes into so many new chains, and gives the end of each.
#[tactic(auto, using(crate::proofs::ChainLaws::linked_none))]
fn linked(
    alloc: Global,
    nodes: &[Node],
    before: &mut [u32],
    count: usize,
) -> Result<Vec<u32>, Memory>
    requires few { length nodes.now < 2 ^ 32 }
    requires room { length nodes.now ≤ length before.old }
    requires chains { 0 < count }
    ensures linked { IfOk result (λ ends. IsLinked nodes.now before.new ends.items (length nodes.now)) }
    ensures count { IfOk result (λ ends. length ends.items ≡ count) }
    ensures before { length before.new ≡ length before.old }
    ensures err { OnErr result (before.new ≡ before.old) }
{
    let mut ends = vec![in alloc; 0u32; count]?;
    for t in 0..nodes.len() {
        link(nodes, before, &mut ends, t);
    }
    Ok(ends)
}

/// Nodes in chains by their hashes. A place in a chain is given as how many nodes there are up to it, and 0
/// is no place.
#[derive(Drop)]
pub(crate) struct Chains {
    /// For each node, the place before it in its chain.
    before: Vec<u32>,
    /// For each chain, its last place.
    ends: Vec<u32>,
}

impl Chains {
    /// No chains, for no nodes.
    pub(crate) fn new(alloc: Global) -> Self
        ensures { IsChained result [] }
    {
        Chains {
            before: Vec::new(alloc),
            ends: Vec::new(alloc),
        }
    }

    /// The place of a node, if it is there.
    #[tactic(auto, using(crate::proofs::ChainLaws::ahead_none, crate::proofs::ChainLaws::no_chains))]
    pub(crate) fn find(&self, nodes: &[Node], n: &Node) -> Option<usize>
        requires { IsChained self.now nodes.now }
        ensures { MatchOption result ((s : ℕ) → ¬ (slice_get nodes.now s ≡ Some n.now)) (λ i. slice_get nodes.now i ≡ Some n.now) }
    {
        if self.ends.is_empty() {
            return None;
        }
        let mut end = self.ends[chain_of(n, self.ends.len())];
        while end > 0 {
            let i = end as usize - 1;
            if nodes[i] == *n {
                return Some(i);
            }
            end = self.before[i];
        }
        None
    }

    /// Makes more chains, if there are few for one node more.
    fn widen(&mut self, alloc: Global, nodes: &[Node]) -> Result<(), Memory>
        requires chained { IsChained self.old nodes.now }
        requires few { length nodes.now < 2 ^ 32 }
        ensures chained { IsChained self.new nodes.now }
        ensures load { OnOk result (length nodes.now < 4 * length self.new.ends.items) }
    {
        let count = self.ends.len();
        if nodes.len() / 4 < count {
            return Ok(());
        }
        self.ends = linked(alloc, nodes, &mut self.before, 2 * count + 8)?;
        Ok(())
    }

    /// Makes room for one node more.
    pub(crate) fn reserve(&mut self, alloc: Global, nodes: &[Node]) -> Result<(), Memory>
        requires chained { IsChained self.old nodes.now }
        requires few { length nodes.now < 2 ^ 32 }
        ensures chained { IsChained self.new nodes.now }
        ensures ok { OnOk result (HasRoom self.new nodes.now) }
    {
        self.widen(alloc, nodes)?;
        if self.before.len() == nodes.len() {
            self.before.push(0)?;
        }
        Ok(())
    }

    /// Puts the last node at the end of its chain.
    #[tactic(auto, using(crate::proofs::ChainLaws::had_linked, crate::proofs::ChainLaws::had_length))]
    pub(crate) fn add_last(&mut self, nodes: &[Node])
        requires room { HadRoom self.old nodes.now }
        requires few { length nodes.now < 2 ^ 32 }
        ensures { IsChained self.new nodes.now }
    {
        let last = nodes.len() - 1;
        link(nodes, &mut self.before, &mut self.ends, last);
    }
}
