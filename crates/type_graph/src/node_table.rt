ghost use Rattle.std.specs.Prelude.{◌≡◌, ℕ, ◌+◌, ◌^◌, ◌<◌, Some, [], ◌∷◌, ◌++◌, length, MatchOption, OnOk, OnErr, slice_get};

use crate::chains::Chains;
use crate::nodes::Node;
use cil_base::Memory;
use std::alloc::Global;
use std::marker::Model;

/// Nodes by number, each of which is found by its hash. Contracts see the list of nodes.
#[derive(Drop)]
pub(crate) struct NodeTable {
    nodes: Vec<Node>,
    chains: Chains,
    alloc: Global,
}

impl Model for NodeTable {
    ghost use Rattle.std.specs.Prelude.{List};
    ghost use Rattle.type_graph.specs.declared.nodes.Node.{Node};
    ghost use Rattle.type_graph.specs.Linked.{IsChained};

    ghost Value = { List Node };

    ghost view = { λ s. s.nodes.items };

    ghost invariant = { λ s. IsChained s.chains s.nodes.items };
}

impl NodeTable {
    /// No nodes.
    pub(crate) fn new(alloc: Global) -> Self
        ensures { result ≡ [] }
    {
        NodeTable {
            nodes: Vec::new(alloc),
            chains: Chains::new(alloc),
            alloc,
        }
    }

    /// The number of nodes.
    pub(crate) fn len(&self) -> usize
        ensures { result ≡ length self.now }
    {
        self.nodes.len()
    }

    /// A node.
    pub(crate) fn get(&self, i: usize) -> &Node
        requires { i < length self.now }
        ensures { slice_get self.now i ≡ Some result.now }
    {
        &self.nodes[i]
    }

    /// The number of a node, if it is there.
    pub(crate) fn find(&self, n: &Node) -> Option<usize>
        ensures { MatchOption result ((s : ℕ) → ¬ (slice_get self.now s ≡ Some n.now)) (λ i. slice_get self.now i ≡ Some n.now) }
    {
        self.chains.find(&self.nodes, n)
    }

    /// Adds a node, which gets the next number. After Memory the nodes are as before.
    pub(crate) fn push(&mut self, n: Node) -> Result<(), Memory>
        requires { length self.old + 1 < 2 ^ 32 }
        ensures ok { OnOk result (self.new ≡ self.old ++ n ∷ []) }
        ensures err { OnErr result (self.new ≡ self.old) }
    {
        self.chains.reserve(self.alloc, &self.nodes)?;
        self.nodes.push(n)?;
        self.chains.add_last(&self.nodes);
        Ok(())
    }
}
