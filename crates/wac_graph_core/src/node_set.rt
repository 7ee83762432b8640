//! Sets of nodes, in which a node is found by one look.

ghost use Rattle.std.specs.Prelude.{◌≡◌, ◌∷◌, ◌++◌, [], OnOk, IfOk};
ghost use Rattle.wac_graph_core.specs.Edges.{has};
ghost use Rattle.wac_graph_core.specs.NodeSets.{AddsNode};

use crate::ids::NodeId;
use indexmap::IndexSet;
use std::alloc::{AllocError, Global};
use std::marker::Model;

/// Nodes in the order in which they came, with their indexes, by which they are found.
#[derive(Drop)]
pub struct NodeSet {
    nodes: Vec<NodeId>,
    indexes: IndexSet<usize>,
}

impl Model for NodeSet {
    ghost use Rattle.std.specs.Prelude.{ℕ, List};

    ghost Value = { List ℕ };

    ghost view = { λ s. s.nodes.items };

    ghost use Rattle.wac_graph_core.specs.NodeSetView.{IsIndexed};

    ghost invariant = { IsIndexed };
}

impl NodeSet {
    /// No nodes.
    pub(crate) fn new(alloc: Global) -> Self
        ensures { result ≡ [] }
    {
        NodeSet {
            nodes: Vec::new(alloc),
            indexes: IndexSet::new(alloc),
        }
    }

    /// These nodes.
    pub(crate) fn of(alloc: Global, nodes: &[NodeId]) -> Result<NodeSet, AllocError>
        ensures { IfOk result (λ set. set ≡ nodes.now) }
    {
        let mut set = NodeSet::new(alloc);
        for node in nodes {
            set.push(*node)?;
        }
        Ok(set)
    }

    /// The nodes.
    pub(crate) fn as_slice(&self) -> &[NodeId]
        ensures value { result.now ≡ self.now }
    {
        self.nodes.as_slice()
    }

    /// Whether a node is in.
    pub(crate) fn has(&self, node: NodeId) -> bool
        ensures { result ≡ has self.now node }
    {
        self.indexes.contains(&node.index())
    }

    /// Puts a node last.
    pub(crate) fn push(&mut self, node: NodeId) -> Result<(), AllocError>
        ensures { OnOk result (self.new ≡ self.old ++ node ∷ []) }
    {
        self.nodes.reserve(1)?;
        let _ = self.indexes.insert(node.index())?;
        self.nodes.push_reserved(node);
        Ok(())
    }

    /// Puts a node last, unless it is in.
    pub(crate) fn add(&mut self, node: NodeId) -> Result<(), AllocError>
        ensures { OnOk result (AddsNode self.old self.new node) }
    {
        if self.has(node) {
            return Ok(());
        }
        self.push(node)
    }
}
