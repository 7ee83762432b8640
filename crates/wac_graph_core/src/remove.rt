//! Removal of nodes.

ghost use Rattle.std.specs.Prelude.{◌≡◌, ◌∷◌, [], OnOk, OnErr, filter, not};
ghost use Rattle.wac_graph_core.specs.Graph.{ContainsNode};
ghost use Rattle.wac_graph_core.specs.Edges.{has};
ghost use Rattle.wac_graph_core.specs.Removing.{IsClosed, TakesNodes, RemovesNodes};

use crate::edge::{Follow, reached_from};
use crate::graph::CompositionGraph;
use crate::ids::NodeId;
use crate::named::NamedNodes;
use crate::node_set::NodeSet;
use std::alloc::AllocError;

/// Takes the exports of these nodes away.
fn remove_exports(exports: &mut NamedNodes, gone: &NodeSet)
    ensures { exports.new.items ≡ filter (λ e. not (has gone.now e.1)) exports.old.items }
{
    exports.retain_apart(gone);
}

impl CompositionGraph {
    /// Takes nodes away, with their names and edges.
    pub(crate) fn remove_nodes(&mut self, gone: &NodeSet)
        requires { IsClosed Follow.Owned self.old.edges gone.now }
        ensures { TakesNodes self.old self.new gone.now }
    {
        self.edges.retain_apart(gone);
        remove_exports(&mut self.exports, gone);
        self.nodes.remove_all(gone.as_slice());
    }

    /// Takes a node away, and each node that is reached from it over aliases and dependencies, with their names.
    pub fn remove_node(&mut self, node: NodeId) -> Result<(), AllocError>
        requires { ContainsNode self.old node }
        ensures removed { OnOk result (RemovesNodes self.old self.new (node ∷ [])) }
        ensures kept { OnErr result (self.new ≡ self.old) }
    {
        let gone = reached_from(self.alloc, &self.edges, Follow::Owned, node)?;
        self.remove_nodes(&gone);
        Ok(())
    }
}
