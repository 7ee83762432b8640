//! The edges between nodes, and what is reached over them.

ghost use Rattle.std.specs.Prelude.{◌∷◌, [], IfOk, OnOk};
ghost use Rattle.wac_graph_core.specs.Edges.{IsReached};
ghost use Rattle.wac_graph_core.specs.Following.{FollowsTie, FollowsFrom};

use crate::edges::Edges;
use crate::ids::NodeId;
use crate::node_set::NodeSet;
use crate::tie::Tie;
use std::alloc::{AllocError, Global};
use wac_types_base::Text;

/// What an edge says.
#[derive(Drop)]
pub enum Label {
    /// The second node is this export of the first.
    Alias(Text),
    /// The first node is passed to the second as this argument.
    Argument(Text),
    /// The second node's type uses the type that the first node defines.
    Dependency,
}

/// An edge between two nodes, as contracts see it.
#[derive(Drop)]
pub struct Edge {
    pub from: NodeId,
    pub to: NodeId,
    pub label: Label,
}

/// Which edges are followed.
#[derive(Clone, Copy)]
pub enum Follow {
    /// Aliases and arguments.
    Flow,
    /// Aliases and dependencies.
    Owned,
}

/// Adds the node to which a tie leads, if it is followed.
fn follow_tie(
    follow: Follow,
    tie: &Tie,
    alias: NodeId,
    seen: &mut NodeSet,
) -> Result<(), AllocError>
    ensures { OnOk result (FollowsTie follow tie.now alias seen.old seen.new) }
{
    if tie.is_followed(follow) {
        seen.add(tie.end(alias))?;
    }
    Ok(())
}

/// Adds the nodes to which an edge that is followed leads from one.
fn follow_from(
    edges: &Edges,
    follow: Follow,
    node: NodeId,
    seen: &mut NodeSet,
) -> Result<(), AllocError>
    ensures { OnOk result (FollowsFrom follow edges.now node seen.old seen.new) }
{
    for (tie, alias) in edges.dependants_of(node) {
        follow_tie(follow, tie, *alias, seen)?;
    }
    Ok(())
}

/// The nodes that are reached from some, those first.
pub(crate) fn reached(edges: &Edges, follow: Follow, starts: NodeSet) -> Result<NodeSet, AllocError>
    ensures { IfOk result (λ seen. IsReached follow edges.now starts seen) }
{
    let mut seen = starts;
    let mut at = 0;
    while at < seen.as_slice().len() {
        let node = seen.as_slice()[at];
        follow_from(edges, follow, node, &mut seen)?;
        at += 1;
    }
    Ok(seen)
}

/// The nodes that are reached from one, that first.
pub(crate) fn reached_from(
    alloc: Global,
    edges: &Edges,
    follow: Follow,
    node: NodeId,
) -> Result<NodeSet, AllocError>
    ensures { IfOk result (λ seen. IsReached follow edges.now (node ∷ []) seen) }
{
    let mut start = NodeSet::new(alloc);
    start.push(node)?;
    reached(edges, follow, start)
}
