//! What expressions stand on.
#![tactic(auto)]

ghost use Rattle.std.specs.Prelude.{IfOk};
ghost use Rattle.wac_graph_core.specs.Graph.{ContainsNode};
ghost use Rattle.wac_parser_resolve.specs.InExpressions.{IsRootNode};

use std::alloc::Global;
use wac_graph_core::{CompositionGraph, NodeId};
use wac_parser_refusals::{Outcome, undefined_name};
use wac_parser_tree::Ident;
use wac_types_base::NamedMap;

/// The names of a document's root, as expressions see them.
#[derive(Clone, Copy)]
pub(crate) struct Root<'o, 'n> {
    pub(crate) alloc: Global,
    /// The name of the document's own package.
    pub(crate) own: &'o str,
    /// The nodes that names stand for.
    pub(crate) nodes: &'n NamedMap<NodeId>,
}

impl<'o, 'n> Root<'o, 'n> {
    /// The node that a name stands for.
    pub(crate) fn node(self, graph: &CompositionGraph, id: &Ident<'_>) -> Outcome<NodeId>
        ensures stands { IfOk result (λ node. ContainsNode graph.now node) }
        ensures outcome { IsRootNode id.now graph.now self.entry.nodes.now result }
    {
        match self.nodes.get(id.string) {
            Some(node) => {
                if graph.contains_node(*node) {
                    Ok(*node)
                } else {
                    Err(undefined_name(self.alloc, id.string, id.span))
                }
            }
            None => Err(undefined_name(self.alloc, id.string, id.span)),
        }
    }
}
