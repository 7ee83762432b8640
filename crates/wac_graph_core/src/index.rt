//! Nodes and packages by their ids.

use crate::graph::CompositionGraph;
use crate::ids::{NodeId, PackageId};
use crate::node::Node;
use std::ops::Index;
use wac_types_names::Package;

impl Index<NodeId> for CompositionGraph {
    type Output = Node;

    ghost use Rattle.std.specs.Prelude.{◌≡◌, Some};
    ghost use Rattle.wac_graph_core.specs.Graph.{ContainsNode, node_at};

    ghost can_index = { λ g id. ContainsNode g id };

    ghost index_gives = { λ g id found. node_at g id ≡ Some found };

    fn index(&self, id: NodeId) -> &Node {
        self.node(id)
    }
}

impl Index<PackageId> for CompositionGraph {
    type Output = Package;

    ghost use Rattle.std.specs.Prelude.{◌≡◌, Some};
    ghost use Rattle.wac_graph_core.specs.Graph.{ContainsPackage, package_of};

    ghost can_index = { λ g id. ContainsPackage g id };

    ghost index_gives = { λ g id found. package_of g id ≡ Some found };

    fn index(&self, id: PackageId) -> &Package {
        self.package(id)
    }
}
