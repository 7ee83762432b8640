//! Exports of instances as nodes.

ghost use Rattle.std.specs.Prelude.{◌≡◌, ℕ, None, IfOk, IfErr, IfSome, IfNone, IsSome, OnErr};
ghost use Rattle.std.specs.FinMap as map;
ghost use Rattle.wac_types_base.specs.Collection.{Stands};
ghost use Rattle.wac_types_base.specs.Entries.{Name};
ghost use Rattle.wac_graph_core.specs.Edges.{HasAlias, alias_edge};
ghost use Rattle.wac_graph_core.specs.NodeMaps.{AreBelow};
ghost use Rattle.wac_graph_core.specs.Graph.{ContainsNode, IsExport, IsStatedExport};
ghost use Rattle.wac_graph_core.specs.Steps.{AddsEdge, Aliases};
ghost use Rattle.wac_graph_core.specs.Refusals.{AliasRefused};

use crate::edges::Edges;
use crate::error::AliasError;
use crate::graph::CompositionGraph;
use crate::ids::NodeId;
use crate::node::{Node, NodeKind};
use crate::nodes::Nodes;
use crate::tie::Tie;
use std::alloc::AllocError;
use wac_types_base::{ItemKind, Text};

/// Adds the node of an export of an instance that has none.
fn insert_alias(
    nodes: &mut Nodes,
    edges: &mut Edges,
    node: Node,
    instance: NodeId,
    tie: Tie,
    name: Text,
) -> Result<NodeId, AllocError>
    requires tie { tie ≡ Tie.Alias name }
    requires stand { (i k : ℕ) (n : Name) → HasAlias edges.old i n k → IsSome (map.get nodes.old k) }
    requires none { (k : ℕ) → HasAlias edges.old instance name k → ⊥ }
    ensures above { IfOk result (λ id. AreBelow nodes.old id) }
    ensures free { IfOk result (λ id. map.get nodes.old id ≡ None) }
    ensures nodes { IfOk result (λ id. nodes.new ≡ map.insert nodes.old id node) }
    ensures edges { IfOk result (λ id. AddsEdge edges.old edges.new (alias_edge instance id name)) }
    ensures kept { OnErr result ((nodes.new ≡ nodes.old) × (edges.new ≡ edges.old)) }
{
    let id = nodes.insert(node)?;
    match edges.add_alias(instance, tie, name, id) {
        Ok(()) => Ok(id),
        Err(error) => {
            nodes.remove_all(&[id]);
            Err(error)
        }
    }
}

impl CompositionGraph {
    /// What an export of an instance is.
    fn export_item(&self, instance: NodeId, export: &str) -> Result<ItemKind, AliasError>
        requires { ContainsNode self.now instance }
        ensures found { IfOk result (λ item. IsExport self.now instance export.now item) }
        ensures stated { IfOk result (λ item. IsStatedExport self.now instance export.now item) }
        ensures stands { IfOk result (λ item. Stands self.now.types item) }
        ensures refused { IfErr result (λ e. AliasRefused self.now instance export.now e) }
    {
        self.see_sound();
        let id = match self.node(instance).item_kind() {
            ItemKind::Instance(id) => id,
            _ => return Err(AliasError::NodeIsNotAnInstance { node: instance }),
        };
        match self.types.interface(id).exports.get(export) {
            Some(item) => Ok(*item),
            None => Err(AliasError::InstanceMissingExport {
                node: instance,
                export: String::from_str(self.alloc, export)?,
            }),
        }
    }

    /// The node of an export of an instance, made where there is none.
    pub fn alias_instance_export(
        &mut self,
        instance: NodeId,
        export: &str,
    ) -> Result<NodeId, AliasError>
        requires { ContainsNode self.old instance }
        ensures aliased { IfOk result (λ k. Aliases self.old self.new instance export.now k) }
        ensures refused { IfErr result (λ e. AliasRefused self.old instance export.now e) }
        ensures kept { OnErr result (self.new ≡ self.old) }
    {
        let item = self.export_item(instance, export)?;
        let tie = Tie::Alias(Text::from_str(self.alloc, export)?);
        if let Some(alias) = self.edges.alias(instance, &tie) {
            return Ok(alias);
        }
        self.see_sound();
        let name = Text::from_str(self.alloc, export)?;
        let node = Node::new(NodeKind::Alias, None, item);
        let id = insert_alias(&mut self.nodes, &mut self.edges, node, instance, tie, name)?;
        Ok(id)
    }
}

impl CompositionGraph {
    /// The instance and the export that a node is an alias of.
    pub fn get_alias_source(&self, alias: NodeId) -> Option<(NodeId, &str)>
        ensures found { IfSome result (λ x. HasAlias self.now.edges x.0 x.1.now alias) }
        ensures none { IfNone result ((i : ℕ) (n : Name) → HasAlias self.now.edges i n alias → ⊥) }
    {
        self.edges.source(alias)
    }
}
