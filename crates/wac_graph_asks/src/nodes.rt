//! Nodes and packages of a graph, where they stand.

ghost use Rattle.std.specs.Prelude.{◌≡◌, [], OnOk, IfOk, Some, IfSome, option_map};
ghost use Rattle.std.specs.Option.{option_copied};
ghost use Rattle.wac_types_base.specs.declared.item.ItemKind.{ItemKind};
ghost use Rattle.wac_types_base.specs.Collection.{Stands};
ghost use Rattle.wac_types_base.specs.Entries.{AreDistinct, names_of, value_at, values_of};
ghost use Rattle.wac_graph_core.specs.Graph.{node_at, package_of};
ghost use Rattle.wac_graph_asks.specs.Reads.{import_name_of, package_id_of, AreArguments};

use std::alloc::{AllocError, Global};
use std::marker::Model;
use wac_graph_core::{CompositionGraph, Node, NodeId, PackageId};
use wac_types_base::{ItemKind, NamedMap, WorldId};
use wac_types_names::Package;
use wac_types_parts::maps::insert_under;

pub fn node_at(graph: &CompositionGraph, id: NodeId) -> Option<&Node>
    ensures { option_copied result ≡ node_at graph.now id }
{
    if graph.contains_node(id) {
        Some(&graph[id])
    } else {
        None
    }
}

/// What a node is.
pub fn kind_of(graph: &CompositionGraph, id: NodeId) -> Option<ItemKind>
    ensures kind { result ≡ option_map (λ x. x.item_kind) (node_at graph.now id) }
    ensures stands { IfSome result (Stands graph.now.types) }
{
    if graph.contains_node(id) {
        graph.see_sound();
        Some(graph[id].item_kind())
    } else {
        None
    }
}

/// The name of a node that is an import.
pub fn import_name(graph: &CompositionGraph, id: NodeId) -> Option<&str>
    ensures { option_copied result ≡ import_name_of (node_at graph.now id) }
{
    match node_at(graph, id) {
        Some(node) => node.import_name(),
        None => None,
    }
}

/// The package of a node that is an instance.
pub fn package_of(graph: &CompositionGraph, id: NodeId) -> Option<PackageId>
    ensures { result ≡ package_id_of (node_at graph.now id) }
{
    match node_at(graph, id) {
        Some(node) => node.package(),
        None => None,
    }
}

pub fn package_at(graph: &CompositionGraph, id: PackageId) -> Option<&Package>
    ensures { option_copied result ≡ package_of graph.now id }
{
    if graph.contains_package(id) {
        Some(&graph[id])
    } else {
        None
    }
}

/// The world of a package.
pub fn world_at(graph: &CompositionGraph, id: PackageId) -> Option<WorldId>
    ensures world { result ≡ option_map (λ p. p.ty) (package_of graph.now id) }
    ensures stands { IfSome result (λ w. Stands graph.now.types (ItemKind.Component w)) }
{
    if graph.contains_package(id) {
        graph.see_sound();
        Some(graph[id].ty())
    } else {
        None
    }
}

/// What is passed to an instance, by the names of the arguments.
pub struct Arguments {
    by_name: NamedMap<NodeId>,
}

impl Drop for Arguments {
    fn drop(self) {
        let Arguments { by_name: _ } = self;
    }
}

impl Model for Arguments {
    ghost use Rattle.std.specs.Prelude.{List, ℕ};

    ghost Value = { List (List ℕ × ℕ) };

    ghost view = { λ a. a.by_name };
}

/// Adds what is passed to an instance, by the names of the arguments.
fn add_arguments(
    alloc: Global,
    graph: &CompositionGraph,
    id: NodeId,
    by_name: &mut NamedMap<NodeId>,
) -> Result<(), AllocError>
    requires { by_name.old ≡ [] }
    ensures { OnOk result (AreArguments graph.now id by_name.new) }
{
    graph.see_sound();
    graph.types().see_acyclic();
    if !graph.contains_node(id) {
        return Ok(());
    }
    for (name, argument) in graph.get_instantiation_arguments(id) {
        insert_under(alloc, by_name, name, argument)?;
    }
    Ok(())
}

impl Arguments {
    /// What is passed to an instance.
    pub fn of(alloc: Global, graph: &CompositionGraph, id: NodeId) -> Result<Self, AllocError>
        ensures { IfOk result (AreArguments graph.now id) }
    {
        let mut by_name = NamedMap::new(alloc);
        add_arguments(alloc, graph, id, &mut by_name)?;
        Ok(Arguments { by_name })
    }

    /// What is passed under a name.
    pub fn get(&self, name: &str) -> Option<NodeId>
        ensures { result ≡ value_at self.now name.now }
    {
        self.by_name.get(name).copied()
    }

    /// All that is passed.
    pub fn nodes(&self) -> &[NodeId]
        ensures nodes { result.now ≡ values_of self.now }
        ensures distinct { AreDistinct (names_of self.now) }
    {
        // That the names differ is told with their number.
        let _ = self.by_name.len();
        self.by_name.values()
    }
}
