//! The names of nodes, for debuggers.

use indexmap::{IndexMap, IndexSet};
use std::alloc::{AllocError, Global};
use wac_graph_asks::nodes::node_at;
use wac_graph_bytes::{IndexName, Sort, SortNames};
use wac_graph_core::{CompositionGraph, NodeId};
use wac_graph_scopes::imports::SortIndex;

/// The name of a node.
fn name_of(graph: &CompositionGraph, node: NodeId) -> Option<&str> {
    match node_at(graph, node) {
        Some(node) => node.name(),
        None => None,
    }
}

/// Adds a name of an index.
fn push_name(
    alloc: Global,
    names: &mut Vec<IndexName>,
    index: u64,
    name: &str,
) -> Result<(), AllocError> {
    let name = String::from_str(alloc, name)?;
    names.push(IndexName { index, name })?;
    Ok(())
}

/// Adds the name of a node, unless its index has one.
fn name_node(
    graph: &CompositionGraph,
    names: &mut Vec<IndexName>,
    named: &mut IndexSet<u64>,
    node: NodeId,
    index: u64,
) -> Result<(), AllocError> {
    if named.contains(&index) {
        return Ok(());
    }
    let Some(name) = name_of(graph, node) else {
        return Ok(());
    };
    let _ = named.insert(index)?;
    push_name(graph.alloc(), names, index, name)
}

/// Adds the names of the nodes of a sort, one for each index that has none.
fn name_unnamed(
    graph: &CompositionGraph,
    nodes: &IndexMap<NodeId, SortIndex>,
    sort: Sort,
    names: &mut Vec<IndexName>,
    named: &mut IndexSet<u64>,
) -> Result<(), AllocError> {
    for (node, place) in nodes.iter() {
        if place.sort == sort {
            name_node(graph, names, named, *node, place.index)?;
        }
    }
    Ok(())
}

/// Adds the names of the nodes of a sort, one for each index.
fn push_names(
    graph: &CompositionGraph,
    nodes: &IndexMap<NodeId, SortIndex>,
    sort: Sort,
    names: &mut Vec<IndexName>,
) -> Result<(), AllocError> {
    let mut named = IndexSet::new(graph.alloc());
    name_unnamed(graph, nodes, sort, names, &mut named)
}

/// Adds the names of the nodes of a sort, where there are any.
fn push_sort(
    graph: &CompositionGraph,
    nodes: &IndexMap<NodeId, SortIndex>,
    sort: Sort,
    all: &mut Vec<SortNames>,
) -> Result<(), AllocError> {
    let mut names = Vec::new(graph.alloc());
    push_names(graph, nodes, sort, &mut names)?;
    if !names.is_empty() {
        all.push(SortNames { sort, names })?;
    }
    Ok(())
}

/// The names of nodes, by their sorts.
pub(crate) fn names_of_nodes(
    graph: &CompositionGraph,
    nodes: &IndexMap<NodeId, SortIndex>,
) -> Result<Vec<SortNames>, AllocError> {
    let mut all = Vec::new(graph.alloc());
    for sort in [
        Sort::Func,
        Sort::Ty,
        Sort::Component,
        Sort::Instance,
        Sort::Module,
    ] {
        push_sort(graph, nodes, sort, &mut all)?;
    }
    Ok(all)
}
