//! Graphs and faults as texts.

use crate::resolved::reading::tell_place;
use wac_graph_core::{CompositionGraph, Node, NodeId, NodeKind};
use wac_parser_resolve::Error;
use wac_rows::Told;

/// Tells an instance: its package, and what is passed to it.
fn tell_instance(graph: &CompositionGraph, told: &mut Told, node: NodeId) {
    if !graph.contains_node(node) {
        return told.push("no such node");
    }
    match graph[node].package() {
        Some(id) if graph.contains_package(id) => {
            told.push("new ");
            told.show(&graph[id].key());
        }
        _ => told.push("an instance of no package"),
    }
    for (name, argument) in graph.get_instantiation_arguments(node) {
        told.push(" ");
        told.push(name);
        told.push("=");
        told.show(&argument);
    }
}

/// Tells an alias: the instance and the name of its export.
fn tell_alias(graph: &CompositionGraph, told: &mut Told, node: NodeId) {
    match graph.get_alias_source(node) {
        None => told.push("an alias of nothing"),
        Some((source, name)) => {
            told.show(&source);
            told.push(".");
            told.push(name);
        }
    }
}

/// Tells the name that a node has, in brackets, and the name that it was exported under last.
fn tell_names(told: &mut Told, node: &Node) {
    if let Some(name) = node.name() {
        told.push(" (");
        told.push(name);
        told.push(")");
    }
    if let Some(name) = node.export_name() {
        told.push(" as ");
        told.push(name);
    }
}

/// Tells what a node is, with its names.
fn tell_node(graph: &CompositionGraph, told: &mut Told, node: NodeId) {
    if !graph.contains_node(node) {
        return told.push("no such node");
    }
    match graph[node].kind() {
        NodeKind::Definition => told.push("type"),
        NodeKind::Import(name) => {
            told.push("import ");
            told.push(name.as_str());
        }
        NodeKind::Instantiation => tell_instance(graph, told, node),
        NodeKind::Alias => tell_alias(graph, told, node),
    }
    tell_names(told, &graph[node]);
}

/// Tells the nodes of a graph in order, one a line: `import NAME`, `new PACKAGE NAME=NODE ..`, `NODE.NAME` or `type`, each with
/// its names.
pub(crate) fn tell_graph(graph: &CompositionGraph, told: &mut Told) {
    for node in graph.node_ids() {
        tell_node(graph, told, node);
        told.push("\n");
    }
}

/// Tells an error, and its place where it has one.
pub(crate) fn tell_error(told: &mut Told, error: &Error) {
    told.show(error);
    if let Some(span) = error.span() {
        tell_place(told, span);
    }
}
