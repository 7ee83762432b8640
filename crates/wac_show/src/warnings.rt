//! Warnings of what engines refuse, though it is composed.

use crate::mentions::{is_among, mentions, named_type};
use crate::origins::warn_of_instance;
use std::alloc::{AllocError, Global};
use wac_graph_core::{CompositionGraph, NodeId, NodeKind};
use wac_types_base::{InterfaceId, ItemKind, Types};
use wac_types_parts::parts::{export_at, export_count, identifier, interface_of};

/// How many accesses are followed from an instance to where it comes from.
const MAX_ACCESSES: u8 = 100;

/// Whether a node is an instance of a package.
fn is_instantiation(graph: &CompositionGraph, node: NodeId) -> bool {
    graph.contains_node(node) && matches!(graph[node].kind(), NodeKind::Instantiation)
}

/// Whether a node is an import.
fn is_import(graph: &CompositionGraph, node: NodeId) -> bool {
    graph.contains_node(node) && matches!(graph[node].kind(), NodeKind::Import(_))
}

/// Whether a node is among these.
fn is_listed(nodes: &[NodeId], node: NodeId) -> bool {
    for listed in nodes {
        if *listed == node {
            return true;
        }
    }
    false
}

/// Whether an instance, or one that it is an export of, is imported or among the exported ones.
fn has_names(graph: &CompositionGraph, exported: &[NodeId], instance: NodeId) -> bool {
    let mut at = instance;
    for _ in 0..MAX_ACCESSES {
        if is_import(graph, at) || is_listed(exported, at) {
            return true;
        }
        let Some((source, _)) = graph.get_alias_source(at) else {
            break;
        };
        at = source;
    }
    false
}

/// The kind of the item of a node.
fn kind_of(graph: &CompositionGraph, node: NodeId) -> Option<ItemKind> {
    if !graph.contains_node(node) {
        return None;
    }
    Some(graph[node].item_kind())
}

/// The function that a node is.
fn func_of(graph: &CompositionGraph, node: NodeId) -> Option<ItemKind> {
    match kind_of(graph, node) {
        Some(ItemKind::Func(id)) => Some(ItemKind::Func(id)),
        _ => None,
    }
}

/// The name in an interface of a type among these.
fn name_in<'a>(
    types: &'a Types,
    interface: InterfaceId,
    mentioned: &[ItemKind],
) -> Option<&'a str> {
    for at in 0..export_count(types, interface) {
        let item = export_at(types, interface, at)?;
        if let ItemKind::Ty(_) = item.kind {
            if let Some(named) = named_type(types, item.kind) {
                if is_among(mentioned, named) {
                    return Some(item.name);
                }
            }
        }
    }
    None
}

/// Tells which interface is to be exported.
fn tell_export(types: &Types, interface: InterfaceId, text: &mut String) -> Result<(), AllocError> {
    match identifier(types, interface) {
        None => text.push_str("engines refuse it; export its interface first\n"),
        Some(id) => write!(
            text,
            "engines refuse it; export the interface `{id}` first\n"
        ),
    }
}

/// Warns of an exported function of an instance, whose types nothing names.
fn warn_of_function(
    graph: &CompositionGraph,
    alloc: Global,
    export: &str,
    func: ItemKind,
    instance: NodeId,
    text: &mut String,
) -> Result<(), AllocError> {
    let types = graph.types();
    let Some(kind) = kind_of(graph, instance) else {
        return Ok(());
    };
    let Some(interface) = interface_of(types, kind) else {
        return Ok(());
    };
    let mentioned = mentions(types, alloc, func)?;
    let Some(name) = name_in(types, interface, &mentioned) else {
        return Ok(());
    };
    write!(
        text,
        "warning: the export \"{export}\" is a function over the type `{name}`, "
    )?;
    text.push_str("which nothing before it exports: ")?;
    tell_export(types, interface, text)
}

/// Warns of an export behind those that are exported.
fn warn_of_export(
    graph: &CompositionGraph,
    alloc: Global,
    exported: &[NodeId],
    export: &str,
    node: NodeId,
    text: &mut String,
) -> Result<(), AllocError> {
    let Some(func) = func_of(graph, node) else {
        return Ok(());
    };
    let Some((instance, name)) = graph.get_alias_source(node) else {
        return Ok(());
    };
    if name.starts_with('[') {
        write!(
            text,
            "warning: the export \"{export}\" is a function of a resource: "
        )?;
        return text.push_str("engines refuse it; export its interface alone\n");
    }
    if is_instantiation(graph, instance) || has_names(graph, exported, instance) {
        return Ok(());
    }
    warn_of_function(graph, alloc, export, func, instance, text)
}

/// Warns of exports.
fn warn_of_exports(
    graph: &CompositionGraph,
    alloc: Global,
    text: &mut String,
) -> Result<(), AllocError> {
    let mut exported = Vec::new(alloc);
    let listed = graph.exports();
    for at in 0..listed.len() {
        let (name, node) = listed.entry(at);
        warn_of_export(graph, alloc, &exported, name, node, text)?;
        exported.push(node)?;
    }
    Ok(())
}

/// The types that are imported by themselves.
fn imported_types(graph: &CompositionGraph, alloc: Global) -> Result<Vec<ItemKind>, AllocError> {
    let mut imported = Vec::new(alloc);
    for node in graph.node_ids() {
        if is_import(graph, node) {
            if let Some(ItemKind::Ty(ty)) = kind_of(graph, node) {
                if let Some(named) = named_type(graph.types(), ItemKind::Ty(ty)) {
                    imported.push(named)?;
                }
            }
        }
    }
    Ok(imported)
}

/// The name of a declared type that is among the mentioned ones, and not among the imported ones.
fn declared_name<'a>(
    graph: &'a CompositionGraph,
    mentioned: &[ItemKind],
    imported: &[ItemKind],
    node: NodeId,
) -> Option<&'a str> {
    if !graph.contains_node(node) || !matches!(graph[node].kind(), NodeKind::Definition) {
        return None;
    }
    let named = named_type(graph.types(), graph[node].item_kind())?;
    if !is_among(mentioned, named) || is_among(imported, named) {
        return None;
    }
    graph[node].export_name()
}

/// Warns of an imported function over types that the document declares.
fn warn_of_imported(
    graph: &CompositionGraph,
    alloc: Global,
    imported: &[ItemKind],
    import: &str,
    func: ItemKind,
    text: &mut String,
) -> Result<(), AllocError> {
    let mentioned = mentions(graph.types(), alloc, func)?;
    for node in graph.node_ids() {
        if let Some(name) = declared_name(graph, &mentioned, imported, node) {
            write!(
                text,
                "warning: the import \"{import}\" is a function over the type `{name}`, "
            )?;
            text.push_str(
                "which nothing imports: engines refuse it; write both in an interface\n",
            )?;
            return Ok(());
        }
    }
    Ok(())
}

/// The name under which a node is imported.
fn import_name(graph: &CompositionGraph, node: NodeId) -> Option<&str> {
    if !graph.contains_node(node) {
        return None;
    }
    graph.get_import_name(node)
}

/// Warns of imports.
fn warn_of_imports(
    graph: &CompositionGraph,
    alloc: Global,
    text: &mut String,
) -> Result<(), AllocError> {
    let imported = imported_types(graph, alloc)?;
    for node in graph.node_ids() {
        if let Some(func) = func_of(graph, node) {
            if let Some(import) = import_name(graph, node) {
                warn_of_imported(graph, alloc, &imported, import, func, text)?;
            }
        }
    }
    Ok(())
}

/// The warnings of a graph, each a line.
pub(crate) fn warnings(graph: &CompositionGraph, alloc: Global) -> Result<String, AllocError> {
    let mut text = String::new(alloc);
    warn_of_exports(graph, alloc, &mut text)?;
    warn_of_imports(graph, alloc, &mut text)?;
    for node in graph.node_ids() {
        warn_of_instance(graph, alloc, node, &mut text)?;
    }
    Ok(text)
}
