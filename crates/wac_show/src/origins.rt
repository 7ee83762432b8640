//! Where the interfaces that an instance is given come from.

use crate::mentions::{is_among, mentions, named_type};
use std::alloc::{AllocError, Global};
use wac_graph_core::{CompositionGraph, NodeId};
use wac_types_base::{InterfaceId, ItemKind, Type, Types, WorldId};
use wac_types_names::are_semver_compatible;
use wac_types_parts::parts::{
    Item, export_at, export_count, import_at, import_count, interface_of,
};

/// Where an interface comes from: it is an export of an instance, or an import of the output.
#[derive(Clone, Copy, Drop)]
struct Origin<'a> {
    instance: Option<NodeId>,
    name: &'a str,
}

/// An import of the output.
fn outer(name: &str) -> Origin<'_> {
    Origin {
        instance: None,
        name,
    }
}

/// An export of an instance.
fn inner(instance: NodeId, name: &str) -> Origin<'_> {
    Origin {
        instance: Some(instance),
        name,
    }
}

/// The world of the package that a node is an instance of.
fn world_at(graph: &CompositionGraph, node: NodeId) -> Option<WorldId> {
    if !graph.contains_node(node) {
        return None;
    }
    let package = graph[node].package()?;
    if !graph.contains_package(package) {
        return None;
    }
    Some(graph[package].ty())
}

/// The names of a world's imports, and of its exports.
fn names_of(types: &Types, world: WorldId) -> (&[String], &[String]) {
    if !types.has(ItemKind::Component(world)) {
        return (&[], &[]);
    }
    let world = types.world(world);
    (world.imports.names(), world.exports.names())
}

/// What is passed to an instance under a name.
fn argument_of(graph: &CompositionGraph, node: NodeId, wanted: &str) -> Option<NodeId> {
    if !graph.contains_node(node) {
        return None;
    }
    for (name, argument) in graph.get_instantiation_arguments(node) {
        if name == wanted {
            return Some(argument);
        }
    }
    None
}

/// The name on the version track of another.
fn compatible<'a>(
    alloc: Global,
    names: &'a [String],
    wanted: &str,
) -> Result<Option<&'a str>, AllocError> {
    for name in names {
        if are_semver_compatible(alloc, name.as_str(), wanted)? {
            return Ok(Some(name.as_str()));
        }
    }
    Ok(None)
}

/// Where a node comes from.
fn node_origin(graph: &CompositionGraph, node: NodeId) -> Option<Origin<'_>> {
    if !graph.contains_node(node) {
        return None;
    }
    if let Some(name) = graph[node].import_name() {
        return Some(outer(name));
    }
    match graph.get_alias_source(node) {
        Some((instance, name)) => Some(inner(instance, name)),
        None => None,
    }
}

/// Where an import of an instance comes from: what is left open is an import of the output.
fn import_origin<'a>(
    graph: &'a CompositionGraph,
    node: NodeId,
    name: &'a str,
) -> Option<Origin<'a>> {
    match argument_of(graph, node, name) {
        None => Some(outer(name)),
        Some(argument) => node_origin(graph, argument),
    }
}

/// Where an interface comes from for the exports of an instance that use it: it is an export beside them, else an import.
fn origin_beside<'a>(
    graph: &'a CompositionGraph,
    alloc: Global,
    node: NodeId,
    used: &str,
) -> Result<Option<Origin<'a>>, AllocError> {
    let Some(world) = world_at(graph, node) else {
        return Ok(None);
    };
    let (imports, exports) = names_of(graph.types(), world);
    if let Some(name) = compatible(alloc, exports, used)? {
        return Ok(Some(inner(node, name)));
    }
    match compatible(alloc, imports, used)? {
        None => Ok(None),
        Some(name) => Ok(import_origin(graph, node, name)),
    }
}

/// Where an interface comes from for what an instance is given under a name.
fn origin_for<'a>(
    graph: &'a CompositionGraph,
    alloc: Global,
    node: NodeId,
    name: &'a str,
    used: &'a str,
) -> Result<Option<Origin<'a>>, AllocError> {
    let Some(origin) = import_origin(graph, node, name) else {
        return Ok(None);
    };
    match origin.instance {
        None => Ok(Some(outer(used))),
        Some(instance) => origin_beside(graph, alloc, instance, used),
    }
}

/// Whether two nodes, or none, are one.
fn are_same(one: Option<NodeId>, other: Option<NodeId>) -> bool {
    match (one, other) {
        (None, None) => true,
        (Some(one), Some(other)) => one == other,
        _ => false,
    }
}

/// Whether two origins are one.
fn are_one(alloc: Global, one: &Origin<'_>, other: &Origin<'_>) -> Result<bool, AllocError> {
    if !are_same(one.instance, other.instance) {
        return Ok(false);
    }
    are_semver_compatible(alloc, one.name, other.name)
}

/// Whether what an instance is given under two names comes from two places, where the first uses the second.
fn is_apart<'a>(
    graph: &'a CompositionGraph,
    alloc: Global,
    node: NodeId,
    user: &'a str,
    used: &'a str,
) -> Result<bool, AllocError> {
    let there = match origin_for(graph, alloc, node, user, used) {
        Err(fault) => return Err(fault),
        Ok(None) => return Ok(false),
        Ok(Some(there)) => there,
    };
    let Some(here) = import_origin(graph, node, used) else {
        return Ok(false);
    };
    Ok(!are_one(alloc, &here, &there)?)
}

/// Whether an interface takes the type of a name from another one.
fn is_used(types: &Types, interface: InterfaceId, name: &str) -> bool {
    types.has(ItemKind::Instance(interface)) && types.interface(interface).uses.contains(name)
}

/// The resource that an item is, if it is one among these.
fn resource_among(types: &Types, mentioned: &[ItemKind], item: Item<'_>) -> bool {
    match item.kind {
        ItemKind::Ty(Type::Resource(_)) => match named_type(types, item.kind) {
            None => false,
            Some(named) => is_among(mentioned, named),
        },
        _ => false,
    }
}

/// The name of a resource that an interface declares and that is among these.
fn shared_resource<'a>(
    types: &'a Types,
    interface: InterfaceId,
    mentioned: &[ItemKind],
) -> Option<&'a str> {
    for at in 0..export_count(types, interface) {
        let item = export_at(types, interface, at)?;
        if resource_among(types, mentioned, item) && !is_used(types, interface, item.name) {
            return Some(item.name);
        }
    }
    None
}

/// Warns where an instance is given an interface and one that it uses from two places.
fn warn_of_pair<'a>(
    graph: &'a CompositionGraph,
    alloc: Global,
    node: NodeId,
    user: &'a str,
    used: Item<'a>,
    mentioned: &[ItemKind],
    text: &mut String,
) -> Result<(), AllocError> {
    let Some(interface) = interface_of(graph.types(), used.kind) else {
        return Ok(());
    };
    let Some(resource) = shared_resource(graph.types(), interface, mentioned) else {
        return Ok(());
    };
    let used = used.name;
    if user == used || !is_apart(graph, alloc, node, user, used)? {
        return Ok(());
    }
    text.push_str("warning: the instance ")?;
    push_instance(graph, node, text)?;
    write!(text, " is given `{user}` and `{used}` from two places, ")?;
    write!(text, "but they share the resource `{resource}`: ")?;
    text.push_str("engines refuse it; pass both from one instance\n")
}

/// The name of an instance, or the key of its package where it has none.
fn push_instance(
    graph: &CompositionGraph,
    node: NodeId,
    text: &mut String,
) -> Result<(), AllocError> {
    if !graph.contains_node(node) {
        return Ok(());
    }
    if let Some(name) = graph[node].name() {
        return write!(text, "\"{name}\"");
    }
    let Some(package) = graph[node].package() else {
        return Ok(());
    };
    if !graph.contains_package(package) {
        return Ok(());
    }
    write!(text, "of `{}`", graph[package].key())
}

/// Warns of what an instance is given under a name and what that uses.
fn warn_of_import<'a>(
    graph: &'a CompositionGraph,
    alloc: Global,
    node: NodeId,
    world: WorldId,
    user: Item<'a>,
    text: &mut String,
) -> Result<(), AllocError> {
    let types = graph.types();
    if interface_of(types, user.kind).is_none() {
        return Ok(());
    }
    let mentioned = mentions(types, alloc, user.kind)?;
    for at in 0..import_count(types, world) {
        if let Some(used) = import_at(types, world, at) {
            warn_of_pair(graph, alloc, node, user.name, used, &mentioned, text)?;
        }
    }
    Ok(())
}

/// Warns where an instance is given two interfaces from two places, though they share a resource.
pub(crate) fn warn_of_instance(
    graph: &CompositionGraph,
    alloc: Global,
    node: NodeId,
    text: &mut String,
) -> Result<(), AllocError> {
    let Some(world) = world_at(graph, node) else {
        return Ok(());
    };
    for at in 0..import_count(graph.types(), world) {
        if let Some(user) = import_at(graph.types(), world, at) {
            warn_of_import(graph, alloc, node, world, user, text)?;
        }
    }
    Ok(())
}
