//! The types that worlds of packages use themselves, which the root imports.

use std::alloc::{AllocError, Global};
use wac_graph_asks::asks::Asked;
use wac_graph_asks::nodes::{Arguments, package_of};
use wac_graph_core::{CompositionGraph, NodeId};
use wac_types_base::{NamedMap, Text, Types, UsedType, WorldId};
use wac_types_parts::maps::insert_under;
use wac_types_parts::parts::{Use, identifier, import_named, world_use_at, world_use_count};

/// Adds a use, unless one gives its name. That of an interface without identifier is left out, since nothing is
/// imported of it.
fn add_use(
    alloc: Global,
    types: &Types,
    used: Use<'_>,
    uses: &mut NamedMap<UsedType>,
) -> Result<(), AllocError> {
    if uses.contains(used.name) || identifier(types, used.interface).is_none() {
        return Ok(());
    }
    let there = Text::new(String::from_str(alloc, used.there)?);
    let one = UsedType {
        interface: used.interface,
        name: Some(there),
    };
    insert_under(alloc, uses, used.name, one)
}

/// Adds those uses of a world that give imports which are not bound.
fn add_unbound(
    alloc: Global,
    types: &Types,
    world: WorldId,
    bound: &Arguments,
    uses: &mut NamedMap<UsedType>,
) -> Result<(), AllocError> {
    for at in 0..world_use_count(types, world) {
        if let Some(used) = world_use_at(types, world, at) {
            let imported = import_named(types, world, used.name).is_some();
            if imported && bound.get(used.name).is_none() {
                add_use(alloc, types, used, uses)?;
            }
        }
    }
    Ok(())
}

/// Adds the uses of an instance's world that give imports for which it has no argument.
fn add_uses_of_instance(
    graph: &CompositionGraph,
    asked: &Asked,
    node: NodeId,
    uses: &mut NamedMap<UsedType>,
) -> Result<(), AllocError> {
    let Some(package) = package_of(graph, node) else {
        return Ok(());
    };
    let Some(world) = asked.packages.get(&package) else {
        return Ok(());
    };
    if world_use_count(&asked.types, *world) == 0 {
        return Ok(());
    }
    let alloc = graph.alloc();
    let bound = Arguments::of(alloc, graph, node)?;
    add_unbound(alloc, &asked.types, *world, &bound, uses)
}

/// Which imports of the root are used types: those that the worlds of instances use themselves. Of uses of one name the
/// first is taken, by the order of the instances.
pub(crate) fn uses_of_instances(
    graph: &CompositionGraph,
    asked: &Asked,
) -> Result<NamedMap<UsedType>, AllocError> {
    let mut uses = NamedMap::new(graph.alloc());
    for node in graph.node_ids() {
        add_uses_of_instance(graph, asked, node, &mut uses)?;
    }
    Ok(uses)
}
