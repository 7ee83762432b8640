//! The order in which exports are written.

ghost use Rattle.std.specs.Prelude.{◌≡◌, [], length, IfOk};
ghost use Rattle.wac_graph_scopes.specs.Orders.{IsOrder};

use std::alloc::{AllocError, Global};
use wac_graph_asks::nodes::kind_of;
use wac_graph_core::CompositionGraph;
use wac_graph_scopes::order::{needs_of_item, order_by_needs};
use wac_types_base::{ItemKind, NamedMap};

/// Where the exports of a graph stand, by their names.
fn export_places(alloc: Global, graph: &CompositionGraph) -> Result<NamedMap<usize>, AllocError> {
    let mut places = NamedMap::new(alloc);
    let listed = graph.exports();
    for at in 0..listed.len() {
        let (name, _) = listed.entry(at);
        let _ = places.insert(String::from_str(alloc, name)?, at)?;
    }
    Ok(places)
}

/// Where the exports stand that the one at a place uses.
fn needs_of_export(
    alloc: Global,
    graph: &CompositionGraph,
    found: &NamedMap<usize>,
    at: usize,
) -> Result<Vec<usize>, AllocError> {
    match exported_kind(graph, at) {
        Some(kind) => needs_of_item(alloc, graph.types(), found, kind),
        None => Ok(Vec::new(alloc)),
    }
}

/// What is exported at a place.
fn exported_kind(graph: &CompositionGraph, at: usize) -> Option<ItemKind> {
    match graph.exports().entry_at(at) {
        Some((_, node)) => kind_of(graph, node),
        None => None,
    }
}

/// Of each export, where those stand that it uses.
fn needs_of_exports(alloc: Global, graph: &CompositionGraph) -> Result<Vec<Vec<usize>>, AllocError>
    ensures { IfOk result (λ v. length v.items ≡ length graph.now.exports) }
{
    let count = graph.exports().len();
    let found = export_places(alloc, graph)?;
    let mut needs = Vec::new(alloc);
    for at in 0..count {
        needs.push(needs_of_export(alloc, graph, &found, at)?)?;
    }
    Ok(needs)
}

/// The order in which the exports of a graph are written: as they are listed, but each behind those that it uses.
pub(crate) fn export_order(graph: &CompositionGraph) -> Result<Vec<usize>, AllocError>
    ensures { IfOk result (λ v. IsOrder (length graph.now.exports) [] v.items) }
{
    let alloc = graph.alloc();
    let needs = needs_of_exports(alloc, graph)?;
    order_by_needs(alloc, needs)
}
