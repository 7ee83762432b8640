//! Rows of graphs that are encoded.
mod answer;

use crate::lines::{Named, add_lines, add_types, register};
use answer::{Manner, encoded_of, tell_encoded};
use std::alloc::Global;
use wac_graph_core::CompositionGraph;
use wac_graph_encode::Encoded;
use wac_rows::{Row, RowTeller, Told, Words};
use wac_types_base::ItemKind;
use wac_types_names::copy_world;

/// The number of a graph's collection of types.
const NUMBER: u64 = 7;

/// Encodes what a row says. Its parts are `types` and `graph`, and beside them, where a row has them: `options`; `processor`, a
/// name and a version; `shown` with the name of what is looked at; `inner_types` and `inner_graph`, a composition that is
/// registered as the package of that name.
pub struct EncodeRows;

/// How a row's graph is encoded.
fn manner_of<'a>(told: &mut Told, row: &Row<'a>) -> Manner<'a> {
    let mut manner = Manner {
        imports_packages: false,
        omits_validation: false,
        processor: row.text("processor"),
    };
    for line in row.text_or_nothing("options").split('\n') {
        match line {
            "" => {}
            "packages imported" => manner.imports_packages = true,
            "names not validated" => manner.omits_validation = true,
            _ => told.push("no such option"),
        }
    }
    manner
}

/// Encodes a graph of these lines over these types, which is empty yet.
fn composed(
    graph: &mut CompositionGraph,
    told: &mut Told,
    types: &str,
    text: &str,
) -> Option<Encoded> {
    let mut words = Words::new(told.alloc(), types);
    let items = add_types(graph, &mut words);
    told.push(words.fault());
    let mut named = Named::new(told.alloc(), items);
    add_lines(graph, &mut named, told, text);
    let manner = Manner {
        imports_packages: false,
        omits_validation: false,
        processor: None,
    };
    let encoded = encoded_of(graph, manner, told);
    told.given(encoded)
}

/// A composition of these lines over these types.
fn composition(alloc: Global, told: &mut Told, types: &str, text: &str) -> Option<Encoded> {
    let mut graph = CompositionGraph::new(alloc, NUMBER);
    composed(&mut graph, told, types, text)
}

/// Registers a composition as the package of a name.
fn register_composition(
    graph: &mut CompositionGraph,
    named: &mut Named,
    told: &mut Told,
    name: &str,
    encoded: Encoded,
) {
    let mut words = Words::new(told.alloc(), "");
    if !encoded.types.has(ItemKind::Component(encoded.world)) {
        return told.push("the world does not stand");
    }
    let alloc = told.alloc();
    let mut adding = graph.types_mut();
    let copied = copy_world(alloc, &encoded.types, encoded.world, &mut adding);
    if let Some(world) = told.given(copied) {
        let package = register(graph, told, name, encoded.bytes, world);
        named.add_package(&mut words, name, package);
    }
    told.push(words.fault());
}

/// Registers the composition that a row has as a package.
fn add_composition(
    graph: &mut CompositionGraph,
    named: &mut Named,
    told: &mut Told,
    row: &Row<'_>,
) {
    if let Some(text) = row.text("inner_graph") {
        let types = row.text_or_nothing("inner_types");
        if let Some(encoded) = composition(told.alloc(), told, types, text) {
            register_composition(graph, named, told, row.name_of("inner_graph"), encoded);
        }
    }
}

/// Tells what a row's graph, which is empty yet, is encoded to.
fn tell_row(graph: &mut CompositionGraph, told: &mut Told, row: &Row<'_>) {
    let mut words = Words::new(told.alloc(), row.text_or_nothing("types"));
    let items = add_types(graph, &mut words);
    told.push(words.fault());
    let mut named = Named::new(told.alloc(), items);
    add_composition(graph, &mut named, told, row);
    add_lines(graph, &mut named, told, row.text_or_nothing("graph"));
    let manner = manner_of(told, row);
    tell_encoded(graph, manner, told, row.name_of("shown"));
}

impl RowTeller for EncodeRows {
    fn tell(&self, told: &mut Told, row: &Row<'_>) {
        let mut graph = CompositionGraph::new(told.alloc(), NUMBER);
        tell_row(&mut graph, told, row);
    }
}
