//! The types that documents declare, and the texts and places of refusals.

use crate::resolved::items::tell_item;
use crate::resolved::shown::tell_error;
use wac_graph_core::CompositionGraph;
use wac_parser_read::ParseDocument;
use wac_parser_resolve::{Packages, ResolveDocument};
use wac_rows::Told;

// What owns a document is generic in its type: a proof then need not take the whole tree of types apart.

/// The number of the graph's collection.
const NUMBER: u64 = 7;

/// Tells the item of a name: exported, or imported.
fn tell_named(graph: &CompositionGraph, told: &mut Told, name: &str) {
    for node in graph.nodes() {
        if node.export_name() == Some(name) || node.import_name() == Some(name) {
            return tell_item(graph.types(), told, node.item_kind());
        }
    }
    told.push("nothing named ");
    told.push(name);
}

/// Tells what a document over no packages is.
fn tell_resolved<D: ResolveDocument>(document: &D, told: &mut Told, name: &str) {
    let packages: Packages<'_> = Packages::new(told.alloc());
    match document.resolve(told.alloc(), &packages, NUMBER) {
        Ok(resolution) => tell_named(resolution.graph(), told, name),
        Err(error) => tell_error(told, &error),
    }
}

/// Tells what a source's document over no packages is: the text of the item of a name, or of the refusal with its place.
pub(crate) fn tell_declared<'s, D: ParseDocument<'s> + ResolveDocument>(
    source: &'s str,
    told: &mut Told,
    name: &str,
) {
    match D::parse(told.alloc(), source) {
        Ok(document) => tell_resolved(&document, told, name),
        Err(fault) => told.show(&fault),
    }
}
