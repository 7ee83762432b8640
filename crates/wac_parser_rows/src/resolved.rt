//! Rows of documents: packages and a document as texts, and what it declares, the graph or the refusal that comes of them.
mod declared;
mod handed;
mod items;
mod reading;
mod shown;

use declared::tell_declared;
use handed::{Handed, hand_all, packages_of};
use reading::tell_read;
use shown::{tell_error, tell_graph};
use wac_parser_read::ParseDocument;
use wac_parser_resolve::{Packages, ResolveDocument};
use wac_parser_tree::Document;
use wac_rows::{Row, RowTeller, Told};

// What owns a document is generic in its type, and named where no document is there yet: a proof then need not take the
// whole tree of types apart.

/// Tells the graph of a document over packages, or its fault.
fn tell_over<D: ResolveDocument>(document: &D, told: &mut Told, packages: &Packages<'_>) {
    match document.resolve(told.alloc(), packages, 100) {
        Ok(resolution) => tell_graph(resolution.graph(), told),
        Err(error) => tell_error(told, &error),
    }
}

/// Tells the graph of a source's document over packages that were handed in.
fn tell_resolved<'s, D: ParseDocument<'s> + ResolveDocument>(
    source: &'s str,
    told: &mut Told,
    handed: &Vec<Handed>,
) {
    let packages = packages_of(told, handed);
    match D::parse(told.alloc(), source) {
        Ok(document) => tell_over(&document, told, &packages),
        Err(fault) => told.show(&fault),
    }
}

/// Tells what comes of a document over packages.
fn tell_documents(told: &mut Told, row: &Row<'_>) {
    let handed = hand_all(told, row.text_or_nothing("packages"));
    tell_resolved::<Document<'_>>(row.text_or_nothing("source"), told, &handed);
}

/// A row's first part has the source: `declares` with the name of an item, or `reads`. Else the row has the part `packages`, a
/// document in each line, and the part `source`, the document over them.
pub struct ResolveRows;

impl RowTeller for ResolveRows {
    fn tell(&self, told: &mut Told, row: &Row<'_>) {
        let part = row.first();
        match part.kind {
            "declares" => tell_declared::<Document<'_>>(part.source(), told, part.name),
            "reads" => tell_read::<Document<'_>>(part.source(), told),
            _ => tell_documents(told, row),
        }
    }
}
