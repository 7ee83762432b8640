//! Packages from texts.

use semver::Version;
use std::alloc::{AllocError, Global};
use wac_graph_core::{CompositionGraph, NodeId};
use wac_parser_read::ParseDocument;
use wac_parser_resolve::{PackageRef, Packages, ResolveDocument};
use wac_parser_tree::Document;
use wac_rows::{Told, Words};
use wac_types_base::{ItemKind, NamedMap, Type, World, WorldId};
use wac_types_names::Package;

/// A package with the graph in whose collection its world stands.
#[derive(Drop)]
pub(crate) struct Handed {
    graph: CompositionGraph,
    package: Package,
}

/// The world that a node is the type of.
fn world_at(graph: &CompositionGraph, node: NodeId) -> Option<WorldId> {
    if !graph.contains_node(node) {
        return None;
    }
    match graph[node].item_kind() {
        ItemKind::Ty(Type::World(id)) => Some(id),
        _ => None,
    }
}

/// A world that exports one item.
fn exporting(alloc: Global, name: &str, item: ItemKind) -> Option<World> {
    let mut exports = NamedMap::new(alloc);
    let _ = exports
        .insert(String::from_str(alloc, name).ok()?, item)
        .ok()?;
    Some(World {
        id: None,
        uses: NamedMap::new(alloc),
        imports: NamedMap::new(alloc),
        exports,
    })
}

/// Adds a world that exports one item.
fn add_exporting(graph: &mut CompositionGraph, name: &str, item: ItemKind) -> Option<WorldId> {
    let world = exporting(graph.alloc(), name, item)?;
    if graph.types().has_ids_of(&world) {
        return graph.types_mut().add_world(world).ok();
    }
    None
}

/// The world of a package that defines a world.
fn defining(graph: &mut CompositionGraph, name: &str, world: WorldId) -> Option<WorldId> {
    let mut identifier = Told::new(graph.alloc());
    identifier.push(name);
    identifier.push("/e");
    let written = add_exporting(graph, identifier.text(), ItemKind::Component(world))?;
    add_exporting(graph, "e", ItemKind::Ty(Type::World(written)))
}

/// The world of a package: the `w` of its document, else a world that defines the `e` of it.
fn package_world(graph: &mut CompositionGraph, name: &str) -> Option<WorldId> {
    if let Some(node) = graph.get_export("w") {
        return world_at(graph, node);
    }
    let node = graph.get_export("e")?;
    let world = world_at(graph, node)?;
    defining(graph, name, world)
}

/// The graph of a document that names no packages. A fault is told.
fn graph_of<D: ResolveDocument>(
    document: &D,
    told: &mut Told,
    number: u64,
) -> Option<CompositionGraph> {
    let none: Packages<'_> = Packages::new(told.alloc());
    match document.resolve(told.alloc(), &none, number) {
        Ok(resolution) => Some(resolution.into_graph()),
        Err(fault) => {
            told.show(&fault);
            None
        }
    }
}

/// The name of a package, and its version.
type Key = (String, Option<Version>);

/// Documents whose directive names a package.
trait NameDocument: Sized {
    fn key(&self, alloc: Global) -> Result<Key, AllocError>;
}

impl<'s> NameDocument for Document<'s> {
    fn key(&self, alloc: Global) -> Result<Key, AllocError> {
        let package = &self.directive.package;
        let name = String::from_str(alloc, package.name)?;
        match &package.version {
            None => Ok((name, None)),
            Some(version) => Ok((name, Some(version.clone()?))),
        }
    }
}

/// The key and the graph of a source's document. A fault is told.
fn key_and_graph<'s, D: ParseDocument<'s> + ResolveDocument + NameDocument>(
    source: &'s str,
    told: &mut Told,
    number: u64,
) -> Option<(Key, CompositionGraph)> {
    match D::parse(told.alloc(), source) {
        Ok(document) => {
            let graph = graph_of(&document, told, number)?;
            Some((document.key(told.alloc()).ok()?, graph))
        }
        Err(fault) => {
            told.show(&fault);
            None
        }
    }
}

/// The package of a document's graph. A fault is told.
fn package_of(graph: &mut CompositionGraph, told: &mut Told, key: &Key) -> Option<Package> {
    let world = package_world(graph, key.0.as_str())?;
    if !graph.types().has(ItemKind::Component(world)) {
        return told.refuse("no such world");
    }
    let bytes = Vec::new(graph.alloc());
    let version = key.1.as_ref();
    told.given(
        graph
            .types_mut()
            .add_package(key.0.as_str(), version, bytes, world),
    )
}

/// The package that a source's document is. A fault is told.
fn hand(told: &mut Told, number: u64, source: &str) -> Option<Handed> {
    let (key, mut graph) = key_and_graph::<Document<'_>>(source, told, number)?;
    let package = package_of(&mut graph, told, &key)?;
    Some(Handed { graph, package })
}

/// The packages of the documents in the lines of a text, in collections of rising numbers. A fault is told.
pub(crate) fn hand_all(told: &mut Told, sources: &str) -> Vec<Handed> {
    let mut words = Words::new(told.alloc(), "");
    let mut handed = Vec::new(told.alloc());
    let mut number: u64 = 0;
    for source in sources.lines() {
        match hand(told, number, source) {
            Some(one) => words.keep(&mut handed, one),
            None => told.push("\nno package\n"),
        }
        number = number.saturating_add(1);
    }
    told.push(words.fault());
    handed
}

/// The packages under their keys.
pub(crate) fn packages_of<'a>(told: &mut Told, handed: &'a Vec<Handed>) -> Packages<'a> {
    let mut map: Packages<'a> = Packages::new(told.alloc());
    for one in handed {
        let found = PackageRef {
            package: &one.package,
            types: one.graph.types(),
        };
        if map.insert(one.package.key(), found).is_err() {
            told.push("out of memory");
        }
    }
    map
}
