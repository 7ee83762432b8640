//! Graphs as lines over types:
//! `package NAME WORLD`, `instance NAME PACKAGE`, `alias NAME INSTANCE EXPORT`, `import NAME ITEM`,
//! `pass INSTANCE IMPORT NODE`, `export NODE NAME` and `define NAME ITEM`.

use crate::lines::entries::put;
use crate::lines::words::{item_named, type_named};
use std::alloc::Global;
use wac_graph_core::{
    CompositionGraph, ExportError, ImportError, InstantiationArgumentError, NodeId, PackageId,
};
use wac_rows::{Told, Words};
use wac_types_base::{ItemKind, NamedMap, WorldId};
use wac_types_names::Package;

/// The bytes of `p:p`: it imports `f: func()`, and exports it as `g`.
pub const PACKAGE: [u8; 32] = [
    0x00, 0x61, 0x73, 0x6d, 0x0d, 0x00, 0x01, 0x00, 0x07, 0x05, 0x01, 0x40, 0x00, 0x01, 0x00, 0x0a,
    0x06, 0x01, 0x00, 0x01, 0x66, 0x01, 0x00, 0x0b, 0x07, 0x01, 0x00, 0x01, 0x67, 0x01, 0x00, 0x00,
];

/// The bytes before the name of a component that does nothing: its preamble, and a section of its own.
const PREAMBLE: [u8; 9] = [0x00, 0x61, 0x73, 0x6d, 0x0d, 0x00, 0x01, 0x00, 0x00];

/// What stands under the names of lines.
#[derive(Drop)]
pub struct Named {
    pub items: NamedMap<ItemKind>,
    packages: NamedMap<PackageId>,
    nodes: NamedMap<NodeId>,
}

impl Named {
    /// These items alone.
    pub fn new(alloc: Global, items: NamedMap<ItemKind>) -> Self {
        Named {
            items,
            packages: NamedMap::new(alloc),
            nodes: NamedMap::new(alloc),
        }
    }

    /// Adds a package under its name.
    pub fn add_package(&mut self, words: &mut Words<'_>, name: &str, package: Option<PackageId>) {
        if let Some(package) = package {
            put(words, &mut self.packages, name, package);
        }
    }

    /// Adds a node under its name.
    fn add_node(&mut self, words: &mut Words<'_>, name: &str, node: Option<NodeId>) {
        if let Some(node) = node {
            put(words, &mut self.nodes, name, node);
        }
    }

    /// The package of the next word.
    pub fn take_package(&self, words: &mut Words<'_>) -> Option<PackageId> {
        self.packages.get(words.take()).copied()
    }

    /// The node of the next word.
    pub fn take_node(&self, words: &mut Words<'_>) -> Option<NodeId> {
        self.nodes.get(words.take()).copied()
    }
}

/// The bytes of a package: those of `p:p`, or else of a component that is called so and does nothing.
fn bytes_of(words: &mut Words<'_>, name: &str) -> Vec<u8> {
    let mut bytes = Vec::new(words.alloc());
    if name == "p:p" {
        words.keep_all(&mut bytes, &PACKAGE);
        return bytes;
    }
    let length = u8::try_from(name.len()).unwrap_or(0);
    words.keep_all(&mut bytes, &PREAMBLE);
    words.keep_all(&mut bytes, &[length.wrapping_add(1), length]);
    words.keep_all(&mut bytes, name.as_bytes());
    bytes
}

/// Tells the refusal of an import, with the node that has its name.
fn tell_import_refusal(refusal: &mut Told, fault: &ImportError) {
    refusal.show(fault);
    if let ImportError::ImportAlreadyExists { node, .. } = fault {
        refusal.push(": ");
        refusal.show(node);
    }
}

/// Tells the refusal of an export, with the node that has its name.
fn tell_export_refusal(refusal: &mut Told, fault: &ExportError) {
    refusal.show(fault);
    if let ExportError::ExportAlreadyExists { node, .. } = fault {
        refusal.push(": ");
        refusal.show(node);
    }
}

/// Tells the refusal of an argument, with the instance that has no such import.
pub fn tell_argument_refusal(refusal: &mut Told, fault: &InstantiationArgumentError) {
    match fault {
        InstantiationArgumentError::InvalidArgumentName { node, .. } => {
            refusal.show(fault);
            refusal.push(": ");
            refusal.show(node);
        }
        InstantiationArgumentError::ArgumentTypeMismatch { name, .. } => {
            refusal.push("argument `");
            refusal.show(name);
            refusal.push("` has another type than the import");
        }
        _ => refusal.show(fault),
    }
}

/// Registers a package of that world.
pub fn register(
    graph: &mut CompositionGraph,
    refusal: &mut Told,
    name: &str,
    bytes: Vec<u8>,
    world: WorldId,
) -> Option<PackageId> {
    if !graph.types().has(ItemKind::Component(world)) {
        return refusal.refuse("the world does not stand");
    }
    let alloc = refusal.alloc();
    let mut adding = graph.types_mut();
    match Package::from_world(alloc, name, None, bytes, &mut adding, world) {
        Ok(package) if graph.package_stands(&package) => {
            refusal.given(graph.register_package(package))
        }
        Ok(_) => refusal.refuse("the package does not stand"),
        Err(fault) => {
            refusal.show(&fault);
            None
        }
    }
}

/// Adds the package that a line says.
fn add_package(
    graph: &mut CompositionGraph,
    named: &Named,
    refusal: &mut Told,
    words: &mut Words<'_>,
    name: &str,
) -> Option<PackageId> {
    match named.items.get(words.take()) {
        Some(ItemKind::Component(world)) => {
            let bytes = bytes_of(words, name);
            register(graph, refusal, name, bytes, *world)
        }
        _ => refusal.refuse("no such world"),
    }
}

/// Adds an instance.
fn add_instance(
    graph: &mut CompositionGraph,
    refusal: &mut Told,
    package: Option<PackageId>,
) -> Option<NodeId> {
    match package {
        Some(package) if graph.contains_package(package) => {
            refusal.given(graph.instantiate(package))
        }
        _ => refusal.refuse("the package does not stand"),
    }
}

/// Adds an alias of an instance's export.
fn add_alias(
    graph: &mut CompositionGraph,
    refusal: &mut Told,
    instance: Option<NodeId>,
    export: &str,
) -> Option<NodeId> {
    match instance {
        Some(instance) if graph.contains_node(instance) => {
            refusal.given(graph.alias_instance_export(instance, export))
        }
        _ => refusal.refuse("the instance does not stand"),
    }
}

/// Adds an import.
fn add_import(
    graph: &mut CompositionGraph,
    refusal: &mut Told,
    name: &str,
    item: ItemKind,
) -> Option<NodeId> {
    if !graph.types().has(item) {
        return refusal.refuse("the item does not stand");
    }
    match graph.import(name, item) {
        Ok(node) => Some(node),
        Err(fault) => {
            tell_import_refusal(refusal, &fault);
            None
        }
    }
}

/// Adds a definition.
fn add_definition(
    graph: &mut CompositionGraph,
    refusal: &mut Told,
    name: &str,
    item: ItemKind,
) -> Option<NodeId> {
    match item {
        ItemKind::Ty(ty) if graph.types().has(item) => {
            refusal.given(graph.define_type(name, ty))
        }
        _ => refusal.refuse("the type does not stand"),
    }
}

/// Adds the node that a line says.
fn add_node(
    graph: &mut CompositionGraph,
    named: &Named,
    refusal: &mut Told,
    words: &mut Words<'_>,
    (what, name): (&str, &str),
) -> Option<NodeId> {
    match what {
        "instance" => add_instance(graph, refusal, named.take_package(words)),
        "alias" => {
            let instance = named.take_node(words);
            add_alias(graph, refusal, instance, words.take())
        }
        "import" => {
            let of = words.take();
            add_import(graph, refusal, name, item_named(&named.items, words, of))
        }
        "define" => {
            let of = words.take();
            let ty = type_named(&named.items, words, of);
            add_definition(graph, refusal, name, ItemKind::Ty(ty))
        }
        _ => refusal.refuse("no such line of graphs"),
    }
}

/// Passes an argument.
fn pass(
    graph: &mut CompositionGraph,
    refusal: &mut Told,
    (instance, name, argument): (Option<NodeId>, &str, Option<NodeId>),
) {
    match (instance, argument) {
        (Some(instance), Some(argument))
            if graph.contains_node(instance) && graph.contains_node(argument) => {
            if let Err(fault) = graph.set_instantiation_argument(instance, name, argument) {
                tell_argument_refusal(refusal, &fault);
            }
        }
        _ => refusal.push("the instance or the argument does not stand"),
    }
}

/// Exports a node.
fn export(graph: &mut CompositionGraph, refusal: &mut Told, node: Option<NodeId>, name: &str) {
    match node {
        Some(node) if graph.contains_node(node) => {
            if let Err(fault) = graph.export(node, name) {
                tell_export_refusal(refusal, &fault);
            }
        }
        _ => refusal.push("the node does not stand"),
    }
}

/// Does what a line says whose first word is this. Told is the refusal of a call, with the node that it names.
pub fn do_line(
    graph: &mut CompositionGraph,
    named: &mut Named,
    refusal: &mut Told,
    words: &mut Words<'_>,
    what: &str,
) {
    match what {
        "package" => {
            let name = words.take();
            let package = add_package(graph, named, refusal, words, name);
            named.add_package(words, name, package);
        }
        "pass" => {
            let instance = named.take_node(words);
            let name = words.take();
            pass(graph, refusal, (instance, name, named.take_node(words)));
        }
        "export" => {
            let node = named.take_node(words);
            export(graph, refusal, node, words.take());
        }
        _ => {
            let name = words.take();
            let node = add_node(graph, named, refusal, words, (what, name));
            named.add_node(words, name, node);
        }
    }
}

/// Does what the lines of a text say. Told is each refusal.
pub fn add_lines(graph: &mut CompositionGraph, named: &mut Named, told: &mut Told, text: &str) {
    for line in text.split('\n') {
        if !line.is_empty() {
            let mut words = Words::new(told.alloc(), line);
            let what = words.take();
            do_line(graph, named, told, &mut words, what);
            told.push(words.fault());
        }
    }
}
