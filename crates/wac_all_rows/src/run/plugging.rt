//! Packages of a workspace that are plugged into one of them: by a text, and by calls of a graph.

ghost use Rattle.std.specs.Prelude.{IfSome};
ghost use Rattle.wac_graph_core.specs.Graph.{ContainsPackage};
ghost use Rattle.wac_texts.specs.Worlds.{HasWorld};

use crate::run::resolving::{leaves_of, tell_resolved};
use crate::run::wirings::tell_wiring;
use wac::{PackageRef, PlugTextError, Workspace, plug_text};
use wac_graph_core::{CompositionGraph, PackageId};
use wac_graph_encode::{EncodeGraph, EncodeOptions};
use wac_graph_plug::{PlugError, plug};
use wac_reader::Leaf;
use wac_rows::{Told, Words};
use wac_types_base::{ItemKind, WorldId};
use wac_types_names::copy_world;

/// The number of a graph's collection.
const NUMBER: u64 = u64::MAX;

/// The package of a name.
fn package_of<'a>(workspace: &'a Workspace, name: &str) -> Option<PackageRef<'a>>
    ensures { IfSome result HasWorld }
{
    match workspace.get(name, None) {
        Some(package) => Some(package),
        None => None,
    }
}

/// The text that plugs at most two packages into a socket, whose names are the next words behind that of the document. None where
/// there is no such socket.
fn spelled(
    workspace: &Workspace,
    told: &mut Told,
    words: &mut Words<'_>,
) -> Option<Result<String, PlugTextError>> {
    let name = words.take();
    let socket = package_of(workspace, words.take())?;
    let first = package_of(workspace, words.take());
    let second = package_of(workspace, words.take());
    Some(match (first, second) {
        (Some(first), Some(second)) => plug_text(told.alloc(), name, &[first, second], socket),
        (Some(first), None) => plug_text(told.alloc(), name, &[first], socket),
        _ => plug_text(told.alloc(), name, &[], socket),
    })
}

/// Tells the text that plugs packages into a socket, as it stands in quotes, or the refusal.
pub(crate) fn tell_spelled(workspace: &Workspace, told: &mut Told, words: &mut Words<'_>) {
    match spelled(workspace, told, words) {
        Some(Ok(text)) => told.show_debug(&text.as_str()),
        Some(Err(fault)) => told.show(&fault),
        None => told.push("no such socket"),
    }
}

/// Registers a package of a world that stands, without version. A fault is told.
fn register(
    graph: &mut CompositionGraph,
    told: &mut Told,
    name: &str,
    bytes: Vec<u8>,
    world: WorldId,
) -> Option<PackageId> {
    if !graph.types().has(ItemKind::Component(world)) {
        return told.refuse("the copied world does not stand");
    }
    match graph.types_mut().add_package(name, None, bytes, world) {
        Ok(package) if graph.package_stands(&package) => {
            told.given(graph.register_package(package))
        }
        _ => told.refuse("the package does not stand"),
    }
}

/// Registers a copy of a package. A fault is told.
fn register_copy(
    graph: &mut CompositionGraph,
    told: &mut Told,
    package: PackageRef<'_>,
) -> Option<PackageId> {
    let world = package.package.ty();
    if !package.types.has(ItemKind::Component(world)) {
        return told.refuse("the world does not stand");
    }
    let alloc = told.alloc();
    let bytes = told.given(Vec::from_slice(alloc, package.package.bytes()))?;
    let mut adding = graph.types_mut();
    let copied = copy_world(alloc, package.types, world, &mut adding);
    let world = told.given(copied)?;
    register(graph, told, package.package.name(), bytes, world)
}

/// Plugs a package into a socket.
fn plug_one(
    graph: &mut CompositionGraph,
    first: PackageId,
    socket: PackageId,
) -> Result<(), PlugError>
    requires first { ContainsPackage graph.old first }
    requires socket { ContainsPackage graph.old socket }
{
    let plugs = Vec::from_slice(graph.alloc(), &[first])?;
    plug(graph.alloc(), graph, plugs, socket)
}

/// Plugs a package into a socket. A fault is told.
fn tell_plug(graph: &mut CompositionGraph, told: &mut Told, first: PackageId, socket: PackageId) {
    if !graph.contains_package(first) || !graph.contains_package(socket) {
        return told.push("the package does not stand");
    }
    told.end(plug_one(graph, first, socket));
}

/// Tells the wiring of a graph.
fn tell_graph(graph: &CompositionGraph, told: &mut Told, leaves: &[Leaf]) {
    if let Some(bytes) = told.given(graph.encode(EncodeOptions::default())) {
        tell_wiring(told, &bytes, leaves);
    }
}

/// Tells the wiring of a package that is plugged into a socket in a graph which is empty yet.
fn tell_calls(
    graph: &mut CompositionGraph,
    told: &mut Told,
    (first, socket): (PackageRef<'_>, PackageRef<'_>),
    leaves: &[Leaf],
) {
    let first = register_copy(graph, told, first);
    let socket = register_copy(graph, told, socket);
    if let (Some(first), Some(socket)) = (first, socket) {
        tell_plug(graph, told, first, socket);
        tell_graph(graph, told, leaves);
    }
}

/// Tells the wiring of plugging by calls.
fn tell_called(workspace: &Workspace, told: &mut Told, socket: &str, first: &str) {
    let leaves = leaves_of(told, workspace);
    match (package_of(workspace, first), package_of(workspace, socket)) {
        (Some(first), Some(socket)) => {
            let mut graph = CompositionGraph::new(told.alloc(), NUMBER);
            tell_calls(&mut graph, told, (first, socket), &leaves);
        }
        _ => told.push("no such package"),
    }
}

/// Tells the wiring of the text that plugs a package into a socket, and that of plugging by calls of a graph where it is another.
pub(crate) fn tell_plugged(workspace: &Workspace, told: &mut Told, words: &mut Words<'_>) {
    let mut rest = *words;
    let mut by_text = Told::new(told.alloc());
    match spelled(workspace, &mut by_text, words) {
        Some(Ok(text)) => tell_resolved(workspace, &mut by_text, text.as_str()),
        Some(Err(fault)) => by_text.show(&fault),
        None => by_text.push("no such socket"),
    }
    let mut by_calls = Told::new(told.alloc());
    let _ = rest.take();
    let socket = rest.take();
    tell_called(workspace, &mut by_calls, socket, rest.take());
    let _ = by_text.compare(&by_calls);
    told.push(by_text.text());
}
