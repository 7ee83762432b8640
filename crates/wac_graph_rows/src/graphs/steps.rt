//! Steps on a graph: lines that build it, as `lines` does them; lines `unregister PACKAGE`, `remove NODE`,
//! `unexport NODE`, `unpass INSTANCE IMPORT NODE`, `name NODE TEXT`, `copy NUMBER`, `plug SOCKET PACKAGE ..`; and lines
//! `tell WHAT NAME`.

ghost use Rattle.wac_graph_core.specs.Graph.{ContainsPackage};

use crate::graphs::answers::tell_answer;
use crate::lines::{Named, do_line, tell_argument_refusal};
use wac_graph_core::{CompositionGraph, InstantiationArgumentError, NodeId, PackageId};
use wac_graph_plug::{PlugError, PlugFault, plug};
use wac_rows::{Told, Words};

/// Takes a package away, and its instances.
fn unregister(graph: &mut CompositionGraph, refusal: &mut Told, package: Option<PackageId>) {
    match package {
        Some(package) if graph.contains_package(package) => {
            refusal.end(graph.unregister_package(package));
        }
        _ => refusal.push("the package does not stand"),
    }
}

/// Changes a node: takes it or its export away, or gives it a name.
fn change_node(
    graph: &mut CompositionGraph,
    refusal: &mut Told,
    node: NodeId,
    what: &str,
    name: &str,
) {
    if !graph.contains_node(node) {
        return refusal.push("the node does not stand");
    }
    match what {
        "remove" => refusal.end(graph.remove_node(node)),
        "unexport" => refusal.end(graph.unexport(node)),
        _ => refusal.end(graph.set_node_name(node, name)),
    }
}

/// Takes an argument back.
fn unpass(
    graph: &mut CompositionGraph,
    refusal: &mut Told,
    (instance, name, argument): (Option<NodeId>, &str, Option<NodeId>),
) {
    match (instance, argument) {
        (Some(instance), Some(argument))
            if graph.contains_node(instance) && graph.contains_node(argument) => {
            if let Err(fault) = graph.unset_instantiation_argument(instance, name, argument) {
                tell_argument_refusal(refusal, &fault);
            }
        }
        _ => refusal.push("the instance or the argument does not stand"),
    }
}

/// Tells the refusal of plugs.
fn tell_plug_refusal(refusal: &mut Told, fault: &PlugError) {
    match fault {
        PlugError::GraphError {
            source: PlugFault::Argument(
                InstantiationArgumentError::ArgumentAlreadyPassed { name, .. },
            ),
        } => {
            refusal.push("argument `");
            refusal.show(name);
            refusal.push("` was plugged before");
        }
        _ => refusal.show(fault),
    }
}

/// Plugs nothing.
fn plug_none(graph: &mut CompositionGraph, socket: PackageId) -> Result<(), PlugError>
    requires { ContainsPackage graph.old socket }
{
    plug(graph.alloc(), graph, Vec::new(graph.alloc()), socket)
}

/// Plugs one package.
fn plug_one(
    graph: &mut CompositionGraph,
    socket: PackageId,
    first: PackageId,
) -> Result<(), PlugError>
    requires socket { ContainsPackage graph.old socket }
    requires plug { ContainsPackage graph.old first }
{
    let plugs = Vec::from_slice(graph.alloc(), &[first])?;
    plug(graph.alloc(), graph, plugs, socket)
}

/// Plugs two packages.
fn plug_two(
    graph: &mut CompositionGraph,
    socket: PackageId,
    first: PackageId,
    second: PackageId,
) -> Result<(), PlugError>
    requires socket { ContainsPackage graph.old socket }
    requires first { ContainsPackage graph.old first }
    requires second { ContainsPackage graph.old second }
{
    let plugs = Vec::from_slice(graph.alloc(), &[first, second])?;
    plug(graph.alloc(), graph, plugs, socket)
}

/// Plugs the packages that a line says, at most two.
fn plug_all(
    graph: &mut CompositionGraph,
    refusal: &mut Told,
    socket: PackageId,
    plugs: (Option<PackageId>, Option<PackageId>),
) {
    if !graph.contains_package(socket) {
        return refusal.push("the socket does not stand");
    }
    let answer = match plugs {
        (None, _) => plug_none(graph, socket),
        (Some(first), None) if graph.contains_package(first) => plug_one(graph, socket, first),
        (Some(first), Some(second))
            if graph.contains_package(first) && graph.contains_package(second) => {
            plug_two(graph, socket, first, second)
        }
        _ => return refusal.push("a plug does not stand"),
    };
    if let Err(fault) = answer {
        tell_plug_refusal(refusal, &fault);
    }
}

/// Puts the graph's copy over a collection with this number in its place.
fn copy(graph: &mut CompositionGraph, refusal: &mut Told, number: u64) {
    match graph.copy_as(number) {
        Ok(copy) => *graph = copy,
        Err(_) => refusal.push("out of memory"),
    }
}

/// Changes the graph as a line says whose first word is this.
fn change(
    graph: &mut CompositionGraph,
    named: &mut Named,
    refusal: &mut Told,
    words: &mut Words<'_>,
    what: &str,
) {
    match what {
        "unregister" => unregister(graph, refusal, named.take_package(words)),
        "remove" | "unexport" | "name" => match named.take_node(words) {
            Some(node) => change_node(graph, refusal, node, what, words.take()),
            None => refusal.push("no such node"),
        },
        "unpass" => {
            let instance = named.take_node(words);
            let name = words.take();
            unpass(graph, refusal, (instance, name, named.take_node(words)));
        }
        "plug" => match named.take_package(words) {
            Some(socket) => {
                let first = named.take_package(words);
                plug_all(graph, refusal, socket, (first, named.take_package(words)));
            }
            None => refusal.push("no such package"),
        },
        "copy" => copy(graph, refusal, words.take_number()),
        _ => do_line(graph, named, refusal, words, what),
    }
}

/// Does a line. Told is what it asks, or why it is refused.
fn tell_step(graph: &mut CompositionGraph, named: &mut Named, told: &mut Told, line: &str) {
    let mut words = Words::new(told.alloc(), line);
    let mut answer = Told::new(told.alloc());
    match words.take() {
        "tell" => tell_answer(graph, named, &mut answer, &mut words),
        what => change(graph, named, &mut answer, &mut words, what),
    }
    answer.push(words.fault());
    if !answer.is_empty() {
        told.push(line);
        told.push(": ");
        told.push(answer.text());
        told.push("\n");
    }
}

/// Tells what the lines of a text ask and which are refused, on a graph that is empty yet.
pub(crate) fn tell_steps(
    graph: &mut CompositionGraph,
    named: &mut Named,
    told: &mut Told,
    text: &str,
) {
    for line in text.split('\n') {
        tell_step(graph, named, told, line);
    }
}
