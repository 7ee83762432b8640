//! What is asked of a graph.

use crate::lines::Named;
use wac_graph_core::{CompositionGraph, NodeId};
use wac_rows::{Told, Words};

/// Tells a node's number, or that there is none.
fn tell_number(told: &mut Told, node: Option<NodeId>) {
    match node {
        Some(node) => told.show(&node),
        None => told.push("nothing"),
    }
}

fn tell_whether(told: &mut Told, answer: bool) {
    told.push(if answer { "yes" } else { "no" });
}

/// Tells how many nodes a graph has.
fn tell_count(graph: &CompositionGraph, told: &mut Told) {
    let mut count = 0u64;
    for _ in graph.nodes() {
        count = count.saturating_add(1);
    }
    told.show(&count);
}

/// Tells the package of a name, with its place and how often a package was unregistered there before.
fn tell_package(graph: &CompositionGraph, told: &mut Told, name: &str) {
    match graph.get_package_by_name(name, None) {
        Some((id, package)) => {
            told.push(package.name());
            told.push(" at ");
            told.show(&id.place);
            told.push(", ");
            told.show(&id.generation);
        }
        None => told.push("nothing"),
    }
}

/// Tells the instance and the export of which a node is an alias.
fn tell_source(graph: &CompositionGraph, told: &mut Told, node: NodeId) {
    match graph.get_alias_source(node) {
        Some((instance, export)) => {
            told.show(&instance);
            told.push(" ");
            told.push(export);
        }
        None => told.push("nothing"),
    }
}

/// Tells the name of the package of which a node is an instance.
fn tell_made(graph: &CompositionGraph, told: &mut Told, node: NodeId) {
    if !graph.contains_node(node) {
        return told.push("no node");
    }
    match graph[node].package() {
        Some(id) if graph.contains_package(id) => told.push(graph[id].name()),
        _ => told.push("no instance"),
    }
}

/// Tells an argument that is an alias: the instance's package and import, and the package and export that are passed.
fn tell_argument(
    graph: &CompositionGraph,
    told: &mut Told,
    instance: NodeId,
    (name, argument): (&str, NodeId),
) {
    told.push(" ");
    tell_made(graph, told, instance);
    told.push(" ");
    told.push(name);
    told.push(" = ");
    match graph.get_alias_source(argument) {
        Some((from, export)) => {
            tell_made(graph, told, from);
            told.push(" ");
            told.push(export);
        }
        None => told.push("no alias"),
    }
}

/// Tells the arguments of a node.
fn tell_arguments(graph: &CompositionGraph, told: &mut Told, node: NodeId) {
    if graph.contains_node(node) {
        for passed in graph.get_instantiation_arguments(node) {
            tell_argument(graph, told, node, passed);
        }
    }
}

/// Tells what is passed to all instances.
fn tell_passed(graph: &CompositionGraph, told: &mut Told) {
    told.push("passed");
    for node in graph.node_ids() {
        tell_arguments(graph, told, node);
    }
}

/// Tells what a graph imports: explicit imports, and those that instances leave open.
fn tell_imports(graph: &CompositionGraph, told: &mut Told) {
    told.push("imports");
    for (name, _, node) in graph.imports() {
        told.push(" ");
        told.push(name);
        told.push(if node.is_some() { " explicit" } else { " open" });
    }
}

/// Tells what is asked of a node that stands.
fn tell_of_standing(graph: &CompositionGraph, told: &mut Told, node: NodeId, what: &str) {
    if !graph.contains_node(node) {
        return told.push("the node does not stand");
    }
    match what {
        "import_name" => told.push(graph.get_import_name(node).unwrap_or("nothing")),
        "export_name" => told.push(graph[node].export_name().unwrap_or("nothing")),
        "name" => told.push(graph[node].name().unwrap_or("nothing")),
        "argued" => {
            let first = graph.get_instantiation_arguments(node).next();
            tell_whether(told, first.is_some());
        }
        _ => told.push("nothing is known of that"),
    }
}

/// Tells what is asked of a node.
fn tell_of_node(graph: &CompositionGraph, told: &mut Told, node: NodeId, what: &str) {
    match what {
        "node" => told.show(&node),
        "standing" => tell_whether(told, graph.contains_node(node)),
        "source" => tell_source(graph, told, node),
        _ => tell_of_standing(graph, told, node, what),
    }
}

/// Tells what is asked under a name: of a package whether it is `registered`, and of a node `node`, `standing`, `source`,
/// `import_name`, `export_name`, `name` and `argued`.
fn tell_of_named(
    graph: &CompositionGraph,
    named: &Named,
    told: &mut Told,
    words: &mut Words<'_>,
    what: &str,
) {
    if what == "registered" {
        return match named.take_package(words) {
            Some(package) => tell_whether(told, graph.contains_package(package)),
            None => told.push("no such package"),
        };
    }
    match named.take_node(words) {
        Some(node) => tell_of_node(graph, told, node, what),
        None => told.push("no such node"),
    }
}

/// Tells what a line asks: `export NAME`, `exported NAME`, `package NAME`, `number`, `nodes`, `first_node`, `packaged`,
/// `imports`, `arguments`, or what is asked under a name.
pub(crate) fn tell_answer(
    graph: &CompositionGraph,
    named: &Named,
    told: &mut Told,
    words: &mut Words<'_>,
) {
    match words.take() {
        "export" => tell_number(told, graph.get_export(words.take())),
        "exported" => tell_whether(told, graph.get_export(words.take()).is_some()),
        "package" => tell_package(graph, told, words.take()),
        "number" => told.show(&graph.types().number()),
        "nodes" => tell_count(graph, told),
        "first_node" => tell_number(told, graph.node_ids().next()),
        "imports" => tell_imports(graph, told),
        "arguments" => tell_passed(graph, told),
        "packaged" => tell_whether(told, graph.packages().next().is_some()),
        what => tell_of_named(graph, named, told, words, what),
    }
}
