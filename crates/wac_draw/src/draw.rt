//! A graph as a Mermaid flowchart: a box for each instance, a rounded one for each outer import and each export.

use std::alloc::{AllocError, Global};
use wac_graph_core::{CompositionGraph, NodeId, NodeKind};
use wac_types_base::ItemKind;

/// How many accesses are followed from a node to the instance that it comes from.
const MAX_ACCESSES: u8 = 100;

/// A drawing.
#[derive(Drop)]
struct Drawing {
    text: String,
    /// The names of the imports that instances leave open.
    filled: Vec<String>,
}

/// A text without what ends a label.
fn write_label(text: &mut String, label: &str) -> Result<(), AllocError> {
    for c in label.chars() {
        if c == '"' {
            text.push_str("#quot;")?;
        } else {
            text.push(c)?;
        }
    }
    Ok(())
}

/// A rounded box.
fn write_rounded(text: &mut String, word: &str, name: &str) -> Result<(), AllocError> {
    text.push_str("([\"")?;
    text.push_str(word)?;
    text.push_str(" ")?;
    write_label(text, name)?;
    text.push_str("\"])\n")
}

/// The place of a name.
fn place_of(names: &[String], name: &str) -> Option<usize> {
    for (at, other) in names.iter().enumerate() {
        if other.as_str() == name {
            return Some(at);
        }
    }
    None
}

/// The names of the imports of an instance to which something is passed.
fn passed_names(
    graph: &CompositionGraph,
    alloc: Global,
    node: NodeId,
) -> Result<Vec<String>, AllocError> {
    let mut passed = Vec::new(alloc);
    if graph.contains_node(node) {
        for (name, _) in graph.get_instantiation_arguments(node) {
            passed.push(String::from_str(alloc, name)?)?;
        }
    }
    Ok(passed)
}

/// The names of the imports of an instance's package.
fn imported_names(graph: &CompositionGraph, node: NodeId) -> &[String] {
    if !graph.contains_node(node) {
        return &[];
    }
    let Some(package) = graph[node].package() else {
        return &[];
    };
    if !graph.contains_package(package) {
        return &[];
    }
    let world = graph[package].ty();
    if !graph.types().has(ItemKind::Component(world)) {
        return &[];
    }
    graph.types().world(world).imports.names()
}

/// The names of an instance's imports to which nothing is passed.
fn open_names(
    graph: &CompositionGraph,
    alloc: Global,
    node: NodeId,
) -> Result<Vec<String>, AllocError> {
    let passed = passed_names(graph, alloc, node)?;
    let mut open = Vec::new(alloc);
    for name in imported_names(graph, node) {
        if place_of(&passed, name.as_str()).is_none() {
            open.push(name.clone()?)?;
        }
    }
    Ok(open)
}

/// The node that accesses begin at, and the path of the accesses.
fn origin(
    graph: &CompositionGraph,
    alloc: Global,
    node: NodeId,
) -> Result<(NodeId, String), AllocError> {
    let mut at = node;
    let mut path = String::new(alloc);
    for _ in 0..MAX_ACCESSES {
        let Some((source, name)) = graph.get_alias_source(at) else {
            break;
        };
        let dot = if path.is_empty() { "" } else { "." };
        path = format!(in alloc; "{name}{dot}{path}")?;
        at = source;
    }
    Ok((at, path))
}

impl Drawing {
    /// The place of an import that instances leave open; its box, where it is new.
    fn filled(&mut self, alloc: Global, name: &str) -> Result<usize, AllocError> {
        if let Some(at) = place_of(&self.filled, name) {
            return Ok(at);
        }
        let at = self.filled.len();
        self.filled.push(String::from_str(alloc, name)?)?;
        write!(self.text, "    filled{at}")?;
        write_rounded(&mut self.text, "import", name)?;
        Ok(at)
    }

    /// The box of an import.
    fn put_import(&mut self, node: NodeId, name: &str) -> Result<(), AllocError> {
        write!(self.text, "    n{node}")?;
        write_rounded(&mut self.text, "import", name)
    }

    /// The box of an instance: its name, and its package.
    fn put_instance(&mut self, graph: &CompositionGraph, node: NodeId) -> Result<(), AllocError> {
        if !graph.contains_node(node) {
            return Ok(());
        }
        write!(self.text, "    n{node}[\"")?;
        if let Some(name) = graph[node].name() {
            write!(self.text, "{name}: ")?;
        }
        if let Some(package) = graph[node].package() {
            if graph.contains_package(package) {
                let key = graph[package].key();
                write!(self.text, "{key}")?;
            }
        }
        self.text.push_str("\"]\n")
    }

    /// The box of a node.
    fn put_node(&mut self, graph: &CompositionGraph, node: NodeId) -> Result<(), AllocError> {
        if !graph.contains_node(node) {
            return Ok(());
        }
        match graph[node].kind() {
            NodeKind::Import(name) => self.put_import(node, name.as_str()),
            NodeKind::Definition => write!(self.text, "    n{node}[/type/]\n"),
            NodeKind::Instantiation => self.put_instance(graph, node),
            NodeKind::Alias => Ok(()),
        }
    }

    /// The boxes of all nodes.
    fn put_nodes(&mut self, graph: &CompositionGraph) -> Result<(), AllocError> {
        for node in graph.node_ids() {
            self.put_node(graph, node)?;
        }
        Ok(())
    }

    /// An arrow from where a node comes from.
    fn put_arrow(
        &mut self,
        graph: &CompositionGraph,
        alloc: Global,
        from: NodeId,
        to: &str,
        name: &str,
    ) -> Result<(), AllocError> {
        let (source, path) = origin(graph, alloc, from)?;
        write!(self.text, "    n{source} -->|\"")?;
        if !path.is_empty() {
            write_label(&mut self.text, path.as_str())?;
            self.text.push_str(" as ")?;
        }
        write_label(&mut self.text, name)?;
        write!(self.text, "\"| {to}\n")
    }

    /// The arrows of what is passed to an instance.
    fn put_arguments(
        &mut self,
        graph: &CompositionGraph,
        alloc: Global,
        node: NodeId,
    ) -> Result<(), AllocError> {
        if !graph.contains_node(node) {
            return Ok(());
        }
        let to = format!(in alloc; "n{node}")?;
        for (name, argument) in graph.get_instantiation_arguments(node) {
            self.put_arrow(graph, alloc, argument, to.as_str(), name)?;
        }
        Ok(())
    }

    /// The arrows of what is left open by an instance.
    fn put_open(
        &mut self,
        graph: &CompositionGraph,
        alloc: Global,
        node: NodeId,
    ) -> Result<(), AllocError> {
        for name in open_names(graph, alloc, node)? {
            let at = self.filled(alloc, name.as_str())?;
            write!(self.text, "    filled{at} -->|\"")?;
            write_label(&mut self.text, name.as_str())?;
            write!(self.text, "\"| n{node}\n")?;
        }
        Ok(())
    }

    /// The box of an export, and its arrow.
    fn put_export(
        &mut self,
        graph: &CompositionGraph,
        alloc: Global,
        node: NodeId,
    ) -> Result<(), AllocError> {
        if !graph.contains_node(node) {
            return Ok(());
        }
        let Some(name) = graph[node].export_name() else {
            return Ok(());
        };
        write!(self.text, "    export{node}")?;
        write_rounded(&mut self.text, "export", name)?;
        let to = format!(in alloc; "export{node}")?;
        self.put_arrow(graph, alloc, node, to.as_str(), name)
    }

    /// The arrows to all nodes, and the boxes and arrows of what is exported.
    fn put_arrows(&mut self, graph: &CompositionGraph, alloc: Global) -> Result<(), AllocError> {
        for node in graph.node_ids() {
            self.put_arguments(graph, alloc, node)?;
            self.put_open(graph, alloc, node)?;
            self.put_export(graph, alloc, node)?;
        }
        Ok(())
    }
}

/// The flowchart of a graph.
pub fn flowchart(graph: &CompositionGraph, alloc: Global) -> Result<String, AllocError> {
    let mut drawing = Drawing {
        text: String::from_str(alloc, "flowchart LR\n")?,
        filled: Vec::new(alloc),
    };
    drawing.put_nodes(graph)?;
    drawing.put_arrows(graph, alloc)?;
    Ok(drawing.text)
}
