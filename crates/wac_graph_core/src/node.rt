//! The nodes of a graph.

ghost use Rattle.std.specs.Prelude.{◌≡◌, ◌↔◌, IfOk, IsTrue, Some, None};
ghost use Rattle.std.specs.Option.{option_copied};
ghost use Rattle.wac_graph_core.specs.Copying.{node_under};
ghost use Rattle.wac_graph_core.specs.Nodes.{Role, role_of, imported_as, plain_node, defined_node};

use crate::ids::PackageId;
use std::alloc::AllocError;
use std::marker::Model;
use wac_types_base::{ItemKind, Text, Type, copy_text};

/// What a node is.
#[derive(Debug, Drop)]
pub enum NodeKind {
    /// A type that is defined.
    Definition,
    /// An import of this name.
    Import(String),
    /// An instance of a package.
    Instantiation,
    /// An export of an instance.
    Alias,
}

impl NodeKind {
    /// The same kind again.
    fn copy(&self) -> Result<NodeKind, AllocError>
        ensures { IfOk result (λ kind. role_of kind ≡ role_of self.now) }
    {
        match self {
            NodeKind::Definition => Ok(NodeKind::Definition),
            NodeKind::Import(name) => Ok(NodeKind::Import(name.clone()?)),
            NodeKind::Instantiation => Ok(NodeKind::Instantiation),
            NodeKind::Alias => Ok(NodeKind::Alias),
        }
    }
}

/// A node of a graph: what it is, the kind of its item, and its names.
#[derive(Drop)]
pub struct Node {
    kind: NodeKind,
    of: Option<PackageId>,
    item_kind: ItemKind,
    name: Option<Text>,
    export: Option<Text>,
}

impl Model for Node {
    ghost use Rattle.wac_graph_core.specs.Nodes.{NodeData};

    ghost Value = { NodeData };

    ghost use Rattle.wac_graph_core.specs.NodeView.{node_data};

    ghost view = { node_data };
}

impl Node {
    /// A node without names.
    pub(crate) fn new(kind: NodeKind, of: Option<PackageId>, item_kind: ItemKind) -> Self
        ensures { result ≡ plain_node (role_of kind) of item_kind }
    {
        Node {
            kind,
            of,
            item_kind,
            name: None,
            export: None,
        }
    }

    /// A definition that is exported under a name.
    pub(crate) fn defined(ty: Type, export: Text) -> Self
        ensures { result ≡ defined_node ty export }
    {
        Node {
            kind: NodeKind::Definition,
            of: None,
            item_kind: ItemKind::Ty(ty),
            name: None,
            export: Some(export),
        }
    }

    /// The same node again, of a collection with this number.
    pub(crate) fn copy_under(&self, number: u64) -> Result<Node, AllocError>
        ensures { IfOk result (λ copy. copy ≡ node_under number self.now) }
    {
        Ok(Node {
            kind: self.kind.copy()?,
            of: self.of,
            item_kind: self.item_kind.under(number),
            name: copy_text(&self.name)?,
            export: copy_text(&self.export)?,
        })
    }

    /// What it is.
    pub fn kind(&self) -> &NodeKind
        ensures { role_of result.now ≡ self.now.role }
    {
        &self.kind
    }

    /// Whether it is a definition.
    pub(crate) fn is_definition(&self) -> bool
        ensures { IsTrue result ↔ (self.now.role ≡ Role.Defined) }
    {
        matches!(&self.kind, NodeKind::Definition)
    }

    /// The kind of its item.
    pub fn item_kind(&self) -> ItemKind
        ensures { result ≡ self.now.item_kind }
    {
        self.item_kind
    }

    /// The name that `set_node_name` gave it last.
    pub fn name(&self) -> Option<&str>
        ensures { option_copied result ≡ self.now.name }
    {
        match &self.name {
            Some(name) => Some(name.as_str()),
            None => None,
        }
    }

    /// The package that it is an instance of.
    pub fn package(&self) -> Option<PackageId>
        ensures { result ≡ self.now.of }
    {
        self.of
    }

    /// The name of an import.
    pub fn import_name(&self) -> Option<&str>
        ensures { option_copied result ≡ imported_as self.now.role }
    {
        match &self.kind {
            NodeKind::Import(name) => Some(name.as_str()),
            _ => None,
        }
    }

    /// The name that it was exported under last.
    pub fn export_name(&self) -> Option<&str>
        ensures { option_copied result ≡ self.now.export }
    {
        match &self.export {
            Some(name) => Some(name.as_str()),
            None => None,
        }
    }

    /// Gives it a name.
    pub(crate) fn set_name(&mut self, name: Text)
        ensures { self.new ≡ record self.old { name = Some name } }
    {
        self.name = Some(name);
    }

    /// Writes the name that it is exported under.
    pub(crate) fn set_export(&mut self, name: Option<Text>)
        ensures { self.new ≡ record self.old { export = name } }
    {
        self.export = name;
    }
}
