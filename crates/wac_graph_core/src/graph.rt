//! Composition graphs.

ghost use Rattle.std.specs.Prelude.{◌≡◌, None, Some, IfOk, IfErr, OnOk, OnErr, IsSome, is_some, true};
ghost use Rattle.std.specs.Bool.{Decides};
ghost use Rattle.std.specs.Option.{option_copied};
ghost use Rattle.wac_types_base.specs.Collection.{Stands, empty};
ghost use Rattle.wac_graph_core.specs.Graph.{IsGraph, with_types, node_at, ContainsNode, package_of, ContainsPackage};
ghost use Rattle.wac_graph_core.specs.Steps.{IsExternName, Imports, Instantiates};
ghost use Rattle.wac_graph_core.specs.Refusals.{ImportRefused};

use crate::edges::Edges;
use crate::error::{ImportError, NameError};
use crate::ids::{NodeId, PackageId};
use crate::named::NamedNodes;
use crate::node::{Node, NodeKind};
use crate::nodes::Nodes;
use crate::package::Place;
use std::alloc::{AllocError, Global};
use std::marker::Model;
use wac_graph_bytes::component_name;
use wac_types_base::{ItemKind, Types};
use wac_types_names::Package;

/// Nodes with their types, the edges between them, ordered exports, and packages.
pub struct CompositionGraph {
    pub(crate) alloc: Global,
    pub(crate) types: Types,
    pub(crate) nodes: Nodes,
    pub(crate) edges: Edges,
    pub(crate) exports: NamedNodes,
    pub(crate) places: Vec<Place>,
    /// Each defined type that a definition reaches has an index below it.
    pub(crate) defined_below: usize,
}

impl Drop for CompositionGraph {
    fn drop(self) {
        let CompositionGraph {
            alloc: _,
            types: _,
            nodes: _,
            edges: _,
            exports: _,
            places: _,
            defined_below: _,
        } = self;
    }
}

impl Model for CompositionGraph {
    ghost use Rattle.std.specs.Prelude.{ℕ, List, refl};
    ghost use Rattle.std.specs.Coded.{coded_ℕ, code_by, coded×, coded_list};
    ghost use Rattle.std.specs.Ordering.{nat_cmp};
    ghost use Rattle.std.specs.FinMap as map;
    ghost use Rattle.wac_types_base.specs.Record.{Collection};
    ghost use Rattle.wac_graph_core.specs.Graph.{Graph};
    ghost use Rattle.wac_graph_core.specs.Nodes.{NodeData};
    ghost use Rattle.wac_graph_core.specs.declared.edge.Edge.{Edge};
    ghost use Rattle.wac_graph_core.specs.declared.package.Place.{Place};
    ghost use Rattle.wac_types_base.specs.contracts.types.Types as types_row;
    ghost use Rattle.wac_graph_core.specs.contracts.node.Node as node_row;
    ghost use Rattle.wac_graph_core.specs.contracts.edge.Edge as edge_row;
    ghost use Rattle.wac_graph_core.specs.contracts.package.Place as place_row;

    ghost Value = { Graph };

    ghost coded = { code_by
        (Collection × (map.FinMap nat_cmp NodeData × (List Edge × (List (List ℕ × ℕ) × List Place))))
        (coded× types_row.the_row.coded (coded× (map.code coded_ℕ node_row.the_row.coded)
        (coded× (coded_list edge_row.the_row.coded)
        (coded× (coded_list (coded× (coded_list coded_ℕ) coded_ℕ)) (coded_list place_row.the_row.coded)))))
        (λ g. (g.types, (g.nodes, (g.edges, (g.exports, g.places)))))
        (λ p. record { types = p.0; nodes = p.1.0; edges = p.1.1.0; exports = p.1.1.1.0; places = p.1.1.1.1 })
        (λ _. refl) };

    ghost use Rattle.wac_graph_core.specs.View.{graph, IsSound};

    ghost view = { graph };

    ghost invariant = { IsSound };
}

impl CompositionGraph {
    /// A graph with nothing in it, over an empty collection of this number.
    pub fn new(alloc: Global, number: u64) -> Self
        ensures { result ≡ with_types (empty number) }
    {
        CompositionGraph {
            alloc,
            types: Types::new(alloc, number),
            nodes: Nodes::new(alloc),
            edges: Edges::new(alloc),
            exports: NamedNodes::new(alloc),
            places: Vec::new(alloc),
            defined_below: 0,
        }
    }

    /// What holds of each graph. It does nothing: its contract tells so.
    pub fn see_sound(&self)
        ensures { IsGraph self.now }
    {
        let _ = &self.alloc;
    }

    /// Where it takes memory from.
    pub fn alloc(&self) -> Global {
        self.alloc
    }

    /// The collection of types.
    pub fn types(&self) -> &Types
        ensures { result.now ≡ self.now.types }
    {
        &self.types
    }

    /// The node of an id, if it stands.
    pub(crate) fn get_node(&self, id: NodeId) -> Option<&Node>
        ensures { option_copied result ≡ node_at self.now id }
    {
        self.nodes.get(id)
    }

    /// The node of an id that stands.
    pub(crate) fn node(&self, id: NodeId) -> &Node
        requires { ContainsNode self.now id }
        ensures { node_at self.now id ≡ Some result.now }
    {
        match self.get_node(id) {
            Some(node) => node,
            None => unreachable!(),
        }
    }

    /// Whether a node stands.
    pub fn contains_node(&self, id: NodeId) -> bool
        ensures { result ≡ is_some (node_at self.now id) }
    {
        self.get_node(id).is_some()
    }

    /// The package of an id, if it stands.
    pub(crate) fn get_package(&self, id: PackageId) -> Option<&Package>
        ensures { option_copied result ≡ package_of self.now id }
    {
        match self.places.get(id.place) {
            Some(place) => {
                if place.generation == id.generation {
                    place.held.as_ref()
                } else {
                    None
                }
            }
            None => None,
        }
    }

    /// The package of an id that stands.
    pub(crate) fn package(&self, id: PackageId) -> &Package
        requires { ContainsPackage self.now id }
        ensures { package_of self.now id ≡ Some result.now }
    {
        match self.get_package(id) {
            Some(package) => package,
            None => unreachable!(),
        }
    }

    /// Whether a package stands.
    pub fn contains_package(&self, id: PackageId) -> bool
        ensures { result ≡ is_some (package_of self.now id) }
    {
        self.get_package(id).is_some()
    }
}

/// Whether a text is the name of an import or an export.
pub(crate) fn is_extern_name(alloc: Global, name: &str) -> Result<bool, AllocError>
    ensures { IfOk result (λ yes. Decides yes (IsExternName name.now)) }
{
    match component_name(alloc, name)? {
        Some(_) => Ok(true),
        None => Ok(false),
    }
}

impl CompositionGraph {
    /// Adds an import.
    pub fn import(&mut self, name: &str, kind: ItemKind) -> Result<NodeId, ImportError>
        requires { Stands self.old.types kind }
        ensures imported { IfOk result (λ k. Imports self.old self.new name.now kind k) }
        ensures refused { IfErr result (λ e. ImportRefused self.old name.now e) }
        ensures kept { OnErr result (self.new ≡ self.old) }
    {
        let own = String::from_str(self.alloc, name)?;
        if let Some(node) = self.nodes.find_import(name) {
            return Err(ImportError::ImportAlreadyExists { name: own, node });
        }
        let valid = is_extern_name(self.alloc, name)?;
        if !valid {
            return Err(ImportError::InvalidImportName {
                name: own,
                source: NameError::InvalidName,
            });
        }
        let node = Node::new(NodeKind::Import(own), None, kind);
        let id = self.nodes.insert(node)?;
        Ok(id)
    }

    /// Adds an instance of a package.
    pub fn instantiate(&mut self, package: PackageId) -> Result<NodeId, AllocError>
        requires { ContainsPackage self.old «package» }
        ensures instantiated { IfOk result (λ k. Instantiates self.old self.new «package» k) }
        ensures kept { OnErr result (self.new ≡ self.old) }
    {
        let instance = self.package(package).instance_type();
        let node = Node::new(
            NodeKind::Instantiation,
            Some(package),
            ItemKind::Instance(instance),
        );
        let id = self.nodes.insert(node)?;
        Ok(id)
    }
}
