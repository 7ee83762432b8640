//! The iterators of a graph.

ghost use Rattle.std.specs.Prelude.{◌≡◌};
ghost use Rattle.std.specs.Iterator.{YieldsFirst, YieldsFirstRef, YieldsFirstBy, item_count};
ghost use Rattle.std.specs.FinMap as map;
ghost use Rattle.wac_graph_core.specs.Graph.{ContainsNode};
ghost use Rattle.wac_graph_core.specs.Listing.{held_list, passed_to};

use crate::edges::Edges;
use crate::graph::CompositionGraph;
use crate::ids::NodeId;
use crate::node::Node;
use crate::package::Place;
use crate::slots::SlotIter;
use std::marker::Model;
use wac_types_names::Package;

/// The nodes, by rising index, seen as the list of those that are left.
#[derive(Drop)]
pub struct NodeIter<'a> {
    entries: SlotIter<'a>,
}

impl<'a> Model for NodeIter<'a> {
    ghost use Rattle.std.specs.Prelude.{List, map};
    ghost use Rattle.wac_graph_core.specs.Nodes.{NodeData};

    ghost Value = { List NodeData };

    ghost view = { λ it. map (λ e. e.1) it.entries };
}

impl<'a> Iterator for NodeIter<'a> {
    type Item = &'a Node;

    ghost next_gives = { YieldsFirstRef (λ rest. rest) };

    ghost remaining = { item_count (λ rest. rest) };

    fn next(&mut self) -> Option<&'a Node> {
        match self.entries.next() {
            Some((_, node)) => Some(node),
            None => None,
        }
    }
}

/// The ids of the nodes, by rising index, seen as the list of those that are left.
#[derive(Drop)]
pub struct NodeIdIter<'a> {
    entries: SlotIter<'a>,
}

impl<'a> Model for NodeIdIter<'a> {
    ghost use Rattle.std.specs.Prelude.{ℕ, List, map};

    ghost Value = { List ℕ };

    ghost view = { λ it. map (λ e. e.0) it.entries };
}

impl<'a> Iterator for NodeIdIter<'a> {
    type Item = NodeId;

    ghost next_gives = { YieldsFirst (λ rest. rest) };

    ghost remaining = { item_count (λ rest. rest) };

    fn next(&mut self) -> Option<NodeId> {
        match self.entries.next() {
            Some((id, _)) => Some(id),
            None => None,
        }
    }
}

/// The packages, by their places, seen as the list of those that are left.
#[derive(Drop)]
pub struct PackageIter<'a> {
    places: &'a [Place],
}

impl<'a> Model for PackageIter<'a> {
    ghost use Rattle.std.specs.Prelude.{List};
    ghost use Rattle.wac_types_names.specs.Packaged.{Packaged};

    ghost Value = { List Packaged };

    ghost use Rattle.wac_graph_core.specs.Listing.{held_list};

    ghost view = { λ it. held_list it.places.now };
}

impl<'a> Iterator for PackageIter<'a> {
    type Item = &'a Package;

    ghost next_gives = { YieldsFirstRef (λ rest. rest) };

    ghost remaining = { item_count (λ rest. rest) };

    fn next(&mut self) -> Option<&'a Package> {
        while let Some((place, rest)) = self.places.split_first() {
            self.places = rest;
            if let Some(package) = &place.held {
                return Some(package);
            }
        }
        None
    }
}

/// The arguments of an instantiation in the order of its imports, seen as the list of those that are left.
#[derive(Drop)]
pub struct ArgumentIter<'a> {
    edges: &'a Edges,
    instantiation: NodeId,
    names: &'a [String],
}

impl<'a> Model for ArgumentIter<'a> {
    ghost use Rattle.std.specs.Prelude.{List, ℕ};
    ghost use Rattle.wac_types_base.specs.Entries.{texts_of};

    ghost Value = { List (List ℕ × ℕ) };

    ghost use Rattle.wac_graph_core.specs.Listing.{passed_list};

    ghost view = { λ it. passed_list it.edges.now it.instantiation (texts_of it.names.now) };
}

impl<'a> Iterator for ArgumentIter<'a> {
    type Item = (&'a str, NodeId);

    ghost next_gives = { YieldsFirstBy (λ item. (item.0.now, item.1)) (λ rest. rest) };

    ghost remaining = { item_count (λ rest. rest) };

    fn next(&mut self) -> Option<(&'a str, NodeId)> {
        while let Some((name, rest)) = self.names.split_first() {
            self.names = rest;
            if let Some(node) = self.edges.argument(self.instantiation, name) {
                return Some((name.as_str(), node));
            }
        }
        None
    }
}

impl CompositionGraph {
    /// The nodes, by rising index.
    pub fn nodes(&self) -> NodeIter<'_>
        ensures { result ≡ map.values self.now.nodes }
    {
        NodeIter {
            entries: self.nodes.entries(),
        }
    }

    /// The ids of the nodes, by rising index.
    pub fn node_ids(&self) -> NodeIdIter<'_>
        ensures { result ≡ map.keys self.now.nodes }
    {
        NodeIdIter {
            entries: self.nodes.entries(),
        }
    }

    /// The packages, by their places.
    pub fn packages(&self) -> PackageIter<'_>
        ensures { result ≡ held_list self.now.places }
    {
        PackageIter {
            places: self.places.as_slice(),
        }
    }

    /// The arguments of an instantiation with their names, in the order of its package's imports.
    pub fn get_instantiation_arguments(&self, instantiation: NodeId) -> ArgumentIter<'_>
        requires { ContainsNode self.now instantiation }
        ensures { result ≡ passed_to self.now instantiation }
    {
        let names = match self.instantiated(instantiation) {
            Some(package) => self.types.world(package.ty()).imports.names(),
            None => &[],
        };
        ArgumentIter {
            edges: &self.edges,
            instantiation,
            names,
        }
    }
}
