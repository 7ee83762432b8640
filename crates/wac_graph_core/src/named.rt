//! Nodes under names, in order.

ghost use Rattle.std.specs.Prelude.{◌≡◌, ◌∷◌, ◌++◌, [], ◌<◌, ◌≤◌, ℕ, Some, IfOk, OnOk, filter, not, length, slice_get, option_map, string_bytes};
ghost use Rattle.std.specs.List.{swap_remove};
ghost use Rattle.wac_types_base.specs.Entries.{Name, value_at, names_of, IsNew, AreDistinct};
ghost use Rattle.wac_graph_core.specs.Edges.{has};
ghost use Rattle.wac_graph_core.specs.Exporting.{place_of};

use crate::ids::NodeId;
use crate::node_set::NodeSet;
use indexmap::IndexMap;
use std::alloc::{AllocError, Global};
use std::marker::Model;

/// Nodes under names, in order. No name stands twice.
#[derive(Drop)]
pub struct NamedNodes {
    map: IndexMap<String, NodeId>,
}

impl Model for NamedNodes {
    ghost use Rattle.wac_graph_core.specs.Named.{Named};

    ghost Value = { Named };

    ghost use Rattle.wac_graph_core.specs.NamedView.{named};

    ghost view = { named };
}

impl NamedNodes {
    /// No nodes.
    pub(crate) fn new(alloc: Global) -> Self
        ensures { result.items ≡ [] }
    {
        NamedNodes {
            map: IndexMap::new(alloc),
        }
    }

    /// How many there are.
    pub fn len(&self) -> usize
        ensures len { result ≡ length self.now.items }
        ensures distinct { AreDistinct (names_of self.now.items) }
    {
        self.map.len()
    }

    /// The name and the node at a place.
    pub fn entry(&self, at: usize) -> (&str, NodeId)
        requires { at < length self.now.items }
        ensures { slice_get self.now.items at ≡ Some (result.0.now, result.1) }
    {
        match self.map.get_index(at) {
            Some((name, node)) => (name.as_str(), *node),
            None => unreachable!(),
        }
    }

    /// The name and the node at a place, if there is one.
    pub fn entry_at(&self, at: usize) -> Option<(&str, NodeId)>
        ensures { option_map (λ e. (e.0.now, e.1)) result ≡ slice_get self.now.items at }
    {
        if at < self.len() {
            Some(self.entry(at))
        } else {
            None
        }
    }

    /// The node of a name.
    pub(crate) fn get(&self, name: &str) -> Option<NodeId>
        ensures { result ≡ value_at self.now.items name.now }
    {
        self.map.get(name).copied()
    }

    /// Where a name stands.
    pub(crate) fn place_of(&self, name: &str) -> Option<usize>
        ensures { result ≡ place_of self.now.items name.now }
    {
        self.map.get_index_of(name)
    }

    /// Makes room for so many nodes.
    pub(crate) fn reserve(&mut self, additional: usize) -> Result<(), AllocError>
        ensures items { self.new.items ≡ self.old.items }
        ensures ok { OnOk result (additional ≤ self.new.spare) }
    {
        self.map.reserve(additional)
    }

    /// Adds a node under a new name, for which there is room.
    pub(crate) fn push_reserved(&mut self, name: String, node: NodeId)
        requires room { 0 < self.old.spare }
        requires new { IsNew (string_bytes name) self.old.items }
        ensures { self.new.items ≡ self.old.items ++ (string_bytes name, node) ∷ [] }
    {
        match self.map.insert(name, node) {
            Ok(_) => {}
            Err(_) => unreachable!(),
        }
    }

    /// Takes one away. The last takes its place.
    pub(crate) fn swap_remove(&mut self, at: usize)
        ensures { (e : Name × ℕ) → slice_get self.old.items at ≡ Some e
            → self.new.items ≡ swap_remove self.old.items at e }
    {
        let _ = self.map.swap_remove_index(at);
    }

    /// Takes away those of the nodes in the list.
    pub(crate) fn retain_apart(&mut self, gone: &NodeSet)
        ensures { self.new.items ≡ filter (λ e. not (has gone.now e.1)) self.old.items }
    {
        self.map.retain(|_, node| !gone.has(*node));
    }

    /// The same nodes under their names again.
    pub(crate) fn copy(&self, alloc: Global) -> Result<NamedNodes, AllocError>
        ensures { IfOk result (λ copies. copies.items ≡ self.now.items) }
    {
        let mut copies = NamedNodes::new(alloc);
        for at in 0..self.len() {
            let (name, node) = self.entry(at);
            let name = String::from_str(alloc, name)?;
            copies.reserve(1)?;
            copies.push_reserved(name, node);
        }
        Ok(copies)
    }
}
