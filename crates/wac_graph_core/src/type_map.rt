//! Nodes of types.

ghost use Rattle.std.specs.Prelude.{◌≡◌, [], None, Some, OnOk};
ghost use Rattle.wac_graph_core.specs.TypeMaps.{node_of, Maps};

use crate::ids::NodeId;
use indexmap::IndexMap;
use std::alloc::{AllocError, Global};
use std::marker::Model;
use wac_types_base::Type;

/// A node for each of some types.
#[derive(Drop)]
pub struct TypeMap {
    map: IndexMap<Type, NodeId>,
}

impl Model for TypeMap {
    ghost use Rattle.std.specs.Prelude.{List, ℕ};
    ghost use Rattle.wac_types_base.specs.declared.item.«Type».{«Type» as TypeKind};

    ghost Value = { List (TypeKind × ℕ) };

    ghost view = { λ s. s.map.entries };
}

impl TypeMap {
    /// No types.
    pub(crate) fn new(alloc: Global) -> Self
        ensures { result ≡ [] }
    {
        TypeMap {
            map: IndexMap::new(alloc),
        }
    }

    /// The node of a type.
    pub(crate) fn get(&self, ty: Type) -> Option<NodeId>
        ensures { result ≡ node_of self.now ty }
    {
        match self.map.get(&ty) {
            Some(node) => Some(*node),
            None => None,
        }
    }

    /// Gives a type a node.
    pub(crate) fn insert(&mut self, ty: Type, node: NodeId) -> Result<(), AllocError>
        ensures { OnOk result (Maps self.old ty (Some node) self.new) }
    {
        let _ = self.map.insert(ty, node)?;
        Ok(())
    }

    /// Takes a type away.
    pub(crate) fn remove(&mut self, ty: Type)
        ensures { Maps self.old ty None self.new }
    {
        let _ = self.map.swap_remove(&ty);
    }
}
