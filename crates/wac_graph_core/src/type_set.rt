//! Sets of types.

ghost use Rattle.std.specs.Prelude.{◌≡◌, ◌↔◌, [], IsTrue, OnOk};
ghost use Rattle.wac_types_base.specs.Graph.{Among};
ghost use Rattle.wac_graph_core.specs.TypeSets.{AddsType};

use indexmap::IndexSet;
use std::alloc::{AllocError, Global};
use std::marker::Model;
use wac_types_base::Type;

/// A set of types.
#[derive(Drop)]
pub struct TypeSet {
    set: IndexSet<Type>,
}

impl Model for TypeSet {
    ghost use Rattle.std.specs.Prelude.{List};
    ghost use Rattle.wac_types_base.specs.declared.item.«Type».{«Type» as TypeKind};

    ghost Value = { List TypeKind };

    ghost view = { λ s. s.set.keys };
}

impl TypeSet {
    /// No types.
    pub(crate) fn new(alloc: Global) -> Self
        ensures { result ≡ [] }
    {
        TypeSet {
            set: IndexSet::new(alloc),
        }
    }

    /// Whether a type is there.
    pub(crate) fn contains(&self, ty: Type) -> bool
        ensures { IsTrue result ↔ Among ty self.now }
    {
        self.set.contains(&ty)
    }

    /// Adds a type, where it is new.
    pub(crate) fn insert(&mut self, ty: Type) -> Result<(), AllocError>
        ensures { OnOk result (AddsType self.old self.new ty) }
    {
        let _ = self.set.insert(ty)?;
        Ok(())
    }

    /// The types, in the order in which they came.
    pub(crate) fn as_slice(&self) -> &[Type]
        ensures { result.now ≡ self.now }
    {
        self.set.as_slice()
    }
}
