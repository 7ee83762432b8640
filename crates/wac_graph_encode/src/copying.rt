//! Copies of items from a graph's collection. A value type with no resource in it is copied once.

ghost use Rattle.std.specs.Prelude.{◌≡◌, IfOk};
ghost use Rattle.wac_types_base.specs.Record.{Collection};
ghost use Rattle.wac_types_base.specs.Collection.{Grows, Stands};
ghost use Rattle.wac_types_base.specs.Copying.{IsCopy};
ghost use Rattle.wac_graph_encode.specs.Worlds.{AreCopies};

use indexmap::IndexMap;
use std::alloc::{AllocError, Global};
use wac_types_base::copy::copy_item;
use wac_types_base::{Copier, DefinedTypeId, ItemKind, Type, Types, ValueType};

/// What is copied into another collection, and whether a resource is in value types, by their ids.
pub(crate) struct Copies {
    alloc: Global,
    copier: Copier,
    resources: IndexMap<DefinedTypeId, bool>,
}

impl Drop for Copies {
    fn drop(self) {
        let Copies {
            alloc: _,
            copier: _,
            resources: _,
        } = self;
    }
}

impl Copies {
    /// No copies yet.
    pub(crate) fn new(alloc: Global, to: &Types) -> Self
        ensures { (from : Collection) → AreCopies from to.now result }
    {
        Copies {
            alloc,
            copier: Copier::new(alloc, to),
            resources: IndexMap::new(alloc),
        }
    }

    /// Whether a resource is in a defined type.
    #[cycle(resources)]
    fn in_defined(&mut self, from: &Types, id: DefinedTypeId) -> Result<bool, AllocError>
        ensures { self.new.copier ≡ self.old.copier }
    {
        if let Some(found) = self.resources.get(&id) {
            return Ok(*found);
        }
        let found = self.in_parts(from, ItemKind::Value(ValueType::Defined(id)))?;
        let _ = self.resources.insert(id, found)?;
        Ok(found)
    }

    /// Whether a resource is in a value type.
    #[cycle(resources)]
    fn in_value(&mut self, from: &Types, ty: ValueType) -> Result<bool, AllocError>
        ensures { self.new.copier ≡ self.old.copier }
    {
        match ty {
            ValueType::Primitive(_) => Ok(false),
            ValueType::Own(_) => Ok(true),
            ValueType::Borrow(_) => Ok(true),
            ValueType::Defined(id) => self.in_defined(from, id),
        }
    }

    /// Whether a resource is in the value types that a kind is made of.
    #[cycle(resources)]
    fn in_parts(&mut self, from: &Types, kind: ItemKind) -> Result<bool, AllocError>
        ensures { self.new.copier ≡ self.old.copier }
    {
        if !from.has(kind) {
            return Ok(false);
        }
        let mut at: u128 = 0;
        while let Some(place) = from.place(kind, at) {
            if let Some(child) = place {
                if let ItemKind::Value(ty) = child {
                    if self.in_value(from, ty)? {
                        return Ok(true);
                    }
                }
            }
            at += 1;
        }
        Ok(false)
    }

    /// Whether the copy of an item may be one that stands already.
    fn is_shared(&mut self, from: &Types, kind: ItemKind) -> Result<bool, AllocError>
        ensures { self.new.copier ≡ self.old.copier }
    {
        match kind {
            ItemKind::Ty(Type::Value(ty)) => {
                let found = self.in_value(from, ty)?;
                Ok(!found)
            }
            _ => Ok(false),
        }
    }

    /// The copy of an item that stands.
    pub(crate) fn item(
        &mut self,
        from: &Types,
        to: &mut Types,
        kind: ItemKind,
    ) -> Result<ItemKind, AllocError>
        requires stands { Stands from.now kind }
        requires copies { AreCopies from.now to.old self.old }
        ensures copied { IfOk result (λ k. IsCopy from.now to.new kind k) }
        ensures copies { AreCopies from.now to.new self.new }
        ensures grows { Grows to.old to.new }
    {
        to.see_acyclic();
        if self.is_shared(from, kind)? {
            self.copier.item(self.alloc, from, kind, to)
        } else {
            copy_item(self.alloc, from, kind, to)
        }
    }
}
