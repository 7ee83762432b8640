//! Where imports stand that are types, for those that are made of them.

ghost use Rattle.std.specs.Prelude.{◌≡◌, IfSome, OnOk};
ghost use Rattle.wac_types_base.specs.declared.item.ItemKind.{ItemKind};
ghost use Rattle.wac_types_base.specs.declared.item.ValueType.{ValueType};
ghost use Rattle.wac_types_base.specs.Collection.{Stands};
ghost use Rattle.wac_graph_scopes.specs.Orders.{IsSource};

use crate::imports::Importing;
use crate::prints::Prints;
use indexmap::{IndexMap, IndexSet};
use std::alloc::{AllocError, Global};
use wac_types_base::{DefinedTypeId, ItemKind, Type, Types, ValueType};
use wac_types_parts::parts::{import_at, import_count};

/// Where those imports of a world stand that are defined types.
#[derive(Drop)]
pub(crate) struct TypePlaces {
    alloc: Global,
    prints: Prints,
    /// By the numbers of the types. Of equal types the first has the place.
    places: IndexMap<u64, usize>,
}

/// The defined type that a value type is, at the end of its aliases.
fn defined_end(types: &Types, ty: ValueType) -> Option<DefinedTypeId>
    ensures { IfSome result (λ id. Stands types.now (ItemKind.Value (ValueType.Defined id))) }
{
    if !types.has(ItemKind::Value(ty)) {
        return None;
    }
    match types.resolve_value_type(ty) {
        ValueType::Defined(id) => Some(id),
        _ => None,
    }
}

/// The defined type that an item is, at the end of its aliases.
fn defined_type(types: &Types, kind: ItemKind) -> Option<DefinedTypeId>
    ensures stands { IfSome result (λ id. Stands types.now (ItemKind.Value (ValueType.Defined id))) }
    ensures no_source { IfSome result (λ _. IsSource kind → ⊥) }
{
    match kind {
        ItemKind::Ty(Type::Value(ty)) => defined_end(types, ty),
        _ => None,
    }
}

/// What an item is made of that is a type of values or functions.
fn made_type(types: &Types, kind: ItemKind) -> Option<ItemKind>
    ensures stands { IfSome result (Stands types.now) }
    ensures no_source { IfSome result (λ _. IsSource kind → ⊥) }
{
    let made = match kind {
        ItemKind::Ty(Type::Func(id)) => ItemKind::Func(id),
        _ => ItemKind::Value(ValueType::Defined(defined_type(types, kind)?)),
    };
    if types.has(made) { Some(made) } else { None }
}

impl TypePlaces {
    /// The places of the imports of a world.
    pub fn of(alloc: Global, all: Importing<'_>) -> Result<Self, AllocError> {
        let mut places = TypePlaces {
            alloc,
            prints: Prints::new(alloc),
            places: IndexMap::new(alloc),
        };
        for at in 0..import_count(all.types, all.world) {
            if let Some(import) = import_at(all.types, all.world, at) {
                places.add(all.types, import.kind, at)?;
            }
        }
        Ok(places)
    }

    /// Adds the place of an item, if it is a defined type.
    fn add(&mut self, types: &Types, kind: ItemKind, at: usize) -> Result<(), AllocError> {
        if let Some(id) = defined_type(types, kind) {
            let print = self.prints.of(types, ValueType::Defined(id))?;
            if !self.places.contains_key(&print) {
                let _ = self.places.insert(print, at)?;
            }
        }
        Ok(())
    }

    /// Adds where the types stand of which an item is made, if it is a type of values or functions.
    pub fn add_needs(
        &mut self,
        types: &Types,
        kind: ItemKind,
        needs: &mut Vec<usize>,
    ) -> Result<(), AllocError>
        ensures { OnOk result (IsSource kind → needs.new.items ≡ needs.old.items) }
    {
        if self.places.is_empty() {
            return Ok(());
        }
        match made_type(types, kind) {
            Some(made) => {
                let mut seen = IndexSet::new(self.alloc);
                self.add_parts(types, made, &mut seen, needs)
            }
            None => Ok(()),
        }
    }

    /// Adds where the parts of a type stand that have places, and where those of other parts do.
    #[cycle(parts)]
    fn add_parts(
        &mut self,
        types: &Types,
        kind: ItemKind,
        seen: &mut IndexSet<DefinedTypeId>,
        needs: &mut Vec<usize>,
    ) -> Result<(), AllocError>
        requires { Stands types.now kind }
    {
        let mut at: u128 = 0;
        while let Some(place) = types.place(kind, at) {
            if let Some(part) = place {
                self.add_part(types, part, seen, needs)?;
            }
            at += 1;
        }
        Ok(())
    }

    /// Adds where a part of a type stands, or where its own parts do. What was seen is not walked again.
    #[cycle(parts)]
    fn add_part(
        &mut self,
        types: &Types,
        part: ItemKind,
        seen: &mut IndexSet<DefinedTypeId>,
        needs: &mut Vec<usize>,
    ) -> Result<(), AllocError>
        requires { Stands types.now part }
    {
        types.see_acyclic();
        let ItemKind::Value(ty) = part else {
            return Ok(());
        };
        let ValueType::Defined(id) = types.resolve_value_type(ty) else {
            return Ok(());
        };
        if !seen.insert(id)? {
            return Ok(());
        }
        let print = self.prints.of(types, ValueType::Defined(id))?;
        match self.places.get(&print) {
            Some(at) => Ok(needs.push(*at)?),
            None => self.add_parts(types, ItemKind::Value(ValueType::Defined(id)), seen, needs),
        }
    }
}
