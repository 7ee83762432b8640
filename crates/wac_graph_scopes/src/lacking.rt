//! Whether a handle in a type is of a resource that does not stand in a scope: such a type cannot be written anew there.

ghost use Rattle.std.specs.Prelude.{◌≡◌, Some, false, IfOk};
ghost use Rattle.std.specs.Map.{lookup};
ghost use Rattle.wac_types_base.specs.contracts.ids.DefinedTypeIdPartialEq.TheImpl.{eq-value};
ghost use Rattle.wac_types_base.specs.Record.{Collection};
ghost use Rattle.wac_types_base.specs.declared.item.ItemKind.{ItemKind};
ghost use Rattle.wac_types_base.specs.declared.item.ValueType.{ValueType};
ghost use Rattle.wac_types_base.specs.Collection.{Stands, StandsIf};
ghost use Rattle.wac_types_fit.specs.Checking.{HoldsValues};
ghost use Rattle.wac_graph_scopes.specs.declared.scope.TypeScope.{TypeScope};
ghost use Rattle.wac_graph_scopes.specs.Refusals.{IsWhole, AreLacking, TellsLacking, NoneDangles};

use crate::resources::is_unnamed;
use crate::scope::TypeScope;
use indexmap::IndexMap;
use std::alloc::{AllocError, Global};
use wac_types_base::{DefinedTypeId, ItemKind, Types, ValueType};
use wac_types_fit::value_of;

/// Whether such a handle stands in defined types, of those that were looked into.
#[derive(Drop)]
pub(crate) struct Lacking {
    found: IndexMap<DefinedTypeId, bool>,
}

impl Lacking {
    /// None is looked into yet.
    fn new(alloc: Global) -> Self
        ensures { (c : Collection) (s : TypeScope) → AreLacking c s result }
    {
        Lacking {
            found: IndexMap::new(alloc),
        }
    }

    /// What was found of a defined type.
    fn found(&self, id: DefinedTypeId) -> Option<bool>
        ensures { result ≡ lookup (eq-value.it id) self.now.found.entries }
    {
        match self.found.get(&id) {
            Some(lacks) => Some(*lacks),
            None => None,
        }
    }

    /// Keeps what was found of a defined type.
    fn keep(&mut self, id: DefinedTypeId, lacks: bool) -> Result<(), AllocError>
        ensures { (c : Collection) (s : TypeScope) → (lacks ≡ false → IsWhole c s (ItemKind.Value (ValueType.Defined id)))
            → AreLacking c s self.old → AreLacking c s self.new }
    {
        let _ = self.found.insert(id, lacks)?;
        Ok(())
    }

    /// Whether such a handle is in a value type, or is that.
    #[cycle(lacking)]
    fn of(&mut self, scope: &TypeScope, types: &Types, ty: ValueType) -> Result<bool, AllocError>
        requires { Stands types.now (ItemKind.Value ty) }
        ensures { TellsLacking types.now scope.now (NoneDangles types.now scope.now (Some ty)) self.old self.new result }
    {
        types.see_acyclic();
        match ty {
            ValueType::Primitive(_) => Ok(false),
            ValueType::Own(id) => Ok(is_unnamed(scope, types, id)),
            ValueType::Borrow(id) => Ok(is_unnamed(scope, types, id)),
            ValueType::Defined(id) => self.of_defined(scope, types, id),
        }
    }

    /// Whether such a handle is in a defined type.
    #[cycle(lacking)]
    fn of_defined(
        &mut self,
        scope: &TypeScope,
        types: &Types,
        id: DefinedTypeId,
    ) -> Result<bool, AllocError>
        requires { Stands types.now (ItemKind.Value (ValueType.Defined id)) }
        ensures { TellsLacking types.now scope.now (IsWhole types.now scope.now (ItemKind.Value (ValueType.Defined id)))
            self.old self.new result }
    {
        if let Some(lacks) = self.found(id) {
            return Ok(lacks);
        }
        let lacks = self.of_new(scope, types, id)?;
        self.keep(id, lacks)?;
        Ok(lacks)
    }

    /// Whether such a handle is in a defined type, by what it is made of.
    #[cycle(lacking)]
    fn of_new(
        &mut self,
        scope: &TypeScope,
        types: &Types,
        id: DefinedTypeId,
    ) -> Result<bool, AllocError>
        requires { Stands types.now (ItemKind.Value (ValueType.Defined id)) }
        ensures { TellsLacking types.now scope.now (IsWhole types.now scope.now (ItemKind.Value (ValueType.Defined id)))
            self.old self.new result }
    {
        let _ = types.defined_type(id);
        self.of_places(scope, types, ItemKind::Value(ValueType::Defined(id)))
    }

    /// Whether such a handle is in one of the places of a kind.
    #[cycle(lacking)]
    fn of_places(
        &mut self,
        scope: &TypeScope,
        types: &Types,
        kind: ItemKind,
    ) -> Result<bool, AllocError>
        requires stands { Stands types.now kind }
        requires values { HoldsValues types.now kind }
        ensures { TellsLacking types.now scope.now (IsWhole types.now scope.now kind) self.old self.new result }
    {
        types.see_acyclic();
        let mut at: u128 = 0;
        while let Some(place) = types.place(kind, at) {
            if self.of_place(scope, types, value_of(place))? {
                return Ok(true);
            }
            at += 1;
        }
        Ok(false)
    }

    /// Whether such a handle is in a place.
    #[cycle(lacking)]
    fn of_place(
        &mut self,
        scope: &TypeScope,
        types: &Types,
        place: Option<ValueType>,
    ) -> Result<bool, AllocError>
        requires { StandsIf types.now place }
        ensures { TellsLacking types.now scope.now (NoneDangles types.now scope.now place) self.old self.new result }
    {
        match place {
            None => Ok(false),
            Some(ty) => self.of(scope, types, ty),
        }
    }
}

/// Whether a handle in a defined type is of a resource whose root name does not stand in the scope.
pub(crate) fn lacks_resource(
    alloc: Global,
    scope: &TypeScope,
    types: &Types,
    id: DefinedTypeId,
) -> Result<bool, AllocError>
    requires { Stands types.now (ItemKind.Value (ValueType.Defined id)) }
    ensures { IfOk result (λ b. b ≡ false → IsWhole types.now scope.now (ItemKind.Value (ValueType.Defined id))) }
{
    let mut lacking = Lacking::new(alloc);
    lacking.of_defined(scope, types, id)
}
