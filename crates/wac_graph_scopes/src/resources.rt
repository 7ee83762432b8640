//! Indexes of resources in a scope: a resource stands under its own entry, and under its root name.

ghost use Rattle.std.specs.Prelude.{◌≡◌, ℕ, Some, IsSome, IfSome, IfErr, OnOk, Ok, false};
ghost use Rattle.std.specs.Map.{lookup};
ghost use Rattle.wac_types_base.specs.contracts.ids.ResourceIdPartialEq.TheImpl.{eq-value};
ghost use Rattle.wac_types_base.specs.declared.item.ItemKind.{ItemKind};
ghost use Rattle.wac_types_base.specs.declared.item.«Type».{«Type» as TypeKind};
ghost use Rattle.wac_types_base.specs.Entries.{value_at};
ghost use Rattle.wac_types_base.specs.Collection.{Stands};
ghost use Rattle.wac_types_fit.specs.Trees.{tree_in};
ghost use Rattle.wac_graph_scopes.specs.declared.error.WriteError.{WriteError};
ghost use Rattle.wac_graph_scopes.specs.Refusals.{IsUnnamed};
ghost use Rattle.wac_graph_scopes.specs.Stock.{Holds, KeepsTypes};
ghost use Rattle.wac_graph_scopes.specs.Scopes.{FindsEntry, FindsResource, NotesResource, NotesEntry};

use crate::error::WriteError;
use crate::scope::TypeScope;
use std::alloc::Global;
use wac_types_base::{ItemKind, ResourceId, Type, Types};
use wac_types_parts::parts::root_name;

/// The index of a resource by its entry: its own, else the next along its aliases that stands in the scope.
fn entry_index(scope: &TypeScope, types: &Types, id: ResourceId) -> Option<u64>
    requires { Stands types.now (ItemKind.Ty (TypeKind.Resource id)) }
    ensures reads { FindsEntry types.now scope.now id result }
    ensures own { (k : ℕ) → lookup (eq-value.it id) scope.now.known.resources.entries ≡ Some k → result ≡ Some k }
{
    types.see_acyclic();
    match scope.entry(id) {
        Some(index) => Some(index),
        None => match types.resource(id).alias {
            Some(alias) => entry_index(scope, types, alias.source),
            None => None,
        },
    }
}

/// The index of a resource in the scope: by its entry, else by its root name.
pub(crate) fn resource_of(
    scope: &TypeScope,
    types: &Types,
    id: ResourceId,
) -> Result<u64, WriteError>
    requires { Stands types.now (ItemKind.Ty (TypeKind.Resource id)) }
    ensures reads { FindsResource types.now (tree_in types.now (ItemKind.Ty (TypeKind.Resource id))) scope.now result }
    ensures own { (k : ℕ) → lookup (eq-value.it id) scope.now.known.resources.entries ≡ Some k → result ≡ Ok k }
    ensures unnamed { IfErr result (λ _. IsUnnamed types.now scope.now.resources id) }
    ensures refused { IfErr result (λ e. e ≡ WriteError.Unwritable) }
{
    if let Some(index) = entry_index(scope, types, id) {
        return Ok(index);
    }
    match scope.resource(root_name(types, id)) {
        Some(index) => Ok(index),
        None => Err(WriteError::Unwritable),
    }
}

/// Whether no resource stands under the root name.
pub(crate) fn is_unnamed(scope: &TypeScope, types: &Types, id: ResourceId) -> bool
    requires { Stands types.now (ItemKind.Ty (TypeKind.Resource id)) }
    ensures { result ≡ false → IsUnnamed types.now scope.now.resources id → ⊥ }
{
    scope.resource(root_name(types, id)).is_none()
}

/// Remembers the index of a resource under its root name, unless one stands there.
fn note_root(alloc: Global, scope: &mut TypeScope, name: &str, index: u64) -> Result<(), WriteError>
    ensures notes { NotesResource name.now index scope.old scope.new result }
    ensures known { OnOk result (scope.new.known ≡ scope.old.known) }
    ensures named { OnOk result (IsSome (value_at scope.new.resources name.now)) }
    ensures keeps { OnOk result (KeepsTypes scope.old scope.new) }
    ensures refused { IfErr result (λ e. e ≡ WriteError.Memory) }
{
    match scope.resource(name) {
        Some(_) => Ok(()),
        None => {
            let name = String::from_str(alloc, name)?;
            Ok(scope.add_resource(name, index)?)
        }
    }
}

/// Remembers the index of a resource: under its entry, that at the end of its aliases, and its root name, where these
/// do not stand yet.
pub(crate) fn note_resource(
    alloc: Global,
    scope: &mut TypeScope,
    types: &Types,
    id: ResourceId,
    index: u64,
) -> Result<(), WriteError>
    ensures notes { Stands types.now (ItemKind.Ty (TypeKind.Resource id))
        → NotesEntry types.now id index scope.old scope.new result }
    ensures own { Stands types.now (ItemKind.Ty (TypeKind.Resource id))
        → OnOk result (IsSome (lookup (eq-value.it id) scope.new.known.resources.entries)) }
    ensures held { Stands types.now (ItemKind.Ty (TypeKind.Resource id))
        → OnOk result (Holds types.now scope.new (ItemKind.Ty (TypeKind.Resource id))) }
    ensures keeps { OnOk result (KeepsTypes scope.old scope.new) }
    ensures refused { IfErr result (λ e. e ≡ WriteError.Memory) }
{
    if !types.has(ItemKind::Ty(Type::Resource(id))) {
        return Ok(());
    }
    types.see_acyclic();
    scope.add_entry(id, index)?;
    scope.add_entry(types.resolve_resource(id), index)?;
    note_root(alloc, scope, root_name(types, id), index)
}
