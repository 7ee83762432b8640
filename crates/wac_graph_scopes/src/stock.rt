//! What stands first in an instance type: the types that its interface uses, and its own resources.

ghost use Rattle.std.specs.Prelude.{◌≡◌, IfSome, IfNone, IfOk, IfErr, OnOk, Some, false, true, length, slice_get};
ghost use Rattle.wac_types_base.specs.Entries.{names_of, has_name, AreDistinct};
ghost use Rattle.wac_types_base.specs.Collection.{Stands};
ghost use Rattle.wac_types_parts.specs.Parts.{exports_of, uses_of, IsFresh};
ghost use Rattle.wac_graph_scopes.specs.declared.error.WriteError.{WriteError};
ghost use Rattle.wac_graph_scopes.specs.ItemRefusals.{RefusedUse};
ghost use Rattle.wac_graph_scopes.specs.Stock.{Holds, HoldsStock, KeepsTypes, HoldsUse, HoldsUseAt, HoldsUses, HoldsExport, HoldsExports, GivesExports, IsGivenAt, HoldsOwnAt, HoldsOwn};
ghost use Rattle.wac_graph_scopes.specs.InstanceRefusals.{LacksIdentifier, UseRefused};
ghost use Rattle.wac_graph_scopes.specs.Items.{Misses, IsUsedBy, AliasesUsed, ExportsTaken, ExportsUsed, TakesUse, TakesNamed, TakesAt, BeginsInstance, KeepsWriting};

use crate::error::WriteError;
use crate::items::{
    Around, ItemScope, PlacedInterface, add_name, export_resource, exports_taken, find_used,
    other_at,
};
use crate::used::{TypeName, UsedIndex};
use std::alloc::Global;
use wac_types_base::{InterfaceId, ItemKind, Names, Types};
use wac_types_parts::parts::{
    Item, Use, export_count, identifier, is_fresh, taken, use_at, use_count,
};

/// The index of an alias of a used type, which stands around.
fn alias_around(
    alloc: Global,
    scope: &mut ItemScope,
    types: &Types,
    around: Around<'_>,
    used: Use<'_>,
    item: ItemKind,
) -> Result<Option<u64>, WriteError>
    ensures aliases { AliasesUsed types.now around.entry item scope.old scope.new result }
    ensures none { Misses types.now item (IsUsedBy types.now around.entry.used.now used.entry item) result }
    ensures refused { IfErr result (RefusedUse types.now used.entry) }
    ensures known { scope.new.types.known ≡ scope.old.types.known }
    ensures resources { scope.new.types.resources ≡ scope.old.types.resources }
{
    let Some(identifier) = identifier(types, used.interface) else {
        return Err(WriteError::Unwritable);
    };
    let name = TypeName {
        identifier,
        name: used.there,
    };
    let found = find_used(alloc, types, around.used, name, item)?;
    match found {
        Some(index) => {
            let alias = scope.add_outer(around.depth, index)?;
            Ok(Some(alias))
        }
        None => Ok(None),
    }
}

/// Exports a used type that is the one at an index, where the interface has that export. Whether there is it.
fn export_used(
    alloc: Global,
    scope: &mut ItemScope,
    types: &Types,
    id: InterfaceId,
    used: Use<'_>,
    alias: UsedIndex,
) -> Result<bool, WriteError>
    ensures exports { ExportsUsed types.now id used.entry alias.item alias.index scope.old scope.new result }
    ensures given { ExportsTaken types.now id used.entry.name.now alias.item result }
    ensures held { Stands types.now alias.item → OnOk result (Holds types.now scope.new.types alias.item) }
    ensures keeps { OnOk result (KeepsTypes scope.old.types scope.new.types) }
    ensures refused { IfErr result (λ e. e ≡ WriteError.Memory) }
{
    let is_taken = exports_taken(alloc, types, id, used.name, alias.item)?;
    if !is_taken {
        scope.note(alloc, types, alias.item, alias.index)?;
        return Ok(false);
    }
    let text = String::from_str(alloc, used.name)?;
    let own = scope.types.export_type(text, alias.index)?;
    scope.note(alloc, types, alias.item, own)?;
    Ok(true)
}

/// Writes a used type: an alias of what stands around, and the export that is the same. Whether there is that export.
fn take_use(
    alloc: Global,
    scope: &mut ItemScope,
    all: PlacedInterface<'_>,
    used: Use<'_>,
) -> Result<bool, WriteError>
    ensures takes { TakesUse all.entry used.entry scope.old scope.new result }
    ensures given { IfOk result (λ yes. yes ≡ true
        → HoldsExport all.entry.types.now all.entry.id scope.new.types used.entry.name.now) }
    ensures held { OnOk result (HoldsUse all.entry.types.now all.entry.around.used.now used.entry scope.new.types) }
    ensures keeps { OnOk result (KeepsTypes scope.old.types scope.new.types) }
    ensures refused { IfErr result (λ e. e ≡ WriteError.Unwritable → LacksIdentifier all.entry.types.now used.entry) }
{
    all.types.see_acyclic();
    let Some(item) = taken(all.types, used) else {
        return Ok(false);
    };
    let found = alias_around(alloc, scope, all.types, all.around, used, item)?;
    match found {
        Some(index) => {
            let alias = UsedIndex { item, index };
            export_used(alloc, scope, all.types, all.id, used, alias)
        }
        None => Ok(false),
    }
}

/// Writes a used type, and adds its name if it is exported.
fn take_named(
    alloc: Global,
    scope: &mut ItemScope,
    all: PlacedInterface<'_>,
    used: Use<'_>,
    given: &mut Names,
) -> Result<(), WriteError>
    ensures takes { TakesNamed all.entry used.entry scope.old given.old scope.new given.new result }
    ensures given { GivesExports all.entry.types.now all.entry.id scope.old given.old scope.new given.new result }
    ensures held { OnOk result (HoldsUse all.entry.types.now all.entry.around.used.now used.entry scope.new.types) }
    ensures keeps { OnOk result (KeepsTypes scope.old.types scope.new.types) }
    ensures refused { IfErr result (λ e. e ≡ WriteError.Unwritable → LacksIdentifier all.entry.types.now used.entry) }
{
    let is_exported = take_use(alloc, scope, all, used)?;
    if is_exported {
        Ok(add_name(alloc, given, used.name)?)
    } else {
        Ok(())
    }
}

/// Writes the used type at a place, and adds its name if it is exported.
fn take_use_at(
    alloc: Global,
    scope: &mut ItemScope,
    all: PlacedInterface<'_>,
    at: usize,
    given: &mut Names,
) -> Result<(), WriteError>
    requires { AreDistinct (names_of (uses_of all.types.now all.id)) }
    ensures takes { TakesAt all.entry at scope.old given.old scope.new given.new result }
    ensures given { GivesExports all.entry.types.now all.entry.id scope.old given.old scope.new given.new result }
    ensures held { OnOk result (HoldsUseAt all.entry.types.now all.entry.around.used.now all.entry.id at scope.new.types) }
    ensures keeps { OnOk result (KeepsTypes scope.old.types scope.new.types) }
    ensures refused { IfErr result (λ e. e ≡ WriteError.Unwritable → UseRefused all.entry.types.now all.entry.id) }
{
    match use_at(all.types, all.id, at) {
        Some(used) => take_named(alloc, scope, all, used, given),
        None => Ok(()),
    }
}

/// Writes the used types of an interface; the names of those that it exports.
fn take_uses(
    alloc: Global,
    scope: &mut ItemScope,
    all: PlacedInterface<'_>,
) -> Result<Names, WriteError>
    ensures begins { BeginsInstance all.entry scope.old scope.new result }
    ensures given { IfOk result (HoldsExports all.entry.types.now all.entry.id scope.new.types) }
    ensures held { OnOk result (HoldsUses all.entry.types.now all.entry.around.used.now all.entry.id
        (length (uses_of all.entry.types.now all.entry.id)) scope.new.types) }
    ensures refused { IfErr result (λ e. e ≡ WriteError.Unwritable → UseRefused all.entry.types.now all.entry.id) }
{
    let mut given = Names::new(alloc);
    let count = use_count(all.types, all.id);
    for at in 0..count {
        take_use_at(alloc, scope, all, at, &mut given)?;
    }
    Ok(given)
}

/// The export at a place, if it is a resource under its own name that is not written yet.
fn fresh_at<'a>(types: &'a Types, id: InterfaceId, given: &Names, at: usize) -> Option<Item<'a>>
    ensures entry { IfSome result (λ x. slice_get (exports_of types.now id) at ≡ Some (x.name.now, x.kind)) }
    ensures fresh { IfSome result (λ x. IsFresh types.now x.name.now x.kind) }
    ensures new { IfSome result (λ x. has_name given.now x.name.now ≡ false) }
    ensures none { IfNone result (IsGivenAt types.now id at given.now) }
{
    match other_at(types, id, given, at) {
        Some(item) => {
            if is_fresh(types, item) {
                Some(item)
            } else {
                None
            }
        }
        None => None,
    }
}

/// Exports such a resource, and adds its name.
fn export_fresh_at(
    alloc: Global,
    scope: &mut ItemScope,
    types: &Types,
    id: InterfaceId,
    at: usize,
    given: &mut Names,
) -> Result<(), WriteError>
    requires { AreDistinct (names_of (exports_of types.now id)) }
    ensures writes { KeepsWriting types.now id scope.old given.old scope.new given.new result }
    ensures given { GivesExports types.now id scope.old given.old scope.new given.new result }
    ensures own { HoldsExports types.now id scope.old.types given.old → OnOk result (HoldsOwnAt types.now id at scope.new.types) }
    ensures keeps { OnOk result (KeepsTypes scope.old.types scope.new.types) }
    ensures refused { IfErr result (λ e. e ≡ WriteError.Memory) }
{
    types.see_acyclic();
    match fresh_at(types, id, given, at) {
        Some(item) => {
            export_resource(alloc, scope, types, item)?;
            Ok(add_name(alloc, given, item.name)?)
        }
        None => Ok(()),
    }
}

/// Exports the resources of an interface that no use gives, and adds their names.
fn export_resources(
    alloc: Global,
    scope: &mut ItemScope,
    types: &Types,
    id: InterfaceId,
    given: &mut Names,
) -> Result<(), WriteError>
    ensures writes { KeepsWriting types.now id scope.old given.old scope.new given.new result }
    ensures own { HoldsExports types.now id scope.old.types given.old
        → OnOk result (HoldsOwn types.now id (length (exports_of types.now id)) scope.new.types) }
    ensures keeps { OnOk result (KeepsTypes scope.old.types scope.new.types) }
    ensures refused { IfErr result (λ e. e ≡ WriteError.Memory) }
{
    let count = export_count(types, id);
    for at in 0..count {
        export_fresh_at(alloc, scope, types, id, at, given)?;
    }
    Ok(())
}

/// Writes what stands first in an instance type: used types and resources. The names of what is exported.
pub(crate) fn begin_instance(
    alloc: Global,
    scope: &mut ItemScope,
    all: PlacedInterface<'_>,
) -> Result<Names, WriteError>
    ensures begins { BeginsInstance all.entry scope.old scope.new result }
    ensures held { OnOk result (HoldsStock all.entry.types.now all.entry.around.used.now all.entry.id scope.new.types) }
    ensures refused { IfErr result (λ e. e ≡ WriteError.Unwritable → UseRefused all.entry.types.now all.entry.id) }
{
    all.types.see_acyclic();
    let mut given = take_uses(alloc, scope, all)?;
    export_resources(alloc, scope, all.types, all.id, &mut given)?;
    Ok(given)
}
