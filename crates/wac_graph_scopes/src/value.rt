//! Types of values and functions in a scope of written types.

ghost use Rattle.std.specs.Prelude.{◌≡◌, Some, IfOk, IfErr, OnOk, true, false};
ghost use Rattle.wac_types_base.specs.Record.{Collection};
ghost use Rattle.wac_types_base.specs.declared.item.ItemKind.{ItemKind};
ghost use Rattle.wac_types_base.specs.declared.item.ValueType.{ValueType};
ghost use Rattle.wac_types_base.specs.Collection.{Stands, StandsIf};
ghost use Rattle.wac_types_base.specs.Resolving.{IsNoAlias};
ghost use Rattle.wac_types_fit.specs.Trees.{tree_in, Fit};
ghost use Rattle.wac_types_fit.specs.Checking.{HoldsValues, value_tree, place_trees};
ghost use Rattle.wac_graph_scopes.specs.declared.error.WriteError.{WriteError};
ghost use Rattle.wac_graph_scopes.specs.Known.{IsNamed, KeepsKnown};
ghost use Rattle.wac_graph_scopes.specs.Stock.{KeepsTypes};
ghost use Rattle.wac_graph_scopes.specs.Refusals.{FindsNeeded, FindsAll, LacksTree, Refused, RefusedHandle, RefusedParts, RefusedApart, RefusedPlace, RefusedThere, RefusedThereApart};
ghost use Rattle.wac_graph_scopes.specs.Scopes.{KeepsScope, FindsOwn, FindsType, FindsTree, FindsTreeAt, FindsValue, WritesValue, WritesOwn, WritesDefined, WritesType, WritesPlaces, WritesPlace, WritesEntry, WritesIndex, MakesEntry, RemembersValue, NotesValue};

use crate::entry::{entry_of, func_entry_of};
use crate::error::WriteError;
use crate::lacking::lacks_resource;
use crate::resources::resource_of;
use crate::scope::{KnownType, TypeScope};
use std::alloc::{AllocError, Global};
use wac_graph_bytes::{DefinedType as TypeEntry, ValueType as Written};
use wac_types_base::replace::is_same;
use wac_types_base::{
    DefinedType, DefinedTypeId, FuncTypeId, ItemKind, ResourceId, Types, ValueType,
};
use wac_types_fit::{is_subtype, value_of};

/// The index of a type entry that is such a handle.
fn define_own(scope: &mut TypeScope, types: &Types, id: ResourceId) -> Result<u64, WriteError>
    requires { Stands types.now (ItemKind.Value (ValueType.Own id)) }
    ensures writes { WritesIndex types.now (tree_in types.now (ItemKind.Value (ValueType.Own id))) scope.old scope.new result }
    ensures entry { MakesEntry types.now scope.old scope.new result }
    ensures refused { IfErr result (RefusedHandle types.now id scope.new) }
    ensures known { scope.new.known ≡ scope.old.known }
    ensures resources { scope.new.resources ≡ scope.old.resources }
{
    types.see_acyclic();
    let resource = resource_of(scope, types, id)?;
    let index = scope.define(TypeEntry::Own(resource))?;
    Ok(index)
}

/// The index of such a handle: of a new entry, or of a type with a name that is equal, where the resource does not stand.
fn own_index(
    alloc: Global,
    scope: &mut TypeScope,
    types: &Types,
    id: ResourceId,
) -> Result<u64, WriteError>
    requires { Stands types.now (ItemKind.Value (ValueType.Own id)) }
    ensures writes { WritesIndex types.now (tree_in types.now (ItemKind.Value (ValueType.Own id))) scope.old scope.new result }
    ensures refused { IfErr result (Refused types.now (ItemKind.Value (ValueType.Own id)) scope.old scope.new) }
    ensures known { OnOk result (KeepsKnown scope.old.known.all.items scope.new.known.all.items) }
    ensures resources { scope.new.resources ≡ scope.old.resources }
{
    types.see_acyclic();
    match resource_of(scope, types, id) {
        Ok(resource) => Ok(scope.define(TypeEntry::Own(resource))?),
        Err(_) => equal_handle(alloc, scope, types, ValueType::Own(id)),
    }
}

fn push_own(
    alloc: Global,
    scope: &mut TypeScope,
    types: &Types,
    id: ResourceId,
) -> Result<Written, WriteError>
    requires { Stands types.now (ItemKind.Value (ValueType.Own id)) }
    ensures writes { WritesValue types.now (tree_in types.now (ItemKind.Value (ValueType.Own id))) scope.old scope.new result }
    ensures refused { IfErr result (Refused types.now (ItemKind.Value (ValueType.Own id)) scope.old scope.new) }
    ensures known { OnOk result (KeepsKnown scope.old.known.all.items scope.new.known.all.items) }
    ensures resources { scope.new.resources ≡ scope.old.resources }
{
    let index = own_index(alloc, scope, types, id)?;
    Ok(Written::Index(index))
}

/// The index of a type entry that is such a handle.
fn define_borrow(scope: &mut TypeScope, types: &Types, id: ResourceId) -> Result<u64, WriteError>
    requires { Stands types.now (ItemKind.Value (ValueType.Borrow id)) }
    ensures writes { WritesIndex types.now
        (tree_in types.now (ItemKind.Value (ValueType.Borrow id))) scope.old scope.new result }
    ensures entry { MakesEntry types.now scope.old scope.new result }
    ensures refused { IfErr result (RefusedHandle types.now id scope.new) }
    ensures known { scope.new.known ≡ scope.old.known }
    ensures resources { scope.new.resources ≡ scope.old.resources }
{
    types.see_acyclic();
    let resource = resource_of(scope, types, id)?;
    let index = scope.define(TypeEntry::Borrow(resource))?;
    Ok(index)
}

/// The index of such a handle: of a new entry, or of a type with a name that is equal, where the resource does not stand.
fn borrow_index(
    alloc: Global,
    scope: &mut TypeScope,
    types: &Types,
    id: ResourceId,
) -> Result<u64, WriteError>
    requires { Stands types.now (ItemKind.Value (ValueType.Borrow id)) }
    ensures writes { WritesIndex types.now
        (tree_in types.now (ItemKind.Value (ValueType.Borrow id))) scope.old scope.new result }
    ensures refused { IfErr result (Refused types.now (ItemKind.Value (ValueType.Borrow id)) scope.old scope.new) }
    ensures known { OnOk result (KeepsKnown scope.old.known.all.items scope.new.known.all.items) }
    ensures resources { scope.new.resources ≡ scope.old.resources }
{
    types.see_acyclic();
    match resource_of(scope, types, id) {
        Ok(resource) => Ok(scope.define(TypeEntry::Borrow(resource))?),
        Err(_) => equal_handle(alloc, scope, types, ValueType::Borrow(id)),
    }
}

fn push_borrow(
    alloc: Global,
    scope: &mut TypeScope,
    types: &Types,
    id: ResourceId,
) -> Result<Written, WriteError>
    requires { Stands types.now (ItemKind.Value (ValueType.Borrow id)) }
    ensures writes { WritesValue types.now
        (tree_in types.now (ItemKind.Value (ValueType.Borrow id))) scope.old scope.new result }
    ensures refused { IfErr result (Refused types.now (ItemKind.Value (ValueType.Borrow id)) scope.old scope.new) }
    ensures known { OnOk result (KeepsKnown scope.old.known.all.items scope.new.known.all.items) }
    ensures resources { scope.new.resources ≡ scope.old.resources }
{
    let index = borrow_index(alloc, scope, types, id)?;
    Ok(Written::Index(index))
}

/// The index of a value type that is known by its entry: its own, else the next along its aliases that is known.
fn known_value(scope: &TypeScope, types: &Types, ty: ValueType) -> Option<u64>
    requires { Stands types.now (ItemKind.Value ty) }
    ensures reads { FindsValue types.now scope.now ty result }
    ensures own { FindsOwn scope.now ty result }
{
    types.see_acyclic();
    let ValueType::Defined(own) = ty else {
        return None;
    };
    match scope.known(own) {
        Some(index) => Some(index),
        None => match types.defined_type(own) {
            DefinedType::Alias(source) => known_value(scope, types, *source),
            _ => None,
        },
    }
}

/// The written form of a value type.
#[cycle(values)]
pub(crate) fn push_value(
    alloc: Global,
    scope: &mut TypeScope,
    types: &Types,
    ty: ValueType,
) -> Result<Written, WriteError>
    requires { Stands types.now (ItemKind.Value ty) }
    ensures writes { WritesValue types.now (tree_in types.now (ItemKind.Value ty)) scope.old scope.new result }
    ensures own { WritesOwn scope.old ty result }
    ensures refused { IfErr result (Refused types.now (ItemKind.Value ty) scope.old scope.new) }
    ensures known { OnOk result (KeepsKnown scope.old.known.all.items scope.new.known.all.items) }
    ensures resources { scope.new.resources ≡ scope.old.resources }
{
    types.see_acyclic();
    if let Some(index) = known_value(scope, types, ty) {
        return Ok(Written::Index(index));
    }
    let end = types.resolve_value_type(ty);
    push_resolved(alloc, scope, types, end)
}

/// The written form of a value type that is no alias.
#[cycle(values)]
fn push_resolved(
    alloc: Global,
    scope: &mut TypeScope,
    types: &Types,
    ty: ValueType,
) -> Result<Written, WriteError>
    requires stands { Stands types.now (ItemKind.Value ty) }
    requires no_alias { IsNoAlias types.now ty }
    ensures writes { WritesValue types.now (tree_in types.now (ItemKind.Value ty)) scope.old scope.new result }
    ensures refused { IfErr result (Refused types.now (ItemKind.Value ty) scope.old scope.new) }
    ensures known { OnOk result (KeepsKnown scope.old.known.all.items scope.new.known.all.items) }
    ensures resources { scope.new.resources ≡ scope.old.resources }
{
    types.see_acyclic();
    match ty {
        ValueType::Primitive(p) => Ok(Written::Primitive(p)),
        ValueType::Own(id) => push_own(alloc, scope, types, id),
        ValueType::Borrow(id) => push_borrow(alloc, scope, types, id),
        ValueType::Defined(id) => push_defined(alloc, scope, types, id),
    }
}

/// Whether an item fits another. What does not stand fits nothing.
pub fn fits_in(alloc: Global, types: &Types, a: ItemKind, b: ItemKind) -> Result<bool, AllocError>
    ensures fits { IfOk result (λ yes. yes ≡ true → Fit types.now a types.now b) }
    ensures stands { IfOk result (λ yes. yes ≡ true → Stands types.now a) }
    ensures other_stands { IfOk result (λ yes. yes ≡ true → Stands types.now b) }
    ensures differs { IfOk result (λ yes. yes ≡ false → Stands types.now a → Stands types.now b
        → Fit types.now a types.now b → ⊥) }
{
    if !types.has(a) || !types.has(b) {
        return Ok(false);
    }
    if is_same(a, b) {
        return Ok(true);
    }
    is_subtype(alloc, types, a, b)
}

/// The place in the list of those that are known where a type of this number with a name stands.
fn place_of(
    scope: &mut TypeScope,
    types: &Types,
    ty: ValueType,
) -> Result<Option<usize>, WriteError>
    requires { Stands types.now (ItemKind.Value ty) }
    ensures keeps { KeepsScope types.now scope.old scope.new }
    ensures none { IfOk result (FindsTree types.now scope.old ty) }
    ensures refused { IfErr result (λ e. e ≡ WriteError.Memory) }
    ensures known { scope.new.known.all ≡ scope.old.known.all }
    ensures resources { scope.new.resources ≡ scope.old.resources }
{
    if scope.known.places.by_print.is_empty() {
        return Ok(None);
    }
    let print = scope.known.places.prints.of(types, ty)?;
    Ok(scope.known.places.place_of_print(print))
}

/// The index of the type at a place in the list of those that are known, if it is equal.
fn equal_at(
    alloc: Global,
    scope: &TypeScope,
    types: &Types,
    ty: ValueType,
    at: usize,
) -> Result<Option<u64>, WriteError>
    requires { Stands types.now (ItemKind.Value ty) }
    ensures reads { IfOk result (λ o. FindsValue types.now scope.now ty o) }
    ensures none { IfOk result (FindsTreeAt types.now scope.now ty at) }
    ensures refused { IfErr result (λ e. e ≡ WriteError.Memory) }
{
    types.see_acyclic();
    let Some(other) = scope.known_at(at) else {
        return Ok(None);
    };
    let own = ItemKind::Value(other.ty);
    let equal = fits_in(alloc, types, own, ItemKind::Value(ty))?;
    if equal {
        Ok(Some(other.index))
    } else {
        Ok(None)
    }
}

/// The index of the first type that is known and equal.
fn equal_among(
    alloc: Global,
    scope: &TypeScope,
    types: &Types,
    ty: ValueType,
) -> Result<Option<u64>, WriteError>
    requires { Stands types.now (ItemKind.Value ty) }
    ensures reads { IfOk result (λ o. FindsValue types.now scope.now ty o) }
    ensures none { IfOk result (FindsTree types.now scope.now ty) }
    ensures refused { IfErr result (λ e. e ≡ WriteError.Memory) }
{
    for at in 0..scope.known.all.len() {
        let found = equal_at(alloc, scope, types, ty, at)?;
        if found.is_some() {
            return Ok(found);
        }
    }
    Ok(None)
}

/// The index of a type that is written and equal: the first of its number with a name, else any, since types that differ
/// can have one number.
fn equal_index(
    alloc: Global,
    scope: &mut TypeScope,
    types: &Types,
    ty: ValueType,
) -> Result<Option<u64>, WriteError>
    requires { Stands types.now (ItemKind.Value ty) }
    ensures keeps { KeepsScope types.now scope.old scope.new }
    ensures reads { IfOk result (λ o. FindsValue types.now scope.old ty o) }
    ensures none { IfOk result (FindsTree types.now scope.old ty) }
    ensures refused { IfErr result (λ e. e ≡ WriteError.Memory) }
    ensures known { scope.new.known.all ≡ scope.old.known.all }
    ensures resources { scope.new.resources ≡ scope.old.resources }
{
    let Some(at) = place_of(scope, types, ty)? else {
        return Ok(None);
    };
    let found = equal_at(alloc, scope, types, ty, at)?;
    if found.is_some() {
        return Ok(found);
    }
    let found = equal_among(alloc, scope, types, ty)?;
    Ok(found)
}

/// The index of a type with a name that is equal to a handle.
fn equal_handle(
    alloc: Global,
    scope: &mut TypeScope,
    types: &Types,
    ty: ValueType,
) -> Result<u64, WriteError>
    requires { Stands types.now (ItemKind.Value ty) }
    ensures writes { WritesIndex types.now (tree_in types.now (ItemKind.Value ty)) scope.old scope.new result }
    ensures none { IfErr result (LacksTree types.now scope.old ty) }
    ensures known { scope.new.known.all ≡ scope.old.known.all }
    ensures resources { scope.new.resources ≡ scope.old.resources }
{
    let found = equal_index(alloc, scope, types, ty)?;
    match found {
        Some(index) => Ok(index),
        None => Err(WriteError::Unwritable),
    }
}

/// The index of a type with a name that is equal, if the type cannot be written anew: a handle in it is of a resource
/// that does not stand here.
fn needed_index(
    alloc: Global,
    scope: &mut TypeScope,
    types: &Types,
    id: DefinedTypeId,
) -> Result<Option<u64>, WriteError>
    requires { Stands types.now (ItemKind.Value (ValueType.Defined id)) }
    ensures keeps { KeepsScope types.now scope.old scope.new }
    ensures reads { IfOk result (λ o. FindsType types.now scope.old id o) }
    ensures none { IfOk result (FindsNeeded types.now scope.old id) }
    ensures refused { IfErr result (λ e. e ≡ WriteError.Memory) }
    ensures known { scope.new.known.all ≡ scope.old.known.all }
    ensures resources { scope.new.resources ≡ scope.old.resources }
{
    let found = equal_index(alloc, scope, types, ValueType::Defined(id))?;
    match found {
        Some(index) => {
            let lacks = lacks_resource(alloc, scope, types, id)?;
            if lacks { Ok(Some(index)) } else { Ok(None) }
        }
        None => Ok(None),
    }
}

/// Whether a type of this form has to have a name where it is imported or exported.
fn is_nominal(ty: &DefinedType) -> bool {
    matches!(
        ty,
        DefinedType::Record(_)
            | DefinedType::Variant(_)
            | DefinedType::Enum(_)
            | DefinedType::Flags(_)
    )
}

/// The index of a type with a name that is equal, perhaps only if the type cannot be written anew.
fn equal_or_needed(
    alloc: Global,
    scope: &mut TypeScope,
    types: &Types,
    id: DefinedTypeId,
    by_name: bool,
) -> Result<Option<u64>, WriteError>
    requires { Stands types.now (ItemKind.Value (ValueType.Defined id)) }
    ensures keeps { KeepsScope types.now scope.old scope.new }
    ensures reads { IfOk result (λ o. FindsType types.now scope.old id o) }
    ensures none { IfOk result (FindsNeeded types.now scope.old id) }
    ensures refused { IfErr result (λ e. e ≡ WriteError.Memory) }
    ensures known { scope.new.known.all ≡ scope.old.known.all }
    ensures resources { scope.new.resources ≡ scope.old.resources }
{
    if by_name {
        equal_index(alloc, scope, types, ValueType::Defined(id))
    } else {
        needed_index(alloc, scope, types, id)
    }
}

/// The index of a type that is written already, or of one with a name that has to be the type: of an equal one where
/// the type is spoken of and has to have a name, else only where it cannot be written anew.
fn known_index(
    alloc: Global,
    scope: &mut TypeScope,
    types: &Types,
    id: DefinedTypeId,
    is_item: bool,
) -> Result<Option<u64>, WriteError>
    requires { Stands types.now (ItemKind.Value (ValueType.Defined id)) }
    ensures keeps { KeepsScope types.now scope.old scope.new }
    ensures reads { IfOk result (λ o. FindsType types.now scope.old id o) }
    ensures none { IfOk result (FindsAll types.now scope.old id) }
    ensures refused { IfErr result (λ e. e ≡ WriteError.Memory) }
    ensures known { scope.new.known.all ≡ scope.old.known.all }
    ensures resources { scope.new.resources ≡ scope.old.resources }
{
    if let Some(index) = scope.known(id) {
        return Ok(Some(index));
    }
    let by_name = !is_item && is_nominal(types.defined_type(id));
    equal_or_needed(alloc, scope, types, id, by_name)
}

/// Remembers the index of a type that has a name here.
fn note_named(
    scope: &mut TypeScope,
    types: &Types,
    ty: ValueType,
    index: u64,
) -> Result<(), WriteError>
    requires { Stands types.now (ItemKind.Value ty) }
    ensures remembers { RemembersValue types.now ty index scope.old scope.new result }
    ensures keeps { OnOk result (KeepsTypes scope.old scope.new) }
    ensures refused { IfErr result (λ e. e ≡ WriteError.Memory) }
    ensures found { OnOk result (IsNamed ty scope.new.known.all.items) }
{
    let print = scope.known.places.prints.of(types, ty)?;
    let at = scope.known.all.len();
    scope.known.places.note_print(print, at)?;
    scope.remember(KnownType {
        ty,
        index,
        named: true,
    })?;
    Ok(())
}

/// Remembers the index of a value type's entry, and of the one at the end of its aliases where none stands for it yet.
pub(crate) fn note_value(
    scope: &mut TypeScope,
    types: &Types,
    ty: ValueType,
    index: u64,
) -> Result<(), WriteError>
    ensures notes { NotesValue types.now ty index scope.old scope.new result }
    ensures own { Stands types.now (ItemKind.Value ty) → OnOk result (IsNamed ty scope.new.known.all.items) }
    ensures keeps { OnOk result (KeepsTypes scope.old scope.new) }
    ensures refused { IfErr result (λ e. e ≡ WriteError.Memory) }
{
    if !types.has(ItemKind::Value(ty)) {
        return Ok(());
    }
    types.see_acyclic();
    note_own(scope, types, ty, index)?;
    note_end(scope, types.resolve_value_type(ty), index)
}

/// Remembers the index of a type as one under a name of its own, unless one is remembered so.
fn note_own(
    scope: &mut TypeScope,
    types: &Types,
    ty: ValueType,
    index: u64,
) -> Result<(), WriteError>
    requires { Stands types.now (ItemKind.Value ty) }
    ensures remembers { RemembersValue types.now ty index scope.old scope.new result }
    ensures keeps { OnOk result (KeepsTypes scope.old scope.new) }
    ensures refused { IfErr result (λ e. e ≡ WriteError.Memory) }
    ensures found { OnOk result (IsNamed ty scope.new.known.all.items) }
{
    if scope.is_named(ty) {
        return Ok(());
    }
    note_named(scope, types, ty, index)
}

/// Remembers the index of a defined type without a name, unless one is remembered.
fn note_end(scope: &mut TypeScope, ty: ValueType, index: u64) -> Result<(), WriteError>
    ensures remembers { (c : Collection) → RemembersValue c ty index scope.old scope.new result }
    ensures refused { IfErr result (λ e. e ≡ WriteError.Memory) }
    ensures keeps { OnOk result (KeepsTypes scope.old scope.new) }
{
    let ValueType::Defined(id) = ty else {
        return Ok(());
    };
    match scope.known(id) {
        Some(_) => Ok(()),
        None => {
            scope.remember(KnownType {
                ty,
                index,
                named: false,
            })?;
            Ok(())
        }
    }
}

/// The index of a type entry that is a value type. A defined type that is not written yet is not remembered.
pub(crate) fn define_value(
    alloc: Global,
    scope: &mut TypeScope,
    types: &Types,
    ty: ValueType,
) -> Result<u64, WriteError>
    ensures writes { WritesType types.now (tree_in types.now (ItemKind.Value ty)) scope.old scope.new result }
    ensures refused { RefusedThere types.now (ItemKind.Value ty) scope.old scope.new result }
    ensures known { OnOk result (KeepsKnown scope.old.known.all.items scope.new.known.all.items) }
    ensures resources { scope.new.resources ≡ scope.old.resources }
{
    if !types.has(ItemKind::Value(ty)) {
        return Err(WriteError::Unwritable);
    }
    types.see_acyclic();
    if let Some(index) = known_value(scope, types, ty) {
        return Ok(index);
    }
    match types.resolve_value_type(ty) {
        ValueType::Defined(id) => {
            define_once(alloc, scope, types, id, ty == ValueType::Defined(id))
        }
        ValueType::Own(id) => own_index(alloc, scope, types, id),
        ValueType::Borrow(id) => borrow_index(alloc, scope, types, id),
        ValueType::Primitive(p) => Ok(scope.define(TypeEntry::Primitive(p))?),
    }
}

/// The index of a type entry of its own that is a value type which is no alias.
fn define_plain(
    alloc: Global,
    scope: &mut TypeScope,
    types: &Types,
    ty: ValueType,
) -> Result<u64, WriteError>
    requires stands { Stands types.now (ItemKind.Value ty) }
    requires no_alias { IsNoAlias types.now ty }
    ensures writes { WritesType types.now (tree_in types.now (ItemKind.Value ty)) scope.old scope.new result }
    ensures entry { MakesEntry types.now scope.old scope.new result }
    ensures refused { IfErr result (RefusedApart types.now (ItemKind.Value ty) scope.old scope.new) }
    ensures resources { scope.new.resources ≡ scope.old.resources }
{
    types.see_acyclic();
    match ty {
        ValueType::Primitive(p) => Ok(scope.define(TypeEntry::Primitive(p))?),
        ValueType::Own(id) => define_own(scope, types, id),
        ValueType::Borrow(id) => define_borrow(scope, types, id),
        ValueType::Defined(id) => define_anew(alloc, scope, types, id),
    }
}

/// The index of a defined type that is no alias: that of the entry that is known, else of one that is written. It is an
/// item's own entry, or at the end of its aliases.
fn define_once(
    alloc: Global,
    scope: &mut TypeScope,
    types: &Types,
    id: DefinedTypeId,
    is_item: bool,
) -> Result<u64, WriteError>
    requires stands { Stands types.now (ItemKind.Value (ValueType.Defined id)) }
    requires no_alias { IsNoAlias types.now (ValueType.Defined id) }
    ensures writes { WritesType types.now
        (tree_in types.now (ItemKind.Value (ValueType.Defined id))) scope.old scope.new result }
    ensures refused { IfErr result (Refused types.now (ItemKind.Value (ValueType.Defined id)) scope.old scope.new) }
    ensures known { OnOk result (KeepsKnown scope.old.known.all.items scope.new.known.all.items) }
    ensures resources { scope.new.resources ≡ scope.old.resources }
{
    match known_index(alloc, scope, types, id, is_item)? {
        Some(index) => Ok(index),
        None => define_entry(alloc, scope, types, id),
    }
}

/// The index of a type entry of its own that is a value type, whatever else is written.
pub(crate) fn define_apart(
    alloc: Global,
    scope: &mut TypeScope,
    types: &Types,
    ty: ValueType,
) -> Result<u64, WriteError>
    ensures stands { IfOk result (λ _. Stands types.now (ItemKind.Value ty)) }
    ensures writes { WritesType types.now (tree_in types.now (ItemKind.Value ty)) scope.old scope.new result }
    ensures entry { MakesEntry types.now scope.old scope.new result }
    ensures refused { RefusedThereApart types.now (ItemKind.Value ty) scope.old scope.new result }
    ensures resources { scope.new.resources ≡ scope.old.resources }
{
    if !types.has(ItemKind::Value(ty)) {
        return Err(WriteError::Unwritable);
    }
    types.see_acyclic();
    let end = types.resolve_value_type(ty);
    define_plain(alloc, scope, types, end)
}

/// The index of a type entry of its own that is a defined type, which is no alias. It is known afterwards.
fn define_anew(
    alloc: Global,
    scope: &mut TypeScope,
    types: &Types,
    id: DefinedTypeId,
) -> Result<u64, WriteError>
    requires stands { Stands types.now (ItemKind.Value (ValueType.Defined id)) }
    requires no_alias { IsNoAlias types.now (ValueType.Defined id) }
    ensures writes { WritesType types.now
        (tree_in types.now (ItemKind.Value (ValueType.Defined id))) scope.old scope.new result }
    ensures entry { MakesEntry types.now scope.old scope.new result }
    ensures refused { IfErr result (RefusedParts types.now (ItemKind.Value (ValueType.Defined id)) scope.old scope.new) }
    ensures resources { scope.new.resources ≡ scope.old.resources }
{
    let index = define_entry(alloc, scope, types, id)?;
    scope.remember(KnownType {
        ty: ValueType::Defined(id),
        index,
        named: false,
    })?;
    Ok(index)
}

/// The index of a defined type, which is written where it is not known yet.
#[cycle(values)]
fn push_defined(
    alloc: Global,
    scope: &mut TypeScope,
    types: &Types,
    id: DefinedTypeId,
) -> Result<Written, WriteError>
    requires stands { Stands types.now (ItemKind.Value (ValueType.Defined id)) }
    requires no_alias { IsNoAlias types.now (ValueType.Defined id) }
    ensures writes { WritesDefined types.now id scope.old scope.new result }
    ensures refused { IfErr result (Refused types.now (ItemKind.Value (ValueType.Defined id)) scope.old scope.new) }
    ensures known { OnOk result (KeepsKnown scope.old.known.all.items scope.new.known.all.items) }
    ensures resources { scope.new.resources ≡ scope.old.resources }
{
    let known = known_index(alloc, scope, types, id, false)?;
    if let Some(index) = known {
        return Ok(Written::Index(index));
    }
    let index = define_entry(alloc, scope, types, id)?;
    scope.remember(KnownType {
        ty: ValueType::Defined(id),
        index,
        named: false,
    })?;
    Ok(Written::Index(index))
}

/// The index of the entry of a defined type, which is written behind what it is made of.
#[cycle(values)]
fn define_entry(
    alloc: Global,
    scope: &mut TypeScope,
    types: &Types,
    id: DefinedTypeId,
) -> Result<u64, WriteError>
    requires { Stands types.now (ItemKind.Value (ValueType.Defined id)) }
    ensures writes { WritesEntry types.now id scope.old scope.new result }
    ensures entry { MakesEntry types.now scope.old scope.new result }
    ensures refused { IfErr result (RefusedParts types.now (ItemKind.Value (ValueType.Defined id)) scope.old scope.new) }
    ensures known { OnOk result (KeepsKnown scope.old.known.all.items scope.new.known.all.items) }
    ensures resources { scope.new.resources ≡ scope.old.resources }
{
    types.see_acyclic();
    let ty = types.defined_type(id);
    let places = push_places(alloc, scope, types, ItemKind::Value(ValueType::Defined(id)))?;
    let entry = entry_of(alloc, ty, places.as_slice())?;
    Ok(scope.define(entry)?)
}

/// The written forms of the value types in the places of a kind.
#[cycle(values)]
fn push_places(
    alloc: Global,
    scope: &mut TypeScope,
    types: &Types,
    kind: ItemKind,
) -> Result<Vec<Option<Written>>, WriteError>
    requires stands { Stands types.now kind }
    requires values { HoldsValues types.now kind }
    ensures writes { WritesPlaces types.now (place_trees types.now kind) scope.old scope.new result }
    ensures refused { IfErr result (RefusedParts types.now kind scope.old scope.new) }
    ensures known { OnOk result (KeepsKnown scope.old.known.all.items scope.new.known.all.items) }
    ensures resources { scope.new.resources ≡ scope.old.resources }
{
    types.see_acyclic();
    let mut written = Vec::new(alloc);
    let mut at: u128 = 0;
    while let Some(place) = types.place(kind, at) {
        let value = push_place(alloc, scope, types, value_of(place))?;
        written.push(value)?;
        at += 1;
    }
    Ok(written)
}

/// The written form of the value type in a place.
#[cycle(values)]
fn push_place(
    alloc: Global,
    scope: &mut TypeScope,
    types: &Types,
    place: Option<ValueType>,
) -> Result<Option<Written>, WriteError>
    requires { StandsIf types.now place }
    ensures writes { WritesPlace types.now (value_tree types.now place) scope.old scope.new result }
    ensures refused { IfErr result (RefusedPlace types.now place scope.old scope.new) }
    ensures known { OnOk result (KeepsKnown scope.old.known.all.items scope.new.known.all.items) }
    ensures resources { scope.new.resources ≡ scope.old.resources }
{
    match place {
        None => Ok(None),
        Some(ty) => {
            let value = push_value(alloc, scope, types, ty)?;
            Ok(Some(value))
        }
    }
}

/// The index of a function type.
pub(crate) fn push_func(
    alloc: Global,
    scope: &mut TypeScope,
    types: &Types,
    id: FuncTypeId,
) -> Result<u64, WriteError>
    requires { Stands types.now (ItemKind.Func id) }
    ensures writes { WritesType types.now (tree_in types.now (ItemKind.Func id)) scope.old scope.new result }
    ensures entry { MakesEntry types.now scope.old scope.new result }
    ensures refused { IfErr result (Refused types.now (ItemKind.Func id) scope.old scope.new) }
    ensures known { OnOk result (KeepsKnown scope.old.known.all.items scope.new.known.all.items) }
    ensures resources { scope.new.resources ≡ scope.old.resources }
{
    types.see_acyclic();
    let ty = types.func_type(id);
    let places = push_places(alloc, scope, types, ItemKind::Func(id))?;
    let entry = func_entry_of(alloc, ty, places.as_slice())?;
    let index = scope.define(entry)?;
    Ok(index)
}
