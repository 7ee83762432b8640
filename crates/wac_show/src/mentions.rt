//! The types that an item speaks of, and that engines ask a name for.

use std::alloc::{AllocError, Global};
use wac_types_base::replace::is_same;
use wac_types_base::{DefinedType, ItemKind, ResourceId, Type, Types, ValueType};

/// How many parts of an item are looked at.
const MAX_PARTS: usize = 10_000;

/// The resource at the end of the aliases.
fn named_resource(types: &Types, id: ResourceId) -> Option<ItemKind> {
    if !types.has(ItemKind::Ty(Type::Resource(id))) {
        return None;
    }
    Some(ItemKind::Ty(Type::Resource(types.resolve_resource(id))))
}

/// The record, variant, flags or enum at the end of the aliases, or the resource of a handle there.
fn named_value(types: &Types, value: ValueType) -> Option<ItemKind> {
    if !types.has(ItemKind::Value(value)) {
        return None;
    }
    match types.resolve_value_type(value) {
        ValueType::Own(id) | ValueType::Borrow(id) => named_resource(types, id),
        ValueType::Defined(id) => match types.defined_type(id) {
            DefinedType::Record(_)
            | DefinedType::Variant(_)
            | DefinedType::Flags(_)
            | DefinedType::Enum(_) => Some(ItemKind::Value(ValueType::Defined(id))),
            _ => None,
        },
        ValueType::Primitive(_) => None,
    }
}

/// What engines ask a name for: a resource, a record, a variant, flags or an enum, behind its aliases.
pub(crate) fn named_type(types: &Types, kind: ItemKind) -> Option<ItemKind> {
    match kind {
        ItemKind::Ty(Type::Resource(id)) => named_resource(types, id),
        ItemKind::Ty(Type::Value(value)) | ItemKind::Value(value) => named_value(types, value),
        _ => None,
    }
}

/// Adds what an item is made of; neither what it uses, nor what a resource is another name of.
fn push_parts(types: &Types, kind: ItemKind, parts: &mut Vec<ItemKind>) -> Result<(), AllocError> {
    if !types.has(kind) {
        return Ok(());
    }
    let first = types.skipped(kind);
    for at in 0..MAX_PARTS {
        match types.place(kind, first.saturating_add(at as u128)) {
            None => break,
            Some(None) => (),
            Some(Some(part)) => parts.push(part)?,
        }
    }
    Ok(())
}

/// The types that an item speaks of, at any depth, and that engines ask a name for.
pub(crate) fn mentions(
    types: &Types,
    alloc: Global,
    kind: ItemKind,
) -> Result<Vec<ItemKind>, AllocError> {
    let mut mentioned = Vec::new(alloc);
    let mut parts = Vec::new(alloc);
    parts.push(kind)?;
    for _ in 0..MAX_PARTS {
        let Some(part) = parts.pop() else {
            break;
        };
        if let Some(named) = named_type(types, part) {
            mentioned.push(named)?;
        }
        push_parts(types, part, &mut parts)?;
    }
    Ok(mentioned)
}

/// Whether a type is among these.
pub(crate) fn is_among(kinds: &[ItemKind], named: ItemKind) -> bool {
    for kind in kinds {
        if is_same(*kind, named) {
            return true;
        }
    }
    false
}
