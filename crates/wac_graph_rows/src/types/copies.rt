//! Copies of items in other collections.

use wac_rows::{Told, Words};
use wac_types::{InterfaceId, ItemKind, NamedMap, Types, ValueType, WorldId, copy_world};
use wac_types_base::copy::copy_item;

/// The number of the other collection.
const OTHER: u64 = 2;

/// The items under another number.
pub(crate) fn items_under(
    items: &NamedMap<ItemKind>,
    words: &mut Words<'_>,
    number: u64,
) -> NamedMap<ItemKind> {
    let mut under = NamedMap::new(words.alloc());
    for at in 0..items.len() {
        let (name, item) = items.entry(at);
        let name = words.own(name);
        if under.insert(name, item.under(number)).is_err() {
            words.refuse("out of memory");
        }
    }
    under
}

/// Tells the names that an instance exports.
fn tell_names(types: &Types, told: &mut Told, id: InterfaceId) {
    if types.has(ItemKind::Instance(id)) {
        told.push(" with");
        for name in types.interface(id).exports.names() {
            told.push(" ");
            told.push(name.as_str());
        }
    }
}

/// Tells an export, with the names that it exports itself if it is an instance.
fn tell_export(types: &Types, told: &mut Told, name: &str, item: ItemKind) {
    told.push(" exports ");
    told.push(name);
    if let ItemKind::Instance(id) = item {
        tell_names(types, told, id);
    }
}

/// Tells a world's place, its collection and its exports.
fn tell_world(types: &Types, told: &mut Told, id: WorldId) {
    if !types.has(ItemKind::Component(id)) {
        return told.push("the world does not stand");
    }
    told.push("world ");
    told.show(&id);
    told.push(" of ");
    told.show(&id.collection);
    let exports = &types.world(id).exports;
    for at in 0..exports.len() {
        let (name, item) = exports.entry(at);
        tell_export(types, told, name, *item);
    }
}

/// Tells a world's copy, and how many interfaces there are beside it.
fn tell_copied_world(types: &Types, told: &mut Told, id: WorldId) {
    if !types.has(ItemKind::Component(id)) {
        return told.push("the world does not stand");
    }
    let mut other = Types::new(told.alloc(), OTHER);
    let copied = copy_world(told.alloc(), types, id, &mut other.adding());
    if let Some(copy) = told.given(copied) {
        tell_world(&other, told, copy);
    }
    told.push(", interfaces ");
    told.show(&other.interfaces().len());
}

/// Tells a value's word, its place and its collection.
fn tell_value(types: &Types, told: &mut Told, item: ItemKind) {
    match item {
        ItemKind::Value(ValueType::Defined(id)) if types.has(item) => {
            told.push(ValueType::Defined(id).desc(types));
            told.push(" ");
            told.show(&id);
            told.push(" of ");
            told.show(&id.collection);
        }
        _ => told.push("the item is no value of a defined type"),
    }
}

/// Tells a value's copy.
fn tell_copied_value(types: &Types, told: &mut Told, item: ItemKind) {
    if !types.has(item) {
        return told.push("the item does not stand");
    }
    let mut other = Types::new(told.alloc(), OTHER);
    let copied = copy_item(told.alloc(), types, item, &mut other);
    if let Some(copy) = told.given(copied) {
        tell_value(&other, told, copy);
    }
}

/// Tells the copy of an item.
pub(crate) fn tell_copied(types: &Types, told: &mut Told, item: ItemKind) {
    match item {
        ItemKind::Component(id) => tell_copied_world(types, told, id),
        _ => tell_copied_value(types, told, item),
    }
}

/// Copies an item twice into one collection, and tells how many entries are kept there.
pub(crate) fn tell_copied_twice(types: &Types, told: &mut Told, item: ItemKind) {
    if !types.has(item) {
        return told.push("the item does not stand");
    }
    let mut other = Types::new(told.alloc(), OTHER);
    let first = copy_item(told.alloc(), types, item, &mut other);
    let second = copy_item(told.alloc(), types, item, &mut other);
    if told.given(first).is_some() && told.given(second).is_some() {
        told.push("kept ");
        told.show(&other.kept_entries());
    }
}

/// Tells the number of the collection copied as another, the world there, and whether its first id stands there too.
pub(crate) fn tell_renumbered(types: &Types, told: &mut Told, id: WorldId) {
    let copied = types.copy_as(told.alloc(), OTHER);
    if let Some(other) = told.given(copied) {
        told.show(&other.number());
        told.push(if other.has(ItemKind::Component(id)) {
            ", old id stands, "
        } else {
            ", new id stands, "
        });
        tell_world(&other, told, id.under(OTHER));
    }
}
