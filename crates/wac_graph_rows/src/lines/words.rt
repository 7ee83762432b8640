//! What words name.

use crate::lines::entries::Meant;
use wac_rows::Words;
use wac_types_base::{
    InterfaceId, ItemKind, NamedMap, PrimitiveType, ResourceId, Type, UsedType, ValueType,
};

/// What stands where a name has nothing.
const NOTHING: ValueType = ValueType::Primitive(PrimitiveType::Bool);

/// The word behind another, or nothing.
pub(crate) fn word_behind<'a>(words: &Words<'a>, before: &str) -> &'a str {
    let mut is_next = false;
    for word in words.rest().split(' ') {
        if is_next {
            return word;
        }
        is_next = word == before;
    }
    ""
}

/// The item of a name.
pub fn item_named(items: &NamedMap<ItemKind>, words: &mut Words<'_>, name: &str) -> ItemKind {
    match items.get(name) {
        Some(item) => *item,
        None => {
            words.refuse("no such item");
            ItemKind::Value(NOTHING)
        }
    }
}

/// The item that the next word names.
pub fn take_item(items: &NamedMap<ItemKind>, words: &mut Words<'_>) -> ItemKind {
    let name = words.take();
    item_named(items, words, name)
}

/// The type that the item of a name is, or that it is of; of a value, its type.
pub fn type_named(items: &NamedMap<ItemKind>, words: &mut Words<'_>, name: &str) -> Type {
    match item_named(items, words, name) {
        ItemKind::Ty(ty) => ty,
        ItemKind::Func(id) => Type::Func(id),
        ItemKind::Instance(id) => Type::Interface(id),
        ItemKind::Component(id) => Type::World(id),
        ItemKind::Value(ty) => Type::Value(ty),
        ItemKind::Module(id) => Type::Module(id),
    }
}

/// The resource of a name: one that does not stand, if there is none.
pub(crate) fn resource_named(items: &NamedMap<ItemKind>, name: &str) -> ResourceId {
    match items.get(name) {
        Some(ItemKind::Ty(Type::Resource(id))) => *id,
        _ => ResourceId {
            collection: u64::MAX,
            index: 0,
        },
    }
}

/// The interface of a name: one that does not stand, if there is none.
pub(crate) fn interface_named(items: &NamedMap<ItemKind>, name: &str) -> InterfaceId {
    match items.get(name) {
        Some(ItemKind::Instance(id)) => *id,
        _ => InterfaceId {
            collection: u64::MAX,
            index: 0,
        },
    }
}

/// The value type of a word: `u32`, `own.RESOURCE`, `borrow.RESOURCE`, or a name.
pub fn value_named(items: &NamedMap<ItemKind>, words: &mut Words<'_>, word: &str) -> ValueType {
    if let Some(name) = word.strip_prefix("own.") {
        return ValueType::Own(resource_named(items, name));
    }
    if let Some(name) = word.strip_prefix("borrow.") {
        return ValueType::Borrow(resource_named(items, name));
    }
    match items.get(word) {
        Some(ItemKind::Ty(Type::Value(ty))) => *ty,
        _ => {
            words.refuse("no such value type");
            NOTHING
        }
    }
}

/// The value type of the next word.
pub fn take_value(items: &NamedMap<ItemKind>, words: &mut Words<'_>) -> ValueType {
    let word = words.take();
    value_named(items, words, word)
}

impl Meant for ValueType {
    fn meant(items: &NamedMap<ItemKind>, words: &mut Words<'_>, word: &str) -> Self {
        value_named(items, words, word)
    }
}

impl Meant for ItemKind {
    fn meant(items: &NamedMap<ItemKind>, words: &mut Words<'_>, word: &str) -> Self {
        item_named(items, words, word)
    }
}

impl Meant for UsedType {
    fn meant(items: &NamedMap<ItemKind>, _words: &mut Words<'_>, word: &str) -> Self {
        UsedType {
            interface: interface_named(items, word),
            name: None,
        }
    }
}
