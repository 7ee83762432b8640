//! What is kept of several asks.

use crate::lines::take_item;
use wac_rows::{Told, Words};
use wac_types_base::{Interface, ItemKind, NamedMap, Types};
use wac_types_fit::{SubtypeChecker, new_cache};
use wac_types_merge::{AggregateError, TypeAggregator};

/// The number of the collection of what is kept.
const NUMBER: u64 = 10;

/// The words for a refusal.
fn refusal_word(fault: &AggregateError) -> &'static str {
    match fault {
        AggregateError::Incompatible(_) => "incompatible",
        AggregateError::OutsideFamilies => "outside families",
        AggregateError::UsedWithoutIdentifier => "used without identifier",
        AggregateError::Memory => "out of memory",
    }
}

/// The aggregator of one more ask, which a line `NAME ITEM` says. None is where it is refused, which is told.
fn asked(
    types: &Types,
    items: &NamedMap<ItemKind>,
    told: &mut Told,
    (all, checker): (TypeAggregator, &mut SubtypeChecker<'_>),
    line: &str,
) -> Option<TypeAggregator> {
    let mut words = Words::new(told.alloc(), line);
    let name = words.take();
    let item = take_item(items, &mut words);
    if !types.has(item) {
        return told.refuse("the item does not stand");
    }
    match all.aggregate(told.alloc(), name, types, item, checker) {
        Ok(more) => Some(more),
        Err(fault) => told.refuse(refusal_word(&fault)),
    }
}

/// The aggregator of the asks of a text, one after another.
fn merged(
    types: &Types,
    items: &NamedMap<ItemKind>,
    told: &mut Told,
    text: &str,
) -> Option<TypeAggregator> {
    let mut cache = new_cache(told.alloc());
    let mut checker = SubtypeChecker::new(told.alloc(), &mut cache);
    let mut all = TypeAggregator::new(told.alloc(), NUMBER);
    for line in text.split('\n') {
        all = asked(types, items, told, (all, &mut checker), line)?;
    }
    Some(all)
}

/// Tells an interface's identifier, if it has one, and the names of its exports: ` as ID exports f g`.
fn tell_interface(told: &mut Told, interface: &Interface) {
    if let Some(id) = &interface.id {
        told.push(" as ");
        told.push(id.as_str());
    }
    told.push(" exports");
    for name in interface.exports.names() {
        told.push(" ");
        told.push(name.as_str());
    }
    told.push("\n");
}

/// Tells what is kept under a name.
fn tell_import(types: &Types, told: &mut Told, name: &str, kind: ItemKind) {
    told.push(name);
    match kind {
        ItemKind::Instance(id) if types.has(kind) => tell_interface(told, types.interface(id)),
        _ => told.push(" is no instance\n"),
    }
}

/// Tells the names that stand for those of a text.
fn tell_canonical(all: &TypeAggregator, told: &mut Told, names: &str) {
    for name in names.split('\n') {
        told.push(name);
        told.push(" is ");
        match all.canonical_import_name(told.alloc(), name) {
            Ok(canonical) => told.push(canonical),
            Err(_) => told.push("out of memory"),
        }
        told.push("\n");
    }
}

/// Tells what is kept of the asks of a text, or the refusal, and then the names that stand for others.
pub(crate) fn tell_merges(
    types: &Types,
    items: &NamedMap<ItemKind>,
    told: &mut Told,
    asks: &str,
    canonical: Option<&str>,
) {
    let Some(all) = merged(types, items, told, asks) else {
        return;
    };
    for import in all.imports() {
        tell_import(all.types(), told, import.name.as_str(), import.kind);
    }
    if let Some(names) = canonical {
        tell_canonical(&all, told, names);
    }
}
