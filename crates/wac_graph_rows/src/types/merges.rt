//! What is kept of asks in one list.

use crate::lines::take_item;
use wac_rows::{Told, Words};
use wac_types::{AggregateError, ItemKind, NamedMap, TypeAggregator, Types, aggregate_all};

/// The number of the collection of what is kept.
const NUMBER: u64 = 7;

/// Tells the names of what is kept, or the refusal.
fn tell_kept(told: &mut Told, kept: Result<TypeAggregator, AggregateError>) {
    match kept {
        Ok(all) => {
            told.show(&all.imports().count());
            told.push(" kept");
            for import in all.imports() {
                told.push(" ");
                told.push(import.name.as_str());
            }
        }
        Err(fault) => told.show(&fault),
    }
}

/// Tells what is kept of two asks.
fn tell_two(
    types: &Types,
    told: &mut Told,
    (name, item): (&str, ItemKind),
    (other_name, other): (&str, ItemKind),
) {
    if !types.has(item) || !types.has(other) {
        return told.push("an item does not stand");
    }
    let asks = &[(name, types, item), (other_name, types, other)];
    let kept = aggregate_all(told.alloc(), NUMBER, asks);
    tell_kept(told, kept);
}

/// Tells what is kept of the asks `NAME ITEM NAME ITEM` behind a line's first word, or of none.
pub(crate) fn tell_merged(
    types: &Types,
    items: &NamedMap<ItemKind>,
    told: &mut Told,
    words: &mut Words<'_>,
) {
    if words.rest().is_empty() {
        let kept = aggregate_all(told.alloc(), NUMBER, &[]);
        return tell_kept(told, kept);
    }
    let name = words.take();
    let item = take_item(items, words);
    let other_name = words.take();
    let other = take_item(items, words);
    tell_two(types, told, (name, item), (other_name, other));
}
