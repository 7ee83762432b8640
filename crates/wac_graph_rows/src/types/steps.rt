//! Steps over a collection of types: what is added and replaced, packages, and what is asked.

use crate::lines::take_item;
use crate::types::added::add_entry;
use crate::types::asks::tell_answer;
use crate::types::packages::tell_package;
use crate::types::replaced::{Replaced, replace_entry};
use wac_rows::{Told, Words};
use wac_types::{ItemKind, NamedMap, Types};

/// Adds what a line of types says, through what is lent for adding. Told is its index, and the collection's number.
fn tell_added(
    types: &mut Types,
    items: &NamedMap<ItemKind>,
    told: &mut Told,
    words: &mut Words<'_>,
) {
    let mut lent = types.adding();
    match add_entry(&mut lent, items, words) {
        Some(index) => {
            told.show(&index);
            told.push(" of ");
            told.show(&lent.number());
        }
        None => told.push("an id does not stand"),
    }
}

/// Tells that an entry is replaced, or the refusal.
fn tell_replaced(told: &mut Told, answer: Option<Replaced>) {
    match answer {
        Some(Ok(())) => told.push("replaced"),
        Some(Err(fault)) => told.show(&fault),
        None => told.push("an id does not stand"),
    }
}

/// Does what a line says whose first word is this: `add LINE` or `replace NAME LINE` with a line of types, a line of packages,
/// or what it asks.
fn tell_words(
    types: &mut Types,
    items: &NamedMap<ItemKind>,
    told: &mut Told,
    words: &mut Words<'_>,
    what: &str,
) {
    match what {
        "add" => tell_added(types, items, told, words),
        "replace" => {
            let item = take_item(items, words);
            tell_replaced(told, replace_entry(types, items, item, words));
        }
        "package" | "keys" | "debug" => tell_package(types, items, told, words, what),
        _ => tell_answer(types, items, told, words, what),
    }
}

/// Tells what a line does.
fn tell_step(types: &mut Types, items: &NamedMap<ItemKind>, told: &mut Told, line: &str) {
    let mut words = Words::new(told.alloc(), line);
    let what = words.take();
    told.push(line);
    told.push(": ");
    tell_words(types, items, told, &mut words, what);
    told.push(words.fault());
    told.push("\n");
}

/// Tells what the lines of a text do, each on a line.
pub(crate) fn tell_steps(
    types: &mut Types,
    items: &NamedMap<ItemKind>,
    told: &mut Told,
    text: &str,
) {
    for line in text.split('\n') {
        tell_step(types, items, told, line);
    }
}
