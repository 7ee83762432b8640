//! What is asked of a collection of types.

use crate::lines::{take_item, take_value, type_named};
use crate::types::copies::{tell_copied, tell_copied_twice, tell_renumbered};
use crate::types::merges::tell_merged;
use crate::types::turns::{tell_turned, tell_turns};
use indexmap::IndexMap;
use wac_rows::{Told, Words};
use wac_types::{
    DefinedTypeId, FuncTypeId, ItemKind, NamedMap, ResourceId, Type, Types, ValueType, World,
    WorldId,
};

fn yes_or_no(answer: bool) -> &'static str {
    if answer { "yes" } else { "no" }
}

/// Tells the word for a value type (`word`), the word for the one at the end of the aliases (`root`), or whether a borrow is in
/// it.
fn tell_value(types: &Types, told: &mut Told, ty: ValueType, what: &str) {
    if !types.has(ItemKind::Value(ty)) {
        return told.push("the value type does not stand");
    }
    match what {
        "word" => told.push(ty.desc(types)),
        "root" => told.push(types.resolve_value_type(ty).desc(types)),
        _ => told.push(yes_or_no(ty.contains_borrow(types))),
    }
}

/// Tells the name of the resource at the end of the aliases.
fn tell_root(types: &Types, told: &mut Told, id: ResourceId) {
    if !types.has(ItemKind::Ty(Type::Resource(id))) {
        return told.push("the resource does not stand");
    }
    let root = types.resolve_resource(id);
    told.push(types.resource(root).name.as_str());
}

/// Tells whether there is a world of that index.
fn tell_world(types: &Types, told: &mut Told, index: &str) {
    let id = WorldId {
        collection: types.number(),
        index: index.parse::<usize>().unwrap_or(usize::MAX),
    };
    told.push(yes_or_no(types.contains(Type::World(id))));
}

/// Tells interfaces that are imported, each under its identifier.
fn tell_imports(told: &mut Told, found: &IndexMap<&str, ItemKind>) {
    told.push("imports");
    for (name, item) in found {
        told.push(" ");
        told.push(name);
        if let ItemKind::Instance(id) = item {
            told.push(" instance ");
            told.show(id);
        }
    }
}

/// Tells the interfaces that a world imports for its uses, or the refusal.
fn tell_implicit_of(types: &Types, told: &mut Told, world: &World) {
    if !types.has_ids_of(world) {
        return told.push("an id does not stand");
    }
    match world.implicit_imported_interfaces(told.alloc(), types) {
        Ok(found) => tell_imports(told, &found),
        Err(fault) => {
            told.push("refused: ");
            told.show(&fault);
        }
    }
}

/// Tells the same of a world of the collection.
fn tell_implicit(types: &Types, told: &mut Told, id: WorldId) {
    if types.has(ItemKind::Component(id)) {
        return tell_implicit_of(types, told, types.world(id));
    }
    told.push("the world does not stand");
}

/// Tells the indexes of the defined types of a type, counted from 1, each a digit of a number.
fn tell_visited(types: &Types, told: &mut Told, ty: Type) {
    if !types.has(ItemKind::Ty(ty)) {
        return told.push("the type does not stand");
    }
    let mut seen = 0usize;
    let visited = ty.visit_defined_types(
        types,
        &mut |_: &Types, id: DefinedTypeId| -> Result<(), usize> {
            seen = seen.wrapping_mul(10).wrapping_add(id.index.wrapping_add(1));
            Ok(())
        },
    );
    match visited {
        Ok(()) => told.show(&seen),
        Err(_) => told.push("the visitor refused"),
    }
}

/// Tells a count behind a word.
fn tell_count(told: &mut Told, word: &str, count: usize) {
    told.push(word);
    told.show(&count);
}

/// Tells how many entries there are of each kind.
fn tell_counts(types: &Types, told: &mut Told) {
    told.push("collection ");
    told.show(&types.number());
    tell_count(told, ", types ", types.defined_types().len());
    tell_count(told, ", resources ", types.resources().len());
    tell_count(told, ", functions ", types.func_types().len());
    tell_count(told, ", interfaces ", types.interfaces().len());
    tell_count(told, ", worlds ", types.worlds().len());
    tell_count(told, ", modules ", types.modules().len());
}

/// Tells whether two types share.
fn tell_shares(types: &Types, told: &mut Told, a: Type, b: Type) {
    if types.contains(a) && types.contains(b) {
        return told.push(yes_or_no(types.shares(a, b)));
    }
    told.push("a type does not stand");
}

/// Tells the id of a function type, and the names of its parameters.
fn tell_signature(types: &Types, told: &mut Told, id: FuncTypeId) {
    if !types.has(ItemKind::Func(id)) {
        return told.push("the function type does not stand");
    }
    told.show(&id);
    told.push(", parameters");
    for name in types.func_type(id).params.names() {
        told.push(" ");
        told.push(name.as_str());
    }
}

/// Tells the word for an item.
fn tell_item(types: &Types, told: &mut Told, item: ItemKind) {
    if types.has(item) {
        return told.push(item.desc(types));
    }
    told.push("the item does not stand");
}

/// Tells what is asked of an item: `implicit` and `renumbered` of a world, `source` of a resource, `signature` of a
/// function, `item`, `copied` and `copied_twice` of any.
fn tell_of_item(types: &Types, told: &mut Told, item: ItemKind, what: &str) {
    match (what, item) {
        ("implicit", ItemKind::Component(id)) => tell_implicit(types, told, id),
        ("renumbered", ItemKind::Component(id)) => tell_renumbered(types, told, id),
        ("source", ItemKind::Ty(Type::Resource(id))) => tell_root(types, told, id),
        ("signature", ItemKind::Func(id)) => tell_signature(types, told, id),
        ("item", _) => tell_item(types, told, item),
        ("copied", _) => tell_copied(types, told, item),
        ("copied_twice", _) => tell_copied_twice(types, told, item),
        _ => told.push("nothing is known of that"),
    }
}

/// Tells what a line's words ask behind this one: `word V`, `root V` and `borrow V` of a value type; `source RESOURCE`; `world
/// INDEX`; `implicit WORLD`; `renumbered WORLD`; `visited TYPE`; `counts`; `kept` (how many entries are); `shares A B` of types;
/// `signature FUNC` (its id, and the names of its parameters); `item ITEM` (its word); `copied ITEM`; `copied_twice ITEM` (how
/// many entries are kept then); `turned A B` (what a checker that is turned once finds); `turns TURN ..` (`invert` and
/// `revert`); `merged NAME ITEM NAME ITEM` (what is kept of asks in one list).
pub(crate) fn tell_answer(
    types: &Types,
    items: &NamedMap<ItemKind>,
    told: &mut Told,
    words: &mut Words<'_>,
    what: &str,
) {
    match what {
        "word" | "root" | "borrow" => tell_value(types, told, take_value(items, words), what),
        "world" => tell_world(types, told, words.take()),
        "visited" => {
            let name = words.take();
            tell_visited(types, told, type_named(items, words, name));
        }
        "counts" => tell_counts(types, told),
        "kept" => told.show(&types.kept_entries()),
        "shares" => {
            let a = words.take();
            let a = type_named(items, words, a);
            let b = words.take();
            tell_shares(types, told, a, type_named(items, words, b));
        }
        "turned" => {
            let a = take_item(items, words);
            tell_turned(types, told, a, take_item(items, words));
        }
        "turns" => tell_turns(told, words),
        "merged" => tell_merged(types, items, told, words),
        _ => tell_of_item(types, told, take_item(items, words), what),
    }
}
