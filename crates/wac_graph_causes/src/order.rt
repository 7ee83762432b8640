//! The order in which imported interfaces are written: each behind those that it uses, but for one that waits for it.

ghost use Rattle.std.specs.Prelude.{◌≡◌, ◌∷◌, [], ◌++◌, IfOk, OnOk};
ghost use Rattle.wac_types_base.specs.declared.item.ItemKind.{ItemKind};
ghost use Rattle.wac_types_base.specs.Stated.{stated_of};
ghost use Rattle.wac_types_parts.specs.Parts.{uses_of, exports_of};
ghost use Rattle.wac_composition.specs.Circles.{used_inside, written_names, used_names};
ghost use Rattle.wac_graph_causes.specs.Orders.{AddsUsed, AddsUseAt, Puts, PutsAll, interfaces_used, spell_in, used_in_items, interfaces_stated};
ghost use Rattle.wac_types_base.specs.Entries.{names_of, put_name, value_at};

use crate::standing::{Placed, spelled};
use std::alloc::{AllocError, Global};
use wac_types_base::{InterfaceId, ItemKind, NamedMap, Names, Text, Types};
use wac_types_parts::parts::{
    export_at, export_count, identifier, interface_of, use_at, use_count,
};

/// Interfaces that are imported, by the names of their imports, and the imports that are asked under names.
#[derive(Clone, Copy)]
pub(crate) struct Sources<'a> {
    pub alloc: Global,
    pub types: &'a Types,
    pub placed: Placed<'a>,
    pub interfaces: &'a NamedMap<ItemKind>,
}

/// Adds a name behind others.
fn push_name(alloc: Global, names: &mut Vec<Text>, name: &str) -> Result<(), AllocError>
    ensures { OnOk result (names.new.items ≡ names.old.items ++ name.now ∷ []) }
{
    let name = Text::from_str(alloc, name)?;
    names.push(name)?;
    Ok(())
}

// ---- what an item uses

/// Adds the name of the import that gives an interface.
fn add_use(sources: Sources<'_>, id: InterfaceId, names: &mut Vec<Text>) -> Result<(), AllocError>
    ensures { OnOk result (AddsUsed sources.entry (stated_of sources.entry.types.now (ItemKind.Instance id) ∷ [])
        names.old.items names.new.items) }
{
    sources.types.see_acyclic();
    let Some(name) = identifier(sources.types, id) else {
        return Ok(());
    };
    push_name(sources.alloc, names, spelled(sources.placed, name))
}

/// Adds the name of the import that gives the interface which another one uses at a place.
fn add_use_at(
    sources: Sources<'_>,
    id: InterfaceId,
    at: usize,
    names: &mut Vec<Text>,
) -> Result<(), AllocError>
    ensures { OnOk result (AddsUseAt sources.entry id at names.old.items names.new.items) }
{
    match use_at(sources.types, id, at) {
        Some(used) => add_use(sources, used.interface, names),
        None => Ok(()),
    }
}

/// Adds the names of the imports that give the interfaces which another one uses itself.
fn add_uses(sources: Sources<'_>, id: InterfaceId, names: &mut Vec<Text>) -> Result<(), AllocError>
    ensures { OnOk result (AddsUsed sources.entry
        (interfaces_used sources.entry.types.now (uses_of sources.entry.types.now id)) names.old.items names.new.items) }
{
    for at in 0..use_count(sources.types, id) {
        add_use_at(sources, id, at, names)?;
    }
    Ok(())
}

/// Adds the names of the imports that give the interfaces which an item uses.
#[cycle(needs)]
fn add_needs(sources: Sources<'_>, kind: ItemKind, names: &mut Vec<Text>) -> Result<(), AllocError>
    ensures { OnOk result (AddsUsed sources.entry (used_inside (stated_of sources.entry.types.now kind))
        names.old.items names.new.items) }
{
    sources.types.see_acyclic();
    let Some(id) = interface_of(sources.types, kind) else {
        return Ok(());
    };
    add_uses(sources, id, names)?;
    add_needs_of_exports(sources, id, names)
}

/// Adds the names of the imports that give the interfaces which the exports of an interface use.
#[cycle(needs)]
fn add_needs_of_exports(
    sources: Sources<'_>,
    id: InterfaceId,
    names: &mut Vec<Text>,
) -> Result<(), AllocError>
    ensures { OnOk result (AddsUsed sources.entry
        (used_in_items sources.entry.types.now (exports_of sources.entry.types.now id)) names.old.items names.new.items) }
{
    sources.types.see_acyclic();
    for at in 0..export_count(sources.types, id) {
        if let Some(item) = export_at(sources.types, id, at) {
            add_needs(sources, item.kind, names)?;
        }
    }
    Ok(())
}

/// The names of the imports that the import of a name uses.
fn needs_of(sources: Sources<'_>, name: &str) -> Result<Vec<Text>, AllocError>
    ensures { IfOk result (λ v. v.items ≡ used_names (spell_in sources.entry) (interfaces_stated sources.entry)
        (value_at (interfaces_stated sources.entry) name.now)) }
{
    let mut names = Vec::new(sources.alloc);
    if let Some(kind) = sources.interfaces.get(name) {
        add_needs(sources, *kind, &mut names)?;
    }
    Ok(names)
}

// ---- the order

/// Imports that are put in order: those that are begun, and those that have their place.
#[derive(Drop)]
pub(crate) struct Order {
    begun: Names,
    written: Vec<Text>,
}

/// Notes that an import is begun.
fn begin(alloc: Global, begun: &mut Names, name: &str) -> Result<(), AllocError>
    ensures { OnOk result (begun.new ≡ put_name begun.old name.now) }
{
    let name = String::from_str(alloc, name)?;
    let _ = begun.insert(name)?;
    Ok(())
}

/// Puts an import behind those that it uses, unless it is begun. No path of imports is longer than there are imports, so the
/// depth that is left lasts.
#[cycle(putting)]
fn put(sources: Sources<'_>, name: &str, depth: usize, order: &mut Order) -> Result<(), AllocError>
    ensures { OnOk result (Puts sources.entry depth name.now order.old order.new) }
{
    if depth == 0 || order.begun.contains(name) {
        return Ok(());
    }
    begin(sources.alloc, &mut order.begun, name)?;
    let needs = needs_of(sources, name)?;
    put_all(sources, &needs, depth - 1, order)?;
    push_name(sources.alloc, &mut order.written, name)
}

/// Puts imports in order.
#[cycle(putting)]
fn put_all(
    sources: Sources<'_>,
    names: &[Text],
    depth: usize,
    order: &mut Order,
) -> Result<(), AllocError>
    ensures { OnOk result (PutsAll sources.entry depth names.now order.old order.new) }
{
    for name in names {
        put(sources, name.as_str(), depth, order)?;
    }
    Ok(())
}

/// The names of the interfaces that are imported.
fn names_of(alloc: Global, interfaces: &NamedMap<ItemKind>) -> Result<Vec<Text>, AllocError>
    ensures { IfOk result (λ v. v.items ≡ names_of interfaces.now) }
{
    let mut names = Vec::new(alloc);
    for at in 0..interfaces.len() {
        push_name(alloc, &mut names, interfaces.entry(at).0)?;
    }
    Ok(names)
}

/// The imports in the order in which they are written, by their names.
pub(crate) fn written_names(sources: Sources<'_>) -> Result<Vec<Text>, AllocError>
    ensures { IfOk result (λ v. v.items ≡ written_names (spell_in sources.entry) (interfaces_stated sources.entry)) }
{
    let names = names_of(sources.alloc, sources.interfaces)?;
    let mut order = Order {
        begun: Names::new(sources.alloc),
        written: Vec::new(sources.alloc),
    };
    put_all(sources, &names, names.len(), &mut order)?;
    let Order { begun: _, written } = order;
    Ok(written)
}
