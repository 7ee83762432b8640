//! Where the imports and the exports of a world stand, by their names.

ghost use Rattle.std.specs.Prelude.{◌≡◌, ◌++◌, ◌∷◌, [], length, OnOk};
ghost use Rattle.wac_types_base.specs.Entries.{names_of, AreDistinct};
ghost use Rattle.wac_graph_scopes.specs.Imports.{all_imports, all_exports, NoneWritten, own_places, FindsFirst};

use crate::imports::{Importing, SortIndex};
use std::alloc::{AllocError, Global};
use wac_types_base::NamedMap;
use wac_types_parts::parts::{import_at, import_count, world_export_at, world_export_count};

/// Adds a place under a name, unless one stands there.
fn add_place(
    alloc: Global,
    found: &mut NamedMap<usize>,
    name: &str,
    at: usize,
) -> Result<(), AllocError>
    ensures { OnOk result (FindsFirst found.new (found.old ++ (name.now, at) ∷ [])) }
{
    if !found.contains(name) {
        let name = String::from_str(alloc, name)?;
        found.push(name, at)?;
    }
    Ok(())
}

/// Adds the places of the imports under their own names.
pub(crate) fn add_places(
    alloc: Global,
    all: Importing<'_>,
    found: &mut NamedMap<usize>,
) -> Result<(), AllocError>
    ensures { OnOk result (FindsFirst found.new (found.old ++ own_places 0 (names_of (all_imports all.entry)))) }
{
    for at in 0..import_count(all.types, all.world) {
        if let Some(import) = import_at(all.types, all.world, at) {
            add_place(alloc, found, import.name, at)?;
        }
    }
    Ok(())
}

/// Adds the places of the exports under their names.
pub(crate) fn add_export_places(
    alloc: Global,
    all: Importing<'_>,
    found: &mut NamedMap<usize>,
) -> Result<(), AllocError>
    ensures found { OnOk result (FindsFirst found.new (found.old ++ own_places 0 (names_of (all_exports all.entry)))) }
    ensures distinct { AreDistinct (names_of (all_exports all.entry)) }
{
    for at in 0..world_export_count(all.types, all.world) {
        if let Some(item) = world_export_at(all.types, all.world, at) {
            add_place(alloc, found, item.name, at)?;
        }
    }
    Ok(())
}

/// Adds the places of the imports under the names under which they are asked for.
pub(crate) fn add_asked_names(
    alloc: Global,
    all: Importing<'_>,
    found: &mut NamedMap<usize>,
) -> Result<(), AllocError>
    ensures { OnOk result (FindsFirst found.new (found.old ++ all.entry.places.now)) }
{
    for at in 0..all.places.len() {
        let (name, place) = all.places.entry(at);
        add_place(alloc, found, name, *place)?;
    }
    Ok(())
}

/// Adds places at which no import is written yet.
pub(crate) fn add_empty(count: usize, places: &mut Vec<Option<SortIndex>>) -> Result<(), AllocError>
    requires { places.old.items ≡ [] }
    ensures none { OnOk result (NoneWritten places.new.items) }
    ensures many { OnOk result (length places.new.items ≡ count) }
{
    for _at in 0..count {
        places.push(None)?;
    }
    Ok(())
}
