//! The outer imports: one for each class of asks.

ghost use Rattle.std.specs.Prelude.{◌≡◌, [], IfOk, IfErr, OnOk};
ghost use Rattle.std.specs.Map.{keys_of};
ghost use Rattle.wac_types_base.specs.declared.item.ItemKind.{ItemKind};
ghost use Rattle.wac_types_base.specs.Collection.{Grows, HasChildren, Stands, world_entry};
ghost use Rattle.wac_types_parts.specs.Parts.{imports_of};
ghost use Rattle.wac_merging.specs.Kept.{Spells};
ghost use Rattle.wac_graph_asks.specs.Asked.{KeepsAsked};
ghost use Rattle.wac_graph_asks.specs.AskedUses.{AskedStand};
ghost use Rattle.wac_graph_asks.specs.Named.{SpellsClass};
ghost use Rattle.wac_graph_asks.specs.Takes.{AreSound, ConflictsFor, HasNoConflict, HasNoneLabelled, IfConflict, IsNoConflict, Merges, MergesLabelled};
ghost use Rattle.wac_graph_asks.specs.Imported.{AddsImport, AddsImports, AreClassed, ImportsAlone, ClassesKeep, PutsAllPlaces, PutsPlace, PutsPlaces};
ghost use Rattle.wac_graph_asks.specs.Imported.{MakesImports, MakesWorld, OutersOf, RefusesIn};
ghost use Rattle.wac_graph_asks.specs.Outers.{AnswersOuters, HasImportsAlone};

use crate::asks::{Ask, Asked};
use crate::classes::{Classes, classes_of, has_track, place_at};
use crate::copies::{add_world, bare_world, filled};
use crate::error::OuterError;
use crate::taken::{Taken, all_taken};
use indexmap::IndexMap;
use std::alloc::{AllocError, Global};
use wac_merging::{Kept, kept_import, see_named};
use wac_types_base::{ItemKind, NamedMap, Text, Types, World, WorldId};
use wac_types_parts::maps::insert_under;

/// The outer imports of a composition.
pub struct Outers {
    /// They are this world's imports, in asking order.
    pub world: WorldId,
    /// Their places, by the names under which they are asked for.
    pub places: NamedMap<usize>,
}

impl Drop for Outers {
    fn drop(self) {
        let Outers {
            world: _,
            places: _,
        } = self;
    }
}

/// The outer import of what is kept, under its spelling.
fn import_kept(
    alloc: Global,
    types: &mut Types,
    kept: Kept,
    spelling: &str,
) -> Result<ItemKind, AllocError>
    ensures spells { IfOk result (Spells types.old kept spelling.now types.new) }
    ensures stands { IfOk result (λ k. Stands types.old kept.item → Stands types.new k) }
    ensures grows { Grows types.old types.new }
{
    types.see_acyclic();
    if !types.has(kept.item) {
        return Ok(kept.item);
    }
    let on_track = has_track(alloc, spelling)?;
    kept_import(alloc, types, kept, spelling, on_track)
}

/// The name of the ask that spells a class.
fn spelling_of<'a>(asks: &'a [Ask], classes: &Classes, class: usize) -> &'a str
    ensures { SpellsClass asks.now classes.now.labels.items classes.now.spellings.items class result.now }
{
    match classes.spellings.get(class) {
        Some(at) => match asks.get(*at) {
            Some(ask) => ask.name.as_str(),
            None => "",
        },
        None => "",
    }
}

/// Puts the place of the import of this class under the name of an ask.
fn put_place(
    alloc: Global,
    taken: &IndexMap<usize, Taken>,
    class: usize,
    name: &Text,
    places: &mut NamedMap<usize>,
) -> Result<(), AllocError>
    ensures { OnOk result (PutsPlace (keys_of taken.now.entries) class name.now places.old places.new) }
{
    match taken.get_index_of(&class) {
        Some(at) => insert_under(alloc, places, name.as_str(), at),
        None => Ok(()),
    }
}

/// Puts the places of imports under the names that are asked.
fn put_places(
    alloc: Global,
    asks: &[Ask],
    labels: &[usize],
    taken: &IndexMap<usize, Taken>,
    places: &mut NamedMap<usize>,
) -> Result<(), AllocError>
    requires { places.old ≡ [] }
    ensures { OnOk result (PutsAllPlaces asks.now labels.now (keys_of taken.now.entries) places.new) }
{
    for (at, ask) in asks.iter().enumerate() {
        put_place(alloc, taken, place_at(labels, at), &ask.name, places)?;
    }
    Ok(())
}

/// The places of imports, by the names under which they are asked for.
fn places_of(
    alloc: Global,
    asks: &[Ask],
    labels: &[usize],
    taken: &IndexMap<usize, Taken>,
) -> Result<NamedMap<usize>, AllocError>
    ensures { IfOk result (PutsAllPlaces asks.now labels.now (keys_of taken.now.entries)) }
{
    let mut places = NamedMap::new(alloc);
    put_places(alloc, asks, labels, taken, &mut places)?;
    Ok(places)
}

/// Adds the outer import under a spelling.
fn add_import(
    alloc: Global,
    types: &mut Types,
    kept: Kept,
    spelling: &str,
    imports: &mut NamedMap<ItemKind>,
) -> Result<(), AllocError>
    ensures adds { OnOk result (AddsImport types.old kept spelling.now types.new imports.old imports.new) }
    ensures grows { Grows types.old types.new }
{
    let item = import_kept(alloc, types, kept, spelling)?;
    insert_under(alloc, imports, spelling, item)
}

/// Adds the outer imports.
fn add_imports(
    alloc: Global,
    types: &mut Types,
    asks: &[Ask],
    classes: &Classes,
    taken: &IndexMap<usize, Taken>,
    imports: &mut NamedMap<ItemKind>,
) -> Result<(), AllocError>
    requires { imports.old ≡ [] }
    ensures adds { OnOk result (AddsImports types.old asks.now classes.now taken.now.entries types.new imports.new) }
    ensures grows { Grows types.old types.new }
{
    types.see_acyclic();
    for (class, one) in taken.iter() {
        let spelling = spelling_of(asks, classes, *class);
        add_import(alloc, types, one.kept, spelling, imports)?;
    }
    Ok(())
}

/// The outer imports, as the imports of a world.
fn world_kept(
    alloc: Global,
    asked: &mut Asked,
    classes: &Classes,
    taken: &IndexMap<usize, Taken>,
) -> Result<World, AllocError>
    requires classed { AreClassed asked.old.types asked.old.asks.items classes.now }
    requires taken { ClassesKeep asked.old classes.now taken.now.entries }
    ensures keeps { KeepsAsked asked.old asked.new }
    ensures children { IfOk result (λ w. HasChildren asked.new.types (world_entry w)) }
    ensures imports { IfOk result (λ w. MakesImports asked.old classes.now taken.now.entries asked.new w.imports) }
    ensures alone { IfOk result ImportsAlone }
{
    let mut world = bare_world(alloc, None);
    let imports = &mut world.imports;
    let added = add_imports(
        alloc,
        &mut asked.types,
        &asked.asks,
        classes,
        taken,
        imports,
    );
    filled(world, added)
}

/// The world of the outer imports.
fn outer_world(
    alloc: Global,
    asked: &mut Asked,
    classes: &Classes,
    taken: &IndexMap<usize, Taken>,
) -> Result<WorldId, OuterError>
    requires classed { AreClassed asked.old.types asked.old.asks.items classes.now }
    requires taken { ClassesKeep asked.old classes.now taken.now.entries }
    ensures keeps { KeepsAsked asked.old asked.new }
    ensures stands { IfOk result (λ w. Stands asked.new.types (ItemKind.Component w)) }
    ensures imports { IfOk result (MakesWorld asked.old classes.now taken.now.entries asked.new) }
    ensures alone { IfOk result (HasImportsAlone asked.new.types) }
    ensures no_conflict { IfErr result IsNoConflict }
{
    let world = world_kept(alloc, asked, classes, taken)?;
    let id = add_world(&mut asked.types, world)?;
    Ok(id)
}

/// The outer imports of what is kept of the classes.
fn outers_kept(
    alloc: Global,
    asked: &mut Asked,
    classes: &Classes,
    taken: &IndexMap<usize, Taken>,
) -> Result<Outers, OuterError>
    requires classed { AreClassed asked.old.types asked.old.asks.items classes.now }
    requires taken { ClassesKeep asked.old classes.now taken.now.entries }
    ensures keeps { KeepsAsked asked.old asked.new }
    ensures stands { IfOk result (λ o. Stands asked.new.types (ItemKind.Component o.world)) }
    ensures imports { IfOk result (λ o. MakesWorld asked.old classes.now taken.now.entries asked.new o.world) }
    ensures alone { IfOk result (λ o. HasImportsAlone asked.new.types o.world) }
    ensures places { IfOk result (λ o. PutsPlaces asked.old.asks.items classes.now taken.now.entries o.places) }
    ensures no_conflict { IfErr result IsNoConflict }
{
    let world = outer_world(alloc, asked, classes, taken)?;
    let places = places_of(alloc, &asked.asks, &classes.labels, taken)?;
    Ok(Outers { world, places })
}

/// The outer imports of classes of asks.
fn outers_of_classes(
    alloc: Global,
    asked: &mut Asked,
    classes: &Classes,
) -> Result<Outers, OuterError>
    requires sound { AreSound asked.old.types asked.old.asks.items }
    requires classed { AreClassed asked.old.types asked.old.asks.items classes.now }
    ensures keeps { KeepsAsked asked.old asked.new }
    ensures stands { IfOk result (λ o. Stands asked.new.types (ItemKind.Component o.world)) }
    ensures merges { IfOk result (λ o. MergesLabelled asked.old.types asked.old.asks.items classes.now.labels.items) }
    ensures outers { IfOk result (OutersOf asked.old.types asked.old.asks.items classes.now asked.new.types) }
    ensures alone { IfOk result (λ o. HasImportsAlone asked.new.types o.world) }
    ensures free { OnOk result (HasNoneLabelled asked.old.types asked.old.asks.items classes.now.labels.items) }
    ensures refused { IfErr result (λ e. IfConflict e (RefusesIn asked.old classes.now)) }
{
    let taken = all_taken(alloc, &mut asked.types, &asked.asks, &classes.labels)?;
    outers_kept(alloc, asked, classes, &taken)
}

/// The outer imports of what is asked, all of which stands.
pub fn outers_of(alloc: Global, asked: &mut Asked) -> Result<Outers, OuterError>
    requires { AskedStand asked.old.types asked.old.asks.items }
    ensures keeps { KeepsAsked asked.old asked.new }
    ensures stands { IfOk result (λ o. Stands asked.new.types (ItemKind.Component o.world)) }
    ensures merges { IfOk result (λ o. Merges asked.old) }
    ensures outers { IfOk result (AnswersOuters asked.old asked.new) }
    ensures alone { IfOk result (λ o. HasImportsAlone asked.new.types o.world) }
    ensures free { OnOk result (HasNoConflict asked.old) }
    ensures refused { IfErr result (λ e. IfConflict e (ConflictsFor asked.old)) }
{
    asked.types.see_acyclic();
    see_named(&asked.types);
    let classes = classes_of(alloc, &asked.types, &asked.asks)?;
    outers_of_classes(alloc, asked, &classes)
}
