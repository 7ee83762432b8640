//! What could be written but for what its parts use: interfaces that use one that waits for them, and definitions.

ghost use Rattle.std.specs.Prelude.{◌≡◌, ◌∷◌, [], ◌++◌, map, IfOk, IfErr, IfSome, OnOk};
ghost use Rattle.std.specs.List.{flat_map};
ghost use Rattle.wac_types_base.specs.declared.item.ItemKind.{ItemKind};
ghost use Rattle.wac_types_base.specs.Collection.{Grows, Stands};
ghost use Rattle.wac_types_base.specs.Stated.{stated_of};
ghost use Rattle.wac_types_written.specs.Forms.{ItemsStand, stated_items};
ghost use Rattle.wac_composition.specs.Circles.{exports_written, written_inside, written_whole, written_package};
ghost use Rattle.wac_types_parts.specs.Parts.{imports_of};
ghost use Rattle.wac_writable.specs.Unnamed.{KnowsAll};
ghost use Rattle.wac_graph_asks.specs.AskedUses.{CopiesStand};
ghost use Rattle.wac_graph_causes.specs.Late.{AddsLate, AreLate, world_written};
ghost use Rattle.wac_graph_causes.specs.Circling.{AddsOuters, AreHeldLate, PackagesStand, forms_in, package_in, packages_in, under_name, imported_packages};
ghost use Rattle.wac_graph_causes.specs.Circling.{LatePass, LatePasses, PassLate, PassWritten, CirclesPass};
ghost use Rattle.wac_graph_causes.specs.Circling.{TellsLate, TellsLateAt, TellsHeld, TellsWritten, TellsCircle};

use crate::error::Unwritten;
use crate::inside::worlds_in;
use crate::late::{Late, add_exports, add_world};
use crate::names::dependency_name;
use crate::standing::Placed;
use crate::writable::unwritable;
use indexmap::IndexMap;
use std::alloc::{AllocError, Global};
use wac_graph_asks::asks::Definition;
use wac_graph_asks::outers::Outers;
use wac_graph_core::{CompositionGraph, PackageId};
use wac_types_base::{ItemKind, NamedMap, Text, Types, WorldId, copy_items};
use wac_types_parts::parts::Item;
use wac_writable::unnamed::Unnamed;
use wac_writable::writable::{Test, is_unwritable_alone};

// ---- component types

/// Adds interfaces under another name.
fn add_under(
    alloc: Global,
    name: &str,
    late: &[Late],
    all: &mut Vec<Late>,
) -> Result<(), AllocError>
    ensures { OnOk result (all.new.items ≡ all.old.items ++ map (under_name name.now) late.now) }
{
    for one in late {
        let name = Text::from_str(alloc, name)?;
        let item = one.item;
        all.push(Late { name, item })?;
    }
    Ok(())
}

/// Adds the interfaces that a component type imports, each as it is written, under this name.
fn add_component(
    types: &mut Types,
    alloc: Global,
    name: &str,
    world: WorldId,
    all: &mut Vec<Late>,
) -> Result<(), AllocError>
    ensures adds { OnOk result (AddsLate types.old types.new all.old.items all.new.items
        (map (λ x. (name.now, x.1)) (world_written types.old (λ n. n) world))) }
    ensures grows { Grows types.old types.new }
{
    let none = NamedMap::new(alloc);
    let imports = NamedMap::new(alloc);
    let placed = Placed {
        places: &none,
        imports: &imports,
    };
    let mut own = Vec::new(alloc);
    add_world(types, alloc, placed, world, &mut own)?;
    add_under(alloc, name, &own, all)
}

/// Adds the interfaces that the component types import which stand in an item, under its name.
fn add_inside(
    types: &mut Types,
    alloc: Global,
    name: &str,
    item: ItemKind,
    all: &mut Vec<Late>,
) -> Result<(), AllocError>
    ensures adds { OnOk result (AddsLate types.old types.new all.old.items all.new.items
        (written_inside (name.now, stated_of types.old item))) }
    ensures grows { Grows types.old types.new }
{
    types.see_acyclic();
    if !types.has(item) {
        return Ok(());
    }
    let worlds = worlds_in(alloc, types, item)?;
    for world in &worlds {
        add_component(types, alloc, name, *world, all)?;
    }
    Ok(())
}

/// Adds those of items, each under its name.
fn add_all_inside(
    types: &mut Types,
    alloc: Global,
    items: &NamedMap<ItemKind>,
    all: &mut Vec<Late>,
) -> Result<(), AllocError>
    requires { ItemsStand types.old items.now }
    ensures adds { OnOk result (AddsLate types.old types.new all.old.items all.new.items
        (flat_map written_inside (stated_items types.old items.now))) }
    ensures grows { Grows types.old types.new }
{
    types.see_acyclic();
    for at in 0..items.len() {
        let (name, item) = items.entry(at);
        add_inside(types, alloc, name, *item, all)?;
    }
    Ok(())
}

// ---- what is composed

/// The imports of a world.
fn imports_of(
    alloc: Global,
    types: &Types,
    world: WorldId,
) -> Result<NamedMap<ItemKind>, AllocError>
    ensures { IfOk result (λ m. m ≡ imports_of types.now world) }
{
    if !types.has(ItemKind::Component(world)) {
        return Ok(NamedMap::new(alloc));
    }
    copy_items(alloc, &types.world(world).imports)
}

/// Adds the outer imports that are interfaces, and those of component types that stand in outer imports.
fn add_outers(
    types: &mut Types,
    alloc: Global,
    outers: &Outers,
    all: &mut Vec<Late>,
) -> Result<(), AllocError>
    ensures adds { OnOk result (AddsOuters types.old types.new outers.now all.old.items all.new.items) }
    ensures grows { Grows types.old types.new }
{
    types.see_acyclic();
    let imports = imports_of(alloc, types, outers.world)?;
    let placed = Placed {
        places: &outers.places,
        imports: &imports,
    };
    add_world(types, alloc, placed, outers.world, all)?;
    add_all_inside(types, alloc, &imports, all)
}

/// Adds an item under a name.
fn push_late(
    alloc: Global,
    name: &str,
    item: ItemKind,
    all: &mut Vec<Late>,
) -> Result<(), AllocError>
    ensures { OnOk result (all.new.items ≡ all.old.items ++ record { name = name.now; item = item } ∷ []) }
{
    let name = Text::from_str(alloc, name)?;
    all.push(Late { name, item })?;
    Ok(())
}

/// Adds an item, and the interfaces that the component types import which stand in it, under its name.
fn add_whole(
    types: &mut Types,
    alloc: Global,
    name: &str,
    item: ItemKind,
    all: &mut Vec<Late>,
) -> Result<(), AllocError>
    requires { Stands types.old item }
    ensures adds { OnOk result (AddsLate types.old types.new all.old.items all.new.items
        (written_whole (name.now, stated_of types.old item))) }
    ensures grows { Grows types.old types.new }
{
    types.see_acyclic();
    push_late(alloc, name, item, all)?;
    add_inside(types, alloc, name, item, all)
}

/// Adds a definition as it is written, and those that stand in it.
fn add_form(
    types: &mut Types,
    alloc: Global,
    definition: &Definition,
    all: &mut Vec<Late>,
) -> Result<(), AllocError>
    requires { IfSome definition.now.copy (Stands types.old) }
    ensures adds { OnOk result (AddsLate types.old types.new all.old.items all.new.items
        (flat_map written_whole (forms_in types.old (definition.now ∷ [])))) }
    ensures grows { Grows types.old types.new }
{
    types.see_acyclic();
    match definition.copy {
        Some(item) => add_whole(types, alloc, definition.name.as_str(), item, all),
        None => Ok(()),
    }
}

/// Adds definitions as they are written, and those that stand in them.
fn add_forms(
    types: &mut Types,
    alloc: Global,
    definitions: &[Definition],
    all: &mut Vec<Late>,
) -> Result<(), AllocError>
    requires { CopiesStand types.old definitions.now }
    ensures adds { OnOk result (AddsLate types.old types.new all.old.items all.new.items
        (flat_map written_whole (forms_in types.old definitions.now))) }
    ensures grows { Grows types.old types.new }
{
    types.see_acyclic();
    for definition in definitions {
        add_form(types, alloc, definition, all)?;
    }
    Ok(())
}

/// Adds the interfaces that a package's world exports, each as it is written, under this name.
fn add_exported(
    types: &mut Types,
    alloc: Global,
    name: &str,
    world: WorldId,
    all: &mut Vec<Late>,
) -> Result<(), AllocError>
    ensures adds { OnOk result (Stands types.old (ItemKind.Component world)
        → AddsLate types.old types.new all.old.items all.new.items
        (map (λ x. (name.now, x.1)) (exports_written (stated_of types.old (ItemKind.Component world))))) }
    ensures grows { Grows types.old types.new }
{
    let mut own = Vec::new(alloc);
    add_exports(types, alloc, world, &mut own)?;
    add_under(alloc, name, &own, all)
}

/// Adds those that stand in the world of a package, and those that it exports, under the name by which it is imported.
fn add_package(
    types: &mut Types,
    graph: &CompositionGraph,
    id: PackageId,
    world: WorldId,
    all: &mut Vec<Late>,
) -> Result<(), AllocError>
    requires { Stands types.old (ItemKind.Component world) }
    ensures adds { OnOk result (AddsLate types.old types.new all.old.items all.new.items
        (written_package (package_in graph.now types.old id world))) }
    ensures grows { Grows types.old types.new }
{
    types.see_acyclic();
    let alloc = graph.alloc();
    let name = dependency_name(alloc, graph, id)?;
    add_inside(types, alloc, name.as_str(), ItemKind::Component(world), all)?;
    add_exported(types, alloc, name.as_str(), world, all)
}

/// Adds those that stand in the worlds of packages.
fn add_packages(
    types: &mut Types,
    graph: &CompositionGraph,
    packages: &IndexMap<PackageId, WorldId>,
    all: &mut Vec<Late>,
) -> Result<(), AllocError>
    requires { PackagesStand types.old packages.now.entries }
    ensures adds { OnOk result (AddsLate types.old types.new all.old.items all.new.items
        (flat_map written_package (packages_in graph.now types.old packages.now.entries))) }
    ensures grows { Grows types.old types.new }
{
    types.see_acyclic();
    for (id, world) in packages.iter() {
        add_package(types, graph, *id, *world, all)?;
    }
    Ok(())
}

/// All that is written beside what may wait for it: of outer imports, of definitions, and of packages that are imported.
#[derive(Drop)]
struct Written {
    outers: Vec<Late>,
    definitions: Vec<Late>,
    packages: Vec<Late>,
}

/// Those of packages that are imported, where components are not defined.
fn written_packages(
    types: &mut Types,
    graph: &CompositionGraph,
    packages: &IndexMap<PackageId, WorldId>,
    define_components: bool,
) -> Result<Vec<Late>, AllocError>
    requires { PackagesStand types.old packages.now.entries }
    ensures late { IfOk result (λ v. AreLate types.new v.items
        (flat_map written_package (imported_packages define_components graph.now types.old packages.now.entries))) }
    ensures grows { Grows types.old types.new }
{
    types.see_acyclic();
    let mut all = Vec::new(graph.alloc());
    if !define_components {
        add_packages(types, graph, packages, &mut all)?;
    }
    Ok(all)
}

/// All that is written beside what may wait for it.
fn all_written(
    types: &mut Types,
    graph: &CompositionGraph,
    outers: &Outers,
    packages: &IndexMap<PackageId, WorldId>,
    definitions: &[Definition],
    define_components: bool,
) -> Result<Written, AllocError>
    requires copies { CopiesStand types.old definitions.now }
    requires packages { PackagesStand types.old packages.now.entries }
    ensures written { IfOk result (AreHeldLate define_components graph.now types.old types.new
        outers.now packages.now.entries definitions.now) }
    ensures grows { Grows types.old types.new }
{
    let alloc = graph.alloc();
    let mut all = Written {
        outers: Vec::new(alloc),
        definitions: Vec::new(alloc),
        packages: Vec::new(alloc),
    };
    add_outers(types, alloc, outers, &mut all.outers)?;
    add_forms(types, alloc, definitions, &mut all.definitions)?;
    all.packages = written_packages(types, graph, packages, define_components)?;
    Ok(all)
}

// ---- what cannot be written

/// An item can be written as it is.
fn check_one(test: Test<'_>, one: &Late) -> Result<(), Unwritten>
    ensures none { OnOk result (LatePasses test.entry one.now) }
    ensures cause { IfErr result (TellsLateAt test.entry one.now) }
{
    let item = Item {
        name: one.name.as_str(),
        kind: one.item,
    };
    let fails = is_unwritable_alone(test, item)?;
    if fails {
        return Err(unwritable(test.alloc, one.name.as_str()));
    }
    Ok(())
}

/// Each of these items can.
fn check_each(test: Test<'_>, late: &[Late]) -> Result<(), Unwritten>
    ensures none { OnOk result (LatePass test.entry late.now) }
    ensures cause { IfErr result (TellsLate test.entry late.now) }
{
    for one in late {
        check_one(test, one)?;
    }
    Ok(())
}

/// Each of these items can be written as it is, where all that it uses is imported.
fn check_late(
    alloc: Global,
    types: &Types,
    unnamed: &Unnamed,
    late: &[Late],
) -> Result<(), Unwritten>
    ensures none { OnOk result (KnowsAll types.now unnamed.now → PassLate types.now late.now) }
    ensures cause { IfErr result (λ e. KnowsAll types.now unnamed.now → TellsHeld types.now late.now e) }
{
    let test = Test {
        alloc,
        types,
        unnamed,
        is_outer: true,
    };
    check_each(test, late)
}

/// All that is written can be written as it is.
fn check_written(alloc: Global, types: &Types, all: &Written) -> Result<(), Unwritten>
    ensures none { OnOk result (PassWritten types.now all.now) }
    ensures cause { IfErr result (TellsWritten types.now all.now) }
{
    let unnamed = Unnamed::all(alloc, types)?;
    check_late(alloc, types, &unnamed, &all.outers)?;
    check_late(alloc, types, &unnamed, &all.definitions)?;
    check_late(alloc, types, &unnamed, &all.packages)
}

/// Each interface that is imported can be written as it is, beside those alone that do not wait for it, and each definition in
/// the form in which it is written, where all that it uses is imported.
pub fn check_circles(
    types: &mut Types,
    graph: &CompositionGraph,
    outers: &Outers,
    packages: &IndexMap<PackageId, WorldId>,
    definitions: &[Definition],
    define_components: bool,
) -> Result<(), Unwritten>
    requires copies { CopiesStand types.old definitions.now }
    requires packages { PackagesStand types.old packages.now.entries }
    ensures none { OnOk result (CirclesPass define_components graph.now types.old
        outers.now packages.now.entries definitions.now) }
    ensures cause { IfErr result (TellsCircle define_components graph.now types.old
        outers.now packages.now.entries definitions.now) }
    ensures grows { Grows types.old types.new }
{
    let all = all_written(
        types,
        graph,
        outers,
        packages,
        definitions,
        define_components,
    )?;
    check_written(graph.alloc(), types, &all)
}
