//! The items of a world that another world includes.
#![tactic(auto, using(crate::proofs::Standing::bodies))]

ghost use Rattle.std.specs.Prelude.{◌≡◌, OnOk, IfOk, is_some, option_map};
ghost use Rattle.wac_types_base.specs.declared.item.ItemKind.{ItemKind};
ghost use Rattle.wac_types_base.specs.Record.{Collection};
ghost use Rattle.wac_types_base.specs.Collection.{Stands, Grows};
ghost use Rattle.wac_parser_tree.specs.Views.{view_ident};
ghost use Rattle.wac_parser_refusals.specs.Outcomes.{Refuses};
ghost use Rattle.wac_parser_declare.specs.Held.{BodyStands};
ghost use Rattle.wac_parser_declare.specs.Holding.{ItemsStand, NamesStand};
ghost use Rattle.wac_parser_declare.specs.InIncludes.{AreExportsIncluded, AreImportsIncluded, AreMet, AreWithNames, IncludedStand, Includes, IncludesItems};
ghost use Rattle.wac_parser_declare.specs.InIncludes.{IsIncluded, IsIncludedAt, IsLeft, IsRenaming, IsWithName, conflict_of, met_in, path_of, renamings};
ghost use Rattle.wac_parser_declare.specs.Packages.{SamePackages};
ghost use Rattle.wac_parser_declare.specs.Worlds as stated;

use crate::bodies::Body;
use crate::functions::add_new;
use crate::growing::PackagedTypes;
use crate::paths::world_at;
use crate::scope::Context;
use std::alloc::{AllocError, Global};
use wac_parser_refusals::{
    Error, Outcome, Refusal, WITH_HELP, duplicate_with_name, missing_with_name,
};
use wac_parser_tree::{Ident, WorldInclude, WorldIncludeItem};
use wac_types_base::{ExternKind, ItemKind, NamedMap, Names, Types, World, WorldId};

/// Whether a name is one of an interface or a package, which is never renamed.
fn has_colon(name: &str) -> bool
    ensures { result ≡ stated.has_colon name.now }
{
    name.as_bytes().contains(&b':')
}

/// One more name of a `with` clause, which is new.
fn add_with_name(item: &WorldIncludeItem<'_>, alloc: Global, found: &mut Names) -> Outcome<()>
    ensures outcome { IsWithName item.now found.old found.new result }
{
    let name = String::from_str(alloc, item.from.string)?;
    if found.insert(name)? {
        Ok(())
    } else {
        Err(duplicate_with_name(alloc, item.from.string, item.from.span))
    }
}

/// Refuses a name that stands twice in a `with` clause.
fn check_with_names(with: &Vec<WorldIncludeItem<'_>>, alloc: Global) -> Outcome<()>
    ensures outcome { AreWithNames with.now.items result }
{
    let mut found = Names::new(alloc);
    for item in with {
        add_with_name(item, alloc, &mut found)?;
    }
    Ok(())
}

/// The new name of a name, if it gets one.
fn renaming<'a>(with: &Vec<WorldIncludeItem<'a>>, name: &str) -> Option<Ident<'a>>
    ensures { IsRenaming with.now.items name.now result }
{
    for item in with {
        if name == item.from.string {
            return Some(item.to);
        }
    }
    None
}

/// An include: the world that it is in, what is included, and on which side.
#[derive(Clone, Copy)]
struct Inclusion<'a> {
    to: &'a str,
    kind: ExternKind,
    include: &'a WorldInclude<'a>,
}

/// What may help where an item is there already.
fn help_for(include: &WorldInclude<'_>) -> Option<&'static str>
    ensures { is_some result ≡ stated.is_empty (renamings include.now.with.items) }
{
    if include.with.is_empty() {
        Some(WITH_HELP)
    } else {
        None
    }
}

/// The refusal of an item whose name is there already.
fn conflict(alloc: Global, inclusion: Inclusion<'_>, id: &Ident<'_>) -> Refusal
    ensures { Refuses result (conflict_of inclusion.entry id.now) id.now.span }
{
    let name = match String::from_str(alloc, id.string) {
        Ok(name) => name,
        Err(AllocError) => return Refusal::Memory,
    };
    let from = match String::from_str(alloc, inclusion.include.world.name()) {
        Ok(from) => from,
        Err(AllocError) => return Refusal::Memory,
    };
    let to = match String::from_str(alloc, inclusion.to) {
        Ok(to) => to,
        Err(AllocError) => return Refusal::Memory,
    };
    let error = Error::WorldIncludeConflict {
        kind: inclusion.kind,
        name,
        from,
        to,
        span: id.span,
        help: help_for(inclusion.include),
    };
    Refusal::named(alloc, error)
}

/// One more item, where its name is new.
fn include_at(
    alloc: Global,
    inclusion: Inclusion<'_>,
    stand: &mut NamedMap<ItemKind>,
    id: &Ident<'_>,
    item: ItemKind,
) -> Outcome<()>
    ensures outcome { IsIncludedAt inclusion.entry stand.old id.now item stand.new result }
    ensures stand { OnOk result ((c : Collection) → ItemsStand c stand.old → Stands c item → ItemsStand c stand.new) }
{
    if add_new(alloc, stand, id.string, item)? {
        Ok(())
    } else {
        Err(conflict(alloc, inclusion, id))
    }
}

/// The name of an item: another, if it gets one.
fn new_name<'a>(inclusion: Inclusion<'a>, name: &'a str, renamed: Option<Ident<'a>>) -> Ident<'a>
    ensures { view_ident result ≡ stated.or_itself (path_of inclusion.entry) name.now (option_map view_ident renamed.entry) }
{
    match renamed {
        Some(id) => id,
        None => Ident {
            string: name,
            span: inclusion.include.world.span(),
        },
    }
}

/// One more item under its name, or under another.
fn include_item(
    alloc: Global,
    inclusion: Inclusion<'_>,
    stand: &mut NamedMap<ItemKind>,
    name: &str,
    item: ItemKind,
    renamed: Option<Ident<'_>>,
) -> Outcome<()>
    ensures outcome { IsIncluded inclusion.entry stand.old (name.now, item) renamed.entry stand.new result }
    ensures stand { OnOk result ((c : Collection) → ItemsStand c stand.old → Stands c item → ItemsStand c stand.new) }
{
    if has_colon(name) {
        let _ = add_new(alloc, stand, name, item)?;
        return Ok(());
    }
    let id = new_name(inclusion, name, renamed);
    include_at(alloc, inclusion, stand, &id, item)
}

/// The imports of a world, under their new names.
fn include_imports(
    alloc: Global,
    inclusion: Inclusion<'_>,
    stand: &mut NamedMap<ItemKind>,
    imports: &NamedMap<ItemKind>,
) -> Outcome<()>
    ensures outcome { AreImportsIncluded inclusion.entry imports.now stand.old stand.new result }
    ensures stand { IncludedStand imports.now stand.old stand.new result }
{
    for at in 0..imports.len() {
        let (name, item) = imports.entry(at);
        let renamed = renaming(&inclusion.include.with, name);
        include_item(alloc, inclusion, stand, name, *item, renamed)?;
    }
    Ok(())
}

/// The new name of an export, if it gets one that no import took.
fn export_renaming<'a>(
    with: &Vec<WorldIncludeItem<'a>>,
    imports: &NamedMap<ItemKind>,
    name: &str,
) -> Option<Ident<'a>>
    ensures { IsLeft with.now.items imports.now name.now result }
{
    if imports.contains(name) {
        None
    } else {
        renaming(with, name)
    }
}

/// The exports of a world, under their new names.
fn include_exports(
    alloc: Global,
    inclusion: Inclusion<'_>,
    stand: &mut NamedMap<ItemKind>,
    world: &World,
) -> Outcome<()>
    ensures outcome { AreExportsIncluded inclusion.entry world.now stand.old stand.new result }
    ensures stand { IncludedStand world.now.exports stand.old stand.new result }
{
    for at in 0..world.exports.len() {
        let (name, item) = world.exports.entry(at);
        let renamed = export_renaming(&inclusion.include.with, &world.imports, name);
        include_item(alloc, inclusion, stand, name, *item, renamed)?;
    }
    Ok(())
}

/// Whether a world has an item that can be renamed so.
fn is_met(world: &World, id: &Ident<'_>) -> bool
    ensures { result ≡ met_in world.now id.now.string.now }
{
    !has_colon(id.string)
        && (world.imports.contains(id.string) || world.exports.contains(id.string))
}

/// Refuses a name of a `with` clause that the world lacks.
fn check_met(include: &WorldInclude<'_>, alloc: Global, world: &World) -> Outcome<()>
    ensures { AreMet include.now world.now result }
{
    for item in &include.with {
        if !is_met(world, &item.from) {
            return Err(missing_with_name(
                alloc,
                include.world.name(),
                item.from.string,
                item.from.span,
            ));
        }
    }
    Ok(())
}

/// The items of a world.
fn include_items(
    include: &WorldInclude<'_>,
    alloc: Global,
    types: &Types,
    to: &str,
    body: &mut Body,
    world: WorldId,
) -> Outcome<()>
    requires world { Stands types.now (ItemKind.Component world) }
    requires body { BodyStands types.now body.old }
    ensures outcome { IncludesItems include.now to.now world types.now body.old body.new result }
    ensures body { OnOk result (BodyStands types.now body.new) }
{
    types.see_acyclic();
    let world = types.world(world);
    let imports = Inclusion {
        to,
        kind: ExternKind::Import,
        include,
    };
    let exports = Inclusion {
        to,
        kind: ExternKind::Export,
        include,
    };
    include_imports(alloc, imports, &mut body.items, &world.imports)?;
    include_exports(alloc, exports, &mut body.exports, world)?;
    check_met(include, alloc, world)
}

/// An include of a world: its imports and exports, and not its uses.
pub(crate) fn include_world<T: PackagedTypes>(
    include: &WorldInclude<'_>,
    alloc: Global,
    context: Context<'_>,
    types: &mut T,
    to: &str,
    body: &mut Body,
) -> Outcome<()>
    requires root { NamesStand (T.collection types.old) context.root.now }
    requires body { BodyStands (T.collection types.old) body.old }
    ensures outcome { Includes include.now to.now context.entry (T.collection types.old) (T.packages types.old) body.old
        (T.collection types.new) body.new result }
    ensures body { OnOk result (BodyStands (T.collection types.new) body.new) }
    ensures grows { Grows (T.collection types.old) (T.collection types.new) }
    ensures packages { SamePackages (T.packages types.old) (T.packages types.new) }
{
    types.types().see_acyclic();
    check_with_names(&include.with, alloc)?;
    let world = world_at(&include.world, alloc, context, types)?;
    include_items(include, alloc, types.types(), to, body, world)
}
