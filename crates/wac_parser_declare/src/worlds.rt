//! The world that a declaration states.
#![tactic(auto, using(crate::proofs::Standing::bodies))]

ghost use Rattle.std.specs.Prelude.{◌≡◌, OnOk, IfOk, IfSome, None};
ghost use Rattle.wac_types_base.specs.declared.item.ItemKind.{ItemKind, ItemKind as Item};
ghost use Rattle.wac_types_base.specs.Record.{Collection};
ghost use Rattle.wac_types_base.specs.Collection.{Stands, Grows};
ghost use Rattle.wac_parser_declare.specs.Added.{IsNew};
ghost use Rattle.wac_parser_declare.specs.Held.{BodyStands, stated_body};
ghost use Rattle.wac_parser_declare.specs.Holding.{ItemsStand, NamesStand};
ghost use Rattle.wac_parser_declare.specs.InWorlds.{AddsExtern, AddsInterface, AreIncludes, AreParts, IsExternType, IsInclude, IsNamedItem};
ghost use Rattle.wac_parser_declare.specs.InWorlds.{IsOneMore, IsPart, IsWorldBody, IsWorldDeclared, IsWorldItem, items_on};
ghost use Rattle.wac_parser_declare.specs.Making.{IsExtern, IsMeantIn, IsTypeOf, IsWorldMade, MeantStands, identifier_of};
ghost use Rattle.wac_parser_declare.specs.Packages.{SamePackages};
ghost use Rattle.wac_parser_declare.specs.Scope.{has};

use crate::bodies::{Body, Holder};
use crate::functions::{add_new, func_type};
use crate::growing::PackagedTypes;
use crate::includes::include_world;
use crate::interfaces::{identifier, inline_interface};
use crate::paths::{package_interface, root_interface};
use crate::resources::item_type;
use crate::scope::{Binding, Context, meaning};
use crate::uses::use_types;
use std::alloc::{AllocError, Global};
use wac_parser_lexer::SourceSpan;
use wac_parser_refusals::{Outcome, duplicate_world_item, not_func_or_interface, unwritable};
use wac_parser_tree as ast;
use wac_parser_tree::{Ident, PackageName};
use wac_types_base::{
    ExternKind, InterfaceId, ItemKind, NamedMap, Text, Type, Types, World, WorldId,
};

/// The instance or the function of which an item is the type.
fn thing_of(kind: ItemKind) -> Option<ItemKind>
    ensures some { IfSome result (IsTypeOf kind) }
    ensures none { result ≡ None → (j : Item) → IsTypeOf kind j → ⊥ }
{
    let ItemKind::Ty(ty) = kind else {
        return None;
    };
    match ty {
        Type::Interface(interface) => Some(ItemKind::Instance(interface)),
        Type::Func(func) => Some(ItemKind::Func(func)),
        _other => None,
    }
}

/// What a world holds under a name of a function type or an interface.
fn extern_of(alloc: Global, types: &Types, kind: ItemKind, id: &Ident<'_>) -> Outcome<ItemKind>
    requires { Stands types.now kind }
    ensures outcome { IsExtern types.now kind id.now result }
    ensures stands { IfOk result (Stands types.now) }
{
    types.see_acyclic();
    match thing_of(kind) {
        Some(thing) => Ok(thing),
        None => Err(not_func_or_interface(alloc, id.string, kind.desc(types), id.span)),
    }
}

/// What a name means in a body, else at the root.
fn body_or_root(
    alloc: Global,
    context: Context<'_>,
    names: &NamedMap<Binding>,
    id: &Ident<'_>,
) -> Outcome<Binding>
    ensures outcome { IsMeantIn names.now context.entry.root.now id.now result }
    ensures stands { MeantStands names.now context.entry.root.now result }
{
    match names.get(id.string) {
        Some(binding) => Ok(*binding),
        None => meaning(alloc, context.root, id),
    }
}

/// The item of a world that is written or named.
fn extern_type<T: PackagedTypes>(
    ty: &ast::ExternType<'_>,
    alloc: Global,
    context: Context<'_>,
    types: &mut T,
    names: &NamedMap<Binding>,
) -> Outcome<ItemKind>
    requires root { NamesStand (T.collection types.old) context.root.now }
    requires names { NamesStand (T.collection types.old) names.now }
    ensures outcome { IsExternType ty.now context.entry names.now (T.collection types.old) (T.packages types.old)
        (T.collection types.new) result }
    ensures stands { IfOk result (Stands (T.collection types.new)) }
    ensures grows { Grows (T.collection types.old) (T.collection types.new) }
    ensures packages { SamePackages (T.packages types.old) (T.packages types.new) }
{
    types.types().see_acyclic();
    match ty {
        ast::ExternType::Ident(id) => {
            let binding = body_or_root(alloc, context, names, id)?;
            extern_of(alloc, types.types(), binding.kind, id)
        }
        ast::ExternType::Func(ty) => {
            let func = func_type(ty, alloc, names, types)?;
            Ok(ItemKind::Func(func))
        }
        ast::ExternType::Interface(interface) => {
            let interface = inline_interface(interface, alloc, context, types)?;
            Ok(ItemKind::Instance(interface))
        }
    }
}

/// Whether a name stands among the imports, or among the exports.
fn stands_there(body: &Body, kind: ExternKind, name: &str) -> bool
    ensures { (c : Collection) → result ≡ has (items_on kind (stated_body c body.now)) name.now }
{
    match kind {
        ExternKind::Import => body.items.contains(name),
        ExternKind::Export => body.exports.contains(name),
    }
}

/// An item of a world that is declared: whose it is, what it is, and its name.
#[derive(Clone, Copy)]
struct Slot<'a> {
    world: &'a str,
    kind: ExternKind,
    name: &'a str,
    span: SourceSpan,
}

/// One more item of a side, where its name is new.
fn add_on(
    alloc: Global,
    stand: &mut NamedMap<ItemKind>,
    slot: Slot<'_>,
    item: ItemKind,
) -> Outcome<()>
    ensures outcome { IsOneMore slot.entry stand.old item stand.new result }
    ensures stand { OnOk result ((c : Collection) → ItemsStand c stand.old → Stands c item → ItemsStand c stand.new) }
{
    if add_new(alloc, stand, slot.name, item)? {
        Ok(())
    } else {
        Err(duplicate_world_item(alloc, slot.kind, slot.name, slot.world, slot.span))
    }
}

/// Adds an import or an export, where its name is new.
fn add_extern(alloc: Global, body: &mut Body, slot: Slot<'_>, item: ItemKind) -> Outcome<()>
    ensures outcome { AddsExtern slot.entry body.old item body.new result }
    ensures body { OnOk result ((c : Collection) → BodyStands c body.old → Stands c item → BodyStands c body.new) }
{
    match slot.kind {
        ExternKind::Import => add_on(alloc, &mut body.items, slot, item),
        ExternKind::Export => add_on(alloc, &mut body.exports, slot, item),
    }
}

/// An item under a name of its own: the name, then its type.
fn named_item<T: PackagedTypes>(
    ty: &ast::ExternType<'_>,
    alloc: Global,
    context: Context<'_>,
    types: &mut T,
    slot: Slot<'_>,
    body: &mut Body,
) -> Outcome<()>
    requires root { NamesStand (T.collection types.old) context.root.now }
    requires body { BodyStands (T.collection types.old) body.old }
    ensures outcome { IsNamedItem ty.now slot.entry context.entry (T.collection types.old) (T.packages types.old) body.old
        (T.collection types.new) body.new result }
    ensures body { OnOk result (BodyStands (T.collection types.new) body.new) }
    ensures grows { Grows (T.collection types.old) (T.collection types.new) }
    ensures packages { SamePackages (T.packages types.old) (T.packages types.new) }
{
    types.types().see_acyclic();
    if stands_there(body, slot.kind, slot.name) {
        return Err(duplicate_world_item(alloc, slot.kind, slot.name, slot.world, slot.span));
    }
    let item = extern_type(ty, alloc, context, types, &body.names)?;
    add_extern(alloc, body, slot, item)
}

/// An interface under its identifier.
fn add_interface(
    alloc: Global,
    types: &Types,
    owner: Side<'_>,
    body: &mut Body,
    interface: InterfaceId,
    span: SourceSpan,
) -> Outcome<()>
    requires interface { Stands types.now (ItemKind.Instance interface) }
    requires body { BodyStands types.now body.old }
    ensures outcome { AddsInterface owner.entry types.now interface span body.old body.new result }
    ensures body { OnOk result (BodyStands types.now body.new) }
{
    let Some(id) = &types.interface(interface).id else {
        return Err(unwritable(alloc, owner.world));
    };
    let slot = Slot {
        world: owner.world,
        kind: owner.kind,
        name: id.as_str(),
        span,
    };
    add_extern(alloc, body, slot, ItemKind::Instance(interface))
}

/// The imports or the exports of a world.
#[derive(Clone, Copy)]
struct Side<'a> {
    world: &'a str,
    kind: ExternKind,
}

/// One more import or export.
fn world_item<T: PackagedTypes>(
    path: &ast::WorldItemPath<'_>,
    alloc: Global,
    context: Context<'_>,
    types: &mut T,
    owner: Side<'_>,
    body: &mut Body,
) -> Outcome<()>
    requires root { NamesStand (T.collection types.old) context.root.now }
    requires body { BodyStands (T.collection types.old) body.old }
    ensures outcome { IsWorldItem path.now owner.entry context.entry (T.collection types.old) (T.packages types.old) body.old
        (T.collection types.new) body.new result }
    ensures body { OnOk result (BodyStands (T.collection types.new) body.new) }
    ensures grows { Grows (T.collection types.old) (T.collection types.new) }
    ensures packages { SamePackages (T.packages types.old) (T.packages types.new) }
{
    match path {
        ast::WorldItemPath::Named(item) => {
            let slot = Slot {
                world: owner.world,
                kind: owner.kind,
                name: item.id.string,
                span: item.id.span,
            };
            named_item(&item.ty, alloc, context, types, slot, body)
        }
        ast::WorldItemPath::Package(path) => {
            let interface = package_interface(path, alloc, context, types)?;
            add_interface(alloc, types.types(), owner, body, interface, path.span)
        }
        ast::WorldItemPath::Ident(id) => {
            let interface = root_interface(alloc, context, types, id)?;
            add_interface(alloc, types.types(), owner, body, interface, id.span)
        }
    }
}

/// An item of a world that is no include.
fn world_part<T: PackagedTypes>(
    item: &ast::WorldItem<'_>,
    alloc: Global,
    context: Context<'_>,
    types: &mut T,
    world: &str,
    body: &mut Body,
) -> Outcome<()>
    requires root { NamesStand (T.collection types.old) context.root.now }
    requires body { BodyStands (T.collection types.old) body.old }
    ensures outcome { IsPart item.now world.now context.entry (T.collection types.old) (T.packages types.old) body.old
        (T.collection types.new) body.new result }
    ensures body { OnOk result (BodyStands (T.collection types.new) body.new) }
    ensures grows { Grows (T.collection types.old) (T.collection types.new) }
    ensures packages { SamePackages (T.packages types.old) (T.packages types.new) }
{
    types.types().see_acyclic();
    let holder = Holder::World(world);
    let imports = Side {
        world,
        kind: ExternKind::Import,
    };
    let exports = Side {
        world,
        kind: ExternKind::Export,
    };
    match item {
        ast::WorldItem::Use(item) => use_types(item, alloc, context, types, holder, body),
        ast::WorldItem::Ty(decl) => item_type(decl, alloc, types, holder, body),
        ast::WorldItem::Import(item) => world_item(
            &item.path, alloc, context, types, imports, body,
        ),
        ast::WorldItem::Export(item) => world_item(
            &item.path, alloc, context, types, exports, body,
        ),
        ast::WorldItem::Include(_) => Ok(()),
    }
}

/// An include, where the item is one.
fn world_include<T: PackagedTypes>(
    item: &ast::WorldItem<'_>,
    alloc: Global,
    context: Context<'_>,
    types: &mut T,
    world: &str,
    body: &mut Body,
) -> Outcome<()>
    requires root { NamesStand (T.collection types.old) context.root.now }
    requires body { BodyStands (T.collection types.old) body.old }
    ensures outcome { IsInclude item.now world.now context.entry (T.collection types.old) (T.packages types.old) body.old
        (T.collection types.new) body.new result }
    ensures body { OnOk result (BodyStands (T.collection types.new) body.new) }
    ensures grows { Grows (T.collection types.old) (T.collection types.new) }
    ensures packages { SamePackages (T.packages types.old) (T.packages types.new) }
{
    types.types().see_acyclic();
    match item {
        ast::WorldItem::Include(include) => {
            include_world(include, alloc, context, types, world, body)
        }
        _other => Ok(()),
    }
}

/// What the parts of a world state, its includes left out.
fn add_items<T: PackagedTypes>(
    parts: &Vec<ast::WorldItem<'_>>,
    alloc: Global,
    context: Context<'_>,
    types: &mut T,
    world: &str,
    body: &mut Body,
) -> Outcome<()>
    requires root { NamesStand (T.collection types.old) context.root.now }
    requires body { BodyStands (T.collection types.old) body.old }
    ensures outcome { AreParts parts.now.items world.now context.entry (T.collection types.old) (T.packages types.old)
        body.old (T.collection types.new) body.new result }
    ensures body { OnOk result (BodyStands (T.collection types.new) body.new) }
    ensures grows { Grows (T.collection types.old) (T.collection types.new) }
    ensures packages { SamePackages (T.packages types.old) (T.packages types.new) }
{
    types.types().see_acyclic();
    for part in parts {
        world_part(part, alloc, context, types, world, body)?;
    }
    Ok(())
}

/// The includes of a world, after its other items.
fn add_includes<T: PackagedTypes>(
    parts: &Vec<ast::WorldItem<'_>>,
    alloc: Global,
    context: Context<'_>,
    types: &mut T,
    world: &str,
    body: &mut Body,
) -> Outcome<()>
    requires root { NamesStand (T.collection types.old) context.root.now }
    requires body { BodyStands (T.collection types.old) body.old }
    ensures outcome { AreIncludes parts.now.items world.now context.entry (T.collection types.old) (T.packages types.old)
        body.old (T.collection types.new) body.new result }
    ensures body { OnOk result (BodyStands (T.collection types.new) body.new) }
    ensures grows { Grows (T.collection types.old) (T.collection types.new) }
    ensures packages { SamePackages (T.packages types.old) (T.packages types.new) }
{
    types.types().see_acyclic();
    for part in parts {
        world_include(part, alloc, context, types, world, body)?;
    }
    Ok(())
}

/// What the parts of a world state.
fn body_of<T: PackagedTypes>(
    parts: &Vec<ast::WorldItem<'_>>,
    alloc: Global,
    context: Context<'_>,
    types: &mut T,
    world: &str,
) -> Outcome<Body>
    requires { NamesStand (T.collection types.old) context.root.now }
    ensures outcome { IsWorldBody parts.now.items world.now context.entry (T.collection types.old) (T.packages types.old)
        (T.collection types.new) result }
    ensures body { IfOk result (BodyStands (T.collection types.new)) }
    ensures grows { Grows (T.collection types.old) (T.collection types.new) }
    ensures packages { SamePackages (T.packages types.old) (T.packages types.new) }
{
    let mut body = Body::new(alloc);
    add_items(parts, alloc, context, types, world, &mut body)?;
    add_includes(parts, alloc, context, types, world, &mut body)?;
    Ok(body)
}

/// Adds the world that a body states, under the identifier of a name.
fn add_world<T: PackagedTypes>(
    alloc: Global,
    own: &PackageName<'_>,
    types: &mut T,
    name: &str,
    body: Body,
) -> Result<WorldId, AllocError>
    requires { BodyStands (T.collection types.old) body }
    ensures made { IsWorldMade (identifier_of own.now name.now) body (T.collection types.old) (T.collection types.new) result }
    ensures stands { IfOk result (λ i. Stands (T.collection types.new) (ItemKind.Component i)) }
    ensures fresh { IfOk result (λ i. IsNew (T.collection types.old) (ItemKind.Component i)) }
    ensures grows { Grows (T.collection types.old) (T.collection types.new) }
    ensures packages { SamePackages (T.packages types.old) (T.packages types.new) }
{
    types.types().see_acyclic();
    let id = identifier(alloc, own, name)?;
    let Body {
        names: _,
        uses,
        items,
        exports,
    } = body;
    types.add_world(World {
        id: Some(id),
        uses,
        imports: items,
        exports,
    })
}

/// The world that a declaration states.
pub(crate) fn world_decl<T: PackagedTypes>(
    decl: &ast::WorldDecl<'_>,
    alloc: Global,
    context: Context<'_>,
    types: &mut T,
) -> Outcome<WorldId>
    requires { NamesStand (T.collection types.old) context.root.now }
    ensures outcome { IsWorldDeclared decl.now context.entry (T.collection types.old) (T.packages types.old)
        (T.collection types.new) result }
    ensures stands { IfOk result (λ i. Stands (T.collection types.new) (ItemKind.Component i)) }
    ensures fresh { IfOk result (λ i. IsNew (T.collection types.old) (ItemKind.Component i)) }
    ensures grows { Grows (T.collection types.old) (T.collection types.new) }
    ensures packages { SamePackages (T.packages types.old) (T.packages types.new) }
{
    let body = body_of(&decl.items, alloc, context, types, decl.id.string)?;
    let id = add_world(alloc, context.own, types, decl.id.string, body)?;
    Ok(id)
}
