//! Types of another interface that a body uses.
#![tactic(auto, using(crate::proofs::Standing::bodies))]

ghost use Rattle.std.specs.Prelude.{◌≡◌, OnOk, IfOk, IfSome, is_none, is_some};
ghost use Rattle.wac_types_base.specs.declared.item.ItemKind.{ItemKind};
ghost use Rattle.wac_types_base.specs.Collection.{Stands, Grows};
ghost use Rattle.wac_parser_tree.specs.Views.{view_ident, view_use_item, view_use_path};
ghost use Rattle.wac_parser_declare.specs.Bodies as stated;
ghost use Rattle.wac_parser_declare.specs.Held.{BodyStands};
ghost use Rattle.wac_parser_declare.specs.Holding.{NamesStand};
ghost use Rattle.wac_parser_declare.specs.InPaths.{Uses};
ghost use Rattle.wac_parser_declare.specs.InUses.{AreUsed, IsTypeUsed, IsUsable, IsUseAdded, UseStands};
ghost use Rattle.wac_parser_declare.specs.Packages.{SamePackages};
ghost use Rattle.wac_parser_declare.specs.Scope as scope;

use crate::bodies::{Body, Holder};
use crate::functions::add_new;
use crate::growing::PackagedTypes;
use crate::paths::{export_of, interface_at};
use crate::scope::{Context, bind};
use std::alloc::{AllocError, Global};
use wac_parser_refusals::{AS_HELP, Outcome, not_used_type, undefined_type, use_conflict};
use wac_parser_tree as ast;
use wac_parser_tree::{Ident, UseItem, UsePath};
use wac_types_base::{InterfaceId, ItemKind, Text, Type, Types, UsedType};

/// The interface that a `use` names, and the text by which it does.
#[derive(Clone, Copy)]
struct Used<'a> {
    interface: InterfaceId,
    path: &'a str,
}

/// The text of a path.
fn path_text<'a>(path: &UsePath<'a>) -> &'a str
    ensures { result.now ≡ scope.path_text (scope.use_path (view_use_path path.now)) }
{
    match path {
        UsePath::Package(path) => path.string,
        UsePath::Ident(id) => id.string,
    }
}

/// The name of a used type here.
fn local_name<'a>(item: &UseItem<'a>) -> Ident<'a>
    ensures { view_ident result ≡ stated.local_name (view_use_item item.now) }
{
    match item.as_id {
        Some(id) => id,
        None => item.id,
    }
}

/// The name there, where it is another.
fn name_there(item: &UseItem<'_>, alloc: Global) -> Result<Option<Text>, AllocError>
    ensures { IfOk result (λ n. n ≡ stated.name_there (view_use_item item.now)) }
{
    match item.as_id {
        Some(_) => Ok(Some(Text::new(String::from_str(alloc, item.id.string)?))),
        None => Ok(None),
    }
}

/// What may help where the name is there already.
fn help_for(item: &UseItem<'_>) -> Option<&'static str>
    ensures { is_some result ≡ is_none (view_use_item item.now).as_id }
{
    match item.as_id {
        Some(_) => None,
        None => Some(AS_HELP),
    }
}

/// The type that an item is, if it can be used.
fn usable(kind: ItemKind) -> Option<Type>
    ensures usable { IsUsable kind result }
    ensures same { IfSome result (λ t. kind ≡ ItemKind.Ty t) }
{
    let ItemKind::Ty(ty) = kind else {
        return None;
    };
    match ty {
        Type::Resource(_) => Some(ty),
        Type::Value(_) => Some(ty),
        _other => None,
    }
}

/// The type that is used.
fn used_type(item: &UseItem<'_>, alloc: Global, types: &Types, from: Used<'_>) -> Outcome<Type>
    requires { Stands types.now (ItemKind.Instance from.interface) }
    ensures outcome { IsTypeUsed types.now from.entry item.now result }
    ensures stands { IfOk result (λ t. Stands types.now (ItemKind.Ty t)) }
{
    types.see_acyclic();
    let interface = ItemKind::Instance(from.interface);
    let Some(kind) = export_of(types, interface, item.id.string) else {
        return Err(undefined_type(alloc, item.id.string, from.path, item.id.span));
    };
    match usable(kind) {
        Some(ty) => Ok(ty),
        None => Err(not_used_type(
            alloc,
            item.id.string,
            kind.desc(types),
            from.path,
            item.id.span,
        )),
    }
}

/// One more use of a type that is known.
fn add_use(
    item: &UseItem<'_>,
    alloc: Global,
    holder: Holder<'_>,
    body: &mut Body,
    interface: InterfaceId,
    ty: Type,
) -> Outcome<()>
    ensures outcome { IsUseAdded holder.entry item.now body.old interface ty body.new result }
    ensures stands { UseStands body.old interface ty body.new result }
{
    let id = local_name(item);
    if body.items.contains(id.string) || body.uses.contains(id.string) {
        return Err(use_conflict(alloc, id.string, holder.kind(), help_for(item), id.span));
    }
    bind(alloc, &mut body.names, &id, ItemKind::Ty(ty))?;
    let used = UsedType {
        interface,
        name: name_there(item, alloc)?,
    };
    let _ = add_new(alloc, &mut body.uses, id.string, used)?;
    let _ = add_new(alloc, &mut body.items, id.string, ItemKind::Ty(ty))?;
    Ok(())
}

/// The types that a `use` names, in order.
fn use_items(
    items: &Vec<UseItem<'_>>,
    alloc: Global,
    types: &Types,
    holder: Holder<'_>,
    body: &mut Body,
    from: Used<'_>,
) -> Outcome<()>
    requires interface { Stands types.now (ItemKind.Instance from.interface) }
    requires body { BodyStands types.now body.old }
    ensures outcome { AreUsed holder.entry items.now.items types.now from.entry body.old body.new result }
    ensures stands { OnOk result (BodyStands types.now body.new) }
{
    types.see_acyclic();
    for item in items {
        let ty = used_type(item, alloc, types, from)?;
        add_use(item, alloc, holder, body, from.interface, ty)?;
    }
    Ok(())
}

/// A `use` in a body.
pub(crate) fn use_types<T: PackagedTypes>(
    item: &ast::Use<'_>,
    alloc: Global,
    context: Context<'_>,
    types: &mut T,
    holder: Holder<'_>,
    body: &mut Body,
) -> Outcome<()>
    requires root { NamesStand (T.collection types.old) context.root.now }
    requires body { BodyStands (T.collection types.old) body.old }
    ensures outcome { Uses holder.entry item.now context.entry (T.collection types.old) (T.packages types.old) body.old
        (T.collection types.new) body.new result }
    ensures body { OnOk result (BodyStands (T.collection types.new) body.new) }
    ensures grows { Grows (T.collection types.old) (T.collection types.new) }
    ensures packages { SamePackages (T.packages types.old) (T.packages types.new) }
{
    let interface = interface_at(&item.path, alloc, context, types)?;
    let from = Used {
        interface,
        path: path_text(&item.path),
    };
    use_items(&item.items, alloc, types.types(), holder, body, from)
}
