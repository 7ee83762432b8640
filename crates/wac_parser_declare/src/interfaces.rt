//! The interface that a body states.
#![tactic(auto, using(crate::proofs::Standing::bodies))]

ghost use Rattle.std.specs.Prelude.{◌≡◌, OnOk, IfOk, option_map};
ghost use Rattle.wac_types_base.specs.declared.item.ItemKind.{ItemKind};
ghost use Rattle.wac_types_base.specs.Collection.{Stands, Grows};
ghost use Rattle.wac_parser_declare.specs.Added.{IsNew};
ghost use Rattle.wac_parser_declare.specs.Held.{BodyStands};
ghost use Rattle.wac_parser_declare.specs.Holding.{NamesStand};
ghost use Rattle.wac_parser_declare.specs.InInterfaces.{AreInterfaceItems, IsInline, IsInterfaceBody, IsInterfaceDeclared, IsInterfaceItem};
ghost use Rattle.wac_parser_declare.specs.InUses.{Exports};
ghost use Rattle.wac_parser_declare.specs.Making.{IsInterfaceMade, IsInterfaceUnder, identifier_of};
ghost use Rattle.wac_parser_declare.specs.Packages.{SamePackages};

use crate::bodies::{Body, Holder, add_item};
use crate::functions::func_type_ref;
use crate::growing::PackagedTypes;
use crate::resources::item_type;
use crate::scope::Context;
use crate::uses::use_types;
use std::alloc::{AllocError, Global};
use wac_parser_refusals::Outcome;
use wac_parser_tree as ast;
use wac_parser_tree::PackageName;
use wac_types_base::{Interface, InterfaceId, ItemKind, Text};

/// `PACKAGE/NAME`, and the version of the package behind an `@` if it has one.
pub(crate) fn identifier(
    alloc: Global,
    own: &PackageName<'_>,
    name: &str,
) -> Result<Text, AllocError>
    ensures { IfOk result (λ t. t ≡ identifier_of own.now name.now) }
{
    let mut text = String::from_str(alloc, own.name)?;
    text.push_str("/")?;
    text.push_str(name)?;
    if let Some(version) = &own.version {
        write!(text, "@{version}")?;
    }
    Ok(Text::new(text))
}

/// A function of an interface: its type, then its name.
fn export_item<T: PackagedTypes>(
    export: &ast::InterfaceExport<'_>,
    alloc: Global,
    types: &mut T,
    holder: Holder<'_>,
    body: &mut Body,
) -> Outcome<()>
    requires body { BodyStands (T.collection types.old) body.old }
    ensures outcome { Exports holder.entry export.now (T.collection types.old) body.old
        (T.collection types.new) body.new result }
    ensures body { OnOk result (BodyStands (T.collection types.new) body.new) }
    ensures grows { Grows (T.collection types.old) (T.collection types.new) }
    ensures packages { SamePackages (T.packages types.old) (T.packages types.new) }
{
    let func = func_type_ref(&export.ty, alloc, &body.names, types)?;
    add_item(alloc, holder, body, &export.id, ItemKind::Func(func))
}

/// One more item of an interface.
fn interface_item<T: PackagedTypes>(
    item: &ast::InterfaceItem<'_>,
    alloc: Global,
    context: Context<'_>,
    types: &mut T,
    holder: Holder<'_>,
    body: &mut Body,
) -> Outcome<()>
    requires root { NamesStand (T.collection types.old) context.root.now }
    requires body { BodyStands (T.collection types.old) body.old }
    ensures outcome { IsInterfaceItem holder.entry item.now context.entry (T.collection types.old) (T.packages types.old)
        body.old (T.collection types.new) body.new result }
    ensures body { OnOk result (BodyStands (T.collection types.new) body.new) }
    ensures grows { Grows (T.collection types.old) (T.collection types.new) }
    ensures packages { SamePackages (T.packages types.old) (T.packages types.new) }
{
    match item {
        ast::InterfaceItem::Use(item) => use_types(item, alloc, context, types, holder, body),
        ast::InterfaceItem::Ty(decl) => item_type(decl, alloc, types, holder, body),
        ast::InterfaceItem::Export(export) => export_item(export, alloc, types, holder, body),
    }
}

/// Adds what the items of an interface state, in order.
fn add_items<T: PackagedTypes>(
    items: &Vec<ast::InterfaceItem<'_>>,
    alloc: Global,
    context: Context<'_>,
    types: &mut T,
    holder: Holder<'_>,
    body: &mut Body,
) -> Outcome<()>
    requires root { NamesStand (T.collection types.old) context.root.now }
    requires body { BodyStands (T.collection types.old) body.old }
    ensures outcome { AreInterfaceItems holder.entry items.now.items context.entry
        (T.collection types.old) (T.packages types.old) body.old (T.collection types.new) body.new result }
    ensures body { OnOk result (BodyStands (T.collection types.new) body.new) }
    ensures grows { Grows (T.collection types.old) (T.collection types.new) }
    ensures packages { SamePackages (T.packages types.old) (T.packages types.new) }
{
    types.types().see_acyclic();
    for item in items {
        interface_item(item, alloc, context, types, holder, body)?;
    }
    Ok(())
}

/// What the items of an interface state.
fn interface_items<T: PackagedTypes>(
    items: &Vec<ast::InterfaceItem<'_>>,
    alloc: Global,
    context: Context<'_>,
    types: &mut T,
    name: Option<&str>,
) -> Outcome<Body>
    requires root { NamesStand (T.collection types.old) context.root.now }
    ensures outcome { IsInterfaceBody (option_map (λ n. n.now) name.entry) items.now.items context.entry
        (T.collection types.old) (T.packages types.old) (T.collection types.new) result }
    ensures body { IfOk result (BodyStands (T.collection types.new)) }
    ensures grows { Grows (T.collection types.old) (T.collection types.new) }
    ensures packages { SamePackages (T.packages types.old) (T.packages types.new) }
{
    let mut body = Body::new(alloc);
    add_items(
        items,
        alloc,
        context,
        types,
        Holder::Interface(name),
        &mut body,
    )?;
    Ok(body)
}

/// Adds the interface that a body states.
fn add_interface<T: PackagedTypes>(
    types: &mut T,
    id: Option<Text>,
    body: Body,
) -> Result<InterfaceId, AllocError>
    requires { BodyStands (T.collection types.old) body }
    ensures made { IsInterfaceMade id body (T.collection types.old) (T.collection types.new) result }
    ensures stands { IfOk result (λ i. Stands (T.collection types.new) (ItemKind.Instance i)) }
    ensures fresh { IfOk result (λ i. IsNew (T.collection types.old) (ItemKind.Instance i)) }
    ensures grows { Grows (T.collection types.old) (T.collection types.new) }
    ensures packages { SamePackages (T.packages types.old) (T.packages types.new) }
{
    types.types().see_acyclic();
    let Body {
        names: _,
        uses,
        items,
        exports: _,
    } = body;
    types.add_interface(Interface {
        id,
        uses,
        exports: items,
    })
}

/// Adds the interface that a body states, under the identifier of a name.
fn add_named<T: PackagedTypes>(
    alloc: Global,
    own: &PackageName<'_>,
    types: &mut T,
    name: &str,
    body: Body,
) -> Result<InterfaceId, AllocError>
    requires { BodyStands (T.collection types.old) body }
    ensures made { IsInterfaceUnder own.now name.now body (T.collection types.old) (T.collection types.new) result }
    ensures stands { IfOk result (λ i. Stands (T.collection types.new) (ItemKind.Instance i)) }
    ensures fresh { IfOk result (λ i. IsNew (T.collection types.old) (ItemKind.Instance i)) }
    ensures grows { Grows (T.collection types.old) (T.collection types.new) }
    ensures packages { SamePackages (T.packages types.old) (T.packages types.new) }
{
    types.types().see_acyclic();
    let id = identifier(alloc, own, name)?;
    add_interface(types, Some(id), body)
}

/// The interface without identifier that is written.
pub fn inline_interface<T: PackagedTypes>(
    interface: &ast::InlineInterface<'_>,
    alloc: Global,
    context: Context<'_>,
    types: &mut T,
) -> Outcome<InterfaceId>
    requires { NamesStand (T.collection types.old) context.root.now }
    ensures outcome { IsInline interface.now context.entry (T.collection types.old) (T.packages types.old)
        (T.collection types.new) result }
    ensures stands { IfOk result (λ i. Stands (T.collection types.new) (ItemKind.Instance i)) }
    ensures grows { Grows (T.collection types.old) (T.collection types.new) }
    ensures packages { SamePackages (T.packages types.old) (T.packages types.new) }
{
    let body = interface_items(&interface.items, alloc, context, types, None)?;
    let id = add_interface(types, None, body)?;
    Ok(id)
}

/// The interface that a declaration states.
pub(crate) fn interface_decl<T: PackagedTypes>(
    decl: &ast::InterfaceDecl<'_>,
    alloc: Global,
    context: Context<'_>,
    types: &mut T,
) -> Outcome<InterfaceId>
    requires { NamesStand (T.collection types.old) context.root.now }
    ensures outcome { IsInterfaceDeclared decl.now context.entry (T.collection types.old) (T.packages types.old)
        (T.collection types.new) result }
    ensures stands { IfOk result (λ i. Stands (T.collection types.new) (ItemKind.Instance i)) }
    ensures fresh { IfOk result (λ i. IsNew (T.collection types.old) (ItemKind.Instance i)) }
    ensures grows { Grows (T.collection types.old) (T.collection types.new) }
    ensures packages { SamePackages (T.packages types.old) (T.packages types.new) }
{
    let body = interface_items(&decl.items, alloc, context, types, Some(decl.id.string))?;
    let id = add_named(alloc, context.own, types, decl.id.string, body)?;
    Ok(id)
}
