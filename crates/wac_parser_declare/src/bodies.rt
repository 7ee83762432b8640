//! What the body of an interface or of a world holds so far.
#![tactic(auto, using(crate::proofs::Standing::bodies))]

ghost use Rattle.std.specs.Prelude.{◌≡◌, OnOk};
ghost use Rattle.wac_types_base.specs.declared.item.ItemKind.{ItemKind};
ghost use Rattle.wac_types_base.specs.Record.{Collection};
ghost use Rattle.wac_types_base.specs.Collection.{Stands};
ghost use Rattle.wac_parser_declare.specs.Bodies.{no_body};
ghost use Rattle.wac_parser_declare.specs.Held.{BodyStands, stated_body};
ghost use Rattle.wac_parser_declare.specs.InBodies.{IsItemAdded, IsTypeAdded};

use crate::functions::add_new;
use crate::scope::{Binding, bind};
use std::alloc::Global;
use wac_parser_refusals::{Outcome, Refusal, duplicate_export, duplicate_world_item};
use wac_parser_tree::Ident;
use wac_types_base::{ExternKind, ItemKind, NamedMap, Type, UsedType};

/// What a body has stated: its names, its uses, the exports of an interface or the imports of a world, the exports of a
/// world.
#[derive(Drop)]
pub(crate) struct Body {
    pub(crate) names: NamedMap<Binding>,
    pub(crate) uses: NamedMap<UsedType>,
    pub(crate) items: NamedMap<ItemKind>,
    pub(crate) exports: NamedMap<ItemKind>,
}

/// Whose body it is, as faults name it.
#[derive(Clone, Copy, Debug)]
pub(crate) enum Holder<'a> {
    /// An interface, under its name if it has one.
    Interface(Option<&'a str>),
    /// A world, under its name.
    World(&'a str),
}

impl<'a> Holder<'a> {
    ghost use Rattle.std.specs.Prelude.{◌≡◌};
    ghost use Rattle.wac_parser_refusals.specs.Outcomes.{Refuses};
    ghost use Rattle.wac_parser_declare.specs.Held.{holder_of};

    /// What the items of the body are.
    pub(crate) fn kind(self) -> ExternKind
        ensures { result ≡ (holder_of self.entry).kind }
    {
        match self {
            Holder::Interface(_) => ExternKind::Export,
            Holder::World(_) => ExternKind::Import,
        }
    }

    /// The refusal of an item whose name is taken.
    pub(crate) fn duplicate(self, alloc: Global, id: &Ident<'_>) -> Refusal
        ensures { Refuses result ((holder_of self.entry).duplicate id.now.string.now) id.now.span }
    {
        match self {
            Holder::Interface(name) => duplicate_export(alloc, id.string, name, id.span),
            Holder::World(world) => {
                duplicate_world_item(alloc, ExternKind::Import, id.string, world, id.span)
            }
        }
    }
}

impl Body {
    /// Nothing yet.
    pub(crate) fn new(alloc: Global) -> Self
        ensures stands { (c : Collection) → BodyStands c result }
        ensures nothing { (c : Collection) → stated_body c result ≡ no_body }
    {
        Body {
            names: NamedMap::new(alloc),
            uses: NamedMap::new(alloc),
            items: NamedMap::new(alloc),
            exports: NamedMap::new(alloc),
        }
    }
}

/// One more item, where its name is new.
pub(crate) fn add_item(
    alloc: Global,
    holder: Holder<'_>,
    body: &mut Body,
    id: &Ident<'_>,
    kind: ItemKind,
) -> Outcome<()>
    ensures outcome { IsItemAdded holder.entry body.old id.now kind body.new result }
    ensures stands { OnOk result ((c : Collection) → BodyStands c body.old → Stands c kind → BodyStands c body.new) }
{
    if add_new(alloc, &mut body.items, id.string, kind)? {
        Ok(())
    } else {
        Err(holder.duplicate(alloc, id))
    }
}

/// A new type item: its name, then the item.
pub(crate) fn add_type(
    alloc: Global,
    holder: Holder<'_>,
    body: &mut Body,
    id: &Ident<'_>,
    ty: Type,
) -> Outcome<()>
    ensures outcome { IsTypeAdded holder.entry body.old id.now ty body.new result }
    ensures stands { OnOk result ((c : Collection) → BodyStands c body.old → Stands c (ItemKind.Ty ty) → BodyStands c body.new) }
{
    bind(alloc, &mut body.names, id, ItemKind::Ty(ty))?;
    add_item(alloc, holder, body, id, ItemKind::Ty(ty))
}
