//! The greatest item that fits two of one collection.

ghost use Rattle.std.specs.Prelude.{◌≡◌, ◌++◌, [], ◌∷◌, IfOk, OnOk};
ghost use Rattle.wac_types_base.specs.declared.item.ItemKind.{ItemKind};
ghost use Rattle.wac_types_base.specs.declared.item.ExternKind.{ExternKind};
ghost use Rattle.wac_types_base.specs.Entries.{IsNew};
ghost use Rattle.wac_types_base.specs.Collection.{Stands, Grows};
ghost use Rattle.wac_types_fit.specs.Trees.{IsInside};
ghost use Rattle.wac_types_fit.specs.Checking.{AreInside, ItemsDisagree};
ghost use Rattle.wac_types_merge.specs.Errors.{IfClash, IfLeads};
ghost use Rattle.wac_types_base.specs.declared.defined.Interface.{Interface as InterfaceData};
ghost use Rattle.wac_types_merge.specs.United.{UnitesIn, OtherUnites, ItemsUnite, InterfacesUnite};
ghost use Rattle.wac_types_merge.specs.Interfaces.{IsAt, MeetIn, ClashIn, ClashUnlessFit, JoinedIn, OtherClash, SlotInside, AreJoined, ItemsClash, LeadsIn, OtherLeads};

use crate::exports::add_joined;
use crate::narrower::fits_in;
use std::alloc::{AllocError, Global};
use wac_types_base::{ExternKind, Interface, InterfaceId, ItemKind, NamedMap, Type, Types};
use wac_types_fit::SubtypeError;
use wac_types_fit::error::within;

/// Two instances whose items are merged.
#[derive(Clone, Copy)]
struct Instances {
    kept: ItemKind,
    asked: ItemKind,
}

/// The first of two items that are no instances, where it fits the second.
fn unmerged(alloc: Global, own: &Types, a: ItemKind, b: ItemKind) -> Result<ItemKind, SubtypeError>
    requires kept { Stands own.now a }
    requires asked { Stands own.now b }
    requires apart { ClashUnlessFit own.now a b }
    ensures first { IfOk result (λ k. k ≡ a) }
    ensures met { IfOk result (MeetIn own.now a b own.now) }
    ensures clash { IfClash result (ClashIn own.now a b) }
    ensures frames { IfLeads result (LeadsIn own.now a b) }
{
    fits_in(alloc, own, a, b)?;
    Ok(a)
}

/// The greatest item that fits both. It is added to the collection.
#[cycle(merging)]
pub(crate) fn merge(
    alloc: Global,
    own: &mut Types,
    a: ItemKind,
    b: ItemKind,
) -> Result<ItemKind, SubtypeError>
    requires kept { Stands own.old a }
    requires asked { Stands own.old b }
    ensures met { IfOk result (MeetIn own.old a b own.new) }
    ensures united { IfOk result (UnitesIn own.old a b own.new) }
    ensures clash { IfClash result (ClashIn own.old a b) }
    ensures frames { IfLeads result (LeadsIn own.old a b) }
    ensures grows { Grows own.old own.new }
{
    own.see_acyclic();
    match a {
        ItemKind::Instance(i) => match b {
            ItemKind::Instance(j) => {
                let id = merge_instances(alloc, own, i, j)?;
                Ok(ItemKind::Instance(id))
            }
            _ => unmerged(alloc, own, a, b),
        },
        ItemKind::Ty(x) => match b {
            ItemKind::Ty(y) => merge_types(alloc, own, x, y),
            _ => unmerged(alloc, own, a, b),
        },
        _ => unmerged(alloc, own, a, b),
    }
}

/// The type item that is the meet of two.
#[cycle(merging)]
fn merge_types(alloc: Global, own: &mut Types, a: Type, b: Type) -> Result<ItemKind, SubtypeError>
    requires kept { Stands own.old (ItemKind.Ty a) }
    requires asked { Stands own.old (ItemKind.Ty b) }
    ensures met { IfOk result (MeetIn own.old (ItemKind.Ty a) (ItemKind.Ty b) own.new) }
    ensures united { IfOk result (UnitesIn own.old (ItemKind.Ty a) (ItemKind.Ty b) own.new) }
    ensures clash { IfClash result (ClashIn own.old (ItemKind.Ty a) (ItemKind.Ty b)) }
    ensures frames { IfLeads result (LeadsIn own.old (ItemKind.Ty a) (ItemKind.Ty b)) }
    ensures grows { Grows own.old own.new }
{
    own.see_acyclic();
    match a {
        Type::Interface(i) => match b {
            Type::Interface(j) => {
                let id = merge_instances(alloc, own, i, j)?;
                Ok(ItemKind::Ty(Type::Interface(id)))
            }
            _ => unmerged(alloc, own, ItemKind::Ty(a), ItemKind::Ty(b)),
        },
        _ => unmerged(alloc, own, ItemKind::Ty(a), ItemKind::Ty(b)),
    }
}

/// The interface of an instance that is the meet of two instances: a new one.
#[cycle(merging)]
fn merge_instances(
    alloc: Global,
    own: &mut Types,
    a: InterfaceId,
    b: InterfaceId,
) -> Result<InterfaceId, SubtypeError>
    requires kept { Stands own.old (ItemKind.Instance a) }
    requires asked { Stands own.old (ItemKind.Instance b) }
    ensures met { IfOk result (λ i. MeetIn own.old (ItemKind.Instance a) (ItemKind.Instance b) own.new (ItemKind.Instance i)) }
    ensures united { IfOk result
        (λ i. (x y : InterfaceData) → IsAt own.old a x → IsAt own.old b y → InterfacesUnite own.old x y own.new i) }
    ensures clash { IfClash result (ClashIn own.old (ItemKind.Instance a) (ItemKind.Instance b)) }
    ensures frames { IfLeads result (LeadsIn own.old (ItemKind.Instance a) (ItemKind.Instance b)) }
    ensures grows { Grows own.old own.new }
{
    own.see_acyclic();
    match own.interface(a).copy(alloc) {
        Err(AllocError) => Err(SubtypeError::Memory),
        Ok(first) => match own.interface(b).copy(alloc) {
            Err(AllocError) => Err(SubtypeError::Memory),
            Ok(second) => merge_copies(alloc, own, a, &first, b, &second),
        },
    }
}

/// The interface that is the meet of two, by copies of both.
#[cycle(merging)]
fn merge_copies(
    alloc: Global,
    own: &mut Types,
    a: InterfaceId,
    first: &Interface,
    b: InterfaceId,
    second: &Interface,
) -> Result<InterfaceId, SubtypeError>
    requires kept { IsAt own.old a first.now }
    requires asked { IsAt own.old b second.now }
    ensures met { IfOk result (λ i. MeetIn own.old (ItemKind.Instance a) (ItemKind.Instance b) own.new (ItemKind.Instance i)) }
    ensures united { IfOk result (InterfacesUnite own.old first.now second.now own.new) }
    ensures clash { IfClash result (ClashIn own.old (ItemKind.Instance a) (ItemKind.Instance b)) }
    ensures frames { IfLeads result (LeadsIn own.old (ItemKind.Instance a) (ItemKind.Instance b)) }
    ensures grows { Grows own.old own.new }
{
    own.see_acyclic();
    let instances = Instances {
        kept: ItemKind::Instance(a),
        asked: ItemKind::Instance(b),
    };
    let both = merge_items(alloc, own, instances, &first.exports, &second.exports)?;
    match add_joined(alloc, own, first, second, both) {
        Ok(id) => Ok(id),
        Err(AllocError) => Err(SubtypeError::Memory),
    }
}

/// Adds an item at the end. Its name is new.
fn push_item(
    alloc: Global,
    items: &mut NamedMap<ItemKind>,
    name: &str,
    kind: ItemKind,
) -> Result<(), SubtypeError>
    requires { IsNew name.now items.old }
    ensures ok { OnOk result (items.new ≡ items.old ++ (name.now, kind) ∷ []) }
    ensures clash { IfClash result ⊥ }
{
    match String::from_str(alloc, name) {
        Err(AllocError) => Err(SubtypeError::Memory),
        Ok(name) => match items.push(name, kind) {
            Ok(()) => Ok(()),
            Err(AllocError) => Err(SubtypeError::Memory),
        },
    }
}

/// Each of the items kept, merged with the one asked under its name.
#[cycle(merging)]
fn merge_items(
    alloc: Global,
    own: &mut Types,
    instances: Instances,
    kept: &NamedMap<ItemKind>,
    asked: &NamedMap<ItemKind>,
) -> Result<NamedMap<ItemKind>, SubtypeError>
    requires first { Stands own.old instances.kept }
    requires second { Stands own.old instances.asked }
    requires kept { AreInside own.old instances.kept kept.now }
    requires asked { AreInside own.old instances.asked asked.now }
    ensures joined { IfOk result (AreJoined own.old asked.now own.new kept.now) }
    ensures united { IfOk result (ItemsUnite own.old asked.now own.new kept.now) }
    ensures clash { IfClash result (ItemsClash own.old kept.now asked.now) }
    ensures frames { IfLeads result (ItemsDisagree ExternKind.Export own.old kept.now own.old asked.now) }
    ensures grows { Grows own.old own.new }
{
    own.see_acyclic();
    let mut both = NamedMap::new(alloc);
    for index in 0..kept.len() {
        let (name, kind) = kept.entry(index);
        let other = asked.get(name).copied();
        let item = merge_item(alloc, own, instances, name, *kind, other)?;
        push_item(alloc, &mut both, name, item)?;
    }
    Ok(both)
}

/// An item kept, merged with the one asked, if there is one.
#[cycle(merging)]
fn merge_item(
    alloc: Global,
    own: &mut Types,
    instances: Instances,
    name: &str,
    kind: ItemKind,
    other: Option<ItemKind>,
) -> Result<ItemKind, SubtypeError>
    requires kept { IsInside own.old kind instances.kept }
    requires asked { SlotInside own.old other instances.asked }
    ensures joined { IfOk result (JoinedIn own.old kind other own.new) }
    ensures united { IfOk result (OtherUnites own.old kind other own.new) }
    ensures clash { IfClash result (OtherClash own.old kind other) }
    ensures frames { IfLeads result (OtherLeads own.old name.now kind other) }
    ensures grows { Grows own.old own.new }
{
    own.see_acyclic();
    match other {
        None => Ok(kind),
        Some(other) => match merge(alloc, own, kind, other) {
            Ok(item) => Ok(item),
            Err(fault) => Err(within(alloc, ExternKind::Export, name, fault)),
        },
    }
}
