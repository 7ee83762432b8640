//! What is kept of the asks of one outer import, as they are taken one after another.

ghost use Rattle.std.specs.Prelude.{◌≡◌, IsTrue, IfOk, IfErr, Some, false};
ghost use Rattle.wac_types_base.specs.declared.item.ItemKind.{ItemKind};
ghost use Rattle.wac_types_base.specs.Collection.{Stands, Grows};
ghost use Rattle.wac_types_merge.specs.Families.{UsesUnnamed};
ghost use Rattle.wac_merging.specs.Families.{NamesUses};
ghost use Rattle.wac_composition.specs.Names.{has_track};
ghost use Rattle.wac_merging.specs.Kept.{HasFamily, KeepsFirst, KeepsAgain, KeepsWith, KeepsNext, KeepsNothing, IfMerging, TellsNext, Spells};

use std::alloc::{AllocError, Global};
use wac_types_base::{ItemKind, Types};
use wac_types_merge::{
    AggregateError, Family, family_of, interface_uses_unnamed, joint_family, kept_of, spelled,
};

/// What is kept of the asks of one outer import.
#[derive(Clone, Copy)]
pub struct Kept {
    /// Whether there are several asks.
    pub several: bool,
    /// What they keep.
    pub item: ItemKind,
    /// That of the asks, once they are not all one.
    pub family: Option<Family>,
}

/// Whether the item is an instance that uses an interface without identifier.
fn is_unnamed(types: &Types, item: ItemKind) -> bool
    requires { Stands types.now item }
    ensures yes { IsTrue result → UsesUnnamed types.now item }
    ensures no { result ≡ false → NamesUses types.now item }
{
    match item {
        ItemKind::Instance(id) => interface_uses_unnamed(types, id),
        _ => false,
    }
}

/// The family of an ask: of none is an instance that uses an interface without identifier.
pub fn family_asked(types: &Types, name: &str, item: ItemKind) -> Family
    requires { Stands types.now item }
    ensures { HasFamily types.now name.now item result }
{
    types.see_acyclic();
    if is_unnamed(types, item) {
        Family::Neither
    } else {
        family_of(types, name, item)
    }
}

/// What the first ask keeps: its item.
pub fn kept_first(item: ItemKind) -> Kept
    ensures keeps { KeepsFirst item result }
    ensures item { result.item ≡ item }
{
    Kept {
        several: false,
        item,
        family: None,
    }
}

/// What is kept where one ask stands before that asks the same under the same name.
pub fn kept_again(before: Kept) -> Kept
    ensures keeps { KeepsAgain before result }
    ensures item { result.item ≡ before.item }
{
    Kept {
        several: true,
        item: before.item,
        family: None,
    }
}

/// What is kept, with the family of the one ask that all are.
pub fn kept_with(before: Kept, family: Family) -> Kept
    ensures keeps { KeepsWith before family result }
    ensures item { result.item ≡ before.item }
    ensures family { result.family ≡ Some family }
{
    Kept {
        several: before.several,
        item: before.item,
        family: Some(family),
    }
}

/// What is kept after one more ask. The families are that of what is kept, and that of the ask.
pub fn kept_next(
    alloc: Global,
    types: &mut Types,
    before: Kept,
    family: Family,
    asked: ItemKind,
    asked_family: Family,
) -> Result<Kept, AggregateError>
    requires kept { Stands types.old before.item }
    requires asked { Stands types.old asked }
    ensures next { IfOk result (KeepsNext types.old before family asked asked_family types.new) }
    ensures stands { IfOk result (λ k. Stands types.new k.item) }
    ensures nothing { IfErr result (λ e. IfMerging e (KeepsNothing types.old before family asked asked_family)) }
    ensures tells { IfErr result (λ e. IfMerging e (TellsNext types.old before family asked asked_family e)) }
    ensures grows { Grows types.old types.new }
{
    types.see_acyclic();
    let joint = joint_family(family, asked_family);
    let item = kept_of(alloc, types, joint, before.item, asked)?;
    Ok(Kept {
        several: true,
        item,
        family: Some(joint),
    })
}

/// The outer import of what is kept: an instance that several ask for on a track is identified by the spelling.
pub fn kept_import(
    alloc: Global,
    types: &mut Types,
    kept: Kept,
    spelling: &str,
    on_track: bool,
) -> Result<ItemKind, AllocError>
    requires stands { Stands types.old kept.item }
    requires on_track { on_track ≡ has_track spelling.now }
    ensures spells { IfOk result (Spells types.old kept spelling.now types.new) }
    ensures stands { IfOk result (Stands types.new) }
    ensures grows { Grows types.old types.new }
{
    types.see_acyclic();
    if kept.several && on_track {
        spelled(alloc, types, kept.item, spelling)
    } else {
        Ok(kept.item)
    }
}
