//! The imports of an aggregator, each on a track of its own.

ghost use Rattle.std.specs.Prelude.{◌≡◌, ◌↔◌, ◌++◌, ◌∷◌, [], IsTrue, is_some, IfOk, IfErr, OnOk, Some, slice_get, option_map};
ghost use Rattle.semver.specs.Identifiers.{parts_of};
ghost use Rattle.wac_types_base.specs.declared.item.ItemKind.{ItemKind};
ghost use Rattle.wac_types_base.specs.Collection.{Stands, Grows};
ghost use Rattle.wac_types_names.specs.Tracks.{lookup_key, AreCompatible, IsLater, key_view};
ghost use Rattle.wac_types_names.specs.Versions.{version_cmp};
ghost use Rattle.wac_types_merge.specs.Errors.{Refuses, LeadsTo};
ghost use Rattle.wac_types_merge.specs.Families.{joint};
ghost use Rattle.wac_types_merge.specs.Interfaces.{MeetIn, LeadsIn};
ghost use Rattle.wac_types_merge.specs.United.{UnitesIn};
ghost use Rattle.wac_types_merge.specs.Imports.{IsPlace, IsGreater, IsSpelled, IsSpelledIf, IsNarrower};
ghost use Rattle.wac_types_merge.specs.Steps.{HasClash, LieOutside, IsMerged, IsSpelledImport};

use crate::cycle::merge;
use crate::error::{AggregateError, incompatible};
use crate::exports::rename_interface;
use crate::family::{Family, Import, joint_family};
use crate::narrower::narrower;
use semver::Version;
use std::alloc::{AllocError, Global};
use std::cmp::Ordering;
use wac_types_base::{ItemKind, Text, Types};
use wac_types_names::{alternate_lookup_key, are_semver_compatible};

/// Where the import of a name's track stands.
pub(crate) fn place_on(
    alloc: Global,
    imports: &[Import],
    name: &str,
) -> Result<Option<usize>, AllocError>
    ensures { IfOk result (IsPlace imports.now name.now) }
{
    for at in 0..imports.len() {
        if are_semver_compatible(alloc, imports[at].name.as_str(), name)? {
            return Ok(Some(at));
        }
    }
    Ok(None)
}

/// How two versions compare, build metadata included.
#[tactic(auto, unfolding(wac_types_names::specs::Versions::version_cmp))]
fn compared(a: &Version, b: &Version) -> Ordering
    ensures { result ≡ version_cmp (parts_of a.now) (parts_of b.now) }
{
    a.cmp(b)
}

/// Whether a name is on another's track, with a greater version.
fn is_later(alloc: Global, name: &str, other: &str) -> Result<bool, AllocError>
    ensures { IfOk result (λ r. IsTrue r ↔ IsLater name.now other.now) }
{
    match alternate_lookup_key(alloc, name)? {
        None => Ok(false),
        Some((track, version)) => match alternate_lookup_key(alloc, other)? {
            None => Ok(false),
            Some((other_track, other_version)) => {
                Ok(track == other_track && compared(&version, &other_version) == Ordering::Greater)
            }
        },
    }
}

/// The later of two names.
fn greater<'a>(alloc: Global, kept: &'a str, name: &'a str) -> Result<&'a str, AllocError>
    ensures { IfOk result (λ s. IsGreater kept.now name.now s.now) }
{
    if is_later(alloc, name, kept)? {
        Ok(name)
    } else {
        Ok(kept)
    }
}

/// Whether a name is on a track.
fn is_on_track(alloc: Global, name: &str) -> Result<bool, AllocError>
    ensures { IfOk result (λ r. r ≡ is_some (lookup_key name.now)) }
{
    let key = alternate_lookup_key(alloc, name)?;
    Ok(key.is_some())
}

/// The item, where it is an instance under this identifier.
pub fn spelled(
    alloc: Global,
    own: &mut Types,
    kind: ItemKind,
    name: &str,
) -> Result<ItemKind, AllocError>
    requires { Stands own.old kind }
    ensures spelled { IfOk result (IsSpelled own.old kind own.new name.now) }
    ensures grows { Grows own.old own.new }
{
    own.see_acyclic();
    match kind {
        ItemKind::Instance(id) => {
            let id = rename_interface(alloc, own, id, name)?;
            Ok(ItemKind::Instance(id))
        }
        _ => Ok(kind),
    }
}

/// What is kept of two items: of one family their greatest common item, else the narrower.
pub fn kept_of(
    alloc: Global,
    own: &mut Types,
    family: Family,
    kept: ItemKind,
    asked: ItemKind,
) -> Result<ItemKind, AggregateError>
    requires kept { Stands own.old kept }
    requires asked { Stands own.old asked }
    ensures kept { IfOk result (MeetIn own.old kept asked own.new) }
    ensures united { IfOk result (λ k. (family ≡ Family.Neither → ⊥) → UnitesIn own.old kept asked own.new k) }
    ensures narrower { IfOk result (λ k. family ≡ Family.Neither → IsNarrower own.old kept asked k) }
    ensures refused { IfErr result
        (λ e. Refuses e (HasClash own.old family kept asked) (LieOutside own.old family kept asked) ⊥) }
    ensures frames { IfErr result (λ e. LeadsTo e (LeadsIn own.old kept asked)) }
    ensures grows { Grows own.old own.new }
{
    own.see_acyclic();
    match family {
        Family::Neither => narrower(alloc, own, kept, asked),
        _ => match merge(alloc, own, kept, asked) {
            Ok(kind) => Ok(kind),
            Err(fault) => Err(incompatible(fault)),
        },
    }
}

/// The item, under this identifier where that is asked for.
fn spelled_if(
    alloc: Global,
    own: &mut Types,
    asked: bool,
    kind: ItemKind,
    name: &str,
) -> Result<ItemKind, AllocError>
    requires { Stands own.old kind }
    ensures spelled { IfOk result (IsSpelledIf own.old kind own.new name.now asked) }
    ensures grows { Grows own.old own.new }
{
    own.see_acyclic();
    if asked {
        spelled(alloc, own, kind, name)
    } else {
        Ok(kind)
    }
}

/// An import of an item, under the later of two names.
fn spelled_import(
    alloc: Global,
    own: &mut Types,
    before: &str,
    name: &str,
    kind: ItemKind,
    family: Family,
) -> Result<Import, AllocError>
    requires { Stands own.old kind }
    ensures import { IfOk result (IsSpelledImport own.old before.now name.now kind family own.new) }
    ensures grows { Grows own.old own.new }
{
    own.see_acyclic();
    let spelling = greater(alloc, before, name)?;
    let on_track = is_on_track(alloc, name)?;
    let kind = spelled_if(alloc, own, on_track, kind, spelling)?;
    let name = Text::new(String::from_str(alloc, spelling)?);
    Ok(Import { name, kind, family })
}

/// The import of a track after one more ask: what is kept, under the later name.
pub(crate) fn merged_import(
    alloc: Global,
    own: &mut Types,
    before: &Import,
    name: &str,
    asked: ItemKind,
    family: Family,
) -> Result<Import, AggregateError>
    requires kept { Stands own.old before.now.kind }
    requires asked { Stands own.old asked }
    ensures merged { IfOk result (IsMerged own.old before.now name.now asked family own.new) }
    ensures refused { IfErr result (λ e. Refuses e (HasClash own.old (joint before.now.family family) before.now.kind asked)
        (LieOutside own.old (joint before.now.family family) before.now.kind asked) ⊥) }
    ensures frames { IfErr result (λ e. LeadsTo e (LeadsIn own.old before.now.kind asked)) }
    ensures grows { OnOk result (Grows own.old own.new) }
{
    let both = joint_family(before.family, family);
    let kept = kept_of(alloc, own, both, before.kind, asked)?;
    let import = spelled_import(alloc, own, before.name.as_str(), name, kept, both)?;
    Ok(import)
}
