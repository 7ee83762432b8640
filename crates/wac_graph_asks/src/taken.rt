//! What the classes of asks keep, as one ask is taken after another.

ghost use Rattle.std.specs.Prelude.{◌≡◌, ◌<◌, [], Some, IsTrue, IfOk, IfErr, OnOk, length, slice_get};
ghost use Rattle.wac_types_base.specs.Collection.{Stands, Grows};
ghost use Rattle.wac_graph_asks.specs.declared.asks.Ask.{Ask};
ghost use Rattle.wac_graph_asks.specs.Takes.{AsksSame, IfConflict, IsMerging, KeepsMore, KeepsNone, NamesConflict, RefusesAll, RefusesAt, RefusesMore, RefusesOne, TakesMore, TakesOne, Takes, TakesAll};
ghost use Rattle.wac_merging.specs.Kept.{IfMerging};

use crate::asks::{Ask, Asking};
use crate::classes::place_at;
use crate::error::OuterError;
use indexmap::IndexMap;
use std::alloc::{AllocError, Global};
use wac_graph_core::NodeId;
use wac_merging::{Kept, family_asked, kept_again, kept_first, kept_next, kept_with};
use wac_types_base::Types;
use wac_types_merge::AggregateError;

/// What is kept of a class.
#[derive(Clone, Copy)]
pub(crate) struct Taken {
    /// The place of its first ask.
    pub(crate) first: usize,
    pub(crate) kept: Kept,
}

/// The refusal of an ask that does not merge with what is kept of its class.
fn merge_fault(
    alloc: Global,
    ask: &Ask,
    first: NodeId,
    source: AggregateError,
) -> Result<OuterError, AllocError>
    requires { IsMerging source }
    ensures { IfOk result (NamesConflict ask.now first source) }
{
    let name = String::from_str(alloc, ask.name.as_str())?;
    match ask.asking {
        Asking::ByName => Ok(OuterError::ExplicitImportConflict {
            name,
            first,
            second: ask.by,
        }),
        _ => Ok(OuterError::ImportTypeMergeConflict {
            import: name,
            first,
            second: ask.by,
            source,
        }),
    }
}

/// Whether the second asks the same under the same name.
fn is_again(first: &Ask, ask: &Ask) -> bool
    ensures { IsTrue result → AsksSame first.now ask.now }
{
    first.item == ask.item && first.name.is(ask.name.as_str())
}

/// The ask at that place, or else this one.
fn ask_at<'a>(asks: &'a [Ask], at: usize, ask: &'a Ask) -> &'a Ask
    ensures { (x : Ask) → slice_get asks.now at ≡ Some x → result.now ≡ x }
{
    match asks.get(at) {
        Some(first) => first,
        None => ask,
    }
}

/// What is kept after one more ask; the first one is among those before it.
fn kept_more(
    alloc: Global,
    types: &mut Types,
    before: Kept,
    first: &Ask,
    ask: &Ask,
) -> Result<Kept, AggregateError>
    requires kept { Stands types.old before.item }
    requires asked { Stands types.old ask.now.item }
    ensures more { IfOk result (KeepsMore types.old before first.now ask.now types.new) }
    ensures none { IfErr result (λ e. IfMerging e (KeepsNone types.old before first.now ask.now e)) }
    ensures grows { Grows types.old types.new }
{
    types.see_acyclic();
    let asked = family_asked(types, ask.name.as_str(), ask.item);
    match before.family {
        Some(family) => kept_next(alloc, types, before, family, ask.item, asked),
        None => {
            let family = family_asked(types, first.name.as_str(), before.item);
            let before = kept_with(before, family);
            kept_next(alloc, types, before, family, ask.item, asked)
        }
    }
}

/// What is kept after one more ask, which may be the first one again.
fn kept_after(
    alloc: Global,
    types: &mut Types,
    before: Kept,
    first: &Ask,
    ask: &Ask,
) -> Result<Kept, AggregateError>
    ensures more { IfOk result (KeepsMore types.old before first.now ask.now types.new) }
    ensures none { IfErr result (λ e. IfMerging e (KeepsNone types.old before first.now ask.now e)) }
    ensures grows { Grows types.old types.new }
{
    types.see_acyclic();
    if before.family.is_none() && is_again(first, ask) {
        return Ok(kept_again(before));
    }
    if !types.has(before.item) {
        return Err(AggregateError::OutsideFamilies);
    }
    if !types.has(ask.item) {
        return Err(AggregateError::OutsideFamilies);
    }
    kept_more(alloc, types, before, first, ask)
}

/// What is kept of a class after one more ask of it.
fn taken_more(
    alloc: Global,
    types: &mut Types,
    asks: &[Ask],
    before: Taken,
    ask: &Ask,
) -> Result<Taken, OuterError>
    ensures more { IfOk result (TakesMore types.old asks.now before ask.now types.new) }
    ensures refused { IfErr result (λ e. IfConflict e (RefusesMore types.old asks.now before ask.now)) }
    ensures grows { Grows types.old types.new }
{
    let first = ask_at(asks, before.first, ask);
    match kept_after(alloc, types, before.kept, first, ask) {
        Ok(kept) => Ok(Taken {
            first: before.first,
            kept,
        }),
        Err(AggregateError::Memory) => Err(OuterError::Memory),
        Err(source) => {
            let fault = merge_fault(alloc, ask, first.by, source)?;
            Err(fault)
        }
    }
}

/// What is kept of a class with one ask more, which may be its first one.
fn taken_with(
    alloc: Global,
    types: &mut Types,
    asks: &[Ask],
    before: Option<Taken>,
    at: usize,
    ask: &Ask,
) -> Result<Taken, OuterError>
    ensures one { IfOk result (TakesOne types.old asks.now before at ask.now types.new) }
    ensures refused { IfErr result (λ e. IfConflict e (RefusesOne types.old asks.now before ask.now)) }
    ensures grows { Grows types.old types.new }
{
    types.see_acyclic();
    match before {
        Some(before) => taken_more(alloc, types, asks, before, ask),
        None => Ok(Taken {
            first: at,
            kept: kept_first(ask.item),
        }),
    }
}

/// Takes the ask at that place into what is kept of its class.
fn take(
    alloc: Global,
    types: &mut Types,
    asks: &[Ask],
    at: usize,
    class: usize,
    taken: &mut IndexMap<usize, Taken>,
) -> Result<(), OuterError>
    requires { at < length asks.now }
    ensures takes { OnOk result (Takes types.old asks.now at class taken.old.entries types.new taken.new.entries) }
    ensures refused { IfErr result (λ e. IfConflict e (RefusesAt types.old asks.now at class taken.old.entries)) }
    ensures grows { Grows types.old types.new }
{
    types.see_acyclic();
    let before = taken.get(&class).copied();
    let after = taken_with(alloc, types, asks, before, at, &asks[at])?;
    let _ = taken.insert(class, after)?;
    Ok(())
}

/// Takes all asks.
fn take_all(
    alloc: Global,
    types: &mut Types,
    asks: &[Ask],
    labels: &[usize],
    taken: &mut IndexMap<usize, Taken>,
) -> Result<(), OuterError>
    requires { taken.old.entries ≡ [] }
    ensures takes { OnOk result (TakesAll types.old asks.now labels.now types.new taken.new.entries) }
    ensures refused { IfErr result (λ e. IfConflict e (RefusesAll types.old asks.now labels.now)) }
    ensures grows { Grows types.old types.new }
{
    types.see_acyclic();
    for at in 0..asks.len() {
        take(alloc, types, asks, at, place_at(labels, at), taken)?;
    }
    Ok(())
}

/// What is kept of each class, in asking order.
pub(crate) fn all_taken(
    alloc: Global,
    types: &mut Types,
    asks: &[Ask],
    labels: &[usize],
) -> Result<IndexMap<usize, Taken>, OuterError>
    ensures takes { IfOk result (λ taken. TakesAll types.old asks.now labels.now types.new taken.entries) }
    ensures refused { IfErr result (λ e. IfConflict e (RefusesAll types.old asks.now labels.now)) }
    ensures grows { Grows types.old types.new }
{
    let mut taken = IndexMap::new(alloc);
    take_all(alloc, types, asks, labels, &mut taken)?;
    Ok(taken)
}
