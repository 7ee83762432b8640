//! The narrower of two items.

ghost use Rattle.std.specs.Prelude.{IfOk, IfErr, OnOk};
ghost use Rattle.wac_types_base.specs.Collection.{Stands};
ghost use Rattle.wac_types_fit.specs.Trees.{Fit};
ghost use Rattle.wac_types_merge.specs.Errors.{IfClash, IfLeads, Refuses};
ghost use Rattle.wac_types_merge.specs.Interfaces.{LeadsIn};
ghost use Rattle.wac_types_merge.specs.Imports.{IsNarrower, NeitherFits};

use crate::error::AggregateError;
use std::alloc::Global;
use wac_types_base::{ItemKind, Types};
use wac_types_fit::{SubtypeChecker, SubtypeError, new_cache};

/// Whether an item fits another of its collection. No pair is remembered.
pub(crate) fn fits_in(
    alloc: Global,
    own: &Types,
    a: ItemKind,
    b: ItemKind,
) -> Result<(), SubtypeError>
    requires given { Stands own.now a }
    requires asked { Stands own.now b }
    ensures yes { OnOk result (Fit own.now a own.now b) }
    ensures no { IfClash result (Fit own.now a own.now b → ⊥) }
    ensures frames { IfLeads result (LeadsIn own.now a b) }
{
    let mut cache = new_cache(alloc);
    let mut checker = SubtypeChecker::new(alloc, &mut cache);
    checker.is_subtype(a, own, b, own)
}

/// The item asked, where it fits the one kept, which does not fit it.
fn asked_if_narrower(
    alloc: Global,
    own: &Types,
    kept: ItemKind,
    asked: ItemKind,
) -> Result<ItemKind, AggregateError>
    requires kept { Stands own.now kept }
    requires asked { Stands own.now asked }
    requires wider { Fit own.now kept own.now asked → ⊥ }
    ensures narrower { IfOk result (IsNarrower own.now kept asked) }
    ensures refused { IfErr result (λ e. Refuses e ⊥ (NeitherFits own.now kept asked) ⊥) }
{
    match fits_in(alloc, own, asked, kept) {
        Ok(()) => Ok(asked),
        Err(SubtypeError::Memory) => Err(AggregateError::Memory),
        Err(SubtypeError::Mismatch { .. }) => Err(AggregateError::OutsideFamilies),
    }
}

/// The narrower of two items: the first, where it fits the second.
pub(crate) fn narrower(
    alloc: Global,
    own: &Types,
    kept: ItemKind,
    asked: ItemKind,
) -> Result<ItemKind, AggregateError>
    requires kept { Stands own.now kept }
    requires asked { Stands own.now asked }
    ensures narrower { IfOk result (IsNarrower own.now kept asked) }
    ensures refused { IfErr result (λ e. Refuses e ⊥ (NeitherFits own.now kept asked) ⊥) }
{
    match fits_in(alloc, own, kept, asked) {
        Ok(()) => Ok(kept),
        Err(SubtypeError::Memory) => Err(AggregateError::Memory),
        Err(SubtypeError::Mismatch { .. }) => asked_if_narrower(alloc, own, kept, asked),
    }
}
