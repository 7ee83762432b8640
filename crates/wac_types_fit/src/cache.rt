//! The pairs that are known to fit.

ghost use Rattle.std.specs.Prelude.{◌≡◌, IsTrue, OnOk, []};
ghost use Rattle.wac_types_base.specs.declared.item.ItemKind.{ItemKind};
ghost use Rattle.wac_types_base.specs.Record.{Collection};
ghost use Rattle.wac_types_fit.specs.Checking.{HasPair, OnlyMore, IsTrueOf};

use std::alloc::{AllocError, Global};
use std::collections::HashSet;
use wac_types_base::ItemKind;
use wac_types_base::replace::is_same;

/// The pairs that are known to fit.
pub type Cache = HashSet<(ItemKind, ItemKind)>;

/// Whether the pair is known to fit.
pub(crate) fn knows(cache: &Cache, a: ItemKind, b: ItemKind) -> bool
    ensures { IsTrue result → HasPair cache.now.keys a b }
{
    match cache.get(&(a, b)) {
        Some(pair) => is_same(pair.0, a) && is_same(pair.1, b),
        None => false,
    }
}

/// Remembers that the pair fits.
pub(crate) fn remember(cache: &mut Cache, a: ItemKind, b: ItemKind) -> Result<(), AllocError>
    ensures only { OnlyMore cache.old.keys cache.new.keys a b }
    ensures remembered { OnOk result (HasPair cache.new.keys a b) }
{
    let _ = cache.replace((a, b))?;
    Ok(())
}

/// A cache of no pairs. It is true of all collections.
pub fn new_cache(alloc: Global) -> Cache
    ensures empty { result.keys ≡ [] }
    ensures true_of_all { (c d : Collection) → IsTrueOf c d result.keys }
{
    HashSet::new(alloc)
}
