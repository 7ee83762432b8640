//! One import for each track of names, of all that is asked.

ghost use Rattle.std.specs.Prelude.{◌≡◌, ◌<◌, ◌++◌, ◌∷◌, [], IfOk, IfErr, OnOk, length, slice_set};
ghost use Rattle.std.specs.Slice.Iter.{iter_rest};
ghost use Rattle.std.specs.Iterator.Adapters.{IterYieldsInOrder};
ghost use Rattle.wac_types_base.specs.Collection.{Stands, empty};
ghost use Rattle.wac_types_merge.specs.Imports.{AreSound, IsCanonical, import_of, imports_in};
ghost use Rattle.wac_types_merge.specs.Errors.{LeadsTo};
ghost use Rattle.wac_types_merge.specs.Merging.{ask_for, IsAsked, IsRefused, LeadApart};
ghost use Rattle.wac_types_merge.specs.Lists.{Merges, AreAsked, none_yet, asks_of, AsksStand, IsListRefused};

use crate::error::AggregateError;
use crate::family::{Family, Import, family_of, uses_unnamed};
use crate::imports::{merged_import, place_on};
use std::alloc::{AllocError, Global};
use std::marker::Model;
use std::slice::Iter;
use wac_types_base::copy::copy_item;
use wac_types_base::{ItemKind, Text, Types};
use wac_types_fit::SubtypeChecker;

/// The imports of all that is asked, one for each track, in a collection of its own.
#[derive(Drop)]
pub struct TypeAggregator {
    types: Types,
    imports: Vec<Import>,
}

impl Model for TypeAggregator {
    ghost use Rattle.wac_types_merge.specs.Imports.{Imports};

    ghost Value = { Imports };

    ghost use Rattle.wac_types_merge.specs.Seen.{seen, IsSound};

    ghost view = { seen };

    ghost invariant = { IsSound };
}

impl TypeAggregator {
    /// No imports, and a collection of this number.
    pub fn new(alloc: Global, number: u64) -> Self
        ensures { result ≡ record { types = empty number; kept = [] } }
    {
        TypeAggregator {
            types: Types::new(alloc, number),
            imports: Vec::new(alloc),
        }
    }

    /// The collection.
    pub fn types(&self) -> &Types
        ensures { result.now ≡ self.now.types }
    {
        &self.types
    }

    /// The imports, by the first ask on their tracks. Each stands in the collection.
    pub fn imports(&self) -> Iter<'_, Import>
        ensures rest { iter_rest result ≡ self.now.kept }
        ensures runs { IterYieldsInOrder Import }
        ensures sound { AreSound self.now }
    {
        self.imports.iter()
    }

    /// The name that stands on a name's track, else the name.
    pub fn canonical_import_name<'a>(
        &'a self,
        alloc: Global,
        name: &'a str,
    ) -> Result<&'a str, AllocError>
        ensures { IfOk result (λ s. IsCanonical self.now.kept name.now s.now) }
    {
        match place_on(alloc, self.imports.as_slice(), name)? {
            None => Ok(name),
            Some(at) => Ok(self.imports[at].name.as_str()),
        }
    }

    /// Adds an ask. What a checker remembers stays as it is. A refusal consumes the aggregator.
    pub fn aggregate(
        self,
        alloc: Global,
        name: &str,
        types: &Types,
        kind: ItemKind,
        checker: &mut SubtypeChecker<'_>,
    ) -> Result<Self, AggregateError>
        requires { Stands types.now kind }
        ensures asked { IfOk result (IsAsked self (ask_for name.now types.now kind)) }
        ensures sound { AreSound self }
        ensures sound_after { IfOk result AreSound }
        ensures refused { IfErr result (IsRefused self (ask_for name.now types.now kind)) }
        ensures frames { IfErr result (λ e. LeadsTo e (LeadApart self (ask_for name.now types.now kind))) }
        ensures cache { checker.new.cache.now ≡ checker.old.cache.now }
        ensures directions { checker.new.directions ≡ checker.old.directions }
        ensures same_reference { checker.new.cache.ghost_name ≡ checker.old.cache.ghost_name }
    {
        let _ = checker.directions();
        self.with_ask(alloc, name, types, kind)
    }
}

/// Adds the import of an ask that is the first on its track.
fn add_first(
    alloc: Global,
    imports: &mut Vec<Import>,
    name: &str,
    kind: ItemKind,
    family: Family,
) -> Result<(), AllocError>
    ensures { OnOk result (imports.new.items ≡ imports.old.items ++ import_of name.now kind family ∷ []) }
{
    let name = Text::new(String::from_str(alloc, name)?);
    imports.push(Import { name, kind, family })?;
    Ok(())
}

/// Puts an import in the place of another.
fn replace_import(imports: &mut Vec<Import>, at: usize, import: Import)
    requires { at < length imports.old.items }
    ensures { imports.new.items ≡ slice_set imports.old.items at import }
{
    imports[at] = import;
}

/// Adds an ask to imports of this collection.
fn take_ask(
    alloc: Global,
    own: &mut Types,
    imports: &mut Vec<Import>,
    name: &str,
    types: &Types,
    kind: ItemKind,
) -> Result<(), AggregateError>
    requires stands { Stands types.now kind }
    requires sound { AreSound (imports_in own.old imports.old.items) }
    ensures asked { OnOk result (IsAsked (imports_in own.old imports.old.items) (ask_for name.now types.now kind)
        (imports_in own.new imports.new.items)) }
    ensures sound { OnOk result (AreSound (imports_in own.new imports.new.items)) }
    ensures refused { IfErr result (IsRefused (imports_in own.old imports.old.items) (ask_for name.now types.now kind)) }
    ensures frames { IfErr result
        (λ e. LeadsTo e (LeadApart (imports_in own.old imports.old.items) (ask_for name.now types.now kind))) }
{
    types.see_acyclic();
    own.see_acyclic();
    if uses_unnamed(types, kind) {
        return Err(AggregateError::UsedWithoutIdentifier);
    }
    let family = family_of(types, name, kind);
    let asked = copy_item(alloc, types, kind, own)?;
    match place_on(alloc, imports.as_slice(), name)? {
        None => {
            add_first(alloc, imports, name, asked, family)?;
            Ok(())
        }
        Some(at) => {
            let after = merged_import(alloc, own, &imports[at], name, asked, family)?;
            replace_import(imports, at, after);
            Ok(())
        }
    }
}

impl TypeAggregator {
    /// Adds an ask.
    fn with_ask(
        self,
        alloc: Global,
        name: &str,
        types: &Types,
        kind: ItemKind,
    ) -> Result<Self, AggregateError>
        requires { Stands types.now kind }
        ensures asked { IfOk result (IsAsked self (ask_for name.now types.now kind)) }
        ensures sound { AreSound self }
        ensures sound_after { IfOk result AreSound }
        ensures refused { IfErr result (IsRefused self (ask_for name.now types.now kind)) }
        ensures frames { IfErr result (λ e. LeadsTo e (LeadApart self (ask_for name.now types.now kind))) }
    {
        let TypeAggregator {
            types: mut own,
            mut imports,
        } = self;
        take_ask(alloc, &mut own, &mut imports, name, types, kind)?;
        Ok(TypeAggregator {
            types: own,
            imports,
        })
    }
}

/// The aggregator of a list of asks, in order.
pub fn aggregate_all(
    alloc: Global,
    number: u64,
    asks: &[(&str, &Types, ItemKind)],
) -> Result<TypeAggregator, AggregateError>
    requires { AsksStand (asks_of asks.now) }
    ensures asked { IfOk result (AreAsked (none_yet number) (asks_of asks.now)) }
    ensures merged { IfOk result (Merges (asks_of asks.now)) }
    ensures number { IfOk result (λ g. g.types.number ≡ number) }
    ensures refused { IfErr result (IsListRefused number (asks_of asks.now)) }
{
    let mut all = TypeAggregator::new(alloc, number);
    for &(name, types, kind) in asks {
        all = all.with_ask(alloc, name, types, kind)?;
    }
    Ok(all)
}
