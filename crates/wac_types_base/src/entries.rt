//! Entries of one kind, each kept once behind all indexes that were given for it.

ghost use Rattle.std.specs.Prelude.{◌≡◌, true, ◌<◌, ◌∷◌, ◌++◌, [], OnOk, OnErr, IfOk, length, slice_get, slice_set, Some, IsTrue, ◌↔◌};
ghost use Rattle.std.specs.Iterator.{YieldsFirstBy, item_count};
ghost use Rattle.wac_types_base.specs.Kept.{KeepsOnce};
ghost use Rattle.wac_types_base.specs.Entries.{AreDistinct, EachAmong};

use indexmap::IndexSet;
use std::alloc::{AllocError, Global};
use std::hash::Hash;
use std::marker::Model;

/// An entry that is kept once: two that are equal are one.
pub trait Once: Eq + Hash + Drop {
    ghost one: { (a b : Self) → Self.eq a b ≡ true → a ≡ b };
}

/// Entries of one kind, each kept once behind all indexes that were given for it.
#[derive(Drop)]
pub struct Entries<T: Once> {
    kept: IndexSet<T>,
    places: Vec<usize>,
}

impl<T: Once> Model for Entries<T> {
    ghost use Rattle.wac_types_base.specs.Kept.{Listed, listed, ArePlaces};

    ghost Value = { Listed T };

    ghost view = { λ e. listed e.kept.keys e.places.items };

    ghost invariant = { λ e. ArePlaces e.kept.keys e.places.items };
}

impl<T: Once> Entries<T> {
    /// No entries.
    pub fn new(alloc: Global) -> Self
        ensures { result ≡ record { given = []; kept = [] } }
    {
        Entries {
            kept: IndexSet::new(alloc),
            places: Vec::new(alloc),
        }
    }

    /// How many were given.
    pub fn len(&self) -> usize
        ensures { result ≡ length self.now.given }
    {
        self.places.len()
    }

    /// What is kept, in order of keeping.
    pub fn kept(&self) -> &[T]
        ensures kept { result.now ≡ self.now.kept }
        ensures distinct { AreDistinct self.now.kept }
        ensures given { EachAmong self.now.kept self.now.given }
    {
        self.kept.as_slice()
    }

    /// Whether one kept entry was given at two indexes.
    pub fn same_place(&self, a: usize, b: usize) -> bool
        requires first { a < length self.now.given }
        requires second { b < length self.now.given }
        ensures { IsTrue result ↔ (slice_get self.now.given a ≡ slice_get self.now.given b) }
    {
        let _ = self.kept();
        self.places[a] == self.places[b]
    }

    /// The entries, by index.
    pub fn iter(&self) -> EntryIter<'_, T>
        ensures { result ≡ self.now.given }
    {
        EntryIter {
            kept: self.kept.as_slice(),
            places: self.places.as_slice(),
        }
    }

    /// The entry that was given at an index.
    pub fn get(&self, at: usize) -> &T
        requires { at < length self.now.given }
        ensures { slice_get self.now.given at ≡ Some result.now }
    {
        &self.kept.as_slice()[self.places[at]]
    }

    /// Keeps an entry, unless an equal one is kept, and gives its place.
    fn keep(&mut self, entry: T) -> Result<usize, AllocError>
        ensures given { self.new.given ≡ self.old.given }
        ensures kept { OnOk result (KeepsOnce entry self.old.kept self.new.kept) }
        ensures place { IfOk result (λ p. slice_get self.new.kept p ≡ Some entry) }
        ensures err { OnErr result (self.new ≡ self.old) }
    {
        let (place, _) = self.kept.insert_full(entry)?;
        Ok(place)
    }

    /// Gives an entry one more index.
    pub fn push(&mut self, entry: T) -> Result<usize, AllocError>
        ensures given { OnOk result (self.new.given ≡ self.old.given ++ entry ∷ []) }
        ensures kept { OnOk result (KeepsOnce entry self.old.kept self.new.kept) }
        ensures index { IfOk result (λ i. i ≡ length self.old.given) }
        ensures err { OnErr result (self.new ≡ self.old) }
    {
        let index = self.places.len();
        self.places.reserve(1)?;
        let (place, _) = self.kept.insert_full(entry)?;
        self.places.push_reserved(place);
        Ok(index)
    }

    /// Gives an index another place.
    fn point(&mut self, at: usize, to: usize)
        requires at { at < length self.old.given }
        requires place { to < length self.old.kept }
        ensures kept { self.new.kept ≡ self.old.kept }
        ensures given { (x : T) → slice_get self.old.kept to ≡ Some x → self.new.given ≡ slice_set self.old.given at x }
    {
        self.places[at] = to;
    }

    /// Gives an index another entry. Nothing is written through the one that it had.
    pub fn put(&mut self, at: usize, entry: T) -> Result<(), AllocError>
        requires { at < length self.old.given }
        ensures given { OnOk result (self.new.given ≡ slice_set self.old.given at entry) }
        ensures kept { OnOk result (KeepsOnce entry self.old.kept self.new.kept) }
        ensures err { OnErr result (self.new ≡ self.old) }
    {
        let place = self.keep(entry)?;
        self.point(at, place);
        Ok(())
    }
}

/// Entries by index, seen as the list of those that are left.
#[derive(Drop)]
pub struct EntryIter<'a, T> {
    kept: &'a [T],
    places: &'a [usize],
}

impl<'a, T> Model for EntryIter<'a, T> {
    ghost use Rattle.std.specs.Prelude.{List, slice_get, filter_map};
    ghost use Rattle.wac_types_base.specs.Kept.{ArePlaces};

    ghost Value = { List T };

    ghost view = { λ it. filter_map (slice_get it.kept.now) it.places.now };

    ghost invariant = { λ it. ArePlaces it.kept.now it.places.now };
}

impl<'a, T> EntryIter<'a, T> {
    /// How many are left.
    pub fn len(&self) -> usize
        ensures { result ≡ length self.now }
    {
        self.places.len()
    }
}

impl<'a, T> Iterator for EntryIter<'a, T> {
    type Item = &'a T;

    ghost next_gives = { YieldsFirstBy (λ item. item.now) (λ rest. rest) };

    ghost remaining = { item_count (λ rest. rest) };

    fn next(&mut self) -> Option<&'a T> {
        let (place, rest) = self.places.split_first()?;
        self.places = rest;
        Some(&self.kept[*place])
    }
}
