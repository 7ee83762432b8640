//! Lists in the order of their keys.

ghost use Rattle.std.specs.Prelude.{◌≡◌, ◌<◌, ◌≤◌, ◌+◌, insert, remove, [], OnOk, IfOk, IfErr, length, map, vec_len, vec_capacity};
ghost use Rattle.std.specs.List.Retain.{IsFiltered};
ghost use Rattle.std.specs.Fn.{CalledAt};
ghost use Rattle.std.specs.List.Sorted.{IsStrictlySortedBy};
ghost use Rattle.wac_graph_core.specs.Sorted.{IsAt, Belongs, IsWithinDigits};

use crate::order::KeyOrder;
use std::alloc::{AllocError, Global};
use std::cmp::Ordering;
use std::marker::{Model, PhantomData};

/// Values under keys, which rise in the order.
#[derive(Drop)]
pub struct SortedList<K, V, C: KeyOrder<K>> {
    entries: Vec<(K, V)>,
    order: PhantomData<C>,
}

impl<K, V, C: KeyOrder<K>> Model for SortedList<K, V, C> {
    ghost use Rattle.std.specs.Prelude.{map};
    ghost use Rattle.std.specs.Global.{Vec};
    ghost use Rattle.std.specs.List.Sorted.{IsStrictlySortedBy};

    ghost Value = { Vec (K × V) };

    ghost view = { λ s. s.entries };

    ghost invariant = { λ s. IsStrictlySortedBy C.order (map (λ e. e.0) s.entries.items) };
}

impl<K, V, C: KeyOrder<K>> SortedList<K, V, C> {
    /// No entries.
    pub fn new(alloc: Global) -> Self
        ensures { result.items ≡ [] }
    {
        SortedList {
            entries: Vec::new(alloc),
            order: PhantomData,
        }
    }

    /// Entries whose keys rise.
    pub fn from_sorted(entries: Vec<(K, V)>) -> Self
        requires { IsStrictlySortedBy C.order (map (λ e. e.0) entries.items) }
        ensures { result ≡ entries }
    {
        SortedList {
            entries,
            order: PhantomData,
        }
    }

    /// What holds of each list: its keys rise. It does nothing: its contract tells so.
    pub fn see_sorted(&self)
        ensures { IsStrictlySortedBy C.order (map (λ e. e.0) self.now.items) }
    {
        let _ = &self.entries;
    }

    /// The entries.
    pub fn as_slice(&self) -> &[(K, V)]
        ensures value { result.now ≡ self.now.items }
    {
        self.entries.as_slice()
    }

    /// The place of a key, or where it belongs.
    pub fn search(&self, key: &K, order: &mut C) -> Result<usize, usize>
        ensures found { IfOk result (IsAt C.order self.now.items key.now) }
        ensures absent { IfErr result (Belongs C.order self.now.items key.now) }
        ensures counted { IsWithinDigits (C.count order.old) (C.count order.new) (length self.now.items) }
    {
        place_in(self.entries.as_slice(), key, order)
    }

    /// Makes room for so many entries more.
    pub fn reserve(&mut self, additional: usize) -> Result<(), AllocError>
        ensures items { self.new.items ≡ self.old.items }
        ensures len { vec_len self.new ≡ vec_len self.old }
        ensures capacity { vec_capacity self.old ≤ vec_capacity self.new }
        ensures room { OnOk result (vec_len self.new + additional ≤ vec_capacity self.new) }
    {
        self.entries.reserve(additional)
    }

    /// Puts an entry, for which there is room, where its key belongs.
    pub fn insert_reserved(&mut self, place: usize, key: K, value: V)
    where
        K: Drop,
        V: Drop,
        requires belongs { Belongs C.order self.old.items key place }
        requires room { vec_len self.old < vec_capacity self.old }
        ensures items { self.new.items ≡ insert self.old.items place (key, value) }
        ensures len { vec_len self.new ≡ vec_len self.old + 1 }
        ensures capacity { vec_capacity self.new ≡ vec_capacity self.old }
    {
        match self.entries.insert(place, (key, value)) {
            Ok(()) => {}
            Err(_) => unreachable!(),
        }
    }

    /// Takes out an entry.
    pub fn remove_at(&mut self, place: usize) -> (K, V)
        requires { place < length self.old.items }
        ensures { self.new.items ≡ remove self.old.items place }
    {
        self.entries.remove(place)
    }

    /// Keeps the entries that pass the test.
    pub fn retain<F: FnMut(&(K, V)) -> bool>(&mut self, keep: F)
    where
        K: Drop,
        V: Drop,
        requires { F.IsAlwaysCallable keep }
        ensures { IsFiltered (CalledAt F.FnMut) keep self.old.items self.new.items }
    {
        self.entries.retain(keep);
    }
}

/// The place of a key among entries whose keys rise, or where it belongs.
fn place_in<K, V, C: KeyOrder<K>>(
    entries: &[(K, V)],
    key: &K,
    order: &mut C,
) -> Result<usize, usize>
    requires { IsStrictlySortedBy C.order (map (λ e. e.0) entries.now) }
    ensures found { IfOk result (IsAt C.order entries.now key.now) }
    ensures absent { IfErr result (Belongs C.order entries.now key.now) }
    ensures counted { IsWithinDigits (C.count order.old) (C.count order.new) (length entries.now) }
{
    let mut low = 0;
    let mut high = entries.len();
    while low < high {
        let mid = low + (high - low) / 2;
        match order.compare(&entries[mid].0, key) {
            Ordering::Equal => return Ok(mid),
            Ordering::Less => low = mid + 1,
            Ordering::Greater => high = mid,
        }
    }
    Err(low)
}
