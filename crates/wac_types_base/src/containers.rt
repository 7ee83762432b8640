//! Small owned containers that contracts see as plain lists. Each is made from the plain one, and gives it back,
//! without taking memory.

ghost use Rattle.std.specs.Prelude.{◌≡◌, ◌∷◌, ◌++◌, [], OnOk, OnErr, IfOk, IfErr, IfSome, IsTrue, ◌↔◌, length, slice_get, string_bytes, ◌==◌, map, is_some, ◌<◌, Some, not};
ghost use Rattle.std.specs.Cmp.Lexicographic.{pointwise};
ghost use Rattle.std.specs.Option.{option_copied};
ghost use Rattle.wac_types_base.specs.Entries.{entries_of, texts_of, names_of, values_of, value_at, put_entry, AreDistinct, IsNew, has_name, put_name};

use indexmap::{IndexMap, IndexSet};
use std::alloc::{AllocError, AllocFailed, Global};
use std::marker::Model;

/// A text, seen as its bytes.
#[derive(Drop)]
pub struct Text {
    string: String,
}

impl Model for Text {
    ghost use Rattle.std.specs.Prelude.{List, ℕ, string_bytes};

    ghost Value = { List ℕ };

    ghost view = { λ t. string_bytes t.string };
}

impl Text {
    /// This text.
    pub fn new(string: String) -> Self
        ensures { result ≡ string_bytes string }
    {
        Text { string }
    }

    /// A text of its own.
    pub fn from_str(alloc: Global, text: &str) -> Result<Self, AllocError>
        ensures { IfOk result (λ t. t ≡ text.now) }
    {
        Ok(Text::new(String::from_str(alloc, text)?))
    }

    /// The string.
    pub fn into_string(self) -> String
        ensures { string_bytes result ≡ self }
    {
        self.string
    }

    /// The text.
    pub fn as_str(&self) -> &str
        ensures { result.now ≡ self.now }
    {
        self.string.as_str()
    }

    /// Whether it is this text.
    pub fn is(&self, other: &str) -> bool
        ensures { result ≡ pointwise ◌==◌ self.now other.now }
    {
        self.string.as_str() == other
    }

    /// The same text again.
    pub fn copy(&self) -> Result<Self, AllocError>
        ensures { IfOk result (λ t. t ≡ self.now) }
    {
        Ok(Text {
            string: self.string.clone()?,
        })
    }
}

/// A list, seen as its items.
#[derive(Drop)]
pub struct Items<T> {
    vec: Vec<T>,
}

impl<T> Model for Items<T> {
    ghost use Rattle.std.specs.Prelude.{List};

    ghost Value = { List T };

    ghost view = { λ t. t.vec.items };
}

impl<T> Items<T> {
    /// No items.
    pub fn new(alloc: Global) -> Self
        ensures { result ≡ [] }
    {
        Items {
            vec: Vec::new(alloc),
        }
    }

    /// These items.
    pub fn from_vec(vec: Vec<T>) -> Self
        ensures { result ≡ vec.items }
    {
        Items { vec }
    }

    /// The items.
    pub fn into_vec(self) -> Vec<T>
        ensures { result.items ≡ self }
    {
        self.vec
    }

    /// The items.
    pub fn as_slice(&self) -> &[T]
        ensures { result.now ≡ self.now }
    {
        self.vec.as_slice()
    }

    /// How many items.
    pub fn len(&self) -> usize
        ensures { result ≡ length self.now }
    {
        self.vec.len()
    }

    /// Whether there are no items.
    pub fn is_empty(&self) -> bool
        ensures { IsTrue result ↔ (length self.now ≡ 0) }
    {
        self.vec.is_empty()
    }

    /// Adds an item at the end.
    pub fn push(&mut self, item: T) -> Result<(), AllocFailed<T>>
        ensures ok { OnOk result (self.new ≡ self.old ++ item ∷ []) }
        ensures err { OnErr result (self.new ≡ self.old) }
        ensures returned { IfErr result (λ e. e.value ≡ item) }
    {
        self.vec.push(item)
    }
}

/// A map from names in order of insertion, seen as the list of its entries. No name stands twice.
#[derive(Drop)]
pub struct NamedMap<T> {
    map: IndexMap<String, T>,
}

impl<T> Model for NamedMap<T> {
    ghost use Rattle.std.specs.Prelude.{List, ℕ};

    ghost Value = { List (List ℕ × T) };

    ghost use Rattle.wac_types_base.specs.Entries.{entries_of};

    ghost view = { λ m. entries_of m.map.entries };
}

impl<T> NamedMap<T> {
    /// An empty map.
    pub fn new(alloc: Global) -> Self
        ensures { result ≡ [] }
    {
        NamedMap {
            map: IndexMap::new(alloc),
        }
    }

    /// The entries of this map.
    pub fn from_map(map: IndexMap<String, T>) -> Self
        ensures { result ≡ entries_of map.entries }
    {
        NamedMap { map }
    }

    /// The map.
    pub fn into_map(self) -> IndexMap<String, T>
        ensures { entries_of result.entries ≡ self }
    {
        self.map
    }

    /// How many entries.
    pub fn len(&self) -> usize
        ensures len { result ≡ length self.now }
        ensures distinct { AreDistinct (names_of self.now) }
    {
        self.map.len()
    }

    /// Whether there are no entries.
    pub fn is_empty(&self) -> bool
        ensures { IsTrue result ↔ (length self.now ≡ 0) }
    {
        self.map.len() == 0
    }

    /// The values, in order.
    pub fn values(&self) -> &[T]
        ensures { result.now ≡ values_of self.now }
    {
        self.map.values().as_slice()
    }

    /// The names, in order.
    pub fn names(&self) -> &[String]
        ensures { texts_of result.now ≡ names_of self.now }
    {
        self.map.keys().as_slice()
    }

    /// The entry at a place.
    pub fn entry(&self, at: usize) -> (&str, &T)
        requires { at < length self.now }
        ensures { slice_get self.now at ≡ Some (result.0.now, result.1.now) }
    {
        (self.names()[at].as_str(), &self.values()[at])
    }

    /// Whether a name is there.
    pub fn contains(&self, name: &str) -> bool
        ensures { result ≡ is_some (value_at self.now name.now) }
    {
        self.get(name).is_some()
    }

    /// The value of a name.
    pub fn get(&self, name: &str) -> Option<&T>
        ensures { option_copied result ≡ value_at self.now name.now }
    {
        self.map.get(name)
    }
}

impl<T: Drop> NamedMap<T> {
    /// Puts a value under a name, behind the others where the name is new.
    pub fn insert(&mut self, name: String, value: T) -> Result<Option<T>, AllocFailed<(String, T)>>
        ensures ok { OnOk result (self.new ≡ put_entry self.old (string_bytes name) value) }
        ensures err { OnErr result (self.new ≡ self.old) }
    {
        let old = self.map.insert(name, value)?;
        Ok(old)
    }

    /// Adds an entry at the end. Its name is new.
    pub fn push(&mut self, name: String, value: T) -> Result<(), AllocError>
        requires { IsNew (string_bytes name) self.old }
        ensures ok { OnOk result (self.new ≡ self.old ++ (string_bytes name, value) ∷ []) }
        ensures err { OnErr result (self.new ≡ self.old) }
    {
        let _ = self.insert(name, value)?;
        Ok(())
    }
}

/// Names in order of insertion, seen as the list of them. No name stands twice.
#[derive(Drop)]
pub struct Names {
    set: IndexSet<String>,
}

impl Model for Names {
    ghost use Rattle.std.specs.Prelude.{List, ℕ};

    ghost Value = { List (List ℕ) };

    ghost use Rattle.wac_types_base.specs.Entries.{texts_of};

    ghost view = { λ s. texts_of s.set.keys };
}

impl Names {
    /// No names.
    pub fn new(alloc: Global) -> Self
        ensures { result ≡ [] }
    {
        Names {
            set: IndexSet::new(alloc),
        }
    }

    /// These names.
    pub fn from_set(set: IndexSet<String>) -> Self
        ensures { result ≡ texts_of set.keys }
    {
        Names { set }
    }

    /// The names.
    pub fn into_set(self) -> IndexSet<String>
        ensures { texts_of result.keys ≡ self }
    {
        self.set
    }

    /// How many names.
    pub fn len(&self) -> usize
        ensures len { result ≡ length self.now }
        ensures distinct { AreDistinct self.now }
    {
        self.set.len()
    }

    /// Whether there are no names.
    pub fn is_empty(&self) -> bool
        ensures { IsTrue result ↔ (length self.now ≡ 0) }
    {
        self.set.len() == 0
    }

    /// Whether a name is there.
    pub fn contains(&self, name: &str) -> bool
        ensures { result ≡ has_name self.now name.now }
    {
        self.set.contains(name)
    }

    /// Adds a name at the end, where it is new.
    pub fn insert(&mut self, name: String) -> Result<bool, AllocFailed<String>>
        ensures added { IfOk result (λ b. b ≡ not (has_name self.old (string_bytes name))) }
        ensures ok { OnOk result (self.new ≡ put_name self.old (string_bytes name)) }
        ensures err { OnErr result (self.new ≡ self.old) }
    {
        self.set.insert(name)
    }

    /// The same names again.
    pub fn copy(&self, alloc: Global) -> Result<Self, AllocError>
        ensures { IfOk result (λ n. n ≡ self.now) }
    {
        let mut copy = Names::new(alloc);
        for at in 0..self.len() {
            let name = self.as_slice()[at].clone()?;
            let _ = copy.insert(name)?;
        }
        Ok(copy)
    }

    /// The names, in order.
    pub fn as_slice(&self) -> &[String]
        ensures { texts_of result.now ≡ self.now }
    {
        self.set.as_slice()
    }
}
