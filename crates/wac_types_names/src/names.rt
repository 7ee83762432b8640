//! Names on version tracks, and maps from names.

ghost use Rattle.std.specs.Prelude.{◌≡◌, ◌≢◌, ◌↔◌, ℕ, List, Option, Some, None, Ok, Err, [], ◌∷◌, ◌++◌, false, true, IsOk, OnOk, OnErr, IfOk, IfErr, IfSome, length, option_map, option_copied, is_some, map, string_bytes};
ghost use Rattle.std.specs.Map.{lookup};
ghost use Rattle.std.specs.Map.Iter.{ShowsInOrder, deref_pair};
ghost use Rattle.wac_types_base.specs.Entries.{Name, IsNew, names_of, put_entry, AreDistinct};
ghost use Rattle.wac_types_base.specs.Graph.{Among};
ghost use Rattle.wac_types_names.specs.NameMaps.{by_name, by_key, KnowsKeys, HasOneKey, KeysLast, Gives, put_value, IsExact, IsLatestOn};

use crate::spelling::{Spelling, latest_on};
pub use crate::track::{alternate_lookup_key, are_semver_compatible, is_track};
use indexmap::IndexMap;
use indexmap::map::Iter;
use std::alloc::{AllocError, AllocFailed, Global};
use std::error::Error;
use std::fmt;
use std::hash::Hash;
use std::marker::Model;

/// Why a name is not put into a map.
#[derive(Clone, Copy, Debug, PartialEq, Eq)]
pub enum NameMapError {
    /// The name is there already.
    Duplicate,
    /// There was no memory.
    Memory,
}

impl fmt::Display for NameMapError {
    fn fmt<W: fmt::Write>(&self, f: &mut fmt::Formatter<W>) -> fmt::Result {
        f.write_str(match self {
            NameMapError::Duplicate => "the name is defined twice",
            NameMapError::Memory => "out of memory",
        })
    }
}

impl Error for NameMapError {}

impl From<AllocError> for NameMapError {
    ghost use Rattle.std.specs.Prelude.{◌≡◌};
    ghost use Rattle.wac_types_names.specs.declared.names.NameMapError.TheVariants as fault;

    ghost from_gives = { λ _ e. e ≡ fault.Memory };

    fn from(_e: AllocError) -> NameMapError {
        NameMapError::Memory
    }
}

impl<T: Drop> From<AllocFailed<T>> for NameMapError {
    ghost use Rattle.std.specs.Prelude.{◌≡◌};
    ghost use Rattle.wac_types_names.specs.declared.names.NameMapError.TheVariants as fault;

    ghost from_gives = { λ _ e. e ≡ fault.Memory };

    fn from(_e: AllocFailed<T>) -> NameMapError {
        NameMapError::Memory
    }
}

/// What gives texts their keys. It only grows: a key that stood for a text stands for it ever after, and two keys are
/// equal exactly where their texts are.
pub trait NameMapIntern {
    type Key: Clone + Eq;

    // the text that a key stands for, if it is a key that was given
    ghost text_of: { Self → Self.Key → Option (List ℕ) };

    /// The key of a text, new where the text is.
    fn intern(&mut self, alloc: Global, text: &str) -> Result<Self::Key, AllocError>
        ensures key { IfOk result (λ k. text_of self.new k ≡ Some text.now) }
        ensures lasting { KeysLast (text_of self.old) (text_of self.new) };

    /// The key of a text, if it has one.
    fn lookup(&self, alloc: Global, text: &str) -> Result<Option<Self::Key>, AllocError>
        ensures found { IfOk result (λ o. IfSome o (λ k. text_of self.now k ≡ Some text.now)) }
        ensures absent { result ≡ Ok None → (k : Self.Key) → text_of self.now k ≢ Some text.now };

    ghost one_text: { (i : Self) (k l : Self.Key) (s t : List ℕ) → text_of i k ≡ Some s → text_of i l ≡ Some t
        → (Self.Key.Eq.eq k l ≡ true) ↔ (s ≡ t) };

    ghost clone_text: { (i : Self) (k l : Self.Key) → Self.Key.is_clone k l → text_of i l ≡ text_of i k };
}

/// An interner whose keys are the texts themselves.
#[derive(Clone, Copy, Debug, Default)]
pub struct NameMapNoIntern;

impl NameMapIntern for NameMapNoIntern {
    ghost use Rattle.std.specs.Prelude.{Some, string_bytes};
    ghost use Rattle.wac_types_names.specs.KeyTexts.{one_text, clone_text};

    type Key = String;

    ghost text_of = { λ _ k. Some (string_bytes k) };

    ghost one_text = { λ _ k l s t e f. one_text k l s t e f };

    ghost clone_text = { λ _ k l e. clone_text k l e };

    fn intern(&mut self, alloc: Global, text: &str) -> Result<String, AllocError> {
        String::from_str(alloc, text)
    }

    fn lookup(&self, alloc: Global, text: &str) -> Result<Option<String>, AllocError> {
        Ok(Some(String::from_str(alloc, text)?))
    }
}

/// A map from names to values. A name that is not there is answered by the greatest version on its track.
#[derive(Drop)]
pub struct NameMap<K: Eq + Hash, V> {
    definitions: IndexMap<K, V>,
    // the name of each definition, in order
    names: Vec<Spelling>,
}

impl<K: Eq + Hash, V> Model for NameMap<K, V> {
    ghost use Rattle.std.specs.Prelude.{List, ℕ};

    ghost Value = { List (List ℕ × K × V) };

    ghost use Rattle.wac_types_names.specs.Spellings.{entries_with, IsKept};

    ghost view = { λ m. entries_with m.names.items m.definitions.entries };

    ghost invariant = { λ m. IsKept m.names.items m.definitions.entries };
}

impl<K: Eq + Hash, V> NameMap<K, V> {
    /// An empty map.
    pub fn default(alloc: Global) -> Self
        ensures { result ≡ [] }
    {
        NameMap {
            definitions: IndexMap::new(alloc),
            names: Vec::new(alloc),
        }
    }

    /// The keys with their values, in order of insertion.
    pub fn raw_iter(&self) -> Iter<'_, K, V>
        ensures rest { result ≡ by_key self.now }
        ensures runs { ShowsInOrder (deref_pair {K = K} {X = V}) }
        ensures distinct { (text : K → Option Name) → HasOneKey K.eq text → KnowsKeys text self.now
            → AreDistinct (names_of (by_name self.now)) }
    {
        let _count = self.definitions.len();
        self.definitions.iter()
    }
}

impl<K: Eq + Hash, V> NameMap<K, V> {
    ghost use Rattle.std.specs.Prelude.{◌≡◌};
    ghost use Rattle.std.specs.Option.{option_copied_mut};
    ghost use Rattle.std.specs.Borrow.{sem};
    ghost use Rattle.std.specs.Map.{lookup};
    ghost use Rattle.wac_types_names.specs.NameMaps.{by_key};
    ghost use Rattle.wac_types_names.specs.Lending.{lends_value};

    /// The value of a key, to write. No key and no other value changes.
    pub fn raw_get_mut(&mut self, key: &K) -> Option<&mut V>
        ensures* writes_back { sem 𝓛 (lends_value K.row V.row K.Hash self.entry key.now result) }
        ensures value { option_copied_mut result ≡ lookup (K.eq key.now) (by_key self.old) }
    {
        match self.definitions.get_index_of(key) {
            None => None,
            Some(place) => self.definitions.get_index_mut(place),
        }
    }
}

impl<K: Clone + Eq + Hash, V: Drop> NameMap<K, V> {
    /// Puts another value under a key that is there.
    fn shadow(&mut self, key: K, item: V) -> Result<(), NameMapError>
        requires there { is_some (lookup (K.eq key) (by_key self.old)) ≡ true }
        ensures ok { OnOk result (self.new ≡ put_value K.eq self.old key item) }
        ensures err { OnErr result (self.new ≡ self.old) }
        ensures memory { IfErr result (λ e. e ≡ NameMapError.Memory) }
    {
        self.definitions.insert(key, item)?;
        Ok(())
    }

    /// Adds a definition at the end, under a name and a key that is new.
    fn append(&mut self, alloc: Global, name: &str, key: K, item: V) -> Result<(), NameMapError>
        requires { lookup (K.eq key) (by_key self.old) ≡ None }
        ensures ok { OnOk result (self.new ≡ self.old ++ (name.now, key, item) ∷ []) }
        ensures err { OnErr result (self.new ≡ self.old) }
        ensures memory { IfErr result (λ e. e ≡ NameMapError.Memory) }
    {
        self.names.push(Spelling::read(alloc, name)?)?;
        match self.definitions.insert(key, item) {
            Ok(_) => Ok(()),
            Err(AllocFailed { .. }) => {
                let _ = self.names.pop();
                Err(NameMapError::Memory)
            }
        }
    }

    /// Puts a value under a name, which is new or may be shadowed, and answers its key.
    pub fn insert<I: NameMapIntern<Key = K>>(
        &mut self,
        alloc: Global,
        name: &str,
        cx: &mut I,
        allow_shadowing: bool,
        item: V,
    ) -> Result<K, NameMapError>
        ensures ok { OnOk result (KnowsKeys (I.text_of cx.old) self.old
            → by_name self.new ≡ put_entry (by_name self.old) name.now item) }
        ensures key { IfOk result (λ k. I.text_of cx.new k ≡ Some name.now) }
        ensures fresh { OnOk result (KnowsKeys (I.text_of cx.old) self.old
            → allow_shadowing ≡ false → IsNew name.now (by_name self.old)) }
        ensures duplicate { result ≡ Err NameMapError.Duplicate → KnowsKeys (I.text_of cx.old) self.old
            → (allow_shadowing ≡ false) × Among name.now (names_of (by_name self.old)) }
        ensures err { OnErr result (self.new ≡ self.old) }
        ensures known { KnowsKeys (I.text_of cx.old) self.old → KnowsKeys (I.text_of cx.new) self.new }
        ensures lasting { KeysLast (I.text_of cx.old) (I.text_of cx.new) }
    {
        let key = cx.intern(alloc, name)?;
        let kept = key.clone()?;
        if !self.definitions.contains_key(&kept) {
            self.append(alloc, name, kept, item)?;
            return Ok(key);
        }
        if !allow_shadowing {
            return Err(NameMapError::Duplicate);
        }
        self.shadow(kept, item)?;
        Ok(key)
    }

    /// The value of a name's own definition.
    fn exact<I: NameMapIntern<Key = K>>(
        &self,
        alloc: Global,
        name: &str,
        cx: &I,
    ) -> Result<Option<&V>, AllocError>
        ensures { KnowsKeys (I.text_of cx.now) self.now
            → IfOk result (λ o. IsExact (by_name self.now) name.now (option_copied o)) }
    {
        match cx.lookup(alloc, name)? {
            None => Ok(None),
            Some(key) => Ok(self.definitions.get(&key)),
        }
    }

    /// The value of a name: its own definition, else the one with the greatest version on its track.
    pub fn get<I: NameMapIntern<Key = K>>(
        &self,
        alloc: Global,
        name: &str,
        cx: &I,
    ) -> Result<Option<&V>, AllocError>
        ensures { KnowsKeys (I.text_of cx.now) self.now
            → IfOk result (λ o. Gives (by_name self.now) name.now (option_copied o)) }
    {
        if let Some(item) = self.exact(alloc, name, cx)? {
            return Ok(Some(item));
        }
        let Some((track, _)) = alternate_lookup_key(alloc, name)? else {
            return Ok(None);
        };
        Ok(self.latest(track))
    }

    /// The value with the greatest version of those whose name has this lookup key, such as `a:b/c@1` or `a:b/c@0.2`.
    pub fn get_track<I: NameMapIntern<Key = K>>(
        &self,
        _alloc: Global,
        key: &str,
        _cx: &I,
    ) -> Result<Option<&V>, AllocError>
        ensures latest { IfOk result (λ o. IsLatestOn (by_name self.now) key.now (option_copied o)) }
        ensures given { IsOk result }
    {
        Ok(self.latest(key))
    }

    /// The definition with the greatest version on a track.
    fn latest(&self, track: &str) -> Option<&V>
        ensures { IsLatestOn (by_name self.now) track.now (option_copied result) }
    {
        match latest_on(self.names.as_slice(), track) {
            None => None,
            Some(place) => match self.definitions.get_index(place) {
                None => None,
                Some((_, item)) => Some(item),
            },
        }
    }
}
