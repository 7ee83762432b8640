//! Laws over the definitions alone: each is the contract of a function without a body.

ghost use Rattle.std.specs.Prelude.{◌≡◌, ◌↔◌, ◌∷◌, ◌++◌, ℕ, List, [], Option, Some, None, codes, false};
ghost use Rattle.std.specs.List.{list_any};
ghost use Rattle.semver.specs.Parse.{Parts};
ghost use Rattle.wac_types_base.specs.Entries.{Name, names_of, AreDistinct};
ghost use Rattle.wac_types_names.specs.Tracks.{lookup_key, AreCompatible, IsOnTrack, IsTrack, is_at};
ghost use Rattle.wac_types_names.specs.NameMaps.{Gives, SameEntries};

/// Compatibility of names is an equivalence.
pub fn compatible_names()
    ensures itself { (a : Name) → AreCompatible a a }
    ensures turned { (a b : Name) → AreCompatible a b → AreCompatible b a }
    ensures joined { (a b c : Name) → AreCompatible a b → AreCompatible b c → AreCompatible a c }
{}

/// Two names on one track with one version are one name.
pub fn one_name_a_version()
    ensures { (m n track : Name) (p : Parts) → IsOnTrack track m p → IsOnTrack track n p → m ≡ n }
{}

/// What a map gives for a name depends on its entries alone, and not on the order in which they came.
pub fn order_of_insertion<V>()
    ensures { (es fs : List (Name × V)) (asked : Name) (r s : Option V) → AreDistinct (names_of es) → SameEntries es fs
        → Gives es asked r → Gives fs asked s → r ≡ s }
{}

/// A text is a track exactly where the lookup key of some version of a name has it behind its `@`.
pub fn tracks_end_lookup_keys()
    ensures { (n : Name) (t : List ℕ) → list_any is_at n ≡ false
        → IsTrack t ↔ ((text : List ℕ) × (p : Parts) × (lookup_key (n ++ 64 ∷ text) ≡ Some (n ++ 64 ∷ t, p))) }
{}

/// Lookup keys of names from outside.
pub fn examples()
    ensures minor { lookup_key (codes "x:y/z@0.2.3+abc") ≡ Some (codes "x:y/z@0.2", (0, 2, 3, [], codes "abc")) }
    ensures major { lookup_key (codes "a:b/c@1.3.4") ≡ Some (codes "a:b/c@1", (1, 3, 4, [], [])) }
    ensures patch_alone { lookup_key (codes "x:y/z@0.0.1") ≡ None }
    ensures pre_release { lookup_key (codes "a:b/c@1.0.0-rc.1") ≡ None }
{}
