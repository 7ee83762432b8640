//! Laws over the definitions alone: each is the contract of a function without a body.
ghost use Rattle.std.specs.Prelude.{◌≡◌, ◌<◌, List, ℕ, length, Some, []};
ghost use Rattle.wac_graph_bytes.specs.Entries.{Section, InstanceType};
ghost use Rattle.wac_graph_bytes.specs.Spelling.{component_bytes};
ghost use Rattle.wac_graph_bytes.specs.Wirings.{Wiring, Instantiation, OfBytes, Same, IsClosed, IsOrdered, IsWritten};
ghost use Rattle.wac_graph_bytes.specs.Typing.{Worlds, no_scope, type_of};
ghost use Rattle.wac_graph_bytes.specs.Meaning.{Means};
ghost use Rattle.wac_graph_bytes.specs.Examples.{passed_bytes, passed_wiring, twice_bytes, unspeakable_bytes, empty_bytes, empty_wiring, interface_declarations, interface_collection, interface_id};
ghost use Rattle.wac_types_base.specs.Tree.{tree_of};
ghost use Rattle.wac_types_base.specs.declared.item.ItemKind.{ItemKind};

/// A byte string is the spelling of at most one list of sections.
pub fn one_reading()
    ensures { (a b : List Section) → component_bytes a ≡ component_bytes b → a ≡ b }
{}

/// A byte string means at most one wiring.
pub fn one_wiring()
    ensures { (worlds : Worlds) (bytes : List ℕ) (a b : Wiring ℕ) → Means worlds bytes a → Means worlds bytes b → a ≡ b }
{}

/// Wirings that are equal up to a renaming of instances: a renaming of a renaming is one, and a wiring of one level has
/// one to itself and back.
pub fn renamings()
    ensures compose { (u v w : Wiring ℕ) → Same u v → Same v w → Same u w }
    ensures turn { (v w : Wiring ℕ) → IsClosed v → Same v w → Same w v }
    ensures itself { (v : Wiring ℕ) → IsClosed v → Same v v }
    ensures by_order { (v w : Wiring ℕ) (order : List ℕ) (to : ℕ → ℕ) → IsWritten v w order to → Same v w }
{}

/// In a meaning an instance's sources name earlier instances only, and an export's sources instances that are there.
pub fn sources_are_earlier()
    ensures ordered { (worlds : Worlds) (bytes : List ℕ) (v : Wiring ℕ) → Means worlds bytes v → IsOrdered v }
    ensures closed { (worlds : Worlds) (bytes : List ℕ) (v : Wiring ℕ) → Means worlds bytes v → IsClosed v }
{}

/// A nested string is shorter than the one around it.
pub fn nested_is_shorter()
    ensures { (worlds : Worlds) (bytes : List ℕ) (v : Wiring ℕ) → Means worlds bytes v
        → (k : ℕ) (x : Instantiation ℕ) (nested : List ℕ) → v.at k ≡ Some x → x.tag ≡ OfBytes nested
        → length nested < length bytes }
{}

/// Two byte strings from outside mean what they should; one that exports a name twice, and one with a name that is no UTF-8,
/// mean nothing; an instance type has the tree of the same interface in a collection.
pub fn examples()
    ensures passed { (worlds : Worlds) → Means worlds passed_bytes passed_wiring }
    ensures twice { (worlds : Worlds) (v : Wiring ℕ) → Means worlds twice_bytes v → ⊥ }
    ensures unspeakable { (worlds : Worlds) (v : Wiring ℕ) → Means worlds unspeakable_bytes v → ⊥ }
    ensures empty { (worlds : Worlds) → Means worlds empty_bytes empty_wiring }
    ensures interface { (worlds : Worlds)
        → type_of worlds no_scope (InstanceType interface_declarations)
        ≡ tree_of interface_collection (ItemKind.Instance interface_id) }
{}
