//! What is composed, for a document and for a graph: what each instance and import asks, which asks
//! are one outer import and what that states, written forms, why a composition cannot be written,
//! and the world of what is written. Definitions and laws over them alone: each law is the contract
//! of a function without a body.
#![tactic(auto)]

ghost use Rattle.std.specs.Prelude.{◌≡◌, ◌∷◌, [], ℕ, map, Bool, Some, None, codes, true, false};
ghost use Rattle.std.specs.Bool.{Decides};
ghost use Rattle.wac_types_base.specs.Entries.{Name, names_of};
ghost use Rattle.wac_types_names.specs.Keys.{Key};
ghost use Rattle.wac_types_names.specs.Tracks.{AreCompatible, IsLater};
ghost use Rattle.wac_composition.specs.Names.{compatible, is_later};
ghost use Rattle.wac_types_base.specs.Collection.{Shape};
ghost use Rattle.wac_types_base.specs.Tree.{Tree, tree};
ghost use Rattle.wac_types_base.specs.Fits.{Fits};
ghost use Rattle.wac_types_base.specs.Stated.{Stated};
ghost use Rattle.wac_types_fit.specs.Ordered.{InOrder};
ghost use Rattle.wac_composition.specs.Tests.{same_label, same_tree, fit, fits};
ghost use Rattle.wac_composition.specs.Asks.{asks_of};
ghost use Rattle.wac_composition.specs.Classes.{spelling};
ghost use Rattle.wac_composition.specs.Circles.{written_names};
ghost use Rattle.wac_composition.specs.OuterImports.{outer_imports};
ghost use Rattle.wac_composition.specs.OuterLaws.{Classes_are_linked, Links_turn, Links_go_on, Kept_is_meet, None_are_kept, Outer_fits, Asks_are_met, Accepted_are_met, AreMet, Merged_are_met, Outers_are_apart};
ghost use Rattle.wac_composition.specs.Conflicts.{ImplicitImport, ExplicitImport, ImportTypes, Unwritable, ImportNames, first_cause, name_cause, dependencies_of};
ghost use Rattle.wac_composition.specs.Composition.{Composition};
ghost use Rattle.wac_composition.specs.Against.{FirstStands};
ghost use Rattle.wac_composition.specs.Again.{Asked_again, Asked_by_identifier, Asking_twice};
ghost use Rattle.wac_composition.specs.Renaming.{KeepsMeaning};
ghost use Rattle.wac_composition.specs.Alike.{IsAlike, MeansAlike};
ghost use Rattle.wac_composition.specs.Sound.{IsSound, IsWired};
ghost use Rattle.wac_composition.specs.Worlds.{composed_world, used_world, source_of};
ghost use Rattle.wac_types_written.specs.Written.{without_uses};
ghost use Rattle.wac_composition.specs.NotWritten.{Test_of_writing, Test_of_packages};
ghost use Rattle.wac_composition.specs.Examples.{plain_func, named_instance, passing, older, newer, wider, using_types, types, one_instance, two_versions, clashing_versions, clashing_imports, one_identifier, used_interface, asked_twice, alike_names, nameless_resource, asked_value, twice_made, byte_list, defined_twice, lacks_used, given_another, given_renamed, values_in_circle, resource_in_circle, circle_inside};
ghost use Rattle.wac_graph_bytes.specs.Wirings.{Tag, Definition};

/// The tests of labels and trees say yes exactly of equal ones.
pub fn tests_decide()
    ensures labels { (s t : Shape) → Decides (same_label s t) (s ≡ t) }
    ensures trees { (t u : Tree) → Decides (same_tree t u) (t ≡ u) }
{}

/// The tree of each stated type is in order, and the test of fitting says yes exactly where the tree of
/// one stated type fits that of another.
pub fn tests_of_fitting()
    ensures ordered { (a : Stated) → InOrder (tree a) }
    ensures fitting { (a b : Stated) → Decides (fits a b) (Fits (tree a) (tree b)) }
    ensures trees { (t u : Tree) → fit t true u ≡ true → Fits t u }
{}

/// The test of what cannot be written says yes exactly of what cannot, in an outer import and elsewhere, and as an imported
/// package.
pub fn test_of_writing()
    ensures items { Test_of_writing }
    ensures packages { Test_of_packages }
{}

/// The tests of names say yes exactly of compatible ones, and of a name with a later one, as the maps of
/// names have it.
pub fn names_are_compatible()
    ensures compatible { (m n : Name) → Decides (compatible m n) (AreCompatible m n) }
    ensures later { (m n : Name) → Decides (is_later m n) (IsLater m n) }
{}

/// The asks that are one outer import with an ask are those that are linked to it, and being linked is
/// an equivalence: so classes are those of the smallest equivalence in which akin asks are equal.
pub fn classes_are_linked<A>()
    ensures linked { Classes_are_linked A }
    ensures turned { Links_turn A }
    ensures through { Links_go_on A }
{}

/// What several asks of one outer import keep is the greatest tree that fits each of them; where they keep
/// nothing, no tree fits them all up to one of them, or outside the families that one and what was kept
/// before it do not fit one another. The outer import of a class fits each of its asks. Each ask whose class merges finds it
/// under the spelling of its name; where nothing stands against a composition, that is each of its asks. No two outer imports
/// have names on one track.
pub fn outer_imports_fit<A, I>()
    ensures kept { Kept_is_meet }
    ensures none { None_are_kept }
    ensures outer { Outer_fits A }
    ensures met { Asks_are_met A }
    ensures merged { Merged_are_met A I }
    ensures accepted { Accepted_are_met A I }
    ensures apart { Outers_are_apart A }
{}

/// What several asks of one outer import keep, with its identifier and its uses, does not change where
/// one of them is asked again; and no class and no spelling does. Where an interface is asked again under its identifier
/// no outer import changes.
pub fn asking_twice_changes_nothing<A>()
    ensures kept { Asking_twice }
    ensures classes { Asked_again A }
    ensures outers { Asked_by_identifier A }
{}

/// Taking the uses out of the worlds in a type changes no tree, so the world that is handed out has the
/// tree of the one whose imports are the outer imports and whose exports are what the sources state.
pub fn uses_change_no_tree<A, I>()
    ensures types { (x : Stated) → tree (without_uses x) ≡ tree x }
    ensures worlds { (c : Composition A I) → tree (composed_world c) ≡ tree (used_world c) }
{}

/// The first cause against a composition is one that stands; where there is none, no cause stands.
pub fn causes_stand<A, I>()
    ensures { (define : Bool) (c : Composition A I) → FirstStands define c }
{}

/// Under other names of its askers and instances a composition asks the same, has the same outer imports
/// and the same world, and what stands against it is the same.
pub fn names_do_not_matter<A, B, I, J>()
    ensures { (f : A → B) (g : I → J) (c : Composition A I) → KeepsMeaning f g c }
{}

/// The order in which an instance's arguments stand does not matter.
pub fn order_does_not_matter<A, I>()
    ensures { (c d : Composition A I) → IsAlike c d → MeansAlike c d }
{}

/// In a composition that speaks of what is there alone, whose arguments fit, and whose asks are met, each import
/// of each instance is bound once, to what fits it and was there before, and the world that is handed out is true of the wiring.
pub fn compositions_are_wired<A>()
    ensures { (tag_of : Key → Tag) (c : Composition A ℕ) → IsSound c → AreMet c → IsWired tag_of c }
{}

/// Compositions from outside: what they import, and why some cannot be written.
pub fn examples()
    ensures one_instance { outer_imports (asks_of one_instance) ≡ (codes "f", plain_func) ∷ [] }
    ensures its_world { composed_world one_instance ≡ passing }
    ensures no_cause { first_cause true one_instance ≡ None }
    ensures greatest_version { outer_imports (asks_of two_versions) ≡ (newer, named_instance newer wider) ∷ [] }
    ensures types_clash { first_cause true clashing_versions ≡ Some (ImportTypes newer 0 1) }
    ensures imports_clash { first_cause true clashing_imports ≡ Some (ExplicitImport newer 0 1) }
    ensures one_identifier { outer_imports (asks_of one_identifier)
        ≡ (codes "a:b/c", named_instance (codes "a:b/i") wider) ∷ [] }
    ensures used_interface { outer_imports (asks_of used_interface)
        ≡ (codes "a:b/i", using_types) ∷ (codes "a:b/t", types) ∷ [] }
    ensures used_is_writable { first_cause true used_interface ≡ None }
    ensures asked_twice { first_cause true asked_twice ≡ Some (ImplicitImport (codes "f") 0 1) }
    ensures alike { name_cause true true alike_names ≡ Some (ImportNames (codes "foo") (codes "FOO")) }
    ensures not_validated { name_cause true false alike_names ≡ None }
    ensures nameless_resource { first_cause true nameless_resource ≡ Some (Unwritable (codes "f")) }
    ensures asked_value { first_cause true asked_value ≡ Some (Unwritable (codes "v")) }
    ensures defined_apart { map (λ e. source_of (asks_of defined_twice) e.1) defined_twice.exports
        ≡ Definition (tree byte_list) ∷ [] }
    ensures lacks_used { first_cause true lacks_used ≡ Some (Unwritable (codes "c")) }
    ensures given_another { first_cause true given_another ≡ Some (Unwritable (codes "a:b/i")) }
    ensures given_renamed { first_cause true given_renamed ≡ Some (Unwritable (codes "a:b/i")) }
    ensures circle_in_order { written_names (spelling (asks_of values_in_circle)) (outer_imports (asks_of values_in_circle))
        ≡ codes "a:b/t@0.2.1" ∷ codes "a:b/i@0.2.1" ∷ [] }
    ensures circle_of_values { first_cause true values_in_circle ≡ None }
    ensures circle_with_resource { first_cause true resource_in_circle ≡ Some (Unwritable (codes "a:b/t@0.2.1")) }
    ensures circle_inside { first_cause true circle_inside ≡ Some (Unwritable (codes "c")) }
    ensures imported_once { names_of (dependencies_of false twice_made) ≡ codes "unlocked-dep=<p:p>" ∷ [] }
{}
