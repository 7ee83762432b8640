//! What is kept of the asks of an outer import, on ids and on stated types: what `wac_types_merge` says of the items
//! of a collection is what `wac_composition` says of the types that they state. Most functions are laws over
//! definitions alone, the contract of a function without a body; the others take one ask after another.
#![tactic(auto)]

pub mod kept;
pub mod named;

ghost use Rattle.wac_merging.specs.Named.{Stated_are_well};
ghost use Rattle.wac_merging.specs.Families.{Family_is_stated, Unnamed_is_of_none};
ghost use Rattle.wac_merging.specs.Merging.{Merged_is_stated, Clash_is_stated, Narrower_is_stated, Outside_is_stated, Kept_is_stated, Refused_is_stated, Spelled_is_stated};
ghost use Rattle.wac_merging.specs.Labelled.{Labels_are_of_classes, Class_is_labelled, Outers_are_labelled, One_more_labelled, Kept_have_no_conflict, Refused_is_conflict};
ghost use Rattle.wac_merging.specs.Repeated.{Repeated_conflicts_no_more};
ghost use Rattle.wac_merging.specs.Unmerged.{Refused_is_told, Repeated_is_told};
ghost use Rattle.wac_merging.specs.Outers.{Spelled_is_outer, Outers_are_stated, Outers_differ};
ghost use Rattle.wac_merging.specs.Asking.{Asked_has_family, Unnamed_has_none, First_is_taken, Again_is_taken, One_family_is_all, Next_is_taken, Refused_keeps_nothing, Taken_stays, Kept_is_identified, Spelled_is_identified};

pub use kept::{Kept, family_asked, kept_again, kept_first, kept_import, kept_next, kept_with};
pub use named::see_named;

/// What stands in a collection whose interfaces export no name twice states a type whose interfaces are of their
/// parts alone and export no name twice.
pub fn stated_items_are_well()
    ensures { Stated_are_well }
{}

/// The family of an ask is that of what its item states.
pub fn families_are_stated()
    ensures family { Family_is_stated }
    ensures unnamed { Unnamed_is_of_none }
{}

/// What merging makes of two items of one family, and the narrower of two, states what merging makes of what they
/// state, with its identifier, its uses and its exports in order; where no tree fits both, or neither fits the
/// other, nothing is made of what they state.
pub fn merging_is_stated()
    ensures merged { Merged_is_stated }
    ensures clash { Clash_is_stated }
    ensures narrower { Narrower_is_stated }
    ensures outside { Outside_is_stated }
{}

/// What is kept of two items of a joint family states what is kept of what they state, and nothing is where it is
/// refused.
pub fn kept_is_stated()
    ensures kept { Kept_is_stated }
    ensures refused { Refused_is_stated }
{}

/// An instance under a spelling states what it stated, identified by the spelling; any other item states the same.
pub fn spelling_is_stated()
    ensures { Spelled_is_stated }
{}

/// The asks of one outer import, taken one after another, keep what the list of them keeps: the first one, the same
/// one again, and one more, which is refused only where the asks keep nothing.
pub fn asks_are_taken()
    ensures first { First_is_taken }
    ensures again { Again_is_taken }
    ensures family { One_family_is_all }
    ensures next { Next_is_taken }
    ensures refused { Refused_keeps_nothing }
    ensures stays { Taken_stays }
{}

/// The family with which an ask is taken.
pub fn asks_have_families()
    ensures family { Asked_has_family }
    ensures unnamed { Unnamed_has_none }
{}

/// The outer import of asks that are taken: what they keep, under the spelling where several ask for it on a track.
pub fn outer_imports_are_identified()
    ensures kept { Kept_is_identified }
    ensures spelled { Spelled_is_identified }
{}

/// Where asks have labels, and one label exactly where they are one outer import, as the places of first asks are, the
/// class of an ask has the asks of its label in order, and the outer imports are those of the labels, in the order in
/// which these come first.
pub fn outer_imports_are_labelled<A>()
    ensures labels { Labels_are_of_classes A }
    ensures class { Class_is_labelled A }
    ensures outers { Outers_are_labelled A }
    ensures more { One_more_labelled A }
{}

/// Where asks are taken in turn by their labels, none of them conflicts while those of each label keep something, and
/// the first one behind which they keep nothing is the conflict, with the first ask of its label; what an error tells of
/// it tells of the conflict.
pub fn conflicts_are_labelled<A>()
    ensures none { Kept_have_no_conflict A }
    ensures first { Refused_is_conflict A }
    ensures told { Refused_is_told A }
{}

/// What the asks of each label keep, under their spellings, are the outer imports, and those of two labels have two names.
pub fn outer_imports_are_kept<A>()
    ensures spelled { Spelled_is_outer A }
    ensures outers { Outers_are_stated A }
    ensures differ { Outers_differ A }
{}

/// Where what was asked under a name is asked again, by whomever, the first conflict of the asks is the same, and what is
/// told of it.
pub fn repeated_asks_conflict_no_more<A>()
    ensures conflict { Repeated_conflicts_no_more A }
    ensures told { Repeated_is_told A }
{}
