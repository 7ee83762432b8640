//! The wiring that a document ascribes.
#![tactic(auto)]

mod arguments;
mod board;
mod calls;
mod exports;
mod expressions;
mod names;
mod packages;
mod resolver;
mod root;
mod spans;
mod state;
mod statements;
mod targets;
mod tracks;

ghost use Rattle.wac_types_base.specs.declared.item.ItemKind.{ItemKind};
ghost use Rattle.wac_types_base.specs.Record.{Collection};
ghost use Rattle.wac_types_base.specs.Stated.{stated_of};
ghost use Rattle.wac_parser_resolve.specs.Askers.{Definitions_ask_nothing, Askers_have_places};
ghost use Rattle.wac_parser_resolve.specs.Choosing.{Choices_are_greatest};
ghost use Rattle.wac_parser_resolve.specs.Laws.{Packages_are_known, Packages_stay, Wirings_are_ordered, Documents_are_wired, Resolved_are_wired, Acceptance_is_of_trees, Wiring_is_of_trees};
ghost use Rattle.wac_parser_resolve.specs.Proper.{Proper};
ghost use Rattle.wac_parser_resolve.specs.Refused.{Refusals_stand};
ghost use Rattle.wac_parser_resolve.specs.RowLaws.{Says_one, Says_missing, Says_passed, Says_mismatched, Says_merged, Says_unmerged};
ghost use Rattle.wac_parser_resolve.specs.RowLaws.{Says_unknown, Says_own, Says_conflict, Says_no_name, Says_identified};

pub use packages::{GraphTypes, PackageRef, Packages};
pub use resolver::{AstResolver, Resolution, ResolveDocument, Resolved, Said};
pub use wac_parser_refusals::{Error, InstanceOperation, ResolutionResult};

/// What some documents from outside ascribe.
pub fn examples()
    ensures one { Says_one }
    ensures missing { Says_missing }
    ensures passed { Says_passed }
    ensures mismatched { Says_mismatched }
    ensures merged { Says_merged }
    ensures unmerged { Says_unmerged }
    ensures unknown { Says_unknown }
    ensures own { Says_own }
    ensures conflict { Says_conflict }
    ensures no_name { Says_no_name }
    ensures identified { Says_identified }
{}

/// Each instance that a document makes is of a package handed in.
pub fn packages_are_known()
    ensures { Packages_are_known }
{}

/// The version that a track means is the greatest on it of those handed in.
pub fn choices_are_greatest()
    ensures { Choices_are_greatest }
{}

/// What is said of a document stays over the packages handed in.
pub fn packages_stay()
    ensures { Packages_stay }
{}

/// In an ascribed wiring an instance's sources name earlier instances alone.
pub fn wirings_are_ordered()
    ensures { Wirings_are_ordered }
{}

/// What the kinds of a collection state is proper: an alias is of no instance.
pub fn stated_types_are_proper()
    ensures { (c : Collection) (k : ItemKind) → Proper (stated_of c k) }
{}

/// What an accepted document ascribes over packages with proper worlds is wired: each import of each instance is bound once, to
/// what fits it and was there before, and the world that is handed out is true of the wiring. So is what a document says
/// where each of its asks is met.
pub fn documents_are_wired()
    ensures accepted { Documents_are_wired }
    ensures resolved { Resolved_are_wired }
{}

/// Whether a document is accepted, and its wiring, world and target, depend only on its tree without spans and doc comments, and
/// on the worlds of the packages that it names, by their versions or by tracks.
pub fn documents_mean_their_trees()
    ensures accepted { Acceptance_is_of_trees }
    ensures wired { Wiring_is_of_trees }
{}

/// A document whose statements can be said is refused for a cause that stands against its composition, or for names that
/// are alike.
pub fn refusals_stand()
    ensures { Refusals_stand }
{}

/// Each import statement and each `new` that is named in a cause has a place: a definition asks nothing.
pub fn askers_have_places()
    ensures alone { Definitions_ask_nothing }
    ensures placed { Askers_have_places }
{}
