//! What holds of the definitions, for those who reason by them.

ghost use Rattle.wac_parser_grammar.specs.Laws.{RulesAreExact, TreesAreBegun, DocumentsAreRead, AllFaultsStand, NoTrackIsRefused, DocumentFaultsStand};
ghost use Rattle.wac_parser_grammar.specs.Nesting.{DeepFaultsAreDeep};
ghost use Rattle.wac_parser_grammar.specs.Paths.{ParsedPathsStand};

/// Each rule reads a value exactly where the items spell it, with exactly those items.
pub fn rules_are_exact()
    ensures { RulesAreExact }
{}

/// Where a tree is spelled that is known by its first token, one of those tokens comes next, and
/// is taken.
pub fn trees_are_begun()
    ensures { TreesAreBegun }
{}

/// A source is read as a document exactly where it spells it.
pub fn documents_are_read()
    ensures { DocumentsAreRead }
{}

/// Each fault that a rule meets is that of an item of the source, or of its end, and names what
/// stands there: no expected token does.
pub fn faults_stand()
    ensures { AllFaultsStand }
{}

/// A text that is refused as a version where a version track could stand is no track.
pub fn no_track_is_refused()
    ensures { NoTrackIsRefused }
{}

/// A source that is not read as a document has a fault that stands in it.
pub fn document_faults_stand()
    ensures { DocumentFaultsStand }
{}

/// A type or an expression that is refused as nested too deep begins as many levels deeper as there
/// was room for.
pub fn deep_faults_are_deep()
    ensures { DeepFaultsAreDeep }
{}

/// A name or a path of a package that is read of a text is the text at its span.
pub fn parsed_paths_stand()
    ensures { ParsedPathsStand }
{}
