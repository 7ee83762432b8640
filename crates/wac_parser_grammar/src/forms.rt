//! The plain forms of the language, and what the rules have to do with them.

ghost use Rattle.wac_parser_grammar.specs.FormDepths.{DocumentsAreTheirForms, FormsAreTaken, RulesTakeWhatFits};
ghost use Rattle.wac_parser_grammar.specs.FormLaws.{DocumentsHaveForms, RulesHaveForms};

use crate::laws::documents_are_read;

/// What a rule takes is written in the tree's form: the same tree, from the same place up to the
/// same place. The forms know no order of attempts and no bound of depth.
pub fn rules_have_forms()
    ensures { RulesHaveForms }
{}

/// A source that is read as a document is that document by the forms.
pub fn documents_have_forms()
    ensures { DocumentsHaveForms }
{}

/// What has the form of a tree, with types and expressions of at most 128 levels, is taken by the
/// tree's rule, where nothing follows that the rule would take for a part of it.
pub fn forms_are_taken()
    ensures { FormsAreTaken }
{}

/// What a rule takes has types and expressions of at most 128 levels.
pub fn rules_take_what_fits()
    ensures { RulesTakeWhatFits }
{}

/// A source is read as a document exactly where it is that document by the forms, with types and
/// expressions of at most 128 levels.
pub fn documents_are_their_forms()
    ensures { DocumentsAreTheirForms }
{
    documents_are_read();
}
