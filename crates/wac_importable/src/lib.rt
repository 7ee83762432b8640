//! The packages that a source text instantiates can be imported: their keys make names of dependencies. Laws alone: each
//! is the contract of a function without a body.
#![tactic(auto)]

ghost use Rattle.wac_importable.specs.Importable.{NamesAreImportable, InstancesAreImportable, GraphsAreImportable};

use wac_parser_grammar::parsed_paths_stand;

/// Each package name that stands in a text, as do all those of a document that is read of it, makes the name of a dependency.
pub fn names_are_importable()
    ensures { NamesAreImportable }
{}

/// So does the key of each package that such a document instantiates, whatever packages are handed in, and that of each
/// package that a graph instantiates which holds what the document says.
pub fn instances_are_importable()
    ensures documents { InstancesAreImportable }
    ensures graphs { GraphsAreImportable }
{
    parsed_paths_stand();
}
