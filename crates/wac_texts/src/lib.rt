//! What a run of the program has to do with texts and files alone: plugging as a text, worlds that documents declare, files by
//! their paths, and places in sources as compilers show them.
#![tactic(auto)]

ghost use Rattle.wac_texts.specs.Laws.{Declared_worlds_are_defined};

mod declared;
mod files;
mod place;
mod plugging;
mod spelling;

pub use declared::{DeclareDocument, DeclaredWorldError, Declares, declared_world, world_in};
pub use files::{Files, FilesError, MemoryFiles};
pub use place::{Place, place_of, show_place};
pub use plugging::{PlugTextError, plug_text};

/// The graph that a document is resolved to defines each world that the document declares.
pub fn declared_worlds_are_defined()
    ensures { Declared_worlds_are_defined }
{}
