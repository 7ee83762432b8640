//! The forms in which definitions are written: an interface or a world with identifier inside a component type, each world in
//! it as a component type, which imports what its items use; and types whose worlds have no uses.
#![tactic(auto)]

mod components;
mod forms;
mod items;
mod maps;
mod uses;
mod worlds;

pub use items::{without_uses, written, written_definition};
