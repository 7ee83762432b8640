//! Which types cannot be written.
#![tactic(auto)]

pub mod holder;
mod modules;
pub mod unnamed;
pub mod writable;

pub use holder::Holder;
pub use unnamed::Unnamed;
pub use writable::{Test, is_unwritable_definition, is_unwritable_package, unwritable_outer};
