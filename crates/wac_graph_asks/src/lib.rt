//! What a composition graph asks: the composition that it is, its asks in order, their classes, and the outer imports.
#![tactic(auto)]

pub mod asks;
pub mod classes;
pub mod copies;
pub mod error;
mod laws;
pub mod nodes;
pub mod outers;
mod taken;

pub use error::OuterError;
pub use laws::{asks_once_are_all_asks, first_name_of_a_definition, graphs_are_composed};
