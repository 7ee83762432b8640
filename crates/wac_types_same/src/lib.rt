//! Whether two items of a collection state the same, identifiers, uses and owners included.
#![tactic(auto)]

mod core_items;
mod labels;
mod same;

pub use same::states_same;
