//! Merging: one import for each track of names, of all that is asked.
#![tactic(auto)]

pub mod aggregator;
mod cycle;
pub mod error;
mod exports;
pub mod family;
mod imports;
pub mod laws;
mod narrower;

pub use aggregator::{TypeAggregator, aggregate_all};
pub use error::AggregateError;
pub use family::{Family, Import, family_of, interface_uses_unnamed, joint_family};
pub use imports::{kept_of, spelled};
pub use laws::asks_merge_in_turn;
