//! What fits what: the order on types, its checker, and the target of a component.
#![tactic(auto)]

pub mod cache;
mod check;
pub mod checker;
mod core_items;
pub mod error;
pub mod labels;
mod laws;
pub mod same_core;
pub mod targets;
mod values;

pub use cache::{Cache, new_cache};
pub use checker::{SubtypeCheck, SubtypeChecker, is_subtype};
pub use error::SubtypeError;
pub use laws::{meets_of_plain_trees, order_on_trees, refusals_are_true};
pub use targets::{TargetValidationReport, TargetValidationResult, validate_target};
pub use values::value_of;
