//! Plugging packages into a socket.
#![tactic(auto)]

pub mod error;
pub mod matching;
pub mod plan;
mod plugging;

pub use error::{PlugError, PlugFault};
pub use matching::{Match, matches_of};
pub use plan::{Argument, Plan, PlanError, WorldIn, plan_of};
pub use plugging::plug;
