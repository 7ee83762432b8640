//! Names of imports and exports of components: which texts are names, and of which kind.
#![tactic(auto)]

mod error;
mod names;

pub use error::{NameError, ValidationFault};
pub use names::{NameKind, component_name};
