//! Rows of types and graphs: what is asked of types, steps on graphs, and what graphs are encoded to.
#![tactic(auto)]

mod encoded;
mod graphs;
mod lines;
mod types;

pub use encoded::EncodeRows;
pub use graphs::GraphRows;
pub use types::TypeRows;
