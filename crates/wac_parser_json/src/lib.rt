//! Documents as JSON texts, written as they are read.
#![tactic(auto)]

mod declarations;
mod document;
mod exprs;
mod interfaces;
mod laws;
mod names;
mod parts;
mod statements;
mod types;
mod worlds;
mod writer;

pub use document::write_json;
pub use laws::json_examples;
