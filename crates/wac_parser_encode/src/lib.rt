//! Resolved documents as components.
#![tactic(auto)]

mod encoding;

pub use encoding::EncodeResolution;
pub use wac_graph_encode::{EncodeOptions, Encoded, Processor};
