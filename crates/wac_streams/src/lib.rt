//! Readers and writers whose contracts tell their calls and failures, and bytes that are written whole.
#![tactic(auto)]

mod ends;
mod write;

pub use ends::{ByteSink, ByteSource};
pub use write::{WriteError, write_bytes};
