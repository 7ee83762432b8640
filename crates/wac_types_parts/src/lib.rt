//! The parts of interfaces and worlds, by their ids, and maps by names that are copied.
#![tactic(auto)]

pub mod maps;
pub mod parts;
