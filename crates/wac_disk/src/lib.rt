//! Files of the system, standard output and standard error, as the ends of a run.
#![tactic(auto)]

mod disk;
mod ends;

pub use disk::Disk;
pub use ends::{ErrorEnd, OutputEnd};
