//! Why a piece of a component could not be written.

ghost use Rattle.std.specs.Prelude.{◌≡◌};
ghost use Rattle.wac_graph_bytes.specs.declared.error.SizeError.TheVariants.{Memory};

use std::alloc::{AllocError, AllocFailed};
use thiserror::Error;

#[derive(Debug, Drop, Error)]
pub enum SizeError {
    /// A count, an index, a length or a size passes 4294967295.
    #[error("a count, an index, a length or a size passes 4294967295")]
    TooLarge,
    /// A growth was refused.
    #[error("out of memory")]
    Memory,
}

impl From<AllocError> for SizeError {
    ghost from_gives = { λ _ e. e ≡ Memory };

    fn from(_e: AllocError) -> SizeError {
        SizeError::Memory
    }
}

impl<T: Drop> From<AllocFailed<T>> for SizeError {
    ghost from_gives = { λ _ e. e ≡ Memory };

    fn from(_e: AllocFailed<T>) -> SizeError {
        SizeError::Memory
    }
}
