//! Why a type could not be written.

ghost use Rattle.std.specs.Prelude.{◌≡◌};
ghost use Rattle.wac_graph_scopes.specs.declared.error.WriteError.{WriteError};

use std::alloc::{AllocError, AllocFailed};

#[derive(Debug, Drop)]
pub enum WriteError {
    /// What no declaration can state here, as a resource whose name does not stand in the scope.
    Unwritable,
    Memory,
}

impl From<AllocError> for WriteError {
    ghost from_gives = { λ _ e. e ≡ WriteError.Memory };

    fn from(_e: AllocError) -> Self {
        WriteError::Memory
    }
}

impl<T: Drop> From<AllocFailed<T>> for WriteError {
    ghost from_gives = { λ _ e. e ≡ WriteError.Memory };

    fn from(_e: AllocFailed<T>) -> Self {
        WriteError::Memory
    }
}
