//! Why bytes are not written.

ghost use Rattle.std.specs.Prelude.{◌≡◌};
ghost use Rattle.wac_graph_encode.specs.declared.error.BytesError.{BytesError};
ghost use Rattle.wac_graph_encode.specs.Faults.{bytes_refusal, size_fault, write_fault};

use std::alloc::{AllocError, AllocFailed};
use wac_graph_bytes::SizeError;
use wac_graph_causes::error::Refusal;
use wac_graph_scopes::error::WriteError;

/// Why the bytes of a composition are not written against which no cause stands.
#[derive(Drop)]
pub(crate) enum BytesError {
    /// A type was not written.
    TypeNotWritten,
    TooLarge,
    Memory,
}

impl From<AllocError> for BytesError {
    ghost from_gives = { λ _ e. e ≡ BytesError.Memory };

    fn from(_e: AllocError) -> Self {
        BytesError::Memory
    }
}

impl<T: Drop> From<AllocFailed<T>> for BytesError {
    ghost from_gives = { λ _ e. e ≡ BytesError.Memory };

    fn from(_e: AllocFailed<T>) -> Self {
        BytesError::Memory
    }
}

impl From<WriteError> for BytesError {
    ghost from_gives = { λ f e. e ≡ write_fault f };

    fn from(e: WriteError) -> Self {
        match e {
            WriteError::Unwritable => BytesError::TypeNotWritten,
            WriteError::Memory => BytesError::Memory,
        }
    }
}

impl From<SizeError> for BytesError {
    ghost from_gives = { λ f e. e ≡ size_fault f };

    fn from(e: SizeError) -> Self {
        match e {
            SizeError::TooLarge => BytesError::TooLarge,
            SizeError::Memory => BytesError::Memory,
        }
    }
}

impl From<BytesError> for Refusal {
    ghost from_gives = { λ f e. e ≡ bytes_refusal f };

    fn from(e: BytesError) -> Self {
        match e {
            BytesError::TypeNotWritten => Refusal::TypeNotWritten,
            BytesError::TooLarge => Refusal::TooLarge,
            BytesError::Memory => Refusal::Memory,
        }
    }
}
