//! Refusals on their way.

ghost use Rattle.std.specs.Prelude.{◌≡◌};
ghost use Rattle.wac_parser_refusals.specs.Views.{Names, cause_in, cause_of};

use crate::error::Error;
use std::alloc::{AllocError, AllocFailed, Global};
use std::fmt;

/// Why a document is refused, while the refusal is on its way: the error stands behind a pointer, so an answer is small.
#[derive(Debug, Drop)]
pub enum Refusal {
    /// An error.
    Named(Box<Error>),
    /// Memory was refused.
    Memory,
}

/// What a step of a resolution answers.
pub type Outcome<T> = Result<T, Refusal>;

impl Refusal {
    /// The refusal for an error, or for want of memory where there is none for it.
    pub fn named(alloc: Global, error: Error) -> Self
        ensures { Names result (cause_of error) }
    {
        match Box::new(alloc, error) {
            Ok(error) => Refusal::Named(error),
            Err(AllocFailed { .. }) => Refusal::Memory,
        }
    }

    /// The error.
    pub fn into_error(self) -> Error
        ensures { cause_of result ≡ cause_in self }
    {
        match self {
            Refusal::Named(error) => Box::into_inner(error),
            Refusal::Memory => Error::Memory,
        }
    }
}

impl From<AllocError> for Refusal {
    ghost use Rattle.std.specs.Prelude.{◌≡◌};
    ghost use Rattle.wac_parser_refusals.specs.declared.refusal.Refusal.{Refusal};

    ghost from_gives = { λ _ e. e ≡ Refusal.Memory };

    fn from(_error: AllocError) -> Self {
        Refusal::Memory
    }
}

impl<T: Drop> From<AllocFailed<T>> for Refusal {
    ghost use Rattle.std.specs.Prelude.{◌≡◌};
    ghost use Rattle.wac_parser_refusals.specs.declared.refusal.Refusal.{Refusal};

    ghost from_gives = { λ _ e. e ≡ Refusal.Memory };

    fn from(_error: AllocFailed<T>) -> Self {
        Refusal::Memory
    }
}

impl From<Refusal> for Error {
    ghost use Rattle.std.specs.Prelude.{◌≡◌};
    ghost use Rattle.wac_parser_refusals.specs.Views.{cause_in, cause_of};

    ghost from_gives = { λ refusal error. cause_of error ≡ cause_in refusal };

    fn from(refusal: Refusal) -> Self {
        refusal.into_error()
    }
}

impl fmt::Display for Refusal {
    fn fmt<W: fmt::Write>(&self, f: &mut fmt::Formatter<W>) -> fmt::Result {
        match self {
            Refusal::Named(error) => fmt::Display::fmt(&**error, f),
            Refusal::Memory => fmt::Display::fmt(&Error::Memory, f),
        }
    }
}

impl std::error::Error for Refusal {}
