//! Why an ask is refused.

ghost use Rattle.std.specs.Prelude.{◌≡◌, Some, IsSome};
ghost use Rattle.wac_types_merge.specs.Errors.{Refuses, LeadsTo};
ghost use Rattle.wac_types_fit.specs.Errors.{steps_of};

use std::alloc::AllocError;
use std::error::Error;
use std::fmt;
use wac_types_fit::SubtypeError;

/// Why an ask is refused.
#[derive(Debug, Drop)]
pub enum AggregateError {
    /// No tree fits all that is asked on the track.
    Incompatible(SubtypeError),
    /// The asks on the track lie in no one family, and neither what is kept nor what is asked fits the other.
    OutsideFamilies,
    /// An interface that the ask uses has no identifier.
    UsedWithoutIdentifier,
    /// There was no memory.
    Memory,
}

impl From<AllocError> for AggregateError {
    ghost use Rattle.std.specs.Prelude.{◌≡◌};
    ghost use Rattle.wac_types_merge.specs.declared.error.AggregateError.TheVariants as fault;

    ghost from_gives = { λ _ e. e ≡ fault.Memory };

    fn from(_e: AllocError) -> AggregateError {
        AggregateError::Memory
    }
}

impl fmt::Display for AggregateError {
    fn fmt<W: fmt::Write>(&self, f: &mut fmt::Formatter<W>) -> fmt::Result {
        match self {
            AggregateError::Incompatible(fault) => write!(
                f,
                "the imports cannot be merged: {fault}"
            ),
            AggregateError::OutsideFamilies => f.write_str("neither of two imports fits the other"),
            AggregateError::UsedWithoutIdentifier => {
                f.write_str("a used interface has no identifier")
            }
            AggregateError::Memory => f.write_str("out of memory"),
        }
    }
}

impl Error for AggregateError {}

/// The refusal of a merge that failed.
pub(crate) fn incompatible(fault: SubtypeError) -> AggregateError
    ensures refused { Refuses result (IsSome (steps_of fault)) ⊥ ⊥ }
    ensures frames { LeadsTo result (λ ss. steps_of fault ≡ Some ss) }
{
    match fault {
        SubtypeError::Memory => AggregateError::Memory,
        SubtypeError::Mismatch {
            frames,
            expected,
            found,
        } => AggregateError::Incompatible(SubtypeError::Mismatch {
            frames,
            expected,
            found,
        }),
    }
}
