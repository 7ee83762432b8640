//! Why a manifest is not read.

use std::alloc::{AllocError, AllocFailed};
use std::error::Error;
use std::fmt;

/// Why a manifest is not read.
#[derive(Clone, Copy, Debug, PartialEq, Eq)]
pub enum ManifestError {
    /// The text is no manifest.
    Bad,
    Memory,
}

impl fmt::Display for ManifestError {
    ghost use Rattle.std.specs.Prelude.{Some};
    ghost use Rattle.wac_manifest.specs.Words.{manifest_words};

    ghost output = { λ e. Some (manifest_words e) };

    fn fmt<W: fmt::Write>(&self, f: &mut fmt::Formatter<W>) -> fmt::Result {
        f.write_str(match self {
            ManifestError::Bad => "bad manifest",
            ManifestError::Memory => "out of memory",
        })
    }
}

impl Error for ManifestError {}

impl From<AllocError> for ManifestError {
    ghost use Rattle.std.specs.Prelude.{◌≡◌};
    ghost use Rattle.wac_manifest.specs.declared.error.ManifestError.{ManifestError};

    ghost from_gives = { λ _ e. e ≡ ManifestError.Memory };

    fn from(_: AllocError) -> Self {
        ManifestError::Memory
    }
}

impl<T: Drop> From<AllocFailed<T>> for ManifestError {
    ghost use Rattle.std.specs.Prelude.{◌≡◌};
    ghost use Rattle.wac_manifest.specs.declared.error.ManifestError.{ManifestError};

    ghost from_gives = { λ _ e. e ≡ ManifestError.Memory };

    fn from(_: AllocFailed<T>) -> Self {
        ManifestError::Memory
    }
}
