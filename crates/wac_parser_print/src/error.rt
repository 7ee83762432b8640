//! Why a text was not printed.

use thiserror::Error;

/// Why a printer did not print a text.
#[derive(Clone, Copy, Debug, PartialEq, Eq, Error)]
pub enum PrintError {
    /// The writer failed, or took nothing of what it was given.
    #[error("the writer failed")]
    Write,
    /// A write of this printer had failed before, so nothing was written.
    #[error("a write of this printer had failed")]
    Failed,
}
