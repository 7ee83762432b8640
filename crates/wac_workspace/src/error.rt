//! Why packages, sources and streams are refused.

use std::alloc::{AllocError, AllocFailed};
use std::fmt;
use thiserror::Error;
use wac_parser_grammar::Error as ParseError;
use wac_parser_resolve::Error as ResolutionError;
use wac_streams::WriteError;
use wac_types_fit::TargetValidationReport;

/// Why a package was not added.
#[derive(Debug, Drop)]
pub enum AddPackageError {
    /// The key stands in the workspace.
    KeyTaken,
    /// The bytes are those of a package that stands in the workspace.
    BytesTaken,
    /// The next number is the greatest `u64`, which is never given out.
    NumbersExhausted,
    Memory,
}

impl fmt::Display for AddPackageError {
    ghost use Rattle.std.specs.Prelude.{Some};
    ghost use Rattle.wac_workspace.specs.Words.{adding_words};

    ghost output = { λ e. Some (adding_words e) };

    fn fmt<W: fmt::Write>(&self, f: &mut fmt::Formatter<W>) -> fmt::Result {
        f.write_str(match self {
            AddPackageError::KeyTaken => "a package with this key is already there",
            AddPackageError::BytesTaken => "these bytes are already there",
            AddPackageError::NumbersExhausted => "collection numbers have run out",
            AddPackageError::Memory => "out of memory",
        })
    }
}

impl std::error::Error for AddPackageError {}

impl From<AllocError> for AddPackageError {
    ghost use Rattle.std.specs.Prelude.{◌≡◌};
    ghost use Rattle.wac_workspace.specs.declared.error.AddPackageError.{AddPackageError};

    ghost from_gives = { λ _ e. e ≡ AddPackageError.Memory };

    fn from(_: AllocError) -> Self {
        AddPackageError::Memory
    }
}

impl<T: Drop> From<AllocFailed<T>> for AddPackageError {
    ghost use Rattle.std.specs.Prelude.{◌≡◌};
    ghost use Rattle.wac_workspace.specs.declared.error.AddPackageError.{AddPackageError};

    ghost from_gives = { λ _ e. e ≡ AddPackageError.Memory };

    fn from(_: AllocFailed<T>) -> Self {
        AddPackageError::Memory
    }
}

/// Why a source was not composed.
#[derive(Debug, Drop)]
pub enum ComposeError {
    /// The source is no document.
    Parse(ParseError),
    /// Three more numbers would pass the greatest `u64`, which is never given out.
    NumbersExhausted,
    /// The document has no component over these packages.
    Resolution(ResolutionError),
    /// The component does not meet the world that the directive targets.
    Target(TargetValidationReport),
    /// The directive's key stands in the workspace.
    KeyTaken,
    /// The component has the bytes of a handed component.
    BytesTaken,
    Memory,
}

impl fmt::Display for ComposeError {
    ghost use Rattle.wac_workspace.specs.Words.{composing_words};

    ghost output = { composing_words };

    fn fmt<W: fmt::Write>(&self, f: &mut fmt::Formatter<W>) -> fmt::Result {
        match self {
            ComposeError::Parse(fault) => write!(f, "{fault}"),
            ComposeError::NumbersExhausted => f.write_str("collection numbers have run out"),
            ComposeError::Resolution(fault) => write!(f, "{fault}"),
            ComposeError::Target(_) => f.write_str("the output does not meet its target world"),
            ComposeError::KeyTaken => f.write_str("a package with this key is already there"),
            ComposeError::BytesTaken => f.write_str("these bytes are already there"),
            ComposeError::Memory => f.write_str("out of memory"),
        }
    }
}

impl std::error::Error for ComposeError {}

impl From<AllocError> for ComposeError {
    ghost use Rattle.std.specs.Prelude.{◌≡◌};
    ghost use Rattle.wac_workspace.specs.declared.error.ComposeError.{ComposeError};

    ghost from_gives = { λ _ e. e ≡ ComposeError.Memory };

    fn from(_: AllocError) -> Self {
        ComposeError::Memory
    }
}

impl<T: Drop> From<AllocFailed<T>> for ComposeError {
    ghost use Rattle.std.specs.Prelude.{◌≡◌};
    ghost use Rattle.wac_workspace.specs.declared.error.ComposeError.{ComposeError};

    ghost from_gives = { λ _ e. e ≡ ComposeError.Memory };

    fn from(_: AllocFailed<T>) -> Self {
        ComposeError::Memory
    }
}

impl From<ParseError> for ComposeError {
    ghost use Rattle.wac_workspace.specs.Faults.{IsParsing};

    ghost from_gives = { IsParsing };

    fn from(error: ParseError) -> Self {
        match error {
            ParseError::Memory => ComposeError::Memory,
            error => ComposeError::Parse(error),
        }
    }
}

impl From<ResolutionError> for ComposeError {
    ghost use Rattle.wac_workspace.specs.Faults.{IsResolving};

    ghost from_gives = { IsResolving };

    fn from(error: ResolutionError) -> Self {
        match error {
            ResolutionError::Memory => ComposeError::Memory,
            error => ComposeError::Resolution(error),
        }
    }
}

/// Why a stream was not composed.
#[derive(Debug, Drop, Error)]
pub enum StreamError {
    /// The reader failed.
    #[error("the source cannot be read")]
    Read,
    /// The source has more than [`MAX_SOURCE_LENGTH`](crate::MAX_SOURCE_LENGTH) bytes.
    #[error("the source is too long")]
    SourceTooLong,
    #[error("the source is no UTF-8")]
    NotUtf8,
    /// The source is refused.
    #[error("{0}")]
    Compose(ComposeError),
    /// The writer failed, or took nothing.
    #[error("the component cannot be written")]
    Write,
    #[error("out of memory")]
    Memory,
}

impl From<AllocError> for StreamError {
    ghost use Rattle.std.specs.Prelude.{◌≡◌};
    ghost use Rattle.wac_workspace.specs.declared.error.StreamError.{StreamError};

    ghost from_gives = { λ _ e. e ≡ StreamError.Memory };

    fn from(_: AllocError) -> Self {
        StreamError::Memory
    }
}

impl From<ComposeError> for StreamError {
    ghost use Rattle.std.specs.Prelude.{◌≡◌};
    ghost use Rattle.wac_workspace.specs.declared.error.StreamError.{StreamError};

    ghost from_gives = { λ f e. e ≡ StreamError.Compose f };

    fn from(error: ComposeError) -> Self {
        StreamError::Compose(error)
    }
}

impl From<WriteError> for StreamError {
    ghost use Rattle.std.specs.Prelude.{◌≡◌};
    ghost use Rattle.wac_workspace.specs.declared.error.StreamError.{StreamError};

    ghost from_gives = { λ _ e. e ≡ StreamError.Write };

    fn from(_: WriteError) -> Self {
        StreamError::Write
    }
}
