//! Why packages are not plugged.

use std::alloc::{AllocError, AllocFailed};
use thiserror::Error;
use wac_graph_core::{ExportError, InstantiationArgumentError};

/// Which call of the graph was refused.
#[derive(Debug, Drop, Error)]
pub enum PlugFault {
    #[error("{0}")]
    Argument(InstantiationArgumentError),
    #[error("{0}")]
    Export(ExportError),
}

/// Why packages are not plugged.
#[derive(Debug, Drop, Error)]
pub enum PlugError {
    #[error("no plug matches an import of the socket")]
    NoPlugHappened,
    #[error("the graph refuses a plug: {source}")]
    GraphError { source: PlugFault },
    #[error("out of memory")]
    Memory,
}

impl From<AllocError> for PlugError {
    ghost use Rattle.std.specs.Prelude.{◌≡◌};
    ghost use Rattle.wac_graph_plug.specs.declared.error.PlugError.{PlugError};

    ghost from_gives = { λ _ e. e ≡ PlugError.Memory };

    fn from(_e: AllocError) -> Self {
        PlugError::Memory
    }
}

impl<T: Drop> From<AllocFailed<T>> for PlugError {
    ghost use Rattle.std.specs.Prelude.{◌≡◌};
    ghost use Rattle.wac_graph_plug.specs.declared.error.PlugError.{PlugError};

    ghost from_gives = { λ _ e. e ≡ PlugError.Memory };

    fn from(_e: AllocFailed<T>) -> Self {
        PlugError::Memory
    }
}
