//! Why the outer imports of a graph are not found.

use std::alloc::{AllocError, AllocFailed};
use wac_graph_core::NodeId;
use wac_types_merge::AggregateError;

/// Why the outer imports of a graph are not found.
#[derive(Drop)]
pub enum OuterError {
    /// An import of the graph does not merge with what is asked before it in its class.
    ExplicitImportConflict {
        name: String,
        /// The node of the class's first ask, and the one that does not merge.
        first: NodeId,
        second: NodeId,
    },
    /// What an instance leaves, or what a type uses, does not merge with what is asked before it in its class.
    ImportTypeMergeConflict {
        import: String,
        first: NodeId,
        second: NodeId,
        source: AggregateError,
    },
    Memory,
}

impl From<AllocError> for OuterError {
    ghost use Rattle.std.specs.Prelude.{◌≡◌};
    ghost use Rattle.wac_graph_asks.specs.declared.error.OuterError.{OuterError};

    ghost from_gives = { λ _ e. e ≡ OuterError.Memory };

    fn from(_e: AllocError) -> Self {
        OuterError::Memory
    }
}

impl<T: Drop> From<AllocFailed<T>> for OuterError {
    ghost use Rattle.std.specs.Prelude.{◌≡◌};
    ghost use Rattle.wac_graph_asks.specs.declared.error.OuterError.{OuterError};

    ghost from_gives = { λ _ e. e ≡ OuterError.Memory };

    fn from(_e: AllocFailed<T>) -> Self {
        OuterError::Memory
    }
}
