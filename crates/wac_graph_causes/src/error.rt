//! Why a graph is not encoded.

ghost use Rattle.std.specs.Prelude.{◌≡◌};
ghost use Rattle.wac_graph_causes.specs.Acyclic.{IsNoCycle};
ghost use Rattle.wac_graph_causes.specs.Refusals.{refusal_shown};

use std::alloc::{AllocError, AllocFailed};
use std::fmt;
use wac_graph_asks::OuterError;
use wac_graph_core::NodeId;
use wac_names::ValidationFault;
use wac_types_merge::AggregateError;
use wac_types_names::PackageKey;

/// Why a graph is not encoded.
#[derive(Debug, Drop)]
pub enum EncodeError {
    /// Never answered, since no graph has a cycle.
    GraphContainsCycle {
        node: NodeId,
    },
    ImplicitImportConflict {
        import: NodeId,
        instantiation: NodeId,
        package: PackageKey,
        name: String,
    },
    ExplicitImportConflict {
        name: String,
        first: NodeId,
        second: NodeId,
    },
    ImportTypeMergeConflict {
        import: String,
        first: NodeId,
        second: NodeId,
        source: AggregateError,
    },
    TypeCannotBeWritten {
        name: String,
    },
    /// A type was not written against which no cause stands. No graph is known of which it is answered.
    TypeNotWritten,
    TooLarge,
    ValidationFailure {
        source: ValidationFault,
    },
    Memory,
}

/// Writes that an import of a package has the name of an import of the graph.
fn write_implicit<W: fmt::Write>(
    f: &mut fmt::Formatter<W>,
    name: &str,
    package: &PackageKey,
) -> fmt::Result {
    write!(
        f,
        "import `{name}` of package `{package}` has the name of an import of the graph"
    )
}

/// Writes that an import does not merge.
fn write_explicit<W: fmt::Write>(f: &mut fmt::Formatter<W>, name: &str) -> fmt::Result {
    write!(f, "import `{name}` does not merge with an earlier import")
}

/// Writes why an import does not merge.
fn write_merge<W: fmt::Write>(
    f: &mut fmt::Formatter<W>,
    import: &str,
    source: &AggregateError,
) -> fmt::Result {
    write!(
        f,
        "import `{import}` does not merge with an earlier import: {source}"
    )
}

/// Writes under which name a type cannot be written.
fn write_unwritable<W: fmt::Write>(f: &mut fmt::Formatter<W>, name: &str) -> fmt::Result {
    write!(f, "a type of `{name}` cannot be written")
}

impl fmt::Display for EncodeError {
    fn fmt<W: fmt::Write>(&self, f: &mut fmt::Formatter<W>) -> fmt::Result {
        match self {
            EncodeError::GraphContainsCycle { node } => {
                write!(f, "the graph contains a cycle at node {node}")
            }
            EncodeError::ImplicitImportConflict { package, name, .. } => {
                write_implicit(f, name.as_str(), package)
            }
            EncodeError::ExplicitImportConflict { name, .. } => write_explicit(f, name.as_str()),
            EncodeError::ImportTypeMergeConflict { import, source, .. } => {
                write_merge(f, import.as_str(), source)
            }
            EncodeError::TypeCannotBeWritten { name } => write_unwritable(f, name.as_str()),
            EncodeError::TypeNotWritten => f.write_str("a type that can be written was not"),
            EncodeError::TooLarge => f.write_str("the component is too large"),
            EncodeError::ValidationFailure { source } => {
                write!(f, "the encoding of the graph failed validation: {source}")
            }
            EncodeError::Memory => f.write_str("out of memory"),
        }
    }
}

impl std::error::Error for EncodeError {}

/// Why a graph is not encoded, but for cycles: no graph has one.
#[derive(Drop)]
pub enum Refusal {
    ImplicitImportConflict {
        import: NodeId,
        instantiation: NodeId,
        package: PackageKey,
        name: String,
    },
    ExplicitImportConflict {
        name: String,
        first: NodeId,
        second: NodeId,
    },
    ImportTypeMergeConflict {
        import: String,
        first: NodeId,
        second: NodeId,
        source: AggregateError,
    },
    TypeCannotBeWritten {
        name: String,
    },
    TypeNotWritten,
    TooLarge,
    ValidationFailure {
        source: ValidationFault,
    },
    Memory,
}

/// The public error of a refusal.
pub fn error_of(refusal: Refusal) -> EncodeError
    ensures shown { result ≡ refusal_shown refusal }
    ensures acyclic { IsNoCycle result }
{
    match refusal {
        Refusal::ImplicitImportConflict {
            import,
            instantiation,
            package,
            name,
        } => EncodeError::ImplicitImportConflict {
            import,
            instantiation,
            package,
            name,
        },
        Refusal::ExplicitImportConflict {
            name,
            first,
            second,
        } => EncodeError::ExplicitImportConflict {
            name,
            first,
            second,
        },
        Refusal::ImportTypeMergeConflict {
            import,
            first,
            second,
            source,
        } => EncodeError::ImportTypeMergeConflict {
            import,
            first,
            second,
            source,
        },
        Refusal::TypeCannotBeWritten { name } => EncodeError::TypeCannotBeWritten { name },
        Refusal::TypeNotWritten => EncodeError::TypeNotWritten,
        Refusal::TooLarge => EncodeError::TooLarge,
        Refusal::ValidationFailure { source } => EncodeError::ValidationFailure { source },
        Refusal::Memory => EncodeError::Memory,
    }
}

/// Why it is not written against which no conflict stands.
#[derive(Drop)]
pub enum Unwritten {
    TypeCannotBeWritten { name: String },
    Memory,
}

impl From<AllocError> for Unwritten {
    ghost use Rattle.std.specs.Prelude.{◌≡◌};
    ghost use Rattle.wac_graph_causes.specs.declared.error.Unwritten.{Unwritten};

    ghost from_gives = { λ _ e. e ≡ Unwritten.Memory };

    fn from(_e: AllocError) -> Self {
        Unwritten::Memory
    }
}

impl<T: Drop> From<AllocFailed<T>> for Unwritten {
    ghost use Rattle.std.specs.Prelude.{◌≡◌};
    ghost use Rattle.wac_graph_causes.specs.declared.error.Unwritten.{Unwritten};

    ghost from_gives = { λ _ e. e ≡ Unwritten.Memory };

    fn from(_e: AllocFailed<T>) -> Self {
        Unwritten::Memory
    }
}

impl From<Unwritten> for Refusal {
    ghost use Rattle.std.specs.Prelude.{◌≡◌};
    ghost use Rattle.wac_graph_causes.specs.Refusals.{unwritten_refusal};

    ghost from_gives = { λ f e. e ≡ unwritten_refusal f };

    fn from(e: Unwritten) -> Self {
        match e {
            Unwritten::TypeCannotBeWritten { name } => Refusal::TypeCannotBeWritten { name },
            Unwritten::Memory => Refusal::Memory,
        }
    }
}

impl From<AllocError> for Refusal {
    ghost use Rattle.std.specs.Prelude.{◌≡◌};
    ghost use Rattle.wac_graph_causes.specs.declared.error.Refusal.{Refusal};

    ghost from_gives = { λ _ e. e ≡ Refusal.Memory };

    fn from(_e: AllocError) -> Self {
        Refusal::Memory
    }
}

impl<T: Drop> From<AllocFailed<T>> for Refusal {
    ghost use Rattle.std.specs.Prelude.{◌≡◌};
    ghost use Rattle.wac_graph_causes.specs.declared.error.Refusal.{Refusal};

    ghost from_gives = { λ _ e. e ≡ Refusal.Memory };

    fn from(_e: AllocFailed<T>) -> Self {
        Refusal::Memory
    }
}

impl From<OuterError> for Refusal {
    ghost use Rattle.std.specs.Prelude.{◌≡◌};
    ghost use Rattle.wac_graph_causes.specs.Refusals.{outer_refusal};

    ghost from_gives = { λ f e. e ≡ outer_refusal f };

    fn from(e: OuterError) -> Self {
        match e {
            OuterError::ExplicitImportConflict {
                name,
                first,
                second,
            } => Refusal::ExplicitImportConflict {
                name,
                first,
                second,
            },
            OuterError::ImportTypeMergeConflict {
                import,
                first,
                second,
                source,
            } => Refusal::ImportTypeMergeConflict {
                import,
                first,
                second,
                source,
            },
            OuterError::Memory => Refusal::Memory,
        }
    }
}
