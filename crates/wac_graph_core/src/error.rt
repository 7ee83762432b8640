//! Why calls are refused.

use crate::ids::NodeId;
use std::alloc::{AllocError, AllocFailed};
use thiserror::Error;
pub use wac_names::NameError;
use wac_types_fit::SubtypeError;
use wac_types_names::PackageKey;

/// Why a package is not registered.
#[derive(Debug, Drop, Error)]
pub enum RegisterPackageError {
    #[error("package `{key}` is already registered")]
    PackageAlreadyRegistered { key: PackageKey },
    #[error("out of memory")]
    Memory,
}

/// Why a type is not defined.
#[derive(Debug, Drop, Error)]
pub enum DefineTypeError {
    #[error("the type is already defined in the graph")]
    TypeAlreadyDefined,
    #[error("a resource cannot be defined")]
    CannotDefineResource,
    #[error("type name `{name}` is not valid: {source}")]
    InvalidExternName { name: String, source: NameError },
    #[error("type name `{name}` conflicts with an export of that name")]
    ExportConflict { name: String },
    #[error("out of memory")]
    Memory,
}

/// Why an import is not added.
#[derive(Debug, Drop, Error)]
pub enum ImportError {
    #[error("import `{name}` already exists in the graph")]
    ImportAlreadyExists { name: String, node: NodeId },
    #[error("import name `{name}` is not valid: {source}")]
    InvalidImportName { name: String, source: NameError },
    #[error("out of memory")]
    Memory,
}

/// Why an export of an instance has no node.
#[derive(Debug, Drop, Error)]
pub enum AliasError {
    #[error("node {node} is not an instance")]
    NodeIsNotAnInstance { node: NodeId },
    #[error("instance {node} has no export `{export}`")]
    InstanceMissingExport { node: NodeId, export: String },
    #[error("out of memory")]
    Memory,
}

/// Why a node is not exported.
#[derive(Debug, Drop, Error)]
pub enum ExportError {
    #[error("export `{name}` already exists in the graph")]
    ExportAlreadyExists { name: String, node: NodeId },
    #[error("export name `{name}` is not valid: {source}")]
    InvalidExportName { name: String, source: NameError },
    #[error("out of memory")]
    Memory,
}

/// Why an export is not taken away.
#[derive(Debug, Drop, Error)]
pub enum UnexportError {
    #[error("a defined type must be exported")]
    MustExportDefinition,
}

/// Why an argument is not passed or taken back.
#[derive(Debug, Drop, Error)]
pub enum InstantiationArgumentError {
    #[error("node {node} is not an instance of a package")]
    NodeIsNotAnInstantiation {
        node: NodeId,
    },
    #[error("package `{package}` has no import `{name}`")]
    InvalidArgumentName {
        node: NodeId,
        name: String,
        package: String,
    },
    #[error("argument `{name}` was already passed to node {node}")]
    ArgumentAlreadyPassed {
        node: NodeId,
        name: String,
    },
    #[error("argument `{name}` has another type than the import: {source}")]
    ArgumentTypeMismatch {
        name: String,
        source: SubtypeError,
    },
    #[error("the argument would make node {node} depend on itself")]
    WouldFormCycle {
        node: NodeId,
    },
    #[error("out of memory")]
    Memory,
}

impl From<AllocError> for RegisterPackageError {
    ghost use Rattle.std.specs.Prelude.{◌≡◌};
    ghost use Rattle.wac_graph_core.specs.declared.error.RegisterPackageError.{RegisterPackageError};

    ghost from_gives = { λ _ e. e ≡ RegisterPackageError.Memory };

    fn from(_e: AllocError) -> Self {
        RegisterPackageError::Memory
    }
}

impl<T: Drop> From<AllocFailed<T>> for RegisterPackageError {
    ghost use Rattle.std.specs.Prelude.{◌≡◌};
    ghost use Rattle.wac_graph_core.specs.declared.error.RegisterPackageError.{RegisterPackageError};

    ghost from_gives = { λ _ e. e ≡ RegisterPackageError.Memory };

    fn from(_e: AllocFailed<T>) -> Self {
        RegisterPackageError::Memory
    }
}

impl From<AllocError> for DefineTypeError {
    ghost use Rattle.std.specs.Prelude.{◌≡◌};
    ghost use Rattle.wac_graph_core.specs.declared.error.DefineTypeError.{DefineTypeError};

    ghost from_gives = { λ _ e. e ≡ DefineTypeError.Memory };

    fn from(_e: AllocError) -> Self {
        DefineTypeError::Memory
    }
}

impl From<AllocError> for ImportError {
    ghost use Rattle.std.specs.Prelude.{◌≡◌};
    ghost use Rattle.wac_graph_core.specs.declared.error.ImportError.{ImportError};

    ghost from_gives = { λ _ e. e ≡ ImportError.Memory };

    fn from(_e: AllocError) -> Self {
        ImportError::Memory
    }
}

impl From<AllocError> for AliasError {
    ghost use Rattle.std.specs.Prelude.{◌≡◌};
    ghost use Rattle.wac_graph_core.specs.declared.error.AliasError.{AliasError};

    ghost from_gives = { λ _ e. e ≡ AliasError.Memory };

    fn from(_e: AllocError) -> Self {
        AliasError::Memory
    }
}

impl From<AllocError> for ExportError {
    ghost use Rattle.std.specs.Prelude.{◌≡◌};
    ghost use Rattle.wac_graph_core.specs.declared.error.ExportError.{ExportError};

    ghost from_gives = { λ _ e. e ≡ ExportError.Memory };

    fn from(_e: AllocError) -> Self {
        ExportError::Memory
    }
}

impl From<AllocError> for InstantiationArgumentError {
    ghost use Rattle.std.specs.Prelude.{◌≡◌};
    ghost use Rattle.wac_graph_core.specs.declared.error.InstantiationArgumentError.{InstantiationArgumentError};

    ghost from_gives = { λ _ e. e ≡ InstantiationArgumentError.Memory };

    fn from(_e: AllocError) -> Self {
        InstantiationArgumentError::Memory
    }
}
