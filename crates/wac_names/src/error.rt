//! Why a text is no name, and why two names cannot stand beside each other.

use thiserror::Error;

/// Why a text is no name of an import or an export.
#[derive(Clone, Copy, Debug, PartialEq, Eq, Error)]
pub enum NameError {
    #[error("not a label, an interface, a dependency, a URL or a hash")]
    InvalidName,
}

/// Two names that are equal, or that differ in the case of letters alone.
#[derive(Debug, Drop, Error)]
pub enum ValidationFault {
    #[error("the imports `{0}` and `{1}` have names that are too alike")]
    ImportNames(String, String),
    #[error("the exports `{0}` and `{1}` have names that are too alike")]
    ExportNames(String, String),
}
