//! Why bytes could not be read.
ghost use Rattle.std.specs.Prelude.{◌≡◌};
ghost use Rattle.wac_component.specs.declared.fault.Stop.TheVariants.{Memory};

use std::alloc::{AllocError, AllocFailed};
use thiserror::Error;

/// What is wrong.
#[derive(Clone, Copy, Debug, PartialEq, Eq, Error)]
pub enum FaultKind {
    /// The bytes end too early.
    #[error("the bytes end too early")]
    Short,
    /// No component begins here.
    #[error("no component begins here")]
    Preamble,
    /// A number passes 32 bits, or it is negative.
    #[error("a number passes 32 bits or is negative")]
    Number,
    /// A name is no UTF-8.
    #[error("a name is no UTF-8")]
    Text,
    /// What stands in a section does not end with it.
    #[error("a section does not end with what it holds")]
    Size,
    /// No section has this number.
    #[error("no section has this number")]
    Section,
    /// Values are not read: a section, an import or an export of them.
    #[error("values are not read")]
    Value,
    /// No type of a core module is written so, or it is not read: with addresses of 64 bits, or with aliases.
    #[error("no core type that is known")]
    CoreType,
    /// No sort is written so.
    #[error("no sort is written so")]
    Sort,
    /// No type of a value is written so.
    #[error("no type of a value is written so")]
    ValueType,
    /// No type is written so.
    #[error("no type is written so")]
    Type,
    /// Neither 0 nor 1 says whether something follows.
    #[error("neither 0 nor 1")]
    Flag,
    /// No answer of a function is written so.
    #[error("no answer of a function is written so")]
    Answer,
    /// A resource has no other representation than `i32`.
    #[error("no representation of a resource")]
    Representation,
    /// No import or export is said to be so.
    #[error("no description is written so")]
    Description,
    /// No alias is written so.
    #[error("no alias is written so, or not here")]
    Alias,
    /// No declaration is written so, or an import stands in an instance type.
    #[error("no declaration is written so, or not here")]
    Declaration,
    /// Types are nested too deep.
    #[error("types are nested too deep")]
    Depth,
    /// No instance is written so.
    #[error("no instance is written so")]
    Instance,
    /// No name of an import or an export is written so.
    #[error("no name of an import or an export is written so")]
    Name,
    /// Options of a name are not read.
    #[error("options of a name are not read")]
    NameOptions,
    /// No canonical function has this number.
    #[error("no canonical function that is known")]
    Canonical,
    /// No option of a canonical function has this number.
    #[error("no option of a canonical function that is known")]
    CanonicalOption,
}

/// What is wrong, and how many bytes are left from there on.
#[derive(Clone, Copy, Debug, PartialEq, Eq)]
pub struct Fault {
    pub kind: FaultKind,
    pub left: usize,
}

/// Why bytes are not read.
#[derive(Debug, Drop, Error)]
pub enum ReadError {
    /// Reading stopped at this offset, in bytes.
    #[error("{kind} at offset {offset}")]
    Refused { offset: usize, kind: FaultKind },
    #[error("out of memory")]
    Memory,
}

/// Why a reader stops.
#[derive(Debug, Drop)]
pub enum Stop {
    Fault(Fault),
    Memory,
}

impl From<AllocError> for Stop {
    ghost from_gives = { λ _ e. e ≡ Memory };

    fn from(_e: AllocError) -> Stop {
        Stop::Memory
    }
}

impl<T: Drop> From<AllocFailed<T>> for Stop {
    ghost from_gives = { λ _ e. e ≡ Memory };

    fn from(_e: AllocFailed<T>) -> Stop {
        Stop::Memory
    }
}
