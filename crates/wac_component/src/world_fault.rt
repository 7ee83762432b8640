//! Why no world is answered.
use crate::fault::{FaultKind, Stop};
use std::alloc::{AllocError, AllocFailed};
use thiserror::Error;

/// What is not known of a component, or does not fit.
#[derive(Clone, Copy, Debug, PartialEq, Eq, Error)]
pub enum WorldFault {
    /// An index stands for nothing, or for something of another kind.
    #[error("an index stands for nothing that fits here")]
    Index,
    /// An instance has no export of that name and sort.
    #[error("an instance has no such export")]
    Export,
    /// A nested component is instantiated without an argument that it imports.
    #[error("an argument of an instance is missing")]
    Argument,
    /// A name stands twice.
    #[error("a name stands twice")]
    Name,
    /// Values are not known.
    #[error("values are not known")]
    Value,
    /// Core modules are neither imported nor exported.
    #[error("an import or an export of a core module")]
    CoreModule,
    /// A nested component is not exported.
    #[error("an export of a nested component")]
    NestedComponent,
    /// Only a component that is nested here is instantiated.
    #[error("an instance of a component that is not nested here")]
    ForeignComponent,
    /// An instance or a component is exported as another type than its own.
    #[error("an export of an instance or a component at a type that is said")]
    Ascribed,
    /// An instance type with resources of its own is used twice.
    #[error("an instance type with resources of its own is used twice")]
    Resources,
    /// Components or types are nested too deep.
    #[error("components or types are nested too deep")]
    Depth,
    /// Nested components are instantiated too often.
    #[error("too many instances of nested components")]
    Instances,
}

/// Why there is no world.
#[derive(Debug, Drop, Error)]
pub enum WorldError {
    /// The bytes are no component: reading stopped at this offset, in bytes.
    #[error("{kind} at offset {offset}")]
    Unread { offset: usize, kind: FaultKind },
    /// What stands in the section that begins at this offset is refused.
    #[error("{kind} in the section at offset {offset}")]
    Refused { offset: usize, kind: WorldFault },
    #[error("out of memory")]
    Memory,
}

/// Why a step gives up.
#[derive(Debug, Drop)]
pub enum Halt {
    Unread(usize, FaultKind),
    Refused(WorldFault),
    Memory,
}

/// Why reading stopped, in bytes that end at this offset.
pub(crate) fn halt_of(stop: Stop, end: usize) -> Halt {
    match stop {
        Stop::Fault(fault) => Halt::Unread(end.saturating_sub(fault.left), fault.kind),
        Stop::Memory => Halt::Memory,
    }
}

impl From<AllocError> for Halt {
    fn from(_e: AllocError) -> Halt {
        Halt::Memory
    }
}

impl<T: Drop> From<AllocFailed<T>> for Halt {
    fn from(_e: AllocFailed<T>) -> Halt {
        Halt::Memory
    }
}
