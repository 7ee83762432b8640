//! What indexes stand for, scope in scope.
use std::alloc::{AllocFailed, Global};
use wac_types_base::{FuncTypeId, InterfaceId, Type, WorldId};

/// Where a type comes from: an export of an interface.
#[derive(Clone, Copy, Debug, PartialEq, Eq)]
pub struct Origin {
    pub interface: InterfaceId,
    /// The place among its exports.
    pub place: usize,
}

/// What the index of a type stands for.
#[derive(Clone, Copy, Debug, PartialEq, Eq)]
pub struct TypeItem {
    pub ty: Type,
    pub origin: Option<Origin>,
    /// Whether it is an instance type with resources of its own.
    pub has_resources: bool,
}

/// What the index of a component stands for.
#[derive(Clone, Copy, Debug)]
pub enum ComponentItem<'a> {
    /// The bytes of a nested component, the offset of the first, and how many scopes it stands in.
    Nested(&'a [u8], usize, usize),
    World(WorldId),
}

/// What an index stands for.
#[derive(Clone, Copy, Debug)]
pub enum Bound<'a> {
    Func(FuncTypeId),
    Ty(TypeItem),
    Instance(InterfaceId),
    Component(ComponentItem<'a>),
    Core,
}

/// What stands at the indexes of one sort. The last scope is the innermost.
#[derive(Drop)]
pub struct Space<T> {
    items: Vec<T>,
    starts: Vec<usize>,
}

impl<T: Copy> Space<T> {
    pub fn new(alloc: Global) -> Self {
        Space {
            items: Vec::new(alloc),
            starts: Vec::new(alloc),
        }
    }

    /// How many scopes are open.
    pub fn scopes(&self) -> usize {
        self.starts.len()
    }

    pub fn enter(&mut self) -> Result<(), AllocFailed<usize>> {
        self.starts.push(self.items.len())
    }

    pub fn leave(&mut self) {
        if let Some(start) = self.starts.pop() {
            self.items.truncate(start);
        }
    }

    pub fn push(&mut self, item: T) -> Result<(), AllocFailed<T>> {
        self.items.push(item)
    }

    /// What stands at an index of the scope that many scopes further out.
    pub fn get(&self, out: u64, index: u64) -> Option<T> {
        let above = self.starts.len().checked_sub(out as usize)?;
        let start = *self.starts.get(above.checked_sub(1)?)?;
        let end = match self.starts.get(above) {
            Some(end) => *end,
            None => self.items.len(),
        };
        let at = start.checked_add(index as usize)?;
        if at < end {
            self.items.get(at).copied()
        } else {
            None
        }
    }
}
