//! Names of nodes and packages.

ghost use Rattle.std.specs.Prelude.{◌≡◌};

use std::fmt;
use std::marker::Model;

/// A node of a graph, seen as its index. It prints its index. A new node has a greater one than all that stand.
#[derive(Clone, Copy, Debug, PartialEq, Eq, PartialOrd, Ord, Hash)]
pub struct NodeId {
    index: usize,
}

impl Model for NodeId {
    ghost use Rattle.std.specs.Prelude.{ℕ};

    ghost Value = { ℕ };

    ghost view = { λ a. a.index };

    ghost inverse = { λ n. record { index = n } };
}

impl NodeId {
    /// The node of this index.
    pub(crate) fn new(index: usize) -> Self
        ensures { result ≡ index }
    {
        NodeId { index }
    }

    /// The index of the node.
    pub(crate) fn index(self) -> usize
        ensures { result ≡ self }
    {
        self.index
    }
}

impl fmt::Display for NodeId {
    fn fmt<W: fmt::Write>(&self, f: &mut fmt::Formatter<W>) -> fmt::Result {
        fmt::Display::fmt(&self.index, f)
    }
}

/// A package of a graph: its place, and how often a package was unregistered there before.
#[derive(Clone, Copy, Debug, PartialEq, Eq, PartialOrd, Ord, Hash)]
pub struct PackageId {
    pub place: usize,
    pub generation: u64,
}
