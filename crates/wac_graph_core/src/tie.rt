//! What hangs on a node, and in which order it is kept.

ghost use Rattle.std.specs.Prelude.{◌≡◌, IfOk};
ghost use Rattle.wac_graph_core.specs.Ties.{tie_cmp, tie_cmp_total, label_of, end_of};
ghost use Rattle.wac_graph_core.specs.Edges.{follows};

use crate::count::Count;
use crate::edge::Follow;
use crate::ids::NodeId;
use crate::order::KeyOrder;
use std::alloc::AllocError;
use std::cmp::Ordering;
use wac_types_base::Text;

/// What hangs on a node.
#[derive(Drop)]
pub enum Tie {
    /// Its export of this name, as a node.
    Alias(Text),
    /// An instantiation, to which it is passed as this argument.
    Argument(NodeId, Text),
    /// A definition whose type uses the type that it defines.
    Dependency(NodeId),
}

/// Aliases by their names, then arguments by their instantiations and names, then definitions.
#[derive(Drop)]
pub struct ByTie {
    compared: Count,
}

impl ByTie {
    /// Nothing is compared yet.
    pub fn new() -> Self {
        ByTie {
            compared: Count::new(),
        }
    }
}

/// How two arguments stand.
fn compare_arguments(node: NodeId, name: &Text, other: NodeId, named: &Text) -> Ordering
    ensures { result ≡ tie_cmp (Tie.Argument node name.now) (Tie.Argument other named.now) }
{
    match node.index().cmp(&other.index()) {
        Ordering::Less => Ordering::Less,
        Ordering::Equal => name.as_str().cmp(named.as_str()),
        Ordering::Greater => Ordering::Greater,
    }
}

/// How two ties stand.
fn compare_ties(a: &Tie, b: &Tie) -> Ordering
    ensures { result ≡ tie_cmp a.now b.now }
{
    match a {
        Tie::Alias(name) => match b {
            Tie::Alias(other) => name.as_str().cmp(other.as_str()),
            Tie::Argument(_, _) => Ordering::Less,
            Tie::Dependency(_) => Ordering::Less,
        },
        Tie::Argument(node, name) => match b {
            Tie::Alias(_) => Ordering::Greater,
            Tie::Argument(other, named) => compare_arguments(*node, name, *other, named),
            Tie::Dependency(_) => Ordering::Less,
        },
        Tie::Dependency(node) => match b {
            Tie::Alias(_) => Ordering::Greater,
            Tie::Argument(_, _) => Ordering::Greater,
            Tie::Dependency(other) => node.index().cmp(&other.index()),
        },
    }
}

impl KeyOrder<Tie> for ByTie {
    ghost order = { tie_cmp };

    ghost count = { λ o. o.compared.number };

    fn compare(&mut self, a: &Tie, b: &Tie) -> Ordering {
        self.compared.raise();
        compare_ties(a, b)
    }

    ghost total = { tie_cmp_total };
}

impl Tie {
    /// The same tie again.
    pub(crate) fn copy(&self) -> Result<Tie, AllocError>
        ensures { IfOk result (λ tie. tie ≡ self.now) }
    {
        match self {
            Tie::Alias(name) => Ok(Tie::Alias(name.copy()?)),
            Tie::Argument(node, name) => Ok(Tie::Argument(*node, name.copy()?)),
            Tie::Dependency(node) => Ok(Tie::Dependency(*node)),
        }
    }

    /// Whether it is followed.
    pub(crate) fn is_followed(&self, follow: Follow) -> bool
        ensures { result ≡ follows follow (label_of self.now) }
    {
        match follow {
            Follow::Flow => match self {
                Tie::Alias(_) => true,
                Tie::Argument(_, _) => true,
                Tie::Dependency(_) => false,
            },
            Follow::Owned => match self {
                Tie::Alias(_) => true,
                Tie::Argument(_, _) => false,
                Tie::Dependency(_) => true,
            },
        }
    }

    /// Which node hangs by it, where this is the node of an alias.
    pub(crate) fn end(&self, alias: NodeId) -> NodeId
        ensures { result ≡ end_of self.now alias }
    {
        match self {
            Tie::Alias(_) => alias,
            Tie::Argument(node, _) => *node,
            Tie::Dependency(node) => *node,
        }
    }
}
