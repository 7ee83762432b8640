//! Edges, each kept at the node that it leaves, and arguments and sources besides at the node that it enters.

ghost use Rattle.std.specs.Prelude.{◌≡◌, ◌≢◌, [], ℕ, OnOk, OnErr, IfOk, IfSome, IfNone, false, slice_get, string_bytes};
ghost use Rattle.std.specs.Option.{option_copied};
ghost use Rattle.wac_types_base.specs.Entries.{Name};
ghost use Rattle.wac_types_base.specs.Graph.{Among};
ghost use Rattle.wac_graph_core.specs.Edges.{has, AreEdges, HasAlias, HasArgument, alias_edge, argument_edge, Stays};
ghost use Rattle.wac_graph_core.specs.Steps.{AddsEdge};
ghost use Rattle.wac_graph_core.specs.Walking.{first_argument};
ghost use Rattle.wac_graph_core.specs.Ties.{AreFrom, AddsDependencies};

use crate::ids::NodeId;
use crate::node_set::NodeSet;
use crate::places::{
    drop_argument, leave_all, make_argument_room, make_places, make_room, make_rooms, put_argument,
    put_dependant, put_dependants, put_users, set_source, take_argument,
};
use crate::tie::Tie;
use crate::ties::{Ties, find_passed, find_tie};
use std::alloc::{AllocError, Global};
use std::marker::Model;
use wac_types_base::Text;

/// The edges, kept at the nodes that they leave and enter.
#[derive(Drop)]
pub struct Edges {
    alloc: Global,
    /// By the indexes of nodes. Nothing is kept of a node that has no place.
    ties: Vec<Ties>,
}

impl Model for Edges {
    ghost use Rattle.std.specs.Prelude.{List};
    ghost use Rattle.wac_graph_core.specs.declared.edge.Edge.{Edge};

    ghost Value = { List Edge };

    ghost use Rattle.wac_graph_core.specs.EdgesView.{edges_of, IsTied};

    ghost view = { edges_of };

    ghost invariant = { IsTied };
}

/// What is kept of a node, if it has a place.
fn place_at(ties: &[Ties], node: NodeId) -> Option<&Ties>
    ensures { option_copied result ≡ slice_get ties.now node }
{
    ties.get(node.index())
}

impl Edges {
    /// No edges.
    pub(crate) fn new(alloc: Global) -> Self
        ensures { result ≡ [] }
    {
        Edges {
            alloc,
            ties: Vec::new(alloc),
        }
    }

    /// The same edges again.
    pub(crate) fn copy(&self, alloc: Global) -> Result<Edges, AllocError>
        ensures { IfOk result (λ copies. copies ≡ self.now) }
    {
        let mut ties = Vec::new(alloc);
        for own in self.ties.as_slice() {
            ties.push(own.copy(alloc)?)?;
        }
        Ok(Edges { alloc, ties })
    }

    /// What hangs on a node.
    pub(crate) fn dependants_of(&self, node: NodeId) -> &[(Tie, NodeId)]
        ensures { AreFrom self.now node result.now }
    {
        match place_at(self.ties.as_slice(), node) {
            Some(ties) => ties.dependants.as_slice(),
            None => &[],
        }
    }

    /// The alias of an export, if there is one.
    pub(crate) fn alias(&self, instance: NodeId, alias: &Tie) -> Option<NodeId>
        ensures found { (n : Name) → alias.now ≡ Tie.Alias n → IfSome result (λ k. HasAlias self.now instance n k) }
        ensures none { (n : Name) → alias.now ≡ Tie.Alias n → IfNone result ((k : ℕ) → HasAlias self.now instance n k → ⊥) }
    {
        match place_at(self.ties.as_slice(), instance) {
            Some(ties) => find_tie(&ties.dependants, alias),
            None => None,
        }
    }

    /// What is passed as an argument, if anything is.
    pub(crate) fn argument(&self, instantiation: NodeId, name: &String) -> Option<NodeId>
        ensures first { result ≡ first_argument self.now instantiation (string_bytes name.now) }
        ensures found { IfSome result (λ a. HasArgument self.now instantiation (string_bytes name.now) a) }
        ensures none { IfNone result ((a : ℕ) → HasArgument self.now instantiation (string_bytes name.now) a → ⊥) }
    {
        match place_at(self.ties.as_slice(), instantiation) {
            Some(ties) => find_passed(&ties.arguments, name),
            None => None,
        }
    }

    /// The instance and the export that a node is an alias of.
    pub(crate) fn source(&self, alias: NodeId) -> Option<(NodeId, &str)>
        ensures found { IfSome result (λ x. HasAlias self.now x.0 x.1.now alias) }
        ensures none { IfNone result ((i : ℕ) (n : Name) → HasAlias self.now i n alias → ⊥) }
    {
        match place_at(self.ties.as_slice(), alias) {
            Some(ties) => match &ties.source {
                Some((instance, name)) => Some((*instance, name.as_str())),
                None => None,
            },
            None => None,
        }
    }

    /// Adds the alias of an export that has none. The node is the alias of nothing yet.
    pub(crate) fn add_alias(
        &mut self,
        instance: NodeId,
        tie: Tie,
        name: Text,
        alias: NodeId,
    ) -> Result<(), AllocError>
        requires tie { tie ≡ Tie.Alias name }
        requires free { (i : ℕ) (n : Name) → HasAlias self.old i n alias → ⊥ }
        requires none { (k : ℕ) → HasAlias self.old instance name k → ⊥ }
        ensures added { OnOk result (AddsEdge self.old self.new (alias_edge instance alias name)) }
        ensures kept { OnErr result (self.new ≡ self.old) }
    {
        make_places(self.alloc, &mut self.ties, alias)?;
        make_room(self.alloc, &mut self.ties, instance, 1)?;
        set_source(&mut self.ties, alias, instance, name);
        put_dependant(&mut self.ties, instance, tie, alias);
        Ok(())
    }

    /// Passes a node to an instantiation under a name, under which nothing is passed.
    pub(crate) fn add_argument(
        &mut self,
        argument: NodeId,
        instantiation: NodeId,
        name: String,
    ) -> Result<(), AllocError>
        requires { (a : ℕ) → HasArgument self.old instantiation (string_bytes name) a → ⊥ }
        ensures added { OnOk result (AddsEdge self.old self.new (argument_edge argument instantiation (string_bytes name))) }
        ensures kept { OnErr result (self.new ≡ self.old) }
    {
        let own = Text::from_str(self.alloc, name.as_str())?;
        make_argument_room(self.alloc, &mut self.ties, instantiation)?;
        make_room(self.alloc, &mut self.ties, argument, 1)?;
        put_argument(&mut self.ties, instantiation, name, argument);
        let tie = Tie::Argument(instantiation, own);
        put_dependant(&mut self.ties, argument, tie, instantiation);
        Ok(())
    }

    /// Takes the edge of an argument away, if it is there.
    pub(crate) fn remove_argument(&mut self, argument: NodeId, instantiation: NodeId, name: String)
        ensures { AreEdges self.new (λ d. Among d self.old × (d ≢ argument_edge argument instantiation (string_bytes name))) }
    {
        if take_argument(&mut self.ties, instantiation, &name, argument) {
            drop_argument(&mut self.ties, argument, instantiation, name);
        }
    }

    /// Adds the dependencies of a node on others, and those of others on it.
    pub(crate) fn add_dependencies(
        &mut self,
        node: NodeId,
        sources: &[NodeId],
        targets: &[NodeId],
    ) -> Result<(), AllocError>
        requires { has sources.now node ≡ false }
        ensures added { OnOk result (AddsDependencies self.old self.new node sources.now targets.now) }
        ensures kept { OnErr result (self.new ≡ self.old) }
    {
        make_room(self.alloc, &mut self.ties, node, targets.len())?;
        make_rooms(self.alloc, &mut self.ties, sources)?;
        put_dependants(&mut self.ties, sources, node);
        put_users(&mut self.ties, node, targets);
        Ok(())
    }

    /// Takes each edge with an end in the set away.
    pub(crate) fn retain_apart(&mut self, gone: &NodeSet)
        ensures { AreEdges self.new (λ d. Among d self.old × (Stays gone.now d.from × Stays gone.now d.to)) }
    {
        leave_all(self.alloc, &mut self.ties, gone);
    }
}
