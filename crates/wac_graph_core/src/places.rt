//! What is kept of nodes, by their indexes: room is made first, then ties are put without fail.

ghost use Rattle.std.specs.Prelude.{◌≡◌, ◌<◌, ℕ, OnOk, true, false, length, string_bytes};
ghost use Rattle.wac_graph_core.specs.Edges.{has, dependency_edge};
ghost use Rattle.wac_graph_core.specs.Ties.{Passes, arguments_at};
ghost use Rattle.wac_graph_core.specs.TieSteps.{HasRoom, IsReady, HasPlace, IsRoomier, PutsDependant, PutsArgument, TakesArgument, DropsDependant, SetsSource, PutsEach, LeavesAll};

use crate::ids::NodeId;
use crate::node_set::NodeSet;
use crate::tie::Tie;
use crate::ties::{Ties, leave, no_ties, put_passed, put_tie, take_passed, take_tie};
use std::alloc::{AllocError, Global};
use wac_types_base::Text;

/// Makes places up to that of a node.
pub(crate) fn make_places(
    alloc: Global,
    ties: &mut Vec<Ties>,
    node: NodeId,
) -> Result<(), AllocError>
    ensures same { IsRoomier ties.old.items ties.new.items }
    ensures there { OnOk result (node < length ties.new.items) }
{
    while ties.len() <= node.index() {
        ties.push(no_ties(alloc))?;
    }
    Ok(())
}

/// Makes room at a node for so many ties more.
pub(crate) fn make_room(
    alloc: Global,
    ties: &mut Vec<Ties>,
    node: NodeId,
    count: usize,
) -> Result<(), AllocError>
    ensures same { IsRoomier ties.old.items ties.new.items }
    ensures room { OnOk result (HasRoom ties.new.items node count) }
{
    make_places(alloc, ties, node)?;
    ties[node.index()].dependants.reserve(count)
}

/// Makes room for one tie more at each of these nodes.
pub(crate) fn make_rooms(
    alloc: Global,
    ties: &mut Vec<Ties>,
    nodes: &[NodeId],
) -> Result<(), AllocError>
    ensures same { IsRoomier ties.old.items ties.new.items }
    ensures room { OnOk result ((k : ℕ) → has nodes.now k ≡ true → HasRoom ties.new.items k 1) }
{
    for node in nodes {
        make_room(alloc, ties, *node, 1)?;
    }
    Ok(())
}

/// Makes room for one argument more of a node.
pub(crate) fn make_argument_room(
    alloc: Global,
    ties: &mut Vec<Ties>,
    node: NodeId,
) -> Result<(), AllocError>
    ensures same { IsRoomier ties.old.items ties.new.items }
    ensures room { OnOk result (HasPlace ties.new.items node) }
{
    make_places(alloc, ties, node)?;
    ties[node.index()].arguments.reserve(1)
}

/// Puts a tie at a node, unless it is there.
pub(crate) fn put_dependant(ties: &mut Vec<Ties>, node: NodeId, tie: Tie, to: NodeId)
    requires { IsReady ties.old.items node tie }
    ensures { PutsDependant ties.old.items ties.new.items node tie to }
{
    put_tie(&mut ties[node.index()].dependants, tie, to);
}

/// Takes a tie away at a node, if it is there.
fn drop_dependant(ties: &mut Vec<Ties>, node: NodeId, tie: &Tie)
    ensures { DropsDependant ties.old.items ties.new.items node tie.now }
{
    if node.index() < ties.len() {
        take_tie(&mut ties[node.index()].dependants, tie);
    }
}

/// Takes the tie of an argument away at the node that was passed, if it is there.
pub(crate) fn drop_argument(ties: &mut Vec<Ties>, node: NodeId, instantiation: NodeId, name: String)
    ensures { DropsDependant ties.old.items ties.new.items node (Tie.Argument instantiation (string_bytes name)) }
{
    let tie = Tie::Argument(instantiation, Text::new(name));
    drop_dependant(ties, node, &tie);
}

/// Passes a node to another, to which nothing is passed under the name.
pub(crate) fn put_argument(ties: &mut Vec<Ties>, node: NodeId, name: String, argument: NodeId)
    requires room { HasPlace ties.old.items node }
    requires none { (a : ℕ) → Passes (arguments_at ties.old.items node) (string_bytes name) a → ⊥ }
    ensures { PutsArgument ties.old.items ties.new.items node (string_bytes name) argument }
{
    put_passed(&mut ties[node.index()].arguments, name, argument);
}

/// Takes back what is passed to a node under a name, if it is this, and answers whether it was.
pub(crate) fn take_argument(
    ties: &mut Vec<Ties>,
    node: NodeId,
    name: &String,
    argument: NodeId,
) -> bool
    ensures { TakesArgument ties.old.items ties.new.items node (string_bytes name.now) argument result }
{
    if node.index() < ties.len() {
        take_passed(&mut ties[node.index()].arguments, name, argument)
    } else {
        false
    }
}

/// Writes what a node is an alias of.
pub(crate) fn set_source(ties: &mut Vec<Ties>, node: NodeId, instance: NodeId, name: Text)
    requires { node < length ties.old.items }
    ensures { SetsSource ties.old.items ties.new.items node instance name }
{
    ties[node.index()].source = Some((instance, name));
}

/// Puts the dependency of a node at each of these.
pub(crate) fn put_dependants(ties: &mut Vec<Ties>, sources: &[NodeId], node: NodeId)
    requires { (k : ℕ) → has sources.now k ≡ true → HasRoom ties.old.items k 1 }
    ensures edges { PutsEach (λ a. dependency_edge a node) ties.old.items ties.new.items sources.now }
    ensures rooms { (k n : ℕ) → has sources.now k ≡ false → HasRoom ties.old.items k n → HasRoom ties.new.items k n }
{
    for source in sources {
        put_dependant(ties, *source, Tie::Dependency(node), node);
    }
}

/// Puts the dependencies of these at a node.
pub(crate) fn put_users(ties: &mut Vec<Ties>, node: NodeId, targets: &[NodeId])
    requires { HasRoom ties.old.items node (length targets.now) }
    ensures { PutsEach (λ b. dependency_edge node b) ties.old.items ties.new.items targets.now }
{
    for target in targets {
        put_dependant(ties, node, Tie::Dependency(*target), *target);
    }
}

/// Of what is kept of each node, leaves what has no end in the set.
pub(crate) fn leave_all(alloc: Global, ties: &mut Vec<Ties>, gone: &NodeSet)
    ensures { LeavesAll gone.now ties.old.items ties.new.items }
{
    for at in 0..ties.len() {
        leave(alloc, &mut ties[at], NodeId::new(at), gone);
    }
}
