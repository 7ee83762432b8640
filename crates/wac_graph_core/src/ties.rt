//! What is kept of a node: what hangs on it, what is passed to it, and what it is an alias of.

ghost use Rattle.std.specs.Prelude.{◌≡◌, None, ◌+◌, ◌≤◌, [], ℕ, IfOk, IfSome, IfNone, string_bytes, vec_len, vec_capacity};
ghost use Rattle.wac_types_base.specs.Graph.{Among};
ghost use Rattle.wac_graph_core.specs.Ties.{Passes};
ghost use Rattle.wac_graph_core.specs.TieSteps.{LeavesTies, LacksTie, PutsTie, TakesTie, PutsPassed, TakesPassed, KeepsTie, KeepsPassed, source_left, SameTies, AreSamePassed};

use crate::ids::NodeId;
use crate::node_set::NodeSet;
use crate::order::ByOrd;
use crate::sorted::SortedList;
use crate::tie::{ByTie, Tie};
use std::alloc::{AllocError, Global};
use wac_types_base::Text;

/// What is kept of a node.
#[derive(Drop)]
pub struct Ties {
    /// What hangs on it. The node beside it is that of an alias.
    pub dependants: SortedList<Tie, NodeId, ByTie>,
    /// What is passed to it, by the names of its arguments.
    pub arguments: SortedList<String, NodeId, ByOrd>,
    /// The instance and the export that it is an alias of.
    pub source: Option<(NodeId, Text)>,
}

/// What is kept of a node on which nothing hangs yet.
pub(crate) fn no_ties(alloc: Global) -> Ties
    ensures dependants { result.dependants.items ≡ [] }
    ensures arguments { result.arguments.items ≡ [] }
    ensures source { result.source ≡ None }
{
    Ties {
        dependants: SortedList::new(alloc),
        arguments: SortedList::new(alloc),
        source: None,
    }
}

/// The node beside a tie, if the tie is there.
pub(crate) fn find_tie(list: &SortedList<Tie, NodeId, ByTie>, tie: &Tie) -> Option<NodeId>
    ensures found { IfSome result (λ k. Among (tie.now, k) list.now.items) }
    ensures none { IfNone result ((k : ℕ) → Among (tie.now, k) list.now.items → ⊥) }
{
    match list.search(tie, &mut ByTie::new()) {
        Ok(place) => Some(list.as_slice()[place].1),
        Err(_) => None,
    }
}

/// Adds a tie, for which there is room, unless it is there.
pub(crate) fn put_tie(list: &mut SortedList<Tie, NodeId, ByTie>, tie: Tie, node: NodeId)
    requires { LacksTie list.old.items tie → vec_len list.old + 1 ≤ vec_capacity list.old }
    ensures put { PutsTie list.old.items list.new.items tie node }
    ensures room { vec_len list.new ≤ vec_len list.old + 1 }
    ensures capacity { vec_capacity list.new ≡ vec_capacity list.old }
{
    match list.search(&tie, &mut ByTie::new()) {
        Ok(_) => {}
        Err(place) => list.insert_reserved(place, tie, node),
    }
}

/// Takes a tie away, if it is there.
pub(crate) fn take_tie(list: &mut SortedList<Tie, NodeId, ByTie>, tie: &Tie)
    ensures { TakesTie list.old.items list.new.items tie.now }
{
    list.see_sorted();
    match list.search(tie, &mut ByTie::new()) {
        Ok(place) => {
            list.remove_at(place);
        }
        Err(_) => {}
    }
}

/// What is passed under a name, if anything is.
pub(crate) fn find_passed(list: &SortedList<String, NodeId, ByOrd>, name: &String) -> Option<NodeId>
    ensures found { IfSome result (λ a. Passes list.now.items (string_bytes name.now) a) }
    ensures none { IfNone result ((a : ℕ) → Passes list.now.items (string_bytes name.now) a → ⊥) }
    ensures one { IfSome result (λ a. (b : ℕ) → Passes list.now.items (string_bytes name.now) b → b ≡ a) }
{
    list.see_sorted();
    match list.search(name, &mut ByOrd::new()) {
        Ok(place) => Some(list.as_slice()[place].1),
        Err(_) => None,
    }
}

/// Passes a node under a name, under which none is passed and for which there is room.
pub(crate) fn put_passed(list: &mut SortedList<String, NodeId, ByOrd>, name: String, node: NodeId)
    requires room { vec_len list.old + 1 ≤ vec_capacity list.old }
    requires none { (a : ℕ) → Passes list.old.items (string_bytes name) a → ⊥ }
    ensures { PutsPassed list.old.items list.new.items (string_bytes name) node }
{
    match list.search(&name, &mut ByOrd::new()) {
        Ok(_) => unreachable!(),
        Err(place) => list.insert_reserved(place, name, node),
    }
}

/// Takes back what is passed under a name, if it is this node, and answers whether it was.
pub(crate) fn take_passed(
    list: &mut SortedList<String, NodeId, ByOrd>,
    name: &String,
    node: NodeId,
) -> bool
    ensures { TakesPassed list.old.items list.new.items (string_bytes name.now) node result }
{
    list.see_sorted();
    match list.search(name, &mut ByOrd::new()) {
        Ok(place) => {
            if list.as_slice()[place].1.index() != node.index() {
                return false;
            }
            list.remove_at(place);
            true
        }
        Err(_) => false,
    }
}

/// Keeps what hangs on no node of the set.
pub(crate) fn keep_ties(list: &mut SortedList<Tie, NodeId, ByTie>, gone: &NodeSet)
    ensures { KeepsTie list.old.items list.new.items gone.now }
{
    list.retain(|entry| !gone.has(entry.0.end(entry.1)));
}

/// Keeps what is passed that is no node of the set.
pub(crate) fn keep_passed(list: &mut SortedList<String, NodeId, ByOrd>, gone: &NodeSet)
    ensures { KeepsPassed list.old.items list.new.items gone.now }
{
    list.retain(|entry| !gone.has(entry.1));
}

/// Forgets a source that is a node of the set.
pub(crate) fn keep_source(source: &mut Option<(NodeId, Text)>, gone: &NodeSet)
    ensures { source.new ≡ source_left gone.now source.old }
{
    let own = source.take();
    if let Some((instance, name)) = own {
        if !gone.has(instance) {
            *source = Some((instance, name));
        }
    }
}

/// Keeps what has no end in the set; nothing where the node is in it.
pub(crate) fn leave(alloc: Global, ties: &mut Ties, node: NodeId, gone: &NodeSet)
    ensures { LeavesTies gone.now node ties.old ties.new }
{
    if gone.has(node) {
        *ties = no_ties(alloc);
        return;
    }
    keep_ties(&mut ties.dependants, gone);
    keep_passed(&mut ties.arguments, gone);
    keep_source(&mut ties.source, gone);
}

/// The same ties again.
fn copy_ties(
    alloc: Global,
    list: &SortedList<Tie, NodeId, ByTie>,
) -> Result<SortedList<Tie, NodeId, ByTie>, AllocError>
    ensures { IfOk result (λ copies. copies.items ≡ list.now.items) }
{
    list.see_sorted();
    let mut copies = Vec::new(alloc);
    for (tie, node) in list.as_slice() {
        copies.push((tie.copy()?, *node))?;
    }
    Ok(SortedList::from_sorted(copies))
}

/// The same again of what is passed.
fn copy_passed(
    alloc: Global,
    list: &SortedList<String, NodeId, ByOrd>,
) -> Result<SortedList<String, NodeId, ByOrd>, AllocError>
    ensures { IfOk result (λ copies. AreSamePassed list.now.items copies.items) }
{
    list.see_sorted();
    let mut copies = Vec::new(alloc);
    for (name, node) in list.as_slice() {
        let own = String::from_str(alloc, name.as_str())?;
        copies.push((own, *node))?;
    }
    Ok(SortedList::from_sorted(copies))
}

/// The same source again.
fn copy_source(source: &Option<(NodeId, Text)>) -> Result<Option<(NodeId, Text)>, AllocError>
    ensures { IfOk result (λ copy. copy ≡ source.now) }
{
    match source {
        Some((instance, name)) => Ok(Some((*instance, name.copy()?))),
        None => Ok(None),
    }
}

impl Ties {
    /// The same again.
    pub(crate) fn copy(&self, alloc: Global) -> Result<Ties, AllocError>
        ensures { IfOk result (λ copies. SameTies self.now copies) }
    {
        Ok(Ties {
            dependants: copy_ties(alloc, &self.dependants)?,
            arguments: copy_passed(alloc, &self.arguments)?,
            source: copy_source(&self.source)?,
        })
    }
}
