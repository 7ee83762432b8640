//! Nodes in slots, each in that of its index.

ghost use Rattle.std.specs.Prelude.{◌≡◌, None, Some, option_map, slice_index_or, slice_set};
ghost use Rattle.std.specs.Iterator.{YieldsFirstBy, item_count};
ghost use Rattle.wac_graph_core.specs.Nodes.{NodeData};
ghost use Rattle.wac_graph_core.specs.Slots.{entries_from, nodes_in};

use crate::ids::NodeId;
use crate::node::Node;
use std::marker::Model;
use wac_types_base::Text;

/// The nodes in slots with their ids, by rising index, seen as the list of those that are left.
#[derive(Drop)]
pub struct SlotIter<'a> {
    slots: &'a [Option<Node>],
    /// The index of the first slot.
    index: usize,
}

impl<'a> Model for SlotIter<'a> {
    ghost use Rattle.std.specs.Prelude.{◌+◌, ◌<◌, ℕ, List, length};
    ghost use Rattle.wac_graph_core.specs.Nodes.{NodeData};

    ghost Value = { List (ℕ × NodeData) };

    ghost use Rattle.wac_graph_core.specs.Slots.{entries_from};

    ghost view = { λ it. entries_from it.index it.slots.now };

    ghost invariant = { λ it. it.index + length it.slots.now < 18446744073709551616 };
}

impl<'a> SlotIter<'a> {
    /// The nodes in all slots.
    pub(crate) fn new(slots: &'a [Option<Node>]) -> Self
        ensures { result ≡ entries_from 0 slots.now }
    {
        SlotIter { slots, index: 0 }
    }
}

impl<'a> Iterator for SlotIter<'a> {
    type Item = (NodeId, &'a Node);

    ghost next_gives = { YieldsFirstBy (λ item. (item.0, item.1.now)) (λ rest. rest) };

    ghost remaining = { item_count (λ rest. rest) };

    fn next(&mut self) -> Option<(NodeId, &'a Node)> {
        while let Some((slot, rest)) = self.slots.split_first() {
            let id = NodeId::new(self.index);
            self.slots = rest;
            self.index += 1;
            if let Some(node) = slot {
                return Some((id, node));
            }
        }
        None
    }
}

/// Gives the node in a slot a name, if there is one.
pub(crate) fn name_at(slot: &mut Option<Node>, name: Text)
    ensures { slot.new ≡ option_map {T = NodeData} (λ n. record n { name = Some name }) slot.old }
{
    if let Some(node) = slot {
        node.set_name(name);
    }
}

/// Writes the name that the node in a slot is exported under, if there is one.
pub(crate) fn export_at(slot: &mut Option<Node>, name: Option<Text>)
    ensures { slot.new ≡ option_map {T = NodeData} (λ n. record n { export = name }) slot.old }
{
    if let Some(node) = slot {
        node.set_export(name);
    }
}

/// Takes the node in a slot away, if there is one. The slot stays.
pub(crate) fn take_at(slots: &mut Vec<Option<Node>>, index: usize) -> Option<Node>
    ensures value { result ≡ slice_index_or slots.old.items index None }
    ensures slots { slots.new.items ≡ slice_set slots.old.items index None }
{
    match slots.get_mut(index) {
        Some(slot) => slot.take(),
        None => None,
    }
}

/// Gives up the empty slots behind the last node.
pub(crate) fn trim(slots: &mut Vec<Option<Node>>)
    ensures { nodes_in slots.new.items ≡ nodes_in slots.old.items }
{
    while let Some(slot) = slots.pop() {
        match slot {
            Some(node) => {
                slots.push_reserved(Some(node));
                return;
            }
            None => {}
        }
    }
}
