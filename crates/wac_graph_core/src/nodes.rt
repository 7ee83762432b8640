//! The nodes under their indexes, seen as a finite map.

ghost use Rattle.std.specs.Prelude.{◌≡◌, ◌≢◌, None, Some, IfOk, OnOk, OnErr, IfSome, IfNone, IsTrue, ◌↔◌, IsSome, true, not, map as mapped, option_map};
ghost use Rattle.std.specs.Option.{option_copied};
ghost use Rattle.std.specs.Ordering.{nat_cmp};
ghost use Rattle.std.specs.FinMap as map;
ghost use Rattle.std.specs.Bool.{Decides};
ghost use Rattle.wac_types_base.specs.Collection.{Stands};
ghost use Rattle.wac_graph_core.specs.Copying.{AreUnder, node_under};
ghost use Rattle.wac_graph_core.specs.Edges.{has};
ghost use Rattle.wac_graph_core.specs.Nodes.{NodeData, Role};
ghost use Rattle.wac_graph_core.specs.NodeMaps.{AreBelow, SetsName, SetsExport, IsImport, NoImport, IsDefinition, NoDefinition, AreThose, AreInstances, AddsIf};
ghost use Rattle.wac_graph_core.specs.Defining.{IsUsedBy, IsUserOf, ItemsStand, DefinesMarked, DefinesReaching};
ghost use Rattle.wac_graph_core.specs.Noted.{HasNotes, IsSlotNoted, KnowsTypes, TellsDefinition, AddsDefinition};
ghost use Rattle.wac_graph_core.specs.Reaching.{IsWithout};
ghost use Rattle.wac_graph_core.specs.Slots.{nodes_in};

use crate::ids::{NodeId, PackageId};
use crate::node::Node;
use crate::noted::{Noted, defined_type, none_noted, with_node, without_node};
use crate::reach::{is_marked, mark_reached, reaches};
use crate::slots::{SlotIter, export_at, name_at, take_at, trim};
use crate::type_map::TypeMap;
use crate::type_set::TypeSet;
use std::alloc::{AllocError, Global};
use std::marker::Model;
use wac_types_base::replace::is_same;
use wac_types_base::visit::defined_of;
use wac_types_base::{DefinedTypeId, ItemKind, Text, Type, Types};

/// Nodes under indexes that it picks. They rise: a new node is put behind all others. A slot that was emptied stays so
/// while a node stands behind it.
#[derive(Drop)]
pub struct Nodes {
    slots: Vec<Option<Node>>,
    /// None where memory was wanting: then each node is looked at.
    noted: Option<Noted>,
}

impl Model for Nodes {
    ghost use Rattle.std.specs.Ordering.{nat_cmp};
    ghost use Rattle.std.specs.FinMap as map;
    ghost use Rattle.wac_graph_core.specs.Slots.{nodes_in};
    ghost use Rattle.wac_graph_core.specs.Nodes.{NodeData};

    ghost Value = { map.FinMap nat_cmp NodeData };

    ghost use Rattle.std.specs.Coded.{coded_ℕ};
    ghost use Rattle.wac_graph_core.specs.contracts.node.Node as node;

    ghost coded = { map.code coded_ℕ node.the_row.coded };

    ghost view = { λ s. nodes_in s.slots.items };

    ghost use Rattle.wac_graph_core.specs.NotedView.{AreNoted};

    ghost invariant = { AreNoted };
}

/// What stands in a slot again, of a collection with this number.
fn slot_under(slot: &Option<Node>, number: u64) -> Result<Option<Node>, AllocError>
    ensures { IfOk result (λ o. o ≡ option_map (node_under number) slot.now) }
{
    match slot {
        Some(node) => Ok(Some(node.copy_under(number)?)),
        None => Ok(None),
    }
}

/// These slots again, of a collection with this number.
fn slots_under(
    alloc: Global,
    slots: &[Option<Node>],
    number: u64,
) -> Result<Vec<Option<Node>>, AllocError>
    ensures { IfOk result (λ v. v.items ≡ mapped (option_map (node_under number)) slots.now) }
{
    let mut copies = Vec::new(alloc);
    for slot in slots {
        copies.push(slot_under(slot, number)?)?;
    }
    Ok(copies)
}

/// What is known of nodes and of what stands in the slot behind theirs, if anything.
fn with_slot(noted: Option<Noted>, slot: &Option<Node>, id: NodeId) -> Option<Noted>
    ensures { IsSlotNoted noted slot.now id result }
{
    match slot {
        Some(node) => with_node(noted, node, id),
        None => noted,
    }
}

/// What is known of the nodes in these slots, if anything.
fn noted_of(alloc: Global, slots: &[Option<Node>]) -> Option<Noted>
    ensures { HasNotes result (nodes_in slots.now) }
{
    let mut noted = Some(none_noted(alloc));
    for at in 0..slots.len() {
        noted = with_slot(noted, &slots[at], NodeId::new(at));
    }
    noted
}

impl Nodes {
    /// No nodes yet.
    pub(crate) fn new(alloc: Global) -> Self
        ensures { result ≡ map.empty }
    {
        Nodes {
            slots: Vec::new(alloc),
            noted: Some(none_noted(alloc)),
        }
    }

    /// The same nodes under their indexes, of a collection with this number.
    pub(crate) fn copy_under(&self, alloc: Global, number: u64) -> Result<Nodes, AllocError>
        ensures { IfOk result (λ copies. AreUnder number self.now copies) }
    {
        let slots = slots_under(alloc, self.slots.as_slice(), number)?;
        let noted = noted_of(alloc, slots.as_slice());
        Ok(Nodes { slots, noted })
    }

    /// The node of an index.
    pub(crate) fn get(&self, id: NodeId) -> Option<&Node>
        ensures { option_copied result ≡ map.get self.now id }
    {
        match self.slots.get(id.index()) {
            Some(slot) => slot.as_ref(),
            None => None,
        }
    }

    /// Adds a node under an index above those of all others.
    pub(crate) fn insert(&mut self, node: Node) -> Result<NodeId, AllocError>
        ensures above { IfOk result (λ id. AreBelow self.old id) }
        ensures free { IfOk result (λ id. map.get self.old id ≡ None) }
        ensures added { IfOk result (λ id. self.new ≡ map.insert self.old id node) }
        ensures err { OnErr result (self.new ≡ self.old) }
    {
        self.slots.reserve(1)?;
        let id = NodeId::new(self.slots.len());
        let noted = self.noted.take();
        self.noted = with_node(noted, &node, id);
        self.slots.push_reserved(Some(node));
        Ok(id)
    }

    /// Takes the node of an index away.
    fn remove(&mut self, id: NodeId) -> Option<Node>
        ensures value { result ≡ map.get self.old id }
        ensures removed { self.new ≡ map.remove self.old id }
    {
        let node = take_at(&mut self.slots, id.index())?;
        let noted = self.noted.take();
        self.noted = without_node(noted, &node);
        Some(node)
    }

    /// Gives a node a name.
    pub(crate) fn set_name(&mut self, id: NodeId, name: Text)
        requires { IsSome (map.get self.old id) }
        ensures { SetsName self.old self.new id name }
    {
        name_at(&mut self.slots[id.index()], name);
    }

    /// Writes the name that a node is exported under.
    pub(crate) fn set_export(&mut self, id: NodeId, name: Option<Text>)
        requires { IsSome (map.get self.old id) }
        ensures { SetsExport self.old self.new id name }
    {
        export_at(&mut self.slots[id.index()], name);
    }

    /// Takes the nodes of these indexes away.
    pub(crate) fn remove_all(&mut self, gone: &[NodeId])
        ensures { self.new ≡ map.retain_keys self.old (λ k. not (has gone.now k)) }
    {
        for id in gone {
            self.remove(*id);
        }
        trim(&mut self.slots);
    }

    /// Whether it is known that no import has this name.
    fn lacks_import(&self, name: &str) -> bool
        ensures { result ≡ true → NoImport self.now name.now }
    {
        match &self.noted {
            Some(noted) => noted.imports.get(name).is_none(),
            None => false,
        }
    }

    /// The import of a name, if there is one.
    pub(crate) fn find_import(&self, name: &str) -> Option<NodeId>
        ensures found { IfSome result (λ k. IsImport self.now k name.now) }
        ensures none { IfNone result (NoImport self.now name.now) }
    {
        if self.lacks_import(name) {
            return None;
        }
        for (id, node) in self.entries() {
            if is_import(node, name) {
                return Some(id);
            }
        }
        None
    }

    /// The instances of a package.
    pub(crate) fn instances(&self, alloc: Global, of: PackageId) -> Result<Vec<NodeId>, AllocError>
        ensures { IfOk result (λ v. AreInstances self.now of v.items) }
    {
        let mut found = Vec::new(alloc);
        for (id, node) in self.entries() {
            gather(&mut found, node, id, of)?;
        }
        Ok(found)
    }

    /// Adds the definition of a type, where it is a defined type that has one.
    fn gather_definition(
        &self,
        found: &mut Vec<NodeId>,
        types: &TypeMap,
        ty: Type,
    ) -> Result<(), AllocError>
        requires { KnowsTypes types.now self.now }
        ensures { OnOk result (AddsDefinition self.now ty found.old.items found.new.items) }
    {
        if let Some(_) = defined_of(ItemKind::Ty(ty)) {
            if let Some(id) = self.look_up_definition(types, ty) {
                found.push(id)?;
            }
        }
        Ok(())
    }

    /// The definitions of marked types, each found by its type.
    fn look_up_marked(
        &self,
        alloc: Global,
        types: &TypeMap,
        marks: &[Type],
    ) -> Result<Vec<NodeId>, AllocError>
        requires { KnowsTypes types.now self.now }
        ensures { IfOk result (λ v. AreThose self.now (DefinesMarked marks.now) v.items) }
    {
        let mut found = Vec::new(alloc);
        for ty in marks {
            self.gather_definition(&mut found, types, *ty)?;
        }
        Ok(found)
    }

    /// The definitions of marked types, looked for among all nodes.
    fn search_marked(&self, alloc: Global, marks: &TypeSet) -> Result<Vec<NodeId>, AllocError>
        ensures { IfOk result (λ v. AreThose self.now (DefinesMarked marks.now) v.items) }
    {
        let mut found = Vec::new(alloc);
        for (id, node) in self.entries() {
            gather_marked(&mut found, node, id, marks)?;
        }
        Ok(found)
    }

    /// The definitions of marked types.
    fn marked(&self, alloc: Global, marks: &TypeSet) -> Result<Vec<NodeId>, AllocError>
        ensures { IfOk result (λ v. AreThose self.now (DefinesMarked marks.now) v.items) }
    {
        match &self.noted {
            Some(noted) => self.look_up_marked(alloc, &noted.types, marks.as_slice()),
            None => self.search_marked(alloc, marks),
        }
    }

    /// The definitions of what a type uses.
    pub(crate) fn used_by(
        &self,
        alloc: Global,
        types: &Types,
        ty: Type,
    ) -> Result<Vec<NodeId>, AllocError>
        requires { Stands types.now (ItemKind.Ty ty) }
        ensures { IfOk result (λ v. AreThose self.now (IsUsedBy types.now ty) v.items) }
    {
        let mut marks = TypeSet::new(alloc);
        mark_reached(types, ItemKind::Ty(ty), &mut marks)?;
        self.marked(alloc, &marks)
    }

    /// The definitions of types that reach a defined type.
    fn reaching(
        &self,
        alloc: Global,
        types: &Types,
        wanted: DefinedTypeId,
    ) -> Result<Vec<NodeId>, AllocError>
        requires { ItemsStand types.now self.now }
        ensures { IfOk result (λ v. AreThose self.now (DefinesReaching types.now wanted) v.items) }
    {
        let mut without = TypeSet::new(alloc);
        let mut found = Vec::new(alloc);
        for (id, node) in self.entries() {
            gather_reaching(&mut found, node, id, types, wanted, &mut without)?;
        }
        Ok(found)
    }

    /// The definitions of types that use a type.
    pub(crate) fn users_of(
        &self,
        alloc: Global,
        types: &Types,
        ty: Type,
    ) -> Result<Vec<NodeId>, AllocError>
        requires { ItemsStand types.now self.now }
        ensures { IfOk result (λ v. AreThose self.now (IsUserOf types.now ty) v.items) }
    {
        match defined_of(ItemKind::Ty(ty)) {
            Some(wanted) => self.reaching(alloc, types, wanted),
            None => Ok(Vec::new(alloc)),
        }
    }

    /// The ids with their nodes, by rising index.
    pub(crate) fn entries(&self) -> SlotIter<'_>
        ensures { result ≡ map.entries self.now }
    {
        SlotIter::new(self.slots.as_slice())
    }

    /// The definition of a type, found by the type.
    fn look_up_definition(&self, types: &TypeMap, ty: Type) -> Option<NodeId>
        requires { KnowsTypes types.now self.now }
        ensures found { IfSome result (λ k. IsDefinition self.now k (ItemKind.Ty ty)) }
        ensures told { TellsDefinition self.now ty result }
    {
        let id = types.get(ty)?;
        match self.get(id) {
            Some(node) => {
                if is_definition(node, ItemKind::Ty(ty)) {
                    Some(id)
                } else {
                    None
                }
            }
            None => None,
        }
    }

    /// The definition of a type, looked for among all nodes.
    fn search_definition(&self, ty: Type) -> Option<NodeId>
        ensures found { IfSome result (λ k. IsDefinition self.now k (ItemKind.Ty ty)) }
        ensures none { IfNone result (NoDefinition self.now (ItemKind.Ty ty)) }
    {
        for (id, node) in self.entries() {
            if is_definition(node, ItemKind::Ty(ty)) {
                return Some(id);
            }
        }
        None
    }

    /// The definition of a type, if there is one.
    pub(crate) fn find_definition(&self, ty: Type) -> Option<NodeId>
        ensures found { IfSome result (λ k. IsDefinition self.now k (ItemKind.Ty ty)) }
        ensures none { IfNone result (NoDefinition self.now (ItemKind.Ty ty)) }
    {
        match &self.noted {
            Some(noted) => self.look_up_definition(&noted.types, ty),
            None => self.search_definition(ty),
        }
    }
}

/// Whether a node is the import of a name.
fn is_import(node: &Node, name: &str) -> bool
    ensures { IsTrue result ↔ (node.now.role ≡ Role.Imported name.now) }
{
    match node.import_name() {
        Some(own) => own == name,
        None => false,
    }
}

/// Whether a node is an instance of a package.
fn is_of(node: &Node, of: PackageId) -> bool
    ensures { IsTrue result ↔ (node.now.of ≡ Some of) }
{
    match node.package() {
        Some(id) => id == of,
        None => false,
    }
}

/// Adds the node to the list, where it is an instance of the package.
fn gather(found: &mut Vec<NodeId>, node: &Node, id: NodeId, of: PackageId) -> Result<(), AllocError>
    ensures { OnOk result (AddsIf (node.now.of ≡ Some of) found.old.items found.new.items id) }
{
    if is_of(node, of) {
        found.push(id)?;
    }
    Ok(())
}

/// Whether a node is the definition of a type.
fn is_definition(node: &Node, item: ItemKind) -> bool
    ensures { IsTrue result ↔ ((node.now.role ≡ Role.Defined) × (node.now.item_kind ≡ item)) }
{
    node.is_definition() && is_same(node.item_kind(), item)
}

/// Whether a node is the definition of a marked type.
fn defines_marked(node: &Node, marks: &TypeSet) -> bool
    ensures { Decides result (DefinesMarked marks.now node.now) }
{
    match defined_type(node) {
        Some(own) => is_marked(marks, defined_of(ItemKind::Ty(own))),
        None => false,
    }
}

/// Whether a node is the definition of a type that reaches a defined type.
fn defines_reaching(
    node: &Node,
    types: &Types,
    wanted: DefinedTypeId,
    without: &mut TypeSet,
) -> Result<bool, AllocError>
    requires stands { Stands types.now node.now.item_kind }
    requires without { IsWithout types.now wanted without.old }
    ensures without { OnOk result (IsWithout types.now wanted without.new) }
    ensures answer { IfOk result (λ yes. Decides yes (DefinesReaching types.now wanted node.now)) }
{
    match defined_type(node) {
        Some(own) => reaches(types, ItemKind::Ty(own), wanted, without),
        None => Ok(false),
    }
}

/// Adds the node to the list, where it is the definition of a marked type.
fn gather_marked(
    found: &mut Vec<NodeId>,
    node: &Node,
    id: NodeId,
    marks: &TypeSet,
) -> Result<(), AllocError>
    ensures { OnOk result (AddsIf (DefinesMarked marks.now node.now) found.old.items found.new.items id) }
{
    if defines_marked(node, marks) {
        found.push(id)?;
    }
    Ok(())
}

/// Adds the node to the list, where it is the definition of a type that reaches a defined type.
fn gather_reaching(
    found: &mut Vec<NodeId>,
    node: &Node,
    id: NodeId,
    types: &Types,
    wanted: DefinedTypeId,
    without: &mut TypeSet,
) -> Result<(), AllocError>
    requires stands { Stands types.now node.now.item_kind }
    requires without { IsWithout types.now wanted without.old }
    ensures without { OnOk result (IsWithout types.now wanted without.new) }
    ensures adds { OnOk result (AddsIf (DefinesReaching types.now wanted node.now) found.old.items found.new.items id) }
{
    if defines_reaching(node, types, wanted, without)? {
        found.push(id)?;
    }
    Ok(())
}
