//! What stands directly in an interface, in a component type or at the root.

ghost use Rattle.std.specs.Prelude.{◌≡◌, [], Some, false, ◌↔◌, IsTrue, OnOk, IfOk};
ghost use Rattle.std.specs.Bool.{Decides};
ghost use Rattle.wac_types_base.specs.declared.item.ItemKind.{ItemKind};
ghost use Rattle.wac_types_base.specs.Entries.{has_name, put_name};
ghost use Rattle.wac_types_base.specs.Record.{Collection};
ghost use Rattle.wac_types_base.specs.Collection.{Stands};
ghost use Rattle.wac_types_base.specs.Stated.{stated_of, uses_of, imports_of, exports_of};
ghost use Rattle.wac_types_fit.specs.Trees.{Fit};
ghost use Rattle.wac_composition.specs.Writable.{is_fresh, holder};
ghost use Rattle.wac_composition.specs.Writable.{Holder as Held};
ghost use Rattle.wac_composition.specs.NotWritten.{component_holder};
ghost use Rattle.wac_writable.specs.Holders.{Shows, Holds, IsFilled, AddsRoots, Remembers, tested_of, interface_holder};
ghost use Rattle.wac_writable.specs.Holders.{TellsUsedAs, TellsUsed, TellsGiven, same_item, value_in, resource_in};
ghost use Rattle.wac_writable.specs.Holders.{resource_roots, with_use, with_taken, with_fresh};

use indexmap::IndexMap;
use std::alloc::{AllocError, Global};
use wac_types_base::{
    DefinedTypeId, InterfaceId, ItemKind, NamedMap, Names, ResourceId, Type, Types, ValueType,
    WorldId,
};
use wac_types_fit::is_subtype;
use wac_types_parts::maps::insert_under;
use wac_types_parts::parts::{
    Item, Use, export_at, export_count, import_at, import_count, root_name, taken, use_at,
    use_count, world_export_at, world_export_count, world_use_at, world_use_count,
};

/// Used items under the names that they have here, the root names of resources, and which value types were tested
/// here: whether they fail.
pub struct Holder {
    alloc: Global,
    used: NamedMap<ItemKind>,
    roots: Names,
    tested: IndexMap<DefinedTypeId, bool>,
}

impl Drop for Holder {
    fn drop(self) {
        let Holder {
            alloc: _,
            used: _,
            roots: _,
            tested: _,
        } = self;
    }
}

// ---- items

/// Whether one item fits another. What does not stand fits nothing.
fn fits(alloc: Global, types: &Types, a: ItemKind, b: ItemKind) -> Result<bool, AllocError>
    ensures { IfOk result (λ yes. Stands types.now a → Stands types.now b → Decides yes (Fit types.now a types.now b)) }
{
    if !types.has(a) || !types.has(b) {
        return Ok(false);
    }
    is_subtype(alloc, types, a, b)
}

fn is_same(a: ItemKind, b: ItemKind) -> bool
    ensures { IsTrue result ↔ (a ≡ b) }
{
    a == b
}

/// Whether one item has the tree of another.
pub fn is_same_item(
    alloc: Global,
    types: &Types,
    a: ItemKind,
    b: ItemKind,
) -> Result<bool, AllocError>
    ensures { IfOk result (λ yes. Stands types.now a → Stands types.now b → yes ≡ same_item types.now a b) }
{
    if is_same(a, b) {
        return Ok(true);
    }
    if !fits(alloc, types, a, b)? {
        return Ok(false);
    }
    fits(alloc, types, b, a)
}

/// The value type that an item is the type of.
fn value_of(kind: ItemKind) -> Option<ValueType>
    ensures { result ≡ value_in kind }
{
    match kind {
        ItemKind::Ty(Type::Value(ty)) => Some(ty),
        _ => None,
    }
}

/// The resource that an item is the type of.
fn resource_of(kind: ItemKind) -> Option<ResourceId>
    ensures { result ≡ resource_in kind }
{
    match kind {
        ItemKind::Ty(Type::Resource(id)) => Some(id),
        _ => None,
    }
}

/// Whether a used item is the type of a value type, by its tree.
fn is_value_of(
    alloc: Global,
    types: &Types,
    used: ItemKind,
    ty: ValueType,
) -> Result<bool, AllocError>
    ensures { IfOk result (TellsUsedAs types.now used ty) }
{
    types.see_acyclic();
    match value_of(used) {
        Some(value) => { is_same_item(alloc, types, ItemKind::Value(value), ItemKind::Value(ty)) }
        None => Ok(false),
    }
}

/// Whether an item is a resource under its own name.
fn is_fresh(types: &Types, item: Item<'_>) -> bool
    ensures { result ≡ is_fresh (item.entry.name.now, stated_of types.now item.entry.kind) }
{
    types.see_acyclic();
    match resource_of(item.kind) {
        Some(id) => types.has(item.kind) && item.name == root_name(types, id),
        None => false,
    }
}

impl Holder {
    /// Nothing stands there.
    fn new(alloc: Global) -> Self
        ensures used { result.used ≡ [] }
        ensures roots { result.roots ≡ [] }
        ensures tested { result.tested.entries ≡ [] }
    {
        Holder {
            alloc,
            used: NamedMap::new(alloc),
            roots: Names::new(alloc),
            tested: IndexMap::new(alloc),
        }
    }

    fn add_root(&mut self, name: &str) -> Result<(), AllocError>
        ensures { OnOk result (self.new ≡ record self.old { roots = put_name self.old.roots name.now }) }
    {
        let _ = self.roots.insert(String::from_str(self.alloc, name)?)?;
        Ok(())
    }

    /// Adds the root of a resource.
    fn add_resource(&mut self, types: &Types, kind: ItemKind) -> Result<(), AllocError>
        requires { Stands types.now kind }
        ensures { OnOk result (self.new ≡ record self.old { roots = resource_roots types.now kind self.old.roots }) }
    {
        types.see_acyclic();
        match resource_of(kind) {
            Some(id) => self.add_root(root_name(types, id)),
            None => Ok(()),
        }
    }

    /// Adds an item that is used.
    fn add_taken(&mut self, types: &Types, name: &str, kind: ItemKind) -> Result<(), AllocError>
        requires { Stands types.now kind }
        ensures { OnOk result (self.new ≡ with_use types.now self.old name.now (Some kind)) }
    {
        insert_under(self.alloc, &mut self.used, name, kind)?;
        self.add_resource(types, kind)
    }

    /// Adds the resource or the value type that is used, and the root of a resource.
    fn add_use(&mut self, types: &Types, used: Use<'_>) -> Result<(), AllocError>
        ensures { OnOk result (self.new ≡ with_taken types.now self.old used.entry) }
    {
        match taken(types, used) {
            Some(kind) => self.add_taken(types, used.name, kind),
            None => Ok(()),
        }
    }

    /// Adds the root of a resource under its own name.
    fn add_fresh(&mut self, types: &Types, item: Item<'_>) -> Result<(), AllocError>
        ensures { OnOk result (self.new ≡ with_fresh types.now self.old item.entry) }
    {
        if is_fresh(types, item) {
            self.add_root(item.name)?;
        }
        Ok(())
    }

    /// Adds what an interface uses.
    fn add_uses(&mut self, types: &Types, id: InterfaceId) -> Result<(), AllocError>
        requires { IsFilled types.now self.old (holder [] []) }
        ensures { OnOk result (IsFilled types.now self.new (holder (uses_of (stated_of types.now (ItemKind.Instance id))) [])) }
    {
        types.see_acyclic();
        for at in 0..use_count(types, id) {
            if let Some(used) = use_at(types, id, at) {
                self.add_use(types, used)?;
            }
        }
        Ok(())
    }

    /// Adds what a world uses.
    fn add_world_uses(&mut self, types: &Types, id: WorldId) -> Result<(), AllocError>
        requires { IsFilled types.now self.old (holder [] []) }
        ensures { OnOk result (IsFilled types.now self.new (holder (uses_of (stated_of types.now (ItemKind.Component id))) [])) }
    {
        types.see_acyclic();
        for at in 0..world_use_count(types, id) {
            if let Some(used) = world_use_at(types, id, at) {
                self.add_use(types, used)?;
            }
        }
        Ok(())
    }

    /// Adds the roots of an interface's exports.
    fn add_exports(&mut self, types: &Types, id: InterfaceId) -> Result<(), AllocError>
        ensures { OnOk result (AddsRoots types.now self.old (exports_of (stated_of types.now (ItemKind.Instance id))) self.new) }
    {
        types.see_acyclic();
        for at in 0..export_count(types, id) {
            if let Some(item) = export_at(types, id, at) {
                self.add_fresh(types, item)?;
            }
        }
        Ok(())
    }

    /// Adds the roots of a world's imports.
    fn add_imports(&mut self, types: &Types, id: WorldId) -> Result<(), AllocError>
        ensures { OnOk result
            (AddsRoots types.now self.old (imports_of (stated_of types.now (ItemKind.Component id))) self.new) }
    {
        types.see_acyclic();
        for at in 0..import_count(types, id) {
            if let Some(item) = import_at(types, id, at) {
                self.add_fresh(types, item)?;
            }
        }
        Ok(())
    }

    /// Adds the roots of a world's exports.
    fn add_world_exports(&mut self, types: &Types, id: WorldId) -> Result<(), AllocError>
        ensures { OnOk result
            (AddsRoots types.now self.old (exports_of (stated_of types.now (ItemKind.Component id))) self.new) }
    {
        types.see_acyclic();
        for at in 0..world_export_count(types, id) {
            if let Some(item) = world_export_at(types, id, at) {
                self.add_fresh(types, item)?;
            }
        }
        Ok(())
    }

    /// What stands where nothing does.
    pub fn empty(alloc: Global) -> Self
        ensures { (c : Collection) → Holds c result (holder [] []) }
    {
        Holder::new(alloc)
    }

    /// What stands in an interface.
    pub fn of_interface(alloc: Global, types: &Types, id: InterfaceId) -> Result<Self, AllocError>
        ensures { IfOk result (λ s. Holds types.now s (interface_holder (stated_of types.now (ItemKind.Instance id)))) }
    {
        let mut holder = Holder::new(alloc);
        holder.add_uses(types, id)?;
        holder.add_exports(types, id)?;
        Ok(holder)
    }

    /// What stands in a component type, where no value type is tested yet.
    pub fn of_world(alloc: Global, types: &Types, id: WorldId) -> Result<Self, AllocError>
        ensures { IfOk result (λ s. IsFilled types.now s (component_holder (stated_of types.now (ItemKind.Component id)))) }
    {
        let mut holder = Holder::new(alloc);
        holder.add_world_uses(types, id)?;
        holder.add_imports(types, id)?;
        holder.add_world_exports(types, id)?;
        Ok(holder)
    }

    /// Whether a use gives the item: under its name, with its tree.
    pub fn gives(&self, alloc: Global, types: &Types, item: Item<'_>) -> Result<bool, AllocError>
        ensures { IfOk result (TellsGiven types.now self.now item.entry) }
    {
        match self.used.get(item.name) {
            Some(used) => is_same_item(alloc, types, *used, item.kind),
            None => Ok(false),
        }
    }

    /// Whether a resource of that root name stands there.
    pub fn has_root(&self, name: &str) -> bool
        ensures { (c : Collection) (h : Held) → Shows c self.now h → result ≡ has_name h.roots name.now }
    {
        self.roots.contains(name)
    }

    /// Whether a value type is one that is used.
    pub fn has_value(&self, alloc: Global, types: &Types, ty: ValueType) -> Result<bool, AllocError>
        ensures { IfOk result (TellsUsed types.now self.now ty) }
    {
        for at in 0..self.used.len() {
            let (_, used) = self.used.entry(at);
            if is_value_of(alloc, types, *used, ty)? {
                return Ok(true);
            }
        }
        Ok(false)
    }

    /// Whether a value type fails, if it was tested here.
    pub fn tested(&self, id: DefinedTypeId) -> Option<bool>
        ensures { result ≡ tested_of self.now.tested.entries id }
    {
        self.tested.get(&id).copied()
    }

    /// Remembers whether a value type fails.
    pub fn remember(&mut self, id: DefinedTypeId, fails: bool) -> Result<(), AllocError>
        ensures { OnOk result (Remembers self.old id fails self.new) }
    {
        let _ = self.tested.insert(id, fails)?;
        Ok(())
    }
}
