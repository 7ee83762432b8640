//! Replacing entries, where nothing comes to reach itself.

ghost use Rattle.std.specs.Prelude.{◌≡◌, ◌↔◌, IsTrue, OnOk, OnErr, IfErr};
ghost use Rattle.wac_types_base.specs.Kept.{keeping, KeepsDefinedType, KeepsResource, KeepsFuncType, KeepsInterface, KeepsWorld, KeepsModuleType};
ghost use Rattle.wac_types_base.specs.declared.replace.CycleError.{CycleError};
ghost use Rattle.wac_types_base.specs.Collection.{Stands, HasChildren, item_node, defined_entry, resource_entry, func_entry, interface_entry, world_entry, module_entry};
ghost use Rattle.wac_types_base.specs.Reaching.{Reaches, LeadsBack, NamesEntry, KeepsOthers, KeepsStanding, value_entry_kind, entry_kind, with_defined_type, with_resource, with_func_type, with_interface, with_world, with_module_type};

use crate::core_types::ModuleType;
use crate::defined::{DefinedType, FuncType, Interface, Resource, World};
use crate::ids::{DefinedTypeId, FuncTypeId, InterfaceId, ModuleTypeId, ResourceId, WorldId};
use crate::item::{ItemKind, Type, ValueType};
use crate::types::Types;
use crate::walk::Places;
use std::alloc::AllocError;
use std::error::Error;
use std::fmt;

/// Why an entry was not replaced.
#[derive(Clone, Copy, Debug, PartialEq, Eq)]
pub enum CycleError {
    /// The entry would reach itself.
    Cycle,
    /// Memory was refused.
    Memory,
}

impl fmt::Display for CycleError {
    fn fmt<W: fmt::Write>(&self, f: &mut fmt::Formatter<W>) -> fmt::Result {
        f.write_str(match self {
            CycleError::Cycle => "the entry would reach itself",
            CycleError::Memory => "out of memory",
        })
    }
}

impl Error for CycleError {}

impl From<AllocError> for CycleError {
    ghost use Rattle.std.specs.Prelude.{◌≡◌};
    ghost use Rattle.wac_types_base.specs.declared.replace.CycleError.{CycleError};

    ghost from_gives = { λ _ e. e ≡ CycleError.Memory };

    fn from(_error: AllocError) -> Self {
        CycleError::Memory
    }
}

/// Whether two kinds are the same.
pub fn is_same(a: ItemKind, b: ItemKind) -> bool
    ensures { IsTrue result ↔ (a ≡ b) }
{
    a == b
}

fn value_entry(ty: ValueType) -> ItemKind
    ensures { result ≡ value_entry_kind ty }
{
    match ty {
        ValueType::Borrow(id) | ValueType::Own(id) => ItemKind::Ty(Type::Resource(id)),
        ValueType::Primitive(_) | ValueType::Defined(_) => ItemKind::Value(ty),
    }
}

/// The kind of the entry that a kind names.
fn entry_of(kind: ItemKind) -> ItemKind
    ensures { result ≡ entry_kind kind }
{
    match kind {
        ItemKind::Ty(Type::Func(id)) => ItemKind::Func(id),
        ItemKind::Ty(Type::Interface(id)) => ItemKind::Instance(id),
        ItemKind::Ty(Type::World(id)) => ItemKind::Component(id),
        ItemKind::Ty(Type::Module(id)) => ItemKind::Module(id),
        ItemKind::Ty(Type::Value(ty)) => value_entry(ty),
        ItemKind::Value(ty) => value_entry(ty),
        _ => kind,
    }
}

fn names_entry(target: ItemKind, kind: ItemKind) -> bool
    ensures { IsTrue result ↔ NamesEntry target kind }
{
    is_same(entry_of(kind), target)
}

impl Types {
    /// Whether the entry of the target is reached from a kind.
    fn reaches(&self, target: ItemKind, kind: ItemKind) -> bool
        requires { Stands self.now kind }
        ensures { IsTrue result ↔ Reaches (item_node self.now) (NamesEntry target) kind }
    {
        if names_entry(target, kind) {
            return true;
        }
        let mut at: u128 = 0;
        while let Some(place) = self.place(kind, at) {
            if let Some(child) = place {
                if self.reaches(target, child) {
                    return true;
                }
            }
            at += 1;
        }
        false
    }

    /// Whether the entry of the target would reach itself if it were this one.
    fn leads_back<E: Places>(&self, target: ItemKind, entry: &E) -> bool
        requires { HasChildren self.now (E.entry entry.now) }
        ensures { IsTrue result ↔ LeadsBack self.now target (E.entry entry.now) }
    {
        let mut at: u128 = 0;
        while let Some(place) = entry.place(at) {
            if let Some(child) = place {
                if self.reaches(target, child) {
                    return true;
                }
            }
            at += 1;
        }
        false
    }
}

/// Lets a value go. It is generic in the value, and needs nothing of what that holds, so its proof is short.
fn let_go<T: Drop>(_value: T) {}

// Each entry that is put in may hold ids of this collection alone, which `contains` tests. It is refused where the id
// would reach itself, or where it is kept for the first time and memory is refused. Then nothing is changed.
impl Types {
    /// Puts another entry under the id of a defined type.
    pub fn replace_defined_type(
        &mut self,
        id: DefinedTypeId,
        ty: DefinedType,
    ) -> Result<(), CycleError>
        requires stands { Stands self.old (ItemKind.Value (ValueType.Defined id)) }
        requires children { HasChildren self.old (defined_entry ty) }
        ensures replaced { OnOk result (self.new ≡ keeping self.new.kept (with_defined_type self.old id.index ty)) }
        ensures kept { OnOk result (KeepsDefinedType self.old.kept self.new.kept ty) }
        ensures refused { OnErr result (self.new ≡ self.old) }
        ensures no_cycle { OnOk result (LeadsBack self.old (ItemKind.Value (ValueType.Defined id)) (defined_entry ty) → ⊥) }
        ensures cycle { IfErr result
            (λ e. (e ≡ CycleError.Cycle) ↔ LeadsBack self.old (ItemKind.Value (ValueType.Defined id)) (defined_entry ty)) }
        ensures stand { KeepsStanding self.old self.new }
        ensures keeps { OnOk result (KeepsOthers self.old self.new (ItemKind.Value (ValueType.Defined id))) }
    {
        if self.leads_back(ItemKind::Value(ValueType::Defined(id)), &ty) {
            let_go(ty);
            return Err(CycleError::Cycle);
        }
        self.defined_types.put(id.index, ty)?;
        Ok(())
    }

    /// Puts another entry under the id of a resource.
    pub fn replace_resource(&mut self, id: ResourceId, resource: Resource) -> Result<(), CycleError>
        requires stands { Stands self.old (ItemKind.Ty (Type.Resource id)) }
        requires children { HasChildren self.old (resource_entry resource) }
        ensures replaced { OnOk result (self.new ≡ keeping self.new.kept (with_resource self.old id.index resource)) }
        ensures kept { OnOk result (KeepsResource self.old.kept self.new.kept resource) }
        ensures refused { OnErr result (self.new ≡ self.old) }
        ensures no_cycle { OnOk result (LeadsBack self.old (ItemKind.Ty (Type.Resource id)) (resource_entry resource) → ⊥) }
        ensures cycle { IfErr result
            (λ e. (e ≡ CycleError.Cycle) ↔ LeadsBack self.old (ItemKind.Ty (Type.Resource id)) (resource_entry resource)) }
        ensures stand { KeepsStanding self.old self.new }
        ensures keeps { OnOk result (KeepsOthers self.old self.new (ItemKind.Ty (Type.Resource id))) }
    {
        if self.leads_back(ItemKind::Ty(Type::Resource(id)), &resource) {
            let_go(resource);
            return Err(CycleError::Cycle);
        }
        self.resources.put(id.index, resource)?;
        Ok(())
    }

    /// Puts another entry under the id of a function type.
    pub fn replace_func_type(&mut self, id: FuncTypeId, func: FuncType) -> Result<(), CycleError>
        requires stands { Stands self.old (ItemKind.Func id) }
        requires children { HasChildren self.old (func_entry func) }
        ensures replaced { OnOk result (self.new ≡ keeping self.new.kept (with_func_type self.old id.index func)) }
        ensures kept { OnOk result (KeepsFuncType self.old.kept self.new.kept func) }
        ensures refused { OnErr result (self.new ≡ self.old) }
        ensures no_cycle { OnOk result (LeadsBack self.old (ItemKind.Func id) (func_entry func) → ⊥) }
        ensures cycle { IfErr result
            (λ e. (e ≡ CycleError.Cycle) ↔ LeadsBack self.old (ItemKind.Func id) (func_entry func)) }
        ensures stand { KeepsStanding self.old self.new }
        ensures keeps { OnOk result (KeepsOthers self.old self.new (ItemKind.Func id)) }
    {
        if self.leads_back(ItemKind::Func(id), &func) {
            let_go(func);
            return Err(CycleError::Cycle);
        }
        self.func_types.put(id.index, func)?;
        Ok(())
    }

    /// Puts another entry under the id of an interface.
    pub fn replace_interface(
        &mut self,
        id: InterfaceId,
        interface: Interface,
    ) -> Result<(), CycleError>
        requires stands { Stands self.old (ItemKind.Instance id) }
        requires children { HasChildren self.old (interface_entry interface) }
        ensures replaced { OnOk result (self.new ≡ keeping self.new.kept (with_interface self.old id.index interface)) }
        ensures kept { OnOk result (KeepsInterface self.old.kept self.new.kept interface) }
        ensures refused { OnErr result (self.new ≡ self.old) }
        ensures no_cycle { OnOk result (LeadsBack self.old (ItemKind.Instance id) (interface_entry interface) → ⊥) }
        ensures cycle { IfErr result
            (λ e. (e ≡ CycleError.Cycle) ↔ LeadsBack self.old (ItemKind.Instance id) (interface_entry interface)) }
        ensures stand { KeepsStanding self.old self.new }
        ensures keeps { OnOk result (KeepsOthers self.old self.new (ItemKind.Instance id)) }
    {
        if self.leads_back(ItemKind::Instance(id), &interface) {
            let_go(interface);
            return Err(CycleError::Cycle);
        }
        self.interfaces.put(id.index, interface)?;
        Ok(())
    }

    /// Puts another entry under the id of a world.
    pub fn replace_world(&mut self, id: WorldId, world: World) -> Result<(), CycleError>
        requires stands { Stands self.old (ItemKind.Component id) }
        requires children { HasChildren self.old (world_entry world) }
        ensures replaced { OnOk result (self.new ≡ keeping self.new.kept (with_world self.old id.index world)) }
        ensures kept { OnOk result (KeepsWorld self.old.kept self.new.kept world) }
        ensures refused { OnErr result (self.new ≡ self.old) }
        ensures no_cycle { OnOk result (LeadsBack self.old (ItemKind.Component id) (world_entry world) → ⊥) }
        ensures cycle { IfErr result
            (λ e. (e ≡ CycleError.Cycle) ↔ LeadsBack self.old (ItemKind.Component id) (world_entry world)) }
        ensures stand { KeepsStanding self.old self.new }
        ensures keeps { OnOk result (KeepsOthers self.old self.new (ItemKind.Component id)) }
    {
        if self.leads_back(ItemKind::Component(id), &world) {
            let_go(world);
            return Err(CycleError::Cycle);
        }
        self.worlds.put(id.index, world)?;
        Ok(())
    }

    /// Puts another entry under the id of a module type.
    pub fn replace_module_type(
        &mut self,
        id: ModuleTypeId,
        ty: ModuleType,
    ) -> Result<(), CycleError>
        requires stands { Stands self.old (ItemKind.Module id) }
        requires children { HasChildren self.old (module_entry ty) }
        ensures replaced { OnOk result (self.new ≡ keeping self.new.kept (with_module_type self.old id.index ty)) }
        ensures kept { OnOk result (KeepsModuleType self.old.kept self.new.kept ty) }
        ensures refused { OnErr result (self.new ≡ self.old) }
        ensures no_cycle { OnOk result (LeadsBack self.old (ItemKind.Module id) (module_entry ty) → ⊥) }
        ensures cycle { IfErr result
            (λ e. (e ≡ CycleError.Cycle) ↔ LeadsBack self.old (ItemKind.Module id) (module_entry ty)) }
        ensures stand { KeepsStanding self.old self.new }
        ensures keeps { OnOk result (KeepsOthers self.old self.new (ItemKind.Module id)) }
    {
        if self.leads_back(ItemKind::Module(id), &ty) {
            let_go(ty);
            return Err(CycleError::Cycle);
        }
        self.modules.put(id.index, ty)?;
        Ok(())
    }
}
