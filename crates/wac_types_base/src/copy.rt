//! Copies from one collection into another. What is copied once is not copied again.

ghost use Rattle.std.specs.Prelude.{◌≡◌, OnOk, IfOk};
ghost use Rattle.wac_types_base.specs.Collection.{Stands, Grows};
ghost use Rattle.wac_types_base.specs.Copies.{Knows, AreCopies, KeepsKnown, KnowsPlaces, kind_copy};
ghost use Rattle.wac_types_base.specs.Remembering.{HasCopied};
ghost use Rattle.wac_types_base.specs.Record.{Collection};
ghost use Rattle.wac_types_base.specs.Copying.{IsCopy};

use crate::copies::Copies;
use crate::ids::{DefinedTypeId, FuncTypeId, InterfaceId, ModuleTypeId, ResourceId, WorldId};
use crate::item::{ItemKind, Type, ValueType};
use crate::remap::Remap;
use crate::types::Types;
use crate::types_mut::TypesMut;
use std::alloc::{AllocError, Global};
use std::collections::HashMap;

/// Copies a defined type whose places have copies.
fn copy_defined_type(
    alloc: Global,
    from: &Types,
    id: DefinedTypeId,
    to: &mut Types,
    copies: &mut Copies,
) -> Result<(), AllocError>
    requires stands { Stands from.now (ItemKind.Value (ValueType.Defined id)) }
    requires copies { AreCopies from.now to.old copies.old }
    requires places { KnowsPlaces from.now copies.old (ItemKind.Value (ValueType.Defined id)) }
    ensures known { OnOk result (Knows copies.new (ItemKind.Value (ValueType.Defined id))) }
    ensures copies { AreCopies from.now to.new copies.new }
    ensures keeps { KeepsKnown copies.old copies.new }
    ensures grows { Grows to.old to.new }
{
    to.see_acyclic();
    let entry = from.defined_type(id).remap(alloc, copies)?;
    let copy = to.add_defined_type(entry)?;
    let _ = copies.defined_types.insert(id.index, copy.index)?;
    Ok(())
}

/// Copies a resource whose places have copies.
fn copy_resource(
    alloc: Global,
    from: &Types,
    id: ResourceId,
    to: &mut Types,
    copies: &mut Copies,
) -> Result<(), AllocError>
    requires stands { Stands from.now (ItemKind.Ty (Type.Resource id)) }
    requires copies { AreCopies from.now to.old copies.old }
    requires places { KnowsPlaces from.now copies.old (ItemKind.Ty (Type.Resource id)) }
    ensures known { OnOk result (Knows copies.new (ItemKind.Ty (Type.Resource id))) }
    ensures copies { AreCopies from.now to.new copies.new }
    ensures keeps { KeepsKnown copies.old copies.new }
    ensures grows { Grows to.old to.new }
{
    to.see_acyclic();
    let entry = from.resource(id).remap(alloc, copies)?;
    let copy = to.add_resource(entry)?;
    let _ = copies.resources.insert(id.index, copy.index)?;
    Ok(())
}

/// Copies a function type whose places have copies.
fn copy_func_type(
    alloc: Global,
    from: &Types,
    id: FuncTypeId,
    to: &mut Types,
    copies: &mut Copies,
) -> Result<(), AllocError>
    requires stands { Stands from.now (ItemKind.Func id) }
    requires copies { AreCopies from.now to.old copies.old }
    requires places { KnowsPlaces from.now copies.old (ItemKind.Func id) }
    ensures known { OnOk result (Knows copies.new (ItemKind.Func id)) }
    ensures copies { AreCopies from.now to.new copies.new }
    ensures keeps { KeepsKnown copies.old copies.new }
    ensures grows { Grows to.old to.new }
{
    to.see_acyclic();
    let entry = from.func_type(id).remap(alloc, copies)?;
    let copy = to.add_func_type(entry)?;
    let _ = copies.func_types.insert(id.index, copy.index)?;
    Ok(())
}

/// Copies an interface whose places have copies.
fn copy_interface(
    alloc: Global,
    from: &Types,
    id: InterfaceId,
    to: &mut Types,
    copies: &mut Copies,
) -> Result<(), AllocError>
    requires stands { Stands from.now (ItemKind.Instance id) }
    requires copies { AreCopies from.now to.old copies.old }
    requires places { KnowsPlaces from.now copies.old (ItemKind.Instance id) }
    ensures known { OnOk result (Knows copies.new (ItemKind.Instance id)) }
    ensures copies { AreCopies from.now to.new copies.new }
    ensures keeps { KeepsKnown copies.old copies.new }
    ensures grows { Grows to.old to.new }
{
    to.see_acyclic();
    let entry = from.interface(id).remap(alloc, copies)?;
    let copy = to.add_interface(entry)?;
    let _ = copies.interfaces.insert(id.index, copy.index)?;
    Ok(())
}

/// Copies a world whose places have copies.
fn copy_world_entry(
    alloc: Global,
    from: &Types,
    id: WorldId,
    to: &mut Types,
    copies: &mut Copies,
) -> Result<(), AllocError>
    requires stands { Stands from.now (ItemKind.Component id) }
    requires copies { AreCopies from.now to.old copies.old }
    requires places { KnowsPlaces from.now copies.old (ItemKind.Component id) }
    ensures known { OnOk result (Knows copies.new (ItemKind.Component id)) }
    ensures copies { AreCopies from.now to.new copies.new }
    ensures keeps { KeepsKnown copies.old copies.new }
    ensures grows { Grows to.old to.new }
{
    to.see_acyclic();
    let entry = from.world(id).remap(alloc, copies)?;
    let copy = to.add_world(entry)?;
    let _ = copies.worlds.insert(id.index, copy.index)?;
    Ok(())
}

/// Copies a module type whose places have copies.
fn copy_module_type(
    alloc: Global,
    from: &Types,
    id: ModuleTypeId,
    to: &mut Types,
    copies: &mut Copies,
) -> Result<(), AllocError>
    requires stands { Stands from.now (ItemKind.Module id) }
    requires copies { AreCopies from.now to.old copies.old }
    requires places { KnowsPlaces from.now copies.old (ItemKind.Module id) }
    ensures known { OnOk result (Knows copies.new (ItemKind.Module id)) }
    ensures copies { AreCopies from.now to.new copies.new }
    ensures keeps { KeepsKnown copies.old copies.new }
    ensures grows { Grows to.old to.new }
{
    to.see_acyclic();
    let entry = from.module_type(id).remap(alloc, copies)?;
    let copy = to.add_module_type(entry)?;
    let _ = copies.modules.insert(id.index, copy.index)?;
    Ok(())
}

/// Copies what a value type names, whose places have copies.
#[tactic(auto, using(crate::proofs::Copying::known_places))]
fn copy_value_type(
    alloc: Global,
    from: &Types,
    ty: ValueType,
    to: &mut Types,
    copies: &mut Copies,
) -> Result<(), AllocError>
    requires stands { Stands from.now (ItemKind.Value ty) }
    requires copies { AreCopies from.now to.old copies.old }
    requires places { KnowsPlaces from.now copies.old (ItemKind.Value ty) }
    ensures known { OnOk result (Knows copies.new (ItemKind.Value ty)) }
    ensures copies { AreCopies from.now to.new copies.new }
    ensures keeps { KeepsKnown copies.old copies.new }
    ensures grows { Grows to.old to.new }
{
    to.see_acyclic();
    match ty {
        ValueType::Primitive(_) => Ok(()),
        ValueType::Borrow(id) => copy_resource(alloc, from, id, to, copies),
        ValueType::Own(id) => copy_resource(alloc, from, id, to, copies),
        ValueType::Defined(id) => copy_defined_type(alloc, from, id, to, copies),
    }
}

/// Copies what a type names, whose places have copies.
#[tactic(auto, using(crate::proofs::Copying::known_places))]
fn copy_type(
    alloc: Global,
    from: &Types,
    ty: Type,
    to: &mut Types,
    copies: &mut Copies,
) -> Result<(), AllocError>
    requires stands { Stands from.now (ItemKind.Ty ty) }
    requires copies { AreCopies from.now to.old copies.old }
    requires places { KnowsPlaces from.now copies.old (ItemKind.Ty ty) }
    ensures known { OnOk result (Knows copies.new (ItemKind.Ty ty)) }
    ensures copies { AreCopies from.now to.new copies.new }
    ensures keeps { KeepsKnown copies.old copies.new }
    ensures grows { Grows to.old to.new }
{
    match ty {
        Type::Resource(id) => copy_resource(alloc, from, id, to, copies),
        Type::Func(id) => copy_func_type(alloc, from, id, to, copies),
        Type::Value(value) => copy_value_type(alloc, from, value, to, copies),
        Type::Interface(id) => copy_interface(alloc, from, id, to, copies),
        Type::World(id) => copy_world_entry(alloc, from, id, to, copies),
        Type::Module(id) => copy_module_type(alloc, from, id, to, copies),
    }
}

/// Copies what a kind names, whose places have copies.
fn copy_kind(
    alloc: Global,
    from: &Types,
    kind: ItemKind,
    to: &mut Types,
    copies: &mut Copies,
) -> Result<(), AllocError>
    requires stands { Stands from.now kind }
    requires copies { AreCopies from.now to.old copies.old }
    requires places { KnowsPlaces from.now copies.old kind }
    ensures known { OnOk result (Knows copies.new kind) }
    ensures copies { AreCopies from.now to.new copies.new }
    ensures keeps { KeepsKnown copies.old copies.new }
    ensures grows { Grows to.old to.new }
{
    match kind {
        ItemKind::Ty(ty) => copy_type(alloc, from, ty, to, copies),
        ItemKind::Func(id) => copy_func_type(alloc, from, id, to, copies),
        ItemKind::Instance(id) => copy_interface(alloc, from, id, to, copies),
        ItemKind::Component(id) => copy_world_entry(alloc, from, id, to, copies),
        ItemKind::Module(id) => copy_module_type(alloc, from, id, to, copies),
        ItemKind::Value(value) => copy_value_type(alloc, from, value, to, copies),
    }
}

/// Copies what a kind names after what is in its places, unless it has a copy.
fn copy_below(
    alloc: Global,
    from: &Types,
    kind: ItemKind,
    to: &mut Types,
    copies: &mut Copies,
) -> Result<(), AllocError>
    requires stands { Stands from.now kind }
    requires copies { AreCopies from.now to.old copies.old }
    ensures known { OnOk result (Knows copies.new kind) }
    ensures copies { AreCopies from.now to.new copies.new }
    ensures keeps { KeepsKnown copies.old copies.new }
    ensures grows { Grows to.old to.new }
{
    to.see_acyclic();
    if copies.has(kind) {
        return Ok(());
    }
    let mut at: u128 = 0;
    while let Some(place) = from.place(kind, at) {
        if let Some(child) = place {
            copy_below(alloc, from, child, to, copies)?;
        }
        at += 1;
    }
    copy_kind(alloc, from, kind, to, copies)
}

/// Copies from one collection into another, in many calls. What is copied once is not copied again.
#[derive(Drop)]
pub struct Copier {
    copies: Copies,
}

impl Copier {
    /// Nothing is copied yet.
    pub fn new(alloc: Global, to: &Types) -> Self
        ensures { (from : Collection) → HasCopied from to.now result }
    {
        Copier {
            copies: Copies::new(alloc, to.number()),
        }
    }

    /// Copies what a kind names. Want of memory may leave entries that nothing names.
    pub fn item(
        &mut self,
        alloc: Global,
        from: &Types,
        kind: ItemKind,
        to: &mut Types,
    ) -> Result<ItemKind, AllocError>
        requires stands { Stands from.now kind }
        requires copies { HasCopied from.now to.old self.old }
        ensures copied { IfOk result (λ k. IsCopy from.now to.new kind k) }
        ensures copies { HasCopied from.now to.new self.new }
        ensures grows { Grows to.old to.new }
    {
        to.see_acyclic();
        from.see_acyclic();
        copy_below(alloc, from, kind, to, &mut self.copies)?;
        Ok(self.copies.kind(kind))
    }
}

/// Copies what a kind names into another collection. Want of memory may leave entries there that nothing names.
pub fn copy_item(
    alloc: Global,
    from: &Types,
    kind: ItemKind,
    to: &mut Types,
) -> Result<ItemKind, AllocError>
    requires { Stands from.now kind }
    ensures copied { IfOk result (λ k. IsCopy from.now to.new kind k) }
    ensures grows { Grows to.old to.new }
{
    let mut copier = Copier::new(alloc, to);
    copier.item(alloc, from, kind, to)
}

/// Copies a world into another collection, with the same tree, identifiers and uses. Want of memory may leave entries
/// there that nothing names.
pub fn copy_world(
    alloc: Global,
    from: &Types,
    id: WorldId,
    to: &mut TypesMut<'_>,
) -> Result<WorldId, AllocError>
    requires { Stands from.now (ItemKind.Component id) }
    ensures copied { IfOk result (λ i. IsCopy from.now to.new.types.now (ItemKind.Component id) (ItemKind.Component i)) }
    ensures grows { Grows to.old.types.now to.new.types.now }
    ensures same_reference { to.new.types.ghost_name ≡ to.old.types.ghost_name }
{
    to.types.see_acyclic();
    from.see_acyclic();
    let mut copies = Copies::new(alloc, to.number());
    copy_below(alloc, from, ItemKind::Component(id), to.types, &mut copies)?;
    Ok(copies.world(id))
}
