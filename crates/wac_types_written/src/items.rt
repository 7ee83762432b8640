//! Items, with their worlds in a form.

ghost use Rattle.std.specs.Prelude.{◌≡◌, IfOk, OnOk, Some, slice_get};
ghost use Rattle.wac_types_base.specs.declared.item.ItemKind.{ItemKind as Kind};
ghost use Rattle.wac_types_base.specs.declared.item.«Type».{«Type» as TypeKind};
ghost use Rattle.wac_types_base.specs.Collection.{Grows, Stands};
ghost use Rattle.wac_types_base.specs.Stated.{stated_of};
ghost use Rattle.wac_types_written.specs.Forms.{AreFormed, AreForms, IsDefinitionOf, IsFormedOf, IsOf, IsWithoutUses, ItemsStand, UsesFormed, UsesStand, maker};
ghost use Rattle.wac_types_written.specs.Written as form;

use crate::components::add_component_type;
use crate::forms::Forms;
use crate::maps::use_of;
use crate::worlds::{WorldForm, add_formed_world};
use std::alloc::{AllocError, Global};
use wac_types_base::{
    Interface, InterfaceId, ItemKind, NamedMap, Text, Type, Types, UsedType, World, WorldId,
    copy_text,
};

/// What becomes of items.
#[cycle(forms)]
fn form_items(
    types: &mut Types,
    alloc: Global,
    items: &NamedMap<ItemKind>,
    worlds: WorldForm,
    forms: &mut Forms,
) -> Result<NamedMap<ItemKind>, AllocError>
    requires stand { ItemsStand types.old items.now }
    requires forms { AreForms (maker worlds) types.old forms.old }
    ensures formed { IfOk result (AreFormed (maker worlds) types.new items.now) }
    ensures forms { OnOk result (AreForms (maker worlds) types.new forms.new) }
    ensures grows { Grows types.old types.new }
{
    types.see_acyclic();
    let mut all = NamedMap::new(alloc);
    for at in 0..items.len() {
        let (name, item) = items.entry(at);
        let form = form_item(types, alloc, *item, worlds, forms)?;
        all.push(String::from_str(alloc, name)?, form)?;
    }
    Ok(all)
}

/// What becomes of uses.
#[cycle(forms)]
fn form_uses(
    types: &mut Types,
    alloc: Global,
    uses: &NamedMap<UsedType>,
    worlds: WorldForm,
    forms: &mut Forms,
) -> Result<NamedMap<UsedType>, AllocError>
    requires stand { UsesStand types.old uses.now }
    requires forms { AreForms (maker worlds) types.old forms.old }
    ensures formed { IfOk result (UsesFormed (maker worlds) types.new uses.now) }
    ensures forms { OnOk result (AreForms (maker worlds) types.new forms.new) }
    ensures grows { Grows types.old types.new }
{
    types.see_acyclic();
    let mut all = NamedMap::new(alloc);
    for at in 0..uses.len() {
        let (name, used) = uses.entry(at);
        let interface = form_interface(types, alloc, used.interface, worlds, forms)?;
        let used = use_of(used, interface)?;
        all.push(String::from_str(alloc, name)?, used)?;
    }
    Ok(all)
}

/// One interface of what the parts of another became.
#[cycle(forms)]
fn interface_of_parts(
    types: &mut Types,
    alloc: Global,
    id: InterfaceId,
    own: &Interface,
    worlds: WorldForm,
    forms: &mut Forms,
) -> Result<InterfaceId, AllocError>
    requires entry { slice_get types.old.interfaces id.index ≡ Some own.now }
    requires number { id.collection ≡ types.old.number }
    requires forms { AreForms (maker worlds) types.old forms.old }
    ensures formed { IfOk result (λ i. IsFormedOf (maker worlds) types.old types.new (Kind.Instance id) (Kind.Instance i)) }
    ensures forms { OnOk result (AreForms (maker worlds) types.new forms.new) }
    ensures grows { Grows types.old types.new }
{
    types.see_acyclic();
    let uses = form_uses(types, alloc, &own.uses, worlds, forms)?;
    let exports = form_items(types, alloc, &own.exports, worlds, forms)?;
    let name = copy_text(&own.id)?;
    types.see_acyclic();
    let form = types.add_interface(Interface {
        id: name,
        uses,
        exports,
    })?;
    Ok(form)
}

/// What becomes of an interface.
#[cycle(forms)]
fn new_interface(
    types: &mut Types,
    alloc: Global,
    id: InterfaceId,
    worlds: WorldForm,
    forms: &mut Forms,
) -> Result<InterfaceId, AllocError>
    requires stands { Stands types.old (Kind.Instance id) }
    requires forms { AreForms (maker worlds) types.old forms.old }
    ensures formed { IfOk result (λ i. IsFormedOf (maker worlds) types.old types.new (Kind.Instance id) (Kind.Instance i)) }
    ensures forms { OnOk result (AreForms (maker worlds) types.new forms.new) }
    ensures grows { Grows types.old types.new }
{
    types.see_acyclic();
    let own = types.interface(id).copy(alloc)?;
    let form = interface_of_parts(types, alloc, id, &own, worlds, forms)?;
    Ok(form)
}

/// What becomes of an interface, once for all.
#[cycle(forms)]
fn form_interface(
    types: &mut Types,
    alloc: Global,
    id: InterfaceId,
    worlds: WorldForm,
    forms: &mut Forms,
) -> Result<InterfaceId, AllocError>
    requires stands { Stands types.old (Kind.Instance id) }
    requires forms { AreForms (maker worlds) types.old forms.old }
    ensures formed { IfOk result (λ i. IsFormedOf (maker worlds) types.old types.new (Kind.Instance id) (Kind.Instance i)) }
    ensures forms { OnOk result (AreForms (maker worlds) types.new forms.new) }
    ensures grows { Grows types.old types.new }
{
    types.see_acyclic();
    if let Some(form) = forms.interface(types, id, worlds) {
        return Ok(form);
    }
    let form = new_interface(types, alloc, id, worlds, forms)?;
    forms.keep_interface(types, id, form, worlds)?;
    Ok(form)
}

/// One world of what the parts of another became.
#[cycle(forms)]
fn world_of_parts(
    types: &mut Types,
    alloc: Global,
    id: WorldId,
    own: &World,
    worlds: WorldForm,
    forms: &mut Forms,
) -> Result<WorldId, AllocError>
    requires entry { slice_get types.old.worlds id.index ≡ Some own.now }
    requires number { id.collection ≡ types.old.number }
    requires forms { AreForms (maker worlds) types.old forms.old }
    ensures formed { IfOk result (λ w. IsFormedOf (maker worlds) types.old types.new (Kind.Component id) (Kind.Component w)) }
    ensures forms { OnOk result (AreForms (maker worlds) types.new forms.new) }
    ensures grows { Grows types.old types.new }
{
    types.see_acyclic();
    let uses = form_uses(types, alloc, &own.uses, worlds, forms)?;
    let imports = form_items(types, alloc, &own.imports, worlds, forms)?;
    let exports = form_items(types, alloc, &own.exports, worlds, forms)?;
    let name = copy_text(&own.id)?;
    let world = World {
        id: name,
        uses,
        imports,
        exports,
    };
    let form = add_formed_world(types, alloc, worlds, world)?;
    Ok(form)
}

/// What becomes of a world.
#[cycle(forms)]
fn new_world(
    types: &mut Types,
    alloc: Global,
    id: WorldId,
    worlds: WorldForm,
    forms: &mut Forms,
) -> Result<WorldId, AllocError>
    requires stands { Stands types.old (Kind.Component id) }
    requires forms { AreForms (maker worlds) types.old forms.old }
    ensures formed { IfOk result (λ w. IsFormedOf (maker worlds) types.old types.new (Kind.Component id) (Kind.Component w)) }
    ensures forms { OnOk result (AreForms (maker worlds) types.new forms.new) }
    ensures grows { Grows types.old types.new }
{
    types.see_acyclic();
    let own = types.world(id).copy(alloc)?;
    let form = world_of_parts(types, alloc, id, &own, worlds, forms)?;
    Ok(form)
}

/// What becomes of a world, once for all.
#[cycle(forms)]
fn form_world(
    types: &mut Types,
    alloc: Global,
    id: WorldId,
    worlds: WorldForm,
    forms: &mut Forms,
) -> Result<WorldId, AllocError>
    requires stands { Stands types.old (Kind.Component id) }
    requires forms { AreForms (maker worlds) types.old forms.old }
    ensures formed { IfOk result (λ w. IsFormedOf (maker worlds) types.old types.new (Kind.Component id) (Kind.Component w)) }
    ensures forms { OnOk result (AreForms (maker worlds) types.new forms.new) }
    ensures grows { Grows types.old types.new }
{
    types.see_acyclic();
    if let Some(form) = forms.world(types, id, worlds) {
        return Ok(form);
    }
    let form = new_world(types, alloc, id, worlds, forms)?;
    forms.keep_world(types, id, form, worlds)?;
    Ok(form)
}

/// What becomes of a type.
#[cycle(forms)]
fn form_type(
    types: &mut Types,
    alloc: Global,
    ty: Type,
    worlds: WorldForm,
    forms: &mut Forms,
) -> Result<Type, AllocError>
    requires stands { Stands types.old (Kind.Ty ty) }
    requires forms { AreForms (maker worlds) types.old forms.old }
    ensures formed { IfOk result (λ f. IsFormedOf (maker worlds) types.old types.new (Kind.Ty ty) (Kind.Ty f)) }
    ensures forms { OnOk result (AreForms (maker worlds) types.new forms.new) }
    ensures grows { Grows types.old types.new }
{
    types.see_acyclic();
    match ty {
        Type::Interface(id) => {
            let form = form_interface(types, alloc, id, worlds, forms)?;
            Ok(Type::Interface(form))
        }
        Type::World(id) => {
            let form = form_world(types, alloc, id, worlds, forms)?;
            Ok(Type::World(form))
        }
        _ => Ok(ty),
    }
}

/// What becomes of an item.
#[cycle(forms)]
fn form_item(
    types: &mut Types,
    alloc: Global,
    item: ItemKind,
    worlds: WorldForm,
    forms: &mut Forms,
) -> Result<ItemKind, AllocError>
    requires stands { Stands types.old item }
    requires forms { AreForms (maker worlds) types.old forms.old }
    ensures formed { IfOk result (IsFormedOf (maker worlds) types.old types.new item) }
    ensures forms { OnOk result (AreForms (maker worlds) types.new forms.new) }
    ensures grows { Grows types.old types.new }
{
    types.see_acyclic();
    match item {
        ItemKind::Instance(id) => {
            let form = form_interface(types, alloc, id, worlds, forms)?;
            Ok(ItemKind::Instance(form))
        }
        ItemKind::Component(id) => {
            let form = form_world(types, alloc, id, worlds, forms)?;
            Ok(ItemKind::Component(form))
        }
        ItemKind::Ty(ty) => {
            let form = form_type(types, alloc, ty, worlds, forms)?;
            Ok(ItemKind::Ty(form))
        }
        _ => Ok(item),
    }
}

/// An item with each world in it as a component type, which imports what its items use.
pub fn written(alloc: Global, types: &mut Types, item: ItemKind) -> Result<ItemKind, AllocError>
    requires { Stands types.old item }
    ensures written { IfOk result (IsOf types.new (form.written (stated_of types.old item))) }
    ensures grows { Grows types.old types.new }
{
    let mut forms = Forms::new(alloc, types, WorldForm::ComponentType);
    let form = form_item(types, alloc, item, WorldForm::ComponentType, &mut forms)?;
    Ok(form)
}

/// An item with each world in it without its uses.
pub fn without_uses(
    alloc: Global,
    types: &mut Types,
    item: ItemKind,
) -> Result<ItemKind, AllocError>
    requires { Stands types.old item }
    ensures without { IfOk result (IsWithoutUses types.old types.new item) }
    ensures grows { Grows types.old types.new }
{
    let mut forms = Forms::new(alloc, types, WorldForm::WithoutUses);
    let form = form_item(types, alloc, item, WorldForm::WithoutUses, &mut forms)?;
    Ok(form)
}

/// A component type with this one export.
fn wrap(
    types: &mut Types,
    alloc: Global,
    name: Text,
    item: ItemKind,
) -> Result<ItemKind, AllocError>
    requires { Stands types.old item }
    ensures wrapped { IfOk result (IsOf types.new (form.wrapped name (stated_of types.old item))) }
    ensures grows { Grows types.old types.new }
{
    types.see_acyclic();
    let mut exports = NamedMap::new(alloc);
    exports.push(name.into_string(), item)?;
    let world = World {
        id: None,
        uses: NamedMap::new(alloc),
        imports: NamedMap::new(alloc),
        exports,
    };
    let world = add_component_type(types, alloc, world)?;
    Ok(ItemKind::Ty(Type::World(world)))
}

/// The type of an interface in the form in which its definition is written.
fn written_interface(
    types: &mut Types,
    alloc: Global,
    id: InterfaceId,
) -> Result<ItemKind, AllocError>
    requires { Stands types.old (Kind.Ty (TypeKind.Interface id)) }
    ensures written { IfOk result (IsDefinitionOf types.old types.new (Kind.Ty (TypeKind.Interface id))) }
    ensures grows { Grows types.old types.new }
{
    types.see_acyclic();
    let name = copy_text(&types.interface(id).id)?;
    let mut forms = Forms::new(alloc, types, WorldForm::ComponentType);
    let form = form_interface(types, alloc, id, WorldForm::ComponentType, &mut forms)?;
    match name {
        None => Ok(ItemKind::Ty(Type::Interface(form))),
        Some(name) => {
            let item = wrap(types, alloc, name, ItemKind::Instance(form))?;
            Ok(item)
        }
    }
}

/// The type of a world in the form in which its definition is written.
fn written_world(types: &mut Types, alloc: Global, id: WorldId) -> Result<ItemKind, AllocError>
    requires { Stands types.old (Kind.Ty (TypeKind.World id)) }
    ensures written { IfOk result (IsDefinitionOf types.old types.new (Kind.Ty (TypeKind.World id))) }
    ensures grows { Grows types.old types.new }
{
    types.see_acyclic();
    let name = copy_text(&types.world(id).id)?;
    let mut forms = Forms::new(alloc, types, WorldForm::ComponentType);
    let form = form_world(types, alloc, id, WorldForm::ComponentType, &mut forms)?;
    match name {
        None => Ok(ItemKind::Ty(Type::World(form))),
        Some(name) => {
            let item = wrap(types, alloc, name, ItemKind::Component(form))?;
            Ok(item)
        }
    }
}

/// A type in the form in which its definition is written.
fn written_type(types: &mut Types, alloc: Global, ty: Type) -> Result<ItemKind, AllocError>
    requires { Stands types.old (Kind.Ty ty) }
    ensures written { IfOk result (IsDefinitionOf types.old types.new (Kind.Ty ty)) }
    ensures grows { Grows types.old types.new }
{
    types.see_acyclic();
    match ty {
        Type::Interface(id) => {
            let item = written_interface(types, alloc, id)?;
            Ok(item)
        }
        Type::World(id) => {
            let item = written_world(types, alloc, id)?;
            Ok(item)
        }
        _ => Ok(ItemKind::Ty(ty)),
    }
}

/// The item in the form in which a definition of it is written: an interface or a world with identifier inside a component
/// type that has this one export.
pub fn written_definition(
    alloc: Global,
    types: &mut Types,
    item: ItemKind,
) -> Result<ItemKind, AllocError>
    requires { Stands types.old item }
    ensures written { IfOk result (IsOf types.new (form.written_definition (stated_of types.old item))) }
    ensures grows { Grows types.old types.new }
{
    types.see_acyclic();
    if let ItemKind::Ty(ty) = item {
        let form = written_type(types, alloc, ty)?;
        return Ok(form);
    }
    let form = written(alloc, types, item)?;
    Ok(form)
}
