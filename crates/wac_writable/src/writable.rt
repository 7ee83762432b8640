//! Which types cannot be written.

ghost use Rattle.std.specs.Prelude.{◌≡◌, [], true, is_some, IfSome, OnOk, IfOk};
ghost use Rattle.wac_types_base.specs.declared.item.ValueType.{ValueType};
ghost use Rattle.wac_types_base.specs.declared.item.ItemKind.{ItemKind};
ghost use Rattle.wac_types_base.specs.declared.item.«Type».{«Type» as TypeKind};
ghost use Rattle.wac_types_base.specs.Collection.{Stands};
ghost use Rattle.wac_types_base.specs.Entries.{value_at};
ghost use Rattle.wac_writable.specs.Holders.{Keeps, resource_in, instance_in};
ghost use Rattle.wac_writable.specs.Values.{IsHandleOf, TellsRoot, TellsUnused, TellsValue, TellsPlaces, value_in_slot};
ghost use Rattle.wac_writable.specs.Items.{IsSimple, module_unwritable};
ghost use Rattle.wac_writable.specs.Tests.{TellsFound, TellsOf, TellsUngiven, TellsTested, TellsExports, TellsInterface, TellsFirstUnwritten};
ghost use Rattle.wac_writable.specs.Tests.{is_tested, wrapped_in, stands_in, TellsGivenBy};
ghost use Rattle.wac_writable.specs.Tests.{TellsImports, TellsWorldExports, TellsItems, TellsItemsOfWorld, TellsWorld};
ghost use Rattle.wac_writable.specs.Tests.{TellsAlone, TellsOuter, TellsWrapped, TellsDefinition, TellsPackage};
ghost use Rattle.wac_writable.specs.Givers.{TellsImported, TellsAdded, TellsUse, TellsAt, TellsDirect, TellsNeeded};
ghost use Rattle.wac_writable.specs.Givers.{TellsWorldUses, TellsUsesOfImports, TellsUsesOfExports, TellsAllUses};
ghost use Rattle.wac_writable.specs.Givers.{TellsUsesOfWorld, TellsUsesOfPackage, TellsUsesOfPackageExports, TellsWrappedUses, items_by};

use crate::holder::{Holder, is_same_item};
use crate::modules::is_writable_module;
use crate::unnamed::Unnamed;
use indexmap::IndexSet;
use std::alloc::{AllocError, Global};
use wac_types_base::{
    DefinedTypeId, InterfaceId, ItemKind, ModuleTypeId, ResourceId, Type, Types, ValueType, WorldId,
};
use wac_types_parts::parts::{
    Item, Use, export_at, export_count, export_named, identifier, import_at, import_count,
    import_named, interface_of, root_name, use_at, use_count, world_export_at, world_export_count,
    world_export_named, world_of, world_use_at, world_use_count,
};

/// A test of types: which interfaces use one without identifier, and whether the types stand in an outer import.
#[derive(Clone, Copy)]
pub struct Test<'a> {
    pub alloc: Global,
    pub types: &'a Types,
    pub unnamed: &'a Unnamed,
    pub is_outer: bool,
}

/// Which items of an interface are tested.
#[derive(Clone, Copy, PartialEq, Eq)]
enum Which {
    All,
    TypesOnly,
}

fn is_tested(which: Which, kind: ItemKind) -> bool
    ensures { result ≡ is_tested which kind }
{
    match which {
        Which::All => true,
        Which::TypesOnly => matches!(kind, ItemKind::Ty(_)),
    }
}

// ---- values

/// Whether a handle's resource does not stand there.
fn handle_fails(test: Test<'_>, holder: &Holder, id: ResourceId) -> bool
    ensures { TellsRoot test.entry.types.now holder.now id result }
{
    test.types.see_acyclic();
    !holder.has_root(root_name(test.types, id))
}

/// Whether a value type that fails as such fails, since it is none that is used.
fn unused_fails(
    test: Test<'_>,
    holder: &Holder,
    ty: ValueType,
    fails: bool,
) -> Result<bool, AllocError>
    ensures { IfOk result (TellsUnused test.entry.types.now holder.now ty fails) }
{
    if !fails {
        return Ok(false);
    }
    let is_used = holder.has_value(test.alloc, test.types, ty)?;
    Ok(!is_used)
}

/// Whether a handle fails, that is none that is used.
fn unused_handle_fails(
    test: Test<'_>,
    holder: &Holder,
    ty: ValueType,
    id: ResourceId,
) -> Result<bool, AllocError>
    requires { IsHandleOf ty id }
    ensures { IfOk result (TellsValue test.entry.types.now holder.now ty) }
{
    test.types.see_acyclic();
    let fails = handle_fails(test, holder, id);
    unused_fails(test, holder, ty, fails)
}

/// The value type in a place.
fn value_in_place(place: Option<ItemKind>) -> Option<ValueType>
    ensures { result ≡ value_in_slot place }
{
    match place {
        Some(ItemKind::Value(ty)) => Some(ty),
        _ => None,
    }
}

/// Whether a value type fails: a resource, not inside a used type, whose root does not stand there.
#[cycle(values)]
fn value_fails(test: Test<'_>, holder: &mut Holder, ty: ValueType) -> Result<bool, AllocError>
    ensures keeps { OnOk result (Keeps test.entry.types.now holder.old holder.new) }
    ensures fails { IfOk result (TellsValue test.entry.types.now holder.old ty) }
{
    test.types.see_acyclic();
    match ty {
        ValueType::Primitive(_) => Ok(false),
        ValueType::Own(id) => unused_handle_fails(test, holder, ty, id),
        ValueType::Borrow(id) => unused_handle_fails(test, holder, ty, id),
        ValueType::Defined(id) => defined_fails(test, holder, id),
    }
}

/// Whether a defined type fails: it is tested once.
#[cycle(values)]
fn defined_fails(test: Test<'_>, holder: &mut Holder, id: DefinedTypeId) -> Result<bool, AllocError>
    ensures keeps { OnOk result (Keeps test.entry.types.now holder.old holder.new) }
    ensures fails { IfOk result (TellsValue test.entry.types.now holder.old (ValueType.Defined id)) }
{
    test.types.see_acyclic();
    let ty = ValueType::Defined(id);
    if !test.types.has(ItemKind::Value(ty)) {
        return Ok(true);
    }
    if let Some(fails) = holder.tested(id) {
        return Ok(fails);
    }
    let below = places_fail(test, holder, ItemKind::Value(ty))?;
    let fails = unused_fails(test, holder, ty, below)?;
    holder.remember(id, fails)?;
    Ok(fails)
}

/// Whether a value type in a place fails.
#[cycle(values)]
fn places_fail(test: Test<'_>, holder: &mut Holder, kind: ItemKind) -> Result<bool, AllocError>
    ensures keeps { OnOk result (Keeps test.entry.types.now holder.old holder.new) }
    ensures fails { IfOk result (TellsPlaces test.entry.types.now holder.old kind) }
{
    if !test.types.has(kind) {
        return Ok(true);
    }
    let mut at: u128 = 0;
    while let Some(place) = test.types.place(kind, at) {
        if let Some(ty) = value_in_place(place) {
            if value_fails(test, holder, ty)? {
                return Ok(true);
            }
        }
        at += 1;
    }
    Ok(false)
}

// ---- items

/// Whether a resource item fails: it has no alias, another name than its own, and no use gives it, or its root does
/// not stand there.
fn resource_fails(
    test: Test<'_>,
    holder: &Holder,
    item: Item<'_>,
    id: ResourceId,
) -> Result<bool, AllocError>
    requires { item.kind ≡ ItemKind.Ty (TypeKind.Resource id) }
    ensures { IfOk result (TellsOf test.entry holder.now item.entry) }
{
    test.types.see_acyclic();
    if !test.types.has(ItemKind::Ty(Type::Resource(id))) {
        return Ok(true);
    }
    let resource = test.types.resource(id);
    if resource.alias.is_some() {
        return Ok(handle_fails(test, holder, id));
    }
    if item.name == resource.name.as_str() {
        return Ok(false);
    }
    let is_given = holder.gives(test.alloc, test.types, item)?;
    Ok(!is_given)
}

fn module_fails(test: Test<'_>, id: ModuleTypeId) -> bool
    ensures { Stands test.entry.types.now (ItemKind.Module id) → result ≡ module_unwritable test.entry.types.now id }
{
    test.types.see_acyclic();
    !test.types.has(ItemKind::Module(id)) || !is_writable_module(test.types.module_type(id))
}

/// Whether a type item fails that is no interface and no world.
fn type_fails(
    test: Test<'_>,
    holder: &mut Holder,
    item: Item<'_>,
    ty: Type,
) -> Result<bool, AllocError>
    requires { item.kind ≡ ItemKind.Ty ty }
    ensures keeps { OnOk result (Keeps test.entry.types.now holder.old holder.new) }
    ensures fails { IfOk result (λ b. IsSimple item.entry.kind → TellsOf test.entry holder.old item.entry b) }
{
    test.types.see_acyclic();
    match ty {
        Type::Resource(id) => resource_fails(test, holder, item, id),
        Type::Func(id) => places_fail(test, holder, ItemKind::Func(id)),
        Type::Value(ty) => value_fails(test, holder, ty),
        Type::Interface(_) => Ok(true),
        Type::World(_) => Ok(true),
        Type::Module(_) => Ok(true),
    }
}

/// Whether an item fails that is of no interface and of no world.
fn simple_fails(test: Test<'_>, holder: &mut Holder, item: Item<'_>) -> Result<bool, AllocError>
    ensures keeps { OnOk result (Keeps test.entry.types.now holder.old holder.new) }
    ensures fails { IfOk result (λ b. IsSimple item.entry.kind → TellsOf test.entry holder.old item.entry b) }
{
    test.types.see_acyclic();
    match item.kind {
        ItemKind::Ty(ty) => type_fails(test, holder, item, ty),
        ItemKind::Func(id) => places_fail(test, holder, ItemKind::Func(id)),
        ItemKind::Instance(_) => Ok(true),
        ItemKind::Component(_) => Ok(true),
        ItemKind::Module(id) => Ok(module_fails(test, id)),
        ItemKind::Value(_) => Ok(true),
    }
}

/// Whether an item fails, in what holds it.
#[cycle(items)]
fn item_fails(test: Test<'_>, holder: &mut Holder, item: Item<'_>) -> Result<bool, AllocError>
    ensures keeps { OnOk result (Keeps test.entry.types.now holder.old holder.new) }
    ensures fails { IfOk result (TellsFound test.entry (TellsOf test.entry holder.old item.entry)) }
    ensures simple { IfOk result (λ b. IsSimple item.entry.kind → TellsOf test.entry holder.old item.entry b) }
{
    test.types.see_acyclic();
    if let Some(id) = interface_of(test.types, item.kind) {
        return interface_fails(test, id, Which::All);
    }
    if let Some(id) = world_of(test.types, item.kind) {
        return world_fails(test, id);
    }
    simple_fails(test, holder, item)
}

/// Whether an item fails, in what holds it, that no use gives.
#[cycle(items)]
fn ungiven_fails(test: Test<'_>, holder: &mut Holder, item: Item<'_>) -> Result<bool, AllocError>
    ensures keeps { OnOk result (Keeps test.entry.types.now holder.old holder.new) }
    ensures fails { IfOk result (TellsFound test.entry (TellsUngiven test.entry holder.old item.entry)) }
{
    if holder.gives(test.alloc, test.types, item)? {
        return Ok(false);
    }
    item_fails(test, holder, item)
}

/// Whether an item fails, in what holds it, that is tested and that no use gives.
#[cycle(items)]
fn tested_fails(
    test: Test<'_>,
    holder: &mut Holder,
    item: Item<'_>,
    which: Which,
) -> Result<bool, AllocError>
    ensures keeps { OnOk result (Keeps test.entry.types.now holder.old holder.new) }
    ensures fails { IfOk result (TellsFound test.entry (TellsTested test.entry holder.old which item.entry)) }
{
    if !is_tested(which, item.kind) {
        return Ok(false);
    }
    ungiven_fails(test, holder, item)
}

/// Whether an export of an interface fails that no use gives.
#[cycle(items)]
fn exports_fail(
    test: Test<'_>,
    holder: &mut Holder,
    id: InterfaceId,
    which: Which,
) -> Result<bool, AllocError>
    ensures { IfOk result (TellsFound test.entry (TellsExports test.entry holder.old which id)) }
{
    for at in 0..export_count(test.types, id) {
        if let Some(item) = export_at(test.types, id, at) {
            if tested_fails(test, holder, item, which)? {
                return Ok(true);
            }
        }
    }
    Ok(false)
}

/// Whether an interface cannot be written with the items that are tested.
#[cycle(items)]
fn interface_fails(test: Test<'_>, id: InterfaceId, which: Which) -> Result<bool, AllocError>
    ensures { IfOk result (TellsFound test.entry (TellsInterface test.entry which id)) }
{
    if test.unnamed.is_found(id) {
        return Ok(true);
    }
    let mut holder = Holder::of_interface(test.alloc, test.types, id)?;
    exports_fail(test, &mut holder, id, which)
}

// ---- component types

/// Whether one item stands for another that is used: one with its tree.
fn stands_for(test: Test<'_>, item: ItemKind, there: Option<ItemKind>) -> Result<bool, AllocError>
    requires item { Stands test.types.now item }
    requires there { IfSome there (Stands test.types.now) }
    ensures { IfOk result (λ b. b ≡ stands_in test.entry.types.now item there) }
{
    test.types.see_acyclic();
    match there {
        Some(there) => is_same_item(test.alloc, test.types, item, there),
        None => Ok(false),
    }
}

/// The interface of an instance.
fn instance_of(kind: ItemKind) -> Option<InterfaceId>
    ensures { result ≡ instance_in kind }
{
    match kind {
        ItemKind::Instance(id) => Some(id),
        _ => None,
    }
}

/// Whether the import of a used interface gives what is used, as itself. Only an instance gives anything.
fn gives_used(test: Test<'_>, import: ItemKind, used: Use<'_>) -> Result<bool, AllocError>
    ensures { IfOk result (TellsGivenBy test.entry import used.entry) }
{
    test.types.see_acyclic();
    let Some(item) = export_named(test.types, used.interface, used.there) else {
        return Ok(true);
    };
    let Some(id) = instance_of(import) else {
        return Ok(false);
    };
    stands_for(test, item, export_named(test.types, id, used.there))
}

/// What gives a component type the types that its items use.
#[derive(Clone, Copy)]
enum GivenBy {
    Nothing,
    /// The imports of a world.
    Imports(WorldId),
    /// The exports of a world, and its imports under other names.
    Exports(WorldId),
}

/// The item that stands there under a name.
fn item_given(types: &Types, by: GivenBy, name: &str) -> Option<ItemKind>
    ensures value { result ≡ value_at (items_by types.now by) name.now }
    ensures stands { IfSome result (Stands types.now) }
{
    match by {
        GivenBy::Nothing => None,
        GivenBy::Imports(world) => import_named(types, world, name),
        GivenBy::Exports(world) => match world_export_named(types, world, name) {
            Some(item) => Some(item),
            None => import_named(types, world, name),
        },
    }
}

/// What is known of the uses of a component type's items.
struct Giver {
    given_by: GivenBy,
    /// The interfaces whose uses were looked at.
    seen: IndexSet<InterfaceId>,
    /// Those whose types do not fail.
    fine: IndexSet<InterfaceId>,
}

impl Drop for Giver {
    fn drop(self) {
        let Giver {
            given_by: _,
            seen: _,
            fine: _,
        } = self;
    }
}

impl Giver {
    fn new(alloc: Global, given_by: GivenBy) -> Self
        ensures given_by { result.given_by ≡ given_by }
        ensures seen { result.seen.keys ≡ [] }
        ensures fine { result.fine.keys ≡ [] }
    {
        Giver {
            given_by,
            seen: IndexSet::new(alloc),
            fine: IndexSet::new(alloc),
        }
    }

    /// Whether what is used is given.
    fn gives(&self, test: Test<'_>, used: Use<'_>, name: &str) -> Result<bool, AllocError>
        ensures { IfOk result (TellsImported test.entry self.now.given_by name.now used.entry) }
    {
        test.types.see_acyclic();
        match item_given(test.types, self.given_by, name) {
            Some(item) => gives_used(test, item, used),
            None => Ok(false),
        }
    }
}

/// Whether a used interface fails that a component type would import: its types are tested once.
#[cycle(items)]
fn types_fail(test: Test<'_>, giver: &mut Giver, id: InterfaceId) -> Result<bool, AllocError>
    ensures { IfOk result (TellsAdded test.entry giver.old giver.new id) }
{
    test.types.see_acyclic();
    if test.is_outer {
        return Ok(true);
    }
    if giver.fine.contains(&id) {
        return Ok(false);
    }
    if interface_fails(test, id, Which::TypesOnly)? {
        return Ok(true);
    }
    let _ = giver.fine.insert(id)?;
    Ok(false)
}

/// Whether a use fails that a component type's imports do not give: in an outer import each; else where the used
/// interface has types that fail. So that a name with another item adds nothing.
#[cycle(items)]
fn use_itself_fails(test: Test<'_>, giver: &mut Giver, used: Use<'_>) -> Result<bool, AllocError>
    ensures { IfOk result (TellsUse test.entry giver.old giver.new used.entry) }
{
    test.types.see_acyclic();
    let Some(name) = identifier(test.types, used.interface) else {
        return Ok(false);
    };
    if giver.gives(test, used, name)? {
        return Ok(false);
    }
    types_fail(test, giver, used.interface)
}

/// Whether a use fails, or one that its interface needs, which is walked once.
#[cycle(items)]
fn use_fails(test: Test<'_>, giver: &mut Giver, used: Use<'_>) -> Result<bool, AllocError>
    ensures { IfOk result (TellsAt test.entry giver.old giver.new used.entry) }
{
    test.types.see_acyclic();
    if use_itself_fails(test, giver, used)? {
        return Ok(true);
    }
    let is_new = giver.seen.insert(used.interface)?;
    if is_new {
        uses_fail(test, giver, ItemKind::Instance(used.interface))
    } else {
        Ok(false)
    }
}

/// Whether one fails that an interface uses, or that such a one needs.
#[cycle(items)]
fn direct_fails(test: Test<'_>, giver: &mut Giver, id: InterfaceId) -> Result<bool, AllocError>
    ensures { IfOk result (TellsDirect test.entry giver.old giver.new id) }
{
    test.types.see_acyclic();
    for at in 0..use_count(test.types, id) {
        if let Some(used) = use_at(test.types, id, at) {
            if use_fails(test, giver, used)? {
                return Ok(true);
            }
        }
    }
    Ok(false)
}

/// Whether one fails that an item needs: by the uses of its interface, or by an export of it.
#[cycle(items)]
fn uses_fail(test: Test<'_>, giver: &mut Giver, kind: ItemKind) -> Result<bool, AllocError>
    ensures { IfOk result (TellsNeeded test.entry giver.old giver.new kind) }
{
    test.types.see_acyclic();
    let Some(id) = interface_of(test.types, kind) else {
        return Ok(false);
    };
    if direct_fails(test, giver, id)? {
        return Ok(true);
    }
    for at in 0..export_count(test.types, id) {
        if let Some(item) = export_at(test.types, id, at) {
            if uses_fail(test, giver, item.kind)? {
                return Ok(true);
            }
        }
    }
    Ok(false)
}

/// Whether one fails that a world uses, or that such a one needs.
#[cycle(items)]
fn world_uses_fail(test: Test<'_>, giver: &mut Giver, id: WorldId) -> Result<bool, AllocError>
    ensures { IfOk result (TellsWorldUses test.entry giver.old giver.new id) }
{
    test.types.see_acyclic();
    for at in 0..world_use_count(test.types, id) {
        if let Some(used) = world_use_at(test.types, id, at) {
            if use_fails(test, giver, used)? {
                return Ok(true);
            }
        }
    }
    Ok(false)
}

/// Whether a use fails that an import of a world needs.
#[cycle(items)]
fn uses_of_imports_fail(test: Test<'_>, giver: &mut Giver, id: WorldId) -> Result<bool, AllocError>
    ensures { IfOk result (TellsUsesOfImports test.entry giver.old giver.new id) }
{
    test.types.see_acyclic();
    for at in 0..import_count(test.types, id) {
        if let Some(item) = import_at(test.types, id, at) {
            if uses_fail(test, giver, item.kind)? {
                return Ok(true);
            }
        }
    }
    Ok(false)
}

/// Whether a use fails that an export of a world needs.
#[cycle(items)]
fn uses_of_exports_fail(test: Test<'_>, giver: &mut Giver, id: WorldId) -> Result<bool, AllocError>
    ensures { IfOk result (TellsUsesOfExports test.entry giver.old giver.new id) }
{
    test.types.see_acyclic();
    for at in 0..world_export_count(test.types, id) {
        if let Some(item) = world_export_at(test.types, id, at) {
            if uses_fail(test, giver, item.kind)? {
                return Ok(true);
            }
        }
    }
    Ok(false)
}

/// Whether an import of a world fails that no use gives.
#[cycle(items)]
fn imports_fail(test: Test<'_>, holder: &mut Holder, id: WorldId) -> Result<bool, AllocError>
    ensures keeps { OnOk result (Keeps test.entry.types.now holder.old holder.new) }
    ensures fails { IfOk result (TellsFound test.entry (TellsImports test.entry holder.old id)) }
{
    test.types.see_acyclic();
    for at in 0..import_count(test.types, id) {
        if let Some(item) = import_at(test.types, id, at) {
            if ungiven_fails(test, holder, item)? {
                return Ok(true);
            }
        }
    }
    Ok(false)
}

/// Whether an export of a world fails.
#[cycle(items)]
fn world_exports_fail(test: Test<'_>, holder: &mut Holder, id: WorldId) -> Result<bool, AllocError>
    ensures { IfOk result (TellsFound test.entry (TellsWorldExports test.entry holder.old id)) }
{
    test.types.see_acyclic();
    for at in 0..world_export_count(test.types, id) {
        if let Some(item) = world_export_at(test.types, id, at) {
            if item_fails(test, holder, item)? {
                return Ok(true);
            }
        }
    }
    Ok(false)
}

/// Whether a use fails that a world or one of its items needs.
#[cycle(items)]
fn all_uses_fail(test: Test<'_>, giver: &mut Giver, id: WorldId) -> Result<bool, AllocError>
    ensures { IfOk result (TellsAllUses test.entry giver.old giver.new id) }
{
    test.types.see_acyclic();
    if world_uses_fail(test, giver, id)? {
        return Ok(true);
    }
    if uses_of_imports_fail(test, giver, id)? {
        return Ok(true);
    }
    uses_of_exports_fail(test, giver, id)
}

/// Whether a use fails that a world or one of its items needs, beside its own imports.
#[cycle(items)]
fn uses_of_world_fail(test: Test<'_>, id: WorldId) -> Result<bool, AllocError>
    ensures { IfOk result (TellsUsesOfWorld test.entry id) }
{
    let mut giver = Giver::new(test.alloc, GivenBy::Imports(id));
    all_uses_fail(test, &mut giver, id)
}

/// Whether an import of a world fails that no use gives, or an export, in what holds them.
#[cycle(items)]
fn all_items_fail(test: Test<'_>, holder: &mut Holder, id: WorldId) -> Result<bool, AllocError>
    ensures { IfOk result (TellsFound test.entry (TellsItems test.entry holder.old id)) }
{
    if imports_fail(test, holder, id)? {
        return Ok(true);
    }
    world_exports_fail(test, holder, id)
}

/// Whether an import of a world fails that no use gives, or an export.
#[cycle(items)]
fn items_of_world_fail(test: Test<'_>, id: WorldId) -> Result<bool, AllocError>
    ensures { IfOk result (TellsFound test.entry (TellsItemsOfWorld test.entry id)) }
{
    let mut holder = Holder::of_world(test.alloc, test.types, id)?;
    all_items_fail(test, &mut holder, id)
}

/// Whether a component type cannot be written.
#[cycle(items)]
fn world_fails(test: Test<'_>, id: WorldId) -> Result<bool, AllocError>
    ensures { IfOk result (TellsFound test.entry (TellsWorld test.entry id)) }
{
    test.types.see_acyclic();
    if test.unnamed.is_found_of_world(test.types, id) {
        return Ok(true);
    }
    if uses_of_world_fail(test, id)? {
        return Ok(true);
    }
    items_of_world_fail(test, id)
}

// ---- at the root

/// The first import of a world that fails in what holds it: its place.
fn first_that_fails(
    test: Test<'_>,
    holder: &mut Holder,
    world: WorldId,
) -> Result<Option<usize>, AllocError>
    ensures { IfOk result (TellsFirstUnwritten test.entry holder.old world) }
{
    for at in 0..import_count(test.types, world) {
        if let Some(item) = import_at(test.types, world, at) {
            if item_fails(test, holder, item)? {
                return Ok(Some(at));
            }
        }
    }
    Ok(None)
}

/// The first outer import whose type cannot be written: its place.
pub fn unwritable_outer(test: Test<'_>, world: WorldId) -> Result<Option<usize>, AllocError>
    ensures { IfOk result (TellsOuter test.entry world) }
{
    let mut holder = Holder::of_world(test.alloc, test.types, world)?;
    first_that_fails(test, &mut holder, world)
}

/// Whether a use fails that an interface needs inside a component type of its own, which imports nothing.
fn wrapped_uses_fail(test: Test<'_>, id: InterfaceId) -> Result<bool, AllocError>
    ensures { IfOk result (TellsWrappedUses test.entry id) }
{
    let mut giver = Giver::new(test.alloc, GivenBy::Nothing);
    uses_fail(test, &mut giver, ItemKind::Instance(id))
}

/// Whether an interface cannot be written inside a component type of its own.
fn wrapped_fails(test: Test<'_>, id: InterfaceId) -> Result<bool, AllocError>
    ensures { IfOk result (TellsFound test.entry (TellsWrapped test.entry id)) }
{
    test.types.see_acyclic();
    if wrapped_uses_fail(test, id)? {
        return Ok(true);
    }
    interface_fails(test, id, Which::All)
}

/// The interface with identifier that a definition is.
fn wrapped_interface(types: &Types, kind: ItemKind) -> Option<InterfaceId>
    ensures { result ≡ wrapped_in types.now kind }
{
    match kind {
        ItemKind::Ty(ty) => match ty {
            Type::Interface(id) => match identifier(types, id) {
                Some(_) => Some(id),
                None => None,
            },
            _ => None,
        },
        _ => None,
    }
}

/// Whether a definition cannot be written, beside the outer imports that stand in a holder.
pub fn is_unwritable_definition(
    test: Test<'_>,
    outers: &mut Holder,
    item: Item<'_>,
) -> Result<bool, AllocError>
    ensures keeps { OnOk result (Keeps test.entry.types.now outers.old outers.new) }
    ensures fails { IfOk result (TellsFound test.entry (TellsDefinition test.entry outers.old item.entry)) }
    ensures simple { IfOk result (λ b. IsSimple item.entry.kind → TellsDefinition test.entry outers.old item.entry b) }
{
    test.types.see_acyclic();
    match wrapped_interface(test.types, item.kind) {
        Some(id) => wrapped_fails(test, id),
        None => item_fails(test, outers, item),
    }
}

/// Whether a use fails that a package's world or one of its imports needs.
fn uses_of_package_fail(test: Test<'_>, id: WorldId) -> Result<bool, AllocError>
    ensures { IfOk result (TellsUsesOfPackage test.entry id) }
{
    let mut giver = Giver::new(test.alloc, GivenBy::Imports(id));
    if world_uses_fail(test, &mut giver, id)? {
        return Ok(true);
    }
    uses_of_imports_fail(test, &mut giver, id)
}

/// Whether a use fails that an export of a package's world needs.
fn uses_of_package_exports_fail(test: Test<'_>, id: WorldId) -> Result<bool, AllocError>
    ensures { IfOk result (TellsUsesOfPackageExports test.entry id) }
{
    let mut giver = Giver::new(test.alloc, GivenBy::Exports(id));
    uses_of_exports_fail(test, &mut giver, id)
}

/// Whether a package's world cannot be written as the type of an import.
pub fn is_unwritable_package(test: Test<'_>, world: WorldId) -> Result<bool, AllocError>
    requires { test.is_outer ≡ true }
    ensures { IfOk result (TellsFound test.entry (TellsPackage test.entry world)) }
{
    test.types.see_acyclic();
    if test.unnamed.is_found_of_world(test.types, world) {
        return Ok(true);
    }
    if uses_of_package_fail(test, world)? {
        return Ok(true);
    }
    if uses_of_package_exports_fail(test, world)? {
        return Ok(true);
    }
    items_of_world_fail(test, world)
}

/// Whether an item cannot be written where nothing stands beside it.
pub fn is_unwritable_alone(test: Test<'_>, item: Item<'_>) -> Result<bool, AllocError>
    ensures { IfOk result (TellsFound test.entry (TellsAlone test.entry item.entry)) }
{
    let mut holder = Holder::empty(test.alloc);
    item_fails(test, &mut holder, item)
}
