//! Items in a scope of written types, and the types of instances.

ghost use Rattle.std.specs.Prelude.{◌≡◌, ◌+◌, ◌-◌, ◌^◌, List, IfSome, IfNone, IfOk, IfErr, OnOk, Some, false, slice_get};
ghost use Rattle.wac_types_base.specs.declared.item.ItemKind.{ItemKind};
ghost use Rattle.wac_types_base.specs.declared.item.«Type».{«Type» as TypeKind};
ghost use Rattle.wac_types_base.specs.declared.item.ValueType.{ValueType};
ghost use Rattle.wac_types_base.specs.Record.{Collection};
ghost use Rattle.wac_types_base.specs.Entries.{Name, names_of, has_name, put_name, AreDistinct};
ghost use Rattle.wac_types_base.specs.Collection.{Stands};
ghost use Rattle.wac_types_fit.specs.Trees.{IsInside, tree_in};
ghost use Rattle.wac_graph_bytes.specs.Typing.{Worlds, Scope, nothing_inside};
ghost use Rattle.wac_graph_scopes.specs.Used.{IsUsedAs};
ghost use Rattle.wac_types_parts.specs.Parts.{exports_of};
ghost use Rattle.wac_graph_scopes.specs.declared.error.WriteError.{WriteError};
ghost use Rattle.wac_graph_scopes.specs.Known.{KeepsKnown};
ghost use Rattle.wac_graph_scopes.specs.Refusals.{RefusedThere};
ghost use Rattle.wac_graph_scopes.specs.ItemRefusals.{RefusedModule, RefusedType, RefusedItem};
ghost use Rattle.wac_graph_scopes.specs.Stock.{Holds, KeepsTypes};
ghost use Rattle.wac_graph_scopes.specs.InstanceRefusals.{RefusesInstance, RefusesExport, RefusesExports, RefusesWriting, RefusesMaking};
ghost use Rattle.wac_graph_scopes.specs.Items.{IsItemScope, AddsType, EntersType, AddsCore, count_of, with_count, AddsItem, RepeatsType, AliasesOuter, AliasesExport, described_as, Notes};
ghost use Rattle.wac_graph_scopes.specs.Items.{FindsUsed, FindsUnder, Misses, ExportsTaken, NotTaken, HasNameAt, ExportsDescribed, ExportsFresh};
ghost use Rattle.wac_graph_scopes.specs.Items.{StatesType, StatesTypeItem, StatesModule, DescribesSimply, MakesItem, HasEntry, DescribesEntry, StatesItem, StatesClosed, DescribesItem, ExportsOne, WritesOtherAt, WritesOthers, WritesInstance, MakesInstance};

use crate::core_items::module_declarations;
use crate::error::WriteError;
use crate::resources::{note_resource, resource_of};
use crate::scope::{TypeScope, next_of};
use crate::stock::begin_instance;
use crate::used::{TypeName, UsedIndex, UsedTypes};
use crate::value::{define_value, fits_in, note_value, push_func};
use crate::worlds::component_type;
use std::alloc::{AllocError, Global};
use std::mem;
use wac_graph_bytes::{Alias, Declaration, Description, Sort};
use wac_types_base::{
    FuncTypeId, InterfaceId, ItemKind, ModuleTypeId, Names, Type, Types, ValueType, WorldId,
};
use wac_types_parts::parts::{Item, export_at, export_count, export_named, interface_of, world_of};

/// A scope of written types, and how many items of the other sorts stand there.
#[derive(Drop)]
pub struct ItemScope {
    pub types: TypeScope,
    pub cores: u64,
    pub funcs: u64,
    pub components: u64,
    pub instances: u64,
    pub modules: u64,
}

/// The scopes around the one that is written: what stands in one of them, so many scopes further out.
#[derive(Clone, Copy)]
pub struct Around<'a> {
    pub used: &'a UsedTypes,
    pub depth: u64,
}

/// An interface whose instance type is written, and what stands around it.
#[derive(Clone, Copy)]
pub(crate) struct PlacedInterface<'a> {
    pub(crate) types: &'a Types,
    pub(crate) around: Around<'a>,
    pub(crate) id: InterfaceId,
}

impl<'a> Around<'a> {
    /// What stands around, seen from one scope deeper. No alias reaches further out than a number of 64 bits says.
    fn deeper(self) -> Result<Around<'a>, WriteError>
        ensures used { IfOk result (λ a. a.used.now ≡ self.entry.used.now) }
        ensures depth { IfOk result (λ a. a.depth ≡ self.entry.depth + 1) }
        ensures refused { IfErr result (λ e. (e ≡ WriteError.Unwritable) × (self.entry.depth ≡ 2 ^ 64 - 1)) }
    {
        match self.depth.checked_add(1) {
            Some(depth) => Ok(Around {
                used: self.used,
                depth,
            }),
            None => Err(WriteError::Unwritable),
        }
    }
}

impl ItemScope {
    /// Nothing stands there yet.
    pub fn new(alloc: Global) -> Self
        ensures { (w : Worlds) (c : Collection) (outer : List Scope) → IsItemScope w c outer nothing_inside result }
    {
        ItemScope {
            types: TypeScope::new(alloc),
            cores: 0,
            funcs: 0,
            components: 0,
            instances: 0,
            modules: 0,
        }
    }

    /// What is declared, which is taken from here.
    pub fn take_declarations(&mut self, alloc: Global) -> Vec<Declaration>
        ensures { result.items ≡ self.old.types.declarations.items }
    {
        let none = Vec::new(alloc);
        mem::replace(&mut self.types.declarations, none)
    }

    /// Adds a declaration of a type.
    pub(crate) fn add_type(&mut self, declaration: Declaration) -> Result<u64, WriteError>
        ensures adds { AddsType declaration self.old self.new result }
        ensures entry { EntersType declaration self.old self.new result }
        ensures refused { IfErr result (λ e. e ≡ WriteError.Memory) }
        ensures known { self.new.types.known ≡ self.old.types.known }
        ensures resources { self.new.types.resources ≡ self.old.types.resources }
    {
        self.types.declarations.push(declaration)?;
        let index = self.types.types;
        self.types.types = next_of(index);
        Ok(index)
    }

    /// Adds a core module type.
    fn add_core(&mut self, declaration: Declaration) -> Result<u64, WriteError>
        ensures adds { AddsCore declaration self.old self.new result }
        ensures refused { IfErr result (λ e. e ≡ WriteError.Memory) }
        ensures known { self.new.types.known ≡ self.old.types.known }
        ensures resources { self.new.types.resources ≡ self.old.types.resources }
    {
        self.types.declarations.push(declaration)?;
        let index = self.cores;
        self.cores = next_of(index);
        Ok(index)
    }

    /// Adds an import or an export that is so described; its index.
    pub(crate) fn add_item(
        &mut self,
        declaration: Declaration,
        description: Description,
    ) -> Result<u64, WriteError>
        ensures adds { AddsItem declaration description self.old self.new result }
        ensures refused { IfErr result (λ e. e ≡ WriteError.Memory) }
        ensures known { self.new.types.known ≡ self.old.types.known }
        ensures resources { self.new.types.resources ≡ self.old.types.resources }
    {
        self.types.declarations.push(declaration)?;
        let index = self.count_of(description);
        self.set_count(description, next_of(index));
        Ok(index)
    }

    /// How many items of that sort stand here.
    fn count_of(&self, description: Description) -> u64
        ensures { result ≡ count_of description self.now }
    {
        match description {
            Description::Module(_) => self.modules,
            Description::Func(_) => self.funcs,
            Description::Equal(_) => self.types.types,
            Description::Resource => self.types.types,
            Description::Component(_) => self.components,
            Description::Instance(_) => self.instances,
        }
    }

    fn set_count(&mut self, description: Description, next: u64)
        ensures { self.new ≡ with_count description next self.old }
    {
        match description {
            Description::Module(_) => self.modules = next,
            Description::Func(_) => self.funcs = next,
            Description::Equal(_) => self.types.types = next,
            Description::Resource => self.types.types = next,
            Description::Component(_) => self.components = next,
            Description::Instance(_) => self.instances = next,
        }
    }

    /// Adds an alias of a type that stands so many scopes further out.
    pub(crate) fn add_outer(&mut self, depth: u64, index: u64) -> Result<u64, WriteError>
        ensures aliases { AliasesOuter depth index self.old self.new result }
        ensures refused { IfErr result (λ e. e ≡ WriteError.Memory) }
        ensures known { self.new.types.known ≡ self.old.types.known }
        ensures resources { self.new.types.resources ≡ self.old.types.resources }
    {
        self.add_type(Declaration::Alias(Alias::Outer(Sort::Ty, depth, index)))
    }

    /// Adds an alias of a type that stands here: an index of its own for the same type.
    pub fn repeat_type(&mut self, index: u64) -> Result<u64, WriteError>
        ensures repeats { RepeatsType index self.old self.new result }
        ensures refused { IfErr result (λ e. e ≡ WriteError.Memory) }
    {
        self.add_type(Declaration::Alias(Alias::Outer(Sort::Ty, 0, index)))
    }

    /// Adds an alias of a type that an instance exports.
    pub(crate) fn add_alias(
        &mut self,
        alloc: Global,
        instance: u64,
        name: &str,
    ) -> Result<u64, WriteError>
        ensures aliases { AliasesExport instance name.now self.old self.new result }
        ensures refused { IfErr result (λ e. e ≡ WriteError.Memory) }
    {
        let name = String::from_str(alloc, name)?;
        self.add_type(Declaration::Alias(Alias::Export(Sort::Ty, instance, name)))
    }

    /// Remembers the index of a type item: of its resource, or of its value type.
    pub(crate) fn note(
        &mut self,
        alloc: Global,
        types: &Types,
        kind: ItemKind,
        index: u64,
    ) -> Result<(), WriteError>
        ensures notes { Notes types.now kind index self.old self.new result }
        ensures refused { IfErr result (λ e. e ≡ WriteError.Memory) }
        ensures held { Stands types.now kind → OnOk result (Holds types.now self.new.types kind) }
        ensures keeps { OnOk result (KeepsTypes self.old.types self.new.types) }
    {
        types.see_acyclic();
        match kind {
            ItemKind::Ty(ty) => self.note_type(alloc, types, ty, index),
            _ => Ok(()),
        }
    }

    fn note_type(
        &mut self,
        alloc: Global,
        types: &Types,
        ty: Type,
        index: u64,
    ) -> Result<(), WriteError>
        ensures notes { Notes types.now (ItemKind.Ty ty) index self.old self.new result }
        ensures refused { IfErr result (λ e. e ≡ WriteError.Memory) }
        ensures held { Stands types.now (ItemKind.Ty ty) → OnOk result (Holds types.now self.new.types (ItemKind.Ty ty)) }
        ensures keeps { OnOk result (KeepsTypes self.old.types self.new.types) }
    {
        types.see_acyclic();
        match ty {
            Type::Resource(id) => note_resource(alloc, &mut self.types, types, id, index),
            Type::Value(ty) => note_value(&mut self.types, types, ty, index),
            _ => Ok(()),
        }
    }
}

/// The index of such a type of that interface.
pub(crate) fn find_used(
    alloc: Global,
    types: &Types,
    all: &UsedTypes,
    name: TypeName<'_>,
    item: ItemKind,
) -> Result<Option<u64>, WriteError>
    ensures reads { FindsUsed types.now all.now item result }
    ensures found { FindsUnder types.now all.now name.entry.identifier.now name.entry.name.now item result }
    ensures none { Misses types.now item
        (IsUsedAs types.now all.now name.entry.identifier.now name.entry.name.now item) result }
    ensures refused { IfErr result (λ e. e ≡ WriteError.Memory) }
{
    types.see_acyclic();
    match all.get(name) {
        Some(used) => {
            let fits = fits_in(alloc, types, used.item, item)?;
            if fits { Ok(Some(used.index)) } else { Ok(None) }
        }
        None => Ok(None),
    }
}

/// Whether an export is the type that is taken.
pub(crate) fn exports_taken(
    alloc: Global,
    types: &Types,
    id: InterfaceId,
    name: &str,
    item: ItemKind,
) -> Result<bool, WriteError>
    ensures yes { ExportsTaken types.now id name.now item result }
    ensures no { NotTaken types.now id name.now item result }
    ensures refused { IfErr result (λ e. e ≡ WriteError.Memory) }
{
    types.see_acyclic();
    match export_named(types, id, name) {
        Some(own) => {
            let fits = fits_in(alloc, types, own, item)?;
            Ok(fits)
        }
        None => Ok(false),
    }
}

/// Adds a name.
pub(crate) fn add_name(alloc: Global, names: &mut Names, name: &str) -> Result<(), AllocError>
    ensures { OnOk result (names.new ≡ put_name names.old name.now) }
{
    let name = String::from_str(alloc, name)?;
    let _ = names.insert(name)?;
    Ok(())
}

/// Exports an item that is so described; its index.
fn export_described(
    alloc: Global,
    scope: &mut ItemScope,
    types: &Types,
    item: Item<'_>,
    description: Description,
) -> Result<u64, WriteError>
    ensures exports { ExportsDescribed types.now item.entry description scope.old scope.new result }
    ensures held { Stands types.now item.entry.kind → OnOk result (Holds types.now scope.new.types item.entry.kind) }
    ensures keeps { OnOk result (KeepsTypes scope.old.types scope.new.types) }
    ensures refused { IfErr result (λ e. e ≡ WriteError.Memory) }
{
    let text = String::from_str(alloc, item.name)?;
    let declaration = Declaration::Export(text, description);
    let index = scope.add_item(declaration, description)?;
    scope.note(alloc, types, item.kind, index)?;
    Ok(index)
}

/// Exports a resource under its own name.
pub(crate) fn export_resource(
    alloc: Global,
    scope: &mut ItemScope,
    types: &Types,
    item: Item<'_>,
) -> Result<(), WriteError>
    ensures exports { ExportsFresh types.now item.entry scope.old scope.new result }
    ensures held { Stands types.now item.entry.kind → OnOk result (Holds types.now scope.new.types item.entry.kind) }
    ensures keeps { OnOk result (KeepsTypes scope.old.types scope.new.types) }
    ensures refused { IfErr result (λ e. e ≡ WriteError.Memory) }
{
    types.see_acyclic();
    let _ = export_described(alloc, scope, types, item, Description::Resource)?;
    Ok(())
}

/// Exports an item that is no resource under its own name; its index.
#[cycle(types)]
pub(crate) fn export_item(
    alloc: Global,
    scope: &mut ItemScope,
    types: &Types,
    around: Around<'_>,
    item: Item<'_>,
) -> Result<u64, WriteError>
    ensures exports { ExportsOne types.now around.entry item.entry scope.old scope.new result }
    ensures keeps { OnOk result (KeepsTypes scope.old.types scope.new.types) }
    ensures refused { RefusesExport types.now around.entry.used.now around.entry.depth item.entry.kind scope.old result }
    ensures item { Stands types.now item.entry.kind → IfErr result
        (λ e. e ≡ WriteError.Unwritable → RefusedItem types.now item.entry.kind scope.old scope.new WriteError.Unwritable) }
    ensures instance { RefusesInstance types.now around.entry.used.now around.entry.depth item.entry.kind scope.old result }
{
    types.see_acyclic();
    let description = describe(alloc, scope, types, around, item.kind)?;
    export_described(alloc, scope, types, item, description)
}

/// The export at a place, if it is not written yet.
pub(crate) fn other_at<'a>(
    types: &'a Types,
    id: InterfaceId,
    given: &Names,
    at: usize,
) -> Option<Item<'a>>
    ensures inside { IfSome result (λ x. IsInside types.now x.kind (ItemKind.Instance id)) }
    ensures entry { IfSome result (λ x. slice_get (exports_of types.now id) at ≡ Some (x.name.now, x.kind)) }
    ensures new { IfSome result (λ x. has_name given.now x.name.now ≡ false) }
    ensures none { IfNone result (HasNameAt (names_of (exports_of types.now id)) at given.now) }
{
    match export_at(types, id, at) {
        Some(item) => {
            if given.contains(item.name) {
                None
            } else {
                Some(item)
            }
        }
        None => None,
    }
}

/// Exports the item at a place of an interface that is not written yet, and adds its name.
#[cycle(types)]
fn export_other_at(
    alloc: Global,
    scope: &mut ItemScope,
    all: PlacedInterface<'_>,
    at: usize,
    given: &mut Names,
) -> Result<(), WriteError>
    requires { AreDistinct (names_of (exports_of all.types.now all.id)) }
    ensures writes { WritesOtherAt all.entry at scope.old given.old scope.new given.new result }
    ensures keeps { OnOk result (KeepsTypes scope.old.types scope.new.types) }
    ensures refused { RefusesExports all.entry scope.old given.old result }
{
    match other_at(all.types, all.id, given, at) {
        Some(item) => {
            let _ = export_item(alloc, scope, all.types, all.around, item)?;
            Ok(add_name(alloc, given, item.name)?)
        }
        None => Ok(()),
    }
}

/// Exports the items of an interface that are not written yet, and adds their names.
#[cycle(types)]
fn export_others(
    alloc: Global,
    scope: &mut ItemScope,
    all: PlacedInterface<'_>,
    given: &mut Names,
) -> Result<(), WriteError>
    ensures writes { WritesOthers all.entry scope.old given.old scope.new given.new result }
    ensures refused { RefusesExports all.entry scope.old given.old result }
{
    let count = export_count(all.types, all.id);
    for at in 0..count {
        export_other_at(alloc, scope, all, at, given)?;
    }
    Ok(())
}

/// Writes an instance type; its declarations.
#[cycle(types)]
fn write_instance(
    alloc: Global,
    scope: &mut ItemScope,
    all: PlacedInterface<'_>,
) -> Result<Vec<Declaration>, WriteError>
    ensures writes { WritesInstance all.entry scope.old result }
    ensures refused { RefusesWriting all.entry scope.old result }
{
    all.types.see_acyclic();
    let mut given = begin_instance(alloc, scope, all)?;
    export_others(alloc, scope, all, &mut given)?;
    Ok(scope.take_declarations(alloc))
}

/// The declarations of an instance type.
#[cycle(types)]
fn instance_type(alloc: Global, all: PlacedInterface<'_>) -> Result<Vec<Declaration>, WriteError>
    ensures makes { MakesInstance all.entry result }
    ensures refused { RefusesMaking all.entry result }
{
    let mut scope = ItemScope::new(alloc);
    write_instance(alloc, &mut scope, all)
}

/// The index of the type of an instance, which is written.
#[cycle(types)]
fn push_instance_type(
    alloc: Global,
    scope: &mut ItemScope,
    types: &Types,
    around: Around<'_>,
    id: InterfaceId,
) -> Result<u64, WriteError>
    ensures states { StatesItem types.now around.entry (ItemKind.Instance id) scope.old scope.new result }
    ensures entry { MakesItem types.now scope.old scope.new result }
    ensures refused { RefusesInstance types.now around.entry.used.now around.entry.depth (ItemKind.Instance id) scope.old result }
    ensures known { scope.new.types.known ≡ scope.old.types.known }
    ensures resources { scope.new.types.resources ≡ scope.old.types.resources }
{
    let inner = around.deeper()?;
    let all = PlacedInterface {
        types,
        around: inner,
        id,
    };
    let declarations = instance_type(alloc, all)?;
    scope.add_type(Declaration::InstanceType(declarations))
}

/// The index of a component's type, which is written.
#[cycle(types)]
fn push_component_type(
    alloc: Global,
    scope: &mut ItemScope,
    types: &Types,
    id: WorldId,
) -> Result<u64, WriteError>
    ensures states { StatesClosed types.now (ItemKind.Component id) scope.old scope.new result }
    ensures entry { MakesItem types.now scope.old scope.new result }
    ensures known { scope.new.types.known ≡ scope.old.types.known }
    ensures resources { scope.new.types.resources ≡ scope.old.types.resources }
{
    let declarations = component_type(alloc, types, id)?;
    scope.add_type(Declaration::ComponentType(declarations))
}

/// The index of a module's type, which is written.
fn push_module_type(
    alloc: Global,
    scope: &mut ItemScope,
    types: &Types,
    id: ModuleTypeId,
) -> Result<u64, WriteError>
    ensures states { StatesModule types.now id scope.old scope.new result }
    ensures refused { Stands types.now (ItemKind.Module id) → IfErr result (RefusedModule types.now id) }
    ensures known { scope.new.types.known ≡ scope.old.types.known }
    ensures resources { scope.new.types.resources ≡ scope.old.types.resources }
{
    if !types.has(ItemKind::Module(id)) {
        return Err(WriteError::Unwritable);
    }
    let declarations = module_declarations(alloc, types.module_type(id))?;
    scope.add_core(Declaration::Module(declarations))
}

/// The index of a function's type, which is written.
pub(crate) fn push_func_type(
    alloc: Global,
    scope: &mut ItemScope,
    types: &Types,
    id: FuncTypeId,
) -> Result<u64, WriteError>
    ensures stands { IfOk result (λ _. Stands types.now (ItemKind.Func id)) }
    ensures states { StatesType types.now (ItemKind.Func id) scope.old scope.new result }
    ensures entry { MakesItem types.now scope.old scope.new result }
    ensures refused { RefusedThere types.now (ItemKind.Func id) scope.old.types scope.new.types result }
    ensures known { OnOk result (KeepsKnown scope.old.types.known.all.items scope.new.types.known.all.items) }
    ensures resources { scope.new.types.resources ≡ scope.old.types.resources }
{
    if !types.has(ItemKind::Func(id)) {
        return Err(WriteError::Unwritable);
    }
    push_func(alloc, &mut scope.types, types, id)
}

/// The index of a type item that is no interface, no world and no resource under its own name.
fn push_type(
    alloc: Global,
    scope: &mut ItemScope,
    types: &Types,
    ty: Type,
) -> Result<u64, WriteError>
    requires { Stands types.now (ItemKind.Ty ty) }
    ensures states { StatesTypeItem types.now ty scope.old scope.new result }
    ensures refused { IfErr result (RefusedType types.now ty scope.old scope.new) }
    ensures known { OnOk result (KeepsKnown scope.old.types.known.all.items scope.new.types.known.all.items) }
    ensures resources { scope.new.types.resources ≡ scope.old.types.resources }
{
    types.see_acyclic();
    match ty {
        Type::Resource(id) => resource_of(&scope.types, types, id),
        Type::Func(id) => push_func_type(alloc, scope, types, id),
        Type::Value(ty) => push_value_type(alloc, scope, types, ty),
        _ => Err(WriteError::Unwritable),
    }
}

/// The index of a value type, which is written.
fn push_value_type(
    alloc: Global,
    scope: &mut ItemScope,
    types: &Types,
    ty: ValueType,
) -> Result<u64, WriteError>
    ensures states { StatesType types.now (ItemKind.Value ty) scope.old scope.new result }
    ensures refused { RefusedThere types.now (ItemKind.Value ty) scope.old.types scope.new.types result }
    ensures known { OnOk result (KeepsKnown scope.old.types.known.all.items scope.new.types.known.all.items) }
    ensures resources { scope.new.types.resources ≡ scope.old.types.resources }
{
    define_value(alloc, &mut scope.types, types, ty)
}

/// What such an item is, or a function or a module; its type is written.
fn describe_simple(
    alloc: Global,
    scope: &mut ItemScope,
    types: &Types,
    kind: ItemKind,
) -> Result<Description, WriteError>
    requires { Stands types.now kind }
    ensures describes { DescribesSimply types.now kind scope.old scope.new result }
    ensures refused { IfErr result (RefusedItem types.now kind scope.old scope.new) }
    ensures known { OnOk result (KeepsKnown scope.old.types.known.all.items scope.new.types.known.all.items) }
    ensures resources { scope.new.types.resources ≡ scope.old.types.resources }
{
    types.see_acyclic();
    match kind {
        ItemKind::Ty(ty) => {
            let index = push_type(alloc, scope, types, ty)?;
            Ok(Description::Equal(index))
        }
        ItemKind::Func(id) => {
            let index = push_func_type(alloc, scope, types, id)?;
            Ok(Description::Func(index))
        }
        ItemKind::Module(id) => {
            let index = push_module_type(alloc, scope, types, id)?;
            Ok(Description::Module(index))
        }
        _ => Err(WriteError::Unwritable),
    }
}

/// What a thing of the type at an index is, or that type itself.
fn described(kind: ItemKind, index: u64) -> Description
    ensures { result ≡ described_as kind index }
{
    match kind {
        ItemKind::Instance(_) => Description::Instance(index),
        ItemKind::Component(_) => Description::Component(index),
        _ => Description::Equal(index),
    }
}

/// What an item is that is no resource under its own name; its type is written.
#[cycle(types)]
pub(crate) fn describe(
    alloc: Global,
    scope: &mut ItemScope,
    types: &Types,
    around: Around<'_>,
    kind: ItemKind,
) -> Result<Description, WriteError>
    ensures describes { DescribesItem types.now around.entry kind scope.old scope.new result }
    ensures own { HasEntry kind → DescribesEntry types.now scope.old scope.new result }
    ensures refused { Stands types.now kind → IfErr result (RefusedItem types.now kind scope.old scope.new) }
    ensures instance { RefusesInstance types.now around.entry.used.now around.entry.depth kind scope.old result }
    ensures known { OnOk result (KeepsKnown scope.old.types.known.all.items scope.new.types.known.all.items) }
    ensures resources { scope.new.types.resources ≡ scope.old.types.resources }
{
    if !types.has(kind) {
        return Err(WriteError::Unwritable);
    }
    types.see_acyclic();
    if let Some(id) = interface_of(types, kind) {
        let index = push_instance_type(alloc, scope, types, around, id)?;
        return Ok(described(kind, index));
    }
    if let Some(id) = world_of(types, kind) {
        let index = push_component_type(alloc, scope, types, id)?;
        return Ok(described(kind, index));
    }
    describe_simple(alloc, scope, types, kind)
}
