//! Imports of a component type, or of the root, with the interfaces that they use.

ghost use Rattle.std.specs.Prelude.{◌≡◌, ◌++◌, ◌∷◌, ℕ, List, [], Some, true, false, length, slice_get, slice_set, IfSome, IfNone, IfOk, IfErr, OnOk};
ghost use Rattle.wac_types_base.specs.declared.ids.WorldId.{WorldId};
ghost use Rattle.wac_types_base.specs.declared.item.ItemKind.{ItemKind};
ghost use Rattle.wac_types_base.specs.Record.{Collection};
ghost use Rattle.wac_types_base.specs.Entries.{names_of, has_name, AreDistinct};
ghost use Rattle.wac_types_base.specs.Collection.{Stands};
ghost use Rattle.wac_types_fit.specs.Trees.{IsInside};
ghost use Rattle.wac_graph_bytes.specs.declared.value.Sort.TheVariants.{Instance};
ghost use Rattle.wac_graph_bytes.specs.Counting.{description_sort};
ghost use Rattle.wac_graph_bytes.specs.Typing.{Worlds, Scope, nothing_inside};
ghost use Rattle.wac_graph_scopes.specs.Used.{put_used, IsUsedAs};
ghost use Rattle.wac_types_parts.specs.Parts.{IsUsedKind};
ghost use Rattle.wac_graph_scopes.specs.Items.{IsItemScope, with_known, Never, Misses, HasNameAt, HasEntry, IsNoResource, DescribesSimply, DescribesEntry, DescribesOwn};
ghost use Rattle.wac_graph_scopes.specs.Orders.{IsOrder, SourcesFirst};
ghost use Rattle.wac_graph_scopes.specs.UsePlaces.{SourcesBehind};
ghost use Rattle.wac_graph_scopes.specs.Prepared.{KeepsUsed, KeepsTaken, StandsNamed, StandsTaken, StandsUsedAt, AllUsedStand, IsPrepared, IsPreparedAt};
ghost use Rattle.wac_graph_scopes.specs.ItemRefusals.{RefusedTypeApart, RefusedItem, RefusedUse};
ghost use Rattle.wac_graph_scopes.specs.InstanceRefusals.{LacksIdentifier, UseRefused, LacksIdentifiers, RefusesInstance, RefusesOther};
ghost use Rattle.wac_graph_scopes.specs.Imports.{all_imports, all_exports, IsUseOf, IsGivenBy, NoneWritten, IsInstanceImport, IsPlaced, GivesTaken, NotGiven, FindsSource, AddsUsed, AliasesUse, KeepsWorld, DescribesImport, DescribesThere, DescribesOther, MayDescribe};
ghost use Rattle.wac_graph_scopes.specs.ImportRefusals.{IsGivenUnnamed, UsesUnnamed, RefusesImport, RefusesImportPlaced, RefusesExporting};
ghost use Rattle.wac_graph_scopes.specs.Imports.{import_places, FindsFirst, IsImportedAs, IsFoundFor, FindsImported};
ghost use Rattle.wac_graph_scopes.specs.Imports.{ImportsDescribed, ImportsAt, WritesImport, WritesInOrder, ExportsIndexed, BeginsWorld};

use crate::error::WriteError;
use crate::import_places::{add_asked_names, add_empty, add_places};
use crate::items::{
    Around, ItemScope, add_name, describe, export_item, export_resource, exports_taken, find_used,
    push_func_type,
};
use crate::order::{ImportOrder, order_of};
use crate::scope::KnownTypes;
use crate::used::{TypeName, UsedIndex, UsedTypes};
use crate::value::{define_apart, fits_in};
use std::alloc::{AllocError, Global};
use std::mem;
use wac_graph_bytes::{Declaration, Description, Sort};
use wac_types_base::{InterfaceId, ItemKind, NamedMap, Names, Type, Types, UsedType, WorldId};
use wac_types_parts::parts::{
    Item, Use, export_at, export_count, identifier, import_at, import_count, interface_of,
    is_fresh, taken, use_at, use_count, use_named, world_export_at, world_export_count,
    world_use_at, world_use_count, world_use_named,
};

/// An index of a sort.
#[derive(Clone, Copy, Debug)]
pub struct SortIndex {
    pub sort: Sort,
    pub index: u64,
}

/// The imports of a world while they are written, with the types of imported instances that are used.
#[derive(Drop)]
pub struct ImportScope {
    pub scope: ItemScope,
    pub used: UsedTypes,
    /// What is written of the imports, in their order.
    pub places: Vec<Option<SortIndex>>,
    /// Where the imports stand, by the names under which they are asked for.
    found: NamedMap<usize>,
}

/// A use, and the type that it takes.
#[derive(Clone, Copy)]
pub(crate) struct TakenUse<'a> {
    pub used: Use<'a>,
    pub item: ItemKind,
}

/// A world whose imports are written, and their places by other names under which they are asked for.
#[derive(Clone, Copy)]
pub struct Importing<'a> {
    pub types: &'a Types,
    pub world: WorldId,
    pub places: &'a NamedMap<usize>,
    /// What imports are used types, beside those that the world uses itself.
    pub uses: &'a NamedMap<UsedType>,
    /// Whether exports are over the interfaces that the world exports, where it exports those that they use.
    pub over_exports: bool,
}

/// The use that gives a name: the world's own, or else one that is told beside the world.
pub(crate) fn use_of<'a>(all: Importing<'a>, name: &'a str) -> Option<Use<'a>>
    ensures found { IfSome result (IsUseOf all.entry name.now) }
    ensures none { IfNone result (Never (IsUseOf all.entry name.now)) }
{
    match world_use_named(all.types, all.world, name) {
        Some(used) => Some(used),
        None => use_named(all.uses, name),
    }
}

/// The use that gives an import: that of its name, if it takes a type with the import's tree.
pub(crate) fn use_giving<'a>(
    alloc: Global,
    all: Importing<'a>,
    import: Item<'a>,
) -> Result<Option<TakenUse<'a>>, AllocError>
    ensures found { IfOk result (λ o. IfSome o (IsGivenBy all.entry import.entry)) }
    ensures kind { IfOk result (λ o. IfSome o (λ t. IsUsedKind t.item)) }
    ensures none { IfOk result (λ o. IfNone o (Never (IsGivenBy all.entry import.entry))) }
{
    all.types.see_acyclic();
    let Some(used) = use_of(all, import.name) else {
        return Ok(None);
    };
    let Some(item) = taken(all.types, used) else {
        return Ok(None);
    };
    let fits = fits_in(alloc, all.types, item, import.kind)?;
    if fits {
        Ok(Some(TakenUse { used, item }))
    } else {
        Ok(None)
    }
}

/// What sort an item so described is of.
pub fn sort_of(description: Description) -> Sort
    ensures { result ≡ description_sort description }
{
    match description {
        Description::Module(_) => Sort::Module,
        Description::Func(_) => Sort::Func,
        Description::Equal(_) => Sort::Ty,
        Description::Resource => Sort::Ty,
        Description::Component(_) => Sort::Component,
        Description::Instance(_) => Sort::Instance,
    }
}

/// The interface of the instance that is imported at a place.
fn instance_at(all: Importing<'_>, at: usize) -> Option<InterfaceId>
    ensures found { IfSome result (IsInstanceImport (all_imports all.entry) at) }
    ensures none { IfNone result (Never (IsInstanceImport (all_imports all.entry) at)) }
{
    match import_at(all.types, all.world, at) {
        Some(import) => match import.kind {
            ItemKind::Instance(id) => Some(id),
            _ => None,
        },
        None => None,
    }
}

/// Whether the import at a place is an instance that exports that type.
fn gives(
    alloc: Global,
    all: Importing<'_>,
    at: usize,
    name: &str,
    item: ItemKind,
) -> Result<bool, WriteError>
    ensures yes { GivesTaken all.entry at name.now item result }
    ensures no { NotGiven all.entry at name.now item result }
    ensures refused { IfErr result (λ e. e ≡ WriteError.Memory) }
{
    match instance_at(all, at) {
        Some(id) => exports_taken(alloc, all.types, id, name, item),
        None => Ok(false),
    }
}

/// The index of the instance at a place.
fn instance_index(places: &[Option<SortIndex>], at: usize) -> Option<u64>
    ensures found { IfSome result (IsPlaced places.now at) }
    ensures none { IfNone result (Never (IsPlaced places.now at)) }
{
    match places.get(at) {
        Some(place) => index_of_instance(*place),
        None => None,
    }
}

/// The index of what is written, if it is an instance.
fn index_of_instance(place: Option<SortIndex>) -> Option<u64>
    ensures found { IfSome result (λ k. place ≡ Some (record { sort = Instance; index = k })) }
    ensures none { IfNone result (Never (λ (k : ℕ). place ≡ Some (record { sort = Instance; index = k }))) }
{
    match place {
        Some(place) => index_if_instance(place.sort, place.index),
        None => None,
    }
}

/// The index, if the sort is that of instances.
fn index_if_instance(sort: Sort, index: u64) -> Option<u64>
    ensures found { IfSome result (λ k. (sort ≡ Instance) × (k ≡ index)) }
    ensures none { IfNone result (sort ≡ Instance → ⊥) }
{
    match sort {
        Sort::Instance => Some(index),
        _ => None,
    }
}

/// What an item is, where no types of interfaces stand around; its type is written.
///
/// # Errors
///
/// `WriteError` where its type cannot be written, or memory is wanting.
pub fn describe_alone(
    alloc: Global,
    scope: &mut ItemScope,
    types: &Types,
    kind: ItemKind,
) -> Result<Description, WriteError>
    ensures describes { DescribesSimply types.now kind scope.old scope.new result }
    ensures own { HasEntry kind → DescribesEntry types.now scope.old scope.new result }
    ensures refused { Stands types.now kind → IfErr result (RefusedItem types.now kind scope.old scope.new) }
    ensures instance { RefusesInstance types.now [] 0 kind scope.old result }
{
    let used = UsedTypes::new(alloc);
    let around = Around {
        used: &used,
        depth: 0,
    };
    describe(alloc, scope, types, around, kind)
}

/// What a type is, where no types of interfaces stand around; a value type is an entry of its own.
fn describe_type(
    alloc: Global,
    scope: &mut ItemScope,
    types: &Types,
    ty: Type,
) -> Result<Description, WriteError>
    ensures describes { DescribesSimply types.now (ItemKind.Ty ty) scope.old scope.new result }
    ensures own { IsNoResource ty → DescribesEntry types.now scope.old scope.new result }
    ensures refused { Stands types.now (ItemKind.Ty ty) → IfErr result (RefusedTypeApart types.now ty scope.old scope.new) }
    ensures instance { RefusesInstance types.now [] 0 (ItemKind.Ty ty) scope.old result }
{
    types.see_acyclic();
    match ty {
        Type::Value(ty) => {
            let index = define_apart(alloc, &mut scope.types, types, ty)?;
            Ok(Description::Equal(index))
        }
        Type::Func(id) => {
            let index = push_func_type(alloc, scope, types, id)?;
            Ok(Description::Equal(index))
        }
        Type::Module(_) => Err(WriteError::Unwritable),
        _ => describe_alone(alloc, scope, types, ItemKind::Ty(ty)),
    }
}

impl ImportScope {
    /// No world is begun.
    pub fn new(alloc: Global) -> Self
        ensures scope { (w : Worlds) (c : Collection) (outer : List Scope) → IsItemScope w c outer nothing_inside result.scope }
        ensures used { result.used ≡ [] }
        ensures places { result.places.items ≡ [] }
        ensures found { result.found ≡ [] }
    {
        ImportScope {
            scope: ItemScope::new(alloc),
            used: UsedTypes::new(alloc),
            places: Vec::new(alloc),
            found: NamedMap::new(alloc),
        }
    }

    /// Begins a world: nothing is written of its imports, which are found under the names under which they are asked
    /// for, and under their own.
    pub fn begin(&mut self, alloc: Global, all: Importing<'_>) -> Result<(), AllocError>
        ensures scope { self.new.scope ≡ self.old.scope }
        ensures used { self.new.used ≡ self.old.used }
        ensures places { OnOk result (NoneWritten self.new.places.items) }
        ensures found { OnOk result (FindsFirst self.new.found (self.old.found ++ import_places all.entry)) }
        ensures many { OnOk result (length self.new.places.items ≡ length (all_imports all.entry)) }
    {
        add_asked_names(alloc, all, &mut self.found)?;
        add_places(alloc, all, &mut self.found)?;
        self.places = Vec::new(alloc);
        add_empty(import_count(all.types, all.world), &mut self.places)
    }

    /// What is written of the imports, in their order, which is taken from here.
    pub fn take_places(&mut self, alloc: Global) -> Vec<Option<SortIndex>>
        ensures places { result.items ≡ self.old.places.items }
        ensures scope { self.new.scope ≡ self.old.scope }
        ensures used { self.new.used ≡ self.old.used }
    {
        let none = Vec::new(alloc);
        mem::replace(&mut self.places, none)
    }

    /// Where the imports of the world stand, in the order in which they are written.
    pub fn order(&self, alloc: Global, all: Importing<'_>) -> Result<ImportOrder, AllocError>
        ensures order { IfOk result (λ o. IsOrder (length (all_imports all.entry)) o.sources.items o.others.items) }
        ensures sources { IfOk result (λ o. SourcesFirst all.entry o.sources.items) }
        ensures behind { IfOk result (λ o. SourcesBehind all.entry self.now.found (o.sources.items ++ o.others.items)) }
        ensures distinct { AreDistinct (names_of (all_imports all.entry)) }
    {
        order_of(alloc, all, &self.found)
    }

    /// Where the import stands that is written and gives a used type: its index.
    fn source_of(
        &self,
        alloc: Global,
        all: Importing<'_>,
        name: TypeName<'_>,
        item: ItemKind,
    ) -> Result<Option<u64>, WriteError>
        ensures reads { FindsSource all.entry name.entry.name.now item self.now result }
        ensures found { FindsImported all.entry self.now name.entry.identifier.now name.entry.name.now item result }
        ensures none { Misses all.entry.types.now item
            (IsImportedAs all.entry self.now name.entry.identifier.now name.entry.name.now item) result }
        ensures refused { IfErr result (λ e. e ≡ WriteError.Memory) }
    {
        all.types.see_acyclic();
        let Some(at) = self.found.get(name.identifier) else {
            return Ok(None);
        };
        let Some(instance) = instance_index(self.places.as_slice(), *at) else {
            return Ok(None);
        };
        let given = gives(alloc, all, *at, name.name, item)?;
        if given { Ok(Some(instance)) } else { Ok(None) }
    }

    /// Makes an alias of an import's export, which is a used type.
    pub(crate) fn add_used(
        &mut self,
        alloc: Global,
        types: &Types,
        instance: u64,
        name: TypeName<'_>,
        item: ItemKind,
    ) -> Result<u64, WriteError>
        ensures adds { (world : WorldId) → AddsUsed types.now world instance name.entry.name.now item self.old self.new result }
        ensures used { IfOk result (λ k. self.new.used ≡ put_used self.old.used name.entry.identifier.now name.entry.name.now
            (record { item = item; index = k })) }
        ensures places { self.new.places ≡ self.old.places }
        ensures found { self.new.found ≡ self.old.found }
        ensures refused { IfErr result (λ e. e ≡ WriteError.Memory) }
    {
        types.see_acyclic();
        let index = self.scope.add_alias(alloc, instance, name.name)?;
        self.used.insert(name, UsedIndex { item, index })?;
        Ok(index)
    }

    /// The index of a used type: an alias of the import's export, which is of that type.
    fn alias_of(
        &mut self,
        alloc: Global,
        all: Importing<'_>,
        used: Use<'_>,
        item: ItemKind,
    ) -> Result<Option<u64>, WriteError>
        ensures aliases { AliasesUse all.entry item self.old self.new result }
        ensures none { Misses all.entry.types.now item (IsFoundFor all.entry self.old used.entry item) result }
        ensures refused { IfErr result (RefusedUse all.entry.types.now used.entry) }
        ensures keeps { KeepsTaken all.entry item self.old self.new result }
        ensures stands { StandsTaken all.entry used.entry item self.old self.new result }
        ensures places { self.new.places ≡ self.old.places }
        ensures found { self.new.found ≡ self.old.found }
    {
        let Some(identifier) = identifier(all.types, used.interface) else {
            return Err(WriteError::Unwritable);
        };
        let name = TypeName {
            identifier,
            name: used.there,
        };
        let found = find_used(alloc, all.types, &self.used, name, item)?;
        match found {
            Some(index) => Ok(Some(index)),
            None => self.alias_new(alloc, all, name, item),
        }
    }

    /// The index of a used type that has no alias yet: a new alias of the import's export, which is of that type.
    fn alias_new(
        &mut self,
        alloc: Global,
        all: Importing<'_>,
        name: TypeName<'_>,
        item: ItemKind,
    ) -> Result<Option<u64>, WriteError>
        ensures aliases { AliasesUse all.entry item self.old self.new result }
        ensures none { Misses all.entry.types.now item
            (IsImportedAs all.entry self.old name.entry.identifier.now name.entry.name.now item) result }
        ensures keeps { KeepsTaken all.entry item self.old self.new result }
        ensures stands { StandsNamed all.entry name.entry.identifier.now name.entry.name.now item self.new result }
        ensures places { self.new.places ≡ self.old.places }
        ensures found { self.new.found ≡ self.old.found }
        ensures refused { IfErr result (λ e. e ≡ WriteError.Memory) }
    {
        let source = self.source_of(alloc, all, name, item)?;
        match source {
            Some(instance) => {
                let index = self.add_used(alloc, all.types, instance, name, item)?;
                Ok(Some(index))
            }
            None => Ok(None),
        }
    }

    /// Makes an alias of a used type, which then stands for it unless something does.
    pub(crate) fn alias_noted(
        &mut self,
        alloc: Global,
        all: Importing<'_>,
        used: Use<'_>,
    ) -> Result<(), WriteError>
        ensures keeps { KeepsWorld all.entry self.old self.new result }
        ensures refused { IfErr result (λ e. e ≡ WriteError.Unwritable → LacksIdentifier all.entry.types.now used.entry) }
    {
        match taken(all.types, used) {
            Some(item) => self.alias_taken(alloc, all, used, item),
            None => Ok(()),
        }
    }

    /// Makes an alias of the type that a use takes, which then stands for it unless something does.
    fn alias_taken(
        &mut self,
        alloc: Global,
        all: Importing<'_>,
        used: Use<'_>,
        item: ItemKind,
    ) -> Result<(), WriteError>
        requires stands { Stands all.types.now item }
        requires kind { IsUsedKind item }
        ensures keeps { KeepsWorld all.entry self.old self.new result }
        ensures refused { IfErr result (RefusedUse all.entry.types.now used.entry) }
    {
        let found = self.alias_of(alloc, all, used, item)?;
        match found {
            Some(index) => self.scope.note(alloc, all.types, item, index),
            None => Ok(()),
        }
    }

    /// Makes an alias of the type that an interface uses at a place.
    fn alias_use_at(
        &mut self,
        alloc: Global,
        all: Importing<'_>,
        id: InterfaceId,
        at: usize,
    ) -> Result<(), WriteError>
        ensures keeps { KeepsWorld all.entry self.old self.new result }
        ensures kept { OnOk result (KeepsUsed all.entry self.old self.new) }
        ensures stands { OnOk result (StandsUsedAt all.entry self.new id at) }
        ensures refused { IfErr result (λ e. e ≡ WriteError.Unwritable → UseRefused all.entry.types.now id) }
    {
        let Some(used) = use_at(all.types, id, at) else {
            return Ok(());
        };
        let Some(item) = taken(all.types, used) else {
            return Ok(());
        };
        let _ = self.alias_of(alloc, all, used, item)?;
        Ok(())
    }

    /// Makes aliases of the types that an interface uses.
    fn alias_uses(
        &mut self,
        alloc: Global,
        all: Importing<'_>,
        id: InterfaceId,
    ) -> Result<(), WriteError>
        ensures keeps { KeepsWorld all.entry self.old self.new result }
        ensures kept { OnOk result (KeepsUsed all.entry self.old self.new) }
        ensures stands { OnOk result ((at : ℕ) → StandsUsedAt all.entry self.new id at) }
        ensures refused { IfErr result (λ e. e ≡ WriteError.Unwritable → UseRefused all.entry.types.now id) }
    {
        for at in 0..use_count(all.types, id) {
            self.alias_use_at(alloc, all, id, at)?;
        }
        Ok(())
    }

    /// Makes aliases of all types that an item uses.
    #[cycle(preparing)]
    pub fn prepare(
        &mut self,
        alloc: Global,
        all: Importing<'_>,
        kind: ItemKind,
    ) -> Result<(), WriteError>
        ensures keeps { KeepsWorld all.entry self.old self.new result }
        ensures kept { OnOk result (KeepsUsed all.entry self.old self.new) }
        ensures stands { OnOk result (IsPrepared all.entry self.new kind) }
        ensures refused { IfErr result (λ e. e ≡ WriteError.Unwritable → LacksIdentifiers all.entry.types.now kind) }
    {
        match interface_of(all.types, kind) {
            Some(id) => self.prepare_interface(alloc, all, id),
            None => Ok(()),
        }
    }

    /// Makes aliases of all types that an interface and its exports use.
    #[cycle(preparing)]
    fn prepare_interface(
        &mut self,
        alloc: Global,
        all: Importing<'_>,
        id: InterfaceId,
    ) -> Result<(), WriteError>
        ensures keeps { KeepsWorld all.entry self.old self.new result }
        ensures kept { OnOk result (KeepsUsed all.entry self.old self.new) }
        ensures stands { OnOk result (AllUsedStand all.entry self.new id) }
        ensures refused { IfErr result (λ e. e ≡ WriteError.Unwritable
            → LacksIdentifiers all.entry.types.now (ItemKind.Instance id)) }
    {
        self.alias_uses(alloc, all, id)?;
        for at in 0..export_count(all.types, id) {
            self.prepare_export(alloc, all, id, at)?;
        }
        Ok(())
    }

    /// Makes aliases of all types that the export at a place uses.
    #[cycle(preparing)]
    fn prepare_export(
        &mut self,
        alloc: Global,
        all: Importing<'_>,
        id: InterfaceId,
        at: usize,
    ) -> Result<(), WriteError>
        ensures keeps { KeepsWorld all.entry self.old self.new result }
        ensures kept { OnOk result (KeepsUsed all.entry self.old self.new) }
        ensures stands { OnOk result (IsPreparedAt all.entry self.new id at) }
        ensures refused { IfErr result (λ e. e ≡ WriteError.Unwritable
            → LacksIdentifiers all.entry.types.now (ItemKind.Instance id)) }
    {
        match export_at(all.types, id, at) {
            Some(item) => self.prepare(alloc, all, item.kind),
            None => Ok(()),
        }
    }

    /// What a type is that is used, where it is imported.
    fn describe_used(
        &mut self,
        alloc: Global,
        all: Importing<'_>,
        import: Item<'_>,
    ) -> Result<Option<Description>, WriteError>
        ensures describes { MayDescribe all.entry import.entry self.old self.new result }
        ensures kept { OnOk result (KeepsUsed all.entry self.old self.new) }
        ensures refused { IfErr result (λ e. e ≡ WriteError.Unwritable → IsGivenUnnamed all.entry import.entry) }
    {
        all.types.see_acyclic();
        let given = use_giving(alloc, all, import)?;
        let Some(given) = given else {
            return Ok(None);
        };
        let found = self.alias_of(alloc, all, given.used, given.item)?;
        match found {
            Some(index) => Ok(Some(Description::Equal(index))),
            None => Ok(None),
        }
    }

    /// What an item is that is no resource under its own name; its type is written.
    #[cycle(types)]
    pub fn describe(
        &mut self,
        alloc: Global,
        types: &Types,
        kind: ItemKind,
    ) -> Result<Description, WriteError>
        ensures describes { DescribesThere types.now kind self.old self.new result }
        ensures own { HasEntry kind → DescribesEntry types.now self.old.scope self.new.scope result }
        ensures refused { Stands types.now kind → IfErr result (RefusedItem types.now kind self.old.scope self.new.scope) }
        ensures instance { RefusesInstance types.now self.old.used 0 kind self.old.scope result }
    {
        let around = Around {
            used: &self.used,
            depth: 0,
        };
        describe(alloc, &mut self.scope, types, around, kind)
    }

    /// What a type of another collection than the world's is, where those types of that collection are known. A value
    /// type gets an entry of its own. What is known of the world's collection stays, also on a refusal.
    pub fn describe_apart(
        &mut self,
        alloc: Global,
        types: &Types,
        other: &mut KnownTypes,
        ty: Type,
    ) -> Result<Description, WriteError>
        ensures describes { DescribesOther types.now (ItemKind.Ty ty) self.old other.old self.new other.new result }
        ensures own { IsNoResource ty → DescribesOwn types.now self.old.scope other.old self.new.scope result }
        ensures refused { Stands types.now (ItemKind.Ty ty)
            → IfErr result (RefusedTypeApart types.now ty (with_known other.old self.old.scope) self.new.scope) }
        ensures instance { RefusesOther types.now (ItemKind.Ty ty) self.old.scope other.old result }
        ensures kept { self.new.scope.types.known ≡ self.old.scope.types.known }
    {
        self.scope.types.exchange(other);
        let description = describe_type(alloc, &mut self.scope, types, ty);
        self.scope.types.exchange(other);
        description
    }

    /// What an import is that needs no type written: a type that is used, or a resource under its own name.
    fn describe_plainly(
        &mut self,
        alloc: Global,
        all: Importing<'_>,
        import: Item<'_>,
    ) -> Result<Option<Description>, WriteError>
        ensures describes { MayDescribe all.entry import.entry self.old self.new result }
        ensures kept { OnOk result (KeepsUsed all.entry self.old self.new) }
        ensures prepared { IfOk result (λ o. IfNone o (IsPrepared all.entry self.new import.entry.kind)) }
        ensures refused { IfErr result (λ e. e ≡ WriteError.Unwritable → UsesUnnamed all.entry import.entry) }
    {
        let used = self.describe_used(alloc, all, import)?;
        match used {
            Some(description) => Ok(Some(description)),
            None => self.describe_fresh(alloc, all, import),
        }
    }

    /// What an import is that no use gives and that needs no type written: a resource under its own name.
    fn describe_fresh(
        &mut self,
        alloc: Global,
        all: Importing<'_>,
        import: Item<'_>,
    ) -> Result<Option<Description>, WriteError>
        ensures describes { MayDescribe all.entry import.entry self.old self.new result }
        ensures kept { OnOk result (KeepsUsed all.entry self.old self.new) }
        ensures prepared { IfOk result (λ o. IfNone o (IsPrepared all.entry self.new import.entry.kind)) }
        ensures refused { IfErr result (λ e. e ≡ WriteError.Unwritable → LacksIdentifiers all.entry.types.now import.entry.kind) }
    {
        all.types.see_acyclic();
        if is_fresh(all.types, import) {
            return Ok(Some(Description::Resource));
        }
        self.prepare(alloc, all, import.kind)?;
        Ok(None)
    }

    /// What an import is; its type is written.
    #[cycle(types)]
    fn describe_import(
        &mut self,
        alloc: Global,
        all: Importing<'_>,
        import: Item<'_>,
    ) -> Result<Description, WriteError>
        ensures describes { DescribesImport all.entry import.entry self.old self.new result }
        ensures refused { RefusesImport all.entry import.entry self.old self.new result }
    {
        let plainly = self.describe_plainly(alloc, all, import)?;
        match plainly {
            Some(description) => Ok(description),
            None => self.describe(alloc, all.types, import.kind),
        }
    }

    /// Writes an import that is so described.
    pub fn import(
        &mut self,
        alloc: Global,
        types: &Types,
        import: Item<'_>,
        description: Description,
    ) -> Result<SortIndex, WriteError>
        ensures imports { ImportsDescribed types.now import.entry description self.old.scope self.new.scope result }
        ensures refused { IfErr result (λ e. e ≡ WriteError.Memory) }
        ensures used { self.new.used ≡ self.old.used }
        ensures places { self.new.places ≡ self.old.places }
    {
        let text = String::from_str(alloc, import.name)?;
        let declaration = Declaration::Import(text, description);
        let index = self.scope.add_item(declaration, description)?;
        self.scope.note(alloc, types, import.kind, index)?;
        Ok(SortIndex {
            sort: sort_of(description),
            index,
        })
    }

    /// Says what is written of the import at a place.
    fn set_place(&mut self, at: usize, place: SortIndex)
        ensures places { self.new.places.items ≡ slice_set self.old.places.items at (Some place) }
        ensures scope { self.new.scope ≡ self.old.scope }
        ensures used { self.new.used ≡ self.old.used }
    {
        if at < self.places.len() {
            self.places[at] = Some(place);
        }
    }

    /// Writes the import at a place that is so described.
    fn import_placed(
        &mut self,
        alloc: Global,
        all: Importing<'_>,
        import: Item<'_>,
        description: Description,
        at: usize,
    ) -> Result<(), WriteError>
        ensures imports { ImportsAt all.entry import.entry description at self.old self.new result }
        ensures refused { IfErr result (λ e. e ≡ WriteError.Memory) }
    {
        let place = self.import(alloc, all.types, import, description)?;
        self.set_place(at, place);
        Ok(())
    }

    /// Writes the import at a place.
    #[cycle(types)]
    pub fn write_import(
        &mut self,
        alloc: Global,
        all: Importing<'_>,
        at: usize,
    ) -> Result<(), WriteError>
        ensures writes { WritesImport all.entry at self.old self.new result }
        ensures refused { RefusesImportPlaced all.entry at self.old self.new result }
    {
        let count = import_count(all.types, all.world);
        if at >= count {
            return Ok(());
        }
        match import_at(all.types, all.world, at) {
            Some(import) => {
                let description = self.describe_import(alloc, all, import)?;
                self.import_placed(alloc, all, import, description, at)
            }
            None => Ok(()),
        }
    }

    /// Writes an export of a component type; its index.
    #[cycle(types)]
    pub(crate) fn export(
        &mut self,
        alloc: Global,
        all: Importing<'_>,
        item: Item<'_>,
    ) -> Result<u64, WriteError>
        ensures exports { ExportsIndexed all.entry item.entry self.old self.new result }
        ensures refused { RefusesExporting all.entry item.entry self.old self.new result }
    {
        self.prepare(alloc, all, item.kind)?;
        let around = Around {
            used: &self.used,
            depth: 0,
        };
        export_item(alloc, &mut self.scope, all.types, around, item)
    }
}
