//! A scope of written types.

ghost use Rattle.std.specs.Prelude.{◌≡◌, ◌+◌, ◌-◌, ◌^◌, ◌↔◌, min, List, [], ◌∷◌, ◌++◌, slice_get, Some, IfSome, IfNone, IsSome, true, OnOk, IsTrue, nat_eq, ℕ, string_bytes};
ghost use Rattle.wac_types_base.specs.Record.{Collection};
ghost use Rattle.std.specs.Map.{lookup};
ghost use Rattle.wac_types_base.specs.Entries.{value_at};
ghost use Rattle.wac_types_base.specs.contracts.item.ValueTypePartialEq.TheImpl.{eq-value};
ghost use Rattle.wac_types_base.specs.declared.item.ValueType.{ValueType as ValueKind};
ghost use Rattle.wac_types_base.specs.contracts.ids.ResourceIdPartialEq.TheImpl.{eq-value as same_resource};
ghost use Rattle.wac_graph_scopes.specs.declared.scope.KnownType.{KnownType};
ghost use Rattle.wac_graph_bytes.specs.Typing.{Worlds, Scope, nothing_inside};
ghost use Rattle.wac_graph_scopes.specs.Prints.{ArePrints};
ghost use Rattle.wac_graph_scopes.specs.Known.{ArePlaces, HasId, IsNamed, IsIndexOf, FindsPrint};
ghost use Rattle.wac_graph_scopes.specs.Stock.{KeepsTypes};
ghost use Rattle.wac_graph_scopes.specs.Scopes.{AreKnown, PutsKnown, IsScope, Exchanges, FindsAt, FindsType, Defines, MakesEntry, ExportsNewType, Remembers, FindsKnown, KnowsResource, NotesResource, NotesEntry};

use crate::prints::Prints;
use indexmap::IndexMap;
use std::alloc::{AllocError, Global};
use std::mem;
use wac_graph_bytes::{Declaration, DefinedType, Description};
use wac_types_base::{DefinedTypeId, NamedMap, ResourceId, ValueType};

/// A type of a collection that is written, and its index.
#[derive(Clone, Copy)]
pub struct KnownType {
    pub ty: ValueType,
    pub index: u64,
    /// Whether it has a name of its own here.
    pub named: bool,
}

/// The types of one collection that are written in a scope.
#[derive(Drop)]
pub struct KnownTypes {
    pub all: Vec<KnownType>,
    pub places: Places,
    /// The indexes of resources, by their own entries.
    pub resources: IndexMap<ResourceId, u64>,
}

/// Where types stand in the list of those that are known.
#[derive(Drop)]
pub struct Places {
    /// Of a type by its own id.
    pub by_id: IndexMap<ValueType, usize>,
    /// Of the number of a type that has a name here.
    pub by_print: IndexMap<u64, usize>,
    pub prints: Prints,
}

/// Declarations, how many types they add, and what is known of them.
#[derive(Drop)]
pub struct TypeScope {
    pub declarations: Vec<Declaration>,
    pub types: u64,
    pub known: KnownTypes,
    /// The indexes of resources, by their root names.
    pub resources: NamedMap<u64>,
}

/// The count after this one, or the last that there is. No memory holds as many things as that.
pub(crate) fn next_of(count: u64) -> u64
    ensures { result ≡ min (count + 1) (2 ^ 64 - 1) }
{
    count.saturating_add(1)
}

/// Whether two types have one id.
fn is_same_id(a: ValueType, b: ValueType) -> bool
    ensures { IsTrue result ↔ (a ≡ b) }
{
    a == b
}

impl Places {
    /// Nothing is known.
    pub(crate) fn new(alloc: Global) -> Self
        ensures prints { (c : Collection) → ArePrints c result.prints }
    {
        Places {
            by_id: IndexMap::new(alloc),
            by_print: IndexMap::new(alloc),
            prints: Prints::new(alloc),
        }
    }

    /// Where a type stands.
    fn place_of_id(&self, ty: ValueType) -> Option<usize>
        ensures { result ≡ lookup (eq-value.it ty) self.now.by_id.entries }
    {
        match self.by_id.get(&ty) {
            Some(at) => Some(*at),
            None => None,
        }
    }

    /// Where the first type of a number stands that has a name here.
    pub(crate) fn place_of_print(&self, print: u64) -> Option<usize>
        ensures { result ≡ lookup (nat_eq print) self.now.by_print.entries }
    {
        match self.by_print.get(&print) {
            Some(at) => Some(*at),
            None => None,
        }
    }

    /// Notes where a type of a number stands, unless one stands already.
    pub(crate) fn note_print(&mut self, print: u64, at: usize) -> Result<(), AllocError>
        ensures found { OnOk result (FindsPrint self.new.by_print.entries print) }
        ensures keeps { (n : ℕ) → FindsPrint self.old.by_print.entries n → FindsPrint self.new.by_print.entries n }
        ensures ids { self.new.by_id ≡ self.old.by_id }
        ensures prints { self.new.prints ≡ self.old.prints }
    {
        match self.place_of_print(print) {
            Some(_) => Ok(()),
            None => {
                let _ = self.by_print.insert(print, at)?;
                Ok(())
            }
        }
    }
}

impl KnownTypes {
    /// None is known.
    pub fn new(alloc: Global) -> Self
        ensures { (w : Worlds) (ss : List Scope) (c : Collection) → AreKnown w ss c result }
    {
        KnownTypes {
            all: Vec::new(alloc),
            places: Places::new(alloc),
            resources: IndexMap::new(alloc),
        }
    }

    /// Puts a type at an index, in place of an earlier one of its id.
    pub fn put(&mut self, id: DefinedTypeId, index: u64) -> Result<(), AllocError>
        ensures known { PutsKnown id index self.old self.new result }
        ensures own { OnOk result (HasId self.new.all.items (ValueKind.Defined id)) }
    {
        let ty = ValueType::Defined(id);
        let at = self.all.len();
        self.places.by_id.insert(ty, at)?;
        self.all.push(KnownType {
            ty,
            index,
            named: false,
        })?;
        Ok(())
    }
}

impl TypeScope {
    /// Nothing is written yet.
    pub fn new(alloc: Global) -> Self
        ensures { (w : Worlds) (c : Collection) (outer : List Scope) → IsScope w c outer nothing_inside result }
    {
        let declarations = Vec::new(alloc);
        let known = KnownTypes::new(alloc);
        let resources = NamedMap::new(alloc);
        TypeScope {
            declarations,
            types: 0,
            known,
            resources,
        }
    }

    /// Writes a type without declarations.
    pub fn define(&mut self, ty: DefinedType) -> Result<u64, AllocError>
        ensures stands { Defines ty self.old self.new result }
        ensures entry { (c : Collection) → MakesEntry c self.old self.new result }
        ensures known { self.new.known ≡ self.old.known }
        ensures resources { self.new.resources ≡ self.old.resources }
    {
        let index = self.types;
        self.declarations.push(Declaration::Defined(ty))?;
        self.types = next_of(index);
        Ok(index)
    }

    /// Exports a type that is the one at an index; the export has an index of its own.
    pub fn export_type(&mut self, name: String, ty: u64) -> Result<u64, AllocError>
        ensures exports { ExportsNewType (string_bytes name) ty self.old self.new result }
        ensures known { self.new.known ≡ self.old.known }
        ensures resources { self.new.resources ≡ self.old.resources }
    {
        let own = self.types;
        self.declarations
            .push(Declaration::Export(name, Description::Equal(ty)))?;
        self.types = next_of(own);
        Ok(own)
    }

    /// Remembers a type; in place of an earlier one of that id.
    pub fn remember(&mut self, known: KnownType) -> Result<(), AllocError>
        ensures known { Remembers known self.old self.new result }
        ensures all { OnOk result (self.new.known.all.items ≡ self.old.known.all.items ++ known ∷ []) }
        ensures declarations { self.new.declarations ≡ self.old.declarations }
        ensures resources { self.new.resources ≡ self.old.resources }
    {
        let at = self.known.all.len();
        self.known.places.by_id.insert(known.ty, at)?;
        self.known.all.push(known)?;
        Ok(())
    }

    /// Exchanges the types that are known with others, so that types of another collection can be written here.
    pub fn exchange(&mut self, other: &mut KnownTypes)
        ensures exchanges { Exchanges self.old other.old self.new other.new }
        ensures scope { self.new ≡ record self.old { known = other.old } }
        ensures other { other.new ≡ self.old.known }
    {
        mem::swap(&mut self.known, other);
    }

    /// Remembers the index of a resource.
    pub fn add_resource(&mut self, name: String, index: u64) -> Result<(), AllocError>
        ensures notes { NotesResource (string_bytes name) index self.old self.new result }
        ensures own { OnOk result (value_at self.new.resources (string_bytes name) ≡ Some index) }
        ensures keeps { OnOk result (KeepsTypes self.old self.new) }
        ensures known { self.new.known ≡ self.old.known }
    {
        let _ = self.resources.insert(name, index)?;
        Ok(())
    }

    /// Remembers the index of a resource's own entry, unless one is remembered.
    pub fn add_entry(&mut self, id: ResourceId, index: u64) -> Result<(), AllocError>
        ensures notes { (c : Collection) → NotesEntry c id index self.old self.new result }
        ensures own { OnOk result (IsSome (lookup (same_resource.it id) self.new.known.resources.entries)) }
        ensures keeps { (r : ResourceId) → IsSome (lookup (same_resource.it r) self.old.known.resources.entries)
            → IsSome (lookup (same_resource.it r) self.new.known.resources.entries) }
        ensures all { self.new.known.all ≡ self.old.known.all }
        ensures resources { self.new.resources ≡ self.old.resources }
    {
        match self.entry(id) {
            Some(_) => Ok(()),
            None => {
                let _ = self.known.resources.insert(id, index)?;
                Ok(())
            }
        }
    }

    /// The index of a resource's own entry.
    pub fn entry(&self, id: ResourceId) -> Option<u64>
        ensures { result ≡ lookup (same_resource.it id) self.now.known.resources.entries }
    {
        match self.known.resources.get(&id) {
            Some(index) => Some(*index),
            None => None,
        }
    }

    /// Whether a type is remembered under a name of its own.
    pub(crate) fn is_named(&self, ty: ValueType) -> bool
        ensures { result ≡ true → IsNamed ty self.now.known.all.items }
    {
        match self.known.places.place_of_id(ty) {
            Some(at) => self.is_named_at(at, ty),
            None => false,
        }
    }

    /// Whether what is remembered at a place is the type, under a name of its own.
    fn is_named_at(&self, at: usize, ty: ValueType) -> bool
        ensures { result ≡ true → IsNamed ty self.now.known.all.items }
    {
        match self.known_at(at) {
            Some(known) => is_same_id(known.ty, ty) && known.named,
            None => false,
        }
    }

    /// The index of a type that is written already.
    pub fn known(&self, id: DefinedTypeId) -> Option<u64>
        ensures reads { (c : Collection) → FindsType c self.now id result }
        ensures own { (k : ℕ) → IsIndexOf self.now.known id k → result ≡ Some k }
        ensures found { IfSome result (λ _. HasId self.now.known.all.items (ValueKind.Defined id)) }
        ensures none { (c : Collection) → ArePlaces c self.now.known
            → IfNone result (HasId self.now.known.all.items (ValueKind.Defined id) → ⊥) }
    {
        match self.known.places.place_of_id(ValueType::Defined(id)) {
            Some(at) => self.known_as(at, id),
            None => None,
        }
    }

    /// The index of what is remembered at a place, if it is the type.
    fn known_as(&self, at: usize, id: DefinedTypeId) -> Option<u64>
        ensures reads { (c : Collection) → FindsType c self.now id result }
        ensures own { FindsAt self.now at id result }
        ensures found { IfSome result (λ _. HasId self.now.known.all.items (ValueKind.Defined id)) }
        ensures none { IfNone result ((k : KnownType) → slice_get self.now.known.all.items at ≡ Some k
            → k.ty ≡ ValueKind.Defined id → ⊥) }
    {
        match self.known_at(at) {
            Some(known) => {
                if is_same_id(known.ty, ValueType::Defined(id)) {
                    Some(known.index)
                } else {
                    None
                }
            }
            None => None,
        }
    }

    /// What is remembered at a place.
    pub(crate) fn known_at(&self, at: usize) -> Option<KnownType>
        ensures reads { FindsKnown self.now result }
        ensures item { result ≡ slice_get self.now.known.all.items at }
    {
        match self.known.all.get(at) {
            Some(known) => Some(*known),
            None => None,
        }
    }

    /// The index of a resource that stands here.
    pub fn resource(&self, name: &str) -> Option<u64>
        ensures reads { KnowsResource self.now name.now result }
        ensures found { result ≡ value_at self.now.resources name.now }
    {
        match self.resources.get(name) {
            Some(index) => Some(*index),
            None => None,
        }
    }
}
